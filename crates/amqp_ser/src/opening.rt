//! Compounds are opened: buffered, measured, or written behind their header.

ghost use Rattle.std.specs.Prelude.{◌≡◌, [], None, true, false, IfOk, OnOk};
ghost use Rattle.amqp_base.specs.Shapes.{setting_inside};
ghost use Rattle.amqp_ser.specs.State.{mark_in};
ghost use Rattle.amqp_ser.specs.Compound.{open_parts, is_map, Holds, RefusesOpen, next_mark};
ghost use Rattle.amqp_ser.specs.Compound.{outer_in};

use crate::Serializer;
use crate::compound::{Outer, Parts};
use amqp_base::{Error, Pass, Setting, Shape, Sink};
use amqp_write::{Mark, Opened, Place, Refusal, first_mark, no_memory, refused, setting_inside};
use std::alloc::Global;
use std::mem;

impl<W: Sink> Serializer<W> {
    /// Opens a compound, that holds its serializer from then on.
    ///
    /// `OutOfMemory`: there is no memory for its buffer.
    #[inline(always)]
    pub(crate) fn begin(&mut self, alloc: Global, shape: Shape) -> Result<Parts, Error>
        ensures ok { IfOk result (λ p. Holds self.old.state shape []
            (open_parts (is_map shape) self.new.state p)) }
        ensures held { OnOk result (self.new.state.ended ≡ true) }
        ensures err { RefusesOpen shape self.old.state result self.new.state }
    {
        if self.place.ended {
            return Err(refused(Refusal::InvalidValue));
        }
        match self.writer.pass() {
            Pass::Buffers => return self.begin_buffered(alloc, shape),
            Pass::Measures => return self.begin_measured(alloc, shape),
            Pass::Writes => return self.begin_written(alloc, shape),
        }
    }

    /// Opens a compound whose parts go to a buffer.
    #[inline(always)]
    fn begin_buffered(&mut self, alloc: Global, shape: Shape) -> Result<Parts, Error>
        requires answers { self.old.state.ended ≡ false }
        ensures ok { IfOk result (λ p. Holds self.old.state shape []
            (open_parts (is_map shape) self.new.state p)) }
        ensures held { OnOk result (self.new.state.ended ≡ true) }
        ensures err { RefusesOpen shape self.old.state result self.new.state }
    {
        self.place.ended = true;
        if self.place.direct {
            return Err(no_memory());
        }
        match Parts::new(alloc, shape) {
            Ok(parts) => Ok(parts),
            Err(_) => Err(no_memory()),
        }
    }

    /// Opens a compound that is measured, with a place for its size.
    #[inline(always)]
    fn begin_measured(&mut self, alloc: Global, shape: Shape) -> Result<Parts, Error>
        requires answers { self.old.state.ended ≡ false }
        ensures ok { IfOk result (λ p. Holds self.old.state shape []
            (open_parts (is_map shape) self.new.state p)) }
        ensures held { OnOk result (self.new.state.ended ≡ true) }
        ensures err { RefusesOpen shape self.old.state result self.new.state }
    {
        if !self.place.direct {
            self.place.ended = true;
            return Err(no_memory());
        }
        let before = match self.writer.so_far() {
            Some(before) => before,
            None => {
                self.place.ended = true;
                return Err(no_memory());
            }
        };
        if before >= usize::MAX {
            self.place.ended = true;
            return Err(no_memory());
        }
        match self.writer.open_measured() {
            Some(at) => return Ok(self.lend(alloc, shape, Opened::Measured { at, before })),
            None => {
                self.place.ended = true;
                return Err(no_memory());
            }
        }
    }

    /// Opens a compound that is written behind its header.
    #[inline(always)]
    fn begin_written(&mut self, alloc: Global, shape: Shape) -> Result<Parts, Error>
        requires answers { self.old.state.ended ≡ false }
        ensures ok { IfOk result (λ p. Holds self.old.state shape []
            (open_parts (is_map shape) self.new.state p)) }
        ensures held { OnOk result (self.new.state.ended ≡ true) }
        ensures err { RefusesOpen shape self.old.state result self.new.state }
    {
        if !self.place.direct {
            self.place.ended = true;
            return Err(no_memory());
        }
        let size = match self.writer.next_size() {
            Some(size) => size,
            None => {
                self.place.ended = true;
                return Err(no_memory());
            }
        };
        match self.place.head(&mut self.writer, shape, size) {
            Ok(()) => {}
            Err(e) => return Err(refused(e)),
        }
        match self.writer.so_far() {
            Some(from) => return Ok(self.lend(alloc, shape, Opened::Written { size, from })),
            None => {
                self.place.ended = true;
                return Err(no_memory());
            }
        }
    }

    /// What the serializer has is set aside, for a setting and a mark that the next values have.
    #[inline(always)]
    pub(crate) fn set_aside(&mut self, setting: Setting, mark: Mark) -> Outer
        ensures setting { (outer_in result).setting ≡ self.old.state.setting }
        ensures mark { (outer_in result).mark ≡ self.old.state.mark }
        ensures found { (outer_in result).found ≡ self.old.state.found }
        ensures state { self.new.state ≡ record self.old.state {
          setting = setting;
          mark = mark_in None mark;
          found = None;
        } }
    {
        let outer = Outer::Had {
            setting: self.place.setting,
            mark: self.place.mark,
            found: self.place.found,
            descriptor: mem::replace(&mut self.place.descriptor, None),
        };
        self.place.setting = setting;
        self.place.mark = mark;
        self.place.found = None;
        outer
    }

    /// What the serializer has is set aside, for the parts of a compound: outside arrays its
    /// setting alone.
    #[inline(always)]
    fn set_aside_for(&mut self, shape: Shape) -> Outer
        ensures setting { (outer_in result).setting ≡ self.old.state.setting }
        ensures mark { (outer_in result).mark ≡ self.old.state.mark }
        ensures found { (outer_in result).found ≡ self.old.state.found }
        ensures state { self.new.state ≡ record self.old.state {
          setting = setting_inside shape;
          mark = next_mark shape [];
          found = None;
        } }
    {
        match (self.place.mark, self.place.found) {
            (Mark::Unmarked, None) => {
                let outer = Outer::Outside(self.place.setting);
                self.place.setting = setting_inside(shape);
                self.place.mark = first_mark(shape);
                outer
            }
            _ => self.set_aside(setting_inside(shape), first_mark(shape)),
        }
    }

    /// The parts that come stand on the serializer itself, until their compound ends.
    #[inline(always)]
    fn lend(&mut self, alloc: Global, shape: Shape, opened: Opened) -> Parts
        ensures shape { result.shape ≡ shape }
        ensures count { result.count ≡ 0 }
        ensures opened { result.opened ≡ opened }
        ensures answers { result.buffer.state.ended ≡ false }
        ensures setting { (outer_in result.outer).setting ≡ self.old.state.setting }
        ensures mark { (outer_in result.outer).mark ≡ self.old.state.mark }
        ensures found { (outer_in result.outer).found ≡ self.old.state.found }
        ensures state { self.new.state ≡ record self.old.state {
          setting = setting_inside shape;
          mark = next_mark shape [];
          found = None;
          ended = true;
        } }
    {
        let outer = self.set_aside_for(shape);
        self.set_ended(true);
        let buffer = Serializer {
            writer: Vec::new(alloc),
            place: Place::new(Setting::Plain),
        };
        Parts {
            shape,
            buffer,
            count: 0,
            opened,
            outer,
        }
    }
}
