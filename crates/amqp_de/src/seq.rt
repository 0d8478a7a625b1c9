//! Sequences, in whichever form they stand.

ghost use Rattle.std.specs.Prelude.{◌≡◌, ◌+◌, Ok, Err, IfOk, IfErr};
ghost use Rattle.std.specs.Borrow.{sem, RestsIfErr};
ghost use Rattle.amqp_de.specs.Access.{Ends};
ghost use Rattle.amqp_data.specs.Parts.{shared_by};
ghost use Rattle.amqp_de.specs.Decoding.{as_ended};
ghost use Rattle.amqp_de.specs.Openings.{OpensElements, OpensEither, OpensSeq, is_array};
ghost use Rattle.amqp_data.specs.Places.{constructor_of};
ghost use Rattle.amqp_de.specs.ReadParts.{RefusesElements, open_list, open_seq};
ghost use Rattle.amqp_de.specs.Seq.{lender_of, seq_listing, at_open};
ghost use Rattle.amqp_de.specs.contracts.deserializer.Deserializer.{the_row};
ghost use Rattle.amqp_de.specs.Calls.{NextElement};

use crate::list::{Access, Elements, Ended, ListAccess, Open};
use crate::{Deserialize, Deserializer};
use amqp_base::Error;
use amqp_data::{Constructor, Heading, seq_heading};
use amqp_read::Read;
use std::alloc::Global;
use std::mem;

/// The elements of an array (part 1, section 1.6.24), one at a time.
pub type ArrayAccess<'a, R> = Access<'a, R, Elements>;

/// The elements of a sequence, in the form that the item has. Where the access is dropped before
/// its `end`, its deserializer is ended.
#[derive(Drop)]
pub enum SeqAccess<'a, R: Read> {
    /// The item is a list.
    List(ListAccess<'a, R>),
    /// The item is an array.
    Array(ArrayAccess<'a, R>),
}

/// What was opened.
#[derive(Drop)]
pub(crate) enum OpenedSeq {
    List(Open),
    Array(Open),
}

impl<R: Read> Deserializer<R> {
    /// Counts the descriptor that the elements of an array share.
    #[inline(always)]
    fn share(&mut self, stands: &Constructor)
        ensures { self.new ≡ record self.old {
          begun = self.old.begun + shared_by (constructor_of stands.now);
        } }
    {
        match stands {
            Constructor::UnderPair(_, _) => self.begun.tick(),
            _ => {}
        }
    }

    /// Begins a list or an array: its header, and an array's element constructor, are consumed.
    #[inline(always)]
    fn open_either(&mut self, alloc: Global) -> Result<OpenedSeq, Error>
        ensures ok { IfOk result (λ o. OpensSeq self.old self.new o) }
        ensures err { IfErr result (λ e. RefusesElements R.buffers self.old self.new e) }
    {
        if self.ended {
            return Err(Error::InvalidValue);
        }
        match self.begin() {
            Ok(code) => match seq_heading(alloc, &mut self.reader, code) {
                Ok(heading) => {
                    self.ended = false;
                    self.share(&heading.stands);
                    let Heading {
                        is_array,
                        left,
                        stands,
                        limit,
                    } = heading;
                    let open = Open {
                        left,
                        outer: mem::replace(&mut self.inherited, stands),
                        limit,
                    };
                    if is_array {
                        return Ok(OpenedSeq::Array(open));
                    }
                    Ok(OpenedSeq::List(open))
                }
                Err(e) => Err(e),
            },
            Err(e) => Err(e),
        }
    }

    /// Begins a list or an array.
    #[inline(always)]
    pub(crate) fn open_elements(&mut self, alloc: Global) -> Result<Open, Error>
        ensures ok { IfOk result (λ o. OpensEither self.old (at_open self.new o)) }
        ensures err { IfErr result (λ e. RefusesElements R.buffers self.old self.new e) }
    {
        match self.open_either(alloc) {
            Ok(OpenedSeq::List(open)) => Ok(open),
            Ok(OpenedSeq::Array(open)) => Ok(open),
            Err(e) => Err(e),
        }
    }

    /// The elements of a sequence, whichever form it has.
    #[inline(always)]
    #[tactic(auto, unfolding(crate::specs::ReadParts::open_list))]
    pub(crate) fn deserialize_elements(&mut self, alloc: Global) -> Result<ListAccess<'_, R>, Error>
        ensures* refused { sem 𝓛 (RestsIfErr (the_row R.row R.Read) self.entry (λ a.
            a.de.ghost_name) result (λ last.
            IfErr result (λ e. RefusesElements R.buffers self.old last e))) }
        ensures same_reference { IfOk result (λ a. a.de.ghost_name ≡ self.entry.ghost_name) }
        ensures opened { IfOk result (λ a. OpensEither self.old (open_list a)) }
    {
        let opened = self.open_elements(alloc)?;
        Ok(Access {
            de: self,
            inner: opened,
            form: Elements,
        })
    }

    /// Opens a list or an array (part 1, sections 1.6.22 to 1.6.24): its code, size and count are
    /// consumed, and an array's element constructor, which its elements stand under then. The size
    /// of a list is not compared with the bytes that are there. Of an array without elements the
    /// bytes that its size says are consumed, whatever they are.
    ///
    /// In this order: `Io(UnexpectedEof)` where there is no byte, `InvalidFormatCode` where it is
    /// no list's or array's code, `Io(UnexpectedEof)` where size or count are missing,
    /// `InvalidValue` where the count is above 65,536 or above an array's size, `InvalidLength`
    /// where the size of a list doesn't cover the count's own bytes, or that of an array with
    /// elements these and a byte more. Of an array without elements `Io(UnexpectedEof)` where bytes
    /// that its size counts are missing. Then the element constructor: `Io(UnexpectedEof)` where
    /// bytes are missing, `InvalidFormatCode` where a byte is no code, `Message` where a descriptor
    /// is neither a symbol nor an ulong, `InvalidUtf8Encoding` where a symbol isn't UTF-8,
    /// `OutOfMemory` where it finds no memory, `InvalidLength` where the size doesn't cover the
    /// constructor. A refusal ends the deserializer.
    #[inline(always)]
    pub fn deserialize_seq(&mut self, alloc: Global) -> Result<SeqAccess<'_, R>, Error>
        ensures* refused { sem 𝓛 (RestsIfErr (the_row R.row R.Read) self.entry (λ a.
            (lender_of a).ghost_name) result (λ last.
            IfErr result (λ e. RefusesElements R.buffers self.old last e))) }
        ensures same_reference { IfOk result (λ a.
            (lender_of a).ghost_name ≡ self.entry.ghost_name) }
        ensures opened { IfOk result (λ a. OpensElements (is_array a) self.old (open_seq a)) }
    {
        match self.open_either(alloc) {
            Ok(OpenedSeq::List(inner)) => Ok(SeqAccess::List(Access {
                de: self,
                inner,
                form: Elements,
            })),
            Ok(OpenedSeq::Array(inner)) => Ok(SeqAccess::Array(Access {
                de: self,
                inner,
                form: Elements,
            })),
            Err(e) => Err(e),
        }
    }
}

#[tactic(auto, unfolding(crate::specs::ReadParts::open_list, crate::specs::ReadParts::open_seq))]
impl<'a, R: Read> SeqAccess<'a, R> {
    /// The next part; `None` where all were read, and then nothing is consumed.
    ///
    /// Its refusals are those of `ListAccess::next_element`, and each of them ends the access and
    /// its deserializer.
    #[inline(always)]
    pub fn next_element<T: Deserialize<R>>(&mut self, alloc: Global) -> Result<Option<T>, Error>
        ensures same_reference { (lender_of self.new).ghost_name ≡
            (lender_of self.old).ghost_name }
        ensures next { NextElement T.meaning R.buffers (open_seq self.old) result
            (open_seq self.new) }
    {
        match self {
            SeqAccess::List(list) => list.next_element(alloc),
            SeqAccess::Array(array) => array.next_element(alloc),
        }
    }

    /// The parts that are left, whichever form they stand in. Generic code that returns early reads
    /// through these.
    #[inline(always)]
    pub fn into_elements(self) -> ListAccess<'a, R>
        ensures same_reference { result.de.ghost_name ≡ (lender_of self.entry).ghost_name }
        ensures value { open_list result ≡ open_seq self.entry }
    {
        match self {
            SeqAccess::List(list) => list,
            SeqAccess::Array(array) => array,
        }
    }
}

impl<'a, R: Read> SeqAccess<'a, R> {
    /// Ends the access where all parts were read: the deserializer reads on behind it. Nothing is
    /// consumed.
    ///
    /// `SequenceLengthMismatch` where parts were left unread, `InvalidValue` after a refusal; the
    /// deserializer is ended then.
    #[inline(always)]
    pub fn end(self) -> Result<Ended<'a, R>, Error>
        ensures* refused { sem 𝓛 (RestsIfErr (the_row R.row R.Read) (lender_of self.entry) (λ d.
            d.de.ghost_name) result (λ last. last ≡ as_ended (seq_listing self.entry).state)) }
        ensures same_reference { IfOk result (λ d.
            d.de.ghost_name ≡ (lender_of self.entry).ghost_name) }
        ensures ok { IfOk result (λ d. Ends (seq_listing self.entry) (Ok tt) d.de.now) }
        ensures err { IfErr result (λ e.
            Ends (seq_listing self.entry) (Err e) (as_ended (seq_listing self.entry).state)) }
    {
        match self {
            SeqAccess::List(list) => list.closed(),
            SeqAccess::Array(array) => array.closed(),
        }
    }
}
