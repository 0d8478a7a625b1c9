//! Maps that are written whole.

ghost use Rattle.std.specs.Prelude.{IfErr, List, OnOk};
ghost use Rattle.std.specs.Iterator.{IsFinite};
ghost use Rattle.amqp_base.specs.Shapes.{whole};
ghost use Rattle.amqp_ser.specs.Law.{Wrote, Refused};
ghost use Rattle.amqp_ser.specs.Gathered.{AreGiven, items_of_map};

use crate::{Serialize, Serializer};
use amqp_base::{Error, Shape, Sink};
use amqp_types::OrderedMap;
use std::alloc::Global;
use std::collections::BTreeMap;
use std::hash::Hash;

impl<W: Sink> Serializer<W> {
    /// Writes a map of these entries, so many, which are given twice: where they are only counted
    /// one look is enough for all, else they are written in turn.
    #[inline(always)]
    fn write_map<'m, K: Serialize + 'm, V: Serialize + 'm, I>(
        &mut self,
        alloc: Global,
        count: usize,
        entries: I,
        again: I,
    ) -> Result<(), Error>
    where
        I: Iterator<Item = (&'m K, &'m V)> + Drop,
        requires can { I.can_next entries }
        requires can_again { I.can_next again }
        requires ends { IsFinite (I.remaining entries) }
        requires ends_again { IsFinite (I.remaining again) }
        ensures ok { (all : List (K × V)) → AreGiven I.next_gives entries again count all →
            OnOk result (Wrote self.old.state
            (whole Shape.Map (items_of_map K.meaning V.meaning all)) self.new.state) }
        ensures err { (all : List (K × V)) → AreGiven I.next_gives entries again count all →
            IfErr result (λ e. Refused self.old.state
            (whole Shape.Map (items_of_map K.meaning V.meaning all)) e self.new.state) }
    {
        let mut map = match self.serialize_map(alloc, Some(count)) {
            Ok(map) => map,
            Err(e) => return Err(e),
        };
        if map.counts_entries(entries, count) {
            return map.end();
        }
        match map.write_entries(alloc, again) {
            Ok(()) => map.end(),
            Err(e) => Err(e),
        }
    }
}

impl<K: Serialize + Eq + Hash, V: Serialize> Serialize for OrderedMap<K, V> {
    fn serialize<W: Sink>(&self, alloc: Global, ser: &mut Serializer<W>) -> Result<(), Error> {
        ser.write_map(alloc, self.len(), self.iter(), self.iter())
    }
}

impl<K: Serialize + Ord, V: Serialize> Serialize for BTreeMap<K, V> {
    fn serialize<W: Sink>(&self, alloc: Global, ser: &mut Serializer<W>) -> Result<(), Error> {
        ser.write_map(alloc, self.len(), self.iter(), self.iter())
    }
}
