//! Maps that are read whole.

ghost use Rattle.std.specs.Prelude.{◌≡◌, [], IfOk, IfErr};
ghost use Rattle.amqp_de.specs.Calls.{EntriesRead, EntriesRefused, EntriesNamed};

use crate::{Deserialize, Deserializer};
use amqp_base::Error;
use amqp_read::Read;
use amqp_types::OrderedMap;
use std::alloc::Global;
use std::collections::BTreeMap;
use std::hash::Hash;

/// A map into which pairs are put one after the other.
trait PutsEntry<K, V> {
    ghost use Rattle.std.specs.Prelude.{◌≡◌, List, IsTrue};

    /// Its pairs, in its order.
    ghost entries: { Self → List (K × V) };

    /// Such pairs, into which one more was put.
    ghost placed: { List (K × V) → K → V → List (K × V) };

    /// Puts a value under its key, in place of one that stands there: whether there was memory.
    fn put(&mut self, key: K, value: V) -> bool
        ensures { IsTrue result → entries self.new ≡ placed (entries self.old) key value };
}

impl<K: Eq + Hash + Drop, V: Drop> PutsEntry<K, V> for OrderedMap<K, V> {
    ghost use Rattle.indexmap.specs.IndexMap.{insert_entry};

    ghost entries = { λ map. map };

    ghost placed = { insert_entry K.eq };

    #[inline(always)]
    fn put(&mut self, key: K, value: V) -> bool {
        let replaced = self.insert(key, value);
        replaced.is_ok()
    }
}

impl<K: Ord + Drop, V: Drop> PutsEntry<K, V> for BTreeMap<K, V> {
    ghost use Rattle.std.specs.BTreeMap.{insert_entry};

    ghost entries = { λ map. map.entries };

    ghost placed = { insert_entry K.cmp };

    #[inline(always)]
    fn put(&mut self, key: K, value: V) -> bool {
        let before = self.insert(key, value);
        before.is_ok()
    }
}

impl<R: Read> Deserializer<R> {
    /// Reads the pairs of a map (part 1, section 1.6.23) into one that is empty. A pair whose key
    /// came before gives it another value.
    ///
    /// The refusals are those of `deserialize_map`, of the keys and of the values, and
    /// `OutOfMemory` where there is no memory for a pair.
    #[inline(always)]
    fn read_entries<K, V, M>(&mut self, alloc: Global, empty: M) -> Result<M, Error>
    where
        K: Deserialize<R>,
        V: Deserialize<R>,
        M: PutsEntry<K, V> + Drop,
        requires { M.entries empty ≡ [] }
        ensures ok { IfOk result (λ map. EntriesRead K.meaning V.meaning M.placed (M.entries map)
            self.old self.new) }
        ensures err { IfErr result (λ e.
            EntriesRefused K.meaning V.meaning R.buffers self.old self.new e) }
        ensures named { IfErr result (λ e.
            EntriesNamed K.meaning V.meaning R.buffers self.old self.new e) }
    {
        let mut map = empty;
        let mut access = self.deserialize_map()?;
        'pairs: while let Some((key, value)) = match access.next_entry(alloc) {
            Ok(found) => found,
            Err(e) => return Err(e),
        } {
            if !map.put(key, value) {
                return Err(Error::OutOfMemory);
            }
        }
        access.end()?;
        Ok(map)
    }
}

impl<R: Read, K: Deserialize<R> + Eq + Hash, V: Deserialize<R>> Deserialize<R>
    for OrderedMap<K, V> {
    /// The refusals are those of `deserialize_map`, of the keys and of the values, and
    /// `OutOfMemory` where there is no memory for a pair.
    fn deserialize(alloc: Global, de: &mut Deserializer<R>) -> Result<OrderedMap<K, V>, Error> {
        de.read_entries::<K, V, OrderedMap<K, V>>(alloc, OrderedMap::new(alloc))
    }
}

impl<R: Read, K: Deserialize<R> + Ord, V: Deserialize<R>> Deserialize<R> for BTreeMap<K, V> {
    /// The refusals are those of `deserialize_map`, of the keys and of the values, and
    /// `OutOfMemory` where there is no memory for a pair.
    fn deserialize(alloc: Global, de: &mut Deserializer<R>) -> Result<BTreeMap<K, V>, Error> {
        de.read_entries::<K, V, BTreeMap<K, V>>(alloc, BTreeMap::new(alloc))
    }
}
