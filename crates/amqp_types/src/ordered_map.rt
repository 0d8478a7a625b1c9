//! Maps that keep the order of their keys.

ghost use Rattle.amqp_base.specs.Meaning.{map_of};
ghost use Rattle.amqp_base.specs.ReadBack.{both};
ghost use Rattle.std.specs.Cmp.{IsEquivalence};
ghost use Rattle.std.specs.Prelude.{◌≡◌, ◌==◌, ◌&&◌, ℕ, List, [], length};
ghost use Rattle.std.specs.Prelude.{◌≤◌, slice_range};
ghost use Rattle.std.specs.Prelude.{option_copied, is_some, IfOk, OnOk, IfErr, OnErr, true, refl};
ghost use Rattle.std.specs.Cmp.{on_per, and_per, on_equiv, and_equiv};
ghost use Rattle.std.specs.Cmp.Lexicographic.{pointwise, lists_per, lists_equiv};
ghost use Rattle.std.specs.List.{IsDistinct, AllZip};
ghost use Rattle.std.specs.Borrow.{Lends, LendsSo, follows, sem};
ghost use Rattle.std.specs.List.{remove_range};
ghost use Rattle.indexmap.specs.Drain.{drain_rest, drain_kept, drain_lender};
ghost use Rattle.amqp_types.specs.Drains.{HandsOver};
ghost use Rattle.amqp_types.specs.Rows.{map_row, pairs_row};
ghost use Rattle.std.specs.Option.{option_copied_mut};
ghost use Rattle.std.specs.Map.{lookup, lookup_key, keys_of, values_of, set_value};
ghost use Rattle.std.specs.Option.{option_map};
ghost use Rattle.indexmap.specs.IndexMap.{insert_entry, insert_all};
ghost use Rattle.indexmap.specs.IndexMap.{swap_remove_entry, shift_remove_entry};
ghost use Rattle.amqp_base.specs.declared.error.Error.TheVariants.{OutOfMemory};
ghost use Rattle.amqp_base.specs.Laws.{SameEntries};
ghost use Rattle.amqp_types.specs.OrderedMaps.{SameAreEqual, distinct_again};
ghost use Rattle.std.specs.Iterator.{Drains, IsFinite};

use amqp_base::{Error, NeverNull, RoundTrip, Typed};
use indexmap::IndexMap;
use indexmap::map::{Drain, IntoIter, IntoKeys, IntoValues, Iter, Keys, Values};
use std::alloc::{AllocError, Global};
use std::hash::Hash;
use std::marker::Model;
use std::ops::Range;

/// A map as the list of its pairs, whose keys differ, in the order in which the keys came (part 1,
/// section 1.6.23: the order of a map's pairs counts). A contract sees that list.
///
/// The seed of its hashes is fixed, so where strangers choose the keys, a `BTreeMap` is the other
/// choice.
#[derive(Drop)]
pub struct OrderedMap<K: Eq + Hash, V> {
    pairs: IndexMap<K, V>,
}

impl<K: Eq + Hash, V> Model for OrderedMap<K, V> {
    ghost use Rattle.std.specs.Prelude.{List};

    ghost Value = { List (K × V) };

    ghost view = { λ m. m.pairs.entries };
}

impl<K: Eq + Hash, V> OrderedMap<K, V> {
    /// A map without pairs. It takes no memory.
    pub fn new(alloc: Global) -> OrderedMap<K, V>
        ensures empty { result ≡ [] }
        ensures keys_differ { IsDistinct K.eq (keys_of result) }
    {
        OrderedMap {
            pairs: IndexMap::new(alloc),
        }
    }

    /// A map without pairs that has room for `capacity` of them; `OutOfMemory` where there is none.
    pub fn with_capacity(alloc: Global, capacity: usize) -> Result<OrderedMap<K, V>, Error>
        ensures empty { IfOk result (λ m. m ≡ []) }
        ensures keys_differ { IfOk result (λ m. IsDistinct K.eq (keys_of m)) }
        ensures err { IfErr result (λ e. e ≡ OutOfMemory) }
    {
        match IndexMap::with_capacity(alloc, capacity) {
            Ok(pairs) => Ok(OrderedMap { pairs }),
            Err(AllocError) => Err(Error::OutOfMemory),
        }
    }

    /// A map of the pairs that an iterator gives, each put at its key in turn; `OutOfMemory` where
    /// one finds no memory.
    pub fn from_iter<I: IntoIterator<Item = (K, V)>>(
        alloc: Global,
        iter: I,
    ) -> Result<OrderedMap<K, V>, Error>
    where
        K: Drop,
        V: Drop,
        requires ends { (it : I.IntoIter) → I.into_iter_gives iter it →
            I.IntoIter.can_next it × IsFinite (I.IntoIter.remaining it) }
        ensures ok { IfOk result (λ m. (it : I.IntoIter) × I.into_iter_gives iter it ×
            (given : List (K × V)) × Drains I.IntoIter.next_gives it given ×
            (m ≡ insert_all K.eq [] given)) }
        ensures err { IfErr result (λ e. e ≡ OutOfMemory) }
    {
        Ok(OrderedMap {
            pairs: IndexMap::from_iter(alloc, iter)?,
        })
    }

    /// How many pairs it has.
    pub fn len(&self) -> usize
        ensures len { result ≡ length self.now }
        ensures keys_differ { IsDistinct K.eq (keys_of self.now) }
    {
        self.pairs.len()
    }

    /// Whether it has none.
    pub fn is_empty(&self) -> bool
        ensures { result ≡ (length self.now == 0) }
    {
        self.len() == 0
    }

    /// Puts a value at a key. A key that is there keeps its place, and gives the value that it had;
    /// a new key goes last. Where there is no memory for it, the pair is handed back and the map is
    /// as it was.
    pub fn insert(&mut self, key: K, value: V) -> Result<Option<V>, (K, V)>
    where
        K: Drop,
        V: Drop,
        ensures ok { OnOk result (self.new ≡ insert_entry K.eq self.old key value) }
        ensures had { IfOk result (λ had. had ≡ lookup (K.eq key) self.old) }
        ensures handed_back { IfErr result (λ pair. pair ≡ (key, value)) }
        ensures unchanged { OnErr result (self.new ≡ self.old) }
        ensures keys_differ { IsDistinct K.eq (keys_of self.new) }
    {
        match self.pairs.insert(key, value) {
            Ok(had) => Ok(had),
            Err(refused) => Err(refused.value),
        }
    }

    /// The value at a key.
    pub fn get(&self, key: &K) -> Option<&V>
        ensures { option_copied result ≡ lookup (K.eq key.now) self.now }
    {
        self.pairs.get(key)
    }

    /// Whether a key is there.
    pub fn contains_key(&self, key: &K) -> bool
        ensures { result ≡ is_some (lookup (K.eq key.now) self.now) }
    {
        self.pairs.contains_key(key)
    }

    /// Takes out the pair of a key, and gives its value. The last pair takes its place.
    pub fn swap_remove(&mut self, key: &K) -> Option<V>
    where
        K: Drop,
        ensures value { result ≡ lookup (K.eq key.now) self.old }
        ensures pairs { self.new ≡ swap_remove_entry (K.eq key.now) self.old }
        ensures keys_differ { IsDistinct K.eq (keys_of self.new) }
    {
        self.pairs.swap_remove(key)
    }

    /// Takes out the pair of a key, and gives it. The last pair takes its place.
    pub fn swap_remove_entry(&mut self, key: &K) -> Option<(K, V)>
        ensures key { option_map (λ p. p.0) result ≡ lookup_key (K.eq key.now) self.old }
        ensures value { option_map (λ p. p.1) result ≡ lookup (K.eq key.now) self.old }
        ensures pairs { self.new ≡ swap_remove_entry (K.eq key.now) self.old }
        ensures keys_differ { IsDistinct K.eq (keys_of self.new) }
    {
        self.pairs.swap_remove_entry(key)
    }

    /// Takes out the pair of a key, and gives its value. The pairs behind it move up.
    pub fn shift_remove(&mut self, key: &K) -> Option<V>
    where
        K: Drop,
        ensures value { result ≡ lookup (K.eq key.now) self.old }
        ensures pairs { self.new ≡ shift_remove_entry (K.eq key.now) self.old }
        ensures keys_differ { IsDistinct K.eq (keys_of self.new) }
    {
        self.pairs.shift_remove(key)
    }

    /// Takes out the pair of a key, and gives it. The pairs behind it move up.
    pub fn shift_remove_entry(&mut self, key: &K) -> Option<(K, V)>
        ensures key { option_map (λ p. p.0) result ≡ lookup_key (K.eq key.now) self.old }
        ensures value { option_map (λ p. p.1) result ≡ lookup (K.eq key.now) self.old }
        ensures pairs { self.new ≡ shift_remove_entry (K.eq key.now) self.old }
        ensures keys_differ { IsDistinct K.eq (keys_of self.new) }
    {
        self.pairs.shift_remove_entry(key)
    }

    /// Takes out all pairs, and keeps the memory.
    pub fn clear(&mut self)
    where
        K: Drop,
        V: Drop,
        ensures { self.new ≡ [] }
    {
        self.pairs.clear();
    }

    /// The pairs whose places are in `range`, each handed over when it is asked for, in order or
    /// from the back. Once the `Drain` is dropped the map has the others, in order, however many
    /// were asked for. The caller shows that `range` lies in the map.
    pub fn drain(&mut self, range: Range<usize>) -> Drain<'_, K, V>
    where
        K: Drop,
        V: Drop,
        requires ends { range.start ≤ range.end }
        requires in_bounds { range.end ≤ length self.old }
        ensures rest { drain_rest result ≡ slice_range self.old range.start range.end }
        ensures kept { drain_kept result ≡ remove_range self.old range.start range.end }
        ensures hands_over { HandsOver result }
        ensures* writes_back { sem 𝓛 (follows
            (map_row K.row V.row K.PartialEq K.hash_input)
            (pairs_row K.row V.row K.PartialEq K.hash_input)
            self.entry.ghost_name (drain_lender result) (λ m. m.entries)) }
    {
        self.pairs.drain(range)
    }

    /// Gives back the memory that the pairs don't need.
    pub fn shrink_to_fit(&mut self)
        ensures { self.new ≡ self.old }
    {
        self.pairs.shrink_to_fit();
    }

    /// The keys, in order.
    pub fn keys(&self) -> Keys<'_, K, V>
        ensures keys { result ≡ keys_of self.now }
        ensures keys_differ { IsDistinct K.eq (keys_of self.now) }
    {
        self.pairs.keys()
    }

    /// The values, in the order of their keys.
    pub fn values(&self) -> Values<'_, K, V>
        ensures { result ≡ values_of self.now }
    {
        self.pairs.values()
    }

    /// The keys by value, in order.
    pub fn into_keys(self) -> IntoKeys<K, V>
        ensures keys { result ≡ keys_of self }
        ensures keys_differ { IsDistinct K.eq (keys_of self) }
    {
        self.into_inner().into_keys()
    }

    /// The values by value, in the order of their keys.
    pub fn into_values(self) -> IntoValues<K, V>
        ensures { result ≡ values_of self }
    {
        self.into_inner().into_values()
    }

    /// The map that keeps the pairs, lent.
    pub fn as_inner(&self) -> &IndexMap<K, V>
        ensures { result.now.entries ≡ self.now }
    {
        &self.pairs
    }

    /// Another map of clones of the pairs, in the same order; `OutOfMemory` where they find no
    /// memory, or where a key's clone isn't equal to it.
    pub fn clone(&self, alloc: Global) -> Result<OrderedMap<K, V>, Error>
    where
        K: Clone,
        V: Clone,
        ensures ok { IfOk result (λ m.
            AllZip (λ p q. K.is_clone p.0 q.0 × V.is_clone p.1 q.1) self.now m) }
        ensures keys_differ { IfOk result (λ m. IsDistinct K.eq (keys_of m)) }
        ensures err { IfErr result (λ e. e ≡ OutOfMemory) }
    {
        let _ = alloc;
        Ok(OrderedMap {
            pairs: self.pairs.clone()?,
        })
    }

    /// The value at a key, lent to be changed.
    pub fn get_mut(&mut self, key: &K) -> Option<&mut V>
        ensures value { option_copied_mut result ≡ lookup (K.eq key.now) self.old }
        ensures* writes_back { sem 𝓛 (LendsSo
            (map_row K.row V.row K.PartialEq K.hash_input)
            V.row self.entry result
            (λ n w. n ≡ set_value (K.eq key.now) self.entry.now w)
            (λ n. n ≡ self.entry.now)) }
    {
        self.pairs.get_mut(key)
    }

    /// The map that keeps the pairs, lent to be written.
    pub fn as_inner_mut(&mut self) -> &mut IndexMap<K, V>
        ensures shows { result.now.entries ≡ self.old }
        ensures* writes_back { sem 𝓛 (Lends
            (map_row K.row V.row K.PartialEq K.hash_input)
            (pairs_row K.row V.row K.PartialEq K.hash_input)
            self.entry result (λ m. m.entries)) }
    {
        &mut self.pairs
    }

    /// The map that keeps the pairs.
    pub fn into_inner(self) -> IndexMap<K, V>
        ensures { result.entries ≡ self }
    {
        let OrderedMap { pairs } = self;
        pairs
    }

    /// The pairs, in order.
    pub fn iter(&self) -> Iter<'_, K, V>
        ensures pairs { result ≡ self.now }
        ensures keys_differ { IsDistinct K.eq (keys_of self.now) }
    {
        self.pairs.iter()
    }

    /// A law, for contracts: two maps that one item means have the same entries, pair by pair,
    /// where keys that are the same are equal. It does nothing when it runs.
    pub fn same_entries()
    where
        K: Typed,
        V: Typed,
        ensures { SameAreEqual K.meaning.same K.eq → SameEntries K.meaning.same V.meaning.same
            (insert_entry K.eq) }
    {}
}

impl<K: Eq + Hash, V> From<IndexMap<K, V>> for OrderedMap<K, V> {
    ghost from_gives = { λ pairs m. m ≡ pairs.entries };

    fn from(pairs: IndexMap<K, V>) -> OrderedMap<K, V> {
        OrderedMap { pairs }
    }
}

impl<K: Eq + Hash + Drop, V: Drop> IntoIterator for OrderedMap<K, V> {
    type Item = (K, V);

    type IntoIter = IntoIter<K, V>;

    ghost into_iter_gives = { λ m pairs. pairs ≡ m };

    fn into_iter(self) -> IntoIter<K, V> {
        self.into_inner().into_iter()
    }
}

impl<'a, K: Eq + Hash, V> IntoIterator for &'a OrderedMap<K, V> {
    type Item = (&'a K, &'a V);

    type IntoIter = Iter<'a, K, V>;

    ghost into_iter_gives = { λ m pairs. pairs ≡ m.now };

    fn into_iter(self) -> Iter<'a, K, V> {
        self.iter()
    }
}

impl<K: Eq + Hash, V: PartialEq> PartialEq for OrderedMap<K, V> {
    ghost eq = { pointwise (λ p q. K.eq p.0 q.0 && V.eq p.1 q.1) };

    ghost laws = { lists_per (and_per (on_per (λ p. p.0) K.PartialEq.laws)
        (on_per (λ p. p.1) V.laws)) };

    /// Whether the lists of pairs are equal.
    fn eq(&self, other: &OrderedMap<K, V>) -> bool {
        self.pairs.as_slice() == other.pairs.as_slice()
    }
}

impl<K: Eq + Hash, V: Eq> Eq for OrderedMap<K, V> {
    ghost laws = { lists_equiv (and_equiv (on_equiv (λ p. p.0) K.Eq.laws)
        (on_equiv (λ p. p.1) V.Eq.laws)) };
}

impl<K: Typed + Eq + Hash, V: Typed> Typed for OrderedMap<K, V> {
    ghost meaning = { map_of K.meaning V.meaning (insert_entry K.eq)
        (λ keys. IsEquivalence K.eq × IsDistinct K.eq keys)
        (λ es h. distinct_again K.eq h.0.symm es h.1)
        (λ v. v) };
}

impl<K: RoundTrip + Eq + Hash, V: RoundTrip> RoundTrip for OrderedMap<K, V> {
    ghost reads_back = { both K.meaning.reads_back V.meaning.reads_back K.reads_back V.reads_back };
}

impl<K: Typed + Eq + Hash, V: Typed> NeverNull for OrderedMap<K, V> {
    ghost never_null = { refl };
}
