//! The order and the hash of a map that keeps the order of its keys: those of the list of its
//! pairs.

ghost use Rattle.std.specs.Cmp.Lexicographic.{slice_partial_cmp, slice_cmp};
ghost use Rattle.std.specs.Cmp.Lexicographic.{lists_po, lists_total, lists_agrees, lists_ties};
ghost use Rattle.std.specs.Cmp.{on_po, then_po, on_total, then_total, then_agrees, both_tied};
ghost use Rattle.std.specs.Prelude.{◌++◌};
ghost use Rattle.std.specs.Hash as fed;
ghost use Rattle.std.specs.Hash.{items_Alike, and-Alike, on_Alike};
ghost use Rattle.amqp_types.specs.OrderedMaps.{keys_first, keys_first_partly};

use crate::OrderedMap;
use std::cmp::Ordering;
use std::hash::{Hash, Hasher};

impl<K: PartialOrd + Eq + Hash, V: PartialOrd> PartialOrd for OrderedMap<K, V> {
    ghost partial_cmp = { slice_partial_cmp (keys_first_partly K.partial_cmp V.partial_cmp) };

    ghost laws = { lists_po (then_po (on_po (λ p. p.0) K.PartialOrd.laws)
        (on_po (λ p. p.1) V.PartialOrd.laws)) };

    /// The first pairs that differ decide, by their keys and then by their values. Where there are
    /// none, the map with fewer pairs is the lesser.
    fn partial_cmp(&self, other: &OrderedMap<K, V>) -> Option<Ordering> {
        let len = self.len();
        let mut i = 0;
        'pairs: while let Some(one) = self.as_inner().get_index(i) {
            match other.as_inner().get_index(i) {
                Some(two) => match one.partial_cmp(&two) {
                    Some(Ordering::Equal) => i += 1,
                    Some(Ordering::Less) => return Some(Ordering::Less),
                    Some(Ordering::Greater) => return Some(Ordering::Greater),
                    None => return None,
                },
                None => return Some(Ordering::Greater),
            }
        }
        if len < other.len() {
            return Some(Ordering::Less);
        }
        Some(Ordering::Equal)
    }
}

impl<K: Ord + Hash, V: Ord> Ord for OrderedMap<K, V> {
    ghost cmp = { slice_cmp (keys_first K.cmp V.cmp) };

    ghost total = { lists_total (then_total (on_total (λ p. p.0) K.total)
        (on_total (λ p. p.1) V.total)) };

    ghost matches_partial_cmp = { lists_agrees (then_agrees
        (λ p q. K.matches_partial_cmp p.0 q.0) (λ p q. V.matches_partial_cmp p.1 q.1)) };

    ghost matches_eq = { λ x y. lists_ties (keys_first K.cmp V.cmp) (λ p q.
        both_tied _ _ (K.cmp p.0 q.0) (V.cmp p.1 q.1) (K.matches_eq p.0 q.0)
        (V.matches_eq p.1 q.1)) x y };

    /// As `partial_cmp`, which always answers.
    fn cmp(&self, other: &OrderedMap<K, V>) -> Ordering {
        match self.partial_cmp(other) {
            Some(order) => order,
            None => Ordering::Equal,
        }
    }
}

impl<K: Eq + Hash, V: Hash> Hash for OrderedMap<K, V> {
    ghost hash_input = { fed.slice (λ p. K.hash_input p.0 ++ V.hash_input p.1) };

    ghost respects_eq = { (items_Alike (and-Alike
        (on_Alike (λ p. p.0) (record { fed = K.respects_eq }))
        (on_Alike (λ p. p.1) (record { fed = V.respects_eq })))).fed };

    /// Hashes the number of pairs, and then each pair: its key and its value.
    fn hash<H: Hasher>(&self, state: &mut H) {
        let len = self.len();
        state.write_usize(len);
        let mut i = 0;
        'pairs: while let Some((key, value)) = self.as_inner().get_index(i) {
            key.hash(state);
            value.hash(state);
            i += 1;
        }
    }
}
