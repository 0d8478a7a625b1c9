//! Maps that keep the order of their keys (part 1, section 1.6.23).

use amqp_types::OrderedMap;
use std::alloc::Global;

/// The value is taken under the key, in the place of that other one or of none.
pub(crate) fn inserts(
    map: &mut OrderedMap<u32, u32>,
    key: u32,
    value: u32,
    had: Option<u32>,
) -> bool {
    match map.insert(key, value) {
        Ok(found) => found == had,
        Err(_) => false,
    }
}

/// The pair stands there.
pub(crate) fn is_at(pairs: &[(u32, u32)], place: usize, key: u32, value: u32) -> bool {
    match pairs.get(place) {
        Some(pair) => pair.0 == key && pair.1 == value,
        None => false,
    }
}

/// The map gives these pairs in order.
pub(crate) fn are_pairs(map: &OrderedMap<u32, u32>, want: &[(u32, u32)]) -> bool {
    let mut place = 0usize;
    let mut is_so = true;
    for (key, value) in map.iter() {
        is_so = is_at(want, place, *key, *value) && is_so;
        place = place.saturating_add(1);
    }
    is_so && place == want.len()
}

/// The value under the key is this, or there is none.
fn is_under(map: &OrderedMap<u32, u32>, key: u32, value: Option<u32>) -> bool {
    map.get(&key).copied() == value
}

/// A map without a pair takes `(2, 20)` and `(1, 10)`, and then 22 in the place of 20.
fn takes_two(map: &mut OrderedMap<u32, u32>) -> bool {
    let was_empty = map.is_empty();
    let first = inserts(map, 2, 20, None);
    let second = inserts(map, 1, 10, None);
    let again = inserts(map, 2, 22, Some(20));
    was_empty && first && second && again
}

/// The map has two pairs, and values under their keys alone.
fn has_two(map: &OrderedMap<u32, u32>) -> bool {
    let are_two = map.len() == 2 && !map.is_empty();
    let two = is_under(map, 2, Some(22));
    let one = is_under(map, 1, Some(10));
    let three = is_under(map, 3, None);
    are_two && two && one && three
}

/// A map takes them, and gives `(2, 22)` before `(1, 10)`.
fn has_two_in_order(alloc: Global) -> bool {
    let mut map = OrderedMap::new(alloc);
    let is_so = takes_two(&mut map) && has_two(&map);
    is_so && are_pairs(&map, &[(2, 22), (1, 10)])
}

/// Each map is itself alone.
fn differ(one: &OrderedMap<u32, u32>, other: &OrderedMap<u32, u32>) -> bool {
    one == one && other == other && one != other
}

/// Another map takes `(1, 10)` and then `(2, 22)`.
fn takes_one_first(map: &mut OrderedMap<u32, u32>) -> bool {
    let first = inserts(map, 1, 10, None);
    let second = inserts(map, 2, 22, None);
    first && second
}

/// Two maps of the same pairs in another order.
fn differs_in_another_order(alloc: Global) -> bool {
    let mut one = OrderedMap::new(alloc);
    let mut other = OrderedMap::new(alloc);
    let is_so = takes_two(&mut one) && takes_one_first(&mut other);
    is_so && differ(&one, &other)
}

#[test]
fn an_ordered_map_keeps_the_order_of_its_keys(rt: HostRuntime) {
    let alloc = rt.alloc();
    assert!(rt; has_two_in_order(alloc));
    assert!(rt; differs_in_another_order(alloc));
}
