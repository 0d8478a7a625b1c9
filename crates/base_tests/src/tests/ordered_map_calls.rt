//! What is taken out of an ordered map, and its keys, values and pairs in order.

ghost use Rattle.std.specs.Prelude.{◌≡◌, ◌≤◌, length, drop, reverse};

use super::ordered_map::{are_pairs, inserts, is_at};
use amqp_types::OrderedMap;
use std::alloc::Global;
use std::cmp::Ordering;
use std::hash::{DefaultHasher, Hash, Hasher};

/// A map without a pair takes the values 1 to 4 under 10, 20, 30 and 40.
fn takes_four(map: &mut OrderedMap<u32, u32>) -> bool {
    let first = inserts(map, 10, 1, None);
    let second = inserts(map, 20, 2, None);
    let third = inserts(map, 30, 3, None);
    let fourth = inserts(map, 40, 4, None);
    first && second && third && fourth
}

/// The last pair takes the place of the one that is taken out.
fn swap_removes(alloc: Global) -> bool {
    let mut map = OrderedMap::new(alloc);
    let is_made = takes_four(&mut map);
    let gives_two = map.swap_remove(&20) == Some(2);
    let has_no_more = map.swap_remove(&20).is_none();
    is_made && gives_two && has_no_more && are_pairs(&map, &[(10, 1), (40, 4), (30, 3)])
}

fn swap_removes_a_pair(alloc: Global) -> bool {
    let mut map = OrderedMap::new(alloc);
    let is_made = takes_four(&mut map);
    let gives_one = map.swap_remove_entry(&10) == Some((10, 1));
    is_made && gives_one && are_pairs(&map, &[(40, 4), (20, 2), (30, 3)])
}

/// The pairs behind the one that is taken out move up.
fn shift_removes(alloc: Global) -> bool {
    let mut map = OrderedMap::new(alloc);
    let is_made = takes_four(&mut map);
    let gives_one = map.shift_remove(&10) == Some(1);
    is_made && gives_one && are_pairs(&map, &[(20, 2), (30, 3), (40, 4)])
}

fn shift_removes_a_pair(alloc: Global) -> bool {
    let mut map = OrderedMap::new(alloc);
    let is_made = takes_four(&mut map);
    let gives_two = map.shift_remove_entry(&20) == Some((20, 2));
    is_made && gives_two && are_pairs(&map, &[(10, 1), (30, 3), (40, 4)])
}

/// Takes out the first two pairs, and asks for none of them.
fn drops_two(map: &mut OrderedMap<u32, u32>)
    requires { 2 ≤ length map.old }
    ensures { map.new ≡ drop 2 map.old }
{
    drop(map.drain(0..2));
}

/// Those behind the first two stay.
fn keeps_those_behind(alloc: Global) -> bool {
    let mut map = OrderedMap::new(alloc);
    let is_made = takes_four(&mut map);
    if map.len() < 2 {
        return false;
    }
    drops_two(&mut map);
    is_made && are_pairs(&map, &[(30, 3), (40, 4)])
}

/// The pairs in a range of places are handed over, and the others stay.
fn drains_a_range(alloc: Global) -> bool {
    let mut map = OrderedMap::new(alloc);
    let is_made = takes_four(&mut map);
    if map.len() < 3 {
        return false;
    }
    let mut drained = map.drain(1..3);
    let gives_two = drained.next() == Some((20, 2));
    let gives_three = drained.next() == Some((30, 3));
    let gives_no_more = drained.next().is_none();
    drop(drained);
    let stay = are_pairs(&map, &[(10, 1), (40, 4)]);
    is_made && gives_two && gives_three && gives_no_more && stay
}

/// What isn't asked for goes with the `Drain`.
fn drains_from_the_back(alloc: Global) -> bool {
    let mut map = OrderedMap::new(alloc);
    let is_made = takes_four(&mut map);
    if map.len() < 3 {
        return false;
    }
    let mut drained = map.drain(1..3);
    let gives_three = drained.next_back() == Some((30, 3));
    drop(drained);
    is_made && gives_three && are_pairs(&map, &[(10, 1), (40, 4)])
}

/// Turns the pairs round where they stand.
fn turns_round(map: &mut OrderedMap<u32, u32>)
    ensures { map.new ≡ reverse map.old }
{
    map.as_inner_mut().reverse();
}

/// The last pair is the first then.
fn is_turned_round(alloc: Global) -> bool {
    let mut map = OrderedMap::new(alloc);
    let is_made = takes_four(&mut map);
    turns_round(&mut map);
    is_made && are_pairs(&map, &[(40, 4), (30, 3), (20, 2), (10, 1)])
}

/// A map has its keys until it is cleared, also where it gives back memory.
fn has_keys_until_cleared(alloc: Global) -> bool {
    let mut map = OrderedMap::new(alloc);
    let is_made = takes_four(&mut map);
    map.shrink_to_fit();
    let has_them = map.contains_key(&40) && !map.contains_key(&50);
    map.clear();
    is_made && has_them && map.is_empty() && !map.contains_key(&40)
}

/// A map is made with room, and takes pairs as another.
fn is_made_with_room(alloc: Global) -> bool {
    match OrderedMap::with_capacity(alloc, 4) {
        Ok(mut map) => map.is_empty() && takes_four(&mut map) && map.len() == 4,
        Err(_) => false,
    }
}

/// Of pairs that are given in turn the first place of a key and its last value stay.
fn is_of_what_is_given(alloc: Global) -> bool {
    match OrderedMap::from_iter(alloc, [(2, 20), (1, 10), (2, 22)]) {
        Ok(map) => are_pairs(&map, &[(2, 22), (1, 10)]),
        Err(_) => false,
    }
}

#[test]
fn pairs_are_taken_out_of_an_ordered_map(rt: HostRuntime) {
    let alloc = rt.alloc();
    assert!(rt; swap_removes(alloc));
    assert!(rt; swap_removes_a_pair(alloc));
    assert!(rt; shift_removes(alloc));
    assert!(rt; shift_removes_a_pair(alloc));
    assert!(rt; keeps_those_behind(alloc));
    assert!(rt; drains_a_range(alloc));
    assert!(rt; drains_from_the_back(alloc));
    assert!(rt; is_turned_round(alloc));
    assert!(rt; has_keys_until_cleared(alloc));
    assert!(rt; is_made_with_room(alloc));
    assert!(rt; is_of_what_is_given(alloc));
}

/// The number stands there.
fn stands_at(numbers: &[u32], place: usize, number: u32) -> bool {
    match numbers.get(place) {
        Some(found) => *found == number,
        None => false,
    }
}

/// The map gives these keys and these values in order, lent.
fn lends(map: &OrderedMap<u32, u32>, keys: &[u32], values: &[u32]) -> bool {
    let are_keys = map.keys().as_slice() == keys;
    are_keys && map.values().as_slice() == values
}

/// A map of four gives these keys, by value.
fn gives_keys(alloc: Global, keys: &[u32]) -> bool {
    let mut map = OrderedMap::new(alloc);
    let mut is_so = takes_four(&mut map) && lends(&map, keys, &[1, 2, 3, 4]);
    let mut place = 0usize;
    for key in map.into_keys() {
        is_so = stands_at(keys, place, key) && is_so;
        place = place.saturating_add(1);
    }
    is_so && place == keys.len()
}

/// A map of four gives these values, by value.
fn gives_values(alloc: Global, values: &[u32]) -> bool {
    let mut map = OrderedMap::new(alloc);
    let mut is_so = takes_four(&mut map);
    let mut place = 0usize;
    for value in map.into_values() {
        is_so = stands_at(values, place, value) && is_so;
        place = place.saturating_add(1);
    }
    is_so && place == values.len()
}

/// A map of four gives these pairs, lent and by value.
fn gives_pairs(alloc: Global, pairs: &[(u32, u32)]) -> bool {
    let mut map = OrderedMap::new(alloc);
    let mut is_so = takes_four(&mut map);
    let mut place = 0usize;
    for (key, value) in &map {
        is_so = is_at(pairs, place, *key, *value) && is_so;
        place = place.saturating_add(1);
    }
    for (key, value) in map {
        is_so = is_at(pairs, place.saturating_sub(4), key, value) && is_so;
        place = place.saturating_add(1);
    }
    is_so && place == 8
}

/// A map of four is kept by another one, which makes a map again.
fn is_kept_by_another(alloc: Global, pairs: &[(u32, u32)]) -> bool {
    let mut map = OrderedMap::new(alloc);
    let is_made = takes_four(&mut map);
    let is_lent = map.as_inner().get(&20) == Some(&2);
    let inner = map.into_inner();
    is_made && is_lent && are_pairs(&OrderedMap::from(inner), pairs)
}

#[test]
fn keys_values_and_pairs_of_an_ordered_map_are_in_order(rt: HostRuntime) {
    let alloc = rt.alloc();
    let pairs = [(10, 1), (20, 2), (30, 3), (40, 4)];
    assert!(rt; gives_keys(alloc, &[10, 20, 30, 40]));
    assert!(rt; gives_values(alloc, &[1, 2, 3, 4]));
    assert!(rt; gives_pairs(alloc, &pairs));
    assert!(rt; is_kept_by_another(alloc, &pairs));
}

/// A map of two pairs, put in this order.
fn puts_two(map: &mut OrderedMap<u32, u32>, one: (u32, u32), two: (u32, u32)) -> bool {
    let first = inserts(map, one.0, one.1, None);
    let second = inserts(map, two.0, two.1, None);
    first && second
}

/// How a map of the pairs 1 to 5 and 2 to 6 stands to the map of these two.
fn stands_to(alloc: Global, one: (u32, u32), two: (u32, u32)) -> Option<Ordering> {
    let mut first = OrderedMap::new(alloc);
    let mut second = OrderedMap::new(alloc);
    let is_made = puts_two(&mut first, (1, 5), (2, 6)) && puts_two(&mut second, one, two);
    let order = first.cmp(&second);
    if is_made && first.partial_cmp(&second) == Some(order) {
        Some(order)
    } else {
        None
    }
}

#[test]
fn the_first_pairs_that_differ_decide_the_order_of_maps(rt: HostRuntime) {
    let alloc = rt.alloc();
    assert!(rt; stands_to(alloc, (1, 5), (2, 6)) == Some(Ordering::Equal));
    assert!(rt; stands_to(alloc, (2, 6), (1, 5)) == Some(Ordering::Less));
    assert!(rt; stands_to(alloc, (1, 4), (2, 9)) == Some(Ordering::Greater));
    assert!(rt; stands_to(alloc, (1, 5), (2, 7)) == Some(Ordering::Less));
}

/// What a map of two pairs hashes as.
fn hashed(alloc: Global, one: (u32, u32), two: (u32, u32)) -> Option<u64> {
    let mut map = OrderedMap::new(alloc);
    if !puts_two(&mut map, one, two) {
        return None;
    }
    let mut state = DefaultHasher::new();
    map.hash(&mut state);
    Some(state.finish())
}

/// A value is written at its key, and the clone that was made before has the old one.
fn is_written_at_its_key(alloc: Global) -> bool {
    let mut map = OrderedMap::new(alloc);
    let is_made = puts_two(&mut map, (1, 5), (2, 6));
    let Ok(before) = map.clone(alloc) else {
        return false;
    };
    if let Some(value) = map.get_mut(&2) {
        *value = 9;
    }
    let has_no_third = map.get_mut(&3).is_none();
    let is_kept = are_pairs(&before, &[(1, 5), (2, 6)]);
    is_made && has_no_third && is_kept && are_pairs(&map, &[(1, 5), (2, 9)])
}

#[test]
fn maps_are_hashed_cloned_and_written(rt: HostRuntime) {
    let alloc = rt.alloc();
    let same = hashed(alloc, (1, 5), (2, 6));
    assert!(rt; same.is_some() && same == hashed(alloc, (1, 5), (2, 6)));
    assert!(rt; same != hashed(alloc, (2, 6), (1, 5)));
    assert!(rt; is_written_at_its_key(alloc));
}
