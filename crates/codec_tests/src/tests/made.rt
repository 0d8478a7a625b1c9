//! Values that own memory, made for the tests; none where memory is wanting.

use amqp_types::{Array, OrderedMap, Symbol};
use std::alloc::Global;
use std::hash::Hash;

/// A list of these elements.
pub(crate) fn list<T: Copy>(alloc: Global, elements: &[T]) -> Option<Vec<T>> {
    elements.to_vec(alloc).ok()
}

/// A list of this element alone.
pub(crate) fn list_of<T: Drop>(alloc: Global, only: Option<T>) -> Option<Vec<T>> {
    and(Some(Vec::new(alloc)), only)
}

/// A list of two elements.
pub(crate) fn both<T: Drop>(alloc: Global, first: Option<T>, second: Option<T>) -> Option<Vec<T>> {
    and(list_of(alloc, first), second)
}

/// The list with one element more.
pub(crate) fn and<T: Drop>(list: Option<Vec<T>>, element: Option<T>) -> Option<Vec<T>> {
    match list {
        Some(list) => {
            let mut list = list;
            if appends(&mut list, element) {
                Some(list)
            } else {
                None
            }
        }
        None => None,
    }
}

/// The element is there and is taken.
fn appends<T: Drop>(list: &mut Vec<T>, element: Option<T>) -> bool {
    match element {
        Some(element) => list.push(element).is_ok(),
        None => false,
    }
}

/// An array of the elements.
pub(crate) fn array<T: Drop>(elements: Option<Vec<T>>) -> Option<Array<T>> {
    match elements {
        Some(elements) => Some(Array(elements)),
        None => None,
    }
}

/// A string of this text.
pub(crate) fn string(alloc: Global, text: &str) -> Option<String> {
    String::from_str(alloc, text).ok()
}

/// A list of strings of these texts.
pub(crate) fn strings(alloc: Global, texts: &[&str]) -> Option<Vec<String>> {
    let mut list = Vec::new(alloc);
    let mut are_taken = true;
    for text in texts {
        are_taken = appends(&mut list, string(alloc, text)) && are_taken;
    }
    if are_taken { Some(list) } else { None }
}

/// A symbol of this text.
pub(crate) fn symbol(alloc: Global, text: &str) -> Option<Symbol> {
    Symbol::from_str(alloc, text).ok()
}

/// The value is taken under the key, in the place of none.
pub(crate) fn inserts<K: Eq + Hash + Drop, V: Drop>(
    map: &mut OrderedMap<K, V>,
    key: K,
    value: V,
) -> bool {
    matches!(&map.insert(key, value), Ok(None))
}

/// A map of these pairs, whose keys differ.
pub(crate) fn map<K: Copy + Eq + Hash + Drop, V: Copy + Drop>(
    alloc: Global,
    pairs: &[(K, V)],
) -> Option<OrderedMap<K, V>> {
    let mut map = OrderedMap::new(alloc);
    let mut are_taken = true;
    for (key, value) in pairs {
        are_taken = inserts(&mut map, *key, *value) && are_taken;
    }
    if are_taken { Some(map) } else { None }
}

/// A map of one pair.
pub(crate) fn map_of<K: Eq + Hash + Drop, V: Drop>(
    alloc: Global,
    key: K,
    value: Option<V>,
) -> Option<OrderedMap<K, V>> {
    let mut map = OrderedMap::new(alloc);
    if puts(&mut map, key, value) {
        Some(map)
    } else {
        None
    }
}

/// The map with one pair more.
pub(crate) fn with<K: Eq + Hash + Drop, V: Drop>(
    map: Option<OrderedMap<K, V>>,
    key: K,
    value: Option<V>,
) -> Option<OrderedMap<K, V>> {
    match map {
        Some(map) => {
            let mut map = map;
            if puts(&mut map, key, value) {
                Some(map)
            } else {
                None
            }
        }
        None => None,
    }
}

/// The value is there and is taken under the key, in the place of none.
fn puts<K: Eq + Hash + Drop, V: Drop>(
    map: &mut OrderedMap<K, V>,
    key: K,
    value: Option<V>,
) -> bool {
    match value {
        Some(value) => inserts(map, key, value),
        None => false,
    }
}
