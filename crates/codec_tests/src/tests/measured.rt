//! What is measured of a value before it is written: its length, and the sizes of its compounds in
//! the order in which they open.

use super::answer::{Answer, is, told};
use super::made::{array, both, list, map_of, string};
use amqp_base::Error;
use amqp_ser::{Measure, Serialize, measure, write_measured};
use amqp_types::OrderedMap;
use serde_amqp::serialized_size;
use std::alloc::Global;

/// Whether these lengths of a body, each with the count of its parts, were measured.
fn has_sizes(measure: &Measure, sizes: &[(usize, usize)]) -> bool {
    for at in 0..sizes.len() {
        let (length, count) = sizes[at];
        match measure.size(at) {
            Some(size) if size.length == length && size.count == count => {}
            _ => return false,
        }
    }
    matches!(measure.size(sizes.len()), None)
}

/// These lengths and counts are measured of the value that was made.
fn measures<T: Serialize + Drop>(alloc: Global, made: Option<T>, sizes: &[(usize, usize)]) -> bool {
    match made {
        Some(value) => has_measured(measure(alloc, &value), sizes),
        None => false,
    }
}

/// These were measured.
fn has_measured(outcome: Result<Measure, Error>, sizes: &[(usize, usize)]) -> bool {
    match outcome {
        Ok(measure) => has_sizes(&measure, sizes),
        Err(_) => false,
    }
}

/// The size of the value that was made, or its refusal.
fn is_sized<T: Serialize + Drop>(
    alloc: Global,
    made: Option<T>,
    size: Result<usize, Answer>,
) -> bool {
    match made {
        Some(value) => is(serialized_size(alloc, &value), size),
        None => false,
    }
}

/// A list of nine empty ones, more than stand in place.
fn nine(alloc: Global) -> Option<Vec<Vec<i32>>> {
    let mut nine: Vec<Vec<i32>> = Vec::new(alloc);
    let mut are_in = true;
    for _ in 0..9 {
        are_in = nine.push(Vec::new(alloc)).is_ok() && are_in;
    }
    if are_in { Some(nine) } else { None }
}

/// {2: (true, 13, "amqp")}
fn one_pair(alloc: Global, text: Option<String>) -> Option<OrderedMap<u32, (bool, u64, String)>> {
    match text {
        Some(text) => map_of(alloc, 2, Some((true, 13, text))),
        None => None,
    }
}

/// A list of two where one of one was measured.
fn refuses_another(alloc: Global, outcome: Result<Measure, Error>, two: Option<Vec<i32>>) -> bool {
    match (outcome, two) {
        (Ok(measure), Some(two)) => {
            told(write_measured(alloc, &two, measure)) == Answer::InvalidValue
        }
        _ => false,
    }
}

#[test]
fn the_sizes_of_compounds_are_measured_as_they_open(rt: HostRuntime) {
    let alloc = rt.alloc();
    let lists = both(alloc, list(alloc, &[1i32]), list(alloc, &[]));
    assert!(rt; measures(alloc, lists, &[(6, 2), (2, 1), (0, 0)]));
    let mut sizes = [(0, 0); 10];
    sizes[0] = (9, 9);
    assert!(rt; measures(alloc, nine(alloc), &sizes));
    // the same two lists as an array
    let lists = both(alloc, list(alloc, &[1i32]), list(alloc, &[]));
    assert!(rt; measures(alloc, array(lists), &[(19, 2), (2, 1), (0, 0)]));
    let pair = one_pair(alloc, string(alloc, "amqp"));
    assert!(rt; measures(alloc, pair, &[(14, 2), (9, 3)]));
}

#[test]
fn the_size_of_a_value_is_that_of_its_text(rt: HostRuntime) {
    let alloc = rt.alloc();
    assert!(rt; is_sized(alloc, one_pair(alloc, string(alloc, "amqp")), Ok(17)));
    // null has no size in an array
    let null = array(list(alloc, &[()]));
    assert!(rt; is_sized(alloc, null, Err(Answer::InvalidValue)));
}

/// What is measured of the list.
fn measured(alloc: Global, made: Option<Vec<i32>>) -> Result<Measure, Error> {
    match made {
        Some(list) => measure(alloc, &list),
        None => Err(Error::OutOfMemory),
    }
}

#[test]
fn another_value_than_was_measured_is_refused(rt: HostRuntime) {
    let alloc = rt.alloc();
    let one = measured(alloc, list(alloc, &[1]));
    assert!(rt; refuses_another(alloc, one, list(alloc, &[1, 2])));
}
