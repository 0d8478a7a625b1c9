//! Described values as they are written, alone, in arrays and in each other. What is read as one,
//! and what isn't, are lines of the stored runs.

use super::answer::Answer;
use super::bytes::{is_made_as, is_made_read, is_unwritten};
use super::made::{array, both, list, list_of, symbol};
use Answer::InvalidValue;
use amqp_types::{Array, Described, Descriptor, Symbol};
use own_types::Foo;
use std::alloc::Global;

/// The value behind the descriptor of this code.
fn under<T: Drop>(code: u64, value: Option<T>) -> Option<Described<T>> {
    match value {
        Some(value) => Some(Described {
            descriptor: Descriptor::Code(code),
            value,
        }),
        None => None,
    }
}

/// The value behind the descriptor of this name.
fn named<T: Drop>(name: Option<Symbol>, value: T) -> Option<Described<T>> {
    match name {
        Some(name) => Some(Described {
            descriptor: Descriptor::Name(name),
            value,
        }),
        None => None,
    }
}

#[test]
fn a_value_behind_its_descriptor(rt: HostRuntime) {
    let alloc = rt.alloc();
    let row = b"\x00\x53\x13\xc0\x04\x02\x41\x54\x03";
    assert!(rt; is_made_as(alloc, under(0x13, Some((true, 3i32))), row));
    let ints = under(0x11, list(alloc, &[1i32, 2]));
    assert!(rt; is_made_as(alloc, ints, b"\x00\x53\x11\xc0\x05\x02\x54\x01\x54\x02"));
    // a struct is a list, whatever stands before it
    let foo = under(
        0x13,
        Some(Foo {
            bar: 13,
            is_fool: true,
        }),
    );
    assert!(rt; is_made_as(alloc, foo, b"\x00\x53\x13\xc0\x04\x02\x52\x0d\x41"));
}

#[test]
fn a_descriptor_is_a_code_or_a_name(rt: HostRuntime) {
    let alloc = rt.alloc();
    let codes: &[(u64, &[u8])] = &[
        (0, b"\x00\x44\x40"),
        (7, b"\x00\x53\x07\x40"),
        (256, b"\x00\x80\x00\x00\x00\x00\x00\x00\x01\x00\x40"),
    ];
    for (code, bytes) in codes {
        assert!(rt; is_made_as(alloc, under(*code, Some(())), bytes));
    }
    let short = named(symbol(alloc, "a"), ());
    assert!(rt; is_made_as(alloc, short, b"\x00\xa3\x01\x61\x40"));
}

#[test]
fn a_described_value_behind_a_descriptor(rt: HostRuntime) {
    let alloc = rt.alloc();
    let twice = under(1, under(2, Some(())));
    assert!(rt; is_made_as(alloc, twice, b"\x00\x53\x01\x00\x53\x02\x40"));
}

/// Two ints, each behind a descriptor of its code.
fn ints(alloc: Global, first: u64, second: u64) -> Option<Array<Described<i32>>> {
    array(both(alloc, under(first, Some(1)), under(second, Some(2))))
}

/// Arrays of one int each, behind one descriptor.
fn arrays(alloc: Global) -> Option<Array<Described<Array<i32>>>> {
    let first = under(1, array(list(alloc, &[1])));
    array(both(alloc, first, under(1, array(list(alloc, &[2])))))
}

/// The name `a` before the number 5.
fn five(alloc: Global) -> Option<Array<Described<u32>>> {
    array(list_of(alloc, named(symbol(alloc, "a"), 5)))
}

#[test]
fn an_array_has_one_descriptor(rt: HostRuntime) {
    let alloc = rt.alloc();
    let bytes = b"\xe0\x0d\x02\x00\x53\x13\x71\x00\x00\x00\x01\x00\x00\x00\x02";
    assert!(rt; is_made_as(alloc, ints(alloc, 0x13, 0x13), bytes));
    let bytes = b"\xe0\x0a\x01\x00\xa3\x01\x61\x70\x00\x00\x00\x05";
    assert!(rt; is_made_as(alloc, five(alloc), bytes));
    let bytes = b"\xe0\x1f\x02\x00\x53\x01\xf0\x00\x00\x00\x09\x00\x00\x00\x01\x71\x00\x00\x00\x01\
        \x00\x00\x00\x09\x00\x00\x00\x01\x71\x00\x00\x00\x02";
    assert!(rt; is_made_as(alloc, arrays(alloc), bytes));
}

#[test]
fn an_array_of_two_descriptors_is_not_written(rt: HostRuntime) {
    let alloc = rt.alloc();
    assert!(rt; is_unwritten(alloc, ints(alloc, 1, 2), InvalidValue));
    let units = array(list_of(alloc, under(1, Some(()))));
    assert!(rt; is_unwritten(alloc, units, InvalidValue));
    let twice = array(list_of(alloc, under(1, under(2, Some(3u32)))));
    assert!(rt; is_unwritten(alloc, twice, InvalidValue));
}

#[test]
fn a_list_has_a_descriptor_for_each_element(rt: HostRuntime) {
    let alloc = rt.alloc();
    let unit = list_of(alloc, under(0, Some(())));
    assert!(rt; is_made_as(alloc, unit, b"\xc0\x04\x01\x00\x44\x40"));
    let five = list_of(alloc, under(0, Some(5u32)));
    assert!(rt; is_made_as(alloc, five, b"\xc0\x05\x01\x00\x44\x52\x05"));
}

/// 65,536 units behind one descriptor, which they share.
fn units(alloc: Global) -> Option<Vec<Described<()>>> {
    let mut units = Vec::new(alloc);
    let mut are_taken = true;
    for _ in 0..65_536 {
        let unit = Described {
            descriptor: Descriptor::Code(0),
            value: (),
        };
        are_taken = units.push(unit).is_ok() && are_taken;
    }
    if are_taken { Some(units) } else { None }
}

#[test]
fn as_many_elements_behind_one_descriptor(rt: HostRuntime) {
    let alloc = rt.alloc();
    let bytes = b"\xf0\x00\x01\x00\x00\x00\x01\x00\x00\x00\x44\x40";
    assert!(rt; is_made_read(alloc, units(alloc), bytes));
}
