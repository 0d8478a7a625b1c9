//! Enums of one's own, by the public contracts alone, as they are written. What is read as one, and
//! what isn't, are lines of the stored runs.

use super::answer::Answer;
use super::bytes::{is_made_as, is_unwritten, is_written_as};
use super::made::{and, array, both, list_of, string};
use own_types::{Enumeration, Switch};

const UNIT: &[u8] = b"\x43";

const NEWTYPE: &[u8] = b"\xc1\x05\x02\x52\x01\x52\x0d";

const TUPLE: &[u8] = b"\xc1\x0f\x02\x52\x02\xc0\x0a\x03\x41\x53\x0d\xa1\x04amqp";

const STRUCT: &[u8] = b"\xc1\x09\x02\x52\x03\xc0\x04\x02\x52\x07\x42";

/// An array of the number 13 alone.
const NUMBERS: &[u8] = b"\xe0\x0e\x01\xd1\0\0\0\x08\0\0\0\x02\x52\x01\x52\x0d";

/// Two switches that are on.
const BOTH_ON: &[u8] = b"\xe0\x0a\x02\x70\0\0\0\x01\0\0\0\x01";

/// Three values.
fn tuple(text: Option<String>) -> Option<Enumeration> {
    match text {
        Some(text) => Some(Enumeration::TupleVariant(true, 13, text)),
        None => None,
    }
}

/// Two values under names.
fn named(id: u32) -> Enumeration {
    Enumeration::StructVariant { id, is_true: false }
}

#[test]
fn each_variant_is_written_under_its_index(rt: HostRuntime) {
    let alloc = rt.alloc();
    assert!(rt; is_written_as(alloc, &Enumeration::UnitVariant, UNIT));
    assert!(rt; is_written_as(alloc, &Enumeration::NewTypeVariant(13), NEWTYPE));
    assert!(rt; is_made_as(alloc, tuple(string(alloc, "amqp")), TUPLE));
    assert!(rt; is_written_as(alloc, &named(7), STRUCT));
    let zero = b"\xc1\x04\x02\x52\x01\x43";
    assert!(rt; is_written_as(alloc, &Enumeration::NewTypeVariant(0), zero));
    assert!(rt;
        is_written_as(
            alloc,
            &named(0),
            b"\xc1\x08\x02\x52\x03\xc0\x03\x02\x43\x42"
        )
    );
    assert!(rt; is_written_as(alloc, &Switch::Off, b"\x43"));
    assert!(rt; is_written_as(alloc, &Switch::On, b"\x52\x01"));
}

#[test]
fn variants_are_elements(rt: HostRuntime) {
    let alloc = rt.alloc();
    let two = both(alloc, Some(Switch::On), Some(Switch::On));
    assert!(rt; is_made_as(alloc, array(two), BOTH_ON));
    let one = list_of(alloc, Some(Enumeration::NewTypeVariant(13)));
    assert!(rt; is_made_as(alloc, array(one), NUMBERS));
    let unit = list_of(alloc, Some(Enumeration::UnitVariant));
    let mixed = and(unit, Some(Enumeration::NewTypeVariant(13)));
    assert!(rt; is_unwritten(alloc, array(mixed), Answer::InvalidValue));
}
