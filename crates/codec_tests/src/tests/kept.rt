//! What was written of a type of one's own is read by the calls that promise the same value.

use super::answer::{Answer, told};
use Answer::Taken;
use own_types::alike::foo_is_read_alike;
use own_types::kept;
use std::alloc::Global;

/// Structs and tuple structs.
fn are_records_kept(alloc: Global) -> bool {
    let foo = told(kept::foo_is_kept(alloc, b"\xc0\x04\x02\x52\x0d\x41"));
    let measurement = told(kept::measurement_is_kept(alloc, b"\xc0\x06\x02\x52\x07\xa1\x01m"));
    let note = told(kept::note_is_kept(alloc, b"\xc0\x05\x02\xa1\x01a\x40"));
    let colour = told(kept::colour_is_kept(alloc, b"\xc0\x07\x03\x50\x01\x50\x02\x50\xff"));
    [foo, measurement, note, colour] == [Taken; 4]
}

/// Newtypes, and a pair.
fn are_newtypes_kept(alloc: Global) -> bool {
    let celsius = told(kept::celsius_is_kept(alloc, b"\x54\xfe"));
    let tags = told(kept::tags_is_kept(alloc, b"\xc0\x07\x02\xa1\x01a\xa1\x01b"));
    let pair = told(kept::pair_is_kept(alloc, b"\xc0\x04\x02\x43\xa1\x00"));
    [celsius, tags, pair] == [Taken; 3]
}

/// Values behind a descriptor.
fn are_described_kept(alloc: Global) -> bool {
    let open = told(kept::open_is_kept(alloc, b"\x00\x53\x10\xc0\x07\x04\xa1\x01\x61\x40\x40\x40"));
    let data = told(kept::data_is_kept(alloc, b"\x00\x53\x75\xa0\x02\x0a\xbc"));
    let init = told(kept::sasl_init_is_kept(alloc, b"\x00\x53\x41\xc0\x06\x03\xa3\x01a\x40\x40"));
    let selector = b"\x00\xa3\x21apache.org:selector-filter:string\xa1\x01a";
    let selector = told(kept::selector_is_kept(alloc, selector));
    [open, data, init, selector] == [Taken; 4]
}

/// Enums.
fn are_enums_kept(alloc: Global) -> bool {
    let priority = told(kept::priority_is_kept(alloc, b"\x50\x02"));
    let switch = told(kept::switch_is_kept(alloc, b"\x52\x01"));
    let enumeration = told(kept::enumeration_is_kept(alloc, b"\xc1\x05\x02\x52\x01\x52\x0d"));
    [priority, switch, enumeration] == [Taken; 3]
}

/// From a slice and from a source.
fn is_read_alike(alloc: Global) -> bool {
    let (of_slice, of_source) = foo_is_read_alike(alloc, b"\xc0\x04\x02\x52\x0d\x41");
    let of_slice = told(of_slice);
    let of_source = told(of_source);
    [of_slice, of_source] == [Taken; 2]
}

#[test]
fn each_text_is_taken_by_the_call_that_keeps_its_value(rt: HostRuntime) {
    let alloc = rt.alloc();
    assert!(rt; are_records_kept(alloc));
    assert!(rt; are_newtypes_kept(alloc));
    assert!(rt; are_described_kept(alloc));
    assert!(rt; are_enums_kept(alloc));
    assert!(rt; is_read_alike(alloc));
    let shipment = b"\x00\x53\x74\xc1\x2e\x08\
        \xa1\x0corder-number\x53\x07\xa1\x07carrier\xa1\x01a\
        \xa1\x07fragile\x41\xa1\x04note\x40";
    assert!(rt; told(kept::shipment_is_kept(alloc, shipment)) == Taken);
    let state = b"\x00\x53\x23\xc0\x04\x02\x43\x53\x07";
    assert!(rt; told(kept::delivery_state_is_kept(alloc, state)) == Taken);
    let properties = b"\x00\x53\x73\xc0\x0f\x0d\
        \x53\x07\x40\x40\x40\x40\x40\x40\x40\x40\x40\x40\x40\x40";
    assert!(rt; told(kept::properties_are_kept(alloc, properties)) == Taken);
}
