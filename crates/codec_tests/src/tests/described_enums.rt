//! An enum of one's own that is told by descriptor: the sections of a message.

use super::answer::{Answer, UNEXPECTED_EOF, told};
use super::asked::{Asked, taken};
use super::bytes::{is_made_as, is_unwritten, is_written_as};
use super::made::{array, both, list, string};
use super::pieces::cut;
use Answer::{InvalidFormatCode, InvalidUtf8Encoding, Message};
use own_types::{Data, Header, Section, Shipment, kept};
use serde_amqp::de::{DescribedVariant, DescribedVariants, OneOf};
use serde_amqp::primitives::{Array, Binary};
use serde_amqp::{Counted, Descriptor, Deserializer, Error, Read, from_reader, from_slice};
use std::alloc::Global;
use std::marker::PhantomData;

const HEADER: &[u8] = b"\x00\x53\x70\xc0\x05\x03\x41\x50\x04\x40";

const PROPERTIES: &[u8] = b"\x00\x53\x74\xc1\x2e\x08\
    \xa1\x0corder-number\x53\x07\xa1\x07carrier\xa1\x01a\
    \xa1\x07fragile\x41\xa1\x04note\x40";

const DATA: &[u8] = b"\x00\x53\x75\xa0\x02\x0a\xbc";

const TWO_BYTES: &[u8] = b"\x0a\xbc";

/// A message that outlives a fault, of the fourth priority.
fn header() -> Option<Section> {
    Some(Section::Header(Header {
        durable: Some(true),
        priority: Some(4),
        ttl: None,
    }))
}

/// The seventh order, which can break.
fn properties(carrier: Option<String>) -> Option<Section> {
    match carrier {
        Some(carrier) => Some(Section::ApplicationProperties(Shipment {
            order: 7,
            carrier,
            fragile: true,
            note: None,
        })),
        None => None,
    }
}

/// The section of these bytes.
fn data(bytes: Option<Vec<u8>>) -> Option<Section> {
    match bytes {
        Some(bytes) => Some(Section::Data(Data(Binary(bytes)))),
        None => None,
    }
}

#[test]
fn each_section_is_written_behind_its_descriptor(rt: HostRuntime) {
    let alloc = rt.alloc();
    assert!(rt; is_made_as(alloc, header(), HEADER));
    assert!(rt; is_made_as(alloc, properties(string(alloc, "a")), PROPERTIES));
    assert!(rt; is_made_as(alloc, data(list(alloc, &[0x0au8, 0xbc])), DATA));
}

/// Which section was read, with its first number.
#[derive(Clone, Copy, PartialEq)]
enum Found {
    Header(Option<u8>),
    Properties(u64),
    Data(usize),
    None(Answer),
}

/// The section, which is let go.
fn section_of(section: Section) -> Found {
    match section {
        Section::Header(header) => Found::Header(header.priority),
        Section::ApplicationProperties(shipment) => Found::Properties(shipment.order),
        Section::Data(data) => Found::Data(data.0.as_slice().len()),
    }
}

/// What was answered.
fn answered(outcome: Result<Section, Error>) -> Found {
    match outcome {
        Ok(section) => section_of(section),
        Err(e) => Found::None(told::<()>(Err(e))),
    }
}

/// What the bytes are read as, from memory.
fn read_as(alloc: Global, bytes: &[u8]) -> Found {
    answered(kept::section_is_kept(alloc, bytes))
}

/// What they are read as, out of a source that gives so many bytes a read.
fn streamed_as(alloc: Global, bytes: &[u8], most: usize) -> Found {
    let mut source = Counted::new(cut(bytes, most));
    answered(from_reader(alloc, &mut source))
}

/// Forms of the three sections: with fields left out, and with a descriptor of each width.
const FORMS: &[(&[u8], Found)] = &[
    (HEADER, Found::Header(Some(4))),
    (b"\x00\x53\x70\x45", Found::Header(None)),
    (b"\x00\x53\x70\xc0\x02\x01\x41", Found::Header(None)),
    (
        b"\x00\x80\0\0\0\0\0\0\0\x70\xd0\0\0\0\x07\0\0\0\x02\x41\x50\x09",
        Found::Header(Some(9)),
    ),
    (PROPERTIES, Found::Properties(7)),
    (DATA, Found::Data(2)),
    (
        b"\x00\x80\0\0\0\0\0\0\0\x75\xb0\0\0\0\x01\x0a",
        Found::Data(1),
    ),
];

#[test]
fn each_section_is_read_by_its_descriptor(rt: HostRuntime) {
    let alloc = rt.alloc();
    for (bytes, section) in FORMS {
        assert!(rt; read_as(alloc, bytes) == *section);
        assert!(rt; streamed_as(alloc, bytes, 1) == *section);
        assert!(rt; streamed_as(alloc, bytes, 3) == *section);
    }
}

/// What no section is.
const REFUSED: &[(&[u8], Answer)] = &[
    // no byte, no code, and items that aren't described
    (b"", UNEXPECTED_EOF),
    (b"\x57", InvalidFormatCode),
    (b"\x40", InvalidFormatCode),
    (b"\xa0\x02\x0a\xbc", InvalidFormatCode),
    (b"\x45", InvalidFormatCode),
    // a descriptor that is cut short, of another kind, or no text
    (b"\x00", UNEXPECTED_EOF),
    (b"\x00\x53", UNEXPECTED_EOF),
    (b"\x00\xa3\x02\x61", UNEXPECTED_EOF),
    (b"\x00\x40\xa0\x00", InvalidFormatCode),
    (b"\x00\xa3\x01\xff\x40", InvalidUtf8Encoding),
    // a descriptor that no section has, before its value
    (b"\x00\x53\x76\xa0\x00", Message),
    (b"\x00\x53\x76", Message),
    (b"\x00\x80\x01\0\0\0\0\0\0\x75\xa0\x00", Message),
    (b"\x00\xa3\x01\x61\x57", Message),
    // what stands behind a section's descriptor is another's, or none
    (b"\x00\x53\x70\xa0\x02\x0a\xbc", Message),
    (b"\x00\x53\x74\x45", Message),
    (b"\x00\x53\x75\x45", InvalidFormatCode),
    (b"\x00\x53\x75\xa0\x02\x0a", UNEXPECTED_EOF),
    (b"\x00\x53\x75", UNEXPECTED_EOF),
];

#[test]
fn what_is_no_section_is_refused(rt: HostRuntime) {
    let alloc = rt.alloc();
    for (bytes, name) in REFUSED {
        assert!(rt; read_as(alloc, bytes) == Found::None(*name));
        assert!(rt; streamed_as(alloc, bytes, 2) == Found::None(*name));
    }
}

#[test]
fn every_front_of_a_section_is_too_short(rt: HostRuntime) {
    let alloc = rt.alloc();
    for at in 0..HEADER.len() {
        assert!(rt; read_as(alloc, &HEADER[..at]) == Found::None(UNEXPECTED_EOF));
    }
}

/// A header and data, one behind the other.
const TWO: &[u8] = b"\xc0\x12\x02\
    \x00\x53\x70\xc0\x05\x03\x41\x50\x04\x40\
    \x00\x53\x75\xa0\x02\x0a\xbc";

/// Two of one section, behind the descriptor that they share.
const DATAS: &[u8] = b"\xe0\x0f\x02\x00\x53\x75\xb0\x00\x00\x00\x01\x0a\x00\x00\x00\x01\xbc";

/// The bytes are read as a list of so many sections, and written again.
fn is_list(alloc: Global, bytes: &[u8], count: usize) -> bool {
    match from_slice::<Vec<Section>>(alloc, bytes) {
        Ok(sections) => sections.len() == count && is_written_as(alloc, &sections, bytes),
        Err(_) => false,
    }
}

/// The same of an array.
fn is_array(alloc: Global, bytes: &[u8], count: usize) -> bool {
    match from_slice::<Array<Section>>(alloc, bytes) {
        Ok(sections) => sections.len() == count && is_written_as(alloc, &sections, bytes),
        Err(_) => false,
    }
}

#[test]
fn sections_are_elements(rt: HostRuntime) {
    let alloc = rt.alloc();
    let one = data(list(alloc, &[0x0au8, 0xbc]));
    assert!(rt; is_made_as(alloc, both(alloc, header(), one), TWO));
    assert!(rt; is_list(alloc, TWO, 2));
    let first = data(list(alloc, &[0x0au8]));
    let second = data(list(alloc, &[0xbcu8]));
    assert!(rt; is_made_as(alloc, array(both(alloc, first, second)), DATAS));
    assert!(rt; is_array(alloc, DATAS, 2));
    let other = data(list(alloc, &[0x0au8]));
    let mixed = both(alloc, header(), other);
    assert!(rt; is_unwritten(alloc, array(mixed), Answer::InvalidValue));
}

/// The data of a message, where no other section is known.
fn only_data(descriptor: &Descriptor) -> DescribedVariant<'_, Descriptor, Data, ()> {
    DescribedVariant {
        descriptor,
        held: PhantomData,
        rest: (),
    }
}

/// The only section, of these two bytes.
struct OnlyData;

impl Asked for OnlyData {
    fn is_answered<R: Read>(&self, alloc: Global, de: &mut Deserializer<R>) -> bool {
        match de.deserialize_described_enum(alloc, only_data(&Descriptor::Code(0x75))) {
            Ok(OneOf::This(data)) => data.0.as_slice() == TWO_BYTES,
            Ok(OneOf::Other(none)) => match none {},
            Err(_) => false,
        }
    }
}

/// What is read behind a descriptor that was seen, by the call of the variants.
struct Seen(u64);

impl Asked for Seen {
    fn is_answered<R: Read>(&self, alloc: Global, de: &mut Deserializer<R>) -> bool {
        let wanted = Descriptor::Code(0x75);
        let seen = Descriptor::Code(self.0);
        match only_data(&wanted).behind(alloc, &seen, de) {
            Ok(OneOf::This(data)) => data.0.as_slice() == TWO_BYTES,
            Ok(OneOf::Other(none)) => match none {},
            Err(_) => false,
        }
    }
}

/// Behind a descriptor of no variant the answer is a `Message`.
struct Unknown(u64);

impl Asked for Unknown {
    fn is_answered<R: Read>(&self, alloc: Global, de: &mut Deserializer<R>) -> bool {
        let wanted = Descriptor::Code(0x75);
        let seen = Descriptor::Code(self.0);
        told(only_data(&wanted).behind(alloc, &seen, de)) == Answer::Message
    }
}

#[test]
fn a_variant_is_read_behind_the_descriptor_that_was_seen(rt: HostRuntime) {
    let alloc = rt.alloc();
    assert!(rt; taken(alloc, DATA, &Seen(0x75)) == Some(7));
    assert!(rt; taken(alloc, DATA, &Unknown(0x70)) == Some(0));
}

/// Another section is a `Message`.
struct NoData;

impl Asked for NoData {
    fn is_answered<R: Read>(&self, alloc: Global, de: &mut Deserializer<R>) -> bool {
        let wanted = Descriptor::Code(0x75);
        told(de.deserialize_described_enum(alloc, only_data(&wanted))) == Answer::Message
    }
}

#[test]
fn one_section_alone_is_told_by_its_descriptor(rt: HostRuntime) {
    let alloc = rt.alloc();
    assert!(rt; taken(alloc, DATA, &OnlyData) == Some(7));
    assert!(rt; taken(alloc, HEADER, &NoData) == Some(0));
}
