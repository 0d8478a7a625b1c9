//! Items that nobody asks for: any of them is read whole, and just its bytes are consumed.

use super::answer::{Answer, UNEXPECTED_EOF, is, name_of, told};
use super::pieces::cut;
use own_types::Caption;
use serde_amqp::{
    Counted, Deserializer, Error, Ignored, ListAccess, MAX_NESTED, MapAccess, Read, SliceReader,
    from_reader, from_slice, from_slice_with_rest,
};
use std::alloc::Global;

/// Bytes, and how many of them the item at the front has, or its refusal.
type Row = (&'static [u8], Result<usize, Answer>);

/// The item is passed over, and so many bytes are left behind it.
fn is_passed(outcome: Result<Ignored, Error>, left: usize, row: &Row) -> bool {
    let (bytes, want) = row;
    match outcome {
        Ok(Ignored) => *want == Ok(bytes.len().saturating_sub(left)),
        Err(e) => *want == Err(name_of(&e)),
    }
}

/// It is so out of a slice.
fn is_passed_of_slice(alloc: Global, row: &Row) -> bool {
    match from_slice_with_rest::<Ignored>(alloc, row.0) {
        Ok((ignored, rest)) => is_passed(Ok(ignored), rest.len(), row),
        Err(e) => is_passed(Err(e), 0, row),
    }
}

/// It is so out of a source that gives so many bytes a read at most.
fn is_passed_of_source(alloc: Global, row: &Row, most: usize) -> bool {
    let mut source = Counted::new(cut(row.0, most));
    let outcome = from_reader::<_, Ignored>(alloc, &mut source);
    is_passed(outcome, source.into_inner().rest.len(), row)
}

/// They are, out of a slice and out of sources that give 1, 2 and 7 bytes a read.
fn are_passed(alloc: Global, rows: &[Row]) -> bool {
    let mut are_so = true;
    for row in rows {
        are_so = is_passed_of_slice(alloc, row) && are_so;
        for most in [1, 2, 7] {
            are_so = is_passed_of_source(alloc, row, most) && are_so;
        }
    }
    are_so
}

/// Each code of a value without parts, with a byte behind it.
const SCALARS: [Row; 32] = [
    (b"\x40\xff", Ok(1)),
    (b"\x56\x01\xff", Ok(2)),
    (b"\x41\xff", Ok(1)),
    (b"\x42\xff", Ok(1)),
    (b"\x50\x07\xff", Ok(2)),
    (b"\x60\x00\x07\xff", Ok(3)),
    (b"\x70\x00\x00\x00\x07\xff", Ok(5)),
    (b"\x52\x07\xff", Ok(2)),
    (b"\x43\xff", Ok(1)),
    (b"\x80\x00\x00\x00\x00\x00\x00\x00\x07\xff", Ok(9)),
    (b"\x53\x07\xff", Ok(2)),
    (b"\x44\xff", Ok(1)),
    (b"\x51\x07\xff", Ok(2)),
    (b"\x61\x00\x07\xff", Ok(3)),
    (b"\x71\x00\x00\x00\x07\xff", Ok(5)),
    (b"\x54\x07\xff", Ok(2)),
    (b"\x81\x00\x00\x00\x00\x00\x00\x00\x07\xff", Ok(9)),
    (b"\x55\x07\xff", Ok(2)),
    (b"\x72\x00\x00\x00\x07\xff", Ok(5)),
    (b"\x82\x00\x00\x00\x00\x00\x00\x00\x07\xff", Ok(9)),
    (b"\x74\x00\x00\x00\x07\xff", Ok(5)),
    (b"\x84\x00\x00\x00\x00\x00\x00\x00\x07\xff", Ok(9)),
    (
        b"\x94\x00\x00\x00\x00\x00\x00\x00\x07\x00\x00\x00\x00\x00\x00\x00\x07\xff",
        Ok(17),
    ),
    (b"\x73\x00\x00\x00\x63\xff", Ok(5)),
    (b"\x83\x00\x00\x00\x00\x00\x00\x00\x07\xff", Ok(9)),
    (
        b"\x98\x00\x00\x00\x00\x00\x00\x00\x07\x00\x00\x00\x00\x00\x00\x00\x07\xff",
        Ok(17),
    ),
    (b"\xa0\x02\xff\xfe\xff", Ok(4)),
    (b"\xb0\x00\x00\x00\x02\xff\xfe\xff", Ok(7)),
    (b"\xa1\x02\xc3\xa9\xff", Ok(4)),
    (b"\xb1\x00\x00\x00\x02\xc3\xa9\xff", Ok(7)),
    (b"\xa3\x01\x61\xff", Ok(3)),
    (b"\xb3\x00\x00\x00\x01\x61\xff", Ok(6)),
];

#[test]
fn values_without_parts_are_passed_over(rt: HostRuntime) {
    assert!(rt; are_passed(rt.alloc(), &SCALARS));
}

/// Each code of an item with others inside.
const COMPOUNDS: [Row; 15] = [
    (b"\x45\xff", Ok(1)),
    // [null, true]
    (b"\xc0\x03\x02\x40\x41\xff", Ok(5)),
    (b"\xd0\x00\x00\x00\x06\x00\x00\x00\x02\x40\x41\xff", Ok(11)),
    // {1: [2], "a": {}}
    (
        b"\xc1\x0e\x04\x52\x01\xc0\x03\x01\x52\x02\xa1\x01\x61\xc1\x01\x00\xff",
        Ok(16),
    ),
    (b"\xd1\x00\x00\x00\x06\x00\x00\x00\x02\x40\x41\xff", Ok(11)),
    // two ints in their array, then one of a byte
    (
        b"\xe0\x0a\x02\x71\x00\x00\x00\x01\x00\x00\x00\x02\xff",
        Ok(12),
    ),
    (b"\xe0\x03\x01\x54\x07\xff", Ok(5)),
    (b"\xf0\x00\x00\x00\x06\x00\x00\x00\x01\x54\x07\xff", Ok(11)),
    // no element, of whatever bytes
    (b"\xe0\x01\x00\xff", Ok(3)),
    (b"\xe0\x03\x00\x57\x57\xff", Ok(5)),
    // an array of two arrays of an ubyte each
    (
        b"\xe0\x0a\x02\xe0\x03\x01\x50\x07\x03\x01\x50\x08\xff",
        Ok(12),
    ),
    // an array of two lists, of which the second has no element
    (b"\xe0\x07\x02\xc0\x02\x01\x40\x01\x00\xff", Ok(9)),
    // a value behind an ulong, and one behind a symbol
    (b"\x00\x53\x24\x45\xff", Ok(4)),
    (b"\x00\xa3\x01\x61\xc0\x02\x01\x40\xff", Ok(8)),
    // an array of two described ints, which share their descriptor
    (b"\xe0\x07\x02\x00\x53\x24\x54\x01\x02\xff", Ok(9)),
];

#[test]
fn lists_maps_arrays_and_described_values_are_passed_over(rt: HostRuntime) {
    assert!(rt; are_passed(rt.alloc(), &COMPOUNDS));
}

/// What is inside is looked at.
const REFUSED: [Row; 22] = [
    (b"", Err(UNEXPECTED_EOF)),
    (b"\x57", Err(Answer::InvalidFormatCode)),
    (b"\x56\x02", Err(Answer::InvalidValue)),
    (b"\xc0\x03\x01\x56\x02", Err(Answer::InvalidValue)),
    (
        b"\xc0\x06\x01\x73\x00\x00\xd8\x00",
        Err(Answer::InvalidValue),
    ),
    (
        b"\xc0\x03\x01\xa1\x01\xff",
        Err(Answer::InvalidUtf8Encoding),
    ),
    (
        b"\xc0\x03\x01\xa3\x01\xff",
        Err(Answer::InvalidUtf8Encoding),
    ),
    (b"\xc0\x02\x01\x57", Err(Answer::InvalidFormatCode)),
    (b"\xc0\x03\x02\x40", Err(UNEXPECTED_EOF)),
    (b"\xc0\x00\x00", Err(Answer::InvalidLength)),
    (b"\xc0", Err(UNEXPECTED_EOF)),
    (
        b"\xd0\x00\x00\x00\x04\x00\x01\x00\x01",
        Err(Answer::InvalidValue),
    ),
    (b"\xc1\x03\x01\x40\x40", Err(Answer::InvalidLength)),
    (b"\xc1\x02\x02\x40", Err(UNEXPECTED_EOF)),
    (b"\xc1\x04\x02\x40\x56\x03", Err(Answer::InvalidValue)),
    (b"\xe0\x03\x01\x56\x02", Err(Answer::InvalidValue)),
    (b"\xe0\x02\x01\x50\x07", Err(Answer::InvalidValue)),
    (b"\xe0\x02\x03\x50\x07", Err(Answer::InvalidValue)),
    (b"\x00\x53\x24", Err(UNEXPECTED_EOF)),
    (b"\x00\x40\x40", Err(Answer::Message)),
    (b"\x00\x53\x24\x56\x02", Err(Answer::InvalidValue)),
    (b"\x74\x00\x00\x00", Err(UNEXPECTED_EOF)),
];

#[test]
fn what_is_inside_is_refused_by_its_name(rt: HostRuntime) {
    assert!(rt; are_passed(rt.alloc(), &REFUSED));
}

/// So many layers, one inside the other, and these bytes in the last of them.
fn nest(alloc: Global, layer: &[u8], count: u32, last: &[u8]) -> Option<Vec<u8>> {
    let mut bytes = Vec::new(alloc);
    let mut are_in = true;
    for _ in 0..count {
        are_in = bytes.extend_from_slice(layer).is_ok() && are_in;
    }
    are_in = bytes.extend_from_slice(last).is_ok() && are_in;
    if are_in { Some(bytes) } else { None }
}

/// Out of a slice, and out of a source that gives two bytes a read.
fn is_answered(alloc: Global, bytes: &[u8], want: Answer) -> bool {
    let mut source = Counted::new(cut(bytes, 2));
    told(from_slice::<Ignored>(alloc, bytes)) == want
        && told(from_reader::<_, Ignored>(alloc, &mut source)) == want
}

/// So many layers are passed over.
fn is_the_limit(alloc: Global, layer: &[u8], count: u32, last: &[u8]) -> bool {
    match nest(alloc, layer, count, last) {
        Some(bytes) => is_answered(alloc, bytes.as_slice(), Answer::Taken),
        None => false,
    }
}

/// So many layers are refused.
fn is_past_the_limit(alloc: Global, layer: &[u8], count: u32, last: &[u8]) -> bool {
    match nest(alloc, layer, count, last) {
        Some(bytes) => is_answered(alloc, bytes.as_slice(), Answer::InvalidValue),
        None => false,
    }
}

#[test]
fn layers_are_passed_over_to_the_limit(rt: HostRuntime) {
    let alloc = rt.alloc();
    assert!(rt; is_the_limit(alloc, b"\xc0\xff\x01", MAX_NESTED, b"\x40"));
    assert!(rt; is_the_limit(alloc, b"\x00\x53\x01", MAX_NESTED, b"\x40"));
    assert!(rt; is_the_limit(alloc, b"\xc1\xff\x02\x40", MAX_NESTED, b"\x40"));
    assert!(rt; is_the_limit(alloc, b"\xe0\xff\x01", MAX_NESTED, b"\x40"));
}

#[test]
fn one_layer_more_is_refused(rt: HostRuntime) {
    let alloc = rt.alloc();
    assert!(rt; is_past_the_limit(alloc, b"\xc0\xff\x01", MAX_NESTED, b"\x45"));
    assert!(rt; is_past_the_limit(alloc, b"\x00\x53\x01", MAX_NESTED, b"\x45"));
    assert!(rt; is_past_the_limit(alloc, b"\xc1\xff\x02\x40", MAX_NESTED, b"\x45"));
    assert!(rt; is_past_the_limit(alloc, b"\xc0\xff\x01", 100_000, b""));
}

/// The value of a key: that of 2 is read, any other passed over.
fn value<R: Read>(map: &mut MapAccess<'_, R>, alloc: Global, key: u32) -> Option<bool> {
    if key == 2 {
        map.next_value::<bool>(alloc).ok()
    } else {
        let _ = told(map.next_value::<Ignored>(alloc));
        None
    }
}

/// The value under the key 2, whatever else the map holds.
fn value_of_two<R: Read>(map: &mut MapAccess<'_, R>, alloc: Global) -> Option<bool> {
    let mut found = None;
    for _ in 0..16 {
        if let Ok(Some(key)) = map.next_key::<u32>(alloc) {
            if let Some(truth) = value(map, alloc, key) {
                found = Some(truth);
            }
        }
    }
    found
}

/// {0: [1, [null]], 1: an array of arrays, 2: true, 3: a described value, 4: {"a": 1}, 5: "b"}
const OF_ALL_KINDS: &[u8] = b"\xc1\x33\x0c\x43\xc0\x07\x02\x54\x01\xc0\x02\x01\x40\
\x52\x01\xe0\x0a\x02\xe0\x03\x01\x50\x07\x03\x01\x50\x08\
\x52\x02\x41\x52\x03\x00\x53\x24\xc0\x01\x00\x52\x04\xc1\x06\x02\xa1\x01\x61\x54\x01\
\x52\x05\xa1\x01\x62\x42";

/// The value is found, and the map ends.
fn holds_two<R: Read>(map: MapAccess<'_, R>, alloc: Global) -> bool {
    let mut map = map;
    value_of_two(&mut map, alloc) == Some(true) && told(map.end()) == Answer::Taken
}

/// A map that holds it is read.
fn reads_two<R: Read>(de: &mut Deserializer<R>, alloc: Global) -> bool {
    match de.deserialize_map() {
        Ok(map) => holds_two(map, alloc),
        Err(_) => false,
    }
}

/// It is, and what stands behind it.
fn finds_two(alloc: Global) -> bool {
    let mut de = Deserializer::new(SliceReader::new(OF_ALL_KINDS));
    reads_two(&mut de, alloc) && is(de.deserialize_bool(), Ok(false))
}

#[test]
fn values_of_unknown_keys_are_passed_over(rt: HostRuntime) {
    assert!(rt; finds_two(rt.alloc()));
}

/// [true, {}, [null], an array] behind which stands false
const WITH_MORE_FIELDS: &[u8] = b"\xc0\x0d\x04\x41\xc1\x01\x00\xc0\x02\x01\x40\xe0\x02\x01\x40\x42";

/// How many fields are passed over.
fn more_fields<R: Read>(list: &mut ListAccess<'_, R>, alloc: Global) -> u32 {
    let mut more = 0;
    for _ in 0..8 {
        if let Ok(Some(Ignored)) = list.next_element(alloc) {
            more = 1 + more % 8;
        }
    }
    more
}

/// The first field is read, those behind it are passed over, and the list ends.
fn holds_true<R: Read>(list: ListAccess<'_, R>, alloc: Global) -> bool {
    let mut list = list;
    let first = is(list.next_element::<bool>(alloc), Ok(Some(true)));
    more_fields(&mut list, alloc) == 3 && first && told(list.end()) == Answer::Taken
}

/// A list that holds them is read.
fn reads_true<R: Read>(de: &mut Deserializer<R>, alloc: Global) -> bool {
    match de.deserialize_seq(alloc) {
        Ok(seq) => holds_true(seq.into_elements(), alloc),
        Err(_) => false,
    }
}

/// It is, and what stands behind it.
fn first_field(alloc: Global) -> bool {
    let mut de = Deserializer::new(SliceReader::new(WITH_MORE_FIELDS));
    reads_true(&mut de, alloc) && is(de.deserialize_bool(), Ok(false))
}

#[test]
fn fields_behind_those_that_are_known_are_passed_over(rt: HostRuntime) {
    assert!(rt; first_field(rt.alloc()));
}

/// A list of its fields, and a map from their names in another order: the title is "a", the picture
/// an array of two arrays, and of its two tags the first is null and the second a described list.
const CAPTIONS: [&[u8]; 2] = [
    b"\xc0\x20\x03\xa1\x01\x61\xe0\x0a\x02\xe0\x03\x01\x50\x07\x03\x01\x50\x08\
\xc1\x0e\x04\xa3\x01\x70\x40\xa3\x01\x71\x00\x53\x24\xc0\x01\x00",
    b"\xc1\x36\x06\xa1\x04tags\xc1\x0e\x04\xa3\x01\x70\x40\xa3\x01\x71\x00\x53\x24\xc0\x01\x00\
\xa1\x05title\xa1\x01\x61\xa1\x07picture\xe0\x0a\x02\xe0\x03\x01\x50\x07\x03\x01\x50\x08",
];

/// The title and the tags are there.
fn is_caption(outcome: Result<Caption, Error>) -> bool {
    match outcome {
        Ok(caption) => caption.title.as_str() == "a" && caption.tags.len() == 2,
        Err(_) => false,
    }
}

#[test]
fn a_struct_passes_over_the_fields_that_it_has_no_use_for(rt: HostRuntime) {
    let alloc = rt.alloc();
    for bytes in &CAPTIONS {
        assert!(rt; is_caption(from_slice(alloc, bytes)));
    }
}
