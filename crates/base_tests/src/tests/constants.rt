//! Names, caps and widths.

use amqp_base::{
    Count, DECIMAL32_WIDTH, DECIMAL64_WIDTH, DECIMAL128_WIDTH, DESCRIBED_BASIC, DESCRIBED_LIST,
    DESCRIBED_MAP, DESCRIPTOR, EnumType, IsArrayElement, MAX_ARRAY_COUNT, OFFSET_ARRAY8,
    OFFSET_ARRAY32, OFFSET_LIST8, OFFSET_LIST32, OFFSET_MAP8, OFFSET_MAP32, Setting, Shape,
    StructEncoding, UNTAGGED_ENUM, UUID_WIDTH, VALUE,
};

/// Reserved names.
const NAMES: &[(&str, &str)] = &[
    (DESCRIBED_BASIC, "AMQP1.0_DESCRIBED_BASIC"),
    (DESCRIBED_LIST, "AMQP1.0_DESCRIBED_LIST"),
    (DESCRIBED_MAP, "AMQP1.0_DESCRIBED_MAP"),
    (DESCRIPTOR, "AMQP1.0_DESCRIPTOR"),
    (VALUE, "AMQP1.0_VALUE"),
    (UNTAGGED_ENUM, "FE2O3_AMQP_UNTAGGED"),
];

/// A cap, offsets and widths.
const NUMBERS: &[(usize, usize)] = &[
    (MAX_ARRAY_COUNT, 65_536),
    (OFFSET_LIST8, 1),
    (OFFSET_MAP8, 1),
    (OFFSET_LIST32, 4),
    (OFFSET_MAP32, 4),
    (OFFSET_ARRAY8, 2),
    (OFFSET_ARRAY32, 5),
    (DECIMAL32_WIDTH, 4),
    (DECIMAL64_WIDTH, 8),
    (DECIMAL128_WIDTH, 16),
    (UUID_WIDTH, 16),
];

/// Each is what stands beside it.
fn are_equal<T: PartialEq>(rows: &[(T, T)]) -> bool {
    let mut is_so = true;
    for (one, other) in rows {
        is_so = *one == *other && is_so;
    }
    is_so
}

#[test]
fn reserved_names_caps_offsets_and_widths(rt: HostRuntime) {
    assert!(rt; are_equal(NAMES));
    assert!(rt; are_equal(NUMBERS));
}

/// Settings and shapes are equal to themselves alone.
fn differ() -> bool {
    let plain = Setting::Plain != Setting::Symbol;
    let described = Setting::DescribedList != Setting::DescribedMap;
    let basic = Setting::DescribedBasic == Setting::DescribedBasic;
    plain && described && basic && Shape::List != Shape::Array
}

/// No enum and no encoding of a struct is meant at first.
fn are_none() -> bool {
    let is_none = matches!(EnumType::default(), EnumType::None);
    matches!(StructEncoding::default(), StructEncoding::None) && is_none
}

/// Where in an array a value stands.
const PLACES: [IsArrayElement; 3] = [
    IsArrayElement::False,
    IsArrayElement::FirstElement,
    IsArrayElement::OtherElement,
];

/// A count takes no bytes.
fn count_is_nothing() -> bool {
    let mut count = Count::new();
    count.tick();
    let Count {} = count;
    size_of::<Count>() == 0
}

#[test]
fn settings_shapes_encodings_and_counts(rt: HostRuntime) {
    assert!(rt; differ());
    assert!(rt; are_none());
    assert!(rt; PLACES.len() == 3);
    assert!(rt; count_is_nothing());
}
