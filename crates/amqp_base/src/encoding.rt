//! Names for what a writer is in the middle of. No public call takes them.

/// Where in an array a value stands.
#[derive(Debug, Clone, Copy)]
pub enum IsArrayElement {
    /// In none.
    False,
    /// The first element, before which the element constructor stands (part 1, section 1.2.4).
    FirstElement,
    /// A later element, which is data alone.
    OtherElement,
}

/// Which of the enums with a name of its own is meant.
#[derive(Debug, Clone, Copy, Default)]
pub enum EnumType {
    /// None of them.
    #[default]
    None,
    /// An array.
    Array,
    /// A descriptor.
    Descriptor,
    /// Any value.
    Value,
}

/// How a struct is encoded.
#[derive(Debug, Clone, Copy, Default)]
pub enum StructEncoding {
    /// As a list of its fields.
    #[default]
    None,
    /// As a descriptor and a list of its fields.
    DescribedList,
    /// As a descriptor and a map of its fields.
    DescribedMap,
    /// As a descriptor and one value.
    DescribedBasic,
}
