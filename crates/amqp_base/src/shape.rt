//! How a value is to be written, and what a compound is written as.

/// What a serializer does with values that are handed to it directly.
#[derive(Debug, Clone, Copy, PartialEq, Eq)]
pub enum Setting {
    /// Nothing special.
    Plain,
    /// A text is a symbol.
    Symbol,
    /// The values are fields of a described list.
    DescribedList,
    /// A plain struct is a map from the names of its fields to their values.
    DescribedMap,
    /// The value stands behind a descriptor.
    DescribedBasic,
}

/// What a compound is, whose parts come one by one.
#[derive(Debug, Clone, Copy, PartialEq, Eq)]
pub enum Shape {
    /// A list of its parts.
    List,
    /// An array of its parts.
    Array,
    /// A list of just so many parts.
    Tuple(usize),
    /// A map whose keys and values are its parts in turn.
    Map,
    /// A map from the names of a struct's fields to their values, which are under the described map
    /// setting.
    Fields,
}
