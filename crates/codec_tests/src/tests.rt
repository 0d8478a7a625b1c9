//! A file a family of types or calls, written and read; `answer`, `asked`, `bytes`, `calls`,
//! `made`, `pieces`, `puts` and `written` hold what the tests of all families call. A row of
//! `calls` or `puts` is one call of the codec, which stands there once: its contract is dear in
//! each function that calls it.

mod answer;
mod array_calls;
mod arrays;
mod asked;
mod bytes;
mod calls;
mod delivery_states;
mod described;
mod described_enums;
mod described_fields;
mod described_structs;
mod descriptors;
mod deserializer;
mod fixed;
mod frames;
mod identifiers;
mod ignored;
mod kept;
mod lent;
mod lists;
mod long_lists;
mod made;
mod many_elements;
mod map_calls;
mod maps;
mod measured;
mod numbers;
mod options;
mod payloads;
mod pieces;
mod puts;
mod raw;
mod scalars;
mod sections;
mod serializer;
mod streams;
mod structs;
mod tuples;
mod user_enums;
mod user_types;
mod variants;
mod variants_read;
mod written;
