//! A file a family of types or calls; `answer` and `printed` hold what the tests of all families
//! call.

mod answer;
mod constants;
mod error;
mod format_code;
mod io_reader;
mod ordered_map;
mod ordered_map_calls;
mod primitive_types;
mod printed;
mod sink;
mod slice_reader;
mod source;
