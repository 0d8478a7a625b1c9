//! What the public calls of the codec answer, with ample memory, beside bytes and values that the
//! standard gives or that follow from its tables. The tests stand here and, of the crates below, in
//! `base_tests`, as a crate that has tests is proved twice.
#![tactic(auto)]

#[cfg(test)]
mod tests;
