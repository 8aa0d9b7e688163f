//! The limit on what is read.

/// The most bytes of an input.
pub const INPUT_LIMIT: usize = 16_777_216;

// The definitions cite it by name.
const _: () = prove!(INPUT_LIMIT == 16_777_216);
