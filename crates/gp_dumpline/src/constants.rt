//! The line that is the same in every dump.

/// The last line of a dump.
pub const END: &[u8] = b"end";
