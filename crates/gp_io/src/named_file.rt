//! A file in memory.

/// A file in memory.
#[derive(Drop)]
pub struct NamedFile {
    /// The name by which it is read and replaced.
    pub name: String,
    /// The content.
    pub bytes: Vec<u8>,
}
