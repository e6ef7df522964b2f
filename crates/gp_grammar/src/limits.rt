//! The limits on the shape of a line.

/// A line has at most this many bytes, its line end not counted.
pub const MAX_LINE_LENGTH: usize = 4096;

/// A table and a written select list have at most this many columns.
pub const MAX_COLUMNS: usize = 16;

/// A FROM has at most this many items.
pub const MAX_FROM: usize = 4;

/// A query has at most this many blocks with UNION ALL between them.
pub const MAX_BRANCHES: usize = 8;

/// A VALUES has at most this many tuples.
pub const MAX_VALUES: usize = 100;

/// A term has at most this many nodes.
pub const MAX_NODES: usize = 200;

/// A term has at most this many levels.
pub const MAX_LEVELS: usize = 60;

/// At most this many brackets and CASEs are open at any lexeme of a line.
pub const MAX_OPEN: usize = 60;

/// The sessions are 1 to this number.
pub const MAX_SESSION: u64 = 64;

/// The number of a statement or a row in a pattern of tokens is at most this.
pub const MAX_PATTERN_NUMBER: u64 = 999_999_999;

/// A WHATIF has at most this many changes.
pub const MAX_CHANGES: usize = 16;
