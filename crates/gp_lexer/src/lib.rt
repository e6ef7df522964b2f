//! The lexer of scripts and questions, and the writer of their canonical texts.
//!
//! In reading order: a [`Lexeme`] is a reserved word, a sign, a name, a number or a text of a line. [`lex`] gives the
//! [`Lexemes`] of a line with their columns, or the column of the first place where none can be read; `specs/Lexing.antt`
//! defines both. [`Layout`] writes lexemes one by one, separated as canonical texts separate them, which
//! `specs/Layout.antt` defines with the [`Gap`]s between them. The laws [`lexing_inverts_layout`] and
//! [`lexemes_are_proper`] tie reading and writing: what is read can be written, and is read again as the same lexemes.
//!
//! ```text
//! let lexemes = lex(alloc, b"select A+1 from r where b!='it''s'")?;
//! let mut layout = Layout::new(alloc);
//! for lexeme in lexemes.lexemes() {
//!     layout.push(lexeme)?;
//! }
//! layout.into_text() // SELECT a + 1 FROM r WHERE b <> 'it''s'
//! ```
#![tactic(auto)]

mod error;
mod gap;
mod laws;
mod layout;
mod lexeme;
mod lexemes;
mod lexer;
mod symbol;

pub use error::LexStop;
pub use gap::Gap;
pub use laws::{layout_is_printable, lexemes_are_proper, lexing_inverts_layout, texts_are_utf8};
pub use layout::Layout;
pub use lexeme::{Lexeme, Number, Symbol};
pub use lexemes::Lexemes;
pub use lexer::{lex, value_of};
