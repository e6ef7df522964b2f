//! The language of scripts and questions: lines, the parser and canonical texts.
//!
//! In reading order: [`lines`] cuts a script into numbered lines. [`ScriptLine`], [`Command`], [`Question`] and [`Term`]
//! are what a line is parsed into. [`read_line`], [`read_question`] and [`read_command`] parse a line or a text, or refuse
//! it for its first fault in a fixed order. [`write_command`] writes the canonical text of a command, which is read as the
//! same command. Their contracts cite the grammar and the limits of gp_grammar; `specs/Views` is the abstract syntax of
//! the values here.
//!
//! ```text
//! let line = read_line(alloc, b"s1: update R set b = -b where not a = 1")?;
//! let text = write_command(alloc, &line.command)?; // UPDATE r SET b = (-b) WHERE (NOT (a = 1))
//! ```
#![tactic(auto)]

mod built;
mod canonical;
mod change_parser;
mod command;
mod command_parser;
mod error;
mod lexeme_parser;
mod limits;
mod line;
mod list_parser;
mod names;
mod parsed;
mod question;
mod question_parser;
mod read;
mod side_parser;
mod subject_parser;
mod term;
mod term_parser;

pub use canonical::write_command;
pub use command::{Block, Command, Item, Items, Query, ScriptLine, SetTerm};
pub use gp_grammar::{MAX_LINE_LENGTH, Op, SemiringName, TokenKind};
pub use line::{Line, LineIter, lines};
pub use question::{How, LogChange, Point, Question, Rule, Side, Subject};
pub use read::{read_command, read_line, read_question};
pub use term::Term;
