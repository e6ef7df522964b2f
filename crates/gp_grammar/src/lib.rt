//! The grammar of gprom's scripts and questions: what a reader of the parser's contracts has to believe, and the
//! theorems about it. The crate has no code.
//!
//! In reading order: `specs/Syntax` (the abstract syntax), `specs/Grammar`, `specs/CommandGrammar` and
//! `specs/QuestionGrammar` (the rules, as inductive relations), `specs/Places` (where a syntax fault is),
//! `specs/Depth` and `specs/Limits` (what is too large), `specs/LineReading` (the order of the tests) and
//! `specs/Canonical` (the canonical lexemes of a command). `specs/Parsing`, `specs/CommandParsing`,
//! `specs/QuestionParsing` and `specs/Reading` are the parser as functions; the laws in `laws` tie them to the grammar.
//!
//! The parser that runs cites the functions, as in `ensures { Parses command_tree result (command lexemes.now) }`.
#![tactic(auto)]

mod laws;
mod level;
mod limits;
mod op;
mod semiring_name;
mod token_kind;

pub use laws::{
    canonical_lexemes_are_parsed, canonical_texts_are_read, command_texts_are_read,
    commands_are_parsed, lines_are_read_once, questions_are_parsed, questions_are_read,
    script_lines_are_parsed, script_lines_are_read, terms_are_parsed,
};
pub use level::Level;
pub use limits::{
    MAX_BRANCHES, MAX_CHANGES, MAX_COLUMNS, MAX_FROM, MAX_LEVELS, MAX_LINE_LENGTH, MAX_NODES,
    MAX_OPEN, MAX_PATTERN_NUMBER, MAX_SESSION, MAX_VALUES,
};
pub use op::Op;
pub use semiring_name::SemiringName;
pub use token_kind::TokenKind;
