//! The texts of reserved words and signs, and the look-up of reserved words.

ghost use Rattle.std.specs.Prelude.{◌≡◌, length, nat_eq};
ghost use Rattle.std.specs.List.{filter, find};
ghost use Rattle.std.specs.Str.{str_eq_ignore_ascii_case};
ghost use Rattle.gp_lexer.specs.Lexemes.{symbol_text};
ghost use Rattle.gp_lexer.specs.Lexing.{reserved_symbols, reserved_word};

use crate::lexeme::Symbol;

/// The canonical text of a reserved word, in capitals, or of a sign.
#[tactic(auto, unfolding(crate::specs::Lexemes::symbol_text))]
pub(crate) fn symbol_text(symbol: Symbol) -> &'static [u8]
    ensures { result.now ≡ symbol_text symbol }
{
    match symbol {
        Symbol::All => b"ALL",
        Symbol::And => b"AND",
        Symbol::As => b"AS",
        Symbol::Begin => b"BEGIN",
        Symbol::Case => b"CASE",
        Symbol::Commit => b"COMMIT",
        Symbol::Create => b"CREATE",
        Symbol::Delete => b"DELETE",
        Symbol::Else => b"ELSE",
        Symbol::End => b"END",
        Symbol::From => b"FROM",
        Symbol::Insert => b"INSERT",
        Symbol::Int => b"INT",
        Symbol::Into => b"INTO",
        Symbol::Is => b"IS",
        Symbol::Not => b"NOT",
        Symbol::Null => b"NULL",
        Symbol::Or => b"OR",
        Symbol::Rollback => b"ROLLBACK",
        Symbol::Select => b"SELECT",
        Symbol::Set => b"SET",
        Symbol::Table => b"TABLE",
        Symbol::Text => b"TEXT",
        Symbol::Then => b"THEN",
        Symbol::True => b"TRUE",
        Symbol::Union => b"UNION",
        Symbol::Update => b"UPDATE",
        Symbol::Values => b"VALUES",
        Symbol::When => b"WHEN",
        Symbol::Where => b"WHERE",
        Symbol::Open => b"(",
        Symbol::Close => b")",
        Symbol::Comma => b",",
        Symbol::Dot => b".",
        Symbol::Colon => b":",
        Symbol::Semicolon => b";",
        Symbol::Plus => b"+",
        Symbol::Minus => b"-",
        Symbol::Star => b"*",
        Symbol::Eq => b"=",
        Symbol::Ne => b"<>",
        Symbol::Lt => b"<",
        Symbol::Le => b"<=",
        Symbol::Gt => b">",
        Symbol::Ge => b">=",
    }
}

/// The reserved words with this number of bytes. A word is compared with these alone, since comparing it with all thirty
/// takes most of the lexer's time.
#[tactic(auto, unfolding(crate::specs::Lexemes::symbol_text))]
fn reserved_with_len(len: usize) -> &'static [Symbol]
    ensures { result.now
        ≡ filter (λ symbol. nat_eq (length (symbol_text symbol)) len) reserved_symbols }
{
    match len {
        2 => &[Symbol::As, Symbol::Is, Symbol::Or],
        3 => &[
            Symbol::All,
            Symbol::And,
            Symbol::End,
            Symbol::Int,
            Symbol::Not,
            Symbol::Set,
        ],
        4 => &[
            Symbol::Case,
            Symbol::Else,
            Symbol::From,
            Symbol::Into,
            Symbol::Null,
            Symbol::Text,
            Symbol::Then,
            Symbol::True,
            Symbol::When,
        ],
        5 => &[Symbol::Begin, Symbol::Table, Symbol::Union, Symbol::Where],
        6 => &[
            Symbol::Commit,
            Symbol::Create,
            Symbol::Delete,
            Symbol::Insert,
            Symbol::Select,
            Symbol::Update,
            Symbol::Values,
        ],
        8 => &[Symbol::Rollback],
        _ => &[],
    }
}

fn is_spelled(symbol: Symbol, word: &[u8]) -> bool
    ensures { result ≡ str_eq_ignore_ascii_case (symbol_text symbol) word.now }
{
    symbol_text(symbol).eq_ignore_ascii_case(word)
}

/// The first of the symbols whose text is the word, in letters of either case.
fn symbol_among(symbols: &[Symbol], word: &[u8]) -> Option<Symbol>
    ensures { result
        ≡ find (λ symbol. str_eq_ignore_ascii_case (symbol_text symbol) word.now) symbols.now }
{
    match symbols {
        [] => None,
        [symbol, others @ ..] => {
            if is_spelled(*symbol, word) {
                Some(*symbol)
            } else {
                symbol_among(others, word)
            }
        }
    }
}

/// The reserved word that the word is, in letters of either case.
#[tactic(auto, unfolding(crate::specs::Lexing::reserved_word))]
pub(crate) fn reserved_word(word: &[u8]) -> Option<Symbol>
    ensures { result ≡ reserved_word word.now }
{
    symbol_among(reserved_with_len(word.len()), word)
}
