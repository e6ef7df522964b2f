//! The lexer.

ghost use Rattle.std.specs.Prelude.{◌≡◌, ◌-◌, ◌+◌, ◌<◌, ◌≤◌, ◌^◌, ◌∷◌, length, map, min, IfOk, IfSome, nat_eq, true, None, Some, slice_index, ℕ};
ghost use Rattle.std.specs.List.{prefix_len};
ghost use Rattle.std.specs.Option.{option_map};
ghost use Rattle.std.specs.Char.{is_ascii_alphabetic, is_ascii_digit};
ghost use Rattle.std.specs.Str.{str_to_ascii_lowercase};
ghost use Rattle.std.specs.Str.Parse.{AllDigits, digits_value};
ghost use Rattle.gp_base.specs.Names.{is_name};
ghost use Rattle.gp_lexer.specs.Lexing as spec;
ghost use Rattle.gp_lexer.specs.LexResults.{GivesLexemes};
ghost use Rattle.gp_lexer.specs.Parts.{text_of_part};

use crate::error::LexStop;
use crate::lexeme::{Lexeme, Number, QUOTE, Symbol};
use crate::lexemes::Lexemes;
use crate::symbol::reserved_word;
use gp_base::{MAX_NAME_LENGTH, MAX_TEXT_LENGTH, Name, NoMemory, Sequence, Text};
use std::alloc::Global;

fn is_word_byte(byte: u8) -> bool
    ensures { result ≡ spec.is_word_byte byte }
{
    byte.is_ascii_alphanumeric() || byte == b'_'
}

fn word_len(bytes: &[u8]) -> usize
    ensures value { result ≡ prefix_len spec.is_word_byte bytes.now }
    ensures bound { result ≤ length bytes.now }
{
    bytes.iter().take_while(|byte| is_word_byte(**byte)).count()
}

fn digits_len(bytes: &[u8]) -> usize
    ensures value { result ≡ prefix_len is_ascii_digit bytes.now }
    ensures bound { result ≤ length bytes.now }
{
    bytes
        .iter()
        .take_while(|byte| byte.is_ascii_digit())
        .count()
}

/// The lexeme of a word. Where it is not reserved, it is a name in lower case.
fn word_lexeme(alloc: Global, word: &[u8]) -> Result<Lexeme, NoMemory>
    requires { spec.reserved_word word.now ≡ None
        → is_name (str_to_ascii_lowercase word.now) ≡ true }
    ensures { IfOk result (λ lexeme. lexeme ≡ spec.word_lexeme word.now) }
{
    match reserved_word(word) {
        Some(symbol) => Ok(Lexeme::Symbol(symbol)),
        None => {
            let name = word.to_ascii_lowercase(alloc)?;
            Ok(Lexeme::Word(Name::new(alloc, &name)?))
        }
    }
}

/// The word that the bytes begin with, if it is not too long, and the bytes after it.
#[tactic(auto, unfolding(crate::specs::Lexing::word_at))]
fn word_at(alloc: Global, bytes: &[u8]) -> Result<Option<(Lexeme, &[u8])>, NoMemory>
    requires { is_ascii_alphabetic (slice_index bytes.now 0) ≡ true }
    ensures { IfOk result (λ found. option_map (λ f. (f.0, f.1.now)) found
        ≡ spec.word_at bytes.now) }
{
    let len = word_len(bytes);
    if len > MAX_NAME_LENGTH {
        return Ok(None);
    }
    let (word, rest) = bytes.split_at(len);
    Ok(Some((word_lexeme(alloc, word)?, rest)))
}

/// The value of the digits, or the greatest `u64` where it is greater.
pub fn value_of(digits: &[u8]) -> u64
    requires { AllDigits 10 digits.now }
    ensures { result ≡ min (digits_value 10 digits.now) (2 ^ 64 - 1) }
{
    let mut value: u64 = 0;
    for digit in digits {
        value = value
            .saturating_mul(10)
            .saturating_add(u64::from(*digit - b'0'));
    }
    value
}

/// The lexeme of digits with this value, or with a greater one if the value is the greatest `u64`.
fn number_lexeme(value: u64) -> Option<Lexeme>
    ensures { (number : ℕ) → value ≡ min number (2 ^ 64 - 1)
        → result ≡ spec.number_lexeme number }
{
    if value < 1 << 63 {
        Some(Lexeme::Number(Number::new(value)))
    } else if value == 1 << 63 {
        Some(Lexeme::Big)
    } else {
        None
    }
}

/// The number that the bytes begin with, if it is not too large, and the bytes after it.
#[tactic(auto, unfolding(crate::specs::Lexing::number_at))]
fn number_at(bytes: &[u8]) -> Option<(Lexeme, &[u8])>
    ensures { option_map (λ f. (f.0, f.1.now)) result ≡ spec.number_at bytes.now }
{
    let (digits, rest) = bytes.split_at(digits_len(bytes));
    Some((number_lexeme(value_of(digits))?, rest))
}

/// The part of a text after a quote in it: a second quote is a byte of the value, and anything else is after the end.
fn part_after_quote(bytes: &[u8]) -> (Option<u8>, &[u8])
    ensures value { spec.quoted_text_after_quote bytes.now
        ≡ text_of_part (Some (result.0, result.1.now)) }
    ensures bound { length result.1.now ≤ length bytes.now }
{
    match bytes {
        [QUOTE, others @ ..] => (Some(QUOTE), others),
        _ => (None, bytes),
    }
}

/// The next part of a text, a byte of its value or `None` for the closing quote, and the bytes after the part; or
/// `None` where the text is not closed or has a control character.
fn text_part(bytes: &[u8]) -> Option<(Option<u8>, &[u8])>
    ensures value { spec.quoted_text bytes.now
        ≡ text_of_part (option_map (λ f. (f.0, f.1.now)) result) }
    ensures shorter { IfSome result (λ f. length f.1.now < length bytes.now) }
{
    match bytes {
        [] => None,
        [QUOTE, others @ ..] => Some(part_after_quote(others)),
        [byte, others @ ..] if !byte.is_ascii_control() => Some((Some(*byte), others)),
        _ => None,
    }
}

/// The value of a text, whose opening quote is before these bytes, and the bytes after its closing quote.
#[tactic(auto, using(crate::proofs::TextLemmas::quoted_steps))]
fn quoted_text(alloc: Global, bytes: &[u8]) -> Result<Option<(Vec<u8>, &[u8])>, NoMemory>
    ensures { IfOk result (λ found. option_map (λ f. (f.0.items, f.1.now)) found
        ≡ spec.quoted_text bytes.now) }
{
    let mut value = Vec::new(alloc);
    let mut rest = bytes;
    loop {
        match text_part(rest) {
            Some((Some(byte), others)) => {
                value.push(byte)?;
                rest = others;
            }
            Some((None, others)) => return Ok(Some((value, others))),
            None => return Ok(None),
        }
    }
}

/// The text whose opening quote is before these bytes, if its value is not too long, and the bytes after it.
fn text_at(alloc: Global, bytes: &[u8]) -> Result<Option<(Lexeme, &[u8])>, NoMemory>
    ensures { IfOk result (λ found. option_map (λ f. (f.0, f.1.now)) found
        ≡ spec.text_lexeme (spec.quoted_text bytes.now)) }
{
    match quoted_text(alloc, bytes)? {
        None => Ok(None),
        Some((value, rest)) => {
            if value.len() > MAX_TEXT_LENGTH {
                return Ok(None);
            }
            Ok(Some((Lexeme::Text(Text::from_bytes(alloc, &value)?), rest)))
        }
    }
}

/// The sign that begins with this byte, of which the others may be a part, and the bytes after it.
#[tactic(auto, unfolding(crate::specs::Lexing::sign_at))]
fn sign_at(first: u8, others: &[u8]) -> Option<(Lexeme, &[u8])>
    ensures { option_map (λ f. (f.0, f.1.now)) result ≡ spec.sign_at (first ∷ others.now) }
{
    let (symbol, rest) = match (first, others) {
        (b',', _) => (Symbol::Comma, others),
        (b'(', _) => (Symbol::Open, others),
        (b')', _) => (Symbol::Close, others),
        (b'.', _) => (Symbol::Dot, others),
        (b'-', _) => (Symbol::Minus, others),
        (b'*', _) => (Symbol::Star, others),
        (b'+', _) => (Symbol::Plus, others),
        (b':', _) => (Symbol::Colon, others),
        (b';', _) => (Symbol::Semicolon, others),
        (b'=', _) => (Symbol::Eq, others),
        (b'<', [b'>', rest @ ..]) => (Symbol::Ne, rest),
        (b'<', [b'=', rest @ ..]) => (Symbol::Le, rest),
        (b'<', _) => (Symbol::Lt, others),
        (b'>', [b'=', rest @ ..]) => (Symbol::Ge, rest),
        (b'>', _) => (Symbol::Gt, others),
        (b'!', [b'=', rest @ ..]) => (Symbol::Ne, rest),
        _ => return None,
    };
    Some((Lexeme::Symbol(symbol), rest))
}

/// The lexeme that the bytes begin with and the bytes after it, or `None` where none can be read.
#[tactic(auto, unfolding(crate::specs::Lexing::lexeme_at))]
fn lexeme_at(alloc: Global, bytes: &[u8]) -> Result<Option<(Lexeme, &[u8])>, NoMemory>
    ensures { IfOk result (λ found. option_map (λ f. (f.0, f.1.now)) found
        ≡ spec.lexeme_at bytes.now) }
{
    match bytes {
        [] => Ok(None),
        [byte, others @ ..] => {
            if byte.is_ascii_alphabetic() {
                word_at(alloc, bytes)
            } else if byte.is_ascii_digit() {
                Ok(number_at(bytes))
            } else if *byte == QUOTE {
                text_at(alloc, others)
            } else {
                Ok(sign_at(*byte, others))
            }
        }
    }
}

fn is_blank(byte: u8) -> bool
    ensures { result ≡ spec.is_blank byte }
{
    byte == b' ' || byte == b'\t'
}

/// The lexemes of a line with their columns. The line is any bytes without its line end.
///
/// The error is [`LexStop::Fault`] where some lexeme cannot be read, with the column of the first byte of the first
/// such place: a word of more than [`MAX_NAME_LENGTH`] bytes, digits with a value above 9223372036854775808, a text that
/// is not closed or whose value has a control character or more than [`MAX_TEXT_LENGTH`] bytes, or any other byte that
/// begins no lexeme. Running out of memory is the only other error.
pub fn lex(alloc: Global, line: &[u8]) -> Result<Lexemes, LexStop>
    requires { length line.now < 2 ^ 32 - 1 }
    ensures { GivesLexemes result (spec.lexed line.now) }
{
    let mut lexemes = Sequence::new(alloc);
    let mut columns = Sequence::new(alloc);
    let mut rest = line;
    loop {
        match rest {
            [] => return Ok(Lexemes::new(lexemes, columns)),
            [byte, others @ ..] if is_blank(*byte) => rest = others,
            _ => {
                let column = (line.len() - rest.len() + 1) as u32;
                match lexeme_at(alloc, rest)? {
                    None => return Err(LexStop::Fault { column }),
                    Some((lexeme, others)) => {
                        lexemes.push(lexeme)?;
                        columns.push(column)?;
                        rest = others;
                    }
                }
            }
        }
    }
}
