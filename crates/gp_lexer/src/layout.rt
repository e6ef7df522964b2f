//! The writer of lexemes in canonical spacing.

ghost use Rattle.std.specs.Prelude.{◌≡◌, ◌++◌, ◌∷◌, [], OnOk, OnErr, length, take};
ghost use Rattle.std.specs.Fmt.{decimal};
ghost use Rattle.std.specs.List.{flat_map};
ghost use Rattle.gp_base.specs.Texts.{quoted_byte};
ghost use Rattle.gp_lexer.specs.Layout.{empty_page, has_space, next_gap, put, spaced};
ghost use Rattle.gp_lexer.specs.Lexemes.{spelled};
ghost use Rattle.gp_lexer.specs.declared.lexeme.Lexeme.TheVariants as lexeme;

use crate::gap::Gap;
use crate::lexeme::{Lexeme, Number, QUOTE, Symbol};
use crate::symbol::symbol_text;
use gp_base::{Name, NoMemory, Text};
use itoa::Buffer;
use std::alloc::Global;
use std::marker::Model;

/// A text that is written lexeme by lexeme in canonical spacing. Contracts see the text so far and the gap after it.
///
/// A call that runs out of memory leaves the layout as it was.
#[derive(Drop)]
pub struct Layout {
    text: Vec<u8>,
    gap: Gap,
}

impl Model for Layout {
    ghost use Rattle.gp_lexer.specs.Layout.{Page};

    ghost Value = { Page };

    ghost view = { λ a. record { text = a.text.items; gap = a.gap } };
}

impl Layout {
    /// The layout with no lexeme.
    pub fn new(alloc: Global) -> Layout
        ensures { result ≡ empty_page }
    {
        Layout {
            text: Vec::new(alloc),
            gap: Gap::Start,
        }
    }

    /// The text so far.
    pub fn into_text(self) -> Vec<u8>
        ensures { result.items ≡ self.text }
    {
        self.text
    }

    /// Writes any lexeme.
    pub fn push(&mut self, lexeme: &Lexeme) -> Result<(), NoMemory>
        ensures ok { OnOk result (self.new ≡ put self.old lexeme.now) }
        ensures err { OnErr result (self.new ≡ self.old) }
    {
        match lexeme {
            Lexeme::Symbol(symbol) => self.push_symbol(*symbol),
            Lexeme::Word(name) => self.push_word(name),
            Lexeme::Number(number) => self.push_number(*number),
            Lexeme::Big => self.push_big(),
            Lexeme::Text(text) => self.push_text(text),
        }
    }

    /// Writes a reserved word or a sign.
    pub fn push_symbol(&mut self, symbol: Symbol) -> Result<(), NoMemory>
        ensures ok { OnOk result (self.new ≡ put self.old (lexeme.Symbol symbol)) }
        ensures err { OnErr result (self.new ≡ self.old) }
    {
        let space = self.gap.has_space_before(symbol);
        self.push_spelling(space, symbol_text(symbol), self.gap.after_symbol(symbol))
    }

    /// Writes a name.
    pub fn push_word(&mut self, name: &Name) -> Result<(), NoMemory>
        ensures ok { OnOk result (self.new ≡ put self.old (lexeme.Word name.now)) }
        ensures err { OnErr result (self.new ≡ self.old) }
    {
        self.push_spelling(self.gap.has_space(), name.as_bytes(), Gap::Spaced)
    }

    /// Writes a number in decimal digits.
    pub fn push_number(&mut self, number: Number) -> Result<(), NoMemory>
        ensures ok { OnOk result (self.new ≡ put self.old (lexeme.Number number)) }
        ensures err { OnErr result (self.new ≡ self.old) }
    {
        let mut buffer = Buffer::new();
        let digits = buffer.format(number.get());
        self.push_spelling(self.gap.has_space(), digits.as_bytes(), Gap::Spaced)
    }

    /// Writes 9223372036854775808.
    pub fn push_big(&mut self) -> Result<(), NoMemory>
        ensures ok { OnOk result (self.new ≡ put self.old lexeme.Big) }
        ensures err { OnErr result (self.new ≡ self.old) }
    {
        self.push_spelling(self.gap.has_space(), b"9223372036854775808", Gap::Spaced)
    }

    /// Writes a text in quotes, with each quote inside doubled.
    pub fn push_text(&mut self, text: &Text) -> Result<(), NoMemory>
        ensures ok { OnOk result (self.new ≡ put self.old (lexeme.Text text.now)) }
        ensures err { OnErr result (self.new ≡ self.old) }
    {
        let before = self.text.len();
        let written = append_text(&mut self.text, self.gap.has_space(), text);
        self.finish(before, Gap::Spaced, written)
    }

    /// Writes a spelling, with or without a space before it, and then has this gap.
    fn push_spelling(&mut self, space: bool, spelling: &[u8], gap: Gap) -> Result<(), NoMemory>
        ensures ok { OnOk result (self.new ≡ record {
          text = self.old.text ++ spaced space spelling.now;
          gap = gap;
        }) }
        ensures err { OnErr result (self.new ≡ self.old) }
    {
        let before = self.text.len();
        let written = append_spelling(&mut self.text, space, spelling);
        self.finish(before, gap, written)
    }

    /// Ends a call: with this gap after what was written or, where memory ran out, with the text cut to the length that it
    /// had before.
    fn finish(
        &mut self,
        before: usize,
        gap: Gap,
        written: Result<(), NoMemory>,
    ) -> Result<(), NoMemory>
        ensures same { result ≡ written }
        ensures ok { OnOk result (self.new ≡ record { text = self.old.text; gap = gap }) }
        ensures err { OnErr result (self.new ≡ record {
          text = take before self.old.text;
          gap = self.old.gap;
        }) }
    {
        match written {
            Ok(()) => {
                self.gap = gap;
                Ok(())
            }
            Err(error) => {
                self.text.truncate(before);
                Err(error)
            }
        }
    }
}

/// Appends a spelling, with or without a space before it. What was there before stays, as in all functions below.
#[tactic(auto, using(crate::proofs::KeptLemmas::kept_steps))]
fn append_spelling(out: &mut Vec<u8>, space: bool, spelling: &[u8]) -> Result<(), NoMemory>
    ensures ok { OnOk result (out.new.items ≡ out.old.items ++ spaced space spelling.now) }
    ensures kept { take (length out.old.items) out.new.items ≡ out.old.items }
{
    if space {
        out.push(b' ')?;
    }
    out.extend_from_slice(spelling)?;
    Ok(())
}

/// Appends a text in quotes, with or without a space before it.
#[tactic(auto, using(crate::proofs::KeptLemmas::kept_steps))]
fn append_text(out: &mut Vec<u8>, space: bool, text: &Text) -> Result<(), NoMemory>
    ensures ok { OnOk result
        (out.new.items ≡ out.old.items ++ spaced space (spelled (lexeme.Text text.now))) }
    ensures kept { take (length out.old.items) out.new.items ≡ out.old.items }
{
    append_spelling(out, space, &[QUOTE])?;
    append_quoted(out, text.as_bytes())?;
    append_spelling(out, false, &[QUOTE])
}

/// Appends a byte of a text value, with a quote doubled.
#[tactic(auto, using(crate::proofs::KeptLemmas::kept_steps))]
fn append_byte(out: &mut Vec<u8>, byte: u8) -> Result<(), NoMemory>
    ensures ok { OnOk result (out.new.items ≡ out.old.items ++ quoted_byte byte) }
    ensures kept { take (length out.old.items) out.new.items ≡ out.old.items }
{
    if byte == QUOTE {
        out.push(QUOTE)?;
    }
    out.push(byte)?;
    Ok(())
}

/// Appends the bytes of a text value, with each quote doubled.
#[tactic(auto, using(crate::proofs::KeptLemmas::kept_steps))]
fn append_quoted(out: &mut Vec<u8>, text: &[u8]) -> Result<(), NoMemory>
    ensures ok { OnOk result (out.new.items ≡ out.old.items ++ flat_map quoted_byte text.now) }
    ensures kept { take (length out.old.items) out.new.items ≡ out.old.items }
{
    for byte in text {
        append_byte(out, *byte)?;
    }
    Ok(())
}
