//! The laws of lexemes. The functions here do nothing; their contracts state the laws.

ghost use Rattle.std.specs.Prelude.{◌≡◌, ℕ, List, Some, false};
ghost use Rattle.std.specs.Char.{is_ascii_control};
ghost use Rattle.std.specs.List.{list_any};
ghost use Rattle.std.specs.Str.{IsUtf8};
ghost use Rattle.gp_lexer.specs.declared.lexeme.Lexeme.{Lexeme};
ghost use Rattle.gp_lexer.specs.Layout.{laid_out};
ghost use Rattle.gp_lexer.specs.ProperLexemes.{AreProper, HaveUtf8Texts};
ghost use Rattle.gp_lexer.specs.LexResults.{lexemes_of};

/// Lexing inverts the canonical layout: the text of proper lexemes is read as these lexemes.
pub fn lexing_inverts_layout()
    ensures { (lexemes : List Lexeme) → AreProper lexemes
        → lexemes_of (laid_out lexemes) ≡ Some lexemes }
{}

/// The lexemes of a line are proper, so they can be laid out and read again.
pub fn lexemes_are_proper()
    ensures { (line : List ℕ) (lexemes : List Lexeme) → lexemes_of line ≡ Some lexemes
        → AreProper lexemes }
{}

/// The value of each text of a UTF-8 line is UTF-8.
pub fn texts_are_utf8()
    ensures { (line : List ℕ) (lexemes : List Lexeme) → IsUtf8 line → lexemes_of line ≡ Some lexemes
        → HaveUtf8Texts lexemes }
{}

/// The canonical text of proper lexemes has no control character, so it is one line, and it is UTF-8 where the values
/// of its texts are.
pub fn layout_is_printable()
    ensures one_line { (lexemes : List Lexeme) → AreProper lexemes
        → list_any is_ascii_control (laid_out lexemes) ≡ false }
    ensures utf8 { (lexemes : List Lexeme) → AreProper lexemes → HaveUtf8Texts lexemes
        → IsUtf8 (laid_out lexemes) }
{}
