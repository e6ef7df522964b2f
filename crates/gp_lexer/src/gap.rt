//! The gaps between lexemes in canonical spacing.

ghost use Rattle.std.specs.Prelude.{◌≡◌};
ghost use Rattle.gp_lexer.specs.Layout.{has_space, is_separated, next_gap};
ghost use Rattle.gp_lexer.specs.declared.lexeme.Lexeme.TheVariants.{Symbol as Sign, Big as BigLexeme};

use crate::lexeme::Symbol;

/// What comes between the text so far and the next lexeme, and whether a `-` there is a sign.
#[derive(Clone, Copy)]
pub enum Gap {
    /// Nothing: the line begins here, or `(` is before. A `-` is a sign.
    Start,
    /// A space, since `,` is before. A `-` is a sign.
    AfterComma,
    /// Nothing: `.` or a sign is before.
    Joined,
    /// A space: any other lexeme is before.
    Spaced,
}

impl Gap {
    /// Whether a lexeme that is no `)`, `,` or `.` has a space before it.
    pub(crate) fn has_space(self) -> bool
        ensures { result ≡ has_space self BigLexeme }
    {
        match self {
            Gap::Start | Gap::Joined => false,
            Gap::AfterComma | Gap::Spaced => true,
        }
    }

    /// Whether the symbol has a space before it.
    pub(crate) fn has_space_before(self, symbol: Symbol) -> bool
        ensures { result ≡ has_space self (Sign symbol) }
    {
        match self {
            Gap::Start | Gap::Joined => false,
            Gap::AfterComma | Gap::Spaced => is_separated(symbol),
        }
    }

    /// The gap after a symbol.
    pub(crate) fn after_symbol(self, symbol: Symbol) -> Gap
        ensures { result ≡ next_gap self (Sign symbol) }
    {
        match symbol {
            Symbol::Open => Gap::Start,
            Symbol::Comma => Gap::AfterComma,
            Symbol::Dot => Gap::Joined,
            Symbol::Minus => self.after_minus(),
            _ => Gap::Spaced,
        }
    }

    fn after_minus(self) -> Gap
        ensures { result ≡ next_gap self (Sign Symbol.Minus) }
    {
        match self {
            Gap::Start | Gap::AfterComma => Gap::Joined,
            Gap::Joined | Gap::Spaced => Gap::Spaced,
        }
    }
}

/// Whether a space may be before the symbol.
fn is_separated(symbol: Symbol) -> bool
    ensures { result ≡ is_separated (Sign symbol) }
{
    match symbol {
        Symbol::Close | Symbol::Comma | Symbol::Dot => false,
        _ => true,
    }
}
