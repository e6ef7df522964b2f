//! Sets of tokens.

ghost use Rattle.std.specs.Prelude.{◌≡◌, ◌≢◌, ◌++◌, ◌∷◌, [], option_map, IfOk, OnOk};
ghost use Rattle.std.specs.Cmp.Lexicographic.{slice_cmp};
ghost use Rattle.gp_base.specs.Tokens.{token_cmp};
ghost use Rattle.gp_base.specs.Tokens as t;
ghost use Rattle.gp_semiring.specs.WitnessAdding as a;
ghost use Rattle.gp_semiring.specs.WitnessAdding.{place_in, with_items};
ghost use Rattle.gp_semiring.specs.Witnesses as w;
ghost use Rattle.gp_semiring.specs.Witnesses.{placed, set_of, set_text};
ghost use Rattle.gp_semiring.specs.WitnessForms.{IsRising};

use gp_base::{Monomial, NoMemory, TextFormat, Token, append_all, write_joined, write_monomial};
use std::alloc::Global;
use std::cmp::Ordering;
use std::marker::Model;

/// A set of tokens. Contracts see it as the list of its tokens, in ascending order.
#[derive(Drop)]
pub struct TokenSet {
    tokens: Vec<Token>,
}

impl Model for TokenSet {
    ghost use Rattle.std.specs.Prelude.{List};
    ghost use Rattle.gp_base.specs.declared.token.Token.{Token};
    ghost use Rattle.gp_base.specs.Tokens.{token_cmp};
    ghost use Rattle.gp_semiring.specs.WitnessLaws.{coded_set};
    ghost use Rattle.gp_semiring.specs.WitnessForms.{IsRising};

    ghost Value = { List Token };

    ghost coded = { coded_set };

    ghost view = { λ a. a.tokens.items };

    ghost invariant = { λ a. IsRising token_cmp a.tokens.items };
}

/// The order of tokens.
fn compare_tokens(left: &Token, right: &Token) -> Ordering
    ensures { result ≡ token_cmp left.now right.now }
{
    left.cmp(right)
}

/// The tokens after this one, in tokens that rise, if it is one of them.
fn rest_after<'a>(tokens: &'a [Token], token: &Token) -> Option<&'a [Token]>
    ensures { option_map (λ rest. rest.now) result
        ≡ a.rest_after token_cmp token.now tokens.now }
{
    for (at, other) in tokens.iter().enumerate() {
        match compare_tokens(token, other) {
            Ordering::Less => return None,
            Ordering::Equal => return Some(&tokens[at + 1..]),
            Ordering::Greater => {}
        }
    }
    None
}

/// Whether each of the tokens is one of the others: both rise, so they are walked together.
fn are_within(tokens: &[Token], others: &[Token]) -> bool
    requires tokens { IsRising token_cmp tokens.now }
    requires others { IsRising token_cmp others.now }
    ensures { result ≡ w.is_within token_cmp tokens.now others.now }
{
    let mut rest = others;
    for token in tokens {
        match rest_after(rest, token) {
            Some(after) => rest = after,
            None => return false,
        }
    }
    true
}

/// How many tokens stand before the place of the token.
fn place(tokens: &[Token], token: &Token) -> usize
    ensures { result ≡ place_in token_cmp token.now tokens.now }
{
    let mut at = 0;
    while at < tokens.len() && compare_tokens(token, &tokens[at]) == Ordering::Greater {
        at += 1;
    }
    at
}

/// Puts a token in its place, if it is not there.
#[tactic(auto, using(crate::proofs::SetLemmas::token_places))]
fn add_token(tokens: &mut Vec<Token>, token: Token) -> Result<(), NoMemory>
    ensures { OnOk result (tokens.new.items ≡ placed token_cmp token tokens.old.items) }
{
    let at = place(tokens.as_slice(), &token);
    if at == tokens.len() {
        tokens.push(token)?;
    } else if compare_tokens(&token, &tokens[at]) == Ordering::Equal {} else {
        tokens.insert(at, token)?;
    }
    Ok(())
}

/// Puts the others in their places.
fn add_tokens(tokens: &mut Vec<Token>, others: &[Token]) -> Result<(), NoMemory>
    ensures { OnOk result
        (tokens.new.items ≡ with_items token_cmp others.now tokens.old.items) }
{
    for other in others {
        add_token(tokens, *other)?;
    }
    Ok(())
}

/// Copies of tokens.
fn copied(alloc: Global, tokens: &[Token]) -> Result<Vec<Token>, NoMemory>
    ensures { IfOk result (λ copies. copies.items ≡ tokens.now) }
{
    let mut copies = Vec::new(alloc);
    for token in tokens {
        copies.push(*token)?;
    }
    Ok(copies)
}

impl TokenSet {
    /// The set of no tokens.
    pub fn new(alloc: Global) -> TokenSet
        ensures { result ≡ [] }
    {
        TokenSet {
            tokens: Vec::new(alloc),
        }
    }

    /// The set of one token.
    pub fn of(alloc: Global, token: Token) -> Result<TokenSet, NoMemory>
        ensures { IfOk result (λ set. set ≡ token ∷ []) }
    {
        let mut tokens = Vec::new(alloc);
        tokens.push(token)?;
        Ok(TokenSet { tokens })
    }

    /// The tokens in ascending order.
    pub fn tokens(&self) -> &[Token]
        ensures tokens { result.now ≡ self.now }
        ensures valid { IsRising token_cmp self.now }
    {
        self.tokens.as_slice()
    }

    /// Whether each of its tokens is one of the other's.
    pub fn is_within(&self, other: &TokenSet) -> bool
        ensures { result ≡ w.is_within token_cmp self.now other.now }
    {
        are_within(self.tokens.as_slice(), other.tokens.as_slice())
    }

    /// Whether each of its tokens is one of the other's, which is another set: it has fewer tokens then.
    #[tactic(auto, using(crate::proofs::SetLemmas::none_within))]
    pub fn is_part_of(&self, other: &TokenSet) -> bool
        requires { self.now ≢ other.now }
        ensures { result ≡ w.is_within token_cmp self.now other.now }
    {
        if self.tokens.len() >= other.tokens.len() {
            return false;
        }
        self.is_within(other)
    }

    /// The order of sets: by the first token that differs; a proper prefix is less.
    pub fn compare(&self, other: &TokenSet) -> Ordering
        ensures { result ≡ slice_cmp token_cmp self.now other.now }
    {
        self.tokens.as_slice().cmp(other.tokens.as_slice())
    }

    /// The tokens of both.
    #[tactic(auto, using(crate::proofs::SetLemmas::union_is))]
    pub fn union(&self, alloc: Global, other: &TokenSet) -> Result<TokenSet, NoMemory>
        ensures { IfOk result (λ set. set ≡ set_of token_cmp (self.now ++ other.now)) }
    {
        let left = self.tokens.as_slice();
        let right = other.tokens.as_slice();
        let mut tokens = copied(alloc, right)?;
        add_tokens(&mut tokens, left)?;
        Ok(TokenSet { tokens })
    }

    /// A copy.
    pub fn copy(&self, alloc: Global) -> Result<TokenSet, NoMemory>
        ensures { IfOk result (λ set. set ≡ self.now) }
    {
        Ok(TokenSet {
            tokens: copied(alloc, self.tokens.as_slice())?,
        })
    }
}

/// Prints a token.
struct TokenFormat;

impl TextFormat<Token> for TokenFormat {
    ghost text = { t.token_text };

    fn write(&self, alloc: Global, token: &Token, out: &mut Vec<u8>) -> Result<(), NoMemory> {
        let monomial = Monomial::of(alloc, *token);
        let mut text = Vec::new(alloc);
        write_monomial(alloc, &monomial, &mut text)?;
        append_all(out, &[&text])
    }
}

/// Prints a set: its tokens joined by `*`, or 1.
pub struct SetFormat;

impl TextFormat<TokenSet> for SetFormat {
    ghost text = { set_text };

    fn write(&self, alloc: Global, set: &TokenSet, out: &mut Vec<u8>) -> Result<(), NoMemory> {
        let tokens = set.tokens.as_slice();
        if tokens.is_empty() {
            return append_all(out, &[b"1"]);
        }
        write_joined(alloc, tokens, &TokenFormat, b"*", out)
    }
}
