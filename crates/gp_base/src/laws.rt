//! Laws of the definitions that contracts cite. Each function does nothing: its postconditions are the laws.

ghost use Rattle.std.specs.Prelude.{◌≡◌, ℕ, ◌+◌, min, List, ◌∷◌, ◌++◌};
ghost use Rattle.std.specs.List.Sorted.{IsPermutation, IsSorted};
ghost use Rattle.std.specs.Cmp.{IsTotalOrder};
ghost use Rattle.std.specs.Ordering.{is_eq};
ghost use Rattle.gp_base.specs.declared.cell.Cell.{Cell};
ghost use Rattle.gp_base.specs.declared.token.Token.{Token};
ghost use Rattle.gp_base.specs.CellForms.{ArePlain};
ghost use Rattle.gp_base.specs.Identities.{Identity, identity_cmp, same_identity, sources_cmp};
ghost use Rattle.gp_base.specs.IdentityForms.{sources_of};
ghost use Rattle.gp_base.specs.Order.{row_cmp, sorted_by};
ghost use Rattle.gp_base.specs.Texts.{row_text};
ghost use Rattle.gp_base.specs.Tokens.{Monomial, greatest_count, monomial_cmp, one, times, token_cmp};
ghost use Rattle.gp_base.specs.MonomialForms.{IsMonomial, power};

use std::cmp::Ordering;

/// `sorted_by row_cmp rows` is a sorted permutation of the rows, and the only one: a tie is between equal rows.
pub fn sorting_is_unique()
    ensures permutation { (rows : List (List Cell)) → IsPermutation rows (sorted_by row_cmp rows) }
    ensures sorted { (rows : List (List Cell)) → IsSorted row_cmp (sorted_by row_cmp rows) }
    ensures unique { (rows sorted : List (List Cell))
        → IsPermutation rows sorted → IsSorted row_cmp sorted → sorted ≡ sorted_by row_cmp rows }
{}

/// Different rows of tables have different texts, also when one has more cells than the other.
pub fn row_text_is_injective()
    ensures injective { (one other : List Cell)
        → ArePlain one → ArePlain other → row_text one ≡ row_text other → one ≡ other }
{}

/// Identities are totally ordered. A tie is between equal identities, and `same_identity` is a test for one. A list of
/// sources that is a proper prefix of another sorts first.
pub fn identities_are_ordered()
    ensures total { IsTotalOrder identity_cmp }
    ensures exact { (id other : Identity) → identity_cmp id other ≡ Ordering.Equal → id ≡ other }
    ensures same { (id other : Identity)
        → same_identity id other ≡ is_eq (identity_cmp id other) }
    ensures prefix { (ids : List Identity) (next : Identity) (others : List Identity)
        → sources_cmp (sources_of ids) (sources_of (ids ++ next ∷ others)) ≡ Ordering.Less }
{}

/// Tokens are totally ordered, and a tie is between equal tokens.
pub fn tokens_are_ordered()
    ensures total { IsTotalOrder token_cmp }
    ensures exact { (token other : Token)
        → token_cmp token other ≡ Ordering.Equal → token ≡ other }
{}

/// Monomials are totally ordered, and a tie is between equal monomials. A proper prefix of a monomial sorts first.
pub fn monomials_are_ordered()
    ensures total { IsTotalOrder monomial_cmp }
    ensures exact { (a b : Monomial) → monomial_cmp a b ≡ Ordering.Equal → a ≡ b }
    ensures prefix { (a : Monomial) (next : Token × ℕ) (b : Monomial)
        → monomial_cmp a (a ++ next ∷ b) ≡ Ordering.Less }
{}

/// Products are associative and commutative with `one` as their unit, on all lists of tokens with counts.
pub fn monomials_are_a_commutative_monoid()
    ensures left_unit { (a : Monomial) → times one a ≡ a }
    ensures right_unit { (a : Monomial) → times a one ≡ a }
    ensures associative { (a b c : Monomial) → times (times a b) c ≡ times a (times b c) }
    ensures commutative { (a b : Monomial) → times a b ≡ times b a }
{}

/// A product of monomials is a monomial, in which the counts of each token add up, and stop at the greatest count.
pub fn product_adds_counts()
    ensures valid { (a b : Monomial) → IsMonomial a → IsMonomial b → IsMonomial (times a b) }
    ensures counts { (a b : Monomial) (token : Token) → IsMonomial a → IsMonomial b
        → power (times a b) token ≡ min (power a token + power b token) greatest_count }
{}
