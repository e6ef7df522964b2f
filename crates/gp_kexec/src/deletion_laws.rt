//! Laws of deletion in thought. Each function does nothing: its postconditions are the laws.

ghost use Rattle.std.specs.Prelude.{◌≡◌, ◌<◌, ◌∷◌, [], ℕ, List, Bool, Some, filter, length, min, not};
ghost use Rattle.std.specs.List.{list_any};
ghost use Rattle.gp_base.specs.declared.cell.Cell.{Cell};
ghost use Rattle.gp_base.specs.declared.token.Token.{Token};
ghost use Rattle.gp_base.specs.Annotated.{Annotations, Database, Environment, monomials};
ghost use Rattle.gp_base.specs.Order.{row_cmp, sorted_by};
ghost use Rattle.gp_base.specs.Tokens.{Monomial, greatest_count, token_cmp};
ghost use Rattle.gp_algebra.specs.AnnotatedQueries.{Program};
ghost use Rattle.gp_algebra.specs.AnnotatedMeaning.{program_meaning};
ghost use Rattle.gp_algebra.specs.Answers as a;
ghost use Rattle.gp_algebra.specs.Answers.{Element, answer, cells_of};
ghost use Rattle.gp_algebra.specs.Effects.{step};
ghost use Rattle.gp_algebra.specs.Reannotation.{IsHomomorphism};
ghost use Rattle.gp_algebra.specs.Statements.{Select, Statement};
ghost use Rattle.gp_semiring.specs.Elements.{no_token, number_up_to};
ghost use Rattle.gp_semiring.specs.Sums.{plus_up_to, summed, times_up_to};
ghost use Rattle.gp_semiring.specs.SumForms.{Each};
ghost use Rattle.gp_semiring.specs.Witnesses.{witness_plus, witness_times};
ghost use Rattle.gp_semiring.specs.declared.rules.Rule.{Rule};
ghost use Rattle.gp_semiring.specs.Rules.{fits_rule};
ghost use Rattle.gp_semiring.specs.Values.{monomial_value, token_value};
ghost use Rattle.gp_kexec.specs.Valuing.{values_as_annotations};
ghost use Rattle.gp_kexec.specs.InSemiring.{in_semiring};
ghost use Rattle.gp_kexec.specs.SemiringForms.{environment_reannotated};
ghost use Rattle.gp_kexec.specs.Rows.{pairs_of};
ghost use Rattle.gp_kexec.specs.Counting.{counted_by, counted_pairs, kept};
ghost use Rattle.gp_kexec.specs.Deletion.{has_token, reduced};
ghost use Rattle.gp_kexec.specs.DeletionForms.{Finds};
ghost use Rattle.gp_kexec.specs.Minimal.{minimal};
ghost use Rattle.gp_kexec.specs.CountForms.{HasCounts, itself};
ghost use Rattle.gp_kexec.specs.Remaining.{number_of, repeated};

/// What is found in annotations is found in a product exactly where it is found in a factor, as a token in monomials. Then
/// leaving the rows in which it is found out of a database before a query is leaving them out of the answer, each occurrence
/// by itself; and leaving them out before a statement, and then from its result, is leaving them out of its result.
pub fn deletions_commute<M>()
    ensures answers { (domain : Annotations M) (has : M → Bool) → Finds domain has
        → (select : Select) (db : Database M)
        → answer domain select (reduced has db)
        ≡ filter (λ (element : Element M). not (has element.annotation)) (answer domain select db) }
    ensures effects { (domain : Annotations M) (has : M → Bool) → Finds domain has
        → (t k : ℕ) (statement : Statement) (db : Database M) (table : ℕ)
        → reduced has (step domain t k statement db) table
        ≡ reduced has (step domain t k statement (reduced has db)) table }
{}

/// A product of monomials has a token that is matched exactly where a factor has one.
pub fn monomials_are_searched()
    ensures { (matches : Token → Bool) → Finds monomials (has_token matches) }
{}

/// The value of a row in [`PosBool`](gp_semiring::PosBool), where each token is its own set, is the minimal ones of the token
/// sets of its monomials. What is minimal is said by [`gp_semiring::witnesses_are_minimal`].
pub fn values_are_minimal()
    ensures { (pairs : List (List Cell × Monomial))
        → Each (λ (pair : List Cell × Monomial). HasCounts pair.1) pairs → (row : List Cell)
        → in_semiring [] ([] ∷ []) (witness_plus token_cmp) (witness_times token_cmp) itself pairs row
        ≡ minimal pairs row }
{}

/// Counting what is left out as 0 and all else as 1 keeps one, products and tokens, also where the count of a token stops.
/// So the rows of a program over the values are those over the monomials, each counted 0 exactly where it is left out.
pub fn counting_keeps_products()
    ensures { (matches : Token → Bool) → IsHomomorphism monomials
        (values_as_annotations 1 (times_up_to greatest_count) (counted_by matches))
        (counted_by (has_token matches)) }
{}

/// Rows that are added up, and then listed as often as they are counted, are the rows that are not left out, in ascending
/// order; and the sum of their numbers is how many there are. Numbers stop at 2^64 - 1.
pub fn counted_rows_remain<M>()
    ensures rows { (has : M → Bool) (pairs : List (List Cell × M))
        → number_of (summed row_cmp (plus_up_to greatest_count) (counted_pairs has pairs)) < greatest_count
        → repeated (summed row_cmp (plus_up_to greatest_count) (counted_pairs has pairs))
        ≡ sorted_by row_cmp (kept has pairs) }
    ensures number { (has : M → Bool) (pairs : List (List Cell × M))
        → min (number_of (summed row_cmp (plus_up_to greatest_count) (counted_pairs has pairs)))
        greatest_count ≡ min (length (kept has pairs)) greatest_count }
{}

/// By rules of value 0, and 1 for all other tokens, a token counts 0 exactly where a rule fits it, and a monomial exactly
/// where a rule fits one of its tokens.
pub fn rules_leave_out()
    ensures tokens { (rules : List Rule) → Each (λ (rule : Rule). rule.value ≡ 0) rules
        → (token : Token) → token_value 1 (number_up_to greatest_count) no_token (rules, Some 1) token
        ≡ counted_by (λ other. list_any (λ (rule : Rule). fits_rule rule other) rules) token }
    ensures monomials { (matches : Token → Bool) (monomial : Monomial) → HasCounts monomial
        → monomial_value 1 (times_up_to greatest_count) (counted_by matches) monomial
        ≡ counted_by (has_token matches) monomial }
{}

/// A program over the counts has its rows over the monomials, each counted 0 where it is left out. Those of an answer that
/// are not left out are the answer over the database without the rows that are left out.
pub fn answers_remain()
    ensures programs { (matches : Token → Bool) (env : Environment Monomial) (program : Program)
        → pairs_of (program_meaning
        (values_as_annotations 1 (times_up_to greatest_count) (counted_by matches))
        (environment_reannotated (counted_by (has_token matches)) env) program)
        ≡ counted_pairs (has_token matches) (pairs_of (program_meaning monomials env program)) }
    ensures answers { (matches : Token → Bool) (select : Select) (db : Database Monomial)
        → kept (has_token matches) (a.pairs_of (answer monomials select db))
        ≡ cells_of (answer monomials select (reduced (has_token matches) db)) }
{}
