//! Laws of rewriting. Each function does nothing: its postconditions are the laws. A law with a type parameter holds for
//! annotations of every type, as monomials, or nothing at all.

ghost use Rattle.std.specs.Prelude.{◌≡◌, ◌<◌, ℕ, true, List, Some, map};
ghost use Rattle.gp_base.specs.declared.table.Table.{Table};
ghost use Rattle.gp_base.specs.Annotated.{Annotations, Database, Environment};
ghost use Rattle.gp_algebra.specs.AnnotatedQueries.{Query};
ghost use Rattle.gp_algebra.specs.AnnotatedMeaning.{Derived, meaning, scanned};
ghost use Rattle.gp_algebra.specs.Answers.{answer};
ghost use Rattle.gp_algebra.specs.Effects.{step};
ghost use Rattle.gp_algebra.specs.Fitting.{select_fits, statement_fits};
ghost use Rattle.gp_algebra.specs.Statements.{width_of};
ghost use Rattle.gp_algebra.specs.QueryForms.{IsAnswer, IsStep, IsTable, is_sound, reads_only};
ghost use Rattle.gp_algebra.specs.Statements.{Select, Statement, target};
ghost use Rattle.gp_rewrite.specs.Meaning.{AreAsWide, IsMonoid, StandFor, row_of_element, unmarked};
ghost use Rattle.gp_rewrite.specs.Rewriting.{query_of, rewritten};

/// Reenactment of one statement, for the annotations of any monoid. Where the queries of the tables give the rows of a
/// database, the query of a statement gives the rows that the statement leaves in the table that it writes, in the same
/// order, with their identities, marks and annotations; and the query of a SELECT gives its answer, but for marks. The
/// statement and the query fit the catalogue, and the rows are as wide as their tables, which a statement keeps.
pub fn rewritten_statements_mean_the_statements<M>()
    ensures statements { (domain : Annotations M) → IsMonoid domain → (catalogue : List Table)
        (t k table : ℕ) (statement : Statement)
        → statement_fits catalogue statement ≡ true → target statement ≡ Some table
        → (steps : ℕ → List (Derived M)) (env : Environment M) (tables : ℕ → Query)
        (db : Database M) → AreAsWide (width_of catalogue) db → StandFor domain steps env tables db
        → meaning domain steps env (rewritten (width_of catalogue) t k statement tables)
        ≡ map (scanned domain) (step domain t k statement db table) }
    ensures widths { (domain : Annotations M) (catalogue : List Table) (t k : ℕ)
        (statement : Statement) → statement_fits catalogue statement ≡ true
        → (db : Database M) → AreAsWide (width_of catalogue) db
        → AreAsWide (width_of catalogue) (step domain t k statement db) }
    ensures queries { (domain : Annotations M) → IsMonoid domain → (catalogue : List Table)
        (select : Select) → select_fits catalogue select ≡ true
        → (steps : ℕ → List (Derived M)) (env : Environment M) (tables : ℕ → Query)
        (db : Database M) → StandFor domain steps env tables db
        → map unmarked (meaning domain steps env (query_of tables select))
        ≡ map row_of_element (answer domain select db) }
{}

/// Queries of statements and of SELECTs have the forms that a program needs, if the queries of the tables have theirs, and
/// read the steps that those read.
pub fn rewritten_statements_have_their_forms()
    ensures statements { (catalogue : List Table) (t k table : ℕ) (statement : Statement)
        → statement_fits catalogue statement ≡ true → target statement ≡ Some table
        → 0 < t → 0 < k → (of_step : ℕ → ℕ) (tables : ℕ → Query)
        → ((place : ℕ) → IsTable (width_of catalogue) of_step place (tables place))
        → ((place : ℕ) → is_sound (tables place) ≡ true)
        → IsStep (width_of catalogue) of_step table
        (rewritten (width_of catalogue) t k statement tables)
        × (is_sound (rewritten (width_of catalogue) t k statement tables) ≡ true) }
    ensures queries { (catalogue : List Table) (select : Select)
        → select_fits catalogue select ≡ true → (of_step : ℕ → ℕ) (tables : ℕ → Query)
        → ((place : ℕ) → IsTable (width_of catalogue) of_step place (tables place))
        → ((place : ℕ) → is_sound (tables place) ≡ true)
        → IsAnswer (width_of catalogue) of_step (query_of tables select)
        × (is_sound (query_of tables select) ≡ true) }
    ensures reads { (columns : ℕ → ℕ) (t k : ℕ) (statement : Statement) (earlier : List ℕ)
        (tables : ℕ → Query) → ((place : ℕ) → reads_only earlier (tables place) ≡ true)
        → reads_only earlier (rewritten columns t k statement tables) ≡ true }
    ensures query_reads { (select : Select) (earlier : List ℕ) (tables : ℕ → Query)
        → ((place : ℕ) → reads_only earlier (tables place) ≡ true)
        → reads_only earlier (query_of tables select) ≡ true }
{}
