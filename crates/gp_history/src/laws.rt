//! Laws of the definitions that contracts cite. Each function does nothing: its postconditions are the laws, and one cites a law of
//! the history machine.

ghost use Rattle.std.specs.Prelude.{◌≡◌, ◌≤◌, ℕ, true, List, None, Some};
ghost use Rattle.std.specs.List.Sorted.{IsPermutation};
ghost use Rattle.gp_base.specs.Annotated.{Annotated, Annotations, monomials};
ghost use Rattle.gp_algebra.specs.Statements.{Select};
ghost use Rattle.gp_grammar.specs.Syntax as y;
ghost use Rattle.gp_log.specs.Parameters.{parameters};
ghost use Rattle.gp_machine.specs.Annotating.{annotated_versions};
ghost use Rattle.gp_machine.specs.QuestionForms.{AreAlike, identified};
ghost use Rattle.gp_machine.specs.Committed.{cleared};
ghost use Rattle.gp_machine.specs.Entries.{log_of, statement_count, version_of, versions_in};
ghost use Rattle.gp_machine.specs.Event.{Line, after};
ghost use Rattle.gp_machine.specs.HistorySpans.{state_spans};
ghost use Rattle.gp_machine.specs.Points.{version_or_empty, version_before};
ghost use Rattle.gp_machine.specs.Questions.{annotated_answer, annotation_stop, held_answer};
ghost use Rattle.gp_machine.specs.Runs.{at_commit, run};
ghost use Rattle.gp_machine.specs.State.{start};
ghost use Rattle.gp_versions.specs.declared.span.Span.{Span};
ghost use Rattle.gp_history.specs.Agreement.{agree};

use gp_base::Monomial;
use gp_machine::questions_are_answered_by_the_history;

/// Tables agree exactly where they have the same identities with the same cells, each as often.
pub fn agreement_is_having_the_same_rows<M>()
    ensures same { (rows others : List (Annotated M)) → agree rows others ≡ true
        → IsPermutation (identified rows) (identified others) }
    ensures agrees { (rows others : List (Annotated M))
        → IsPermutation (identified rows) (identified others) → agree rows others ≡ true }
{}

/// The log and the row versions of a history, in any order, are annotated without a stop, and every question about provenance gets
/// the answer of the annotated history: the same rows with the same monomials, each as often, or the same refusal.
pub fn histories_are_annotated()
    ensures stops { (lines : List Line) (spans : ℕ → List Span) → ((table : ℕ)
        → IsPermutation (spans table) (state_spans (after monomials parameters start lines) table))
        → (u : ℕ) → u ≤ versions_in (after monomials parameters start lines).entries
        → annotation_stop monomials parameters agree (after monomials parameters start lines).catalogue
        (log_of (after monomials parameters start lines).entries) spans u ≡ None }
    ensures answers { (lines : List Line) (spans : ℕ → List Span) → ((table : ℕ)
        → IsPermutation (spans table) (state_spans (after monomials parameters start lines) table))
        → (point : y.Point) (query : Select) → AreAlike
        (annotated_answer monomials parameters agree (after monomials parameters start lines).catalogue
        (after monomials parameters start lines).entries spans point query)
        (held_answer monomials parameters (after monomials parameters start lines) point query) }
{
    questions_are_answered_by_the_history::<Monomial>()
}

/// The annotated versions of a history are those that it committed, each row as often, with the same identity, cells and
/// annotation; so no promise rests on the test of equal tables. The run of a transaction that committed gives, after each of its
/// statements, what the transaction saw, marks included, and its commit publishes the version that it made. The spans are in any
/// order.
pub fn annotated_versions_are_the_committed_ones<M>()
    ensures versions { (domain : Annotations M) (lines : List Line) (spans : ℕ → List Span)
        → ((table : ℕ)
        → IsPermutation (spans table) (state_spans (after domain parameters start lines) table))
        → (u : ℕ) → u ≤ versions_in (after domain parameters start lines).entries → (table : ℕ)
        → IsPermutation
        (annotated_versions domain (after domain parameters start lines).entries spans u table)
        ((after domain parameters start lines).committed u table) }
    ensures runs { (domain : Annotations M) (lines : List Line) (spans : ℕ → List Span)
        → ((table : ℕ)
        → IsPermutation (spans table) (state_spans (after domain parameters start lines) table))
        → (t k u : ℕ) → version_of t (after domain parameters start lines).entries ≡ Some u
        → k ≤ statement_count t (after domain parameters start lines).entries → (table : ℕ)
        → IsPermutation (run domain (log_of (after domain parameters start lines).entries) t k
        (annotated_versions domain (after domain parameters start lines).entries spans) table)
        ((after domain parameters start lines).views t k table) }
    ensures commits { (domain : Annotations M) (lines : List Line) (spans : ℕ → List Span)
        → ((table : ℕ)
        → IsPermutation (spans table) (state_spans (after domain parameters start lines) table))
        → (t u : ℕ) → version_of t (after domain parameters start lines).entries ≡ Some u → (table : ℕ)
        → IsPermutation (cleared (at_commit domain (log_of (after domain parameters start lines).entries) t
        (version_before (version_of t (after domain parameters start lines).entries))
        (annotated_versions domain (after domain parameters start lines).entries spans)) table)
        (version_or_empty (version_of t (after domain parameters start lines).entries)
        (after domain parameters start lines).committed table) }
{}
