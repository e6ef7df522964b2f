//! Laws of the definitions that contracts cite. Each function does nothing: its postconditions are the laws, and one cites laws of
//! the history machine.

ghost use Rattle.std.specs.Prelude.{◌≡◌, ℕ, ◌*◌, ◌<◌, ◌≤◌, suc, Bool, true, List, map, Some};
ghost use Rattle.std.specs.List.{AllByRecursion};
ghost use Rattle.std.specs.List.Sorted.{IsPermutation};
ghost use Rattle.gp_base.specs.declared.cell.Cell.{Cell};
ghost use Rattle.gp_base.specs.declared.table.Table.{Table};
ghost use Rattle.gp_base.specs.declared.token.Token.{Token};
ghost use Rattle.gp_base.specs.Annotated.{Annotations, Annotated, monomials};
ghost use Rattle.gp_base.specs.Identities.{nodes};
ghost use Rattle.gp_base.specs.Tokens.{Monomial, greatest_count};
ghost use Rattle.gp_grammar.specs.Syntax as y;
ghost use Rattle.gp_versions.specs.declared.span.Span.{Span};
ghost use Rattle.gp_algebra.specs.Reannotation.{IsHomomorphism, reannotated};
ghost use Rattle.gp_algebra.specs.Statements.{Select};
ghost use Rattle.gp_machine.specs.Annotating.{annotated, computed};
ghost use Rattle.gp_machine.specs.QuestionForms.{identified};
ghost use Rattle.gp_machine.specs.Entries.{Entry, Log, committer_of, log_of, version_of, versions_in};
ghost use Rattle.gp_machine.specs.Event.{Line, after};
ghost use Rattle.gp_machine.specs.HistorySpans.{state_spans};
ghost use Rattle.gp_machine.specs.Parameters.{Parameters};
ghost use Rattle.gp_machine.specs.State.{State, start};
ghost use Rattle.gp_machine.specs.Unstopped.{IsUnstopped};
ghost use Rattle.gp_semiring.specs.Values.{monomial_value};
ghost use Rattle.gp_kexec.specs.Valuing.{values_as_annotations};
ghost use Rattle.gp_kexec.specs.SemiringForms.{words};
ghost use Rattle.gp_history.specs.DistinctRows.{distinct_rows};
ghost use Rattle.gp_history.specs.AnswerForms.{AreAscending, IgnoreAnnotations, carried, occurs_in, summed_answer};
ghost use Rattle.gp_history.specs.ValueForms.{held_value_answer, value_answer};
ghost use Rattle.gp_history.specs.Room.{HasRoom, IsWithinNodes, for_each_node, made_by};
ghost use Rattle.gp_history.specs.ValueAnswers.{all_elements};

use gp_base::Monomial as BaseMonomial;
use gp_machine::{histories_do_not_stop, unstopped_histories_answer_their_questions};
use gp_semiring::Semiring;

/// The distinct rows of a list rise strictly in row order, and are the rows that occur in the list.
pub fn distinct_rows_are_each_once()
    ensures ascending { (rows : List (List Cell)) → AreAscending (distinct_rows rows) }
    ensures members { (row : List Cell) (rows : List (List Cell))
        → occurs_in row (distinct_rows rows) ≡ occurs_in row rows }
{}

/// A map of annotations that keeps one, products and tokens carries the annotated answer to every question to its answer over
/// the mapped annotations, element by element in the same order, and the refusals are the same: annotations decide nothing
/// (Green, Karvounarakis and Tannen 2007). The test of equal tables may not look at annotations either.
pub fn annotated_answers_are_carried<M, N>()
    ensures elements { (domain : Annotations M) (other : Annotations N) (h : M → N)
        → IsHomomorphism domain other h → (parameters : Parameters)
        (agree : List (Annotated M) → List (Annotated M) → Bool)
        (alike : List (Annotated N) → List (Annotated N) → Bool)
        → ((rows others : List (Annotated M))
        → alike (map (reannotated h) rows) (map (reannotated h) others) ≡ agree rows others)
        → (catalogue : List Table) (entries : List Entry) (spans : ℕ → List Span)
        (point : y.Point) (query : Select)
        → all_elements other parameters alike catalogue entries spans point query
        ≡ carried h (all_elements domain parameters agree catalogue entries spans point query) }
{}

/// In the annotated versions of a log and its spans, a token of an INSERT occurs in the annotation of a row at most once for
/// each node of the row's identity, and a token of an UPDATE as often as its transaction made a version. Where each version is
/// the one that its transaction made, as in every well-formed log, that is once.
pub fn tokens_are_within_nodes()
    ensures versions { (log : Log) (spans : ℕ → List Span) (newest version table : ℕ)
        → AllByRecursion (IsWithinNodes (for_each_node (made_by log newest)))
        (annotated words spans (computed words log spans newest) version table) }
    ensures few { (log : Log) (version t : ℕ) → made_by log version t ≤ version }
    ensures once { (entries : List Entry) → ((u : ℕ) → u < versions_in entries
        → version_of (committer_of (suc u) entries) entries ≡ Some (suc u))
        → (t version : ℕ) → version ≤ versions_in entries
        → made_by (log_of entries) version t ≤ 1 }
{}

/// A row of an annotated version has in a semiring the value of its monomial, if identities have few enough nodes, and there are few
/// enough versions, that no count is stopped: what annotates versions with elements never makes a monomial.
pub fn versions_have_the_values_of_their_monomials<K: Semiring>()
    ensures versions { (value : Token → K) → ((token : Token) → K.is_element (value token))
        → (log : Log) (spans : ℕ → List Span) (newest version table most : ℕ)
        → AllByRecursion (λ (span : Span). nodes span.id ≤ most) (spans table)
        → suc newest * most ≤ greatest_count
        → annotated (values_as_annotations K.one_of K.times_of value) spans
        (computed (values_as_annotations K.one_of K.times_of value) log spans newest) version table
        ≡ map (reannotated (monomial_value K.one_of K.times_of value))
        (annotated monomials spans (computed monomials log spans newest) version table) }
{}

/// What is computed with the elements of a semiring as annotations, the elements of a row added up, is the answer: the distinct
/// rows of the annotated answer in row order, each with the sum, over its occurrences, of the values of its monomials, or the
/// refusal that is due. No count of a monomial is stopped where identities are small and there are few enough versions and
/// items of a FROM.
pub fn values_are_sums_over_the_history<K: Semiring>()
    ensures answers { (value : Token → K) → ((token : Token) → K.is_element (value token))
        → (parameters : Parameters) (agree : List (Annotated Monomial) → List (Annotated Monomial) → Bool)
        (alike : List (Annotated K) → List (Annotated K) → Bool) → IgnoreAnnotations agree alike
        → (catalogue : List Table) (entries : List Entry) (spans : ℕ → List Span)
        (point : y.Point) (query : Select) → HasRoom parameters entries spans query
        → summed_answer parameters K.plus_of (values_as_annotations K.one_of K.times_of value) alike
        catalogue entries spans point query
        ≡ value_answer parameters K.plus_of K.zero_of K.one_of K.times_of value agree
        catalogue entries spans point query }
{}

/// The log and the spans of a history, in whatever order, give the values of what the history held: the same distinct rows with
/// the same values, or the same refusal, whatever test of equal tables is used, if it passes tables with the same rows. So it is
/// for each state that lines lead to (`answers`), and for every history in which no transaction stops (`unstopped`).
pub fn values_are_those_of_the_history<K: Semiring>()
    ensures answers { (value : Token → K) → ((token : Token) → K.is_element (value token))
        → (parameters : Parameters) (lines : List Line) (spans : ℕ → List Span) → ((table : ℕ)
        → IsPermutation (spans table) (state_spans (after monomials parameters start lines) table))
        → (agree : List (Annotated Monomial) → List (Annotated Monomial) → Bool)
        → ((rows others : List (Annotated Monomial))
        → IsPermutation (identified rows) (identified others) → agree rows others ≡ true)
        → (point : y.Point) (query : Select)
        → value_answer parameters K.plus_of K.zero_of K.one_of K.times_of value agree
        (after monomials parameters start lines).catalogue (after monomials parameters start lines).entries
        spans point query
        ≡ held_value_answer parameters K.plus_of K.zero_of K.one_of K.times_of value
        (after monomials parameters start lines) point query }
    ensures unstopped { (value : Token → K) → ((token : Token) → K.is_element (value token))
        → (parameters : Parameters) (state : State Monomial) → IsUnstopped monomials parameters state
        → (spans : ℕ → List Span)
        → ((table : ℕ) → IsPermutation (spans table) (state_spans state table))
        → (agree : List (Annotated Monomial) → List (Annotated Monomial) → Bool)
        → ((rows others : List (Annotated Monomial))
        → IsPermutation (identified rows) (identified others) → agree rows others ≡ true)
        → (point : y.Point) (query : Select)
        → value_answer parameters K.plus_of K.zero_of K.one_of K.times_of value agree state.catalogue
        state.entries spans point query
        ≡ held_value_answer parameters K.plus_of K.zero_of K.one_of K.times_of value state point query }
{
    histories_do_not_stop::<BaseMonomial>();
    unstopped_histories_answer_their_questions::<BaseMonomial>()
}
