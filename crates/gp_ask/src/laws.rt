//! Laws of answers. Each function does nothing: its postcondition is the law, and some cite laws of the crates below.

ghost use Rattle.std.specs.Prelude.{◌≡◌, ◌↔◌, ◌++◌, ◌<◌, [], ℕ, suc, false, true, Contains, List, filter, length, map, slice_get, unwrap_or, None, Ok, Option, ◌≤◌};
ghost use Rattle.std.specs.Result.{result_unwrap_or};
ghost use Rattle.std.specs.List.{AllByRecursion};
ghost use Rattle.std.specs.List.Sorted.{IsPermutation, IsSorted};
ghost use Rattle.gp_base.specs.declared.cell.Cell.{Cell};
ghost use Rattle.gp_base.specs.declared.refusal.Refusal.{Refusal};
ghost use Rattle.gp_base.specs.declared.refusal.Refusal.TheVariants.{E27};
ghost use Rattle.gp_base.specs.Annotated.{Annotations, Database, monomials, unannotated};
ghost use Rattle.gp_base.specs.Order.{row_cmp, sorted_by};
ghost use Rattle.gp_base.specs.Tokens.{Monomial};
ghost use Rattle.gp_algebra.specs.Effects.{wrote};
ghost use Rattle.gp_algebra.specs.Statements.{Select, Statement};
ghost use Rattle.gp_compose.specs.Seen.{is_made_by};
ghost use Rattle.gp_grammar.specs.Reading.{question_of};
ghost use Rattle.gp_grammar.specs.Syntax as y;
ghost use Rattle.gp_history.specs.Agreement.{agree};
ghost use Rattle.gp_log.specs.Parameters.{parameters};
ghost use Rattle.gp_log.specs.LogFacts.{tables_in};
ghost use Rattle.gp_machine.specs.Committed.{is_written};
ghost use Rattle.gp_machine.specs.Entries.{Entry, log_of, statement_count, transactions_in, versions_in};
ghost use Rattle.gp_machine.specs.Event.{Line, after, target_of};
ghost use Rattle.gp_machine.specs.HistorySpans.{as_of, state_spans};
ghost use Rattle.gp_machine.specs.Precedence.{is_before};
ghost use Rattle.gp_machine.specs.QuestionForms.{identified};
ghost use Rattle.gp_machine.specs.Questions.{own_stop};
ghost use Rattle.gp_machine.specs.Replayed.{replayed_state};
ghost use Rattle.gp_machine.specs.Replaying.{replay_stop};
ghost use Rattle.gp_machine.specs.ReplayForms.{CommitsInOrder, replayed_spans};
ghost use Rattle.gp_machine.specs.RowChanges.{tables_changes};
ghost use Rattle.gp_machine.specs.State.{State, start};
ghost use Rattle.gp_machine.specs.Unstopped.{IsUnstopped};
ghost use Rattle.gp_dump.specs.Dumps.{Dump, dump_of};
ghost use Rattle.gp_dump.specs.Rules.{WellFormed};
ghost use Rattle.gp_dump.specs.WholeDumps.{IsDump};
ghost use Rattle.gp_serial.specs.Anomalies.{cycles};
ghost use Rattle.gp_serial.specs.Graphs.{least_cycle};
ghost use Rattle.gp_serial.specs.LeastCycles.{IsCycleOf};
ghost use Rattle.gp_serial.specs.Serializing.{by_number};
ghost use Rattle.gp_semiring.specs.declared.rules.Rule.{Rule};
ghost use Rattle.gp_semiring.specs.Values.{token_value};
ghost use Rattle.gp_history.specs.ValueForms.{held_value_answer, value_answer};
ghost use Rattle.gp_versions.specs.declared.span.Span.{Span};
ghost use Rattle.gp_versions.specs.Spans.{span_cmp};
ghost use Rattle.gp_whatif.specs.Changed.{changed_log};
ghost use Rattle.gp_whatif.specs.Replays.{IsCoherent, IsReplayable, stop_upto};
ghost use Rattle.gp_ask.specs.AnomalyAnswers.{anomaly_answer};
ghost use Rattle.gp_ask.specs.Answerable.{question_is_valid};
ghost use Rattle.gp_ask.specs.Printed.{answer_to, held_to, query_to, what_if_held};
ghost use Rattle.gp_ask.specs.Compared.{AnswersAsMade, compares_histories};
ghost use Rattle.gp_ask.specs.Computed.{computed_answer, what_if_answer};
ghost use Rattle.gp_ask.specs.Asking.{Programs, table_spans};
ghost use Rattle.gp_ask.specs.Changes.{Change, changed_by, commit_texts};
ghost use Rattle.gp_ask.specs.Deltas.{added_rows, delta, removed_rows, signed_row};
ghost use Rattle.gp_ask.specs.Differences.{rows_in};
ghost use Rattle.gp_ask.specs.Explained.{ExplainsQuestion};
ghost use Rattle.gp_ask.specs.Hypothetical.{remaking_refusal, replayed_dump};
ghost use Rattle.gp_ask.specs.Intervals.{has_version, intervals, refusal_upto, version_rows};
ghost use Rattle.gp_ask.specs.Isolated.{IsIsolated, LosesToFirst};
ghost use Rattle.gp_ask.specs.Made.{unmade_refusal};
ghost use Rattle.gp_ask.specs.Answers as answers;
ghost use Rattle.gp_ask.specs.Programs.{program_lines, sql_lines};
ghost use Rattle.gp_ask.specs.Questions.{AreQuestions, EachQuestion, ReadQuestion, is_refused};
ghost use Rattle.gp_ask.specs.Replays.{dump_in};
ghost use Rattle.gp_ask.specs.SerialAnswers.{serial_answer};
ghost use Rattle.gp_ask.specs.SerialHistories.{IsTrue, RunsInCycle, RunsSerially};
ghost use Rattle.gp_ask.specs.ShownWrites.{ShowsWrites};
ghost use Rattle.gp_ask.specs.SqlAnswers.{AreStored, AsksQuestion};
ghost use Rattle.gp_ask.specs.declared.answered.AnomalyText.{AnomalyText};
ghost use Rattle.gp_ask.specs.declared.answered.Answered.TheVariants.{Anomalies, Lines, Refused};
ghost use Rattle.gp_ask.specs.declared.answered.Heading.TheVariants.{Cycle, Serial};

use gp_algebra::annotations_commute;
use gp_base::Monomial as BaseMonomial;
use gp_history::{agreement_is_having_the_same_rows, values_are_those_of_the_history};
use gp_machine::{
    annotations_change_no_replay, annotations_change_no_reply, commits_publish_the_spans,
    conflicts_are_least, histories_do_not_stop, identities_begin_with_their_committers,
    reached_states_are_histories, serial_orders_are_histories, spans_hold_the_versions,
    unstopped_histories_answer_their_questions,
};
use gp_semiring::{Bool, Cost, Count, Level, Poly, PosBool, Semiring};
use gp_serial::{
    anomalies_begin_with_the_least_cycle, no_anomaly_without_a_cycle, pair_cycles_are_first,
};
use gp_sql::{
    queries_give_the_rows_of_programs, queries_of_programs_are_spelled,
    queries_of_programs_are_typed,
};
use gp_typed::well_formed_dumps_are_typed;
use gp_versions::a_version_has_one_row_of_an_identity;
use gp_whatif::{
    changed_logs_are_coherent, changed_logs_are_replayable, histories_are_replayed_as_they_were,
    logs_keep_their_sessions, replays_have_the_tables_of_their_logs,
};

/// Every question that was read is valid: its query is one that the check can answer, none of its FROM passes the limit of items, and
/// the command of its change is a statement that the check can answer.
pub fn read_questions_are_valid()
    ensures { (text : List ℕ) (question : y.Question)
        → question_of text ≡ Ok question → question_is_valid question ≡ true }
{}

/// The log and the row versions of a history in which no transaction stops, in any order, give each row the value by the rules that
/// it had in the history.
fn rules_give_the_values_of_the_history<K: Semiring>()
    ensures { (rules : List Rule × Option ℕ) (state : State Monomial)
        → IsUnstopped monomials parameters state → (spans : ℕ → List Span)
        → ((table : ℕ) → IsPermutation (spans table) (state_spans state table))
        → (point : y.Point) (query : Select)
        → value_answer parameters K.plus_of K.zero_of K.one_of K.times_of
        (token_value K.one_of K.number_of K.itself_of rules) agree state.catalogue state.entries
        spans point query
        ≡ held_value_answer parameters K.plus_of K.zero_of K.one_of K.times_of
        (token_value K.one_of K.number_of K.itself_of rules) state point query }
{
    values_are_those_of_the_history::<K>();
    agreement_is_having_the_same_rows::<BaseMonomial>()
}

/// A dump of the log and the row versions of a history in which no transaction stops, in any order, answers every question about its
/// states as the history held it, and refuses it where the history did: the rows of a past version are those that its commit
/// published, whatever was written since, the statements of a transaction, run again over the versions that it read, give the rows
/// that it saw, and the commits, run again one after another, give each row the provenance that it had there, though the dump has
/// none, and so its value in each semiring, and whether it remains without the rows of some tokens. They never
/// pass a limit, and never differ from the dump.
pub fn unstopped_histories_answer_as_their_dumps()
    ensures { (state : State Monomial) → IsUnstopped monomials parameters state
        → tables_in state.entries ≡ state.catalogue → (tables : List (List Span))
        → ((place : ℕ) → IsPermutation (table_spans tables place) (state_spans state place))
        → (how : y.How) (point : y.Point) (query : y.Query)
        → answer_to (dump_in state.entries tables) (y.ask (y.of_state how point) query)
        ≡ held_to state (y.ask (y.of_state how point) query) }
{
    unstopped_histories_answer_their_questions::<BaseMonomial>();
    agreement_is_having_the_same_rows::<BaseMonomial>();
    annotations_change_no_reply::<BaseMonomial, ()>();
    annotations_change_no_replay::<BaseMonomial, ()>();
    annotations_commute::<BaseMonomial, ()>();
    rules_give_the_values_of_the_history::<Count>();
    rules_give_the_values_of_the_history::<Bool>();
    rules_give_the_values_of_the_history::<Cost>();
    rules_give_the_values_of_the_history::<Level>();
    rules_give_the_values_of_the_history::<Poly>();
    rules_give_the_values_of_the_history::<PosBool>()
}

/// The dump of a history answers every question as the history held it, and refuses it where the history did
/// ([`unstopped_histories_answer_as_their_dumps`]): no transaction of a history stops, and its rows are those that its log makes. What
/// would be with changes is what the history held that would have been ([`changed_histories_answer_their_questions`]).
pub fn histories_answer_as_their_dumps()
    ensures { (lines : List Line) (question : y.Question)
        → answer_to (dump_of (after unannotated parameters start lines)) question
        ≡ held_to (after monomials parameters start lines) question }
{
    unstopped_histories_answer_as_their_dumps();
    changed_histories_answer_their_questions();
    changed_logs_are_coherent();
    histories_do_not_stop::<BaseMonomial>();
    spans_hold_the_versions::<BaseMonomial>();
    commits_publish_the_spans::<BaseMonomial>();
    identities_begin_with_their_committers::<BaseMonomial>();
    agreement_is_having_the_same_rows::<()>();
    histories_are_replayed_as_they_were();
    annotations_change_no_reply::<BaseMonomial, ()>()
}

/// So it does whichever programs answer explained questions, since they are made of the log alone.
pub fn histories_answer_with_any_programs()
    ensures { (programs : Programs) (lines : List Line) (question : y.Question)
        → answers.answer_to programs (dump_of (after unannotated parameters start lines)) question
        ≡ answers.held_to programs (after monomials parameters start lines) question }
{
    histories_answer_as_their_dumps();
    agreement_is_having_the_same_rows::<()>();
    histories_are_replayed_as_they_were();
    annotations_change_no_reply::<BaseMonomial, ()>()
}

/// Each transaction is isolated as its BEGIN says, whatever became of it, and the first committer of a row wins: in every history
/// (`reached`), where none is lost but to such a one (`lost`), and in the one that the commits of the changed log of a dump, made again,
/// lead to, if none of them stops (`remade`).
pub fn histories_are_isolated()
    ensures reached { (lines : List Line) → IsIsolated (after monomials parameters start lines) }
    ensures lost { (lines : List Line) → LosesToFirst (after monomials parameters start lines) }
    ensures remade { (dump : Dump) → IsDump dump → (changes : List y.LogChange)
        (entries : List Entry) → changed_log parameters dump.entries changes ≡ Ok entries
        → remaking_refusal entries ≡ None
        → IsIsolated (replayed_state monomials (tables_in entries) entries) }
{
    reached_states_are_histories::<BaseMonomial>();
    conflicts_are_least();
    histories_do_not_stop::<BaseMonomial>();
    annotations_change_no_replay::<BaseMonomial, ()>();
    annotations_commute::<BaseMonomial, ()>();
    changed_logs_are_coherent();
    logs_keep_their_sessions()
}

/// No statement of a transaction of a history passes a limit where it is run again over the versions, whatever became of the transaction. So what it
/// saw is refused for none.
pub fn statements_of_histories_do_not_stop()
    ensures { (lines : List Line) (t k : ℕ) → 0 < t
        → t ≤ transactions_in (after monomials parameters start lines).entries
        → k ≤ statement_count t (after monomials parameters start lines).entries
        → own_stop monomials parameters (after monomials parameters start lines).entries
        (y.after t k) (after monomials parameters start lines).committed ≡ None }
{
    annotations_change_no_reply::<BaseMonomial, ()>();
    changed_logs_are_coherent()
}

/// The rows that a statement changed, by which a dump answers `CHANGES`, are those that it wrote, in their order, where none of the rows
/// of its table was made by it before it ran. So they are in every state that lines lead to, whatever became of the transaction
/// ([`histories_answer_as_their_dumps`]).
pub fn changed_rows_are_those_written<M>()
    ensures { (domain : Annotations M) (t k : ℕ) (statement : Statement) (db : Database M)
        → AllByRecursion (λ row. is_made_by t k row.identity ≡ false) (db (target_of statement))
        → wrote domain t k statement db ≡ map
        (λ (change : Change). record { table = target_of statement; identity = change.0 })
        (changed_by domain t k statement db) }
{}

/// On the dump of a history, `CHANGES` of the commit that made a version has a line for each row that the commit wrote and that the
/// version before it or its own has, in the order of their identities in each table, and no other line. It shows the cells of the row
/// in the version before, and in the commit's own.
pub fn commits_show_what_they_wrote()
    ensures { (lines : List Line) (name : List ℕ) (version table : ℕ)
        → version < versions_in (after monomials parameters start lines).entries → ShowsWrites name
        (λ id. is_written table id ((after monomials parameters start lines).written (suc version)))
        ((after monomials parameters start lines).committed version table)
        ((after monomials parameters start lines).committed (suc version) table)
        (commit_texts name (suc version)
        (sorted_by span_cmp (state_spans (after monomials parameters start lines) table))) }
{
    spans_hold_the_versions::<BaseMonomial>()
}

/// The difference of two bags of rows, each in row order: the first without the rows that have a minus, and with those that have a plus, is
/// the second (`bags`); no row has both signs (`signs`); and the rows are in row order (`order`). There is no line exactly where the bags
/// are the same (`none`).
pub fn deltas_are_differences()
    ensures bags { (rows others : List (List Cell)) → IsPermutation
        (rows ++ added_rows (delta rows others)) (others ++ removed_rows (delta rows others)) }
    ensures signs { (rows others : List (List Cell)) → IsSorted row_cmp rows
        → IsSorted row_cmp others → (row : List Cell)
        → Contains (removed_rows (delta rows others)) row
        → Contains (added_rows (delta rows others)) row → ⊥ }
    ensures order { (rows others : List (List Cell)) → IsSorted row_cmp rows
        → IsSorted row_cmp others → IsSorted row_cmp (map signed_row (delta rows others)) }
    ensures none { (rows others : List (List Cell)) → (delta rows others ≡ []) ↔ (rows ≡ others) }
{}

/// The commits of a log that keeps its sessions, made again without a stop, are a history of their own. A dump of the log and of the
/// row versions that are made, in any order, answers every query as that history held it, also of what a transaction saw that did not
/// commit. So no version of it differs, and no run of one that committed passes a limit.
pub fn replays_answer_as_their_histories()
    ensures { (entries : List Entry) → CommitsInOrder (log_of entries)
        → replay_stop unannotated (log_of entries) parameters (length (tables_in entries))
        (versions_in entries) ≡ None → (tables : List (List Span))
        → ((place : ℕ) → IsPermutation (table_spans tables place) (replayed_spans unannotated
        (log_of entries) (length (tables_in entries)) (versions_in entries) place))
        → (subject : y.Subject) (query : y.Query)
        → answer_to (dump_in entries tables) (y.ask subject query)
        ≡ held_to (replayed_state monomials (tables_in entries) entries) (y.ask subject query) }
{
    unstopped_histories_answer_as_their_dumps();
    histories_do_not_stop::<BaseMonomial>();
    annotations_change_no_replay::<BaseMonomial, ()>();
    annotations_change_no_reply::<BaseMonomial, ()>();
    annotations_commute::<BaseMonomial, ()>()
}

/// A question about the history that would have been gets from a dump the answer of that history: the commits of the changed log,
/// made again, are a history, which held its rows and their provenance (`held`). So no version of it differs, and no run of a
/// transaction that committed passes a limit, once its commits were made again. The order of the row versions does not matter
/// (`any_order`).
pub fn changed_histories_answer_their_questions()
    ensures held { (entries : List Entry) (changes : List y.LogChange) → IsCoherent entries
        → (subject : y.Subject) (query : y.Query)
        → what_if_answer entries changes subject query
        ≡ what_if_held entries changes subject query }
    ensures any_order { (entries : List Entry) → IsReplayable entries
        → stop_upto entries (versions_in entries) ≡ None → (tables : List (List Span))
        → ((place : ℕ) → IsPermutation (table_spans tables place) (replayed_spans unannotated
        (log_of entries) (length (tables_in entries)) (versions_in entries) place))
        → (subject : y.Subject) (query : y.Query)
        → answer_to (dump_in entries tables) (y.ask subject query)
        ≡ answer_to (replayed_dump entries) (y.ask subject query) }
{
    replays_answer_as_their_histories();
    logs_keep_their_sessions();
    changed_logs_are_coherent();
    replays_have_the_tables_of_their_logs()
}

/// Every program that a file of questions asks of a well-formed dump has a text, which explains its query: the numbers of the program
/// are in the ranges of their texts, since the dump and the questions keep their limits. So it is of the program of a changed log.
/// Nothing is said of a call, which may run out of memory before it writes the program.
pub fn programs_explain_their_questions()
    ensures { (bytes file : List ℕ) (dump : Dump) (questions : List ReadQuestion)
        → WellFormed bytes dump → AreQuestions file questions
        → EachQuestion (ExplainsQuestion program_lines dump.entries) questions }
{
    changed_logs_are_replayable();
    logs_keep_their_sessions()
}

/// Every question that a file asks of a well-formed dump in SQL is answered by a query that is spelled, has types and gives its rows,
/// over any tables of row versions whose rows have cells of their columns' types: the merged program has types, since the log and the
/// query were checked.
pub fn queries_ask_their_questions()
    ensures { (bytes file : List ℕ) (dump : Dump) (questions : List ReadQuestion)
        → WellFormed bytes dump → AreQuestions file questions
        → EachQuestion (AsksQuestion sql_lines dump.entries) questions }
{
    queries_give_the_rows_of_programs();
    queries_of_programs_are_spelled();
    queries_of_programs_are_typed();
    well_formed_dumps_are_typed()
}

/// The row versions of a well-formed dump are such tables.
pub fn row_versions_are_stored()
    ensures { (bytes : List ℕ) (dump : Dump) → WellFormed bytes dump
        → AreStored dump.entries dump.tables }
{
    well_formed_dumps_are_typed()
}

/// Every well-formed dump, whether a history made it or not, answers a question about what would be with changes as the history
/// held it that would have been: the commits of the changed log, made again, lead to it.
pub fn dumps_answer_as_changed_histories()
    ensures { (dump : Dump) → IsDump dump → (question : y.Question)
        → computed_answer dump question ≡ answer_to dump question }
{
    changed_histories_answer_their_questions();
    changed_logs_are_coherent()
}

/// Where nothing refuses to compare the rows of a dump with rows that are made, as `CAUSES` does and `DIFF` of the history with a changed
/// one, each version of the dump has the rows that its log makes, each as often.
pub fn compared_rows_are_made()
    ensures { (dump : Dump) → unmade_refusal dump ≡ None → (version table : ℕ)
        → version < versions_in dump.entries → table < length (tables_in dump.entries)
        → IsPermutation
        (identified (as_of unannotated (table_spans dump.tables) (suc version) table))
        (identified (as_of unannotated (table_spans (replayed_dump dump.entries).tables) (suc version) table)) }
{
    agreement_is_having_the_same_rows::<()>()
}

/// `CAUSES`, and `DIFF` with a changed history, answer as from the dump that the log makes, or are refused since its rows are others:
/// they blame no statement for rows that the log does not make, nor for provenance that it does not give them.
pub fn comparisons_answer_as_made_dumps()
    ensures { (programs : Programs) (dump : Dump) (question : y.Question)
        → compares_histories question ≡ true → AnswersAsMade programs dump question }
{
    agreement_is_having_the_same_rows::<()>()
}

/// `WHEN` agrees with `AS OF` at every version: the rows of the intervals that have a version are, as a bag, the answer over the version,
/// whose rows are in order (`bags`), and where no version refuses the query, that is what `AS OF` answers (`rows`).
pub fn intervals_agree_with_versions()
    ensures bags { (answers : ℕ → List (List Cell))
        → ((version : ℕ) → IsSorted row_cmp (answers version))
        → (last version : ℕ) → version ≤ last
        → IsPermutation (map (λ interval. interval.row) (filter (has_version version) (intervals answers last)))
        (answers version) }
    ensures rows { (dump : Dump) (query : y.Query) (version : ℕ)
        → version ≤ versions_in dump.entries
        → refusal_upto (query_to dump) query (versions_in dump.entries) ≡ None
        → rows_in (answer_to dump (y.ask (y.of_state y.rows (y.as_of version)) query))
        ≡ Ok (result_unwrap_or (version_rows (query_to dump) query version) []) }
{}

/// What the answer to SERIAL says of a history, by its dump: an order is that of a history in which its transactions run one after another
/// and do what they did (`serial`), and each line of a cycle is true (`cycle`), and so is each change that the row versions show (`changes`). No history is refused
/// (`answered`).
pub fn serial_answers_are_true()
    ensures serial { (lines : List Line) (texts : List (List ℕ))
        → serial_answer (dump_of (after unannotated parameters start lines)) ≡ Lines Serial texts
        → RunsSerially (after unannotated parameters start lines) texts }
    ensures cycle { (lines : List Line) (texts : List (List ℕ))
        → serial_answer (dump_of (after unannotated parameters start lines)) ≡ Lines Cycle texts
        → RunsInCycle (after unannotated parameters start lines) texts }
    ensures changes { (lines : List Line)
        → AllByRecursion (IsTrue (after unannotated parameters start lines))
        (tables_changes 0 (dump_of (after unannotated parameters start lines)).tables) }
    ensures answered { (lines : List Line)
        → is_refused (serial_answer (dump_of (after unannotated parameters start lines))) ≡ false }
{
    serial_orders_are_histories();
    spans_hold_the_versions::<()>();
    commits_publish_the_spans::<()>();
    changed_logs_are_coherent();
    a_version_has_one_row_of_an_identity()
}

/// What the answer to ANOMALIES says of a history, by its dump: each line of each cycle is true (`cycles`). A history is refused only for too many lines (`limited`).
/// Of every dump, whether a history made it or not, there is none exactly where the relation has no cycle of transactions that committed (`none`), and the first is
/// that of SERIAL (`least`).
pub fn anomaly_answers_are_true()
    ensures cycles { (lines : List Line) (texts : List AnomalyText)
        → anomaly_answer (dump_of (after unannotated parameters start lines)) ≡ Anomalies texts
        → AllByRecursion (λ (text : AnomalyText). RunsInCycle (after unannotated parameters start lines) text.steps) texts }
    ensures limited { (lines : List Line) (refusal : Refusal)
        → anomaly_answer (dump_of (after unannotated parameters start lines)) ≡ Refused refusal → refusal ≡ E27 }
    ensures none { (dump : Dump) → IsDump dump
        → (cycles (tables_in dump.entries) dump.entries (tables_changes 0 dump.tables) ≡ [])
        ↔ ((other : List ℕ) → IsCycleOf (is_before (tables_in dump.entries) dump.entries (tables_changes 0 dump.tables)) (by_number dump.entries) other → ⊥) }
    ensures least { (dump : Dump) → IsDump dump
        → least_cycle (is_before (tables_in dump.entries) dump.entries (tables_changes 0 dump.tables)) (by_number dump.entries)
        ≡ unwrap_or (slice_get (cycles (tables_in dump.entries) dump.entries (tables_changes 0 dump.tables)) 0) [] }
{
    pair_cycles_are_first();
    no_anomaly_without_a_cycle();
    anomalies_begin_with_the_least_cycle();
    serial_orders_are_histories();
    spans_hold_the_versions::<()>();
    commits_publish_the_spans::<()>();
    changed_logs_are_coherent();
    a_version_has_one_row_of_an_identity();
}
