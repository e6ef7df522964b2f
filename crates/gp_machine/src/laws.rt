//! Laws of the history machine. Each function does nothing: its postconditions are the laws. A law with a type parameter
//! holds for annotations of every type, as monomials, the elements of a semiring, or nothing at all.

ghost use Rattle.std.specs.Prelude.{Bool, ◌≡◌, ◌≢◌, ℕ, zero, suc, ◌-◌, ◌<◌, ◌≤◌, true, false, List, [], ◌∷◌, ◌++◌, filter, length, map, Option, Some, None};
ghost use Rattle.std.specs.List.{AllByRecursion};
ghost use Rattle.std.specs.List.Sorted.{IsPermutation};
ghost use Rattle.gp_base.specs.declared.table.Table.{Table};
ghost use Rattle.gp_base.specs.Annotated.{Annotated, Annotations, Database, Environment, unannotated};
ghost use Rattle.gp_base.specs.Identities.{Identity};
ghost use Rattle.gp_base.specs.IdentityParts.{identity_transaction};
ghost use Rattle.gp_grammar.specs.Syntax as y;
ghost use Rattle.gp_versions.specs.declared.span.Span.{Span};
ghost use Rattle.gp_versions.specs.Commits.{AreBelow};
ghost use Rattle.gp_versions.specs.Spans.{holds_at};
ghost use Rattle.gp_versions.specs.TableSpans.{AreWhole, NoOverlap};
ghost use Rattle.gp_algebra.specs.Effects.{Written, step, wrote};
ghost use Rattle.gp_algebra.specs.Reannotation.{IsHomomorphism, forgotten, reannotated};
ghost use Rattle.gp_algebra.specs.Answers.{answer};
ghost use Rattle.gp_algebra.specs.Statements.{Select, Statement};
ghost use Rattle.gp_machine.specs.declared.reply.Reply.{Reply};
ghost use Rattle.gp_machine.specs.ActionForms.{action_of};
ghost use Rattle.gp_machine.specs.Annotating.{annotated, annotated_versions, computed};
ghost use Rattle.gp_machine.specs.QuestionForms.{AreAlike, IsAsked, identified};
ghost use Rattle.gp_machine.specs.Bases.{Based, pairs};
ghost use Rattle.gp_machine.specs.Committed.{cleared, is_written, merged, next_version, unmarked};
ghost use Rattle.gp_machine.specs.Committers.{CommittedBy};
ghost use Rattle.gp_machine.specs.Conflicts.{Conflict, least_conflict};
ghost use Rattle.gp_machine.specs.ConflictForms.{HaveOneBase, IsLeastConflict};
ghost use Rattle.gp_machine.specs.EngineLine.{Answers, FindsConflict, Follows, ShowsConflict};
ghost use Rattle.gp_machine.specs.Entries.{Entry, Log, begin_version, committer_of, log_of, statement_count, statement_version, transactions_in, version_of, versions_in};
ghost use Rattle.gp_machine.specs.Event.{Line, after, conflict_of, line_event, published};
ghost use Rattle.gp_machine.specs.HistorySpans.{as_of, next_written, spans_from, state_spans};
ghost use Rattle.gp_machine.specs.SpanCounts.{span_after, span_count};
ghost use Rattle.gp_machine.specs.Histories.{IsFirst, IsHistory};
ghost use Rattle.gp_machine.specs.Parameters.{Parameters};
ghost use Rattle.gp_machine.specs.CheckedTargets.{ChecksTargets};
ghost use Rattle.gp_machine.specs.Points.{at_point, held_at, run_stop};
ghost use Rattle.gp_machine.specs.Publishing.{publish};
ghost use Rattle.gp_machine.specs.Replacing.{AddsNoneOf, Replaces, rows_of_identity};
ghost use Rattle.gp_machine.specs.Questions.{annotated_answer, held_answer, rows_answer};
ghost use Rattle.gp_machine.specs.Reached.{CountsAreWithin, IsReached};
ghost use Rattle.gp_machine.specs.Recorded.{is_recorded};
ghost use Rattle.gp_machine.specs.Replayed.{replayed_state};
ghost use Rattle.gp_machine.specs.Replaying.{replay_stop, replayed};
ghost use Rattle.gp_machine.specs.ReplayForms.{CommitsInOrder, upto_version, replayed_spans};
ghost use Rattle.gp_machine.specs.Represents.{Kept, Overlay, Represents, kept_start};
ghost use Rattle.gp_machine.specs.ReadBy.{start_by};
ghost use Rattle.gp_machine.specs.Runs.{at_commit, run, run_before};
ghost use Rattle.gp_machine.specs.Orders.{AreOnce};
ghost use Rattle.gp_machine.specs.SerialForms.{IsSerialAs, committers};
ghost use Rattle.gp_machine.specs.SerialRuns.{is_serial, serial_log, serial_replay};
ghost use Rattle.gp_machine.specs.State.{Active, State, start};
ghost use Rattle.gp_machine.specs.StateReannotation.{AreEqualButForAnnotations, AreReannotated, IsReannotated, outcome_reannotated, state_reannotated};
ghost use Rattle.gp_machine.specs.Unstopped.{IsUnstopped};
ghost use Rattle.gp_machine.specs.SeenRows.{HaveDifferentIdentities, AreSeenRows, IsViewOf, unwritten};

/// Every state that lines lead to is that of a history: its versions are what its commits published, a transaction commits once,
/// and has read only older versions, no statement an older one than the statement before it; no version after the base of a row
/// that a commit wrote, and before the commit, wrote the row too; and what each transaction reads is what its statements leave.
pub fn reached_states_are_histories<M>()
    ensures start { (domain : Annotations M) (parameters : Parameters) → IsReached domain parameters start }
    ensures event { (domain : Annotations M) (parameters : Parameters) (state : State M) (line : Line)
        → IsReached domain parameters state → IsReached domain parameters
        (line_event domain parameters state line).0 }
    ensures after { (domain : Annotations M) (parameters : Parameters) (lines : List Line)
        → IsReached domain parameters (after domain parameters start lines) }
{}

/// A running transaction keeps its invariant. It holds at its BEGIN, if the version has no row twice, none marked, and none
/// that the transaction made; every statement keeps it, and so does a later such version, if its rows are read but for those
/// that the transaction wrote (`refresh`); and it holds of every active transaction of a reached state, over the version that
/// the transaction read last (`reached`). The bases of the rows that it wrote are versions that it has read: none is older than
/// its begin version, and none newer than the one that it read last, which are one version unless it is read committed (`bases`).
pub fn transactions_keep_their_invariant<M>()
    ensures begin { (t : ℕ) (base : Database M)
        → ((table : ℕ) → HaveDifferentIdentities (base table))
        → ((table : ℕ) → AllByRecursion (λ row. row.mark ≡ false) (base table))
        → ((table : ℕ)
        → AllByRecursion (λ row. identity_transaction row.identity ≢ t) (base table))
        → IsViewOf t zero base base [] }
    ensures statement { (domain : Annotations M) (t k : ℕ) (statement : Statement)
        (base view : Database M) (written : List Written) → IsViewOf t k base view written
        → IsViewOf t (suc k) base (step domain t (suc k) statement view)
        (written ++ wrote domain t (suc k) statement view) }
    ensures refresh { (t k : ℕ) (base view later : Database M) (written : List Written)
        → IsViewOf t k base view written
        → ((table : ℕ) → HaveDifferentIdentities (later table))
        → ((table : ℕ) → AllByRecursion (λ row. row.mark ≡ false) (later table))
        → ((table : ℕ)
        → AllByRecursion (λ row. identity_transaction row.identity ≢ t) (later table))
        → IsViewOf t k later (merged later view written) written }
    ensures reached { (domain : Annotations M) (parameters : Parameters) (state : State M)
        → IsReached domain parameters state → (session : ℕ) (active : Active M)
        → state.active session ≡ Some active
        → IsViewOf active.transaction active.statements
        (state.committed active.version) active.seen.view (pairs active.seen.written) }
    ensures bases { (domain : Annotations M) (parameters : Parameters) (state : State M)
        → IsReached domain parameters state → (session : ℕ) (active : Active M)
        → state.active session ≡ Some active
        → AllByRecursion
        (λ (based : Based). (begin_version active.transaction state.entries ≤ based.base)
        × (based.base ≤ active.version)) active.seen.written }
{}

/// Publishing a view puts the rows that its transaction wrote in place of those of a later database. The view satisfies the
/// invariant of [`transactions_keep_their_invariant`] over its base, table by table, and of the written identities the later
/// table has only such as the base has. That holds where the rows of these identities are unchanged (`unchanged`); and if the
/// commit is not lost, for the newest version of a reached state over any version that is not older than the bases of the written
/// rows, as the one that the transaction read last is not (`won`). The published table is then, as a list, the later rows
/// that were not written and after them the marked rows of the view; so of every identity that was not written it has the later
/// rows, and of every written one those of the view (`replaces`). With the marks cleared (`unmarked`) it is the table of the
/// version that a commit makes (`commit`).
pub fn publishing_replaces_the_written_rows<M>()
    ensures replaces { (among : Identity → Bool) (base view later : Database M) (table : ℕ)
        → AreSeenRows among (base table) (view table)
        → AddsNoneOf among (base table) (later table)
        → Replaces among (later table) (view table) (publish base view later table) }
    ensures unmarked { (among : Identity → Bool) (base view later : Database M) (table : ℕ)
        → AreSeenRows among (base table) (view table)
        → AddsNoneOf among (base table) (later table)
        → AllByRecursion (λ row. row.mark ≡ false) (later table)
        → cleared (publish base view later) table
        ≡ unwritten among (later table)
        ++ map unmarked (filter (λ row. row.mark) (view table)) }
    ensures commit { (t k : ℕ) (base view later : Database M) (written : List Written)
        → IsViewOf t k base view written
        → (table : ℕ) → AddsNoneOf (λ id. is_written table id written) (base table) (later table)
        → cleared (publish base view later) table ≡ next_version later view written table }
    ensures unchanged { (among : Identity → Bool) (base later : List (Annotated M))
        → ((id : Identity) → among id ≡ true
        → rows_of_identity id later ≡ rows_of_identity id base)
        → AddsNoneOf among base later }
    ensures won { (domain : Annotations M) (parameters : Parameters) (state : State M)
        → IsReached domain parameters state
        → (active : Active M) → conflict_of state active ≡ None
        → (version : ℕ) → version ≤ versions_in state.entries
        → AllByRecursion (λ (based : Based). based.base ≤ version) active.seen.written
        → (table : ℕ) → AddsNoneOf (λ id. is_written table id (pairs active.seen.written))
        (state.committed version table) (state.committed (versions_in state.entries) table) }
{}

/// The identity of a row of a version begins with the number of the transaction that made the row, which is 1 or more, and
/// which committed as that version or an earlier one (`rows`). A transaction commits once: the version that it made is the one
/// that it is the committer of (`once`).
pub fn identities_begin_with_their_committers<M>()
    ensures rows { (domain : Annotations M) (parameters : Parameters) (lines : List Line)
        (version table : ℕ) → version ≤ versions_in (after domain parameters start lines).entries
        → AllByRecursion
        (λ row. CommittedBy (after domain parameters start lines).entries version
        (identity_transaction row.identity))
        ((after domain parameters start lines).committed version table) }
    ensures once { (domain : Annotations M) (parameters : Parameters) (lines : List Line) (u : ℕ)
        → u < versions_in (after domain parameters start lines).entries
        → version_of (committer_of (suc u) (after domain parameters start lines).entries)
        (after domain parameters start lines).entries ≡ Some (suc u) }
{}

/// An engine without annotations follows the history machine, if it keeps what represents the state, and answers each line
/// as its methods have to. The empty engine represents the empty state. The conflict of a commit is any that is found to be the
/// one of the history (`line`); the one that the spans show is (`shown`). A line that is not recorded leaves the engine unchanged.
pub fn engines_follow_the_history()
    ensures start { Represents kept_start start }
    ensures line { (parameters : Parameters) (line : Line) (old new : Kept) (answer : Reply)
        (conflict : Overlay → Option Conflict)
        → ((lines : List Line) → Represents old (after unannotated parameters start lines)
        → FindsConflict old (after unannotated parameters start lines) line.session conflict)
        → Answers parameters old line.number line.session new answer conflict
        (old.sessions line.session) (action_of line.command)
        → Follows parameters old new line answer }
    ensures shown { (parameters : Parameters) (line : Line) (old new : Kept) (answer : Reply)
        (conflict : Overlay → Option Conflict)
        → ((overlay : Overlay) → old.sessions line.session ≡ Some overlay
        → ShowsConflict old overlay (conflict overlay))
        → Answers parameters old line.number line.session new answer conflict
        (old.sessions line.session) (action_of line.command)
        → Follows parameters old new line answer }
    ensures unchanged { (parameters : Parameters) (old new : Kept) (line : Line) (answer : Reply)
        (conflict : Overlay → Option Conflict) → Answers parameters old line.number line.session new
        answer conflict (old.sessions line.session) (action_of line.command)
        → is_recorded (action_of line.command) answer ≡ false → new ≡ old }
{}

/// Annotations decide nothing: a homomorphism of annotations commutes with every line, which gets the same reply, and with all
/// lines. So the rows of every version and of every view are those without annotations, and so are the spans.
pub fn annotations_change_no_reply<M, N>()
    ensures event { (domain : Annotations M) (other : Annotations N) (h : M → N)
        → IsHomomorphism domain other h → (parameters : Parameters) (state : State M) (line : Line)
        → line_event other parameters (state_reannotated h state) line
        ≡ outcome_reannotated h (line_event domain parameters state line) }
    ensures after { (domain : Annotations M) (other : Annotations N) (h : M → N)
        → IsHomomorphism domain other h → (parameters : Parameters) (lines : List Line)
        → after other parameters start lines ≡ state_reannotated h (after domain parameters start lines) }
    ensures forgetting { (domain : Annotations M) (parameters : Parameters) (lines : List Line)
        → after unannotated parameters start lines
        ≡ state_reannotated forgotten (after domain parameters start lines) }
    ensures spans { (h : M → N) (state : State M) (table : ℕ)
        → state_spans (state_reannotated h state) table ≡ state_spans state table }
{}

/// Rows, identities and marks of a state do not depend on annotations. Over versions that a homomorphism of annotations
/// relates, the tables of every state that a question can ask about are related by it too, row by row in the same order
/// (`points`), as the states that a history held are (`held`), and a run stops at the same statement (`stops`). Over versions
/// that are equal but for annotations of any two kinds, with no map between them, those tables are equal but for annotations
/// too (`rows`).
pub fn annotations_change_no_row<M, N>()
    ensures points { (domain : Annotations M) (other : Annotations N) (h : M → N)
        → IsHomomorphism domain other h
        → (versions : Environment M) (others : Environment N) → AreReannotated h versions others
        → (entries : List Entry) (point : y.Point) → IsReannotated h
        (at_point domain entries point versions) (at_point other entries point others) }
    ensures stops { (domain : Annotations M) (other : Annotations N) (h : M → N)
        → IsHomomorphism domain other h
        → (versions : Environment M) (others : Environment N) → AreReannotated h versions others
        → (parameters : Parameters) (log : Log) (t k : ℕ)
        → run_stop other parameters log t k others ≡ run_stop domain parameters log t k versions }
    ensures held { (h : M → N) (state : State M) (point : y.Point)
        → IsReannotated h (held_at state point) (held_at (state_reannotated h state) point) }
    ensures rows { (domain : Annotations M) (other : Annotations N)
        (versions : Environment M) (others : Environment N)
        → ((version : ℕ) → AreEqualButForAnnotations (versions version) (others version))
        → (entries : List Entry) (point : y.Point) → AreEqualButForAnnotations
        (at_point domain entries point versions) (at_point other entries point others) }
{}

/// The spans of a reached state hold the rows of every version, in the same order, and with the annotations of the version that
/// they begin with they are the version. Spans of one row do not overlap, none is empty, and one that holds a version ends at
/// the next version that wrote its row. A commit ends open spans and begins new ones.
pub fn spans_hold_the_versions<M>()
    ensures rows { (domain : Annotations M) (parameters : Parameters) (state : State M)
        → IsReached domain parameters state
        → (version table : ℕ) → version ≤ versions_in state.entries
        → as_of unannotated (state_spans state) version table
        ≡ map (reannotated forgotten) (state.committed version table) }
    ensures annotated { (domain : Annotations M) (parameters : Parameters) (state : State M)
        → IsReached domain parameters state
        → (version table : ℕ) → version ≤ versions_in state.entries
        → annotated domain (state_spans state) state.committed version table
        ≡ state.committed version table }
    ensures apart { (domain : Annotations M) (parameters : Parameters) (state : State M)
        → IsReached domain parameters state → (table : ℕ) → NoOverlap (state_spans state table) }
    ensures whole { (state : State M) (table : ℕ) → AreWhole (state_spans state table) }
    ensures below { (state : State M) (table : ℕ)
        → AreBelow (suc (versions_in state.entries)) (state_spans state table) }
    ensures ends { (state : State M) (table : ℕ) → AllByRecursion
        (λ (span : Span). (version : ℕ) → version ≤ versions_in state.entries
        → holds_at version span ≡ true → span.to ≡ next_written state.written table span.id version
        (versions_in state.entries - version)) (state_spans state table) }
    ensures commit { (state : State M) (line session : ℕ) (active : Active M) (table : ℕ)
        → state_spans (published state line session active) table
        ≡ map (span_after (suc (versions_in state.entries))
        (λ id. is_written table id (pairs active.seen.written))) (state_spans state table)
        ++ spans_from (suc (versions_in state.entries))
        (published state line session active).committed
        (published state line session active).written table
        (suc (versions_in state.entries)) }
{}

/// A line that is not recorded leaves the state unchanged; a line that is recorded adds one entry to the log. All accepted
/// lines are recorded, and of the refused ones a COMMIT that is lost, which ends its transaction.
pub fn accepted_lines_are_recorded<M>()
    ensures unchanged { (domain : Annotations M) (parameters : Parameters) (state : State M) (line : Line)
        → is_recorded (action_of line.command) (line_event domain parameters state line).1 ≡ false
        → (line_event domain parameters state line).0 ≡ state }
    ensures recorded { (domain : Annotations M) (parameters : Parameters) (state : State M) (line : Line)
        → is_recorded (action_of line.command) (line_event domain parameters state line).1 ≡ true
        → (entry : Entry)
        × ((line_event domain parameters state line).0.entries ≡ entry ∷ state.entries) }
{}

/// A commit is lost exactly where a version after the base of a row wrote the row too. The conflict is the least such row, by
/// table and then by identity, with the first such version, in whatever order the rows are tested.
pub fn conflicts_are_least()
    ensures some { (written : ℕ → List Written) (versions : ℕ) (all : List Based)
        (conflict : Conflict) → least_conflict written versions all ≡ Some conflict
        → IsLeastConflict written versions all conflict }
    ensures none { (written : ℕ → List Written) (versions : ℕ) (all : List Based)
        → least_conflict written versions all ≡ None
        → AllByRecursion (IsFirst written versions) all }
    ensures same { (written : ℕ → List Written) (versions : ℕ) (all : List Based)
        (one other : Conflict) → HaveOneBase all → IsLeastConflict written versions all one
        → IsLeastConflict written versions all other → one ≡ other }
{}

/// The log and the spans of a history, in whatever order, hold the history: its versions with their annotations, what a
/// transaction that made a version read after each of its statements, and what its commit published. So every query gives the
/// same answer, with the same annotations, as on the database that the history held. The run of such a transaction passes no
/// limit. Publishing by marks and absence, as a query does, is the commit itself.
pub fn logs_and_spans_hold_the_history<M>()
    ensures answers { (domain : Annotations M) (parameters : Parameters) (lines : List Line)
        (spans : ℕ → List Span) → ((table : ℕ)
        → IsPermutation (spans table) (state_spans (after domain parameters start lines) table))
        → (point : y.Point) → IsAsked (after domain parameters start lines).entries point
        → (query : Select) → IsPermutation
        (answer domain query (at_point domain (after domain parameters start lines).entries point
        (annotated_versions domain (after domain parameters start lines).entries spans)))
        (answer domain query (held_at (after domain parameters start lines) point)) }
    ensures stops { (domain : Annotations M) (parameters : Parameters) (lines : List Line)
        (spans : ℕ → List Span) → ((table : ℕ)
        → IsPermutation (spans table) (state_spans (after domain parameters start lines) table))
        → (t k version : ℕ) → version_of t (after domain parameters start lines).entries ≡ Some version
        → k ≤ statement_count t (after domain parameters start lines).entries
        → run_stop domain parameters (log_of (after domain parameters start lines).entries) t k
        (annotated_versions domain (after domain parameters start lines).entries spans) ≡ None }
    ensures consistent { (domain : Annotations M) (parameters : Parameters) (state : State M)
        → IsReached domain parameters state → (spans : ℕ → List Span)
        → ((table : ℕ) → IsPermutation (spans table) (state_spans state table))
        → (u table : ℕ) → u ≤ versions_in state.entries → IsPermutation
        (identified (computed domain (log_of state.entries) spans u u table))
        (identified (as_of domain spans u table)) }
    ensures commits { (domain : Annotations M) (parameters : Parameters) (state : State M)
        → IsReached domain parameters state → (u : ℕ) → u < versions_in state.entries → (table : ℕ)
        → cleared (at_commit domain (log_of state.entries)
        (committer_of (suc u) state.entries) u state.committed) table
        ≡ state.committed (suc u) table }
{}

/// Without annotations, the rows of the spans do, and no version need be computed.
pub fn spans_answer_without_annotations()
    ensures answers { (parameters : Parameters) (lines : List Line) (spans : ℕ → List Span) → ((table : ℕ)
        → IsPermutation (spans table) (state_spans (after unannotated parameters start lines) table))
        → (point : y.Point) → IsAsked (after unannotated parameters start lines).entries point
        → (query : Select) → IsPermutation
        (answer unannotated query
        (at_point unannotated (after unannotated parameters start lines).entries point (as_of unannotated spans)))
        (answer unannotated query (held_at (after unannotated parameters start lines) point)) }
{}

/// No count passes its limit, and so the log has few lines.
pub fn counts_are_within_their_limits<M>()
    ensures within { (domain : Annotations M) (parameters : Parameters) (lines : List Line)
        → CountsAreWithin parameters (after domain parameters start lines) }
{}

/// The commits of a history publish as many rows as it has spans, if the check passes no statement that writes a table that is
/// not there. The spans are those of the tables of the catalogue.
pub fn commits_publish_the_spans<M>()
    ensures count { (domain : Annotations M) (parameters : Parameters) → ChecksTargets parameters
        → (lines : List Line) → (after domain parameters start lines).rows
        ≡ span_count (after domain parameters start lines)
        (length (after domain parameters start lines).catalogue) }
    ensures beyond { (domain : Annotations M) (parameters : Parameters) → ChecksTargets parameters
        → (lines : List Line) (place : ℕ)
        → length (after domain parameters start lines).catalogue ≤ place
        → state_spans (after domain parameters start lines) place ≡ [] }
{}

/// Every question is answered from the log and the spans as the history would answer it: with the same refusal, or with the same
/// elements in any order. No run stops, and no computed version differs from the one of the spans, whatever test of equal
/// tables is used, if it passes tables with the same rows in any order.
pub fn questions_are_answered_by_the_history<M>()
    ensures annotated { (domain : Annotations M) (parameters : Parameters) (lines : List Line)
        (spans : ℕ → List Span) → ((table : ℕ)
        → IsPermutation (spans table) (state_spans (after domain parameters start lines) table))
        → (agree : List (Annotated M) → List (Annotated M) → Bool)
        → ((rows others : List (Annotated M))
        → IsPermutation (identified rows) (identified others) → agree rows others ≡ true)
        → (point : y.Point) (query : Select) → AreAlike
        (annotated_answer domain parameters agree (after domain parameters start lines).catalogue
        (after domain parameters start lines).entries spans point query)
        (held_answer domain parameters (after domain parameters start lines) point query) }
    ensures rows { (parameters : Parameters) (lines : List Line) (spans : ℕ → List Span) → ((table : ℕ)
        → IsPermutation (spans table) (state_spans (after unannotated parameters start lines) table))
        → (point : y.Point) (query : Select) → AreAlike
        (rows_answer parameters (after unannotated parameters start lines).entries spans point query)
        (held_answer unannotated parameters (after unannotated parameters start lines) point query) }
{}

/// The commits of a history, made again from its log alone, are that history: none stops, and the row versions are its own
/// (`unstopped`, `spans`). Commits made again from any log that keeps its sessions are a history of their own, up to the first
/// stop (`history`).
pub fn histories_are_made_again<M>()
    ensures unstopped { (domain : Annotations M) (parameters : Parameters) → ChecksTargets parameters
        → (lines : List Line) → replay_stop domain (log_of (after domain parameters start lines).entries) parameters
        (length (after domain parameters start lines).catalogue)
        (versions_in (after domain parameters start lines).entries) ≡ None }
    ensures spans { (domain : Annotations M) (parameters : Parameters) → ChecksTargets parameters
        → (lines : List Line) (place : ℕ)
        → replayed_spans domain (log_of (after domain parameters start lines).entries)
        (length (after domain parameters start lines).catalogue)
        (versions_in (after domain parameters start lines).entries) place
        ≡ state_spans (after domain parameters start lines) place }
    ensures history { (domain : Annotations M) (parameters : Parameters) (log : Log) (tables u : ℕ)
        → CommitsInOrder log → u ≤ log.versions → replay_stop domain log parameters tables u ≡ None
        → IsHistory domain (upto_version u log)
        (replayed domain log tables u).committed (replayed domain log tables u).written }
{}

/// No transaction that made a version passes a limit: neither in a state that lines lead to (`reached`), nor in the one that the
/// commits of a log lead to, made again, if the log keeps its sessions and none of them stops (`replayed`).
pub fn histories_do_not_stop<M>()
    ensures reached { (domain : Annotations M) (parameters : Parameters) (lines : List Line)
        → IsUnstopped domain parameters (after domain parameters start lines) }
    ensures replayed { (domain : Annotations M) (parameters : Parameters) (catalogue : List Table)
        (entries : List Entry) → CommitsInOrder (log_of entries)
        → replay_stop domain (log_of entries) parameters (length catalogue) (versions_in entries) ≡ None
        → IsUnstopped domain parameters (replayed_state domain catalogue entries) }
{}

/// The log and the spans of a history in which no transaction stops, in whatever order, hold the history, and every question is
/// answered from them as the history would answer it: with the same elements in any order (`elements`), or with the same
/// refusal (`annotated`, `rows`). So it is for each state that lines lead to, and for commits made again
/// ([`histories_do_not_stop`]).
pub fn unstopped_histories_answer_their_questions<M>()
    ensures elements { (domain : Annotations M) (parameters : Parameters) (state : State M)
        → IsUnstopped domain parameters state → (spans : ℕ → List Span)
        → ((table : ℕ) → IsPermutation (spans table) (state_spans state table))
        → (point : y.Point) → IsAsked state.entries point → (query : Select) → IsPermutation
        (answer domain query (at_point domain state.entries point
        (annotated_versions domain state.entries spans)))
        (answer domain query (held_at state point)) }
    ensures annotated { (domain : Annotations M) (parameters : Parameters) (state : State M)
        → IsUnstopped domain parameters state → (spans : ℕ → List Span)
        → ((table : ℕ) → IsPermutation (spans table) (state_spans state table))
        → (agree : List (Annotated M) → List (Annotated M) → Bool)
        → ((rows others : List (Annotated M))
        → IsPermutation (identified rows) (identified others) → agree rows others ≡ true)
        → (point : y.Point) (query : Select) → AreAlike
        (annotated_answer domain parameters agree state.catalogue state.entries spans point query)
        (held_answer domain parameters state point query) }
    ensures rows { (parameters : Parameters) (state : State (Unit {0})) → IsUnstopped unannotated parameters state
        → (spans : ℕ → List Span)
        → ((table : ℕ) → IsPermutation (spans table) (state_spans state table))
        → (point : y.Point) (query : Select) → AreAlike
        (rows_answer parameters state.entries spans point query)
        (held_answer unannotated parameters state point query) }
{}

/// Annotations decide nothing where commits are made again: a homomorphism of annotations changes neither the first stop (`stops`)
/// nor the spans (`spans`), and takes a history in which no transaction stops to another one (`unstopped`).
pub fn annotations_change_no_replay<M, N>()
    ensures stops { (domain : Annotations M) (other : Annotations N) (h : M → N)
        → IsHomomorphism domain other h → (parameters : Parameters) (log : Log) (tables u : ℕ)
        → replay_stop other log parameters tables u ≡ replay_stop domain log parameters tables u }
    ensures spans { (domain : Annotations M) (other : Annotations N) (h : M → N)
        → IsHomomorphism domain other h → (log : Log) (tables u place : ℕ)
        → replayed_spans other log tables u place ≡ replayed_spans domain log tables u place }
    ensures unstopped { (domain : Annotations M) (other : Annotations N) (h : M → N)
        → IsHomomorphism domain other h → (parameters : Parameters) (state : State M)
        → IsUnstopped domain parameters state → IsUnstopped other parameters (state_reannotated h state) }
{}

/// A transaction that made no version, whatever became of it, in a state that lines lead to, no statement of which read an older version
/// than the one before. Its statements, run again over the versions, give what it read before and after each of them (`views`,
/// `starts`), and pass no limit; and so they do over the row versions of the history, in any order (`spans`, `stops`).
pub fn transactions_read_what_their_runs_give<M>()
    ensures views { (domain : Annotations M) (parameters : Parameters) (state : State M)
        → IsReached domain parameters state → (t : ℕ) → 0 < t → t ≤ transactions_in state.entries
        → version_of t state.entries ≡ None
        → ((k : ℕ) → k < statement_count t state.entries
        → statement_version t k state.entries ≤ statement_version t (suc k) state.entries)
        → (k : ℕ) → k ≤ statement_count t state.entries
        → run domain (log_of state.entries) t k state.committed ≡ state.views t k }
    ensures starts { (domain : Annotations M) (parameters : Parameters) (state : State M)
        → IsReached domain parameters state → (t : ℕ) → 0 < t → t ≤ transactions_in state.entries
        → version_of t state.entries ≡ None
        → ((k : ℕ) → k < statement_count t state.entries
        → statement_version t k state.entries ≤ statement_version t (suc k) state.entries)
        → (k : ℕ) → k < statement_count t state.entries
        → run_before domain (log_of state.entries) t k state.committed
        ≡ start_by domain (log_of state.entries) t k state.committed }
    ensures spans { (domain : Annotations M) (parameters : Parameters) (state : State M)
        → IsReached domain parameters state → (t : ℕ) → 0 < t → t ≤ transactions_in state.entries
        → version_of t state.entries ≡ None
        → ((k : ℕ) → k < statement_count t state.entries
        → statement_version t k state.entries ≤ statement_version t (suc k) state.entries)
        → (spans : ℕ → List Span)
        → ((table : ℕ) → IsPermutation (spans table) (state_spans state table))
        → (k table : ℕ) → k ≤ statement_count t state.entries → IsPermutation
        (run domain (log_of state.entries) t k (annotated_versions domain state.entries spans) table)
        (state.views t k table) }
    ensures stops { (domain : Annotations M) (parameters : Parameters) (state : State M)
        → IsReached domain parameters state → (t : ℕ) → 0 < t → t ≤ transactions_in state.entries
        → version_of t state.entries ≡ None
        → ((k : ℕ) → k < statement_count t state.entries
        → statement_version t k state.entries ≤ statement_version t (suc k) state.entries)
        → (spans : ℕ → List Span)
        → ((table : ℕ) → IsPermutation (spans table) (state_spans state table))
        → (k : ℕ) → k ≤ statement_count t state.entries
        → run_stop domain parameters (log_of state.entries) t k
        (annotated_versions domain state.entries spans) ≡ None }
{}

/// Transactions that run one after another in any order, each from its BEGIN to its COMMIT, are a history if none of their commits stops
/// (`history`). Over the row versions of a history, in whatever order, no transaction that committed stops (`runs`). Where they do
/// one after another so what they did over these, they are a history in which each statement changes the same rows, each query answers
/// the same rows, and the last version has the same rows as there (`same`).
pub fn serial_orders_are_histories()
    ensures history { (parameters : Parameters) (log : Log) (order : List ℕ) (tables : ℕ)
        → AreOnce order
        → replay_stop unannotated (serial_log order log) parameters tables (length order) ≡ None
        → IsHistory unannotated (serial_log order log)
        (serial_replay unannotated order log tables).committed
        (serial_replay unannotated order log tables).written }
    ensures same { (parameters : Parameters) (lines : List Line) (spans : ℕ → List Span) → ((table : ℕ)
        → IsPermutation (spans table) (state_spans (after unannotated parameters start lines) table))
        → (order : List ℕ) → AreOnce order
        → IsPermutation order (committers (after unannotated parameters start lines).entries)
        → is_serial parameters (log_of (after unannotated parameters start lines).entries)
        (length (after unannotated parameters start lines).catalogue)
        (as_of unannotated spans) order ≡ true
        → IsSerialAs (after unannotated parameters start lines) order }
    ensures runs { (parameters : Parameters) (lines : List Line) (spans : ℕ → List Span) → ((table : ℕ)
        → IsPermutation (spans table) (state_spans (after unannotated parameters start lines) table))
        → (u : ℕ) → u < versions_in (after unannotated parameters start lines).entries
        → run_stop unannotated parameters (log_of (after unannotated parameters start lines).entries)
        (committer_of (suc u) (after unannotated parameters start lines).entries)
        (statement_count (committer_of (suc u) (after unannotated parameters start lines).entries)
        (after unannotated parameters start lines).entries) (as_of unannotated spans) ≡ None }
{}
