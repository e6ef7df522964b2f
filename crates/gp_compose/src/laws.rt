//! Laws of composed programs. Each function does nothing: its postconditions are the laws. A law with a type parameter holds
//! for annotations of every type, as monomials, or nothing at all.

ghost use Rattle.std.specs.Prelude.{◌≡◌, ◌<◌, ◌≤◌, ℕ, suc, true, Contains, List, Some, None, map};
ghost use Rattle.gp_base.specs.declared.table.Table.{Table};
ghost use Rattle.gp_base.specs.Annotated.{Annotations, Environment};
ghost use Rattle.gp_grammar.specs.Syntax as y;
ghost use Rattle.gp_algebra.specs.declared.plain.ScanAt.{ScanAt};
ghost use Rattle.gp_algebra.specs.AnnotatedMeaning.{program_meaning, scanned, steps_meaning};
ghost use Rattle.gp_algebra.specs.Answers.{answer};
ghost use Rattle.gp_algebra.specs.Fitting.{select_fits};
ghost use Rattle.gp_algebra.specs.Statements.{width_of};
ghost use Rattle.gp_algebra.specs.Plain.{no_steps};
ghost use Rattle.gp_algebra.specs.QueryForms.{IsTableProgram, IsWellBuilt};
ghost use Rattle.gp_algebra.specs.Scans.{annotated_program_scans};
ghost use Rattle.gp_algebra.specs.Statements.{Select, Statement, target};
ghost use Rattle.gp_machine.specs.Entries.{Entry, log_of, statement_at};
ghost use Rattle.gp_machine.specs.Points.{at_point};
ghost use Rattle.gp_machine.specs.Questions.{is_known, log_refusal, needed_version};
ghost use Rattle.gp_machine.specs.Runs.{at_commit, run, run_before};
ghost use Rattle.gp_log.specs.LogFitting.{statements_fit};
ghost use Rattle.gp_log.specs.Sessions.{KeepsSessions};
ghost use Rattle.gp_rewrite.specs.Meaning.{IsMonoid, row_of_element, unmarked};
ghost use Rattle.gp_compose.specs.Composed.{composed, program_at};
ghost use Rattle.gp_compose.specs.Composing.{looking_program, published_table};
ghost use Rattle.gp_compose.specs.Seen.{looked_at};
ghost use Rattle.gp_compose.specs.Versions.{AreVersions};

/// Reenactment of a transaction, for the annotations of any monoid and over any versions whose rows are unmarked and as wide
/// as their tables: the program of a state gives the answer in that state, but for marks; the program of a published table
/// gives that table as the COMMIT published it; and each step gives the table that its statement left, whatever comes behind
/// it. All statements fit the catalogue, and so does the query. Versions have to be unmarked for the steps too: a table that a
/// transaction has no statement on is scanned in a later version, and not published onto it.
pub fn composed_programs_mean_the_states<M>()
    ensures answers { (domain : Annotations M) → IsMonoid domain → (catalogue : List Table)
        (entries : List Entry) → statements_fit catalogue entries ≡ true
        → (env : Environment M) → AreVersions catalogue env
        → (point : y.Point) (select : Select) → select_fits catalogue select ≡ true
        → map unmarked
        (program_meaning domain env (program_at (width_of catalogue) entries point select))
        ≡ map row_of_element (answer domain select (at_point domain entries point env)) }
    ensures tables { (domain : Annotations M) → IsMonoid domain → (catalogue : List Table)
        (entries : List Entry) → statements_fit catalogue entries ≡ true
        → (env : Environment M) → AreVersions catalogue env
        → (t before table : ℕ) → program_meaning domain env
        (published_table (width_of catalogue) (log_of entries) t before table)
        ≡ map (scanned domain) (at_commit domain (log_of entries) t before env table) }
    ensures steps { (domain : Annotations M) → IsMonoid domain → (catalogue : List Table)
        (entries : List Entry) → statements_fit catalogue entries ≡ true
        → (env : Environment M) → AreVersions catalogue env
        → (t k j table : ℕ) (statement : Statement) → j ≤ k
        → statement_at t j entries ≡ Some statement → target statement ≡ Some table
        → steps_meaning domain env (composed (width_of catalogue) (log_of entries) t k) no_steps j
        ≡ map (scanned domain) (run domain (log_of entries) t j env table) }
{}

/// The program of the rows by which one looks at a statement gives them, over any versions whose rows are unmarked and as wide as their
/// tables, and for the annotations of any monoid; and it is well built. All statements fit the catalogue, and the statement writes
/// a table.
pub fn looking_programs_give_the_rows<M>()
    ensures rows { (domain : Annotations M) → IsMonoid domain → (catalogue : List Table)
        (entries : List Entry) → statements_fit catalogue entries ≡ true
        → (env : Environment M) → AreVersions catalogue env
        → (t k table : ℕ) (statement : Statement) → statement_at t (suc k) entries ≡ Some statement
        → target statement ≡ Some table
        → program_meaning domain env
        (looking_program (width_of catalogue) (log_of entries) t k statement)
        ≡ map (scanned domain) (looked_at domain t (suc k) statement
        (run_before domain (log_of entries) t k env)) }
    ensures built { (catalogue : List Table) (entries : List Entry)
        → statements_fit catalogue entries ≡ true → (t k table : ℕ) (statement : Statement)
        → is_known t entries ≡ true → statement_at t (suc k) entries ≡ Some statement
        → target statement ≡ Some table
        → IsTableProgram (width_of catalogue) table
        (looking_program (width_of catalogue) (log_of entries) t k statement) }
{}

/// The program of a state is well built, if the transaction that the state names is numbered from 1, as every transaction
/// that the log does not refuse is; and so is the program of a published table. All statements fit the catalogue, and so
/// does the query.
pub fn composed_programs_are_well_built()
    ensures programs { (catalogue : List Table) (entries : List Entry)
        → statements_fit catalogue entries ≡ true → (point : y.Point)
        → ((t k : ℕ) → point ≡ y.after t k → 0 < t)
        → ((t : ℕ) → point ≡ y.Point.commit t → 0 < t)
        → (select : Select) → select_fits catalogue select ≡ true
        → IsWellBuilt (width_of catalogue)
        (program_at (width_of catalogue) entries point select) }
    ensures asked { (catalogue : List Table) (entries : List Entry)
        → statements_fit catalogue entries ≡ true
        → (point : y.Point) → log_refusal entries point ≡ None
        → (select : Select) → select_fits catalogue select ≡ true
        → IsWellBuilt (width_of catalogue)
        (program_at (width_of catalogue) entries point select) }
    ensures tables { (catalogue : List Table) (entries : List Entry)
        → statements_fit catalogue entries ≡ true → (t before table : ℕ) → 0 < t
        → IsTableProgram (width_of catalogue) table
        (published_table (width_of catalogue) (log_of entries) t before table) }
{}

/// In a log that keeps its sessions, the program of a state that the log does not refuse scans no version above the last one
/// that the state needs: that of an AS OF, that which the statement read, or that before the commit. So the annotations of
/// later versions are not needed either.
pub fn composed_programs_scan_what_is_needed()
    ensures { (entries : List Entry) → KeepsSessions entries
        → (columns : ℕ → ℕ) (point : y.Point) → log_refusal entries point ≡ None
        → (select : Select) (scan : ScanAt)
        → Contains (annotated_program_scans (program_at columns entries point select)) scan
        → scan.version ≤ needed_version entries point }
{}
