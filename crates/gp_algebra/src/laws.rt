//! Laws of the definitions that contracts cite. Each function does nothing: its postconditions are the laws. A law with a
//! type parameter holds for annotations of every type, as monomials, the elements of a semiring, or nothing at all.

ghost use Rattle.std.specs.Prelude.{◌≡◌, ℕ, true, List, map};
ghost use Rattle.std.specs.List.Sorted.{IsPermutation};
ghost use Rattle.gp_base.specs.declared.table.Table.{Table};
ghost use Rattle.gp_base.specs.Annotated.{Annotations, Database, unannotated};
ghost use Rattle.gp_algebra.specs.Answers.{answer};
ghost use Rattle.gp_algebra.specs.Effects.{is_over_nodes, is_over_rows, step, wrote};
ghost use Rattle.gp_algebra.specs.Fitting.{select_fits, statement_fits};
ghost use Rattle.gp_algebra.specs.Plain.{PlainEnvironment, PlainProgram, program_meaning};
ghost use Rattle.gp_algebra.specs.Reannotation.{IsHomomorphism, database_reannotated, element_reannotated, forgotten, reannotated};
ghost use Rattle.gp_algebra.specs.SameRows.{HaveSameRows};
ghost use Rattle.gp_algebra.specs.Scans.{AgreeOn, HaveSameRowsOn, program_scans};
ghost use Rattle.gp_algebra.specs.Simple.{select_is_simple};
ghost use Rattle.gp_algebra.specs.Statements.{Select, Statement, insert_select, read};
ghost use Rattle.gp_algebra.specs.Stops.{program_stop};

/// Databases with the same rows, in any order, give answers with the same elements, in any order.
pub fn answers_respect_bags<M>()
    ensures answers { (domain : Annotations M) (select : Select) (db other : Database M)
        → HaveSameRows db other
        → IsPermutation (answer domain select db) (answer domain select other) }
{}

/// On databases with the same rows, in any order, a statement leaves the same rows, writes the same rows, and is over the
/// same limits.
pub fn statements_respect_bags<M>()
    ensures effects { (domain : Annotations M) (t k : ℕ) (statement : Statement)
        (db other : Database M) → HaveSameRows db other
        → HaveSameRows (step domain t k statement db) (step domain t k statement other) }
    ensures written { (domain : Annotations M) (t k : ℕ) (statement : Statement)
        (db other : Database M) → HaveSameRows db other
        → IsPermutation (wrote domain t k statement db) (wrote domain t k statement other) }
    ensures rows { (domain : Annotations M) (most t k : ℕ) (statement : Statement)
        (db other : Database M) → HaveSameRows db other
        → is_over_rows domain most t k statement db ≡ is_over_rows domain most t k statement other }
    ensures nodes { (domain : Annotations M) (most t k : ℕ) (statement : Statement)
        (db other : Database M) → HaveSameRows db other
        → is_over_nodes domain most t k statement db ≡ is_over_nodes domain most t k statement other }
{}

/// Annotations decide nothing: a homomorphism of annotations commutes with answers and with statements, row by row in the
/// same order (Green, Karvounarakis and Tannen 2007), and neither the rows that a statement writes nor the limits that it is
/// over depend on annotations. Forgetting annotations is a homomorphism. Products of monomials need no order and no
/// brackets: they are a commutative monoid, by [`gp_base::monomials_are_a_commutative_monoid`].
pub fn annotations_commute<M, N>()
    ensures answers { (domain : Annotations M) (other : Annotations N) (h : M → N)
        → IsHomomorphism domain other h → (select : Select) (db : Database M)
        → answer other select (database_reannotated h db)
        ≡ map (element_reannotated h) (answer domain select db) }
    ensures effects { (domain : Annotations M) (other : Annotations N) (h : M → N)
        → IsHomomorphism domain other h
        → (t k : ℕ) (statement : Statement) (db : Database M) (table : ℕ)
        → step other t k statement (database_reannotated h db) table
        ≡ map (reannotated h) (step domain t k statement db table) }
    ensures written { (domain : Annotations M) (other : Annotations N) (h : M → N)
        → IsHomomorphism domain other h → (t k : ℕ) (statement : Statement) (db : Database M)
        → wrote other t k statement (database_reannotated h db) ≡ wrote domain t k statement db }
    ensures rows { (domain : Annotations M) (other : Annotations N) (h : M → N)
        → IsHomomorphism domain other h
        → (most t k : ℕ) (statement : Statement) (db : Database M)
        → is_over_rows other most t k statement (database_reannotated h db)
        ≡ is_over_rows domain most t k statement db }
    ensures nodes { (domain : Annotations M) (other : Annotations N) (h : M → N)
        → IsHomomorphism domain other h
        → (most t k : ℕ) (statement : Statement) (db : Database M)
        → is_over_nodes other most t k statement (database_reannotated h db)
        ≡ is_over_nodes domain most t k statement db }
    ensures forgetting { (domain : Annotations M) → IsHomomorphism domain unannotated forgotten }
{}

/// The rows of a plain program and where it stops depend on the tables and versions that it scans, and on nothing else.
pub fn programs_read_their_scans()
    ensures meaning { (program : PlainProgram) (env other : PlainEnvironment)
        → AgreeOn (program_scans program) env other
        → program_meaning env program ≡ program_meaning other program }
    ensures stop { (most_rows most_nodes : ℕ) (program : PlainProgram)
        (env other : PlainEnvironment) → AgreeOn (program_scans program) env other
        → program_stop most_rows most_nodes env program
        ≡ program_stop most_rows most_nodes other program }
{}

/// The order of rows does not matter: if the tables that a plain program scans have the same rows, in any order, it gives
/// the same rows, in any order, and stops at the same step.
pub fn programs_respect_bags()
    ensures meaning { (program : PlainProgram) (env other : PlainEnvironment)
        → HaveSameRowsOn (program_scans program) env other
        → IsPermutation (program_meaning env program) (program_meaning other program) }
    ensures stop { (most_rows most_nodes : ℕ) (program : PlainProgram)
        (env other : PlainEnvironment) → HaveSameRowsOn (program_scans program) env other
        → program_stop most_rows most_nodes env program
        ≡ program_stop most_rows most_nodes other program }
{}

/// A query that fits a catalogue is simple, so the executor takes what the check of names and types gives.
pub fn fitting_queries_are_simple()
    ensures queries { (tables : List Table) (select : Select)
        → select_fits tables select ≡ true → select_is_simple select ≡ true }
    ensures inserts { (tables : List Table) (table : ℕ) (select : Select)
        → statement_fits tables (insert_select table select) ≡ true
        → select_is_simple select ≡ true }
    ensures reads { (tables : List Table) (select : Select)
        → statement_fits tables (read select) ≡ true → select_is_simple select ≡ true }
{}
