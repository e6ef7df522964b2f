//! Laws of the definitions that contracts cite. Each function does nothing: its postconditions are the laws.

ghost use Rattle.std.specs.Prelude.{◌≡◌, ℕ, ◌≤◌, ◌++◌, [], true, false, List, None, Ok, length, slice_index_or};
ghost use Rattle.gp_base.specs.declared.table.Table.{Table};
ghost use Rattle.gp_grammar.specs.Syntax as y;
ghost use Rattle.gp_grammar.specs.Syntax.{Command, Query, is_statement};
ghost use Rattle.gp_algebra.specs.Fitting.{select_fits, statement_fits};
ghost use Rattle.gp_algebra.specs.Statements.{Select, Statement};
ghost use Rattle.gp_check.specs.Checking.{checked, checked_query};
ghost use Rattle.gp_check.specs.Valid.{is_valid, query_is_valid};
ghost use Rattle.gp_machine.specs.Entries.{Entry};
ghost use Rattle.gp_machine.specs.Questions.{log_refusal};
ghost use Rattle.gp_log.specs.LogFacts.{tables_in};
ghost use Rattle.gp_log.specs.LogFitting.{statements_fit};
ghost use Rattle.gp_reenact.specs.Programs.{merged_at};
ghost use Rattle.gp_dump.specs.Dumps.{Dump};
ghost use Rattle.gp_dump.specs.WholeDumps.{IsDump};
ghost use Rattle.gp_sql.specs.Types.{is_typed};
ghost use Rattle.gp_sql.specs.VersionTables.{AllSpansFit};
ghost use Rattle.gp_typed.specs.StatementTypes.{select_is_typed, statement_is_typed, statements_are_typed};

/// What the check makes of a valid command or query has types over the tables that it was checked with (`statements`, `queries`), and
/// over these tables with others behind (`more`).
pub fn checked_statements_are_typed()
    ensures statements { (tables : List Table) (command : Command) (statement : Statement)
        → is_statement command ≡ true → is_valid command ≡ true
        → checked tables command ≡ Ok statement → statement_is_typed tables statement ≡ true }
    ensures queries { (tables : List Table) (query : Query) (select : Select)
        → query_is_valid query ≡ true → checked_query tables query ≡ Ok select
        → select_is_typed tables select ≡ true }
    ensures more { (tables others : List Table) (statement : Statement)
        → statement_fits tables statement ≡ true → statement_is_typed tables statement ≡ true
        → statement_is_typed (tables ++ others) statement ≡ true }
{}

/// The statements of a well-formed dump have types over its tables (`statements`), so the merged program of a checked query over a
/// state of it has types (`programs`). The cells of its row versions have the types of their columns, and their identities numbers of
/// 32 bits (`spans`).
pub fn well_formed_dumps_are_typed()
    ensures statements { (dump : Dump) → IsDump dump
        → statements_are_typed (tables_in dump.entries) dump.entries ≡ true }
    ensures programs { (dump : Dump) → IsDump dump → (point : y.Point)
        (query : Query) (select : Select) → query_is_valid query ≡ true
        → checked_query (tables_in dump.entries) query ≡ Ok select
        → log_refusal dump.entries point ≡ None
        → is_typed (tables_in dump.entries) (merged_at false dump.entries point select) ≡ true }
    ensures spans { (dump : Dump) → IsDump dump
        → AllSpansFit (tables_in dump.entries) (λ table. slice_index_or dump.tables table []) }
{}

/// The merged program of a state has types, if all statements and the query fit their tables and have types over their columns, and
/// the log is so short that its transactions and statements have numbers of 32 bits.
pub fn merged_programs_are_typed()
    ensures { (entries : List Entry) (point : y.Point) (select : Select)
        → length entries ≤ 0xffff_ffff
        → statements_fit (tables_in entries) entries ≡ true
        → statements_are_typed (tables_in entries) entries ≡ true
        → select_fits (tables_in entries) select ≡ true
        → select_is_typed (tables_in entries) select ≡ true → log_refusal entries point ≡ None
        → is_typed (tables_in entries) (merged_at false entries point select) ≡ true }
{}
