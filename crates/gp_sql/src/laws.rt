//! Laws of the definitions that contracts cite. Each function does nothing: its postconditions are the laws.

ghost use Rattle.std.specs.Prelude.{◌≡◌, ℕ, ◌^◌, ◌<◌, List, length, true};
ghost use Rattle.std.specs.List.{list_all};
ghost use Rattle.std.specs.List.Sorted.{IsPermutation};
ghost use Rattle.gp_base.specs.Names.{is_name};
ghost use Rattle.gp_base.specs.declared.table.Column.{Column};
ghost use Rattle.gp_base.specs.declared.table.Table.{Table};
ghost use Rattle.gp_algebra.specs.Plain.{PlainEnvironment, PlainProgram, program_meaning};
ghost use Rattle.gp_algebra.specs.Scans.{HaveSameRowsOn, program_scans};
ghost use Rattle.gp_plantext.specs.Spellable.{is_spellable};
ghost use Rattle.gp_versions.specs.declared.span.Span.{Span};
ghost use Rattle.gp_sql.specs.HeldRows.{held_rows};
ghost use Rattle.gp_sql.specs.Meaning.{rows_of};
ghost use Rattle.gp_sql.specs.NamedQueries.{program_query};
ghost use Rattle.gp_sql.specs.Spelled.{HaveOwnNames, SpellsQuery, is_spelled};
ghost use Rattle.gp_sql.specs.Spelling.{with_text};
ghost use Rattle.gp_sql.specs.Sql.{With};
ghost use Rattle.gp_sql.specs.SqlCells.{sql_rows};
ghost use Rattle.gp_sql.specs.TypedQueries.{is_well_typed};
ghost use Rattle.gp_sql.specs.Types.{is_typed};
ghost use Rattle.gp_sql.specs.VersionTables.{AllSpansFit, version_tables};

/// The query of a program gives the rows of the program, over any tables of row versions that have the types of their columns: in
/// the same order where the program scans the row versions in their order, and as a bag on every environment in which each
/// table that it scans has exactly the rows of the row versions that hold the version.
pub fn queries_give_the_rows_of_programs()
    ensures listed { (tables : List Table) (spans : ℕ → List Span) (program : PlainProgram)
        → AllSpansFit tables spans → is_typed tables program ≡ true
        → rows_of (version_tables tables spans) (program_query tables program)
        ≡ sql_rows (program_meaning (held_rows spans) program) }
    ensures bags { (tables : List Table) (spans : ℕ → List Span) (env : PlainEnvironment)
        (program : PlainProgram)
        → AllSpansFit tables spans → is_typed tables program ≡ true
        → HaveSameRowsOn (program_scans program) env (held_rows spans)
        → IsPermutation (sql_rows (program_meaning env program))
        (rows_of (version_tables tables spans) (program_query tables program)) }
{}

/// The query of a program that has types has types too, so engines take it: each name is found once, and no NULL, operator or UNION ALL
/// has to guess a type.
pub fn queries_of_programs_are_typed()
    ensures { (tables : List Table) (program : PlainProgram) → is_typed tables program ≡ true
        → is_well_typed tables (program_query tables program) ≡ true }
{}

/// A text spells one query, where no two tables have the same name, and no two columns of a table, as in every catalogue.
pub fn texts_spell_one_query()
    ensures { (tables : List Table) (text : List ℕ) (query other : With) → HaveOwnNames tables
        → SpellsQuery tables query text → SpellsQuery tables other text → query ≡ other }
{}

/// The query of a program that has types and a text of its own is spelled, if its columns have names and its text fewer than
/// 2 ^ 63 bytes, as every text in memory.
pub fn queries_of_programs_are_spelled()
    ensures { (tables : List Table) (program : PlainProgram)
        → list_all (λ (table : Table). list_all (λ (column : Column). is_name column.name) table.cols) tables ≡ true
        → is_typed tables program ≡ true → is_spellable tables program ≡ true
        → length (with_text tables (program_query tables program)) < 2 ^ 63
        → is_spelled tables (program_query tables program) ≡ true }
{}
