//! Laws of the definitions that contracts cite. Each function does nothing: its postconditions are the laws.

ghost use Rattle.std.specs.Prelude.{◌≡◌, ◌⊎◌, ℕ, Bool, true, List, ◌++◌, length, map};
ghost use Rattle.std.specs.List.{AllByRecursion};
ghost use Rattle.gp_base.specs.declared.cell.Cell.TheVariants as cell;
ghost use Rattle.gp_base.specs.Annotated.{Annotated, Environment, monomials};
ghost use Rattle.gp_base.specs.Tokens.{Monomial};
ghost use Rattle.gp_algebra.specs.AnnotatedMeaning as qm;
ghost use Rattle.gp_algebra.specs.AnnotatedQueries.{Program};
ghost use Rattle.gp_algebra.specs.AnnotatedMeaning.{Derived, scanned};
ghost use Rattle.gp_algebra.specs.Plain as p;
ghost use Rattle.gp_algebra.specs.QueryForms.{HasSteps, IsAnswer, IsSomeTable, IsTableProgram, IsWellBuilt};
ghost use Rattle.gp_algebra.specs.AnnotatedQueries.{step_table};
ghost use Rattle.gp_algebra.specs.WellBuilt.{is_well_built};
ghost use Rattle.gp_prov.specs.Encoding.{encoded, encoded_row, noted};
ghost use Rattle.gp_prov.specs.ToPlain.{plain_program};

/// A plain program means the annotated one that it is made of, row for row in the same order, on every environment whose
/// rows are as wide as their tables. Its answer has the cells of the annotated rows and, with provenance, their monomials;
/// the contents of a table, and of each step, are encoded rows.
pub fn plain_programs_mean_the_annotated()
    ensures answers { (columns : ℕ → ℕ) (prov : Bool) (env : Environment Monomial)
        (program : Program)
        → ((version table : ℕ) → AllByRecursion (λ row. length row.cells ≡ columns table)
        (env version table))
        → IsWellBuilt columns program
        → p.program_meaning (encoded prov env) (plain_program columns prov program)
        ≡ map (λ (row : Derived Monomial). row.cells ++ noted prov (cell.Mono row.annotation))
        (qm.program_meaning monomials env program) }
    ensures tables { (columns : ℕ → ℕ) (prov : Bool) (env : Environment Monomial)
        (table : ℕ) (program : Program)
        → ((version table : ℕ) → AllByRecursion (λ row. length row.cells ≡ columns table)
        (env version table))
        → IsTableProgram columns table program
        → (rows : List (Annotated Monomial))
        × (p.program_meaning (encoded prov env) (plain_program columns prov program)
        ≡ map (encoded_row prov) rows)
        × (qm.program_meaning monomials env program ≡ map (scanned monomials) rows) }
    ensures steps { (columns : ℕ → ℕ) (prov : Bool) (env : Environment Monomial)
        (program : Program) (j : ℕ)
        → ((version table : ℕ) → AllByRecursion (λ row. length row.cells ≡ columns table)
        (env version table))
        → HasSteps columns program
        → (rows : List (Annotated Monomial))
        × (p.steps_meaning (encoded prov env) (plain_program columns prov program).steps
        p.no_steps j ≡ map (encoded_row prov) rows)
        × (qm.steps_meaning monomials env program.steps p.no_steps j
        ≡ map (scanned monomials) rows) }
{}

/// A plain program is well built, if its last query is an answer or the contents of a table: its steps rise and read
/// earlier steps only, its conditions are simple, and new identities are made where an INSERT appends rows alone.
pub fn plain_programs_are_well_built()
    ensures built { (columns : ℕ → ℕ) (prov : Bool) (program : Program)
        → HasSteps columns program
        → IsAnswer columns (step_table program.steps) program.last
        ⊎ IsSomeTable columns (step_table program.steps) program.last
        → is_well_built (plain_program columns prov program) ≡ true }
{}
