//! Laws of the definitions that contracts cite. Each function does nothing: its postconditions are the laws.

ghost use Rattle.std.specs.Prelude.{◌≡◌, Bool, ℕ, List, None, true};
ghost use Rattle.gp_grammar.specs.Syntax as y;
ghost use Rattle.gp_algebra.specs.Fitting.{select_fits};
ghost use Rattle.gp_algebra.specs.Statements.{Select};
ghost use Rattle.gp_machine.specs.Entries.{Entry};
ghost use Rattle.gp_machine.specs.Questions.{log_refusal};
ghost use Rattle.gp_log.specs.LogFacts.{tables_in};
ghost use Rattle.gp_log.specs.LogFitting.{statements_fit};
ghost use Rattle.gp_merge.specs.Normal.{is_normal};
ghost use Rattle.gp_plantext.specs.Spelling.{Spells, program_text};
ghost use Rattle.gp_plantext.specs.Spellable.{is_spellable};
ghost use Rattle.gp_reenact.specs.Programs.{merged_at};
ghost use Rattle.gp_explain.specs.Explained.{Explains};
ghost use Rattle.gp_explain.specs.ExplainedLines.{text_lines};
ghost use Rattle.gp_explain.specs.LineTexts.{AreLines};
ghost use Rattle.gp_explain.specs.Numbers.{ProgramInRange};
ghost use Rattle.gp_explain.specs.Shapes.{AreNamed};
ghost use Rattle.gp_explain.specs.SmallLogs.{HasFewTables, IsSmall};

/// The merged program of a state has a text, if all statements and the query fit tables that have names, and its numbers are in
/// the ranges of their types, as those of every program of the code are.
pub fn merged_programs_are_spellable()
    ensures { (entries : List Entry) (prov : Bool) (point : y.Point) (select : Select)
        → AreNamed (tables_in entries) → statements_fit (tables_in entries) entries ≡ true
        → select_fits (tables_in entries) select ≡ true → log_refusal entries point ≡ None
        → ProgramInRange (merged_at prov entries point select)
        → is_spellable (tables_in entries) (merged_at prov entries point select) ≡ true }
{}

/// In a log of few lines, whose tables have few columns and whose statements join few tables, the numbers of every merged program
/// have 32 bits (`range`), so it has a text, whatever becomes of a call, and the text explains its state (`explained`).
pub fn small_logs_are_explained()
    ensures range { (entries : List Entry) (prov : Bool) (point : y.Point) (select : Select)
        → IsSmall entries → HasFewTables select → statements_fit (tables_in entries) entries ≡ true
        → select_fits (tables_in entries) select ≡ true → log_refusal entries point ≡ None
        → ProgramInRange (merged_at prov entries point select) }
    ensures explained { (entries : List Entry) (prov : Bool) (point : y.Point) (select : Select)
        → IsSmall entries → AreNamed (tables_in entries) → HasFewTables select
        → statements_fit (tables_in entries) entries ≡ true
        → select_fits (tables_in entries) select ≡ true → log_refusal entries point ≡ None
        → Explains entries point select prov
        (program_text (tables_in entries) (merged_at prov entries point select)) }
{}

/// The text of the merged program of a state explains the state (`explained`): on every database of past versions the program gives
/// the rows of the query over the state that the statements lead to, with provenance their monomials too. Nothing in it is left to
/// merge (`normal`). This joins the laws of composed programs, of plain ones and of merged ones.
pub fn texts_explain_states()
    ensures normal { (entries : List Entry) (prov : Bool) (point : y.Point) (select : Select)
        → statements_fit (tables_in entries) entries ≡ true
        → select_fits (tables_in entries) select ≡ true → log_refusal entries point ≡ None
        → is_normal (merged_at prov entries point select) ≡ true }
    ensures explained { (entries : List Entry) (prov : Bool) (point : y.Point) (select : Select)
        → statements_fit (tables_in entries) entries ≡ true
        → select_fits (tables_in entries) select ≡ true → log_refusal entries point ≡ None
        → (text : List ℕ) → Spells (tables_in entries) (merged_at prov entries point select) text
        → Explains entries point select prov text }
{}

/// A text that explains a state is its lines, each with a line feed behind it.
pub fn explained_texts_are_lines()
    ensures { (entries : List Entry) (prov : Bool) (point : y.Point) (select : Select)
        (text : List ℕ) → Explains entries point select prov text
        → AreLines (text_lines text) text }
{}
