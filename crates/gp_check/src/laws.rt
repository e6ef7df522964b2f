//! Laws of the definitions that contracts cite. Each function does nothing: its postconditions are the laws.

ghost use Rattle.std.specs.Prelude.{◌≡◌, ◌++◌, ◌∷◌, [], ℕ, true, List, Ok};
ghost use Rattle.gp_base.specs.declared.table.Table.{Table};
ghost use Rattle.gp_grammar.specs.CommandGrammar.{IsCommand, IsScriptLine};
ghost use Rattle.gp_grammar.specs.Limits.{command_shape, line_shape, question_shape};
ghost use Rattle.gp_grammar.specs.LineReading.{ReadsLine, ReadsText};
ghost use Rattle.gp_grammar.specs.Reading.{command_of, question_of, script_line_of};
ghost use Rattle.gp_grammar.specs.QuestionGrammar.{IsQuestion};
ghost use Rattle.gp_grammar.specs.Syntax as y;
ghost use Rattle.gp_grammar.specs.Syntax.{Command, Question, ScriptLine};
ghost use Rattle.gp_check.specs.TypingRules.{TypesAre};
ghost use Rattle.gp_check.specs.Valid.{is_valid, question_is_valid, tables_are_valid};

/// A term is well typed by the rules exactly where the function gives it a type, so it has at most one.
pub fn typing_follows_the_rules()
    ensures { TypesAre }
{}

/// Every command that was read is valid, by the grammar (`derived`) and by the function that reads (`read`): its literals are
/// cells that a user can write, no select list that is written, no FROM, query or VALUES and no new table is empty, and
/// queries and VALUES are short enough to be numbered by 32 bits. So what [`crate::check`] makes of it fits a catalogue of
/// valid tables.
pub fn read_commands_are_valid()
    ensures derived { (text : List ℕ) (command : Command)
        → ReadsText IsCommand command_shape text command → is_valid command ≡ true }
    ensures read { (text : List ℕ) (command : Command)
        → command_of text ≡ Ok command → is_valid command ≡ true }
{}

/// The command of a script line that was read is valid, as the line is one command behind its session.
pub fn read_lines_are_valid()
    ensures derived { (text : List ℕ) (line : ScriptLine)
        → ReadsLine IsScriptLine line_shape text line → is_valid line.command ≡ true }
    ensures read { (text : List ℕ) (line : ScriptLine)
        → script_line_of text ≡ Ok line → is_valid line.command ≡ true }
{}

/// The query or the condition of a question that was read is valid, for [`crate::check_query`], and so are the commands of its
/// changes.
pub fn read_questions_are_valid()
    ensures derived { (text : List ℕ) (question : Question)
        → ReadsLine IsQuestion question_shape text question → question_is_valid question ≡ true }
    ensures read { (text : List ℕ) (question : Question)
        → question_of text ≡ Ok question → question_is_valid question ≡ true }
{}

/// The tables of a catalogue are valid where each is that of a valid CREATE TABLE: those of an empty catalogue are, and
/// adding such a table keeps them valid.
pub fn created_tables_are_valid()
    ensures empty { tables_are_valid [] ≡ true }
    ensures added { (tables : List Table) (table : Table) → tables_are_valid tables ≡ true
        → is_valid (y.create table) ≡ true → tables_are_valid (tables ++ table ∷ []) ≡ true }
{}
