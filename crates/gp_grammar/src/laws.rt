//! The laws of the grammar, each as a public function that does nothing.

ghost use Rattle.gp_grammar.specs.Grammar.{IsTerm};
ghost use Rattle.gp_grammar.specs.CommandGrammar.{IsCommand, IsScriptLine};
ghost use Rattle.gp_grammar.specs.QuestionGrammar.{IsQuestion};
ghost use Rattle.gp_grammar.specs.Limits.{command_shape, line_shape, question_shape};
ghost use Rattle.gp_grammar.specs.Laws.{CanonicalIsDerived, CanonicalIsParsed, CanonicalIsProper, CanonicalIsShallow, CanonicalTextIsOneLine, CanonicalTextIsRead, CanonicalTextIsUtf8, CapsFairly, ChangesAreStatements, IsUnambiguous, ParsesExactly, ReadsLinesExactly, ReadsLinesOnce, ReadsTextsExactly, RefusesLinesExactly, RefusesTextsExactly, StopsExactly, term_shape};
ghost use Rattle.gp_grammar.specs.Capping.{capped, capped_command, capped_line, capped_question};
ghost use Rattle.gp_grammar.specs.Parsing.{term};
ghost use Rattle.gp_grammar.specs.CommandParsing.{command, script_line};
ghost use Rattle.gp_grammar.specs.QuestionParsing.{question};

/// The parser of terms takes the lines that the grammar derives, stops on the others at the place of the fault, and
/// within the limits there is one way to derive a line. Capping changes no term within the limits and no refusal.
pub fn terms_are_parsed()
    ensures complete { ParsesExactly term IsTerm capped term_shape }
    ensures place { StopsExactly term IsTerm capped term_shape }
    ensures unique { IsUnambiguous term IsTerm capped term_shape }
    ensures fair { CapsFairly term IsTerm capped term_shape }
{}

/// The parser of commands takes, refuses and caps as that of terms does.
pub fn commands_are_parsed()
    ensures complete { ParsesExactly command IsCommand capped_command command_shape }
    ensures place { StopsExactly command IsCommand capped_command command_shape }
    ensures unique { IsUnambiguous command IsCommand capped_command command_shape }
    ensures fair { CapsFairly command IsCommand capped_command command_shape }
{}

/// The parser of script lines takes, refuses and caps as that of terms does.
pub fn script_lines_are_parsed()
    ensures complete { ParsesExactly script_line IsScriptLine capped_line line_shape }
    ensures place { StopsExactly script_line IsScriptLine capped_line line_shape }
    ensures unique { IsUnambiguous script_line IsScriptLine capped_line line_shape }
    ensures fair { CapsFairly script_line IsScriptLine capped_line line_shape }
{}

/// The parser of questions takes, refuses and caps as that of terms does.
pub fn questions_are_parsed()
    ensures complete { ParsesExactly question IsQuestion capped_question question_shape }
    ensures place { StopsExactly question IsQuestion capped_question question_shape }
    ensures unique { IsUnambiguous question IsQuestion capped_question question_shape }
    ensures fair { CapsFairly question IsQuestion capped_question question_shape }
{}

/// A text is read as a command exactly where its lexemes are derived and pass every test, and it is refused exactly for
/// the first fault in the order of the tests.
pub fn command_texts_are_read()
    ensures reads { ReadsTextsExactly command IsCommand capped_command command_shape }
    ensures refuses { RefusesTextsExactly command IsCommand capped_command command_shape }
{}

/// A text is read as a line of a script, or refused, as it is as a command; but such lines have a greatest length.
pub fn script_lines_are_read()
    ensures reads { ReadsLinesExactly script_line IsScriptLine capped_line line_shape }
    ensures refuses { RefusesLinesExactly script_line IsScriptLine capped_line line_shape }
{}

/// A text is read as a question, or refused, as it is as a line of a script (`reads`, `refuses`). The command of a change is a
/// statement (`statement`).
pub fn questions_are_read()
    ensures reads { ReadsLinesExactly question IsQuestion capped_question question_shape }
    ensures refuses { RefusesLinesExactly question IsQuestion capped_question question_shape }
    ensures statement { ChangesAreStatements }
{}

/// The numbered lines of a script, or of a file of questions, are read in exactly one way.
pub fn lines_are_read_once()
    ensures scripts { ReadsLinesOnce IsScriptLine line_shape }
    ensures questions { ReadsLinesOnce IsQuestion question_shape }
{}

/// The canonical lexemes of a command that the grammar derives are derived as this command and, within the limits,
/// parsed as it. They can be written in a line again, where the lexemes were of one.
pub fn canonical_lexemes_are_parsed()
    ensures derived { CanonicalIsDerived }
    ensures parsed { CanonicalIsParsed }
    ensures shallow { CanonicalIsShallow }
    ensures proper { CanonicalIsProper }
{}

/// The canonical text of a command that was read is read as this command again. It is UTF-8 and one line.
pub fn canonical_texts_are_read()
    ensures again { CanonicalTextIsRead }
    ensures utf8 { CanonicalTextIsUtf8 }
    ensures one_line { CanonicalTextIsOneLine }
{}
