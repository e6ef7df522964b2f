//! Laws of the forms of lines: a text is read exactly where it is a text of what is read, and is UTF-8 without a line feed.

ghost use Rattle.std.specs.Prelude.{◌≡◌, ◌↔◌, ◌==◌, ◌<◌, ◌≤◌, ℕ, Bool, List, Option, Some, Ok, true, false};
ghost use Rattle.std.specs.List.{list_all, list_any};
ghost use Rattle.std.specs.Str.{is_utf8};
ghost use Rattle.gp_base.specs.declared.cell.Cell.{Cell};
ghost use Rattle.gp_base.specs.declared.table.Table.{Table};
ghost use Rattle.gp_base.specs.UserCells.{is_user_cell};
ghost use Rattle.gp_base.specs.Names.{is_name};
ghost use Rattle.gp_grammar.specs.Reading.{script_line_of};
ghost use Rattle.gp_grammar.specs.Syntax as y;
ghost use Rattle.gp_versions.specs.declared.span.Span.{Span};
ghost use Rattle.gp_machine.specs.Entries.{Entry, line_of, session_of};
ghost use Rattle.gp_log.specs.Discipline.{Does, Loses, Said, said_by};
ghost use Rattle.gp_dumpline.specs.Forms.{HasForm, IsVersion, LogLine, count_of, header_of, log_line_of, said_of, section_of, span_of};
ghost use Rattle.gp_dumpline.specs.Numbers.{beyond_versions};
ghost use Rattle.gp_dumpline.specs.Rows.{IsRowLine};
ghost use Rattle.gp_dumpline.specs.Said.{IsSaid};
ghost use Rattle.gp_dumpline.specs.Texts.{count_text, end_text, entry_text, header, log_line_text, said_text, section_text, span_text};
ghost use Rattle.gp_dumpline.specs.Laws.{IsOneLine};

use gp_base::MAX_SPANS;
use gp_grammar::MAX_SESSION;
use gp_log::{MAX_ENTRIES, MAX_LINE};

/// Each form of line is the inverse of its text: the text of a value within its limits is read as the value, and only this
/// text is. For a row line this holds of versions below the greatest number of 32 bits, which stands for all above it: a row line
/// whose versions are numbers of any length is read too, and no other text is.
pub fn forms_are_texts()
    ensures header_again { (second : Bool) → header_of (header second) ≡ Some second }
    ensures header_taken { (text : List ℕ) (second : Bool) → header_of text ≡ Some second
        → text ≡ header second }
    ensures count_again { (count : ℕ) → count ≤ MAX_ENTRIES
        → count_of (count_text count) ≡ Some count }
    ensures count_taken { (text : List ℕ) (count : ℕ) → count_of text ≡ Some count
        → (text ≡ count_text count) × (count ≤ MAX_ENTRIES) }
    ensures log_line_again { (line session : ℕ) (said : List ℕ) → 1 ≤ line → line ≤ MAX_LINE
        → 1 ≤ session → session ≤ MAX_SESSION → log_line_of (log_line_text line session said)
        ≡ Some (record { line = line; session = session; said = said }) }
    ensures log_line_taken { (text : List ℕ) (line : LogLine) → log_line_of text ≡ Some line
        → (text ≡ log_line_text line.line line.session line.said) × (1 ≤ line.line)
        × (line.line ≤ MAX_LINE) × (1 ≤ line.session) × (line.session ≤ MAX_SESSION) }
    ensures said_taken { (text : List ℕ) (said : Said) → said_of text ≡ Some said
        → text ≡ said_text said }
    ensures section_again { (name : List ℕ) (rows : ℕ) → rows ≤ MAX_SPANS
        → section_of name (section_text name rows) ≡ Some rows }
    ensures section_taken { (name text : List ℕ) (rows : ℕ) → section_of name text ≡ Some rows
        → (text ≡ section_text name rows) × (rows ≤ MAX_SPANS) }
    ensures span_again { (span : Span) → HasForm span → span_of (span_text span) ≡ Some span }
    ensures span_taken { (text : List ℕ) (span : Span) → span_of text ≡ Some span
        → span.from < beyond_versions → IsVersion span.to
        → (text ≡ span_text span) × HasForm span }
    ensures row_again { (text : List ℕ) (row : List Cell) → IsRowLine text row
        → (span : Span) × (span_of text ≡ Some span) × (span.row ≡ row) }
    ensures row_taken { (text : List ℕ) (span : Span) → span_of text ≡ Some span
        → IsRowLine text span.row }
{}

/// What a log line can say is read from its text, and nothing else is. The command of a script line is read again from its
/// canonical text, and so is what the other log lines say. A table that a log line creates has a name.
pub fn said_lines_are_read_again()
    ensures said { (said : Said) → (said_of (said_text said) ≡ Some said) ↔ IsSaid said }
    ensures command { (bytes : List ℕ) (line : y.ScriptLine) → script_line_of bytes ≡ Ok line
        → said_of (said_text (Does line.command)) ≡ Some (Does line.command) }
    ensures begin { (read_committed : Bool) → said_of (said_text (Does (y.begin read_committed)))
        ≡ Some (Does (y.begin read_committed)) }
    ensures commit { said_of (said_text (Does y.Command.commit))
        ≡ Some (Does y.Command.commit) }
    ensures rollback { said_of (said_text (Does y.rollback)) ≡ Some (Does y.rollback) }
    ensures lost { said_of (said_text Loses) ≡ Some Loses }
    ensures name { (text : List ℕ) (table : Table) → said_of text ≡ Some (Does (y.create table))
        → is_name table.name ≡ true }
{}

/// The lines of a dump are UTF-8 and have no line feed, where a log line says what it is read as, and where the cells of a
/// row are those of users.
pub fn lines_are_one_line()
    ensures header { (second : Bool) → IsOneLine (header second) }
    ensures count { (count : ℕ) → count ≤ MAX_ENTRIES → IsOneLine (count_text count) }
    ensures entry { (entry : Entry) → line_of entry ≤ MAX_LINE → session_of entry ≤ MAX_SESSION
        → said_of (said_text (said_by entry)) ≡ Some (said_by entry)
        → IsOneLine (entry_text entry) }
    ensures section { (name : List ℕ) (rows : ℕ) → is_name name ≡ true → rows ≤ MAX_SPANS
        → IsOneLine (section_text name rows) }
    ensures span { (span : Span) → HasForm span → list_all is_user_cell span.row ≡ true
        → IsOneLine (span_text span) }
    ensures end { IsOneLine end_text }
{}
