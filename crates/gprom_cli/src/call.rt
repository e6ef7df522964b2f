//! The whole call: from the arguments of the program to the bytes written and the exit status.

ghost use Rattle.std.specs.Prelude.{◌≡◌, ◌++◌, map, string_bytes};
ghost use Rattle.gprom_cli.specs.Args.{command_of};
ghost use Rattle.gprom_cli.specs.Call.{Call};
ghost use Rattle.gprom_cli.specs.Promises.{Promises};
ghost use Rattle.gprom_cli.specs.Status.{exit_number};

use crate::execute::execute;
use crate::laws::{dumps_of_histories_are_known, scripts_have_well_formed_dumps};
use gp_ask::{
    anomaly_answers_are_true, comparisons_answer_as_made_dumps, deltas_are_differences,
    histories_are_isolated, intervals_agree_with_versions, programs_explain_their_questions,
    queries_ask_their_questions, row_versions_are_stored, serial_answers_are_true,
    statements_of_histories_do_not_stop,
};
use gp_io::{Shelf, Sink};
use gp_load::exported_sheets_load_again;
use gp_plantext::texts_are_read_again;
use gp_serial::{least_cycles_are_shortest, pair_cycles_are_first};
use gp_sql::texts_spell_one_query;
use std::alloc::Global;

/// Does all that the program does: parses the arguments (those after the program's name), reads files from `shelf`, replaces the dump of
/// `run` or the script of `load` there, writes replies, answers, a summary, a message or the page of `help` to `out`, and returns the exit status. A step that
/// fails ends the call.
///
/// | Status | Meaning |
/// |---|---|
/// | 0 | every line was answered, none was refused; or the summary was made; or the sheet was loaded; or it was help or the version |
/// | 1 | every line was answered, some were refused |
/// | 2 | the arguments are invalid |
/// | 3 | a file that is read does not exist |
/// | 4 | a file that is read cannot be read |
/// | 5 | the dump of `run` or the script of `load` cannot be written, or the output reported a write error |
/// | 6 | a script, questions or a sheet are longer than 16,777,216 bytes, or a dump is longer than 67,108,864 |
/// | 7 | the dump is not well formed |
/// | 8 | memory ran out |
/// | 9 | the sheet has a fault |
pub fn gprom<H: Shelf, K: Sink>(alloc: Global, args: &[String], shelf: &mut H, out: &mut K) -> u8
    ensures { (call : Call) × (call.command ≡ command_of (map string_bytes args.now))
        × (H.events shelf.new ≡ H.events shelf.old ++ call.events)
        × (call.sink ≡ K.state out.old) × (call.sink_after ≡ K.state out.new)
        × (result ≡ exit_number call.status) × Promises call }
{
    // What is promised of dumps, of the dumps of scripts, and of programs rests on these laws. The calls do nothing.
    texts_are_read_again();
    texts_spell_one_query();
    scripts_have_well_formed_dumps();
    dumps_of_histories_are_known();
    programs_explain_their_questions();
    queries_ask_their_questions();
    row_versions_are_stored();
    exported_sheets_load_again();
    comparisons_answer_as_made_dumps();
    histories_are_isolated();
    serial_answers_are_true();
    anomaly_answers_are_true();
    statements_of_histories_do_not_stop();
    intervals_agree_with_versions();
    deltas_are_differences();
    least_cycles_are_shortest();
    pair_cycles_are_first();
    execute(alloc, args, shelf, out).number()
}
