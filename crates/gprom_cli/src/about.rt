//! What the program says of itself: the usage line, the page of `help`, and its version.

ghost use Rattle.std.specs.Prelude.{◌≡◌, ◌++◌, IfOk, string_bytes};
ghost use Rattle.gprom_cli.specs.Call.{WritesOutput, help_text, usage_text, version_line, version_text};

use crate::output::write_output;
use crate::status::Status;
use gp_base::NoMemory;
use gp_io::Sink;
use std::alloc::Global;

/// The version of the crate.
pub const VERSION: &str = "0.6.0";

/// The usage line.
const USAGE: &str =
    "usage: gprom run SCRIPT DUMP, gprom ask DUMP QUESTIONS, gprom gen N, gprom load CSV TABLE SCRIPT, gprom export DUMP QUESTIONS [names], gprom sql DUMP QUESTIONS, gprom help\n";

/// The page of `help`, behind the usage line.
pub const HELP: &str = "
gprom keeps the complete history of a small database in a file, the dump, which answers
what any past transaction saw, where each row came from, and what would have happened
without one of the statements.

Commands:
  gprom run SCRIPT DUMP
      Runs the lines of SCRIPT, writes their history to DUMP, and a reply to each line
      to standard output.
  gprom ask DUMP QUESTIONS
      Writes an answer to each line of QUESTIONS. No file is changed.
  gprom export DUMP QUESTIONS [names]
      Answers as CSV; with the word names behind them, columns have the names of the query.
  gprom sql DUMP QUESTIONS
      Writes the row versions and the questions as a script in SQL for other engines.
  gprom load CSV TABLE SCRIPT
      Writes a script that creates TABLE with the rows of a sheet.
  gprom gen N
      Tests itself with N rounds of transactions, 1 to 400, and writes a summary.
  gprom help, gprom version
      This page; the version. Also --help and -h; --version and -V.

Files:
  SCRIPT     a line for each statement, behind the name of its session:
             s1: UPDATE acct SET bal = bal - 30 WHERE owner = 'Ann'
  DUMP       written by run: the accepted lines, and every version of every row
  QUESTIONS  a question a line; - is standard input, and ./- a file of that name
  CSV        a sheet, whose first record has the names of the columns

Questions, where QUERY is a SELECT:
  TRANSACTIONS, LOG 2, CHANGES 2 1, CONFLICTS 2, VERSIONS OF acct, HISTORY OF acct
  AS OF 3 QUERY, REENACT 2 AFTER 1 QUERY, REENACT 2 COMMIT QUERY, SAW 2 AFTER 1 QUERY
  EXPLAIN, PROVENANCE OF, VALUE IN COUNT OF or WITHOUT i1.1 OF before AS OF or REENACT
  WHATIF DROP 2 1 OF AS OF 3 QUERY, DIFF AS OF 2 TO AS OF 3 QUERY, CAUSES OF AS OF 3 QUERY
  WHEN QUERY: in which versions each row is an answer.
  SERIAL: whether the transactions could have run one after another.
  ANOMALIES: what kept them from it, by name: lost updates, read and write skew.
  CHECK: whether DUMP is what its lines make. Ask this first of a dump from others.

Exit status:
  0  done                               5  a file or the output cannot be written
  1  a line was refused                 6  a file is too long
  2  the arguments are invalid          7  the dump is not well formed
  3  a file does not exist              8  out of memory
  4  a file cannot be read              9  the sheet has a fault

Example:
  $ cat pay.script
  s1: CREATE TABLE acct (owner TEXT, bal INT)
  s1: BEGIN
  s1: INSERT INTO acct VALUES ('Ann', 100)
  s1: COMMIT
  $ gprom run pay.script pay.dump
  1 created acct
  2 begin 1 at 0
  3 wrote 1
  4 committed 1 as 1
  $ echo 'PROVENANCE OF AS OF 1 SELECT * FROM acct' | gprom ask pay.dump -
  1 rows 1
    'Ann', 100 : i1.1.1
";

/// The usage line.
fn usage() -> &'static str
    ensures { result.now ≡ usage_text }
{
    USAGE
}

/// Writes the usage line, since the arguments are invalid.
pub(crate) fn write_usage<K: Sink>(out: &mut K) -> Status
    ensures { WritesOutput usage_text Status.Usage (K.state out.old) (K.state out.new) result }
{
    write_output(out, usage().as_bytes(), Status::Usage)
}

/// Two texts, one after the other.
fn joined(alloc: Global, first: &str, second: &str) -> Result<String, NoMemory>
    ensures { IfOk result (λ text. string_bytes text ≡ first.now ++ second.now) }
{
    Ok(format!(in alloc; "{first}{second}")?)
}

/// Writes the usage line and the page of `help`.
pub(crate) fn write_help<K: Sink>(alloc: Global, out: &mut K) -> Status
    ensures { WritesOutput help_text Status.Done (K.state out.old) (K.state out.new) result }
{
    match joined(alloc, usage(), HELP) {
        Ok(page) => write_output(out, page.as_bytes(), Status::Done),
        Err(NoMemory) => Status::OutOfMemory,
    }
}

/// A line with the name and a version of the program.
fn version_line(alloc: Global, version: &str) -> Result<String, NoMemory>
    ensures { IfOk result (λ text. string_bytes text ≡ version_line version.now) }
{
    Ok(format!(in alloc; "gprom {version}\n")?)
}

/// Writes the version.
pub(crate) fn write_version<K: Sink>(alloc: Global, out: &mut K) -> Status
    ensures { WritesOutput version_text Status.Done (K.state out.old) (K.state out.new) result }
{
    match version_line(alloc, VERSION) {
        Ok(line) => write_output(out, line.as_bytes(), Status::Done),
        Err(NoMemory) => Status::OutOfMemory,
    }
}
