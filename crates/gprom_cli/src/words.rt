//! The arguments as words, read by clap.

ghost use Rattle.std.specs.Prelude.{◌≡◌, IfOk, true, map, string_bytes, codes, Some, None, List, ℕ};
ghost use Rattle.std.specs.Option.{option_map};
ghost use Rattle.clap.specs.Words.{app_of, first_value, found_of, kind_of};
ghost use Rattle.gprom_cli.specs.Args.{are_words};
ghost use Rattle.gprom_cli.specs.Words.{command_line, words_of, words_view};

use clap::error::ErrorKind;
use clap::{Arg, ArgMatches, Command, Error};
use gp_base::NoMemory;
use std::alloc::{AllocError, Global};

/// Two words, and two more that may be missing.
#[derive(Clone, Copy)]
pub(crate) struct Words<'a> {
    /// The name of the command.
    pub(crate) word: &'a str,
    /// The first name, or a number.
    pub(crate) first: &'a str,
    /// The second name, or that of a table.
    pub(crate) second: Option<&'a str>,
    /// The third name.
    pub(crate) third: Option<&'a str>,
}

// The words are told apart by their number and the first of them, so clap sees one simple command, and neither asks for help nor prints it.
/// The command line: four positional arguments, of which the last two may be missing.
fn command_line<'a>(alloc: Global) -> Result<Command<'a>, AllocError>
    ensures { IfOk result (λ command. app_of command ≡ command_line) }
{
    let command = Arg::new(alloc, "command").required(true);
    let first = Arg::new(alloc, "first").required(true);
    let second = Arg::new(alloc, "second");
    let third = Arg::new(alloc, "third");
    Command::new(alloc, "gprom")
        .no_binary_name(true)
        .disable_help_flag(true)
        .disable_version_flag(true)
        .arg(command)?
        .arg(first)?
        .arg(second)?
        .arg(third)
}

/// The words that a parse found.
fn found<'a>(matches: &ArgMatches<'a>) -> Option<Words<'a>>
    ensures some { (word first : List ℕ)
        → first_value (found_of matches.now) (codes "command") ≡ Some word
        → first_value (found_of matches.now) (codes "first") ≡ Some first
        → option_map words_view result
        ≡ Some (
          word,
          first,
          first_value (found_of matches.now) (codes "second"),
          first_value (found_of matches.now) (codes "third"),
        ) }
{
    match (matches.get_str("command"), matches.get_str("first")) {
        (Some(word), Some(first)) => Some(Words {
            word,
            first,
            second: matches.get_str("second"),
            third: matches.get_str("third"),
        }),
        _ => None,
    }
}

/// No words, where the parse failed for another cause than memory.
fn refused<'a>(error: &Error) -> Result<Option<Words<'a>>, NoMemory>
    ensures none { IfOk result (λ words. words ≡ None) }
    ensures memory { kind_of error.now ≡ ErrorKind.OutOfMemory → IfOk result (λ words. ⊥) }
{
    match error.kind() {
        ErrorKind::OutOfMemory => Err(NoMemory),
        _ => Ok(None),
    }
}

/// Two to four words, or none where there are fewer or more. Running out of memory is the only error.
pub(crate) fn read_words<'a>(
    alloc: Global,
    args: &'a [String],
) -> Result<Option<Words<'a>>, NoMemory>
    requires { are_words (map string_bytes args.now) ≡ true }
    ensures { IfOk result (λ words. option_map words_view words
        ≡ words_of (map string_bytes args.now)) }
{
    match command_line(alloc)?.try_get_matches_from(args) {
        Ok(matches) => Ok(found(&matches)),
        Err(error) => refused(&error),
    }
}
