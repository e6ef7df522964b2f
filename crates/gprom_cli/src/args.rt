//! The arguments of the program.

ghost use Rattle.std.specs.Prelude.{◌≡◌, IfOk, map, nat_le, string_bytes};
ghost use Rattle.std.specs.List.{list_all};
ghost use Rattle.std.specs.Option.{option_map};
ghost use Rattle.std.specs.Str.{bytes_eq};
ghost use Rattle.gprom_cli.specs.Args.{are_two_names, are_words, asks_help, asks_version, command_of, command_of_names, command_of_number, command_of_table, command_of_three, command_of_word, format_of, is_input, is_word, rounds_of, table_name};
ghost use Rattle.gprom_cli.specs.Views.{command_view};
ghost use Rattle.gprom_cli.specs.Words.{command_of_found, command_of_others, command_of_parts, words_view};

use crate::generated::MAX_ROUNDS;
use crate::words::{Words, read_words};
use gp_ask::Format;
use gp_base::{Name, NoMemory, is_name};
use std::alloc::Global;

/// What the arguments ask for, with the names of the files.
#[derive(Drop)]
pub enum Command<'a> {
    /// `run SCRIPT DUMP`: the script is read, and the dump is replaced.
    Run {
        /// The name of the script.
        script: &'a str,
        /// The name of the dump.
        dump: &'a str,
    },
    /// `ask DUMP QUESTIONS`, `export DUMP QUESTIONS`, with or without `names` behind them, and `sql DUMP QUESTIONS`: both files are read.
    Ask {
        /// How the answers are written: as text by `ask`, as CSV by `export`, with the names of columns where it says `names`, and as SQL by
        /// `sql`.
        format: Format,
        /// The name of the dump.
        dump: &'a str,
        /// The name of the questions; `-` is the standard input.
        questions: &'a str,
    },
    /// `gen N`: no file is read or replaced.
    Generate {
        /// The number of rounds, from 1 to [`MAX_ROUNDS`].
        rounds: u32,
    },
    /// `load CSV TABLE SCRIPT`: the sheet is read, and the script is replaced.
    Load {
        /// The name of the sheet.
        csv: &'a str,
        /// The name of the table.
        table: Name,
        /// The name of the script.
        script: &'a str,
    },
    /// `help`: no file is read or replaced.
    Help,
    /// `version`: no file is read or replaced.
    Version,
}

/// Whether the argument is a word: it is not empty, and no option.
fn is_word(argument: &str) -> bool
    ensures { result ≡ is_word argument.now }
{
    match argument.as_bytes() {
        [] => false,
        [first, ..] => *first != b'-',
    }
}

/// Whether all arguments are words.
fn all_words(args: &[String]) -> bool
    ensures { result ≡ list_all is_word (map string_bytes args.now) }
{
    let mut rest = args;
    while let [first, others @ ..] = rest {
        if !is_word(first.as_str()) {
            return false;
        }
        rest = others;
    }
    true
}

/// Whether the two texts are the same.
fn is_same(argument: &str, word: &str) -> bool
    ensures { result ≡ bytes_eq argument.now word.now }
{
    argument == word
}

/// Whether the argument is the standard input.
fn is_input(argument: &str) -> bool
    ensures { result ≡ is_input argument.now }
{
    is_same(argument, "-")
}

/// Whether all arguments are words, of which the third may be the standard input.
fn are_words(args: &[String]) -> bool
    ensures { result ≡ are_words (map string_bytes args.now) }
{
    match args {
        [word, first, second, others @ ..] => is_word(word)
            && is_word(first)
            && (is_word(second) || is_input(second))
            && all_words(others),
        _ => all_words(args),
    }
}

fn asks_help(word: &str) -> bool
    ensures { result ≡ asks_help word.now }
{
    is_same(word, "help") || is_same(word, "--help") || is_same(word, "-h")
}

fn asks_version(word: &str) -> bool
    ensures { result ≡ asks_version word.now }
{
    is_same(word, "version") || is_same(word, "--version") || is_same(word, "-V")
}

/// The command of a word that stands alone, if it is one.
fn command_of_word<'a>(word: &str) -> Option<Command<'a>>
    ensures { option_map command_view result ≡ command_of_word word.now }
{
    if asks_help(word) {
        Some(Command::Help)
    } else if asks_version(word) {
        Some(Command::Version)
    } else {
        None
    }
}

/// How a word asks for answers, if it does.
fn format_of(word: &str) -> Option<Format>
    ensures { result ≡ format_of word.now }
{
    if is_same(word, "ask") {
        Some(Format::Text)
    } else if is_same(word, "export") {
        Some(Format::Csv)
    } else if is_same(word, "sql") {
        Some(Format::Sql)
    } else {
        None
    }
}

/// Whether what is read and what is replaced have two names: else a script would be lost to its dump. Two names of one file, `a` and `./a`, are two.
fn are_two_names(read: &str, replaced: &str) -> bool
    ensures { result ≡ are_two_names read.now replaced.now }
{
    !is_same(read, replaced)
}

/// The command of a word, if it is one, and two names, of which that of questions may be the standard input.
fn command_of_names<'a>(word: &str, first: &'a str, second: &'a str) -> Option<Command<'a>>
    ensures { option_map command_view result ≡ command_of_names word.now first.now second.now }
{
    if is_same(word, "run") && is_word(second) && are_two_names(first, second) {
        return Some(Command::Run {
            script: first,
            dump: second,
        });
    }
    match format_of(word) {
        Some(format) => Some(Command::Ask {
            format,
            dump: first,
            questions: second,
        }),
        None => None,
    }
}

/// Whether a script may have this many rounds.
fn are_few(rounds: u32) -> bool
    ensures { result ≡ nat_le rounds MAX_ROUNDS }
{
    rounds <= MAX_ROUNDS
}

/// The number of rounds that a word writes: digits of which the first is not 0, and a number of at most [`MAX_ROUNDS`].
fn rounds_of(word: &str) -> Option<u32>
    ensures { result ≡ rounds_of word.now }
{
    let [first, ..] = word.as_bytes() else {
        return None;
    };
    if *first == b'0' || *first == b'+' {
        return None;
    }
    match word.parse::<u32>() {
        Ok(rounds) if are_few(rounds) => Some(rounds),
        _ => None,
    }
}

/// The command of a word, if it is one, and a number.
fn command_of_number<'a>(word: &str, number: &str) -> Option<Command<'a>>
    ensures { option_map command_view result ≡ command_of_number word.now number.now }
{
    if !is_same(word, "gen") {
        return None;
    }
    match rounds_of(number) {
        Some(rounds) => Some(Command::Generate { rounds }),
        None => None,
    }
}

/// The name of a table that a word writes, with letters of either case.
fn table_name(alloc: Global, word: &str) -> Result<Option<Name>, NoMemory>
    ensures { IfOk result (λ name. name ≡ table_name word.now) }
{
    let name = word.as_bytes().to_ascii_lowercase(alloc)?;
    if is_name(&name) {
        Ok(Some(Name::new(alloc, &name)?))
    } else {
        Ok(None)
    }
}

/// The command of a word, if it is one, a name, a table and a name.
fn command_of_table<'a>(
    alloc: Global,
    word: &str,
    csv: &'a str,
    table: &str,
    script: &'a str,
) -> Result<Option<Command<'a>>, NoMemory>
    ensures { IfOk result (λ command. option_map command_view command
        ≡ command_of_table word.now csv.now table.now script.now) }
{
    if !is_same(word, "load") || !are_two_names(csv, script) {
        return Ok(None);
    }
    match table_name(alloc, table)? {
        Some(table) => Ok(Some(Command::Load { csv, table, script })),
        None => Ok(None),
    }
}

/// The command of a word, if it is one, and three more: the last of an export may be the word `names`.
fn command_of_three<'a>(
    alloc: Global,
    word: &str,
    first: &'a str,
    second: &'a str,
    third: &'a str,
) -> Result<Option<Command<'a>>, NoMemory>
    ensures { IfOk result (λ command. option_map command_view command
        ≡ command_of_three word.now first.now second.now third.now) }
{
    if is_same(word, "export") && is_same(third, "names") {
        return Ok(Some(Command::Ask {
            format: Format::Named,
            dump: first,
            questions: second,
        }));
    }
    command_of_table(alloc, word, first, second, third)
}

/// The command of two to four words.
fn command_of_parts<'a>(
    alloc: Global,
    word: &str,
    first: &'a str,
    second: Option<&'a str>,
    third: Option<&'a str>,
) -> Result<Option<Command<'a>>, NoMemory>
    ensures { IfOk result (λ command. option_map command_view command
        ≡ command_of_parts word.now first.now (option_map (λ s. s.now) second.entry)
        (option_map (λ s. s.now) third.entry)) }
{
    match second {
        None => Ok(command_of_number(word, first)),
        Some(second) => match third {
            None => Ok(command_of_names(word, first, second)),
            Some(third) => command_of_three(alloc, word, first, second, third),
        },
    }
}

/// The command of the words, if they were read.
fn command_of_found(
    alloc: Global,
    words: Option<Words<'_>>,
) -> Result<Option<Command<'_>>, NoMemory>
    ensures { IfOk result (λ command. option_map command_view command
        ≡ command_of_found (option_map words_view words.entry)) }
{
    match words {
        Some(words) => command_of_parts(alloc, words.word, words.first, words.second, words.third),
        None => Ok(None),
    }
}

/// The command of arguments that are no word alone.
#[tactic(auto, using(crate::proofs::WordsLemmas::words_command))]
fn command_of_others(alloc: Global, args: &[String]) -> Result<Option<Command<'_>>, NoMemory>
    ensures { IfOk result (λ command. option_map command_view command
        ≡ command_of_others (map string_bytes args.now)) }
{
    if !are_words(args) {
        return Ok(None);
    }
    let command = command_of_found(alloc, read_words(alloc, args)?)?;
    Ok(command)
}

/// The command that the arguments ask for, or `None` where they are invalid: `help` or `version`, also as an option; `run`, `ask`,
/// `export` or `sql` and two names that are not empty and do not begin with a hyphen, but that of questions may be `-`, and behind those of an
/// export the word `names`; `gen` and a number from 1 to [`MAX_ROUNDS`]; or `load` and three such names, of which the second is that of a table ([`is_name`], in
/// letters of either case). What `run` and `load` replace has another name than what they read.
/// Running out of memory is the only error.
pub(crate) fn parse(alloc: Global, args: &[String]) -> Result<Option<Command<'_>>, NoMemory>
    ensures { IfOk result (λ command. option_map command_view command
        ≡ command_of (map string_bytes args.now)) }
{
    match args {
        [word] => Ok(command_of_word(word)),
        _ => command_of_others(alloc, args),
    }
}
