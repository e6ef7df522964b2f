//! Doing what the arguments ask for.

ghost use Rattle.std.specs.Prelude.{IfSome, map, string_bytes};
ghost use Rattle.std.specs.Option.{option_map};
ghost use Rattle.gprom_cli.specs.Args.{command_of};
ghost use Rattle.gprom_cli.specs.Steps.{Ends};
ghost use Rattle.gprom_cli.specs.Views.{HasFewRounds, command_view};

use crate::about::{write_help, write_usage, write_version};
use crate::args::{Command, parse};
use crate::ask::ask;
use crate::load::load;
use crate::run::run;
use crate::status::Status;
use crate::summary::generate;
use gp_base::NoMemory;
use gp_io::{Shelf, Sink};
use std::alloc::Global;

/// Does what a command asks for, or writes the usage line.
fn execute_command<H: Shelf, K: Sink>(
    alloc: Global,
    command: Option<Command<'_>>,
    shelf: &mut H,
    out: &mut K,
) -> Status
    requires { IfSome command HasFewRounds }
    ensures { Ends (option_map command_view command.entry) (H.events shelf.old) (H.events shelf.new)
        (K.state out.old) (K.state out.new) result }
{
    match command {
        Some(Command::Run { script, dump }) => run(alloc, script, dump, shelf, out),
        Some(
            Command::Ask {
                format,
                dump,
                questions,
            },
        ) => ask(alloc, format, dump, questions, shelf, out),
        Some(Command::Generate { rounds }) => generate(alloc, rounds, out),
        Some(Command::Load { csv, table, script }) => load(alloc, csv, &table, script, shelf, out),
        Some(Command::Help) => write_help(alloc, out),
        Some(Command::Version) => write_version(alloc, out),
        None => write_usage(out),
    }
}

/// Does what the arguments ask for.
pub(crate) fn execute<H: Shelf, K: Sink>(
    alloc: Global,
    args: &[String],
    shelf: &mut H,
    out: &mut K,
) -> Status
    ensures { Ends (command_of (map string_bytes args.now)) (H.events shelf.old) (H.events shelf.new)
        (K.state out.old) (K.state out.new) result }
{
    match parse(alloc, args) {
        Ok(command) => execute_command(alloc, command, shelf, out),
        Err(NoMemory) => Status::OutOfMemory,
    }
}
