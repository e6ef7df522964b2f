//! What a log line says.

ghost use Rattle.std.specs.Prelude.{◌≡◌, ◌<◌, ◌-◌, ◌^◌, IfOk, IfSome, length};
ghost use Rattle.std.specs.Option.{option_map};
ghost use Rattle.std.specs.Str.{bytes_eq};
ghost use Rattle.gp_grammar.specs.Canonical.{command_text};
ghost use Rattle.gp_log.specs.Discipline.{Does};
ghost use Rattle.gp_syntax.specs.Views.{command_view};
ghost use Rattle.gp_dumpline.specs.Forms.{said_of};
ghost use Rattle.gp_dumpline.specs.Said.{begins_read_committed, is_said_in};
ghost use Rattle.gp_dumpline.specs.Views.{IsValid, said_view};

use gp_base::{NoMemory, Stop};
use gp_check::read_commands_are_valid;
use gp_syntax::{Command, read_command, write_command};
use std::alloc::Global;

/// What a lost COMMIT is written as.
pub(crate) const LOST: &[u8] = b"LOST";

/// What a log line says.
#[derive(Drop)]
pub enum Said {
    /// The session ran this command.
    Does(Command),
    /// The COMMIT of the session was lost, since a later commit had written the same row.
    Loses,
}

/// Whether the command is BEGIN READ COMMITTED.
pub(crate) fn begins(command: &Command) -> bool
    ensures { result ≡ begins_read_committed (Does (command_view command.now)) }
{
    match command {
        Command::Begin { read_committed } => *read_committed,
        _ => false,
    }
}

impl Said {
    /// Whether a log of the format can say it: only one of the second format has BEGIN READ COMMITTED.
    pub fn is_in(&self, second: bool) -> bool
        ensures { result ≡ is_said_in second (said_view self.now) }
    {
        second || !self.begins_read_committed()
    }

    fn begins_read_committed(&self) -> bool
        ensures { result ≡ begins_read_committed (said_view self.now) }
    {
        match self {
            Said::Does(command) => begins(command),
            Said::Loses => false,
        }
    }
}

/// Whether the text is the canonical text of the command.
fn is_canonical(alloc: Global, command: &Command, text: &[u8]) -> Result<bool, NoMemory>
    ensures { IfOk result (λ is. is ≡ bytes_eq (command_text (command_view command.now)) text.now) }
{
    let canonical = write_command(alloc, command)?;
    Ok(canonical.as_slice() == text)
}

/// What a log line says: a command in its canonical text, or `LOST`. None if the text is neither: a command that is
/// written in another way, or that passes a limit of the grammar, is none.
#[tactic(auto, unfolding(crate::specs::Forms::said_of))]
pub fn parse_said(alloc: Global, text: &[u8]) -> Result<Option<Said>, NoMemory>
    requires { length text.now < 2 ^ 32 - 1 }
    ensures said { IfOk result (λ found. option_map said_view found ≡ said_of text.now) }
    ensures valid { IfOk result (λ found. IfSome found IsValid) }
{
    if text == LOST {
        return Ok(Some(Said::Loses));
    }
    read_commands_are_valid();
    match read_command(alloc, text) {
        Ok(command) => {
            if is_canonical(alloc, &command, text)? {
                Ok(Some(Said::Does(command)))
            } else {
                Ok(None)
            }
        }
        Err(Stop::Refused(_)) => Ok(None),
        Err(Stop::NoMemory) => Err(NoMemory),
    }
}
