//! One line of a session.

ghost use Rattle.std.specs.Prelude.{◌≡◌, ◌<◌, true, false, IfOk, IsOk, OnErr};
ghost use Rattle.gp_check.specs.Valid.{is_valid};
ghost use Rattle.gp_grammar.specs.Syntax as y;
ghost use Rattle.gp_grammar.specs.Syntax.{is_statement};
ghost use Rattle.gp_machine.specs.ActionForms.{action_of};
ghost use Rattle.gp_syntax.specs.Views.{command_view};
ghost use Rattle.gp_engine.specs.Engine.{IsEngine, IsUnchanged};
ghost use Rattle.gp_engine.specs.Methods.{DoesAt, running_at};

use crate::state::State;
use gp_base::NoMemory;
use gp_machine::Reply;
use gp_syntax::Command;
use std::rc::Rc;

/// Whether a command is a statement.
fn is_statement(command: &Command) -> bool
    ensures { result ≡ is_statement (command_view command.now) }
{
    match command {
        Command::Create { .. } | Command::Begin { .. } | Command::Commit | Command::Rollback =>
            false,
        _ => true,
    }
}

impl State {
    /// A command that is no statement, in the session at a place.
    fn control(&mut self, line: u32, place: usize, command: &Command) -> Result<Reply, NoMemory>
        requires place { place < 64 }
        requires engine { IsEngine self.old }
        requires other { is_statement (command_view command.now) ≡ false }
        ensures ok { IfOk result (λ reply. DoesAt self.old self.new reply line place
            (running_at self.old place) (action_of (command_view command.now))) }
        ensures err { OnErr result (IsUnchanged self.old self.new) }
        ensures rollback { command_view command.now ≡ y.rollback → IsOk result }
    {
        match command {
            Command::Create { table } => self.create(line, place, table),
            Command::Begin { read_committed } => self.begin(line, place, *read_committed),
            Command::Commit => self.commit(line, place),
            Command::Rollback => Ok(self.roll_back(line, place)),
            _ => unreachable!(),
        }
    }

    /// A command in the session at a place. Each kind of line looks the session up, once.
    pub fn line(&mut self, line: u32, place: usize, command: Rc<Command>) -> Result<Reply, NoMemory>
        requires place { place < 64 }
        requires engine { IsEngine self.old }
        requires valid { is_valid (command_view command.value) ≡ true }
        ensures ok { IfOk result (λ reply. DoesAt self.old self.new reply line place
            (running_at self.old place) (action_of (command_view command.value))) }
        ensures err { OnErr result (IsUnchanged self.old self.new) }
        ensures rollback { command_view command.value ≡ y.rollback → IsOk result }
    {
        if is_statement(command.as_ref()) {
            self.statement(line, place, command)
        } else {
            self.control(line, place, command.as_ref())
        }
    }
}
