//! The engine.

ghost use Rattle.std.specs.Prelude.{◌≡◌, ◌≤◌, true, false, length, IfOk, IsOk, OnErr};
ghost use Rattle.gp_machine.specs.ActionForms.{action_of};
ghost use Rattle.gp_machine.specs.Recorded.{is_recorded};
ghost use Rattle.gp_check.specs.Valid.{is_valid};
ghost use Rattle.gp_grammar.specs.Syntax as y;
ghost use Rattle.gp_grammar.specs.declared.limits.TheConstants.{MAX_SESSION};
ghost use Rattle.gp_machine.specs.State.{start};
ghost use Rattle.gp_syntax.specs.Views.{command_view};
ghost use Rattle.gp_engine.specs.Engine.{Follows, IsEngineOf, IsUnchanged, tables_of};

use crate::state::State;
use gp_base::{Catalog, NoMemory};
use gp_log::Log;
use gp_machine::Reply;
use gp_syntax::Command;
use gp_versions::VersionTable;
use std::alloc::Global;
use std::marker::Model;
use std::rc::Rc;

/// The engine, between two lines of a script.
#[derive(Drop)]
pub struct Engine {
    state: State,
}

impl Model for Engine {
    ghost use Rattle.gp_engine.specs.Engine as spec;
    ghost use Rattle.gp_engine.specs.EngineCode.{engine_code};

    ghost Value = { spec.Engine };

    ghost coded = { engine_code };

    ghost view = { λ a. a.state };

    ghost invariant = { λ a. spec.IsEngine a.state };
}

impl Engine {
    /// An engine before the first line of a script.
    pub fn new(alloc: Global) -> Engine
        ensures { IsEngineOf result start }
    {
        Engine {
            state: State::new(alloc),
        }
    }

    /// The accepted lines.
    pub fn log(&self) -> &Log
        ensures { result.now ≡ self.now.log }
    {
        &self.state.log
    }

    /// The tables, in order of creation.
    pub fn catalog(&self) -> &Catalog
        ensures { result.now ≡ tables_of self.now }
    {
        self.state.log.catalog()
    }

    /// The row versions of each table, in order of creation.
    pub fn versions(&self) -> &[VersionTable]
        ensures versions { result.now ≡ self.now.versions }
        ensures tables { length self.now.versions ≡ length (tables_of self.now) }
    {
        &self.state.versions
    }

    /// Runs the command of a line in a session, numbered from 1, and gives the reply. The log keeps the line's number and the
    /// command, if the line is accepted. The command was read, so it is valid ([`gp_check::read_lines_are_valid`]). A line that
    /// is refused leaves the log, the rows of every version and all transactions unchanged, unless it is a COMMIT that is lost,
    /// which ends its transaction; so does running out of memory. A ROLLBACK never runs out of memory.
    pub fn line(&mut self, line: u32, session: u32, command: Rc<Command>) -> Result<Reply, NoMemory>
        requires first { 1 ≤ session }
        requires last { session ≤ MAX_SESSION }
        requires valid { is_valid (command_view command.value) ≡ true }
        ensures follows { IfOk result
            (Follows self.old self.new line session (command_view command.value)) }
        ensures unrecorded { IfOk result (λ reply.
            is_recorded (action_of (command_view command.value)) reply ≡ false
            → IsUnchanged self.old self.new) }
        ensures err { OnErr result (IsUnchanged self.old self.new) }
        ensures rollback { command_view command.value ≡ y.rollback → IsOk result }
    {
        self.state.line(line, session as usize - 1, command)
    }
}
