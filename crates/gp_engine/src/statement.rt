//! The statement of a line.

ghost use Rattle.std.specs.Prelude.{◌≡◌, ◌<◌, ◌-◌, ◌^◌, suc, true, IfOk, OnErr, length};
ghost use Rattle.gp_algebra.specs.Views.{statement_view};
ghost use Rattle.gp_check.specs.Valid.{is_valid};
ghost use Rattle.gp_grammar.specs.Syntax.{is_statement};
ghost use Rattle.gp_machine.specs.ActionForms.{Run};
ghost use Rattle.gp_machine.specs.Entries as m;
ghost use Rattle.gp_machine.specs.Entries.{statement_count};
ghost use Rattle.gp_syntax.specs.Views.{command_view};
ghost use Rattle.gp_engine.specs.Engine.{IsEngine, IsUnchanged, entries_of};
ghost use Rattle.gp_engine.specs.Methods.{Answers, Appends, DoesAt, running_at};

use crate::running::Unlogged;
use crate::state::State;
use gp_base::{NoMemory, Refusal, Stop};
use gp_log::What;
use gp_machine::Reply;
use gp_syntax::Command;
use std::rc::Rc;

/// The answer to a statement that does not run.
fn answer(stop: Stop) -> Result<Reply, NoMemory>
    ensures { IfOk result (λ reply. Answers stop reply) }
{
    match stop {
        Stop::Refused(refusal) => Ok(Reply::Refused(refusal)),
        Stop::NoMemory => Err(NoMemory),
    }
}

impl State {
    /// Adds a statement that ran in the session at a place to the log, which has a place for it. Gives its reply.
    fn keep(&mut self, line: u32, place: usize, command: Rc<Command>, ran: Unlogged) -> Reply
        requires place { place < 64 }
        requires few { length self.old.log.entries < 2 ^ 32 - 1 }
        requires ready { self.old.log.ready ≡ true }
        requires number { ran.k ≡ suc (statement_count ran.t (entries_of self.old)) }
        ensures log { Appends self.old self.new (m.Ran line (suc place)
            (command_view command.value) ran.t (statement_view ran.stmt.value)) }
        ensures reply { result ≡ ran.reply }
    {
        let Unlogged { t, k, stmt, reply } = ran;
        match self.append(line, place, t, What::Statement { k, command, stmt }) {
            Ok(()) => {}
            Err(_) => unreachable!(),
        }
        reply
    }

    /// A statement in the session at a place.
    pub fn statement(
        &mut self,
        line: u32,
        place: usize,
        command: Rc<Command>,
    ) -> Result<Reply, NoMemory>
        requires place { place < 64 }
        requires statement { is_statement (command_view command.value) ≡ true }
        requires valid { is_valid (command_view command.value) ≡ true }
        requires engine { IsEngine self.old }
        ensures ok { IfOk result (λ reply. DoesAt self.old self.new reply line place
            (running_at self.old place) (Run (command_view command.value))) }
        ensures err { OnErr result (IsUnchanged self.old self.new) }
    {
        match &mut self.sessions[place] {
            Some(running) => {
                match running.run(
                    self.alloc,
                    &mut self.log,
                    &mut self.versions,
                    command.as_ref(),
                ) {
                    Ok(ran) => Ok(self.keep(line, place, command, ran)),
                    Err(stop) => answer(stop),
                }
            }
            None => Ok(Reply::Refused(Refusal::E10)),
        }
    }
}
