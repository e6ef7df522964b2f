//! Laws of the histories of scripts. The functions do nothing: their postconditions are the laws, and they cite laws of the history machine.

ghost use Rattle.std.specs.Prelude.{◌≡◌, ℕ, ◌≤◌, false, List, length, map};
ghost use Rattle.gp_base.specs.Annotated.{Annotations, unannotated};
ghost use Rattle.gp_base.specs.declared.refusal.Refusal.{Refusal};
ghost use Rattle.gp_syntax.specs.Lines.{script_lines};
ghost use Rattle.gp_syntax.specs.LineForms.{numbers_of};
ghost use Rattle.gp_algebra.specs.Reannotation.{forgotten};
ghost use Rattle.gp_machine.specs.Event.{after};
ghost use Rattle.gp_machine.specs.Replies.{is_lost};
ghost use Rattle.gp_machine.specs.State.{State, start};
ghost use Rattle.gp_machine.specs.StateReannotation.{state_reannotated};
ghost use Rattle.gp_machine.specs.declared.reply.Reply.TheVariants as reply;
ghost use Rattle.gp_log.specs.Parameters.{parameters};
ghost use Rattle.gp_log.specs.ScriptLines.{AreScriptLines};
ghost use Rattle.gp_script.specs.History.{NumberedReply};
ghost use Rattle.gp_script.specs.Scripts.{final_state, line_outcome, lines_if_read, replies_from, replies_of};

use crate::script::MAX_SCRIPT_LENGTH;
use gp_machine::{accepted_lines_are_recorded, annotations_change_no_reply};

/// Every line of a script that is neither blank nor a comment gets one reply, in order and with its number.
pub fn every_line_has_one_reply()
    ensures one_each { (script : List ℕ)
        → map (λ (reply : NumberedReply). reply.number) (replies_of script)
        ≡ numbers_of (script_lines script) }
{}

/// A line that is refused leaves the state unchanged, unless it is a COMMIT that is lost.
pub fn refused_lines_change_nothing<M>()
    ensures unchanged { (domain : Annotations M) (state : State M) (line : ℕ × List ℕ)
        (refusal : Refusal) → (line_outcome domain state line).1 ≡ reply.Refused refusal
        → is_lost refusal ≡ false → (line_outcome domain state line).0 ≡ state }
{
    accepted_lines_are_recorded::<M>()
}

/// The state that a script leaves is the one that its lines lead to, of those that were read. So the laws of the history
/// machine hold of it.
pub fn scripts_lead_to_histories<M>()
    ensures reached { (domain : Annotations M) (script : List ℕ)
        → final_state domain script
        ≡ after domain parameters start (lines_if_read (script_lines script)) }
{}

/// The lines of a script that were read are lines of a script for the history machine: their numbers rise from 1 at the least,
/// and their commands are read again from their canonical texts. So the laws of logs and dumps hold of the state that it leaves.
pub fn lines_of_scripts_are_script_lines()
    ensures lines { (script : List ℕ) → length script ≤ MAX_SCRIPT_LENGTH
        → AreScriptLines (lines_if_read (script_lines script)) }
{}

/// The replies do not depend on annotations, and the state without annotations is the one with them, when they are forgotten.
pub fn replies_have_no_annotations<M>()
    ensures replies { (domain : Annotations M) (script : List ℕ)
        → replies_from domain start (script_lines script) ≡ replies_of script }
    ensures state { (domain : Annotations M) (script : List ℕ)
        → final_state unannotated script ≡ state_reannotated forgotten (final_state domain script) }
{
    annotations_change_no_reply::<M, ()>()
}
