//! The steps of a program, taken in turn.

ghost use Rattle.std.specs.Prelude.{◌≡◌, ◌∷◌, [], ℕ, Bool, List, Option, None, true, OnOk};
ghost use Rattle.std.specs.List.{list_all};
ghost use Rattle.gp_algebra.specs.Plain.{no_steps, with_step};
ghost use Rattle.gp_algebra.specs.Stops.{Stop};
ghost use Rattle.gp_algebra.specs.declared.program.Step.{Step};
ghost use Rattle.gp_exec.specs.Liveness.{KeepsLive, steps_after};
ghost use Rattle.gp_exec.specs.Stepping.{Outcome, Takes, stopped};

use crate::done::Done;
use crate::error::ExecStop;
use crate::liveness::Rest;
use gp_algebra::{Reads, Step};
use gp_base::Sequence;
use std::alloc::Global;

/// How a step of a program is taken, whose rows are held as `R`.
pub trait Stepper<Q: Reads, R> {
    /// What contracts see of a row.
    ghost Seen: { Type 0 };

    ghost seen: { List R → List Seen };

    ghost can_take: { Q → Bool };

    /// The rows of a query, over those of the steps.
    ghost means: { Self → (ℕ → List Seen) → Q → List Seen };

    /// Where a step with these rows stops the program.
    ghost stop_at: { Self → Step Q → List Seen → Option Stop };

    /// What these steps and a last query give, over the rows of the steps before.
    ghost outcome: { Self → List (Step Q) → Q → (ℕ → List Seen) → Outcome Seen };

    /// The rows of a step, or the reason why the program stops there. Steps that are not live after it may lose theirs.
    fn take_step(
        &self,
        done: &mut Vec<Done<R>>,
        step: &Step<Q>,
        rest: &Rest<'_, Q>,
    ) -> Result<Vec<R>, ExecStop>
        requires { can_take step.now.query ≡ true }
        ensures rows { Takes (λ found. seen found.items) result (stop_at self.now step.now
            (means self.now (λ j. seen (steps_after done.old.items no_steps j)) step.now.query))
            (means self.now (λ j. seen (steps_after done.old.items no_steps j)) step.now.query) }
        ensures live { OnOk result (KeepsLive Q.reads_step rest.now.steps.now rest.now.last.now
            (steps_after done.old.items no_steps) (steps_after done.new.items no_steps)) };

    /// No rows are seen as none.
    ghost nothing: { seen [] ≡ [] };

    /// A query gives the same over the same rows of the steps that it reads.
    ghost agrees: { (stepper : Self) (query : Q) (known others : ℕ → List Seen)
        → ((j : ℕ) → Q.reads_step j query ≡ true → known j ≡ others j)
        → means stepper known query ≡ means stepper others query };

    /// Without steps, the last query is all that is left.
    ghost ends: { (stepper : Self) (last : Q) (known : ℕ → List Seen)
        → outcome stepper [] last known
        ≡ record { stop = None; rows = means stepper known last } };

    /// The first step stops the program, or the others decide over its rows.
    ghost goes_on: { (stepper : Self) (first : Step Q) (others : List (Step Q)) (last : Q)
        (known : ℕ → List Seen) → outcome stepper (first ∷ others) last known
        ≡ stopped (stop_at stepper first (means stepper known first.query))
        (outcome stepper others last
        (with_step first.j (means stepper known first.query) known)) };
}

/// The rows of the steps that the last query reads, or the first reason to stop. The rows of a step are held while it is
/// live.
pub fn take_steps<Q: Reads, R: Drop, S: Stepper<Q, R>>(
    alloc: Global,
    stepper: &S,
    steps: &[Step<Q>],
    last: &Q,
) -> Result<Vec<Done<R>>, ExecStop>
    requires { list_all (λ step. S.can_take step.query) steps.now ≡ true }
    ensures { Takes
        (λ done. S.means stepper.now (λ j. S.seen (steps_after done.items no_steps j)) last.now)
        result (S.outcome stepper.now steps.now last.now no_steps).stop
        (S.outcome stepper.now steps.now last.now no_steps).rows }
{
    let mut done = Vec::new(alloc);
    for (i, step) in steps.iter().enumerate() {
        let rest = Rest {
            steps: &steps[i + 1..],
            last,
        };
        let rows = stepper.take_step(&mut done, step, &rest)?;
        done.push(Done {
            j: step.j,
            rows: Sequence::from_vec(rows),
        })?;
        rest.drop_dead(&mut done);
    }
    Ok(done)
}
