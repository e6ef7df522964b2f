//! The rows that steps have given.

ghost use Rattle.std.specs.Prelude.{◌≡◌, ◌≢◌, ◌==◌, ℕ, if◌then◌else◌};
ghost use Rattle.gp_algebra.specs.Plain.{no_steps};
ghost use Rattle.gp_exec.specs.Liveness.{emptied, steps_after};

use gp_base::Sequence;
use std::alloc::Global;
use std::mem;

/// The rows that a step has given.
#[derive(Drop)]
pub struct Done<R> {
    /// The number of the step.
    pub j: u32,
    /// The rows.
    pub rows: Sequence<R>,
}

/// The rows of step `j`; none if there is no such step.
pub fn rows_of<R>(done: &[Done<R>], j: u32) -> &[R]
    ensures { result.now ≡ steps_after done.now no_steps j }
{
    let mut found: &[R] = &[];
    for step in done {
        if step.j == j {
            found = step.rows.as_slice();
        }
    }
    found
}

/// If the step is step `j`, takes its rows in place of the others.
fn take_out<R: Drop>(alloc: Global, step: &mut Done<R>, j: u32, rows: &mut Vec<R>)
    ensures rows { rows.new.items ≡ if j == step.old.j then step.old.rows else rows.old.items }
    ensures step { step.new ≡ emptied j step.old }
{
    if j == step.j {
        *rows = mem::replace(&mut step.rows, Sequence::new(alloc)).into_vec();
    }
}

/// Takes the rows of step `j` out. None are left there.
pub fn take_rows<R: Drop>(alloc: Global, done: &mut [Done<R>], j: u32) -> Vec<R>
    ensures rows { result.items ≡ steps_after done.old no_steps j }
    ensures others { (other : ℕ) → other ≢ j
        → steps_after done.new no_steps other ≡ steps_after done.old no_steps other }
{
    let mut rows = Vec::new(alloc);
    for step in done.iter_mut() {
        take_out(alloc, step, j, &mut rows);
    }
    rows
}
