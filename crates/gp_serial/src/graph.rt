//! A relation between transactions.

ghost use Rattle.std.specs.Prelude.{◌≡◌, ◌<◌, ◌&&◌, ◌||◌, ◌==◌, ℕ, IfOk, false, true, get_or, length, replicate, set};
ghost use Rattle.gp_serial.specs.Relations.{is_edge};

use gp_base::NoMemory;
use std::alloc::Global;
use std::marker::Model;

/// Which transactions come before which others: a relation on the numbers below some number.
#[derive(Drop)]
pub struct Graph {
    /// For each number, a flag for each number that it may be before.
    rows: Vec<Vec<bool>>,
}

impl Model for Graph {
    ghost use Rattle.std.specs.Prelude.{◌≡◌, Bool, List, length, map};
    ghost use Rattle.std.specs.List.{AllByRecursion};

    ghost Value = { List (List Bool) };

    ghost view = { λ a. map (λ row. row.items) a.rows.items };

    ghost invariant = { λ a. AllByRecursion (λ row. length row.items ≡ length a.rows.items) a.rows.items };
}

/// `count` flags, none of which is set.
pub(crate) fn flags(alloc: Global, count: usize) -> Result<Vec<bool>, NoMemory>
    ensures { IfOk result (λ flags. flags.items ≡ replicate count false) }
{
    let mut flags = Vec::with_capacity(alloc, count)?;
    for _ in 0..count {
        flags.push(false)?;
    }
    Ok(flags)
}

/// Whether the flag at a place is set.
pub(crate) fn is_flagged(flags: &[bool], place: usize) -> bool
    ensures { result ≡ get_or flags.now place false }
{
    match flags.get(place) {
        Some(flag) => *flag,
        None => false,
    }
}

/// Sets the flag at a place, if there is one.
fn set_flag(flags: &mut Vec<bool>, place: usize)
    ensures { flags.new.items ≡ set flags.old.items place true }
{
    if place < flags.len() {
        flags[place] = true;
    }
}

impl Graph {
    /// The empty relation on the numbers below `count`.
    pub fn new(alloc: Global, count: usize) -> Result<Graph, NoMemory>
        ensures { IfOk result (λ graph. graph ≡ replicate count (replicate count false)) }
    {
        let mut rows = Vec::with_capacity(alloc, count)?;
        for _ in 0..count {
            rows.push(flags(alloc, count)?)?;
        }
        Ok(Graph { rows })
    }

    /// The number below which the numbers are.
    pub fn len(&self) -> usize
        ensures { result ≡ length self.now }
    {
        self.rows.len()
    }

    /// Whether a number is before another one.
    pub fn has(&self, a: u32, b: u32) -> bool
        ensures { result ≡ is_edge self.now a b }
    {
        match self.rows.get(a as usize) {
            Some(row) => is_flagged(row, b as usize),
            None => false,
        }
    }

    /// Puts a number before another one. Numbers that are not there change nothing.
    pub fn add(&mut self, a: u32, b: u32)
        ensures count { length self.new ≡ length self.old }
        ensures edges { (x y : ℕ) → x < length self.old → y < length self.old
            → is_edge self.new x y ≡ (is_edge self.old x y || ((x == a) && (y == b))) }
    {
        if (a as usize) < self.rows.len() {
            set_flag(&mut self.rows[a as usize], b as usize);
        }
    }
}
