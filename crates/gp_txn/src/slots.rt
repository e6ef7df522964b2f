//! What a transaction did to the rows of a version, by the places of their spans.

ghost use Rattle.std.specs.Prelude.{◌≡◌, ◌<◌, ◌≤◌, ◌+◌, ◌++◌, [], List, length, map, reverse, vec_capacity, vec_len, OnErr, OnOk};
ghost use Rattle.std.specs.Option.{option_map};
ghost use Rattle.gp_txn.specs.Ascending.{IsAscending, place_of};
ghost use Rattle.gp_txn.specs.Enough.{first_at, seek, slot_or, slotted_at};
ghost use Rattle.gp_txn.specs.Slots.{put_all, put_at};

use crate::carried::CarriedRows;
use crate::overlay::{Placed, Slot};
use gp_base::NoMemory;
use gp_versions::{Span, SpanList};
use std::alloc::Global;
use std::marker::Model;

/// What the transaction did to rows of a version, in ascending order of their places. What a commit does with it is in
/// proportion to the rows that were written, and not to those of the version.
#[derive(Drop)]
pub struct Slots {
    list: Vec<Placed>,
}

impl Model for Slots {
    ghost use Rattle.std.specs.Prelude.{List, map};
    ghost use Rattle.std.specs.Coded.{coded_list};
    ghost use Rattle.gp_txn.specs.declared.overlay.Placed.{Placed};
    ghost use Rattle.gp_txn.specs.contracts.overlay.Placed as placed;
    ghost use Rattle.gp_txn.specs.Ascending.{IsAscending, place_of};

    ghost Value = { List Placed };

    ghost coded = { coded_list placed.the_row.coded };

    ghost view = { λ a. a.list.items };

    ghost invariant = { λ a. IsAscending (map place_of a.list.items) };
}

/// Moves the last slots, this many, to a list that has the last one first.
fn lift(list: &mut Vec<Placed>, behind: &mut Vec<Placed>, count: usize)
    requires within { count ≤ vec_len list.old }
    requires none { vec_len behind.old ≡ 0 }
    requires room { count ≤ vec_capacity behind.old }
    ensures items { list.new.items ++ reverse behind.new.items
        ≡ list.old.items ++ reverse behind.old.items }
    ensures len { vec_len list.new + count ≡ vec_len list.old }
    ensures front { length list.new.items + count ≡ length list.old.items }
    ensures behind { vec_len behind.new ≡ count }
    ensures room { vec_len behind.new ≤ vec_capacity behind.new }
    ensures capacity { vec_capacity list.new ≡ vec_capacity list.old }
{
    'lift: while behind.len() < count {
        match list.pop() {
            Some(placed) => behind.push_reserved(placed),
            None => unreachable!(),
        }
    }
}

/// Moves slots back that were lifted and are at places below the one of a new slot, and puts in that one.
fn put(list: &mut Vec<Placed>, behind: &mut Vec<Placed>, new: Placed)
    requires room { vec_len list.old + vec_len behind.old < vec_capacity list.old }
    requires behind { vec_len behind.old ≤ vec_capacity behind.old }
    ensures items { (more : List Placed → List Placed)
        → list.new.items ++ more (reverse behind.new.items)
        ≡ list.old.items ++ put_at new more (reverse behind.old.items) }
    ensures len { vec_len list.new + vec_len behind.new
        ≤ vec_len list.old + vec_len behind.old + 1 }
    ensures capacity { vec_capacity list.new ≡ vec_capacity list.old }
    ensures behind { vec_len behind.new ≤ vec_capacity behind.new }
{
    'below: while let Some(placed) = behind.pop() {
        if placed.place >= new.place {
            if placed.place != new.place {
                behind.push_reserved(placed);
            }
            list.push_reserved(new);
            return;
        }
        list.push_reserved(placed);
    }
    list.push_reserved(new);
}

/// Puts in new slots, and moves back those that were lifted.
fn put_lifted(list: &mut Vec<Placed>, behind: Vec<Placed>, new: Vec<Placed>)
    requires room { vec_len list.old + vec_len behind + length new.items ≤ vec_capacity list.old }
    requires behind { vec_len behind ≤ vec_capacity behind }
    ensures { list.new.items ≡ list.old.items ++ put_all new.items (reverse behind.items) }
{
    let mut behind = behind;
    for placed in new {
        put(list, &mut behind, placed);
    }
    'lower: while let Some(placed) = behind.pop() {
        list.push_reserved(placed);
    }
}

impl Slots {
    /// No slots.
    pub fn new(alloc: Global) -> Slots
        ensures { result ≡ [] }
    {
        Slots {
            list: Vec::new(alloc),
        }
    }

    /// Puts in new slots, in place of those that are at their places. If memory runs out, nothing changes. It costs what the new
    /// slots and those behind the first of them cost, and copies no rows.
    pub fn put_all(&mut self, alloc: Global, new: Vec<Placed>) -> Result<(), NoMemory>
        requires { IsAscending (map place_of new.items) }
        ensures ok { OnOk result (self.new ≡ put_all new.items self.old) }
        ensures err { OnErr result (self.new ≡ self.old) }
    {
        let Some(first) = new.first() else {
            return Ok(());
        };
        let count = seek(&self.list, first.place).len();
        let mut behind = Vec::with_capacity(alloc, count)?;
        self.list.reserve(new.len())?;
        lift(&mut self.list, &mut behind, count);
        put_lifted(&mut self.list, behind, new);
        Ok(())
    }

    /// The slots.
    pub fn as_slice(&self) -> &[Placed]
        ensures slots { result.now ≡ self.now }
        ensures ascending { IsAscending (map place_of self.now) }
    {
        self.list.as_slice()
    }
}

/// The span at a place, if its row has a slot: it is a row of version v, and not carried.
pub fn slotted<'a>(
    spans: &SpanList<'a>,
    carried: &CarriedRows,
    v: u32,
    place: u32,
) -> Option<&'a Span>
    ensures { option_map (λ span. span.now) result
        ≡ slotted_at carried.now v spans.now place }
{
    match spans.get(place) {
        Some(span) if span.holds(v) && !carried.has(&span.id) => Some(span),
        _ => None,
    }
}

/// The slots from a place on. A pass over ascending places moves along the slots, and so searches nothing.
pub fn seek(slots: &[Placed], place: u32) -> &[Placed]
    ensures { result.now ≡ seek place slots.now }
{
    let mut ahead = slots;
    while let Some((first, others)) = ahead.split_first() {
        if first.place >= place {
            return ahead;
        }
        ahead = others;
    }
    ahead
}

/// The first slot, if it is at the place.
pub fn first_at(slots: &[Placed], place: u32) -> Option<&Slot>
    ensures { slot_or (option_map (λ slot. slot.now) result) ≡ first_at place slots.now }
{
    match slots.first() {
        Some(placed) if placed.place == place => Some(&placed.slot),
        _ => None,
    }
}
