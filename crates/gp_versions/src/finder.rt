//! Finds spans of a list without a pass over all of them.

ghost use Rattle.std.specs.Prelude.{◌≡◌, true, IfOk, IfSome, OnOk};
ghost use Rattle.gp_versions.specs.Chains.{AreIndexes};
ghost use Rattle.gp_versions.specs.Finding.{AreAmong, AreAscending, AreFound, HasBetween, HasBegun, HasCells, HasVersion, IsEntered, IsFinder};

use crate::chains::Chains;
use crate::columns::{ColumnIndex, enter_column, push_with};
use crate::key::{By, key_of_number};
use crate::places::InColumn;
use crate::span::Span;
use gp_base::NoMemory;
use std::alloc::Global;

/// The places of the spans of a list by the versions at which they begin and end, by the transactions that inserted their
/// rows, and by their cells in some columns. The list does not change.
#[derive(Drop)]
pub struct Finder {
    begun: Chains,
    ended: Chains,
    own: Chains,
    columns: Vec<ColumnIndex>,
}

/// Spans that are sought.
#[derive(Clone, Copy)]
pub struct Wanted<'a> {
    /// Those that begin or end above this version,
    pub first: u32,
    /// and not above this one.
    pub last: u32,
    /// Those of rows that this transaction inserted.
    pub t: u32,
    /// Those with one of these cells.
    pub cells: &'a [InColumn<'a>],
}

/// All spans, entered.
fn entered(alloc: Global, by: By, spans: &[Span]) -> Result<Chains, NoMemory>
    ensures { IfOk result (IsEntered by spans.now) }
{
    let mut chains = Chains::new(alloc);
    chains.enter(by, spans)?;
    Ok(chains)
}

/// Appends the places of the spans with one of the cells. False as [`push_with`] says.
fn push_cells(
    columns: &[ColumnIndex],
    spans: &[Span],
    found: &mut Vec<u32>,
    cells: &[InColumn<'_>],
    most: usize,
) -> Result<bool, NoMemory>
    requires { AreIndexes columns.now spans.now }
    ensures kept { OnOk result (AreAmong found.old.items found.new.items) }
    ensures all { IfOk result (λ all. all ≡ true → HasCells cells.now spans.now found.new.items) }
{
    for own in cells {
        if !push_with(columns, spans, found, *own, most)? {
            return Ok(false);
        }
    }
    Ok(true)
}

impl Finder {
    /// The finder of these spans. Places that 32 bits cannot number run out of memory.
    pub fn new(alloc: Global, spans: &[Span]) -> Result<Finder, NoMemory>
        ensures { IfOk result (IsFinder spans.now) }
    {
        let begun = entered(alloc, By::Begin, spans)?;
        let ended = entered(alloc, By::End, spans)?;
        let own = entered(alloc, By::Transaction, spans)?;
        Ok(Finder {
            begun,
            ended,
            own,
            columns: Vec::new(alloc),
        })
    }

    /// Asks for an index of a column. The first call for a column only notes it, as a single look-up is not worth an index.
    pub fn enter_column(&mut self, spans: &[Span], column: u32) -> Result<(), NoMemory>
        requires { IsFinder spans.now self.old }
        ensures { IsFinder spans.now self.new }
    {
        enter_column(&mut self.columns, spans, column)
    }

    /// The places of the spans that begin with the version, or None if they are more than these.
    pub fn begun_at(
        &self,
        alloc: Global,
        version: u32,
        most: usize,
    ) -> Result<Option<Vec<u32>>, NoMemory>
        ensures { IfOk result
            (λ found. IfSome found (λ places. HasBegun version self.now places.items)) }
    {
        let mut found = Vec::new(alloc);
        if self
            .begun
            .push_places(&mut found, key_of_number(version), most)?
        {
            Ok(Some(found))
        } else {
            Ok(None)
        }
    }

    /// Appends the places of the spans that begin or end with the version. False if there are more places than these then.
    fn push_version(
        &self,
        found: &mut Vec<u32>,
        version: u32,
        most: usize,
    ) -> Result<bool, NoMemory>
        ensures kept { OnOk result (AreAmong found.old.items found.new.items) }
        ensures all { IfOk result (λ all. all ≡ true
            → HasVersion version self.now found.new.items) }
    {
        if !self.begun.push_places(found, key_of_number(version), most)? {
            return Ok(false);
        }
        Ok(self.ended.push_places(found, key_of_number(version), most)?)
    }

    /// Appends the places of the spans that begin or end above the first version, and not above the last one. False if there
    /// are more places than these then.
    fn push_between(
        &self,
        found: &mut Vec<u32>,
        first: u32,
        last: u32,
        most: usize,
    ) -> Result<bool, NoMemory>
        ensures kept { OnOk result (AreAmong found.old.items found.new.items) }
        ensures all { IfOk result (λ all. all ≡ true
            → HasBetween first last self.now found.new.items) }
    {
        for version in first..last {
            if !self.push_version(found, version + 1, most)? {
                return Ok(false);
            }
        }
        Ok(true)
    }

    /// Appends the places of the spans that are wanted. False as [`Finder::places`] gives None.
    fn push_wanted(
        &self,
        spans: &[Span],
        found: &mut Vec<u32>,
        wanted: &Wanted<'_>,
        most: usize,
    ) -> Result<bool, NoMemory>
        requires { IsFinder spans.now self.now }
        ensures { IfOk result (λ all. all ≡ true
            → AreFound wanted.now spans.now found.new.items) }
    {
        if !self.push_between(found, wanted.first, wanted.last, most)? {
            return Ok(false);
        }
        if !self.own.push_places(found, key_of_number(wanted.t), most)? {
            return Ok(false);
        }
        Ok(push_cells(&self.columns, spans, found, wanted.cells, most)?)
    }

    /// The places of the spans that are wanted, and others, ascending. None if no index finds those with one of the cells, or
    /// they are more than these.
    pub fn places(
        &self,
        alloc: Global,
        spans: &[Span],
        wanted: &Wanted<'_>,
        most: usize,
    ) -> Result<Option<Vec<u32>>, NoMemory>
        requires { IsFinder spans.now self.now }
        ensures found { IfOk result
            (λ found. IfSome found (λ places. AreFound wanted.now spans.now places.items)) }
        ensures ascending { IfOk result
            (λ found. IfSome found (λ places. AreAscending places.items)) }
    {
        let mut found = Vec::new(alloc);
        if !self.push_wanted(spans, &mut found, wanted, most)? {
            return Ok(None);
        }
        found.sort()?;
        Ok(Some(found))
    }
}
