//! What the programs of a commit are run over: the row versions that matter to it, where they stand.
//!
//! Most rows of a table stay as they are when a transaction commits. A row version that the table has from the first version that
//! the transaction reads up to the version that it makes, and that none of its statements writes or makes a row of, is in all of
//! these versions and in what the commit publishes. So it is left out on both sides: programs run over the other row versions, and what
//! they publish is compared with the other row versions. Only the number of rows that an INSERT leaves counts all rows, so the
//! programs stop as many rows before.
//!
//! The others are few in most commits: row versions that begin or end while the transaction runs, rows of its own, and rows with a cell
//! that one of its conditions asks for. A finder of each table gives their places. Where it does not, a pass tests all.

ghost use Rattle.std.specs.Prelude.{◌≡◌, ◌+◌, ◌≤◌, ◌<◌, ◌&&◌, ◌++◌, ℕ, [], not, true, length, map, slice_get, slice_index_or, IfOk, IfSome, MatchOption, OnOk};
ghost use Rattle.std.specs.List.{list_all};
ghost use Rattle.std.specs.Option.{option_map};
ghost use Rattle.gp_algebra.specs.Views.{statement_view};
ghost use Rattle.gp_history.specs.Narrowing as n;
ghost use Rattle.gp_history.specs.Narrowing.{IsLeft, IsLeftBy, narrow_annotations, narrow_spans, narrow_versions, part_annotations, part_of, part_spans, tests_are_simple};
ghost use Rattle.gp_history.specs.SpanAnnotations.{versions_with};
ghost use Rattle.gp_log.specs.Contents.{commits, entries};
ghost use Rattle.gp_log.specs.Sessions.{KeepsSessions};
ghost use Rattle.gp_machine.specs.Entries as m;
ghost use Rattle.gp_reenact.specs.Reenacting.{spans_of};
ghost use Rattle.gp_versions.specs.Finding.{AreAscending, HasThose, IsFinder};
ghost use Rattle.gp_history.specs.Histories as h;
ghost use Rattle.gp_history.specs.Seeking.{AreFinders};

use crate::annotated::Annotated;
use crate::inert::{all_leave, are_swept, insert_into};
use crate::sought::cells_for;
use crate::spans::spans_in;
use gp_algebra::Stmt;
use gp_base::{MAX_TABLE_ROWS, NoMemory};
use gp_log::Log;
use gp_versions::{Finder, Span, VersionTable, Wanted};
use std::alloc::Global;

/// A finder serves where it finds fewer than one of so many row versions. Else a pass over all is as quick.
const FEW: usize = 8;

// ---- what a transaction reads

/// The first and the last of the versions that a transaction reads and the one that it makes.
#[derive(Clone, Copy)]
pub struct Reach {
    /// The first.
    pub first: u32,
    /// The last.
    pub last: u32,
}

impl Reach {
    /// Whether a span holds one of the versions between them.
    fn meets(self, span: &Span) -> bool
        ensures { result ≡ n.meets self span.now }
    {
        span.from <= self.last
            && match span.to {
                Some(to) => self.first < to,
                None => true,
            }
    }

    /// Whether a span holds all of them.
    fn is_held(self, span: &Span) -> bool
        ensures { result ≡ n.is_held self span.now }
    {
        span.from <= self.first
            && match span.to {
                Some(to) => self.last < to,
                None => true,
            }
    }
}

/// The versions from the BEGIN of the transaction that made the version after this one, up to that one.
fn reach_of(log: &Log, t: u32, before: u32) -> Reach
    requires sessions { KeepsSessions (entries log.now) }
    requires within { before < commits log.now }
    requires maker { t ≡ h.maker log.now before }
    ensures { h.Covers log.now t before result }
{
    log.bounds();
    Reach {
        first: log.begin_version(t),
        last: before + 1,
    }
}

/// Appends a statement, if there is one.
fn push_found<'a>(statements: &mut Vec<&'a Stmt>, found: Option<&'a Stmt>) -> Result<(), NoMemory>
    ensures { OnOk result (map (λ stmt. statement_view stmt.now) statements.new.items
        ≡ map (λ stmt. statement_view stmt.now) statements.old.items
        ++ n.listed (option_map (λ stmt. statement_view stmt.now) found.entry)) }
{
    match found {
        Some(stmt) => Ok(statements.push(stmt)?),
        None => Ok(()),
    }
}

/// The statements of a transaction.
pub fn statements_of(alloc: Global, log: &Log, t: u32) -> Result<Vec<&Stmt>, NoMemory>
    ensures { IfOk result (λ all. map (λ stmt. statement_view stmt.now) all.items
        ≡ n.statements_upto (m.log_of (entries log.now)) t
        (m.statement_count t (entries log.now))) }
{
    let mut statements = Vec::new(alloc);
    for ran in 0..log.statement_count(t) {
        push_found(&mut statements, log.statement(t, ran + 1))?;
    }
    Ok(statements)
}

/// Whether the row of a span stays as it is: all versions have it, it is no row of the transaction's own, and its statements leave it.
fn row_stays(span: &Span, reach: Reach, t: u32, statements: &[&Stmt], table: u32) -> bool
    requires { list_all tests_are_simple
        (map (λ stmt. statement_view stmt.now) statements.now) ≡ true }
    ensures { result ≡ n.row_stays reach t
        (map (λ stmt. statement_view stmt.now) statements.now) table span.now }
{
    reach.is_held(span) && span.id.t() != t && all_leave(statements, table, &span.row)
}

/// No row stays where an UPDATE or a DELETE writes all rows of the table (`are_swept`), so that none is tested.
fn stays_if(
    tested: bool,
    span: &Span,
    reach: Reach,
    t: u32,
    statements: &[&Stmt],
    table: u32,
) -> bool
    requires { list_all tests_are_simple
        (map (λ stmt. statement_view stmt.now) statements.now) ≡ true }
    ensures { result ≡ n.stays_if tested reach t
        (map (λ stmt. statement_view stmt.now) statements.now) table span.now }
{
    tested && row_stays(span, reach, t, statements, table)
}

/// Whether a row version is left: it meets the versions, and its row does not stay.
fn is_left(span: &Span, reach: Reach, t: u32, statements: &[&Stmt], table: u32) -> bool
    requires { list_all tests_are_simple
        (map (λ stmt. statement_view stmt.now) statements.now) ≡ true }
    ensures { result ≡ n.is_left reach t
        (map (λ stmt. statement_view stmt.now) statements.now) table span.now }
{
    reach.meets(span) && !row_stays(span, reach, t, statements, table)
}

/// The place, if it is not below the next one, and there are more than so many.
fn unseen(place: u32, next: usize, count: usize) -> Option<usize>
    ensures { MatchOption result ((next ≤ place → place < count → ⊥))
        (λ i. (i ≡ place) × ((next ≤ i) × (i < count))) }
{
    let i = place as usize;
    if i < next {
        return None;
    }
    if i < count {
        return Some(i);
    }
    None
}

// ---- one table

/// References to values.
fn refs<'a, T>(alloc: Global, values: &'a [T]) -> Result<Vec<&'a T>, NoMemory>
    ensures { IfOk result (λ refs. map (λ value. value.now) refs.items ≡ values.now) }
{
    let mut refs = Vec::with_capacity(alloc, values.len())?;
    for value in values {
        refs.push(value)?;
    }
    Ok(refs)
}

/// Row versions of a table with their annotations, where they stand.
#[derive(Drop)]
pub struct Part<'a, A> {
    /// The row versions.
    pub spans: Vec<&'a Span>,
    /// The annotation of each.
    pub annotations: Vec<&'a A>,
    /// How many rows of each version are left out.
    pub left_out: usize,
}

impl<'a, A: Drop> Part<'a, A> {
    /// No row versions.
    fn new(alloc: Global) -> Part<'a, A>
        ensures spans { part_spans result ≡ [] }
        ensures annotations { part_annotations result ≡ [] }
        ensures left_out { result.left_out ≡ 0 }
    {
        Part {
            spans: Vec::new(alloc),
            annotations: Vec::new(alloc),
            left_out: 0,
        }
    }

    /// Counts a row version that stays, or adds one that meets the versions. There are so many in all.
    fn take(
        &mut self,
        span: &'a Span,
        annotation: &'a A,
        stays: bool,
        meets: bool,
        count: usize,
    ) -> Result<(), NoMemory>
        requires { stays ≡ true → self.old.left_out < count }
        ensures spans { OnOk result (part_spans self.new
            ≡ part_spans self.old ++ n.only (meets && not stays) span.now) }
        ensures annotations { OnOk result (part_annotations self.new
            ≡ part_annotations self.old ++ n.only (meets && not stays) annotation.now) }
        ensures left_out { OnOk result
            (self.new.left_out ≡ self.old.left_out + length (n.only stays span.now)) }
    {
        if stays {
            self.left_out += 1;
            return Ok(());
        }
        self.push_if(span, annotation, meets)
    }

    /// Adds a row version, if it is left.
    fn push_if(&mut self, span: &'a Span, annotation: &'a A, is_left: bool) -> Result<(), NoMemory>
        ensures spans { OnOk result (part_spans self.new
            ≡ part_spans self.old ++ n.only is_left span.now) }
        ensures annotations { OnOk result (part_annotations self.new
            ≡ part_annotations self.old ++ n.only is_left annotation.now) }
        ensures left_out { self.new.left_out ≡ self.old.left_out }
    {
        if is_left {
            self.spans.push(span)?;
            self.annotations.push(annotation)?;
        }
        Ok(())
    }

    /// All row versions of a table.
    fn whole(
        alloc: Global,
        spans: &'a [Span],
        annotations: &'a [A],
    ) -> Result<Part<'a, A>, NoMemory>
        ensures spans { IfOk result (λ part. part_spans part ≡ spans.now) }
        ensures annotations { IfOk result (λ part. part_annotations part ≡ annotations.now) }
    {
        let spans = refs(alloc, spans)?;
        let annotations = refs(alloc, annotations)?;
        Ok(Part {
            spans,
            annotations,
            left_out: 0,
        })
    }

    /// Those that meet the versions and do not stay. Where rows are not tested, none stays.
    fn left(
        alloc: Global,
        spans: &'a [Span],
        annotations: &'a [A],
        table: u32,
        reach: Reach,
        t: u32,
        statements: &[&Stmt],
        tested: bool,
    ) -> Result<Part<'a, A>, NoMemory>
        requires each { length annotations.now ≡ length spans.now }
        requires simple { list_all tests_are_simple
            (map (λ stmt. statement_view stmt.now) statements.now) ≡ true }
        ensures { IfOk result (IsLeft (n.meets reach) (n.stays_if tested reach t
            (map (λ stmt. statement_view stmt.now) statements.now) table)
            spans.now annotations.now) }
    {
        let mut part = Part::new(alloc);
        for i in 0..spans.len() {
            let span = &spans[i];
            let stays = stays_if(tested, span, reach, t, statements, table);
            let meets = reach.meets(span);
            part.take(span, &annotations[i], stays, meets, spans.len())?;
        }
        Ok(part)
    }

    /// Those of the row versions at these places that meet the versions and do not stay. All that do so are among them, and the
    /// places are ascending. What stays is not counted.
    fn at(
        alloc: Global,
        spans: &'a [Span],
        annotations: &'a [A],
        table: u32,
        reach: Reach,
        t: u32,
        statements: &[&Stmt],
        places: &[u32],
    ) -> Result<Part<'a, A>, NoMemory>
        requires each { length annotations.now ≡ length spans.now }
        requires simple { list_all tests_are_simple
            (map (λ stmt. statement_view stmt.now) statements.now) ≡ true }
        requires found { HasThose (λ span. n.is_left reach t
            (map (λ stmt. statement_view stmt.now) statements.now) table span ≡ true)
            spans.now places.now }
        requires ascending { AreAscending places.now }
        ensures { IfOk result (n.IsFound (n.is_left reach t
            (map (λ stmt. statement_view stmt.now) statements.now) table)
            spans.now annotations.now) }
    {
        let mut part = Part::new(alloc);
        let mut next = 0usize;
        for place in places {
            let Some(i) = unseen(*place, next, spans.len()) else {
                continue;
            };
            let span = &spans[i];
            let left = is_left(span, reach, t, statements, table);
            part.push_if(span, &annotations[i], left)?;
            next = i + 1;
        }
        Ok(part)
    }

    /// Those that matter to a commit, without a pass over all row versions. None where an INSERT into the table counts them, or a
    /// condition asks for no cell that an index finds, or too many are found.
    fn found(
        alloc: Global,
        spans: &'a [Span],
        annotations: &'a [A],
        table: u32,
        reach: Reach,
        t: u32,
        statements: &[&Stmt],
        finder: &Finder,
    ) -> Result<Option<Part<'a, A>>, NoMemory>
        requires each { length annotations.now ≡ length spans.now }
        requires simple { list_all tests_are_simple
            (map (λ stmt. statement_view stmt.now) statements.now) ≡ true }
        requires finder { IsFinder spans.now finder.now }
        ensures { IfOk result (λ found. IfSome found (IsLeftBy reach t
            (map (λ stmt. statement_view stmt.now) statements.now) table spans.now annotations.now)) }
    {
        if insert_into(statements, table) {
            return Ok(None);
        }
        let Some(cells) = cells_for(alloc, statements, table)? else {
            return Ok(None);
        };
        let wanted = Wanted {
            first: reach.first,
            last: reach.last,
            t,
            cells: &cells,
        };
        let most = spans.len() / FEW;
        let Some(places) = finder.places(alloc, spans, &wanted, most)? else {
            return Ok(None);
        };
        Ok(Some(Part::at(
            alloc,
            spans,
            annotations,
            table,
            reach,
            t,
            statements,
            &places,
        )?))
    }

    /// Those that matter to a commit, by the finder of the table, if it has one.
    fn narrow(
        alloc: Global,
        spans: &'a [Span],
        annotations: &'a [A],
        table: u32,
        reach: Reach,
        t: u32,
        statements: &[&Stmt],
        finders: &[Finder],
    ) -> Result<Part<'a, A>, NoMemory>
        requires each { length annotations.now ≡ length spans.now }
        requires simple { list_all tests_are_simple
            (map (λ stmt. statement_view stmt.now) statements.now) ≡ true }
        requires finder { IfSome (slice_get finders.now table) (IsFinder spans.now) }
        ensures { IfOk result (IsLeftBy reach t
            (map (λ stmt. statement_view stmt.now) statements.now) table spans.now annotations.now) }
    {
        if let Some(finder) = finders.get(table as usize) {
            if let Some(part) = Part::found(
                alloc,
                spans,
                annotations,
                table,
                reach,
                t,
                statements,
                finder,
            )? {
                return Ok(part);
            }
        }
        Part::passed(alloc, spans, annotations, table, reach, t, statements)
    }

    /// Those that matter to a commit, by a pass over all. Rows are not tested one by one if a statement leaves none of them, and none stays if more rows would
    /// than a table may have.
    fn passed(
        alloc: Global,
        spans: &'a [Span],
        annotations: &'a [A],
        table: u32,
        reach: Reach,
        t: u32,
        statements: &[&Stmt],
    ) -> Result<Part<'a, A>, NoMemory>
        requires each { length annotations.now ≡ length spans.now }
        requires simple { list_all tests_are_simple
            (map (λ stmt. statement_view stmt.now) statements.now) ≡ true }
        ensures { IfOk result (IsLeftBy reach t
            (map (λ stmt. statement_view stmt.now) statements.now) table spans.now annotations.now) }
    {
        let tested = !are_swept(statements, table);
        let part = Part::left(
            alloc,
            spans,
            annotations,
            table,
            reach,
            t,
            statements,
            tested,
        )?;
        if part.left_out <= MAX_TABLE_ROWS {
            return Ok(part);
        }
        drop(part);
        Ok(Part::left(
            alloc,
            spans,
            annotations,
            table,
            reach,
            t,
            statements,
            false,
        )?)
    }

    /// The lesser limit: this one, or the room beside the rows that are left out, if there is an INSERT into the table.
    fn room(&self, most: usize, inserts: bool) -> usize
        requires { self.now.left_out ≤ MAX_TABLE_ROWS }
        ensures less { result ≤ most }
        ensures room { inserts ≡ true → result + self.now.left_out ≤ MAX_TABLE_ROWS }
    {
        let beside = MAX_TABLE_ROWS - self.left_out;
        if inserts && beside < most {
            beside
        } else {
            most
        }
    }
}

// ---- all tables

/// Row versions of all tables.
#[derive(Drop)]
pub struct Narrowed<'a, A> {
    /// Those of each table.
    pub parts: Vec<Part<'a, A>>,
    /// Those of a table that is not there.
    pub none: Part<'a, A>,
    /// How many of these rows an INSERT may leave in its table.
    pub most: usize,
}

impl<'a, A: Drop> Narrowed<'a, A> {
    /// All row versions.
    pub fn whole(
        alloc: Global,
        versions: &'a [VersionTable],
        known: &'a Annotated<A>,
    ) -> Result<Narrowed<'a, A>, NoMemory>
        ensures spans { IfOk result (λ whole. (table : ℕ)
            → narrow_spans whole table ≡ spans_of versions.now table) }
        ensures versions { IfOk result (λ whole. (version table : ℕ)
            → narrow_versions whole version table
            ≡ versions_with (spans_of versions.now) known.now version table) }
        ensures most { IfOk result (λ whole. whole.most ≡ MAX_TABLE_ROWS) }
    {
        let mut parts = Vec::new(alloc);
        for (table, spans) in versions.iter().enumerate() {
            parts.push(Part::whole(alloc, spans.as_slice(), known.annotations(table))?)?;
        }
        Ok(Narrowed {
            parts,
            none: Part::new(alloc),
            most: MAX_TABLE_ROWS,
        })
    }

    /// The row versions that matter to the commit after a version, by transaction t, which has these statements.
    pub fn of_commit(
        alloc: Global,
        log: &Log,
        versions: &'a [VersionTable],
        known: &'a Annotated<A>,
        before: u32,
        t: u32,
        statements: &[&Stmt],
        finders: &[Finder],
    ) -> Result<Narrowed<'a, A>, NoMemory>
        requires sound { h.IsSound log.now versions.now }
        requires within { before < commits log.now }
        requires maker { t ≡ h.maker log.now before }
        requires known { (table : ℕ) → length (slice_index_or known.now table [])
            ≡ length (spans_of versions.now table) }
        requires statements { map (λ stmt. statement_view stmt.now) statements.now
            ≡ n.statements_upto (m.log_of (entries log.now)) t
            (m.statement_count t (entries log.now)) }
        requires finders { AreFinders (spans_of versions.now) finders.now }
        ensures { IfOk result (h.IsNarrow log.now versions.now t before known.now) }
    {
        let reach = reach_of(log, t, before);
        let mut parts = Vec::new(alloc);
        let mut most = MAX_TABLE_ROWS;
        for table in 0..log.catalog().len() {
            let part = Part::narrow(
                alloc,
                spans_in(versions, table as usize),
                known.annotations(table as usize),
                table,
                reach,
                t,
                statements,
                finders,
            )?;
            most = part.room(most, insert_into(statements, table));
            parts.push(part)?;
        }
        Ok(Narrowed {
            parts,
            none: Part::new(alloc),
            most,
        })
    }

    /// The part of a table.
    fn part(&self, table: u32) -> &Part<'a, A>
        ensures { result.now ≡ part_of self.now table }
    {
        let parts = self.parts.as_slice();
        parts.get(table as usize).unwrap_or(&self.none)
    }

    /// The row versions of a table.
    pub fn spans(&self, table: u32) -> &[&'a Span]
        ensures { map (λ span. span.now) result.now ≡ narrow_spans self.now table }
    {
        self.part(table).spans.as_slice()
    }

    /// Their annotations.
    pub fn annotations(&self, table: u32) -> &[&'a A]
        ensures { map (λ annotation. annotation.now) result.now
            ≡ narrow_annotations self.now table }
    {
        self.part(table).annotations.as_slice()
    }
}
