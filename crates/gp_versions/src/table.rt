//! The row versions of a table.

ghost use Rattle.std.specs.Prelude.{◌≡◌, ℕ, ◌+◌, ◌-◌, ◌++◌, ◌<◌, ◌≤◌, [], IfOk, OnOk, length, slice_get};
ghost use Rattle.std.specs.List.{range_with_len};
ghost use Rattle.std.specs.List.Sorted.{IsPermutation, IsSortedByKey};
ghost use Rattle.std.specs.Option.{option_cmp};
ghost use Rattle.gp_base.specs.Annotated.{unannotated};
ghost use Rattle.gp_versions.specs.Commits.{AreBelow, AreDistinct, after_commit, live_rows, unwritten_rows};
ghost use Rattle.gp_versions.specs.Spans.{rows_at, span_cmp, spans_at};
ghost use Rattle.gp_versions.specs.TableSpans.{AreWhole, NoOverlap, written_after};

use crate::as_of::AsOf;
use crate::chains::Chains;
use crate::columns::{ColumnIndex, enter_column};
use crate::commit::commit_spans;
use crate::current::Current;
use crate::key::By;
use crate::later::{lesser, written_after};
use crate::order::sorted_places;
use crate::span::Span;
use crate::span_list::SpanList;
use crate::writes::Writes;
use gp_base::{NoMemory, RowId};
use std::alloc::Global;
use std::marker::Model;

/// The row versions of a table, since its creation: its spans, in the order in which they began, or the order that
/// [`VersionTable::from_spans`] was given. Spans of one identity never overlap, so each version has at most one row of an
/// identity, and each span holds at least one version.
///
/// The later writes of a row, and the span that a commit ends, are looked up by the row's identity among the spans that
/// [`VersionTable::enter`] has entered, and by a pass over the others, which began since. The rows of the newest versions are
/// found among the spans that were open when they were entered, and the others. Rows with a cell are looked up in the columns
/// that [`VersionTable::enter_column`] has indexed. Contracts do not see which spans are entered.
#[derive(Drop)]
pub struct VersionTable {
    spans: Vec<Span>,
    chains: Chains,
    current: Current,
    indexes: Vec<ColumnIndex>,
}

impl Model for VersionTable {
    ghost use Rattle.std.specs.Prelude.{◌-◌, vec_capacity, vec_len};
    ghost use Rattle.gp_versions.specs.Chains.{AreIndexes, IsChained};
    ghost use Rattle.gp_versions.specs.Listed.{IsCurrent};
    ghost use Rattle.gp_versions.specs.Spans.{Versions};
    ghost use Rattle.gp_versions.specs.TableSpans.{AreWhole, NoOverlap};
    ghost use Rattle.gp_versions.specs.SpanCodes.{versions_code};

    ghost Value = { Versions };

    ghost coded = { versions_code };

    ghost view = { λ a. record {
      spans = a.spans.items;
      spare = vec_capacity a.spans - vec_len a.spans;
    } };

    ghost invariant = { λ a. NoOverlap a.spans.items × AreWhole a.spans.items
        × IsChained a.chains a.spans.items × IsCurrent a.current a.spans.items
        × AreIndexes a.indexes.items a.spans.items };
}

impl VersionTable {
    /// A table without spans.
    pub fn new(alloc: Global) -> VersionTable
        ensures { result.spans ≡ [] }
    {
        VersionTable {
            spans: Vec::new(alloc),
            chains: Chains::new(alloc),
            current: Current::new(alloc),
            indexes: Vec::new(alloc),
        }
    }

    /// A table with these spans. Spans of one identity are in the order in which they began, and the spans of different
    /// identities in any order.
    pub fn from_spans(spans: Vec<Span>) -> VersionTable
        requires apart { NoOverlap spans.items }
        requires whole { AreWhole spans.items }
        ensures spans { result.spans ≡ spans.items }
    {
        let alloc = *spans.allocator();
        VersionTable {
            spans,
            chains: Chains::new(alloc),
            current: Current::new(alloc),
            indexes: Vec::new(alloc),
        }
    }

    /// The number of spans.
    pub fn len(&self) -> usize
        ensures { result ≡ length self.now.spans }
    {
        self.spans.len()
    }

    /// The spans, in the order in which they began.
    pub fn as_slice(&self) -> &[Span]
        ensures spans { result.now ≡ self.now.spans }
        ensures apart { NoOverlap self.now.spans }
        ensures whole { AreWhole self.now.spans }
    {
        self.spans.as_slice()
    }

    /// The span at a place; places are numbered from 0, in the order in which the spans began.
    pub fn span(&self, place: u32) -> &Span
        requires { place < length self.now.spans }
        ensures { slice_get self.now.spans place ≡ Some result.now }
    {
        &self.spans[place as usize]
    }

    /// The places of the spans, in order of identity, and for one identity in order of their beginning. Places that 32 bits
    /// cannot number run out of memory.
    pub fn spans(&self, alloc: Global) -> Result<Vec<u32>, NoMemory>
        ensures places { IfOk result
            (λ places. IsPermutation (range_with_len 0 (length self.now.spans)) places.items) }
        ensures sorted { IfOk result (λ places. IsSortedByKey
            (slice_get self.now.spans) (option_cmp span_cmp) places.items) }
    {
        sorted_places(alloc, &self.spans)
    }

    /// The spans, for those that read versions of the table.
    pub fn as_list(&self) -> SpanList<'_>
        ensures spans { result ≡ self.now.spans }
        ensures apart { NoOverlap self.now.spans }
    {
        SpanList::of(&self.spans, &self.current, &self.indexes)
    }

    /// The spans that hold the version, in the order in which they began.
    pub fn as_of(&self, v: u32) -> AsOf<'_>
        ensures { result ≡ spans_at v self.now.spans }
    {
        self.current.as_of(&self.spans, v)
    }

    /// The least version above v at which a span of the identity begins or ends, or None if there is none.
    pub fn written_after(&self, id: &RowId, v: u32) -> Option<u32>
        ensures { result ≡ written_after id.now v self.now.spans }
    {
        let spans = self.spans.as_slice();
        let entered = self.chains.written_after(spans, id, v);
        lesser(entered, written_after(&spans[self.chains.len()..], id, v))
    }

    /// Enters the spans that began since the last call: [`VersionTable::written_after`] and [`VersionTable::append_commit`] then
    /// look them up by identity, and the rows of new versions are found without a pass over those that have ended. The spans
    /// and the room are unchanged, also if memory runs out; some spans are entered then. Places that 32 bits cannot number run
    /// out of memory.
    pub fn enter(&mut self) -> Result<(), NoMemory>
        ensures { self.new ≡ self.old }
    {
        self.chains.enter(By::Identity, &self.spans)?;
        self.current.cover(&self.spans)
    }

    /// Enters the spans that began since the last call for this column: [`SpanList::places_with`] then looks them up by their
    /// cell there. The first call for a column only notes it, as a single look-up is not worth an index. The spans and the
    /// room are unchanged, also if memory runs out; some spans are entered then. Places that 32 bits cannot number run out of
    /// memory.
    pub fn enter_column(&mut self, column: u32) -> Result<(), NoMemory>
        ensures { self.new ≡ self.old }
    {
        enter_column(&mut self.indexes, &self.spans, column)
    }

    /// Makes room for at least n more spans. The spans are unchanged, and no room is lost, also if memory runs out.
    pub fn reserve(&mut self, n: u32) -> Result<(), NoMemory>
        ensures unchanged { self.new.spans ≡ self.old.spans }
        ensures spare { OnOk result (n ≤ self.new.spare) }
        ensures kept { self.old.spare ≤ self.new.spare }
    {
        self.spans.reserve(n as usize)?;
        Ok(())
    }

    /// Makes a version: ends the open spans of the written identities there, and begins a span for each write that has a
    /// row. The version is above all versions at which a span begins or ends, the writes are of different identities, and
    /// there is room for them, so that nothing can fail. Earlier versions keep their rows. The new version has the rows of
    /// the version before it without those of the written identities, and then the rows that the writes leave.
    pub fn append_commit(&mut self, version: u32, writes: Writes)
        requires first { 1 ≤ version }
        requires above { AreBelow version self.old.spans }
        requires distinct { AreDistinct writes }
        requires room { length writes ≤ self.old.spare }
        ensures spans { self.new.spans ≡ after_commit version writes self.old.spans }
        ensures older { (v : ℕ) → v < version
            → rows_at unannotated v self.new.spans ≡ rows_at unannotated v self.old.spans }
        ensures newest { rows_at unannotated version self.new.spans
            ≡ unwritten_rows writes (rows_at unannotated (version - 1) self.old.spans)
            ++ live_rows unannotated writes }
        ensures below { AreBelow (version + 1) self.new.spans }
    {
        commit_spans(&mut self.spans, &self.chains, version, writes);
    }
}
