//! The spans of a table by their identities, or by their cells in a column.

ghost use Rattle.std.specs.Prelude.{◌≡◌, ℕ, ◌+◌, ◌<◌, true, IfOk, IfSome, List, OnOk, length, slice_get, take};
ghost use Rattle.gp_versions.specs.declared.key.By.TheVariants as variant;
ghost use Rattle.gp_versions.specs.declared.key.Key as declared;
ghost use Rattle.gp_versions.specs.Chains.{AreChained, IsChained, IsKeyAt, IsLast, LeadsTo, change_after, entered, ids_of, is_begun};
ghost use Rattle.gp_versions.specs.Finding.{AreAmong, HasPlaces};
ghost use Rattle.gp_versions.specs.Keys.{keys_by};
ghost use Rattle.gp_versions.specs.Places.{holds_with, places_where};
ghost use Rattle.gp_versions.specs.TableSpans.{AreWhole, NoOverlap, written_after};

use crate::key::{By, Key, key_by, key_of, key_of_cell};
use crate::later::{changed_after, is_same, lesser};
use crate::places::{InColumn, Sought, push_listed};
use crate::span::Span;
use gp_base::{NoMemory, RowId};
use indexmap::IndexMap;
use std::alloc::Global;

/// The places of spans by keys, of their identities or of their cells in a column. The first spans of a table are entered,
/// one after another. Those with equal keys are a chain: the newest one is found by the key, and each knows the one before
/// it. A walk along a chain compares identities or cells, so keys decide how long it is and not what it finds. A commit ends
/// spans and appends others, and neither changes the chains.
#[derive(Drop)]
pub struct Chains {
    // The place of the newest entered span of each key.
    newest: IndexMap<Key, u32>,
    // For each entered span the place of the one before it with an equal key.
    befores: Vec<Option<u32>>,
}

/// The least version above v at which the span begins or ends, if it is of the identity.
fn change_after(span: &Span, id: &RowId, v: u32) -> Option<u32>
    ensures { result ≡ change_after id.now v span.now }
{
    if is_same(&span.id, id) {
        changed_after(span, v)
    } else {
        None
    }
}

/// Whether the span is of the identity and begins at v or before it. Earlier spans of the identity then end at v or before.
fn is_begun(span: &Span, id: &RowId, v: u32) -> bool
    ensures { result ≡ is_begun id.now v span.now }
{
    span.from <= v && is_same(&span.id, id)
}

impl Chains {
    /// The chains of no spans, which take no memory.
    pub fn new(alloc: Global) -> Chains
        ensures { (keys : List declared.Key) → AreChained result keys }
    {
        Chains {
            newest: IndexMap::new(alloc),
            befores: Vec::new(alloc),
        }
    }

    /// How many spans are entered.
    pub fn len(&self) -> usize
        ensures { result ≡ entered self.now }
    {
        self.befores.len()
    }

    /// Enters the next span, which has this key. If memory runs out, it is not entered.
    fn enter_next(&mut self, key: Key) -> Result<(), NoMemory>
        ensures one { OnOk result (entered self.new ≡ entered self.old + 1) }
        ensures chained { (keys : List declared.Key) → slice_get keys (entered self.old) ≡ Some key
            → AreChained self.old keys → AreChained self.new keys }
    {
        let Ok(place) = u32::try_from(self.befores.len()) else {
            return Err(NoMemory);
        };
        self.befores.reserve(1)?;
        let before = self.newest.insert(key, place)?;
        self.befores.push_reserved(before);
        Ok(())
    }

    /// Enters the spans that are not yet entered. If memory runs out, some of them are. Places that 32 bits cannot number
    /// run out of memory.
    pub fn enter(&mut self, by: By, spans: &[Span]) -> Result<(), NoMemory>
        requires chained { AreChained self.old (keys_by by spans.now) }
        ensures chained { AreChained self.new (keys_by by spans.now) }
        ensures all { OnOk result (entered self.new ≡ length spans.now) }
    {
        while self.befores.len() < spans.len() {
            let place = self.befores.len();
            self.enter_next(key_by(by, &spans[place]))?;
        }
        Ok(())
    }

    /// The place of the newest entered span with the key.
    fn newest(&self, key: Key) -> Option<u32>
        ensures { (keys : List declared.Key) → AreChained self.now keys
            → IsLast keys key (entered self.now) result }
    {
        self.newest.get(&key).copied()
    }

    /// The place of the newest entered span of the identity, or None if there is none.
    pub fn newest_of(&self, spans: &[Span], id: &RowId) -> Option<u32>
        requires chained { IsChained self.now spans.now }
        ensures { IsLast (ids_of spans.now) id.now (entered self.now) result }
    {
        let mut walk = self.newest(key_of(id));
        while let Some(place) = walk {
            if is_same(&spans[place as usize].id, id) {
                return Some(place);
            }
            walk = self.befores[place as usize];
        }
        None
    }

    /// Where a walk goes on behind this place: at the place before it in the chain, or nowhere if no earlier span of the
    /// identity begins or ends above v. A row that is written often has a long chain, of which a walk sees only the end.
    fn earlier(&self, spans: &[Span], place: u32, id: &RowId, v: u32) -> Option<u32>
        requires chained { IsChained self.now spans.now }
        requires apart { NoOverlap spans.now }
        requires whole { AreWhole spans.now }
        requires here { IsKeyAt spans.now id.now (entered self.now) (Some place) }
        ensures { LeadsTo spans.now id.now v place result }
    {
        if is_begun(&spans[place as usize], id, v) {
            None
        } else {
            self.befores[place as usize]
        }
    }

    /// The least version above v at which an entered span of the identity begins or ends, or None if there is none.
    pub fn written_after(&self, spans: &[Span], id: &RowId, v: u32) -> Option<u32>
        requires chained { IsChained self.now spans.now }
        requires apart { NoOverlap spans.now }
        requires whole { AreWhole spans.now }
        ensures { result ≡ written_after id.now v (take (entered self.now) spans.now) }
    {
        let mut found = None;
        let mut walk = self.newest(key_of(id));
        while let Some(place) = walk {
            found = lesser(change_after(&spans[place as usize], id, v), found);
            walk = self.earlier(spans, place, id, v);
        }
        found
    }

    /// The places of the entered spans that hold the version and have the cell, ascending. None if the walk has more than
    /// this many steps.
    pub fn places(
        &self,
        alloc: Global,
        spans: &[Span],
        own: InColumn<'_>,
        v: u32,
        most: usize,
    ) -> Result<Option<Vec<u32>>, NoMemory>
        requires { AreChained self.now (keys_by (variant.Column own.column) spans.now) }
        ensures { IfOk result (λ found. IfSome found (λ places. places.items
            ≡ places_where (holds_with v own.entry.column own.entry.cell.now)
            (take (entered self.now) spans.now))) }
    {
        let sought = Sought { v, own: Some(own) };
        let mut found = Vec::new(alloc);
        let mut left = most;
        let mut next = self.newest(key_of_cell(own.cell.as_ref()));
        while let Some(place) = next {
            if left == 0 {
                return Ok(None);
            }
            left -= 1;
            push_listed(&mut found, spans, &[place], &sought)?;
            next = self.befores[place as usize];
        }
        found.reverse();
        Ok(Some(found))
    }

    /// The place before this one in its chain, if there is one.
    fn before(&self, place: u32) -> Option<u32>
        ensures { IfSome (slice_get self.now.befores.items place) (λ before. result ≡ before) }
    {
        match self.befores.get(place as usize) {
            Some(before) => *before,
            None => None,
        }
    }

    /// Appends the places of the entered spans with the key. False if there are more places than these then; some of the
    /// spans are missing in that case.
    pub fn push_places(&self, found: &mut Vec<u32>, key: Key, most: usize) -> Result<bool, NoMemory>
        ensures kept { OnOk result (AreAmong found.old.items found.new.items) }
        ensures all { IfOk result
            (λ all. all ≡ true → HasPlaces key self.now found.new.items) }
    {
        let mut next = self.newest(key);
        while let Some(place) = next {
            if found.len() >= most {
                return Ok(false);
            }
            found.push(place)?;
            next = self.before(place);
        }
        Ok(true)
    }
}
