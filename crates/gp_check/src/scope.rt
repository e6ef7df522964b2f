//! What the names of columns stand for.

ghost use Rattle.std.specs.Prelude.{◌≡◌, ◌+◌, ◌++◌, ◌∷◌, [], ◌<◌, ◌^◌, length, map, IfOk, OnOk};
ghost use Rattle.gp_syntax.specs.Views.{item_view};
ghost use Rattle.gp_check.specs.Scopes.{columns_of, resolution, may_be_of, place_behind, place_in, scope_of, target_scope};
ghost use Rattle.gp_check.specs.Views.{source_view, with_place};

use crate::place::{Place, Resolution};
use crate::source::Source;
use gp_base::{Catalog, Column, Name, NoMemory};
use gp_syntax::Item;
use std::alloc::Global;

/// The columns of the table with this name; none if there is no such table.
pub fn columns_of<'a>(catalog: &'a Catalog, table: &Name) -> &'a [Column]
    ensures { result.now ≡ columns_of catalog.now table.now }
{
    match catalog.find(table) {
        Some(place) => catalog.table(place).cols.as_slice(),
        None => &[],
    }
}

/// The first of the columns with this name, where as many columns are before them.
fn place_behind(before: u32, col: &Name, columns: &[Column]) -> Option<Place>
    requires { before + length columns.now < 2 ^ 32 }
    ensures { result ≡ place_behind before col.now columns.now }
{
    let mut number = before;
    for column in columns {
        number += 1;
        if *col == column.name {
            return Some(Place {
                number,
                kind: column.kind,
            });
        }
    }
    None
}

/// Whether a column with this FROM name, or with none, may be of the source.
fn may_be_of(item: &Option<Name>, source: &Source) -> bool
    ensures { result ≡ may_be_of item.now (source_view source.now) }
{
    match item {
        None => true,
        Some(item) => *item == *source.name,
    }
}

/// The column of the source that the name may stand for.
fn place_in(item: &Option<Name>, col: &Name, source: &Source) -> Option<Place>
    ensures { result
        ≡ place_in (record { item = item.now; col = col.now }) (source_view source.now) }
{
    if may_be_of(item, source) {
        place_behind(source.before, col, source.columns)
    } else {
        None
    }
}

/// What is known with one more place, if there is one.
fn with_place(found: Resolution, place: Option<Place>) -> Resolution
    ensures { result ≡ with_place found place }
{
    match (found, place) {
        (found, None) => found,
        (Resolution::Absent, Some(place)) => Resolution::Found(place),
        (_, Some(_)) => Resolution::Ambiguous,
    }
}

/// The column that the name stands for.
#[tactic(auto, using(crate::proofs::ScopeLemmas::places_known))]
pub fn resolve(scope: &[Source], item: &Option<Name>, col: &Name) -> Resolution
    ensures { result
        ≡ resolution (map source_view scope.now) (record { item = item.now; col = col.now }) }
{
    let mut found = Resolution::Absent;
    for source in scope {
        found = with_place(found, place_in(item, col, source));
    }
    found
}

/// Adds a table to a FROM. A FROM whose columns cannot be numbered by 32 bits is out of memory.
fn push_source<'a>(
    scope: &mut Vec<Source<'a>>,
    before: u32,
    name: &'a Name,
    columns: &'a [Column],
) -> Result<u32, NoMemory>
    ensures pushed { OnOk result (map source_view scope.new.items
        ≡ map source_view scope.old.items
        ++ record { name = name.now; before = before; columns = columns.now } ∷ []) }
    ensures width { IfOk result (λ width. width ≡ before + length columns.now) }
{
    let all = before as u64 + columns.len() as u64;
    if all > u32::MAX as u64 {
        return Err(NoMemory);
    }
    scope.push(Source {
        name,
        before,
        columns,
    })?;
    Ok(all as u32)
}

/// The tables of a FROM, in order.
pub fn scope_of<'a>(
    alloc: Global,
    catalog: &'a Catalog,
    from: &'a [Item],
) -> Result<Vec<Source<'a>>, NoMemory>
    ensures { IfOk result (λ scope. map source_view scope.items
        ≡ scope_of catalog.now (map item_view from.now)) }
{
    let mut scope = Vec::new(alloc);
    let mut before = 0;
    for item in from {
        before = push_source(
            &mut scope,
            before,
            &item.name,
            columns_of(catalog, &item.table),
        )?;
    }
    Ok(scope)
}

/// The one table of an UPDATE or a DELETE, under its own name.
pub fn target_scope<'a>(
    alloc: Global,
    catalog: &'a Catalog,
    table: &'a Name,
) -> Result<Vec<Source<'a>>, NoMemory>
    ensures { IfOk result (λ scope. map source_view scope.items
        ≡ target_scope catalog.now table.now) }
{
    let mut scope = Vec::new(alloc);
    push_source(&mut scope, 0, table, columns_of(catalog, table))?;
    Ok(scope)
}
