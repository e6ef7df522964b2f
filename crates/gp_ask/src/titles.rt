//! The titles of the columns of an answer.

ghost use Rattle.std.specs.Prelude.{◌≡◌, ◌≤◌, ◌-◌, ◌++◌, ◌∷◌, [], suc, length, map, codes, None, Some, IfOk, OnOk};
ghost use Rattle.gp_check.specs.Scopes as s;
ghost use Rattle.gp_syntax.specs.Views.{block_view, item_view, items_view, query_view, term_view};
ghost use Rattle.gp_ask.specs.Titles as t;

use gp_base::{Catalog, Column, Name, NoMemory, Sequence, Text, text_of_pieces};
use gp_syntax::{Block, Item, Items, Query, Term};
use std::alloc::Global;

/// Whether a column has this title.
fn is_taken(titles: &[Text], name: &[u8]) -> bool
    ensures { result ≡ t.is_title titles.now name.now }
{
    titles.iter().any(|title| title.as_bytes() == name)
}

/// Adds the place of a column as its title.
fn push_place(alloc: Global, others: usize, titles: &mut Sequence<Text>) -> Result<(), NoMemory>
    requires some { 1 ≤ others }
    requires within { others ≤ length titles.old }
    ensures { OnOk result (titles.new ≡ titles.old ++ t.title others titles.old None ∷ []) }
{
    let place = titles.as_slice().len() - others + 1;
    let digits = place.to_string(alloc)?;
    let text = text_of_pieces(alloc, &[b"c", digits.as_bytes()])?;
    titles.push(Text::from_bytes(alloc, &text)?)
}

/// Adds the title of a column that has a name.
fn push_name(
    alloc: Global,
    others: usize,
    name: &Name,
    titles: &mut Sequence<Text>,
) -> Result<(), NoMemory>
    requires some { 1 ≤ others }
    requires within { others ≤ length titles.old }
    ensures { OnOk result
        (titles.new ≡ titles.old ++ t.title others titles.old (Some name.now) ∷ []) }
{
    if is_taken(titles.as_slice(), name.as_bytes()) {
        push_place(alloc, others, titles)
    } else {
        titles.push(Text::from_bytes(alloc, name.as_bytes())?)
    }
}

/// Adds the title of a column of which this is the term.
fn push_term(
    alloc: Global,
    others: usize,
    term: &Term,
    titles: &mut Sequence<Text>,
) -> Result<(), NoMemory>
    requires some { 1 ≤ others }
    requires within { others ≤ length titles.old }
    ensures { OnOk result (titles.new
        ≡ titles.old ++ t.title others titles.old (t.term_name (term_view term.now)) ∷ []) }
{
    match term {
        Term::Col { col, .. } => push_name(alloc, others, col, titles),
        _ => push_place(alloc, others, titles),
    }
}

/// Adds the titles of the columns of which these are the terms.
#[tactic(auto, using(crate::proofs::TitleLemmas::term_steps))]
fn push_terms(
    alloc: Global,
    others: usize,
    terms: &[Term],
    titles: &mut Sequence<Text>,
) -> Result<(), NoMemory>
    requires some { 1 ≤ others }
    requires within { others ≤ length titles.old }
    ensures { OnOk result (titles.new
        ≡ t.with_titles others titles.old (map t.term_name (map term_view terms.now))) }
{
    for term in terms {
        push_term(alloc, others, term, titles)?;
    }
    Ok(())
}

/// Adds the titles of the columns of a table.
#[tactic(auto, using(crate::proofs::TitleLemmas::column_steps))]
fn push_columns(
    alloc: Global,
    others: usize,
    columns: &[Column],
    titles: &mut Sequence<Text>,
) -> Result<(), NoMemory>
    requires some { 1 ≤ others }
    requires within { others ≤ length titles.old }
    ensures titles { OnOk result (titles.new
        ≡ t.with_titles others titles.old (t.table_names columns.now)) }
    ensures within { OnOk result (others ≤ length titles.new) }
{
    for column in columns {
        push_name(alloc, others, &column.name, titles)?;
    }
    Ok(())
}

/// The columns of the table with this name; none if there is no such table.
fn columns_of<'a>(catalog: &'a Catalog, table: &Name) -> &'a [Column]
    ensures { result.now ≡ s.columns_of catalog.now table.now }
{
    match catalog.find(table) {
        Some(place) => catalog.table(place).cols.as_slice(),
        None => &[],
    }
}

/// Adds the titles of the columns of the tables of a FROM.
#[tactic(auto, using(crate::proofs::TitleLemmas::table_steps))]
fn push_tables(
    alloc: Global,
    catalog: &Catalog,
    others: usize,
    from: &[Item],
    titles: &mut Sequence<Text>,
) -> Result<(), NoMemory>
    requires some { 1 ≤ others }
    requires within { others ≤ length titles.old }
    ensures { OnOk result (titles.new ≡ t.with_titles others titles.old
        (t.star_names catalog.now (map item_view from.now))) }
{
    for item in from {
        push_columns(alloc, others, columns_of(catalog, &item.table), titles)?;
    }
    Ok(())
}

/// Adds the titles of the columns of a SELECT.
fn push_block(
    alloc: Global,
    catalog: &Catalog,
    others: usize,
    block: &Block,
    titles: &mut Sequence<Text>,
) -> Result<(), NoMemory>
    requires some { 1 ≤ others }
    requires within { others ≤ length titles.old }
    ensures { OnOk result (titles.new ≡ t.with_titles others titles.old
        (t.item_names catalog.now (map item_view block.now.from) (items_view block.now.items))) }
{
    match &block.items {
        Items::Star => push_tables(alloc, catalog, others, block.from.as_slice(), titles),
        Items::List(terms) => push_terms(alloc, others, terms.as_slice(), titles),
    }
}

/// Adds the titles of the columns of a query.
fn push_titles(
    alloc: Global,
    catalog: &Catalog,
    others: usize,
    query: &Query,
    titles: &mut Sequence<Text>,
) -> Result<(), NoMemory>
    requires some { 1 ≤ others }
    requires within { others ≤ length titles.old }
    ensures { OnOk result (titles.new ≡ t.with_titles others titles.old
        (t.query_names catalog.now (query_view query.now))) }
{
    match query.blocks.as_slice() {
        [] => Ok(()),
        [first, ..] => push_block(alloc, catalog, others, first, titles),
    }
}

/// The titles of the columns of rows.
pub fn row_titles(
    alloc: Global,
    catalog: &Catalog,
    query: &Query,
) -> Result<Sequence<Text>, NoMemory>
    ensures { IfOk result (λ titles. titles
        ≡ t.row_titles (t.query_names catalog.now (query_view query.now))) }
{
    let mut titles = Sequence::new(alloc);
    titles.push(Text::from_bytes(alloc, b"line")?)?;
    push_titles(alloc, catalog, 1, query, &mut titles)?;
    Ok(titles)
}

/// The titles of the columns of a difference.
pub fn difference_titles(
    alloc: Global,
    catalog: &Catalog,
    query: &Query,
) -> Result<Sequence<Text>, NoMemory>
    ensures { IfOk result (λ titles. titles
        ≡ t.difference_titles (t.query_names catalog.now (query_view query.now))) }
{
    let mut titles = Sequence::new(alloc);
    titles.push(Text::from_bytes(alloc, b"line")?)?;
    titles.push(Text::from_bytes(alloc, b"side")?)?;
    push_titles(alloc, catalog, 2, query, &mut titles)?;
    Ok(titles)
}
