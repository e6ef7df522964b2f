//! The headings of a sheet: its first record, which names the columns.

ghost use Rattle.std.specs.Prelude.{◌≡◌, ◌==◌, ◌≤◌, IfOk, None, Some, length, if◌then◌else◌};
ghost use Rattle.std.specs.List.{position_or_len};
ghost use Rattle.csv.specs.Records.{fields_of};
ghost use Rattle.gp_csv.specs.SheetForms.{Returns};
ghost use Rattle.gp_csv.specs.Headings.{with_heading, heading_of, header_of, headings_from, is_taken, kind_of_suffix, name_len, heading_named};

use crate::error::{BAD_HEADER, CsvStop, NOT_UTF8, refused};
use crate::record::are_utf8;
use csv::ByteRecord;
use gp_base::{Kind, Name, NoMemory, is_name};
use gp_grammar::MAX_COLUMNS;
use std::alloc::Global;

/// A column, as the first record names it.
#[derive(Drop)]
pub(crate) struct Heading {
    /// Its name.
    pub name: Name,
    /// Its type, if one is written.
    pub kind: Option<Kind>,
}

/// The number of bytes before the first space, or of all bytes.
fn name_len(field: &[u8]) -> usize
    ensures value { result ≡ name_len field.now }
    ensures bound { result ≤ length field.now }
{
    field.iter().take_while(|byte| **byte != b' ').count()
}

/// The type in the rest of a field after the name: none, or a space and INT or TEXT in capitals.
fn kind_of_suffix(rest: &[u8]) -> Option<Option<Kind>>
    ensures { result ≡ kind_of_suffix rest.now }
{
    if rest == b"".as_slice() {
        Some(None)
    } else if rest == b" INT".as_slice() {
        Some(Some(Kind::Int))
    } else if rest == b" TEXT".as_slice() {
        Some(Some(Kind::Text))
    } else {
        None
    }
}

/// The heading of a word, in lower case, if that is a name.
fn heading_named(
    alloc: Global,
    word: &[u8],
    kind: Option<Kind>,
) -> Result<Option<Heading>, NoMemory>
    ensures { IfOk result (λ heading. heading ≡ heading_named word.now kind) }
{
    let name = word.to_ascii_lowercase(alloc)?;
    if is_name(&name) {
        let name = Name::new(alloc, &name)?;
        Ok(Some(Heading { name, kind }))
    } else {
        Ok(None)
    }
}

/// The heading that a field is, if it is one.
#[tactic(auto, unfolding(crate::specs::Headings::heading_of))]
fn parse_heading(alloc: Global, field: &[u8]) -> Result<Option<Heading>, NoMemory>
    ensures { IfOk result (λ heading. heading ≡ heading_of field.now) }
{
    let (word, rest) = field.split_at(name_len(field));
    match kind_of_suffix(rest) {
        None => Ok(None),
        Some(kind) => heading_named(alloc, word, kind),
    }
}

/// Whether a heading has this name.
fn is_taken(name: &[u8], headings: &[Heading]) -> bool
    ensures { result ≡ is_taken name.now headings.now }
{
    headings
        .iter()
        .any(|heading| heading.name.as_bytes() == name)
}

/// Adds a heading, unless another has its name.
fn add_heading(heading: Heading, headings: &mut Vec<Heading>) -> Result<bool, NoMemory>
    ensures { IfOk result (λ found. with_heading headings.old.items (Some heading)
        ≡ if found then Some headings.new.items else None) }
{
    if is_taken(heading.name.as_bytes(), headings) {
        return Ok(false);
    }
    headings.push(heading)?;
    Ok(true)
}

/// Adds the heading that a field is, if it is one and no other has its name.
fn add_field(alloc: Global, field: &[u8], headings: &mut Vec<Heading>) -> Result<bool, NoMemory>
    ensures { IfOk result (λ found. with_heading headings.old.items (heading_of field.now)
        ≡ if found then Some headings.new.items else None) }
{
    match parse_heading(alloc, field)? {
        None => Ok(false),
        Some(heading) => add_heading(heading, headings),
    }
}

/// Adds the headings of the fields, if all are headings with names of their own.
#[tactic(auto, using(crate::proofs::HeadingLemmas::heading_steps))]
fn add_fields(
    alloc: Global,
    record: &ByteRecord,
    headings: &mut Vec<Heading>,
) -> Result<bool, NoMemory>
    ensures { IfOk result (λ found. headings_from headings.old.items (fields_of record.now)
        ≡ if found then Some headings.new.items else None) }
{
    for field in record {
        if !add_field(alloc, field, headings)? {
            return Ok(false);
        }
    }
    Ok(true)
}

/// The headings of the first record.
#[tactic(auto, unfolding(crate::specs::Headings::header_of))]
pub(crate) fn read_header(alloc: Global, record: &ByteRecord) -> Result<Vec<Heading>, CsvStop>
    ensures { Returns (λ headings. headings.items) result (header_of (fields_of record.now)) }
{
    if !are_utf8(record) {
        return Err(refused(NOT_UTF8, 1));
    }
    if record.len() > MAX_COLUMNS {
        return Err(refused(BAD_HEADER, 1));
    }
    let mut headings = Vec::new(alloc);
    if add_fields(alloc, record, &mut headings)? {
        Ok(headings)
    } else {
        Err(refused(BAD_HEADER, 1))
    }
}
