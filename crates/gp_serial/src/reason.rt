//! Why a transaction comes before another one.

ghost use Rattle.std.specs.Prelude.{◌≡◌, ◌<◌, ◌≢◌, map, slice_get, IfOk};
ghost use Rattle.std.specs.Option.{option_map};
ghost use Rattle.gp_log.specs.Contents.{StatementsFit, entries, tables};
ghost use Rattle.gp_machine.specs.Precedence as m;
ghost use Rattle.gp_serial.specs.Changes.{AreMade, change_view};
ghost use Rattle.gp_serial.specs.LookViews.{look_view};
ghost use Rattle.gp_serial.specs.Meetings.{AreReady};
ghost use Rattle.gp_serial.specs.Reasons as r;
ghost use Rattle.gp_serial.specs.Reasons.{reason_view};

use crate::changes::RowChange;
use crate::looks::{Look, looks_of};
use crate::meeting::meets_any;
use crate::relation::is_same_row;
use gp_base::NoMemory;
use gp_log::Log;
use std::alloc::Global;

/// Why a transaction comes before another one.
#[derive(Clone, Copy)]
pub enum Reason<'a> {
    /// Its statement looks at a row that the other wrote, and read a version before that.
    ReadBefore {
        /// The number of the statement.
        k: u32,
        /// The row.
        change: RowChange<'a>,
    },
    /// The other's statement looks at a row that it wrote, and read its version or a later one.
    ReadAfter {
        /// The number of the statement.
        k: u32,
        /// The row.
        change: RowChange<'a>,
    },
    /// It wrote a row in a lesser version than the other.
    Wrote {
        /// The row as it wrote it.
        change: RowChange<'a>,
        /// The row as the other wrote it.
        other: RowChange<'a>,
    },
}

/// Whether a statement read a version before a change, or the one that made it or a later one.
fn is_on_side(version: u32, change: &RowChange<'_>, earlier: bool) -> bool
    ensures { result ≡ r.is_on_side version (change_view change.now) earlier }
{
    if earlier {
        change.version > version
    } else {
        change.version <= version
    }
}

/// Whether a change is of a transaction, on this side of a version, and met by one of these looks.
fn is_looked(
    writer: u32,
    version: u32,
    earlier: bool,
    looks: &[Look<'_>],
    change: &RowChange<'_>,
) -> bool
    requires { AreReady looks.now }
    ensures { result ≡ r.is_looked writer version earlier (map look_view looks.now) change.now }
{
    change.t == writer && (is_on_side(version, change, earlier) && meets_any(looks, change))
}

/// The first such change.
fn first_among<'a>(
    writer: u32,
    version: u32,
    earlier: bool,
    looks: &[Look<'_>],
    changes: &[RowChange<'a>],
) -> Option<RowChange<'a>>
    requires { AreReady looks.now }
    ensures { r.IsFirstLooked writer version earlier (map look_view looks.now) changes.now result }
{
    for change in changes {
        if is_looked(writer, version, earlier, looks, change) {
            return Some(*change);
        }
    }
    None
}

/// The first change of a transaction that statement k of another one looks at, which read a version before it, or not.
fn first_looked<'a>(
    alloc: Global,
    log: &Log,
    reader: u32,
    k: u32,
    writer: u32,
    changes: &[RowChange<'a>],
    earlier: bool,
) -> Result<Option<RowChange<'a>>, NoMemory>
    requires fits { StatementsFit log.now }
    requires made { AreMade (entries log.now) changes.now }
    ensures { IfOk result (λ found. option_map change_view found
        ≡ r.first_looked (tables log.now) (entries log.now) reader k writer (map change_view changes.now) earlier) }
{
    match log.statement(reader, k) {
        Some(stmt) => {
            let version = log.version_read_by(reader, k);
            let looks = looks_of(alloc, log.catalog(), stmt)?;
            Ok(first_among(writer, version, earlier, &looks, changes))
        }
        None => Ok(None),
    }
}

/// The first statement of a transaction that looks at a change of another one, and the change.
pub(crate) fn first_reading<'a>(
    alloc: Global,
    log: &Log,
    reader: u32,
    writer: u32,
    changes: &[RowChange<'a>],
    earlier: bool,
) -> Result<Option<(u32, RowChange<'a>)>, NoMemory>
    requires fits { StatementsFit log.now }
    requires made { AreMade (entries log.now) changes.now }
    ensures { IfOk result (λ found. option_map (λ pair. (pair.0, change_view pair.1)) found
        ≡ r.first_reading (tables log.now) (entries log.now) reader writer (map change_view changes.now) earlier) }
{
    for before in 0..log.statement_count(reader) {
        let k = before + 1;
        if let Some(change) = first_looked(alloc, log, reader, k, writer, changes, earlier)? {
            return Ok(Some((k, change)));
        }
    }
    Ok(None)
}

/// Whether a change is of a transaction, and of the same row in a later version.
fn is_rewrite(change: &RowChange<'_>, writer: u32, other: &RowChange<'_>) -> bool
    ensures { result ≡ r.is_rewrite change.now writer other.now }
{
    other.t == writer && (is_same_row(change, other) && change.version < other.version)
}

/// The first such change.
fn first_rewrite<'a>(
    change: &RowChange<'_>,
    writer: u32,
    changes: &[RowChange<'a>],
) -> Option<RowChange<'a>>
    ensures { r.IsFirstRewrite change.now writer changes.now result }
{
    for other in changes {
        if is_rewrite(change, writer, other) {
            return Some(*other);
        }
    }
    None
}

/// The rewrite of a change of transaction a; no other change has one.
pub(crate) fn rewrite_by<'a>(
    change: &RowChange<'_>,
    a: u32,
    b: u32,
    changes: &[RowChange<'a>],
) -> Option<RowChange<'a>>
    ensures { r.IsRewriteBy change.now a b changes.now result }
{
    if change.t == a {
        first_rewrite(change, b, changes)
    } else {
        None
    }
}

/// The first row that a transaction wrote before another one.
pub(crate) fn first_write<'a>(a: u32, b: u32, changes: &[RowChange<'a>]) -> Option<Reason<'a>>
    ensures { r.IsFirstWrite a b changes.now (option_map reason_view result) }
{
    for change in changes {
        if let Some(other) = rewrite_by(change, a, b, changes) {
            return Some(Reason::Wrote {
                change: *change,
                other,
            });
        }
    }
    None
}

/// The first reason for which a transaction comes before another one: of the kinds in their order, by the least statement, then by table and identity.
pub fn reason_of<'a>(
    alloc: Global,
    log: &Log,
    changes: &[RowChange<'a>],
    a: u32,
    b: u32,
) -> Result<Option<Reason<'a>>, NoMemory>
    requires fits { StatementsFit log.now }
    requires made { AreMade (entries log.now) changes.now }
    requires two { a ≢ b }
    ensures { IfOk result (λ reason. option_map reason_view reason
        ≡ slice_get (m.reasons (tables log.now) (entries log.now) (map change_view changes.now) a b) 0) }
{
    if let Some((k, change)) = first_reading(alloc, log, a, b, changes, true)? {
        return Ok(Some(Reason::ReadBefore { k, change }));
    }
    if let Some((k, change)) = first_reading(alloc, log, b, a, changes, false)? {
        return Ok(Some(Reason::ReadAfter { k, change }));
    }
    Ok(first_write(a, b, changes))
}
