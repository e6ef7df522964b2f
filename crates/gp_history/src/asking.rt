//! What questions about past states need, and how they are refused.

ghost use Rattle.std.specs.Prelude.{◌≡◌, None};
ghost use Rattle.gp_grammar.specs.Syntax as y;
ghost use Rattle.gp_machine.specs.Entries as m;
ghost use Rattle.gp_syntax.specs.Views.{point_view};
ghost use Rattle.gp_history.specs.Provenance.{IsInTables, Refuses};
ghost use Rattle.gp_log.specs.Contents.{HasPoint, entries, tables};
ghost use Rattle.gp_history.specs.Histories as h;

use crate::error::HistoryStop;
use gp_base::{Refusal, Stop};
use gp_log::Log;
use gp_syntax::Point;

/// The version that a statement of a transaction read.
fn statement_version(log: &Log, t: u64, k: u64) -> u32
    requires { HasPoint log.now (y.after t k) }
    ensures { result ≡ m.statement_version t k (entries log.now) }
{
    log.bounds();
    // Statements are numbered by 32 bits. That is known of a log where it is asked for their number.
    let _statements = log.statement_count(t as u32);
    log.version_read_by(t as u32, k as u32)
}

/// The last version whose annotations a state needs.
pub fn needed_version(log: &Log, state: Point) -> u32
    requires { HasPoint log.now (point_view state) }
    ensures { result ≡ h.needed_version log.now (point_view state) }
{
    log.bounds();
    match state {
        Point::AsOf { v } => v as u32,
        Point::After { t, k } => statement_version(log, t, k),
        Point::Commit { t } => match log.version_of(t as u32) {
            Some(version) => version.saturating_sub(1),
            None => 0,
        },
    }
}

/// The refusal of a question that needs versions which cannot be annotated.
pub fn refused(log: &Log, stop: HistoryStop) -> Stop
    requires { IsInTables (tables log.now) stop }
    ensures { Refuses (tables log.now) stop result }
{
    match stop {
        HistoryStop::Inconsistent { version, table } => {
            match log.catalog().table(table).name.clone() {
                Ok(table) => Stop::Refused(Refusal::E24 { version, table }),
                Err(_) => Stop::NoMemory,
            }
        }
        HistoryStop::Rows { t, k } => Stop::Refused(Refusal::E25 { t, k }),
        HistoryStop::Ancestry { t, k } => Stop::Refused(Refusal::E26 { t, k }),
        HistoryStop::NoMemory => Stop::NoMemory,
    }
}
