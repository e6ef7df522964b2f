//! What entries say of transactions and versions.

ghost use Rattle.std.specs.Prelude.{◌≡◌, ◌<◌, ◌^◌, length};
ghost use Rattle.std.specs.Option.{option_map};
ghost use Rattle.gp_algebra.specs.Views.{statement_view};
ghost use Rattle.gp_log.specs.LogCounts.{version_at, version_read};
ghost use Rattle.gp_log.specs.Finding.{is_own};
ghost use Rattle.gp_log.specs.Logs.{entry_view, log_view};
ghost use Rattle.gp_machine.specs.Entries.{begin_version, committer_of, fate_of, is_read_committed, statement_at, statement_count, statement_of, version_of};

use crate::entry::{Entry, What};
use gp_algebra::Stmt;
use gp_base::Fate;

/// The newest version when the transaction began.
pub fn begin_version(entries: &[Entry], t: u32) -> u32
    requires { length entries.now < 2 ^ 32 }
    ensures { result ≡ begin_version t (log_view entries.now) }
{
    let mut version = 0;
    let mut begin = 0;
    for entry in entries {
        match entry.what {
            What::Begin { .. } if entry.t == t => begin = version,
            What::Commit => version += 1,
            _ => {}
        }
    }
    begin
}

/// Whether the transaction is read committed.
pub fn is_read_committed(entries: &[Entry], t: u32) -> bool
    ensures { result ≡ is_read_committed t (log_view entries.now) }
{
    let mut latest = false;
    for entry in entries {
        match entry.what {
            What::Begin { read_committed } if entry.t == t => latest = read_committed,
            _ => {}
        }
    }
    latest
}

/// The version that the statement of this number in the transaction read.
pub fn statement_version(entries: &[Entry], t: u32, k: u32) -> Option<u32>
    requires { length entries.now < 2 ^ 32 }
    ensures { result ≡ version_read t k (log_view entries.now) }
{
    let mut version = 0;
    let mut begin = 0;
    let mut latest = false;
    let mut count = 0;
    let mut found = None;
    for entry in entries {
        match entry.what {
            What::Begin { read_committed } if entry.t == t => {
                begin = version;
                latest = read_committed;
            }
            What::Commit => version += 1,
            What::Statement { .. } if entry.t == t => {
                count += 1;
                if count == k {
                    found = Some(if latest { version } else { begin });
                }
            }
            _ => {}
        }
    }
    found
}

/// How many statements the transaction ran.
pub fn statement_count(entries: &[Entry], t: u32) -> u32
    requires { length entries.now < 2 ^ 32 }
    ensures { result ≡ statement_count t (log_view entries.now) }
{
    let mut count = 0;
    for entry in entries {
        match entry.what {
            What::Statement { .. } if entry.t == t => count += 1,
            _ => {}
        }
    }
    count
}

/// How the transaction ended, if it did.
pub fn fate(entries: &[Entry], t: u32) -> Fate
    requires { length entries.now < 2 ^ 32 }
    ensures { result ≡ fate_of t (log_view entries.now) }
{
    let mut version = 0;
    let mut fate = Fate::Active;
    for entry in entries {
        match entry.what {
            What::Commit => {
                version += 1;
                if entry.t == t {
                    fate = Fate::Committed(version);
                }
            }
            What::Lost if entry.t == t => fate = Fate::Lost,
            What::Rollback if entry.t == t => fate = Fate::RolledBack,
            _ => {}
        }
    }
    fate
}

/// The version that the transaction made, if it made one.
pub fn version_of(entries: &[Entry], t: u32) -> Option<u32>
    requires { length entries.now < 2 ^ 32 }
    ensures { result ≡ version_of t (log_view entries.now) }
{
    let mut version = 0;
    let mut found = None;
    for entry in entries {
        match entry.what {
            What::Commit => {
                version += 1;
                if entry.t == t {
                    found = Some(version);
                }
            }
            _ => {}
        }
    }
    found
}

/// The transaction that made the version.
pub fn committer(entries: &[Entry], version: u32) -> u32
    requires { length entries.now < 2 ^ 32 }
    ensures { result ≡ committer_of version (log_view entries.now) }
{
    let mut newest = 0;
    let mut found = 0;
    for entry in entries {
        match entry.what {
            What::Commit => {
                newest += 1;
                if newest == version {
                    found = entry.t;
                }
            }
            _ => {}
        }
    }
    found
}

/// Whether an entry is statement k of a transaction.
pub fn is_own(entry: &Entry, t: u32, k: u32) -> bool
    ensures { result ≡ is_own t k entry.now }
{
    match entry.what {
        What::Statement { k: number, .. } => entry.t == t && number == k,
        _ => false,
    }
}

/// The statement of an entry, if it is one.
pub fn statement_of(entry: &Entry) -> Option<&Stmt>
    ensures { option_map (λ s. statement_view s.now) result ≡ statement_of (entry_view entry.now) }
{
    match &entry.what {
        What::Statement { stmt, .. } => Some(stmt.as_ref()),
        _ => None,
    }
}

/// The statement of this number in the transaction.
pub fn statement(entries: &[Entry], t: u32, k: u32) -> Option<&Stmt>
    requires { length entries.now < 2 ^ 32 }
    ensures { option_map (λ s. statement_view s.now) result
        ≡ statement_at t k (log_view entries.now) }
{
    let mut count = 0;
    let mut found = None;
    for entry in entries {
        match &entry.what {
            What::Statement { stmt, .. } if entry.t == t => {
                count += 1;
                if count == k {
                    found = Some(stmt.as_ref());
                }
            }
            _ => {}
        }
    }
    found
}

/// How many commits there are at lines up to this one.
pub fn version_at(entries: &[Entry], line: u32) -> u32
    requires { length entries.now < 2 ^ 32 }
    ensures { result ≡ version_at line (log_view entries.now) }
{
    let mut version = 0;
    for entry in entries {
        match entry.what {
            What::Commit if entry.line <= line => version += 1,
            _ => {}
        }
    }
    version
}
