//! Why a dump, a line or an entry is not read.

ghost use Rattle.std.specs.Prelude.{◌≡◌};
ghost use Rattle.gp_dump.specs.Reading.{line_stop, stop_at};

use gp_base::NoMemory;
use std::alloc::AllocFailed;

/// Why a line cannot be the next of a log.
#[derive(Clone, Copy)]
pub enum EntryStop {
    /// Its session has no transaction, or has one, or there are too many tables, transactions or statements.
    Disorder,
    /// The check of names and types refuses it.
    Unchecked,
    /// Memory ran out, which says nothing of the line.
    NoMemory,
}

/// Why a line is not read.
#[derive(Clone, Copy)]
pub enum LineStop {
    /// The rule of this number fails.
    Rule(u8),
    /// Memory ran out, which says nothing of the line.
    NoMemory,
}

/// Why a dump is not read.
#[derive(Clone, Copy)]
pub enum DumpStop {
    /// The bytes are no dump.
    Fault {
        /// The number of the rule that fails first, from 1 to 14.
        f: u8,
        /// The number of its line, from 1.
        line: u32,
    },
    /// Memory ran out, which says nothing of the bytes.
    NoMemory,
}

impl EntryStop {
    /// The rule of a log line that fails: 8 is the rule on sessions and counts, 9 the one on names and types.
    pub fn to_line(self) -> LineStop
        ensures { result ≡ line_stop self }
    {
        match self {
            EntryStop::Disorder => LineStop::Rule(8),
            EntryStop::Unchecked => LineStop::Rule(9),
            EntryStop::NoMemory => LineStop::NoMemory,
        }
    }
}

impl LineStop {
    /// The stop of a dump at the line of this number.
    pub fn at(self, line: u32) -> DumpStop
        ensures { result ≡ stop_at self line }
    {
        match self {
            LineStop::Rule(f) => DumpStop::Fault { f, line },
            LineStop::NoMemory => DumpStop::NoMemory,
        }
    }
}

impl From<NoMemory> for DumpStop {
    ghost use Rattle.std.specs.Prelude.{◌≡◌};
    ghost use Rattle.gp_dump.specs.declared.error.DumpStop.TheVariants as stop;

    ghost from_gives = { λ _ e. e ≡ stop.NoMemory };

    fn from(_error: NoMemory) -> DumpStop {
        DumpStop::NoMemory
    }
}

impl<T: Drop> From<AllocFailed<T>> for DumpStop {
    ghost use Rattle.std.specs.Prelude.{◌≡◌};
    ghost use Rattle.gp_dump.specs.declared.error.DumpStop.TheVariants as stop;

    ghost from_gives = { λ _ e. e ≡ stop.NoMemory };

    fn from(_error: AllocFailed<T>) -> DumpStop {
        DumpStop::NoMemory
    }
}
