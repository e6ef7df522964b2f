//! The exit status of the program.

ghost use Rattle.std.specs.Prelude.{◌≡◌};
ghost use Rattle.gprom_cli.specs.Call.{answered_status};
ghost use Rattle.gprom_cli.specs.Status.{exit_number};

/// How a call of the program ends.
#[derive(Clone, Copy)]
pub enum Status {
    /// Every line was answered, and none was refused.
    Done,
    /// Every line was answered, and some line was refused.
    Refused,
    /// The arguments are invalid.
    Usage,
    /// A file that is read does not exist.
    Absent,
    /// A file that is read cannot be read.
    Unreadable,
    /// The dump, or the script of a sheet, cannot be written, or the output reported a write error.
    Unwritten,
    /// A file that is read, or the dump that is written, is too long: a script or questions longer than
    /// [`MAX_SCRIPT_LENGTH`](gp_script::MAX_SCRIPT_LENGTH), a dump longer than [`MAX_DUMP_LENGTH`](gp_dump::MAX_DUMP_LENGTH), a sheet
    /// longer than [`MAX_SHEET_LENGTH`](crate::MAX_SHEET_LENGTH).
    TooLong,
    /// The dump is not well formed.
    Damaged,
    /// Memory ran out.
    OutOfMemory,
    /// The sheet has a fault.
    SheetRefused,
}

impl Status {
    /// The status of lines that were all answered: whether one was refused.
    pub(crate) fn answered(refused: bool) -> Status
        ensures { result ≡ answered_status refused }
    {
        if refused {
            Status::Refused
        } else {
            Status::Done
        }
    }

    /// The number with which the process exits.
    pub fn number(self) -> u8
        ensures { result ≡ exit_number self }
    {
        match self {
            Status::Done => 0,
            Status::Refused => 1,
            Status::Usage => 2,
            Status::Absent => 3,
            Status::Unreadable => 4,
            Status::Unwritten => 5,
            Status::TooLong => 6,
            Status::Damaged => 7,
            Status::OutOfMemory => 8,
            Status::SheetRefused => 9,
        }
    }
}
