//! A shelf and a sink in memory with injected failures.
ghost use Rattle.std.specs.Prelude.{◌≡◌, ◌+◌, ◌-◌, ◌^◌, ◌≤◌, ◌↔◌, [], ◌∷◌, ◌++◌, None, Some, Err, min, IfOk, IfErr, OnOk, OnErr, vec_len};
ghost use Rattle.std.specs.List.{Contains};
ghost use Rattle.gp_io.specs.Contents.{events_of};
ghost use Rattle.gp_io.specs.Events.{Read, Replaced};
ghost use Rattle.gp_io.specs.Files.{content, prefix_of, Replaces};
ghost use Rattle.gp_io.specs.NamedFile.{files_of};
ghost use Rattle.gp_io.specs.ShelfSteps.{ReadStops, ReplaceStops};
ghost use Rattle.gp_io.specs.Sink.{after_write};
ghost use Rattle.gp_io.specs.SinkSteps.{WriteStops};

use crate::calm::{CalmShelf, CalmSink};
use crate::error::{ShelfStop, SinkStop};
use crate::fault_plan::FaultPlan;
use crate::named_file::NamedFile;
use crate::shelf::Shelf;
use crate::sink::Sink;
use crate::trace::{Note, Trace};
use std::alloc::Global;

/// A [`CalmShelf`] with injected failures.
///
/// Reads and replacements are counted together, from 1 on. A call whose number is in `fail_at`
/// answers `Failed` and changes no file.
#[derive(Drop)]
pub struct MemShelf {
    calm: CalmShelf,
    plan: FaultPlan,
}

impl MemShelf {
    ghost use Rattle.gp_io.specs.FaultPlan.{shelf_calls, shelf_fails_at};
    ghost use Rattle.gp_io.specs.MemoryFiles.{mem_files};

    /// A shelf of these files; of two files with one name the first counts.
    pub fn new(alloc: Global, files: Vec<NamedFile>, fail_at: Vec<u64>) -> MemShelf
        ensures events { ⟦<MemShelf as Shelf>⟧.events result ≡ events_of (files_of files.items) }
        ensures files { mem_files result ≡ files_of files.items }
        ensures calls { shelf_calls result ≡ 0 }
        ensures fails_at { shelf_fails_at result ≡ fail_at.items }
    {
        MemShelf {
            calm: CalmShelf::new(alloc, files),
            plan: FaultPlan::new(fail_at),
        }
    }
}

impl Shelf for MemShelf {
    ghost use Rattle.gp_io.specs.FaultPlan.{FailsAsPlanned, shelf_calls, shelf_fails_at};
    ghost use Rattle.gp_io.specs.MemoryFiles.{mem_files};

    ghost events = { λ shelf. ⟦<CalmShelf as Shelf>⟧.events shelf.calm };

    /// Answers `Failed` exactly at a number in the list (`planned`), but for memory. What is read is what the files have.
    fn read(&mut self, name: &str, most: usize) -> Result<Vec<u8>, ShelfStop>
        ensures at_most { IfOk result (λ bytes. vec_len bytes ≤ most) }
        ensures read { IfOk result (λ bytes. ⟦<MemShelf as Shelf>⟧.events self.new
            ≡ ⟦<MemShelf as Shelf>⟧.events self.old ++ Read name.now most bytes.items ∷ []) }
        ensures stopped { IfErr result (ReadStops name.now (⟦<MemShelf as Shelf>⟧.events self.old)
            (⟦<MemShelf as Shelf>⟧.events self.new)) }
        ensures content { IfOk result (λ bytes.
            prefix_of name.now most (mem_files self.old) ≡ Some bytes.items) }
        ensures absent { result ≡ Err ShelfStop.Absent
            → content name.now (mem_files self.old) ≡ None }
        ensures files { mem_files self.new ≡ mem_files self.old }
        ensures planned { FailsAsPlanned result
            (Contains (shelf_fails_at self.old) (shelf_calls self.new)) }
        ensures counted { shelf_calls self.new ≡ min (shelf_calls self.old + 1) (2 ^ 64 - 1) }
        ensures fails_at { shelf_fails_at self.new ≡ shelf_fails_at self.old }
    {
        if self.plan.next_fails() {
            self.calm.note_unreadable(name);
            return Err(ShelfStop::Failed);
        }
        self.calm.read(name, most)
    }

    /// Answers `Failed` exactly at a number in the list (`planned`), but for memory. An error changes
    /// no file (`kept`).
    fn replace(&mut self, name: &str, bytes: &[u8]) -> Result<(), ShelfStop>
        ensures replaced { OnOk result (⟦<MemShelf as Shelf>⟧.events self.new
            ≡ ⟦<MemShelf as Shelf>⟧.events self.old ++ Replaced name.now bytes.now ∷ []) }
        ensures stopped { IfErr result (ReplaceStops name.now bytes.now
            (⟦<MemShelf as Shelf>⟧.events self.old) (⟦<MemShelf as Shelf>⟧.events self.new)) }
        ensures files { OnOk result
            (Replaces name.now bytes.now (mem_files self.old) (mem_files self.new)) }
        ensures kept { OnErr result (mem_files self.new ≡ mem_files self.old) }
        ensures planned { FailsAsPlanned result
            (Contains (shelf_fails_at self.old) (shelf_calls self.new)) }
        ensures counted { shelf_calls self.new ≡ min (shelf_calls self.old + 1) (2 ^ 64 - 1) }
        ensures fails_at { shelf_fails_at self.new ≡ shelf_fails_at self.old }
    {
        if self.plan.next_fails() {
            self.calm.note_not_replaced(name, bytes);
            return Err(ShelfStop::Failed);
        }
        self.calm.replace(name, bytes)
    }
}

/// A [`CalmSink`] with injected failures.
///
/// Calls are counted from 1 on. A call whose number is in `fail_at` writes nothing and answers `Failed`.
#[derive(Drop)]
pub struct MemSink {
    calm: CalmSink,
    plan: FaultPlan,
    trace: Trace,
}

impl MemSink {
    ghost use Rattle.gp_io.specs.FaultPlan.{sink_calls, sink_fails_at};

    /// A sink to which nothing has been written.
    pub fn new(alloc: Global, fail_at: Vec<u64>) -> MemSink
        ensures state { ⟦<MemSink as Sink>⟧.state result ≡ record { taken = []; failed = [] } }
        ensures calls { sink_calls result ≡ 0 }
        ensures fails_at { sink_fails_at result ≡ fail_at.items }
    {
        MemSink {
            calm: CalmSink::new(alloc),
            plan: FaultPlan::new(fail_at),
            trace: Trace::new(),
        }
    }

    /// All bytes written so far.
    pub fn bytes(&self) -> &[u8]
        ensures { (⟦<MemSink as Sink>⟧.state self.now).taken ≡ result.now }
    {
        self.calm.bytes()
    }
}

impl Sink for MemSink {
    ghost use Rattle.gp_io.specs.FaultPlan.{sink_calls, sink_fails_at};

    ghost state = { λ sink. record (⟦<CalmSink as Sink>⟧.state sink.calm) { failed = sink.trace.failed } };

    /// Answers `Failed` exactly at a number in the list (`planned`).
    fn write_all(&mut self, bytes: &[u8]) -> Result<(), SinkStop>
        ensures written { OnOk result (⟦<MemSink as Sink>⟧.state self.new
            ≡ after_write bytes.now (⟦<MemSink as Sink>⟧.state self.old)) }
        ensures stopped { IfErr result (WriteStops bytes.now (⟦<MemSink as Sink>⟧.state self.old)
            (⟦<MemSink as Sink>⟧.state self.new)) }
        ensures planned { (result ≡ Err SinkStop.Failed)
            ↔ Contains (sink_fails_at self.old) (sink_calls self.new) }
        ensures counted { sink_calls self.new ≡ min (sink_calls self.old + 1) (2 ^ 64 - 1) }
        ensures fails_at { sink_fails_at self.new ≡ sink_fails_at self.old }
    {
        if self.plan.next_fails() {
            self.trace = self.trace.and(&Note::NotWritten(bytes));
            return Err(SinkStop::Failed);
        }
        self.calm.write_all(bytes)
    }
}
