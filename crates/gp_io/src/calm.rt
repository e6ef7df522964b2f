//! A shelf and a sink in memory that never fail but for memory.
ghost use Rattle.std.specs.Prelude.{◌≡◌, ◌≢◌, ◌≤◌, [], ◌∷◌, ◌++◌, None, Some, Err, IfOk, IfErr, OnOk, OnErr, vec_len};
ghost use Rattle.gp_io.specs.Contents.{Leads, contents_of, events_of, no_files};
ghost use Rattle.gp_io.specs.Events.{NotReplaced, Read, Replaced, Unreadable};
ghost use Rattle.gp_io.specs.Files.{content, prefix_of, Replaces};
ghost use Rattle.gp_io.specs.NamedFile.{files_of};
ghost use Rattle.gp_io.specs.OnlyProof.{leads_prop};
ghost use Rattle.gp_io.specs.ShelfSteps.{ReadStops, ReplaceStops};

use crate::error::{ShelfStop, SinkStop};
use crate::file_list::{prefix_of, put};
use crate::named_file::NamedFile;
use crate::shelf::Shelf;
use crate::sink::Sink;
use crate::trace::{Note, Trace};
use std::alloc::Global;

/// Files in memory. No call answers `Failed`.
#[derive(Drop)]
pub struct CalmShelf {
    alloc: Global,
    files: Vec<NamedFile>,
    trace: Trace,
    ghost leads: { Leads no_files trace.events (contents_of (files_of files.items)) } by { leads_prop no_files trace.events (contents_of (files_of files.items)) },
}

impl CalmShelf {
    ghost use Rattle.gp_io.specs.MemoryFiles.{calm_files};

    /// A shelf of these files; of two files with one name the first counts.
    pub fn new(alloc: Global, files: Vec<NamedFile>) -> CalmShelf
        ensures events { ⟦<CalmShelf as Shelf>⟧.events result ≡ events_of (files_of files.items) }
        ensures files { calm_files result ≡ files_of files.items }
    {
        let trace = Trace::new().and(&Note::Made(&files));
        CalmShelf {
            alloc,
            files,
            trace,
        }
    }
}

impl CalmShelf {
    ghost use Rattle.gp_io.specs.MemoryFiles.{calm_files};

    /// Notes that a read failed.
    pub(crate) fn note_unreadable(&mut self, name: &str)
        ensures events { ⟦<CalmShelf as Shelf>⟧.events self.new
            ≡ ⟦<CalmShelf as Shelf>⟧.events self.old ++ Unreadable name.now ∷ [] }
        ensures files { calm_files self.new ≡ calm_files self.old }
    {
        self.trace = self.trace.and(&Note::Unreadable(name));
    }

    /// Notes that a replacement failed.
    pub(crate) fn note_not_replaced(&mut self, name: &str, bytes: &[u8])
        ensures events { ⟦<CalmShelf as Shelf>⟧.events self.new
            ≡ ⟦<CalmShelf as Shelf>⟧.events self.old ++ NotReplaced name.now bytes.now ∷ [] }
        ensures files { calm_files self.new ≡ calm_files self.old }
    {
        self.trace = self.trace.and(&Note::NotReplaced(name, bytes));
    }
}

impl Shelf for CalmShelf {
    ghost use Rattle.gp_io.specs.MemoryFiles.{calm_files};

    ghost events = { λ shelf. shelf.trace.events };

    /// What is read is what the files have.
    fn read(&mut self, name: &str, most: usize) -> Result<Vec<u8>, ShelfStop>
        ensures at_most { IfOk result (λ bytes. vec_len bytes ≤ most) }
        ensures read { IfOk result (λ bytes. ⟦<CalmShelf as Shelf>⟧.events self.new
            ≡ ⟦<CalmShelf as Shelf>⟧.events self.old ++ Read name.now most bytes.items ∷ []) }
        ensures stopped { IfErr result (ReadStops name.now (⟦<CalmShelf as Shelf>⟧.events self.old)
            (⟦<CalmShelf as Shelf>⟧.events self.new)) }
        ensures content { IfOk result (λ bytes.
            prefix_of name.now most (calm_files self.old) ≡ Some bytes.items) }
        ensures absent { result ≡ Err ShelfStop.Absent
            → content name.now (calm_files self.old) ≡ None }
        ensures calm { result ≢ Err ShelfStop.Failed }
        ensures files { calm_files self.new ≡ calm_files self.old }
    {
        match prefix_of(&self.files, name, most) {
            Some(bytes) => {
                let answer = Vec::from_slice(self.alloc, bytes);
                match answer {
                    Ok(bytes) => {
                        self.trace = self.trace.and(&Note::Read(name, most, &bytes));
                        Ok(bytes)
                    }
                    Err(_) => {
                        self.trace = self.trace.and(&Note::Stopped(name));
                        Err(ShelfStop::NoMemory)
                    }
                }
            }
            None => {
                self.trace = self.trace.and(&Note::Missing(name));
                Err(ShelfStop::Absent)
            }
        }
    }

    /// What is replaced is in the files.
    fn replace(&mut self, name: &str, bytes: &[u8]) -> Result<(), ShelfStop>
        ensures replaced { OnOk result (⟦<CalmShelf as Shelf>⟧.events self.new
            ≡ ⟦<CalmShelf as Shelf>⟧.events self.old ++ Replaced name.now bytes.now ∷ []) }
        ensures stopped { IfErr result (ReplaceStops name.now bytes.now
            (⟦<CalmShelf as Shelf>⟧.events self.old) (⟦<CalmShelf as Shelf>⟧.events self.new)) }
        ensures files { OnOk result
            (Replaces name.now bytes.now (calm_files self.old) (calm_files self.new)) }
        ensures kept { OnErr result (calm_files self.new ≡ calm_files self.old) }
        ensures calm { result ≢ Err ShelfStop.Failed }
    {
        put(self.alloc, &mut self.files, name, bytes)?;
        self.trace = self.trace.and(&Note::Replaced(name, bytes));
        Ok(())
    }
}

/// Output in memory. No call answers `Failed`.
#[derive(Drop)]
pub struct CalmSink {
    bytes: Vec<u8>,
}

impl CalmSink {
    /// A sink to which nothing has been written.
    pub fn new(alloc: Global) -> CalmSink
        ensures { ⟦<CalmSink as Sink>⟧.state result ≡ record { taken = []; failed = [] } }
    {
        CalmSink {
            bytes: Vec::new(alloc),
        }
    }

    /// All bytes written so far.
    pub fn bytes(&self) -> &[u8]
        ensures { (⟦<CalmSink as Sink>⟧.state self.now).taken ≡ result.now }
    {
        self.bytes.as_slice()
    }
}

impl Sink for CalmSink {
    ghost state = { λ sink. record { taken = sink.bytes.items; failed = [] } };

    fn write_all(&mut self, bytes: &[u8]) -> Result<(), SinkStop> {
        self.bytes.extend_from_slice(bytes)?;
        Ok(())
    }
}
