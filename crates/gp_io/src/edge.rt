//! The edge to the operating system: it is called here and nowhere else, but for the arguments and the exit status, which are `main`'s. No contract says what a file
//! gives or whether a write arrives, so these 91 lines are read by eye: that each call is the one that its function is named for, of the names and bytes that it got,
//! and that nothing else is asked of `rt`. The rest is proved: `Calls`, `Durable` and `Output` bind each note to the answer, and no other module reaches the fields.
mod system;

use crate::calls::{Calls, Output};
use crate::error::{NotStored, ShelfStop, SinkStop};
use crate::found::{Found, classify};
use crate::stream::{
    Durable, as_it_is, folder_answer, new_file, read_opened, store, write_and_flush, write_created,
};
use crate::trace::Call;
use std::alloc::Global;
use std::os::unix::fs::PermissionsExt;
use std::{fs, io, rt};
pub(crate) use system::System;

impl<R: rt::Files + Input + Drop> Calls for System<R> {
    ghost trace = { λ system. system.trace };

    fn read(&mut self, alloc: Global, name: &str, most: usize) -> Result<Vec<u8>, ShelfStop> {
        let answer = match name {
            "-" => read_opened(Ok(self.rt.reader()), alloc, most),
            _ => read_opened(fs::open(&self.rt, name), alloc, most),
        };
        self.trace.note_read(name, most, answer)
    }

    fn look(&mut self, alloc: Global, name: &str) -> Result<Found, ShelfStop> {
        let entry = fs::symlink_metadata(&self.rt, name);
        let file = fs::metadata(&self.rt, name);
        let path = self.rt.canonicalize(alloc, name);
        self.trace
            .note_look(name, classify(alloc, name, entry, file, path))
    }

    fn open(&mut self, name: &str) -> io::Result<()> {
        let opened = as_it_is().open(&self.rt, name);
        self.trace.note_call(Call::Open(name), opened.map(|_| ()))
    }

    fn store(&mut self, name: &str, mode: Option<u32>, bytes: &[u8]) -> Result<(), NotStored> {
        let answer = store(&mut new_file(mode).open(&self.rt, name), mode, bytes);
        self.trace.note_store(name, mode, bytes, answer)
    }

    fn rename(&mut self, from: &str, to: &str) -> io::Result<()> {
        self.trace
            .note_call(Call::Rename(from, to), fs::rename(&self.rt, from, to))
    }

    fn sync(&mut self, folder: &str) -> Result<(), ShelfStop> {
        let answer = match fs::open(&self.rt, folder) {
            Ok(folder) => fs::OpenFile::sync_all(&folder),
            Err(error) => Err(error),
        };
        self.trace
            .note_call(Call::Sync(folder), folder_answer(answer))
    }

    fn remove(&mut self, name: &str) -> io::Result<()> {
        self.trace
            .note_call(Call::Remove(name), fs::remove_file(&self.rt, name))
    }

    fn overwrite(&mut self, name: &str, bytes: &[u8]) -> Result<(), ShelfStop> {
        let answer = write_created(&mut fs::create(&self.rt, name), bytes);
        self.trace.note_call(Call::Overwrite(name, bytes), answer)
    }
}

impl<F: io::Write + fs::OpenFile> Durable for F {
    ghost on_disk = { λ file. F.contents file };

    fn set_mode(&mut self, mode: u32) -> io::Result<()> {
        self.set_permissions(fs::Permissions::from_mode(mode))
    }

    fn sync(&mut self) -> io::Result<()> {
        self.sync_all()
    }
}

impl<R: Print + Drop> Output for System<R> {
    ghost output = { λ system. system.trace };

    fn write(&mut self, bytes: &[u8]) -> Result<(), SinkStop> {
        let answer = write_and_flush(&mut io::writer(&self.rt), bytes);
        self.trace.note_write(bytes, answer)
    }
}
