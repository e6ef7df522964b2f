//! Shelves and sinks in memory, on a disk and over files that fail in mid-stream. The expected
//! values are worked out by hand.
use gp_io::{
    CalmShelf, CalmSink, DiskShelf, MemShelf, MemSink, NamedFile, OutSink, Shelf, ShelfStop, Sink,
    SinkStop,
};
use std::alloc::{AllocError, Allocator, Global};
use std::fs::{Metadata, OpenFile, OpenOptions};
use std::io::{BufRead, Cursor, ErrorKind, Lines, Read, Seek, SeekFrom, Write};
use std::rt::Files;
use std::test::Fail;
use std::{fs, io};

const DIRECTORY: &str = "gp_io_test_directory";

const FILE: &str = "gp_io_test_directory/a.txt";

/// The file of this name and content.
fn named(alloc: Global, name: &str, bytes: &[u8]) -> Result<NamedFile, AllocError> {
    Ok(NamedFile {
        name: String::from_str(alloc, name)?,
        bytes: Vec::from_slice(alloc, bytes)?,
    })
}

/// Two files of one name, of which the second is never read.
fn two_files(alloc: Global) -> Result<Vec<NamedFile>, AllocError> {
    let mut files = Vec::new(alloc);
    files.push(named(alloc, "a", b"one")?)?;
    files.push(named(alloc, "a", b"hidden")?)?;
    Ok(files)
}

/// Whether a read through the trait gives these bytes.
fn gives<H: Shelf>(shelf: &mut H, name: &str, most: usize, bytes: &[u8]) -> bool {
    matches!(shelf.read(name, most), Ok(read) if read.as_slice() == bytes)
}

/// Whether a read through the trait stops for this reason.
fn stops<H: Shelf>(shelf: &mut H, name: &str, stop: ShelfStop) -> bool {
    matches!(shelf.read(name, 100), Err(other) if other == stop)
}

#[test]
fn calm_shelf_reads_the_first_file_of_a_name(rt: HostRuntime) -> Result<(), Fail> {
    let mut shelf = CalmShelf::new(rt.alloc(), two_files(rt.alloc())?);
    assert!(rt; gives(&mut shelf, "a", 2, b"on"));
    assert!(rt; gives(&mut shelf, "a", 100, b"one"));
    assert!(rt; stops(&mut shelf, "b", ShelfStop::Absent));
    Ok(())
}

#[test]
fn calm_shelf_reads_what_was_replaced(rt: HostRuntime) -> Result<(), Fail> {
    let mut shelf = CalmShelf::new(rt.alloc(), two_files(rt.alloc())?);
    assert!(rt; shelf.replace("b", b"new").is_ok());
    assert!(rt; shelf.replace("a", b"").is_ok());
    assert!(rt; gives(&mut shelf, "b", 3, b"new"));
    assert!(rt; gives(&mut shelf, "a", 100, b""));
    Ok(())
}

#[test]
fn mem_shelf_fails_at_the_calls_of_its_plan(rt: HostRuntime) -> Result<(), Fail> {
    let files = two_files(rt.alloc())?;
    let mut shelf = MemShelf::new(rt.alloc(), files, vec![in rt.alloc(); 1u64, 4]?);
    assert!(rt; stops(&mut shelf, "a", ShelfStop::Failed));
    assert!(rt; gives(&mut shelf, "a", 100, b"one"));
    assert!(rt; shelf.replace("a", b"two").is_ok());
    assert!(rt; shelf.replace("a", b"three") == Err(ShelfStop::Failed));
    assert!(rt; gives(&mut shelf, "a", 100, b"two"));
    assert!(rt; stops(&mut shelf, "b", ShelfStop::Absent));
    Ok(())
}

#[test]
fn calm_sink_keeps_what_was_written(rt: HostRuntime) {
    let mut sink = CalmSink::new(rt.alloc());
    assert!(rt; sink.write_all(b"one ").is_ok());
    assert!(rt; sink.write_all(b"two").is_ok());
    assert!(rt; sink.bytes() == b"one two".as_slice());
}

#[test]
fn mem_sink_fails_at_the_calls_of_its_plan(rt: HostRuntime) -> Result<(), Fail> {
    let mut sink = MemSink::new(rt.alloc(), vec![in rt.alloc(); 1u64]?);
    assert!(rt; sink.write_all(b"lost") == Err(SinkStop::Failed));
    assert!(rt; sink.bytes().is_empty());
    assert!(rt; sink.write_all(b"kept").is_ok());
    assert!(rt; sink.bytes() == b"kept".as_slice());
    Ok(())
}

#[test]
fn disk_shelf_reads_and_replaces_real_files(rt: HostRuntime) -> Result<(), Fail> {
    let _ = fs::remove_dir_all(&rt, DIRECTORY);
    fs::create_dir(&rt, DIRECTORY)?;
    let mut shelf = DiskShelf::new(rt, rt.alloc());
    assert!(rt; stops(&mut shelf, FILE, ShelfStop::Absent));
    assert!(rt; shelf.replace(FILE, b"longer than the next").is_ok());
    assert!(rt; shelf.replace(FILE, b"a line\n").is_ok());
    assert!(rt; gives(&mut shelf, FILE, 100, b"a line\n"));
    assert!(rt; gives(&mut shelf, FILE, 3, b"a l"));
    assert!(rt; fs::remove_dir_all(&rt, DIRECTORY).is_ok());
    Ok(())
}

/// Neither a directory nor a path through a file is a missing file.
#[test]
fn disk_shelf_fails_at_what_is_no_file(rt: HostRuntime) -> Result<(), Fail> {
    let directory = "gp_io_test_no_file";
    let _ = fs::remove_dir_all(&rt, directory);
    fs::create_dir(&rt, directory)?;
    let mut shelf = DiskShelf::new(rt, rt.alloc());
    assert!(rt; shelf.replace("gp_io_test_no_file/a.txt", b"").is_ok());
    for path in [directory, "gp_io_test_no_file/a.txt/b"] {
        assert!(rt; stops(&mut shelf, path, ShelfStop::Failed), "{path}");
    }
    for path in [directory, "gp_io_test_no_file/none/b"] {
        assert!(rt;
            shelf.replace(path, b"") == Err(ShelfStop::Failed),
            "{path}"
        );
    }
    assert!(rt; fs::remove_dir_all(&rt, directory).is_ok());
    Ok(())
}

fn broken<T>() -> io::Result<T> {
    Err(io::Error::from(ErrorKind::Other))
}

/// A file that gives one byte and takes one, and then fails.
#[derive(Drop)]
struct TornFile {
    is_used: bool,
}

impl Read for TornFile {
    fn read(&mut self, buf: &mut [u8]) -> io::Result<usize> {
        if self.is_used || buf.is_empty() {
            return Err(io::Error::from(ErrorKind::Other));
        }
        self.is_used = true;
        buf[0] = b'a';
        Ok(1)
    }
}

impl Write for TornFile {
    fn write(&mut self, buf: &[u8]) -> io::Result<usize> {
        if self.is_used || buf.is_empty() {
            return Err(io::Error::from(ErrorKind::Other));
        }
        self.is_used = true;
        Ok(1)
    }

    fn flush(&mut self) -> io::Result<()> {
        Ok(())
    }
}

impl Seek for TornFile {
    fn seek(&mut self, _to: SeekFrom) -> io::Result<u64> {
        broken()
    }
}

impl OpenFile for TornFile {
    fn metadata(&self) -> io::Result<Metadata> {
        broken()
    }

    fn set_len(&self, _size: u64) -> io::Result<()> {
        broken()
    }

    fn sync_all(&self) -> io::Result<()> {
        Ok(())
    }

    fn sync_data(&self) -> io::Result<()> {
        broken()
    }
}

/// A file system in which each file fails in mid-stream, beside a standard input that does not.
#[derive(Drop)]
struct TornFiles;

impl Input for TornFiles {
    type Reader = Cursor<[u8; 5]>;

    fn read_line<A: Allocator + Clone>(&self, _buf: &mut String<A>) -> io::Result<usize> {
        Err(io::Error::from(ErrorKind::Other))
    }

    fn lines<A: Allocator>(&self, alloc: A) -> Lines<Cursor<[u8; 5]>, A> {
        self.reader().lines(alloc)
    }

    fn reader(&self) -> Cursor<[u8; 5]> {
        Cursor::new(*b"input")
    }
}

impl Files for TornFiles {
    type File = TornFile;

    type Dir = TornFile;

    fn open_file(&self, _how: &OpenOptions, _path: &str) -> io::Result<TornFile> {
        Ok(TornFile { is_used: false })
    }

    fn open_dir(&self, _path: &str) -> io::Result<TornFile> {
        broken()
    }

    fn metadata(&self, _path: &str) -> io::Result<Metadata> {
        Err(io::Error::from(ErrorKind::NotFound))
    }

    fn symlink_metadata(&self, _path: &str) -> io::Result<Metadata> {
        Err(io::Error::from(ErrorKind::NotFound))
    }

    fn copy(&self, _from: &str, _to: &str) -> io::Result<u64> {
        broken()
    }

    fn rename(&self, _from: &str, _to: &str) -> io::Result<()> {
        Ok(())
    }

    fn remove_file(&self, _path: &str) -> io::Result<()> {
        broken()
    }

    fn create_dir(&self, _path: &str) -> io::Result<()> {
        broken()
    }

    fn remove_dir(&self, _path: &str) -> io::Result<()> {
        broken()
    }

    fn remove_dir_all<B: Allocator>(&self, _alloc: B, _path: &str) -> io::Result<()> {
        broken()
    }
}

#[test]
fn disk_shelf_fails_in_mid_stream(rt: HostRuntime) {
    let mut shelf = DiskShelf::new(TornFiles, rt.alloc());
    assert!(rt; stops(&mut shelf, "a", ShelfStop::Failed));
    assert!(rt; gives(&mut shelf, "a", 1, b"a"));
    assert!(rt; shelf.replace("a", b"xy") == Err(ShelfStop::Failed));
    assert!(rt; shelf.replace("a", b"x").is_ok());
}

/// The name `-` is the standard input where it is read, and `./-` is a file, as `-` is where it is replaced.
#[test]
fn disk_shelf_reads_the_standard_input(rt: HostRuntime) {
    let mut shelf = DiskShelf::new(TornFiles, rt.alloc());
    assert!(rt; gives(&mut shelf, "-", 100, b"input"));
    assert!(rt; gives(&mut shelf, "-", 2, b"in"));
    assert!(rt; stops(&mut shelf, "./-", ShelfStop::Failed));
    assert!(rt; shelf.replace("-", b"xy") == Err(ShelfStop::Failed));
}

/// A standard output that takes nothing.
#[derive(Drop)]
struct Closed;

impl Print for Closed {
    fn print<D: std::fmt::Display + Drop>(&self, _value: D) -> io::Result<()> {
        broken()
    }

    fn println<D: std::fmt::Display + Drop>(&self, _value: D) -> io::Result<()> {
        broken()
    }

    fn write_all(&self, _bytes: &[u8]) -> io::Result<()> {
        broken()
    }
}

#[test]
fn out_sink_writes_and_reports_write_errors(rt: HostRuntime) {
    assert!(rt;
        OutSink::new(rt)
            .write_all(b"written to the standard output\n")
            .is_ok()
    );
    assert!(rt; OutSink::new(Closed).write_all(b"x") == Err(SinkStop::Failed));
}
