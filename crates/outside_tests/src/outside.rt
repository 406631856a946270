//! Folders and sinks: that calls succeed, what the file system gives, and that a sink flushes its writer.
ghost use Rattle.std.specs.Prelude.{◌≡◌, ◌<◌, length, codes, IfOk};
ghost use Rattle.djvu_outside.specs.Reading.{HasFile};

use djvu_base::{Items, Name};
use djvu_outside::{DirFolder, Folder, FolderFault, MemoryFolder, MemorySink, Sink, WriteSink};
use std::alloc::Global;
use std::io::{Error, ErrorKind, Write};
use std::os::unix::fs::symlink;
use std::test::Fail;
use std::{fs, io};

fn name_of(alloc: Global, bytes: &[u8]) -> Result<Name, Fail>
    ensures { IfOk result (λ name. name ≡ bytes.now) }
{
    match Name::read(alloc, bytes)? {
        Some(name) => Ok(name),
        None => Err(Fail::from("no name")),
    }
}

// The names, each ended by a slash.
fn line_of(alloc: Global, names: &[Name]) -> Result<Vec<u8>, Fail> {
    let mut line = Vec::new(alloc);
    for name in names {
        line.extend_from_slice(name.bytes())?;
        line.push(b'/')?;
    }
    Ok(line)
}

// A folder of one file, which fails at these calls.
fn folder_of(alloc: Global, failing: &[u64]) -> Result<MemoryFolder, Fail>
    ensures { IfOk result (λ folder. HasFile folder.files (codes "one")) }
{
    let name = name_of(alloc, b"one")?;
    let hello = Vec::from_slice(alloc, b"hello")?;
    let mut files = Vec::new(alloc);
    files.push((name, Items::of(hello)))?;
    let failing = Vec::from_slice(alloc, failing)?;
    Ok(MemoryFolder::new(alloc, files, failing)?)
}

// Opens the file and reads twice: how many bytes each read gave, or `None` where a call failed.
fn read_twice(folder: &mut MemoryFolder, name: &Name, buf: &mut [u8]) -> Option<(usize, usize)>
    requires file { HasFile folder.old.files name.now }
    requires room { 0 < length buf.old }
    ensures { folder.new.files ≡ folder.old.files }
{
    folder.open(name).ok()?;
    let first = folder.read(buf).ok()?;
    let second = folder.read(buf).ok()?;
    Some((first, second))
}

#[test]
fn a_folder_in_memory_fails_where_it_is_told(rt: HostRuntime) -> Result<(), Fail> {
    let alloc = rt.alloc();
    let mut folder = folder_of(alloc, &[1, 4, 5])?;
    let names = folder.list(alloc)?;
    assert_eq!(rt;
        line_of(alloc, names.as_slice())?.as_slice(),
        b"one/".as_slice()
    );
    assert!(rt; folder.list(alloc).is_err());
    let one = name_of(alloc, b"one")?;
    let mut buf = [0; 4];
    assert!(rt; read_twice(&mut folder, &one, &mut buf).is_none());
    assert_eq!(rt; buf, *b"hell");
    assert!(rt; read_twice(&mut folder, &one, &mut buf).is_none());
    assert_eq!(rt; read_twice(&mut folder, &one, &mut buf), Some((4, 1)));
    assert_eq!(rt; buf, *b"oell");
    Ok(())
}

#[test]
fn a_sink_in_memory_fails_where_it_is_told(rt: HostRuntime) -> Result<(), Fail> {
    let failing = Vec::from_slice(rt.alloc(), &[1, 2])?;
    let mut sink = MemorySink::new(rt.alloc(), failing);
    for (piece, taken) in [(b"a", true), (b"b", false), (b"c", false), (b"d", true)] {
        assert_eq!(rt; sink.put(piece).is_ok(), taken);
    }
    assert_eq!(rt; sink.bytes(), b"ad".as_slice());
    Ok(())
}

const FOLDER: &str = "djvu_outside_test";

#[test]
fn a_real_folder_lists_its_plain_files(rt: HostRuntime) -> Result<(), Fail> {
    let alloc = rt.alloc();
    let _ = fs::remove_dir_all(&rt, FOLDER);
    let _ = fs::remove_file(&rt, "djvu_outside_link");
    fs::create_dir(&rt, FOLDER)?;
    fs::create_dir(&rt, "djvu_outside_test/sub")?;
    for name in ["two", "one", "a\nb"] {
        let path = format!(in alloc; "{FOLDER}/{name}")?;
        fs::write(&rt, path.as_str(), b"hello".as_slice())?;
    }
    symlink(&rt, "two", "djvu_outside_test/link")?;
    symlink(&rt, FOLDER, "djvu_outside_link")?;
    let mut buf = [0; 4];
    for path in [FOLDER, "djvu_outside_test/", "djvu_outside_link"] {
        let mut folder = DirFolder::new(rt.clone()?, alloc, path)?;
        let names = folder.list(alloc)?;
        assert_eq!(rt;
            line_of(alloc, names.as_slice())?.as_slice(),
            b"one/two/".as_slice()
        );
        folder.open(&name_of(alloc, b"two")?)?;
        assert_eq!(rt; folder.read(&mut buf)?, 4);
        assert_eq!(rt; folder.read(&mut buf)?, 1);
        assert_eq!(rt; buf, *b"oell");
        assert_eq!(rt; folder.read(&mut buf)?, 0);
        let gone = name_of(alloc, b"gone")?;
        assert!(rt; matches!(folder.open(&gone), Err(FolderFault::Failed)));
        is_send(folder);
    }
    fs::remove_dir_all(&rt, FOLDER)?;
    fs::remove_file(&rt, "djvu_outside_link")?;
    for path in ["", FOLDER] {
        let mut folder = DirFolder::new(rt.clone()?, alloc, path)?;
        assert!(rt; matches!(folder.list(alloc), Err(FolderFault::Failed)));
    }
    Ok(())
}

fn is_send<T: Send + Drop>(_value: T) {}

// A writer that keeps nothing, and fails at writes or at flushes.
#[derive(Drop)]
struct Stuck {
    at_writes: bool,
    at_flushes: bool,
}

fn fail_if(fails: bool) -> io::Result<()> {
    if fails {
        Err(Error::from(ErrorKind::StorageFull))
    } else {
        Ok(())
    }
}

impl Write for Stuck {
    fn write(&mut self, buf: &[u8]) -> io::Result<usize> {
        fail_if(self.at_writes)?;
        Ok(buf.len())
    }

    fn flush(&mut self) -> io::Result<()> {
        fail_if(self.at_flushes)
    }
}

#[test]
fn a_sink_over_a_writer_writes_and_flushes(rt: HostRuntime) -> Result<(), Fail> {
    let path = "djvu_outside_sink";
    let mut sink = WriteSink::new(fs::File::create(&rt, path)?);
    sink.put(b"one ")?;
    sink.put(b"two")?;
    assert_eq!(rt; fs::read(&rt, path)?.as_slice(), b"one two".as_slice());
    drop(sink);
    fs::remove_file(&rt, path)?;
    for (at_writes, at_flushes) in [(false, false), (true, false), (false, true)] {
        let mut sink = WriteSink::new(Stuck {
            at_writes,
            at_flushes,
        });
        assert_eq!(rt; sink.put(b"a").is_err(), at_writes || at_flushes);
    }
    Ok(())
}
