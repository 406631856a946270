//! A folder of the file system.
ghost use Rattle.std.specs.Prelude.{◌≡◌, ◌<◌, ◌≤◌, ◌↔◌, ℕ, [], None, length, IsSome, IfOk, OnOk, OnErr, IfSome};
ghost use Rattle.djvu_base.specs.Name.{IsAscending};
ghost use Rattle.std.specs.IoError.{error_kind};
ghost use Rattle.djvu_outside.specs.Faults.{FolderCounts, ReadCounts};
ghost use Rattle.djvu_outside.specs.Folders.{unopened, with_slash};
ghost use Rattle.djvu_outside.specs.Reading.{Opened, opened_at_start, moved_on};
ghost use Rattle.djvu_outside.specs.Readers.{opened_of};

use crate::faults::{Failed, FolderFault};
use crate::folder::Folder;
use crate::listing::{file_path, folder_path, plain_names, read_some};
use djvu_base::Name;
use std::alloc::{AllocError, Global};
use std::fs::OpenOptions;
use std::io;
use std::io::{ErrorKind, Read};
use std::marker::Model;
use std::rt::Files;

/// An open file.
#[derive(Drop)]
pub struct Reader<F> {
    file: F,
    name: Name,
    position: u64,
}

/// A folder of the file system. Its files are the plain files in it whose names are names: links and sub-folders are
/// left out.
#[derive(Drop)]
pub struct DirFolder<R: Files> {
    rt: R,
    alloc: Global,
    folder: String,
    reader: Option<Reader<R::File>>,
    failed: u64,
}

impl<R: Files> Model for DirFolder<R> {
    ghost use Rattle.std.specs.Prelude.{option_map, string_bytes};
    ghost use Rattle.djvu_outside.specs.Folders.{DirState};
    ghost use Rattle.djvu_outside.specs.Readers.{opened_of};

    ghost Value = { DirState };

    ghost view = { λ a. record { path = string_bytes a.folder; opened = option_map opened_of a.reader; faults = a.failed } };
}

impl<R: Files + Drop> DirFolder<R> {
    /// The folder at this path, which may be a link to it. Nothing is read yet.
    pub fn new(rt: R, alloc: Global, path: &str) -> Result<DirFolder<R>, AllocError>
        ensures { IfOk result (λ folder. folder ≡ unopened (with_slash path.now)) }
    {
        let folder = folder_path(alloc, path)?;
        Ok(DirFolder {
            rt,
            alloc,
            folder,
            reader: None,
            failed: 0,
        })
    }

    // Counts the error, unless there was no memory.
    fn fault(&mut self, error: io::Error) -> FolderFault
        ensures kind { (result ≡ FolderFault.OutOfMemory) ↔ (error_kind error ≡ ErrorKind.OutOfMemory) }
        ensures counts { FolderCounts {T = ℕ} (Err result) self.old.faults self.new.faults }
        ensures same_opened { self.new.opened ≡ self.old.opened }
        ensures same_path { self.new.path ≡ self.old.path }
    {
        if error.kind() == ErrorKind::OutOfMemory {
            return FolderFault::OutOfMemory;
        }
        self.failed = self.failed.saturating_add(1);
        FolderFault::Failed
    }
}

impl<R: Files + Drop> Folder for DirFolder<R> {
    ghost files = { λ _. None };

    ghost faults = { λ folder. folder.faults };

    ghost failures = { λ _. [] };

    ghost opened = { λ folder. folder.opened };

    fn list(&mut self, alloc: Global) -> Result<Vec<Name>, FolderFault>
        ensures ascending { IfOk result (λ names. IsAscending names.items) }
        ensures counts { FolderCounts result self.old.faults self.new.faults }
        ensures same_opened { self.new.opened ≡ self.old.opened }
        ensures same_path { self.new.path ≡ self.old.path }
    {
        match plain_names(&self.rt, alloc, self.folder.as_str()) {
            Ok(names) => Ok(names),
            Err(error) => Err(self.fault(error)),
        }
    }

    fn open(&mut self, name: &Name) -> Result<(), FolderFault>
        ensures ok { OnOk result (self.new.opened ≡ Some (opened_at_start name.now)) }
        ensures err { OnErr result (self.new.opened ≡ None) }
        ensures counts { FolderCounts result self.old.faults self.new.faults }
        ensures same_path { self.new.path ≡ self.old.path }
    {
        self.reader = None;
        match open_file(&self.rt, self.alloc, self.folder.as_str(), name) {
            Ok(reader) => {
                self.reader = Some(reader);
                Ok(())
            }
            Err(error) => Err(self.fault(error)),
        }
    }

    fn read(&mut self, buf: &mut [u8]) -> Result<usize, Failed>
        requires is_open { IsSome self.old.opened }
        requires room { 0 < length buf.old }
        ensures within { IfOk result (λ count. count ≤ length buf.old) }
        ensures ok { (here : Opened) → self.old.opened ≡ Some here → IfOk result (λ count. self.new.opened ≡ Some (moved_on here count)) }
        ensures err { OnErr result (self.new.opened ≡ None) }
        ensures counts { ReadCounts result self.old.faults self.new.faults }
        ensures same_path { self.new.path ≡ self.old.path }
    {
        let Some(reader) = self.reader.take() else {
            unreachable!()
        };
        match reader.read(buf) {
            Some((reader, count)) => {
                self.reader = Some(reader);
                Ok(count)
            }
            None => {
                self.failed = self.failed.saturating_add(1);
                Err(Failed)
            }
        }
    }
}

impl<F: Read + Drop> Reader<F> {
    // The reader after one read, and how many bytes that gave.
    fn read(mut self, buf: &mut [u8]) -> Option<(Reader<F>, usize)>
        ensures within { IfSome result (λ read. read.1 ≤ length buf.old) }
        ensures after { IfSome result (λ read. opened_of read.0 ≡ moved_on (opened_of self) read.1) }
    {
        let Ok(count) = read_some(&mut self.file, buf) else {
            return None;
        };
        self.position = self.position.checked_add(count as u64)?;
        Some((self, count))
    }
}

fn open_file<R: Files>(
    files: &R,
    alloc: Global,
    folder: &str,
    name: &Name,
) -> io::Result<Reader<R::File>>
    ensures { IfOk result (λ reader. opened_of reader ≡ opened_at_start name.now) }
{
    let path = file_path(alloc, folder, name)?;
    let name = name.copy(alloc)?;
    let file = files.open_file(OpenOptions::new().read(true), path.as_str())?;
    Ok(Reader {
        file,
        name,
        position: 0,
    })
}
