//! A folder in memory.
ghost use Rattle.std.specs.Prelude.{◌≡◌, ◌≢◌, ◌<◌, ◌≤◌, ◌↔◌, ◌++◌, ℕ, Some, None, min, ◌-◌, length, take, drop, IsSome, IsTrue, IsErrOf, IsErr, IfOk, OnOk, OnErr, map, option_map};
ghost use Rattle.djvu_base.specs.Name.{IsAscending};
ghost use Rattle.djvu_base.specs.Library.{Files, names_of};
ghost use Rattle.djvu_outside.specs.Calls.{is_failing, after_call};
ghost use Rattle.djvu_outside.specs.Faults.{FolderCounts, ReadCounts, Failure, Listing, Reading, FolderAdds, ReadAdds};
ghost use Rattle.djvu_outside.specs.Folders.{new_folder, bytes_left};
ghost use Rattle.djvu_outside.specs.Reading.{Opened, opened_at_start, moved_on, HasFile, ReadsNext};

use crate::calls::Calls;
use crate::faults::{Failed, FolderFault};
use crate::folder::Folder;
use crate::memory_parts::{copy_front, copy_names, place_of, rest_of};
use djvu_base::{Items, Name};
use std::alloc::{AllocError, Global};
use std::marker::Model;

/// A place in a file of the folder.
#[derive(Clone, Copy, Debug, PartialEq, Eq)]
pub struct Place {
    /// The number of the file among the files, from 0.
    pub file: usize,
    /// Bytes from the start of the file.
    pub position: usize,
}

/// What failed.
#[derive(Clone, Copy, Debug, PartialEq, Eq)]
pub enum Note {
    Listing,
    Reading(Place),
}

/// A folder that has its files in memory, and fails at the calls that it was told.
#[derive(Debug, Drop)]
pub struct MemoryFolder {
    contents: Vec<(Name, Items<u8>)>,
    place: Option<Place>,
    notes: Vec<Note>,
    numbers: Calls,
}

impl Model for MemoryFolder {
    ghost use Rattle.std.specs.Prelude.{map, option_map, vec_capacity};
    ghost use Rattle.djvu_outside.specs.Folders.{MemoryFiles, IsFolder, failure_at, opened_at};

    ghost Value = { MemoryFiles };

    ghost view = { λ a. record { files = a.contents.items; failures = map (failure_at a.contents.items) a.notes.items; opened = option_map (opened_at a.contents.items) a.place; calls = a.numbers } };

    ghost invariant = { λ a. IsFolder a.contents.items a.place a.notes.items (vec_capacity a.notes) a.numbers };
}

impl MemoryFolder {
    /// A folder of these files, in ascending order of their names. The calls of `list`, `open` and `read` are numbered
    /// together from 0, and those whose number stands in `failing` fail.
    pub fn new(
        alloc: Global,
        files: Vec<(Name, Items<u8>)>,
        failing: Vec<u64>,
    ) -> Result<MemoryFolder, AllocError>
        requires { IsAscending (names_of files.items) }
        ensures { IfOk result (λ folder. folder ≡ new_folder files.items failing.items) }
    {
        let notes = Vec::with_capacity(alloc, failing.len())?;
        Ok(MemoryFolder {
            contents: files,
            place: None,
            notes,
            numbers: Calls::new(failing),
        })
    }
}

impl Folder for MemoryFolder {
    ghost files = { λ folder. Some folder.files };

    ghost faults = { λ folder. length folder.failures };

    ghost failures = { λ folder. folder.failures };

    ghost opened = { λ folder. folder.opened };

    fn list(&mut self, alloc: Global) -> Result<Vec<Name>, FolderFault>
        ensures ascending { IfOk result (λ names. IsAscending names.items) }
        ensures names { IfOk result (λ names. names.items ≡ names_of self.old.files) }
        ensures counts { FolderCounts result (length self.old.failures) (length self.new.failures) }
        ensures failure { FolderAdds result Listing self.old.failures self.new.failures }
        ensures same_files { self.new.files ≡ self.old.files }
        ensures same_opened { self.new.opened ≡ self.old.opened }

        ensures fails { IsErrOf result FolderFault.Failed ↔ IsTrue (is_failing self.old.calls) }
        ensures calls { self.new.calls ≡ after_call self.old.calls }
    {
        if self.numbers.fails() {
            self.notes.push_reserved(Note::Listing);
            return Err(FolderFault::Failed);
        }
        match copy_names(alloc, self.contents.as_slice()) {
            Ok(names) => Ok(names),
            Err(_) => Err(FolderFault::OutOfMemory),
        }
    }

    fn open(&mut self, name: &Name) -> Result<(), FolderFault>
        requires { (told : Files) → Some self.old.files ≡ Some told → HasFile told name.now }
        ensures ok { OnOk result (self.new.opened ≡ Some (opened_at_start name.now)) }
        ensures err { OnErr result (self.new.opened ≡ None) }
        ensures counts { FolderCounts result (length self.old.failures) (length self.new.failures) }
        ensures failure { FolderAdds result (Reading name.now 0) self.old.failures self.new.failures }
        ensures same_files { self.new.files ≡ self.old.files }

        ensures fails { IsErrOf result FolderFault.Failed ↔ IsTrue (is_failing self.old.calls) }
        ensures no_other_fault { result ≢ Err FolderFault.OutOfMemory }
        ensures calls { self.new.calls ≡ after_call self.old.calls }
    {
        let place = place_of(self.contents.as_slice(), name);
        if self.numbers.fails() {
            self.place = None;
            self.notes.push_reserved(Note::Reading(place));
            return Err(FolderFault::Failed);
        }
        self.place = Some(place);
        Ok(())
    }

    fn read(&mut self, buf: &mut [u8]) -> Result<usize, Failed>
        requires is_open { IsSome self.old.opened }
        requires room { 0 < length buf.old }
        ensures within { IfOk result (λ count. count ≤ length buf.old) }
        ensures bytes { (here : Opened) → self.old.opened ≡ Some here → IfOk result (λ count. ReadsNext self.old.files here buf.new count) }
        ensures ok { (here : Opened) → self.old.opened ≡ Some here → IfOk result (λ count. self.new.opened ≡ Some (moved_on here count)) }
        ensures err { OnErr result (self.new.opened ≡ None) }
        ensures counts { ReadCounts result (length self.old.failures) (length self.new.failures) }
        ensures failure { (here : Opened) → self.old.opened ≡ Some here → ReadAdds result (Reading here.name here.position) self.old.failures self.new.failures }
        ensures same_files { self.new.files ≡ self.old.files }

        ensures fails { IsErr result ↔ IsTrue (is_failing self.old.calls) }
        ensures count { (here : Opened) → self.old.opened ≡ Some here → IfOk result (λ count. count ≡ min (length buf.old) (bytes_left self.old.files here)) }
        ensures still_open { OnOk result (IsSome self.new.opened) }
        ensures behind { IfOk result (λ count. drop count buf.new ≡ drop count buf.old) }
        ensures untouched { OnErr result (buf.new ≡ buf.old) }
        ensures calls { self.new.calls ≡ after_call self.old.calls }
    {
        let Some(place) = self.place else {
            unreachable!()
        };
        if self.numbers.fails() {
            self.place = None;
            self.notes.push_reserved(Note::Reading(place));
            return Err(Failed);
        }
        let rest = rest_of(self.contents.as_slice(), &place);
        let count = copy_front(buf, rest);
        self.place = Some(Place {
            file: place.file,
            position: place.position + count,
        });
        Ok(count)
    }
}
