//! A folder in memory that never fails.
ghost use Rattle.std.specs.Prelude.{◌≡◌, ◌≢◌, ◌<◌, ◌≤◌, ◌-◌, ℕ, List, [], Some, None, Ok, Err, min, length, drop, IsSome, IsOk, IfOk, OnOk, OnErr};
ghost use Rattle.djvu_base.specs.Name.{IsAscending};
ghost use Rattle.djvu_base.specs.Library.{Files, names_of};
ghost use Rattle.djvu_outside.specs.Faults.{FolderCounts, ReadCounts, Failure, Listing, Reading, FolderAdds, ReadAdds};
ghost use Rattle.djvu_outside.specs.Folders.{new_sure, bytes_left};
ghost use Rattle.djvu_outside.specs.Reading.{Opened, opened_at_start, moved_on, HasFile, ReadsNext};

use crate::faults::{Failed, FolderFault};
use crate::folder::Folder;
use crate::memory_files::Place;
use crate::memory_parts::{copy_front, copy_names, place_of, rest_of};
use djvu_base::{Items, Name};
use std::alloc::Global;
use std::marker::Model;

/// A folder that has its files in memory, and never fails. Its listing may find no memory.
#[derive(Debug, Drop)]
pub struct SureFolder {
    contents: Vec<(Name, Items<u8>)>,
    place: Option<Place>,
}

impl Model for SureFolder {
    ghost use Rattle.std.specs.Prelude.{option_map};
    ghost use Rattle.djvu_outside.specs.Folders.{SureFiles, IsSureFolder, opened_at};

    ghost Value = { SureFiles };

    ghost view = { λ a. record { files = a.contents.items; opened = option_map (opened_at a.contents.items) a.place } };

    ghost invariant = { λ a. IsSureFolder a.contents.items a.place };
}

impl SureFolder {
    /// A folder of these files, in ascending order of their names. Takes no memory.
    pub fn new(_alloc: Global, files: Vec<(Name, Items<u8>)>) -> SureFolder
        requires { IsAscending (names_of files.items) }
        ensures { result ≡ new_sure files.items }
    {
        SureFolder {
            contents: files,
            place: None,
        }
    }
}

impl Folder for SureFolder {
    ghost files = { λ folder. Some folder.files };

    ghost faults = { λ folder. 0 };

    ghost failures = { λ folder. [] };

    ghost opened = { λ folder. folder.opened };

    fn list(&mut self, alloc: Global) -> Result<Vec<Name>, FolderFault>
        ensures ascending { IfOk result (λ names. IsAscending names.items) }
        ensures names { IfOk result (λ names. names.items ≡ names_of self.old.files) }
        ensures counts { FolderCounts result 0 0 }
        ensures failure { FolderAdds result Listing [] [] }
        ensures same_files { self.new.files ≡ self.old.files }
        ensures same_opened { self.new.opened ≡ self.old.opened }

        ensures sure { result ≢ Err FolderFault.Failed }
    {
        match copy_names(alloc, self.contents.as_slice()) {
            Ok(names) => Ok(names),
            Err(_) => Err(FolderFault::OutOfMemory),
        }
    }

    fn open(&mut self, name: &Name) -> Result<(), FolderFault>
        requires { (told : Files) → Some self.old.files ≡ Some told → HasFile told name.now }
        ensures ok { OnOk result (self.new.opened ≡ Some (opened_at_start name.now)) }
        ensures err { OnErr result (self.new.opened ≡ None) }
        ensures counts { FolderCounts result 0 0 }
        ensures failure { FolderAdds result (Reading name.now 0) [] [] }
        ensures same_files { self.new.files ≡ self.old.files }

        ensures sure { IsOk result }
    {
        self.place = Some(place_of(self.contents.as_slice(), name));
        Ok(())
    }

    fn read(&mut self, buf: &mut [u8]) -> Result<usize, Failed>
        requires is_open { IsSome self.old.opened }
        requires room { 0 < length buf.old }
        ensures within { IfOk result (λ count. count ≤ length buf.old) }
        ensures bytes { (here : Opened) → self.old.opened ≡ Some here → IfOk result (λ count. ReadsNext self.old.files here buf.new count) }
        ensures ok { (here : Opened) → self.old.opened ≡ Some here → IfOk result (λ count. self.new.opened ≡ Some (moved_on here count)) }
        ensures err { OnErr result (self.new.opened ≡ None) }
        ensures counts { ReadCounts result 0 0 }
        ensures failure { (here : Opened) → self.old.opened ≡ Some here → ReadAdds result (Reading here.name here.position) [] [] }
        ensures same_files { self.new.files ≡ self.old.files }

        ensures sure { IsOk result }
        ensures count { (here : Opened) → self.old.opened ≡ Some here → IfOk result (λ count. count ≡ min (length buf.old) (bytes_left self.old.files here)) }
        ensures still_open { IsSome self.new.opened }
        ensures behind { IfOk result (λ count. drop count buf.new ≡ drop count buf.old) }
    {
        let Some(place) = self.place else {
            unreachable!()
        };
        let rest = rest_of(self.contents.as_slice(), &place);
        let count = copy_front(buf, rest);
        self.place = Some(Place {
            file: place.file,
            position: place.position + count,
        });
        Ok(count)
    }
}
