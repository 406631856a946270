//! Folders.
ghost use Rattle.std.specs.Prelude.{◌≡◌, ℕ, ◌<◌, ◌≤◌, List, Option, length, IfOk, OnOk, OnErr, IsSome};
ghost use Rattle.djvu_base.specs.Name.{IsAscending};
ghost use Rattle.djvu_base.specs.Library.{Files, names_of};
ghost use Rattle.djvu_outside.specs.Faults.{FolderCounts, ReadCounts, Failure, Listing, Reading, FolderAdds, ReadAdds};
ghost use Rattle.djvu_outside.specs.Reading.{Opened, opened_at_start, moved_on, HasFile, ReadsNext};

use crate::faults::{Failed, FolderFault};
use djvu_base::Name;
use std::alloc::Global;

/// A folder of files, of which one at a time is open.
pub trait Folder {
    /// The files with their bytes. Some folders tell them, and no call changes them.
    ghost files: { Self → Option Files };

    /// How many calls failed. It never falls.
    ghost faults: { Self → ℕ };

    /// What failed, in order. It is told where the files are.
    ghost failures: { Self → List Failure };

    /// The open file.
    ghost opened: { Self → Option Opened };

    /// The names of all files, in ascending order of their bytes, each once.
    fn list(&mut self, alloc: Global) -> Result<Vec<Name>, FolderFault>
        ensures ascending { IfOk result (λ names. IsAscending names.items) }
        ensures names { (told : Files) → files self.old ≡ Some told → IfOk result (λ names. names.items ≡ names_of told) }
        ensures counts { FolderCounts result (faults self.old) (faults self.new) }
        ensures failure { (told : Files) → files self.old ≡ Some told → FolderAdds result Listing (failures self.old) (failures self.new) }
        ensures same_files { files self.new ≡ files self.old }
        ensures same_opened { opened self.new ≡ opened self.old };

    /// Opens a file at its start. After a refusal no file is open.
    fn open(&mut self, name: &Name) -> Result<(), FolderFault>
        requires { (told : Files) → files self.old ≡ Some told → HasFile told name.now }
        ensures ok { OnOk result (opened self.new ≡ Some (opened_at_start name.now)) }
        ensures err { OnErr result (opened self.new ≡ None) }
        ensures counts { FolderCounts result (faults self.old) (faults self.new) }
        ensures failure { (told : Files) → files self.old ≡ Some told → FolderAdds result (Reading name.now 0) (failures self.old) (failures self.new) }
        ensures same_files { files self.new ≡ files self.old };

    /// Writes the next bytes of the open file to the front of `buf`, and answers how many: at least one, or 0 exactly
    /// at the file's end. After a refusal no file is open.
    fn read(&mut self, buf: &mut [u8]) -> Result<usize, Failed>
        requires is_open { IsSome (opened self.old) }
        requires room { 0 < length buf.old }
        ensures within { IfOk result (λ count. count ≤ length buf.old) }
        ensures bytes { (told : Files) (here : Opened) → files self.old ≡ Some told → opened self.old ≡ Some here → IfOk result (λ count. ReadsNext told here buf.new count) }
        ensures ok { (here : Opened) → opened self.old ≡ Some here → IfOk result (λ count. opened self.new ≡ Some (moved_on here count)) }
        ensures err { OnErr result (opened self.new ≡ None) }
        ensures counts { ReadCounts result (faults self.old) (faults self.new) }
        ensures failure { (told : Files) (here : Opened) → files self.old ≡ Some told → opened self.old ≡ Some here → ReadAdds result (Reading here.name here.position) (failures self.old) (failures self.new) }
        ensures same_files { files self.new ≡ files self.old };
}
