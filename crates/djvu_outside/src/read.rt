//! Reading a whole file of a folder.
ghost use Rattle.std.specs.Prelude.{◌≡◌, ◌≢◌, ◌+◌, ◌<◌, ◌≤◌, ◌^◌, Some, IfOk, IfErr, IfSome, OnErr, IsSome, length, take, drop, vec_len};
ghost use Rattle.djvu_base.specs.Library.{Files, file_limit};
ghost use Rattle.djvu_outside.specs.Faults.{ReadCounts, Reading, ReadAdds};
ghost use Rattle.djvu_outside.specs.Reading.{Opened, HasFile, ReadsNext, bytes_in, moved_on};
ghost use Rattle.djvu_outside.specs.FileReads.{is_broken, CountsRead, Reads};
ghost use Rattle.djvu_outside.specs.Pieces.{CameBytes, Counted, CountsCame};

use crate::faults::{Failed, FolderFault};
use crate::folder::Folder;
use crate::stops::Stop;
use djvu_base::{FileEnd, Name};
use std::alloc::Global;

/// How many bytes are asked for at once.
const PIECE: usize = 65_536;

/// The bytes of a file that came, and what is known of its end.
#[derive(Debug, Drop)]
pub struct FileRead {
    pub bytes: Vec<u8>,
    pub end: FileEnd,
}

impl FileRead {
    /// Whether reading the file failed after these bytes.
    pub fn is_broken(&self) -> bool
        ensures { result ≡ is_broken self.now.end }
    {
        matches!(self.end, FileEnd::Broken)
    }
}

/// How many bytes of a file are read: a larger file is cut there.
fn file_limit() -> usize
    ensures limit { result ≡ file_limit }
    ensures small { result < 2 ^ 32 }
{
    2_097_152
}

/// Reads a file, up to the limit of 2,097,152 bytes. Where the folder fails, the file is what came before.
///
/// # Errors
///
/// `Memory` alone, which may come for any file.
pub fn read_file<F: Folder>(alloc: Global, folder: &mut F, name: &Name) -> Result<FileRead, Stop>
    requires { (told : Files) → F.files folder.old ≡ Some told → HasFile told name.now }
    ensures told { (told : Files) → F.files folder.old ≡ Some told → Reads result (take file_limit (bytes_in told name.now)) name.now 0 (F.failures folder.old) (F.failures folder.new) }
    ensures counts { CountsRead result (F.faults folder.old) (F.faults folder.new) }
    ensures size { IfOk result (λ file. vec_len file.bytes < 2 ^ 32) }
    ensures memory { IfErr result (λ stop. stop ≡ Stop.Memory) }
    ensures same_files { F.files folder.new ≡ F.files folder.old }
{
    match folder.open(name) {
        Ok(()) => read_open(alloc, folder, file_limit()),
        Err(FolderFault::Failed) => Ok(FileRead {
            bytes: Vec::new(alloc),
            end: FileEnd::Broken,
        }),
        Err(FolderFault::OutOfMemory) => Err(Stop::Memory),
    }
}

/// Reads what is left of the open file, up to this many bytes.
fn read_open<F: Folder>(alloc: Global, folder: &mut F, limit: usize) -> Result<FileRead, Stop>
    requires is_open { IsSome (F.opened folder.old) }
    requires small { limit < 2 ^ 32 }
    ensures told { (told : Files) (here : Opened) → F.files folder.old ≡ Some told → F.opened folder.old ≡ Some here →
        Reads result (take limit (drop here.position (bytes_in told here.name))) here.name here.position (F.failures folder.old) (F.failures folder.new) }
    ensures counts { CountsRead result (F.faults folder.old) (F.faults folder.new) }
    ensures size { IfOk result (λ file. vec_len file.bytes ≤ limit) }
    ensures memory { IfErr result (λ stop. stop ≡ Stop.Memory) }
    ensures same_files { F.files folder.new ≡ F.files folder.old }
{
    let mut bytes = Vec::new(alloc);
    while bytes.len() < limit {
        let room = (limit - bytes.len()).min(PIECE);
        let Some(count) = read_some(folder, &mut bytes, room)? else {
            return Ok(FileRead {
                bytes,
                end: FileEnd::Broken,
            });
        };
        if count == 0 {
            return Ok(FileRead {
                bytes,
                end: FileEnd::Whole,
            });
        }
    }
    Ok(FileRead {
        bytes,
        end: FileEnd::Whole,
    })
}

/// Reads once, up to so many bytes, to the end of those that came before. Answers how many came, or `None` where the folder
/// failed.
fn read_some<F: Folder>(
    folder: &mut F,
    bytes: &mut Vec<u8>,
    room: usize,
) -> Result<Option<usize>, Stop>
    requires is_open { IsSome (F.opened folder.old) }
    requires some { 0 < room }
    requires fits { vec_len bytes.old + room < 2 ^ 64 }
    ensures within { IfOk result (λ came. IfSome came (λ count. count ≤ room)) }
    ensures counted { IfOk result (λ came. Counted came (vec_len bytes.old) (vec_len bytes.new)) }
    ensures told { (told : Files) (here : Opened) → F.files folder.old ≡ Some told → F.opened folder.old ≡ Some here →
        IfOk result (λ came. CameBytes told here came bytes.old.items bytes.new.items (F.failures folder.old) (F.failures folder.new)) }
    ensures kept { OnErr result (folder.new ≡ folder.old) }
    ensures moved { (here : Opened) → F.opened folder.old ≡ Some here → IfOk result (λ came. IfSome came (λ count. F.opened folder.new ≡ Some (moved_on here count))) }
    ensures counts { CountsCame result (F.faults folder.old) (F.faults folder.new) }
    ensures memory { IfErr result (λ stop. stop ≡ Stop.Memory) }
    ensures same_files { F.files folder.new ≡ F.files folder.old }
{
    let start = bytes.len();
    bytes.resize(start + room, 0)?;
    match read_at(folder, bytes.as_mut_slice(), start) {
        Ok(count) => {
            bytes.truncate(start + count);
            Ok(Some(count))
        }
        Err(Failed) => {
            bytes.truncate(start);
            Ok(None)
        }
    }
}

/// Reads once, into the buffer from `start` on. Answers how many bytes came.
fn read_at<F: Folder>(folder: &mut F, buffer: &mut [u8], start: usize) -> Result<usize, Failed>
    requires is_open { IsSome (F.opened folder.old) }
    requires room { start < length buffer.old }
    ensures prefix { take start buffer.new ≡ take start buffer.old }
    ensures within { IfOk result (λ count. start + count ≤ length buffer.old) }
    ensures bytes { (told : Files) (here : Opened) → F.files folder.old ≡ Some told → F.opened folder.old ≡ Some here → IfOk result (λ count. ReadsNext told here (drop start buffer.new) count) }
    ensures ok { (here : Opened) → F.opened folder.old ≡ Some here → IfOk result (λ count. F.opened folder.new ≡ Some (moved_on here count)) }
    ensures counts { ReadCounts result (F.faults folder.old) (F.faults folder.new) }
    ensures failure { (told : Files) (here : Opened) → F.files folder.old ≡ Some told → F.opened folder.old ≡ Some here → ReadAdds result (Reading here.name here.position) (F.failures folder.old) (F.failures folder.new) }
    ensures same_files { F.files folder.new ≡ F.files folder.old }
{
    folder.read(&mut buffer[start..])
}
