//! What a folder in memory does with its files.
ghost use Rattle.std.specs.Prelude.{◌≡◌, ◌<◌, ◌≤◌, ◌+◌, ◌^◌, ◌++◌, bytes_eq, min, length, take, drop, IfOk};
ghost use Rattle.djvu_base.specs.Library.{names_of};
ghost use Rattle.djvu_outside.specs.Folders.{IsPlace, name_at, bytes_at};
ghost use Rattle.djvu_outside.specs.Reading.{HasFile};

use crate::memory_files::Place;
use djvu_base::{Items, Name};
use std::alloc::{AllocError, Global};

/// Copies of the files' names, in order.
pub fn copy_names(alloc: Global, files: &[(Name, Items<u8>)]) -> Result<Vec<Name>, AllocError>
    ensures { IfOk result (λ names. names.items ≡ names_of files.now) }
{
    let mut names = Vec::with_capacity(alloc, files.len())?;
    for file in files {
        names.push(file.0.copy(alloc)?)?;
    }
    Ok(names)
}

/// The start of the first file of this name.
pub fn place_of(files: &[(Name, Items<u8>)], name: &Name) -> Place
    requires { HasFile files.now name.now }
    ensures place { IsPlace files.now result }
    ensures name { name_at result.file files.now ≡ name.now }
    ensures position { result.position ≡ 0 }
{
    for file in 0..files.len() {
        if has_name(files, file, name) {
            return Place { file, position: 0 };
        }
    }
    unreachable!()
}

fn has_name(files: &[(Name, Items<u8>)], file: usize, name: &Name) -> bool
    requires { file < length files.now }
    ensures { result ≡ bytes_eq name.now (name_at file files.now) }
{
    name.bytes() == files[file].0.bytes()
}

/// The bytes of the file from the place on.
pub fn rest_of<'a>(files: &'a [(Name, Items<u8>)], place: &Place) -> &'a [u8]
    requires { IsPlace files.now place.now }
    ensures bytes { result.now ≡ drop place.now.position (bytes_at place.now.file files.now) }
    ensures fits { place.now.position + length result.now < 2 ^ 64 }
{
    let bytes = bytes_of(files, place.file);
    &bytes[place.position..]
}

fn bytes_of(files: &[(Name, Items<u8>)], file: usize) -> &[u8]
    requires { file < length files.now }
    ensures { result.now ≡ bytes_at file files.now }
{
    files[file].1.slice()
}

/// Copies as many of the bytes as there are and as the buffer takes to its front, and answers how many.
pub fn copy_front(buf: &mut [u8], bytes: &[u8]) -> usize
    ensures count { result ≡ min (length buf.old) (length bytes.now) }
    ensures front { take result buf.new ≡ take result bytes.now }
    ensures behind { drop result buf.new ≡ drop result buf.old }
{
    let count = buf.len().min(bytes.len());
    buf[..count].copy_from_slice(&bytes[..count]);
    count
}
