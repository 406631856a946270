//! The plain files in a folder of the file system.
ghost use Rattle.std.specs.Prelude.{◌≡◌, ◌≤◌, ◌++◌, length, string_bytes, IfOk};
ghost use Rattle.std.specs.Io.KnownBytes.{ReadConsumes};
ghost use Rattle.djvu_base.specs.Name.{IsAscending};
ghost use Rattle.djvu_outside.specs.Folders.{with_slash};

use crate::orders::is_ascending;
use djvu_base::Name;
use std::alloc::{AllocError, Global};
use std::io;
use std::io::{Error, ErrorKind, Read};
use std::rt::Files;

/// The names of the plain files in the folder, in ascending order. Links and folders are left out, and entries whose
/// names are no names. A folder whose names aren't distinct is an error.
pub fn plain_names<R: Files>(files: &R, alloc: Global, folder: &str) -> io::Result<Vec<Name>>
    ensures { IfOk result (λ names. IsAscending names.items) }
{
    let entries = read_entries(files, alloc, folder)?;
    let mut names = Vec::new(alloc);
    for entry in entries.split(|byte| *byte == 0) {
        if let Some(name) = plain_name(files, alloc, folder, entry)? {
            names.push(name)?;
        }
    }
    names.sort_by(|name, other| name.bytes().cmp(other.bytes()))?;
    if !is_ascending(names.as_slice()) {
        return Err(Error::from(ErrorKind::InvalidData));
    }
    Ok(names)
}

/// The path with a slash behind it, by which a link to a folder is followed. An empty path stays empty: it is no folder's.
pub fn folder_path(alloc: Global, path: &str) -> Result<String, AllocError>
    ensures { IfOk result (λ folder. string_bytes folder ≡ with_slash path.now) }
{
    let mut folder = String::from_str(alloc, path)?;
    if !path.is_empty() {
        folder.push_str("/")?;
    }
    Ok(folder)
}

/// The path of a file in the folder.
pub fn file_path(alloc: Global, folder: &str, name: &Name) -> Result<String, AllocError>
    ensures { IfOk result (λ path. string_bytes path ≡ folder.now ++ name.now) }
{
    let mut path = String::from_str(alloc, folder)?;
    path.push_str(text_of(name))?;
    Ok(path)
}

fn text_of(name: &Name) -> &str
    ensures { result.now ≡ name.now }
{
    match str::from_utf8(name.bytes()) {
        Ok(text) => text,
        Err(_) => unreachable!(),
    }
}

// The names of all entries, each ended by a zero byte.
fn read_entries<R: Files>(files: &R, alloc: Global, folder: &str) -> io::Result<Vec<u8>> {
    let mut dir = files.open_dir(folder)?;
    let mut entries = Vec::new(alloc);
    let mut buf = [0; 4096];
    for _ in 0..u64::MAX {
        let count = read_some(&mut dir, &mut buf)?;
        if count == 0 {
            return Ok(entries);
        }
        entries.extend_from_slice(&buf[..count])?;
    }
    Err(Error::from(ErrorKind::FileTooLarge))
}

/// One read, which is tried again where it was interrupted.
pub fn read_some<F: Read>(file: &mut F, buf: &mut [u8]) -> io::Result<usize>
    ensures within { IfOk result (λ count. count ≤ length buf.new) }
    ensures bytes { ReadConsumes (F.remaining file.old) (F.remaining file.new) result buf.new }
{
    for _ in 0..u64::MAX {
        match file.read(buf) {
            Ok(count) => return Ok(count),
            Err(error) if error.kind() == ErrorKind::Interrupted => {}
            Err(error) => return Err(error),
        }
    }
    Err(Error::from(ErrorKind::Interrupted))
}

// The entry's name, where it is a plain file's and a name.
fn plain_name<R: Files>(
    files: &R,
    alloc: Global,
    folder: &str,
    entry: &[u8],
) -> io::Result<Option<Name>> {
    let Some(name) = Name::read(alloc, entry)? else {
        return Ok(None);
    };
    let path = file_path(alloc, folder, &name)?;
    if is_plain_file(files, path.as_str())? {
        Ok(Some(name))
    } else {
        Ok(None)
    }
}

// A file that is gone is none.
fn is_plain_file<R: Files>(files: &R, path: &str) -> io::Result<bool> {
    match files.symlink_metadata(path) {
        Ok(metadata) => Ok(metadata.is_file()),
        Err(error) if error.kind() == ErrorKind::NotFound => Ok(false),
        Err(error) => Err(error),
    }
}
