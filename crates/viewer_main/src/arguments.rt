//! The arguments of the program, as bytes.
use djvu_base::Items;
use std::alloc::{AllocError, Global};
use std::env::FillError;
use std::rt::Env;

/// The folder, and the words behind it.
#[derive(Drop)]
pub struct Arguments {
    /// Empty where it is missing.
    pub folder: Items<u8>,
    pub words: Vec<Items<u8>>,
}

/// All arguments but the program's name.
pub fn read_arguments<R: Env>(rt: &R, alloc: Global) -> Result<Arguments, AllocError> {
    let folder = match argument(rt, alloc, 1)? {
        Some(folder) => folder,
        None => Items::of(Vec::new(alloc)),
    };
    let mut words = Vec::new(alloc);
    for number in 2..usize::MAX {
        match argument(rt, alloc, number)? {
            Some(word) => words.push(word)?,
            None => break,
        }
    }
    Ok(Arguments { folder, words })
}

/// The argument of this number, from 0, which is the program's name. `None` behind the last.
fn argument<R: Env>(rt: &R, alloc: Global, number: usize) -> Result<Option<Items<u8>>, AllocError> {
    for bits in 8..48_u32 {
        match argument_within(rt, alloc, number, 1 << bits)? {
            Fill::Found(bytes) => return Ok(Some(bytes)),
            Fill::Missing => return Ok(None),
            Fill::TooLong => {}
        }
    }
    Err(AllocError)
}

/// How an argument went into a buffer.
#[derive(Drop)]
enum Fill {
    Found(Items<u8>),
    Missing,
    TooLong,
}

/// The argument of this number, where it has no more than so many bytes.
fn argument_within<R: Env>(
    rt: &R,
    alloc: Global,
    number: usize,
    room: usize,
) -> Result<Fill, AllocError> {
    let mut buffer = vec![in alloc; 0u8; room]?;
    match rt.arg(number, &mut buffer) {
        Ok(count) => {
            buffer.truncate(count);
            Ok(Fill::Found(Items::of(buffer)))
        }
        Err(FillError::NotPresent) => Ok(Fill::Missing),
        Err(FillError::TooLong) => Ok(Fill::TooLong),
    }
}
