//! The files that the words of a command name.
ghost use Rattle.std.specs.Prelude.{◌≡◌, ◌+◌, ◌<◌, ◌^◌, IfOk, length};
ghost use Rattle.viewer_words.specs.Files.{named_files, numbered, table_file, given_file, files_by, first_unlisted, unlisted_line};
ghost use Rattle.viewer_words.specs.Options.{options_from, no_options};
ghost use Rattle.viewer_words.specs.Words.{draw_options};

use crate::commands::{TableChoice, WordsError};
use crate::lines::words_line;
use crate::options::{CommandOption, Options, read_options};
use crate::words::rest_of;
use djvu_base::{Items, Name, is_listed};
use std::alloc::{AllocError, Global};

/// The line by which a command's words are refused for the first file that these names lack, or `None` where they lack none.
///
/// Words that are no command have an answer too: each word after the options counts as a name, whether it fits or not. Where
/// the first word is no command's, or an option has no value that fits, the answer is `None`.
pub fn unlisted_line(
    alloc: Global,
    names: &[Name],
    words: &[Items<u8>],
) -> Result<Option<Items<u8>>, AllocError>
    ensures { IfOk result (λ line. line ≡ unlisted_line names.now (named_files words.now)) }
{
    match first_unlisted(alloc, names, words)? {
        Some(number) => Ok(Some(Items::of(words_line(alloc, number)?))),
        None => Ok(None),
    }
}

/// The number of the first word of a command that names a file which isn't listed.
fn first_unlisted(
    alloc: Global,
    names: &[Name],
    words: &[Items<u8>],
) -> Result<Option<usize>, AllocError>
    ensures { IfOk result (λ number. number ≡ first_unlisted names.now (named_files words.now)) }
{
    let Some((command, others)) = words.split_first() else {
        return Ok(None);
    };
    if command.slice() == b"draw".as_slice() {
        return unlisted_of_drawing(alloc, names, others);
    }
    if command.slice() == b"info".as_slice() {
        return Ok(unlisted_from(names, 1, others));
    }
    Ok(None)
}

/// The same of the words after `draw`.
fn unlisted_of_drawing(
    alloc: Global,
    names: &[Name],
    words: &[Items<u8>],
) -> Result<Option<usize>, AllocError>
    ensures { IfOk result (λ number. number ≡ first_unlisted names.now (files_by (options_from 1 draw_options no_options words.now) words.now)) }
{
    match read_options(alloc, &[CommandOption::Table], 1, words) {
        Ok(read) => {
            let pages = rest_of(words, read.next - 1);
            Ok(unlisted_after(names, &read.options, read.next, pages))
        }
        Err(WordsError::Refused(_)) => Ok(None),
        Err(WordsError::OutOfMemory) => Err(AllocError),
    }
}

/// The same of these options, and of pages from a number on.
fn unlisted_after(
    names: &[Name],
    options: &Options,
    first: usize,
    pages: &[Items<u8>],
) -> Option<usize>
    requires { first + length pages.now < 2 ^ 64 }
    ensures { result ≡ first_unlisted names.now (given_file options.now.table (numbered first pages.now)) }
{
    if let Some(given) = &options.table {
        if let TableChoice::File(name) = &given.table {
            if !is_listed(names, name.bytes()) {
                return Some(given.number);
            }
        }
    }
    unlisted_from(names, first, pages)
}

/// The same of names in words one after another, of which the first has this number.
fn unlisted_from(names: &[Name], first: usize, words: &[Items<u8>]) -> Option<usize>
    requires { first + length words.now < 2 ^ 64 }
    ensures { result ≡ first_unlisted names.now (numbered first words.now) }
{
    let mut number = first;
    let mut rest = words;
    while let Some((word, others)) = rest.split_first() {
        if !is_listed(names, word.slice()) {
            return Some(number);
        }
        number += 1;
        rest = others;
    }
    None
}
