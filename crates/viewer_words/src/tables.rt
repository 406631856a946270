//! Words that name files, and the word of a table.
ghost use Rattle.std.specs.Prelude.{◌≡◌, IfOk, IfSome, is_some};
ghost use Rattle.viewer_words.specs.Tables.{is_file_word, table_of};

use crate::commands::TableChoice;
use djvu_base::Name;
use std::alloc::{AllocError, Global};

/// The table of a word, or `None` where the word says none.
pub fn read_table(alloc: Global, word: &[u8]) -> Result<Option<TableChoice>, AllocError>
    ensures { IfOk result (λ table. table ≡ table_of word.now) }
{
    if word == b"djvu".as_slice() {
        return Ok(Some(TableChoice::Djvu));
    }
    if word == b"flat".as_slice() {
        return Ok(Some(TableChoice::Flat));
    }
    let name = read_file_word(alloc, word)?;
    Ok(name.map(TableChoice::File))
}

/// The name of the file that a word names, or `None` where it names none.
pub fn read_file_word(alloc: Global, word: &[u8]) -> Result<Option<Name>, AllocError>
    ensures found { IfOk result (λ found. is_some found ≡ is_file_word word.now) }
    ensures same { IfOk result (λ found. IfSome found (λ name. name ≡ word.now)) }
{
    if word.starts_with(b"--".as_slice()) {
        return Ok(None);
    }
    Name::read(alloc, word)
}
