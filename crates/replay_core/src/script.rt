//! Scripts: lines of words, each of which says what comes next.
ghost use Rattle.std.specs.Prelude.{◌≡◌, ℕ, ◌<◌, ◌^◌, ◌==◌, List, [], ◌∷◌, IfOk, IfSome, IsErrOf, Ok, Err, MatchOption, true, position, length, slice_index};
ghost use Rattle.std.specs.List.{slice_split};
ghost use Rattle.djvu_base.specs.Name.{IsAscending};
ghost use Rattle.djvu_base.specs.Library.{file_limit};
ghost use Rattle.replay_core.specs.declared.script.ScriptRefusal.TheVariants.{OutOfMemory};
ghost use Rattle.replay_core.specs.Script.{line_limit, last_viewer, lines_of, number_within, has_leading_zero, file_of, page_of, words_of, line_of, line_of_words, line_of_two, line_of_three, line_after, script_of};
ghost use Rattle.replay_core.specs.ScriptRead.{IsNumberOf};

use djvu_base::Name;
use include_graph::number_of;
use std::alloc::{AllocError, AllocFailed, Global};

/// What a line of a script says. A file is told by its number among the folder's names, a page by its place among the pages of
/// the command, both from 0.
#[derive(Clone, Copy, Debug, PartialEq, Eq)]
pub enum ScriptLine {
    /// `feed FILE N`: the next bytes of a file come, so many or those that are left.
    Feed {
        /// The file.
        file: u32,
        /// How many bytes, 1 to 2,097,152.
        count: u32,
    },
    /// `end FILE`: a file ends.
    End {
        /// The file.
        file: u32,
    },
    /// `step PAGE`: a page draws its next notice, if one is there.
    Step {
        /// The page.
        page: u32,
    },
    /// `look V PAGE`: a viewer looks at a page.
    Look {
        /// The viewer, 0 to 63.
        viewer: u32,
        /// The page.
        page: u32,
    },
}

/// Why a script isn't read.
#[derive(Debug, Drop, PartialEq, Eq)]
pub enum ScriptRefusal {
    /// The number, from 1, of the first line that doesn't fit.
    Line(usize),
    /// There was no memory for the script.
    OutOfMemory,
}

impl From<AllocError> for ScriptRefusal {
    ghost from_gives = { λ _ refusal. refusal ≡ OutOfMemory };

    fn from(_fault: AllocError) -> ScriptRefusal {
        ScriptRefusal::OutOfMemory
    }
}

impl<T: Drop> From<AllocFailed<T>> for ScriptRefusal {
    ghost from_gives = { λ _ refusal. refusal ≡ OutOfMemory };

    fn from(_fault: AllocFailed<T>) -> ScriptRefusal {
        ScriptRefusal::OutOfMemory
    }
}

/// What a script says over a folder of these names, line by line. The pages are those of the command, by the numbers of their
/// files.
///
/// # Errors
///
/// `Line` with the number of the first line that doesn't fit, and only where one doesn't. A script has at most 65,536 lines:
/// the next one doesn't fit. `OutOfMemory` may come for any script.
pub fn read_script(
    alloc: Global,
    names: &[Name],
    pages: &[u32],
    bytes: &[u8],
) -> Result<Vec<ScriptLine>, ScriptRefusal>
    requires ascending { IsAscending names.now }
    requires few_names { length names.now < 2 ^ 32 }
    requires few_pages { length pages.now < 2 ^ 32 }
    ensures script { IfOk result (λ script. script_of names.now pages.now bytes.now ≡ Ok script.items) }
    ensures refused { (number : ℕ) → IsErrOf result (ScriptRefusal.Line number) → script_of names.now pages.now bytes.now ≡ Err number }
{
    let mut script = Vec::new(alloc);
    let mut rest = bytes;
    while let Some((line, others)) = first_line(rest) {
        let Some(next) = read_next(alloc, names, pages, script.len(), line)? else {
            return Err(ScriptRefusal::Line(script.len() + 1));
        };
        script.push(next)?;
        rest = others;
    }
    Ok(script)
}

/// The first line of a text, and what stands behind its newline. A text without bytes has none.
fn first_line(text: &[u8]) -> Option<(&[u8], &[u8])>
    ensures lines { MatchOption result (lines_of text.now ≡ []) (λ parts. lines_of text.now ≡ parts.0.now ∷ lines_of parts.1.now) }
    ensures shorter { IfSome result (λ parts. length parts.1.now < length text.now) }
{
    if text.is_empty() {
        return None;
    }
    let (line, others) = cut(text, b'\n');
    match others {
        Some(others) => Some((line, others)),
        None => Some((line, &[])),
    }
}

/// What stands before the first such byte, and what stands behind it.
fn cut(bytes: &[u8], mark: u8) -> (&[u8], Option<&[u8]>)
    ensures parts { let parts = slice_split (λ byte. byte == mark) in
        MatchOption result.1 (parts bytes.now ≡ result.0.now ∷ []) (λ behind. parts bytes.now ≡ result.0.now ∷ parts behind.now) }
    ensures shorter { IfSome result.1 (λ behind. length behind.now < length bytes.now) }
{
    match bytes.iter().position(|byte| *byte == mark) {
        Some(place) => (&bytes[..place], Some(&bytes[place + 1..])),
        None => (bytes, None),
    }
}

/// What a line behind so many others says, or `None` where it doesn't fit.
fn read_next(
    alloc: Global,
    names: &[Name],
    pages: &[u32],
    before: usize,
    line: &[u8],
) -> Result<Option<ScriptLine>, AllocError>
    requires ascending { IsAscending names.now }
    requires few_names { length names.now < 2 ^ 32 }
    requires few_pages { length pages.now < 2 ^ 32 }
    ensures { IfOk result (λ next. next ≡ line_after names.now pages.now before line.now) }
{
    if before >= line_limit() {
        return Ok(None);
    }
    read_line(alloc, names, pages, line)
}

/// How many lines a script may have.
fn line_limit() -> usize
    ensures { result ≡ line_limit }
{
    65_536
}

/// What a line says, or `None` where it doesn't fit.
fn read_line(
    alloc: Global,
    names: &[Name],
    pages: &[u32],
    line: &[u8],
) -> Result<Option<ScriptLine>, AllocError>
    requires ascending { IsAscending names.now }
    requires few_names { length names.now < 2 ^ 32 }
    requires few_pages { length pages.now < 2 ^ 32 }
    ensures { IfOk result (λ said. said ≡ line_of names.now pages.now line.now) }
{
    let (word, others) = cut(line, b' ');
    match others {
        Some(others) => read_arguments(alloc, names, pages, word, others),
        None => Ok(None),
    }
}

/// What a line of this word and those behind it says.
fn read_arguments(
    alloc: Global,
    names: &[Name],
    pages: &[u32],
    word: &[u8],
    others: &[u8],
) -> Result<Option<ScriptLine>, AllocError>
    requires ascending { IsAscending names.now }
    requires few_names { length names.now < 2 ^ 32 }
    requires few_pages { length pages.now < 2 ^ 32 }
    ensures { IfOk result (λ said. said ≡ line_of_words names.now pages.now (word.now ∷ words_of others.now)) }
{
    let (first, others) = cut(others, b' ');
    let Some(others) = others else {
        return read_two(alloc, names, pages, word, first);
    };
    let (second, others) = cut(others, b' ');
    match others {
        Some(_) => Ok(None),
        None => read_three(alloc, names, pages, word, first, second),
    }
}

/// What a line of two words says: `end FILE` or `step PAGE`.
fn read_two(
    alloc: Global,
    names: &[Name],
    pages: &[u32],
    word: &[u8],
    name: &[u8],
) -> Result<Option<ScriptLine>, AllocError>
    requires ascending { IsAscending names.now }
    requires few_names { length names.now < 2 ^ 32 }
    requires few_pages { length pages.now < 2 ^ 32 }
    ensures { IfOk result (λ said. said ≡ line_of_two names.now pages.now word.now name.now) }
{
    if word == b"end".as_slice() {
        let file = read_file(alloc, names, name)?;
        return Ok(file.map(|file| ScriptLine::End { file }));
    }
    if word == b"step".as_slice() {
        let page = read_page(alloc, names, pages, name)?;
        return Ok(page.map(|page| ScriptLine::Step { page }));
    }
    Ok(None)
}

/// What a line of three words says: `feed FILE N` or `look V PAGE`.
fn read_three(
    alloc: Global,
    names: &[Name],
    pages: &[u32],
    word: &[u8],
    first: &[u8],
    second: &[u8],
) -> Result<Option<ScriptLine>, AllocError>
    requires ascending { IsAscending names.now }
    requires few_names { length names.now < 2 ^ 32 }
    requires few_pages { length pages.now < 2 ^ 32 }
    ensures { IfOk result (λ said. said ≡ line_of_three names.now pages.now word.now first.now second.now) }
{
    if word == b"feed".as_slice() {
        let Some(file) = read_file(alloc, names, first)? else {
            return Ok(None);
        };
        return Ok(read_count(second).map(|count| ScriptLine::Feed { file, count }));
    }
    if word == b"look".as_slice() {
        let Some(viewer) = read_viewer(first) else {
            return Ok(None);
        };
        let page = read_page(alloc, names, pages, second)?;
        return Ok(page.map(|page| ScriptLine::Look { viewer, page }));
    }
    Ok(None)
}

/// The file of this name, by its number.
fn read_file(alloc: Global, names: &[Name], word: &[u8]) -> Result<Option<u32>, AllocError>
    requires ascending { IsAscending names.now }
    requires few { length names.now < 2 ^ 32 }
    ensures { IfOk result (λ file. file ≡ file_of names.now word.now) }
{
    match Name::read(alloc, word)? {
        Some(name) => Ok(number_of(names, &name)),
        None => Ok(None),
    }
}

/// The page whose file has this name, by its place among the pages.
fn read_page(
    alloc: Global,
    names: &[Name],
    pages: &[u32],
    word: &[u8],
) -> Result<Option<u32>, AllocError>
    requires ascending { IsAscending names.now }
    requires few_names { length names.now < 2 ^ 32 }
    requires few_pages { length pages.now < 2 ^ 32 }
    ensures { IfOk result (λ page. page ≡ page_of names.now pages.now word.now) }
{
    match read_file(alloc, names, word)? {
        Some(file) => Ok(place_of(pages, file)),
        None => Ok(None),
    }
}

/// The place of a file among the pages.
fn place_of(pages: &[u32], file: u32) -> Option<u32>
    requires { length pages.now < 2 ^ 32 }
    ensures { result ≡ position (λ page. page == file) pages.now }
{
    match pages.iter().position(|page| *page == file) {
        Some(place) => Some(place as u32),
        None => None,
    }
}

/// How many bytes come, at most as many as are read of a file.
fn read_count(word: &[u8]) -> Option<u32>
    ensures { result ≡ number_within 1 file_limit word.now }
{
    read_number(word, 1, 2_097_152)
}

/// The number of a viewer.
fn read_viewer(word: &[u8]) -> Option<u32>
    ensures { result ≡ number_within 0 last_viewer word.now }
{
    read_number(word, 0, 63)
}

/// The number that a word is, where it lies within these bounds.
fn read_number(word: &[u8], least: u32, most: u32) -> Option<u32>
    ensures { result ≡ number_within least most word.now }
{
    let number = read_numeral(word)?;
    if number < least || number > most {
        return None;
    }
    Some(number)
}

/// The number of a word's digits, where it is below 2 ^ 32.
fn read_numeral(word: &[u8]) -> Option<u32>
    ensures { IsNumberOf word.now result }
{
    if has_sign(word) || has_leading_zero(word) {
        return None;
    }
    match std::str::from_utf8(word) {
        Ok(text) => text.parse::<u32>().ok(),
        Err(_) => None,
    }
}

fn has_sign(word: &[u8]) -> bool
    ensures { result ≡ (slice_index word.now 0 == 43) }
{
    word.first() == Some(&b'+')
}

/// Whether a zero stands before other digits.
fn has_leading_zero(word: &[u8]) -> bool
    ensures { result ≡ has_leading_zero word.now }
{
    word.len() > 1 && word[0] == b'0'
}
