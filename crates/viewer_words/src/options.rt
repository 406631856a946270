//! Options, which stand between a command's word and the names of its files: in any order, each once, each with its value in
//! the next word.
ghost use Rattle.std.specs.Prelude.{◌≡◌, ◌+◌, ◌<◌, ◌≤◌, ◌^◌, IfOk, length};
ghost use Rattle.viewer_words.specs.Options.{word_of, is_given, option_named, with_value, no_options, table_in, options_from};
ghost use Rattle.viewer_words.specs.Answers.{Answers};

use crate::commands::{TableChoice, WordsError};
use crate::tables::read_table;
use djvu_base::Items;
use std::alloc::{AllocError, Global};

/// An option that a command may have.
#[derive(Clone, Copy, Debug, PartialEq, Eq)]
pub enum CommandOption {
    /// The table of states.
    Table,
}

/// A table that an option says.
#[derive(Debug, Drop)]
pub struct GivenTable {
    /// The table.
    pub table: TableChoice,
    /// The number of its word.
    pub number: usize,
}

/// What the options of a command say. An option that isn't there is `None`.
#[derive(Debug, Drop)]
pub struct Options {
    /// The table of states.
    pub table: Option<GivenTable>,
}

/// Options that were read.
#[derive(Debug, Drop)]
pub struct OptionsRead {
    /// What they say.
    pub options: Options,
    /// The number of the first word after them.
    pub next: usize,
}

impl CommandOption {
    /// The word of the option.
    fn word(self) -> &'static [u8]
        ensures { result.now ≡ word_of self }
    {
        match self {
            CommandOption::Table => b"--table".as_slice(),
        }
    }
}

impl Options {
    /// Whether this option is there.
    fn has(&self, option: CommandOption) -> bool
        ensures { result ≡ is_given self.now option }
    {
        match option {
            CommandOption::Table => self.table.is_some(),
        }
    }

    /// These options and one with this word as its value, or `None` where that is none.
    fn with_value(
        self,
        alloc: Global,
        option: CommandOption,
        number: usize,
        word: &[u8],
    ) -> Result<Option<Options>, AllocError>
        ensures { IfOk result (λ options. options ≡ with_value self option number word.now) }
    {
        match option {
            CommandOption::Table => {
                let Some(table) = read_table(alloc, word)? else {
                    return Ok(None);
                };
                let table = Some(GivenTable { table, number });
                Ok(Some(Options { table }))
            }
        }
    }

    /// The table, which is that of DjVu files where no option says one.
    pub fn into_table(self) -> TableChoice
        ensures { result ≡ table_in self }
    {
        match self.table {
            Some(given) => given.table,
            None => TableChoice::Djvu,
        }
    }
}

/// The options among the allowed ones that stand at the head of these words, of which the first has this number.
pub fn read_options(
    alloc: Global,
    allowed: &[CommandOption],
    first: usize,
    words: &[Items<u8>],
) -> Result<OptionsRead, WordsError>
    requires { first + length words.now < 2 ^ 64 }
    ensures meant { Answers (options_from first allowed.now no_options words.now) result }
    ensures begins { IfOk result (λ read. first ≤ read.next) }
    ensures within { IfOk result (λ read. read.next ≤ first + length words.now) }
{
    let mut options = Options { table: None };
    let mut next = first;
    let mut rest = words;
    while let Some((word, others)) = rest.split_first() {
        let Some(option) = option_named(allowed, &options, word.slice()) else {
            return Ok(OptionsRead { options, next });
        };
        let Some((value, others)) = others.split_first() else {
            return Err(WordsError::Refused(next + 1));
        };
        let Some(more) = options.with_value(alloc, option, next + 1, value.slice())? else {
            return Err(WordsError::Refused(next + 1));
        };
        options = more;
        next += 2;
        rest = others;
    }
    Ok(OptionsRead { options, next })
}

/// The allowed option of this word that isn't there yet.
fn option_named(allowed: &[CommandOption], options: &Options, word: &[u8]) -> Option<CommandOption>
    ensures { result ≡ option_named allowed.now options.now word.now }
{
    allowed
        .iter()
        .copied()
        .find(|option| !options.has(*option) && word == option.word())
}
