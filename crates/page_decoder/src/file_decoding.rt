//! The decoding of an included file whose bytes are all there.
ghost use Rattle.std.specs.Prelude.{◌≡◌, ◌≢◌, ◌≤◌, ◌<◌, ◌^◌, length, Some};
ghost use Rattle.std.specs.Arc.{arc_value};
ghost use Rattle.djvu_base.specs.Name.{IsAscending};
ghost use Rattle.djvu_base.specs.Library.{mark_of};
ghost use Rattle.djvu_base.specs.Meter.{ticked, TicksExactly, TicksAtMost};
ghost use Rattle.page_decoder.specs.Given.{Known};
ghost use Rattle.page_decoder.specs.Read.{decode};
ghost use Rattle.page_decoder.specs.Resolving.{result_in};
ghost use Rattle.page_decoder.specs.Decoder.{RiseTogether};
ghost use Rattle.page_decoder.specs.FileDecoding.{KnowsResults, included, gift_of};
ghost use Rattle.page_decoder.specs.FileReading.{dictionary_in};

use crate::decoder::PageStep;
use crate::file_reader::FileReader;
use crate::page_laws::{growth, needs};
use crate::roles::Role;
use djvu_base::{FileEnd, Meter, Name, Share};
use jb2_records::{FileResult, SharedDictionary};
use std::alloc::Global;
use std::sync::Arc;
use zp_table::Table;

/// What decoding an included file came to, and how many decisions of its own chunks were read.
#[derive(Debug, Drop)]
pub struct DecodedFile {
    pub result: FileResult,
    pub decisions: u64,
}

/// Decodes the included file with this number among a folder's names, which ascend, of which these are all bytes, and which ends
/// so. `results` has at its number what each file gives that this one includes; none of them is refused. Each decision ticks the
/// meter once. Answers `NoMemory` only where there was no memory, here or for a file that is included.
pub fn decode_file<M: Meter>(
    alloc: Global,
    table: Arc<Table>,
    file: u32,
    bytes: &[u8],
    end: FileEnd,
    names: &[Name],
    results: &[Option<FileResult>],
    meter: &mut M,
) -> FileResult
    requires ascending { IsAscending names.now }
    requires few { length names.now < 2 ^ 32 }
    ensures result { result ≢ FileResult.NoMemory → (known : Known) → KnowsResults results.now known →
        result_in result ≡ Some (decode (included (arc_value table) names.now file known bytes.now (mark_of end))).result }
    ensures ticks { result ≢ FileResult.NoMemory → (known : Known) → KnowsResults results.now known →
        TicksExactly (decode (included (arc_value table) names.now file known bytes.now (mark_of end))).decisions (M.count meter.old) (M.count meter.new) }
    ensures at_most { (known : Known) → KnowsResults results.now known →
        TicksAtMost (decode (included (arc_value table) names.now file known bytes.now (mark_of end))).decisions (M.count meter.old) (M.count meter.new) }
{
    decode_done(alloc, table, file, bytes, end, names, results, meter).result
}

/// The same, with the decisions that were read.
pub fn decode_done<M: Meter>(
    alloc: Global,
    table: Arc<Table>,
    file: u32,
    bytes: &[u8],
    end: FileEnd,
    names: &[Name],
    results: &[Option<FileResult>],
    meter: &mut M,
) -> DecodedFile
    requires ascending { IsAscending names.now }
    requires few { length names.now < 2 ^ 32 }
    ensures result { result.result ≢ FileResult.NoMemory → (known : Known) → KnowsResults results.now known →
        result_in result.result ≡ Some (decode (included (arc_value table) names.now file known bytes.now (mark_of end))).result }
    ensures decisions { result.result ≢ FileResult.NoMemory → (known : Known) → KnowsResults results.now known →
        TicksExactly (decode (included (arc_value table) names.now file known bytes.now (mark_of end))).decisions 0 result.decisions }
    ensures at_most { (known : Known) → KnowsResults results.now known →
        result.decisions ≤ ticked (decode (included (arc_value table) names.now file known bytes.now (mark_of end))).decisions 0 }
    ensures rise { RiseTogether 0 result.decisions (M.count meter.old) (M.count meter.new) }
{
    growth();
    needs();
    table.len();
    let mut reader = FileReader::new(alloc, Role::Included, table, file);
    let (_, answer) = reader.run(names, &[], results, bytes, Some(end), meter);
    DecodedFile {
        result: result_at(answer, reader.dictionary()),
        decisions: reader.decisions(),
    }
}

/// What a file gives whose reading stands at this answer, and that has this dictionary. One that lacks what an included file gives
/// gives nothing.
fn result_at(answer: PageStep, dictionary: &Option<SharedDictionary>) -> FileResult
    ensures { (result ≢ FileResult.NoMemory) → result ≡ gift_of answer dictionary.now }
{
    match answer {
        PageStep::Finished => given_by(dictionary),
        PageStep::Refused(fault) => FileResult::Refused(fault),
        PageStep::OutOfMemory => FileResult::NoMemory,
        PageStep::NeedBytes => FileResult::Nothing,
        PageStep::NeedOutline(_) => FileResult::Nothing,
        PageStep::NeedFile(_) => FileResult::Nothing,
        PageStep::Drew(_) => FileResult::Nothing,
    }
}

/// What a file gives that has this dictionary.
fn given_by(dictionary: &Option<SharedDictionary>) -> FileResult
    ensures { (result ≢ FileResult.NoMemory) → result ≡ gift_of PageStep.Finished dictionary.now }
{
    match dictionary {
        None => FileResult::Nothing,
        Some(dictionary) => match dictionary.share() {
            Ok(share) => FileResult::Dictionary(share),
            Err(_) => FileResult::NoMemory,
        },
    }
}
