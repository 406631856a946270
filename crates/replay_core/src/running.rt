//! How a core reads a page on, up to what its next step answers, and decodes the files that it needs.
ghost use Rattle.std.specs.Prelude.{◌≡◌, ◌≢◌, ◌<◌, ℕ, length, Option, Some, None, true, false, IfOk, OnOk, slice_get};
ghost use Rattle.std.specs.Arc.{arc_value};
ghost use Rattle.page_decoder.specs.PageRead.{NeedOutline, NeedFile};
ghost use Rattle.page_decoder.specs.Given.{Given, Known};
ghost use Rattle.page_decoder.specs.Decoder.{KnowsOutline, RiseTogether};
ghost use Rattle.page_decoder.specs.PageFed.{Fed, StaysSo};
ghost use Rattle.replay_core.specs.CoreFiles.{FilePart};
ghost use Rattle.replay_core.specs.CoreSteps.{SamePages, GoesOn, GoesWith, FindsFor, DecodesFor, DecodesBy, OutlineBy, stop_at};

use crate::core_calls::{Core, CoreStep};
use djvu_base::{FileEnd, Meter, Share};
use include_graph::Outline;
use jb2_records::FileResult;
use page_decoder::{DecodedFile, PageDecoder, PageStep, decode_done};
use std::alloc::AllocError;
use std::sync::Arc;

impl Core {
    /// Reads a page on, whose decoder was taken out of its place: up to its next notice, or to where its reading stands.
    pub(crate) fn run<M: Meter>(&mut self, decoder: &mut PageDecoder, meter: &mut M) -> CoreStep
        ensures goes { GoesOn self.old self.new decoder.old decoder.new (Some result) (M.count meter.old) (M.count meter.new) }
        ensures same { SamePages self.old self.new }
        ensures mark { decoder.new.mark ≡ decoder.old.mark }
    {
        'steps: loop {
            if let Some(answer) = self.go_on(decoder, meter) {
                return answer;
            }
        }
    }

    /// Reads it on up to what it asks for of another file, and gives that. Answers what stops this, if something does.
    fn go_on<M: Meter>(&mut self, decoder: &mut PageDecoder, meter: &mut M) -> Option<CoreStep>
        ensures goes { GoesOn self.old self.new decoder.old decoder.new result (M.count meter.old) (M.count meter.new) }
        ensures same { SamePages self.old self.new }
        ensures mark { decoder.new.mark ≡ decoder.old.mark }
        ensures fewer { result ≡ None → decoder.new.to_ask < decoder.old.to_ask }
    {
        page_decoder::page_laws::growth();
        page_decoder::page_laws::given_grows();
        page_decoder::page_laws::needs();
        page_decoder::page_laws::libraries::results_are_the_librarys();
        include_graph::laws::readers_report();
        match decoder.step(meter) {
            PageStep::Drew(notice) => Some(CoreStep::Drew(notice)),
            PageStep::NeedBytes => Some(CoreStep::NeedBytes),
            PageStep::NeedOutline(file) => self.give_outline(decoder, file),
            PageStep::NeedFile(file) => stop_at(self.give_file(decoder, file, meter)),
            PageStep::Finished => Some(CoreStep::Finished),
            PageStep::Refused(fault) => Some(CoreStep::Refused(fault)),
            PageStep::OutOfMemory => Some(CoreStep::OutOfMemory),
        }
    }

    /// Gives the outline of a file that the decoder asks for. Where it isn't known, the page needs the file; where there was no memory
    /// for it, it never will be known.
    fn give_outline(&self, decoder: &mut PageDecoder, file: u32) -> Option<CoreStep>
        requires { decoder.old.stands ≡ Some (NeedOutline file) }
        ensures outline { OutlineBy result self.now.inside.files file decoder.old decoder.new }
        ensures files { length self.now.inside.files ≡ length self.now.names }
        ensures stays { StaysSo decoder.old decoder.new }
        ensures mark { decoder.new.mark ≡ decoder.old.mark }
        ensures fewer { result ≡ None → decoder.new.to_ask < decoder.old.to_ask }
    {
        let Some(kept) = self.files.get(file as usize) else {
            return Some(CoreStep::OutOfMemory);
        };
        if kept.is_open() {
            return Some(CoreStep::NeedFile(file));
        }
        match kept.outline() {
            Some(outline) => stop_at(hand_on(decoder, file, outline)),
            None => Some(CoreStep::OutOfMemory),
        }
    }

    /// Gives what the file gives that the decoder asks for.
    fn give_file<M: Meter>(
        &mut self,
        decoder: &mut PageDecoder,
        file: u32,
        meter: &mut M,
    ) -> Result<(), AllocError>
        requires { decoder.old.stands ≡ Some (NeedFile file) }
        ensures goes { GoesWith file self.old self.new decoder.old decoder.new (stop_at result) (M.count meter.old) (M.count meter.new) }
        ensures same { SamePages self.old self.new }
        ensures mark { decoder.new.mark ≡ decoder.old.mark }
        ensures fewer { OnOk result (decoder.new.to_ask < decoder.old.to_ask) }
    {
        let gift = self.result_of(file, meter)?;
        decoder.give_file(file, gift)
    }

    /// What a file gives. It is decoded unless it was before.
    fn result_of<M: Meter>(&mut self, file: u32, meter: &mut M) -> Result<FileResult, AllocError>
        ensures finds { FindsFor file self.old self.new result (M.count meter.old) (M.count meter.new) }
        ensures same { SamePages self.old self.new }
        ensures known { IfOk result (λ gift. gift ≢ FileResult.NoMemory) }
    {
        self.decode_once(file, meter);
        self.result_kept(file)
    }

    /// Decodes a file unless it was decoded before.
    fn decode_once<M: Meter>(&mut self, file: u32, meter: &mut M)
        ensures decodes { DecodesFor file self.old self.new (M.count meter.old) (M.count meter.new) }
        ensures same { SamePages self.old self.new }
    {
        if self.is_undecoded(file) {
            self.decode(file, meter);
        }
    }

    /// Whether a file is there that wasn't decoded.
    fn is_undecoded(&self, file: u32) -> bool
        ensures { result ≡ true → slice_get self.now.inside.results file ≡ Some None }
    {
        match self.results.get(file as usize) {
            Some(None) => true,
            Some(Some(_)) | None => false,
        }
    }

    /// What is kept of what a file gives, where there was memory for it.
    fn result_kept(&self, file: u32) -> Result<FileResult, AllocError>
        ensures kept { IfOk result (λ gift. slice_get self.now.inside.results file ≡ Some (Some gift)) }
        ensures known { IfOk result (λ gift. gift ≢ FileResult.NoMemory) }
    {
        match self.results.get(file as usize) {
            Some(Some(FileResult::NoMemory)) | Some(None) | None => Err(AllocError),
            Some(Some(result)) => result.share(),
        }
    }

    /// Decodes a file by the bytes that are kept of it, and keeps what it gives in their place.
    fn decode<M: Meter>(&mut self, file: u32, meter: &mut M)
        requires place { file < length self.old.inside.results }
        requires first { slice_get self.old.inside.results file ≡ Some None }
        ensures decodes { DecodesFor file self.old self.new (M.count meter.old) (M.count meter.new) }
        ensures same { SamePages self.old self.new }
    {
        page_decoder::page_laws::growth();
        page_decoder::page_laws::needs();
        page_decoder::page_laws::included_files();
        page_decoder::page_laws::made::needed_files_are_made();
        page_decoder::page_laws::made::made_stays();
        page_decoder::page_laws::libraries::results_are_the_librarys();
        page_decoder::page_laws::libraries::libraries_go_on();
        include_graph::laws::lists();
        include_graph::laws::outlines_stay();
        include_graph::laws::readers_report();
        let place = file as usize;
        let done = self.decoded(file, meter);
        self.results[place] = Some(done.result);
        self.files[place].forget();
    }

    /// What the file comes to by the bytes that are kept of it, and by what the files give that it includes. Where there was no memory for
    /// its outline, nothing is kept of it.
    fn decoded<M: Meter>(&self, file: u32, meter: &mut M) -> DecodedFile
        requires { file < length self.now.inside.files }
        ensures decodes { (part : FilePart) → slice_get self.now.inside.files file ≡ Some part
            → DecodesBy self.now file part result.result result.decisions }
        ensures rise { RiseTogether 0 result.decisions (M.count meter.old) (M.count meter.new) }
    {
        let kept = &self.files[file as usize];
        if kept.outline().is_none() {
            return no_memory();
        }
        let Ok(table) = Arc::try_clone(&self.table) else {
            return no_memory();
        };
        decode_done(
            self.alloc,
            table,
            file,
            kept.bytes(),
            kept.end().unwrap_or(FileEnd::Whole),
            self.names.slice(),
            self.results.as_slice(),
            meter,
        )
    }
}

/// There was no memory for a file, and nothing was read of it.
fn no_memory() -> DecodedFile
    ensures result { result.result ≡ FileResult.NoMemory }
    ensures decisions { result.decisions ≡ 0 }
{
    DecodedFile {
        result: FileResult::NoMemory,
        decisions: 0,
    }
}

/// Gives the decoder an outline that the core has too.
fn hand_on(decoder: &mut PageDecoder, file: u32, outline: &Arc<Outline>) -> Result<(), AllocError>
    requires { decoder.old.stands ≡ Some (NeedOutline file) }
    ensures fed { (given : Given) (known : Known) → KnowsOutline file (arc_value outline.now) given.known known → Fed given decoder.old
        → OnOk result (Fed (record given { known = known }) decoder.new) }
    ensures ok { OnOk result ((decoder.new.failed ≡ false) × (decoder.new.to_ask < decoder.old.to_ask)) }
    ensures mark { decoder.new.mark ≡ decoder.old.mark }
    ensures stays { StaysSo decoder.old decoder.new }
{
    let share = Arc::try_clone(outline)?;
    decoder.give_outline(file, share)
}

/// Where there was no memory, a step answers so.
fn stop_at(given: Result<(), AllocError>) -> Option<CoreStep>
    ensures { result ≡ stop_at given }
{
    match given {
        Ok(_) => None,
        Err(_) => Some(CoreStep::OutOfMemory),
    }
}
