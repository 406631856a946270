//! What a core keeps of a file: the reader of its outline, and its bytes as long as they can be wanted.
ghost use Rattle.std.specs.Prelude.{◌≡◌, ◌≢◌, [], Option, Some, None, is_some};
ghost use Rattle.djvu_base.specs.Library.{File, Open};
ghost use Rattle.include_graph.specs.Fed.{Fed};
ghost use Rattle.include_graph.specs.Outlines.{outline_of};
ghost use Rattle.page_decoder.specs.FileReading.{mark_by};
ghost use Rattle.include_graph.specs.Verdicts.{outline_in};
ghost use Rattle.jb2_records.specs.declared.results.FileResult.{FileResult};
ghost use Rattle.replay_core.specs.Machine.{fed, ended};
ghost use Rattle.replay_core.specs.CoreFiles.{FileStands, IsEmpty, is_clean, is_include};

use djvu_base::FileEnd;
use include_graph::{Outline, OutlineItem, OutlineReader, OutlineStep};
use std::alloc::{AllocError, Global};
use std::marker::Model;
use std::sync::Arc;

/// A file of a core. Its bytes are kept until its outline is known, and those of a file whose outline has no fault until it is
/// decoded. Where there was no memory for them or for the outline, nothing is kept of them any more.
#[derive(Drop)]
pub(crate) struct CoreFile {
    alloc: Global,
    reader: Option<OutlineReader>,
    outline: Option<Arc<Outline>>,
    bytes: Vec<u8>,
    end: Option<FileEnd>,
    page: Option<usize>,
}

impl Model for CoreFile {
    ghost use Rattle.include_graph.specs.Verdicts.{outline_in};
    ghost use Rattle.replay_core.specs.CoreFiles.{FilePart, IsFilePart};

    ghost Value = { FilePart };

    ghost view = { λ a. record {
      reader = a.reader;
      outline = outline_in a.outline;
      bytes = a.bytes.items;
      end = a.end;
      page = a.page;
    } };

    ghost invariant = { λ a. IsFilePart (record {
      reader = a.reader;
      outline = outline_in a.outline;
      bytes = a.bytes.items;
      end = a.end;
      page = a.page;
    }) };
}

impl CoreFile {
    /// A file of which no byte came, and which is no page.
    pub(crate) fn new(alloc: Global) -> CoreFile
        ensures empty { IsEmpty result }
        ensures page { result.page ≡ None }
    {
        CoreFile {
            alloc,
            reader: Some(OutlineReader::new(alloc)),
            outline: None,
            bytes: Vec::new(alloc),
            end: None,
            page: None,
        }
    }

    /// Its place among the pages, if it is one.
    pub(crate) fn page(&self) -> Option<usize>
        ensures { result ≡ self.now.page }
    {
        self.page
    }

    /// It is the page at this place.
    pub(crate) fn set_page(&mut self, page: usize)
        ensures { self.new ≡ record self.old { page = Some page } }
    {
        self.page = Some(page);
    }

    /// What is known of its end.
    pub(crate) fn end(&self) -> Option<FileEnd>
        ensures { result ≡ self.now.end }
    {
        self.end
    }

    /// Its outline, where that is known.
    pub(crate) fn outline(&self) -> &Option<Arc<Outline>>
        ensures { outline_in result.now ≡ self.now.outline }
    {
        &self.outline
    }

    /// Whether its outline isn't known, and may become known.
    pub(crate) fn is_open(&self) -> bool
        ensures { result ≡ is_some self.now.reader }
    {
        self.reader.is_some()
    }

    /// Its bytes, as far as they are kept.
    pub(crate) fn bytes(&self) -> &[u8]
        ensures { result.now ≡ self.now.bytes }
    {
        self.bytes.as_slice()
    }

    /// The next bytes, where its end isn't known. Errs where there was no memory for its outline, now or before.
    pub(crate) fn feed(&mut self, piece: &[u8]) -> Result<(), AllocError>
        requires { self.old.end ≡ None }
        ensures stands { (file : File) (gave : Option FileResult) → FileStands file gave self.old → FileStands (fed piece.now file) gave self.new }
        ensures end { self.new.end ≡ self.old.end }
        ensures page { self.new.page ≡ self.old.page }
    {
        include_graph::laws::outlines_stay();
        page_decoder::page_laws::libraries::libraries_go_on();
        match self.reader.take() {
            Some(reader) => self.read(reader, piece),
            None if self.outline.is_some() => Ok(()),
            None => Err(AllocError),
        }
    }

    /// Reads the next bytes with the reader of its outline.
    fn read(&mut self, reader: OutlineReader, piece: &[u8]) -> Result<(), AllocError>
        requires reading { self.old.reader ≡ None }
        requires unknown { self.old.outline ≡ None }
        ensures stands { (file : File) (gave : Option FileResult) → mark_by self.old.end ≡ file.mark → file.mark ≡ Open
            → Fed file.mark file.bytes reader → self.old.bytes ≡ file.bytes → FileStands (fed piece.now file) gave self.new }
        ensures end { self.new.end ≡ self.old.end }
        ensures page { self.new.page ≡ self.old.page }
    {
        let kept = self.bytes.extend_from_slice(piece);
        let mut reader = reader;
        let answer = reader.feed(piece);
        match kept {
            Ok(()) => self.settle(reader, answer),
            Err(error) => {
                self.bytes = Vec::new(self.alloc);
                Err(error)
            }
        }
    }

    /// The file ends so, whose end wasn't known. Where there is no memory for its outline, nothing is kept of it any more.
    pub(crate) fn close(&mut self, how: FileEnd)
        requires { self.old.end ≡ None }
        ensures stands { (file : File) (gave : Option FileResult) → FileStands file gave self.old → FileStands (ended how file) gave self.new }
        ensures page { self.new.page ≡ self.old.page }
        ensures end { self.new.end ≡ Some how }
    {
        include_graph::laws::outlines_stay();
        page_decoder::page_laws::libraries::libraries_go_on();
        self.end = Some(how);
        if let Some(mut reader) = self.reader.take() {
            let answer = reader.end(how);
            drop(self.settle(reader, answer));
        }
    }

    /// Goes on as the reader of the outline answers.
    fn settle(&mut self, reader: OutlineReader, answer: OutlineStep) -> Result<(), AllocError>
        requires answered { reader.answered ≡ answer }
        requires reading { self.old.reader ≡ None }
        requires unknown { self.old.outline ≡ None }
        ensures stands { (file : File) (gave : Option FileResult) → mark_by self.old.end ≡ file.mark → Fed file.mark file.bytes reader
            → self.old.bytes ≡ file.bytes → FileStands file gave self.new }
        ensures end { self.new.end ≡ self.old.end }
        ensures page { self.new.page ≡ self.old.page }
    {
        match answer {
            OutlineStep::NeedBytes => {
                self.reader = Some(reader);
                Ok(())
            }
            OutlineStep::Done => self.know(reader.take()),
            OutlineStep::OutOfMemory => {
                self.bytes = Vec::new(self.alloc);
                Err(AllocError)
            }
        }
    }

    /// The outline is known. The bytes of a file with a fault aren't wanted any more.
    fn know(&mut self, outline: Outline) -> Result<(), AllocError>
        requires reading { self.old.reader ≡ None }
        requires unknown { self.old.outline ≡ None }
        ensures stands { (file : File) (gave : Option FileResult) → mark_by self.old.end ≡ file.mark → outline_of file.mark file.bytes ≡ Some outline
            → self.old.bytes ≡ file.bytes → FileStands file gave self.new }
        ensures end { self.new.end ≡ self.old.end }
        ensures page { self.new.page ≡ self.old.page }
    {
        if !is_clean(&outline) {
            self.bytes = Vec::new(self.alloc);
        }
        match Arc::new(self.alloc, outline) {
            Ok(outline) => {
                self.outline = Some(outline);
                Ok(())
            }
            Err(_) => {
                self.bytes = Vec::new(self.alloc);
                Err(AllocError)
            }
        }
    }

    /// The file was decoded: its bytes aren't wanted any more.
    pub(crate) fn forget(&mut self)
        ensures stands { (file : File) (was is : Option FileResult) → (is ≢ None) → FileStands file was self.old → FileStands file is self.new }
        ensures bytes { self.old.reader ≡ None → self.new.bytes ≡ [] }
        ensures end { self.new.end ≡ self.old.end }
        ensures page { self.new.page ≡ self.old.page }
    {
        if self.reader.is_none() {
            self.bytes = Vec::new(self.alloc);
        }
    }
}

/// Whether an outline has no fault.
fn is_clean(outline: &Outline) -> bool
    ensures { result ≡ is_clean outline.now.items }
{
    outline.items.slice().iter().all(is_include)
}

fn is_include(item: &OutlineItem) -> bool
    ensures { result ≡ is_include item.now }
{
    match item {
        OutlineItem::Include { .. } => true,
        OutlineItem::Broken { .. } => false,
    }
}
