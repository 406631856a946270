//! Chunks of files: each answer of the walker, for files that come whole, in two pieces and byte by byte.
use djvu_base::FaultKind;
use iff_chunks::{WalkStep, Walker};
use std::alloc::{AllocError, Global};
use std::process::Abort;
use std::test::Fail;

/// A file, and what is to be told of it: the events, all data in a row as one of them, these data, the last answer to
/// its bytes, and the answer where no more come.
struct File {
    bytes: &'static [u8],
    events: &'static [WalkStep],
    data: &'static [u8],
    last: WalkStep,
    end: WalkStep,
}

const ANTZ_12_OF_0: WalkStep = WalkStep::Header {
    id: *b"ANTz",
    offset: 12,
    length: 0,
};

const ANTZ_24_OF_0: WalkStep = WalkStep::Header {
    id: *b"ANTz",
    offset: 24,
    length: 0,
};

const BAD_ID: WalkStep = WalkStep::Broken {
    kind: FaultKind::BadId,
    offset: 12,
};

const CUT_0: WalkStep = WalkStep::Broken {
    kind: FaultKind::Truncated,
    offset: 0,
};

const CUT_12: WalkStep = WalkStep::Broken {
    kind: FaultKind::Truncated,
    offset: 12,
};

const CUT_16: WalkStep = WalkStep::Broken {
    kind: FaultKind::Truncated,
    offset: 16,
};

const CUT_22: WalkStep = WalkStep::Broken {
    kind: FaultKind::Truncated,
    offset: 22,
};

const DJBZ_32_OF_2: WalkStep = WalkStep::Header {
    id: *b"Djbz",
    offset: 32,
    length: 2,
};

const INCLUDED_34: WalkStep = WalkStep::Form {
    kind: *b"DJVI",
    length: 34,
};

const INFO_12_OF_10: WalkStep = WalkStep::Header {
    id: *b"INFO",
    offset: 12,
    length: 10,
};

const INFO_16_OF_10: WalkStep = WalkStep::Header {
    id: *b"INFO",
    offset: 16,
    length: 10,
};

const NOT_FORM: WalkStep = WalkStep::Broken {
    kind: FaultKind::NotForm,
    offset: 0,
};

const OVERRUN: WalkStep = WalkStep::Broken {
    kind: FaultKind::Overrun,
    offset: 12,
};

const PAGE_13: WalkStep = WalkStep::Form {
    kind: *b"DJVU",
    length: 13,
};

const PAGE_14: WalkStep = WalkStep::Form {
    kind: *b"DJVU",
    length: 14,
};

const PAGE_15: WalkStep = WalkStep::Form {
    kind: *b"DJVU",
    length: 15,
};

const PAGE_22: WalkStep = WalkStep::Form {
    kind: *b"DJVU",
    length: 22,
};

const SHORT_HEADER: WalkStep = WalkStep::Broken {
    kind: FaultKind::ShortHeader,
    offset: 20,
};

const SJBZ_12_OF_1: WalkStep = WalkStep::Header {
    id: *b"Sjbz",
    offset: 12,
    length: 1,
};

const TOO_LARGE: WalkStep = WalkStep::Broken {
    kind: FaultKind::TooLarge,
    offset: 0,
};

const TXTZ_12_OF_3: WalkStep = WalkStep::Header {
    id: *b"TXTz",
    offset: 12,
    length: 3,
};

const FILES: [File; 19] = [
    // A whole page, and one without the magic, with a pad byte, an empty chunk and bytes behind the FORM.
    File {
        bytes: b"AT&TFORM\0\0\0\x16DJVUINFO\0\0\0\x0A\0\x01\0\x01\x18\0\x2C\x01\x16\x01",
        events: &[PAGE_22, INFO_16_OF_10, WalkStep::Data, WalkStep::ChunkEnd],
        data: b"\0\x01\0\x01\x18\0\x2C\x01\x16\x01",
        last: WalkStep::FormEnd,
        end: WalkStep::FormEnd,
    },
    File {
        bytes: b"FORM\0\0\0\x22DJVITXTz\0\0\0\x03abc!ANTz\0\0\0\0Djbz\0\0\0\x02deFORM",
        events: &[
            INCLUDED_34,
            TXTZ_12_OF_3,
            WalkStep::Data,
            WalkStep::ChunkEnd,
            ANTZ_24_OF_0,
            WalkStep::ChunkEnd,
            DJBZ_32_OF_2,
            WalkStep::Data,
            WalkStep::ChunkEnd,
        ],
        data: b"abcde",
        last: WalkStep::FormEnd,
        end: WalkStep::FormEnd,
    },
    // The last pad byte is missing: the FORM ends before it, or the file does.
    File {
        bytes: b"FORM\0\0\0\x0DDJVUSjbz\0\0\0\x01a",
        events: &[PAGE_13, SJBZ_12_OF_1, WalkStep::Data, WalkStep::ChunkEnd],
        data: b"a",
        last: WalkStep::FormEnd,
        end: WalkStep::FormEnd,
    },
    File {
        bytes: b"FORM\0\0\0\x0EDJVUSjbz\0\0\0\x01a",
        events: &[PAGE_14, SJBZ_12_OF_1, WalkStep::Data, WalkStep::ChunkEnd],
        data: b"a",
        last: WalkStep::NeedBytes,
        end: WalkStep::FormEnd,
    },
    // Cut: before all bytes, in the magic, in the FORM's length and kind, before the first chunk, in a header, in data,
    // before a pad byte, and behind it.
    File {
        bytes: b"",
        events: &[],
        data: b"",
        last: WalkStep::NeedBytes,
        end: CUT_0,
    },
    File {
        bytes: b"AT&",
        events: &[],
        data: b"",
        last: WalkStep::NeedBytes,
        end: CUT_0,
    },
    File {
        bytes: b"AT&TFORM\0\0",
        events: &[],
        data: b"",
        last: WalkStep::NeedBytes,
        end: CUT_0,
    },
    File {
        bytes: b"AT&TFORM\0\0\0\x16DJ",
        events: &[],
        data: b"",
        last: WalkStep::NeedBytes,
        end: CUT_0,
    },
    File {
        bytes: b"AT&TFORM\0\0\0\x16DJVU",
        events: &[PAGE_22],
        data: b"",
        last: WalkStep::NeedBytes,
        end: CUT_0,
    },
    File {
        bytes: b"AT&TFORM\0\0\0\x16DJVUINFO\0",
        events: &[PAGE_22],
        data: b"",
        last: WalkStep::NeedBytes,
        end: CUT_16,
    },
    File {
        bytes: b"FORM\0\0\0\x16DJVUINFO\0\0\0\x0Aten",
        events: &[PAGE_22, INFO_12_OF_10, WalkStep::Data],
        data: b"ten",
        last: WalkStep::NeedBytes,
        end: CUT_12,
    },
    File {
        bytes: b"FORM\0\0\0\x16DJVUSjbz\0\0\0\x01a",
        events: &[PAGE_22, SJBZ_12_OF_1, WalkStep::Data, WalkStep::ChunkEnd],
        data: b"a",
        last: WalkStep::NeedBytes,
        end: CUT_12,
    },
    File {
        bytes: b"FORM\0\0\0\x16DJVUSjbz\0\0\0\x01a\xFF",
        events: &[PAGE_22, SJBZ_12_OF_1, WalkStep::Data, WalkStep::ChunkEnd],
        data: b"a",
        last: WalkStep::NeedBytes,
        end: CUT_22,
    },
    // Broken: no FORM, a length without room for the kind, one that is too large, a header that doesn't fit, an
    // identifier with a byte that isn't printable in front of data that don't fit, and data alone that don't.
    File {
        bytes: b"AT&TFARM\0\0\0\x16DJVU",
        events: &[],
        data: b"",
        last: NOT_FORM,
        end: NOT_FORM,
    },
    File {
        bytes: b"FORM\0\0\0\x03DJV",
        events: &[],
        data: b"",
        last: NOT_FORM,
        end: NOT_FORM,
    },
    File {
        bytes: b"AT&TFORM\0\x1F\xFF\xF5",
        events: &[],
        data: b"",
        last: TOO_LARGE,
        end: TOO_LARGE,
    },
    File {
        bytes: b"FORM\0\0\0\x0FDJVUANTz\0\0\0\0abc",
        events: &[PAGE_15, ANTZ_12_OF_0, WalkStep::ChunkEnd],
        data: b"",
        last: SHORT_HEADER,
        end: SHORT_HEADER,
    },
    File {
        bytes: b"FORM\0\0\0\x0DDJVUB\x7F44\0\0\0\x02a",
        events: &[PAGE_13],
        data: b"",
        last: BAD_ID,
        end: BAD_ID,
    },
    File {
        bytes: b"FORM\0\0\0\x0EDJVUSjbz\0\0\0\x03ab",
        events: &[PAGE_14],
        data: b"",
        last: OVERRUN,
        end: OVERRUN,
    },
];

/// A walker, and what it told: the events, all data in a row as one of them, these data, and its last answer.
#[derive(Drop)]
struct Walk {
    walker: Walker,
    events: Vec<WalkStep>,
    data: Vec<u8>,
    last: WalkStep,
}

impl Walk {
    fn new(alloc: Global) -> Walk {
        Walk {
            walker: Walker::new(),
            events: Vec::new(alloc),
            data: Vec::new(alloc),
            last: WalkStep::NeedBytes,
        }
    }

    /// Feeds a piece. After nine events no other one comes.
    fn feed(&mut self, piece: &[u8]) -> Result<(), AllocError> {
        let mut rest = piece;
        for _ in 0..10 {
            let (used, step) = self.walker.feed(rest);
            self.note(step, &rest[..used])?;
            rest = &rest[used..];
        }
        Ok(())
    }

    fn note(&mut self, step: WalkStep, used: &[u8]) -> Result<(), AllocError> {
        let goes_on = self.events.last() == Some(&WalkStep::Data);
        self.last = step;
        match step {
            WalkStep::NeedBytes | WalkStep::FormEnd | WalkStep::Broken { .. } => return Ok(()),
            WalkStep::Data => self.data.extend_from_slice(used)?,
            _ => {}
        }
        if !(step == WalkStep::Data && goes_on) {
            self.events.push(step)?;
        }
        Ok(())
    }

    /// Everything of the file was told, and nothing else; so is its end, which is then answered again.
    fn check(&mut self, rt: &impl Abort, file: &File) {
        same_events(rt, self.events.as_slice(), file.events);
        same_data(rt, self.data.as_slice(), file.data);
        assert_eq!(rt; self.last, file.last);
        assert_eq!(rt; self.walker.end(), file.end);
        assert_eq!(rt; self.walker.feed(b"FORM"), (0, file.end));
    }
}

fn same_events(rt: &impl Abort, told: &[WalkStep], wanted: &[WalkStep]) {
    assert_eq!(rt; told, wanted);
}

fn same_data(rt: &impl Abort, told: &[u8], wanted: &[u8]) {
    assert_eq!(rt; told, wanted);
}

fn byte_by_byte(rt: &impl Abort, alloc: Global, file: &File) -> Result<(), AllocError> {
    let mut walk = Walk::new(alloc);
    for byte in file.bytes {
        walk.feed(&[*byte])?;
    }
    walk.check(rt, file);
    Ok(())
}

/// Cut in two at each place, also before the first byte and behind the last one.
fn in_two(rt: &impl Abort, alloc: Global, file: &File) -> Result<(), AllocError> {
    for at in 0..=file.bytes.len() {
        let mut walk = Walk::new(alloc);
        walk.feed(&file.bytes[..at])?;
        walk.feed(&file.bytes[at..])?;
        walk.check(rt, file);
    }
    Ok(())
}

#[test]
fn files_are_told(rt: HostRuntime) -> Result<(), Fail> {
    let alloc = rt.alloc();
    for file in &FILES {
        let mut walk = Walk::new(alloc);
        walk.feed(file.bytes)?;
        walk.check(&rt, file);
        byte_by_byte(&rt, alloc, file)?;
        in_two(&rt, alloc, file)?;
    }
    Ok(())
}
