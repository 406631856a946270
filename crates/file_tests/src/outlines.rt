//! Outlines of included files, in every cut, and verdicts over small graphs.
ghost use Rattle.std.specs.Prelude.{◌≤◌, length, IfSome};
ghost use Rattle.djvu_base.specs.Name.{IsAscending};

use crate::names::ascend;
use djvu_base::{FaultKind, FileEnd, Items, Name};
use include_graph::{
    Outline, OutlineItem, OutlineReader, OutlineStep, Verdict, number_of, verdict,
};
use std::alloc::Global;
use std::sync::Arc;

/// Includes of `a` and `bc`, then a dictionary, and a second one.
const FILE: &[u8] = b"FORM\0\0\0\x28DJVIINCL\0\0\0\x01a\0INCL\0\0\0\x02bcDjbz\0\0\0\0Djbz\0\0\0\0";

/// Files, the items of their outlines, and the place of the byte that settles the outline, where one does.
const FILES: [(&[u8], &[u8], Option<usize>); 15] = [
    (FILE, b"a 12/bc 22/second-dictionary 40/", Some(47)),
    (b"FORM\0\0\0\x0EDJVIINCL\0\0\0\x01a\0", b"a 12/", Some(21)),
    (b"FORM\0\0\0\x0DDJVIINCL\0\0\0\x01a", b"a 12/", Some(20)),
    (b"FORM\0\0\0\x0EDJVIINCL\0\0\0\x01a", b"a 12/", None),
    (b"FORX", b"not-form 0/", Some(3)),
    (b"FORM\x7f\xff\xff\xff", b"too-large 0/", Some(7)),
    (b"FORM\0\0\0\x14DJVUINCL", b"not-included-form 0/", Some(11)),
    (
        b"FORM\0\0\0\x14DJVIDIRM\0\0\0\x04",
        b"unsupported 12/",
        Some(19),
    ),
    (
        b"FORM\0\0\0\x14DJVIBG44\0\0\0\x04",
        b"misplaced 12/",
        Some(19),
    ),
    (
        b"FORM\0\0\0\x14DJVIINFO\0\0\0\x04",
        b"misplaced 12/",
        Some(19),
    ),
    (
        b"FORM\0\0\0\x0EDJVIINCL\0\0\0\x01/\0",
        b"bad-include-name 12/",
        Some(20),
    ),
    (b"FORM\0\0\0\x07DJVI", b"short-header 12/", Some(11)),
    (
        b"FORM\0\0\0\x0CDJVIINCL\0\0\0\x01",
        b"overrun 12/",
        Some(19),
    ),
    (
        b"FORM\0\0\0\x0CDJVIIN\x1FL\0\0\0\0",
        b"bad-id 12/",
        Some(19),
    ),
    (
        b"FORM\0\0\0\x28DJVIINCL\0\0\0\x01a",
        b"a 12/truncated 12/",
        None,
    ),
];

/// The items of a reader's outline, once its file ends so.
fn text_at_end(alloc: Global, mut reader: OutlineReader, end: FileEnd) -> Option<Vec<u8>> {
    match reader.end(end) {
        OutlineStep::Done => text_of(alloc, &reader.take()),
        OutlineStep::NeedBytes | OutlineStep::OutOfMemory => None,
    }
}

/// The items of an outline, each as a name or a fault's word, and its offset.
fn text_of(alloc: Global, outline: &Outline) -> Option<Vec<u8>> {
    let mut text = Vec::new(alloc);
    for item in outline.items.slice() {
        let offset = match item {
            OutlineItem::Include { name, offset } => {
                text.extend_from_slice(name.bytes()).ok()?;
                *offset
            }
            OutlineItem::Broken { kind, offset } => {
                text.extend_from_slice(kind.word().as_bytes()).ok()?;
                *offset
            }
        };
        let number = format!(in alloc; " {offset}/").ok()?;
        text.extend_from_slice(number.as_bytes()).ok()?;
    }
    Some(text)
}

/// The answers to two pieces of a file, and the items of its outline.
fn read_in_two(
    alloc: Global,
    bytes: &[u8],
    cut: usize,
) -> Option<(OutlineStep, OutlineStep, Vec<u8>)>
    requires { cut ≤ length bytes.now }
{
    let mut reader = OutlineReader::new(alloc);
    let first = reader.feed(&bytes[..cut]);
    let second = reader.feed(&bytes[cut..]);
    let text = text_at_end(alloc, reader, FileEnd::Whole)?;
    Some((first, second, text))
}

/// The place of the first byte at which a reader that is fed byte by byte answers `Done`, and the items of its outline.
fn read_by_bytes(alloc: Global, bytes: &[u8], end: FileEnd) -> Option<(Option<usize>, Vec<u8>)> {
    let mut reader = OutlineReader::new(alloc);
    let mut settled = None;
    for (place, byte) in bytes.iter().enumerate() {
        let step = reader.feed(&[*byte]);
        if settled.is_none() && matches!(step, OutlineStep::Done) {
            settled = Some(place);
        }
    }
    let text = text_at_end(alloc, reader, end)?;
    Some((settled, text))
}

/// What is answered once so many bytes came, where the byte at this place settles the outline.
fn answer_after(settled: Option<usize>, came: usize) -> OutlineStep {
    match settled {
        Some(place) if place < came => OutlineStep::Done,
        Some(_) | None => OutlineStep::NeedBytes,
    }
}

#[test]
fn outlines_in_two_pieces(rt: HostRuntime) {
    for (number, (bytes, items, settled)) in FILES.into_iter().enumerate() {
        for cut in 0..=bytes.len() {
            let Some((first, second, text)) = read_in_two(rt.alloc(), bytes, cut) else {
                panic!(rt; "memory is ample");
            };
            assert_eq!(rt; text.as_slice(), items, "file {number} cut at {cut}");
            assert_eq!(rt;
                first,
                answer_after(settled, cut),
                "file {number} cut at {cut}"
            );
            assert_eq!(rt;
                second,
                answer_after(settled, bytes.len()),
                "file {number} cut at {cut}"
            );
        }
    }
}

#[test]
fn outlines_byte_by_byte(rt: HostRuntime) {
    for (number, (bytes, items, settled)) in FILES.into_iter().enumerate() {
        let Some((place, text)) = read_by_bytes(rt.alloc(), bytes, FileEnd::Whole) else {
            panic!(rt; "memory is ample");
        };
        assert_eq!(rt; text.as_slice(), items, "file {number}");
        assert_eq!(rt; place, settled, "file {number}");
    }
}

#[test]
fn files_that_break_off(rt: HostRuntime) {
    let cases: [(&[u8], &[u8]); 5] = [
        (&FILE[..0], b"read 0/"),
        (&FILE[..19], b"read 19/"),
        (&FILE[..21], b"a 12/read 21/"),
        (&FILE[..47], b"a 12/bc 22/read 47/"),
        (FILE, b"a 12/bc 22/second-dictionary 40/"),
    ];
    for (bytes, items) in cases {
        let Some((_, text)) = read_by_bytes(rt.alloc(), bytes, FileEnd::Broken) else {
            panic!(rt; "memory is ample");
        };
        assert_eq!(rt; text.as_slice(), items, "{} bytes", bytes.len());
    }
}

/// The names `a` to `d`.
fn four_names(alloc: Global) -> Option<Vec<Name>>
    ensures { IfSome result (λ names. IsAscending names.items) }
{
    let mut names = Vec::new(alloc);
    for letter in [b'a', b'b', b'c', b'd'] {
        names.push(Name::read(alloc, &[letter]).ok()??).ok()?;
    }
    ascend(names.as_slice()).then_some(names)
}

/// The outline of a file that includes these files, each of which has a letter as its name. A `!` stands for a cut.
fn including(alloc: Global, names: &[u8]) -> Option<Arc<Outline>> {
    let mut items = Vec::new(alloc);
    let mut offset = 12_u32;
    for name in names {
        let item = if *name == b'!' {
            let kind = FaultKind::Truncated;
            OutlineItem::Broken { kind, offset }
        } else {
            let name = Name::read(alloc, &[*name]).ok()??;
            OutlineItem::Include { name, offset }
        };
        items.push(item).ok()?;
        offset = offset.wrapping_add(10);
    }
    let outline = Outline {
        items: Items::of(items),
    };
    Arc::new(alloc, outline).ok()
}

/// What is said of `a` where each of the four files includes these, or isn't known.
fn said_of_a(alloc: Global, includes: [Option<&[u8]>; 4]) -> Option<Vec<u8>> {
    let names = four_names(alloc)?;
    if names.len() != 4 {
        return None;
    }
    let [a, b, c, d] = includes;
    let outlines = [
        match a {
            Some(names) => Some(including(alloc, names)?),
            None => None
        },
        match b {
            Some(names) => Some(including(alloc, names)?),
            None => None
        },
        match c {
            Some(names) => Some(including(alloc, names)?),
            None => None
        },
        match d {
            Some(names) => Some(including(alloc, names)?),
            None => None
        },
    ];
    let text = match verdict(alloc, names.as_slice(), outlines.as_slice(), 0).ok()? {
        Verdict::Files(files) => listed(alloc, files.slice())?,
        Verdict::NeedOutline(file) => format!(in alloc; "needs {file}").ok()?.into_bytes(),
        Verdict::Refused(fault) => {
            let word = fault.kind.word();
            format!(in alloc; "{word} {} {}", fault.place.file, fault.place.offset)
                .ok()?
                .into_bytes()
        }
    };
    Some(text)
}

fn listed(alloc: Global, files: &[u32]) -> Option<Vec<u8>> {
    let mut text = Vec::new(alloc);
    for file in files {
        let number = format!(in alloc; "{file} ").ok()?;
        text.extend_from_slice(number.as_bytes()).ok()?;
    }
    Some(text)
}

#[test]
fn verdicts_on_small_graphs(rt: HostRuntime) {
    let none: &[u8] = b"";
    let cases: [([Option<&[u8]>; 4], &[u8]); 9] = [
        (
            [Some(b"bc"), Some(b"d"), Some(b"d"), Some(none)],
            b"3 1 2 0 ",
        ),
        ([Some(b"b"), Some(b"a"), None, None], b"cyclic-include 1 12"),
        ([Some(b"a"), None, None, None], b"cyclic-include 0 12"),
        (
            [Some(b"b"), Some(b"x"), None, None],
            b"missing-include 1 12",
        ),
        (
            [Some(b"bx"), Some(none), None, None],
            b"missing-include 0 22",
        ),
        (
            [Some(b"b"), Some(b"cc!"), Some(none), None],
            b"truncated 1 32",
        ),
        ([Some(b"!"), None, None, None], b"truncated 0 12"),
        ([Some(b"bc"), Some(none), None, None], b"needs 2"),
        ([Some(none), None, None, None], b"0 "),
    ];
    for (number, (includes, said)) in cases.into_iter().enumerate() {
        let Some(text) = said_of_a(rt.alloc(), includes) else {
            panic!(rt; "memory is ample");
        };
        assert_eq!(rt; text.as_slice(), said, "case {number}");
    }
}

/// The number of the name of one letter among the four names.
fn number_among_four(alloc: Global, letter: u8) -> Option<Option<u32>> {
    let names = four_names(alloc)?;
    if names.len() != 4 {
        return None;
    }
    let name = Name::read(alloc, &[letter]).ok()??;
    Some(number_of(names.as_slice(), &name))
}

#[test]
fn numbers_of_names(rt: HostRuntime) {
    assert_eq!(rt; number_among_four(rt.alloc(), b'a'), Some(Some(0)));
    assert_eq!(rt; number_among_four(rt.alloc(), b'c'), Some(Some(2)));
    assert_eq!(rt; number_among_four(rt.alloc(), b'e'), Some(None));
}

/// Whether this is the right text, or there was no memory for it.
fn is_right_or_none(text: Option<Vec<u8>>, right: &[u8]) -> bool {
    match text {
        Some(text) => text.as_slice() == right,
        None => true,
    }
}

/// Of use where one allocation or all later ones fail: `rt try --test --fail-alloc N`. Then nothing but these answers may come.
#[test]
fn right_or_no_memory(rt: HostRuntime) {
    for (number, (bytes, items, _)) in FILES.into_iter().enumerate() {
        let text = match read_by_bytes(rt.alloc(), bytes, FileEnd::Whole) {
            Some((_, text)) => Some(text),
            None => None,
        };
        assert!(rt; is_right_or_none(text, items), "file {number}");
    }
    let none: &[u8] = b"";
    let listed = said_of_a(
        rt.alloc(),
        [Some(b"bc"), Some(b"d"), Some(b"d"), Some(none)],
    );
    assert!(rt; is_right_or_none(listed, b"3 1 2 0 "));
    let refused = said_of_a(rt.alloc(), [Some(b"bx"), Some(none), None, None]);
    assert!(rt; is_right_or_none(refused, b"missing-include 0 22"));
}
