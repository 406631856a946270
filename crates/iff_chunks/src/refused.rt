//! Chunks that no file may have.
ghost use Rattle.std.specs.Prelude.{◌≡◌};
ghost use Rattle.djvu_base.specs.Name.{is_listed};
ghost use Rattle.iff_chunks.specs.Refused.{refused_ids};

/// Identifiers of chunks that are refused in every file.
const REFUSED_IDS: [[u8; 4]; 5] = [*b"DIRM", *b"FGbz", *b"Smmr", *b"BGjp", *b"FGjp"];

/// Whether a file that has a chunk with this identifier is refused, be it a page or an included file.
pub fn is_refused(id: [u8; 4]) -> bool
    ensures { result ≡ is_listed refused_ids id }
{
    REFUSED_IDS
        .iter()
        .any(|listed| id.as_slice() == listed.as_slice())
}
