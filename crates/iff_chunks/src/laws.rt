//! Laws of the definitions, apart from the walker: each is a clause of a function that does nothing.
ghost use Rattle.std.specs.Prelude.{◌≡◌, ◌≢◌, ℕ, ◌*◌, ◌<◌, ◌≤◌, ◌++◌, List, [], ◌∷◌, Some, None, true, false, length, take, drop, codes};
ghost use Rattle.djvu_base.specs.declared.faults.FaultKind.{FaultKind};
ghost use Rattle.djvu_base.specs.declared.faults.FaultKind.TheVariants.{Truncated, NotForm, TooLarge, ShortHeader, BadId, Overrun};
ghost use Rattle.iff_chunks.specs.Chunks.{Form, Chunk, Tail, FormEnd, Broken, InHead, InHeader, InData, InPad, chunks_of, chunks_in_all, chunks_from, rest_at, found_at, found_so, magic};
ghost use Rattle.iff_chunks.specs.Events.{Begun, Header, Data, ChunkEnd, events_of, GoesOn};
ghost use Rattle.djvu_base.specs.Library.{file_limit};
ghost use Rattle.iff_chunks.specs.Growth.{IsStillThere};
ghost use Rattle.iff_chunks.specs.Layout.{IsLaidForm};
ghost use Rattle.iff_chunks.specs.Order.{InOrder, AtForm};
ghost use Rattle.iff_chunks.specs.Worked.{page, page_form, bare_form, info_chunk, info_bytes, mask_header, form_of_length};

/// The chunks from a place on are what is found there, and the chunks from behind it on: the definition's count of how
/// many there may be is never too small, and any larger count gives the same.
pub fn recursion()
    ensures found { (offset left : ℕ) (bytes : List ℕ) → rest_at offset left bytes ≡ found_so rest_at (found_at offset left bytes) }
    ensures count { (most offset left : ℕ) (bytes : List ℕ) → left ≤ most → chunks_from most offset left bytes ≡ rest_at offset left bytes }
{}

/// What the bytes so far settle stays, whatever follows: the chunks of a file whose FORM ended or that broke, the FORM,
/// the complete chunks, the header of a chunk whose data are arriving, and the events.
pub fn chunks_stay()
    ensures ended { (bytes more : List ℕ) → (chunks_of bytes).tail ≡ FormEnd → chunks_of (bytes ++ more) ≡ chunks_of bytes }
    ensures broken { (bytes more : List ℕ) (kind : FaultKind) (offset : ℕ) → (chunks_of bytes).tail ≡ Broken kind offset
        → chunks_of (bytes ++ more) ≡ chunks_of bytes }
    ensures form { (bytes more : List ℕ) (form : Form) → (chunks_of bytes).form ≡ Some form → (chunks_of (bytes ++ more)).form ≡ Some form }
    ensures whole { (bytes more : List ℕ) → (later : List Chunk) × ((chunks_of (bytes ++ more)).whole ≡ (chunks_of bytes).whole ++ later) }
    ensures open { (bytes more : List ℕ) (chunk : Chunk) → (chunks_of bytes).tail ≡ InData chunk
        → IsStillThere (chunks_of bytes).whole chunk (chunks_of (bytes ++ more)) }
    ensures events { (bytes more : List ℕ) → GoesOn (events_of (chunks_of bytes)) (events_of (chunks_of (bytes ++ more))) }
{}

/// Bytes that more may follow are never cut.
pub fn never_cut()
    ensures { (bytes : List ℕ) (offset : ℕ) → (chunks_of bytes).tail ≢ Broken Truncated offset }
{}

/// Once a file's FORM is there, its bytes are what may stand before it, its head, and then the chunks and the tail, one
/// after the other. Bytes that are laid out so have that FORM, these chunks and this tail, and no others.
pub fn layout()
    ensures laid { (bytes : List ℕ) (form : Form) → (chunks_of bytes).form ≡ Some form → IsLaidForm bytes form (chunks_of bytes).whole (chunks_of bytes).tail }
    ensures only { (bytes : List ℕ) (form : Form) (chunks : List Chunk) (tail : Tail) → IsLaidForm bytes form chunks tail
        → chunks_of bytes ≡ record { form = Some form; whole = chunks; tail = tail } }
{}

/// What the limit on files and a FORM's length bound: a file whose bytes end too early is shorter than the limit, and a
/// complete chunk takes at least eight bytes of its FORM.
pub fn bounds()
    ensures cut_is_early { (bytes : List ℕ) (offset : ℕ) → (chunks_in_all bytes).tail ≡ Broken Truncated offset → length bytes < file_limit }
    ensures few_chunks { (bytes : List ℕ) (form : Form) → (chunks_of bytes).form ≡ Some form → 8 * length (chunks_of bytes).whole ≤ form.size }
{}

/// The events of a file come in their order: the FORM; then of each chunk its header, its data if there are some, and
/// its end.
pub fn order()
    ensures { (bytes : List ℕ) → InOrder AtForm (events_of (chunks_of bytes)) }
{}

/// The chunks of a page of 46 bytes, of its fronts, and of files a little other than it.
pub fn worked_chunks()
    ensures whole { chunks_of (page 0x22 (mask_header 4 ++ 0xB7 ∷ 0x6D ∷ 0x86 ∷ 0x87 ∷ [])) ≡
        record {
          form = Some (page_form 34);
          whole = info_chunk ∷ record { id = codes "Sjbz"; offset = 34; size = 4; bytes = 0xB7 ∷ 0x6D ∷ 0x86 ∷ 0x87 ∷ [] } ∷ [];
          tail = FormEnd;
        } }
    ensures byte_behind { (byte : ℕ) → chunks_of (page 0x16 (byte ∷ [])) ≡ record { form = Some (page_form 22); whole = info_chunk ∷ []; tail = FormEnd } }

    // A chunk of 100 bytes where the FORM has none left.
    ensures overrun { chunks_of (page 0x1E (0x42 ∷ 0x47 ∷ 0x34 ∷ 0x34 ∷ 0 ∷ 0 ∷ 0 ∷ 100 ∷ []))
        ≡ record { form = Some (page_form 30); whole = info_chunk ∷ []; tail = Broken Overrun 34 } }
    ensures header_part { chunks_of (page 0x1E (0x42 ∷ 0x47 ∷ 0x34 ∷ 0x34 ∷ 0 ∷ 0 ∷ 0 ∷ []))
        ≡ record { form = Some (page_form 30); whole = info_chunk ∷ []; tail = InHeader 34 (0x42 ∷ 0x47 ∷ 0x34 ∷ 0x34 ∷ 0 ∷ 0 ∷ 0 ∷ []) } }

    // A byte of the identifier is 0, and the data would go past the FORM's end as well.
    ensures bad_id { chunks_of (page 0x1E (0x42 ∷ 0x00 ∷ 0x34 ∷ 0x34 ∷ 0 ∷ 0 ∷ 0 ∷ 100 ∷ []))
        ≡ record { form = Some (page_form 30); whole = info_chunk ∷ []; tail = Broken BadId 34 } }
    ensures three_left { chunks_of (page 0x19 []) ≡ record { form = Some (page_form 25); whole = info_chunk ∷ []; tail = Broken ShortHeader 34 } }
    ensures no_form { chunks_of (codes "AT&TFORN") ≡ record { form = None; whole = []; tail = Broken NotForm 0 } }
    ensures half_magic { chunks_of (codes "AT&FORM") ≡ record { form = None; whole = []; tail = Broken NotForm 0 } }
    ensures length_3 { chunks_of (form_of_length (0 ∷ 0 ∷ 0 ∷ 3 ∷ [])) ≡ record { form = None; whole = []; tail = Broken NotForm 0 } }
    ensures length_4 { chunks_of (form_of_length (0 ∷ 0 ∷ 0 ∷ 4 ∷ codes "DJVU")) ≡ record { form = Some (bare_form 4); whole = []; tail = FormEnd } }
{}

/// The longest FORM ends behind byte 2,097,152 of the file: its length is 2,097,144, and four less behind `AT&T`.
pub fn worked_lengths()
    ensures bare { chunks_of (form_of_length (0x00 ∷ 0x1F ∷ 0xFF ∷ 0xF8 ∷ [])) ≡ record { form = None; whole = []; tail = InHead } }
    ensures bare_larger { chunks_of (form_of_length (0x00 ∷ 0x1F ∷ 0xFF ∷ 0xF9 ∷ [])) ≡ record { form = None; whole = []; tail = Broken TooLarge 0 } }
    ensures longest { chunks_of (magic ++ form_of_length (0x00 ∷ 0x1F ∷ 0xFF ∷ 0xF4 ∷ codes "DJVU"))
        ≡ record { form = Some (page_form 2_097_140); whole = []; tail = InHeader 16 [] } }
    ensures larger { chunks_of (magic ++ form_of_length (0x00 ∷ 0x1F ∷ 0xFF ∷ 0xF5 ∷ [])) ≡ record { form = None; whole = []; tail = Broken TooLarge 0 } }
{}

/// Where files end: in each part of the grammar, and before and behind a pad byte.
pub fn worked_ends()
    ensures empty { (chunks_in_all []).tail ≡ Broken Truncated 0 }
    ensures no_chunk { (chunks_in_all (take 16 (page 0x22 []))).tail ≡ Broken Truncated 0 }
    ensures first_byte { (chunks_in_all (take 17 (page 0x22 []))).tail ≡ Broken Truncated 16 }
    ensures between { (chunks_in_all (page 0x22 [])).tail ≡ Broken Truncated 34 }
    ensures in_header { (chunks_in_all (page 0x22 (take 3 (mask_header 4)))).tail ≡ Broken Truncated 34 }
    ensures data_open { (chunks_of (page 0x22 (mask_header 4 ++ 0xB7 ∷ 0x6D ∷ []))).tail
        ≡ InData (record { id = codes "Sjbz"; offset = 34; size = 4; bytes = 0xB7 ∷ 0x6D ∷ [] }) }
    ensures in_data { (chunks_in_all (page 0x22 (mask_header 4 ++ 0xB7 ∷ 0x6D ∷ []))).tail ≡ Broken Truncated 34 }
    ensures before_pad { (chunks_in_all (page 0x28 (mask_header 1 ++ 0x0F ∷ []))).tail ≡ Broken Truncated 34 }
    ensures behind_pad { (chunks_in_all (page 0x28 (mask_header 1 ++ 0x0F ∷ 0x00 ∷ []))).tail ≡ Broken Truncated 44 }

    // The last pad byte may be missing, by the end of the file or by that of the FORM.
    ensures pad_open { (chunks_of (page 0x20 (mask_header 1 ++ 0x0F ∷ []))).tail ≡ InPad 34 true }
    ensures no_pad_in_file { (chunks_in_all (page 0x20 (mask_header 1 ++ 0x0F ∷ []))).tail ≡ FormEnd }
    ensures no_pad_in_form { (chunks_of (page 0x1F (mask_header 1 ++ 0x0F ∷ []))).tail ≡ FormEnd }
    ensures broken { (chunks_in_all (page 0x19 [])).tail ≡ Broken ShortHeader 34 }
{}

/// What is told of a page of 46 bytes, and where its last chunk has arrived in part.
pub fn worked_events()
    ensures whole { events_of (chunks_of (page 0x22 (mask_header 4 ++ 0xB7 ∷ 0x6D ∷ 0x86 ∷ 0x87 ∷ []))) ≡
        Begun (codes "DJVU") 34 ∷ Header (codes "INFO") 16 10 ∷ Data info_bytes ∷ ChunkEnd ∷ Header (codes "Sjbz") 34 4 ∷ Data (0xB7 ∷ 0x6D ∷ 0x86 ∷ 0x87 ∷ [])
        ∷ ChunkEnd ∷ [] }
    ensures part { events_of (chunks_of (page 0x22 (mask_header 4 ++ 0xB7 ∷ []))) ≡
        Begun (codes "DJVU") 34 ∷ Header (codes "INFO") 16 10 ∷ Data info_bytes ∷ ChunkEnd ∷ Header (codes "Sjbz") 34 4 ∷ Data (0xB7 ∷ []) ∷ [] }
    ensures no_data { events_of (chunks_of (page 0x1E (mask_header 0))) ≡
        Begun (codes "DJVU") 30 ∷ Header (codes "INFO") 16 10 ∷ Data info_bytes ∷ ChunkEnd ∷ Header (codes "Sjbz") 34 0 ∷ ChunkEnd ∷ [] }
{}
