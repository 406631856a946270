//! Laws of the definitions, and worked values: each is a clause of a function that does nothing.
ghost use Rattle.std.specs.Prelude.{◌≡◌, ◌≢◌, ℕ, ◌≤◌, ◌≤ℤ◌, Bool, true, false, ℤ, pos, negsuc, ◌-ℤ◌, List, [], ◌∷◌, ◌++◌, ◌+◌, ◌*◌, length, Option, Some, None};
ghost use Rattle.djvu_base.specs.declared.faults.FaultKind.{FaultKind};
ghost use Rattle.djvu_base.specs.declared.faults.FaultKind.TheVariants as fault;
ghost use Rattle.zp_table.specs.declared.rows.Row.{Row};
ghost use Rattle.zp_table.specs.Rows.{IsTable};
ghost use Rattle.iw44_image.specs.declared.headers.Header.{Header};
ghost use Rattle.iw44_image.specs.Header.{Short, Wrong, Opened, open_chunk, checked};
ghost use Rattle.iw44_image.specs.Layer.{Layer, Data, Allowed, Done, Need, Fault, any_size, data_of, opening_of, after_chunk, ends, read_chunk};
ghost use Rattle.iw44_image.specs.Layer.{read_chunks, read_layer, new_layer};
ghost use Rattle.iw44_image.specs.Samples.{grey, colour, sample_of};
ghost use Rattle.iw44_image.specs.Growth.{OpenGrows, AreRows};
ghost use Rattle.iw44_image.specs.Worked.{first_opening, one_chunk, two_chunks, checked_chunk, layer_picture};

/// Grey is colour without chroma: of a sample y it is what colour is of -1 - y.
pub fn grey_is_colour_without_chroma()
    ensures { (y : ℤ) → grey y ≡ colour (negsuc 0 -ℤ y) (pos 0) (pos 0) }
{}

/// With more bytes the start of a chunk goes on as it began: a refusal stays, and so does a header.
pub fn headers_stay()
    ensures { (limit number : ℕ) (known : Option Header) (bytes more : List ℕ) (ended : Bool) →
        OpenGrows more (open_chunk limit number known bytes false) (open_chunk limit number known (bytes ++ more) ended) }
{}

/// With more bytes a chunk of a layer only goes on: a refusal stays, with all that was read; while bytes may come the chunk
/// isn't done; and its decisions don't fall.
pub fn more_bytes_only_go_on()
    ensures refused { (table : List Row) (allowed : Allowed) (bytes more : List ℕ) (ended : Bool) (layer : Layer) (kind : FaultKind) →
        (read_chunk table allowed (data_of bytes false) layer).answer ≡ Fault kind →
        read_chunk table allowed (data_of (bytes ++ more) ended) layer ≡ read_chunk table allowed (data_of bytes false) layer }
    ensures open_end { (table : List Row) (allowed : Allowed) (bytes : List ℕ) (layer : Layer) →
        (read_chunk table allowed (data_of bytes false) layer).answer ≢ Done }
    ensures decisions { (table : List Row) (allowed : Allowed) (bytes more : List ℕ) (ended : Bool) (layer : Layer) → IsTable table → AreRows table layer →
        (read_chunk table allowed (data_of bytes false) layer).layer.decisions ≤
        (read_chunk table allowed (data_of (bytes ++ more) ended) layer).layer.decisions }
{}

/// A chunk of which all data are there is done or refused.
pub fn complete_chunks_are_answered()
    ensures { (table : List Row) (allowed : Allowed) (bytes : List ℕ) (layer : Layer) → (read_chunk table allowed (data_of bytes true) layer).answer ≢ Need }
{}

/// A layer is read chunk by chunk: where some chunks are done, further ones are read from where these ended, and where they
/// aren't, further ones change nothing. So what holds of a chunk holds of the last one of a layer. Decisions don't fall.
pub fn layers_go_on()
    ensures appended { (table : List Row) (allowed : Allowed) (chunks later : List Data) →
        read_layer table allowed (chunks ++ later) ≡
        after_chunk (read_layer table allowed chunks).answer (read_layer table allowed chunks).layer (λ layer. read_chunks table allowed later layer) }
    ensures done { (table : List Row) (allowed : Allowed) (chunks later : List Data) → (read_layer table allowed chunks).answer ≡ Done →
        read_layer table allowed (chunks ++ later) ≡ read_chunks table allowed later (read_layer table allowed chunks).layer }
    ensures last { (table : List Row) (allowed : Allowed) (chunks : List Data) (given : Data) → (read_layer table allowed chunks).answer ≡ Done →
        read_layer table allowed (chunks ++ given ∷ []) ≡ read_chunk table allowed given (read_layer table allowed chunks).layer }
    ensures rows { (table : List Row) (allowed : Allowed) (chunks : List Data) → IsTable table → AreRows table (read_layer table allowed chunks).layer }
    ensures decisions { (table : List Row) (allowed : Allowed) (chunks later : List Data) → IsTable table →
        (read_layer table allowed chunks).layer.decisions ≤ (read_layer table allowed (chunks ++ later)).layer.decisions }
{}

/// With more bytes in its last chunk a layer only goes on: a refusal stays, with all that was read; while bytes may come the
/// layer isn't done; and its decisions don't fall.
pub fn layers_grow()
    ensures refused { (table : List Row) (allowed : Allowed) (chunks : List Data) (bytes more : List ℕ) (ended : Bool) (kind : FaultKind) →
        (read_layer table allowed (chunks ++ data_of bytes false ∷ [])).answer ≡ Fault kind →
        read_layer table allowed (chunks ++ data_of (bytes ++ more) ended ∷ []) ≡ read_layer table allowed (chunks ++ data_of bytes false ∷ []) }
    ensures open_end { (table : List Row) (allowed : Allowed) (chunks : List Data) (bytes : List ℕ) →
        (read_layer table allowed (chunks ++ data_of bytes false ∷ [])).answer ≢ Done }
    ensures decisions { (table : List Row) (allowed : Allowed) (chunks : List Data) (bytes more : List ℕ) (ended : Bool) → IsTable table →
        (read_layer table allowed (chunks ++ data_of bytes false ∷ [])).layer.decisions ≤
        (read_layer table allowed (chunks ++ data_of (bytes ++ more) ended ∷ [])).layer.decisions }
{}

/// A layer's size is checked once its first header is there. One that isn't taken is refused, and nothing behind the header
/// is read; one that is taken changes nothing.
pub fn sizes_are_checked_first()
    ensures refused { (table : List Row) (allowed : Allowed) (given : Data) (layer : Layer) (header : Header) (slices : ℕ) (zp : List ℕ) →
        layer.header ≡ None →
        opening_of (any_size allowed.area) given layer ≡ Opened header slices zp → allowed.fits header.width header.height ≡ false →
        read_chunk table allowed given layer ≡ ends (Fault fault.LayerSize) layer }
    ensures taken { (table : List Row) (allowed : Allowed) (given : Data) (layer : Layer) (header : Header) (slices : ℕ) (zp : List ℕ) →
        opening_of (any_size allowed.area) given layer ≡ Opened header slices zp → allowed.fits header.width header.height ≡ true →
        read_chunk table allowed given layer ≡ read_chunk table (any_size allowed.area) given layer }
    ensures later { (table : List Row) (allowed : Allowed) (given : Data) (layer : Layer) (header : Header) → layer.header ≡ Some header →
        read_chunk table allowed given layer ≡ read_chunk table (any_size allowed.area) given layer }
    ensures short { (table : List Row) (allowed : Allowed) (given : Data) (layer : Layer) → opening_of (any_size allowed.area) given layer ≡ Short →
        read_chunk table allowed given layer ≡ read_chunk table (any_size allowed.area) given layer }
    ensures wrong { (table : List Row) (allowed : Allowed) (given : Data) (layer : Layer) (kind : FaultKind) → opening_of
        (any_size allowed.area) given layer ≡ Wrong kind →
        read_chunk table allowed given layer ≡ read_chunk table (any_size allowed.area) given layer }
{}

/// The same by the header that a reading without the check has told: where it told none, or one whose size is taken, the check
/// changes nothing; else the chunk is refused.
pub fn told_sizes_are_checked()
    ensures untold { (table : List Row) (allowed : Allowed) (given : Data) (layer : Layer) → layer.header ≡ None →
        (read_chunk table (any_size allowed.area) given layer).layer.header ≡ None →
        read_chunk table allowed given layer ≡ read_chunk table (any_size allowed.area) given layer }
    ensures taken { (table : List Row) (allowed : Allowed) (given : Data) (layer : Layer) (header : Header) → layer.header ≡ None →
        (read_chunk table (any_size allowed.area) given layer).layer.header ≡ Some header → allowed.fits header.width header.height ≡ true →
        read_chunk table allowed given layer ≡ read_chunk table (any_size allowed.area) given layer }
    ensures refused { (table : List Row) (allowed : Allowed) (given : Data) (layer : Layer) (header : Header) → layer.header ≡ None →
        (read_chunk table (any_size allowed.area) given layer).layer.header ≡ Some header → allowed.fits header.width header.height ≡ false →
        read_chunk table allowed given layer ≡ ends (Fault fault.LayerSize) layer }
{}

/// A chunk adds at most 32,768 decisions for each bit of its ZP data and 177 bits more.
pub fn decisions_of_a_chunk_are_bounded()
    ensures { (table : List Row) (allowed : Allowed) (bytes zp : List ℕ) (ended : Bool) (layer : Layer) (header : Header) (slices : ℕ) →
        IsTable table → AreRows table layer →
        opening_of allowed (data_of bytes ended) layer ≡ Opened header slices zp →
        (read_chunk table allowed (data_of bytes ended) layer).layer.decisions ≤ layer.decisions + 0x8000 * (8 * length zp + 177) }
{}

/// Headers: grey of one pixel, with and without the last byte; colours at full and at half size; and those that are refused,
/// each at its moment.
pub fn worked_headers()
    ensures grey { first_opening (0 ∷ 1 ∷ 0x81 ∷ 2 ∷ 0 ∷ 1 ∷ 0 ∷ 1 ∷ 0 ∷ 0x3F ∷ []) true ≡
        Opened (record { width = 1; height = 1; grey = true; half = true; delay = 0 }) 1 (0x3F ∷ []) }
    ensures older { first_opening (0 ∷ 2 ∷ 0x81 ∷ 1 ∷ 0 ∷ 1 ∷ 0 ∷ 1 ∷ 7 ∷ []) false ≡
        Opened (record { width = 1; height = 1; grey = true; half = false; delay = 0 }) 2 (7 ∷ []) }
    ensures colours { first_opening (0 ∷ 100 ∷ 1 ∷ 2 ∷ 0 ∷ 10 ∷ 0 ∷ 7 ∷ 0x8A ∷ []) false ≡
        Opened (record { width = 10; height = 7; grey = false; half = false; delay = 10 }) 100 [] }
    ensures half { first_opening (0 ∷ 100 ∷ 1 ∷ 2 ∷ 0 ∷ 10 ∷ 0 ∷ 7 ∷ 0x0A ∷ []) false ≡
        Opened (record { width = 10; height = 7; grey = false; half = true; delay = 10 }) 100 [] }
    ensures open_byte { first_opening (0 ∷ []) false ≡ Short }
    ensures one_byte { first_opening (0 ∷ []) true ≡ Wrong fault.IwHeader }
    ensures serial { first_opening (1 ∷ 1 ∷ []) false ≡ Wrong fault.IwSerial }
    ensures version { first_opening (0 ∷ 1 ∷ 0x81 ∷ 3 ∷ []) false ≡ Wrong fault.IwVersion }
    ensures size_is_late { first_opening (0 ∷ 1 ∷ 0x81 ∷ 2 ∷ 0 ∷ 0 ∷ 0 ∷ 1 ∷ []) false ≡ Short }
    ensures no_width { first_opening (0 ∷ 1 ∷ 0x81 ∷ 2 ∷ 0 ∷ 0 ∷ 0 ∷ 1 ∷ 0 ∷ []) false ≡ Wrong fault.IwHeader }
    ensures large { first_opening (0 ∷ 1 ∷ 0x81 ∷ 2 ∷ 0 ∷ 11 ∷ 0 ∷ 10 ∷ 0 ∷ []) false ≡ Wrong fault.TooLarge }
{}

/// Samples of values, and colours.
pub fn worked_samples()
    ensures rounded { sample_of (pos 31) ≡ pos 0 }
    ensures up { sample_of (pos 32) ≡ pos 1 }
    ensures clipped { sample_of (pos 22528) ≡ pos 127 }
    ensures below { sample_of (negsuc 22527) ≡ negsuc 127 }
    ensures middle { grey (pos 0) ≡ record { red = 127; green = 127; blue = 127 } }
    ensures black { grey (pos 127) ≡ record { red = 0; green = 0; blue = 0 } }
    ensures white { grey (negsuc 127) ≡ record { red = 255; green = 255; blue = 255 } }
    ensures colours { colour (pos 10) (negsuc 4) (pos 20) ≡ record { red = 168; green = 125; blue = 130 } }
{}

/// Grey layers of one pixel and one slice: without a byte of ZP data its value is 0; with one a coefficient starts, and the
/// pixel is black or white. While bytes may come the layer needs more of them.
pub fn worked_grey_layers()
    ensures answer { (one_chunk (0 ∷ 1 ∷ 0x81 ∷ 2 ∷ 0 ∷ 1 ∷ 0 ∷ 1 ∷ 0 ∷ []) true).answer ≡ Done }
    ensures decisions { (one_chunk (0 ∷ 1 ∷ 0x81 ∷ 2 ∷ 0 ∷ 1 ∷ 0 ∷ 1 ∷ 0 ∷ []) true).layer.decisions ≡ 1 }
    ensures middle { (layer_picture (one_chunk (0 ∷ 1 ∷ 0x81 ∷ 2 ∷ 0 ∷ 1 ∷ 0 ∷ 1 ∷ 0 ∷ []) true).layer).samples ≡ 127 ∷ 127 ∷ 127 ∷ [] }
    ensures black { (layer_picture (one_chunk (0 ∷ 1 ∷ 0x81 ∷ 2 ∷ 0 ∷ 1 ∷ 0 ∷ 1 ∷ 0 ∷ 0x3F ∷ []) true).layer).samples ≡ 0 ∷ 0 ∷ 0 ∷ [] }
    ensures black_decisions { (one_chunk (0 ∷ 1 ∷ 0x81 ∷ 2 ∷ 0 ∷ 1 ∷ 0 ∷ 1 ∷ 0 ∷ 0x3F ∷ []) true).layer.decisions ≡ 3 }
    ensures white { (layer_picture (one_chunk (0 ∷ 1 ∷ 0x81 ∷ 2 ∷ 0 ∷ 1 ∷ 0 ∷ 1 ∷ 0 ∷ 0x1F ∷ []) true).layer).samples ≡ 255 ∷ 255 ∷ 255 ∷ [] }
    ensures pair { (layer_picture (one_chunk (0 ∷ 1 ∷ 0x81 ∷ 2 ∷ 0 ∷ 2 ∷ 0 ∷ 1 ∷ 0 ∷ 0x3F ∷ []) true).layer).samples ≡ 0 ∷ 0 ∷ 0 ∷ 0 ∷ 0 ∷ 0 ∷ [] }
    ensures needs { (one_chunk (0 ∷ 1 ∷ 0x81 ∷ 2 ∷ 0 ∷ 1 ∷ 0 ∷ 1 ∷ 0 ∷ 0x3F ∷ []) false).answer ≡ Need }
    ensures no_decision { (one_chunk (0 ∷ 1 ∷ 0x81 ∷ 2 ∷ 0 ∷ 1 ∷ 0 ∷ 1 ∷ 0 ∷ 0x3F ∷ []) false).layer.decisions ≡ 0 }
    ensures later_serial { (two_chunks (0 ∷ 1 ∷ 0x81 ∷ 2 ∷ 0 ∷ 1 ∷ 0 ∷ 1 ∷ 0 ∷ []) (0 ∷ 1 ∷ [])).answer ≡ Fault fault.IwSerial }
    ensures later_chunk { (two_chunks (0 ∷ 1 ∷ 0x81 ∷ 2 ∷ 0 ∷ 1 ∷ 0 ∷ 1 ∷ 0 ∷ []) (1 ∷ 10 ∷ 0x3F ∷ [])).layer.slices ≡ 11 }
{}

/// Sizes that are taken or not: one that isn't is refused once the last byte of the header is there, without a decision; but an
/// empty size and one above the limit come before.
pub fn worked_layer_sizes()
    ensures refused { (checked_chunk (0 ∷ 1 ∷ 0x81 ∷ 2 ∷ 0 ∷ 2 ∷ 0 ∷ 1 ∷ 0 ∷ []) true).answer ≡ Fault fault.LayerSize }
    ensures no_decision { (checked_chunk (0 ∷ 1 ∷ 0x81 ∷ 2 ∷ 0 ∷ 2 ∷ 0 ∷ 1 ∷ 0 ∷ 0x3F ∷ []) true).layer.decisions ≡ 0 }
    ensures late { (checked_chunk (0 ∷ 1 ∷ 0x81 ∷ 2 ∷ 0 ∷ 2 ∷ 0 ∷ 1 ∷ []) false).answer ≡ Need }
    ensures empty { (checked_chunk (0 ∷ 1 ∷ 0x81 ∷ 2 ∷ 0 ∷ 0 ∷ 0 ∷ 1 ∷ 0 ∷ []) true).answer ≡ Fault fault.IwHeader }
    ensures large { (checked_chunk (0 ∷ 1 ∷ 0x81 ∷ 2 ∷ 0 ∷ 11 ∷ 0 ∷ 10 ∷ 0 ∷ []) true).answer ≡ Fault fault.TooLarge }
    ensures taken { (checked_chunk (0 ∷ 1 ∷ 0x81 ∷ 2 ∷ 0 ∷ 1 ∷ 0 ∷ 1 ∷ 0 ∷ []) true).answer ≡ Done }
{}

/// Chunks of two slices: slice 1 reads nothing of a plane of one place, but with a delay of 1 both planes of chroma begin there.
/// And a chunk of 200 slices without a byte of ZP data is exhausted after 176 decisions.
pub fn worked_slices_of_chunks()
    ensures two { (one_chunk (0 ∷ 2 ∷ 0x81 ∷ 2 ∷ 0 ∷ 1 ∷ 0 ∷ 1 ∷ 0 ∷ []) true).layer.slices ≡ 2 }
    ensures two_decisions { (one_chunk (0 ∷ 2 ∷ 0x81 ∷ 2 ∷ 0 ∷ 1 ∷ 0 ∷ 1 ∷ 0 ∷ []) true).layer.decisions ≡ 1 }
    ensures chroma { (one_chunk (0 ∷ 2 ∷ 1 ∷ 2 ∷ 0 ∷ 1 ∷ 0 ∷ 1 ∷ 0x81 ∷ []) true).layer.decisions ≡ 3 }
    ensures exhausted { (one_chunk (0 ∷ 200 ∷ 0x81 ∷ 2 ∷ 0 ∷ 1 ∷ 0 ∷ 1 ∷ 0 ∷ []) true).answer ≡ Fault fault.ZpExhausted }
    ensures exhausted_decisions { (one_chunk (0 ∷ 200 ∷ 0x81 ∷ 2 ∷ 0 ∷ 1 ∷ 0 ∷ 1 ∷ 0 ∷ []) true).layer.decisions ≡ 176 }
{}

/// Layers of one pixel with colours, at full size and at half size: all three planes are 0.
pub fn worked_colour_layers()
    ensures decisions { (one_chunk (0 ∷ 1 ∷ 1 ∷ 2 ∷ 0 ∷ 1 ∷ 0 ∷ 1 ∷ 0x80 ∷ []) true).layer.decisions ≡ 3 }
    ensures full { (layer_picture (one_chunk (0 ∷ 1 ∷ 1 ∷ 2 ∷ 0 ∷ 1 ∷ 0 ∷ 1 ∷ 0x80 ∷ []) true).layer).samples ≡ 128 ∷ 128 ∷ 128 ∷ [] }
    ensures half_decisions { (one_chunk (0 ∷ 1 ∷ 1 ∷ 2 ∷ 0 ∷ 1 ∷ 0 ∷ 1 ∷ 0 ∷ []) true).layer.decisions ≡ 3 }
    ensures half { (layer_picture (one_chunk (0 ∷ 1 ∷ 1 ∷ 2 ∷ 0 ∷ 1 ∷ 0 ∷ 1 ∷ 0 ∷ []) true).layer).samples ≡ 128 ∷ 128 ∷ 128 ∷ [] }
    ensures delayed { (one_chunk (0 ∷ 1 ∷ 1 ∷ 2 ∷ 0 ∷ 1 ∷ 0 ∷ 1 ∷ 0x81 ∷ []) true).layer.decisions ≡ 1 }
{}
