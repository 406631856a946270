//! Laws of the definitions, and worked values: each is a clause of a function that does nothing.
ghost use Rattle.std.specs.Prelude.{◌≡◌, ◌≢◌, ℕ, ◌+◌, ◌*◌, ◌/◌, ◌≤◌, Bool, true, false, pos, negsuc, List, [], ◌∷◌, ◌++◌, length, Some};
ghost use Rattle.zp_table.specs.declared.rows.Row.{Row};
ghost use Rattle.zp_table.specs.Listing.{flat_rows};
ghost use Rattle.zp_decoder.specs.Chunk.{Chunk, chunk, IsReady};
ghost use Rattle.zp_decoder.specs.Decision.{interval};
ghost use Rattle.zp_decoder.specs.Runs.{room};
ghost use Rattle.zp_decoder.specs.States.{fresh};
ghost use Rattle.iw44_blocks.specs.Plane.{Plane, IsSmall, coefficient, zero_plane};
ghost use Rattle.iw44_slices.specs.declared.steps.SliceStep.TheVariants as step;
ghost use Rattle.iw44_slices.specs.Bands.{threshold};
ghost use Rattle.iw44_slices.specs.Slice.{Course, Ended, start_size, raised, slice_course};
ghost use Rattle.iw44_slices.specs.Reading.{At, standing, plane_of, read_on, read_slice};
ghost use Rattle.iw44_slices.specs.Sizes.{AreDue};
ghost use Rattle.iw44_slices.specs.Reader.{Reader, Stands};
ghost use Rattle.iw44_slices.specs.Contexts.{Root, Bucket, Start, Mantissa};
ghost use Rattle.iw44_slices.specs.Worked.{first_slice, two_slices, djvu_pair, root_alone};

/// After 200 slices no threshold is in use, so that a plane reads nothing.
pub fn slices_end()
    ensures { (slice : ℕ) (plane : Plane) → 200 ≤ slice → slice_course slice plane ≡ Ended plane }
{}

/// Ten slices later a coefficient's threshold is half as large.
pub fn thresholds_are_halved()
    ensures { (slice index : ℕ) → threshold (slice + 10) index ≡ threshold slice index / 2 }
{}

/// However the bytes are cut, the reading is the same: what was left where the bytes ended is read on with more bytes, as
/// if all had been there before; and what was read whole stays. While bytes may
/// come nothing is exhausted.
pub fn readings_grow()
    ensures goes_on { (rows : List Row) (payload more : List ℕ) (ended : Bool) (course : Course) (at : At) → IsReady (chunk rows payload false) at.states at.place →
        read_on (chunk rows (payload ++ more) ended) (read_on (chunk rows payload false) course at).left (read_on (chunk rows payload false) course at).at
        ≡ read_on (chunk rows (payload ++ more) ended) course at }
    ensures whole { (rows : List Row) (payload more : List ℕ) (ended : Bool) (course : Course) (at : At) → IsReady (chunk rows payload false) at.states at.place →
        (read_on (chunk rows payload false) course at).answer ≡ step.SliceEnd → read_on (chunk rows (payload ++ more) ended) course at ≡ read_on (chunk rows payload false) course at }
    ensures open_end { (rows : List Row) (payload : List ℕ) (course : Course) (at : At) → (read_on (chunk rows payload false) course at).answer ≢ step.Exhausted }
{}

/// A reading leaves states and a place that can be read on from, and room for so many decisions fewer. A chunk has room for
/// 32,768 decisions for each bit of its payload and 177 bits more.
pub fn decisions_are_bounded()
    ensures ready { (from : Chunk) (course : Course) (at : At) → IsReady from at.states at.place → IsReady from (read_on from course at).at.states (read_on from course at).at.place }
    ensures room { (from : Chunk) (course : Course) (at : At) → IsReady from at.states at.place →
        room from.payload (read_on from course at).at.place + (read_on from course at).at.decisions ≤ room from.payload at.place + at.decisions }
    ensures grows { (from : Chunk) (course : Course) (at : At) → IsReady from at.states at.place → at.decisions ≤ (read_on from course at).at.decisions }
{}

/// No coefficient ever is above 32,767 in size, in the middle of a slice neither. `AreDue` is what slices keep to: a new
/// plane does, and a plane that does so before a slice does after it.
pub fn sizes_stay_small()
    ensures new { (width height : ℕ) → AreDue 0 (zero_plane width height) }
    ensures after { (slice : ℕ) (plane : Plane) (from : Chunk) (at : At) → AreDue slice plane → (read_slice from slice plane at).answer ≡ step.SliceEnd →
        AreDue (slice + 1) (plane_of (read_slice from slice plane at).left) }
    ensures small { (slice : ℕ) (plane : Plane) → AreDue slice plane → IsSmall 32767 plane }
    ensures partly { (slice : ℕ) (plane : Plane) (from : Chunk) (at : At) → AreDue slice plane → IsSmall 32767 (plane_of (read_slice from slice plane at).left) }
{}

/// What is left of a slice tells the coefficients as they are: a whole slice, and the rest of one that a reader has left.
/// These are small, so their grid can be lifted in the middle of a slice.
pub fn courses_tell_coefficients()
    ensures whole { (slice : ℕ) (plane : Plane) → plane_of (slice_course slice plane) ≡ plane }
    ensures rest { (slice : ℕ) (course : Course) (plane : Plane) (reader : Reader) → Stands slice course plane reader → plane_of course ≡ plane }
    ensures small { (slice : ℕ) (course : Course) (plane : Plane) (reader : Reader) → Stands slice course plane reader → IsSmall 32767 plane }
{}

/// Thresholds of coefficients, and the sizes that they lead to.
pub fn worked_sizes()
    ensures first { threshold 0 0 ≡ 0x4000 }
    ensures later { threshold 13 200 ≡ 0x20000 }
    ensures last { threshold 199 1023 ≡ 1 }
    ensures start { start_size 0x4000 ≡ 22528 }
    ensures up { raised 8192 22528 true ≡ 28672 }
    ensures down { raised 8192 22528 false ≡ 20480 }
    ensures large { raised 2048 28672 true ≡ 29696 }
{}

/// The first slice of a plane of one place, with the table `flat`: without a byte it has one decision, and with one byte a
/// coefficient starts, above or below 0. While bytes may come a decision needs 32 bits behind those that were shifted in,
/// and with all bytes there at most 192 bits past their end are in use.
pub fn worked_slices()
    ensures empty { (first_slice [] true).answer ≡ step.SliceEnd }
    ensures empty_decisions { (first_slice [] true).at.decisions ≡ 1 }
    ensures positive { coefficient (plane_of (first_slice (0x3F ∷ []) true).left) 0 0 ≡ pos 22528 }
    ensures negative { coefficient (plane_of (first_slice (0x1F ∷ []) true).left) 0 0 ≡ negsuc 22527 }
    ensures decisions { (first_slice (0x1F ∷ []) true).at.decisions ≡ 3 }
    ensures needs { (first_slice (0x3F ∷ 0 ∷ 0 ∷ 0 ∷ []) false).answer ≡ step.NeedBytes }
    ensures needs_decisions { (first_slice (0x3F ∷ 0 ∷ 0 ∷ 0 ∷ []) false).at.decisions ≡ 1 }
    ensures exhausted { (read_slice (chunk flat_rows [] true) 0 (zero_plane 1 1) (standing fresh (Some (interval 0 0xFFFF 176)) 176)).answer ≡ step.Exhausted }
{}

/// Two slices of band 0. The bits of the byte are 0010 1010. In the first slice the bucket is chosen, and coefficient 0
/// starts above 0. In the second coefficients 1 and 2 are unknown, with 4000 hexadecimal as their threshold: the bucket is
/// chosen, 1 doesn't start, 2 does, above 0; and then coefficient 0 is raised, by 1800 hexadecimal.
pub fn worked_pair()
    ensures answer { (two_slices (0x2A ∷ []) true).answer ≡ step.SliceEnd }
    ensures raised { coefficient (plane_of (two_slices (0x2A ∷ []) true).left) 0 0 ≡ pos 28672 }
    ensures unknown { coefficient (plane_of (two_slices (0x2A ∷ []) true).left) 0 1 ≡ pos 0 }
    ensures started { coefficient (plane_of (two_slices (0x2A ∷ []) true).left) 0 2 ≡ pos 22528 }
    ensures decisions { (two_slices (0x2A ∷ []) true).at.decisions ≡ 8 }
{}

/// Two slices with the table `djvu`, worked out by another program after `docs/iw44.md`. Its rows tell contexts from each
/// other, and from the IW form: in the second slice coefficient 0 is raised in the mantissa context.
pub fn worked_contexts()
    ensures answer { djvu_pair.answer ≡ step.SliceEnd }
    ensures decisions { djvu_pair.at.decisions ≡ 8 }
    ensures raised { coefficient (plane_of djvu_pair.left) 0 0 ≡ negsuc 28671 }
    ensures started { coefficient (plane_of djvu_pair.left) 0 1 ≡ pos 22528 }
    ensures unknown { coefficient (plane_of djvu_pair.left) 0 2 ≡ pos 0 }
    ensures bucket { djvu_pair.at.states (Bucket 0 0) ≡ 145 }
    ensures active_band { djvu_pair.at.states (Bucket 0 4) ≡ 145 }
    ensures alone { djvu_pair.at.states (Start 1) ≡ 145 }
    ensures two_left { djvu_pair.at.states (Start 10) ≡ 145 }
    ensures after_a_start { djvu_pair.at.states (Start 8) ≡ 84 }
    ensures mantissa { djvu_pair.at.states Mantissa ≡ 145 }
    ensures place { djvu_pair.at.place ≡ Some (interval 0 0x6EFF 8) }
{}

/// The first slice of band 7 in which a threshold is in use, with an empty chunk: its root decision is 0, and no other
/// context moves.
pub fn worked_roots()
    ensures answer { root_alone.answer ≡ step.SliceEnd }
    ensures decisions { root_alone.at.decisions ≡ 1 }
    ensures root { root_alone.at.states Root ≡ 84 }
    ensures bucket { root_alone.at.states (Bucket 7 0) ≡ 0 }
{}
