//! The limits of a chunk of shapes and of what it draws. `specs/Limits.antt` has each under its name.

/// The most shapes of a chunk, those that it inherits among them.
pub(crate) const SHAPE_LIMIT: u32 = 65_536;

/// The most pixels of the shapes that a dictionary brings; a mask has the limit of a plane's area.
pub(crate) const DICTIONARY_PIXEL_LIMIT: u64 = 16_777_216;

/// The most placed shapes.
pub(crate) const PLACED_LIMIT: u32 = 262_144;

/// The most pixels in the placed shapes.
pub(crate) const PLACED_PIXEL_LIMIT: u64 = 1_073_741_824;
