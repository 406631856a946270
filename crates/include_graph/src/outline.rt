//! Outlines of included files.

use djvu_base::{FaultKind, Items, Name};

/// One item of an outline.
#[derive(Debug, Drop)]
pub enum OutlineItem {
    /// The file includes the file of this name, by the `INCL` at this offset.
    Include { name: Name, offset: u32 },
    /// The file has a fault of form: its kind, and its offset in the file. No item comes after it.
    Broken { kind: FaultKind, offset: u32 },
}

/// The includes of a file in order, up to its first fault of form.
#[derive(Debug, Drop)]
pub struct Outline {
    pub items: Items<OutlineItem>,
}
