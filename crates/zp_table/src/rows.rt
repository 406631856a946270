//! Rows of state tables.

/// One row of a state table: how probable the less probable bit is, and where a context goes on after a decision. The
/// state of a context is the number of a row, and its lowest bit is the more probable one (DjVu 3 reference, ZP-Coder).
#[derive(Clone, Copy, Debug, PartialEq, Eq)]
pub struct Row {
    /// The share of the interval for the less probable bit, from 1 to 8000 hexadecimal.
    pub p: u16,
    /// From this start of the interval on, a more probable bit may change the state.
    pub m: u16,
    /// The next state after such a more probable bit.
    pub up: u8,
    /// The next state after a less probable bit.
    pub dn: u8,
}
