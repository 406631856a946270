//! Whose a place is, and the owners of boards whose places are rows or all free.
ghost use Rattle.std.specs.Prelude.{◌≡◌, ℕ, ◌*◌, ◌^◌, ◌<◌, length, IfOk};
ghost use Rattle.once_board.specs.Places.{IsFree};
ghost use Rattle.once_board.specs.Rows.{IsLaid, rows_in_turn};

use std::alloc::{AllocError, Global};

/// Who may claim a place.
#[derive(Clone, Copy, Debug, PartialEq, Eq)]
pub enum Owner {
    /// Any seat.
    Free,
    /// Only a seat that holds this right.
    Private(u32),
}

/// The owners of so many rows of one width, row after row. Row r is private to the right r % rights.
pub fn row_owners(
    alloc: Global,
    count: u32,
    width: u32,
    rights: u32,
) -> Result<Vec<Owner>, AllocError>
    requires few { count * width < 2 ^ 32 }
    requires wide { 0 < width }
    requires shared { 0 < rights }
    ensures { IfOk result (λ owners. IsLaid (rows_in_turn count width rights) owners.items) }
{
    let mut owners = Vec::new(alloc);
    for place in 0..count * width {
        owners.push(Owner::Private(place / width % rights))?;
    }
    Ok(owners)
}

/// The owners of so many places that are all free.
pub fn free_owners(alloc: Global, count: u32) -> Result<Vec<Owner>, AllocError>
    ensures long { IfOk result (λ owners. length owners.items ≡ count) }
    ensures free { IfOk result (λ owners. (place : ℕ) → IsFree owners.items place) }
{
    let owners = vec![in alloc; Owner::Free; count as usize]?;
    Ok(owners)
}
