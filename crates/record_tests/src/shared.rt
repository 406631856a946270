//! What several tests need.
use bit_plane::Plane;

/// Whether a plane has these rows, from the top row down.
pub fn has_rows(plane: &Plane, rows: &[&str]) -> bool {
    let mut y = 0i64;
    for row in rows.iter().rev() {
        let mut x = 0i64;
        for digit in row.bytes() {
            if plane.get(x, y) != (digit == b'#') {
                return false;
            }
            x = x.saturating_add(1);
        }
        y = y.saturating_add(1);
    }
    true
}
