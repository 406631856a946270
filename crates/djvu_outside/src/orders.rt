//! The order of names.
ghost use Rattle.std.specs.Prelude.{◌≡◌, ◌<◌, ◌+◌, length, slice_index_or, []};
ghost use Rattle.djvu_base.specs.Name.{is_ascending, is_before};

use djvu_base::Name;

/// Whether each name stands before the next.
pub fn is_ascending(names: &[Name]) -> bool
    ensures { result ≡ is_ascending names.now }
{
    for index in 0..names.len().saturating_sub(1) {
        if !is_before_next(names, index) {
            return false;
        }
    }
    true
}

fn is_before_next(names: &[Name], index: usize) -> bool
    requires { index + 1 < length names.now }
    ensures { result ≡ is_before (slice_index_or names.now index []) (slice_index_or names.now (index + 1) []) }
{
    is_before(&names[index], &names[index + 1])
}

fn is_before(name: &Name, other: &Name) -> bool
    ensures { result ≡ is_before name.now other.now }
{
    name.bytes().cmp(other.bytes()).is_lt()
}
