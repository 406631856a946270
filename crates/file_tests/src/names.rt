//! Names of files in their order.
ghost use Rattle.std.specs.Prelude.{◌≡◌};
ghost use Rattle.djvu_base.specs.Name.{is_ascending};

use djvu_base::Name;

/// Whether these names ascend.
pub fn ascend(names: &[Name]) -> bool
    ensures { result ≡ is_ascending names.now }
{
    let Some((first, others)) = names.split_first() else {
        return true;
    };
    let Some((next, _)) = others.split_first() else {
        return true;
    };
    first.bytes().cmp(next.bytes()).is_lt() && ascend(others)
}
