//! Names of a folder, and the numbers of pages among them.
ghost use Rattle.std.specs.Prelude.{◌≡◌, ◌<◌, ◌^◌, length, IfOk};
ghost use Rattle.viewer_run.specs.Plan.{number_of, numbers_of};

use djvu_base::Name;
use std::alloc::{AllocError, Global};

/// The same names once more.
pub fn copy_names(alloc: Global, names: &[Name]) -> Result<Vec<Name>, AllocError>
    ensures { IfOk result (λ copies. copies.items ≡ names.now) }
{
    let mut copies = Vec::new(alloc);
    for name in names {
        copies.push(name.copy(alloc)?)?;
    }
    Ok(copies)
}

/// The numbers of these pages among the names.
pub fn numbers_of(alloc: Global, names: &[Name], pages: &[Name]) -> Result<Vec<u32>, AllocError>
    requires { length names.now < 2 ^ 32 }
    ensures { IfOk result (λ numbers. numbers.items ≡ numbers_of names.now pages.now) }
{
    let mut numbers = Vec::new(alloc);
    for page in pages {
        numbers.push(number_of(names, page))?;
    }
    Ok(numbers)
}

/// The number of a name among these, or how many they are where it isn't there.
fn number_of(names: &[Name], page: &Name) -> u32
    requires { length names.now < 2 ^ 32 }
    ensures { result ≡ number_of names.now page.now }
{
    let mut number = 0;
    for name in names {
        if page.bytes() == name.bytes() {
            return number;
        }
        number += 1;
    }
    number
}
