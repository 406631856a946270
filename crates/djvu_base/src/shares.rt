//! Values that several owners hold.
ghost use Rattle.std.specs.Prelude.{◌≡◌, ℕ, IfOk};

use std::alloc::AllocError;

/// A value that is put once where many can see it, and that each who sees it gets a share of.
pub trait Share {
    /// What a value has to be to stand at a place of its number. A type that says nothing may stand everywhere.
    ghost fits: { ℕ → Self → Type 0 } = { λ _ _. Unit {0} };

    /// A value with equal data. Plain fields are copied, and each `Arc` gets a further owner, which can be refused for
    /// want of memory.
    fn share(&self) -> Result<Self, AllocError>
        ensures { IfOk result (λ copy. copy ≡ self.now) };
}

impl Share for u64 {
    fn share(&self) -> Result<u64, AllocError> {
        Ok(*self)
    }
}
