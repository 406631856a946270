//! The numbers that a grid may hold.
ghost use Rattle.std.specs.Prelude.{◌≡◌, ℕ, ◌-◌, ◌^◌, ◌≤◌, ℤ, unsigned_abs};

/// A whole number of a fixed width.
pub trait Number: Copy {
    /// The number itself.
    ghost value: { Self → ℤ };

    /// Every number that isn't larger in size can be held.
    ghost limit: { ℕ };

    /// The same in 64 bits.
    fn wide(self) -> i64
        ensures { result ≡ value self };

    /// The same in this width.
    fn narrow(number: i64) -> Self
        requires { unsigned_abs number ≤ limit }
        ensures { value result ≡ number };
}

impl Number for i64 {
    ghost value = { λ n. n };

    ghost limit = { 2 ^ 63 };

    fn wide(self) -> i64 {
        self
    }

    fn narrow(number: i64) -> i64 {
        number
    }
}

impl Number for i32 {
    ghost value = { λ n. n };

    ghost limit = { 2 ^ 31 - 1 };

    fn wide(self) -> i64 {
        self.into()
    }

    fn narrow(number: i64) -> i32 {
        number as i32
    }
}
