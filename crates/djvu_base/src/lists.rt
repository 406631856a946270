//! Lists inside other values.
ghost use Rattle.std.specs.Prelude.{◌≡◌};

use std::marker::Model;

/// A `Vec` that contracts see as the list of its items. It stands where a value that contracts compare holds a list.
#[derive(Debug, Drop)]
pub struct Items<T> {
    list: Vec<T>,
}

impl<T> Model for Items<T> {
    ghost use Rattle.std.specs.Prelude.{List};

    ghost Value = { List T };

    ghost view = { λ a. a.list.items };
}

impl<T> Items<T> {
    /// The items of a `Vec`, in its order. Takes no memory.
    pub fn of(list: Vec<T>) -> Items<T>
        ensures { result ≡ list.items }
    {
        Items { list }
    }

    /// All items, in order.
    pub fn slice(&self) -> &[T]
        ensures { result.now ≡ self.now }
    {
        self.list.as_slice()
    }

    /// The `Vec` of the items, in order. Takes no memory.
    pub fn into_vec(self) -> Vec<T>
        ensures { result.items ≡ self }
    {
        self.list
    }
}
