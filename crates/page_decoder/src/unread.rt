//! The bytes of a page that its reader hasn't used yet.
ghost use Rattle.std.specs.Prelude.{◌≡◌, ◌≤◌, [], ◌++◌, drop, length, OnOk, OnErr};

use std::alloc::{AllocError, Global};
use std::marker::Model;

/// Bytes that came and weren't used. Contracts see it as the list of these.
#[derive(Debug, Drop)]
pub(crate) struct Unread {
    bytes: Vec<u8>,
    /// So many of them were used.
    used: usize,
}

impl Model for Unread {
    ghost use Rattle.std.specs.Prelude.{List, ℕ, drop, length, ◌≤◌};

    ghost Value = { List ℕ };

    ghost view = { λ a. drop a.used a.bytes.items };

    ghost invariant = { λ a. a.used ≤ length a.bytes.items };
}

impl Unread {
    /// No byte came.
    pub(crate) fn new(alloc: Global) -> Unread
        ensures { result ≡ [] }
    {
        Unread {
            bytes: Vec::new(alloc),
            used: 0,
        }
    }

    /// All of them.
    pub(crate) fn bytes(&self) -> &[u8]
        ensures { result.now ≡ self.now }
    {
        behind(self.bytes.as_slice(), self.used)
    }

    /// Keeps further bytes. Those that were used are let go once they are as many as the others. Where there is no memory, nothing
    /// changes.
    pub(crate) fn push(&mut self, piece: &[u8]) -> Result<(), AllocError>
        ensures ok { OnOk result (self.new ≡ self.old ++ piece.now) }
        ensures err { OnErr result (self.new ≡ self.old) }
    {
        if self.used >= self.bytes.len() - self.used {
            drop_front(&mut self.bytes, self.used);
            self.used = 0;
        }
        self.bytes.extend_from_slice(piece)
    }

    /// So many of them were used.
    pub(crate) fn forget(&mut self, count: usize)
        requires { count ≤ length self.old }
        ensures { self.new ≡ drop count self.old }
    {
        self.used += count;
    }
}

/// Lets the first bytes go.
fn drop_front(bytes: &mut Vec<u8>, count: usize)
    requires { count ≤ length bytes.old.items }
    ensures { bytes.new.items ≡ drop count bytes.old.items }
{
    drop(bytes.drain(..count));
}

/// The bytes behind so many.
fn behind(bytes: &[u8], count: usize) -> &[u8]
    requires { count ≤ length bytes.now }
    ensures { result.now ≡ drop count bytes.now }
{
    &bytes[count..]
}
