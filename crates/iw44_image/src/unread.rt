//! The bytes of a chunk that its decoder hasn't taken yet, which takes few of them at a time.
ghost use Rattle.std.specs.Prelude.{◌≡◌, ◌+◌, ◌<◌, ◌≤◌, ℕ, List, [], ◌++◌, drop, length, true, false, Option, OnOk, OnErr};
ghost use Rattle.zp_decoder.specs.Decision.{Interval};
ghost use Rattle.zp_decoder.specs.Decoder.{Fed, bytes_wanted, is_all};
ghost use Rattle.iw44_image.specs.Offering.{TakesMore};

use std::alloc::{AllocError, Global};
use std::marker::Model;
use zp_decoder::ZpDecoder;

/// Bytes that arrived, and weren't taken.
#[derive(Debug, Drop)]
pub(crate) struct Unread {
    bytes: Vec<u8>,
    /// So many of these were taken.
    taken: usize,
}

impl Model for Unread {
    ghost use Rattle.std.specs.Prelude.{ℕ, List, drop, length, ◌≤◌};

    ghost Value = { List ℕ };

    ghost view = { λ a. drop a.taken a.bytes.items };

    ghost invariant = { λ a. a.taken ≤ length a.bytes.items };
}

impl Unread {
    /// No bytes.
    pub fn new(alloc: Global) -> Unread
        ensures { result ≡ [] }
    {
        Unread {
            bytes: Vec::new(alloc),
            taken: 0,
        }
    }

    /// Adds the next bytes. Where there is no memory for them, nothing changes.
    pub fn push(&mut self, piece: &[u8]) -> Result<(), AllocError>
        ensures ok { OnOk result (self.new ≡ self.old ++ piece.now) }
        ensures err { OnErr result (self.new ≡ self.old) }
    {
        if self.taken == self.bytes.len() {
            self.clear();
        }
        self.bytes.extend_from_slice(piece)
    }

    /// Forgets all bytes.
    pub fn clear(&mut self)
        ensures { self.new ≡ [] }
    {
        self.bytes.clear();
        self.taken = 0;
    }

    /// What is left.
    pub fn left(&self) -> &[u8]
        ensures { result.now ≡ self.now }
    {
        behind(self.bytes.as_slice(), self.taken)
    }

    /// So many bytes are taken.
    pub fn skip(&mut self, count: usize)
        requires { count ≤ length self.old }
        ensures { self.new ≡ drop count self.old }
    {
        self.taken += count;
    }

    /// Offers what is left to the decoder, and tells it the end once nothing is: whether it took any.
    pub fn offer(&mut self, zp: &mut ZpDecoder, is_whole: bool) -> bool
        requires { zp.old.ended ≡ is_all self.old is_whole }
        ensures takes { TakesMore self.old self.new zp.old zp.new }
        ensures fewer { result ≡ true → length self.new < length self.old }
        ensures all { result ≡ false → (taken : List ℕ) (place : Option Interval) → Fed taken place zp.old → 0 < bytes_wanted taken place → self.old ≡ [] }
        ensures told { zp.new.ended ≡ is_all self.new is_whole }
        ensures kept { result ≡ false → self.new ≡ self.old }
        ensures stays { result ≡ false → (payload : List ℕ) (place : Option Interval) → Fed payload place zp.old → Fed payload place zp.new }
    {
        zp.was_fed();
        if self.left().is_empty() {
            return false;
        }
        let count = zp.push(self.left());
        if count == 0 {
            return false;
        }
        self.skip(count);
        finish(zp, is_all(self.left(), is_whole));
        zp.was_fed();
        true
    }
}

/// The bytes behind so many.
fn behind(bytes: &[u8], count: usize) -> &[u8]
    requires { count ≤ length bytes.now }
    ensures { result.now ≡ drop count bytes.now }
{
    &bytes[count..]
}

/// Whether the decoder took the whole chunk, where these bytes are left.
pub(crate) fn is_all(left: &[u8], is_whole: bool) -> bool
    ensures { result ≡ is_all left.now is_whole }
{
    is_whole && left.is_empty()
}

/// Tells a decoder the end, where its chunk ended.
pub(crate) fn finish(zp: &mut ZpDecoder, is_whole: bool)
    requires { zp.old.ended ≡ false }
    ensures fed { (payload : List ℕ) (place : Option Interval) → Fed payload place zp.old → Fed payload place zp.new }
    ensures table { zp.new.table ≡ zp.old.table }
    ensures ended { zp.new.ended ≡ is_whole }
{
    if is_whole {
        zp.end();
    }
}
