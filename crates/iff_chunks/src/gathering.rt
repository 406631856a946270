//! Numbers and names of the container that arrive byte by byte.
ghost use Rattle.std.specs.Prelude.{◌≡◌, ◌+◌, ◌-◌, ◌++◌, ◌≤◌, [], length, take, min};
ghost use Rattle.byteorder.specs.Endian.{big_number};
ghost use Rattle.iff_chunks.specs.Gathering.{gathered};

use byteorder::{BigEndian, ByteOrder};

/// The first bytes of something of up to 8 bytes, as many as arrived.
#[derive(Clone, Copy, Debug, PartialEq, Eq)]
pub struct Gathered {
    bytes: [u8; 8],
    count: usize,
}

impl Gathered {
    /// Nothing arrived.
    pub fn new() -> Gathered
        ensures bytes { gathered result ≡ [] }
        ensures count { result.count ≡ 0 }
        ensures room { length result.bytes ≡ 8 }
    {
        Gathered {
            bytes: [0; 8],
            count: 0,
        }
    }

    /// How many bytes arrived.
    pub fn count(self) -> usize
        ensures { result ≡ self.count }
    {
        self.count
    }

    /// The bytes that arrived.
    pub fn bytes(&self) -> &[u8]
        requires { self.now.count ≤ 8 }
        ensures { result.now ≡ gathered self.now }
    {
        &self.bytes[..self.count]
    }

    /// Takes bytes of a piece until there are so many as wanted. Answers how many it took.
    pub fn fill(self, wanted: usize, piece: &[u8]) -> (Gathered, usize)
        requires some { self.count ≤ wanted }
        requires room { wanted ≤ 8 }
        requires eight { length self.bytes ≡ 8 }
        ensures bytes { gathered result.0 ≡ gathered self ++ take result.1 piece.now }
        ensures count { result.0.count ≡ self.count + result.1 }
        ensures room { length result.0.bytes ≡ 8 }
        ensures used { result.1 ≡ min (wanted - self.count) (length piece.now) }
    {
        let mut now = self;
        let mut used = 0;
        while now.count < wanted && used < piece.len() {
            now.bytes[now.count] = piece[used];
            now.count += 1;
            used += 1;
        }
        (now, used)
    }
}

/// The number in four bytes, the highest first.
pub fn number(bytes: &[u8]) -> u32
    requires { length bytes.now ≡ 4 }
    ensures { result ≡ big_number 4 bytes.now }
{
    BigEndian::read_u32(bytes)
}

/// Four bytes.
pub fn four(bytes: &[u8]) -> [u8; 4]
    requires { length bytes.now ≡ 4 }
    ensures { result ≡ bytes.now }
{
    let mut four = [0; 4];
    four.copy_from_slice(bytes);
    four
}
