//! How a piece of a file goes on with bytes that are wanted.
ghost use Rattle.std.specs.Prelude.{◌≡◌, ◌<◌, ◌≤◌, length};
ghost use Rattle.iff_chunks.specs.Start.{common_front};
ghost use Rattle.iff_chunks.specs.Matching.{Matches};

use crate::slices::rest_of;

/// How a piece goes on.
#[derive(Clone, Copy, Debug, PartialEq, Eq)]
pub enum Match {
    /// So many bytes of the piece are the rest of the wanted ones.
    Whole { used: usize },
    /// All of the piece is wanted, and so many wanted bytes are there with it, but not all.
    Part { matched: usize },
    /// The last of so many bytes of the piece isn't the wanted one.
    Differs { used: usize },
}

/// Goes on with the wanted bytes, of which so many are there.
pub fn match_on(wanted: &[u8], matched: usize, piece: &[u8]) -> Match
    requires { matched < length wanted.now }
    ensures { Matches wanted.now matched piece.now result }
{
    let rest = rest_of(wanted, matched);
    let common = common_front(rest, piece);
    if common == rest.len() {
        Match::Whole { used: common }
    } else if common == piece.len() {
        Match::Part {
            matched: matched + common,
        }
    } else {
        Match::Differs { used: common + 1 }
    }
}

/// How many bytes the two have in common at their fronts.
fn common_front(wanted: &[u8], bytes: &[u8]) -> usize
    ensures { result ≡ common_front wanted.now bytes.now }
{
    let mut common = 0;
    while common < wanted.len() && common < bytes.len() && wanted[common] == bytes[common] {
        common += 1;
    }
    common
}
