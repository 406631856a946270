//! Pieces of files, and bytes that several owners hold.
ghost use Rattle.std.specs.Prelude.{◌≡◌, IfOk, IfErr};
ghost use Rattle.data_pool.specs.Pieces.{is_end};

use djvu_base::{Items, Share};
use std::alloc::{AllocError, Global};
use std::marker::Model;
use std::sync::Arc;

/// Bytes that several owners hold. Contracts see them as the list of bytes.
#[derive(Debug, Drop)]
pub struct SharedBytes {
    owned: Arc<Items<u8>>,
}

impl Model for SharedBytes {
    ghost use Rattle.std.specs.Prelude.{List, ℕ};
    ghost use Rattle.std.specs.Arc.{arc_value};

    ghost Value = { List ℕ };

    ghost view = { λ a. arc_value a.owned };
}

impl SharedBytes {
    /// These bytes, which aren't copied. Where there is no memory for the count of their owners, they come back.
    pub fn new(alloc: Global, bytes: Vec<u8>) -> Result<SharedBytes, Vec<u8>>
        ensures shared { IfOk result (λ all. all ≡ bytes.items) }
        ensures back { IfErr result (λ back. back.items ≡ bytes.items) }
    {
        match Arc::new(alloc, Items::of(bytes)) {
            Ok(owned) => Ok(SharedBytes { owned }),
            Err(failed) => Err(failed.value.into_vec()),
        }
    }

    /// All bytes, in order.
    pub fn slice(&self) -> &[u8]
        ensures { result.now ≡ self.now }
    {
        self.owned.slice()
    }
}

impl Share for SharedBytes {
    fn share(&self) -> Result<SharedBytes, AllocError> {
        let owned = Arc::try_clone(&self.owned)?;
        Ok(SharedBytes { owned })
    }
}

/// What stands at a place of a file.
#[derive(Debug, Drop)]
pub enum Piece {
    /// The next bytes of the file.
    Bytes(SharedBytes),
    /// The file ends here.
    End,
    /// Reading the file failed here.
    Broken,
    /// There was no memory to read on.
    NoMemory,
}

impl Piece {
    /// Whether no piece comes after it.
    pub fn is_end(&self) -> bool
        ensures { result ≡ is_end self.now }
    {
        match self {
            Piece::Bytes(_) => false,
            Piece::End => true,
            Piece::Broken => true,
            Piece::NoMemory => true,
        }
    }
}

impl Share for Piece {
    ghost use Rattle.data_pool.specs.Pieces.{may_stand};

    ghost fits = { may_stand };

    fn share(&self) -> Result<Piece, AllocError> {
        match self {
            Piece::Bytes(bytes) => {
                let bytes = bytes.share()?;
                Ok(Piece::Bytes(bytes))
            }
            Piece::End => Ok(Piece::End),
            Piece::Broken => Ok(Piece::Broken),
            Piece::NoMemory => Ok(Piece::NoMemory),
        }
    }
}
