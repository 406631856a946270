//! What an included file gives to the files that include it.
ghost use Rattle.std.specs.Prelude.{◌≡◌};
ghost use Rattle.std.specs.Arc.{arc_value};

use crate::dictionary::Dictionary;
use djvu_base::{Fault, Share};
use std::alloc::AllocError;
use std::marker::Model;
use std::sync::Arc;

/// A dictionary that several files have. Contracts see it as the list of its shapes.
#[derive(Debug, Drop)]
pub struct SharedDictionary {
    inner: Arc<Dictionary>,
}

impl Model for SharedDictionary {
    ghost use Rattle.std.specs.Prelude.{List};
    ghost use Rattle.std.specs.Arc.{arc_value};
    ghost use Rattle.bit_plane.specs.Pixels.{Pixels};

    ghost Value = { List Pixels };

    ghost view = { λ a. arc_value a.inner };
}

impl SharedDictionary {
    /// A first owner's.
    pub fn new(dictionary: Arc<Dictionary>) -> SharedDictionary
        ensures { result ≡ arc_value dictionary }
    {
        SharedDictionary { inner: dictionary }
    }

    /// The dictionary, which `MaskReader::new` and `DictReader::new` take a share of.
    pub fn dictionary(&self) -> &Arc<Dictionary>
        ensures { arc_value result.now ≡ self.now }
    {
        &self.inner
    }
}

impl Share for SharedDictionary {
    fn share(&self) -> Result<SharedDictionary, AllocError> {
        Ok(SharedDictionary {
            inner: self.inner.clone()?,
        })
    }
}

/// What decoding an included file came to.
#[derive(Debug, Drop)]
pub enum FileResult {
    /// Its own dictionary, or else that of its first include that has one.
    Dictionary(SharedDictionary),
    /// It has no dictionary.
    Nothing,
    /// It is refused.
    Refused(Fault),
    /// There was no memory.
    NoMemory,
}

impl Share for FileResult {
    fn share(&self) -> Result<FileResult, AllocError> {
        Ok(match self {
            FileResult::Dictionary(dictionary) => FileResult::Dictionary(dictionary.share()?),
            FileResult::Nothing => FileResult::Nothing,
            FileResult::Refused(fault) => FileResult::Refused(*fault),
            FileResult::NoMemory => FileResult::NoMemory,
        })
    }
}
