//! Names of files.
ghost use Rattle.std.specs.Prelude.{◌≡◌, IfOk, IfSome, is_some};
ghost use Rattle.std.specs.List.{list_all};
ghost use Rattle.std.specs.Str.{is_utf8};
ghost use Rattle.djvu_base.specs.Name.{IsName, is_name, is_plain_byte, is_dots, has_name_length, is_listed};

use std::alloc::{AllocError, Global};
use std::marker::Model;

/// A name of a file: 1 to 255 bytes of UTF-8, without `/` and without bytes below 20 hexadecimal, and neither `.` nor
/// `..`. Contracts see it as its bytes.
#[derive(Debug, Drop)]
pub struct Name {
    text: Vec<u8>,
}

impl Model for Name {
    ghost use Rattle.std.specs.Prelude.{List, ℕ};
    ghost use Rattle.djvu_base.specs.Name.{IsName};

    ghost Value = { List ℕ };

    ghost view = { λ a. a.text.items };

    ghost invariant = { λ a. IsName a.text.items };
}

impl Name {
    /// The name that these bytes are, or `None` exactly where they are no name.
    pub fn read(alloc: Global, bytes: &[u8]) -> Result<Option<Name>, AllocError>
        ensures found { IfOk result (λ found. is_some found ≡ is_name bytes.now) }
        ensures same { IfOk result (λ found. IfSome found (λ name. name ≡ bytes.now)) }
    {
        if !is_name(bytes) {
            return Ok(None);
        }
        let text = Vec::from_slice(alloc, bytes)?;
        Ok(Some(Name { text }))
    }

    /// The bytes of the name.
    pub fn bytes(&self) -> &[u8]
        ensures bytes { result.now ≡ self.now }
        ensures valid { IsName self.now }
    {
        self.text.as_slice()
    }

    /// A name with the same bytes.
    pub fn copy(&self, alloc: Global) -> Result<Name, AllocError>
        ensures { IfOk result (λ name. name ≡ self.now) }
    {
        let text = Vec::from_slice(alloc, self.text.as_slice())?;
        Ok(Name { text })
    }
}

/// Whether the list has a name of these bytes.
pub fn is_listed(names: &[Name], name: &[u8]) -> bool
    ensures { result ≡ is_listed names.now name.now }
{
    names.iter().any(|listed| name == listed.bytes())
}

fn is_name(bytes: &[u8]) -> bool
    ensures { result ≡ is_name bytes.now }
{
    has_name_length(bytes) && all_plain(bytes) && !is_dots(bytes) && is_utf8(bytes)
}

fn has_name_length(bytes: &[u8]) -> bool
    ensures { result ≡ has_name_length bytes.now }
{
    1 <= bytes.len() && bytes.len() <= 255
}

fn all_plain(bytes: &[u8]) -> bool
    ensures { result ≡ list_all is_plain_byte bytes.now }
{
    bytes.iter().all(|byte| 0x20 <= *byte && *byte != b'/')
}

fn is_dots(bytes: &[u8]) -> bool
    ensures { result ≡ is_dots bytes.now }
{
    bytes == b".".as_slice() || bytes == b"..".as_slice()
}

fn is_utf8(bytes: &[u8]) -> bool
    ensures { result ≡ is_utf8 bytes.now }
{
    match std::str::from_utf8(bytes) {
        Ok(_) => true,
        Err(_) => false,
    }
}
