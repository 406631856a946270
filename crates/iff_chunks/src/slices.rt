//! Parts of slices.
ghost use Rattle.std.specs.Prelude.{◌≡◌, ◌≤◌, length, take, drop};

/// The first bytes, this many.
pub fn first(bytes: &[u8], count: usize) -> &[u8]
    requires { count ≤ length bytes.now }
    ensures { result.now ≡ take count bytes.now }
{
    &bytes[..count]
}

/// The bytes after this many.
pub fn rest_of(bytes: &[u8], passed: usize) -> &[u8]
    requires { passed ≤ length bytes.now }
    ensures { result.now ≡ drop passed bytes.now }
{
    &bytes[passed..]
}
