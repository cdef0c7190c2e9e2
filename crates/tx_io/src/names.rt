//! Which names files may have, and the paths that they are.
ghost use Rattle.std.specs.Prelude.{◌≡◌};
ghost use Rattle.std.specs.List.{list_all};
ghost use Rattle.tx_io.specs.Names.{is_name, is_visible};

use std::io::{self, ErrorKind};
use std::str;

fn are_visible(bytes: &[u8]) -> bool
    ensures { result ≡ list_all is_visible bytes.now }
{
    bytes.iter().all(|c| 33 <= *c && *c <= 126)
}

/// Whether a file may have this name: 1 to 255 bytes, each 33 to 126.
pub(crate) fn is_name(bytes: &[u8]) -> bool
    ensures { result ≡ is_name bytes.now }
{
    1 <= bytes.len() && bytes.len() <= 255 && are_visible(bytes)
}

/// A name, or the place of one, as a path from the current folder on.
pub(crate) fn path_of(name: &[u8]) -> io::Result<&str> {
    match str::from_utf8(name) {
        Ok(path) => Ok(path),
        Err(_) => Err(io::Error::from(ErrorKind::InvalidFilename)),
    }
}
