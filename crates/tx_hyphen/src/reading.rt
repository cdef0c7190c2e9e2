//! Reading the text of a pattern or an exception.

ghost use Rattle.std.specs.Prelude.{◌≡◌, length, option_map, IfOk};
ghost use Rattle.tx_hyphen.specs.Spelling.{rest_spells, shortened, spelled};

use crate::spelling::{Kind, Sign, Spelling, shorten};
use std::alloc::{AllocError, Global};
use tx_bytes::Bytes;

/// All that a text spells, however long; None where a character may not stand in it.
fn read_whole(
    alloc: Global,
    kind: Kind,
    text: &[u8],
    lower: &[u8],
) -> Result<Option<Spelling>, AllocError>
    requires { length lower.now ≡ 256 }
    ensures { IfOk result (λ read. read ≡ rest_spells kind lower.now None text.now) }
{
    let mut letters = Bytes::new(alloc);
    let mut levels = Bytes::new(alloc);
    let mut level = None;
    for character in text {
        match kind.sign(lower, level.is_some(), *character) {
            None => return Ok(None),
            Some(Sign::Level(given)) => level = Some(given),
            Some(Sign::Letter(letter)) => {
                letters.push(letter)?;
                levels.push(level.unwrap_or(0))?;
                level = None;
            }
        }
    }
    levels.push(level.unwrap_or(0))?;
    Ok(Some(Spelling { letters, levels }))
}

/// What a text spells; None where a character may not stand in it.
pub fn read(
    alloc: Global,
    kind: Kind,
    text: &[u8],
    lower: &[u8],
) -> Result<Option<Spelling>, AllocError>
    requires { length lower.now ≡ 256 }
    ensures { IfOk result (λ read. read ≡ spelled kind lower.now text.now) }
{
    match read_whole(alloc, kind, text, lower)? {
        None => Ok(None),
        Some(Spelling { letters, levels }) => Ok(Some(Spelling {
            letters: shorten(letters),
            levels: shorten(levels),
        })),
    }
}
