//! The places of a word.
ghost use Rattle.std.specs.Prelude.{◌≡◌, ◌&&◌, ◌≤◌, ◌<◌, length as count_of, map, slice_index, IfOk};
ghost use Rattle.std.specs.List.{All};
ghost use Rattle.tx_node.specs.Nodes.{list_of};
ghost use Rattle.tx_hyphenate.specs.Finding.{may_end as may_end_before};
ghost use Rattle.tx_hyphenate.specs.Hyphenated as spec;

use crate::find::{codes_of, may_end, word_length};
use crate::params::HyphenParams;
use std::alloc::{AllocError, Global};
use tx_bytes::Bytes;
use tx_hyphen::hyphens::Hyphens;
use tx_node::Node;
use tx_prim::FontNumber;
use tx_tfm::Fonts;
use tx_word::Places;

/// The \lccodes of characters. Its only error is want of memory.
fn lowered(alloc: Global, lower: &[u8], codes: &[u8]) -> Result<Bytes, AllocError>
    requires { count_of lower.now ≡ 256 }
    ensures { IfOk result (λ letters. letters ≡ map (slice_index lower.now) codes.now) }
{
    let mut letters = Bytes::new(alloc);
    for code in codes {
        letters.push(lower[usize::from(*code)])?;
    }
    Ok(letters)
}

/// Whether words in the font of a number are hyphenated: its \hyphenchar is in 0 to 255.
fn is_hyphenated(fonts: &Fonts, font: u8) -> bool
    ensures { result ≡ spec.has_hyphen fonts.now font }
{
    let hyphen = fonts.integer(FontNumber::Hyphen, font);
    0 <= hyphen && hyphen < 256
}

/// Whether a word in a font may be divided, behind which these items stand.
fn is_divisible(fonts: &Fonts, font: u8, behind: &[Node]) -> bool
    ensures { result ≡ (spec.has_hyphen fonts.now font && may_end_before (list_of behind.now)) }
{
    is_hyphenated(fonts, font) && may_end(behind)
}

/// The places of the word at the beginning of items in a font, by the letters before each. Its only error is want of
/// memory.
pub(crate) fn word_places(
    alloc: Global,
    fonts: &Fonts,
    hyphens: &Hyphens,
    lower: &[u8],
    params: HyphenParams,
    font: u8,
    nodes: &[Node],
) -> Result<Places, AllocError>
    requires { count_of lower.now ≡ 256 }
    ensures { IfOk result (λ places. places ≡ spec.word_places (spec.ways fonts.now hyphens.now lower.now params) font (list_of nodes.now)) }
{
    let count = word_length(lower, font, nodes);
    if !is_divisible(fonts, font, &nodes[count..]) {
        return Ok(Places::new(alloc));
    }
    let codes = codes_of(alloc, &nodes[..count])?;
    let letters = lowered(alloc, lower, codes.as_slice())?;
    hyphens.points(alloc, letters.as_slice(), params.left, params.right)
}

/// Places behind `count` more characters, in a run of `length`: each between two characters of it. Its only error is want of
/// memory.
pub(crate) fn moved(
    alloc: Global,
    count: usize,
    length: usize,
    places: &[usize],
) -> Result<Places, AllocError>
    requires { count ≤ length }
    ensures value { IfOk result (λ further. further ≡ spec.placed count length places.now) }
    ensures between { IfOk result (All (λ place. (0 < place) × (place < length))) }
{
    let mut further = Places::new(alloc);
    for place in places {
        if *place < length - count && 0 < count + *place {
            further.push(count + *place)?;
        }
    }
    Ok(further)
}
