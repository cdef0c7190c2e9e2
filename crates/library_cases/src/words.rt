//! Cases of tx_word.
use crate::lists::glue_of;
use std::alloc::{AllocError, Global};
use std::mem;
use tx_bytes::Bytes;
use tx_cases::first_word;
use tx_node::{Character, Discretionary, Ligature, Node, Plain, Shared};
use tx_tfm::{Font, Fonts, NamedFont};
use tx_word::{Piece, Places, WordError, WordParams, are_pieces, factor_behind, nodes};

/// `load NAME`: the font that was taken last is the next font of the run. Writes its number.
pub fn load(
    alloc: Global,
    text: &mut String,
    font: &mut Option<Font>,
    fonts: &mut Fonts,
    name: &str,
) -> Result<(), AllocError> {
    if fonts.len() == 255 || name.len() > 255 {
        return text.push_str("full");
    }
    let name = Bytes::from_slice(alloc, name.as_bytes())?;
    match mem::replace(font, None) {
        None => text.push_str("missing"),
        Some(font) => {
            let number = fonts.push(alloc, NamedFont { name, font }, 45, -1)?;
            write!(text, "{number}")
        }
    }
}

/// `set SPACESKIP XSPACESKIP PIECE ..`: glue is `W,S,O,T,P`, of width W, which stretches by S of order O and shrinks by T of
/// order P. A piece is `F/WORD`, a word in font F, where an underscore before or behind it is a boundary that counts, or `F:N`,
/// a space in font F at the factor N. `F/H!P,P..!WORD` is a word with the hyphen character H and places for it.
///
/// Writes the list: `cF,C,W,H,D` is a character C of font F, W wide, H high and D deep, `lF,C,W,H,D(..)` a ligature with
/// the characters in whose stead it stands, `kN` a kern, `gW,S,O,T,P` glue, and `dN[..]`, or `eN[..]` where hyphenation made it, a
/// discretionary that replaces N items, with its texts before and behind a break, a bar between them.
pub fn write_set(
    alloc: Global,
    text: &mut String,
    fonts: &Fonts,
    rest: &str,
) -> Result<(), AllocError> {
    let (spaceskip, rest) = first_word(rest);
    let (xspaceskip, rest) = first_word(rest);
    let Some(params) = params_of(spaceskip, xspaceskip) else {
        return text.push_str("malformed");
    };
    let mut pieces = Vec::new(alloc);
    write_read(alloc, text, fonts, &mut pieces, rest, &params)
}

/// Reads the pieces of a text, and writes the list that they make.
fn write_read(
    alloc: Global,
    text: &mut String,
    fonts: &Fonts,
    pieces: &mut Vec<Piece>,
    rest: &str,
    params: &WordParams,
) -> Result<(), AllocError> {
    for word in rest.split(' ') {
        match piece_of(alloc, word)? {
            None => return text.push_str("malformed"),
            Some(piece) => pieces.push(piece)?,
        }
    }
    write_made(alloc, text, fonts, pieces.as_slice(), params)
}

/// Writes the list that these pieces make.
fn write_made(
    alloc: Global,
    text: &mut String,
    fonts: &Fonts,
    pieces: &[Piece],
    params: &WordParams,
) -> Result<(), AllocError> {
    if !are_pieces(fonts, pieces) {
        return text.push_str("missing");
    }
    match nodes(alloc, pieces, fonts, params) {
        Ok(list) => write_nodes(text, list.as_slice()),
        Err(WordError::SizeOutOfRange) => text.push_str("out of range"),
        Err(WordError::OutOfMemory) => Err(AllocError),
    }
}

/// `factor F C`: writes the space factor behind a character of the \sfcode C, where it was F.
pub fn write_factor(text: &mut String, rest: &str) -> Result<(), AllocError> {
    let (factor, code) = first_word(rest);
    let factor: u16 = factor.parse().unwrap_or(0);
    let code: u16 = code.parse().unwrap_or(65535);
    if factor == 0 || factor > 32767 || code > 32767 {
        return text.push_str("malformed");
    }
    let behind = factor_behind(factor, code);
    write!(text, "{behind}")
}

fn params_of(spaceskip: &str, xspaceskip: &str) -> Option<WordParams> {
    Some(WordParams {
        spaceskip: glue_of(spaceskip, 1)?,
        xspaceskip: glue_of(xspaceskip, 1)?,
    })
}

fn piece_of(alloc: Global, text: &str) -> Result<Option<Piece>, AllocError> {
    if let Some((font, chars)) = text.split_once('/') {
        return Ok(Some(word_of(alloc, font.parse().unwrap_or(0), chars)?));
    }
    Ok(space_of(text))
}

fn word_of(alloc: Global, font: u8, text: &str) -> Result<Piece, AllocError> {
    let (hyphen, places, text) = divided(text);
    let (left, text) = match text.strip_prefix('_') {
        Some(rest) => (true, rest),
        None => (false, text),
    };
    let (right, text) = match text.strip_suffix('_') {
        Some(rest) => (true, rest),
        None => (false, text),
    };
    Ok(Piece::Word {
        font,
        chars: Bytes::from_slice(alloc, text.as_bytes())?,
        left,
        right,
        places: places_of(alloc, places)?,
        hyphen,
    })
}

/// The hyphen character and the places of a word, as they are written, and the rest of its text.
fn divided(text: &str) -> (i64, &str, &str) {
    let Some((hyphen, rest)) = text.split_once('!') else {
        return (45, "", text);
    };
    let (places, rest) = rest.split_once('!').unwrap_or((rest, ""));
    (hyphen.parse().unwrap_or(-1), places, rest)
}

fn places_of(alloc: Global, text: &str) -> Result<Places, AllocError> {
    let mut places = Places::new(alloc);
    for word in text.split(',') {
        if let Ok(place) = word.parse() {
            places.push(place)?;
        }
    }
    Ok(places)
}

fn space_of(text: &str) -> Option<Piece> {
    let (font, factor) = text.split_once(':')?;
    Some(Piece::Space {
        font: font.parse().ok()?,
        factor: factor.parse().ok()?,
    })
}

fn write_nodes(text: &mut String, list: &[Node]) -> Result<(), AllocError> {
    for node in list {
        write_node(text, node)?;
    }
    Ok(())
}

/// Writes a discretionary.
fn write_discretionary(text: &mut String, item: &Discretionary) -> Result<(), AllocError> {
    let kind = if item.is_hyphenated() { 'e' } else { 'd' };
    let replaced = item.replaced();
    write!(text, "{kind}{replaced}[")?;
    write_text(text, item.before())?;
    text.push('|')?;
    write_text(text, item.behind())?;
    text.push(']')
}

/// Writes a text of a discretionary: its characters by their codes, each ligature with the characters in whose stead it stands, as
/// `z(ax)`, and its kerns as `+`.
fn write_text(text: &mut String, list: &[Node]) -> Result<(), AllocError> {
    for node in list {
        match node {
            Node::Plain(Plain::Character(character)) => text.push(char::from(character.code))?,
            Node::Plain(Plain::Kern(_, _)) => text.push('+')?,
            Node::Shared(item) => write_within(text, item)?,
            _ => text.push('?')?,
        }
    }
    Ok(())
}

/// Writes what a text of a discretionary shares with copies of it: a ligature by its code, and the characters in whose stead it
/// stands.
fn write_within(text: &mut String, item: &Shared) -> Result<(), AllocError> {
    match item {
        Shared::Ligature(ligature) => {
            text.push(char::from(ligature.character.code))?;
            write_from(text, ligature)
        }
        Shared::Rule(_) | Shared::Leaders(_) | Shared::Special(_) | Shared::Mark(_) => text.push(
            '?',
        ),
    }
}

/// Writes the characters in whose stead a ligature stands.
fn write_from(text: &mut String, ligature: &Ligature) -> Result<(), AllocError> {
    text.push('(')?;
    for code in ligature.from.as_slice() {
        text.push(char::from(*code))?;
    }
    text.push(')')
}

/// Writes a node behind those before it.
fn write_node(text: &mut String, node: &Node) -> Result<(), AllocError> {
    if !text.is_empty() {
        text.push(' ')?;
    }
    match node {
        Node::Plain(item) => write_plain(text, *item),
        Node::Shared(item) => write_shared(text, item),
        Node::Discretionary(item) => write_discretionary(text, item),
        Node::Box(_, _) | Node::Adjustment(_) | Node::Insertion(_) => text.push_str("other"),
        Node::BoxLeaders(_) => text.push_str("other"),
    }
}

fn write_plain(text: &mut String, item: Plain) -> Result<(), AllocError> {
    match item {
        Plain::Character(character) => write_character(text, 'c', character),
        Plain::Kern(_, size) => write!(text, "k{size}"),
        Plain::Penalty(penalty) => write!(text, "p{penalty}"),
        Plain::Glue(glue) => {
            let (width, stretch, shrink) = (glue.width(), glue.stretch(), glue.shrink());
            let (order, shrink_order) = (glue.stretch_order(), glue.shrink_order());
            write!(text, "g{width},{stretch},{order},{shrink},{shrink_order}")
        }
    }
}

fn write_shared(text: &mut String, item: &Shared) -> Result<(), AllocError> {
    match item {
        Shared::Ligature(ligature) => {
            write_character(text, 'l', ligature.character)?;
            write_from(text, ligature)
        }
        Shared::Rule(_) | Shared::Leaders(_) | Shared::Special(_) | Shared::Mark(_) => {
            text.push_str("other")
        }
    }
}

/// A character by its kind, its font, its code as it stands, and its sizes.
fn write_character(text: &mut String, kind: char, character: Character) -> Result<(), AllocError> {
    let (font, code) = (character.font, char::from(character.code));
    let (width, height, depth) = (character.width, character.height, character.depth);
    write!(text, "{kind}{font},{code},{width},{height},{depth}")
}
