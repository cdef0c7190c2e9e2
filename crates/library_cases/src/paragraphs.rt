//! Cases of tx_linebreak.
use crate::lists::{dimension_of, glue_of};
use std::alloc::{AllocError, Global};
use tx_cases::first_word;
use tx_linebreak::{
    BreakError, BreakParams, Chosen, Discretionary, LineShape, Piece, Pieces, Shape, breaks,
    is_ended,
};
use tx_num::Glue;

/// A point, in sp.
const POINT: i64 = 65_536;

/// Why there is no answer.
#[derive(Drop)]
enum Fault {
    /// The text is no paragraph's, or its list doesn't end as it has to.
    Malformed,
    /// The list can't be broken.
    Unbroken(BreakError),
}

impl From<AllocError> for Fault {
    fn from(error: AllocError) -> Fault {
        Fault::Unbroken(BreakError::from(error))
    }
}

/// `breaks WIDTHS WORD..`: the widths of lines with commas between them; then parameters, as `tolerance=200`, which begin as
/// INITEX has them, and the list: `bN` a box, `kN` a kern, `gW,S,O,T,P` glue of width W that stretches by S of order O and
/// shrinks by T of order P, `pN` a penalty, `dA,B,N` a discretionary with the texts A before and B behind a break, `-` for an
/// empty one, and N pieces of no-break text, `hA,B,N` one that hyphenation made, `(N` and `)N` the ends of mathematics. All
/// sizes are in points.
///
/// The answer is the places of the breaks, the demerits, the pass, the places to which no line fitted, and how many lines more than
/// the best chain it has, where that isn't 0.
pub fn write_answer(alloc: Global, text: &mut String, rest: &str) -> Result<(), AllocError> {
    match broken(alloc, rest) {
        Ok(chosen) => write_chosen(text, &chosen),
        Err(Fault::Malformed) => text.push_str("malformed"),
        Err(Fault::Unbroken(BreakError::InfiniteShrink)) => text.push_str("infinite shrink"),
        Err(Fault::Unbroken(BreakError::OutOfMemory)) => Err(AllocError),
    }
}

fn broken(alloc: Global, text: &str) -> Result<Chosen, Fault> {
    let mut shape = Shape::new(alloc);
    let mut list = Pieces::new(alloc);
    read_broken(alloc, &mut shape, &mut list, text)
}

/// Reads the shape and the list, and breaks this.
fn read_broken(
    alloc: Global,
    shape: &mut Shape,
    list: &mut Pieces,
    text: &str,
) -> Result<Chosen, Fault> {
    let (widths, words) = first_word(text);
    put_widths(shape, widths)?;
    let mut params = initex();
    for word in words.split(' ') {
        put(&mut params, list, word)?;
    }
    if shape.is_empty() || !is_ended(list) {
        return Err(Fault::Malformed);
    }
    breaks(alloc, list, shape, &params).map_err(Fault::Unbroken)
}

fn put_widths(shape: &mut Shape, widths: &str) -> Result<(), Fault> {
    for width in widths.split(',') {
        let width = dimension_of(width, POINT).ok_or(Fault::Malformed)?;
        shape.push(LineShape { indent: 0, width })?;
    }
    Ok(())
}

/// The parameters as INITEX begins with them.
fn initex() -> BreakParams {
    BreakParams {
        pretolerance: 0,
        tolerance: 10_000,
        emergency_stretch: 0,
        line_penalty: 0,
        hyphen_penalty: 0,
        ex_hyphen_penalty: 0,
        adj_demerits: 0,
        double_hyphen_demerits: 0,
        final_hyphen_demerits: 0,
        looseness: 0,
        left_skip: Glue::zero(),
        right_skip: Glue::zero(),
    }
}

/// Sets a parameter, or puts a piece into the list.
fn put(params: &mut BreakParams, list: &mut Pieces, word: &str) -> Result<(), Fault> {
    match word.split_once('=') {
        Some((name, value)) => set(params, name, value).ok_or(Fault::Malformed),
        None => Ok(list.push(piece_of(word).ok_or(Fault::Malformed)?)?),
    }
}

fn set(params: &mut BreakParams, name: &str, value: &str) -> Option<()> {
    match name {
        "pretolerance" => params.pretolerance = value.parse().ok()?,
        "tolerance" => params.tolerance = value.parse().ok()?,
        "emergencystretch" => params.emergency_stretch = dimension_of(value, POINT)?,
        "linepenalty" => params.line_penalty = value.parse().ok()?,
        "hyphenpenalty" => params.hyphen_penalty = value.parse().ok()?,
        "exhyphenpenalty" => params.ex_hyphen_penalty = value.parse().ok()?,
        "adjdemerits" => params.adj_demerits = value.parse().ok()?,
        "doublehyphendemerits" => params.double_hyphen_demerits = value.parse().ok()?,
        "finalhyphendemerits" => params.final_hyphen_demerits = value.parse().ok()?,
        "looseness" => params.looseness = value.parse().ok()?,
        "leftskip" => params.left_skip = glue_of(value, POINT)?,
        "rightskip" => params.right_skip = glue_of(value, POINT)?,
        _ => return None,
    }
    Some(())
}

fn piece_of(word: &str) -> Option<Piece> {
    if let Some(width) = word.strip_prefix('b') {
        return Some(Piece::Solid(points(width)?));
    }
    if let Some(width) = word.strip_prefix('k') {
        return Some(Piece::Kern(points(width)?));
    }
    if let Some(glue) = word.strip_prefix('g') {
        return Some(Piece::Glue(glue_of(glue, POINT)?));
    }
    if let Some(penalty) = word.strip_prefix('p') {
        return Some(Piece::Penalty(penalty.parse().ok()?));
    }
    rare_piece_of(word)
}

fn rare_piece_of(word: &str) -> Option<Piece> {
    if let Some(texts) = word.strip_prefix('d') {
        return Some(Piece::Discretionary(discretionary_of(texts, false)?));
    }
    if let Some(texts) = word.strip_prefix('h') {
        return Some(Piece::Discretionary(discretionary_of(texts, true)?));
    }
    if let Some(width) = word.strip_prefix('(') {
        return Some(Piece::MathOn(points(width)?));
    }
    Some(Piece::MathOff(points(word.strip_prefix(')')?)?))
}

fn discretionary_of(texts: &str, hyphenated: bool) -> Option<Discretionary> {
    let (before, rest) = texts.split_once(',')?;
    let (behind, replaced) = rest.split_once(',')?;
    Some(Discretionary {
        before: dimension_of(before, POINT),
        behind: dimension_of(behind, POINT),
        replaced: replaced.parse().ok()?,
        hyphenated,
    })
}

/// So many points in sp.
fn points(text: &str) -> Option<i32> {
    let points: i16 = text.parse().ok()?;
    Some(i32::from(points) * 65_536)
}

/// What was chosen, as `1 7 total 900 pass 2`, ` forced 7` for each line that doesn't fit, and ` looseness 1`.
fn write_chosen(text: &mut String, chosen: &Chosen) -> Result<(), AllocError> {
    let (total, pass) = (chosen.total, chosen.pass);
    for place in chosen.chain.as_slice() {
        write!(text, "{place} ")?;
    }
    write!(text, "total {total} pass {pass}")?;
    for place in chosen.forced.as_slice() {
        write!(text, " forced {place}")?;
    }
    let looseness = chosen.looseness;
    if looseness != 0 {
        write!(text, " looseness {looseness}")?;
    }
    Ok(())
}
