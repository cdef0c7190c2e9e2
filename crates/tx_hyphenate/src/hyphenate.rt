//! Lists with their words hyphenated.
ghost use Rattle.std.specs.Prelude.{◌≡◌, ◌++◌, ◌≤◌, ◌<◌, true, length, IfOk, OnOk};
ghost use Rattle.std.specs.List.{All};
ghost use Rattle.tx_tfm.specs.Fonts.{has_character};
ghost use Rattle.tx_node.specs.Nodes.{item_of, list_of};
ghost use Rattle.tx_hyphenate.specs.Hyphenated as spec;

use crate::find::{codes_between, font_at, run_before, run_behind, word_start};
use crate::kind::{Kind, is_formula_behind, kind_of};
use crate::made::{Made, keep};
use crate::params::HyphenParams;
use crate::places::{moved, word_places};
use crate::run::{append_run, are_there};
use std::alloc::{AllocError, Global};
use std::mem::replace;
use tx_bytes::Bytes;
use tx_hyphen::hyphens::Hyphens;
use tx_node::{Node, Nodes};
use tx_tfm::Fonts;
use tx_word::Places;

/// The places of a word before which so many items stand, in its run, which begins behind `start` of them and has `count` characters:
/// each between two of these. Its only error is want of memory.
fn run_places(
    alloc: Global,
    nodes: &[Node],
    start: usize,
    word: usize,
    count: usize,
    places: &[usize],
) -> Result<Places, AllocError>
    requires order { start ≤ word }
    requires within { word ≤ length nodes.now }
    requires few { length (spec.codes_between start word (list_of nodes.now)) ≤ count }
    ensures value { IfOk result (λ further. further ≡ spec.placed (length (spec.codes_between start word (list_of nodes.now))) count places.now) }
    ensures between { IfOk result (All (λ place. (0 < place) × (place < count))) }
{
    let before = codes_between(alloc, nodes, start, word)?;
    moved(alloc, before.len(), count, places)
}

/// Puts items, of which those from `start` to `end` are a run of these characters, behind what is made, the run composed anew with
/// the places of the word before which so many stand. Its only error is want of memory.
fn append_anew(
    alloc: Global,
    made: &mut Made,
    fonts: &Fonts,
    font: u8,
    start: usize,
    word: usize,
    end: usize,
    codes: &[u8],
    places: &[usize],
    items: Nodes,
) -> Result<(), AllocError>
    requires order { start ≤ word }
    requires behind { word ≤ end }
    requires within { end ≤ length items }
    requires codes { codes.now ≡ spec.codes_between start end items }
    requires there { All (λ code. has_character fonts.now font code ≡ true) codes.now }
    ensures { OnOk result (made.new ≡ spec.joined made.old (spec.put_between start end items (spec.run_made fonts.now font codes.now (spec.placed (length (spec.codes_between start word items)) (length codes.now) places.now)))) }
{
    let places = run_places(alloc, items.as_slice(), start, word, codes.len(), places)?;
    append_run(
        alloc,
        made,
        fonts,
        font,
        start,
        end,
        codes,
        places.as_slice(),
        items,
    )
}

/// The same, if the font has all these characters. Its only error is want of memory.
fn append_between(
    alloc: Global,
    made: &mut Made,
    fonts: &Fonts,
    font: u8,
    start: usize,
    word: usize,
    end: usize,
    places: &[usize],
    items: Nodes,
) -> Result<(), AllocError>
    requires order { start ≤ word }
    requires behind { word ≤ end }
    requires within { end ≤ length items }
    ensures { OnOk result (made.new ≡ spec.joined made.old (spec.with_run fonts.now font start word end places.now items)) }
{
    let codes = codes_between(alloc, items.as_slice(), start, end)?;
    if are_there(fonts, font, codes.as_slice()) {
        append_anew(
            alloc,
            made,
            fonts,
            font,
            start,
            word,
            end,
            codes.as_slice(),
            places,
            items,
        )
    } else {
        keep(made, items)
    }
}

/// Puts items with a word before which so many stand behind what is made: its run is composed anew with the places, if there are
/// any. Its only error is want of memory.
fn append_with_word(
    alloc: Global,
    made: &mut Made,
    fonts: &Fonts,
    font: u8,
    word: usize,
    places: &[usize],
    items: Nodes,
) -> Result<(), AllocError>
    requires { word ≤ length items }
    ensures { OnOk result (made.new ≡ spec.joined made.old (spec.with_word fonts.now font word places.now items)) }
{
    if places.is_empty() {
        return keep(made, items);
    }
    let nodes = items.as_slice();
    let start = word - run_before(font, &nodes[..word]);
    let end = word + run_behind(font, &nodes[word..]);
    append_between(alloc, made, fonts, font, start, word, end, places, items)
}

/// Puts items that stand behind glue behind what is made, with their word hyphenated. Its only error is want of memory.
fn append_stretch(
    alloc: Global,
    made: &mut Made,
    fonts: &Fonts,
    hyphens: &Hyphens,
    lower: &[u8],
    params: HyphenParams,
    items: Nodes,
) -> Result<(), AllocError>
    requires { length lower.now ≡ 256 }
    ensures { OnOk result (made.new ≡ spec.joined made.old (spec.stretch_hyphenated (spec.ways fonts.now hyphens.now lower.now params) items)) }
{
    let nodes = items.as_slice();
    let Some(word) = word_start(lower, params.uc_hyph, nodes) else {
        return keep(made, items);
    };
    let font = font_at(nodes, word);
    let places = word_places(alloc, fonts, hyphens, lower, params, font, &nodes[word..])?;
    append_with_word(alloc, made, fonts, font, word, places.as_slice(), items)
}

/// Whether a word is looked for behind an item: behind glue, but not in a formula.
fn parts(formula: bool, node: &Node) -> bool
    ensures { result ≡ spec.parts formula (item_of node.now) }
{
    !formula && matches!(kind_of(node), Kind::Glue)
}

/// What is made of a list whose words are hyphenated. Its only error is want of memory.
fn made_of(
    alloc: Global,
    list: Nodes,
    fonts: &Fonts,
    hyphens: &Hyphens,
    lower: &[u8],
    params: HyphenParams,
) -> Result<Made, AllocError>
    requires { length lower.now ≡ 256 }
    ensures { IfOk result (λ made. made ≡ spec.hyphenated (spec.ways fonts.now hyphens.now lower.now params) list) }
{
    let mut made = Made {
        items: Nodes::new(alloc),
        report: Bytes::new(alloc),
    };
    let mut items = Nodes::new(alloc);
    let mut behind_glue = false;
    let mut formula = false;
    for node in list.into_vec() {
        let is_parted = parts(formula, &node);
        formula = is_formula_behind(formula, &node);
        if is_parted {
            let stretch = replace(&mut items, Nodes::new(alloc));
            finish(
                alloc,
                &mut made,
                fonts,
                hyphens,
                lower,
                params,
                behind_glue,
                stretch,
            )?;
            made.items.push(node)?;
            behind_glue = true;
        } else {
            items.push(node)?;
        }
    }
    finish(
        alloc,
        &mut made,
        fonts,
        hyphens,
        lower,
        params,
        behind_glue,
        items,
    )?;
    Ok(made)
}

/// A list with its words hyphenated (TeX: The Program, sections 866 and 891 to 903). Behind each glue that stands in no formula a
/// word is looked for; the run of characters, ligatures and kerns of its font in which it stands is composed anew, with a
/// discretionary at each place where the patterns and exceptions permit one; `lower` holds the 256 \lccodes. A line for each of
/// these whose hyphen the font lacks is put at the end of `report` (section 915). Its only error is want of memory.
pub fn hyphenated(
    alloc: Global,
    list: Nodes,
    fonts: &Fonts,
    hyphens: &Hyphens,
    lower: &[u8],
    params: HyphenParams,
    report: &mut Bytes,
) -> Result<Nodes, AllocError>
    requires { length lower.now ≡ 256 }
    ensures list { IfOk result (λ made. made ≡ (spec.hyphenated (spec.ways fonts.now hyphens.now lower.now params) list).items) }
    ensures report { OnOk result (report.new ≡ report.old ++ (spec.hyphenated (spec.ways fonts.now hyphens.now lower.now params) list).report) }
{
    let Made {
        items,
        report: told,
    } = made_of(alloc, list, fonts, hyphens, lower, params)?;
    report.append(told.as_slice())?;
    Ok(items)
}

/// Puts items between two places of glue, or the ends of a list, behind what is made: where glue stands before them, their word is
/// hyphenated. Its only error is want of memory.
fn finish(
    alloc: Global,
    made: &mut Made,
    fonts: &Fonts,
    hyphens: &Hyphens,
    lower: &[u8],
    params: HyphenParams,
    behind_glue: bool,
    items: Nodes,
) -> Result<(), AllocError>
    requires { length lower.now ≡ 256 }
    ensures { OnOk result (made.new ≡ spec.joined made.old (spec.finished (spec.ways fonts.now hyphens.now lower.now params) behind_glue items)) }
{
    if behind_glue {
        append_stretch(alloc, made, fonts, hyphens, lower, params, items)
    } else {
        keep(made, items)
    }
}
