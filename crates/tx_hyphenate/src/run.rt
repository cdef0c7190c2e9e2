//! The run that a word stands in, composed anew.
ghost use Rattle.std.specs.Prelude.{◌≡◌, ◌++◌, ◌≤◌, true, length, IsTrue, OnOk};
ghost use Rattle.std.specs.List.{All};
ghost use Rattle.tx_tfm.specs.Fonts.{has_character};
ghost use Rattle.tx_word.specs.Divisions.{IsPlaced};
ghost use Rattle.tx_node.specs.Nodes.{list_of};
ghost use Rattle.tx_hyphenate.specs.Hyphenated as spec;

use crate::lacking::report_divisions;
use crate::made::Made;
use std::alloc::{AllocError, Global};
use tx_node::{Node, Nodes};
use tx_prim::FontNumber;
use tx_tfm::Fonts;
use tx_word::{append_divided, hyphen_lacking};

/// Whether a font has all these characters.
pub(crate) fn are_there(fonts: &Fonts, font: u8, codes: &[u8]) -> bool
    ensures value { result ≡ spec.are_there fonts.now font codes.now }
    ensures all { IsTrue result → All (λ code. has_character fonts.now font code ≡ true) codes.now }
{
    for code in codes {
        if !fonts.has_character(font, *code) {
            return false;
        }
    }
    true
}

/// Puts nodes at the end of a list. Its only error is want of memory.
fn append_nodes(list: &mut Nodes, nodes: Vec<Node>) -> Result<(), AllocError>
    ensures { OnOk result (list.new ≡ list.old ++ list_of nodes.items) }
{
    for node in nodes {
        list.push(node)?;
    }
    Ok(())
}

/// Puts a run of these characters behind what is made, composed anew with places. Its only error is want of memory.
fn append_made(
    alloc: Global,
    made: &mut Made,
    fonts: &Fonts,
    font: u8,
    codes: &[u8],
    places: &[usize],
) -> Result<(), AllocError>
    requires { IsPlaced fonts.now font codes.now places.now }
    ensures { OnOk result (made.new ≡ spec.joined made.old (spec.run_made fonts.now font codes.now places.now)) }
{
    let hyphen = i64::from(fonts.integer(FontNumber::Hyphen, font));
    let mut run = Nodes::new(alloc);
    append_divided(
        alloc, &mut run, fonts, font, codes, true, true, places, hyphen,
    )?;
    let lacking = hyphen_lacking(fonts, font);
    report_divisions(&mut made.report, fonts, font, lacking, run.as_slice())?;
    made.items.append(&mut run)
}

/// Puts items, of which those from `start` to `end` are a run of these characters, behind what is made, the run composed anew with
/// places. Its only error is want of memory.
pub(crate) fn append_run(
    alloc: Global,
    made: &mut Made,
    fonts: &Fonts,
    font: u8,
    start: usize,
    end: usize,
    codes: &[u8],
    places: &[usize],
    items: Nodes,
) -> Result<(), AllocError>
    requires order { start ≤ end }
    requires within { end ≤ length items }
    requires placed { IsPlaced fonts.now font codes.now places.now }
    ensures { OnOk result (made.new ≡ spec.joined made.old (spec.put_between start end items (spec.run_made fonts.now font codes.now places.now))) }
{
    let mut nodes = items.into_vec();
    let behind = nodes.split_off(end)?;
    nodes.truncate(start);
    append_nodes(&mut made.items, nodes)?;
    append_made(alloc, made, fonts, font, codes, places)?;
    append_nodes(&mut made.items, behind)
}
