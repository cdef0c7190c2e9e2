//! Cases of tx_display.
ghost use Rattle.tx_num.specs.Glue.{IsDimension};

use crate::boxes::write_fault;
use crate::lists::{Fault, list_of};
use crate::packing::goal_of;
use std::alloc::{AllocError, Global};
use tx_cases::first_word;
use tx_display::{
    DisplayError, DisplayParams, DisplayPlace, EquationNumber, append_display, number_of,
    size_behind,
};
use tx_nest::{LeadingParams, ModeList};
use tx_node::{Node, Nodes, Plain};
use tx_num::Glue;
use tx_pack::{PackError, PackParams, hpack};
use tx_prim::{Mode, NumberSide};

/// - `edge SHIFT QUAD GOAL LIST`: how far a line reaches that is packed to a goal, as for packing, and shifted;
/// - `display SIZE WIDTH INDENT QUAD LIST`, and `eqno` and `leqno` with `LIST|LIST`, of which the second one is the number's: by
///   \predisplaysize, \displaywidth and \displayindent, with penalties of 11 and 22 and the glue 1 and 4, or 2 and 8 where the
///   line before is short.
///
/// The answer to these is what stands in the vertical list, `pN` a penalty, `gN` glue, `bN@S` a box that is N wide and shifted by
/// S, and \badness.
pub fn write_answer(
    alloc: Global,
    text: &mut String,
    word: &str,
    rest: &str,
) -> Result<(), AllocError> {
    if word == "edge" {
        write_edge(alloc, text, rest)
    } else {
        write_display(alloc, text, side_of(word), rest)
    }
}

/// The side of the number, if there is one.
fn side_of(word: &str) -> Option<NumberSide> {
    match word {
        "eqno" => Some(NumberSide::Right),
        "leqno" => Some(NumberSide::Left),
        _ => None,
    }
}

/// Nothing is told of boxes.
fn packing() -> PackParams
    ensures { IsDimension result.overfull_rule }
{
    PackParams {
        badness: 10000,
        fuzz: 6_553_600,
        overfull_rule: 0,
    }
}

fn size_of(text: &str) -> Result<i32, Fault> {
    text.parse().ok().ok_or(Fault::Malformed)
}

fn write_edge(alloc: Global, text: &mut String, rest: &str) -> Result<(), AllocError> {
    match edge_of(alloc, rest) {
        Ok(Some(size)) => write!(text, "{size}"),
        Ok(None) => text.push_str("no dimension"),
        Err(fault) => write_fault(text, fault),
    }
}

fn edge_of(alloc: Global, text: &str) -> Result<Option<i32>, Fault> {
    let (shift, rest) = first_word(text);
    let (quad, rest) = first_word(rest);
    let (goal, list) = first_word(rest);
    let shift = size_of(shift)?;
    let quad = size_of(quad)?;
    let goal = goal_of(goal).ok_or(Fault::Malformed)?;
    let list = list_of(alloc, list)?;
    let made = hpack(alloc, list, goal, &packing()).map_err(Fault::Unpacked)?;
    let mut lines = Nodes::new(alloc);
    lines.push(Node::from_box(alloc, shift, made.node)?)?;
    Ok(size_behind(lines.as_slice(), 0, i64::from(quad)))
}

fn write_display(
    alloc: Global,
    text: &mut String,
    side: Option<NumberSide>,
    rest: &str,
) -> Result<(), AllocError> {
    match displayed(alloc, side, rest) {
        Ok((nodes, badness)) => {
            write_nodes(text, nodes.as_slice())?;
            write!(text, "badness {badness}")
        }
        Err(fault) => write_fault(text, fault),
    }
}

/// What stands in the vertical list, and \badness.
fn displayed(alloc: Global, side: Option<NumberSide>, text: &str) -> Result<(Nodes, i64), Fault> {
    let (size, rest) = first_word(text);
    let (width, rest) = first_word(rest);
    let (indent, rest) = first_word(rest);
    let (quad, rest) = first_word(rest);
    let (own, number) = rest.split_once('|').unwrap_or((rest, ""));
    let place = DisplayPlace {
        size: size_of(size)?,
        width: size_of(width)?,
        indent: size_of(indent)?,
    };
    let quad = size_of(quad)?;
    let own = list_of(alloc, own)?;
    let number = numbered(alloc, side, number)?;
    shown(alloc, place, quad, number, own)
}

/// The number, if there is one.
fn numbered(
    alloc: Global,
    side: Option<NumberSide>,
    text: &str,
) -> Result<Option<EquationNumber>, Fault> {
    let Some(side) = side else {
        return Ok(None);
    };
    let list = list_of(alloc, text)?;
    let number = number_of(alloc, side, &packing(), list)?;
    Ok(Some(number))
}

impl From<DisplayError> for Fault {
    fn from(error: DisplayError) -> Fault {
        match error {
            DisplayError::SizeOutOfRange => Fault::Unpacked(PackError::SizeOutOfRange),
            DisplayError::TooDeep => Fault::Unpacked(PackError::TooDeep),
            DisplayError::OutOfMemory => Fault::Memory,
        }
    }
}

fn shown(
    alloc: Global,
    place: DisplayPlace,
    quad: i32,
    number: Option<EquationNumber>,
    own: Nodes,
) -> Result<(Nodes, i64), Fault> {
    let params = DisplayParams {
        place,
        pre_penalty: 11,
        post_penalty: 22,
        above_skip: Glue::new(1, 0, 0, 0, 0),
        above_short_skip: Glue::new(2, 0, 0, 0, 0),
        below_skip: Glue::new(4, 0, 0, 0, 0),
        below_short_skip: Glue::new(8, 0, 0, 0, 0),
        leading: LeadingParams {
            baseline_skip: Glue::zero(),
            line_skip: Glue::zero(),
            line_skip_limit: 0,
        },
        packing: packing(),
        quad: i64::from(quad),
    };
    let mut list = ModeList::new(alloc, Mode::InternalVertical);
    let behind = Nodes::new(alloc);
    let told = append_display(alloc, &mut list, &params, number, own, behind)?;
    Ok((list.nodes, told.badness))
}

fn write_nodes(text: &mut String, nodes: &[Node]) -> Result<(), AllocError> {
    for node in nodes {
        write_node(text, node)?;
    }
    Ok(())
}

fn write_node(text: &mut String, node: &Node) -> Result<(), AllocError> {
    match node {
        Node::Plain(Plain::Penalty(penalty)) => {
            let penalty = *penalty;
            write!(text, "p{penalty} ")
        }
        Node::Plain(Plain::Glue(glue)) => {
            let width = glue.width();
            write!(text, "g{width} ")
        }
        Node::Box(shift, line) => {
            let (width, shift) = (line.width(), *shift);
            write!(text, "b{width}@{shift} ")
        }
        _ => text.push_str("? "),
    }
}
