//! Cases of tx_pack.
ghost use Rattle.std.specs.Prelude.{IfSome};
ghost use Rattle.tx_num.specs.Glue.{IsDimension};
ghost use Rattle.tx_pack.specs.Packing.{IsGoal};

use crate::boxes::write_fault;
use crate::lists::{Fault, dimension_of, list_of};
use std::alloc::{AllocError, Global};
use tx_cases::first_word;
use tx_node::{Change, Direction, Setting};
use tx_pack::{Goal, PackParams, Packed, hpack, vpack};

/// - `hpack GOAL BADNESS FUZZ RULE LIST`, by \hbadness, \hfuzz and \overfullrule, and `vpack GOAL DEPTH BADNESS FUZZ LIST`;
///   the goal is `=`, the natural size, `=N` or `+N`.
///
/// The answer is the box's width, height and depth, its badness, how many nodes it is, and how its glue is set: `stretch` or
/// `shrink` with the order, its total, and how far the list has to grow. The transcript's line follows.
pub fn write_answer(
    alloc: Global,
    text: &mut String,
    word: &str,
    rest: &str,
) -> Result<(), AllocError> {
    let direction = if word == "vpack" {
        Direction::Vertical
    } else {
        Direction::Horizontal
    };
    match packed(alloc, direction, rest) {
        Ok(packed) => write_packed(text, &packed),
        Err(fault) => write_fault(text, fault),
    }
}

pub fn goal_of(text: &str) -> Option<Goal>
    ensures { IfSome result IsGoal }
{
    if text == "=" {
        return Some(Goal::Natural);
    }
    if let Some(size) = text.strip_prefix('=') {
        return Some(Goal::To(dimension_of(size, 1)?));
    }
    Some(Goal::Spread(dimension_of(text.strip_prefix('+')?, 1)?))
}

/// A goal, three numbers and a list; the first number is \boxmaxdepth of a vertical list, the last \overfullrule of a
/// horizontal one.
fn packed(alloc: Global, direction: Direction, text: &str) -> Result<Packed, Fault> {
    let (goal, rest) = first_word(text);
    let (first, rest) = first_word(rest);
    let (second, rest) = first_word(rest);
    let (third, list) = first_word(rest);
    let goal = goal_of(goal).ok_or(Fault::Malformed)?;
    let first = dimension_of(first, 1).ok_or(Fault::Malformed)?;
    let second = dimension_of(second, 1).ok_or(Fault::Malformed)?;
    let third = dimension_of(third, 1).ok_or(Fault::Malformed)?;
    let list = list_of(alloc, list)?;
    match direction {
        Direction::Horizontal => {
            let params = params_of(first, second, third);
            hpack(alloc, list, goal, &params).map_err(Fault::Unpacked)
        }
        Direction::Vertical => {
            let params = params_of(second, third, 0);
            vpack(alloc, list, goal, first, &params).map_err(Fault::Unpacked)
        }
    }
}

fn params_of(badness: i64, fuzz: i64, overfull_rule: i64) -> PackParams
    requires { IsDimension overfull_rule }
    ensures { IsDimension result.overfull_rule }
{
    PackParams {
        badness,
        fuzz,
        overfull_rule,
    }
}

fn write_packed(text: &mut String, packed: &Packed) -> Result<(), AllocError> {
    let node = &packed.node;
    let (width, height, depth) = (node.width(), node.height(), node.depth());
    let (badness, count) = (packed.badness, node.count());
    write!(
        text,
        "{width} {height} {depth}, badness {badness}, nodes {count}"
    )?;
    write_setting(text, node.setting())?;
    write_report(text, packed.report.as_slice())
}

/// The transcript's line, with `|` for the end of a line.
fn write_report(text: &mut String, report: &[u8]) -> Result<(), AllocError> {
    if !report.is_empty() {
        text.push_str("; ")?;
    }
    for byte in report {
        let code = if *byte == b'\n' { b'|' } else { *byte };
        text.push(char::from(code))?;
    }
    Ok(())
}

fn write_setting(text: &mut String, setting: Setting) -> Result<(), AllocError> {
    match setting {
        Setting::Natural => text.push_str(", natural"),
        Setting::Set(set) => {
            let word = match set.change {
                Change::Stretch => "stretch",
                Change::Shrink => "shrink",
            };
            let (order, total, excess) = (set.order, set.total, set.excess);
            write!(text, ", {word} {order} {total} {excess}")
        }
    }
}
