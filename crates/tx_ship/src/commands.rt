//! Single commands of a page, appended to those before them (the DVI standard).
ghost use Rattle.std.specs.Prelude.{◌≡◌, ◌≤◌, ◌++◌, ◌-ℤ◌, ◌+ℤ◌, ◌∷◌, ◌==◌, ◌-◌, [], length, take, if◌then◌else◌, OnOk, IfOk};
ghost use Rattle.tx_ship.specs.Commands as spec;
ghost use Rattle.tx_ship.specs.Within.{IsOnPage, IsReader, IsCornered};

use crate::places::{CornerRule, Cursor};
use std::alloc::AllocError;
use tx_bytes::Bytes;
use tx_dvi::four_bytes;
use tx_node::Direction;

/// The shortest commands that move right and down.
const RIGHT1: u8 = 143;

const DOWN1: u8 = 157;

const SET_RULE: u8 = 132;

const PUT_RULE: u8 = 137;

const PUSH: u8 = 141;

const POP: u8 = 142;

const XXX1: u8 = 239;

const XXX4: u8 = 242;

/// The fewest bytes that hold a movement with its sign.
fn movement_size(by: i32) -> usize
    ensures value { result ≡ spec.movement_size by }
    ensures least { 1 ≤ result }
    ensures most { result ≤ 4 }
{
    let size = by.unsigned_abs();
    if size < 1 << 7 {
        1
    } else if size < 1 << 15 {
        2
    } else if size < 1 << 23 {
        3
    } else {
        4
    }
}

/// Appends a movement, none at all by 0, by a command of the family of which the shortest is given.
#[tactic(auto, unfolding(crate::specs::Commands::movement))]
fn move_by(body: &mut Vec<u8>, shortest: u8, by: i32) -> Result<(), AllocError>
    requires { shortest ≤ 252 }
    ensures { OnOk result (body.new.items ≡ body.old.items ++ spec.movement shortest by) }
{
    if by == 0 {
        return Ok(());
    }
    let size = movement_size(by);
    body.push(shortest + (size - 1) as u8)?;
    body.extend_from_slice(&four_bytes(by)[4 - size..])
}

/// The way from one place of a page to another.
fn difference(to: i32, from: i32) -> i32
    requires to { IsOnPage to }
    requires from { IsOnPage from }
    ensures { result ≡ to -ℤ from }
{
    to - from
}

/// Appends a movement down.
pub fn move_down(body: &mut Vec<u8>, from: Cursor, to: Cursor) -> Result<(), AllocError>
    requires from { IsReader from }
    requires to { IsReader to }
    ensures { OnOk result (body.new.items ≡ body.old.items ++ spec.down (to.down -ℤ from.down)) }
{
    move_by(body, DOWN1, difference(to.down, from.down))
}

/// Appends a movement to the right.
fn move_right(body: &mut Vec<u8>, from: Cursor, to: Cursor) -> Result<(), AllocError>
    requires from { IsReader from }
    requires to { IsReader to }
    ensures { OnOk result (body.new.items ≡ body.old.items ++ spec.right (to.right -ℤ from.right)) }
{
    move_by(body, RIGHT1, difference(to.right, from.right))
}

/// Appends the movements from one point of a page to another, that down first.
fn move_down_first(body: &mut Vec<u8>, from: Cursor, to: Cursor) -> Result<(), AllocError>
    requires from { IsReader from }
    requires to { IsReader to }
    ensures { OnOk result (body.new.items ≡ body.old.items ++ (spec.down (to.down -ℤ from.down) ++ spec.right (to.right -ℤ from.right))) }
{
    move_down(body, from, to)?;
    move_right(body, from, to)?;
    Ok(())
}

/// Appends the movements from one point of a page to another.
#[tactic(auto, unfolding(crate::specs::Commands::way))]
pub fn move_to(body: &mut Vec<u8>, from: Cursor, to: Cursor) -> Result<(), AllocError>
    requires from { IsReader from }
    requires to { IsReader to }
    ensures { OnOk result (body.new.items ≡ body.old.items ++ spec.way from to) }
{
    move_by(body, RIGHT1, difference(to.right, from.right))?;
    move_down(body, from, to)?;
    Ok(())
}

/// Appends the movements to a copy that leaders make of a box in a list of this direction.
#[tactic(auto, unfolding(crate::specs::Commands::copy_way))]
pub fn move_to_copy(
    body: &mut Vec<u8>,
    direction: Direction,
    from: Cursor,
    to: Cursor,
) -> Result<(), AllocError>
    requires from { IsReader from }
    requires to { IsReader to }
    ensures { OnOk result (body.new.items ≡ body.old.items ++ spec.copy_way direction from to) }
{
    match direction {
        Direction::Horizontal => move_down_first(body, from, to),
        Direction::Vertical => move_to(body, from, to),
    }
}

/// The command of a rule in a list of this direction.
fn rule_opcode(direction: Direction) -> u8
    ensures { result ≡ spec.rule_opcode direction }
{
    match direction {
        Direction::Horizontal => SET_RULE,
        Direction::Vertical => PUT_RULE,
    }
}

/// Appends a rule where the reader is.
#[tactic(auto, unfolding(crate::specs::Commands::rule_bytes))]
fn rule_bytes(body: &mut Vec<u8>, direction: Direction, rule: CornerRule) -> Result<(), AllocError>
    ensures { OnOk result (body.new.items ≡ body.old.items ++ spec.rule_bytes direction rule) }
{
    body.push(rule_opcode(direction))?;
    body.extend_from_slice(&four_bytes(rule.height))?;
    body.extend_from_slice(&four_bytes(rule.width))
}

/// The cursor behind a rule.
fn behind_rule(direction: Direction, rule: CornerRule) -> Cursor
    requires { IsCornered rule }
    ensures value { result ≡ spec.behind_rule direction rule }
    ensures on_page { IsReader result }
{
    match direction {
        Direction::Horizontal => Cursor {
            right: rule.corner.right + rule.width,
            down: rule.corner.down,
        },
        Direction::Vertical => rule.corner,
    }
}

/// Appends a rule that is seen, and the movements to it from where the reader is.
fn go_and_put(
    body: &mut Vec<u8>,
    direction: Direction,
    cursor: Cursor,
    rule: CornerRule,
) -> Result<(), AllocError>
    requires from { IsReader cursor }
    requires to { IsReader rule.corner }
    ensures { OnOk result (body.new.items ≡ body.old.items ++ (spec.way cursor rule.corner ++ spec.rule_bytes direction rule)) }
{
    move_to(body, cursor, rule.corner)?;
    rule_bytes(body, direction, rule)?;
    Ok(())
}

/// Appends a rule, if it is visible, and answers the cursor behind it.
#[tactic(auto, unfolding(crate::specs::Commands::rule_item))]
pub fn put_rule(
    body: &mut Vec<u8>,
    direction: Direction,
    cursor: Cursor,
    rule: CornerRule,
) -> Result<Cursor, AllocError>
    requires from { IsReader cursor }
    requires to { IsCornered rule }
    ensures commands { OnOk result (body.new.items ≡ body.old.items ++ (spec.rule_item direction cursor rule).0) }
    ensures next { IfOk result (λ next. next ≡ (spec.rule_item direction cursor rule).1) }
    ensures on_page { IfOk result IsReader }
{
    if !(0 < rule.width && 0 < rule.height) {
        return Ok(cursor);
    }
    go_and_put(body, direction, cursor, rule)?;
    Ok(behind_rule(direction, rule))
}

/// Appends a special where the reader is.
#[tactic(auto, unfolding(crate::specs::Commands::special))]
fn special_bytes(body: &mut Vec<u8>, text: &Bytes) -> Result<(), AllocError>
    ensures { OnOk result (body.new.items ≡ body.old.items ++ spec.special text.now) }
{
    let length = text.len();
    if length < 256 {
        body.push(XXX1)?;
        body.push(length as u8)?;
    } else {
        body.push(XXX4)?;
        body.extend_from_slice(&four_bytes(length.min(2147483647) as i32))?;
    }
    body.extend_from_slice(text.as_slice())
}

/// Appends a special that stands there, and the movements to it from where the reader is.
pub fn put_special(
    body: &mut Vec<u8>,
    cursor: Cursor,
    at: Cursor,
    text: &Bytes,
) -> Result<(), AllocError>
    requires from { IsReader cursor }
    requires to { IsReader at }
    ensures { OnOk result (body.new.items ≡ body.old.items ++ (spec.special_item cursor at text.now).0) }
{
    move_to(body, cursor, at)?;
    special_bytes(body, text)?;
    Ok(())
}

/// Appends the push of a box, and answers how many bytes there are behind it.
pub fn open(body: &mut Vec<u8>) -> Result<usize, AllocError>
    ensures push { OnOk result (body.new.items ≡ body.old.items ++ 141 ∷ []) }
    ensures start { IfOk result (λ start. start ≡ length body.new.items) }
{
    body.push(PUSH)?;
    Ok(body.as_slice().len())
}

/// Puts the pop of a box at the end; the push, which is the last command before `start`, is dropped instead where nothing follows
/// it.
pub fn close(body: &mut Vec<u8>, start: usize) -> Result<(), AllocError>
    ensures { OnOk result (body.new.items ≡ (if length body.old.items == start then take (start - 1) body.old.items else body.old.items ++ 142 ∷ [])) }
{
    if body.as_slice().len() == start {
        body.truncate(start.saturating_sub(1));
        return Ok(());
    }
    body.push(POP)?;
    Ok(())
}
