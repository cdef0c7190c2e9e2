//! Lists of boxes, as they are written in cases: `kN` is a kern, `rW,H,D` a rule, where `-` is a side that isn't given,
//! `gW,S,O,T,P` glue of width W that stretches by S of order O and shrinks by T of order P, `s` the same of nothing, `pN` a
//! penalty, `xTEXT` a special, `lRULE/GLUE` leaders, `m` a mark of no tokens, and what stands between `(` and `)N` a box of the
//! natural size, shifted by N or not at all. What stands between `(` and `)v` is the list of a \vadjust, before `)iN` that of an
//! insertion of class N; `( LIST / LIST )dN` is a discretionary whose no-break text are the N items behind it. `N*` before one of
//! these words stands for so many of it.
ghost use Rattle.std.specs.Prelude.{IfSome};
ghost use Rattle.tx_num.specs.Glue.{IsDimension};

use std::alloc::{AllocError, Global};
use std::mem;
use tx_bytes::Bytes;
use tx_node::{
    BoxNode, InsertHead, KernKind, Leaders, LeadersKind, Node, Nodes, Plain, Rule, Shared,
};
use tx_num::{Glue, Range};
use tx_pack::{Goal, PackError, PackParams, hpack};
use tx_toklist::{TokList, Toks};

/// Why there is no list.
#[derive(Drop)]
pub enum Fault {
    /// The text isn't one's.
    Malformed,
    /// A box of it can't be packed.
    Unpacked(PackError),
    /// There is no memory left.
    Memory,
}

impl From<AllocError> for Fault {
    fn from(_: AllocError) -> Fault {
        Fault::Memory
    }
}

/// The list of a text.
pub fn list_of(alloc: Global, text: &str) -> Result<Nodes, Fault> {
    let mut list = Nodes::new(alloc);
    read_into(alloc, &mut list, text)?;
    Ok(list)
}

fn read_into(alloc: Global, list: &mut Nodes, text: &str) -> Result<(), Fault> {
    let mut outer = Vec::new(alloc);
    read_words(alloc, &mut outer, list, text)
}

fn read_words(
    alloc: Global,
    outer: &mut Vec<Nodes>,
    list: &mut Nodes,
    text: &str,
) -> Result<(), Fault> {
    for word in text.split(' ') {
        let (count, item) = counted(word);
        for _ in 0..count {
            put(alloc, outer, list, item)?;
        }
    }
    Ok(())
}

/// How often a word stands, and the word.
fn counted(word: &str) -> (u32, &str) {
    match word.split_once('*') {
        Some((count, item)) => (count.parse().unwrap_or(0), item),
        None => (1, word),
    }
}

fn put(alloc: Global, outer: &mut Vec<Nodes>, list: &mut Nodes, word: &str) -> Result<(), Fault> {
    if let Some(shift) = word.strip_prefix(')') {
        return end(alloc, outer, list, shift);
    }
    match word {
        "" => Ok(()),
        "(" | "/" => Ok(begin(alloc, outer, list)?),
        _ => Ok(list.push(node_of(alloc, word)?)?),
    }
}

fn begin(alloc: Global, outer: &mut Vec<Nodes>, list: &mut Nodes) -> Result<(), AllocError> {
    outer.push(mem::replace(list, Nodes::new(alloc)))?;
    Ok(())
}

fn end(alloc: Global, outer: &mut Vec<Nodes>, list: &mut Nodes, sign: &str) -> Result<(), Fault> {
    let item = match sign.strip_prefix('d') {
        Some(replaced) => discretionary_of(alloc, outer, list, replaced)?,
        None => ended(alloc, closed(outer, list)?, sign)?,
    };
    Ok(list.push(item)?)
}

/// The list that ends; the one around it stands again.
fn closed(outer: &mut Vec<Nodes>, list: &mut Nodes) -> Result<Nodes, Fault> {
    match outer.pop() {
        Some(around) => Ok(mem::replace(list, around)),
        None => Err(Fault::Malformed),
    }
}

fn discretionary_of(
    alloc: Global,
    outer: &mut Vec<Nodes>,
    list: &mut Nodes,
    replaced: &str,
) -> Result<Node, Fault> {
    let replaced = replaced.parse().ok().ok_or(Fault::Malformed)?;
    let behind = closed(outer, list)?;
    let before = closed(outer, list)?;
    Ok(Node::from_discretionary(alloc, before, behind, replaced, false)?)
}

/// What a list is whose end has this sign.
fn ended(alloc: Global, inner: Nodes, sign: &str) -> Result<Node, Fault> {
    if sign == "v" {
        return Ok(Node::from_adjustment(alloc, inner)?);
    }
    if let Some(class) = sign.strip_prefix('i') {
        let class = class.parse().ok().ok_or(Fault::Malformed)?;
        return Ok(Node::from_insertion(alloc, insert_head(class), inner)?);
    }
    let node = natural(alloc, inner)?;
    Ok(Node::from_box(alloc, sign.parse().unwrap_or(0), node)?)
}

fn insert_head(class: u8) -> InsertHead {
    InsertHead {
        class,
        size: 0,
        split_top_skip: Glue::zero(),
        split_max_depth: 0,
        floating_penalty: 0,
    }
}

/// A list in a box of its natural size.
pub fn natural(alloc: Global, list: Nodes) -> Result<BoxNode, Fault> {
    let params = PackParams {
        badness: 10000,
        fuzz: 0,
        overfull_rule: 0,
    };
    match hpack(alloc, list, Goal::Natural, &params) {
        Ok(packed) => Ok(packed.node),
        Err(error) => Err(Fault::Unpacked(error)),
    }
}

fn node_of(alloc: Global, word: &str) -> Result<Node, Fault> {
    if let Some(item) = plain_of(word) {
        return Ok(Node::Plain(item));
    }
    let item = shared_of(alloc, word)?.ok_or(Fault::Malformed)?;
    Ok(Node::from_shared(alloc, item)?)
}

fn plain_of(word: &str) -> Option<Plain> {
    if word == "s" {
        return Some(Plain::Glue(Glue::zero()));
    }
    if let Some(size) = word.strip_prefix('k') {
        return Some(Plain::Kern(KernKind::Explicit, size.parse().ok()?));
    }
    if let Some(penalty) = word.strip_prefix('p') {
        return Some(Plain::Penalty(penalty.parse().ok()?));
    }
    Some(Plain::Glue(glue_of(word.strip_prefix('g')?, 1)?))
}

fn shared_of(alloc: Global, word: &str) -> Result<Option<Shared>, AllocError> {
    if let Some(text) = word.strip_prefix('x') {
        let text = Bytes::from_slice(alloc, text.as_bytes())?;
        return Ok(Some(Shared::Special(text)));
    }
    if let Some(sides) = word.strip_prefix('r') {
        return Ok(rule_of(sides).map(Shared::Rule));
    }
    if word == "m" {
        return Ok(Some(Shared::Mark(TokList::from_toks(alloc, Toks::new(alloc))?)));
    }
    Ok(leaders_of(word).map(Shared::Leaders))
}

fn leaders_of(word: &str) -> Option<Leaders> {
    let (rule, glue) = word.strip_prefix('l')?.split_once('/')?;
    Some(Leaders {
        kind: LeadersKind::Aligned,
        glue: glue_of(glue, 1)?,
        rule: rule_of(rule)?,
    })
}

fn rule_of(sides: &str) -> Option<Rule> {
    let (width, rest) = sides.split_once(',')?;
    let (height, depth) = rest.split_once(',')?;
    Some(Rule {
        width: width.parse().ok(),
        height: height.parse().ok(),
        depth: depth.parse().ok(),
    })
}

/// Glue, if the text is `W,S,O,T,P`, with sizes in a unit of so many sp.
pub fn glue_of(text: &str, unit: i64) -> Option<Glue> {
    let (width, rest) = text.split_once(',')?;
    let (stretch, rest) = rest.split_once(',')?;
    let (stretch_order, rest) = rest.split_once(',')?;
    let (shrink, shrink_order) = rest.split_once(',')?;
    let stretch_order: u8 = stretch_order.parse().ok()?;
    let shrink_order: u8 = shrink_order.parse().ok()?;
    if stretch_order > 3 || shrink_order > 3 {
        return None;
    }
    Some(Glue::new(
        dimension_of(width, unit)?,
        dimension_of(stretch, unit)?,
        stretch_order,
        dimension_of(shrink, unit)?,
        shrink_order,
    ))
}

/// A size in sp, if the text is that of a dimension in a unit of so many sp.
pub fn dimension_of(text: &str, unit: i64) -> Option<i64>
    ensures { IfSome result IsDimension }
{
    let count: i64 = text.parse().ok()?;
    let size = count.checked_mul(unit)?;
    if Range::Dimen.holds(size) {
        Some(size)
    } else {
        None
    }
}
