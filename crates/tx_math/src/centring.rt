//! Boxes whose list is centred to another width (TeX: The Program, section 715).
ghost use Rattle.std.specs.Prelude.{◌≡◌, ◌≢◌, ◌∷◌, ◌++◌, [], IfOk, IfErr, OnOk, Ok, Err};
ghost use Rattle.tx_node.specs.declared.plain.Plain.TheVariants as small;
ghost use Rattle.tx_node.specs.Items.{plain};
ghost use Rattle.tx_node.specs.Nodes.{item_of, list_of};
ghost use Rattle.tx_math.specs.Boxes as spec;
ghost use Rattle.tx_math.specs.Setters.{IsSetter, math_in};
ghost use Rattle.tx_math.specs.declared.error.MathError.TheVariants.{OutOfMemory};

use crate::boxes::{boxed, kern, single, stored, with_width};
use crate::error::MathError;
use crate::setter::Setter;
use crate::sums::minus;
use std::alloc::{AllocError, Global};
use tx_bytes::Bytes;
use tx_node::{BoxNode, Direction, Node, Nodes, Plain};
use tx_num::Glue;
use tx_pack::{Goal, Packed, hpack};

/// \hss.
fn ss_glue() -> Node
    ensures { item_of result ≡ plain (small.Glue spec.ss_glue) }
{
    Node::Plain(Plain::Glue(Glue::new(0, 65_536, 1, 65_536, 1)))
}

/// The width of a character in sp, None of other nodes.
fn character_width(node: &Node) -> Option<i32>
    ensures { result ≡ spec.item_character_width (item_of node.now) }
{
    match node {
        Node::Plain(Plain::Character(character)) => Some(character.width),
        Node::Plain(Plain::Kern(_, _) | Plain::Glue(_) | Plain::Penalty(_)) => None,
        Node::Shared(_) | Node::Box(_, _) => None,
        Node::Discretionary(_) | Node::Adjustment(_) | Node::Insertion(_) => None,
        Node::BoxLeaders(_) => None,
    }
}

/// The width of the only node of a list, if it is a character, in sp.
fn lone_character_width(list: &[Node]) -> Option<i32>
    ensures { result ≡ spec.lone_character_width (list_of list.now) }
{
    match list {
        [] => None,
        [only] => character_width(only),
        [_, _, ..] => None,
    }
}

/// Puts a kern of so many sp at the end of a list, unless it is none.
fn append_kern(list: &mut Nodes, size: i64) -> Result<(), MathError>
    ensures made { OnOk result (spec.with_more list.old (spec.kern_behind size) ≡ Ok list.new) }
    ensures error { IfErr result (λ e. e ≢ OutOfMemory → spec.with_more list.old (spec.kern_behind size) ≡ Err e) }
{
    if size != 0 {
        let size = stored(size)?;
        list.push(kern(size))?;
    }
    Ok(())
}

/// Puts the kern that a character alone in a box of this width has lost behind it again.
fn append_lost_kern(list: &mut Nodes, width: i32, own: Option<i32>) -> Result<(), MathError>
    ensures made { OnOk result (spec.with_more list.old (spec.lost_kern width own) ≡ Ok list.new) }
    ensures error { IfErr result (λ e. e ≢ OutOfMemory → spec.with_more list.old (spec.lost_kern width own) ≡ Err e) }
{
    match own {
        Some(own) => append_kern(list, minus(i64::from(width), i64::from(own))),
        None => Ok(()),
    }
}

/// The list of a horizontal box that is centred.
fn horizontal_list(inner: BoxNode) -> Result<Nodes, MathError>
    ensures made { IfOk result (λ list. spec.horizontal_list inner ≡ Ok list) }
    ensures error { IfErr result (λ e. e ≢ OutOfMemory → spec.horizontal_list inner ≡ Err e) }
{
    let width = inner.width();
    let own = lone_character_width(inner.list());
    let mut list = inner.into_nodes()?;
    append_lost_kern(&mut list, width, own)?;
    Ok(list)
}

/// What is centred of a box.
fn centred_list(alloc: Global, inner: BoxNode) -> Result<Nodes, MathError>
    ensures made { IfOk result (λ list. spec.centred_by inner.head.direction inner ≡ Ok list) }
    ensures error { IfErr result (λ e. e ≢ OutOfMemory → spec.centred_by inner.head.direction inner ≡ Err e) }
{
    match inner.direction() {
        Direction::Horizontal => horizontal_list(inner),
        Direction::Vertical => Ok(single(alloc, boxed(alloc, inner)?)?),
    }
}

/// The same between \hss on both sides.
#[tactic(auto, unfolding(crate::specs::Boxes::centred))]
fn centred(alloc: Global, inner: BoxNode) -> Result<Nodes, MathError>
    ensures made { IfOk result (λ list. spec.centred inner ≡ Ok list) }
    ensures error { IfErr result (λ e. e ≢ OutOfMemory → spec.centred inner ≡ Err e) }
{
    let mut middle = centred_list(alloc, inner)?;
    let mut list = single(alloc, ss_glue())?;
    list.append(&mut middle)?;
    list.push(ss_glue())?;
    Ok(list)
}

/// Whether a box stays as it is where it is to have this width, in sp.
fn keeps_list(width: i32, inner: &BoxNode) -> bool
    ensures { result ≡ spec.keeps_list width inner.now }
{
    minus(i64::from(inner.width()), i64::from(width)) == 0 || inner.list().len() == 0
}

impl Setter<'_> {
    /// A box of this width, in sp, in which what was in it is centred, and what is told of it.
    #[tactic(auto, unfolding(crate::specs::Boxes::reboxed))]
    pub fn reboxed(
        &self,
        alloc: Global,
        width: i32,
        inner: BoxNode,
        report: &mut Bytes,
    ) -> Result<BoxNode, MathError>
        requires { IsSetter self.now }
        ensures made { IfOk result (λ made. spec.reboxed (math_in self.now) width inner report.old ≡ Ok (made, report.new)) }
        ensures error { IfErr result (λ e. e ≢ OutOfMemory → spec.reboxed (math_in self.now) width inner report.old ≡ Err e) }
    {
        if keeps_list(width, &inner) {
            return with_width(inner, i64::from(width));
        }
        self.centred_to(alloc, width, inner, report)
    }

    /// What is in a box centred to a width, in sp, and what is told of it.
    #[tactic(auto, unfolding(crate::specs::Boxes::centred_to))]
    fn centred_to(
        &self,
        alloc: Global,
        width: i32,
        inner: BoxNode,
        report: &mut Bytes,
    ) -> Result<BoxNode, MathError>
        requires { IsSetter self.now }
        ensures made { IfOk result (λ made. spec.centred_to (math_in self.now) width inner report.old ≡ Ok (made, report.new)) }
        ensures error { IfErr result (λ e. e ≢ OutOfMemory → spec.centred_to (math_in self.now) width inner report.old ≡ Err e) }
    {
        let list = centred(alloc, inner)?;
        self.set_to(alloc, i64::from(width), list, report)
    }

    /// A list in a horizontal box of this width, in sp, and what is told of it.
    #[tactic(auto, unfolding(crate::specs::Boxes::set_to))]
    fn set_to(
        &self,
        alloc: Global,
        width: i64,
        list: Nodes,
        report: &mut Bytes,
    ) -> Result<BoxNode, MathError>
        requires { IsSetter self.now }
        ensures made { IfOk result (λ made. spec.set_to (math_in self.now) width list report.old ≡ Ok (made, report.new)) }
        ensures error { IfErr result (λ e. e ≢ OutOfMemory → spec.set_to (math_in self.now) width list report.old ≡ Err e) }
    {
        let width = stored(width)?;
        let goal = Goal::To(i64::from(width));
        let packed = hpack(alloc, list, goal, &self.params.packing)?;
        report.append(packed.report.as_slice())?;
        let Packed { node, .. } = packed;
        Ok(node)
    }
}
