//! Boxes and rules at the end of a list.
ghost use Rattle.std.specs.Prelude.{◌≡◌, ◌≢◌, Ok, Err, IfErr, OnOk};
ghost use Rattle.tx_nest.specs.Appended.{box_appended, rule_appended, with_leading};
ghost use Rattle.tx_nest.specs.declared.leading.NestError.TheVariants.{OutOfMemory};

use crate::leading::{LeadingParams, NestError, leading_behind};
use crate::list::ModeList;
use std::alloc::{AllocError, Global};
use tx_node::{BoxNode, Node, Nodes, Plain, Rule, Shared};
use tx_num::Glue;

/// Puts leading at the end of a list, if there is any.
pub fn append_leading(nodes: &mut Nodes, leading: Option<Glue>) -> Result<(), AllocError>
    ensures { OnOk result (nodes.new ≡ with_leading nodes.old leading) }
{
    match leading {
        Some(glue) => nodes.push(Node::Plain(Plain::Glue(glue))),
        None => Ok(()),
    }
}

/// Appends a box that is shifted by so many sp, with leading before it where the list is vertical. `SizeOutOfRange` comes
/// exactly where that leading is no dimension. After an error the list may only be dropped.
pub fn append_box(
    alloc: Global,
    list: &mut ModeList,
    params: &LeadingParams,
    shift: i32,
    packed: BoxNode,
) -> Result<(), NestError>
    ensures appended { OnOk result (box_appended params.now list.old shift packed ≡ Ok list.new) }
    ensures error { IfErr result (λ e. e ≢ OutOfMemory → box_appended params.now list.old shift packed ≡ Err e) }
{
    let leading = leading_behind(params, list.state.prev_depth(), packed.height())?;
    append_leading(&mut list.nodes, leading)?;
    list.state = list.state.behind_box(packed.depth());
    let node = Node::from_box(alloc, shift, packed)?;
    list.nodes.push(node)?;
    Ok(())
}

/// Appends a rule. After want of memory, its only error, the list may only be dropped.
pub fn append_rule(alloc: Global, list: &mut ModeList, rule: Rule) -> Result<(), AllocError>
    ensures { OnOk result (list.new ≡ rule_appended list.old rule) }
{
    list.state = list.state.behind_rule();
    let node = Node::from_shared(alloc, Shared::Rule(rule))?;
    list.nodes.push(node)
}
