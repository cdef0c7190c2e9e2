//! The texts of \discretionary (TeX: The Program, sections 1117 to 1121).
ghost use Rattle.std.specs.Prelude.{◌≡◌, true, Some, IfOk, OnOk};
ghost use Rattle.tx_nest.specs.Changed.{with_items};
ghost use Rattle.tx_node.specs.Items.{discretionary, items_of};
ghost use Rattle.tx_node.specs.Nodes.{item_of, list_of};
ghost use Rattle.tx_box.specs.Breaks as spec;
ghost use Rattle.tx_box.specs.Effects.{told};
ghost use Rattle.tx_par.specs.LineLists.{empty_discretionary};

use crate::building::leave_list;
use crate::opening::open_group;
use crate::parts::{Done, Lists};
use std::alloc::{AllocError, Global};
use tx_eqtb::{Eqtb, GroupKind};
use tx_nest::{ModeList, ModeState, append_item, append_items};
use tx_node::{Discretionary, KernKind, Node, Nodes, Plain, Shared};
use tx_prim::{BreakText, Mode};
use tx_seen::TexError;

/// How many items the text has at most that stands where no line ends.
const MOST_ITEMS: usize = 255;

/// Whether a kern may stand in a text: not the ends of a formula.
fn kern_may_stand(kind: KernKind) -> bool
    ensures { result ≡ spec.kern_may_stand kind }
{
    match kind {
        KernKind::Implicit | KernKind::Accent | KernKind::Explicit => true,
        KernKind::MathOn | KernKind::MathOff => false,
    }
}

/// Whether a small item may stand in a text.
fn may_stand(item: &Plain) -> bool
    ensures { result ≡ spec.may_stand item.now }
{
    match item {
        Plain::Character(_) => true,
        Plain::Kern(kind, _) => kern_may_stand(*kind),
        Plain::Glue(_) | Plain::Penalty(_) => false,
    }
}

/// Whether a larger item may stand in a text.
fn larger_may_stand(item: &Shared) -> bool
    ensures { result ≡ spec.larger_may_stand item.now }
{
    match item {
        Shared::Rule(_) | Shared::Ligature(_) => true,
        Shared::Leaders(_) | Shared::Special(_) | Shared::Mark(_) => false,
    }
}

/// Whether an item may stand in a text.
fn is_of_text(node: &Node) -> bool
    ensures { result ≡ spec.is_of_text (item_of node.now) }
{
    match node {
        Node::Plain(item) => may_stand(item),
        Node::Shared(item) => larger_may_stand(item),
        Node::Box(_, _) => true,
        Node::Discretionary(_) | Node::Adjustment(_) | Node::Insertion(_) => false,
        Node::BoxLeaders(_) => false,
    }
}

/// Whether all of these items may stand in a text.
fn are_of_text(nodes: &[Node]) -> bool
    ensures { result ≡ spec.are_of_text (list_of nodes.now) }
{
    for node in nodes {
        if !is_of_text(node) {
            return false;
        }
    }
    true
}

/// Whether a list is short enough for this text: the one that stands where no line ends has 255 items at most.
fn fits(text: BreakText, list: &Nodes) -> bool
    ensures { result ≡ spec.fits text list.now }
{
    match text {
        BreakText::Before | BreakText::Behind => true,
        BreakText::Instead => list.len() <= MOST_ITEMS,
    }
}

/// Whether a text stands where no line ends and the list around is a formula's: that has no such text.
fn is_illegal(text: BreakText, around: ModeState, list: &Nodes) -> bool
    ensures { result ≡ spec.is_illegal text around list.now }
{
    match (text, around) {
        (BreakText::Instead, ModeState::Math | ModeState::DisplayMath) => list.len() > 0,
        (_, _) => false,
    }
}

/// A discretionary of these texts, which it shares, and of so many items that stand behind it. Its only error is want of memory.
fn of_texts(
    alloc: Global,
    before: &[Node],
    behind: &[Node],
    replaced: u8,
    hyphenated: bool,
) -> Result<Node, AllocError>
    ensures { IfOk result (λ node. item_of node ≡ discretionary (record { replaced = replaced; hyphenated = hyphenated }) (items_of (list_of before.now)) (items_of (list_of behind.now))) }
{
    let before = Nodes::share_of(alloc, before)?;
    let behind = Nodes::share_of(alloc, behind)?;
    Node::from_discretionary(alloc, before, behind, replaced, hyphenated)
}

/// A discretionary with one text more. Its only error is want of memory.
fn with_text(
    alloc: Global,
    text: BreakText,
    broken: &Discretionary,
    list: &Nodes,
) -> Result<Node, AllocError>
    requires { spec.fits text list.now ≡ true }
    ensures { IfOk result (λ node. item_of node ≡ spec.with_text text broken.now.head (items_of broken.now.before) (items_of broken.now.behind) list.now) }
{
    let (replaced, hyphenated) = (broken.replaced(), broken.is_hyphenated());
    match text {
        BreakText::Before => of_texts(
            alloc,
            list.as_slice(),
            broken.behind(),
            replaced,
            hyphenated,
        ),
        BreakText::Behind => of_texts(
            alloc,
            broken.before(),
            list.as_slice(),
            replaced,
            hyphenated,
        ),
        BreakText::Instead => of_texts(
            alloc,
            broken.before(),
            broken.behind(),
            list.len() as u8,
            hyphenated,
        ),
    }
}

/// Puts a text at a list's end, where it is the one that stands there where no line ends. Its only error is want of memory.
fn put_behind(list: &mut ModeList, text: BreakText, items: Nodes) -> Result<(), AllocError>
    ensures { OnOk result (list.new ≡ with_items list.old (spec.behind_it text items)) }
{
    match text {
        BreakText::Before | BreakText::Behind => Ok(()),
        BreakText::Instead => append_items(list, items),
    }
}

/// The item that stood at a list's end gets one text more, where it is a discretionary, and stands there again; false where it is
/// another. Its only error is want of memory.
fn put_last(
    alloc: Global,
    list: &mut ModeList,
    text: BreakText,
    items: Nodes,
    last: &Node,
) -> Result<bool, AllocError>
    requires { spec.fits text items ≡ true }
    ensures { IfOk result (λ put. spec.texted_by text items list.old (Some (item_of last.now)) ≡ spec.put_if put list.new) }
{
    match last {
        Node::Discretionary(broken) => {
            let texted = with_text(alloc, text, broken, &items)?;
            append_item(list, texted)?;
            put_behind(list, text, items)?;
            Ok(true)
        }
        Node::Plain(_) | Node::Shared(_) | Node::Box(_, _) => Ok(false),
        Node::Adjustment(_) | Node::Insertion(_) => Ok(false),
        Node::BoxLeaders(_) => Ok(false),
    }
}

/// The discretionary with which a list ends gets one text more; false where it ends with none. Its only error is want of memory.
#[tactic(auto, using(crate::proofs::Ends::texted_more, crate::proofs::Ends::texted_none))]
fn put_text(
    alloc: Global,
    list: &mut ModeList,
    text: BreakText,
    items: Nodes,
) -> Result<bool, AllocError>
    requires { spec.fits text items ≡ true }
    ensures { IfOk result (λ put. spec.texted text items list.old ≡ spec.put_if put list.new) }
{
    match list.nodes.pop() {
        Some(last) => put_last(alloc, list, text, items, &last),
        None => Ok(false),
    }
}

/// A discretionary with nothing in it. Its only error is want of memory.
fn empty(alloc: Global) -> Result<Node, AllocError>
    ensures { IfOk result (λ node. item_of node ≡ empty_discretionary) }
{
    let (before, behind) = (Nodes::new(alloc), Nodes::new(alloc));
    Node::from_discretionary(alloc, before, behind, 0, false)
}

/// Before its first text a discretionary stands in the list, with nothing in it. Its only error is want of memory.
fn put_empty(alloc: Global, list: &mut ModeList, text: BreakText) -> Result<(), AllocError>
    ensures { OnOk result (list.new ≡ spec.with_empty text list.old) }
{
    match text {
        BreakText::Before => append_item(list, empty(alloc)?),
        BreakText::Behind | BreakText::Instead => Ok(()),
    }
}

/// The list of a text begins in the list that is being built. Its only error is want of memory.
fn open_text(alloc: Global, lists: &mut Lists, text: BreakText) -> Result<(), AllocError>
    ensures { OnOk result (lists.new ≡ spec.with_open_text text lists.old) }
{
    put_empty(alloc, lists.nest.top(), text)?;
    let list = ModeList::within(alloc, Mode::RestrictedHorizontal, lists.nest.innermost());
    lists.nest.push(list)
}

/// A text of \discretionary begins, in a group of its own. `TooManyGroups` exactly where 255 are open. After want of memory, its
/// only further error, lists and table may only be dropped, here and in what follows.
pub fn begin_break(
    alloc: Global,
    lists: &mut Lists,
    table: &mut Eqtb,
    text: BreakText,
) -> Result<Done, AllocError>
    ensures { IfOk result (λ done. spec.breaking text lists.old table.old ≡ told done lists.new table.new) }
{
    if !open_group(table, GroupKind::Discretionary(text))? {
        return Ok(Done::Wrong(TexError::TooManyGroups));
    }
    open_text(alloc, lists, text)?;
    Ok(Done::Whole)
}

/// What comes of the list of a text, which has ended, in the one around it. Its only error is want of memory.
fn use_text(
    alloc: Global,
    list: &mut ModeList,
    text: BreakText,
    items: Nodes,
) -> Result<Option<TexError>, AllocError>
    ensures { IfOk result (λ error. spec.used text items list.old ≡ spec.told_of error list.new) }
{
    if !are_of_text(items.as_slice()) {
        return Ok(Some(TexError::MissingBox));
    }
    if is_illegal(text, list.state, &items) {
        return Ok(Some(TexError::BadFormula));
    }
    if !fits(text, &items) {
        return Ok(Some(TexError::MissingBox));
    }
    if put_text(alloc, list, text, items)? {
        Ok(None)
    } else {
        Ok(Some(TexError::ExtraGroupEnd))
    }
}

/// A text of \discretionary ends, whose group has ended: it is put into the discretionary with which the list around ends. The
/// answer is what is wrong: `BadFormula` where one that stands where no line ends isn't empty in a formula; `MissingBox` where
/// something else stands in it than characters, ligatures, kerns, boxes and rules, or where it has more than 255 items and is to
/// stand where no line ends; `ExtraGroupEnd` where no list waits around, or it ends with no discretionary, which no command makes.
pub fn end_break(
    alloc: Global,
    lists: &mut Lists,
    text: BreakText,
) -> Result<Option<TexError>, AllocError>
    ensures { IfOk result (λ error. spec.broken text lists.old ≡ spec.told_lists error lists.new) }
{
    if lists.nest.is_outermost() {
        return Ok(Some(TexError::ExtraGroupEnd));
    }
    let items = leave_list(&mut lists.nest);
    use_text(alloc, lists.nest.top(), text, items)
}
