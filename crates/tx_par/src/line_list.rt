//! What stands in a line.
ghost use Rattle.std.specs.Prelude.{◌≡◌, ◌∷◌, ◌++◌, [], IfOk, OnOk, filter, slice_get, Some};
ghost use Rattle.tx_node.specs.declared.plain.Plain.TheVariants as small;
ghost use Rattle.tx_node.specs.Items.{plain, shared};
ghost use Rattle.tx_node.specs.Nodes.{item_of, list_of};
ghost use Rattle.tx_par.specs.LineLists as spec;

use crate::line::Line;
use std::alloc::{AllocError, Global};
use tx_node::{Discretionary, Node, Nodes, Plain, Shared};
use tx_num::Glue;

/// Whether glue is no space at all.
fn is_zero(glue: &Glue) -> bool
    ensures { result ≡ spec.is_zero glue.now }
{
    glue.width() == 0 && (glue.stretch() == 0 && glue.shrink() == 0)
}

/// Whether a node is in a line that is set of the chain of the first pass, or of another one.
fn stays(first_pass: bool, node: &Node) -> bool
    ensures { result ≡ spec.stays first_pass (item_of node.now) }
{
    match node {
        Node::Discretionary(broken) => !(first_pass && broken.is_hyphenated()),
        Node::Plain(_) | Node::Shared(_) | Node::Box(_, _) => true,
        Node::Adjustment(_) | Node::Insertion(_) => true,
        Node::BoxLeaders(_) => true,
    }
}

/// Puts the items of a list behind those of another one, which then shares them.
fn share_all(nodes: &mut Nodes, more: &[Node]) -> Result<(), AllocError>
    ensures { OnOk result (nodes.new ≡ nodes.old ++ list_of more.now) }
{
    for node in more {
        nodes.push(node.clone()?)?;
    }
    Ok(())
}

/// What of these items stands in a box, and what leaves it and follows it; both share them. Its only error is want of memory.
pub fn line_of(alloc: Global, items: &[Node]) -> Result<Line, AllocError>
    ensures { IfOk result (λ line. line ≡ spec.line_of (list_of items.now)) }
{
    let mut line = Line::new(alloc);
    line.share_text(items)?;
    Ok(line)
}

impl Line {
    /// A line with nothing in it; takes no memory.
    pub(crate) fn new(alloc: Global) -> Line
        ensures { result ≡ spec.empty_line }
    {
        Line {
            own: Nodes::new(alloc),
            behind: Nodes::new(alloc),
        }
    }

    /// Adds an item that it shares with the paragraph's list. After want of memory, its only error, the line may only be dropped.
    #[tactic(auto, using(crate::proofs::Lists::listed))]
    pub(crate) fn share(&mut self, node: &Node) -> Result<(), AllocError>
        ensures { OnOk result (self.new ≡ spec.with_item self.old (item_of node.now)) }
    {
        match node {
            Node::Plain(_) | Node::Box(_, _) | Node::Discretionary(_) => self.share_own(node),
            Node::Shared(item) => self.share_larger(node, item),
            Node::Adjustment(list) => share_all(&mut self.behind, list.as_slice()),
            Node::Insertion(_) => self.share_behind(node),
            Node::BoxLeaders(_) => self.share_own(node),
        }
    }

    /// Adds an item that stands in the line's box.
    fn share_own(&mut self, node: &Node) -> Result<(), AllocError>
        ensures { OnOk result (self.new ≡ spec.with_own self.old (item_of node.now)) }
    {
        self.own.push(node.clone()?)
    }

    /// Adds an item that follows the line's box.
    fn share_behind(&mut self, node: &Node) -> Result<(), AllocError>
        ensures { OnOk result (self.new ≡ spec.with_behind self.old (item_of node.now ∷ [])) }
    {
        self.behind.push(node.clone()?)
    }

    /// Adds a node that is this larger item.
    fn share_larger(&mut self, node: &Node, item: &Shared) -> Result<(), AllocError>
        requires { item_of node.now ≡ shared item.now }
        ensures { OnOk result (self.new ≡ spec.with_shared self.old item.now) }
    {
        match item {
            Shared::Mark(_) => self.share_behind(node),
            Shared::Rule(_) | Shared::Leaders(_) | Shared::Special(_) | Shared::Ligature(_) =>
                self.share_own(node),
        }
    }

    /// Adds the items of a text.
    fn share_text(&mut self, text: &[Node]) -> Result<(), AllocError>
        ensures { OnOk result (self.new ≡ spec.with_items self.old (list_of text.now)) }
    {
        for node in text {
            self.share(node)?;
        }
        Ok(())
    }

    /// Adds glue.
    pub(crate) fn push_glue(&mut self, glue: Glue) -> Result<(), AllocError>
        ensures { OnOk result (self.new ≡ spec.with_items self.old (plain (small.Glue glue) ∷ [])) }
    {
        self.own.push(Node::Plain(Plain::Glue(glue)))
    }

    /// Adds glue, unless all its sizes are 0.
    pub(crate) fn push_glue_unless_zero(&mut self, glue: Glue) -> Result<(), AllocError>
        ensures { OnOk result (self.new ≡ spec.with_items self.old (spec.glue_unless_zero glue)) }
    {
        if is_zero(&glue) {
            return Ok(());
        }
        self.push_glue(glue)
    }

    /// Adds the items of a part of the list that stay in lines.
    pub(crate) fn share_between(
        &mut self,
        nodes: &[Node],
        first_pass: bool,
    ) -> Result<(), AllocError>
        ensures { OnOk result (self.new ≡ spec.with_items self.old (filter (spec.stays first_pass) (list_of nodes.now))) }
    {
        self.own.reserve(nodes.len())?;
        for node in nodes {
            if stays(first_pass, node) {
                self.share(node)?;
            }
        }
        Ok(())
    }
}

impl Line {
    /// Adds the text that a node at a break puts at the beginning of the next line.
    #[tactic(auto, using(crate::proofs::Lists::listed))]
    fn share_text_behind(&mut self, node: &Node) -> Result<(), AllocError>
        ensures { OnOk result (self.new ≡ spec.with_items self.old (spec.text_behind (Some (item_of node.now)))) }
    {
        match node {
            Node::Discretionary(broken) => self.share_text(broken.behind()),
            Node::Plain(_) | Node::Shared(_) | Node::Box(_, _) => Ok(()),
            Node::Adjustment(_) | Node::Insertion(_) => Ok(()),
            Node::BoxLeaders(_) => Ok(()),
        }
    }

    /// Adds the text that a break, if the line doesn't begin the list, puts at its beginning.
    pub(crate) fn share_carried(
        &mut self,
        items: &[Node],
        from: Option<usize>,
    ) -> Result<(), AllocError>
        ensures { OnOk result (self.new ≡ spec.with_items self.old (spec.carried (list_of items.now) from)) }
    {
        let Some(place) = from else {
            return Ok(());
        };
        match items.get(place) {
            Some(node) => self.share_text_behind(node),
            None => Ok(()),
        }
    }

    /// Adds what a small item at the line's end leaves there.
    fn push_plain_left(&mut self, item: Plain) -> Result<(), AllocError>
        ensures { OnOk result (self.new ≡ spec.with_items self.old (spec.plain_left item)) }
    {
        match item {
            Plain::Glue(_) => Ok(()),
            Plain::Kern(kind, _) => self.own.push(Node::Plain(Plain::Kern(kind, 0))),
            Plain::Penalty(_) | Plain::Character(_) => self.own.push(Node::Plain(item)),
        }
    }

    /// Adds what a node that is this larger item leaves at the line's end.
    fn share_larger_left(&mut self, node: &Node, item: &Shared) -> Result<(), AllocError>
        requires { item_of node.now ≡ shared item.now }
        ensures { OnOk result (self.new ≡ spec.with_items self.old (spec.shared_left item.now)) }
    {
        match item {
            Shared::Leaders(_) => Ok(()),
            Shared::Rule(_) | Shared::Special(_) | Shared::Ligature(_) | Shared::Mark(_) =>
                self.share_larger(node, item),
        }
    }

    /// Adds an empty discretionary.
    fn push_empty_discretionary(&mut self, alloc: Global) -> Result<(), AllocError>
        ensures { OnOk result (self.new ≡ spec.with_own self.old spec.empty_discretionary) }
    {
        let (before, behind) = (Nodes::new(alloc), Nodes::new(alloc));
        self.own
            .push(Node::from_discretionary(alloc, before, behind, 0, false)?)
    }

    /// Adds what a discretionary at the line's end leaves there.
    fn share_broken(&mut self, alloc: Global, broken: &Discretionary) -> Result<(), AllocError>
        ensures { OnOk result (self.new ≡ spec.with_items self.old (spec.empty_discretionary ∷ broken.now.before)) }
    {
        self.push_empty_discretionary(alloc)?;
        self.share_text(broken.before())
    }

    /// Adds what a node at the line's end leaves there.
    #[tactic(auto, using(crate::proofs::Lists::listed))]
    fn share_left(&mut self, alloc: Global, node: &Node) -> Result<(), AllocError>
        ensures { OnOk result (self.new ≡ spec.with_items self.old (spec.left_at (Some (item_of node.now)))) }
    {
        match node {
            Node::Plain(item) => self.push_plain_left(*item),
            Node::Shared(item) => self.share_larger_left(node, item),
            Node::Discretionary(broken) => self.share_broken(alloc, broken),
            Node::Box(_, _) | Node::Adjustment(_) | Node::Insertion(_) => self.share(node),
            Node::BoxLeaders(_) => Ok(()),
        }
    }

    /// Adds what stands at the break that ends the line; nothing at the list's end.
    pub(crate) fn share_end(
        &mut self,
        alloc: Global,
        items: &[Node],
        place: usize,
    ) -> Result<(), AllocError>
        ensures { OnOk result (self.new ≡ spec.with_items self.old (spec.left_at (slice_get (list_of items.now) place))) }
    {
        match items.get(place) {
            Some(node) => self.share_left(alloc, node),
            None => Ok(()),
        }
    }
}
