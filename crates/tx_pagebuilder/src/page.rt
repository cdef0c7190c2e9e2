//! A page.
use crate::classes::Classes;
use crate::kern::Kern;
use crate::measures::Measures;
use std::marker::Model;
use tx_node::Nodes;

/// A page that is being built: the nodes on it, the kern that waits for what comes behind it, the classes of insertions on it, and
/// what it measures. Contracts see a record of these.
#[derive(Drop)]
pub struct Page {
    pub(crate) nodes: Nodes,
    pub(crate) waiting: Option<Kern>,
    pub(crate) classes: Classes,
    pub(crate) measures: Measures,
}

impl Model for Page {
    ghost use Rattle.tx_pagebuilder.specs.Pages.{Page as PageRecord};

    ghost Value = { PageRecord };

    ghost use Rattle.tx_pagebuilder.specs.Codes.{page_code};

    ghost coded = { page_code };

    ghost view = { λ p. record { nodes = p.nodes; waiting = p.waiting; classes = p.classes; measures = p.measures } };

    ghost use Rattle.tx_pagebuilder.specs.Placing.{IsMeasured};

    ghost invariant = { λ p. IsMeasured p.measures };
}
