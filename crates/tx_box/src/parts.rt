//! The lists that are being built with the boxes that they are to become, and what a command of boxes answers.
use tx_list::Stack;
use tx_mlist::{Above, Mlist};
use tx_nest::Nest;
use tx_node::{BoxNode, Nodes};
use tx_output::Pages;
use tx_prim::{BoxKind, LeadersKind};
use tx_seen::TexError;
use tx_shape::{BoxContext, BoxGoal};

/// What becomes of a box (TeX: The Program, section 1071).
#[derive(Clone, Copy, PartialEq, Eq)]
pub struct Target {
    /// Where it goes.
    pub context: BoxContext,
    /// Whether \global or \globaldefs is in force, which \setbox alone asks.
    pub global: bool,
}

/// A box whose list is being built.
#[derive(Clone, Copy)]
pub struct OpenBox {
    /// How the list is packed, and to what.
    pub kind: BoxKind,
    pub goal: BoxGoal,
    /// What becomes of the box.
    pub target: Target,
}

/// A formula that is being built (TeX: The Program, section 212). The nodes behind the last of its noads stand in its list.
#[derive(Drop)]
pub struct OpenFormula {
    /// Its noads up to there.
    pub noads: Mlist,
    /// What stands above the line of a fraction, once that has come.
    pub above: Option<Above>,
}

/// The lists that are being built.
#[derive(Drop)]
pub struct Lists {
    /// The innermost, with its mode, and those around it.
    pub nest: Nest,
    /// \badness: how bad the box is that was packed last, 0 to 10000, or 1000000 where it was overfull.
    pub badness: i64,
    /// The boxes whose lists are being built, the innermost first.
    pub boxes: Stack<OpenBox>,
    /// The formulas that are being built, the innermost first: one for each list in a mode of formulas.
    pub formulas: Stack<OpenFormula>,
    /// What is kept of pages.
    pub pages: Pages,
}

/// What a command leaves to a turn of its own.
#[derive(Drop)]
pub enum Work {
    /// To copy this box to where it is to go.
    Copy(BoxNode, Target),
    /// To copy this list to the end of the one that is being built.
    CopyList(Nodes),
    /// To ship this box.
    Ship(BoxNode),
    /// To ship the box of a page that fired, and then to go on with the page builder.
    ShipPage(BoxNode),
    /// To go on with the page builder.
    Build,
}

/// What a command of boxes answers.
#[derive(Drop)]
pub enum Done {
    /// All of it is done.
    Whole,
    /// All but this, which is due.
    Due(Work),
    /// All of it is done, and leaders of this kind repeat this box: their glue is to follow.
    Leads(LeadersKind, BoxNode),
    /// It is wrong.
    Wrong(TexError),
}
