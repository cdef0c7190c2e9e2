//! Where a display stands, what it is set by, and what there is beside it.
use tx_bytes::Bytes;
use tx_nest::LeadingParams;
use tx_node::BoxNode;
use tx_num::Glue;
use tx_pack::PackParams;
use tx_prim::NumberSide;

/// Where a display stands, in sp: how far the line before it reaches, how wide its own line is, and how far that is indented. These
/// are \predisplaysize, \displaywidth and \displayindent (The TeXbook, chapter 19).
#[derive(Clone, Copy)]
pub struct DisplayPlace {
    pub size: i32,
    pub width: i32,
    pub indent: i32,
}

/// What a display is set by, by TeX's names: its place, \predisplaypenalty and \postdisplaypenalty, the glue above and below it, where
/// the line before reaches over it and where it is short, the parameters of leading and of horizontal boxes, and the quad of the symbol
/// font of text size, in sp.
#[derive(Clone, Copy)]
pub struct DisplayParams {
    pub place: DisplayPlace,
    pub pre_penalty: i32,
    pub post_penalty: i32,
    pub above_skip: Glue,
    pub above_short_skip: Glue,
    pub below_skip: Glue,
    pub below_short_skip: Glue,
    pub leading: LeadingParams,
    pub packing: PackParams,
    pub quad: i64,
}

/// The number of an equation: on which side it stands, and its box.
#[derive(Drop)]
pub struct EquationNumber {
    pub side: NumberSide,
    pub packed: BoxNode,
}

/// How bad the box is that was packed last for a display, and the transcript's line of its formula's box, if it has one.
#[derive(Drop)]
pub struct Told {
    pub badness: i64,
    pub report: Bytes,
}
