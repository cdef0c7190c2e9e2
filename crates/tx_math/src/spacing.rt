//! Spaces and penalties between atoms (TeX: The Program, sections 760 to 767).
ghost use Rattle.std.specs.Prelude.{◌≡◌, ◌≢◌, ◌<◌, ◌≤◌, ◌++◌, ◌^◌, length, unsigned_abs, None, IfOk, IfErr, OnOk, Ok, Err};
ghost use Rattle.tx_node.specs.Nodes.{item_of};
ghost use Rattle.tx_math.specs.Boxes as boxes;
ghost use Rattle.tx_math.specs.Converting.{piece_in, pieces_in};
ghost use Rattle.tx_math.specs.Setters.{math_in};
ghost use Rattle.tx_math.specs.Spacing as spec;
ghost use Rattle.tx_math.specs.Spacing.{fence};
ghost use Rattle.tx_math.specs.declared.error.MathError.TheVariants.{OutOfMemory};

use crate::boxes::single;
use crate::error::MathError;
use crate::params::MathParams;
use crate::piece::{Fences, Piece, Spaces};
use crate::setter::Setter;
use std::alloc::Global;
use tx_list::Stack;
use tx_mlist::{AtomKind, Delimiter};
use tx_node::{Node, Nodes, Plain};
use tx_num::Glue;

/// The place of a class in the table of spaces.
fn class_number(kind: AtomKind) -> usize
    ensures value { result ≡ spec.class_number kind }
    ensures within { result < 8 }
{
    match kind {
        AtomKind::Ord | AtomKind::Over | AtomKind::Under | AtomKind::Center => 0,
        AtomKind::Radical(_) | AtomKind::Accent(_) => 0,
        AtomKind::Op(_) => 1,
        AtomKind::Bin => 2,
        AtomKind::Rel => 3,
        AtomKind::Open => 4,
        AtomKind::Close => 5,
        AtomKind::Punct => 6,
        AtomKind::Inner => 7,
    }
}

/// The signs of the spaces behind an atom of a class, before one of each class.
fn spaces_behind(kind: AtomKind) -> &'static [u8]
    ensures value { result.now ≡ spec.spaces_behind kind }
    ensures length { length result.now ≡ 8 }
{
    match kind {
        AtomKind::Ord | AtomKind::Over | AtomKind::Under | AtomKind::Center => b"02340001",
        AtomKind::Radical(_) | AtomKind::Accent(_) => b"02340001",
        AtomKind::Op(_) => b"22*40001",
        AtomKind::Bin => b"33**3**3",
        AtomKind::Rel => b"44*04004",
        AtomKind::Open => b"00*00000",
        AtomKind::Close => b"02340001",
        AtomKind::Punct => b"11*11111",
        AtomKind::Inner => b"12341011",
    }
}

/// Glue where the style is large.
fn if_large(style: u8, glue: Glue) -> Option<Glue>
    ensures { result ≡ spec.if_large style glue }
{
    if style < 4 { Some(glue) } else { None }
}

/// The glue of a sign of the table, told in mu.
fn glue_by(params: &MathParams, style: u8, sign: u8) -> Option<Glue>
    ensures { result ≡ spec.glue_by params.now style sign }
{
    if sign == b'1' {
        if_large(style, params.thin_mu_skip)
    } else if sign == b'2' {
        Some(params.thin_mu_skip)
    } else if sign == b'3' {
        if_large(style, params.med_mu_skip)
    } else if sign == b'4' {
        if_large(style, params.thick_mu_skip)
    } else {
        None
    }
}

/// The glue between two atoms, told in mu.
fn glue_between(params: &MathParams, style: u8, before: AtomKind, behind: AtomKind) -> Option<Glue>
    ensures { result ≡ spec.glue_between params.now style before behind }
{
    glue_by(params, style, spaces_behind(before)[class_number(behind)])
}

/// The penalty behind an atom.
fn penalty_of(params: &MathParams, kind: AtomKind) -> i32
    ensures { result ≡ spec.penalty_of params.now kind }
{
    match kind {
        AtomKind::Bin => params.bin_op_penalty,
        AtomKind::Rel => params.rel_penalty,
        AtomKind::Ord | AtomKind::Op(_) | AtomKind::Open | AtomKind::Close | AtomKind::Punct => {
            10_000
        }
        AtomKind::Inner | AtomKind::Over | AtomKind::Under | AtomKind::Center => 10_000,
        AtomKind::Radical(_) | AtomKind::Accent(_) => 10_000,
    }
}

/// Whether a node is a penalty.
fn is_penalty(node: &Node) -> bool
    ensures { result ≡ boxes.is_plain spec.plain_is_penalty (item_of node.now) }
{
    matches!(node, Node::Plain(Plain::Penalty(_)))
}

/// Whether a kind is Rel.
fn is_rel(kind: AtomKind) -> bool
    ensures { result ≡ spec.is_rel kind }
{
    match kind {
        AtomKind::Rel => true,
        AtomKind::Ord | AtomKind::Op(_) | AtomKind::Bin | AtomKind::Open | AtomKind::Close => false,
        AtomKind::Punct | AtomKind::Inner => false,
        AtomKind::Over | AtomKind::Under | AtomKind::Center => false,
        AtomKind::Radical(_) | AtomKind::Accent(_) => false,
    }
}

/// Whether a penalty may stand before a piece.
fn piece_takes_penalty(piece: &Piece) -> bool
    ensures { result ≡ spec.piece_takes_penalty (piece_in piece.now) }
{
    match piece {
        Piece::Noad(kind, _) => !is_rel(*kind),
        Piece::Fence(kind, _) => !is_rel(*kind),
        Piece::Restyled(_) => true,
        Piece::Lone(node) => !is_penalty(node),
    }
}

/// Whether a penalty may stand before these pieces.
#[tactic(auto, using(crate::proofs::First::penalty_first, crate::proofs::First::penalty_alone))]
fn takes_penalty(rest: &Stack<Piece>) -> bool
    ensures { result ≡ spec.takes_penalty (pieces_in rest.now) }
{
    match rest.first() {
        Some(piece) => piece_takes_penalty(piece),
        None => false,
    }
}

/// Puts the penalty behind an atom at the end of a list, if one stands there.
fn append_penalty(
    list: &mut Nodes,
    params: &MathParams,
    penalties: bool,
    kind: AtomKind,
    rest: &Stack<Piece>,
) -> Result<(), MathError>
    ensures made { OnOk result (list.new ≡ list.old ++ spec.penalty_behind params.now penalties kind (pieces_in rest.now)) }
    ensures error { IfErr result (λ e. e ≡ OutOfMemory) }
{
    let penalty = penalty_of(params, kind);
    if penalties && penalty < 10_000 && takes_penalty(rest) {
        list.push(Node::Plain(Plain::Penalty(penalty)))?;
    }
    Ok(())
}

impl Setter<'_> {
    /// Puts glue that is told in mu at the end of a list, if there is some.
    fn append_glue(&self, list: &mut Nodes, style: u8, glue: Option<Glue>) -> Result<(), MathError>
        ensures made { OnOk result (boxes.with_more list.old (spec.glue_item (math_in self.now) style glue) ≡ Ok list.new) }
        ensures error { IfErr result (λ e. e ≢ OutOfMemory → spec.glue_item (math_in self.now) style glue ≡ Err e) }
    {
        match glue {
            Some(glue) => {
                let glue = self.math_glue(style, &glue)?;
                list.push(Node::Plain(Plain::Glue(glue)))?;
                Ok(())
            }
            None => Ok(()),
        }
    }

    /// Puts the space before an atom at the end of a list.
    fn append_space(
        &self,
        list: &mut Nodes,
        style: u8,
        before: Option<AtomKind>,
        behind: AtomKind,
    ) -> Result<(), MathError>
        ensures made { OnOk result (boxes.with_more list.old (spec.space_before (math_in self.now) style before behind) ≡ Ok list.new) }
        ensures error { IfErr result (λ e. e ≢ OutOfMemory → spec.space_before (math_in self.now) style before behind ≡ Err e) }
    {
        match before {
            Some(before) => {
                let glue = glue_between(self.params, style, before, behind);
                self.append_glue(list, style, glue)
            }
            None => Ok(()),
        }
    }

    /// Puts an atom's nodes at the end of a list, with the space before them and the penalty behind them.
    fn append_noad(
        &self,
        list: &mut Nodes,
        penalties: bool,
        spaces: Spaces,
        kind: AtomKind,
        nodes: Nodes,
        rest: &Stack<Piece>,
    ) -> Result<(), MathError>
        ensures made { OnOk result (boxes.with_more list.old (spec.noad_items (math_in self.now) penalties spaces.style spaces.before kind nodes (pieces_in rest.now)) ≡ Ok list.new) }
        ensures error { IfErr result (λ e. e ≢ OutOfMemory → spec.noad_items (math_in self.now) penalties spaces.style spaces.before kind nodes (pieces_in rest.now) ≡ Err e) }
    {
        let mut nodes = nodes;
        self.append_space(list, spaces.style, spaces.before, kind)?;
        list.append(&mut nodes)?;
        append_penalty(list, self.params, penalties, kind, rest)
    }

    /// Puts a delimiter that is an atom of this kind at the end of a list, with the space before it and the penalty behind it.
    fn append_fence(
        &self,
        alloc: Global,
        list: &mut Nodes,
        penalties: bool,
        fences: Fences,
        spaces: Spaces,
        kind: AtomKind,
        delimiter: Delimiter,
        rest: &Stack<Piece>,
    ) -> Result<(), MathError>
        requires { unsigned_abs fences.size ≤ 2 ^ 59 }
        ensures made { OnOk result (boxes.with_more list.old (spec.piece_items (math_in self.now) penalties fences spaces (fence kind delimiter) (pieces_in rest.now)) ≡ Ok list.new) }
        ensures error { IfErr result (λ e. e ≢ OutOfMemory → spec.piece_items (math_in self.now) penalties fences spaces (fence kind delimiter) (pieces_in rest.now) ≡ Err e) }
    {
        let node = self.delimiter_item(alloc, fences.style, delimiter, fences.size)?;
        let nodes = single(alloc, node)?;
        self.append_noad(list, penalties, spaces, kind, nodes, rest)
    }

    /// Puts a piece at the end of a list, and answers in which style and behind what the next one stands.
    fn append_piece(
        &self,
        alloc: Global,
        list: &mut Nodes,
        penalties: bool,
        fences: Fences,
        spaces: Spaces,
        piece: Piece,
        rest: &Stack<Piece>,
    ) -> Result<Spaces, MathError>
        requires { unsigned_abs fences.size ≤ 2 ^ 59 }
        ensures made { OnOk result (boxes.with_more list.old (spec.piece_items (math_in self.now) penalties fences spaces (piece_in piece) (pieces_in rest.now)) ≡ Ok list.new) }
        ensures next { IfOk result (λ next. next ≡ spec.spaces_after spaces (piece_in piece)) }
        ensures error { IfErr result (λ e. e ≢ OutOfMemory → spec.piece_items (math_in self.now) penalties fences spaces (piece_in piece) (pieces_in rest.now) ≡ Err e) }
    {
        match piece {
            Piece::Fence(kind, delimiter) => {
                self.append_fence(
                    alloc, list, penalties, fences, spaces, kind, delimiter, rest,
                )?;
                Ok(Spaces {
                    style: spaces.style,
                    before: Some(kind),
                })
            }
            Piece::Noad(kind, nodes) => {
                self.append_noad(list, penalties, spaces, kind, nodes, rest)?;
                Ok(Spaces {
                    style: spaces.style,
                    before: Some(kind),
                })
            }
            Piece::Restyled(style) => Ok(Spaces {
                style,
                before: spaces.before,
            }),
            Piece::Lone(node) => {
                list.push(node)?;
                Ok(spaces)
            }
        }
    }

    /// The list of pieces, the first of which is set in a style, with penalties or without, and with delimiters so tall.
    #[tactic(auto, using(crate::proofs::Telling::spaced_nothing, crate::proofs::Telling::spaced_more, crate::proofs::Telling::spaced_stopped, crate::proofs::Telling::spaced_over))]
    pub fn spaced(
        &self,
        alloc: Global,
        penalties: bool,
        fences: Fences,
        style: u8,
        pieces: Stack<Piece>,
    ) -> Result<Nodes, MathError>
        requires { unsigned_abs fences.size ≤ 2 ^ 59 }
        ensures made { IfOk result (λ list. spec.spaced (math_in self.now) penalties fences (spec.spaces_of style None) (pieces_in pieces) ≡ Ok list) }
        ensures error { IfErr result (λ e. e ≢ OutOfMemory → spec.spaced (math_in self.now) penalties fences (spec.spaces_of style None) (pieces_in pieces) ≡ Err e) }
    {
        let mut rest = pieces;
        let mut list = Nodes::new(alloc);
        let mut spaces = Spaces {
            style,
            before: None,
        };
        while let Some(piece) = rest.pop() {
            spaces = self.append_piece(alloc, &mut list, penalties, fences, spaces, piece, &rest)?;
        }
        Ok(list)
    }
}
