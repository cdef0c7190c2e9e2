//! Formulas as horizontal lists (TeX: The Program, sections 719 to 726).
ghost use Rattle.std.specs.Prelude.{◌≡◌, ◌≢◌, ◌≤◌, ◌^◌, ◌++◌, ◌∷◌, [], false, pos, unsigned_abs, Some, IfOk, IfErr, IfSome, OnOk, Ok, Err};
ghost use Rattle.tx_num.specs.Glue.{IsDimension};
ghost use Rattle.tx_node.specs.Items.{box_item};
ghost use Rattle.tx_node.specs.Nodes.{item_of};
ghost use Rattle.tx_mlist.specs.Items.{formula, gathered};
ghost use Rattle.tx_mlist.specs.Noads.{mlist_of, part_of};
ghost use Rattle.tx_math.specs.Converting.{entries_in, entry_of, piece_in, pieces_in};
ghost use Rattle.tx_math.specs.Formula as spec;
ghost use Rattle.tx_math.specs.Setters.{IsNucleus, IsSetter, math_in};
ghost use Rattle.tx_math.specs.declared.error.MathError.TheVariants.{OutOfMemory};

use crate::accents::place_on;
use crate::boxes::{boxed, single};
use crate::characters::no_nucleus;
use crate::classes::kind_before;
use crate::entry::Entry;
use crate::error::MathError;
use crate::formula::Formula;
use crate::laying::entries_of;
use crate::limits::{has_limits, widest};
use crate::nucleus::Nucleus;
use crate::operators::OperatorBox;
use crate::params::MathParams;
use crate::piece::Piece;
use crate::setter::Setter;
use crate::signs::AccentPlace;
use crate::stacks::stacked;
use crate::styles::{
    cramped, denominator_style, numerator_style, subscript_style, superscript_style,
};
use crate::sums::{greater, minus, plus};
use std::alloc::{AllocError, Global};
use tx_bytes::Bytes;
use tx_list::Items;
use tx_mlist::{
    Atom, AtomKind, Field, Fraction, FractionHead, InnerList, MathCharacter, Mlist, Noad, PlainNoad,
};
use tx_node::{BoxNode, Character, KernKind, Node, Nodes, Plain};
use tx_num::Glue;
use tx_tfm::Fonts;

/// A box that is shifted by so many sp as a nucleus. Its only error is want of memory.
fn box_nucleus(alloc: Global, shift: i32, inner: BoxNode) -> Result<Nucleus, AllocError>
    ensures value { IfOk result (λ made. made ≡ spec.box_nucleus shift inner) }
    ensures near { IfOk result IsNucleus }
{
    let height = minus(i64::from(inner.height()), i64::from(shift));
    let depth = plus(i64::from(inner.depth()), i64::from(shift));
    Ok(Nucleus {
        nodes: single(alloc, Node::from_box(alloc, shift, inner)?)?,
        edges: Some((greater(height, 0), greater(depth, 0))),
        offset: 0,
    })
}

/// A node behind the nodes of a nucleus. Its only error is want of memory.
fn with_node(nodes: Nodes, node: Node) -> Result<Nodes, AllocError>
    ensures { IfOk result (λ list. list ≡ nodes ++ item_of node ∷ []) }
{
    let mut nodes = nodes;
    nodes.push(node)?;
    Ok(nodes)
}

/// In which style a nucleus is put into a box.
fn boxing_style(kind: AtomKind, style: u8) -> u8
    ensures { result ≡ spec.boxing_style kind style }
{
    match kind {
        AtomKind::Over | AtomKind::Radical(_) => cramped(style),
        AtomKind::Ord | AtomKind::Op(_) | AtomKind::Bin | AtomKind::Rel | AtomKind::Open => style,
        AtomKind::Close | AtomKind::Punct | AtomKind::Inner => style,
        AtomKind::Under | AtomKind::Center | AtomKind::Accent(_) => style,
    }
}

/// What the correction of an operator is, in sp.
fn correction_of(operator: &Option<OperatorBox>) -> i64
    ensures { result ≡ spec.correction_of operator.now }
{
    match operator {
        Some(operator) => operator.correction,
        None => 0,
    }
}

/// The nucleus of an operator, which is its box, where it has one. Its only error is want of memory.
fn part_or(nucleus: &Field, operator: Option<OperatorBox>) -> Result<Field, AllocError>
    ensures { IfOk result (λ part. part_of part ≡ spec.part_or (part_of nucleus.now) operator) }
{
    match operator {
        Some(OperatorBox { shift, inner, .. }) => Ok(Field::Packed(shift, inner)),
        None => Ok(nucleus.clone()?),
    }
}

/// Whether a part is a character.
fn is_letter(part: &Field) -> bool
    ensures { result ≡ spec.is_letter (part_of part.now) }
{
    match part {
        Field::Character(_) => true,
        Field::Empty | Field::Packed(_, _) | Field::Formula(_) => false,
    }
}

/// Whether the scripts of an atom stand below its accent.
fn takes_scripts(atom: &Atom) -> bool
    ensures { result ≡ spec.takes_scripts (part_of atom.now.nucleus) (part_of atom.now.superscript) (part_of atom.now.subscript) }
{
    is_letter(&atom.nucleus) && !(atom.superscript.is_empty() && atom.subscript.is_empty())
}

impl Setter<'_> {
    /// A small noad, as a piece. `SizeOutOfRange` exactly where what it tells in mu is no dimension.
    fn small_piece(&self, style: u8, item: PlainNoad) -> Result<Piece, MathError>
        ensures made { IfOk result (λ piece. spec.small_piece (math_in self.now) style item ≡ Ok (piece_in piece)) }
        ensures error { IfErr result (λ e. spec.small_piece (math_in self.now) style item ≡ Err e) }
    {
        match item {
            PlainNoad::Style(changed) => Ok(Piece::Restyled(changed)),
            PlainNoad::Nonscript => Ok(Piece::Lone(Node::Plain(Plain::Glue(Glue::zero())))),
            PlainNoad::Glue(glue) => {
                let glue = self.math_glue(style, &glue)?;
                Ok(Piece::Lone(Node::Plain(Plain::Glue(glue))))
            }
            PlainNoad::Kern(size) => {
                let size = self.math_kern(style, size)?;
                Ok(Piece::Lone(Node::Plain(Plain::Kern(KernKind::Explicit, size))))
            }
            PlainNoad::Left(delimiter) => Ok(Piece::Fence(AtomKind::Open, delimiter)),
            PlainNoad::Right(delimiter) => Ok(Piece::Fence(AtomKind::Close, delimiter)),
        }
    }

    /// The box that is made of the box of a nucleus.
    fn remade(
        &self,
        alloc: Global,
        style: u8,
        kind: AtomKind,
        inner: BoxNode,
    ) -> Result<BoxNode, MathError>
        requires { IsSetter self.now }
        ensures made { IfOk result (λ made. spec.remade (math_in self.now) style kind inner ≡ Ok made) }
        ensures error { IfErr result (λ e. e ≢ OutOfMemory → spec.remade (math_in self.now) style kind inner ≡ Err e) }
    {
        match kind {
            AtomKind::Over => self.overlined(alloc, style, inner),
            AtomKind::Under => self.underlined(alloc, style, inner),
            AtomKind::Center => self.vcentred(style, inner),
            AtomKind::Radical(delimiter) => self.radical(alloc, style, delimiter, inner),
            AtomKind::Ord | AtomKind::Op(_) | AtomKind::Bin | AtomKind::Rel | AtomKind::Open => {
                Ok(inner)
            }
            AtomKind::Close | AtomKind::Punct | AtomKind::Inner | AtomKind::Accent(_) => Ok(inner),
        }
    }

    /// A subscript behind a nucleus.
    fn with_subscript(
        &self,
        alloc: Global,
        style: u8,
        nucleus: Nucleus,
        lower: BoxNode,
    ) -> Result<Nodes, MathError>
        requires { IsNucleus nucleus }
        ensures made { IfOk result (λ list. spec.with_subscript (math_in self.now) style nucleus lower ≡ Ok list) }
        ensures error { IfErr result (λ e. e ≢ OutOfMemory → spec.with_subscript (math_in self.now) style nucleus lower ≡ Err e) }
    {
        let shifts = self.first_shifts(style, nucleus.edges);
        let node = self.subscript_item(alloc, style, shifts, lower)?;
        Ok(with_node(nucleus.nodes, node)?)
    }

    /// A superscript behind a nucleus.
    fn with_superscript(
        &self,
        alloc: Global,
        style: u8,
        nucleus: Nucleus,
        upper: BoxNode,
    ) -> Result<Nodes, MathError>
        requires { IsNucleus nucleus }
        ensures made { IfOk result (λ list. spec.with_superscript (math_in self.now) style nucleus upper ≡ Ok list) }
        ensures error { IfErr result (λ e. e ≢ OutOfMemory → spec.with_superscript (math_in self.now) style nucleus upper ≡ Err e) }
    {
        let shifts = self.first_shifts(style, nucleus.edges);
        let node = self.superscript_item(alloc, style, shifts, upper)?;
        Ok(with_node(nucleus.nodes, node)?)
    }

    /// Both scripts behind a nucleus.
    fn with_both(
        &self,
        alloc: Global,
        style: u8,
        nucleus: Nucleus,
        upper: BoxNode,
        lower: BoxNode,
    ) -> Result<Nodes, MathError>
        requires setter { IsSetter self.now }
        requires nucleus { IsNucleus nucleus }
        ensures made { IfOk result (λ list. spec.with_both (math_in self.now) style nucleus upper lower ≡ Ok list) }
        ensures error { IfErr result (λ e. e ≢ OutOfMemory → spec.with_both (math_in self.now) style nucleus upper lower ≡ Err e) }
    {
        let shifts = self.first_shifts(style, nucleus.edges);
        let node = self.scripts_item(alloc, style, nucleus.offset, shifts, upper, lower)?;
        Ok(with_node(nucleus.nodes, node)?)
    }

    /// A list in a box of its own, as a nucleus.
    #[tactic(auto, unfolding(crate::specs::Formula::list_nucleus))]
    fn list_nucleus(&self, alloc: Global, list: Nodes) -> Result<Nucleus, MathError>
        requires { IsSetter self.now }
        ensures made { IfOk result (λ made. spec.list_nucleus (math_in self.now) list ≡ Ok made) }
        ensures near { IfOk result IsNucleus }
        ensures error { IfErr result (λ e. e ≢ OutOfMemory → spec.list_nucleus (math_in self.now) list ≡ Err e) }
    {
        let inner = self.hbox(alloc, list)?;
        Ok(box_nucleus(alloc, 0, inner)?)
    }

    /// The box of a script that has been set as a list.
    #[tactic(auto, unfolding(crate::specs::Formula::script_of))]
    fn script_of(&self, alloc: Global, list: Nodes) -> Result<BoxNode, MathError>
        requires { IsSetter self.now }
        ensures made { IfOk result (λ made. spec.script_of (math_in self.now) list ≡ Ok made) }
        ensures error { IfErr result (λ e. e ≢ OutOfMemory → spec.script_of (math_in self.now) list ≡ Err e) }
    {
        let inner = self.cleaned_list(alloc, list)?;
        self.spaced_script(inner)
    }

    /// A nucleus that has been set as a list, in a box of another kind.
    #[tactic(auto, unfolding(crate::specs::Formula::remade_nucleus))]
    fn remade_nucleus(
        &self,
        alloc: Global,
        style: u8,
        kind: AtomKind,
        list: Nodes,
    ) -> Result<Nucleus, MathError>
        requires { IsSetter self.now }
        ensures made { IfOk result (λ made. spec.remade_nucleus (math_in self.now) style kind list ≡ Ok made) }
        ensures near { IfOk result IsNucleus }
        ensures error { IfErr result (λ e. e ≢ OutOfMemory → spec.remade_nucleus (math_in self.now) style kind list ≡ Err e) }
    {
        let inner = self.cleaned_list(alloc, list)?;
        let inner = self.remade(alloc, style, kind, inner)?;
        Ok(box_nucleus(alloc, 0, inner)?)
    }

    /// A character as a nucleus, and what is told of it.
    #[tactic(auto, unfolding(crate::specs::Formula::fetched_nucleus))]
    fn fetched_nucleus(
        &self,
        alloc: Global,
        style: u8,
        joined: bool,
        subscripted: bool,
        character: MathCharacter,
        report: &mut Bytes,
    ) -> Result<Nucleus, MathError>
        ensures made { IfOk result (λ made. spec.fetched_nucleus (math_in self.now) style joined subscripted character report.old ≡ Ok (made, report.new)) }
        ensures near { IfOk result IsNucleus }
        ensures error { IfErr result (λ e. e ≢ OutOfMemory → spec.fetched_nucleus (math_in self.now) style joined subscripted character report.old ≡ Err e) }
    {
        let found = self.fetched(style, character, report)?;
        Ok(self.letter_nucleus(alloc, joined, subscripted, found)?)
    }

    /// The box of an operator, where its nucleus is a character, and what is told of it.
    fn operator_of(
        &self,
        alloc: Global,
        style: u8,
        narrow: bool,
        nucleus: &Field,
        report: &mut Bytes,
    ) -> Result<Option<OperatorBox>, MathError>
        requires { IsSetter self.now }
        ensures made { IfOk result (λ made. spec.operator_of (math_in self.now) style narrow (part_of nucleus.now) report.old ≡ Ok (made, report.new)) }
        ensures near { IfOk result (λ made. unsigned_abs (spec.correction_of made) ≤ 2 ^ 31) }
        ensures error { IfErr result (λ e. e ≢ OutOfMemory → spec.operator_of (math_in self.now) style narrow (part_of nucleus.now) report.old ≡ Err e) }
    {
        match nucleus {
            Field::Character(character) => {
                let found = self.fetched(style, *character, report)?;
                Ok(Some(self.operator_by(alloc, style, narrow, found)?))
            }
            Field::Empty | Field::Packed(_, _) | Field::Formula(_) => Ok(None),
        }
    }

    /// An operator of this correction, in sp, between its limits, as a list, and what is told of it.
    #[tactic(auto, unfolding(crate::specs::Formula::limits_box))]
    fn limits_box(
        &self,
        alloc: Global,
        style: u8,
        correction: i64,
        has_upper: bool,
        has_lower: bool,
        upper: BoxNode,
        operator: BoxNode,
        lower: BoxNode,
        report: &mut Bytes,
    ) -> Result<Nodes, MathError>
        requires setter { IsSetter self.now }
        requires correction { unsigned_abs correction ≤ 2 ^ 31 }
        ensures made { IfOk result (λ list. spec.limits_box (math_in self.now) style correction has_upper has_lower upper operator lower report.old ≡ Ok (list, report.new)) }
        ensures error { IfErr result (λ e. e ≢ OutOfMemory → spec.limits_box (math_in self.now) style correction has_upper has_lower upper operator lower report.old ≡ Err e) }
    {
        let width = widest(&upper, &operator, &lower);
        let boxes = self.evened(alloc, width, upper, operator, lower, report)?;
        let inner = self.limits_of(alloc, style, correction, has_upper, has_lower, width, boxes)?;
        Ok(single(alloc, boxed(alloc, inner)?)?)
    }

    /// A fraction with a line of this thickness, in sp, and its delimiters, as a list, and what is told of it.
    #[tactic(auto, unfolding(crate::specs::Formula::lined_up))]
    fn lined_up(
        &self,
        alloc: Global,
        style: u8,
        thickness: i64,
        head: FractionHead,
        upper: BoxNode,
        lower: BoxNode,
        report: &mut Bytes,
    ) -> Result<Nodes, MathError>
        requires setter { IsSetter self.now }
        requires thickness { unsigned_abs thickness ≤ 2 ^ 31 }
        ensures made { IfOk result (λ list. spec.lined_up (math_in self.now) style thickness head upper lower report.old ≡ Ok (list, report.new)) }
        ensures error { IfErr result (λ e. e ≢ OutOfMemory → spec.lined_up (math_in self.now) style thickness head upper lower report.old ≡ Err e) }
    {
        let (upper, lower) = self.even_boxes(alloc, upper, lower, report)?;
        let inner = self.fraction_of(alloc, style, thickness, head, upper, lower)?;
        Ok(single(alloc, boxed(alloc, inner)?)?)
    }

    /// The kern that moves the accent of a character, in sp, if its font has it.
    fn skew_if(&self, found: Option<Character>) -> Option<i64>
        ensures value { result ≡ spec.skew_if (math_in self.now) found }
        ensures near { IfSome result (λ skew. unsigned_abs skew ≤ 2 ^ 31) }
    {
        match found {
            Some(character) => Some(self.skew_of(character)),
            None => None,
        }
    }

    /// The kern that moves the accent of a nucleus, in sp, and what is told of it; `None` where this is a character that its font
    /// lacks.
    fn nucleus_skew(
        &self,
        style: u8,
        nucleus: &Field,
        report: &mut Bytes,
    ) -> Result<Option<i64>, MathError>
        ensures made { IfOk result (λ skew. spec.nucleus_skew (math_in self.now) style (part_of nucleus.now) report.old ≡ Ok (skew, report.new)) }
        ensures near { IfOk result (λ found. IfSome found (λ skew. unsigned_abs skew ≤ 2 ^ 31)) }
        ensures error { IfErr result (λ e. e ≢ OutOfMemory → spec.nucleus_skew (math_in self.now) style (part_of nucleus.now) report.old ≡ Err e) }
    {
        match nucleus {
            Field::Character(character) => {
                let found = self.fetched(style, *character, report)?;
                Ok(self.skew_if(found))
            }
            Field::Empty | Field::Packed(_, _) | Field::Formula(_) => Ok(Some(0)),
        }
    }

    /// A box below an accent, as a nucleus.
    #[tactic(auto, unfolding(crate::specs::Formula::accent_nucleus))]
    fn accent_nucleus(
        &self,
        alloc: Global,
        place: AccentPlace,
        inner: BoxNode,
    ) -> Result<Nucleus, MathError>
        requires setter { IsSetter self.now }
        requires place { unsigned_abs place.down ≤ 2 ^ 34 }
        ensures made { IfOk result (λ made. spec.accent_nucleus (math_in self.now) place inner ≡ Ok made) }
        ensures near { IfOk result IsNucleus }
        ensures error { IfErr result (λ e. e ≢ OutOfMemory → spec.accent_nucleus (math_in self.now) place inner ≡ Err e) }
    {
        let inner = self.accent_box(alloc, place, inner)?;
        Ok(box_nucleus(alloc, 0, inner)?)
    }
}

impl Setter<'_> {
    /// A list in a style, with penalties or without, and what is told of it; lists stand in one another so many levels deep at
    /// most.
    #[cycle(set)]
    #[tactic(auto, using(crate::proofs::Loops::list_more, crate::proofs::Loops::list_none), unfolding(crate::specs::Formula::converted))]
    fn list_in(
        &self,
        alloc: Global,
        levels: u16,
        penalties: bool,
        style: u8,
        list: &[Noad],
        report: &mut Bytes,
    ) -> Result<Nodes, MathError>
        requires { IsSetter self.now }
        ensures made { IfOk result (λ made. spec.list_in levels (math_in self.now) penalties style (mlist_of list.now) report.old ≡ Ok (made, report.new)) }
        ensures error { IfErr result (λ e. e ≢ OutOfMemory → spec.list_in levels (math_in self.now) penalties style (mlist_of list.now) report.old ≡ Err e) }
    {
        if levels == 0 {
            return Ok(Nodes::new(alloc));
        }
        let entries = entries_of(alloc, style, list)?;
        let entries = self.composed(alloc, entries)?;
        let pieces = self.pieces_of(alloc, levels - 1, entries.as_slice(), report)?;
        let fences = self.fences_of(style, pieces.as_slice());
        self.spaced(alloc, penalties, fences, style, stacked(alloc, pieces)?)
    }

    /// What entries become, in order, and what is told of them.
    #[cycle(set)]
    #[tactic(auto, using(crate::proofs::Telling::pieces_nothing, crate::proofs::Telling::pieces_more, crate::proofs::Telling::pieces_stopped, crate::proofs::Telling::pieces_over))]
    fn pieces_of(
        &self,
        alloc: Global,
        levels: u16,
        entries: &[Entry],
        report: &mut Bytes,
    ) -> Result<Items<Piece>, MathError>
        requires { IsSetter self.now }
        ensures made { IfOk result (λ pieces. spec.pieces_of (spec.inward levels (math_in self.now)) (math_in self.now) (entries_in entries.now) report.old ≡ Ok (pieces_in pieces, report.new)) }
        ensures error { IfErr result (λ e. e ≢ OutOfMemory → spec.pieces_of (spec.inward levels (math_in self.now)) (math_in self.now) (entries_in entries.now) report.old ≡ Err e) }
    {
        let mut pieces = Items::new(alloc);
        for at in 0..entries.len() {
            let kind = kind_before(&entries[at], &entries[at + 1..]);
            pieces.push(self.piece_of(alloc, levels, kind, &entries[at], report)?)?;
        }
        Ok(pieces)
    }

    /// What an entry becomes that is of this kind, and what is told of it.
    #[cycle(set)]
    fn piece_of(
        &self,
        alloc: Global,
        levels: u16,
        kind: AtomKind,
        entry: &Entry,
        report: &mut Bytes,
    ) -> Result<Piece, MathError>
        requires { IsSetter self.now }
        ensures made { IfOk result (λ piece. spec.piece_as (spec.inward levels (math_in self.now)) (math_in self.now) kind (entry_of entry.now) report.old ≡ Ok (piece_in piece, report.new)) }
        ensures error { IfErr result (λ e. e ≢ OutOfMemory → spec.piece_as (spec.inward levels (math_in self.now)) (math_in self.now) kind (entry_of entry.now) report.old ≡ Err e) }
    {
        match &entry.noad {
            Noad::Atom(atom) => {
                let list = self.atom_list(
                    alloc,
                    levels,
                    entry.style,
                    entry.joined,
                    kind,
                    atom,
                    report,
                )?;
                Ok(Piece::Noad(kind, list))
            }
            Noad::Fraction(fraction) => {
                let list = self.fraction_items(alloc, levels, entry.style, fraction, report)?;
                Ok(Piece::Noad(AtomKind::Ord, list))
            }
            Noad::Choice(_) => Ok(Piece::Restyled(entry.style)),
            Noad::Plain(item) => self.small_piece(entry.style, *item),
            Noad::Node(node) => Ok(Piece::Lone(node.clone()?)),
        }
    }

    /// What a fraction becomes, and what is told of it.
    #[cycle(set)]
    #[tactic(auto, unfolding(crate::specs::Formula::fraction_items))]
    fn fraction_items(
        &self,
        alloc: Global,
        levels: u16,
        style: u8,
        fraction: &Fraction,
        report: &mut Bytes,
    ) -> Result<Nodes, MathError>
        requires { IsSetter self.now }
        ensures made { IfOk result (λ list. spec.fraction_items (spec.inward levels (math_in self.now)) (math_in self.now) style fraction.now.head (gathered fraction.now.numerator) (gathered fraction.now.denominator) report.old ≡ Ok (list, report.new)) }
        ensures error { IfErr result (λ e. e ≢ OutOfMemory → spec.fraction_items (spec.inward levels (math_in self.now)) (math_in self.now) style fraction.now.head (gathered fraction.now.numerator) (gathered fraction.now.denominator) report.old ≡ Err e) }
    {
        let head = fraction.head;
        let thickness = self.thickness_of(style, head.thickness);
        let upper = numerator_style(style);
        let upper = self.cleaned_inner(alloc, levels, upper, &fraction.numerator, report)?;
        let lower = denominator_style(style);
        let lower = self.cleaned_inner(alloc, levels, lower, &fraction.denominator, report)?;
        self.lined_up(alloc, style, thickness, head, upper, lower, report)
    }

    /// What an atom of this kind becomes, and what is told of it.
    #[cycle(set)]
    fn atom_list(
        &self,
        alloc: Global,
        levels: u16,
        style: u8,
        joined: bool,
        kind: AtomKind,
        atom: &Atom,
        report: &mut Bytes,
    ) -> Result<Nodes, MathError>
        requires { IsSetter self.now }
        ensures made { IfOk result (λ list. spec.atom_list (spec.inward levels (math_in self.now)) (math_in self.now) style joined kind (part_of atom.now.nucleus) (part_of atom.now.superscript) (part_of atom.now.subscript) report.old ≡ Ok (list, report.new)) }
        ensures error { IfErr result (λ e. e ≢ OutOfMemory → spec.atom_list (spec.inward levels (math_in self.now)) (math_in self.now) style joined kind (part_of atom.now.nucleus) (part_of atom.now.superscript) (part_of atom.now.subscript) report.old ≡ Err e) }
    {
        match kind {
            AtomKind::Op(limits) => {
                if has_limits(limits, style) {
                    self.limits_list(alloc, levels, style, atom, report)
                } else {
                    self.scripted_operator(alloc, levels, style, atom, report)
                }
            }
            AtomKind::Over | AtomKind::Under | AtomKind::Center | AtomKind::Radical(_) => {
                self.boxed_list(alloc, levels, style, kind, atom, report)
            }
            AtomKind::Accent(accent) => {
                self.accented(alloc, levels, style, accent, atom, report)
            }
            AtomKind::Ord
            | AtomKind::Bin
            | AtomKind::Rel
            | AtomKind::Open
            | AtomKind::Close
            | AtomKind::Punct
            | AtomKind::Inner => { self.scripted(alloc, levels, style, joined, atom, report) }
        }
    }

    /// What an atom becomes whose nucleus is put into a box of this kind, and what is told of it.
    #[cycle(set)]
    #[tactic(auto, unfolding(crate::specs::Formula::boxed_list))]
    fn boxed_list(
        &self,
        alloc: Global,
        levels: u16,
        style: u8,
        kind: AtomKind,
        atom: &Atom,
        report: &mut Bytes,
    ) -> Result<Nodes, MathError>
        requires { IsSetter self.now }
        ensures made { IfOk result (λ list. spec.boxed_list (spec.inward levels (math_in self.now)) (math_in self.now) style kind (part_of atom.now.nucleus) (part_of atom.now.superscript) (part_of atom.now.subscript) report.old ≡ Ok (list, report.new)) }
        ensures error { IfErr result (λ e. e ≢ OutOfMemory → spec.boxed_list (spec.inward levels (math_in self.now)) (math_in self.now) style kind (part_of atom.now.nucleus) (part_of atom.now.superscript) (part_of atom.now.subscript) report.old ≡ Err e) }
    {
        let own = boxing_style(kind, style);
        let list = self.part_list(alloc, levels, own, &atom.nucleus, report)?;
        let nucleus = self.remade_nucleus(alloc, style, kind, list)?;
        self.with_scripts(alloc, levels, style, nucleus, atom, report)
    }

    /// What an atom of any other kind becomes, behind which a character of its family stands or not, and what is told of it.
    #[cycle(set)]
    #[tactic(auto, unfolding(crate::specs::Formula::scripted))]
    fn scripted(
        &self,
        alloc: Global,
        levels: u16,
        style: u8,
        joined: bool,
        atom: &Atom,
        report: &mut Bytes,
    ) -> Result<Nodes, MathError>
        requires { IsSetter self.now }
        ensures made { IfOk result (λ list. spec.scripted (spec.inward levels (math_in self.now)) (math_in self.now) style joined (part_of atom.now.nucleus) (part_of atom.now.superscript) (part_of atom.now.subscript) report.old ≡ Ok (list, report.new)) }
        ensures error { IfErr result (λ e. e ≢ OutOfMemory → spec.scripted (spec.inward levels (math_in self.now)) (math_in self.now) style joined (part_of atom.now.nucleus) (part_of atom.now.superscript) (part_of atom.now.subscript) report.old ≡ Err e) }
    {
        let subscripted = !atom.subscript.is_empty();
        let nucleus = self.nucleus_of(
            alloc,
            levels,
            style,
            joined,
            subscripted,
            &atom.nucleus,
            report,
        )?;
        self.with_scripts(alloc, levels, style, nucleus, atom, report)
    }

    /// What an atom becomes that has this accent, and what is told of it.
    #[cycle(set)]
    #[tactic(auto, unfolding(crate::specs::Formula::accented))]
    fn accented(
        &self,
        alloc: Global,
        levels: u16,
        style: u8,
        accent: MathCharacter,
        atom: &Atom,
        report: &mut Bytes,
    ) -> Result<Nodes, MathError>
        requires { IsSetter self.now }
        ensures made { IfOk result (λ list. spec.accented (spec.inward levels (math_in self.now)) (math_in self.now) style accent (part_of atom.now.nucleus) (part_of atom.now.superscript) (part_of atom.now.subscript) report.old ≡ Ok (list, report.new)) }
        ensures error { IfErr result (λ e. e ≢ OutOfMemory → spec.accented (spec.inward levels (math_in self.now)) (math_in self.now) style accent (part_of atom.now.nucleus) (part_of atom.now.superscript) (part_of atom.now.subscript) report.old ≡ Err e) }
    {
        let found = self.fetched(style, accent, report)?;
        match found {
            None => self.scripted(alloc, levels, style, false, atom, report),
            Some(found) => self.accent_over(alloc, levels, style, atom, found, report),
        }
    }

    /// The same where the accent's font has this character for it.
    #[cycle(set)]
    #[tactic(auto, unfolding(crate::specs::Formula::accent_over))]
    fn accent_over(
        &self,
        alloc: Global,
        levels: u16,
        style: u8,
        atom: &Atom,
        found: Character,
        report: &mut Bytes,
    ) -> Result<Nodes, MathError>
        requires { IsSetter self.now }
        ensures made { IfOk result (λ list. spec.accent_over (spec.inward levels (math_in self.now)) (math_in self.now) style (part_of atom.now.nucleus) (part_of atom.now.superscript) (part_of atom.now.subscript) found report.old ≡ Ok (list, report.new)) }
        ensures error { IfErr result (λ e. e ≢ OutOfMemory → spec.accent_over (spec.inward levels (math_in self.now)) (math_in self.now) style (part_of atom.now.nucleus) (part_of atom.now.superscript) (part_of atom.now.subscript) found report.old ≡ Err e) }
    {
        match self.nucleus_skew(style, &atom.nucleus, report)? {
            Some(skew) => self.accent_moved(alloc, levels, style, atom, found, skew, report),
            None => self.accent_alone(alloc, levels, style, atom, found, report),
        }
    }

    /// The same with the accent moved by so many sp.
    #[cycle(set)]
    #[tactic(auto, unfolding(crate::specs::Formula::accent_moved))]
    fn accent_moved(
        &self,
        alloc: Global,
        levels: u16,
        style: u8,
        atom: &Atom,
        found: Character,
        skew: i64,
        report: &mut Bytes,
    ) -> Result<Nodes, MathError>
        requires setter { IsSetter self.now }
        requires skew { unsigned_abs skew ≤ 2 ^ 31 }
        ensures made { IfOk result (λ list. spec.accent_moved (spec.inward levels (math_in self.now)) (math_in self.now) style (part_of atom.now.nucleus) (part_of atom.now.superscript) (part_of atom.now.subscript) found skew report.old ≡ Ok (list, report.new)) }
        ensures error { IfErr result (λ e. e ≢ OutOfMemory → spec.accent_moved (spec.inward levels (math_in self.now)) (math_in self.now) style (part_of atom.now.nucleus) (part_of atom.now.superscript) (part_of atom.now.subscript) found skew report.old ≡ Err e) }
    {
        let own = cramped(style);
        let inner = self.cleaned(alloc, levels, own, &atom.nucleus, report)?;
        let place = self.accent_place(found, skew, &inner);
        self.accent_on(alloc, levels, style, atom, place, inner, report)
    }

    /// The same where no character is left of the nucleus: the accent stands on nothing.
    #[cycle(set)]
    #[tactic(auto, unfolding(crate::specs::Formula::accent_alone))]
    fn accent_alone(
        &self,
        alloc: Global,
        levels: u16,
        style: u8,
        atom: &Atom,
        found: Character,
        report: &mut Bytes,
    ) -> Result<Nodes, MathError>
        requires { IsSetter self.now }
        ensures made { IfOk result (λ list. spec.accent_alone (spec.inward levels (math_in self.now)) (math_in self.now) style (part_of atom.now.superscript) (part_of atom.now.subscript) found report.old ≡ Ok (list, report.new)) }
        ensures error { IfErr result (λ e. e ≢ OutOfMemory → spec.accent_alone (spec.inward levels (math_in self.now)) (math_in self.now) style (part_of atom.now.superscript) (part_of atom.now.subscript) found report.old ≡ Err e) }
    {
        let inner = self.cleaned_list(alloc, Nodes::new(alloc))?;
        let place = self.accent_place(found, 0, &inner);
        self.accent_before(alloc, levels, style, atom, place, inner, report)
    }

    /// The same with the accent at this place on this box.
    #[cycle(set)]
    fn accent_on(
        &self,
        alloc: Global,
        levels: u16,
        style: u8,
        atom: &Atom,
        place: AccentPlace,
        inner: BoxNode,
        report: &mut Bytes,
    ) -> Result<Nodes, MathError>
        requires setter { IsSetter self.now }
        requires place { unsigned_abs place.down ≤ 2 ^ 31 }
        ensures made { IfOk result (λ list. spec.accent_on (spec.inward levels (math_in self.now)) (math_in self.now) style (part_of atom.now.nucleus) (part_of atom.now.superscript) (part_of atom.now.subscript) place inner report.old ≡ Ok (list, report.new)) }
        ensures error { IfErr result (λ e. e ≢ OutOfMemory → spec.accent_on (spec.inward levels (math_in self.now)) (math_in self.now) style (part_of atom.now.nucleus) (part_of atom.now.superscript) (part_of atom.now.subscript) place inner report.old ≡ Err e) }
    {
        if takes_scripts(atom) {
            self.accent_with(alloc, levels, style, atom, place, &inner, report)
        } else {
            self.accent_before(alloc, levels, style, atom, place, inner, report)
        }
    }

    /// The same where the scripts of the atom stand below the accent too.
    #[cycle(set)]
    #[tactic(auto, unfolding(crate::specs::Formula::accent_with))]
    fn accent_with(
        &self,
        alloc: Global,
        levels: u16,
        style: u8,
        atom: &Atom,
        place: AccentPlace,
        inner: &BoxNode,
        report: &mut Bytes,
    ) -> Result<Nodes, MathError>
        requires setter { IsSetter self.now }
        requires place { unsigned_abs place.down ≤ 2 ^ 31 }
        ensures made { IfOk result (λ list. spec.accent_with (spec.inward levels (math_in self.now)) (math_in self.now) style (part_of atom.now.nucleus) (part_of atom.now.superscript) (part_of atom.now.subscript) place inner.now report.old ≡ Ok (list, report.new)) }
        ensures error { IfErr result (λ e. e ≢ OutOfMemory → spec.accent_with (spec.inward levels (math_in self.now)) (math_in self.now) style (part_of atom.now.nucleus) (part_of atom.now.superscript) (part_of atom.now.subscript) place inner.now report.old ≡ Err e) }
    {
        let grown = self.scripted_box(alloc, levels, style, atom, report)?;
        let place = place_on(place, inner, &grown);
        let Nucleus { nodes, .. } = self.accent_nucleus(alloc, place, grown)?;
        Ok(nodes)
    }

    /// An atom without its accent, in a box, and what is told of it.
    #[cycle(set)]
    #[tactic(auto, unfolding(crate::specs::Formula::scripted_box))]
    fn scripted_box(
        &self,
        alloc: Global,
        levels: u16,
        style: u8,
        atom: &Atom,
        report: &mut Bytes,
    ) -> Result<BoxNode, MathError>
        requires { IsSetter self.now }
        ensures made { IfOk result (λ made. spec.scripted_box (spec.inward levels (math_in self.now)) (math_in self.now) style (part_of atom.now.nucleus) (part_of atom.now.superscript) (part_of atom.now.subscript) report.old ≡ Ok (made, report.new)) }
        ensures error { IfErr result (λ e. e ≢ OutOfMemory → spec.scripted_box (spec.inward levels (math_in self.now)) (math_in self.now) style (part_of atom.now.nucleus) (part_of atom.now.superscript) (part_of atom.now.subscript) report.old ≡ Err e) }
    {
        let list = self.scripted(alloc, levels, style, false, atom, report)?;
        self.cleaned_list(alloc, list)
    }

    /// A box below an accent, with the scripts of its atom, if it has some, behind both.
    #[cycle(set)]
    #[tactic(auto, unfolding(crate::specs::Formula::accent_before))]
    fn accent_before(
        &self,
        alloc: Global,
        levels: u16,
        style: u8,
        atom: &Atom,
        place: AccentPlace,
        inner: BoxNode,
        report: &mut Bytes,
    ) -> Result<Nodes, MathError>
        requires setter { IsSetter self.now }
        requires place { unsigned_abs place.down ≤ 2 ^ 31 }
        ensures made { IfOk result (λ list. spec.accent_before (spec.inward levels (math_in self.now)) (math_in self.now) style (part_of atom.now.superscript) (part_of atom.now.subscript) place inner report.old ≡ Ok (list, report.new)) }
        ensures error { IfErr result (λ e. e ≢ OutOfMemory → spec.accent_before (spec.inward levels (math_in self.now)) (math_in self.now) style (part_of atom.now.superscript) (part_of atom.now.subscript) place inner report.old ≡ Err e) }
    {
        let nucleus = self.accent_nucleus(alloc, place, inner)?;
        self.with_scripts(alloc, levels, style, nucleus, atom, report)
    }

    /// What an operator becomes whose limits stand above and below it, and what is told of it.
    #[cycle(set)]
    #[tactic(auto, unfolding(crate::specs::Formula::limited))]
    fn limits_list(
        &self,
        alloc: Global,
        levels: u16,
        style: u8,
        atom: &Atom,
        report: &mut Bytes,
    ) -> Result<Nodes, MathError>
        requires { IsSetter self.now }
        ensures made { IfOk result (λ list. spec.limited (spec.inward levels (math_in self.now)) (math_in self.now) style (part_of atom.now.nucleus) (part_of atom.now.superscript) (part_of atom.now.subscript) report.old ≡ Ok (list, report.new)) }
        ensures error { IfErr result (λ e. e ≢ OutOfMemory → spec.limited (spec.inward levels (math_in self.now)) (math_in self.now) style (part_of atom.now.nucleus) (part_of atom.now.superscript) (part_of atom.now.subscript) report.old ≡ Err e) }
    {
        let operator = self.operator_of(alloc, style, false, &atom.nucleus, report)?;
        self.limits_about(alloc, levels, style, atom, operator, report)
    }

    /// An operator, whose box this is, if it has one, with its limits above and below it, and what is told of them.
    #[cycle(set)]
    #[tactic(auto, unfolding(crate::specs::Formula::limits_list))]
    fn limits_about(
        &self,
        alloc: Global,
        levels: u16,
        style: u8,
        atom: &Atom,
        operator: Option<OperatorBox>,
        report: &mut Bytes,
    ) -> Result<Nodes, MathError>
        requires setter { IsSetter self.now }
        requires near { unsigned_abs (spec.correction_of operator) ≤ 2 ^ 31 }
        ensures made { IfOk result (λ list. spec.limits_list (spec.inward levels (math_in self.now)) (math_in self.now) style (part_of atom.now.nucleus) (part_of atom.now.superscript) (part_of atom.now.subscript) operator report.old ≡ Ok (list, report.new)) }
        ensures error { IfErr result (λ e. e ≢ OutOfMemory → spec.limits_list (spec.inward levels (math_in self.now)) (math_in self.now) style (part_of atom.now.nucleus) (part_of atom.now.superscript) (part_of atom.now.subscript) operator report.old ≡ Err e) }
    {
        let upper = superscript_style(style);
        let upper = self.cleaned(alloc, levels, upper, &atom.superscript, report)?;
        self.limits_below(alloc, levels, style, atom, operator, upper, report)
    }

    /// The same with this box above it.
    #[cycle(set)]
    #[tactic(auto, unfolding(crate::specs::Formula::limits_below))]
    fn limits_below(
        &self,
        alloc: Global,
        levels: u16,
        style: u8,
        atom: &Atom,
        operator: Option<OperatorBox>,
        upper: BoxNode,
        report: &mut Bytes,
    ) -> Result<Nodes, MathError>
        requires setter { IsSetter self.now }
        requires near { unsigned_abs (spec.correction_of operator) ≤ 2 ^ 31 }
        ensures made { IfOk result (λ list. spec.limits_below (spec.inward levels (math_in self.now)) (math_in self.now) style (part_of atom.now.nucleus) (part_of atom.now.superscript) (part_of atom.now.subscript) operator upper report.old ≡ Ok (list, report.new)) }
        ensures error { IfErr result (λ e. e ≢ OutOfMemory → spec.limits_below (spec.inward levels (math_in self.now)) (math_in self.now) style (part_of atom.now.nucleus) (part_of atom.now.superscript) (part_of atom.now.subscript) operator upper report.old ≡ Err e) }
    {
        let correction = correction_of(&operator);
        let nucleus = part_or(&atom.nucleus, operator)?;
        let middle = self.cleaned(alloc, levels, style, &nucleus, report)?;
        let lower = subscript_style(style);
        let lower = self.cleaned(alloc, levels, lower, &atom.subscript, report)?;
        self.limits_box(
            alloc,
            style,
            correction,
            !atom.superscript.is_empty(),
            !atom.subscript.is_empty(),
            upper,
            middle,
            lower,
            report,
        )
    }

    /// What an operator becomes whose limits stand behind it, and what is told of it.
    #[cycle(set)]
    #[tactic(auto, unfolding(crate::specs::Formula::unlimited))]
    fn scripted_operator(
        &self,
        alloc: Global,
        levels: u16,
        style: u8,
        atom: &Atom,
        report: &mut Bytes,
    ) -> Result<Nodes, MathError>
        requires { IsSetter self.now }
        ensures made { IfOk result (λ list. spec.unlimited (spec.inward levels (math_in self.now)) (math_in self.now) style (part_of atom.now.nucleus) (part_of atom.now.superscript) (part_of atom.now.subscript) report.old ≡ Ok (list, report.new)) }
        ensures error { IfErr result (λ e. e ≢ OutOfMemory → spec.unlimited (spec.inward levels (math_in self.now)) (math_in self.now) style (part_of atom.now.nucleus) (part_of atom.now.superscript) (part_of atom.now.subscript) report.old ≡ Err e) }
    {
        let narrow = !atom.subscript.is_empty();
        let operator = self.operator_of(alloc, style, narrow, &atom.nucleus, report)?;
        self.scripts_about(alloc, levels, style, atom, operator, report)
    }

    /// An operator, whose box this is, if it has one, with its limits behind it, and what is told of them.
    #[cycle(set)]
    #[tactic(auto, unfolding(crate::specs::Formula::scripted_operator))]
    fn scripts_about(
        &self,
        alloc: Global,
        levels: u16,
        style: u8,
        atom: &Atom,
        operator: Option<OperatorBox>,
        report: &mut Bytes,
    ) -> Result<Nodes, MathError>
        requires setter { IsSetter self.now }
        requires near { unsigned_abs (spec.correction_of operator) ≤ 2 ^ 31 }
        ensures made { IfOk result (λ list. spec.scripted_operator (spec.inward levels (math_in self.now)) (math_in self.now) style (part_of atom.now.nucleus) (part_of atom.now.superscript) (part_of atom.now.subscript) operator report.old ≡ Ok (list, report.new)) }
        ensures error { IfErr result (λ e. e ≢ OutOfMemory → spec.scripted_operator (spec.inward levels (math_in self.now)) (math_in self.now) style (part_of atom.now.nucleus) (part_of atom.now.superscript) (part_of atom.now.subscript) operator report.old ≡ Err e) }
    {
        let correction = correction_of(&operator);
        let nucleus = part_or(&atom.nucleus, operator)?;
        let mut made = self.nucleus_of(alloc, levels, style, false, false, &nucleus, report)?;
        made.offset = correction;
        self.with_scripts(alloc, levels, style, made, atom, report)
    }

    /// The nucleus of an atom, behind which a character of its family stands or not, and which has a subscript or not, and what is
    /// told of it.
    #[cycle(set)]
    #[tactic(auto, using(crate::proofs::Loops::listed_back))]
    fn nucleus_of(
        &self,
        alloc: Global,
        levels: u16,
        style: u8,
        joined: bool,
        subscripted: bool,
        nucleus: &Field,
        report: &mut Bytes,
    ) -> Result<Nucleus, MathError>
        requires { IsSetter self.now }
        ensures made { IfOk result (λ made. spec.nucleus_of (spec.inward levels (math_in self.now)) (math_in self.now) style joined subscripted (part_of nucleus.now) report.old ≡ Ok (made, report.new)) }
        ensures near { IfOk result IsNucleus }
        ensures error { IfErr result (λ e. e ≢ OutOfMemory → spec.nucleus_of (spec.inward levels (math_in self.now)) (math_in self.now) style joined subscripted (part_of nucleus.now) report.old ≡ Err e) }
    {
        match nucleus {
            Field::Empty => Ok(no_nucleus(alloc)),
            Field::Character(character) => {
                self.fetched_nucleus(alloc, style, joined, subscripted, *character, report)
            }
            Field::Packed(shift, inner) => Ok(box_nucleus(alloc, *shift, inner.clone()?)?),
            Field::Formula(list) => {
                let list = self.list_in(alloc, levels, false, style, list.as_slice(), report)?;
                self.list_nucleus(alloc, list)
            }
        }
    }

    /// A nucleus with the scripts of its atom behind it, and what is told of these.
    #[cycle(set)]
    #[tactic(auto, unfolding(crate::specs::Formula::with_scripts))]
    fn with_scripts(
        &self,
        alloc: Global,
        levels: u16,
        style: u8,
        nucleus: Nucleus,
        atom: &Atom,
        report: &mut Bytes,
    ) -> Result<Nodes, MathError>
        requires setter { IsSetter self.now }
        requires nucleus { IsNucleus nucleus }
        ensures made { IfOk result (λ list. spec.with_scripts (spec.inward levels (math_in self.now)) (math_in self.now) style (part_of atom.now.superscript) (part_of atom.now.subscript) nucleus report.old ≡ Ok (list, report.new)) }
        ensures error { IfErr result (λ e. e ≢ OutOfMemory → spec.with_scripts (spec.inward levels (math_in self.now)) (math_in self.now) style (part_of atom.now.superscript) (part_of atom.now.subscript) nucleus report.old ≡ Err e) }
    {
        let upper = superscript_style(style);
        let lower = subscript_style(style);
        if atom.superscript.is_empty() {
            if atom.subscript.is_empty() {
                return Ok(nucleus.nodes);
            }
            let lower = self.script_box(alloc, levels, lower, &atom.subscript, report)?;
            return self.with_subscript(alloc, style, nucleus, lower);
        }
        let upper = self.script_box(alloc, levels, upper, &atom.superscript, report)?;
        if atom.subscript.is_empty() {
            return self.with_superscript(alloc, style, nucleus, upper);
        }
        let lower = self.script_box(alloc, levels, lower, &atom.subscript, report)?;
        self.with_both(alloc, style, nucleus, upper, lower)
    }

    /// A part in a box, in a style, and what is told of it.
    #[cycle(set)]
    #[tactic(auto, unfolding(crate::specs::Formula::cleaned))]
    fn cleaned(
        &self,
        alloc: Global,
        levels: u16,
        style: u8,
        part: &Field,
        report: &mut Bytes,
    ) -> Result<BoxNode, MathError>
        requires { IsSetter self.now }
        ensures made { IfOk result (λ made. spec.cleaned (spec.inward levels (math_in self.now)) (math_in self.now) style (part_of part.now) report.old ≡ Ok (made, report.new)) }
        ensures error { IfErr result (λ e. e ≢ OutOfMemory → spec.cleaned (spec.inward levels (math_in self.now)) (math_in self.now) style (part_of part.now) report.old ≡ Err e) }
    {
        let list = self.part_list(alloc, levels, style, part, report)?;
        self.cleaned_list(alloc, list)
    }

    /// A list that a noad has in a box, in a style, and what is told of it.
    #[cycle(set)]
    #[tactic(auto, using(crate::proofs::Loops::listed_back), unfolding(crate::specs::Formula::cleaned))]
    fn cleaned_inner(
        &self,
        alloc: Global,
        levels: u16,
        style: u8,
        list: &InnerList,
        report: &mut Bytes,
    ) -> Result<BoxNode, MathError>
        requires { IsSetter self.now }
        ensures made { IfOk result (λ made. spec.cleaned (spec.inward levels (math_in self.now)) (math_in self.now) style (formula (gathered list.now)) report.old ≡ Ok (made, report.new)) }
        ensures error { IfErr result (λ e. e ≢ OutOfMemory → spec.cleaned (spec.inward levels (math_in self.now)) (math_in self.now) style (formula (gathered list.now)) report.old ≡ Err e) }
    {
        let list = self.list_in(alloc, levels, false, style, list.as_slice(), report)?;
        self.cleaned_list(alloc, list)
    }

    /// The box of a script, in a style, and what is told of it.
    #[cycle(set)]
    #[tactic(auto, unfolding(crate::specs::Formula::script_box))]
    fn script_box(
        &self,
        alloc: Global,
        levels: u16,
        style: u8,
        part: &Field,
        report: &mut Bytes,
    ) -> Result<BoxNode, MathError>
        requires { IsSetter self.now }
        ensures made { IfOk result (λ made. spec.script_box (spec.inward levels (math_in self.now)) (math_in self.now) style (part_of part.now) report.old ≡ Ok (made, report.new)) }
        ensures error { IfErr result (λ e. e ≢ OutOfMemory → spec.script_box (spec.inward levels (math_in self.now)) (math_in self.now) style (part_of part.now) report.old ≡ Err e) }
    {
        let list = self.part_list(alloc, levels, style, part, report)?;
        self.script_of(alloc, list)
    }

    /// A part by itself, as a list in a style, and what is told of it.
    #[cycle(set)]
    #[tactic(auto, using(crate::proofs::Loops::listed_back))]
    fn part_list(
        &self,
        alloc: Global,
        levels: u16,
        style: u8,
        part: &Field,
        report: &mut Bytes,
    ) -> Result<Nodes, MathError>
        requires { IsSetter self.now }
        ensures made { IfOk result (λ list. spec.part_list (spec.inward levels (math_in self.now)) (math_in self.now) style (part_of part.now) report.old ≡ Ok (list, report.new)) }
        ensures error { IfErr result (λ e. e ≢ OutOfMemory → spec.part_list (spec.inward levels (math_in self.now)) (math_in self.now) style (part_of part.now) report.old ≡ Err e) }
    {
        match part {
            Field::Empty => Ok(Nodes::new(alloc)),
            Field::Character(character) => {
                let Nucleus { nodes, .. } = self.fetched_nucleus(
                    alloc, style, false, false, *character, report,
                )?;
                Ok(nodes)
            }
            Field::Packed(shift, inner) => {
                let node = Node::from_box(alloc, *shift, inner.clone()?)?;
                Ok(single(alloc, node)?)
            }
            Field::Formula(list) => {
                self.list_in(alloc, levels, false, style, list.as_slice(), report)
            }
        }
    }
}

/// A formula as a horizontal list: `style` is 0 for display, 2 for text, 4 for script and 6 for scriptscript style, and one more
/// where it is cramped; with `penalties`, \binoppenalty and \relpenalty stand behind Bins and Rels (TeX: The Program, part 36; The
/// TeXbook, appendix G). \overfullrule is a dimension.
///
/// Its errors are `FewParameters` exactly where the symbol or extension font of a size has too few parameters, which is looked at
/// first; and then the first of these that comes as the items are set in their order: a character whose family has no font, a size,
/// shift or glue that is no dimension, a box that would nest more than 500 deep; and want of memory.
pub fn to_hlist(
    alloc: Global,
    mlist: &Mlist,
    style: u8,
    penalties: bool,
    fonts: &Fonts,
    params: &MathParams,
) -> Result<Formula, MathError>
    requires rule { IsDimension params.now.packing.overfull_rule }
    ensures formula { IfOk result (λ made. spec.hlist (spec.math_with fonts.now params.now) style penalties mlist.now ≡ Ok made) }
    ensures error { IfErr result (λ e. e ≢ OutOfMemory → spec.hlist (spec.math_with fonts.now params.now) style penalties mlist.now ≡ Err e) }
{
    let setter = Setter { fonts, params };
    if !setter.has_all_parameters() {
        return Err(MathError::FewParameters);
    }
    let levels = mlist.depth() + 1;
    let mut report = Bytes::new(alloc);
    let nodes = setter.list_in(
        alloc,
        levels,
        penalties,
        style,
        mlist.as_slice(),
        &mut report,
    )?;
    Ok(Formula { nodes, report })
}
