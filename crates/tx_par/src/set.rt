//! Setting a paragraph.
ghost use Rattle.std.specs.Prelude.{◌≡◌, ◌≢◌, ◌<◌, length, IfOk, IfErr, IfNone, IfSome, OnOk, Ok, Err, None, Some};
ghost use Rattle.tx_num.specs.Glue.{IsDimension};
ghost use Rattle.tx_node.specs.Nodes.{list_of};
ghost use Rattle.tx_par.specs.declared.error.ParError.TheVariants.{OutOfMemory};
ghost use Rattle.tx_par.specs.LineLists.{between, with_items};
ghost use Rattle.tx_par.specs.Paragraphs as spec;
ghost use Rattle.tx_par.specs.Pieces.{pieces_of};
ghost use Rattle.tx_par.specs.Setting.{IsOfLines};
ghost use Rattle.tx_par.specs.Tasks.{IsTask, task_in};

use crate::ending::end;
use crate::error::ParError;
use crate::first::first_place;
use crate::line::Line;
use crate::lines::Lines;
use crate::params::ParParams;
use crate::pieces::pieces_of;
use crate::setting::put_line;
use crate::so_far::SoFar;
use crate::task::Paragraph;
use std::alloc::{AllocError, Global};
use tx_bytes::Bytes;
use tx_linebreak::{BreakError, Chosen, Pieces, Shape, breaks, discretionary_at, first_breaks};
use tx_nest::{ModeList, ModeState};
use tx_node::Nodes;

impl From<BreakError> for ParError {
    ghost from_gives = { λ e r. r ≡ spec.of_breaking e };

    fn from(error: BreakError) -> Self {
        match error {
            BreakError::InfiniteShrink => ParError::EndlessShrink,
            BreakError::OutOfMemory => ParError::OutOfMemory,
        }
    }
}

/// Before the first line; takes no memory.
fn none_so_far(alloc: Global, params: &ParParams) -> SoFar
    ensures { result ≡ spec.none_so_far params.now }
{
    SoFar {
        list: ModeList {
            state: ModeState::InternalVertical(params.prev_depth),
            nodes: Nodes::new(alloc),
            prev_graf: 0,
        },
        last: 0,
        badness: 0,
        report: Bytes::new(alloc),
    }
}

impl<'a> Paragraph<'a> {
    /// Adds to a line what stands between a break, or the list's beginning, and a break.
    fn add_between(
        &self,
        line: &mut Line,
        from: Option<usize>,
        place: usize,
    ) -> Result<(), AllocError>
        requires { IsTask self.now }
        ensures { OnOk result (line.new ≡ with_items line.old (between self.now.first_pass (list_of self.now.items.now) self.now.pieces.now from place)) }
    {
        let end = place.min(self.items.len());
        let first = first_place(self.pieces, from, end);
        line.share_between(&self.items[first..end], self.first_pass)
    }

    /// The line from a break, or from the list's beginning, to a break. Its only error is want of memory.
    #[tactic(auto, unfolding(crate::specs::Paragraphs::line_to))]
    fn line_to(&self, alloc: Global, from: Option<usize>, place: usize) -> Result<Line, AllocError>
        requires { IsTask self.now }
        ensures { IfOk result (λ line. line ≡ spec.line_to (task_in self.now) from place) }
    {
        let mut line = Line::new(alloc);
        line.push_glue_unless_zero(self.params.breaking.left_skip)?;
        line.share_carried(self.items, from)?;
        self.add_between(&mut line, from, place)?;
        line.share_end(alloc, self.items, place)?;
        line.push_glue(self.params.breaking.right_skip)?;
        Ok(line)
    }

    /// Sets the line to a break, with so many before it. After an error what is set may only be dropped.
    fn add_line(
        &self,
        alloc: Global,
        so_far: &mut SoFar,
        from: Option<usize>,
        lines: usize,
        place: usize,
    ) -> Result<(), ParError>
        requires { IsTask self.now }
        ensures set { OnOk result (spec.with_line_to (task_in self.now) from lines place so_far.old ≡ Ok so_far.new) }
        ensures error { IfErr result (λ e. e ≢ OutOfMemory → spec.with_line_to (task_in self.now) from lines place so_far.old ≡ Err e) }
        ensures cause { IfErr result IsOfLines }
    {
        let line = self.line_to(alloc, from, place)?;
        let broken = discretionary_at(self.pieces, place).is_some();
        put_line(
            alloc,
            so_far,
            self.params,
            self.shape,
            lines,
            self.count,
            broken,
            line,
        )
    }

    /// Sets the lines to breaks in order.
    fn add_lines(&self, alloc: Global, chain: &[usize]) -> Result<SoFar, ParError>
        requires { IsTask self.now }
        ensures set { IfOk result (λ so_far. spec.with_lines (task_in self.now) None 0 chain.now (spec.none_so_far self.now.params.now) ≡ Ok so_far) }
        ensures error { IfErr result (λ e. e ≢ OutOfMemory → spec.with_lines (task_in self.now) None 0 chain.now (spec.none_so_far self.now.params.now) ≡ Err e) }
        ensures cause { IfErr result IsOfLines }
    {
        let mut so_far = none_so_far(alloc, self.params);
        let mut from = None;
        for lines in 0..chain.len() {
            let place = chain[lines];
            self.add_line(alloc, &mut so_far, from, lines, place)?;
            from = Some(place);
        }
        Ok(so_far)
    }
}

/// What is told of lines that are set by breaks.
fn told(so_far: SoFar, chosen: Chosen) -> Lines
    ensures { Ok result ≡ spec.lines_told chosen (Ok so_far) }
{
    let SoFar {
        list,
        last,
        badness,
        report,
    } = so_far;
    let depth = list.state.prev_depth().unwrap_or(0);
    Lines {
        nodes: list.nodes,
        last,
        chosen,
        depth,
        badness,
        report,
    }
}

/// Sets an ended list in lines by the breaks that were chosen.
#[tactic(auto, unfolding(crate::specs::Paragraphs::lines_of))]
fn set(
    alloc: Global,
    items: &Nodes,
    pieces: &Pieces,
    shape: &Shape,
    params: &ParParams,
    chosen: Chosen,
) -> Result<Lines, ParError>
    requires seen { pieces.now ≡ pieces_of items.now }
    requires shaped { 0 < length shape.now }
    requires rule { IsDimension params.now.packing.overfull_rule }
    ensures set { IfOk result (λ lines. spec.lines_of items.now shape.now params.now chosen ≡ Ok lines) }
    ensures error { IfErr result (λ e. e ≢ OutOfMemory → spec.lines_of items.now shape.now params.now chosen ≡ Err e) }
    ensures cause { IfErr result IsOfLines }
{
    let paragraph = Paragraph {
        items: items.as_slice(),
        pieces: pieces.as_slice(),
        shape: shape.as_slice(),
        params,
        first_pass: chosen.pass == 1,
        count: chosen.chain.len(),
    };
    let so_far = paragraph.add_lines(alloc, chosen.chain.as_slice())?;
    Ok(told(so_far, chosen))
}

/// Sets a paragraph's list as lines: it is ended, broken by `tx_linebreak`, and each line packed and put behind the one before,
/// with what follows it and the penalty before the next (TeX: The Program, part 39; The TeXbook, chapter 14). There is a shape, and
/// \overfullrule is a dimension.
///
/// Its errors are glue of the ended list, or at the ends of its lines, that shrinks infinitely, which is looked for before any line
/// is set; the first size, leading or penalty of the lines in order that leaves its range, a line's width and indent among them;
/// the first line, in this order, whose box would nest more than 500 deep; and want of memory.
pub fn paragraph(
    alloc: Global,
    list: Nodes,
    shape: &Shape,
    params: &ParParams,
) -> Result<Lines, ParError>
    requires shaped { 0 < length shape.now }
    requires rule { IsDimension params.now.packing.overfull_rule }
    ensures outcome { spec.IsOutcome list shape.now params.now result }
    ensures lines { IfOk result (λ lines. spec.paragraph list shape.now params.now ≡ Ok lines) }
    ensures error { IfErr result (λ e. e ≢ OutOfMemory → spec.paragraph list shape.now params.now ≡ Err e) }
{
    let mut items = list;
    end(&mut items, params.par_fill_skip)?;
    let pieces = pieces_of(alloc, items.as_slice())?;
    let chosen = breaks(alloc, &pieces, shape, &params.breaking)?;
    set(alloc, &items, &pieces, shape, params, chosen)
}

/// Sets a paragraph's list as `paragraph` does where the first pass breaks it; None where this pass isn't made, has no chain, or
/// has none as long as \looseness asks for. There is a shape, and \overfullrule is a dimension. Its errors are those of
/// `paragraph`.
pub fn first_lines(
    alloc: Global,
    list: &Nodes,
    shape: &Shape,
    params: &ParParams,
) -> Result<Option<Lines>, ParError>
    requires shaped { 0 < length shape.now }
    requires rule { IsDimension params.now.packing.overfull_rule }
    ensures none { IfOk result (λ found. IfNone found (spec.first_lines list.now shape.now params.now ≡ None)) }
    ensures some { IfOk result (λ found. IfSome found (λ lines. spec.first_lines list.now shape.now params.now ≡ Some (Ok lines))) }
    ensures error { IfErr result (λ e. e ≢ OutOfMemory → spec.first_lines list.now shape.now params.now ≡ Some (Err e)) }
{
    let mut items = list.clone()?;
    end(&mut items, params.par_fill_skip)?;
    let pieces = pieces_of(alloc, items.as_slice())?;
    let Some(chosen) = first_breaks(alloc, &pieces, shape, &params.breaking)? else {
        return Ok(None);
    };
    let lines = set(alloc, &items, &pieces, shape, params, chosen)?;
    Ok(Some(lines))
}
