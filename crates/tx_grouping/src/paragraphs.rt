//! How paragraphs begin and end (TeX: The Program, sections 1090 to 1100).
ghost use Rattle.std.specs.Prelude.{◌≡◌, ◌∷◌, ◌++◌, [], IfOk, OnOk};
ghost use Rattle.tx_command.specs.Commands.{prefixes_of};
ghost use Rattle.tx_grouping.specs.Paragraphs as spec;
ghost use Rattle.tx_nest.specs.Grafs.{graf_of as graf_for};
ghost use Rattle.tx_state.specs.Outcomes.{leaves};
ghost use Rattle.tx_state.specs.declared.parts.Phase.{Phase};
ghost use Rattle.tx_state.specs.Meanings.{IsStepped, state_of};

use std::alloc::{AllocError, Global};
use tx_assign::{Assignment, Change};
use tx_box::Done;
use tx_building::{build, build_behind, carry, is_pages};
use tx_char::{ControlName, Token};
use tx_command::{Head, Prefixes};
use tx_eqtb::{Entry, Eqtb, ParShape};
use tx_event::Event;
use tx_list::Items;
use tx_nest::{graf_of, set_prev_graf};
use tx_paragraph::paragraph_error;
use tx_pending::Pending;
use tx_prim::{Indentation, ModeTest, TokenParameter};
use tx_seen::{Place, TexError};
use tx_state::{State, carry_out_assignment, end_assignment, fail};

/// The tokens of \everypar are read first, if a paragraph begins. Its only error is want of memory.
fn read_every_par(input: &mut Pending, table: &Eqtb, begins: bool) -> Result<(), AllocError>
    ensures { (s : State) → OnOk result (state_of (record s { input = input.new; table = table.now }) ≡ spec.with_every_par begins (state_of (record s { input = input.old; table = table.now }))) }
{
    if begins {
        let every = table.tokens(&Place::Tokens(TokenParameter::Everypar))?;
        input.push_list(every, false)?;
    }
    Ok(())
}

/// \indent and \noindent, and what begins a paragraph, of which the page builder then has the \parskip. Err is want of memory; the
/// event may end the run by an error, as `indenting_so` says.
pub fn indent(alloc: Global, s: &mut State, how: Indentation) -> Result<Event, AllocError>
    requires { s.old.phase ≡ Phase.Running }
    ensures { IfOk result (λ event. IsStepped (spec.indenting_so (state_of s.old) how) s.old event s.new) }
{
    let begins = ModeTest::Vertical.holds(s.lists.nest.innermost().mode());
    let on_pages = is_pages(s.scan.mode());
    read_every_par(&mut s.input, &s.table, begins)?;
    tx_paragraph::indent(alloc, &mut s.lists, &s.table, how)?;
    let event = carry(s, Done::Whole, b"")?;
    if on_pages { build(alloc, s) } else { Ok(event) }
}

/// A command ends a paragraph before it: \par is read first. Err is want of memory.
pub fn insert_par(alloc: Global, s: &mut State) -> Result<Event, AllocError>
    requires { s.old.phase ≡ Phase.Running }
    ensures { IfOk result (λ event. IsStepped (leaves (spec.inserting_par (state_of s.old))) s.old event s.new) }
{
    let par = ControlName::from_slice(alloc, b"par")?;
    s.input.give_back(Token::Name(par))?;
    Ok(Event::Went)
}

/// An assignment to \prevgraf. Err is want of memory; the event may end the run by an error, as `setting_graf` says.
pub fn set_graf(s: &mut State, number: i32) -> Result<Event, AllocError>
    requires { s.old.phase ≡ Phase.Running }
    ensures { IfOk result (λ event. IsStepped (spec.setting_graf (state_of s.old) (graf_for number)) s.old event s.new) }
{
    match graf_of(number) {
        Some(graf) => {
            set_prev_graf(s.lists.nest.top(), graf);
            end_assignment(s)
        }
        None => Ok(fail(s, TexError::NumberOutOfRange)),
    }
}

/// How many sizes follow \parshape for so many lines.
fn sizes_of(lines: i32) -> u32
    ensures { result ≡ spec.sizes_of lines }
{
    if lines > 0 {
        lines.unsigned_abs() * 2
    } else {
        0
    }
}

/// These sizes of \parshape are read, behind its prefixes, and so many are to follow; once none is, it is assigned. Err is want of
/// memory.
fn shape(
    alloc: Global,
    s: &mut State,
    prefixes: Prefixes,
    left: u32,
    sizes: Items<i32>,
) -> Result<Event, AllocError>
    requires running { s.old.phase ≡ Phase.Running }
    requires between { s.old.scan.taken ≡ [] }
    ensures { IfOk result (λ event. IsStepped (spec.shaping (state_of s.old) prefixes left sizes) s.old event s.new) }
{
    if left > 0 {
        s.scan.begin_behind(Head::Shaping(prefixes, left, sizes));
        return Ok(Event::Went);
    }
    let shape = ParShape::new(alloc, sizes)?;
    let change = Change::Set(Entry::Shape(shape));
    let place = Place::ParShape;
    carry_out_assignment(s, Assignment { place, change }, prefixes.global)
}

/// \parshape and how many lines it is to have. Err is want of memory; the event may end the run by an error, as `shaping` says.
pub fn begin_shape(alloc: Global, s: &mut State, lines: i32) -> Result<Event, AllocError>
    requires running { s.old.phase ≡ Phase.Running }
    requires between { s.old.scan.taken ≡ [] }
    ensures { IfOk result (λ event. IsStepped (spec.shaping (state_of s.old) (prefixes_of s.old.scan.head) (spec.sizes_of lines) []) s.old event s.new) }
{
    let prefixes = s.scan.prefixes();
    shape(alloc, s, prefixes, sizes_of(lines), Items::new(alloc))
}

/// These sizes, and one more. Its only error is want of memory.
fn with_size(sizes: Items<i32>, size: i32) -> Result<Items<i32>, AllocError>
    ensures { IfOk result (λ more. more ≡ sizes ++ size ∷ []) }
{
    let mut sizes = sizes;
    sizes.push(size)?;
    Ok(sizes)
}

/// One more size of \parshape, in sp. Err is want of memory; the event may end the run by an error, as `shape_sized` says.
pub fn add_size(alloc: Global, s: &mut State, size: i32) -> Result<Event, AllocError>
    requires running { s.old.phase ≡ Phase.Running }
    requires between { s.old.scan.taken ≡ [] }
    ensures { IfOk result (λ event. IsStepped (spec.shape_sized (state_of s.old) size s.old.scan.head) s.old event s.new) }
{
    match s.scan.take_head() {
        Head::Shaping(prefixes, left, sizes) => {
            let sizes = with_size(sizes, size)?;
            shape(alloc, s, prefixes, left.saturating_sub(1), sizes)
        }
        // (it is dropped where it stood)
        other => {
            s.scan.begin_behind(other);
            s.scan.begin_fresh();
            Ok(Event::Went)
        }
    }
}

/// \par. Err is want of memory; the event may end the run by an error, as `ending_paragraph` says.
pub fn end_paragraph(alloc: Global, s: &mut State) -> Result<Event, AllocError>
    requires { s.old.phase ≡ Phase.Running }
    ensures { IfOk result (λ event. IsStepped (spec.ending_paragraph (state_of s.old)) s.old event s.new) }
{
    match tx_paragraph::end_paragraph(
        alloc,
        s.words.fonts(),
        &mut s.hyphenation,
        &mut s.lists,
        &mut s.table,
    ) {
        Ok(report) => {
            let event = carry(s, Done::Whole, report.as_slice())?;
            build_behind(alloc, s, event)
        }
        Err(error) => {
            let error = paragraph_error(error)?;
            Ok(fail(s, error))
        }
    }
}
