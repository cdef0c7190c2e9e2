//! Alignments begin, and their preambles are read (TeX: The Program, sections 774 to 785).
ghost use Rattle.std.specs.Prelude.{◌≡◌, ◌↔◌, [], IfOk, IsTrue};
ghost use Rattle.tx_align.specs.Preambles.{takes};
ghost use Rattle.tx_expand.specs.Turns.{entry_end as entry_end_of};
ghost use Rattle.tx_state.specs.declared.parts.Phase.{Phase};
ghost use Rattle.tx_state.specs.Meanings.{IsStepped, state_of};
ghost use Rattle.tx_aligning.specs.Preambles as spec;

use crate::standing::{put_innermost, read_everycr};
use std::alloc::{AllocError, Global};
use tx_align::PreItem;
use tx_assign::{Assignment, Carried};
use tx_box::reset_shape;
use tx_char::Cat;
use tx_command::Head;
use tx_eqtb::GroupKind;
use tx_event::Event;
use tx_expand::entry_end;
use tx_prim::{EntryEnd, GlueParameter};
use tx_seen::{Fed, Meaning, Seen, TexError};
use tx_shape::BoxGoal;
use tx_state::{State, fail, open_group, stand, stand_before_row};
use tx_tabular::{Alignment, begin_list};

/// The level at which a preamble is read.
const IN_PREAMBLE: i64 = -1_000_000;

/// \halign: what its preamble is set to, and its begin-group token, are to follow.
pub fn align(s: &mut State) -> Event
    requires { s.old.phase ≡ Phase.Running }
    ensures { IsStepped (spec.aligning (state_of s.old)) s.old result s.new }
{
    let level = s.input.level();
    s.scan.begin_behind(Head::Aligning(level));
    Event::Went
}

/// The begin-group token of \halign: the preamble is to follow. Err is want of memory; the event may end the run by an error, as
/// `beginning` says.
pub fn begin_align(alloc: Global, s: &mut State, goal: BoxGoal) -> Result<Event, AllocError>
    requires { s.old.phase ≡ Phase.Running }
    ensures { IfOk result (λ event. IsStepped (spec.beginning (state_of s.old) goal) s.old event s.new) }
{
    let tabskip = s.table.glue_parameter(GlueParameter::Tabskip);
    let outer = s.scan.level();
    if !open_group(s, GroupKind::Align)? {
        return Ok(fail(s, TexError::TooManyGroups));
    }
    begin_list(alloc, &mut s.lists)?;
    put_innermost(s, Alignment::new(alloc, goal, tabskip, outer))?;
    stand(s, Head::Preamble);
    s.input.set_level(IN_PREAMBLE);
    Ok(Event::Went)
}

/// \span in a preamble: the next token is expanded once. Err is want of memory.
pub fn expand_next(s: &mut State) -> Result<Event, AllocError>
    requires { s.old.phase ≡ Phase.Running }
    ensures { IfOk result (λ event. IsStepped (spec.expanding (state_of s.old)) s.old event s.new) }
{
    s.expander.expand_once()?;
    Ok(Event::Went)
}

/// Whether a token that means this is a parameter character.
fn is_parameter(meaning: &Meaning) -> bool
    ensures { result ≡ spec.is_parameter meaning.now }
{
    matches!(meaning, Meaning::Character(_, Cat::Parameter))
}

/// What a token of a preamble is that ends none of its parts.
fn plain_item(token: Seen) -> PreItem
    ensures { result ≡ spec.plain_item token }
{
    let space = token.is_space();
    let parameter = is_parameter(&token.meaning);
    let Seen { token, meaning: _ } = token;
    if space {
        PreItem::Space(token)
    } else if parameter {
        PreItem::Param
    } else {
        PreItem::Token(token)
    }
}

/// What a token is that ends a part outside of braces.
fn if_outside(outside: bool, item: PreItem, token: Seen) -> PreItem
    ensures { result ≡ spec.if_outside outside item token }
{
    let Seen { token, meaning: _ } = token;
    if outside { item } else { PreItem::Token(token) }
}

/// What a token of a preamble is, in braces of its own or outside of such.
fn item_of(outside: bool, token: Seen) -> PreItem
    ensures { result ≡ spec.item_by outside token (entry_end_of token.meaning) }
{
    match entry_end(&token.meaning) {
        None => plain_item(token),
        Some(EntryEnd::Tab) => if_outside(outside, PreItem::Tab, token),
        Some(EntryEnd::Cr) | Some(EntryEnd::CrCr) => if_outside(outside, PreItem::Cr, token),
        Some(EntryEnd::Span) => {
            let Seen { token, meaning: _ } = token;
            PreItem::Token(token)
        }
    }
}

/// The preamble has ended: rows are read next, each entry in a group. Err is want of memory.
fn begin_rows(s: &mut State) -> Result<Event, AllocError>
    requires { s.old.phase ≡ Phase.Running }
    ensures { IfOk result (λ event. IsStepped (spec.beginning_rows (state_of s.old)) s.old event s.new) }
{
    if !open_group(s, GroupKind::Entry)? {
        return Ok(fail(s, TexError::TooManyGroups));
    }
    read_everycr(s)?;
    stand_before_row(s);
    Ok(Event::Went)
}

/// An item joins the preamble. Err is want of memory.
fn feed(alloc: Global, s: &mut State, item: PreItem) -> Result<Event, AllocError>
    requires { s.old.phase ≡ Phase.Running }
    ensures { IfOk result (λ event. IsStepped (spec.feeding (state_of s.old) item) s.old event s.new) }
{
    let Some(alignment) = s.alignments.pop() else {
        return Ok(fail(s, TexError::MisplacedAlignment));
    };
    feed_to(alloc, s, alignment, item)
}

/// An item joins the preamble of this alignment, which is the innermost one again. Err is want of memory.
fn feed_to(
    alloc: Global,
    s: &mut State,
    alignment: Alignment,
    item: PreItem,
) -> Result<Event, AllocError>
    requires { s.old.phase ≡ Phase.Running }
    ensures { IfOk result (λ event. IsStepped (spec.fed_to (state_of s.old) alignment s.old.alignments (takes alignment.preamble item alignment.preamble.part)) s.old event s.new) }
{
    let mut alignment = alignment;
    let fed = alignment.preamble.feed(alloc, item)?;
    put_innermost(s, alignment)?;
    match fed {
        Fed::More(_) => Ok(Event::Went),
        Fed::Need(_) => unreachable!(),
        Fed::Done(_, _) => begin_rows(s),
        Fed::Wrong(error) => Ok(fail(s, error)),
    }
}

/// Whether a preamble is read at this level outside of braces of its own.
fn is_outside(level: i64) -> bool
    ensures { IsTrue result ↔ (level ≡ spec.in_preamble) }
{
    level == IN_PREAMBLE
}

/// Any other token of a preamble. Err is want of memory; the event may end the run by an error, as `templating` says.
pub fn feed_template(alloc: Global, s: &mut State, token: Seen) -> Result<Event, AllocError>
    requires { s.old.phase ≡ Phase.Running }
    ensures { IfOk result (λ event. IsStepped (spec.templating (state_of s.old) token) s.old event s.new) }
{
    let level = s.input.level();
    let outside = is_outside(level);
    feed(alloc, s, item_of(outside, token))
}

/// \tabskip in a preamble is assigned. Err is want of memory; the event may end the run by an error, as `tabskipping` says.
pub fn set_tabskip(
    alloc: Global,
    s: &mut State,
    assignment: Assignment,
) -> Result<Event, AllocError>
    requires { s.old.phase ≡ Phase.Running }
    ensures { IfOk result (λ event. IsStepped (spec.tabskipping (state_of s.old) assignment) s.old event s.new) }
{
    match tx_assign::carry_out(&mut s.table, assignment, false)? {
        Carried::Done => {
            let tabskip = s.table.glue_parameter(GlueParameter::Tabskip);
            feed(alloc, s, PreItem::Tabskip(tabskip))
        }
        Carried::Refused(error) => Ok(fail(s, error)),
    }
}

/// \noalign and its begin-group token: material between rows is to follow. Err is want of memory; the event may end the run by an
/// error, as `beginning_noalign` says.
pub fn begin_noalign(s: &mut State) -> Result<Event, AllocError>
    requires running { s.old.phase ≡ Phase.Running }
    requires between { s.old.scan.taken ≡ [] }
    ensures { IfOk result (λ event. IsStepped (spec.beginning_noalign (state_of s.old)) s.old event s.new) }
{
    if !open_group(s, GroupKind::NoAlign)? {
        return Ok(fail(s, TexError::TooManyGroups));
    }
    reset_shape(&mut s.table)?;
    s.scan.begin_fresh();
    Ok(Event::Went)
}
