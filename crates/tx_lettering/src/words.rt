//! Characters, words, spaces and italic corrections in a list (TeX: The Program, sections 1030 to 1045, 1113 and 1243).
ghost use Rattle.std.specs.Prelude.{◌≡◌, ◌≤◌, ◌++◌, Some, IfOk, OnOk};
ghost use Rattle.tx_box.specs.Sources.{appended};
ghost use Rattle.tx_state.specs.declared.parts.Phase.{Phase};
ghost use Rattle.tx_hyphenate.specs.Lacking.{lacking_report};
ghost use Rattle.tx_lettering.specs.Words as spec;
ghost use Rattle.tx_word.specs.Collecting.{collected};
ghost use Rattle.tx_word.specs.Factors.{factor_behind as factor_behind_code};
ghost use Rattle.tx_state.specs.Meanings.{IsStepped, state_of};

use std::alloc::{AllocError, Global};
use tx_box::Lists;
use tx_bytes::Bytes;
use tx_eqtb::Eqtb;
use tx_event::Event;
use tx_hyphenate::{report_lacking, report_missing};
use tx_nest::{ModeState, Nest, SpaceFactor, append_item, set_space_factor};
use tx_node::{KernKind, Node, Plain};
use tx_prim::GlueParameter;
use tx_seen::{Place, Seen, TexError};
use tx_state::{State, add, end_assignment, fail};
use tx_word::{
    HyphenPoint, WordParams, Words, discretionary_hyphen, factor_behind, last_italic, space_between,
};

/// The number of the current font; 0 is that of \nullfont.
#[inline(always)]
pub fn current_font(table: &Eqtb) -> u8
    ensures { result ≡ spec.current_font table.now.table }
{
    table.font()
}

/// The \sfcode of a character; 0 where that is no space factor, which leaves the list's as it is (section 1034).
#[inline(always)]
fn space_code(table: &Eqtb, code: u8) -> u16
    ensures value { result ≡ spec.space_code table.now.table code }
    ensures most { result ≤ 32767 }
{
    match SpaceFactor::try_new(table.space_factor(code)) {
        Some(factor) => factor.get(),
        None => 0,
    }
}

/// \spaceskip and \xspaceskip.
pub fn word_params(table: &Eqtb) -> WordParams
    ensures { result ≡ spec.word_params table.now.table }
{
    WordParams {
        spaceskip: table.glue(&Place::Glue(GlueParameter::Spaceskip)),
        xspaceskip: table.glue(&Place::Glue(GlueParameter::Xspaceskip)),
    }
}

/// The space factor of the list that is being built, None where it isn't horizontal.
#[inline(always)]
pub fn factor_now(s: &State) -> Option<SpaceFactor>
    ensures { result ≡ spec.factor_now (state_of s.now) }
{
    s.lists.nest.innermost().state.space_factor()
}

/// Whether the list that is being built is that of a paragraph.
fn in_paragraph(nest: &Nest) -> bool
    ensures { result ≡ spec.is_paragraph nest.now.innermost.state }
{
    match nest.innermost().state {
        ModeState::Horizontal(_) => true,
        ModeState::Vertical(_) | ModeState::InternalVertical(_) => false,
        ModeState::RestrictedHorizontal(_) | ModeState::Math | ModeState::DisplayMath => false,
    }
}

/// The word that is open ends. Its only error is want of memory.
#[inline(never)]
pub fn end_word(alloc: Global, s: &mut State) -> Result<(), AllocError>
    ensures state { OnOk result (state_of s.new ≡ spec.word_ended (state_of s.old)) }
    ensures phase { OnOk result (s.new.phase ≡ s.old.phase) }
    ensures said { OnOk result (s.new.said ≡ s.old.said) }
{
    let in_paragraph = in_paragraph(&s.lists.nest);
    s.words
        .end(alloc, &mut s.lists.nest.top().nodes, in_paragraph)
}

/// The word that is open ends before a token that begins a command, if that is no character and doesn't stand for one. Its only
/// error is want of memory.
#[inline(always)]
pub fn settle_word(alloc: Global, s: &mut State, seen: &Seen) -> Result<(), AllocError>
    ensures state { OnOk result (state_of s.new ≡ spec.before_token (state_of s.old) seen.now) }
    ensures phase { OnOk result (s.new.phase ≡ s.old.phase) }
    ensures said { OnOk result (s.new.said ≡ s.old.said) }
{
    if !s.words.is_open() || s.scan.is_begun() || seen.continues_word() {
        return Ok(());
    }
    end_word(alloc, s)
}

/// The space factor is that behind a character.
#[inline(always)]
pub fn pass_factor(s: &mut State, factor: SpaceFactor, code: u8)
    ensures state { state_of s.new ≡ spec.with_list_factor (state_of s.old) (factor_behind_code factor (spec.space_code s.old.table.table code)) }
    ensures phase { s.new.phase ≡ s.old.phase }
    ensures said { s.new.said ≡ s.old.said }
{
    let behind = factor_behind(factor.get(), space_code(&s.table, code));
    set_space_factor(s.lists.nest.top(), SpaceFactor::new(behind));
}

/// A character joins the open word, or ends it where the font lacks it, and the answer is the number of that font. Its only error
/// is want of memory.
fn gather(
    alloc: Global,
    words: &mut Words,
    lists: &mut Lists,
    in_paragraph: bool,
    font: u8,
    code: u8,
) -> Result<Option<u8>, AllocError>
    ensures lacking { IfOk result (λ lacking. lacking ≡ (collected words.old in_paragraph font code).lacking) }
    ensures lists { OnOk result (lists.new ≡ appended lists.old (collected words.old in_paragraph font code).items) }
    ensures words { OnOk result (words.new ≡ (collected words.old in_paragraph font code).words) }
{
    words.collect(alloc, &mut lists.nest.top().nodes, in_paragraph, font, code)
}

/// Reports a character, if a font lacks it. Its only error is want of memory.
fn report(said: &mut Bytes, words: &Words, code: u8, lacking: Option<u8>) -> Result<(), AllocError>
    ensures { OnOk result ((s : State) → said.new ≡ said.old ++ spec.report_of (state_of (record s { words = words.now })) code lacking) }
{
    match lacking {
        Some(font) => report_missing(said, code, words.fonts().name(font)),
        None => Ok(()),
    }
}

/// A character of a horizontal list with this space factor. Err is want of memory.
pub fn collect(
    alloc: Global,
    s: &mut State,
    factor: SpaceFactor,
    code: u8,
) -> Result<Event, AllocError>
    requires { s.old.phase ≡ Phase.Running }
    ensures { IfOk result (λ event. IsStepped (spec.collecting (state_of s.old) code factor) s.old event s.new) }
{
    let font = current_font(&s.table);
    let in_paragraph = in_paragraph(&s.lists.nest);
    pass_factor(s, factor, code);
    let lacking = gather(alloc, &mut s.words, &mut s.lists, in_paragraph, font, code)?;
    report(&mut s.said, &s.words, code, lacking)?;
    Ok(Event::Went)
}

/// A space of the current font at a space factor. Err is want of memory.
fn space_at(s: &mut State, factor: SpaceFactor) -> Result<Event, AllocError>
    requires { s.old.phase ≡ Phase.Running }
    ensures { IfOk result (λ event. IsStepped (spec.space_at (state_of s.old) factor) s.old event s.new) }
{
    let font = current_font(&s.table);
    let params = word_params(&s.table);
    match space_between(s.words.fonts(), &params, font, factor.get()) {
        Some(glue) => add(s, Node::Plain(Plain::Glue(glue))),
        None => Ok(fail(s, TexError::SizeOutOfRange)),
    }
}

/// A space token. Err is want of memory; the event may end the run by an error, as `spacing` says.
#[inline(never)]
pub fn space(s: &mut State) -> Result<Event, AllocError>
    requires { s.old.phase ≡ Phase.Running }
    ensures { IfOk result (λ event. IsStepped (spec.spacing (state_of s.old) (spec.factor_now (state_of s.old))) s.old event s.new) }
{
    match factor_now(s) {
        Some(factor) => space_at(s, factor),
        None => Ok(Event::Went),
    }
}

/// `\ `. Err is want of memory; the event may end the run by an error, as `control_spacing` says.
pub fn control_space(s: &mut State) -> Result<Event, AllocError>
    requires { s.old.phase ≡ Phase.Running }
    ensures { IfOk result (λ event. IsStepped (spec.control_spacing (state_of s.old)) s.old event s.new) }
{
    space_at(s, SpaceFactor::plain())
}

/// `\/`: behind a character or a ligature of a horizontal list its kern. Err is want of memory.
pub fn correct_italic(s: &mut State) -> Result<Event, AllocError>
    requires { s.old.phase ≡ Phase.Running }
    ensures { IfOk result (λ event. IsStepped (spec.correcting (state_of s.old) (spec.factor_now (state_of s.old))) s.old event s.new) }
{
    if factor_now(s).is_none() {
        return add(s, Node::Plain(Plain::Kern(KernKind::Implicit, 0)));
    }
    match last_italic(s.words.fonts(), &s.lists.nest.innermost().nodes) {
        Some(size) => add(s, Node::Plain(Plain::Kern(KernKind::Explicit, size))),
        None => Ok(Event::Went),
    }
}

/// Reports the hyphen character that a font lacks, if it does. Its only error is want of memory.
fn report_hyphen(
    said: &mut Bytes,
    words: &Words,
    font: u8,
    lacking: Option<u8>,
) -> Result<(), AllocError>
    ensures { OnOk result (said.new ≡ said.old ++ lacking_report words.now.fonts font lacking) }
{
    report_lacking(said, words.fonts(), font, lacking)
}

/// `\-`: a place in the list where a word may be broken. Err is want of memory.
pub fn break_word(alloc: Global, s: &mut State) -> Result<Event, AllocError>
    requires { s.old.phase ≡ Phase.Running }
    ensures { IfOk result (λ event. IsStepped (spec.breaking (state_of s.old)) s.old event s.new) }
{
    let font = current_font(&s.table);
    let HyphenPoint { node, lacking } = discretionary_hyphen(alloc, s.words.fonts(), font)?;
    append_item(s.lists.nest.top(), node)?;
    report_hyphen(&mut s.said, &s.words, font, lacking)?;
    Ok(Event::Went)
}

/// An assignment to \spacefactor, which only horizontal lists have. Err is want of memory; the event may end the run by an error,
/// as `setting_factor_of` says.
pub fn set_factor(s: &mut State, number: i32) -> Result<Event, AllocError>
    requires { s.old.phase ≡ Phase.Running }
    ensures { IfOk result (λ event. IsStepped (spec.setting_factor_of (state_of s.old) number (spec.factor_now (state_of s.old))) s.old event s.new) }
{
    if factor_now(s).is_none() {
        return Ok(fail(s, TexError::NotAllowed));
    }
    match SpaceFactor::try_new(number) {
        Some(factor) => {
            set_space_factor(s.lists.nest.top(), factor);
            end_assignment(s)
        }
        None => Ok(fail(s, TexError::NumberOutOfRange)),
    }
}
