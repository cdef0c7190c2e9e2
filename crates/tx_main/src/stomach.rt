//! TeX, begun as INITEX, as its commands carry it out (TeX: The Program, sections 1030 to 1045).
ghost use Rattle.tx_main.specs.Turns.{tex_effects};

use crate::effects::{assign, begin_group, carry_other_out, end_group, prefix, set_character};
use crate::letters::{set_letter, set_space};
use std::alloc::{AllocError, Global};
use tx_aligning::end_entry;
use tx_box::Work;
use tx_boxing::{remove, work_boxes};
use tx_char::ControlName;
use tx_eqtb::GroupKind;
use tx_event::Event;
use tx_formula::{begin_script, set_number, shift};
use tx_grouping::{end_paragraph, end_semi_simple, indent};
use tx_lettering::{
    break_word, control_space, correct_italic, end_text, end_word, factor_now, load_font,
    relax_name, settle_word, space,
};
use tx_lex::PlainToken;
use tx_prim::EntryEnd;
use tx_reading::AtOnce;
use tx_seen::Seen;
use tx_state::{FontRequest, State, open};
use tx_turn::Stomach;

/// TeX, begun as INITEX.
#[derive(Clone, Copy)]
pub struct Tex;

impl Stomach for Tex {
    ghost effects = { tex_effects };

    #[inline(never)]
    fn carry_made_out(alloc: Global, s: &mut State) -> Result<Event, AllocError> {
        match s.made.take_assignment() {
            // most commands
            Some(assignment) => assign(alloc, s, assignment),
            None => carry_other_out(alloc, s),
        }
    }

    #[inline(never)]
    fn take_at_once(alloc: Global, s: &mut State, found: AtOnce) -> Result<Event, AllocError> {
        match found {
            AtOnce::Character(code) => set_character(alloc, s, code),
            AtOnce::Space => space(s),
            AtOnce::BeginGroup => begin_group(alloc, s),
            AtOnce::EndGroup => end_group(alloc, s),
            AtOnce::BeginSemiSimple => open(s, GroupKind::SemiSimple),
            AtOnce::EndSemiSimple => end_semi_simple(s),
            AtOnce::MathShift => shift(alloc, s),
            AtOnce::Script(part) => begin_script(alloc, s, part),
            AtOnce::MathCharacter(number) => set_number(alloc, s, i32::from(number)),
            AtOnce::Nothing => Ok(Event::Went),
            AtOnce::Prefix(found) => Ok(prefix(&mut s.scan, found)),
            AtOnce::EndParagraph => end_paragraph(alloc, s),
            AtOnce::Indent(how) => indent(alloc, s, how),
            AtOnce::ControlSpace => control_space(s),
            AtOnce::ItalicCorrection => correct_italic(s),
            AtOnce::DiscretionaryHyphen => break_word(alloc, s),
            AtOnce::Remove(kind) => Ok(remove(s, kind)),
        }
    }

    fn set_next(
        alloc: Global,
        s: &mut State,
        font: u8,
        first: PlainToken,
    ) -> Result<bool, AllocError> {
        let Some(factor) = factor_now(s) else {
            return Ok(false);
        };
        match first {
            PlainToken::Set(code) => set_letter(alloc, s, font, factor, code),
            PlainToken::Blank => set_space(alloc, s, font, factor),
        }
    }

    #[inline(always)]
    fn settle_word(alloc: Global, s: &mut State, seen: &Seen) -> Result<(), AllocError> {
        settle_word(alloc, s, seen)
    }

    #[inline(always)]
    fn end_text(alloc: Global, s: &mut State) -> Result<Event, AllocError> {
        end_text(alloc, s)
    }

    #[inline(always)]
    fn relax_name(s: &mut State, name: ControlName) -> Result<Event, AllocError> {
        relax_name(s, name)
    }

    #[inline(always)]
    fn end_entry(alloc: Global, s: &mut State, word: EntryEnd) -> Result<Event, AllocError> {
        end_entry(alloc, s, word)
    }

    #[inline(always)]
    fn end_part(alloc: Global, s: &mut State) -> Result<Event, AllocError> {
        end_word(alloc, s)?;
        tx_aligning::end_part(alloc, s)
    }

    #[inline(always)]
    fn load_font(alloc: Global, s: &mut State, request: FontRequest) -> Result<Event, AllocError> {
        load_font(alloc, s, request)
    }

    #[inline(always)]
    fn work_boxes(alloc: Global, s: &mut State, work: Work) -> Result<Event, AllocError> {
        work_boxes(alloc, s, work)
    }
}
