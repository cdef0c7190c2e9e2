//! TeX's stomach, as a trait: what a turn asks for beyond reading (TeX: The Program, sections 1030 to 1034).
ghost use Rattle.std.specs.Prelude.{◌≡◌, [], IfOk, OnOk};
ghost use Rattle.tx_reading.specs.AtOnce.{whole};
ghost use Rattle.tx_pending.specs.Plain.{IsNext};
ghost use Rattle.tx_state.specs.Meanings.{IsStepped, state_of};
ghost use Rattle.tx_state.specs.Outcomes.{leaves};
ghost use Rattle.tx_turn.specs.Effects.{Effects};
ghost use Rattle.tx_turn.specs.Going.{GoesOn};
ghost use Rattle.tx_turn.specs.MainLoop.{IsLooping};
ghost use Rattle.tx_turn.specs.Turns.{before_token};

use crate::going::Going;
use std::alloc::{AllocError, Global};
use tx_box::Work;
use tx_char::ControlName;
use tx_event::Event;
use tx_lex::PlainToken;
use tx_prim::EntryEnd;
use tx_reading::AtOnce;
use tx_seen::Seen;
use tx_state::{FontRequest, Phase, State};

/// What carries commands out, ends words, texts and entries, and does the work that is due: the crates of commands do, so that how
/// tokens are read and joined is proved without them.
///
/// The only error of each is want of memory, after which the state may only be dropped; an event may end the run by an error.
pub trait Stomach {
    /// What it makes of the state.
    ghost effects: { Effects };

    /// Carries out the command that is whole.
    fn carry_made_out(alloc: Global, s: &mut State) -> Result<Event, AllocError>
        requires running { s.old.phase ≡ Phase.Running }
        requires between { s.old.scan.taken ≡ [] }
        ensures { IfOk result (λ event. IsStepped (effects.effect (state_of s.old) s.old.made) s.old event s.new) };

    /// Carries out a command that one token is.
    fn take_at_once(alloc: Global, s: &mut State, found: AtOnce) -> Result<Event, AllocError>
        requires running { s.old.phase ≡ Phase.Running }
        requires between { s.old.scan.taken ≡ [] }
        ensures { IfOk result (λ event. IsStepped (effects.effect (state_of s.old) (whole found)) s.old event s.new) };

    /// Takes a turn of the character that comes next, if it joins the word or is a space, and answers whether that is so; else
    /// nothing changes, as in a list without a space factor.
    fn set_next(
        alloc: Global,
        s: &mut State,
        font: u8,
        first: PlainToken,
    ) -> Result<bool, AllocError>
        requires looping { IsLooping s.old font }
        requires comes { IsNext s.old.table.table.categories s.old.input first }
        ensures { IfOk result (λ went. GoesOn effects went (Going.Letters font) s.old s.new) };

    /// The word that is open ends before a token that begins a command, if that is no character and doesn't stand for one.
    fn settle_word(alloc: Global, s: &mut State, seen: &Seen) -> Result<(), AllocError>
        ensures state { OnOk result (state_of s.new ≡ before_token effects (state_of s.old) seen.now) }
        ensures phase { OnOk result (s.new.phase ≡ s.old.phase) }
        ensures said { OnOk result (s.new.said ≡ s.old.said) };

    /// The open text is whole, and takes effect.
    fn end_text(alloc: Global, s: &mut State) -> Result<Event, AllocError>
        requires { s.old.phase ≡ Phase.Running }
        ensures { IfOk result (λ event. IsStepped (effects.ending_text (state_of s.old)) s.old event s.new) };

    /// The name that \csname has made means \relax from now on.
    fn relax_name(s: &mut State, name: ControlName) -> Result<Event, AllocError>
        requires { s.old.phase ≡ Phase.Running }
        ensures { IfOk result (λ event. IsStepped (leaves (effects.relaxing (state_of s.old) name)) s.old event s.new) };

    /// An entry of an alignment ends by this: its v-part is to be read.
    fn end_entry(alloc: Global, s: &mut State, word: EntryEnd) -> Result<Event, AllocError>
        requires { s.old.phase ≡ Phase.Running }
        ensures { IfOk result (λ event. IsStepped (effects.ending_entry (state_of s.old) word) s.old event s.new) };

    /// The v-part of an entry is read to its end: the word that is open ends, and then the entry.
    fn end_part(alloc: Global, s: &mut State) -> Result<Event, AllocError>
        requires { s.old.phase ≡ Phase.Running }
        ensures { IfOk result (λ event. IsStepped (effects.over (effects.word_ended (state_of s.old))) s.old event s.new) };

    /// The font of a request, with what came of its file.
    fn load_font(alloc: Global, s: &mut State, request: FontRequest) -> Result<Event, AllocError>
        requires { s.old.phase ≡ Phase.Running }
        ensures { IfOk result (λ event. IsStepped (effects.loading (state_of s.old) request) s.old event s.new) };

    /// Boxes are copied, built or shipped.
    fn work_boxes(alloc: Global, s: &mut State, work: Work) -> Result<Event, AllocError>
        requires { s.old.phase ≡ Phase.Running }
        ensures { IfOk result (λ event. IsStepped (effects.works_boxes (state_of s.old) work) s.old event s.new) };
}
