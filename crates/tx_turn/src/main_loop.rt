//! Many turns at one go: as long as tokens are read, no work is due, and what comes of them is nothing that the outside has to know
//! (TeX: The Program, section 1030). Characters are taken without what goes before other tokens: in the main loop those that follow
//! one another join the open word of a horizontal list, and spaces between them end it (sections 1034 to 1041); so characters join
//! a text that is open, within its braces (sections 473 and 477), an argument (section 392), or text that is skipped (section 494),
//! as long as nothing of these ends; and a command that is begun, such as the number of an assignment, up to the one behind which
//! it is whole.
ghost use Rattle.std.specs.Prelude.{◌≡◌, ◌<◌, ◌≤◌, [], true, false, None, Some, length, IsTrue, IfOk, IfSome, OnErr};
ghost use Rattle.tx_command.specs.Commands.{is_begun};
ghost use Rattle.tx_event.specs.Turns.{Ready};
ghost use Rattle.tx_machine.specs.Plain.{HasPassed, HasRunOn, IsLast, last_turns, turns_of};
ghost use Rattle.tx_machine.specs.Steps.{raised};
ghost use Rattle.tx_pending.specs.Plain.{IsNext};
ghost use Rattle.tx_prim.specs.Modes.{holds};
ghost use Rattle.tx_turn.specs.Going.{GoesOn, HasRun, HasTurned, IsCommanding, IsGoing, IsNextOf, IsReading};
ghost use Rattle.tx_turn.specs.Turns.{tex_with};
ghost use Rattle.tx_state.specs.declared.parts.Phase.{Phase};
ghost use Rattle.tx_state.specs.Meanings.{meaning_of};
ghost use Rattle.tx_state.specs.State.{mode_of};
ghost use Rattle.tx_state.specs.Texts.{HasJoinedSome};

use crate::going::Going;
use crate::stomach::Stomach;
use crate::turn::{feed_on, read};
use std::alloc::{AllocError, Global};
use tx_bytes::Bytes;
use tx_char::Token;
use tx_command::{CommandScan, Head};
use tx_eqtb::Eqtb;
use tx_event::Event;
use tx_expand::Expander;
use tx_lex::PlainToken;
use tx_machine::{Passed, Steps};
use tx_pending::Pending;
use tx_prim::ModeTest;
use tx_seen::{Meaning, Seen};
use tx_state::{OpenText, State};

/// Whether the token that is read next is for a command of which nothing is taken, in a horizontal list.
fn awaits_token(scan: &CommandScan) -> bool
    ensures { IsTrue result → ((scan.now.head ≡ Head.Fresh) × ((is_begun scan.now.taken ≡ false) × (holds ModeTest.Horizontal scan.now.mode ≡ true))) }
{
    if scan.is_begun() || !scan.is_fresh() {
        return false;
    }
    ModeTest::Horizontal.holds(scan.mode())
}

/// A token that is no brace, and stands for no #, joins the text that is open, if one is, within its braces; answers whether it
/// did. Else nothing changes. Its only error is want of memory.
#[inline(always)]
fn join_text(text: &mut Option<OpenText>, token: Token) -> Result<bool, AllocError>
    ensures { IfOk result (λ joined. HasJoinedSome text.old token joined text.new) }
{
    match text {
        Some(text) => text.join(token),
        None => Ok(false),
    }
}

/// Takes a turn of the character that comes next, if the open text goes on with it as it stands, and answers whether that is so;
/// else nothing changes. Its only error is want of memory.
#[inline(always)]
fn text_goes_on<T: Stomach>(s: &mut State, first: PlainToken) -> Result<bool, AllocError>
    requires going { IsGoing Going.Text s.old }
    requires comes { IsNext s.old.table.table.categories s.old.input first }
    ensures { IfOk result (λ went. GoesOn T.effects went Going.Text s.old s.new) }
{
    let code = first.code();
    let category = first.category(s.table.categories());
    let joined = join_text(&mut s.text, Token::Character(code, category))?;
    if !joined {
        return Ok(false);
    }
    s.input.pass_first(first.state_behind());
    Ok(true)
}

/// Takes a turn of the character that comes next, if an argument or skipped text goes on with it, and answers whether that is so;
/// else nothing changes. Its only error is want of memory.
#[inline(always)]
fn taking_goes_on<T: Stomach>(s: &mut State, first: PlainToken) -> Result<bool, AllocError>
    requires going { IsGoing Going.Within s.old }
    requires comes { IsNext s.old.table.table.categories s.old.input first }
    ensures { IfOk result (λ went. GoesOn T.effects went Going.Within s.old s.new) }
{
    let code = first.code();
    let category = first.category(s.table.categories());
    let taken = s.expander.take_character(code, category)?;
    if !taken {
        return Ok(false);
    }
    s.input.pass_first(first.state_behind());
    Ok(true)
}

/// Takes a turn of what comes next, if it is a character with which this goes on, and answers whether that is so; else nothing
/// changes. Its only error is want of memory.
fn go_on<T: Stomach>(alloc: Global, s: &mut State, going: Going) -> Result<bool, AllocError>
    requires { IsGoing going s.old }
    ensures { IfOk result (λ went. GoesOn T.effects went going s.old s.new) }
{
    let Some(first) = s.input.first_plain(s.table.categories()) else {
        return Ok(false);
    };
    match going {
        Going::Letters(font) => T::set_next(alloc, s, font, first),
        Going::Text => text_goes_on::<T>(s, first),
        Going::Within => taking_goes_on::<T>(s, first),
    }
}

/// Takes turns of characters, at most so many, counts them, and answers how many there were. Its only error is want of memory.
fn run_plain<T: Stomach>(
    alloc: Global,
    s: &mut State,
    going: Going,
    most: u64,
    steps: &mut Steps,
) -> Result<u64, AllocError>
    requires { IsGoing going s.old }
    ensures most { IfOk result (λ count. count ≤ most) }
    ensures run { IfOk result (λ count. HasRun T.effects count s.old s.new steps.old steps.new) }
    ensures bound { OnErr result (HasPassed (tex_with T.effects) most (meaning_of s.old) steps.old steps.new) }
{
    for count in 0..most {
        let went = go_on::<T>(alloc, s, going)?;
        if !went {
            return Ok(count);
        }
        steps.tick();
    }
    Ok(most)
}

/// What characters become that turns may be taken of at one go, if anything.
#[inline(always)]
fn going_of(s: &State) -> Option<Going>
    requires { IsReading s.now }
    ensures { IfSome result (λ going. IsGoing going s.now) }
{
    if !s.expander.is_idle() {
        if s.expander.takes_characters() {
            return Some(Going::Within);
        }
        return None;
    }
    if s.text.is_some() {
        return Some(Going::Text);
    }
    if awaits_token(&s.scan) {
        return Some(Going::Letters(s.table.font()));
    }
    None
}

/// Whether what is read next joins the open command, which is begun.
#[inline(always)]
fn is_commanding(scan: &CommandScan, text: &Option<OpenText>, expander: &Expander) -> bool
    ensures { IsTrue result → ((text.now ≡ None) × (expander.now.begun ≡ [])) }
{
    if !scan.is_begun() || text.is_some() {
        return false;
    }
    expander.is_idle()
}

/// The character that comes next, if the open command is begun: it joins that.
fn next_of_command(scan: &CommandScan, input: &Pending, table: &Eqtb) -> Option<PlainToken>
    ensures { IfSome result (λ first. (is_begun scan.now.taken ≡ true) × IsNext table.now.table.categories input.now first) }
{
    if !scan.is_begun() {
        return None;
    }
    input.first_plain(table.categories())
}

/// Takes the turn of the character that comes next, which joins the open command. Answers what comes of it if the command is whole
/// then, or wrong, and nothing if it goes on. Its only error is want of memory.
#[inline(always)]
fn feed_next<T: Stomach>(
    alloc: Global,
    s: &mut State,
    first: PlainToken,
) -> Result<Option<Event>, AllocError>
    requires commanding { IsCommanding s.old }
    requires comes { IsNextOf s.old first }
    ensures { IfOk result (λ event. HasTurned T.effects event s.old s.new) }
{
    let code = first.code();
    let category = first.category(s.table.categories());
    s.input.pass_first(first.state_behind());
    let seen = Seen {
        token: Token::Character(code, category),
        meaning: Meaning::Character(code, category),
    };
    feed_on::<T>(alloc, s, seen)
}

/// Takes turns of characters that join the open command, at most so many, up to one behind which it is whole or wrong, and counts
/// them. Its only error is want of memory.
#[inline(never)]
fn run_command<T: Stomach>(
    alloc: Global,
    s: &mut State,
    most: u64,
    steps: &mut Steps,
) -> Result<Passed, AllocError>
    requires { IsCommanding s.old }
    ensures most { IfOk result (λ passed. turns_of passed ≤ most) }
    ensures turns { IfOk result (λ passed. HasRunOn (tex_with T.effects) passed (meaning_of s.old) (meaning_of s.new) s.old.said s.new.said) }
    ensures steps { IfOk result (λ passed. steps.new ≡ raised steps.old (turns_of passed)) }
    ensures bound { OnErr result (HasPassed (tex_with T.effects) most (meaning_of s.old) steps.old steps.new) }
{
    for count in 0..most {
        let Some(first) = next_of_command(&s.scan, &s.input, &s.table) else {
            return Ok(Passed {
                turns: count,
                last: None,
            });
        };
        let event = feed_next::<T>(alloc, s, first)?;
        steps.tick();
        if event.is_some() {
            return Ok(Passed {
                turns: count,
                last: event,
            });
        }
    }
    Ok(Passed {
        turns: most,
        last: None,
    })
}

/// Takes turns of characters of a line or a list, at most so many, and counts them; none where something else comes first, or work
/// is due. Its only error is want of memory.
#[inline(always)]
fn run_characters<T: Stomach>(
    alloc: Global,
    s: &mut State,
    most: u64,
    steps: &mut Steps,
) -> Result<Passed, AllocError>
    requires { s.old.phase ≡ Phase.Running }
    ensures most { IfOk result (λ passed. turns_of passed ≤ most) }
    ensures turns { IfOk result (λ passed. HasRunOn (tex_with T.effects) passed (meaning_of s.old) (meaning_of s.new) s.old.said s.new.said) }
    ensures steps { IfOk result (λ passed. steps.new ≡ raised steps.old (turns_of passed)) }
    ensures bound { OnErr result (HasPassed (tex_with T.effects) most (meaning_of s.old) steps.old steps.new) }
{
    // (asked first, so that a name goes none of the ways below)
    if s.input.first_plain(s.table.categories()).is_none() || !s.due.is_empty() {
        return Ok(Passed {
            turns: 0,
            last: None,
        });
    }
    if is_commanding(&s.scan, &s.text, &s.expander) {
        return run_command::<T>(alloc, s, most, steps);
    }
    match going_of(s) {
        Some(going) => {
            let turns = run_plain::<T>(alloc, s, going, most, steps)?;
            Ok(Passed { turns, last: None })
        }
        None => Ok(Passed {
            turns: 0,
            last: None,
        }),
    }
}

/// Takes the turn of the token that is read next, whatever it is, counts it, and answers what came of it; takes none where work is
/// due. Its only error is want of memory.
#[inline(always)]
fn take_token<T: Stomach>(
    alloc: Global,
    s: &mut State,
    steps: &mut Steps,
) -> Result<Option<Event>, AllocError>
    requires { s.old.phase ≡ Phase.Running }
    ensures last { IfOk result (λ last. IsLast (tex_with T.effects) last (meaning_of s.old) (meaning_of s.new) s.old.said s.new.said) }
    ensures steps { IfOk result (λ last. steps.new ≡ raised steps.old (last_turns last)) }
    ensures bound { OnErr result (steps.new ≡ steps.old) }
{
    if !s.due.is_empty() {
        return Ok(None);
    }
    let event = read::<T>(alloc, s)?;
    steps.tick();
    Ok(Some(event))
}

/// Takes turns of characters, and one more behind them, at most so many together, and counts them: the last is that of any token,
/// and isn't taken where work is due. Its only error is want of memory.
#[inline(always)]
fn run_next<T: Stomach>(
    alloc: Global,
    s: &mut State,
    most: u64,
    steps: &mut Steps,
) -> Result<Passed, AllocError>
    requires running { s.old.phase ≡ Phase.Running }
    requires some { 0 < most }
    ensures most { IfOk result (λ passed. turns_of passed ≤ most) }
    ensures fewer { IfOk result (λ passed. passed.turns < most) }
    ensures turns { IfOk result (λ passed. HasRunOn (tex_with T.effects) passed (meaning_of s.old) (meaning_of s.new) s.old.said s.new.said) }
    ensures steps { IfOk result (λ passed. steps.new ≡ raised steps.old (turns_of passed)) }
    ensures bound { OnErr result (HasPassed (tex_with T.effects) most (meaning_of s.old) steps.old steps.new) }
{
    let Passed { turns, last } = run_characters::<T>(alloc, s, most - 1, steps)?;
    match last {
        Some(event) => Ok(Passed {
            turns,
            last: Some(event),
        }),
        None => {
            let behind = take_token::<T>(alloc, s, steps)?;
            Ok(Passed {
                turns,
                last: behind,
            })
        }
    }
}

/// Whether the turn behind others was nothing that the outside has to know either: it went, and the transcript is as long as it was
/// before them.
#[inline(always)]
fn is_plain(said: &Bytes, last: &Option<Event>, told: usize) -> bool
    ensures { IsTrue result → ((last.now ≡ Some Event.Went) × (length said.now ≡ told)) }
{
    if said.len() != told {
        return false;
    }
    matches!(last, Some(Event::Went))
}

/// Takes turns at one go, at most so many, and counts them: up to one of which the outside has to know, or to work that is due. Its
/// only error is want of memory.
pub fn run_on<T: Stomach>(
    alloc: Global,
    s: &mut State,
    most: u64,
    steps: &mut Steps,
) -> Result<Passed, AllocError>
    requires { mode_of (meaning_of s.old) ≡ Ready }
    ensures most { IfOk result (λ passed. turns_of passed ≤ most) }
    ensures turns { IfOk result (λ passed. HasRunOn (tex_with T.effects) passed (meaning_of s.old) (meaning_of s.new) s.old.said s.new.said) }
    ensures steps { IfOk result (λ passed. steps.new ≡ raised steps.old (turns_of passed)) }
    ensures bound { OnErr result (HasPassed (tex_with T.effects) most (meaning_of s.old) steps.old steps.new) }
{
    let mut all = 0;
    while all < most {
        let told = s.said.len();
        let Passed { turns, last } = run_next::<T>(alloc, s, most - all, steps)?;
        all += turns;
        let plain = is_plain(&s.said, &last, told);
        if !plain {
            return Ok(Passed { turns: all, last });
        }
        all += 1;
    }
    Ok(Passed {
        turns: all,
        last: None,
    })
}
