//! One turn: due work, the ask for a line, or one token and its expansion (TeX: The Program, sections 1030, 343, 360 and 366).
ghost use Rattle.tx_seen.specs.Magnified.{noted};
ghost use Rattle.std.specs.Prelude.{◌≡◌, ◌≢◌, ◌||◌, suc, [], true, Some, is_some, IfOk, OnOk};
ghost use Rattle.tx_command.specs.Commands.{is_preamble};
ghost use Rattle.tx_event.specs.Turns.{Ready};
ghost use Rattle.tx_expand.specs.Expanding.{reader_of};
ghost use Rattle.tx_expand.specs.Turns.{opened};
ghost use Rattle.tx_lex.specs.Line.{seen_line};
ghost use Rattle.tx_turn.specs.Pages.{line_end as end_of_lines};
ghost use Rattle.tx_pending.specs.Elements.{with_line};
ghost use Rattle.tx_state.specs.State.{Runs, mode_of};
ghost use Rattle.tx_state.specs.Texts.{IsTextAnswered};
ghost use Rattle.tx_turn.specs.Going.{IsFed};
ghost use Rattle.tx_turn.specs.Turns as turns;
ghost use Rattle.tx_turn.specs.Turns.{before_token};
ghost use Rattle.tx_state.specs.Meanings.{IsStepped, meaning_of, state_of};

use crate::page::line_end;
use crate::stomach::Stomach;
use std::alloc::{AllocError, Global};
use tx_bytes::Bytes;
use tx_command::{CommandScan, Taken};
use tx_eqtb::Eqtb;
use tx_event::{Ask, AskKind, Event, Reply};
use tx_expand::{Expanded, Expander, Known, Wanted, part_end};
use tx_lex::line_text;
use tx_list::Stack;
use tx_pending::{ColumnPart, Pending};
use tx_reading::{Reader, at_once};
use tx_seen::{Fed, Seen, TexError, Want};
use tx_state::{Due, FontRequest, OpenText, Phase, State, ask, fail, text_wanted};
use tx_toklist::Toks;

/// The magnification is used from now on, where it was taken.
#[inline(always)]
fn note(used: &mut Option<i32>, taken: Option<u16>)
    ensures { used.new ≡ noted used.old taken }
{
    if let Some(magnification) = taken {
        *used = Some(i32::from(magnification));
    }
}

/// A token joins the open command, which is read by its grammar. Answers what comes of it if the command is whole then, or wrong,
/// and nothing if it goes on. Its only error is want of memory.
#[inline(always)]
pub(crate) fn feed_on<T: Stomach>(
    alloc: Global,
    s: &mut State,
    seen: Seen,
) -> Result<Option<Event>, AllocError>
    requires { s.old.phase ≡ Phase.Running }
    ensures { IfOk result (λ event. IsFed T.effects seen event s.old s.new) }
{
    let known = Known::new(
        &s.table,
        &s.lists.nest,
        &s.lists.pages,
        s.lists.badness,
        s.magnification,
        s.words.fonts(),
        s.words.is_open(),
    );
    match s
        .scan
        .feed::<Reader, _>(&known, &mut s.input, seen, &mut s.made)?
    {
        // most tokens
        Taken::More => {
            note(&mut s.magnification, s.scan.magnification());
            Ok(None)
        }
        Taken::Wrong(error) => Ok(Some(fail(s, error))),
        Taken::Whole => {
            let event = T::carry_made_out(alloc, s)?;
            Ok(Some(event))
        }
    }
}

/// Takes the turn of a token that joins the open command.
#[inline(never)]
fn feed_command<T: Stomach>(alloc: Global, s: &mut State, seen: Seen) -> Result<Event, AllocError>
    requires { s.old.phase ≡ Phase.Running }
    ensures { IfOk result (λ event. IsStepped (turns.taking T.effects (state_of s.old) seen) s.old event s.new) }
{
    let ended = feed_on::<T>(alloc, s, seen)?;
    match ended {
        Some(event) => Ok(event),
        None => Ok(Event::Went),
    }
}

/// A token joins the open command, or is one by itself, behind the word that it may end.
#[inline(always)]
fn take_command<T: Stomach>(alloc: Global, s: &mut State, seen: Seen) -> Result<Event, AllocError>
    requires { s.old.phase ≡ Phase.Running }
    ensures { IfOk result (λ event. IsStepped (turns.taking T.effects (before_token T.effects (state_of s.old) seen) seen) s.old event s.new) }
{
    T::settle_word(alloc, s, &seen)?;
    match at_once(&s.scan, &seen) {
        Some(found) => T::take_at_once(alloc, s, found),
        None => feed_command::<T>(alloc, s, seen),
    }
}

/// What a text answers to a token that joins it, if one is open. Its only error is want of memory.
fn feed_text(alloc: Global, text: &mut Option<OpenText>, seen: Seen) -> Result<Fed<()>, AllocError>
    ensures { IfOk result (λ fed. IsTextAnswered text.old seen fed text.new) }
{
    match text {
        Some(text) => text.feed(alloc, seen),
        None => Ok(Fed::More(Want::Raw)),
    }
}

/// A token joins the open text.
#[inline(never)]
fn take_text<T: Stomach>(alloc: Global, s: &mut State, seen: Seen) -> Result<Event, AllocError>
    requires running { s.old.phase ≡ Phase.Running }
    requires text { is_some s.old.text ≡ true }
    ensures { IfOk result (λ event. IsStepped (turns.taken_by T.effects (state_of s.old) seen s.old.text) s.old event s.new) }
{
    match feed_text(alloc, &mut s.text, seen)? {
        Fed::More(_) => Ok(Event::Went),
        Fed::Need(_) => unreachable!(),
        Fed::Done(_, _) => T::end_text(alloc, s),
        Fed::Wrong(error) => Ok(fail(s, error)),
    }
}

/// A token joins the open text, or else the open command, where a word may end before it.
#[inline(always)]
fn take<T: Stomach>(alloc: Global, s: &mut State, seen: Seen) -> Result<Event, AllocError>
    requires { s.old.phase ≡ Phase.Running }
    ensures { IfOk result (λ event. IsStepped (turns.taken_by T.effects (state_of s.old) seen s.old.text) s.old event s.new) }
{
    if s.text.is_some() {
        take_text::<T>(alloc, s, seen)
    } else {
        take_command::<T>(alloc, s, seen)
    }
}

/// Tokens that \the gives belong to the open text. Its only error is want of memory.
#[inline(never)]
fn put_text(text: &mut Option<OpenText>, tokens: Toks) -> Result<Event, AllocError>
    ensures { (s : State) → s.phase ≡ Phase.Running → IfOk result (λ event. IsStepped (turns.given_to_text (state_of (record s { text = text.old })) tokens text.old) (record s { text = text.old }) event (record s { text = text.new })) }
{
    let mut tokens = tokens;
    if let Some(text) = text {
        text.put(&mut tokens)?;
    }
    Ok(Event::Went)
}

/// What is taken next.
#[inline(always)]
fn wanted(text: &Option<OpenText>, scan: &CommandScan) -> Wanted
    ensures { (s : State) → result ≡ turns.wanted_by (state_of (record s { scan = scan.now })) text.now }
{
    match text {
        Some(text) => text_wanted(text),
        None => Wanted {
            want: scan.want(),
            text: scan.is_preamble(),
            takes_the: false,
            names: scan.is_naming(),
            peeks: scan.is_peeking(),
        },
    }
}

/// Whether a text is open, or a preamble, which is one too.
fn takes_text(text: &Option<OpenText>, scan: &CommandScan) -> bool
    ensures { result ≡ (is_some text.now || is_preamble scan.now.head) }
{
    text.is_some() || scan.is_preamble()
}

/// The innermost file has ended: the ask for it to be closed, if it may end here.
#[inline(never)]
fn close(s: &mut State) -> Event
    requires { s.old.phase ≡ Phase.Running }
    ensures { IsStepped (turns.closes (state_of s.old)) s.old result s.new }
{
    match s.expander.ended(takes_text(&s.text, &s.scan)) {
        Some(error) => fail(s, error),
        None => ask(s, AskKind::Close, Ask::Close),
    }
}

/// The v-part of an entry is read to its end: a command that is open goes on up to it, or else the entry ends, and the word that is
/// open before it. Its only error is want of memory.
#[inline(never)]
fn end_part<T: Stomach>(alloc: Global, s: &mut State) -> Result<Event, AllocError>
    requires { s.old.phase ≡ Phase.Running }
    ensures { IfOk result (λ event. IsStepped (turns.answered T.effects (state_of s.old) Expanded.PartEnded) s.old event s.new) }
{
    if s.scan.is_begun() || !s.scan.is_fresh() {
        s.input.push_part_end(ColumnPart::V)?;
        return take_command::<T>(alloc, s, part_end());
    }
    T::end_part(alloc, s)
}

/// Does what an answer of the expander asks for that neither is a token nor only goes on. Its only error is want of memory.
#[inline(never)]
fn heed_other<T: Stomach>(
    alloc: Global,
    s: &mut State,
    answer: Expanded,
) -> Result<Event, AllocError>
    requires running { s.old.phase ≡ Phase.Running }
    requires no_token { (t : Seen) → answer ≡ Expanded.Got t → ⊥ }
    requires asks { answer ≡ Expanded.Went → ⊥ }
    ensures { IfOk result (λ event. IsStepped (turns.answered T.effects (state_of s.old) answer) s.old event s.new) }
{
    match answer {
        Expanded::Got(_) => unreachable!(),
        Expanded::Went => unreachable!(),
        Expanded::Text(tokens) => put_text(&mut s.text, tokens),
        Expanded::Marked => Ok(fail(s, TexError::UnbalancedOutput)),
        Expanded::EndsEntry(word) => T::end_entry(alloc, s, word),
        Expanded::PartEnded => end_part::<T>(alloc, s),
        Expanded::Relaxes(name) => T::relax_name(s, name),
        Expanded::LineUsed => Ok(ask(s, AskKind::Line, Ask::Line)),
        Expanded::FileUsed => Ok(close(s)),
        Expanded::Asks(name) => Ok(ask(s, AskKind::Open, Ask::Open(name))),
        Expanded::Wrong(error) => Ok(fail(s, error)),
    }
}

/// Does what the expander's answer asks for. Its only error is want of memory.
#[inline(always)]
fn heed<T: Stomach>(alloc: Global, s: &mut State, answer: Expanded) -> Result<Event, AllocError>
    requires { s.old.phase ≡ Phase.Running }
    ensures { IfOk result (λ event. IsStepped (turns.answered T.effects (state_of s.old) answer) s.old event s.new) }
{
    match answer {
        // most turns
        Expanded::Got(seen) => take::<T>(alloc, s, seen),
        Expanded::Went => Ok(Event::Went),
        answer => heed_other::<T>(alloc, s, answer),
    }
}

/// Takes one turn of the expander, and what it answers. Its only error is want of memory.
#[inline(always)]
pub(crate) fn read<T: Stomach>(alloc: Global, s: &mut State) -> Result<Event, AllocError>
    requires { s.old.phase ≡ Phase.Running }
    ensures { IfOk result (λ event. IsStepped (turns.reads T.effects (state_of s.old)) s.old event s.new) }
{
    let wanted = wanted(&s.text, &s.scan);
    let mode = s.scan.mode();
    let known = Known::new(
        &s.table,
        &s.lists.nest,
        &s.lists.pages,
        s.lists.badness,
        s.magnification,
        s.words.fonts(),
        s.words.is_open(),
    );
    let answer = s.expander.turn(alloc, &mut s.input, &known, mode, wanted)?;
    note(&mut s.magnification, s.expander.magnification());
    heed::<T>(alloc, s, answer)
}

/// What a piece of work costs.
fn piece_cost(piece: &Due) -> u64
    ensures { result ≡ turns.piece_cost piece.now }
{
    match piece {
        Due::OpenMain(_) | Due::FileAbsent | Due::FileEnded | Due::MainClosed => 1,
        Due::LoadFont(_) => 1,
        Due::Boxes(work) => work.cost(),
    }
}

/// What the next piece of work costs.
pub fn due_cost(due: &Stack<Due>) -> u64
    ensures { result ≡ turns.due_cost due.now }
{
    match due.first() {
        Some(piece) => piece_cost(piece),
        None => 1,
    }
}

/// Does a piece of work.
#[inline(never)]
fn work<T: Stomach>(alloc: Global, s: &mut State, due: Due) -> Result<Event, AllocError>
    requires { s.old.phase ≡ Phase.Running }
    ensures { IfOk result (λ event. IsStepped (turns.works T.effects (state_of s.old) due) s.old event s.new) }
{
    match due {
        Due::OpenMain(name) => Ok(ask(s, AskKind::Open, Ask::Open(name))),
        Due::FileAbsent => Ok(fail(s, TexError::FileAbsent)),
        Due::FileEnded => Ok(close(s)),
        Due::MainClosed => Ok(fail(s, TexError::NoEnd)),
        Due::LoadFont(request) => T::load_font(alloc, s, request),
        Due::Boxes(work) => T::work_boxes(alloc, s, work),
    }
}

/// Does the work that comes first. It is large, and stays out of the turns that have none.
#[inline(never)]
fn take_due<T: Stomach>(alloc: Global, s: &mut State) -> Result<Event, AllocError>
    requires running { s.old.phase ≡ Phase.Running }
    requires due { s.old.due ≢ [] }
    ensures { IfOk result (λ event. IsStepped (turns.goes_on T.effects (state_of s.old) s.old.due) s.old event s.new) }
{
    match s.due.pop() {
        Some(due) => work::<T>(alloc, s, due),
        None => unreachable!(),
    }
}

/// Takes one turn. Few are left to it, those of work that is due, since tokens are read many turns at one go. Its only error is
/// want of memory.
#[inline(never)]
pub fn take_turn<T: Stomach>(alloc: Global, s: &mut State) -> Result<Event, AllocError>
    requires { mode_of (meaning_of s.old) ≡ Ready }
    ensures { IfOk result (λ event. IsStepped (turns.outcome T.effects (meaning_of s.old)) s.old event s.new) }
{
    match s.phase {
        Phase::Running => {
            if s.due.is_empty() {
                return read::<T>(alloc, s);
            }
            take_due::<T>(alloc, s)
        }
        _ => unreachable!(),
    }
}

/// A new line stands in front. Its only error is want of memory.
fn put_line(
    alloc: Global,
    table: &Eqtb,
    input: &mut Pending,
    expander: &mut Expander,
    raw: &[u8],
) -> Result<(), AllocError>
    ensures { OnOk result (reader_of expander.new input.new ≡ opened (reader_of expander.old (with_line input.old (seen_line raw.now (end_of_lines table.now.table))))) }
{
    let line = line_text(alloc, raw, line_end(table))?;
    input.push_line(alloc, line)?;
    expander.line_came(input)
}

/// One more file is open. Its only error is that no more can be counted.
fn open_file(files: &mut u64) -> Result<(), AllocError>
    ensures { OnOk result (files.new ≡ suc files.old) }
{
    match files.checked_add(1) {
        Some(more) => {
            *files = more;
            Ok(())
        }
        None => Err(AllocError),
    }
}

/// What was asked for, once its file is there.
fn with_file(request: FontRequest, bytes: Bytes) -> FontRequest
    ensures { result ≡ record request { file = Some bytes } }
{
    FontRequest {
        defined: request.defined,
        global: request.global,
        name: request.name,
        size: request.size,
        file: Some(bytes),
    }
}

/// A piece of work with the bytes of the file that it asked for. Its only error is want of memory.
fn with_bytes(piece: Due, bytes: &Bytes) -> Result<Due, AllocError>
    ensures { IfOk result (λ read. read ≡ turns.piece_with_file bytes.now piece) }
{
    match piece {
        Due::LoadFont(request) => Ok(Due::LoadFont(with_file(request, bytes.clone()?))),
        Due::OpenMain(name) => Ok(Due::OpenMain(name)),
        Due::FileAbsent => Ok(Due::FileAbsent),
        Due::FileEnded => Ok(Due::FileEnded),
        Due::MainClosed => Ok(Due::MainClosed),
        Due::Boxes(work) => Ok(Due::Boxes(work)),
    }
}

/// The bytes of the file that the font which is due asked for. Its only error is want of memory.
fn take_file(due: &mut Stack<Due>, bytes: &Bytes) -> Result<(), AllocError>
    ensures { OnOk result (due.new ≡ turns.with_file bytes.now due.old) }
{
    match due.pop() {
        Some(piece) => due.push(with_bytes(piece, bytes)?),
        None => Ok(()),
    }
}

/// What a reply brings, to a state that waits for one of this kind. Its only error is want of memory.
fn hear(alloc: Global, s: &mut State, kind: AskKind, reply: &Reply) -> Result<(), AllocError>
    requires { s.old.phase ≡ Phase.Running }
    ensures meaning { OnOk result (meaning_of s.new ≡ Runs (turns.replied (state_of s.old) kind reply.now)) }
    ensures said { OnOk result (s.new.said ≡ s.old.said) }
{
    match (kind, reply) {
        (AskKind::Open, Reply::Found) => open_file(&mut s.files),
        (AskKind::Open, Reply::Absent) => s.due.push(Due::FileAbsent),
        (AskKind::Line, Reply::Line(bytes)) => put_line(
            alloc,
            &s.table,
            &mut s.input,
            &mut s.expander,
            bytes.as_slice(),
        ),
        (AskKind::Line, Reply::Ended) => {
            // (a file that has no line at all has an empty one, if it isn't the main file: TeX: The Program, section 538)
            if s.expander.is_opening() {
                put_line(alloc, &s.table, &mut s.input, &mut s.expander, b"")
            } else {
                s.due.push(Due::FileEnded)
            }
        }
        (AskKind::Close, Reply::Closed) => {
            s.files = s.files.saturating_sub(1);
            if s.files == 0 {
                s.due.push(Due::MainClosed)
            } else {
                Ok(())
            }
        }
        (AskKind::Whole, Reply::Whole(bytes)) => take_file(&mut s.due, bytes),
        _ => Ok(()),
    }
}

/// Takes a reply. Its only error is want of memory.
pub fn answer(alloc: Global, s: &mut State, reply: &Reply) -> Result<(), AllocError>
    ensures meaning { OnOk result (meaning_of s.new ≡ turns.takes (meaning_of s.old) reply.now) }
    ensures said { OnOk result (s.new.said ≡ s.old.said) }
{
    let Phase::Waiting(kind) = s.phase else {
        return Ok(());
    };
    s.phase = Phase::Running;
    hear(alloc, s, kind, reply)
}
