//! Accents over characters of a list (TeX: The Program, sections 1122 to 1125).
ghost use Rattle.std.specs.Prelude.{◌≡◌, ◌++◌, [], None, IfOk, OnOk};
ghost use Rattle.tx_box.specs.Sources.{appended};
ghost use Rattle.tx_command.specs.declared.types.Head.{Head};
ghost use Rattle.tx_hyphenate.specs.Lacking.{missing};
ghost use Rattle.tx_lettering.specs.Accents as spec;
ghost use Rattle.tx_lettering.specs.Words.{factored};
ghost use Rattle.tx_nest.specs.Factors.{plain_factor};
ghost use Rattle.tx_state.specs.declared.parts.Phase.{Phase};
ghost use Rattle.tx_state.specs.Ended as ended;
ghost use Rattle.tx_state.specs.Meanings.{IsStepped, state_of};
ghost use Rattle.tx_tfm.specs.Fonts.{font_name, has_character};
ghost use Rattle.tx_word.specs.Accents.{accent_of as accent_at, accented_at, is_boxed_at};

use crate::words::current_font;
use std::alloc::{AllocError, Global};
use tx_box::Lists;
use tx_bytes::Bytes;
use tx_command::CommandScan;
use tx_eqtb::Eqtb;
use tx_event::Event;
use tx_hyphenate::report_missing;
use tx_nest::{SpaceFactor, append_items, set_space_factor};
use tx_node::{Node, Nodes, Plain};
use tx_seen::TexError;
use tx_state::{State, fail, next_head};
use tx_word::{Accent, Words, accent_of, accented, is_boxed};

/// Whether the font of a number has a character.
fn has(words: &Words, font: u8, code: u8) -> bool
    ensures { result ≡ has_character words.now.fonts font code }
{
    words.fonts().has_character(font, code)
}

/// Reports a character that the font of a number lacks. Its only error is want of memory.
fn tell(said: &mut Bytes, words: &Words, font: u8, code: u8) -> Result<(), AllocError>
    ensures { OnOk result (said.new ≡ said.old ++ missing code (font_name words.now.fonts font)) }
{
    report_missing(said, code, words.fonts().name(font))
}

/// A character of the font of a number as an accent.
fn accent_in(words: &Words, font: u8, code: u8) -> Accent
    ensures { result ≡ accent_at words.now.fonts font code }
{
    accent_of(words.fonts(), font, code)
}

/// Whether the accent is put into a box where a character of the font of a number stands below it.
fn boxes(words: &Words, accent: &Accent, font: u8, code: u8) -> bool
    ensures { result ≡ is_boxed_at words.now.fonts accent.now font code }
{
    is_boxed(words.fonts(), accent, font, code)
}

/// The accent and that character as a list; None where a size would be no dimension. Its only error is want of memory.
fn listed(
    alloc: Global,
    words: &Words,
    accent: &Accent,
    font: u8,
    code: u8,
) -> Result<Option<Nodes>, AllocError>
    ensures { IfOk result (λ made. made ≡ accented_at words.now.fonts accent.now font code) }
{
    accented(alloc, words.fonts(), accent, font, code)
}

/// The accent by itself as a list. Its only error is want of memory.
fn alone(alloc: Global, accent: &Accent) -> Result<Nodes, AllocError>
    ensures { IfOk result (λ list. list ≡ spec.accent_list accent.now) }
{
    let mut list = Nodes::new(alloc);
    list.push(Node::Plain(Plain::Character(accent.character)))?;
    Ok(list)
}

/// From now on this accent waits for the character below it, or none does; the next command stands behind it.
fn set_accent(words: &mut Words, scan: &mut CommandScan, accent: Option<Accent>)
    ensures words { words.new ≡ record words.old { accent = accent } }
    ensures scan { scan.new ≡ record { mode = scan.old.mode; head = ended.next_head accent; taken = [] } }
{
    words.set_accent(accent);
    scan.begin_behind(next_head(words));
}

/// \accent and a character. Err is want of memory.
pub fn begin_accent(
    said: &mut Bytes,
    table: &Eqtb,
    words: &mut Words,
    scan: &mut CommandScan,
    code: u8,
) -> Result<Event, AllocError>
    ensures { (s : State) → s.phase ≡ Phase.Running → IfOk result (λ event. IsStepped (spec.beginning_accent (state_of (record s { said = said.old; table = table.now; words = words.old; scan = scan.old })) code) (record s { said = said.old; table = table.now; words = words.old; scan = scan.old }) event (record s { said = said.new; table = table.now; words = words.new; scan = scan.new })) }
{
    let font = current_font(table);
    if has(words, font, code) {
        let accent = accent_in(words, font, code);
        set_accent(words, scan, Some(accent));
        return Ok(Event::Went);
    }
    tell(said, words, font, code)?;
    Ok(Event::Went)
}

/// Items at the end of the list that is being built. Its only error is want of memory.
fn append(lists: &mut Lists, items: Nodes) -> Result<(), AllocError>
    ensures { OnOk result (lists.new ≡ appended lists.old items) }
{
    append_items(lists.nest.top(), items)
}

/// The space factor of that list is 1000.
fn reset_factor(lists: &mut Lists)
    ensures { lists.new ≡ factored lists.old plain_factor }
{
    set_space_factor(lists.nest.top(), SpaceFactor::plain());
}

/// Items at the end of that list, behind which the space factor is 1000. Its only error is want of memory.
fn put_last(lists: &mut Lists, items: Nodes) -> Result<(), AllocError>
    ensures { OnOk result (lists.new ≡ spec.put_last lists.old items) }
{
    append(lists, items)?;
    reset_factor(lists);
    Ok(())
}

/// The same, and no accent waits any more. Its only error is want of memory.
fn put(
    words: &mut Words,
    scan: &mut CommandScan,
    lists: &mut Lists,
    items: Nodes,
) -> Result<(), AllocError>
    ensures words { words.new ≡ record words.old { accent = None } }
    ensures scan { scan.new ≡ record { mode = scan.old.mode; head = Head.Fresh; taken = [] } }
    ensures lists { OnOk result (lists.new ≡ spec.put_last lists.old items) }
{
    set_accent(words, scan, None);
    put_last(lists, items)
}

/// The accent stands in the list by itself. Its only error is want of memory.
fn put_alone(
    alloc: Global,
    words: &mut Words,
    scan: &mut CommandScan,
    lists: &mut Lists,
    accent: &Accent,
) -> Result<(), AllocError>
    ensures words { OnOk result (words.new ≡ record words.old { accent = None }) }
    ensures scan { OnOk result (scan.new ≡ record { mode = scan.old.mode; head = Head.Fresh; taken = [] }) }
    ensures lists { OnOk result (lists.new ≡ spec.put_last lists.old (spec.accent_list accent.now)) }
{
    let list = alone(alloc, accent)?;
    put(words, scan, lists, list)
}

/// \badness behind an accent that was put into a box or wasn't.
fn badness_behind(boxed: bool, badness: i64) -> i64
    ensures { result ≡ spec.badness_behind boxed badness }
{
    if boxed { 0 } else { badness }
}

/// The accent and the character below it stand in the list. Its only error is want of memory.
fn put_packed(
    words: &mut Words,
    scan: &mut CommandScan,
    lists: &mut Lists,
    boxed: bool,
    items: Nodes,
) -> Result<(), AllocError>
    ensures words { words.new ≡ record words.old { accent = None } }
    ensures scan { scan.new ≡ record { mode = scan.old.mode; head = Head.Fresh; taken = [] } }
    ensures lists { OnOk result (lists.new ≡ spec.put_last (spec.with_badness lists.old boxed) items) }
{
    lists.badness = badness_behind(boxed, lists.badness);
    put(words, scan, lists, items)
}

/// The accent stands over a character of this font, which has it, where the answer is true; where it is false, a size isn't one that
/// is stored. Its only error is want of memory.
fn put_over(
    alloc: Global,
    words: &mut Words,
    scan: &mut CommandScan,
    lists: &mut Lists,
    accent: &Accent,
    font: u8,
    code: u8,
) -> Result<bool, AllocError>
    ensures { (s : State) → s.phase ≡ Phase.Running → IfOk result (λ fits. spec.FitsIf fits (spec.accent_set (state_of (record s { words = words.old; scan = scan.old; lists = lists.old })) (is_boxed_at words.old.fonts accent.now font code) (accented_at words.old.fonts accent.now font code)) (record s { words = words.old; scan = scan.old; lists = lists.old }) (record s { words = words.new; scan = scan.new; lists = lists.new })) }
{
    let made = listed(alloc, words, accent, font, code)?;
    match made {
        Some(items) => {
            let boxed = boxes(words, accent, font, code);
            put_packed(words, scan, lists, boxed, items)?;
            Ok(true)
        }
        None => Ok(false),
    }
}

/// A character that the font of a number lacks is told of, and the accent stands by itself. Its only error is want of memory.
fn tell_alone(
    alloc: Global,
    said: &mut Bytes,
    words: &mut Words,
    scan: &mut CommandScan,
    lists: &mut Lists,
    accent: &Accent,
    font: u8,
    code: u8,
) -> Result<(), AllocError>
    ensures said { OnOk result (said.new ≡ said.old ++ missing code (font_name words.old.fonts font)) }
    ensures words { OnOk result (words.new ≡ record words.old { accent = None }) }
    ensures scan { OnOk result (scan.new ≡ record { mode = scan.old.mode; head = Head.Fresh; taken = [] }) }
    ensures lists { OnOk result (lists.new ≡ spec.put_last lists.old (spec.accent_list accent.now)) }
{
    tell(said, words, font, code)?;
    put_alone(alloc, words, scan, lists, accent)
}

/// The accent stands over a character of the font of a number, or by itself where that lacks it; as `put_over`. Its only error is
/// want of memory.
fn put_by(
    alloc: Global,
    said: &mut Bytes,
    words: &mut Words,
    scan: &mut CommandScan,
    lists: &mut Lists,
    accent: &Accent,
    font: u8,
    code: u8,
) -> Result<bool, AllocError>
    ensures { (s : State) → s.phase ≡ Phase.Running → IfOk result (λ fits. spec.FitsIf fits (spec.accent_over (state_of (record s { said = said.old; words = words.old; scan = scan.old; lists = lists.old })) accent.now font code) (record s { said = said.old; words = words.old; scan = scan.old; lists = lists.old }) (record s { said = said.new; words = words.new; scan = scan.new; lists = lists.new })) }
{
    if has(words, font, code) {
        return put_over(alloc, words, scan, lists, accent, font, code);
    }
    tell_alone(alloc, said, words, scan, lists, accent, font, code)?;
    Ok(true)
}

/// The same of the accent that waits. Its only error is want of memory.
fn put_below(
    alloc: Global,
    said: &mut Bytes,
    words: &mut Words,
    scan: &mut CommandScan,
    lists: &mut Lists,
    font: u8,
    code: u8,
) -> Result<bool, AllocError>
    ensures { (s : State) → s.phase ≡ Phase.Running → IfOk result (λ fits. spec.FitsIf fits (spec.accenting_in (state_of (record s { said = said.old; words = words.old; scan = scan.old; lists = lists.old })) font code words.old.accent) (record s { said = said.old; words = words.old; scan = scan.old; lists = lists.old }) (record s { said = said.new; words = words.new; scan = scan.new; lists = lists.new })) }
{
    match words.accent() {
        Some(accent) => put_by(alloc, said, words, scan, lists, &accent, font, code),
        None => {
            set_accent(words, scan, None);
            Ok(true)
        }
    }
}

/// A character behind an accent. Err is want of memory; the event may end the run by an error, as `accenting` says.
pub fn set_below(alloc: Global, s: &mut State, code: u8) -> Result<Event, AllocError>
    requires { s.old.phase ≡ Phase.Running }
    ensures { IfOk result (λ event. IsStepped (spec.accenting (state_of s.old) code) s.old event s.new) }
{
    let font = current_font(&s.table);
    let fits = put_below(
        alloc,
        &mut s.said,
        &mut s.words,
        &mut s.scan,
        &mut s.lists,
        font,
        code,
    )?;
    if fits {
        Ok(Event::Went)
    } else {
        Ok(fail(s, TexError::SizeOutOfRange))
    }
}

/// What stands behind an accent and is no character: the accent stands by itself. Its only error is want of memory.
pub fn end_accent(
    alloc: Global,
    words: &mut Words,
    scan: &mut CommandScan,
    lists: &mut Lists,
) -> Result<Event, AllocError>
    ensures { (s : State) → s.phase ≡ Phase.Running → IfOk result (λ event. IsStepped (spec.ending_accent (state_of (record s { words = words.old; scan = scan.old; lists = lists.old }))) (record s { words = words.old; scan = scan.old; lists = lists.old }) event (record s { words = words.new; scan = scan.new; lists = lists.new })) }
{
    match words.accent() {
        Some(accent) => {
            put_alone(alloc, words, scan, lists, &accent)?;
            Ok(Event::Went)
        }
        None => {
            set_accent(words, scan, None);
            Ok(Event::Went)
        }
    }
}
