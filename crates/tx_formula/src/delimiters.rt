//! Delimiters, radicals, accents, and fractions between delimiters (TeX: The Program, sections 1160 to 1165, 1181 to 1183, 1191 and
//! 1192).
ghost use Rattle.std.specs.Prelude.{◌≡◌, ◌≢◌, ◌≤◌, ◌/◌, [], Ok, Err, IfErr, IfOk, IfSome, OnOk};
ghost use Rattle.tx_command.specs.Commands.{delimiters_before};
ghost use Rattle.tx_eqtb.specs.Stack.{kind_of};
ghost use Rattle.tx_formula.specs.declared.error.FormulaError.TheVariants.{OutOfMemory};
ghost use Rattle.tx_formula.specs.Atoms.{dividing};
ghost use Rattle.tx_formula.specs.Delimiters as spec;
ghost use Rattle.tx_formula.specs.Errors.{error_of};
ghost use Rattle.tx_state.specs.declared.parts.Phase.{Phase};
ghost use Rattle.tx_state.specs.Meanings.{IsStepped, state_of};

use crate::atoms::{begin_of_kind, divide};
use crate::characters::{code_of, letter_now, set_letter};
use crate::error::{FormulaError, fail_by_formula};
use crate::groups::{go_on, open_formula};
use crate::lists::end_list;
use std::alloc::{AllocError, Global};
use tx_box::{Lists, append_noad};
use tx_command::{CommandScan, Delimiting, Head};
use tx_eqtb::GroupKind;
use tx_event::Event;
use tx_mlist::{AtomKind, FractionHead, delimiter_of, plain_head};
use tx_prim::{CharacterCode, CodedKind, DelimitedKind, DelimiterUse};
use tx_seen::{Place, TexError};
use tx_state::{State, fail};

/// \left or its kin: a delimiter is to follow.
pub fn await_delimiter(scan: &mut CommandScan, what: DelimiterUse) -> Event
    requires { scan.old.taken ≡ [] }
    ensures { (s : State) → s.phase ≡ Phase.Running → IsStepped (spec.awaiting (state_of (record s { scan = scan.old })) what) (record s { scan = scan.old }) result (record s { scan = scan.new }) }
{
    scan.begin_behind(Head::Delimiting(Delimiting::First(what)));
    Event::Went
}

/// A number of 27 bits, as delimiters have it.
fn wide_code(number: i32) -> Option<u32>
    ensures value { result ≡ spec.wide_code number }
    ensures most { IfSome result (λ n. n ≤ 134217727) }
{
    if 0 <= number && number <= 134_217_727 {
        Some(number as u32)
    } else {
        None
    }
}

/// A fraction beside its lists that stands between the delimiters of these numbers.
fn delimited_head(thickness: Option<i32>, left: u32, right: u32) -> FractionHead
    ensures { result ≡ spec.delimited_head thickness left right }
{
    FractionHead {
        thickness,
        left: delimiter_of(left),
        right: delimiter_of(right),
    }
}

/// The fraction whose delimiters are there, by their numbers, behind which nothing stands before the next command; None where the
/// size of its line is to follow.
fn fraction_between(
    scan: &mut CommandScan,
    kind: DelimitedKind,
    left: u32,
    right: u32,
) -> Option<FractionHead>
    requires { scan.old.taken ≡ [] }
    ensures { (s : State) → spec.divided_between (state_of (record s { scan = scan.old })) kind left right ≡ spec.divided_if (state_of (record s { scan = scan.new })) result }
{
    match kind {
        DelimitedKind::Over => {
            scan.begin_fresh();
            Some(delimited_head(None, left, right))
        }
        DelimitedKind::Atop => {
            scan.begin_fresh();
            Some(delimited_head(Some(0), left, right))
        }
        DelimitedKind::Above => {
            scan.begin_behind(Head::Thickness(left, right));
            None
        }
    }
}

/// The fraction whose line is so thick, in sp: that of \above, or of \abovewithdelims, whose delimiters stand before the size, and
/// behind which nothing stands before the next command.
fn fraction_lined(scan: &mut CommandScan, size: i32) -> FractionHead
    ensures { (s : State) → spec.lining (state_of (record s { scan = scan.old })) size (delimiters_before scan.old.head) ≡ dividing (state_of (record s { scan = scan.new })) result }
{
    match scan.delimiters() {
        Some((left, right)) => {
            scan.begin_fresh();
            delimited_head(Some(size), left, right)
        }
        None => plain_head(Some(size)),
    }
}

/// How thick the line of a fraction is to be, in sp: that of \above, or of \abovewithdelims behind its delimiters. Err is want of
/// memory; the event may end the run by an error, as `lining` says.
pub fn divide_sized(alloc: Global, s: &mut State, size: i32) -> Result<Event, AllocError>
    requires { s.old.phase ≡ Phase.Running }
    ensures { IfOk result (λ event. IsStepped (spec.lining (state_of s.old) size (delimiters_before s.old.scan.head)) s.old event s.new) }
{
    let head = fraction_lined(&mut s.scan, size);
    divide(alloc, s, head)
}

/// The list between \left and \right, which ends, joins the list around, with the delimiters of these numbers.
fn end_between(alloc: Global, lists: &mut Lists, left: u32, right: u32) -> Result<(), FormulaError>
    ensures made { OnOk result (spec.ended_between left right lists.old ≡ Ok lists.new) }
    ensures error { IfErr result (λ e. e ≢ OutOfMemory → spec.ended_between left right lists.old ≡ Err (error_of e)) }
{
    let list = end_list(alloc, lists)?;
    let noad = list.into_delimited(alloc, delimiter_of(left), delimiter_of(right))?;
    append_noad(alloc, lists, noad)?;
    Ok(())
}

/// The delimiter of \right is there, by its number: the list that \left began ends, and its group. `ExtraGroupEnd` exactly where this
/// isn't the innermost one. Err is want of memory.
fn close_left(alloc: Global, s: &mut State, right: u32) -> Result<Event, AllocError>
    requires { s.old.phase ≡ Phase.Running }
    ensures { IfOk result (λ event. IsStepped (spec.ending_left (state_of s.old) right (kind_of s.old.table)) s.old event s.new) }
{
    match s.table.kind() {
        Some(GroupKind::MathLeft(left)) => match end_between(alloc, &mut s.lists, left, right) {
            Ok(()) => {
                go_on(s, GroupKind::MathLeft(left))?;
                s.scan.begin_fresh();
                Ok(Event::Went)
            }
            Err(error) => fail_by_formula(s, error),
        },
        _ => Ok(fail(s, TexError::ExtraGroupEnd)),
    }
}

/// The delimiter that is awaited is there, by its number. Err is want of memory.
fn take_delimiter(
    alloc: Global,
    s: &mut State,
    number: u32,
    what: Delimiting,
) -> Result<Event, AllocError>
    requires running { s.old.phase ≡ Phase.Running }
    requires between { s.old.scan.taken ≡ [] }
    ensures { IfOk result (λ event. IsStepped (spec.delimiting (state_of s.old) number what) s.old event s.new) }
{
    match what {
        Delimiting::First(DelimiterUse::Left) => {
            open_formula(alloc, s, GroupKind::MathLeft(number))
        }
        Delimiting::First(DelimiterUse::Right) => close_left(alloc, s, number),
        Delimiting::First(DelimiterUse::Fraction(kind)) => {
            s.scan
                .begin_behind(Head::Delimiting(Delimiting::Second(kind, number)));
            Ok(Event::Went)
        }
        Delimiting::Second(kind, left) => {
            match fraction_between(&mut s.scan, kind, left, number) {
                Some(head) => divide(alloc, s, head),
                None => Ok(Event::Went),
            }
        }
    }
}

/// A character where a delimiter is awaited, by its \delcode. `MissingDelimiter` exactly where it has none. Err is want of memory;
/// the event may end the run by an error, as `delimiting_character` says.
pub fn set_delimiter(
    alloc: Global,
    s: &mut State,
    code: u8,
    what: Delimiting,
) -> Result<Event, AllocError>
    requires running { s.old.phase ≡ Phase.Running }
    requires between { s.old.scan.taken ≡ [] }
    ensures { IfOk result (λ event. IsStepped (spec.delimiting_character (state_of s.old) code what) s.old event s.new) }
{
    let number = s.table.number(&Place::Code(CharacterCode::Delimiter, code));
    match wide_code(number) {
        Some(number) => take_delimiter(alloc, s, number, what),
        None => Ok(fail(s, TexError::MissingDelimiter)),
    }
}

/// The first 15 bits of the number of a delimiter, by which it is a character.
fn letter_part(number: u32) -> u16
    requires { number ≤ 134217727 }
    ensures { result ≡ number / 4096 }
{
    (number / 4096) as u16
}

/// \delimiter, \radical or \mathaccent and its number: the delimiter that is awaited or else a character, or an atom with that sign or
/// accent, whose nucleus is to follow. `NumberOutOfRange` exactly where the number isn't from 0 to 2^27-1, or to 32767 for \mathaccent.
/// Err is want of memory; the event may end the run by an error, as `coding` says.
pub fn set_coded(
    alloc: Global,
    s: &mut State,
    kind: CodedKind,
    number: i32,
) -> Result<Event, AllocError>
    requires running { s.old.phase ≡ Phase.Running }
    requires between { s.old.scan.taken ≡ [] }
    ensures { IfOk result (λ event. IsStepped (spec.coding (state_of s.old) kind number) s.old event s.new) }
{
    match kind {
        CodedKind::Delimiter => match wide_code(number) {
            Some(number) => match s.scan.delimiting() {
                Some(what) => take_delimiter(alloc, s, number, what),
                None => set_letter(alloc, s, letter_part(number)),
            },
            None => Ok(fail(s, TexError::NumberOutOfRange)),
        },
        CodedKind::Radical => match wide_code(number) {
            Some(number) => {
                let kind = AtomKind::Radical(delimiter_of(number));
                begin_of_kind(alloc, &mut s.lists, &mut s.scan, kind)?;
                Ok(Event::Went)
            }
            None => Ok(fail(s, TexError::NumberOutOfRange)),
        },
        CodedKind::Accent => match code_of(number) {
            Some(code) => {
                let kind = AtomKind::Accent(letter_now(&s.table, code));
                begin_of_kind(alloc, &mut s.lists, &mut s.scan, kind)?;
                Ok(Event::Went)
            }
            None => Ok(fail(s, TexError::NumberOutOfRange)),
        },
    }
}
