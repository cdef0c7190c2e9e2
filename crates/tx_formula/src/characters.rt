//! Characters of formulas (TeX: The Program, sections 1151 to 1155).
ghost use Rattle.std.specs.Prelude.{◌≡◌, [], None, IfOk};
ghost use Rattle.tx_formula.specs.Characters as spec;
ghost use Rattle.tx_command.specs.Commands.{part_before};
ghost use Rattle.tx_mlist.specs.Noads.{part_of};
ghost use Rattle.tx_state.specs.declared.parts.Phase.{Phase};
ghost use Rattle.tx_state.specs.Meanings.{IsStepped, state_of};
ghost use Rattle.tx_state.specs.Outcomes.{leaves};

use crate::kinds::place_of;
use crate::noads::{add_noad, fill};
use std::alloc::{AllocError, Global};
use tx_char::{Cat, Token};
use tx_eqtb::Eqtb;
use tx_event::Event;
use tx_mlist::{Atom, Field, MathCharacter, Noad, kind_of, letter_of};
use tx_prim::{AtomPart, CharacterCode, IntegerParameter};
use tx_seen::{Place, TexError};
use tx_state::{State, fail};

/// A number as 4096 times a class, 256 times a family and a character, if it is one.
pub(crate) fn code_of(number: i32) -> Option<u16>
    ensures { result ≡ spec.code_of number }
{
    if 0 <= number && number <= 32767 {
        Some(number as u16)
    } else {
        None
    }
}

/// The character that a code tells, for the family that \fam is.
pub(crate) fn letter_now(table: &Eqtb, code: u16) -> MathCharacter
    ensures { result ≡ spec.letter_in table.now.table code }
{
    letter_of(table.integer(IntegerParameter::Fam), code)
}

/// What is read for a part of the last atom stands there. Err is want of memory.
fn set_part(s: &mut State, part: AtomPart, field: Field) -> Result<Event, AllocError>
    requires running { s.old.phase ≡ Phase.Running }
    requires between { s.old.scan.taken ≡ [] }
    ensures { IfOk result (λ event. IsStepped (leaves (spec.part_set (state_of s.old) part (part_of field))) s.old event s.new) }
{
    fill(&mut s.lists.formulas, place_of(part), field)?;
    s.scan.begin_fresh();
    Ok(Event::Went)
}

/// A character is the nucleus of an atom of its class. Err is want of memory.
fn add_letter(alloc: Global, s: &mut State, code: u16) -> Result<Event, AllocError>
    requires { s.old.phase ≡ Phase.Running }
    ensures { IfOk result (λ event. IsStepped (spec.lettering (state_of s.old) None code) s.old event s.new) }
{
    let atom = Atom {
        kind: kind_of(code / 4096),
        nucleus: Field::Character(letter_now(&s.table, code)),
        superscript: Field::Empty,
        subscript: Field::Empty,
    };
    add_noad(alloc, s, Noad::from_atom(alloc, atom)?)
}

/// A character is the part that is awaited, or else the nucleus of an atom. Err is want of memory.
pub(crate) fn set_letter(alloc: Global, s: &mut State, code: u16) -> Result<Event, AllocError>
    requires running { s.old.phase ≡ Phase.Running }
    requires between { s.old.scan.taken ≡ [] }
    ensures { IfOk result (λ event. IsStepped (spec.lettering (state_of s.old) (part_before s.old.scan.head) code) s.old event s.new) }
{
    match s.scan.part() {
        Some(part) => {
            let field = Field::Character(letter_now(&s.table, code));
            set_part(s, part, field)
        }
        None => add_letter(alloc, s, code),
    }
}

/// \mathchar, and what stands for it. `NumberOutOfRange` exactly where the number isn't from 0 to 32767. Err is want of memory; the
/// event may end the run by an error, as `setting_number` says.
pub fn set_number(alloc: Global, s: &mut State, number: i32) -> Result<Event, AllocError>
    requires running { s.old.phase ≡ Phase.Running }
    requires between { s.old.scan.taken ≡ [] }
    ensures { IfOk result (λ event. IsStepped (spec.setting_number (state_of s.old) number) s.old event s.new) }
{
    match code_of(number) {
        Some(code) => set_letter(alloc, s, code),
        None => Ok(fail(s, TexError::NumberOutOfRange)),
    }
}

/// A character, by its \mathcode. Err is want of memory; the event may end the run by an error, as `setting_character` says.
pub fn set_character(alloc: Global, s: &mut State, code: u8) -> Result<Event, AllocError>
    requires running { s.old.phase ≡ Phase.Running }
    requires between { s.old.scan.taken ≡ [] }
    ensures { IfOk result (λ event. IsStepped (spec.setting_character (state_of s.old) code) s.old event s.new) }
{
    let number = s.table.number(&Place::Code(CharacterCode::Math, code));
    if number == 32768 {
        s.input.give_back(Token::Character(code, Cat::Active))?;
        Ok(Event::Went)
    } else {
        set_number(alloc, s, number)
    }
}
