//! Fonts that are named, loaded and changed (TeX: The Program, sections 1253 and 1256 to 1260).
ghost use Rattle.std.specs.Prelude.{◌≡◌, ◌<◌, ◌≤◌, ◌++◌, ◌∷◌, ◌&&◌, [], Some, None, codes, length, nat_le, nat_lt, MatchOption, IfOk, OnOk};
ghost use Rattle.tx_tfm.specs.Fonts.{loaded_state, with_font_integer, with_font_parameter};
ghost use Rattle.tx_state.specs.declared.parts.Phase.{Phase};
ghost use Rattle.tx_lettering.specs.Fonts as spec;
ghost use Rattle.tx_state.specs.Ended.{integer};
ghost use Rattle.tx_state.specs.Meanings.{IsStepped, state_of};
ghost use Rattle.tx_state.specs.Outcomes.{fails};

use crate::words::current_font;
use std::alloc::{AllocError, Global};
use tx_assign::{Assignment, Carried, Change};
use tx_bytes::Bytes;
use tx_command::{AskedSize, Head};
use tx_eqtb::{Entry, Eqtb};
use tx_event::{Ask, AskKind, Event};
use tx_prim::{FontNumber, IntegerParameter, MathSize, Primitive};
use tx_seen::{FontName, Meaning, Place, TexError};
use tx_state::{Due, FontRequest, State, ask, carry_out_assignment, end_assignment, fail};
use tx_tfm::{Font, FontError, Fonts, NamedFont, Size};
use tx_word::Words;

/// The longest name of a file, in bytes.
const LONGEST_NAME: usize = 255;

/// A name has a meaning from now on.
fn meant(meaning: Meaning, place: Place) -> Assignment
    ensures { result ≡ spec.meant meaning place }
{
    Assignment {
        place,
        change: Change::Set(Entry::Means(meaning)),
    }
}

/// \font and the name that it defines, which means \nullfont until the font is found. Err is want of memory; the event may end the
/// run by an error, as `defining_font` says.
pub fn define_font(s: &mut State, defined: Place) -> Result<Event, AllocError>
    requires running { s.old.phase ≡ Phase.Running }
    requires between { s.old.scan.taken ≡ [] }
    ensures { IfOk result (λ event. IsStepped (spec.defining_font (state_of s.old) defined) s.old event s.new) }
{
    let prefixes = s.scan.prefixes();
    let null = meant(Meaning::Command(Primitive::NullFont), defined.clone()?);
    match tx_assign::carry_out(&mut s.table, null, prefixes.global)? {
        Carried::Done => {
            s.scan.begin_behind(Head::Loading(prefixes, defined));
            Ok(Event::Went)
        }
        Carried::Refused(error) => Ok(fail(s, error)),
    }
}

/// `FONT` with this behind it. Its only error is want of memory.
fn font_and(alloc: Global, behind: &[u8]) -> Result<Bytes, AllocError>
    ensures { IfOk result (λ text. text ≡ codes "FONT" ++ behind.now) }
{
    let mut text = Bytes::from_slice(alloc, b"FONT")?;
    text.append(behind)?;
    Ok(text)
}

/// How the identifier of a font is printed that \font gives this name. Its only error is want of memory.
fn identifier_of(alloc: Global, defined: &Place) -> Result<Bytes, AllocError>
    ensures { IfOk result (λ text. text ≡ spec.identifier_of defined.now) }
{
    match defined {
        Place::Name(name) => match name.as_slice() {
            [] => font_and(alloc, &[]),
            name => Bytes::from_slice(alloc, name),
        },
        Place::Active(code) => font_and(alloc, &[*code]),
        _ => Ok(Bytes::new(alloc)),
    }
}

/// The name of \font means the font of a number, and is its identifier. Err is want of memory.
fn name_font(
    alloc: Global,
    s: &mut State,
    defined: Place,
    global: bool,
    number: u8,
) -> Result<Event, AllocError>
    requires { s.old.phase ≡ Phase.Running }
    ensures { IfOk result (λ event. IsStepped (spec.naming_font (state_of s.old) defined global number) s.old event s.new) }
{
    let identifier = identifier_of(alloc, &defined)?;
    s.words.set_identifier(number, identifier)?;
    carry_out_assignment(s, meant(Meaning::Font(number), defined), global)
}

/// The name of a font's file. Its only error is want of memory.
fn font_file(name: &Bytes) -> Result<Bytes, AllocError>
    ensures { IfOk result (λ file. file ≡ spec.font_file name.now) }
{
    let mut file = name.clone()?;
    file.append(b".tfm")?;
    Ok(file)
}

/// The file of a font that isn't loaded is asked for. Err is want of memory.
fn ask_font(s: &mut State, request: FontRequest) -> Result<Event, AllocError>
    requires { s.old.phase ≡ Phase.Running }
    ensures { IfOk result (λ event. IsStepped (spec.finding (state_of s.old) request None) s.old event s.new) }
{
    let file = font_file(&request.name)?;
    s.due.push(Due::LoadFont(request))?;
    Ok(ask(s, AskKind::Whole, Ask::Whole(file)))
}

/// \font with all that belongs to it: the font that has the name and the size, or else its file is asked for. Err is want of
/// memory; the event may end the run by an error, as `asking_font` says.
pub fn find_font(
    alloc: Global,
    s: &mut State,
    defined: Place,
    name: Bytes,
    asked: AskedSize,
) -> Result<Event, AllocError>
    requires running { s.old.phase ≡ Phase.Running }
    requires between { s.old.scan.taken ≡ [] }
    ensures { IfOk result (λ event. IsStepped (spec.asking_font (state_of s.old) defined name asked) s.old event s.new) }
{
    let size = asked.size();
    let global = s.scan.prefixes().global;
    match s.words.fonts().find(name.as_slice(), size) {
        Some(number) => name_font(alloc, s, defined, global, number),
        None => ask_font(
            s,
            FontRequest {
                defined,
                global,
                name,
                size,
                file: None,
            },
        ),
    }
}

/// A request with the bytes of its file.
pub fn with_file(request: FontRequest, bytes: Bytes) -> FontRequest
    ensures { result ≡ record request { file = Some bytes } }
{
    FontRequest {
        defined: request.defined,
        global: request.global,
        name: request.name,
        size: request.size,
        file: Some(bytes),
    }
}

/// Whether one more font can be loaded.
fn has_room(fonts: &Fonts) -> bool
    ensures { result ≡ nat_lt (length fonts.now) 256 }
{
    fonts.are_fonts();
    !fonts.is_full()
}

/// Whether one more font of this name can be loaded.
fn can_load(words: &Words, name: &Bytes) -> bool
    ensures { result ≡ (nat_lt (length words.now.fonts) 256 && nat_le (length name.now) 255) }
{
    has_room(words.fonts()) && name.len() <= LONGEST_NAME
}

/// A font more, with the hyphen and the skew character of the table; answers its number. Its only error is want of memory.
fn add_font(
    alloc: Global,
    words: &mut Words,
    table: &Eqtb,
    font: NamedFont,
) -> Result<u8, AllocError>
    requires room { length words.old.fonts < 256 }
    requires named { length font.name ≤ 255 }
    ensures number { IfOk result (λ number. number ≡ length words.old.fonts) }
    ensures words { OnOk result (words.new ≡ record words.old { fonts = words.old.fonts ++ loaded_state font (integer table.now.table IntegerParameter.Defaulthyphenchar) (integer table.now.table IntegerParameter.Defaultskewchar) ∷ [] }) }
{
    let hyphen = table.integer(IntegerParameter::Defaulthyphenchar);
    let skew = table.integer(IntegerParameter::Defaultskewchar);
    words.push(alloc, font, hyphen, skew)
}

/// The font of these bytes is loaded, if one more can be and they are those of one; answers its number then. Its only error is want
/// of memory.
fn read_font(
    alloc: Global,
    words: &mut Words,
    table: &Eqtb,
    name: Bytes,
    size: Size,
    bytes: &Bytes,
) -> Result<Option<u8>, AllocError>
    ensures { IfOk result (λ number. (s : State) (request : FontRequest) → s.words ≡ words.old → s.table ≡ table.now → request.name ≡ name → request.size ≡ size
        → MatchOption number (spec.loading_from (state_of s) request bytes.now ≡ fails TexError.BadFont)
        (λ n. spec.loading_from (state_of s) request bytes.now ≡ spec.naming_font (state_of (record s { words = words.new })) request.defined request.global n)) }
{
    if !can_load(words, &name) {
        return Ok(None);
    }
    match Font::read(alloc, bytes.as_slice(), size) {
        Ok(font) => {
            let number = add_font(alloc, words, table, NamedFont { name, font })?;
            Ok(Some(number))
        }
        Err(FontError::BadFont { .. }) => Ok(None),
        Err(FontError::OutOfMemory(_)) => Err(AllocError),
    }
}

/// The font that \font wants is loaded, if its file was found and is one. Err is want of memory; the event may end the run by an
/// error, as `loading` says.
pub fn load_font(alloc: Global, s: &mut State, request: FontRequest) -> Result<Event, AllocError>
    requires { s.old.phase ≡ Phase.Running }
    ensures { IfOk result (λ event. IsStepped (spec.loading (state_of s.old) request request.file) s.old event s.new) }
{
    let FontRequest {
        defined,
        global,
        name,
        size,
        file,
    } = request;
    let Some(bytes) = file else {
        return Ok(fail(s, TexError::BadFont));
    };
    let loaded = read_font(alloc, &mut s.words, &s.table, name, size, &bytes)?;
    match loaded {
        Some(added) => name_font(alloc, s, defined, global, added),
        None => Ok(fail(s, TexError::BadFont)),
    }
}

/// The number of a font that a command names.
fn number_of(table: &Eqtb, font: FontName) -> u8
    ensures { (s : State) → result ≡ spec.number_of (state_of (record s { table = table.now })) font }
{
    match font {
        FontName::Current => current_font(table),
        FontName::Number(number) => number,
    }
}

/// An assignment to a \fontdimen. Err is want of memory.
pub fn set_dimension(s: &mut State, font: FontName, n: u16, size: i32) -> Result<Event, AllocError>
    requires { s.old.phase ≡ Phase.Running }
    ensures { IfOk result (λ event. IsStepped (spec.setting_fonts (state_of s.old) (with_font_parameter s.old.words.fonts (spec.number_of (state_of s.old) font) n size)) s.old event s.new) }
{
    let number = number_of(&s.table, font);
    s.words.set_parameter(number, n, size)?;
    end_assignment(s)
}

/// An assignment to a \hyphenchar or \skewchar. Err is want of memory.
pub fn set_integer(
    s: &mut State,
    kind: FontNumber,
    font: FontName,
    value: i32,
) -> Result<Event, AllocError>
    requires { s.old.phase ≡ Phase.Running }
    ensures { IfOk result (λ event. IsStepped (spec.setting_fonts (state_of s.old) (with_font_integer kind s.old.words.fonts (spec.number_of (state_of s.old) font) value)) s.old event s.new) }
{
    let number = number_of(&s.table, font);
    s.words.set_integer(kind, number, value)?;
    end_assignment(s)
}

/// The font of a family at a size.
fn in_family(size: MathSize, family: u8, font: u8) -> Assignment
    ensures { result ≡ spec.in_family size family font }
{
    Assignment {
        place: Place::Family(size, family),
        change: Change::Set(Entry::Number(i32::from(font))),
    }
}

/// An assignment to a \textfont, \scriptfont or \scriptscriptfont. Err is want of memory; the event may end the run by an error, as
/// `setting_family` says.
pub fn set_family(
    s: &mut State,
    size: MathSize,
    family: u8,
    font: FontName,
) -> Result<Event, AllocError>
    requires { s.old.phase ≡ Phase.Running }
    ensures { IfOk result (λ event. IsStepped (spec.setting_family (state_of s.old) size family font) s.old event s.new) }
{
    let number = number_of(&s.table, font);
    let global = s.scan.prefixes().global;
    carry_out_assignment(s, in_family(size, family, number), global)
}
