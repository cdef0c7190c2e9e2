//! The table with which INITEX begins (TeX: The Program, sections 222 to 250, and 1337).
ghost use Rattle.std.specs.Prelude.{◌≡◌, [], pos, map, replicate, IfOk};
ghost use Rattle.std.specs.FinMap.{from_entries};
ghost use Rattle.tx_seen.specs.declared.meaning.Meaning.TheVariants.{Undefined};
ghost use Rattle.tx_prim.specs.Integers.{initial_integer, all_integers};
ghost use Rattle.tx_eqtb.specs.Boxes.{void};
ghost use Rattle.tx_eqtb.specs.Initex as spec;
ghost use Rattle.tx_num.specs.Glue.{zero_glue};

use crate::boxes::BoxRegister;
use crate::cells::Cells;
use crate::reading::no_tokens;
use crate::shape::ParShape;
use crate::table::Table;
use std::alloc::{AllocError, Global};
use tx_char::{Codes, ControlName};
use tx_list::both;
use tx_name::NameMap;
use tx_num::Glue;
use tx_prim::{
    CharacterCode, DimensionParameter, Expandable, GlueParameter, IntegerParameter, Moment,
    Primitive, TokenParameter,
};
use tx_seen::Meaning;
use tx_toklist::TokList;

/// How many registers of a kind, and how many characters there are.
const ALL: usize = 256;

/// How many fonts families have: 16 families, at each of three sizes.
const FAMILIES: usize = 48;

/// A code of a character.
fn initial_code(kind: CharacterCode, code: u8) -> i32
    ensures { result ≡ spec.initial_code kind code }
{
    match (kind, code) {
        (CharacterCode::LowerCase, b'A'..=b'Z') => code as i32 + 32,
        (CharacterCode::LowerCase, b'a'..=b'z') => code as i32,
        (CharacterCode::LowerCase, _) => 0,
        (CharacterCode::UpperCase, b'A'..=b'Z') => code as i32,
        (CharacterCode::UpperCase, b'a'..=b'z') => code as i32 - 32,
        (CharacterCode::UpperCase, _) => 0,
        (CharacterCode::SpaceFactor, b'A'..=b'Z') => 999,
        (CharacterCode::SpaceFactor, _) => 1000,
        (CharacterCode::Math, b'0'..=b'9') => code as i32 + 0x7000,
        (CharacterCode::Math, b'A'..=b'Z' | b'a'..=b'z') => code as i32 + 0x7100,
        (CharacterCode::Math, _) => code as i32,
        (CharacterCode::Delimiter, b'.') => 0,
        (CharacterCode::Delimiter, _) => -1,
    }
}

/// A code of all characters.
#[tactic(auto, using(crate::proofs::Filled::filled_steps))]
fn initial_codes(alloc: Global, kind: CharacterCode) -> Result<Cells<i32>, AllocError>
    ensures { IfOk result (λ codes. codes ≡ spec.codes_of kind) }
{
    let mut codes = Vec::with_capacity(alloc, ALL)?;
    for code in 0..ALL {
        codes.push(initial_code(kind, code as u8))?;
    }
    Cells::from_vec(codes)
}

/// The integer parameters.
fn initial_integers(alloc: Global, begun: &Moment) -> Result<Cells<i32>, AllocError>
    ensures { IfOk result (λ values. values ≡ map (initial_integer begun.now) all_integers) }
{
    let parameters = IntegerParameter::all();
    let mut values = Vec::with_capacity(alloc, parameters.len())?;
    for parameter in parameters {
        values.push(parameter.initial(begun))?;
    }
    Cells::from_vec(values)
}

/// As many zeros.
fn zeros(alloc: Global, count: usize) -> Result<Cells<i32>, AllocError>
    ensures { IfOk result (λ values. values ≡ replicate count (pos 0)) }
{
    Cells::from_vec(vec![in alloc; 0i32; count]?)
}

/// As much zero glue.
fn zero_glues(alloc: Global, count: usize) -> Result<Cells<Glue>, AllocError>
    ensures { IfOk result (λ values. values ≡ replicate count zero_glue) }
{
    Cells::from_vec(vec![in alloc; Glue::zero(); count]?)
}

/// As many meanings, none of which is defined.
fn undefined(alloc: Global, count: usize) -> Result<Cells<Meaning>, AllocError>
    ensures { IfOk result (λ values. values ≡ replicate count Undefined) }
{
    Cells::from_vec(vec![in alloc; Meaning::Undefined; count]?)
}

/// As many empty lists of tokens.
fn empty_lists(alloc: Global, count: usize) -> Result<Cells<TokList>, AllocError>
    ensures { IfOk result (λ lists. lists ≡ replicate count []) }
{
    let empty = no_tokens(alloc)?;
    Cells::from_vec(vec![in alloc; empty; count]?)
}

/// As many void box registers.
fn void_boxes(alloc: Global, count: usize) -> Result<Cells<BoxRegister>, AllocError>
    ensures { IfOk result (λ boxes. boxes ≡ replicate count void) }
{
    Cells::from_vec(vec![in alloc; BoxRegister::void(); count]?)
}

/// The names of the primitives that are expanded.
#[tactic(auto, using(crate::proofs::Filled::filled_steps))]
fn expandable_names(alloc: Global) -> Result<NameMap<Meaning>, AllocError>
    ensures { IfOk result (λ names. names ≡ from_entries spec.expandable_entries) }
{
    let expandables = Expandable::all();
    let mut names = NameMap::new(alloc)?;
    let mut left = expandables.len();
    while left > 0 {
        left -= 1;
        let expandable = expandables[left];
        let name = ControlName::from_slice(alloc, expandable.name())?;
        names.insert(name, Meaning::Expandable(expandable))?;
    }
    Ok(names)
}

/// The names of all primitives.
#[tactic(auto, using(crate::proofs::Filled::filled_steps))]
fn initial_names(alloc: Global) -> Result<NameMap<Meaning>, AllocError>
    ensures { IfOk result (λ names. names ≡ spec.initial_names) }
{
    let primitives = Primitive::all();
    let mut names = expandable_names(alloc)?;
    let mut left = primitives.len();
    while left > 0 {
        left -= 1;
        let primitive = primitives[left];
        let name = ControlName::from_slice(alloc, primitive.name())?;
        names.insert(name, Meaning::Command(primitive))?;
    }
    Ok(names)
}

/// The table with which INITEX begins, in a run that began at this moment. Its only error is want of memory.
#[tactic(auto, unfolding(crate::specs::Initex::initial_table))]
pub fn initial_table(alloc: Global, begun: &Moment) -> Result<Table, AllocError>
    ensures { IfOk result (λ table. table ≡ spec.initial_table begun.now) }
{
    let of_names = both(initial_names(alloc), undefined(alloc, ALL));
    let meanings = both(of_names, Codes::initex(alloc));
    let registers = both(zeros(alloc, ALL), zeros(alloc, ALL));
    let dimensions = zeros(alloc, DimensionParameter::COUNT);
    let parameters = both(initial_integers(alloc, begun), dimensions);
    let numbers = both(registers, parameters);
    let cases = both(
        initial_codes(alloc, CharacterCode::LowerCase),
        initial_codes(alloc, CharacterCode::UpperCase),
    );
    let of_math = both(
        initial_codes(alloc, CharacterCode::Math),
        initial_codes(alloc, CharacterCode::Delimiter),
    );
    let space_factors = initial_codes(alloc, CharacterCode::SpaceFactor);
    let other_codes = both(space_factors, of_math);
    let codes = both(cases, other_codes);
    let of_characters = both(numbers, codes);
    let skips = both(zero_glues(alloc, ALL), zero_glues(alloc, ALL));
    let glues = both(skips, zero_glues(alloc, GlueParameter::COUNT));
    let token_parameters = empty_lists(alloc, TokenParameter::COUNT);
    let lists = both(empty_lists(alloc, ALL), token_parameters);
    let families = zeros(alloc, FAMILIES);
    let others = both(void_boxes(alloc, ALL), families);
    let boxed = both(lists, others);
    let registered = both(glues, boxed);
    let rest = both(of_characters, registered);
    let (
        ((names, active), categories),
        (
            (
                ((counts, dimens), (integers, dimensions)),
                ((lower_case, upper_case), (space_factors, (math, delimiters))),
            ),
            (
                ((skips, muskips), glue_parameters),
                ((token_registers, token_parameters), (boxes, families)),
            ),
        ),
    ) = both(meanings, rest)?;
    Ok(Table {
        names,
        active,
        categories,
        counts,
        dimens,
        lower_case,
        upper_case,
        space_factors,
        math,
        delimiters,
        integers,
        dimensions,
        skips,
        muskips,
        glue_parameters,
        token_registers,
        token_parameters,
        boxes,
        families,
        par_shape: ParShape::none(),
        font: 0,
    })
}
