//! How an assignment is carried out on the table (TeX: The Program, sections 1211 to 1218 and 1236 to 1240).
ghost use Rattle.std.specs.Prelude.{◌≡◌, ◌≤◌, unsigned_abs, IfOk, OnOk};
ghost use Rattle.tx_num.specs.Glue.{IsDimension};
ghost use Rattle.tx_num.specs.Limits.{limit};
ghost use Rattle.tx_assign.specs.Changes as spec;
ghost use Rattle.tx_assign.specs.Changes.{IsCarried};

use crate::types::{Assignment, Carried, Change};
use std::alloc::{AllocError, Global};
use tx_char::{Cat, Token};
use tx_eqtb::{Entry, Eqtb};
use tx_num::{Glue, Range, x_over_n};
use tx_prim::{IntegerParameter, Operation, Primitive, TokenParameter};
use tx_seen::{Meaning, Place, TexError};
use tx_toklist::{TokList, Toks};

/// Whether an assignment is global, with this value of \globaldefs.
pub fn is_global(globaldefs: i32, prefixed: bool) -> bool
    ensures { result ≡ spec.is_global globaldefs prefixed }
{
    if globaldefs > 0 {
        true
    } else if globaldefs < 0 {
        false
    } else {
        prefixed
    }
}

/// Sizes reach up to 2^30-1, other numbers up to 2^31-1.
fn range_of(place: &Place) -> Range
    ensures { result ≡ spec.range_of place.now }
{
    if place.is_size() {
        Range::Dimen
    } else {
        Range::Integer
    }
}

/// A result, if it is within the range.
fn computed(range: Range, number: i64) -> Result<i32, TexError>
    ensures value { result ≡ spec.computed range number }
    ensures bound { IfOk result (λ n. unsigned_abs n ≤ limit range) }
{
    if number.unsigned_abs() <= range.limit() {
        Ok(number as i32)
    } else {
        Err(TexError::ArithmeticOverflow)
    }
}

/// A quotient, cut off towards 0.
fn quotient(range: Range, number: i64, divisor: i64) -> Result<i32, TexError>
    ensures value { result ≡ spec.quotient range number divisor }
    ensures bound { IfOk result (λ n. unsigned_abs n ≤ limit range) }
{
    if divisor == 0 {
        return Err(TexError::ArithmeticOverflow);
    }
    match x_over_n(number, divisor, range) {
        Ok((quotient, _)) => computed(range, quotient),
        Err(_) => Err(TexError::ArithmeticOverflow),
    }
}

/// What an operation makes of a number with another one.
fn calculated(
    operation: Operation,
    range: Range,
    number: i32,
    operand: i32,
) -> Result<i32, TexError>
    ensures value { result ≡ spec.result operation range number operand }
    ensures bound { IfOk result (λ n. unsigned_abs n ≤ limit range) }
{
    let number = i64::from(number);
    let operand = i64::from(operand);
    match operation {
        Operation::Advance => computed(range, number + operand),
        Operation::Multiply => computed(range, number * operand),
        Operation::Divide => quotient(range, number, operand),
    }
}

/// What an operation makes of a size in sp with a number.
fn calculated_size(operation: Operation, size: i64, operand: i32) -> Result<i64, TexError>
    requires { IsDimension size }
    ensures value { result ≡ spec.result operation Range.Dimen size operand }
    ensures bound { IfOk result IsDimension }
{
    Ok(i64::from(calculated(operation, Range::Dimen, size as i32, operand)?))
}

/// What an operation makes of each size of glue with a number; its orders stay (TeX: The Program, section 1240).
fn calculated_glue(operation: Operation, glue: &Glue, operand: i32) -> Result<Glue, TexError>
    ensures { result ≡ spec.glue_result operation glue.now operand }
{
    let width = calculated_size(operation, glue.width(), operand)?;
    let stretch = calculated_size(operation, glue.stretch(), operand)?;
    let shrink = calculated_size(operation, glue.shrink(), operand)?;
    Ok(Glue::new(
        width,
        stretch,
        glue.stretch_order(),
        shrink,
        glue.shrink_order(),
    ))
}

/// The sum of glue (TeX: The Program, section 1239).
fn glue_sum(glue: &Glue, other: &Glue) -> Result<Glue, TexError>
    ensures { result ≡ spec.glue_added glue.now other.now }
{
    match other.plus(glue) {
        Ok(sum) => Ok(sum),
        Err(_) => Err(TexError::ArithmeticOverflow),
    }
}

/// What an operation makes of what stands at a place, with a number.
fn computed_entry(
    table: &Eqtb,
    place: &Place,
    operation: Operation,
    operand: i32,
) -> Result<Entry, TexError>
    ensures { result ≡ spec.computed_entry table.now.table place.now operation operand }
{
    if place.is_glue() || place.is_muglue() {
        return Ok(Entry::Glue(calculated_glue(operation, &table.glue(place), operand)?));
    }
    Ok(Entry::Number(calculated(operation, range_of(place), table.number(place), operand)?))
}

/// What glue makes of the glue that stands at a place, to which it is added.
fn added_entry(table: &Eqtb, place: &Place, glue: &Glue) -> Result<Entry, TexError>
    ensures { result ≡ spec.added_entry table.now.table place.now glue.now }
{
    Ok(Entry::Glue(glue_sum(&table.glue(place), glue)?))
}

/// What stands at a place of the table after a change. Its only further error is want of memory.
fn changed_entry(
    table: &Eqtb,
    place: &Place,
    change: Change,
) -> Result<Result<Entry, TexError>, AllocError>
    ensures { IfOk result (λ entry. entry ≡ spec.changed_entry table.now.table place.now change) }
{
    match change {
        Change::Set(entry) => Ok(Ok(entry)),
        Change::Compute(operation, operand) => {
            Ok(computed_entry(table, place, operation, operand))
        }
        Change::Add(glue) => Ok(added_entry(table, place, &glue)),
        Change::Copy(other) => Ok(Ok(Entry::Tokens(table.tokens(&other)?))),
        Change::Text => Ok(Err(TexError::MissingBeginGroup)),
    }
}

/// The assignment by which a place means \relax, as a name does while \chardef and its kin define it (TeX: The Program, section
/// 1224).
pub fn relaxed(place: Place) -> Assignment
    ensures { result ≡ spec.relaxed place }
{
    Assignment {
        place,
        change: Change::Set(Entry::Means(Meaning::Command(Primitive::Relax))),
    }
}

/// A list of tokens in braces, unless it is empty. Its only error is want of memory.
fn in_braces(alloc: Global, tokens: Toks) -> Result<Toks, AllocError>
    ensures { IfOk result (λ braced. braced ≡ spec.in_braces tokens) }
{
    if tokens.is_empty() {
        return Ok(tokens);
    }
    let mut tokens = tokens;
    let mut braced = Toks::one(alloc, Token::Character(b'{', Cat::BeginGroup))?;
    braced.append(&mut tokens)?;
    braced.push(Token::Character(b'}', Cat::EndGroup))?;
    Ok(braced)
}

/// A text as it stands at a place. Its only error is want of memory.
fn stored(alloc: Global, place: &Place, tokens: Toks) -> Result<Toks, AllocError>
    ensures { IfOk result (λ list. list ≡ spec.stored place.now tokens) }
{
    match place {
        Place::Tokens(TokenParameter::Output) => in_braces(alloc, tokens),
        _ => Ok(tokens),
    }
}

/// The assignment by which a text stands at a place (TeX: The Program, section 1226). Its only error is want of memory.
pub fn with_text(alloc: Global, place: Place, tokens: Toks) -> Result<Assignment, AllocError>
    ensures { IfOk result (λ assignment. assignment ≡ spec.with_text place tokens) }
{
    let list = TokList::from_toks(alloc, stored(alloc, &place, tokens)?)?;
    Ok(Assignment {
        place,
        change: Change::Set(Entry::Tokens(list)),
    })
}

/// Gives a place an entry, globally or not; a size of a box changes where the box was assigned, whatever the prefix says (TeX: The
/// Program, section 1247). After want of memory, its only error, the table may only be dropped.
fn put_at(table: &mut Eqtb, place: Place, value: Entry, global: bool) -> Result<(), AllocError>
    ensures { OnOk result (table.new ≡ spec.put_at global table.old place value) }
{
    if matches!(place, Place::BoxSize(_, _)) {
        return table.replace(place, value);
    }
    if global {
        table.assign_global(place, value)
    } else {
        table.assign(place, value)
    }
}

/// Gives a place an entry, with \global before the assignment or not. After want of memory, its only error, the table may only be
/// dropped.
fn put(table: &mut Eqtb, place: Place, value: Entry, prefixed: bool) -> Result<(), AllocError>
    ensures { OnOk result (table.new ≡ spec.put_by prefixed table.old place value) }
{
    let globaldefs = table.number(&Place::Integer(IntegerParameter::Globaldefs));
    put_at(table, place, value, is_global(globaldefs, prefixed))?;
    Ok(())
}

/// Carries a change out that hangs on what stands at its place or at another one, or has its text still to come. After want of
/// memory, its only error, the table may only be dropped.
#[inline(never)]
fn carry_change(
    table: &mut Eqtb,
    place: Place,
    change: Change,
    global: bool,
) -> Result<Carried, AllocError>
    ensures { IfOk result (IsCarried table.old (record { place = place; change = change }) global table.new) }
{
    let entry = match changed_entry(table, &place, change)? {
        Ok(entry) => entry,
        Err(error) => return Ok(Carried::Refused(error)),
    };
    put(table, place, entry, global)?;
    Ok(Carried::Done)
}

/// Carries an assignment out, with \global before it or not; it is refused where a result leaves its range, a divisor is 0, or
/// its text isn't there, and then nothing has changed. After want of memory, its only error, the table may only be dropped.
pub fn carry_out(
    table: &mut Eqtb,
    assignment: Assignment,
    global: bool,
) -> Result<Carried, AllocError>
    ensures ok { IfOk result (IsCarried table.old assignment global table.new) }
{
    let Assignment { place, change } = assignment;
    match change {
        // most assignments
        Change::Set(entry) => {
            put(table, place, entry, global)?;
            Ok(Carried::Done)
        }
        change => carry_change(table, place, change, global),
    }
}

impl Assignment {
    /// Whether its text is still to be taken.
    pub fn is_text(&self) -> bool
        ensures { result ≡ spec.is_text self.now.change }
    {
        matches!(self.change, Change::Text)
    }
}
