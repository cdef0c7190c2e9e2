//! The parts of a command, token by token (TeX: The Program, part 46 on).
ghost use Rattle.std.specs.Prelude.{◌≡◌, ◌∷◌, [], IfOk, IfSome};
ghost use Rattle.tx_seen.specs.declared.item.Item.TheVariants.{Took};
ghost use Rattle.tx_seen.specs.Readings.{More};
ghost use Rattle.tx_scan.specs.Rests.{IsFedBy, IsGivenBehind};
ghost use Rattle.tx_scan.specs.Supplied.{NeedsNoMore, NeedsFewer};
ghost use Rattle.tx_assign.specs.Assignments.{assignment};
ghost use Rattle.tx_command.specs.Commands as commands;
ghost use Rattle.tx_command.specs.Rests.{command_rest, held, more_needed, told, Begins, BeginsVariable, GoesOn, IsBegunBy, IsNoName, IsOn, IsPart, IsWaiting};

use crate::mapping::{
    assigned, defined, font_defined, future_defined, led, loaded, macro_defined, put_shaped,
    put_whole, ruled, shaped, sized,
};
use crate::standing::{is_assignment, may_be_prefixed, standing_in};
use std::alloc::AllocError;
use tx_assign::{Assigning, Assignment, Change, Variable};
use tx_char::Cat;
use tx_command::{
    Command, CommandBuffer, Head, PreamblePart, Prefixes, RowStart, Scans, SizeUse, Stage, Whole,
};
use tx_eqtb::Entry;
use tx_prim::{
    AfterKind, AlignWord, AtomPart, BreakText, CodedKind, GlueForm, GlueParameter, Indentation,
    LeadersKind, Mode, Primitive, RuleKind, Shorthand, SizeKind, Standing,
};
use tx_scan::NameScan;
use tx_seen::{Fed, Meaning, Place, Seen, TexError, Value, Want};
use tx_shape::{BoxContext, Opener, Shaping};

/// Whether a token that means this is one that \noexpand holds.
fn is_held(meaning: &Meaning) -> bool
    ensures { result ≡ commands.is_held meaning.now }
{
    matches!(meaning, Meaning::Held)
}

/// What is done with a character, by its category.
fn character(scans: &Scans, code: u8, category: Cat) -> Fed<Command>
    ensures { Begins (commands.character_command code category) scans.now result }
{
    match category {
        Cat::BeginGroup => Fed::Done(Command::BeginGroup, 0),
        Cat::EndGroup => Fed::Done(Command::EndGroup, 0),
        Cat::Space => Fed::Done(Command::Space, 0),
        Cat::Letter | Cat::Other => Fed::Done(Command::Character(code), 0),
        Cat::AlignmentTab => Fed::Wrong(TexError::MisplacedAlignment),
        Cat::MathShift => Fed::Done(Command::MathShift, 0),
        Cat::Superscript => Fed::Done(Command::Script(AtomPart::Superscript), 0),
        Cat::Subscript => Fed::Done(Command::Script(AtomPart::Subscript), 0),
        Cat::Parameter
        | Cat::Escape
        | Cat::EndOfLine
        | Cat::Ignored
        | Cat::Active
        | Cat::Comment
        | Cat::Invalid => Fed::Wrong(TexError::NotAllowed),
    }
}

/// The second of the two tokens behind the name that \futurelet defines, which is to mean what it means; both are read again.
/// Its only error is that no more owners of a name or a meaning can be counted.
#[inline(never)]
fn feed_second(head: &Head, token: &Seen) -> Result<Fed<Command>, AllocError>
    ensures { IfOk result (λ fed. fed ≡ Fed.Done (commands.future_of head.now token.now) 2) }
{
    match head {
        Head::Future(_, name) => Ok(Fed::Done(
            Command::Assign(Assignment {
                place: name.clone()?,
                change: Change::Set(Entry::Means(token.meaning.clone()?)),
            }),
            2,
        )),
        // of all others alike
        _ => Ok(Fed::Done(Command::Nothing, 2)),
    }
}

/// Whether a size is told in mu.
fn is_in_mu(kind: SizeKind) -> bool
    ensures { result ≡ commands.is_in_mu kind }
{
    match kind {
        SizeKind::MathKern => true,
        SizeKind::Kern | SizeKind::Above => false,
    }
}

/// Whether a token that means this is a `$`.
fn is_math_shift(meaning: &Meaning) -> bool
    ensures { result ≡ commands.is_math_shift meaning.now }
{
    matches!(meaning, Meaning::Character(_, Cat::MathShift))
}

/// Whether the list of a mode is that of a paragraph.
fn is_unrestricted(mode: Mode) -> bool
    ensures { result ≡ commands.is_unrestricted mode }
{
    matches!(mode, Mode::Horizontal)
}

/// Whether a part of an atom begins with a primitive.
fn is_part_begun(primitive: Primitive) -> bool
    ensures { result ≡ commands.is_part_begun primitive }
{
    match primitive {
        Primitive::Char | Primitive::MathChar => true,
        Primitive::Coded(CodedKind::Delimiter) => true,
        // all others alike
        _ => false,
    }
}

/// Whether a part of an atom begins with a token that means this.
fn is_part(meaning: &Meaning) -> bool
    ensures { result ≡ commands.is_part meaning.now }
{
    match meaning {
        Meaning::Character(_, Cat::BeginGroup | Cat::Letter | Cat::Other) => true,
        Meaning::CharacterNumber(_) | Meaning::MathNumber(_) => true,
        Meaning::Command(primitive) => is_part_begun(*primitive),
        // all others alike
        _ => false,
    }
}

/// Whether a delimiter begins with a primitive.
fn is_delimiter_begun(primitive: Primitive) -> bool
    ensures { result ≡ commands.is_delimiter_begun primitive }
{
    matches!(primitive, Primitive::Coded(CodedKind::Delimiter))
}

/// Whether a delimiter begins with a token that means this.
fn is_delimiter(meaning: &Meaning) -> bool
    ensures { result ≡ commands.is_delimiter meaning.now }
{
    match meaning {
        Meaning::Character(_, Cat::Letter | Cat::Other) => true,
        Meaning::Command(primitive) => is_delimiter_begun(*primitive),
        // all others alike
        _ => false,
    }
}

/// Whether there are prefixes at all.
fn is_prefixed(prefixes: Prefixes) -> bool
    ensures { result ≡ commands.is_prefixed prefixes }
{
    prefixes.global || prefixes.long || prefixes.outer
}

/// Whether a token that means this is \setbox.
fn is_setbox(meaning: &Meaning) -> bool
    ensures { result ≡ commands.is_setbox meaning.now }
{
    matches!(meaning, Meaning::Command(Primitive::SetBox))
}

/// The token of \aftergroup or \afterassignment. Its only error is that no more owners of a name can be counted.
#[inline(never)]
fn feed_kept(kind: AfterKind, token: &Seen) -> Result<Fed<Command>, AllocError>
    ensures { IfOk result (λ fed. fed ≡ Fed.Done (Command.Keep kind token.now.token) 0) }
{
    Ok(Fed::Done(Command::Keep(kind, token.token.clone()?), 0))
}

/// Which glue follows leaders in a mode: that of vertical lists in these, that of horizontal ones in all others; None where a
/// token begins no such glue.
fn leading_glue(mode: Mode, meaning: &Meaning) -> Option<GlueForm>
    ensures { result ≡ commands.leading_glue mode meaning.now }
{
    let vertical = match mode {
        Mode::Vertical | Mode::InternalVertical => true,
        Mode::Horizontal | Mode::RestrictedHorizontal | Mode::Math | Mode::DisplayMath => false,
    };
    match meaning {
        Meaning::Command(Primitive::HorizontalGlue(form)) if !vertical => Some(*form),
        Meaning::Command(Primitive::VerticalGlue(form)) if vertical => Some(*form),
        // of all others alike
        _ => None,
    }
}

/// The rule that leaders repeat which begin with a token that means this; None where they don't.
fn led_rule(meaning: &Meaning) -> Option<RuleKind>
    ensures { result ≡ commands.led_rule meaning.now }
{
    match meaning {
        Meaning::Command(Primitive::Rule(direction)) => Some(*direction),
        // of all others alike
        _ => None,
    }
}

/// What a token of a preamble is that means this.
fn preamble_part(meaning: &Meaning) -> PreamblePart
    ensures { result ≡ commands.preamble_part meaning.now }
{
    match meaning {
        Meaning::Command(primitive) => preamble_primitive(*primitive),
        // of all others alike
        _ => PreamblePart::Token,
    }
}

/// The same, by a primitive.
fn preamble_primitive(primitive: Primitive) -> PreamblePart
    ensures { result ≡ commands.preamble_primitive primitive }
{
    match primitive {
        Primitive::AlignWord(AlignWord::Span) => PreamblePart::Span,
        Primitive::Glue(GlueParameter::Tabskip) => PreamblePart::Tabskip,
        // of all others alike
        _ => PreamblePart::Token,
    }
}

/// What a row begins with, by a word of alignments.
fn word_start(word: AlignWord) -> RowStart
    ensures { result ≡ commands.word_start word }
{
    match word {
        AlignWord::CrCr => RowStart::Skipped,
        AlignWord::NoAlign => RowStart::NoAlign,
        AlignWord::Omit => RowStart::Omit,
        AlignWord::Cr | AlignWord::Span => RowStart::Entry,
    }
}

/// The same, by a character's category.
fn character_start(category: Cat) -> RowStart
    ensures { result ≡ commands.character_start category }
{
    match category {
        Cat::Space => RowStart::Skipped,
        Cat::EndGroup => RowStart::End,
        // of all others alike
        _ => RowStart::Entry,
    }
}

/// The same, by a primitive.
fn primitive_start(primitive: Primitive) -> RowStart
    ensures { result ≡ commands.primitive_start primitive }
{
    match primitive {
        Primitive::AlignWord(word) => word_start(word),
        // of all others alike
        _ => RowStart::Entry,
    }
}

/// What a row begins with where this token is met.
fn row_start(token: &Seen) -> RowStart
    ensures { result ≡ commands.row_start token.now.meaning }
{
    match &token.meaning {
        Meaning::Character(_, category) => character_start(*category),
        Meaning::Command(primitive) => primitive_start(*primitive),
        // of all others alike
        _ => RowStart::Entry,
    }
}

/// What a further entry begins with there: neither \crcr nor \noalign nor an end-group token is anything but its text.
fn entry_start(token: &Seen) -> RowStart
    ensures { result ≡ commands.entry_start token.now }
{
    if token.is_space() {
        return RowStart::Skipped;
    }
    match row_start(token) {
        RowStart::Omit => RowStart::Omit,
        RowStart::Skipped | RowStart::NoAlign | RowStart::End | RowStart::Entry => RowStart::Entry,
    }
}

/// The variable that a token with this meaning gives a value in a mode, if it does.
fn variable_in(mode: Mode, meaning: &Meaning) -> Option<Variable>
    ensures { IfSome result (λ variable. BeginsVariable mode meaning.now variable) }
{
    match standing_in(mode, meaning) {
        Standing::Stands => Variable::of_meaning(meaning),
        Standing::BeginsParagraph | Standing::EndsParagraph => None,
        Standing::EndsRun | Standing::Refused => None,
    }
}

/// The selection of the font of this number.
fn selection(number: u8) -> Command
    ensures { result ≡ commands.selection number }
{
    Command::Assign(Assignment {
        place: Place::Font,
        change: Change::Set(Entry::Number(i32::from(number))),
    })
}

/// Takes one token, in this mode and behind this head. A command that is whole stands where the answer says. Its only error is
/// want of memory.
pub(crate) fn feed_scans(
    scans: &mut Scans,
    mode: Mode,
    head: &Head,
    token: &Seen,
    made: &mut CommandBuffer,
) -> Result<Fed<Whole>, AllocError>
    requires { IsOn scans.old }
    ensures fed { IfOk result (λ fed. IsFedBy (command_rest mode head.now) held scans.old token.now scans.new (told scans.new made.new fed)) }
    ensures needs { IfOk result (NeedsNoMore (more_needed scans.old) (more_needed scans.new)) }
    ensures on { IfOk result (GoesOn scans.new) }
{
    match scans.stage {
        // most tokens
        Stage::Assign => Ok(assigned(scans.assignment.feed(token)?)),
        Stage::Shape => feed_shaped(scans, token, made),
        Stage::Start => feed_first(scans, mode, head, token, made),
        _ => feed_other(scans, mode, head, token, made),
    }
}

/// A token of what a box, or what is done with one, takes, and its kin. Its only error is want of memory.
#[inline(never)]
fn feed_shaped(
    scans: &mut Scans,
    token: &Seen,
    made: &mut CommandBuffer,
) -> Result<Fed<Whole>, AllocError>
    requires { scans.old.stage ≡ Stage.Shape }
    ensures fed { (mode : Mode) (head : Head) → IfOk result (λ fed. IsFedBy (command_rest mode head) held scans.old token.now scans.new (told scans.new made.new fed)) }
    ensures needs { IfOk result (NeedsNoMore (more_needed scans.old) (more_needed scans.new)) }
    ensures on { IfOk result (GoesOn scans.new) }
{
    Ok(put_shaped(scans.shape.feed(token)?, made))
}

/// A token of any other part, which is put beside where it is whole. Its only error is want of memory.
#[inline(never)]
fn feed_other(
    scans: &mut Scans,
    mode: Mode,
    head: &Head,
    token: &Seen,
    made: &mut CommandBuffer,
) -> Result<Fed<Whole>, AllocError>
    requires part { IsPart scans.old.stage }
    requires on { IsOn scans.old }
    ensures fed { IfOk result (λ fed. IsFedBy (command_rest mode head.now) held scans.old token.now scans.new (told scans.new made.new fed)) }
    ensures needs { IfOk result (NeedsNoMore (more_needed scans.old) (more_needed scans.new)) }
    ensures on { IfOk result (GoesOn scans.new) }
{
    let fed = feed_part(scans, mode, head, token)?;
    Ok(put_whole(fed, made))
}

/// A token of such a part. Its only error is want of memory.
fn feed_part(
    scans: &mut Scans,
    mode: Mode,
    head: &Head,
    token: &Seen,
) -> Result<Fed<Command>, AllocError>
    requires part { IsPart scans.old.stage }
    requires on { IsOn scans.old }
    ensures fed { IfOk result (IsFedBy (command_rest mode head.now) held scans.old token.now scans.new) }
    ensures needs { IfOk result (NeedsNoMore (more_needed scans.old) (more_needed scans.new)) }
    ensures on { IfOk result (GoesOn scans.new) }
{
    match scans.stage {
        Stage::Start | Stage::Assign | Stage::Shape => unreachable!(),
        Stage::Name(kind) => Ok(defined(kind, NameScan::new().feed(token)?)),
        Stage::MacroName(kind) => Ok(macro_defined(kind, NameScan::new().feed(token)?)),
        Stage::FutureName => Ok(future_defined(NameScan::new().feed(token)?)),
        Stage::FontName => Ok(font_defined(NameScan::new().feed(token)?)),
        Stage::Loading => Ok(loaded(scans.loading.feed(token)?)),
        Stage::SecondToken => feed_second(head, token),
        Stage::KeptToken(kind) => feed_kept(kind, token),
        Stage::Sized(size_use) => Ok(sized(size_use, scans.size.feed(token)?)),
        Stage::Rule(kind) => Ok(ruled(kind, scans.rule.feed(token)?)),
        Stage::Leaders(kind) => Ok(feed_leaders(scans, kind, token)),
        Stage::LeadersRule(kind) => Ok(led(kind, scans.rule.feed(token)?)),
        Stage::Spaces => Ok(feed_space(scans, token)),
    }
}

/// Takes the value that an assignment or a size needs, where this token was taken last. A command that is whole stands where
/// the answer says. Its only error is want of memory.
#[inline(never)]
pub(crate) fn give_scans(
    scans: &mut Scans,
    value: &Value,
    behind: &Seen,
    made: &mut CommandBuffer,
) -> Result<Fed<Whole>, AllocError>
    requires { IsWaiting scans.old }
    ensures given { (mode : Mode) (head : Head) → IfOk result (λ fed. IsGivenBehind (command_rest mode head) held scans.old value.now behind.now scans.new (told scans.new made.new fed)) }
    ensures needs { IfOk result (NeedsFewer (more_needed scans.old) (more_needed scans.new)) }
    ensures on { IfOk result (GoesOn scans.new) }
{
    match scans.stage {
        Stage::Assign => Ok(assigned(scans.assignment.give(value, behind)?)),
        Stage::Shape => Ok(put_shaped(scans.shape.give(value, behind)?, made)),
        _ => give_other(scans, value, behind, made),
    }
}

/// The value that any other part needs, which is put beside where it is whole. Its only error is want of memory.
#[inline(never)]
fn give_other(
    scans: &mut Scans,
    value: &Value,
    behind: &Seen,
    made: &mut CommandBuffer,
) -> Result<Fed<Whole>, AllocError>
    requires part { IsPart scans.old.stage }
    requires waits { IsWaiting scans.old }
    ensures given { (mode : Mode) (head : Head) → IfOk result (λ fed. IsGivenBehind (command_rest mode head) held scans.old value.now behind.now scans.new (told scans.new made.new fed)) }
    ensures needs { IfOk result (NeedsFewer (more_needed scans.old) (more_needed scans.new)) }
    ensures on { IfOk result (GoesOn scans.new) }
{
    let fed = give_part(scans, value, behind)?;
    Ok(put_whole(fed, made))
}

/// The value that such a part needs. Its only error is want of memory.
fn give_part(scans: &mut Scans, value: &Value, behind: &Seen) -> Result<Fed<Command>, AllocError>
    requires part { IsPart scans.old.stage }
    requires waits { IsWaiting scans.old }
    ensures given { (mode : Mode) (head : Head) → IfOk result (IsGivenBehind (command_rest mode head) held scans.old value.now behind.now scans.new) }
    ensures needs { IfOk result (NeedsFewer (more_needed scans.old) (more_needed scans.new)) }
    ensures on { IfOk result (GoesOn scans.new) }
{
    match scans.stage {
        Stage::Sized(size_use) => Ok(sized(size_use, scans.size.give(value)?)),
        Stage::Rule(kind) => Ok(ruled(kind, scans.rule.give(value, behind)?)),
        Stage::LeadersRule(kind) => Ok(led(kind, scans.rule.give(value, behind)?)),
        Stage::Loading => Ok(loaded(scans.loading.give(value)?)),
        Stage::Start | Stage::Assign | Stage::Shape => unreachable!(),
        Stage::FontName | Stage::Name(_) | Stage::MacroName(_) => unreachable!(),
        Stage::FutureName | Stage::SecondToken | Stage::KeptToken(_) => unreachable!(),
        Stage::Spaces | Stage::Leaders(_) => unreachable!(),
    }
}

/// The first token of a command. Its only error is want of memory.
#[inline(never)]
fn feed_first(
    scans: &mut Scans,
    mode: Mode,
    head: &Head,
    token: &Seen,
    made: &mut CommandBuffer,
) -> Result<Fed<Whole>, AllocError>
    ensures { IfOk result (λ fed. IsBegunBy mode head.now 1 (λ more. commands.command mode head.now (Took token.now ∷ more)) (Took token.now ∷ []) scans.new (told scans.new made.new fed)) }
{
    match head {
        Head::Fresh => feed_unprefixed(scans, mode, head, token, made),
        Head::Defining(_, name, kind) => feed_defining(scans, name, *kind, token),
        _ => feed_head(scans, mode, head, token, made),
    }
}

/// The same where nothing stands before it. What gives a variable a value is told first, past all other commands. Its only
/// error is want of memory.
fn feed_unprefixed(
    scans: &mut Scans,
    mode: Mode,
    head: &Head,
    token: &Seen,
    made: &mut CommandBuffer,
) -> Result<Fed<Whole>, AllocError>
    requires { head.now ≡ Head.Fresh }
    ensures { IfOk result (λ fed. IsBegunBy mode head.now 1 (λ more. commands.command mode head.now (Took token.now ∷ more)) (Took token.now ∷ []) scans.new (told scans.new made.new fed)) }
{
    match variable_in(mode, &token.meaning) {
        Some(variable) => Ok(Fed::More(start_variable(scans, variable))),
        None => feed_head(scans, mode, head, token, made),
    }
}

/// What gives a variable a value, and how its next token is wanted.
fn start_variable(scans: &mut Scans, variable: Variable) -> Want
    ensures { Begins (commands.assigning (Assigning.Variable variable)) scans.new (Fed.More result) }
{
    scans.assignment.begin_variable(variable);
    scans.stage = Stage::Assign;
    Want::Expanded
}

/// The same where no name is being defined: what is whole is put beside. Its only error is want of memory.
#[inline(never)]
fn feed_head(
    scans: &mut Scans,
    mode: Mode,
    head: &Head,
    token: &Seen,
    made: &mut CommandBuffer,
) -> Result<Fed<Whole>, AllocError>
    requires { IsNoName head.now }
    ensures { IfOk result (λ fed. IsBegunBy mode head.now 1 (λ more. commands.command mode head.now (Took token.now ∷ more)) (Took token.now ∷ []) scans.new (told scans.new made.new fed)) }
{
    let fed = begin_command(scans, mode, head, token)?;
    Ok(put_whole(fed, made))
}

/// What the first token begins there. Its only error is want of memory.
fn begin_command(
    scans: &mut Scans,
    mode: Mode,
    head: &Head,
    token: &Seen,
) -> Result<Fed<Command>, AllocError>
    requires { IsNoName head.now }
    ensures { IfOk result (IsBegunBy mode head.now 1 (λ more. commands.command mode head.now (Took token.now ∷ more)) (Took token.now ∷ []) scans.new) }
{
    match head {
        Head::Fresh => Ok(feed_fresh(scans, mode, token)),
        Head::Prefixed(prefixes) => Ok(feed_prefixed(scans, *prefixes, token)),
        Head::Defining(_, _, _) => unreachable!(),
        Head::Future(_, _) => Ok(on(scans, Stage::SecondToken, Want::Raw)),
        Head::Leading(_, _) => Ok(feed_leading(scans, mode, token)),
        Head::LeadingBox(_, _) => Ok(feed_leading(scans, mode, token)),
        Head::Shift => Ok(feed_shift(scans, mode, token)),
        Head::Part(_) => Ok(feed_atom(scans, token)),
        Head::Delimiting(_) => Ok(feed_delimiter(scans, token)),
        Head::Thickness(_, _) => feed_thickness(scans, token),
        Head::Accenting(prefixes) => Ok(feed_accent(scans, mode, *prefixes, token)),
        Head::Loading(_, name) => feed_loading(scans, name, token),
        Head::Shaping(_, _, _) => feed_shape(scans, token),
        Head::Opening(opener) => Ok(feed_open(scans, *opener, token)),
        Head::Aligning(_) => Ok(feed_align(scans, token)),
        Head::Preamble => feed_preamble(scans, token),
        Head::Row => Ok(feed_row(scans, row_start(token), token)),
        Head::Entry => Ok(feed_row(scans, entry_start(token), token)),
        Head::SecondShift => Ok(feed_second_shift(scans, token)),
        Head::Displayed => Ok(feed_behind_display(scans, token)),
    }
}

/// The first token of a command that nothing stands before.
fn feed_fresh(scans: &mut Scans, mode: Mode, token: &Seen) -> Fed<Command>
    ensures { (around : Mode) (head : Head) → IsBegunBy around head 1 (λ more. commands.fresh_command mode (Took token.now ∷ more)) (Took token.now ∷ []) scans.new result }
{
    match standing_in(mode, &token.meaning) {
        Standing::Stands => begin(scans, &token.meaning),
        Standing::BeginsParagraph => Fed::Done(Command::Indent(Indentation::Indented), 1),
        Standing::EndsParagraph => Fed::Done(Command::InsertPar, 1),
        Standing::EndsRun => Fed::Done(Command::End, 1),
        Standing::Refused => Fed::Wrong(TexError::NotAllowed),
    }
}

/// The first token of a command behind prefixes.
#[inline(never)]
fn feed_prefixed(scans: &mut Scans, prefixes: Prefixes, token: &Seen) -> Fed<Command>
    ensures { Begins (λ more. commands.prefixed_command prefixes (Took token.now ∷ more)) scans.new result }
{
    if token.is_space() || token.is_relax() {
        return Fed::Done(Command::Nothing, 0);
    }
    if may_be_prefixed(prefixes, &token.meaning) {
        begin(scans, &token.meaning)
    } else {
        Fed::Wrong(TexError::NoAssignment)
    }
}

/// The first token of the glue behind leaders, or what is skipped before it.
#[inline(never)]
fn feed_leading(scans: &mut Scans, mode: Mode, token: &Seen) -> Fed<Command>
    ensures { Begins (λ more. commands.leading_command mode (Took token.now ∷ more)) scans.new result }
{
    if token.is_undefined() {
        return Fed::Wrong(TexError::Undefined);
    }
    if token.is_space() || token.is_relax() {
        return Fed::Done(Command::Nothing, 0);
    }
    match leading_glue(mode, &token.meaning) {
        Some(form) => begin_shape(scans, Shaping::Glue(form)),
        None => Fed::Wrong(TexError::MissingBox),
    }
}

/// The token behind a `$` that begins a formula, which is read again; but a second `$` in a paragraph begins a displayed one.
fn feed_shift(scans: &Scans, mode: Mode, token: &Seen) -> Fed<Command>
    ensures { (around : Mode) (head : Head) → IsBegunBy around head 1 (λ more. commands.shift_command mode (Took token.now ∷ more)) (Took token.now ∷ []) scans.now result }
{
    if is_math_shift(&token.meaning) && is_unrestricted(mode) {
        Fed::Done(Command::BeginDisplay, 0)
    } else {
        Fed::Done(Command::BeginFormula, 1)
    }
}

/// The token behind a `$` that ends a displayed formula, which has to be another one.
#[inline(never)]
fn feed_second_shift(scans: &Scans, token: &Seen) -> Fed<Command>
    ensures { (mode : Mode) (head : Head) → IsBegunBy mode head 1 (λ more. commands.second_shift_command (Took token.now ∷ more)) (Took token.now ∷ []) scans.now result }
{
    if token.is_undefined() {
        return Fed::Wrong(TexError::Undefined);
    }
    if is_math_shift(&token.meaning) {
        Fed::Done(Command::EndDisplay, 0)
    } else {
        Fed::Wrong(TexError::BadFormula)
    }
}

/// The token behind a displayed formula, which is read again unless it is a space.
#[inline(never)]
fn feed_behind_display(scans: &Scans, token: &Seen) -> Fed<Command>
    ensures { (mode : Mode) (head : Head) → IsBegunBy mode head 1 (λ more. commands.displayed_command (Took token.now ∷ more)) (Took token.now ∷ []) scans.now result }
{
    if token.is_undefined() {
        return Fed::Wrong(TexError::Undefined);
    }
    if token.is_space() {
        Fed::Done(Command::GoOn, 0)
    } else {
        Fed::Done(Command::GoOn, 1)
    }
}

/// The first token of a part of an atom, or what is skipped before it.
fn feed_atom(scans: &mut Scans, token: &Seen) -> Fed<Command>
    ensures { Begins (λ more. commands.part_command (Took token.now ∷ more)) scans.new result }
{
    if token.is_undefined() {
        return Fed::Wrong(TexError::Undefined);
    }
    if token.is_space() || token.is_relax() {
        return Fed::Done(Command::Nothing, 0);
    }
    if is_part(&token.meaning) {
        begin(scans, &token.meaning)
    } else {
        Fed::Wrong(TexError::MissingBeginGroup)
    }
}

/// The first token of a delimiter, or what is skipped before it.
#[inline(never)]
fn feed_delimiter(scans: &mut Scans, token: &Seen) -> Fed<Command>
    ensures { Begins (λ more. commands.delimiter_command (Took token.now ∷ more)) scans.new result }
{
    if token.is_undefined() {
        return Fed::Wrong(TexError::Undefined);
    }
    if token.is_space() || token.is_relax() {
        return Fed::Done(Command::Nothing, 0);
    }
    if is_delimiter(&token.meaning) {
        begin(scans, &token.meaning)
    } else {
        Fed::Wrong(TexError::MissingDelimiter)
    }
}

/// The first token of the size of a fraction's line. Its only error is want of memory.
#[inline(never)]
fn feed_thickness(scans: &mut Scans, token: &Seen) -> Result<Fed<Command>, AllocError>
    ensures { (mode : Mode) (head : Head) → IfOk result (IsBegunBy mode head 1 (λ more. commands.sizing (SizeUse.Item SizeKind.Above) (Took token.now ∷ more)) (Took token.now ∷ []) scans.new) }
{
    scans.stage = Stage::Sized(SizeUse::Item(SizeKind::Above));
    scans.size.restart(false, false);
    Ok(sized(SizeUse::Item(SizeKind::Above), scans.size.feed(token)?))
}

/// The first token of what stands behind an accent, and perhaps behind prefixes.
#[inline(never)]
fn feed_accent(scans: &mut Scans, mode: Mode, prefixes: Prefixes, token: &Seen) -> Fed<Command>
    ensures { (around : Mode) (head : Head) → IsBegunBy around head 1 (λ more. commands.accent_command mode prefixes (Took token.now ∷ more)) (Took token.now ∷ []) scans.new result }
{
    if is_prefixed(prefixes) {
        feed_accent_prefixed(scans, prefixes, token)
    } else {
        feed_accented(scans, mode, token)
    }
}

/// The same behind prefixes: an assignment, but for \setbox.
fn feed_accent_prefixed(scans: &mut Scans, prefixes: Prefixes, token: &Seen) -> Fed<Command>
    ensures { Begins (λ more. commands.accent_prefixed prefixes (Took token.now ∷ more)) scans.new result }
{
    if is_setbox(&token.meaning) {
        Fed::Wrong(TexError::NotAllowed)
    } else {
        feed_prefixed(scans, prefixes, token)
    }
}

/// The character below an accent, or what stands before it, or what ends the accent and is read again.
fn feed_accented(scans: &mut Scans, mode: Mode, token: &Seen) -> Fed<Command>
    ensures { (around : Mode) (head : Head) → IsBegunBy around head 1 (λ more. commands.accent_bare mode (Took token.now ∷ more)) (Took token.now ∷ []) scans.new result }
{
    if token.is_undefined() {
        return Fed::Wrong(TexError::Undefined);
    }
    if token.is_space() || token.is_relax() {
        return Fed::Done(Command::Nothing, 0);
    }
    if token.continues_word() {
        begin(scans, &token.meaning)
    } else {
        feed_assigning(scans, mode, token)
    }
}

/// The same where the token doesn't begin a character: an assignment, but for \setbox, or what ends the accent.
fn feed_assigning(scans: &mut Scans, mode: Mode, token: &Seen) -> Fed<Command>
    ensures { (around : Mode) (head : Head) → IsBegunBy around head 1 (λ more. commands.accent_assigning mode (Took token.now ∷ more)) (Took token.now ∷ []) scans.new result }
{
    if is_setbox(&token.meaning) {
        return Fed::Wrong(TexError::NotAllowed);
    }
    if is_assignment(&token.meaning) {
        feed_fresh(scans, mode, token)
    } else {
        Fed::Done(Command::EndAccent, 1)
    }
}

/// The rule or the box that leaders repeat, or what is skipped before it.
#[inline(never)]
fn feed_leaders(scans: &mut Scans, kind: LeadersKind, token: &Seen) -> Fed<Command>
    ensures { Begins (λ more. commands.leaders_of kind (Took token.now ∷ more)) scans.new result }
{
    if token.is_undefined() {
        return Fed::Wrong(TexError::Undefined);
    }
    if token.is_space() || token.is_relax() {
        return on(scans, Stage::Leaders(kind), Want::Expanded);
    }
    match led_rule(&token.meaning) {
        Some(direction) => {
            scans.rule.begin(direction);
            on(scans, Stage::LeadersRule(kind), Want::Expanded)
        }
        None => feed_led_box(scans, kind, token),
    }
}

/// The first token of the box that leaders repeat.
#[inline(never)]
fn feed_led_box(scans: &mut Scans, kind: LeadersKind, token: &Seen) -> Fed<Command>
    ensures { Begins (λ more. commands.led_box kind (Took token.now ∷ more)) scans.new result }
{
    scans.stage = Stage::Shape;
    shaped(scans.shape.feed_needed(BoxContext::Lead(kind), token))
}

/// The first token behind a name that is being defined. Its only error is want of memory.
fn feed_defining(
    scans: &mut Scans,
    name: &Place,
    kind: Shorthand,
    token: &Seen,
) -> Result<Fed<Whole>, AllocError>
    ensures { (mode : Mode) (head : Head) (made : Command) → IfOk result (λ fed. IsBegunBy mode head 1 (λ more. commands.assigning (Assigning.Named name.now kind) (Took token.now ∷ more)) (Took token.now ∷ []) scans.new (told scans.new made fed)) }
{
    scans.stage = Stage::Assign;
    scans
        .assignment
        .begin(Assigning::Named(name.clone()?, kind));
    Ok(assigned(scans.assignment.feed(token)?))
}

/// The first token behind a name that \font defines. Its only error is want of memory.
#[inline(never)]
fn feed_loading(scans: &mut Scans, name: &Place, token: &Seen) -> Result<Fed<Command>, AllocError>
    ensures { (mode : Mode) (head : Head) → IfOk result (IsBegunBy mode head 1 (λ more. commands.loading name.now (Took token.now ∷ more)) (Took token.now ∷ []) scans.new) }
{
    scans.stage = Stage::Loading;
    Ok(loaded(scans.loading.begin(name.clone()?, token)?))
}

/// The first token of a size of \parshape. Its only error is want of memory.
#[inline(never)]
fn feed_shape(scans: &mut Scans, token: &Seen) -> Result<Fed<Command>, AllocError>
    ensures { (mode : Mode) (head : Head) → IfOk result (IsBegunBy mode head 1 (λ more. commands.sizing SizeUse.Shape (Took token.now ∷ more)) (Took token.now ∷ []) scans.new) }
{
    scans.stage = Stage::Sized(SizeUse::Shape);
    scans.size.restart(false, false);
    Ok(sized(SizeUse::Shape, scans.size.feed(token)?))
}

/// The begin-group token that is awaited, or what is skipped before it.
#[inline(never)]
fn feed_open(scans: &mut Scans, opener: Opener, token: &Seen) -> Fed<Command>
    ensures { Begins (λ more. commands.shaping (Shaping.Open opener) (Took token.now ∷ more)) scans.new result }
{
    scans.stage = Stage::Shape;
    shaped(scans.shape.feed_open(opener, token))
}

/// The first token of what the preamble of an alignment is set to, or its begin-group token.
#[inline(never)]
fn feed_align(scans: &mut Scans, token: &Seen) -> Fed<Command>
    ensures { Begins (λ more. commands.shaping Shaping.Align (Took token.now ∷ more)) scans.new result }
{
    scans.stage = Stage::Shape;
    shaped(scans.shape.feed_align(token))
}

/// A token of a preamble. Its only error is that no more owners of a name or a meaning can be counted.
#[inline(never)]
fn feed_preamble(scans: &mut Scans, token: &Seen) -> Result<Fed<Command>, AllocError>
    ensures { (mode : Mode) (head : Head) → IfOk result (IsBegunBy mode head 1 (λ more. commands.preamble_command (Took token.now ∷ more)) (Took token.now ∷ []) scans.new) }
{
    match preamble_part(&token.meaning) {
        PreamblePart::Span => Ok(Fed::Done(Command::ExpandOnce, 0)),
        PreamblePart::Tabskip => Ok(begin_place(scans, Place::Glue(GlueParameter::Tabskip))),
        PreamblePart::Token => Ok(Fed::Done(Command::Template(token.clone()?), 0)),
    }
}

/// What an entry, or what stands before a row, begins with.
#[inline(never)]
fn feed_row(scans: &mut Scans, start: RowStart, token: &Seen) -> Fed<Command>
    ensures { (mode : Mode) (head : Head) → IsBegunBy mode head 1 (λ more. commands.started start (Took token.now ∷ more)) (Took token.now ∷ []) scans.new result }
{
    if token.is_undefined() {
        return Fed::Wrong(TexError::Undefined);
    }
    match start {
        RowStart::Skipped => Fed::Done(Command::Nothing, 0),
        RowStart::NoAlign => begin_shape(scans, Shaping::Open(Opener::NoAlign)),
        RowStart::End => Fed::Done(Command::EndAlign, 0),
        RowStart::Omit => Fed::Done(Command::BeginEntry(true), 0),
        RowStart::Entry => Fed::Done(Command::BeginEntry(false), 1),
    }
}

/// The command whose first token means this.
fn begin(scans: &mut Scans, meaning: &Meaning) -> Fed<Command>
    ensures { Begins (commands.command_meant meaning.now) scans.new result }
{
    match meaning {
        Meaning::Undefined => Fed::Wrong(TexError::Undefined),
        // what is expanded is no command, and comes expanded
        Meaning::Expandable(_) | Meaning::Macro(_) => Fed::Wrong(TexError::Undefined),
        Meaning::Held => Fed::Done(Command::Nothing, 0),
        Meaning::Command(primitive) => begin_primitive(scans, *primitive),
        Meaning::Character(code, category) => character(scans, *code, *category),
        Meaning::CharacterNumber(code) => Fed::Done(Command::Character(*code), 0),
        Meaning::MathNumber(number) => { Fed::Done(Command::MathCharacter(i32::from(*number)), 0) }
        Meaning::CountRegister(number) => begin_place(scans, Place::Count(*number)),
        Meaning::DimenRegister(number) => begin_place(scans, Place::Dimen(*number)),
        Meaning::SkipRegister(number) => begin_place(scans, Place::Skip(*number)),
        Meaning::MuskipRegister(number) => begin_place(scans, Place::Muskip(*number)),
        Meaning::ToksRegister(number) => begin_place(scans, Place::Toks(*number)),
        Meaning::Font(number) => Fed::Done(selection(*number), 0),
    }
}

/// A primitive, by its family.
fn begin_primitive(scans: &mut Scans, primitive: Primitive) -> Fed<Command>
    ensures { Begins (commands.family_command primitive) scans.new result }
{
    match primitive {
        Primitive::Relax => Fed::Done(Command::Nothing, 0),
        Primitive::Par => Fed::Done(Command::EndParagraph, 0),
        Primitive::EndCsName => Fed::Wrong(TexError::BadName),
        Primitive::BeginGroup => Fed::Done(Command::BeginSemiSimple, 0),
        Primitive::EndGroup => Fed::Done(Command::EndSemiSimple, 0),
        Primitive::Prefix(prefix) => Fed::Done(Command::Prefix(prefix), 0),
        Primitive::Let => begin_assignment(scans, Assigning::Let, Want::Raw),
        Primitive::Shorthand(kind) => on(scans, Stage::Name(kind), Want::Raw),
        Primitive::Arithmetic(operation) => {
            begin_assignment(scans, Assigning::Arithmetic(operation), Want::Expanded)
        }
        Primitive::Numbered(kind) => begin_variable(scans, Variable::Numbered(kind)),
        Primitive::Integer(parameter) => begin_place(scans, Place::Integer(parameter)),
        Primitive::Dimension(parameter) => begin_place(scans, Place::Dimension(parameter)),
        Primitive::Glue(parameter) => begin_place(scans, Place::Glue(parameter)),
        Primitive::Tokens(parameter) => begin_place(scans, Place::Tokens(parameter)),
        Primitive::Sized(kind) => {
            scans.size.restart(is_in_mu(kind), false);
            on(scans, Stage::Sized(SizeUse::Item(kind)), Want::Expanded)
        }
        Primitive::Rule(kind) => {
            scans.rule.begin(kind);
            on(scans, Stage::Rule(kind), Want::Expanded)
        }
        Primitive::Box(kind) => begin_shape(scans, Shaping::Box(kind)),
        Primitive::BoxFrom(source) => begin_shape(scans, Shaping::From(source)),
        Primitive::Shipout => begin_shape(scans, Shaping::Shipout),
        Primitive::SetBox => begin_shape(scans, Shaping::SetBox),
        Primitive::Shift(kind) => begin_shape(scans, Shaping::Shift(kind)),
        Primitive::Unbox(kind) => begin_shape(scans, Shaping::Unbox(kind)),
        Primitive::Penalty => begin_shape(scans, Shaping::Penalty),
        Primitive::PrevDepth => begin_shape(scans, Shaping::PrevDepth),
        Primitive::Remove(kind) => Fed::Done(Command::Remove(kind), 0),
        Primitive::Last(_) | Primitive::Badness => Fed::Wrong(TexError::NotAllowed),
        Primitive::HorizontalGlue(form) => begin_shape(scans, Shaping::Glue(form)),
        Primitive::VerticalGlue(form) => begin_shape(scans, Shaping::Glue(form)),
        Primitive::Leaders(kind) => on(scans, Stage::Leaders(kind), Want::Expanded),
        Primitive::End => Fed::Done(Command::End, 0),
        Primitive::IgnoreSpaces => on(scans, Stage::Spaces, Want::Expanded),
        Primitive::Interaction(kind) => Fed::Done(Command::Interact(kind), 0),
        Primitive::Definition(kind) => on(scans, Stage::MacroName(kind), Want::Raw),
        Primitive::Text(purpose) => Fed::Done(Command::BeginText(purpose), 0),
        Primitive::After(kind) => on(scans, Stage::KeptToken(kind), Want::Raw),
        Primitive::FutureLet => on(scans, Stage::FutureName, Want::Raw),
        Primitive::NullFont => Fed::Done(selection(0), 0),
        Primitive::LoadFont => on(scans, Stage::FontName, Want::Raw),
        Primitive::FontDimen => begin_shape(scans, Shaping::FontDimen),
        Primitive::FontInteger(kind) => begin_shape(scans, Shaping::FontInteger(kind)),
        Primitive::Char => begin_shape(scans, Shaping::Character),
        Primitive::SpaceFactor => begin_shape(scans, Shaping::Factor),
        Primitive::PrevGraf => begin_shape(scans, Shaping::PrevGraf),
        Primitive::ParShape => begin_shape(scans, Shaping::ParShape),
        Primitive::Adjust => begin_shape(scans, Shaping::Adjust),
        Primitive::Discretionary => {
            begin_shape(scans, Shaping::Open(Opener::Break(BreakText::Before)))
        }
        Primitive::MathChar => begin_shape(scans, Shaping::MathCharacter),
        Primitive::Atom(class) => Fed::Done(Command::BeginAtom(class), 0),
        Primitive::Center => begin_shape(scans, Shaping::Center),
        Primitive::Limits(kind) => Fed::Done(Command::SetLimits(kind), 0),
        Primitive::Style(style) => Fed::Done(Command::SetStyle(style), 0),
        Primitive::Choice => Fed::Done(Command::BeginChoice, 0),
        Primitive::Fraction(kind) => Fed::Done(Command::BeginFraction(kind), 0),
        Primitive::Delimited(what) => Fed::Done(Command::BeginDelimited(what), 0),
        Primitive::Coded(kind) => begin_shape(scans, Shaping::Coded(kind)),
        Primitive::Accent => begin_shape(scans, Shaping::Accent),
        Primitive::MathGlue => begin_shape(scans, Shaping::MathGlue),
        Primitive::Nonscript => Fed::Done(Command::Nonscript, 0),
        Primitive::FamilyFont(size) => begin_shape(scans, Shaping::Family(size)),
        Primitive::Insert => begin_shape(scans, Shaping::Insert),
        Primitive::Align => Fed::Done(Command::Align, 0),
        Primitive::AlignWord(_) => Fed::Wrong(TexError::MisplacedAlignment),
        Primitive::EquationNumber(side) => Fed::Done(Command::BeginNumber(side), 0),
        Primitive::DeadCycles => begin_shape(scans, Shaping::DeadCycles),
        Primitive::Page(quantity) => begin_shape(scans, Shaping::Page(quantity)),
        Primitive::ItalicCorrection => Fed::Done(Command::ItalicCorrection, 0),
        Primitive::ControlSpace => Fed::Done(Command::ControlSpace, 0),
        Primitive::Indent(how) => Fed::Done(Command::Indent(how), 0),
        Primitive::DiscretionaryHyphen => Fed::Done(Command::DiscretionaryHyphen, 0),
    }
}

/// The command goes on with this part, whose next token is wanted so.
fn on(scans: &mut Scans, stage: Stage, want: Want) -> Fed<Command>
    ensures scans { scans.new ≡ record scans.old { stage = stage } }
    ensures answer { result ≡ Fed.More want }
{
    scans.stage = stage;
    Fed::More(want)
}

/// What a box, or what is done with one, takes, and its kin.
#[inline(never)]
fn begin_shape(scans: &mut Scans, shaping: Shaping) -> Fed<Command>
    ensures { Begins (commands.shaping shaping) scans.new result }
{
    scans.stage = Stage::Shape;
    shaped(scans.shape.begin(shaping))
}

/// What gives the place a value.
fn begin_place(scans: &mut Scans, place: Place) -> Fed<Command>
    ensures { Begins (commands.assigning (Assigning.Variable (Variable.Standing place))) scans.new result }
{
    begin_variable(scans, Variable::Standing(place))
}

/// What gives a variable a value.
#[inline(never)]
fn begin_variable(scans: &mut Scans, variable: Variable) -> Fed<Command>
    ensures { Begins (commands.assigning (Assigning.Variable variable)) scans.new result }
{
    Fed::More(start_variable(scans, variable))
}

/// An assignment, whose next token is wanted so.
#[inline(never)]
fn begin_assignment(scans: &mut Scans, begun: Assigning, want: Want) -> Fed<Command>
    requires { assignment begun [] ≡ More want }
    ensures { Begins (commands.assigning begun) scans.new result }
{
    scans.assignment.begin(begun);
    on(scans, Stage::Assign, want)
}

/// A space that is skipped, or what stands behind such: it is read again, unless \noexpand holds it, so that it does nothing.
fn feed_space(scans: &Scans, token: &Seen) -> Fed<Command>
    requires { scans.now.stage ≡ Stage.Spaces }
    ensures { (mode : Mode) (head : Head) → IsBegunBy mode head 1 (λ more. commands.skipping (Took token.now ∷ more)) (Took token.now ∷ []) scans.now result }
{
    if token.is_undefined() {
        return Fed::Wrong(TexError::Undefined);
    }
    if token.is_space() {
        return Fed::More(Want::Expanded);
    }
    if is_held(&token.meaning) {
        return Fed::Done(Command::Nothing, 0);
    }
    Fed::Done(Command::Nothing, 1)
}
