//! What becomes of a command by what the scan of its last part answers.
ghost use Rattle.std.specs.Prelude.{◌≡◌};
ghost use Rattle.tx_scan.specs.DimensionRests.{IsSize};
ghost use Rattle.tx_scan.specs.Mapped.{mapped};
ghost use Rattle.tx_command.specs.Commands as commands;
ghost use Rattle.tx_command.specs.Rests.{told};

use tx_command::{Command, CommandBuffer, Scans, SizeUse, Whole};
use tx_node::Rule;
use tx_prim::{DefinitionKind, LeadersKind, RuleKind, Shorthand};
use tx_scan::Measure;
use tx_seen::{Fed, Place};
use tx_shape::{BoxContext, BoxRead, FontAsked, Shaped};

/// An assignment, which its scan has made.
#[inline(always)]
pub fn assigned(fed: Fed<()>) -> Fed<Whole>
    ensures { result ≡ mapped (λ _. Whole.Assignment) fed }
{
    match fed {
        Fed::More(want) => Fed::More(want),
        Fed::Need(kind) => Fed::Need(kind),
        Fed::Done(_, back) => Fed::Done(Whole::Assignment, back),
        Fed::Wrong(error) => Fed::Wrong(error),
    }
}

/// A command that is whole is put beside.
#[inline(always)]
pub fn put_whole(fed: Fed<Command>, made: &mut CommandBuffer) -> Fed<Whole>
    ensures answer { result ≡ mapped (λ _. Whole.Command) fed }
    ensures made { (scans : Scans) → told scans made.new result ≡ fed }
{
    match fed {
        Fed::More(want) => Fed::More(want),
        Fed::Need(kind) => Fed::Need(kind),
        Fed::Done(command, back) => {
            made.put(command);
            Fed::Done(Whole::Command, back)
        }
        Fed::Wrong(error) => Fed::Wrong(error),
    }
}

/// The name that is defined.
pub fn defined(shorthand: Shorthand, fed: Fed<Place>) -> Fed<Command>
    ensures { result ≡ mapped (λ name. Command.Define name shorthand) fed }
{
    match fed {
        Fed::More(want) => Fed::More(want),
        Fed::Need(kind) => Fed::Need(kind),
        Fed::Done(name, back) => Fed::Done(Command::Define(name, shorthand), back),
        Fed::Wrong(error) => Fed::Wrong(error),
    }
}

/// The name that \def or its kin defines.
pub fn macro_defined(kind: DefinitionKind, fed: Fed<Place>) -> Fed<Command>
    ensures { result ≡ mapped (λ name. Command.DefineMacro name kind) fed }
{
    match fed {
        Fed::More(want) => Fed::More(want),
        Fed::Need(kind) => Fed::Need(kind),
        Fed::Done(name, back) => Fed::Done(Command::DefineMacro(name, kind), back),
        Fed::Wrong(error) => Fed::Wrong(error),
    }
}

/// The name that \futurelet defines.
pub fn future_defined(fed: Fed<Place>) -> Fed<Command>
    ensures { result ≡ mapped Command.DefineFuture fed }
{
    match fed {
        Fed::More(want) => Fed::More(want),
        Fed::Need(kind) => Fed::Need(kind),
        Fed::Done(name, back) => Fed::Done(Command::DefineFuture(name), back),
        Fed::Wrong(error) => Fed::Wrong(error),
    }
}

/// The name that \font defines.
pub fn font_defined(fed: Fed<Place>) -> Fed<Command>
    ensures { result ≡ mapped Command.DefineFont fed }
{
    match fed {
        Fed::More(want) => Fed::More(want),
        Fed::Need(kind) => Fed::Need(kind),
        Fed::Done(name, back) => Fed::Done(Command::DefineFont(name), back),
        Fed::Wrong(error) => Fed::Wrong(error),
    }
}

/// What stands behind that name.
pub fn loaded(fed: Fed<FontAsked>) -> Fed<Command>
    ensures { result ≡ mapped commands.load_of fed }
{
    match fed {
        Fed::More(want) => Fed::More(want),
        Fed::Need(kind) => Fed::Need(kind),
        Fed::Done(asked, back) => {
            let FontAsked { place, name, size } = asked;
            Fed::Done(Command::LoadFont(place, name, size), back)
        }
        Fed::Wrong(error) => Fed::Wrong(error),
    }
}

/// A size that is for this.
pub fn sized(size_use: SizeUse, fed: Fed<Measure>) -> Fed<Command>
    requires { IsSize fed }
    ensures { result ≡ mapped (λ measure. Command.Sized size_use measure.size) fed }
{
    match fed {
        Fed::More(want) => Fed::More(want),
        Fed::Need(kind) => Fed::Need(kind),
        Fed::Done(measure, back) => Fed::Done(Command::Sized(size_use, measure.size as i32), back),
        Fed::Wrong(error) => Fed::Wrong(error),
    }
}

/// A rule.
pub fn ruled(rule_kind: RuleKind, fed: Fed<Rule>) -> Fed<Command>
    ensures { result ≡ mapped (λ rule. Command.Rule rule_kind rule) fed }
{
    match fed {
        Fed::More(want) => Fed::More(want),
        Fed::Need(kind) => Fed::Need(kind),
        Fed::Done(rule, back) => Fed::Done(Command::Rule(rule_kind, rule), back),
        Fed::Wrong(error) => Fed::Wrong(error),
    }
}

/// The rule that leaders repeat.
pub fn led(leaders_kind: LeadersKind, fed: Fed<Rule>) -> Fed<Command>
    ensures { result ≡ mapped (λ rule. Command.BeginLeaders leaders_kind rule) fed }
{
    match fed {
        Fed::More(want) => Fed::More(want),
        Fed::Need(kind) => Fed::Need(kind),
        Fed::Done(rule, back) => Fed::Done(Command::BeginLeaders(leaders_kind, rule), back),
        Fed::Wrong(error) => Fed::Wrong(error),
    }
}

/// The command of a box that is read.
fn box_command(read: BoxRead, context: BoxContext) -> Command
    ensures { result ≡ commands.command_of (Shaped.Box read context) }
{
    match read {
        BoxRead::Begin(kind, goal) => Command::BeginBox(kind, goal, context),
        BoxRead::Use(register) => Command::UseBox(register, context),
        BoxRead::Copy(register) => Command::CopyBox(register, context),
        BoxRead::Last => Command::LastBox(context),
        BoxRead::Split(register, size) => Command::SplitBox(register, size, context),
    }
}

/// The command of what a box, or what is done with one, and its kin have come to.
#[inline(never)]
fn command_of(shaped: Shaped) -> Command
    ensures { result ≡ commands.command_of shaped }
{
    match shaped {
        Shaped::Box(read, context) => box_command(read, context),
        Shaped::Unbox(kind, register) => Command::Unbox(kind, register),
        Shaped::Penalize(penalty) => Command::Penalize(penalty),
        Shaped::SetDepth(depth) => Command::SetDepth(depth),
        Shaped::Skip(glue) => Command::Skip(glue),
        Shaped::Character(code) => Command::Character(code),
        Shaped::MathCharacter(number) => Command::MathCharacter(number),
        Shaped::Coded(kind, number) => Command::Coded(kind, number),
        Shaped::Accent(code) => Command::BeginAccent(code),
        Shaped::MathSkip(glue) => Command::MathSkip(glue),
        Shaped::SetFactor(number) => Command::SetFactor(number),
        Shaped::SetPrevGraf(number) => Command::SetPrevGraf(number),
        Shaped::BeginShape(lines) => Command::BeginShape(lines),
        Shaped::Open(opener) => Command::Open(opener),
        Shaped::BeginAlign(goal) => Command::BeginAlign(goal),
        Shaped::SetDeadCycles(number) => Command::SetDeadCycles(number),
        Shaped::SetPage(quantity, value) => Command::SetPage(quantity, value),
        Shaped::SetFontDimen(font, number, size) => Command::SetFontDimen(font, number, size),
        Shaped::SetFontInteger(kind, font, number) => {
            Command::SetFontInteger(kind, font, number)
        }
        Shaped::SetFamily(size, family, font) => Command::SetFamily(size, family, font),
    }
}

/// What a box, or what is done with one, takes, and its kin.
pub fn shaped(fed: Fed<Shaped>) -> Fed<Command>
    ensures { result ≡ mapped commands.command_of fed }
{
    match fed {
        Fed::More(want) => Fed::More(want),
        Fed::Need(kind) => Fed::Need(kind),
        Fed::Done(shaped, back) => Fed::Done(command_of(shaped), back),
        Fed::Wrong(error) => Fed::Wrong(error),
    }
}

/// The same, put beside where it is whole.
#[inline(always)]
pub fn put_shaped(fed: Fed<Shaped>, made: &mut CommandBuffer) -> Fed<Whole>
    ensures answer { result ≡ mapped (λ _. Whole.Command) fed }
    ensures made { (scans : Scans) → told scans made.new result ≡ mapped commands.command_of fed }
{
    match fed {
        Fed::More(want) => Fed::More(want),
        Fed::Need(kind) => Fed::Need(kind),
        Fed::Done(shaped, back) => {
            made.put(command_of(shaped));
            Fed::Done(Whole::Command, back)
        }
        Fed::Wrong(error) => Fed::Wrong(error),
    }
}
