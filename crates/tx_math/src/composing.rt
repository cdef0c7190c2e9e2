//! Characters that are composed (TeX: The Program, sections 752 and 753).
ghost use Rattle.std.specs.Prelude.{◌≡◌, ◌≤◌, ◌∷◌, ◌++◌, [], length, IfOk, OnOk};
ghost use Rattle.tx_ligkern.specs.Composing.{keeps_current as keeps_first, keeps_next as keeps_second, passes as passes_over};
ghost use Rattle.tx_tfm.specs.Rewriting.{kind_of as kind_in};
ghost use Rattle.tx_mlist.specs.declared.kinds.AtomKind.TheVariants as kind;
ghost use Rattle.tx_mlist.specs.Noads.{math_of};
ghost use Rattle.tx_math.specs.Composing as spec;
ghost use Rattle.tx_math.specs.Converting.{IsStep, entries_in, entry_of};
ghost use Rattle.tx_math.specs.Setters.{math_in};

use crate::boxes::kern;
use crate::entry::Entry;
use crate::kinds::{awaits_operand, is_bin};
use crate::laying::{entry_in, is_noad};
use crate::pairs::{command_in, kern_in, pair_in};
use crate::setter::Setter;
use crate::stacks::{stacked, unstack};
use crate::styles::size_of;
use std::alloc::{AllocError, Global};
use tx_list::{Items, Stack};
use tx_mlist::{Atom, AtomKind, Field, Limits, MathCharacter, Noad};
use tx_tfm::Word;

/// An entry that may have become an Ord, by the kind of the atom before it.
fn behind_atom(before: AtomKind, entry: Entry) -> Entry
    ensures { entry_of result ≡ spec.behind_atom before (entry_of entry) }
{
    let mut entry = entry;
    if awaits_operand(before) && is_bin(entry.kind) {
        entry.kind = AtomKind::Ord;
    }
    entry
}

/// The kind of a ligature command, 0 for one that isn't known.
fn kind_of(command: Word) -> u8
    ensures { result ≡ kind_in command }
{
    let op = command.c;
    if op < 4 || (4 < op && op < 8) || op == 11 {
        op
    } else {
        0
    }
}

/// Whether a ligature command keeps the first character of a pair.
fn keeps_current(command: Word) -> bool
    ensures { result ≡ keeps_first command }
{
    kind_of(command) / 2 % 2 == 1
}

/// Whether it keeps the second.
fn keeps_next(command: Word) -> bool
    ensures { result ≡ keeps_second command }
{
    kind_of(command) % 2 == 1
}

/// How many entries it passes over.
fn passes(command: Word) -> u8
    ensures { result ≡ passes_over command }
{
    kind_of(command) / 4
}

/// The ligature of a command in the family of a character, with the scripts of a noad. Its only error is want of memory.
fn ligature(
    alloc: Global,
    command: Word,
    a: MathCharacter,
    scripted: &Noad,
) -> Result<Noad, AllocError>
    ensures { IfOk result (λ noad. math_of noad ≡ spec.ligature command a (math_of scripted.now)) }
{
    let character = MathCharacter {
        family: a.family,
        code: command.d,
    };
    match scripted {
        Noad::Atom(atom) => Noad::from_atom(
            alloc,
            Atom {
                kind: AtomKind::Ord,
                nucleus: Field::Character(character),
                superscript: atom.superscript.clone()?,
                subscript: atom.subscript.clone()?,
            },
        ),
        Noad::Fraction(_) | Noad::Choice(_) | Noad::Plain(_) | Noad::Node(_) => Noad::from_atom(
            alloc,
            Atom {
                kind: AtomKind::Ord,
                nucleus: Field::Character(character),
                superscript: Field::Empty,
                subscript: Field::Empty,
            },
        ),
    }
}

/// An entry that becomes the ligature of a command, with the scripts of a noad. Its only error is want of memory.
fn ligated_as(
    alloc: Global,
    command: Word,
    a: MathCharacter,
    entry: &Entry,
    scripted: &Noad,
) -> Result<Entry, AllocError>
    ensures { IfOk result (λ made. entry_of made ≡ record (entry_of entry.now) { item = spec.ligature command a (math_of scripted.now) }) }
{
    Ok(Entry {
        style: entry.style,
        kind: entry.kind,
        joined: entry.joined,
        noad: ligature(alloc, command, a, scripted)?,
    })
}

/// The ligature that is put between both of a pair. Its only error is want of memory.
fn put_between(
    alloc: Global,
    command: Word,
    a: MathCharacter,
    entry: &Entry,
) -> Result<Entry, AllocError>
    ensures { IfOk result (λ made. entry_of made ≡ spec.put_between command a (entry_of entry.now)) }
{
    Ok(Entry {
        style: entry.style,
        kind: AtomKind::Ord,
        joined: passes(command) == 2,
        noad: ligature(alloc, command, a, &entry.noad)?,
    })
}

/// What a ligature command makes of a pair. Its only error is want of memory.
fn made_of(
    alloc: Global,
    command: Word,
    a: MathCharacter,
    entry: &Entry,
    next: &Entry,
) -> Result<Entry, AllocError>
    ensures { IfOk result (λ made. entry_of made ≡ spec.made_of command a (entry_of entry.now) (entry_of next.now)) }
{
    if keeps_current(command) {
        if keeps_next(command) {
            return put_between(alloc, command, a, entry);
        }
        return ligated_as(alloc, command, a, next, &next.noad);
    }
    if keeps_next(command) {
        return ligated_as(alloc, command, a, entry, &entry.noad);
    }
    ligated_as(alloc, command, a, entry, &next.noad)
}

/// An entry comes before the rest where it is kept. Its only error is want of memory.
fn keep(kept: bool, entry: Entry, rest: &mut Stack<Entry>) -> Result<(), AllocError>
    ensures { OnOk result (entries_in rest.new ≡ spec.before_if kept (entry_of entry) (entries_in rest.old)) }
{
    if kept { rest.push(entry) } else { Ok(()) }
}

/// What stands in place of a pair behind a ligature command comes before the rest. After want of memory, its only error, the rest
/// may only be dropped.
fn put_in_place(
    alloc: Global,
    command: Word,
    a: MathCharacter,
    entry: Entry,
    next: Entry,
    rest: &mut Stack<Entry>,
) -> Result<(), AllocError>
    ensures { OnOk result (entries_in rest.new ≡ spec.in_place command a (entry_of entry) (entry_of next) (entries_in rest.old)) }
{
    let made = made_of(alloc, command, a, &entry, &next)?;
    // (each is put there whatever comes of the others, so that none is dropped beside a `?`)
    let behind = keep(keeps_next(command), next, rest);
    let between = rest.push(made);
    let first = keep(keeps_current(command), entry, rest);
    behind?;
    between?;
    first
}

/// The kind of the last atom behind an entry.
fn kind_behind(before: AtomKind, entry: &Entry) -> AtomKind
    ensures { result ≡ spec.kind_behind before (entry_of entry.now) }
{
    if is_noad(&entry.noad) {
        entry.kind
    } else {
        before
    }
}

/// The cursor goes past an entry: the kind of the atom before it then. Its only error is want of memory.
fn pass_over(
    before: AtomKind,
    entry: Entry,
    rest: &Stack<Entry>,
    done: &mut Items<Entry>,
) -> Result<AtomKind, AllocError>
    ensures { IfOk result (λ kind. IsStep (spec.passed_over before (entry_of entry) (entries_in rest.now)) kind (entries_in done.old) (entries_in done.new) (entries_in rest.now)) }
{
    let behind = kind_behind(before, &entry);
    done.push(entry)?;
    Ok(behind)
}

/// The cursor goes past a character behind which another one of its family stands. Its only error is want of memory.
fn join_over(
    entry: Entry,
    rest: &Stack<Entry>,
    done: &mut Items<Entry>,
) -> Result<AtomKind, AllocError>
    ensures { IfOk result (λ kind. IsStep (spec.joined_over (entry_of entry) (entries_in rest.now)) kind (entries_in done.old) (entries_in done.new) (entries_in rest.now)) }
{
    let mut entry = entry;
    entry.joined = true;
    done.push(entry)?;
    Ok(AtomKind::Ord)
}

/// The cursor goes past a character and a kern of so many sp. Its only error is want of memory.
fn kern_over(
    size: i32,
    first: Entry,
    rest: &Stack<Entry>,
    done: &mut Items<Entry>,
) -> Result<AtomKind, AllocError>
    ensures { IfOk result (λ kind. IsStep (spec.kerned size (entry_of first) (entries_in rest.now)) kind (entries_in done.old) (entries_in done.new) (entries_in rest.now)) }
{
    let style = first.style;
    let behind = join_over(first, rest, done)?;
    done.push(entry_in(style, Noad::Node(kern(size))))?;
    Ok(behind)
}

/// The cursor stays behind a ligature command, or goes past the first entry. Its only error is want of memory.
fn move_on(
    command: Word,
    before: AtomKind,
    rest: &mut Stack<Entry>,
    done: &mut Items<Entry>,
) -> Result<AtomKind, AllocError>
    ensures { IfOk result (λ kind. IsStep (spec.moved_on command before (entries_in rest.old)) kind (entries_in done.old) (entries_in done.new) (entries_in rest.new)) }
{
    if passes(command) == 0 {
        return Ok(before);
    }
    match rest.pop() {
        None => Ok(before),
        Some(first) => join_over(first, rest, done),
    }
}

/// A step by a ligature command. Its only error is want of memory.
fn ligate(
    alloc: Global,
    command: Word,
    before: AtomKind,
    a: MathCharacter,
    entry: Entry,
    rest: &mut Stack<Entry>,
    done: &mut Items<Entry>,
) -> Result<AtomKind, AllocError>
    ensures { IfOk result (λ kind. IsStep (spec.ligated command before a (entry_of entry) (entries_in rest.old)) kind (entries_in done.old) (entries_in done.new) (entries_in rest.new)) }
{
    match rest.pop() {
        None => join_over(entry, rest, done),
        Some(next) => {
            put_in_place(alloc, command, a, entry, next, rest)?;
            move_on(command, before, rest, done)
        }
    }
}

/// How many steps are made at most.
fn most_steps(count: usize) -> u64
    ensures { result ≡ spec.steps_for count }
{
    (count as u64).saturating_mul(2001).saturating_add(1)
}

impl Setter<'_> {
    /// A step at a pair of characters of the font of a number. Its only error is want of memory.
    fn step_in(
        &self,
        alloc: Global,
        font: u8,
        before: AtomKind,
        pair: (MathCharacter, MathCharacter),
        entry: Entry,
        rest: &mut Stack<Entry>,
        done: &mut Items<Entry>,
    ) -> Result<AtomKind, AllocError>
        ensures { IfOk result (λ kind. IsStep (spec.in_font (math_in self.now) font before pair (entry_of entry) (entries_in rest.old)) kind (entries_in done.old) (entries_in done.new) (entries_in rest.new)) }
    {
        match command_in(self.fonts, font, pair.0.code, pair.1.code) {
            None => join_over(entry, rest, done),
            Some(command) => {
                if command.c >= 128 {
                    kern_over(kern_in(self.fonts, font, command), entry, rest, done)
                } else {
                    ligate(alloc, command, before, pair.0, entry, rest, done)
                }
            }
        }
    }

    /// One step, by the kind of the atom before the cursor: that of the one before it then. After want of memory, its only error,
    /// what is lent may only be dropped.
    #[tactic(auto, unfolding(crate::specs::Composing::step))]
    fn step(
        &self,
        alloc: Global,
        before: AtomKind,
        entry: Entry,
        rest: &mut Stack<Entry>,
        done: &mut Items<Entry>,
    ) -> Result<AtomKind, AllocError>
        ensures { IfOk result (λ kind. IsStep (spec.step (math_in self.now) before (entry_of entry) (entries_in rest.old)) kind (entries_in done.old) (entries_in done.new) (entries_in rest.new)) }
    {
        let entry = behind_atom(before, entry);
        match pair_in(&entry, rest) {
            None => pass_over(before, entry, rest, done),
            Some(pair) => {
                let font = self.family_font(size_of(entry.style), pair.0.family);
                self.step_in(alloc, font, before, pair, entry, rest, done)
            }
        }
    }

    /// Makes so many steps at most. Its only error is want of memory.
    #[tactic(auto, using(crate::proofs::Loops::composed_step, crate::proofs::Loops::composed_none, crate::proofs::Loops::composed_over))]
    fn make_steps(
        &self,
        alloc: Global,
        most: u64,
        rest: &mut Stack<Entry>,
        done: &mut Items<Entry>,
    ) -> Result<(), AllocError>
        requires { done.old ≡ [] }
        ensures { OnOk result (entries_in done.new ++ entries_in rest.new ≡ spec.composed_within most (math_in self.now) spec.at_beginning (entries_in rest.old)) }
    {
        let mut before = AtomKind::Op(Limits::Displayed);
        let mut left = most;
        while left > 0 {
            let Some(entry) = rest.pop() else {
                return Ok(());
            };
            before = self.step(alloc, before, entry, rest, done)?;
            left -= 1;
        }
        Ok(())
    }

    /// The entries, composed. Its only error is want of memory.
    #[tactic(auto, unfolding(crate::specs::Composing::composed, crate::specs::Composing::most_steps))]
    pub fn composed(&self, alloc: Global, entries: Items<Entry>) -> Result<Items<Entry>, AllocError>
        ensures { IfOk result (λ done. entries_in done ≡ spec.composed (math_in self.now) (entries_in entries)) }
    {
        let most = most_steps(entries.len());
        let mut rest = stacked(alloc, entries)?;
        let mut done = Items::new(alloc);
        self.make_steps(alloc, most, &mut rest, &mut done)?;
        unstack(rest, &mut done)?;
        Ok(done)
    }
}
