//! Where an entry of an alignment ends, and the parts of its column.
ghost use Rattle.std.specs.Prelude.{◌≡◌, IfOk};
ghost use Rattle.tx_expand.specs.Values.{lent};
ghost use Rattle.tx_pending.specs.declared.next.Next.TheVariants as Next;
ghost use Rattle.tx_prim.specs.declared.modes.Mode.{Mode as Any_mode};
ghost use Rattle.tx_expand.specs.Expanding.{reader_of, world_of};
ghost use Rattle.tx_expand.specs.Turns as turns;
ghost use Rattle.tx_expand.specs.Turns.{IsTurned};

use crate::innermost::is_scanning;
use crate::known::Known;
use crate::state::Expander;
use crate::types::{Expanded, Wanted};
use std::alloc::{AllocError, Global};
use tx_char::{Cat, Token};
use tx_pending::{ColumnPart, Pending};
use tx_prim::{AlignWord, EntryEnd, Primitive};
use tx_seen::{Meaning, Seen, TexError, Want};

impl Expander {
    /// A part of a column is read to its end: the u-part's is where the entry begins. Its only error is want of memory.
    #[inline(never)]
    pub(crate) fn part_ends(
        &mut self,
        alloc: Global,
        input: &mut Pending,
        known: &Known,
        wanted: Wanted,
        part: ColumnPart,
    ) -> Result<Expanded, AllocError>
        ensures { (any : Any_mode) → IfOk result (IsTurned (turns.front_read (world_of (lent known.now) any) wanted (reader_of self.old input.old) (Next.PartEnd part)) (reader_of self.new input.new)) }
    {
        match part {
            ColumnPart::U => Ok(Expanded::Went),
            ColumnPart::V => self.end_part(alloc, input, known, wanted),
        }
    }

    /// Whether the caller only looks at the next token.
    fn peeks(&self, wanted: Wanted) -> bool
        ensures { result ≡ turns.peeks_at wanted self.now.begun }
    {
        match self.begun.first() {
            None => wanted.peeks,
            Some(_) => false,
        }
    }

    /// A v-part is read to its end. Its only error is want of memory.
    fn end_part(
        &mut self,
        alloc: Global,
        input: &mut Pending,
        known: &Known,
        wanted: Wanted,
    ) -> Result<Expanded, AllocError>
        ensures { (any : Any_mode) → IfOk result (IsTurned (turns.part_ended (world_of (lent known.now) any) wanted (reader_of self.old input.old)) (reader_of self.new input.new)) }
    {
        if let Some(error) = self.ended(wanted.text) {
            return Ok(Expanded::Wrong(error));
        }
        match self.want(wanted) {
            Want::Expanded => self.end_open(alloc, input, known),
            Want::Raw => {
                if self.peeks(wanted) {
                    return self.end_open(alloc, input, known);
                }
                Ok(Expanded::Wrong(TexError::MisplacedAlignment))
            }
        }
    }

    /// What is open at the end of a v-part goes on up to it, or nothing is. Its only error is want of memory.
    fn end_open(
        &mut self,
        alloc: Global,
        input: &mut Pending,
        known: &Known,
    ) -> Result<Expanded, AllocError>
        ensures { (any : Any_mode) → IfOk result (IsTurned (turns.ends_part (world_of (lent known.now) any) (reader_of self.old input.old) self.old.begun) (reader_of self.new input.new)) }
    {
        if self.begun.is_empty() {
            return Ok(Expanded::PartEnded);
        }
        input.push_part_end(ColumnPart::V)?;
        if is_scanning(&self.begun) {
            return self.scan_on(alloc, input, known, part_end());
        }
        self.went(input)
    }
}

/// What stands for the end of a v-part where something is read that goes on up to it: neither expanded nor skipped, as \cr is, it
/// ends numbers, names and keywords.
pub fn part_end() -> Seen
    ensures { result ≡ turns.frozen }
{
    Seen {
        token: Token::FrozenRelax,
        meaning: Meaning::Command(Primitive::AlignWord(AlignWord::Cr)),
    }
}

/// What a token that means this ends, where it is read from this input.
#[inline(always)]
pub(crate) fn entry_end_in(input: &Pending, meaning: &Meaning) -> Option<EntryEnd>
    ensures { result ≡ turns.entry_end_in input.now meaning.now }
{
    if !input.is_at_entry() {
        return None;
    }
    entry_end(meaning)
}

/// What a token that means this ends, where it ends an entry of an alignment.
#[inline(never)]
pub fn entry_end(meaning: &Meaning) -> Option<EntryEnd>
    ensures { result ≡ turns.entry_end meaning.now }
{
    match meaning {
        Meaning::Character(_, Cat::AlignmentTab) => Some(EntryEnd::Tab),
        Meaning::Command(Primitive::AlignWord(word)) => word_ends(*word),
        _ => None,
    }
}

/// What a word of alignments ends.
fn word_ends(word: AlignWord) -> Option<EntryEnd>
    ensures { result ≡ turns.word_ends word }
{
    match word {
        AlignWord::Cr => Some(EntryEnd::Cr),
        AlignWord::CrCr => Some(EntryEnd::CrCr),
        AlignWord::Span => Some(EntryEnd::Span),
        AlignWord::Omit | AlignWord::NoAlign => None,
    }
}
