//! The movements of a page, written by the registers w, x, y and z: one pass over its plain commands.
ghost use Rattle.std.specs.Prelude.{◌≡◌, ◌≤◌, ◌<◌, ◌-◌, ◌++◌, ◌||◌, [], get_or, length, nat_lt, true, IfOk, OnOk};
ghost use Rattle.tx_dvi.specs.Meaning.{operands, is_font_number as is_font};
ghost use Rattle.tx_ship.specs.Registers as spec;

use crate::amounts::{Amounts, Pair};
use std::alloc::{AllocError, Global};
use std::marker::Model;
use tx_bytes::Bytes;
use tx_dvi::{is_font_number, opcode_of, operands_of, signed_of};
use tx_list::{Items, Stack};

/// The shortest movements and the longest ones.
const RIGHT1: u8 = 143;

const RIGHT4: u8 = 146;

const DOWN1: u8 = 157;

const DOWN4: u8 = 160;

const PUSH: u8 = 141;

const POP: u8 = 142;

/// Appends a movement by an amount, by the register that holds it, or else so that it sets the older one. Its plain command has
/// this number, and these bytes behind it; the shortest of its family is given. Answers the registers behind it.
fn put_movement(
    made: &mut Bytes,
    shortest: u8,
    opcode: u8,
    bytes: &[u8],
    amount: i64,
    pair: Pair,
) -> Result<Pair, AllocError>
    requires family { shortest ≤ 157 }
    requires number { opcode ≤ 160 }
    ensures command { OnOk result (made.new ≡ made.old ++ (spec.by_register shortest opcode bytes.now amount pair).0) }
    ensures next { IfOk result (λ next. next ≡ (spec.by_register shortest opcode bytes.now amount pair).1) }
{
    if amount == pair.first {
        made.push(shortest + 4)?;
        return Ok(Pair {
            first: pair.first,
            second: pair.second,
            is_first_newer: true,
        });
    }
    if amount == pair.second {
        made.push(shortest + 9)?;
        return Ok(Pair {
            first: pair.first,
            second: pair.second,
            is_first_newer: false,
        });
    }
    put_setting(made, opcode, bytes, amount, pair)
}

/// Appends a movement that sets the older register. Answers the registers behind it.
fn put_setting(
    made: &mut Bytes,
    opcode: u8,
    bytes: &[u8],
    amount: i64,
    pair: Pair,
) -> Result<Pair, AllocError>
    requires { opcode ≤ 160 }
    ensures command { OnOk result (made.new ≡ made.old ++ (spec.by_setting opcode bytes.now amount pair).0) }
    ensures next { IfOk result (λ next. next ≡ (spec.by_setting opcode bytes.now amount pair).1) }
{
    if pair.is_first_newer {
        made.push(opcode + 10)?;
        made.append(bytes)?;
        return Ok(Pair {
            first: pair.first,
            second: amount,
            is_first_newer: false,
        });
    }
    made.push(opcode + 5)?;
    made.append(bytes)?;
    Ok(Pair {
        first: amount,
        second: pair.second,
        is_first_newer: true,
    })
}

/// Whether a byte is a command by itself that sets a character or chooses a font.
fn is_single(byte: u8) -> bool
    ensures { result ≡ (nat_lt byte 128 || is_font byte) }
{
    byte < 128 || is_font_number(byte)
}

/// What is written of the plain commands that were read. Contracts see the record `Writer`.
#[derive(Drop)]
pub struct PageWriter {
    amounts: Amounts,
    pushed: Stack<Amounts>,
    begun: Items<u8>,
    made: Bytes,
}

impl Model for PageWriter {
    ghost use Rattle.tx_ship.specs.Registers.{Writer};

    ghost Value = { Writer };

    ghost view = { λ w. record { amounts = w.amounts; pushed = w.pushed; begun = w.begun; made = w.made } };
}

impl PageWriter {
    /// Nothing is written; takes no memory.
    fn new(alloc: Global) -> PageWriter
        ensures { result ≡ spec.page_writer }
    {
        let unused = Pair {
            first: 0,
            second: 0,
            is_first_newer: false,
        };
        PageWriter {
            amounts: Amounts {
                across: unused,
                down: unused,
            },
            pushed: Stack::new(alloc),
            begun: Items::new(alloc),
            made: Bytes::new(alloc),
        }
    }

    /// The bytes that are begun are written as they stand.
    fn copy(&mut self) -> Result<(), AllocError>
        ensures { OnOk result (self.new ≡ spec.copied self.old) }
    {
        self.made.append(self.begun.as_slice())?;
        self.begun.clear();
        Ok(())
    }

    /// Push: the registers are kept.
    fn push(&mut self) -> Result<(), AllocError>
        ensures { OnOk result (self.new ≡ spec.copied (spec.pushing self.old)) }
    {
        self.pushed.push(self.amounts)?;
        self.copy()
    }

    /// The registers that were kept last are there again.
    fn take_back(&mut self)
        ensures { self.new ≡ spec.popping self.old.pushed self.old }
    {
        if let Some(last) = self.pushed.pop() {
            self.amounts = last;
        }
    }

    /// Pop: the registers that were kept last are there again.
    fn pop(&mut self) -> Result<(), AllocError>
        ensures { OnOk result (self.new ≡ spec.copied (spec.popping self.old.pushed self.old)) }
    {
        self.take_back();
        self.copy()
    }

    /// A movement to the right that is whole.
    fn move_right(&mut self, opcode: u8) -> Result<(), AllocError>
        requires least { 143 ≤ opcode }
        requires most { opcode ≤ 146 }
        requires whole { opcode - 142 < length self.old.begun }
        ensures { OnOk result (self.new ≡ spec.moved_right opcode self.old) }
    {
        let bytes = &self.begun.as_slice()[1..];
        let amount = signed_of(bytes, usize::from(opcode - 142));
        let pair = self.amounts.across;
        self.amounts.across = put_movement(&mut self.made, RIGHT1, opcode, bytes, amount, pair)?;
        self.begun.clear();
        Ok(())
    }

    /// A movement down that is whole.
    fn move_down(&mut self, opcode: u8) -> Result<(), AllocError>
        requires least { 157 ≤ opcode }
        requires most { opcode ≤ 160 }
        requires whole { opcode - 156 < length self.old.begun }
        ensures { OnOk result (self.new ≡ spec.moved_down opcode self.old) }
    {
        let bytes = &self.begun.as_slice()[1..];
        let amount = signed_of(bytes, usize::from(opcode - 156));
        let pair = self.amounts.down;
        self.amounts.down = put_movement(&mut self.made, DOWN1, opcode, bytes, amount, pair)?;
        self.begun.clear();
        Ok(())
    }

    /// A movement to the right, as far as it is there.
    fn take_right(&mut self, opcode: u8) -> Result<(), AllocError>
        requires least { 143 ≤ opcode }
        requires most { opcode ≤ 146 }
        ensures { OnOk result (self.new ≡ spec.once_there (opcode - 142) (spec.moved_right opcode) self.old) }
    {
        if self.begun.len() <= usize::from(opcode - 142) {
            return Ok(());
        }
        self.move_right(opcode)
    }

    /// A movement down, as far as it is there.
    fn take_down(&mut self, opcode: u8) -> Result<(), AllocError>
        requires least { 157 ≤ opcode }
        requires most { opcode ≤ 160 }
        ensures { OnOk result (self.new ≡ spec.once_there (opcode - 156) (spec.moved_down opcode) self.old) }
    {
        if self.begun.len() <= usize::from(opcode - 156) {
            return Ok(());
        }
        self.move_down(opcode)
    }

    /// A command that moves nothing, as far as it is there.
    fn take_other(&mut self) -> Result<(), AllocError>
        ensures { OnOk result (self.new ≡ spec.other (operands (get_or self.old.begun 0 0) self.old.begun) self.old) }
    {
        match operands_of(self.begun.as_slice()) {
            Some(more) if self.begun.len() as u128 <= more => Ok(()),
            Some(_) => self.copy(),
            None => self.copy(),
        }
    }

    /// The command that is begun, as far as it is there.
    fn take(&mut self) -> Result<(), AllocError>
        ensures { OnOk result (self.new ≡ spec.taken (get_or self.old.begun 0 0) self.old) }
    {
        let opcode = opcode_of(self.begun.as_slice());
        if RIGHT1 <= opcode && opcode <= RIGHT4 {
            self.take_right(opcode)
        } else if DOWN1 <= opcode && opcode <= DOWN4 {
            self.take_down(opcode)
        } else if opcode == PUSH {
            self.push()
        } else if opcode == POP {
            self.pop()
        } else {
            self.take_other()
        }
    }

    /// One byte more, which is a command by itself that moves nothing: it is written as it stands.
    #[inline(always)]
    #[tactic(auto, using(crate::proofs::Singles::single_written))]
    fn write_single(&mut self, byte: u8) -> Result<(), AllocError>
        requires between { self.old.begun ≡ [] }
        requires single { (nat_lt byte 128 || is_font byte) ≡ true }
        ensures { OnOk result (self.new ≡ spec.write self.old byte) }
    {
        self.made.push(byte)
    }

    /// One byte more of a command that may have others.
    fn write_part(&mut self, byte: u8) -> Result<(), AllocError>
        ensures { OnOk result (self.new ≡ spec.write self.old byte) }
    {
        self.begun.push(byte)?;
        self.take()
    }

    /// One byte more.
    #[inline(always)]
    fn write(&mut self, byte: u8) -> Result<(), AllocError>
        ensures { OnOk result (self.new ≡ spec.write self.old byte) }
    {
        if self.begun.is_empty() && is_single(byte) {
            self.write_single(byte)
        } else {
            self.write_part(byte)
        }
    }

    /// The bytes that are written.
    fn into_made(self) -> Bytes
        ensures { result ≡ self.made }
    {
        let PageWriter {
            amounts: _,
            pushed: _,
            begun: _,
            made,
        } = self;
        made
    }
}

/// Plain commands of a page, with their movements by the registers. Its only error is want of memory.
#[tactic(auto, unfolding(crate::specs::Registers::registered))]
pub fn registered(alloc: Global, plain: &[u8]) -> Result<Bytes, AllocError>
    ensures { IfOk result (λ bytes. bytes ≡ spec.registered plain.now) }
{
    let mut writer = PageWriter::new(alloc);
    for byte in plain {
        writer.write(*byte)?;
    }
    writer.copy()?;
    Ok(writer.into_made())
}
