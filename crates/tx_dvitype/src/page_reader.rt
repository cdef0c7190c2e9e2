//! The reader of a page (the DVI standard; TeX: The Program, sections 585 to 588), whose characters have no width.
ghost use Rattle.std.specs.Prelude.{◌≡◌, ◌==◌, ◌<◌, ◌≤◌, ◌++◌, ◌∷◌, [], Some, true, false, get_or, drop, IfOk, OnOk};
ghost use Rattle.tx_dvi.specs.Meaning as spec;
ghost use Rattle.tx_dvi.specs.Meaning.{definition_in};
ghost use Rattle.tx_dvitype.specs.Partial as partial;
ghost use Rattle.tx_dvitype.specs.Partial.{IsGone, gone, is_whole, kept_near, no_widths, read_within};

use crate::movement::{behind, is_near, may_move, moved, right_by, signed_at, unsigned_at};
use std::alloc::{AllocError, Global};
use std::marker::Model;
use std::mem;
use tx_bytes::Bytes;
use tx_dvi::{
    FontDefinition, Placed, PlacedCharacter, PlacedRule, PlacedSpecial, Registers, is_font_number,
    is_movement, movement_operands, opcode_of, operands_of,
};
use tx_list::{Items, Stack};

/// What one more byte made of a page.
#[derive(Drop)]
pub enum Gone {
    /// No command may begin with it and those before it.
    Nowhere,
    /// A command is begun.
    Begun,
    /// A command is whole; these are its bytes.
    Whole(Bytes),
}

/// The reader of a page. Contracts see it as the record `Reader`.
#[derive(Drop)]
pub struct PageReader {
    registers: Registers,
    /// The font that was chosen last.
    chosen: Option<u8>,
    /// The numbers of the fonts that are defined.
    known: Bytes,
    /// Those that the page defines.
    defined: Items<FontDefinition>,
    /// The registers that were pushed.
    stack: Stack<Registers>,
    /// What was met on the page.
    met: Items<Placed>,
    /// The first bytes of what isn't whole.
    begun: Bytes,
}

impl Model for PageReader {
    ghost use Rattle.tx_dvi.specs.Meaning.{Reader};

    ghost Value = { Reader };

    ghost view = { λ r. record {
      now = r.registers;
      fonts = record { chosen = r.chosen; known = r.known; defined = r.defined };
      stack = r.stack;
      met = r.met;
      begun = r.begun;
    } };
}

/// Where a page begins.
fn corner() -> Registers
    ensures { result ≡ (spec.page_start []).now }
{
    Registers {
        h: 0,
        v: 0,
        w: 0,
        x: 0,
        y: 0,
        z: 0,
    }
}

/// The definition of a font, in the bytes behind its first one. Its only error is want of memory.
fn definition_of(alloc: Global, bytes: &[u8]) -> Result<FontDefinition, AllocError>
    ensures { IfOk result (λ font. font ≡ definition_in bytes.now) }
{
    Ok(FontDefinition {
        number: opcode_of(bytes),
        checksum: unsigned_at(behind(bytes, 1)),
        size: unsigned_at(behind(bytes, 5)),
        design_size: unsigned_at(behind(bytes, 9)),
        name: Bytes::from_slice(alloc, behind(bytes, 15))?,
    })
}

/// How many bytes the command that these begin has behind its first one, as far as they tell; None where they begin none.
#[tactic(auto, unfolding(crate::specs::Partial::wanted))]
fn wanted(bytes: &[u8]) -> Option<u128>
    ensures { result ≡ partial.wanted bytes.now }
{
    operands_of(bytes)
}

impl PageReader {
    /// At the start of the first page of a file.
    pub fn new(alloc: Global) -> PageReader
        ensures { result ≡ spec.page_start [] }
    {
        PageReader {
            registers: corner(),
            chosen: None,
            known: Bytes::new(alloc),
            defined: Items::new(alloc),
            stack: Stack::new(alloc),
            met: Items::new(alloc),
            begun: Bytes::new(alloc),
        }
    }

    /// At the start of another page; the fonts that earlier pages define stay defined.
    pub fn start(&mut self, alloc: Global)
        ensures { self.new ≡ spec.page_start self.old.fonts.known }
    {
        self.registers = corner();
        self.chosen = None;
        self.defined.clear();
        self.stack = Stack::new(alloc);
        self.met.clear();
        self.begun = Bytes::new(alloc);
    }

    /// The first bytes of what isn't whole, lent.
    pub fn begun(&self) -> &[u8]
        ensures { result.now ≡ self.now.begun }
    {
        self.begun.as_slice()
    }

    /// A byte is put behind them.
    pub fn begin(&mut self, byte: u8) -> Result<(), AllocError>
        ensures { OnOk result (self.new ≡ record self.old { begun = self.old.begun ++ byte ∷ [] }) }
    {
        self.begun.push(byte)
    }

    /// They are taken away.
    pub fn forget(&mut self, alloc: Global)
        ensures { self.new ≡ record self.old { begun = [] } }
    {
        self.begun = Bytes::new(alloc);
    }

    /// Whether everything that was pushed is popped.
    pub fn is_level(&self) -> bool
        ensures { result ≡ partial.is_level self.now }
    {
        self.stack.len() == 0
    }

    /// What was met is taken out.
    pub fn take_met(&mut self, alloc: Global) -> Items<Placed>
        ensures met { result ≡ self.old.met }
        ensures rest { self.new ≡ record self.old { met = [] } }
    {
        mem::replace(&mut self.met, Items::new(alloc))
    }

    /// Whether the font of this number is defined.
    fn is_known(&self, number: u8) -> bool
        ensures { result ≡ spec.is_known number self.now.fonts.known }
    {
        self.known.as_slice().iter().any(|known| *known == number)
    }

    /// Whether a font may be chosen by the bytes behind fnt1.
    fn may_choose(&self, bytes: &[u8]) -> bool
        ensures { result ≡ partial.may_choose bytes.now self.now.fonts.known }
    {
        match bytes {
            [] => 0 < self.known.len(),
            [number, ..] => self.is_known(*number),
        }
    }

    /// Whether a font may be defined by the bytes behind fnt_def1.
    fn may_define(&self, bytes: &[u8]) -> bool
        ensures { result ≡ partial.may_define bytes.now self.now.fonts.known }
    {
        match bytes {
            [] => self.known.len() < 256,
            [number, more @ ..] => {
                !self.is_known(*number) && (more.len() <= 12 || more[12] == 0)
            }
        }
    }

    /// Whether a movement may begin with these bytes behind its first one.
    fn may_go(&self, opcode: u8, bytes: &[u8]) -> bool
        requires least { 143 ≤ opcode }
        requires most { opcode ≤ 170 }
        ensures { result ≡ partial.may_go opcode bytes.now self.now.now }
    {
        let size = usize::from(movement_operands(opcode));
        if opcode <= 156 {
            may_move(self.registers.h, size, bytes)
        } else {
            may_move(self.registers.v, size, bytes)
        }
    }

    /// Whether a rule may be passed with these bytes behind set_rule.
    fn may_pass(&self, bytes: &[u8]) -> bool
        ensures { result ≡ partial.may_pass bytes.now self.now.now }
    {
        may_move(self.registers.h, 4, behind(bytes, 4))
    }

    /// Whether a command may begin with these bytes behind its first one.
    #[tactic(auto, unfolding(crate::specs::Partial::may_begin))]
    fn may_begin(&self, opcode: u8, bytes: &[u8]) -> bool
        ensures { result ≡ partial.may_begin opcode bytes.now self.now }
    {
        if opcode < 128 {
            self.chosen.is_some()
        } else if is_font_number(opcode) {
            self.is_known(opcode - 171)
        } else if opcode == 128 {
            self.chosen.is_some()
        } else if opcode == 235 {
            self.may_choose(bytes)
        } else if opcode == 243 {
            self.may_define(bytes)
        } else if opcode == 132 {
            self.may_pass(bytes)
        } else if opcode == 137 {
            true
        } else if opcode == 141 {
            true
        } else if opcode == 142 {
            0 < self.stack.len()
        } else if is_movement(opcode) {
            self.may_go(opcode, bytes)
        } else {
            239 <= opcode && opcode <= 242
        }
    }

    /// A character is met in the font that was chosen last. Answers whether the reader goes on.
    fn set_character(&mut self, code: u8) -> Result<bool, AllocError>
        ensures { IfOk result
            (λ goes. gone goes self.new ≡ kept_near (spec.set_character no_widths code self.old.fonts.chosen self.old)) }
    {
        match self.chosen {
            Some(font) => {
                self.met.push(Placed::Lettered(PlacedCharacter {
                    font,
                    code,
                    h: self.registers.h,
                    v: self.registers.v,
                }))?;
                match right_by(0, self.registers) {
                    Some(now) => {
                        self.registers = now;
                        Ok(true)
                    }
                    None => Ok(false),
                }
            }
            None => Ok(false),
        }
    }

    /// A font is chosen.
    fn choose(&mut self, number: u8) -> bool
        ensures { gone result self.new ≡ kept_near (spec.choose number self.old) }
    {
        if self.is_known(number) {
            self.chosen = Some(number);
            is_near(self.registers)
        } else {
            false
        }
    }

    /// A font is defined by the bytes behind fnt_def1.
    fn define(&mut self, alloc: Global, bytes: &[u8]) -> Result<bool, AllocError>
        ensures { IfOk result (λ goes. gone goes self.new ≡ kept_near (spec.define (definition_in bytes.now) self.old)) }
    {
        let number = opcode_of(bytes);
        if self.is_known(number) {
            return Ok(false);
        }
        self.known.push(number)?;
        self.defined.push(definition_of(alloc, bytes)?)?;
        Ok(is_near(self.registers))
    }

    /// A rule is met, if both its sides are positive.
    fn meet_rule(&mut self, height: i64, width: i64) -> Result<(), AllocError>
        ensures { OnOk result (self.new ≡ spec.with_rule height width self.old) }
    {
        if height <= 0 || width <= 0 {
            return Ok(());
        }
        self.met.push(Placed::Ruled(PlacedRule {
            h: self.registers.h,
            v: self.registers.v,
            height,
            width,
        }))
    }

    /// A rule is met, and passed by.
    fn set_rule(&mut self, height: i64, width: i64) -> Result<bool, AllocError>
        ensures { IfOk result (λ goes. gone goes self.new ≡ kept_near (Some (spec.rule_set height width self.old))) }
    {
        self.meet_rule(height, width)?;
        match right_by(width, self.registers) {
            Some(now) => {
                self.registers = now;
                Ok(true)
            }
            None => Ok(false),
        }
    }

    /// A rule is met, and not passed by.
    fn put_rule(&mut self, height: i64, width: i64) -> Result<bool, AllocError>
        ensures { IfOk result (λ goes. gone goes self.new ≡ kept_near (Some (spec.with_rule height width self.old))) }
    {
        self.meet_rule(height, width)?;
        Ok(is_near(self.registers))
    }

    /// The registers are kept.
    fn push(&mut self) -> Result<bool, AllocError>
        ensures { IfOk result
            (λ goes. gone goes self.new ≡ kept_near (Some (record self.old { stack = self.old.now ∷ self.old.stack }))) }
    {
        self.stack.push(self.registers)?;
        Ok(is_near(self.registers))
    }

    /// The registers that were kept last are taken back.
    fn pop(&mut self) -> bool
        ensures { gone result self.new ≡ kept_near (spec.popped self.old.stack self.old) }
    {
        match self.stack.pop() {
            Some(last) => {
                self.registers = last;
                is_near(last)
            }
            None => false,
        }
    }

    /// A special is met.
    fn meet_special(&mut self, alloc: Global, bytes: &[u8]) -> Result<(), AllocError>
        ensures { OnOk result (self.new ≡ spec.with_special bytes.now self.old) }
    {
        let text = Bytes::from_slice(alloc, bytes)?;
        self.met.push(Placed::Noted(PlacedSpecial {
            h: self.registers.h,
            v: self.registers.v,
            text,
        }))
    }

    /// A special is met. Answers whether the reader goes on.
    fn note(&mut self, alloc: Global, bytes: &[u8]) -> Result<bool, AllocError>
        ensures { IfOk result (λ goes. gone goes self.new ≡ kept_near (Some (spec.with_special bytes.now self.old))) }
    {
        self.meet_special(alloc, bytes)?;
        Ok(is_near(self.registers))
    }

    /// A movement is carried out.
    fn go(&mut self, opcode: u8, bytes: &[u8]) -> bool
        requires least { 143 ≤ opcode }
        requires most { opcode ≤ 170 }
        ensures { gone result self.new ≡ kept_near (Some (partial.gone_by opcode bytes.now self.old)) }
    {
        let size = signed_at(bytes, usize::from(movement_operands(opcode)));
        match moved(opcode, size, self.registers) {
            Some(now) => {
                self.registers = now;
                true
            }
            None => false,
        }
    }

    /// A rule, nop, push, pop, a special or a movement is carried out. Answers whether the reader goes on.
    #[tactic(auto, unfolding(crate::specs::Partial::carried_near))]
    fn carry_out_placing(
        &mut self,
        alloc: Global,
        opcode: u8,
        bytes: &[u8],
    ) -> Result<bool, AllocError>
        requires no_letter { 128 < opcode }
        requires no_font { spec.is_font_number opcode ≡ false }
        requires no_choice { (opcode == 235) ≡ false }
        requires no_definition { (opcode == 243) ≡ false }
        ensures { IfOk result (λ goes. gone goes self.new ≡ partial.carried_near opcode bytes.now self.old) }
    {
        if opcode == 132 {
            self.set_rule(signed_at(bytes, 4), signed_at(behind(bytes, 4), 4))
        } else if opcode == 137 {
            self.put_rule(signed_at(bytes, 4), signed_at(behind(bytes, 4), 4))
        } else if opcode == 138 {
            Ok(is_near(self.registers))
        } else if opcode == 141 {
            self.push()
        } else if opcode == 142 {
            Ok(self.pop())
        } else if opcode >= 239 {
            self.note(alloc, behind(bytes, usize::from(opcode - 238)))
        } else if is_movement(opcode) {
            Ok(self.go(opcode, bytes))
        } else {
            Ok(false)
        }
    }

    /// A command is carried out. Answers whether the reader goes on.
    #[tactic(auto, unfolding(crate::specs::Partial::carried_near))]
    fn carry_out(&mut self, alloc: Global, opcode: u8, bytes: &[u8]) -> Result<bool, AllocError>
        ensures { IfOk result (λ goes. gone goes self.new ≡ partial.carried_near opcode bytes.now self.old) }
    {
        if opcode < 128 {
            self.set_character(opcode)
        } else if is_font_number(opcode) {
            Ok(self.choose(opcode - 171))
        } else if opcode == 128 {
            self.set_character(opcode_of(bytes))
        } else if opcode == 235 {
            Ok(self.choose(opcode_of(bytes)))
        } else if opcode == 243 {
            self.define(alloc, bytes)
        } else {
            self.carry_out_placing(alloc, opcode, bytes)
        }
    }

    /// Whether a command may begin with the bytes that are there.
    fn may_go_on(&self) -> bool
        ensures { result ≡ partial.may_begin (get_or self.now.begun 0 0) (drop 1 self.now.begun) self.now }
    {
        let bytes = self.begun.as_slice();
        self.may_begin(opcode_of(bytes), behind(bytes, 1))
    }

    /// The command whose bytes are all there is carried out.
    fn carry_out_begun(&mut self, alloc: Global) -> Result<Gone, AllocError>
        requires { is_whole self.old.begun ≡ true }
        ensures { IfOk result
            (λ made. IsGone self.old.begun made self.new (partial.carried_near (get_or self.old.begun 0 0) (drop 1 self.old.begun) (record self.old { begun = [] }))) }
    {
        let command = mem::replace(&mut self.begun, Bytes::new(alloc));
        let bytes = command.as_slice();
        if self.carry_out(alloc, opcode_of(bytes), behind(bytes, 1))? {
            Ok(Gone::Whole(command))
        } else {
            Ok(Gone::Nowhere)
        }
    }

    /// One byte more.
    #[tactic(auto, unfolding(crate::specs::Partial::read_within))]
    pub fn read(&mut self, alloc: Global, byte: u8) -> Result<Gone, AllocError>
        ensures { IfOk result (λ made. IsGone (self.old.begun ++ byte ∷ []) made self.new (read_within self.old byte)) }
    {
        self.begun.push(byte)?;
        if !self.may_go_on() {
            return Ok(Gone::Nowhere);
        }
        let Some(more) = wanted(self.begun.as_slice()) else {
            return Ok(Gone::Nowhere);
        };
        if (self.begun.len() as u128) <= more {
            return Ok(if is_near(self.registers) {
                Gone::Begun
            } else {
                Gone::Nowhere
            });
        }
        self.carry_out_begun(alloc)
    }
}
