//! The ligature commands of all pairs, so that a font whose programs are long is checked fast.
ghost use Rattle.std.specs.Prelude.{◌≡◌, ◌<◌, ◌≤◌, ◌^◌, vec_len, IfOk, OnOk};
ghost use Rattle.tx_tfm.specs.Rewriting.{ligature_of};
ghost use Rattle.tx_tfm.specs.Table.{piece_of};

use super::file::{Tfm, Word};
use std::alloc::{AllocError, Global};
use std::marker::Model;

/// The ligature commands of all pairs, a row for each left piece.
#[derive(Drop)]
pub struct Ligatures {
    rows: Vec<LigatureRow>,
    ghost whole: { vec_len rows ≡ 257 },
}

/// The ligature commands of a left piece, each at its right piece. Most pieces have no program, and most programs have kerns
/// alone: their rows are empty and take no memory.
#[derive(Drop)]
struct LigatureRow {
    commands: Vec<Option<Word>>,
}

impl Model for LigatureRow {
    ghost use Rattle.std.specs.Prelude.{List, Option};
    ghost use Rattle.tx_tfm.specs.declared.file.Word.{Word};

    ghost Value = { List (Option Word) };

    ghost view = { λ r. r.commands.items };
}

/// A row that is filled by one walk along a program. The first command for a right piece is the one that counts, even if it
/// is a kern.
#[derive(Drop)]
struct Filling {
    met: [bool; 256],
    row: LigatureRow,
}

impl Tfm {
    ghost use Rattle.std.specs.Prelude.{ℕ, Option, Some};
    ghost use Rattle.tx_tfm.specs.LigKern.{start_of};
    ghost use Rattle.tx_tfm.specs.Table.{IsRowOf, IsTableOf, IsRowFrom};

    /// The ligature commands of all pairs.
    pub fn ligatures(&self, alloc: Global) -> Result<Ligatures, AllocError>
        ensures { IfOk result (λ table. IsTableOf self.now table.rows.items) }
    {
        let mut rows = Vec::with_capacity(alloc, 257)?;
        for k in 0..257 {
            let row = self.ligature_row(alloc, piece(k))?;
            rows.push(row)?;
        }
        Ok(Ligatures { rows })
    }

    /// The row of a left piece.
    fn ligature_row(&self, alloc: Global, left: Option<u8>) -> Result<LigatureRow, AllocError>
        ensures { IfOk result (λ row. IsRowOf self.now left row) }
    {
        match self.start_of(left) {
            None => Ok(LigatureRow::new(alloc)),
            Some(start) => self.program_row(alloc, start),
        }
    }

    /// The row of a left piece whose program begins at this place.
    fn program_row(&self, alloc: Global, start: usize) -> Result<LigatureRow, AllocError>
        requires { start < 2 ^ 16 }
        ensures { (left : Option ℕ) → start_of self.now left ≡ Some start → IfOk result (λ row. IsRowOf self.now left row) }
    {
        let mut row = self.row_from(alloc, start)?;
        if let Some(code) = self.boundary_code() {
            row.copy_to_boundary(usize::from(code))?;
        }
        Ok(row)
    }

    /// The row of the program from a place on, with no command for the boundary yet.
    fn row_from(&self, alloc: Global, start: usize) -> Result<LigatureRow, AllocError>
        requires { start < 2 ^ 16 }
        ensures { IfOk result (λ row. IsRowFrom self.now start row) }
    {
        let mut filling = Filling::new(alloc);
        let mut place = start;
        let mut left = self.lengths.commands;
        while left > 0 {
            let command = self.command(place);
            if command.a > 128 {
                break;
            }
            filling.take(command)?;
            if command.a == 128 {
                break;
            }
            // Past the end of the file the same command comes again and again.
            if self.bytes.len() <= 4 * (self.lengths.commands_at() + place) {
                break;
            }
            place += usize::from(command.a) + 1;
            left -= 1;
        }
        Ok(filling.row)
    }
}

impl Ligatures {
    ghost use Rattle.std.specs.Prelude.{ℕ, None, IsTrue};
    ghost use Rattle.tx_tfm.specs.Table.{IsTableOf};
    ghost use Rattle.tx_tfm.specs.declared.file.Tfm.{Tfm};

    /// Whether a left piece meets no ligature command whatever follows it, as an empty row tells.
    pub fn meets_none(&self, left: usize) -> bool
        requires { left < 257 }
        ensures { IsTrue result → (t : Tfm) → IsTableOf t self.now.rows.items → (k : ℕ) → k < 257 → ligature_of t (piece_of left) (piece_of k) ≡ None }
    {
        self.rows[left].is_empty()
    }

    /// The ligature command that a pair meets.
    pub fn meets(&self, left: Option<u8>, right: Option<u8>) -> Option<Word>
        ensures { (t : Tfm) → IsTableOf t self.now.rows.items → result ≡ ligature_of t left right }
    {
        self.rows[code(left)].entry(code(right))
    }
}

impl LigatureRow {
    ghost use Rattle.std.specs.Prelude.{ℕ, [], ◌==◌, ◌↔◌, Some, None, IsTrue, length, if◌then◌else◌};
    ghost use Rattle.tx_tfm.specs.Table.{entry_of};

    /// The row of a piece that meets no command.
    fn new(alloc: Global) -> LigatureRow
        ensures { result ≡ [] }
    {
        LigatureRow {
            commands: Vec::new(alloc),
        }
    }

    fn is_empty(&self) -> bool
        ensures { IsTrue result ↔ (self.now ≡ []) }
    {
        self.commands.is_empty()
    }

    /// The entry of the k-th of the characters and, the 256th, of the boundary.
    fn entry(&self, k: usize) -> Option<Word>
        ensures { result ≡ entry_of self.now k }
    {
        if k < self.commands.len() {
            self.commands[k]
        } else {
            None
        }
    }

    /// Makes room for an entry of each right piece, where there is none yet.
    fn make_room(&mut self) -> Result<(), AllocError>
        ensures room { OnOk result (257 ≤ length self.new) }
        ensures entries { OnOk result ((k : ℕ) → entry_of self.new k ≡ entry_of self.old k) }
    {
        if self.commands.len() < 257 {
            self.commands.resize(257, None)?;
        }
        Ok(())
    }

    /// Puts a command where it is to be found.
    fn put(&mut self, code: usize, command: Word) -> Result<(), AllocError>
        requires { code < 257 }
        ensures { OnOk result ((k : ℕ) → entry_of self.new k ≡ (if k == code then Some command else entry_of self.old k)) }
    {
        self.make_room()?;
        self.commands[code] = Some(command);
        Ok(())
    }

    /// Lets the boundary meet what the character meets whose code it has.
    fn copy_to_boundary(&mut self, code: usize) -> Result<(), AllocError>
        ensures characters { OnOk result ((k : ℕ) → k < 256 → entry_of self.new k ≡ entry_of self.old k) }
        ensures boundary { OnOk result (entry_of self.old 256 ≡ None → entry_of self.new 256 ≡ entry_of self.old code) }
    {
        if let Some(command) = self.entry(code) {
            self.put(256, command)?;
        }
        Ok(())
    }
}

impl Filling {
    ghost use Rattle.tx_tfm.specs.Filling.{IsNew, Takes};

    fn new(alloc: Global) -> Filling
        ensures { IsNew result }
    {
        Filling {
            met: [false; 256],
            row: LigatureRow::new(alloc),
        }
    }

    /// Takes the next command of the program.
    fn take(&mut self, command: Word) -> Result<(), AllocError>
        ensures { OnOk result (Takes self.old command self.new) }
    {
        let code = usize::from(command.b);
        if self.met[code] {
            return Ok(());
        }
        self.met[code] = true;
        if command.c < 128 {
            self.row.put(code, command)?;
        }
        Ok(())
    }
}

/// A character by its code, or past the codes the boundary.
pub fn piece(code: usize) -> Option<u8>
    ensures { result ≡ piece_of code }
{
    if code < 256 { Some(code as u8) } else { None }
}

/// The code of a character, or 256 of the boundary.
fn code(piece: Option<u8>) -> usize
    ensures code { piece_of result ≡ piece }
    ensures bound { result ≤ 256 }
{
    match piece {
        Some(code) => usize::from(code),
        None => 256,
    }
}
