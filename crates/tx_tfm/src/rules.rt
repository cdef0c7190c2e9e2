//! The rules of a font metric file, one function a rule.
ghost use Rattle.std.specs.Prelude.{◌≡◌, ◌≤◌, ◌<◌, ◌^◌, ◌+◌, pos, true, false, Some, None, nat_le, IfOk, IfErr, OnOk, MatchOption};
ghost use Rattle.tx_tfm.specs.Format.{word_at};
ghost use Rattle.tx_tfm.specs.LigKern.{boundary_code};
ghost use Rattle.tx_tfm.specs.Sound.{IsSizeOf};
ghost use Rattle.tx_tfm.specs.Table.{IsTableOf};
ghost use Rattle.tx_tfm.specs.Rules.{every, lengths_are_small, codes_are_bytes, parts_make_the_file, has_sizes, size_in_sp, is_size, first_false, header_rules, table_rules, sizes_are_in_range, indices_fit, all_indices_fit, remainder_fits, successors_end, all_remainders_fit, all_successors_end, are_fractions, all_are_fractions, first_sizes_are_zero, names, can_come, inserts_well, is_piece_or_none, is_fraction, is_zero, command_fits, all_commands_fit, recipe_fits, all_recipes_fit, is_piece, pair_ends, all_pairs_end_after, all_pairs_end};

use super::file::{Tfm, Word};
use super::lengths::Lengths;
use super::ligatures::{Ligatures, piece};
use std::alloc::{AllocError, Global};
use tx_num::{Range, xn_over_d};

/// The size at which a font is used.
#[derive(Clone, Copy, PartialEq, Eq)]
pub enum Size {
    /// Its design size.
    Design,
    /// So many sp.
    At(i64),
    /// So many thousandths of its design size.
    Scaled(i64),
}

impl Lengths {
    /// Each length is below 2^15.
    #[tactic(auto, unfolding(crate::specs::Rules::lengths_are_small))]
    pub fn are_small(&self) -> bool
        ensures { result ≡ lengths_are_small self.now }
    {
        let all = [
            self.file,
            self.header,
            self.first,
            self.last,
            self.widths,
            self.heights,
            self.depths,
            self.italics,
            self.commands,
            self.kerns,
            self.recipes,
            self.parameters,
        ];
        all.iter().all(|length| *length < 0x8000)
    }

    /// The codes of the characters are bytes.
    #[tactic(auto, unfolding(crate::specs::Rules::codes_are_bytes))]
    pub fn codes_are_bytes(&self) -> bool
        ensures { result ≡ codes_are_bytes self.now }
    {
        usize::from(self.first) <= usize::from(self.last) + 1 && self.last <= 255
    }

    /// The lengths of the parts make up that of the file.
    #[tactic(auto, unfolding(crate::specs::Rules::parts_make_the_file))]
    pub fn parts_make_the_file(&self) -> bool
        ensures { result ≡ parts_make_the_file self.now }
    {
        usize::from(self.file) == self.parameters_at() + usize::from(self.parameters)
    }

    /// There is a width, a height, a depth and an italic correction.
    #[tactic(auto, unfolding(crate::specs::Rules::has_sizes))]
    pub fn has_sizes(&self) -> bool
        ensures { result ≡ has_sizes self.now }
    {
        self.widths > 0 && self.heights > 0 && self.depths > 0 && self.italics > 0
    }
}

impl Word {
    /// Whether the number that the word stands for lies between -16 and 16.
    fn is_fraction(&self) -> bool
        ensures { result ≡ is_fraction self.now }
    {
        self.a == 0 || self.a == 255
    }

    fn is_zero(&self) -> bool
        ensures { result ≡ is_zero self.now }
    {
        self.a == 0 && self.b == 0 && self.c == 0 && self.d == 0
    }
}

impl Tfm {
    /// The size at which the font is used, in sp, or the first of rules 1 to 8 that is broken.
    pub fn check_header(&self, size: Size) -> Result<u32, u8>
        ensures kept { IfOk result (λ _. first_false 1 (header_rules self.now size) ≡ None) }
        ensures codes { OnOk result (codes_are_bytes self.now.lengths ≡ true) }
        ensures size { IfOk result (λ z. IsSizeOf self.now size z) }
        ensures broken { IfErr result (λ rule. first_false 1 (header_rules self.now size) ≡ Some rule) }
    {
        let lengths = &self.lengths;
        if self.bytes.len() < 24 {
            return Err(1);
        }
        if !lengths.are_small() {
            return Err(2);
        }
        if !lengths.codes_are_bytes() {
            return Err(3);
        }
        if !lengths.parts_make_the_file() {
            return Err(4);
        }
        if self.bytes.len() < 4 * usize::from(lengths.file) {
            return Err(5);
        }
        if !lengths.has_sizes() {
            return Err(6);
        }
        if lengths.header < 2 {
            return Err(7);
        }
        self.usable_size(size).ok_or(8)
    }

    /// The first of rules 9 to 15 that is broken.
    pub fn check_tables(&self, alloc: Global) -> Result<Option<u8>, AllocError>
        ensures { IfOk result (λ broken. broken ≡ first_false 9 (table_rules self.now)) }
    {
        if !self.all_indices_fit() {
            return Ok(Some(9));
        }
        if !(self.all_remainders_fit() && self.all_successors_end()) {
            return Ok(Some(10));
        }
        if !self.all_are_fractions() {
            return Ok(Some(11));
        }
        if !self.first_sizes_are_zero() {
            return Ok(Some(12));
        }
        if !self.all_commands_fit() {
            return Ok(Some(13));
        }
        if !self.all_recipes_fit() {
            return Ok(Some(14));
        }
        let ends = self.all_pairs_end(alloc)?;
        if !ends {
            return Ok(Some(15));
        }
        Ok(None)
    }

    /// The size in sp, where it and the design size are in range.
    #[tactic(auto, unfolding(crate::specs::Rules::sizes_are_in_range))]
    fn usable_size(&self, size: Size) -> Option<u32>
        ensures { MatchOption result (sizes_are_in_range self.now size ≡ false)
            (λ z. (sizes_are_in_range self.now size ≡ true) × IsSizeOf self.now size z) }
    {
        if self.design_size() < 65536 {
            return None;
        }
        self.size_in_sp(size)
    }

    /// The size at which the font is used, in sp, where it is in range.
    pub fn size_in_sp(&self, size: Size) -> Option<u32>
        ensures { MatchOption result (is_size (size_in_sp self.now size) ≡ false)
            (λ z. (is_size (size_in_sp self.now size) ≡ true) × IsSizeOf self.now size z) }
    {
        let design = i64::from(self.design_size());
        match size {
            Size::Design => in_range(design),
            Size::At(size) => in_range(size),
            Size::Scaled(thousandths) => match xn_over_d(design, thousandths, 1000, Range::Dimen) {
                Ok((size, _)) => in_range(size),
                Err(_) => None,
            },
        }
    }

    /// A character's sizes stand within their tables.
    #[tactic(auto, unfolding(crate::specs::Rules::indices_fit))]
    fn indices_fit(&self, code: usize) -> bool
        requires { code < 2 ^ 17 }
        ensures { result ≡ indices_fit self.now code }
    {
        let info = self.info(code);
        info.width_index() < usize::from(self.lengths.widths)
            && info.height_index() < usize::from(self.lengths.heights)
            && info.depth_index() < usize::from(self.lengths.depths)
            && info.italic_index() < usize::from(self.lengths.italics)
    }

    #[tactic(auto, unfolding(crate::specs::Rules::all_indices_fit), using(crate::proofs::Every::every_steps))]
    fn all_indices_fit(&self) -> bool
        ensures { result ≡ all_indices_fit self.now }
    {
        let first = usize::from(self.lengths.first);
        for k in 0..self.lengths.character_count() {
            if !self.indices_fit(first + k) {
                return false;
            }
        }
        true
    }

    /// A character's program, recipe or successor is there.
    #[tactic(auto, unfolding(crate::specs::Rules::remainder_fits))]
    fn remainder_fits(&self, code: usize) -> bool
        requires { code < 2 ^ 17 }
        ensures { result ≡ remainder_fits self.now code }
    {
        let info = self.info(code);
        match info.tag() {
            1 => u16::from(info.d) < self.lengths.commands,
            2 => self.is_listed(usize::from(info.d)),
            3 => u16::from(info.d) < self.lengths.recipes,
            _ => true,
        }
    }

    #[tactic(auto, unfolding(crate::specs::Rules::all_remainders_fit), using(crate::proofs::Every::every_steps))]
    fn all_remainders_fit(&self) -> bool
        ensures { result ≡ all_remainders_fit self.now }
    {
        let first = usize::from(self.lengths.first);
        for k in 0..self.lengths.character_count() {
            if !self.remainder_fits(first + k) {
                return false;
            }
        }
        true
    }

    /// The successors of a character end, and do not go in a circle.
    fn successors_end(&self, start: usize) -> bool
        requires { start < 2 ^ 17 }
        ensures { result ≡ successors_end self.now 256 start }
    {
        let mut code = start;
        let mut left: u32 = 256;
        while left > 0 {
            let info = self.info(code);
            if info.tag() != 2 {
                return true;
            }
            code = usize::from(info.d);
            left -= 1;
        }
        false
    }

    #[tactic(auto, unfolding(crate::specs::Rules::all_successors_end), using(crate::proofs::Every::every_steps))]
    fn all_successors_end(&self) -> bool
        ensures { result ≡ all_successors_end self.now }
    {
        let first = usize::from(self.lengths.first);
        for k in 0..self.lengths.character_count() {
            if !self.successors_end(first + k) {
                return false;
            }
        }
        true
    }

    fn is_fraction_at(&self, place: usize) -> bool
        requires { place < 2 ^ 32 }
        ensures { result ≡ is_fraction (word_at self.now place) }
    {
        self.word(place).is_fraction()
    }

    /// The words from a place on are fractions.
    #[tactic(auto, unfolding(crate::specs::Rules::are_fractions), using(crate::proofs::Every::every_steps))]
    fn are_fractions(&self, place: usize, count: usize) -> bool
        requires place_in { place < 2 ^ 26 }
        requires count_in { count < 2 ^ 26 }
        ensures { result ≡ are_fractions self.now place count }
    {
        for k in 0..count {
            if !self.is_fraction_at(place + k) {
                return false;
            }
        }
        true
    }

    /// Sizes, kerns and parameters but the slant are fractions.
    #[tactic(auto, unfolding(crate::specs::Rules::all_are_fractions))]
    fn all_are_fractions(&self) -> bool
        ensures { result ≡ all_are_fractions self.now }
    {
        let sizes = self.lengths.commands_at() - self.lengths.widths_at();
        self.are_fractions(self.lengths.widths_at(), sizes)
            && self.are_fractions(self.lengths.kerns_at(), self.lengths.kern_count())
            && self.are_fractions(
                self.lengths.parameters_at() + 1,
                self.lengths.scaled_count(),
            )
    }

    fn is_zero_at(&self, place: usize) -> bool
        requires { place < 2 ^ 32 }
        ensures { result ≡ is_zero (word_at self.now place) }
    {
        self.word(place).is_zero()
    }

    /// The first width, height, depth and italic correction are 0.
    #[tactic(auto, unfolding(crate::specs::Rules::first_sizes_are_zero))]
    fn first_sizes_are_zero(&self) -> bool
        ensures { result ≡ first_sizes_are_zero self.now }
    {
        self.is_zero_at(self.lengths.widths_at())
            && self.is_zero_at(self.lengths.heights_at())
            && self.is_zero_at(self.lengths.depths_at())
            && self.is_zero_at(self.lengths.italics_at())
    }

    /// A character can come next: it is there, or is the right boundary.
    fn can_come(&self, code: u8) -> bool
        ensures { result ≡ can_come self.now code }
    {
        self.is_there(usize::from(code)) || self.is_boundary(code)
    }

    fn is_boundary(&self, code: u8) -> bool
        ensures { result ≡ names (boundary_code self.now) code }
    {
        match self.boundary_code() {
            None => false,
            Some(boundary) => boundary == code,
        }
    }

    /// What a command inserts is there.
    fn inserts_well(&self, command: Word) -> bool
        ensures { result ≡ inserts_well self.now command }
    {
        if command.c < 128 {
            self.is_there(usize::from(command.d))
        } else {
            256 * (usize::from(command.c) - 128) + usize::from(command.d)
                < usize::from(self.lengths.kerns)
        }
    }

    /// A command leads to a command, or is well made itself.
    #[tactic(auto, unfolding(crate::specs::Rules::command_fits))]
    fn command_fits(&self, place: usize) -> bool
        requires { place < 2 ^ 17 }
        ensures { result ≡ command_fits self.now place }
    {
        let command = self.command(place);
        let count = usize::from(self.lengths.commands);
        if command.a > 128 {
            return command.target() < count;
        }
        self.can_come(command.b)
            && self.inserts_well(command)
            && (command.a == 128 || place + usize::from(command.a) + 1 < count)
    }

    #[tactic(auto, unfolding(crate::specs::Rules::all_commands_fit), using(crate::proofs::Every::every_steps))]
    fn all_commands_fit(&self) -> bool
        ensures { result ≡ all_commands_fit self.now }
    {
        for k in 0..usize::from(self.lengths.commands) {
            if !self.command_fits(k) {
                return false;
            }
        }
        true
    }

    /// A piece of a recipe is there, or is 0 where none is wanted.
    fn is_piece_or_none(&self, code: u8) -> bool
        ensures { result ≡ is_piece_or_none self.now code }
    {
        code == 0 || self.is_there(usize::from(code))
    }

    #[tactic(auto, unfolding(crate::specs::Rules::recipe_fits))]
    fn recipe_fits(&self, place: usize) -> bool
        requires { place < 2 ^ 17 }
        ensures { result ≡ recipe_fits self.now place }
    {
        let recipe = self.word(self.lengths.recipes_at() + place);
        self.is_piece_or_none(recipe.a)
            && self.is_piece_or_none(recipe.b)
            && self.is_piece_or_none(recipe.c)
            && self.is_there(usize::from(recipe.d))
    }

    #[tactic(auto, unfolding(crate::specs::Rules::all_recipes_fit), using(crate::proofs::Every::every_steps))]
    fn all_recipes_fit(&self) -> bool
        ensures { result ≡ all_recipes_fit self.now }
    {
        for k in 0..usize::from(self.lengths.recipes) {
            if !self.recipe_fits(k) {
                return false;
            }
        }
        true
    }

    fn is_piece(&self, piece: Option<u8>) -> bool
        ensures { result ≡ is_piece self.now piece }
    {
        match piece {
            None => true,
            Some(code) => self.is_there(usize::from(code)),
        }
    }

    /// Composing a pair ends soon. Most pairs meet no command, so that is asked first.
    #[tactic(auto, unfolding(crate::specs::Rules::pair_ends))]
    fn pair_ends(
        &self,
        alloc: Global,
        table: &Ligatures,
        left: usize,
        right: usize,
    ) -> Result<bool, AllocError>
        requires { IsTableOf self.now table.now.rows.items }
        ensures { IfOk result (λ ends. ends ≡ pair_ends self.now left right) }
    {
        let (left, right) = (piece(left), piece(right));
        if table.meets(left, right).is_none() {
            return Ok(true);
        }
        if self.is_piece(left) && self.is_piece(right) {
            return self.ends_within(alloc, table, 1000, left, right);
        }
        Ok(true)
    }

    /// Composing each pair of this left piece ends soon. Most pieces meet no command or aren't there, and are passed over.
    #[tactic(auto, unfolding(crate::specs::Rules::all_pairs_end_after), using(crate::proofs::Every::every_steps))]
    fn all_pairs_end_after(
        &self,
        alloc: Global,
        table: &Ligatures,
        left: usize,
    ) -> Result<bool, AllocError>
        requires table { IsTableOf self.now table.now.rows.items }
        requires left { left < 257 }
        ensures { IfOk result (λ ends. ends ≡ all_pairs_end_after self.now left) }
    {
        if table.meets_none(left) {
            return Ok(true);
        }
        if !self.is_piece(piece(left)) {
            return Ok(true);
        }
        for k in 0..257 {
            let ends = self.pair_ends(alloc, table, left, k)?;
            if !ends {
                return Ok(false);
            }
        }
        Ok(true)
    }

    #[tactic(auto, unfolding(crate::specs::Rules::all_pairs_end), using(crate::proofs::Every::every_steps))]
    fn all_pairs_end(&self, alloc: Global) -> Result<bool, AllocError>
        ensures { IfOk result (λ ends. ends ≡ all_pairs_end self.now) }
    {
        let table = self.ligatures(alloc)?;
        for k in 0..257 {
            let ends = self.all_pairs_end_after(alloc, &table, k)?;
            if !ends {
                return Ok(false);
            }
        }
        Ok(true)
    }
}

fn in_range(size: i64) -> Option<u32>
    ensures { MatchOption result (is_size size ≡ false) (λ z. (is_size size ≡ true) × (size ≡ pos z) × (1 ≤ z) × (z < 2 ^ 27)) }
{
    if 0 < size && size < 1 << 27 {
        Some(size as u32)
    } else {
        None
    }
}
