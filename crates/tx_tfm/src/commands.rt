//! Ligature and kerning programs: which command a pair of characters meets. At the left of a pair `None` is the left
//! boundary of a word, at its right the right boundary.
ghost use Rattle.std.specs.Prelude.{◌≡◌, ◌≤◌, ◌<◌, ◌^◌, IfSome};
ghost use Rattle.tx_tfm.specs.LigKern.{command_at, target, boundary_code, boundary_start, character_start, found, start_of};

use super::file::{Tfm, Word};

impl Word {
    /// The place among the commands that the third and the fourth byte name.
    pub fn target(&self) -> usize
        ensures value { result ≡ target self.now }
        ensures bound { result < 2 ^ 16 }
    {
        256 * usize::from(self.c) + usize::from(self.d)
    }
}

impl Tfm {
    /// The command at a place.
    pub fn command(&self, place: usize) -> Word
        requires { place < 2 ^ 26 }
        ensures { result ≡ command_at self.now place }
    {
        self.word(self.lengths.commands_at() + place)
    }

    /// The code of the right boundary.
    #[tactic(auto, unfolding(crate::specs::LigKern::boundary_code))]
    pub fn boundary_code(&self) -> Option<u8>
        ensures { result ≡ boundary_code self.now }
    {
        let first = self.command(0);
        if self.lengths.commands > 0 && first.a == 255 {
            Some(first.b)
        } else {
            None
        }
    }

    /// Where the program of the left boundary begins.
    #[tactic(auto, unfolding(crate::specs::LigKern::boundary_start))]
    fn boundary_start(&self) -> Option<usize>
        ensures value { result ≡ boundary_start self.now }
        ensures bound { IfSome result (λ k. k < 2 ^ 16) }
    {
        let last = self.command(usize::from(self.lengths.commands).saturating_sub(1));
        if self.lengths.commands > 0 && last.a == 255 {
            Some(last.target())
        } else {
            None
        }
    }

    /// Where the program of a character begins.
    #[tactic(auto, unfolding(crate::specs::LigKern::character_start))]
    fn character_start(&self, code: u8) -> Option<usize>
        ensures value { result ≡ character_start self.now code }
        ensures bound { IfSome result (λ k. k < 2 ^ 16) }
    {
        let info = self.info(usize::from(code));
        if info.tag() != 1 {
            return None;
        }
        let first = self.command(usize::from(info.d));
        if first.a > 128 {
            Some(first.target())
        } else {
            Some(usize::from(info.d))
        }
    }

    /// The command for a next character of this code in the program from a place on.
    pub fn find(&self, start: usize, code: u8) -> Option<Word>
        requires { start < 2 ^ 16 }
        ensures { result ≡ found self.now self.now.lengths.commands start code }
    {
        let mut place = start;
        let mut left = self.lengths.commands;
        while left > 0 {
            let command = self.command(place);
            if command.a > 128 {
                return None;
            }
            if command.b == code {
                return Some(command);
            }
            if command.a == 128 {
                return None;
            }
            place += usize::from(command.a) + 1;
            left -= 1;
        }
        None
    }

    /// Where the program of ligatures and kerns begins for what stands on the left, a character or, where None is given, the left
    /// boundary; None where it has none (TeX: The Program, section 545).
    pub fn start_of(&self, left: Option<u8>) -> Option<usize>
        ensures value { result ≡ start_of self.now left }
        ensures bound { IfSome result (λ k. k < 2 ^ 16) }
    {
        match left {
            None => self.boundary_start(),
            Some(code) => self.character_start(code),
        }
    }
}
