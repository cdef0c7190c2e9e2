//! The table, the fonts, the lists and what is known of hyphenation: most of what a state holds.
ghost use Rattle.std.specs.Prelude.{◌≡◌, IfOk};

use std::alloc::AllocError;
use tx_box::Lists;
use tx_eqtb::Eqtb;
use tx_hyphenate::Hyphenation;
use tx_list::both;
use tx_word::Words;

/// The large parts of a state.
pub struct LargeParts {
    /// The fonts, and the word that is open.
    pub words: Words,
    pub table: Eqtb,
    /// What is known of hyphenation.
    pub hyphenation: Hyphenation,
    /// The lists that are being built, with their boxes.
    pub lists: Lists,
}

// (by hand, so that crates above call this and don't prove again how each part is dropped)
impl Drop for LargeParts {
    fn drop(self) {
        let LargeParts {
            words: _,
            table: _,
            hyphenation: _,
            lists: _,
        } = self;
    }
}

impl LargeParts {
    /// Copies of these parts, which share with them what they can. Its only error is want of memory.
    pub fn share(
        words: &Words,
        table: &Eqtb,
        hyphenation: &Hyphenation,
        lists: &Lists,
    ) -> Result<LargeParts, AllocError>
        ensures words { IfOk result (λ twin. twin.words ≡ words.now) }
        ensures table { IfOk result (λ twin. twin.table ≡ table.now) }
        ensures hyphenation { IfOk result (λ twin. twin.hyphenation ≡ hyphenation.now) }
        ensures lists { IfOk result (λ twin. twin.lists ≡ lists.now) }
    {
        let known = both(words.share(), hyphenation.share());
        let built = both(table.share(), lists.share());
        let ((words, hyphenation), (table, lists)) = both(known, built)?;
        Ok(LargeParts {
            words,
            table,
            hyphenation,
            lists,
        })
    }

    /// Each part by itself.
    pub fn into_parts(self) -> ((Words, Eqtb), (Hyphenation, Lists))
        ensures { result ≡ ((self.words, self.table), (self.hyphenation, self.lists)) }
    {
        let LargeParts {
            words,
            table,
            hyphenation,
            lists,
        } = self;
        ((words, table), (hyphenation, lists))
    }
}
