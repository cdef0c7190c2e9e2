//! What may be asked, as it is lent.

use tx_eqtb::Eqtb;
use tx_nest::Nest;
use tx_output::Pages;
use tx_tfm::Fonts;

/// What may be asked for: the table, the lists that are being built, what is kept of pages, how bad the box is that was packed
/// last, the magnification once it is used, the fonts, and whether a word is open, so that nothing can be told of the list's last
/// item.
#[derive(Clone, Copy)]
pub struct Known<'a> {
    pub table: &'a Eqtb,
    pub nest: &'a Nest,
    pub pages: &'a Pages,
    pub badness: i64,
    pub magnification: Option<i32>,
    pub fonts: &'a Fonts,
    pub has_word: bool,
}
