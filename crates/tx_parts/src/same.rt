//! Whether two parts are equal. What is cheap to compare is compared first.
ghost use Rattle.std.specs.Prelude.{◌≡◌, ◌↔◌, IsTrue};

use crate::parts::{Due, KeptToken, OpenText};
use tx_box::Lists;
use tx_bytes::Bytes;
use tx_char::Token;
use tx_eqtb::Eqtb;
use tx_hyphenate::Hyphenation;
use tx_list::{Stack, same_option};
use tx_word::Words;

/// Whether the same is due and the same text is begun.
pub fn same_begun(
    due: &Stack<Due>,
    other_due: &Stack<Due>,
    text: &Option<OpenText>,
    other_text: &Option<OpenText>,
) -> bool
    ensures { IsTrue result ↔ ((due.now ≡ other_due.now) × (text.now ≡ other_text.now)) }
{
    due.same(other_due) && same_option(text, other_text)
}

/// Whether the same tokens are kept for later.
pub fn same_kept(
    groups: &Stack<KeptToken>,
    other_groups: &Stack<KeptToken>,
    assignment: &Option<Token>,
    other_assignment: &Option<Token>,
) -> bool
    ensures { IsTrue result ↔ ((groups.now ≡ other_groups.now) × (assignment.now ≡ other_assignment.now)) }
{
    groups.same(other_groups) && same_option(assignment, other_assignment)
}

/// Whether the same lists are built, with the same table.
pub fn same_lists(lists: &Lists, other_lists: &Lists, table: &Eqtb, other_table: &Eqtb) -> bool
    ensures { IsTrue result ↔ ((lists.now ≡ other_lists.now) × (table.now ≡ other_table.now)) }
{
    lists.same(other_lists) && table.same(other_table)
}

/// Whether there are the same fonts, of which the pages define the same, and the same word is open, and the same is known of
/// hyphenation.
pub fn same_words(
    defined: &Bytes,
    other_defined: &Bytes,
    words: &Words,
    other_words: &Words,
    known: &Hyphenation,
    other_known: &Hyphenation,
) -> bool
    ensures { IsTrue result ↔ ((defined.now ≡ other_defined.now) × ((words.now ≡ other_words.now) × (known.now ≡ other_known.now))) }
{
    defined.same(other_defined) && words.same(other_words) && known.same(other_known)
}
