//! The theorems that a preamble is read as it is written, and that what an entry leaves to a column is what the columns before it
//! and the skips between don't take.
ghost use Rattle.std.specs.Prelude.{◌≡◌, Ok};
ghost use Rattle.tx_num.specs.Glue.{GlueSpec};
ghost use Rattle.tx_align.specs.Extents.{LeavesRoom};
ghost use Rattle.tx_align.specs.Grammar.{AreApart, WrittenPreamble, meant, reads, text_of};
ghost use Rattle.tx_align.specs.Preambles.{Forming, nothing_read};

/// The text of a preamble, item by item, makes of one of which nothing is read what is meant by it. This call does nothing: its
/// contract is the theorem.
pub fn preambles_are_read_as_written()
    ensures { (tabskip : GlueSpec) (w : WrittenPreamble) → AreApart w.repeats → reads (nothing_read tabskip) (text_of w) ≡ Ok (meant tabskip w) }
{}

/// At each column, when those before it have their widths, an entry that ends in it leaves to it its own width, less the widths of
/// those that it spans before and the skips between. This call does nothing: its contract is the theorem.
pub fn entries_leave_room()
    ensures { (p : Forming) → LeavesRoom p }
{}
