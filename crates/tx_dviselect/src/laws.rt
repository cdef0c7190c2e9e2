//! The theorem that a page alone means what it means in its document.
ghost use Rattle.std.specs.Prelude.{List};
ghost use Rattle.tx_dvi.specs.declared.font.FontDefinition.{FontDefinition};
ghost use Rattle.tx_dvi.specs.Meaning.{Widths};
ghost use Rattle.tx_dvi.specs.Page.{Page};
ghost use Rattle.tx_dviselect.specs.Alone.{MeansTheSame};

/// A page means in a file of its own what it means behind the pages that define these fonts, whatever the widths of their characters:
/// the same characters, rules and specials at the same places. This call does nothing: its contract is the theorem.
pub fn a_page_alone_means_the_same()
    ensures { (widths : Widths) (earlier : List FontDefinition) (page : Page) → MeansTheSame widths earlier page }
{}
