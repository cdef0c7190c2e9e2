//! The theorems that no DVI file begins with what is refused, that what is read of the pages of one is what their commands
//! mean, and that an assembled file is one.
ghost use Rattle.std.specs.Prelude.{◌≡◌, ◌+◌, ◌<◌, ◌≤◌, ◌^◌, ◌∷◌, [], ℕ, suc, List, Ok, Err, FitsSigned, length, sum_by, take};
ghost use Rattle.std.specs.Int.{w32};
ghost use Rattle.tx_dvitype.specs.declared.reader.ReadPage.{ReadPage};
ghost use Rattle.tx_dvi.specs.declared.placed.Placed.{Placed};
ghost use Rattle.tx_dvi.specs.Dvi.{dvi, page_size, preamble};
ghost use Rattle.tx_dvi.specs.Page.{Page};
ghost use Rattle.tx_dvitype.specs.Files.{Broken, dvi_file};
ghost use Rattle.tx_dvitype.specs.Grammar.{FileText, IsDviFile, IsTextOf};
ghost use Rattle.tx_dvitype.specs.ReadBack.{AreMeant, AreReadable, read_pages};

/// Bytes that are refused before their end are refused there whatever stands behind the byte that is refused. This call does
/// nothing: its contract is the theorem.
pub fn no_file_begins_with_what_is_refused()
    ensures { (bytes others : List ℕ) (broken : Broken) → dvi_file bytes ≡ Err broken → broken.place < length bytes → take (suc broken.place) others ≡ take (suc broken.place) bytes → dvi_file others ≡ Err broken }
{}

/// What is read of each page of a file is what its commands mean where characters have no width. This call does nothing: its
/// contract is the theorem.
pub fn pages_are_read_by_their_meaning()
    ensures { (bytes : List ℕ) (file : FileText) (pages : List ReadPage) → IsTextOf bytes file pages → AreMeant [] file.pages pages }
{}

/// The file that is assembled of pages whose commands may stand on them is one, which brings what they bring with their
/// numbers, if it is less than 2^31 bytes long up to its postamble. This call does nothing: its contract is the theorem.
pub fn assembled_files_are_read_back()
    ensures { (first : Page) (others : List Page) (placed : List (List Placed)) → 1 ≤ first.mag → first.mag ≤ 32768 → FitsSigned w32 first.date.year → length others < 10000 → length (preamble first) + sum_by page_size (first ∷ others) < 2 ^ 31 → AreReadable [] (first ∷ others) placed → IsDviFile (dvi (first ∷ others)) (read_pages (first ∷ others) placed) }
{}
