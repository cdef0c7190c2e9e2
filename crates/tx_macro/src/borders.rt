//! The table of a delimiter that says how much of it still agrees where a token doesn't (Knuth, Morris and Pratt, Fast
//! pattern matching in strings).
ghost use Rattle.std.specs.Prelude.{◌≡◌, ◌<◌, ◌+◌, ◌∷◌, ◌++◌, [], drop, length, take, IfOk};
ghost use Rattle.tx_macro.specs.Agreement.{IsTable, agreement};

use crate::stage::Table;
use std::alloc::{AllocError, Global};
use tx_char::Token;

/// For each number of a delimiter's first tokens how many of their last ones, fewer than all, are its beginning. Its only
/// error is want of memory.
pub(crate) fn borders_of(alloc: Global, delimiter: &[Token]) -> Result<Table, AllocError>
    ensures { IfOk result (λ borders. IsTable delimiter.now borders (length delimiter.now)) }
{
    let mut borders = Vec::new(alloc);
    borders.push(0)?;
    let mut border = 0;
    for k in 0..delimiter.len() {
        border = next_border(delimiter, borders.as_slice(), border, k);
        borders.push(border)?;
    }
    Ok(Table::from_vec(borders))
}

/// The border of one token more than this many, whose own border is known.
fn next_border(delimiter: &[Token], borders: &[usize], border: usize, k: usize) -> usize
    requires within { k < length delimiter.now }
    requires table { IsTable delimiter.now borders.now k }
    requires border { border ≡ agreement delimiter.now (drop 1 (take k delimiter.now)) }
    ensures { result ≡ agreement delimiter.now (drop 1 (take (k + 1) delimiter.now)) }
{
    if k == 0 {
        return 0;
    }
    agreed(delimiter, borders, border, &delimiter[k])
}

/// How many of a delimiter's first tokens the last tokens agree with once this one is met, if they agreed with so many
/// before it, fewer than all.
pub(crate) fn agreed(delimiter: &[Token], borders: &[usize], before: usize, token: &Token) -> usize
    requires within { before < length delimiter.now }
    requires table { IsTable delimiter.now borders.now before }
    ensures { result ≡ agreement delimiter.now (take before delimiter.now ++ token.now ∷ []) }
{
    let mut agreed = before;
    while !delimiter[agreed].same(token) {
        if agreed == 0 {
            return 0;
        }
        agreed = borders[agreed];
    }
    agreed + 1
}
