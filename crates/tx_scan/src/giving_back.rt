//! What was taken and isn't part of a thing goes back to the input (TeX: The Program, section 325).
ghost use Rattle.std.specs.Prelude.{◌≡◌, OnOk};
ghost use Rattle.tx_pending.specs.Elements.{given_back};
ghost use Rattle.tx_seen.specs.Readings.{last};
ghost use Rattle.tx_scan.specs.Settled.{tokens_of};

use std::alloc::AllocError;
use tx_char::Token;
use tx_list::Items;
use tx_pending::Pending;
use tx_seen::{Item, Seen};

/// The token, without what it meant.
pub fn token_of(seen: Seen) -> Token
    ensures { result ≡ seen.token }
{
    let Seen { token, meaning: _ } = seen;
    token
}

/// Puts the last tokens that were taken, so many of them, at the front of the input, in their order; what they meant is
/// forgotten, and of `taken` nothing is said from then on. Its only error is want of memory.
#[inline(never)]
pub fn give_back(
    taken: &mut Items<Item>,
    input: &mut Pending,
    back: usize,
) -> Result<(), AllocError>
    ensures { OnOk result (input.new ≡ given_back input.old (tokens_of (last back taken.old))) }
{
    let mut left = back;
    while left > 0 {
        match taken.pop() {
            Some(Item::Took(seen)) => {
                input.give_back(token_of(seen))?;
                left -= 1;
            }
            Some(Item::Gave(_)) => {}
            None => return Ok(()),
        }
    }
    Ok(())
}
