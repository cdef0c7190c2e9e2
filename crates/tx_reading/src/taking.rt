//! Tokens, taken to the scans of a command with the values that it needs behind them.
ghost use Rattle.std.specs.Prelude.{◌≡◌, ◌↔◌, ◌∷◌, ◌++◌, [], List, IfOk, OnOk, IsTrue};
ghost use Rattle.tx_prim.specs.declared.modes.Mode.{Mode};
ghost use Rattle.tx_seen.specs.declared.item.Item.{Item};
ghost use Rattle.tx_seen.specs.declared.item.Item.TheVariants.{Gave, Took};
ghost use Rattle.tx_seen.specs.Readings.{last};
ghost use Rattle.tx_scan.specs.Rests.{IsGivenBehind};
ghost use Rattle.tx_scan.specs.Supplied.{value_for, NeedsFewer};
ghost use Rattle.tx_command.specs.declared.types.Head.{Head};
ghost use Rattle.tx_command.specs.Rests.{command_rest, held, more_needed, told, GoesOn, IsWaiting};
ghost use Rattle.tx_command.specs.Taken.{IsEnd, IsPending, IsSettled};

use crate::stage::{feed_scans, give_scans};
use std::alloc::AllocError;
use tx_command::{CommandBuffer, Head, Scans, TakenItems, TakesTokens, Whole};
use tx_prim::Mode;
use tx_seen::{Fed, Item, Kind, Quantities, Seen};

/// What reads commands as their grammar says.
#[derive(Clone, Copy)]
pub struct Reader;

impl TakesTokens for Reader {
    fn take<Q: Quantities>(
        mode: Mode,
        head: &Head,
        taken: &mut TakenItems,
        scans: &mut Scans,
        quantities: &Q,
        token: Seen,
        made: &mut CommandBuffer,
    ) -> Result<Fed<Whole>, AllocError> {
        let fed = feed_scans(scans, mode, head, &token, made)?;
        match fed {
            // most tokens
            Fed::More(want) => {
                taken.push(Item::Took(token))?;
                Ok(Fed::More(want))
            }
            Fed::Need(kind) => supply(taken, scans, quantities, token, kind, made),
            fed => {
                if is_end(&fed) {
                    return Ok(fed);
                }
                taken.push(Item::Took(token))?;
                Ok(fed)
            }
        }
    }
}

/// Whether an answer ends the command, and no token is given back.
fn is_end(fed: &Fed<Whole>) -> bool
    ensures { IsTrue result ↔ IsEnd fed.now }
{
    match fed {
        Fed::Done(_, back) => *back == 0,
        Fed::Wrong(_) => true,
        Fed::More(_) | Fed::Need(_) => false,
    }
}

/// Takes a token behind which the command needs a value of this kind, and perhaps further ones, and gives them as the table has
/// them. Its only error is want of memory.
#[inline(never)]
fn supply<Q: Quantities>(
    taken: &mut TakenItems,
    scans: &mut Scans,
    quantities: &Q,
    token: Seen,
    kind: Kind,
    made: &mut CommandBuffer,
) -> Result<Fed<Whole>, AllocError>
    requires { IsWaiting scans.old }
    ensures settled { (mode : Mode) (head : Head) (items : List Item) → IsPending (Q.value_at quantities.now) mode head items (taken.old ++ Took token ∷ []) scans.old (Fed.Need kind) → IfOk result (λ fed. IsSettled mode head items taken.new scans.new (told scans.new made.new fed)) }
    ensures on { IfOk result (GoesOn scans.new) }
{
    let behind = token.clone()?;
    taken.push(Item::Took(token))?;
    settle(taken, scans, quantities, &behind, Fed::Need(kind), made)
}

/// Gives the values that the command needs behind the token that was taken last, as the table has them, until it needs none. Its
/// only error is want of memory.
fn settle<Q: Quantities>(
    taken: &mut TakenItems,
    scans: &mut Scans,
    quantities: &Q,
    behind: &Seen,
    fed: Fed<Whole>,
    made: &mut CommandBuffer,
) -> Result<Fed<Whole>, AllocError>
    requires on { GoesOn scans.old fed }
    requires last { last 1 taken.old ≡ Took behind.now ∷ [] }
    ensures settled { (mode : Mode) (head : Head) (items : List Item) → IsPending (Q.value_at quantities.now) mode head items taken.old scans.old (told scans.old made.old fed) → IfOk result (λ answer. IsSettled mode head items taken.new scans.new (told scans.new made.new answer)) }
    ensures on { IfOk result (GoesOn scans.new) }
{
    let mut fed = fed;
    loop {
        match fed {
            Fed::Need(kind) => fed = give(taken, scans, quantities, behind, &kind, made)?,
            settled => return Ok(settled),
        }
    }
}

/// Gives the value that is needed, where this token was taken last. Its only error is want of memory.
fn give<Q: Quantities>(
    taken: &mut TakenItems,
    scans: &mut Scans,
    quantities: &Q,
    behind: &Seen,
    kind: &Kind,
    made: &mut CommandBuffer,
) -> Result<Fed<Whole>, AllocError>
    requires { IsWaiting scans.old }
    ensures given { (mode : Mode) (head : Head) → IfOk result (λ fed. IsGivenBehind (command_rest mode head) held scans.old (value_for (Q.value_at quantities.now) kind.now) behind.now scans.new (told scans.new made.new fed)) }
    ensures needs { IfOk result (NeedsFewer (more_needed scans.old) (more_needed scans.new)) }
    ensures on { IfOk result (GoesOn scans.new) }
    ensures taken { OnOk result (taken.new ≡ taken.old ++ Gave (value_for (Q.value_at quantities.now) kind.now) ∷ []) }
{
    match kind {
        Kind::Quantity(place) => {
            let value = quantities.quantity(place);
            let fed = give_scans(scans, &value, behind, made)?;
            taken.push(Item::Gave(value))?;
            Ok(fed)
        }
    }
}
