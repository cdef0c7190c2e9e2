//! What takes a token to the scans of a command.
ghost use Rattle.std.specs.Prelude.{◌≤◌, ◌+◌, length, IfOk};
ghost use Rattle.tx_scan.specs.Rests.{HasTakenBy};
ghost use Rattle.tx_command.specs.Commands as commands;
ghost use Rattle.tx_command.specs.Rests.{command_rest, held, more_needed, told, GoesOn, IsOn};
ghost use Rattle.tx_command.specs.Taken.{joined, IsSettled};

use crate::buffer::CommandBuffer;
use crate::scans::{Scans, Whole};
use crate::taken_items::TakenItems;
use crate::types::Head;
use std::alloc::AllocError;
use tx_prim::Mode;
use tx_seen::{Fed, Quantities, Seen};

/// What reads commands by their grammar. It stands above, so that what holds an open command doesn't stand on what reads it.
pub trait TakesTokens {
    /// Takes one token, and the values that the command needs behind it. A token that ends the command isn't kept, where it isn't
    /// given back. Its only error is want of memory.
    fn take<Q: Quantities>(
        mode: Mode,
        head: &Head,
        taken: &mut TakenItems,
        scans: &mut Scans,
        quantities: &Q,
        token: Seen,
        made: &mut CommandBuffer,
    ) -> Result<Fed<Whole>, AllocError>
        requires reads { HasTakenBy (command_rest mode head.now) held (commands.command mode head.now) scans.old taken.old }
        requires on { IsOn scans.old }
        requires few { more_needed scans.old ≤ length taken.old + 1 }
        ensures settled { IfOk result (λ fed. IsSettled mode head.now (joined (Q.value_at quantities.now) mode head.now taken.old token) taken.new scans.new (told scans.new made.new fed)) }
        ensures on { IfOk result (GoesOn scans.new) };
}
