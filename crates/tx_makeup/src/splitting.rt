//! What \vsplit splits off goes where it is to go (TeX: The Program, section 1082).
ghost use Rattle.std.specs.Prelude.{◌≡◌, IfOk};
ghost use Rattle.tx_box.specs.Building.{reported};
ghost use Rattle.tx_box.specs.Effects.{told};
ghost use Rattle.tx_makeup.specs.Splitting as spec;

use std::alloc::{AllocError, Global};
use tx_box::{Done, Ended, Lists, Target, place};
use tx_bytes::Bytes;
use tx_eqtb::Eqtb;
use tx_galley::{GalleyError, split_box};
use tx_pack::Packed;

/// What was split off goes where it is to go; \badness is how bad its box is. Its only error is want of memory.
fn place_split(
    alloc: Global,
    lists: &mut Lists,
    table: &mut Eqtb,
    target: Target,
    packed: Option<Packed>,
) -> Result<Ended, AllocError>
    ensures { IfOk result (λ ended. spec.split_placed target lists.old table.old packed ≡ reported ended.report (told ended.done lists.new table.new)) }
{
    match packed {
        None => {
            let done = place(alloc, lists, table, target, None)?;
            Ok(Ended {
                done,
                report: Bytes::new(alloc),
            })
        }
        Some(
            Packed {
                node,
                badness,
                report,
            },
        ) => {
            lists.badness = badness;
            let done = place(alloc, lists, table, target, Some(node))?;
            Ok(Ended { done, report })
        }
    }
}

/// What \vsplit of a register to so many sp splits off goes where it is to go; the answer may be what is wrong. After want of memory,
/// its only error, lists and table may only be dropped.
pub fn split(
    alloc: Global,
    lists: &mut Lists,
    table: &mut Eqtb,
    target: Target,
    number: u8,
    size: i32,
) -> Result<Ended, AllocError>
    ensures { IfOk result (λ ended. spec.splitting target number size lists.old table.old ≡ reported ended.report (told ended.done lists.new table.new)) }
{
    match split_box(alloc, table, &mut lists.pages, number, size) {
        Ok(packed) => place_split(alloc, lists, table, target, packed),
        Err(GalleyError::Refused(error)) => Ok(Ended {
            done: Done::Wrong(error),
            report: Bytes::new(alloc),
        }),
        Err(GalleyError::OutOfMemory) => Err(AllocError),
    }
}
