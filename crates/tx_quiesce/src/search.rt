//! The old row that a new one meets.
ghost use Rattle.std.specs.Prelude.{◌≡◌, ◌&&◌, not};
ghost use Rattle.std.specs.List.{list_any};
ghost use Rattle.tx_checkpoint.specs.Meant.{row_meant, rows_meant};
ghost use Rattle.tx_quiesce.specs.Meeting as spec;
ghost use Rattle.tx_quiesce.specs.Tails.{AreOffsets};
ghost use Rattle.tx_files.specs.Reads as reads;

use crate::meeting::meets;
use crate::tails::{Offsets, next_candidate, origin_of};
use tx_checkpoint::{Last, Row, Rows};
use tx_files::{Change, asks_for_any};
use tx_machine::Machine;

/// Whether the turns of some rows asked for one of the changed files.
fn rows_ask<S>(rows: &[Row<S>], changes: &[Change]) -> bool
    ensures { result ≡ list_any (λ row. reads.asks_for_any row.seen changes.now) rows.now }
{
    rows.iter().any(|row| asks_for_any(&row.seen, changes))
}

/// Whether the turns of some rows, or of the stretch after them, asked for one of the changed files.
fn rest_asks<S>(rows: &[Row<S>], last: &Last, changes: &[Change]) -> bool
    ensures { result ≡ spec.rest_asks_any rows.now last.now changes.now }
{
    rows_ask(rows, changes) || asks_for_any(&last.seen, changes)
}

/// Whether a new row meets an old one: it fits, and what is behind the old one doesn't ask for a changed file.
fn is_met<M: Machine>(
    machine: &M,
    row: &Row<M::State>,
    behind: &[Row<M::State>],
    last: &Last,
    changes: &[Change],
    new: &Row<M::State>,
) -> bool
    ensures { result ≡ (spec.row_fits M.formatter changes.now (row_meant M.meaning row.now) (row_meant M.meaning new.now) && not (spec.rest_asks_any behind.now last.now changes.now)) }
{
    meets(machine, row, new, changes) && !rest_asks(behind, last, changes)
}

/// The first old row that a new one meets, counted from 1; none before the row at which formatting resumed. It tries only rows
/// whose innermost offsets may fit. It takes no memory.
pub fn met_row<M: Machine>(
    machine: &M,
    old: &Rows<M::State>,
    offsets: &Offsets,
    changes: &[Change],
    resumed: usize,
    new: &Row<M::State>,
) -> Option<usize>
    requires { AreOffsets old.now.rows.items offsets.now }
    ensures { result ≡ spec.met_row M.formatter changes.now (rows_meant M.meaning old.now.rows.items) old.now.last resumed (row_meant M.meaning new.now) }
{
    let rows = old.rows.as_slice();
    let origin = origin_of(&new.opens, changes);
    let mut at = next_candidate(rows, offsets, resumed.max(1) - 1, origin);
    while at < rows.len() {
        if is_met(machine, &rows[at], &rows[at + 1..], &old.last, changes, new) {
            return Some(at + 1);
        }
        at = next_candidate(rows, offsets, at + 1, origin);
    }
    None
}
