//! How the glue of a box is set.
ghost use Rattle.std.specs.Prelude.{◌≡◌, ◌≤◌, ◌<◌, ◌^◌, unsigned_abs};
ghost use Rattle.tx_num.specs.Glue.{IsDimension};
ghost use Rattle.tx_node.specs.Setting.{IsSet};
ghost use Rattle.tx_pack.specs.Stretching as spec;
ghost use Rattle.tx_pack.specs.Sums.{AreSmall, IsSmall};

use crate::sums::{Orders, Sums};
use tx_node::{Change, GlueSet, Setting};

/// An order of stretch or shrink (0 to 3) and how much there is of it, in sp.
#[derive(Clone, Copy)]
pub struct Most {
    pub order: u8,
    pub total: i64,
}

/// The highest order of which there is something, normal where there is nothing.
pub fn highest(orders: &Orders) -> Most
    requires { AreSmall orders.now }
    ensures value { result ≡ spec.highest orders.now }
    ensures order { result.order ≤ 3 }
    ensures total { IsDimension result.total }
{
    let (order, total) = if orders.filll != 0 {
        (3, orders.filll)
    } else if orders.fill != 0 {
        (2, orders.fill)
    } else if orders.fil != 0 {
        (1, orders.fil)
    } else {
        (0, orders.normal)
    };
    Most { order, total }
}

/// Glue that is set by what there is of an order, if there is something.
fn set_by(change: Change, most: Most, excess: i64) -> Setting
    requires total { IsDimension most.total }
    requires order { most.order ≤ 3 }
    requires excess { unsigned_abs excess < 2 ^ 31 }
    ensures value { result ≡ spec.set_by change most excess }
    ensures is_set { IsSet result }
{
    if most.total == 0 {
        return Setting::Natural;
    }
    Setting::Set(GlueSet {
        change,
        order: most.order,
        total: most.total as i32,
        excess: excess as i32,
    })
}

/// Whether a list has to become shorter by more than its shrink of normal order.
pub fn is_overfull(most: Most, excess: i64) -> bool
    requires { unsigned_abs excess < 2 ^ 31 }
    ensures { result ≡ spec.is_overfull most excess }
{
    most.order == 0 && most.total < -excess
}

/// By how much glue is set that has to shrink by so much.
fn held(most: Most, excess: i64) -> i64
    requires total { IsDimension most.total }
    requires excess { unsigned_abs excess < 2 ^ 31 }
    ensures value { result ≡ spec.held most excess }
    ensures size { unsigned_abs result < 2 ^ 31 }
{
    if is_overfull(most, excess) {
        -most.total
    } else {
        excess
    }
}

/// How the glue of a list with these sums is set where it has to grow by so much, in sp.
pub fn setting_for(sums: &Sums, excess: i64) -> Setting
    requires small { IsSmall sums.now }
    requires excess { unsigned_abs excess < 2 ^ 31 }
    ensures value { result ≡ spec.setting_for sums.now excess }
    ensures is_set { IsSet result }
{
    if 0 < excess {
        set_by(Change::Stretch, highest(&sums.stretch), excess)
    } else if excess < 0 {
        let most = highest(&sums.shrink);
        set_by(Change::Shrink, most, held(most, excess))
    } else {
        Setting::Natural
    }
}
