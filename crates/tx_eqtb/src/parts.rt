//! The table in parts that are shared until they change.
ghost use Rattle.std.specs.Prelude.{◌≡◌, IfOk};

use crate::cells::Cells;
use crate::seldom::Seldom;
use crate::table::Table;
use std::alloc::{AllocError, Global};
use std::marker::Model;
use std::rc::Rc;
use tx_name::NameMap;
use tx_seen::Meaning;

/// A table that is shared in few steps. What groups change most is shared part by part, all else in one, so that a group
/// begins and ends with few counts of owners. Contracts see the table.
#[derive(Drop)]
pub struct Parts {
    pub(crate) names: NameMap<Meaning>,
    pub(crate) counts: Cells<i32>,
    pub(crate) dimens: Cells<i32>,
    pub(crate) integers: Cells<i32>,
    pub(crate) dimensions: Cells<i32>,
    pub(crate) seldom: Rc<Seldom>,
    pub(crate) font: u8,
}

impl Model for Parts {
    ghost use Rattle.tx_eqtb.specs.declared.table.Table.{Table};
    ghost use Rattle.tx_eqtb.specs.contracts.table.Table as table;

    ghost Value = { Table };

    ghost coded = { table.the_row.coded };

    ghost view = { λ p. record { names = p.names; active = p.seldom.value.active; categories = p.seldom.value.categories; counts = p.counts; dimens = p.dimens; lower_case = p.seldom.value.lower_case; upper_case = p.seldom.value.upper_case; space_factors = p.seldom.value.space_factors; math = p.seldom.value.math; delimiters = p.seldom.value.delimiters; integers = p.integers; dimensions = p.dimensions; skips = p.seldom.value.skips; muskips = p.seldom.value.muskips; glue_parameters = p.seldom.value.glue_parameters; token_registers = p.seldom.value.token_registers; token_parameters = p.seldom.value.token_parameters; boxes = p.seldom.value.boxes; families = p.seldom.value.families; par_shape = p.seldom.value.par_shape; font = p.font } };
}

impl Parts {
    /// This table. Its only error is want of memory.
    pub fn new(alloc: Global, table: Table) -> Result<Parts, AllocError>
        ensures { IfOk result (λ parts. parts ≡ table) }
    {
        let Table {
            names,
            active,
            categories,
            counts,
            dimens,
            lower_case,
            upper_case,
            space_factors,
            math,
            delimiters,
            integers,
            dimensions,
            skips,
            muskips,
            glue_parameters,
            token_registers,
            token_parameters,
            boxes,
            families,
            par_shape,
            font,
        } = table;
        let seldom = Rc::new(
            alloc,
            Seldom {
                active,
                categories,
                lower_case,
                upper_case,
                space_factors,
                math,
                delimiters,
                skips,
                muskips,
                glue_parameters,
                token_registers,
                token_parameters,
                boxes,
                families,
                par_shape,
            },
        )?;
        Ok(Parts {
            names,
            counts,
            dimens,
            integers,
            dimensions,
            seldom,
            font,
        })
    }
}
