//! Composing two characters by ligature commands, as far as it takes to see that it ends.
ghost use Rattle.std.specs.Prelude.{◌≡◌, ◌≤◌, ◌+◌, ◌∷◌, [], reverse, vec_len, IfOk, OnOk};
ghost use Rattle.tx_tfm.specs.Rewriting.{rewritten, ends_within};

use super::file::{Tfm, Word};
use super::ligatures::Ligatures;
use std::alloc::{AllocError, Global};

impl Tfm {
    ghost use Rattle.tx_tfm.specs.Table.{IsTableOf};

    /// Whether composing two characters takes at most `limit` ligature commands.
    pub fn ends_within(
        &self,
        alloc: Global,
        table: &Ligatures,
        limit: u32,
        left: Option<u8>,
        right: Option<u8>,
    ) -> Result<bool, AllocError>
        requires { IsTableOf self.now table.now.rows.items }
        ensures { IfOk result (λ ends. ends ≡ ends_within self.now limit (left ∷ right ∷ [])) }
    {
        let mut rest = Vec::new(alloc);
        rest.push(right)?;
        let mut current = left;
        let mut remaining = limit;
        while let Some(next) = rest.pop() {
            match table.meets(current, next) {
                None => current = next,
                Some(command) => {
                    if remaining == 0 {
                        return Ok(false);
                    }
                    remaining -= 1;
                    current = rewrite(command, current, next, &mut rest)?;
                }
            }
        }
        Ok(true)
    }
}

/// Carries out a ligature command: what follows the pair stands in `rest`, its last element first, and so does what
/// follows the character at the cursor, which is the answer.
fn rewrite(
    command: Word,
    current: Option<u8>,
    next: Option<u8>,
    rest: &mut Vec<Option<u8>>,
) -> Result<Option<u8>, AllocError>
    ensures rewritten { IfOk result (λ cursor. cursor ∷ reverse rest.new.items ≡ rewritten command current next (reverse rest.old.items)) }
    ensures longer { OnOk result (vec_len rest.new ≤ vec_len rest.old + 2) }
{
    let ligature = Some(command.d);
    match command.c {
        1 => {
            rest.push(next)?;
            Ok(ligature)
        }
        2 => {
            rest.push(ligature)?;
            Ok(current)
        }
        3 => {
            rest.push(next)?;
            rest.push(ligature)?;
            Ok(current)
        }
        5 | 11 => Ok(next),
        7 => {
            rest.push(next)?;
            Ok(ligature)
        }
        _ => Ok(ligature),
    }
}
