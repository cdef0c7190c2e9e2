//! The tokens that \aftergroup keeps, read again (TeX: The Program, section 326).
ghost use Rattle.std.specs.Prelude.{◌≡◌, [], IfOk, OnOk};
ghost use Rattle.tx_parts.specs.KeptTokens as spec;
ghost use Rattle.tx_pending.specs.Elements.{given_back};

use crate::parts::KeptToken;
use std::alloc::AllocError;
use tx_char::Token;
use tx_list::Stack;
use tx_pending::Pending;

/// The token that \aftergroup keeps for the end of the innermost of so many groups, the last of those that are left. Its only
/// error is that no more owners of a name can be counted.
fn kept_for(after_groups: &Stack<KeptToken>, groups: usize) -> Result<Option<Token>, AllocError>
    ensures { IfOk result (λ kept. kept ≡ spec.kept_for after_groups.now groups) }
{
    match after_groups.first() {
        Some(kept) if kept.groups == groups => Ok(Some(kept.token.clone()?)),
        _ => Ok(None),
    }
}

/// What \aftergroup keeps for the end of the innermost of so many groups is read next. Its only error is want of memory.
pub fn release_kept(
    after_groups: &mut Stack<KeptToken>,
    input: &mut Pending,
    groups: usize,
) -> Result<(), AllocError>
    ensures left { OnOk result (after_groups.new ≡ spec.left_after groups after_groups.old) }
    ensures input { OnOk result (input.new ≡ given_back input.old (spec.kept_tokens groups after_groups.old [])) }
{
    while let Some(token) = kept_for(after_groups, groups)? {
        after_groups.pop();
        input.give_back(token)?;
    }
    Ok(())
}
