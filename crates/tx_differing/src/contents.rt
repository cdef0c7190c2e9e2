//! The edit that gives a file other contents.
ghost use Rattle.std.specs.Prelude.{◌≡◌, ◌↔◌, ◌+◌, ◌≤◌, true, length, Some, IsNone, IfOk, IfSome};
ghost use Rattle.std.specs.FinMap.{insert};
ghost use Rattle.tx_bytes.specs.Files.{content};
ghost use Rattle.tx_differing.specs.Differing as spec;
ghost use Rattle.tx_files.specs.Edits.{edited, fits_in};

use crate::part::{Differing, differing_part};
use std::alloc::{AllocError, Global};
use tx_bytes::Bytes;
use tx_files::{Edit, FileSet, Name};

/// The edit that exchanges this part. Its only error is want of memory.
fn edit_by(alloc: Global, name: &Name, new: &[u8], part: Differing) -> Result<Edit, AllocError>
    requires { part.place + part.put ≤ length new.now }
    ensures { IfOk result (λ e. e ≡ spec.edit_by name.now new.now part) }
{
    Ok(Edit {
        name: name.clone()?,
        place: part.place as u64,
        removed: part.removed as u64,
        put: Bytes::from_slice(alloc, &new[part.place..part.place + part.put])?,
    })
}

/// The edit that gives the file of this name these contents, or makes it; None exactly where it has them. Its only error is want of
/// memory.
pub fn edit_to(
    alloc: Global,
    files: &FileSet,
    name: &Name,
    contents: &[u8],
) -> Result<Option<Edit>, AllocError>
    ensures edit { IfOk result (λ edit. edit ≡ spec.edit_to files.now name.now contents.now) }
    ensures none { IfOk result (λ edit. IsNone edit ↔ (content files.now name.now ≡ Some contents.now)) }
    ensures fits { IfOk result (λ edit. IfSome edit (λ e. fits_in files.now e ≡ true)) }
    ensures gives { IfOk result (λ edit. IfSome edit (λ e. edited files.now e ≡ insert files.now name.now contents.now)) }
{
    let Some(old) = files.get(name.as_slice()) else {
        let part = differing_part(&[], contents);
        return Ok(Some(edit_by(alloc, name, contents, part)?));
    };
    let part = differing_part(old.as_slice(), contents);
    if part.removed == 0 && part.put == 0 {
        return Ok(None);
    }
    Ok(Some(edit_by(alloc, name, contents, part)?))
}
