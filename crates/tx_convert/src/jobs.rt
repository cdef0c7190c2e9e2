//! \jobname.
ghost use Rattle.std.specs.Prelude.{◌≡◌, ◌++◌, OnOk};
ghost use Rattle.tx_convert.specs.Jobs.{job_name};
ghost use Rattle.tx_convert.specs.Texts.{as_tokens};

use crate::texts::push_text;
use std::alloc::AllocError;
use tx_toklist::Toks;

/// The name up to its last dot, or all of it where there is none.
fn job_of(name: &[u8]) -> &[u8]
    ensures { result.now ≡ job_name name.now }
{
    let mut end = name.len();
    while end > 0 {
        end -= 1;
        if name[end] == b'.' {
            return &name[..end];
        }
    }
    name
}

/// Puts the name of the job behind the tokens: the main file's name up to its last dot. Its only error is want of memory.
pub fn push_job_name(tokens: &mut Toks, main: &[u8]) -> Result<(), AllocError>
    ensures { OnOk result (tokens.new ≡ tokens.old ++ as_tokens (job_name main.now)) }
{
    push_text(tokens, job_of(main))
}
