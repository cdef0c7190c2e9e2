//! What is due, begun, or kept for later, and the bytes that a run has put out.
ghost use Rattle.std.specs.Prelude.{◌≡◌, IfOk};

use crate::parts::{Due, KeptToken, OpenText};
use std::alloc::AllocError;
use tx_bytes::Bytes;
use tx_char::Token;
use tx_list::{Stack, both, share_option};

/// The small parts of a state.
pub struct SmallParts {
    /// The next piece first.
    pub due: Stack<Due>,
    /// The text that is being taken, if one is.
    pub text: Option<OpenText>,
    /// What \aftergroup keeps, the last first.
    pub after_groups: Stack<KeptToken>,
    /// What \afterassignment keeps.
    pub after_assignment: Option<Token>,
    /// The numbers of the fonts that the pages define.
    pub defined: Bytes,
    /// The bytes of the transcript that are still to be taken.
    pub said: Bytes,
}

// (by hand, so that crates above call this and don't prove again how each part is dropped)
impl Drop for SmallParts {
    fn drop(self) {
        let SmallParts {
            due: _,
            text: _,
            after_groups: _,
            after_assignment: _,
            defined: _,
            said: _,
        } = self;
    }
}

/// A copy of what is due. Its only error is want of memory.
fn share_due(due: &Stack<Due>) -> Result<Stack<Due>, AllocError>
    ensures { IfOk result (λ shared. shared ≡ due.now) }
{
    due.share()
}

impl SmallParts {
    /// Copies of these parts. Its only error is want of memory.
    pub fn share(
        due: &Stack<Due>,
        text: &Option<OpenText>,
        after_groups: &Stack<KeptToken>,
        after_assignment: &Option<Token>,
        defined: &Bytes,
        said: &Bytes,
    ) -> Result<SmallParts, AllocError>
        ensures due { IfOk result (λ twin. twin.due ≡ due.now) }
        ensures text { IfOk result (λ twin. twin.text ≡ text.now) }
        ensures after_groups { IfOk result (λ twin. twin.after_groups ≡ after_groups.now) }
        ensures after_assignment { IfOk result (λ twin. twin.after_assignment ≡ after_assignment.now) }
        ensures defined { IfOk result (λ twin. twin.defined ≡ defined.now) }
        ensures said { IfOk result (λ twin. twin.said ≡ said.now) }
    {
        let begun = both(share_due(due), share_option(text));
        let tokens = both(after_groups.share(), share_option(after_assignment));
        let bytes = both(defined.clone(), said.clone());
        let ((begun, tokens), (defined, said)) = both(both(begun, tokens), bytes)?;
        let (due, text) = begun;
        let (after_groups, after_assignment) = tokens;
        Ok(SmallParts {
            due,
            text,
            after_groups,
            after_assignment,
            defined,
            said,
        })
    }

    /// Each part by itself.
    pub fn into_parts(
        self,
    ) -> (
        (Stack<Due>, Option<OpenText>),
        ((Stack<KeptToken>, Option<Token>), (Bytes, Bytes)),
    )
        ensures { result ≡ ((self.due, self.text), ((self.after_groups, self.after_assignment), (self.defined, self.said))) }
    {
        let SmallParts {
            due,
            text,
            after_groups,
            after_assignment,
            defined,
            said,
        } = self;
        (
            (due, text),
            ((after_groups, after_assignment), (defined, said)),
        )
    }
}
