//! Putting a page out.
ghost use Rattle.std.specs.Prelude.{◌≡◌, ◌≢◌, ◌↔◌, is_some, IsTrue, IfOk, IfErr, OnOk, OnErr, Ok, Err, Some, None};
ghost use Rattle.tx_output.specs.declared.error.OutputError.TheVariants.{OutOfMemory};
ghost use Rattle.tx_output.specs.Outputs as spec;

use crate::begun::Begun;
use crate::error::OutputError;
use crate::page_box::page_box;
use crate::waiting::Waiting;
use std::alloc::{AllocError, Global};
use tx_node::Nodes;
use tx_pack::Packed;
use tx_pagebuilder::Fired;
use tx_toklist::TokList;

/// The output of a page: what waits for its end, if one has begun and hasn't ended.
#[derive(Drop)]
pub struct Output {
    pub(crate) waiting: Option<Waiting>,
}

/// What becomes of a page's box, where `dead` pages in a row went to \output with nothing shipped.
fn begun_with(
    packed: Packed,
    is_empty: bool,
    dead: i64,
    max_dead: i64,
) -> Result<Begun, OutputError>
    ensures { result ≡ spec.begun_with is_empty dead max_dead packed }
{
    if is_empty {
        Ok(Begun::Ship(packed))
    } else if dead < max_dead {
        Ok(Begun::Read(packed))
    } else {
        Err(OutputError::TooManyDeadCycles)
    }
}

/// The box of a page that was fired, and what becomes of it.
fn begun_page(
    alloc: Global,
    list: Nodes,
    goal: i64,
    maxdepth: i64,
    is_empty: bool,
    dead: i64,
    max_dead: i64,
) -> Result<Begun, OutputError>
    ensures ok { IfOk result (λ begun. spec.begun_by is_empty dead max_dead (spec.page_box list goal maxdepth) ≡ Ok begun) }
    ensures error { IfErr result (λ e. e ≢ OutOfMemory → spec.begun_by is_empty dead max_dead (spec.page_box list goal maxdepth) ≡ Err e) }
{
    let packed = page_box(alloc, list, goal, maxdepth)?;
    begun_with(packed, is_empty, dead, max_dead)
}

impl Output {
    /// No output has begun.
    pub fn new() -> Output
        ensures { result ≡ record { waiting = None } }
    {
        Output { waiting: None }
    }

    /// Whether an output has begun and hasn't ended.
    pub fn is_active(&self) -> bool
        ensures { result ≡ is_some self.now.waiting }
    {
        self.waiting.is_some()
    }

    /// Begins the output of a page that was fired (TeX: The Program, sections 1012, 1015, 1017 and 1023 to 1025), where `dead` is
    /// \deadcycles, `max_dead` \maxdeadcycles, and `void255` says whether \box255 is void. The page's list is packed to its goal
    /// and its \maxdepth, and nothing is told of that; the box is shipped where \output has no tokens, and else is \box255, which
    /// they read. What is held over and what remains of the contributions wait for `finish`.
    ///
    /// The errors, in this order: `OccupiedPageBox` where \box255 isn't void; `SizeOutOfRange` and `TooDeep` where the list can't
    /// be packed; `TooManyDeadCycles` where \output has tokens and `dead` isn't below `max_dead`; and want of memory. Behind each
    /// of them what waits is as before.
    pub fn begin(
        &mut self,
        alloc: Global,
        fired: Fired,
        output: &TokList,
        dead: i64,
        max_dead: i64,
        void255: bool,
    ) -> Result<Begun, OutputError>
        ensures begun { IfOk result (λ begun. spec.begun fired output.now dead max_dead void255 ≡ Ok begun) }
        ensures waits { OnOk result (self.new ≡ record { waiting = Some (record { held = fired.held; rest = fired.rest }) }) }
        ensures error { IfErr result (λ e. e ≢ OutOfMemory → spec.begun fired output.now dead max_dead void255 ≡ Err e) }
        ensures same { OnErr result (self.new ≡ self.old) }
    {
        if !void255 {
            return Err(OutputError::OccupiedPageBox);
        }
        let Fired {
            list,
            goal,
            maxdepth,
            held,
            rest,
            ..
        } = fired;
        let begun = begun_page(
            alloc,
            list,
            goal,
            maxdepth,
            output.len() == 0,
            dead,
            max_dead,
        )?;
        self.waiting = Some(Waiting { held, rest });
        Ok(begun)
    }

    /// What waits, with a list between; where nothing waits, the list alone. Its only error is want of memory, behind which what
    /// waits is as before.
    fn joined(&mut self, built: Nodes) -> Result<Nodes, AllocError>
        ensures ok { IfOk result (λ list. list ≡ spec.joined self.old.waiting built) }
        ensures same { OnErr result (self.new ≡ self.old) }
    {
        match &mut self.waiting {
            Some(waiting) => waiting.join(built),
            None => Ok(built),
        }
    }

    /// Ends the output that has begun (TeX: The Program, sections 1023, 1026 and 1028), and answers what is to be contributed now:
    /// the insertions that were held over, what \output built, and what remained of the contributions. `at_end` says whether the
    /// group of \output ends where its tokens end, and `void255` whether \box255 is void; a page that was shipped built nothing,
    /// and both hold. Where none has begun, nothing waits.
    ///
    /// `UnbalancedOutput` exactly where one of the two doesn't hold, and want of memory. Behind both what waits is as before.
    pub fn finish(
        &mut self,
        built: Nodes,
        at_end: bool,
        void255: bool,
    ) -> Result<Nodes, OutputError>
        ensures ok { IfOk result (λ list. spec.finished self.old.waiting built at_end void255 ≡ Ok list) }
        ensures ended { OnOk result (self.new ≡ record { waiting = None }) }
        ensures error { IfErr result (λ e. e ≢ OutOfMemory → spec.finished self.old.waiting built at_end void255 ≡ Err e) }
        ensures same { OnErr result (self.new ≡ self.old) }
    {
        if !(at_end && void255) {
            return Err(OutputError::UnbalancedOutput);
        }
        let list = self.joined(built)?;
        self.waiting = None;
        Ok(list)
    }

    /// Whether both are the same.
    pub fn same(&self, other: &Output) -> bool
        ensures { IsTrue result ↔ (self.now ≡ other.now) }
    {
        match (&self.waiting, &other.waiting) {
            (Some(waiting), Some(other_waiting)) => waiting.same(other_waiting),
            (None, None) => true,
            _ => false,
        }
    }

    /// The same once more, which shares its boxes. Its only error is want of memory.
    pub fn share(&self) -> Result<Output, AllocError>
        ensures { IfOk result (λ twin. twin ≡ self.now) }
    {
        match &self.waiting {
            Some(waiting) => Ok(Output {
                waiting: Some(waiting.share()?),
            }),
            None => Ok(Output { waiting: None }),
        }
    }
}
