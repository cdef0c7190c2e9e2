//! TeX's state, in code.
ghost use Rattle.std.specs.Prelude.{◌≡◌, [], None, IfOk};
ghost use Rattle.tx_box.specs.Beginnings.{first_lists};
ghost use Rattle.tx_pending.specs.Elements.{no_input};
ghost use Rattle.tx_command.specs.declared.types.Command.TheVariants.{Nothing};
ghost use Rattle.tx_prim.specs.declared.modes.Mode.TheVariants as mode;

use crate::parts::Phase;
use std::alloc::{AllocError, Global};
use tx_box::Lists;
use tx_bytes::Bytes;
use tx_char::Token;
use tx_command::{CommandBuffer, CommandScan, Head};
use tx_eqtb::Eqtb;
use tx_expand::Expander;
use tx_hyphenate::Hyphenation;
use tx_list::{Stack, both};
use tx_parts::{Due, KeptToken, LargeParts, OpenText, SmallParts};
use tx_pending::Pending;
use tx_prim::Mode;
use tx_tabular::Alignment;
use tx_word::Words;

/// All that the next turns depend on, and the bytes of the transcript that are still to be taken.
pub struct State {
    pub phase: Phase,
    /// The next piece first.
    pub due: Stack<Due>,
    /// How many files are open.
    pub files: u64,
    pub input: Pending,
    pub expander: Expander,
    /// The text that is being taken, if one is.
    pub text: Option<OpenText>,
    pub scan: CommandScan,
    /// Where a whole command is put before it is carried out. Nothing depends on what stands there between turns.
    pub made: CommandBuffer,
    /// The lists that are being built, with their boxes.
    pub lists: Lists,
    /// The alignments that are being read, the innermost first.
    pub alignments: Stack<Alignment>,
    /// The fonts, and the word that is open.
    pub words: Words,
    /// What is known of hyphenation.
    pub hyphenation: Hyphenation,
    pub table: Eqtb,
    /// What \aftergroup keeps, the last first.
    pub after_groups: Stack<KeptToken>,
    /// What \afterassignment keeps.
    pub after_assignment: Option<Token>,
    pub magnification: Option<i32>,
    /// The numbers of the fonts that the pages define, as the DVI file has them.
    pub defined: Bytes,
    pub said: Bytes,
}

// (by hand, so that crates above call this and don't prove again how each part is dropped)
impl Drop for State {
    fn drop(self) {
        let State {
            phase: _,
            due,
            files: _,
            input: _,
            expander: _,
            text,
            scan: _,
            made: _,
            lists,
            alignments: _,
            words,
            hyphenation,
            table,
            after_groups,
            after_assignment,
            magnification: _,
            defined,
            said,
        } = self;
        drop(SmallParts {
            due,
            text,
            after_groups,
            after_assignment,
            defined,
            said,
        });
        drop(LargeParts {
            words,
            table,
            hyphenation,
            lists,
        });
    }
}

impl State {
    /// A state in which nothing is due or read, and the pages' list is built, with these words, this table and what is known of
    /// hyphenation. Its only error is want of memory.
    pub fn new(
        alloc: Global,
        expander: Expander,
        words: Words,
        table: Eqtb,
        hyphenation: Hyphenation,
    ) -> Result<State, AllocError>
        ensures { IfOk result (λ s. s ≡ record { phase = Phase.Running; due = []; files = 0; input = no_input; expander = expander; text = None; scan = record { mode = mode.Vertical; head = Head.Fresh; taken = [] }; made = Nothing; lists = first_lists; alignments = []; words = words; hyphenation = hyphenation; table = table; after_groups = []; after_assignment = None; magnification = None; defined = []; said = [] }) }
    {
        let given = LargeParts {
            words,
            table,
            hyphenation,
            lists: Lists::new(alloc),
        };
        let begun = both(
            CommandScan::new(alloc, Mode::Vertical),
            CommandBuffer::new(alloc),
        );
        let ((given, expander), (scan, made)) = both(Ok((given, expander)), begun)?;
        let ((words, table), (hyphenation, lists)) = given.into_parts();
        Ok(State {
            phase: Phase::Running,
            due: Stack::new(alloc),
            files: 0,
            input: Pending::new(alloc),
            expander,
            text: None,
            scan,
            made,
            lists,
            alignments: Stack::new(alloc),
            words,
            hyphenation,
            table,
            after_groups: Stack::new(alloc),
            after_assignment: None,
            magnification: None,
            defined: Bytes::new(alloc),
            said: Bytes::new(alloc),
        })
    }
}
