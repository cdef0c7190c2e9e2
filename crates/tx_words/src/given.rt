//! What the words of a call ask for.
ghost use Rattle.std.specs.Prelude.{◌≡◌, ◌∷◌, ◌++◌, [], OnOk, OnErr};

use std::alloc::{AllocError, Global};
use std::marker::Model;
use tx_files::Name;
use tx_machine::{Date, Limits};

/// Names of files, in order.
#[derive(Drop)]
pub struct Names {
    items: Vec<Name>,
}

impl Model for Names {
    ghost use Rattle.std.specs.Prelude.{List, ℕ};

    ghost Value = { List (List ℕ) };

    ghost view = { λ n. n.items.items };
}

impl Names {
    /// No name; takes no memory.
    pub fn new(alloc: Global) -> Names
        ensures { result ≡ [] }
    {
        Names {
            items: Vec::new(alloc),
        }
    }

    /// The names, lent.
    pub fn as_slice(&self) -> &[Name]
        ensures { result.now ≡ self.now }
    {
        self.items.as_slice()
    }

    /// Adds a name at the end.
    pub fn push(&mut self, name: Name) -> Result<(), AllocError>
        ensures ok { OnOk result (self.new ≡ self.old ++ name ∷ []) }
        ensures err { OnErr result (self.new ≡ self.old) }
    {
        self.items.push(name)?;
        Ok(())
    }
}

/// What `run` is given: the moment that the document sees, the limits, the name of the files that are saved, the name
/// of the script's file, if there is a script, the name of the main file, and the names of all files that the run may
/// read, the main one first.
#[derive(Drop)]
pub struct Given {
    pub date: Date,
    pub limits: Limits,
    pub out: Name,
    pub script: Option<Name>,
    pub main: Name,
    pub files: Names,
}

/// What `serve` is given: the same without a script and without a name for what is saved.
#[derive(Drop)]
pub struct Serving {
    pub date: Date,
    pub limits: Limits,
    pub main: Name,
    pub files: Names,
}

/// What the words of a call ask for.
#[derive(Drop)]
pub enum Asked {
    /// A run.
    Run(Given),
    /// A run, and answers to the requests that come in.
    Serve(Serving),
    /// A document of so many pages that is made of a seed.
    Gen { seed: u32, pages: u32 },
    /// What the pages of the DVI file of this name bring.
    Listing(Name),
    /// The text that says what the program is, and its commands.
    Help,
    /// The text that says how `run` is called.
    RunHelp,
    /// The text that says how `gen` is called.
    GenHelp,
    /// The text that says how `list` is called.
    ListHelp,
    /// The text that says how `serve` is called.
    ServeHelp,
    /// The version.
    Version,
    /// Nothing that there is: the words are refused.
    Nothing,
}
