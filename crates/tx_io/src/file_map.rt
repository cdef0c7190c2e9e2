//! Files in memory.
ghost use Rattle.std.specs.Prelude.{◌≡◌, OnOk, OnErr};
ghost use Rattle.std.specs.Option.{option_copied};
ghost use Rattle.std.specs.FinMap.{empty, insert};
ghost use Rattle.tx_bytes.specs.Files.{content};

use std::alloc::{AllocError, Global};
use std::collections::BTreeMap;
use std::marker::Model;
use tx_bytes::Bytes;

/// Files in memory by their names, which may be any bytes.
#[derive(Drop)]
pub struct FileMap {
    files: BTreeMap<Vec<u8>, Bytes>,
}

impl Model for FileMap {
    ghost use Rattle.tx_bytes.specs.Files.{Files};
    ghost use Rattle.tx_io.specs.Entries.{files_of};
    ghost use Rattle.tx_io.specs.Memory.{files_code};

    ghost Value = { Files };

    ghost coded = { files_code };

    ghost view = { λ f. files_of f.files.entries };
}

impl FileMap {
    /// No file at all; takes no memory.
    pub fn new(alloc: Global) -> FileMap
        ensures { result ≡ empty }
    {
        FileMap {
            files: BTreeMap::new(alloc),
        }
    }

    /// What the file of this name holds, lent; None exactly where there is no such file.
    pub fn get(&self, name: &[u8]) -> Option<&Bytes>
        ensures { option_copied result ≡ content self.now name.now }
    {
        self.files.get(name)
    }

    /// Gives the name these bytes, in the place of what it held. After want of memory nothing has changed.
    pub fn put(&mut self, alloc: Global, name: &[u8], bytes: &[u8]) -> Result<(), AllocError>
        ensures ok { OnOk result (self.new ≡ insert self.old name.now bytes.now) }
        ensures err { OnErr result (self.new ≡ self.old) }
    {
        let name = Vec::from_slice(alloc, name)?;
        let bytes = Bytes::from_slice(alloc, bytes)?;
        self.files.insert(name, bytes)?;
        Ok(())
    }
}
