//! Names of files, token by token (TeX: The Program, sections 511 to 531).
ghost use Rattle.std.specs.Prelude.{◌≡◌, ◌∷◌, ◌++◌, [], List, IfOk, OnOk};
ghost use Rattle.tx_seen.specs.declared.item.Item.{Item};
ghost use Rattle.tx_seen.specs.declared.item.Item.TheVariants.{Took};
ghost use Rattle.tx_seen.specs.Readings.{Answers};
ghost use Rattle.tx_scan.specs.FileNames.{file_name, begun_file, has_dot, HasTaken, IsFed};
ghost use Rattle.tx_scan.specs.FileNames as files;
ghost use Rattle.tx_scan.specs.GrammarRests.{held_none};
ghost use Rattle.tx_scan.specs.Rests.{IsFedBy};
ghost use Rattle.tx_scan.specs.Supplied.{NeedsNothing};

use crate::spellings::FileNameScan;
use std::alloc::{AllocError, Global};
use tx_bytes::Bytes;
use tx_list::Items;
use tx_seen::{Fed, Meaning, Seen, TexError, Want};

/// The character that a token means.
fn code_of(meaning: &Meaning) -> Option<u8>
    ensures { result ≡ files.code_of meaning.now }
{
    match meaning {
        Meaning::Character(code, _) => Some(*code),
        _ => None,
    }
}

impl FileNameScan {
    /// The scan of a name of which nothing is read. It takes no memory.
    pub fn new(alloc: Global) -> FileNameScan
        ensures scan { result ≡ begun_file }
        ensures taken { HasTaken result [] }
    {
        FileNameScan {
            letters: Items::new(alloc),
        }
    }

    /// Forgets what was read, in the memory that it has.
    pub fn restart(&mut self)
        ensures scan { self.new ≡ begun_file }
        ensures taken { HasTaken self.new [] }
    {
        self.letters.clear();
    }

    /// The name as far as it is read. Its only error is want of memory.
    fn name(&self) -> Result<Bytes, AllocError>
        ensures { IfOk result (λ name. name ≡ self.now.letters) }
    {
        let letters = self.letters.share()?;
        Ok(Bytes::from_vec(letters.into_vec()))
    }

    /// Takes one token, at first and after More; it needs no value. The answer is what reading gives of all that was taken:
    /// the name as it is written, which may be empty. Its only error is want of memory.
    pub fn feed(&mut self, token: &Seen) -> Result<Fed<Bytes>, AllocError>
        ensures answer { (taken : List Item) → HasTaken self.old taken → IfOk result (Answers file_name HasTaken (taken ++ Took token.now ∷ []) self.new) }
        ensures part { IfOk result (IsFedBy files.rest held_none self.old token.now self.new) }
        ensures fed { IfOk result (IsFed self.old token.now self.new) }
        ensures nothing { IfOk result NeedsNothing }
    {
        self.behind(token)
    }

    /// What it is behind one more token. Its only error is want of memory.
    #[tactic(auto, using(crate::proofs::FileSteps::ends_at_space, crate::proofs::FileSteps::skips_space))]
    fn behind(&mut self, token: &Seen) -> Result<Fed<Bytes>, AllocError>
        ensures fed { IfOk result (IsFed self.old token.now self.new) }
        ensures nothing { IfOk result NeedsNothing }
    {
        if token.is_undefined() {
            return Ok(Fed::Wrong(TexError::Undefined));
        }
        if token.is_space() {
            if self.letters.is_empty() {
                return Ok(Fed::More(Want::Expanded));
            }
            return Ok(Fed::Done(self.name()?, 0));
        }
        match code_of(&token.meaning) {
            Some(b' ') => Ok(Fed::Done(self.name()?, 0)),
            Some(code) => {
                self.letters.push(code)?;
                Ok(Fed::More(Want::Expanded))
            }
            None => Ok(Fed::Done(self.name()?, 1)),
        }
    }
}

/// Whether a name has a dot.
fn has_dot(name: &[u8]) -> bool
    ensures { result ≡ has_dot name.now }
{
    for code in name {
        if *code == b'.' {
            return true;
        }
    }
    false
}

/// The name of the file for which \input asks: `.tex` is put behind a name without a dot. Its only error is want of memory.
pub fn input_name(name: &mut Bytes) -> Result<(), AllocError>
    ensures { OnOk result (name.new ≡ files.input_name name.old) }
{
    if has_dot(name.as_slice()) {
        return Ok(());
    }
    name.append(b".tex")
}

/// A clone has read the same. Its only error is want of memory.
impl Clone for FileNameScan {
    ghost is_clone = { λ source copy. copy ≡ source };

    fn clone(&self) -> Result<Self, AllocError> {
        Ok(FileNameScan {
            letters: self.letters.share()?,
        })
    }
}
