//! What a run knows of hyphenation.
ghost use Rattle.std.specs.Prelude.{◌≡◌, ◌↔◌, ◌≢◌, [], length, map, false, Ok, Err, IfOk, IfErr, IsTrue, OnOk};
ghost use Rattle.tx_hyphen.specs.declared.error.ExceptionError.TheVariants as exceptions;
ghost use Rattle.tx_hyphen.specs.declared.error.PatternError.TheVariants as patterns;
ghost use Rattle.tx_hyphenate.specs.Texts.{with_exceptions, with_patterns};

use std::alloc::{AllocError, Global};
use tx_bytes::Bytes;
use tx_hyphen::error::{ExceptionError, PatternError};
use tx_hyphen::hyphens::Hyphens;

/// The patterns and exceptions, and whether a paragraph has begun its second pass, behind which no pattern can be added any more.
#[derive(Drop)]
pub struct Hyphenation {
    pub hyphens: Hyphens,
    pub used: bool,
}

impl Hyphenation {
    /// No pattern and no exception, and no paragraph was there. Its only error is want of memory.
    pub fn new(alloc: Global) -> Result<Hyphenation, AllocError>
        ensures { IfOk result (λ h. h ≡ record { hyphens = record { patterns = []; exceptions = [] }; used = false }) }
    {
        Ok(Hyphenation {
            hyphens: Hyphens::new(alloc)?,
            used: false,
        })
    }

    /// Whether both know the same.
    pub fn same(&self, other: &Hyphenation) -> bool
        ensures { IsTrue result ↔ (self.now ≡ other.now) }
    {
        self.used == other.used && self.hyphens.same(&other.hyphens)
    }

    /// The same once more; nothing is copied until one changes. Its only error is want of memory.
    pub fn share(&self) -> Result<Hyphenation, AllocError>
        ensures { IfOk result (λ shared. shared ≡ self.now) }
    {
        Ok(Hyphenation {
            hyphens: self.hyphens.share()?,
            used: self.used,
        })
    }

    /// Adds the patterns that the texts of a \patterns spell, where `lower` holds the 256 \lccodes. Its errors are those of the
    /// first text that is refused, and want of memory; after one, what is known may only be dropped.
    pub fn add_patterns(
        &mut self,
        alloc: Global,
        texts: &[Bytes],
        lower: &[u8],
    ) -> Result<(), PatternError>
        requires { length lower.now ≡ 256 }
        ensures ok { OnOk result (with_patterns lower.now self.old.hyphens texts.now ≡ Ok self.new.hyphens) }
        ensures used { OnOk result (self.new.used ≡ self.old.used) }
        ensures error { IfErr result (λ e. e ≢ patterns.OutOfMemory → with_patterns lower.now self.old.hyphens texts.now ≡ Err e) }
    {
        for text in texts {
            self.hyphens.add(alloc, text.as_slice(), lower)?;
        }
        Ok(())
    }

    /// Adds the exceptions that the words of a \hyphenation spell, where `lower` holds the 256 \lccodes. Its errors are those of
    /// the first word that is refused, and want of memory; after one, what is known may only be dropped.
    pub fn add_exceptions(
        &mut self,
        alloc: Global,
        words: &[Bytes],
        lower: &[u8],
    ) -> Result<(), ExceptionError>
        requires { length lower.now ≡ 256 }
        ensures ok { OnOk result (with_exceptions lower.now self.old.hyphens words.now ≡ Ok self.new.hyphens) }
        ensures used { OnOk result (self.new.used ≡ self.old.used) }
        ensures error { IfErr result (λ e. e ≢ exceptions.OutOfMemory → with_exceptions lower.now self.old.hyphens words.now ≡ Err e) }
    {
        for word in words {
            self.hyphens.except(alloc, word.as_slice(), lower)?;
        }
        Ok(())
    }
}
