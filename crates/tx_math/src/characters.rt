//! Characters of families (TeX: The Program, sections 709 and 722 to 724).
ghost use Rattle.std.specs.Prelude.{◌≡◌, ◌≢◌, ◌++◌, IfOk, IfErr, OnOk, Ok, Err};
ghost use Rattle.tx_math.specs.Characters as spec;
ghost use Rattle.tx_math.specs.Setters.{IsNucleus, math_in};
ghost use Rattle.tx_math.specs.declared.error.MathError.TheVariants.{OutOfMemory};

use crate::boxes::kern;
use crate::error::MathError;
use crate::nucleus::Nucleus;
use crate::setter::Setter;
use crate::styles::size_of;
use std::alloc::{AllocError, Global};
use tx_bytes::Bytes;
use tx_delim::character_of;
use tx_hyphenate::report_lacking;
use tx_mlist::MathCharacter;
use tx_node::{Character, Node, Nodes, Plain};

/// What stands for no nucleus; takes no memory.
pub fn no_nucleus(alloc: Global) -> Nucleus
    ensures value { result ≡ spec.no_nucleus }
    ensures near { IsNucleus result }
{
    Nucleus {
        nodes: Nodes::new(alloc),
        edges: Some((0, 0)),
        offset: 0,
    }
}

/// A kern of so many sp, unless it is none, at the end of a list. A font's kern is as large as its file says.
fn append_correction(nodes: &mut Nodes, size: i32) -> Result<(), AllocError>
    ensures { OnOk result (nodes.new ≡ nodes.old ++ spec.kern_unless_nothing size) }
{
    if size != 0 {
        nodes.push(kern(size))?;
    }
    Ok(())
}

/// A character with its italic correction, in sp, as a nucleus, which has a subscript or not. Its only error is want of memory.
fn corrected(
    alloc: Global,
    subscripted: bool,
    character: Character,
    size: i32,
) -> Result<Nucleus, AllocError>
    ensures value { IfOk result (λ made. made ≡ spec.corrected subscripted character size) }
    ensures near { IfOk result IsNucleus }
{
    let mut nodes = Nodes::new(alloc);
    nodes.push(Node::Plain(Plain::Character(character)))?;
    if subscripted {
        return Ok(Nucleus {
            nodes,
            edges: None,
            offset: i64::from(size),
        });
    }
    append_correction(&mut nodes, size)?;
    Ok(Nucleus {
        nodes,
        edges: None,
        offset: 0,
    })
}

impl Setter<'_> {
    /// A character of a family in a style; None where its font lacks it, which is told. `NoFont` exactly where the family has no
    /// font.
    #[tactic(auto, unfolding(crate::specs::Characters::fetched_from))]
    pub fn fetched(
        &self,
        style: u8,
        character: MathCharacter,
        report: &mut Bytes,
    ) -> Result<Option<Character>, MathError>
        ensures made { IfOk result (λ found. spec.fetched (math_in self.now) style character report.old ≡ Ok (found, report.new)) }
        ensures error { IfErr result (λ e. e ≢ OutOfMemory → spec.fetched (math_in self.now) style character report.old ≡ Err e) }
    {
        let font = self.family_font(size_of(style), character.family);
        if font == 0 {
            return Err(MathError::NoFont);
        }
        if self.fonts.has_character(font, character.code) {
            return Ok(Some(character_of(self.fonts, font, character.code)));
        }
        report_lacking(report, self.fonts, font, Some(character.code))?;
        Ok(None)
    }

    /// The italic correction of a character, in sp, behind which a character of its family stands or not.
    fn correction(&self, joined: bool, character: Character) -> i32
        ensures { result ≡ spec.correction (math_in self.now) joined character }
    {
        if joined && self.fonts.parameter(character.font, 2) != 0 {
            0
        } else {
            self.fonts.italic(character.font, character.code) as i32
        }
    }

    /// A character as a nucleus, behind which a character of its family stands or not, and which has a subscript or not. Its only
    /// error is want of memory.
    pub fn letter_nucleus(
        &self,
        alloc: Global,
        joined: bool,
        subscripted: bool,
        found: Option<Character>,
    ) -> Result<Nucleus, AllocError>
        ensures value { IfOk result (λ made. made ≡ spec.letter_nucleus (math_in self.now) joined subscripted found) }
        ensures near { IfOk result IsNucleus }
    {
        match found {
            None => Ok(no_nucleus(alloc)),
            Some(character) => {
                let size = self.correction(joined, character);
                corrected(alloc, subscripted, character, size)
            }
        }
    }
}
