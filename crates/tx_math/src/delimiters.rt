//! Delimiters in a style (TeX: The Program, sections 706 and 707).
ghost use Rattle.std.specs.Prelude.{◌≡◌, ◌≢◌, ◌≤◌, ◌^◌, unsigned_abs, IfOk, IfErr, Ok, Err};
ghost use Rattle.tx_node.specs.Nodes.{item_of};
ghost use Rattle.tx_math.specs.Delimiters as spec;
ghost use Rattle.tx_math.specs.Setters.{math_in};
ghost use Rattle.tx_math.specs.declared.error.MathError.TheVariants.{OutOfMemory};

use crate::boxes::stored;
use crate::error::MathError;
use crate::params::MathSize;
use crate::setter::Setter;
use crate::signs::Sign;
use crate::styles::size_of;
use std::alloc::Global;
use tx_delim::{Search, begin_search, delimiter_box, look_along};
use tx_mlist::{Delimiter, MathCharacter};
use tx_node::{BoxNode, Node};

/// Whether a character is none: its family and code are 0.
fn is_absent(character: MathCharacter) -> bool
    ensures { result ≡ spec.is_absent character }
{
    character.family == 0 && character.code == 0
}

impl Setter<'_> {
    /// The search for a character so tall, in sp, behind one in its family's font of a size.
    fn looked_in(
        &self,
        asked: i64,
        character: MathCharacter,
        size: MathSize,
        begun: Search,
    ) -> Search
        ensures { result ≡ spec.looked_in (math_in self.now) asked character size begun }
    {
        let font = self.family_font(size, character.family);
        look_along(self.fonts, asked, font, character.code, begun)
    }

    /// The same in the fonts of that size and of the larger ones.
    fn looked_from(
        &self,
        asked: i64,
        character: MathCharacter,
        size: MathSize,
        begun: Search,
    ) -> Search
        ensures { result ≡ spec.looked_from (math_in self.now) asked character size begun }
    {
        match size {
            MathSize::Text => self.looked_in(asked, character, MathSize::Text, begun),
            MathSize::Script => {
                let small = self.looked_in(asked, character, MathSize::Script, begun);
                self.looked_in(asked, character, MathSize::Text, small)
            }
            MathSize::ScriptScript => {
                let least = self.looked_in(asked, character, MathSize::ScriptScript, begun);
                let small = self.looked_in(asked, character, MathSize::Script, least);
                self.looked_in(asked, character, MathSize::Text, small)
            }
        }
    }

    /// The same, if the character is one.
    fn looked_for(
        &self,
        asked: i64,
        size: MathSize,
        character: MathCharacter,
        begun: Search,
    ) -> Search
        ensures { result ≡ spec.looked_for (math_in self.now) asked size character begun }
    {
        if is_absent(character) {
            begun
        } else {
            self.looked_from(asked, character, size, begun)
        }
    }

    /// The search for a delimiter so tall, in sp.
    fn search_for(&self, asked: i64, size: MathSize, delimiter: Delimiter) -> Search
        ensures { result ≡ spec.search_for (math_in self.now) asked size delimiter }
    {
        let small = self.looked_for(asked, size, delimiter.small, begin_search());
        self.looked_for(asked, size, delimiter.large, small)
    }

    /// The box of a delimiter that is to be so tall, in sp.
    #[tactic(auto, unfolding(crate::specs::Delimiters::sign_box))]
    fn sign_box(
        &self,
        alloc: Global,
        style: u8,
        delimiter: Delimiter,
        asked: i64,
    ) -> Result<BoxNode, MathError>
        requires { unsigned_abs asked ≤ 2 ^ 59 }
        ensures made { IfOk result (λ made. spec.sign_box (math_in self.now) style delimiter asked ≡ Ok made) }
        ensures error { IfErr result (λ e. e ≢ OutOfMemory → spec.sign_box (math_in self.now) style delimiter asked ≡ Err e) }
    {
        let search = self.search_for(asked, size_of(style), delimiter);
        let null = self.params.null_delimiter_space;
        let inner = delimiter_box(alloc, self.fonts, asked, null, search.found)?;
        Ok(inner)
    }

    /// The same, and how far it is shifted down, in sp, so that it is centred about the axis.
    #[tactic(auto, unfolding(crate::specs::Delimiters::sign_of))]
    pub fn sign_of(
        &self,
        alloc: Global,
        style: u8,
        delimiter: Delimiter,
        asked: i64,
    ) -> Result<Sign, MathError>
        requires { unsigned_abs asked ≤ 2 ^ 59 }
        ensures made { IfOk result (λ sign. spec.sign_of (math_in self.now) style delimiter asked ≡ Ok sign) }
        ensures error { IfErr result (λ e. e ≢ OutOfMemory → spec.sign_of (math_in self.now) style delimiter asked ≡ Err e) }
    {
        let inner = self.sign_box(alloc, style, delimiter, asked)?;
        let shift = stored(self.about_axis(style, &inner))?;
        Ok(Sign { shift, inner })
    }

    /// The same as a node.
    #[tactic(auto, unfolding(crate::specs::Delimiters::delimiter_item))]
    pub fn delimiter_item(
        &self,
        alloc: Global,
        style: u8,
        delimiter: Delimiter,
        asked: i64,
    ) -> Result<Node, MathError>
        requires { unsigned_abs asked ≤ 2 ^ 59 }
        ensures made { IfOk result (λ node. spec.delimiter_item (math_in self.now) style delimiter asked ≡ Ok (item_of node)) }
        ensures error { IfErr result (λ e. e ≢ OutOfMemory → spec.delimiter_item (math_in self.now) style delimiter asked ≡ Err e) }
    {
        let Sign { shift, inner } = self.sign_of(alloc, style, delimiter, asked)?;
        Ok(Node::from_box(alloc, shift, inner)?)
    }
}
