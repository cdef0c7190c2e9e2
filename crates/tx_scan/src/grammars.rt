//! An optional equals sign, a begin-group token, a name and a font, token by token (TeX: The Program, sections 403 to 405, 577 and
//! 1215).
ghost use Rattle.std.specs.Prelude.{◌≡◌, ◌∷◌, ◌++◌, [], List, IfOk};
ghost use Rattle.tx_seen.specs.declared.item.Item.{Item};
ghost use Rattle.tx_seen.specs.declared.item.Item.TheVariants.{Took};
ghost use Rattle.tx_seen.specs.Readings.{Answers};
ghost use Rattle.tx_scan.specs.Grammars.{equals, left_brace, name};
ghost use Rattle.tx_scan.specs.Rests.{IsFedBy};
ghost use Rattle.tx_scan.specs.GrammarRests.{HasTakenEquals, HasTakenBrace, HasTakenFont, HasTakenName, IsEqualsFed, IsBraceFed, IsFontFed, IsNameFed, equals_rest, brace_rest, font_rest, name_rest, held_none};
ghost use Rattle.tx_scan.specs.FontNames.{font, place_of_font};
ghost use Rattle.tx_scan.specs.Supplied.{NeedsNothing};

use crate::scans::{BraceScan, EqualsScan, FontScan, FontSought, NameScan};
use std::alloc::AllocError;
use tx_char::{Cat, Token};
use tx_seen::{Fed, FontName, Place, Seen, TexError, Want};

impl EqualsScan {
    /// The scan of an optional `=` of which nothing is read.
    pub fn new() -> EqualsScan
        ensures { HasTakenEquals result [] }
    {
        EqualsScan {}
    }

    /// Takes one token, at first and after More; it needs no value. The answer is what reading gives of all that was taken.
    pub fn feed(&mut self, token: &Seen) -> Fed<bool>
        ensures answer { (taken : List Item) → HasTakenEquals self.old taken → Answers equals HasTakenEquals (taken ++ Took token.now ∷ []) self.new result }
        ensures part { IsFedBy equals_rest held_none self.old token.now self.new result }
        ensures fed { IsEqualsFed self.new token.now result }
        ensures nothing { NeedsNothing result }
    {
        self.behind(token)
    }

    /// What it is behind one more token.
    fn behind(&self, token: &Seen) -> Fed<bool>
        ensures fed { IsEqualsFed self.now token.now result }
        ensures nothing { NeedsNothing result }
    {
        if token.is_undefined() {
            return Fed::Wrong(TexError::Undefined);
        }
        if token.is_space() {
            return Fed::More(Want::Expanded);
        }
        if token.is_other(b'=') {
            Fed::Done(true, 0)
        } else {
            Fed::Done(false, 1)
        }
    }
}

impl BraceScan {
    /// The scan of a begin-group token of which nothing is read.
    pub fn new() -> BraceScan
        ensures { HasTakenBrace result [] }
    {
        BraceScan {}
    }

    /// Takes one token, at first and after More; it needs no value. The answer is what reading gives of all that was taken.
    pub fn feed(&mut self, token: &Seen) -> Fed<()>
        ensures answer { (taken : List Item) → HasTakenBrace self.old taken → Answers left_brace HasTakenBrace (taken ++ Took token.now ∷ []) self.new result }
        ensures part { IsFedBy brace_rest held_none self.old token.now self.new result }
        ensures fed { IsBraceFed self.new token.now result }
        ensures nothing { NeedsNothing result }
    {
        self.behind(token)
    }

    /// What it is behind one more token.
    fn behind(&self, token: &Seen) -> Fed<()>
        ensures fed { IsBraceFed self.now token.now result }
        ensures nothing { NeedsNothing result }
    {
        if token.is_undefined() {
            return Fed::Wrong(TexError::Undefined);
        }
        if token.is_space() || token.is_relax() {
            return Fed::More(Want::Expanded);
        }
        if token.begins_group() {
            Fed::Done((), 0)
        } else {
            Fed::Wrong(TexError::MissingBeginGroup)
        }
    }
}

impl NameScan {
    /// The scan of a name of which nothing is read.
    pub fn new() -> NameScan
        ensures { HasTakenName result [] }
    {
        NameScan {}
    }

    /// Takes one token, at first and after More; it needs no value. The answer is what reading gives of all that was taken:
    /// the place where the name's meaning stands. Its only error is that no more owners of a name can be counted.
    pub fn feed(&mut self, token: &Seen) -> Result<Fed<Place>, AllocError>
        ensures answer { (taken : List Item) → HasTakenName self.old taken → IfOk result (Answers name HasTakenName (taken ++ Took token.now ∷ []) self.new) }
        ensures part { IfOk result (IsFedBy name_rest held_none self.old token.now self.new) }
        ensures fed { IfOk result (IsNameFed self.new token.now) }
        ensures nothing { IfOk result NeedsNothing }
    {
        self.behind(token)
    }

    /// What it is behind one more token. Its only error is that no more owners of a name can be counted.
    fn behind(&self, token: &Seen) -> Result<Fed<Place>, AllocError>
        ensures fed { IfOk result (IsNameFed self.now token.now) }
        ensures nothing { IfOk result NeedsNothing }
    {
        match &token.token {
            Token::Name(name) => Ok(Fed::Done(Place::Name(name.clone()?), 0)),
            Token::Character(_, Cat::Space) => Ok(Fed::More(Want::Raw)),
            Token::Character(code, Cat::Active) => Ok(Fed::Done(Place::Active(*code), 0)),
            Token::Character(_, _) | Token::FrozenRelax | Token::FontIdentifier(_) => {
                Ok(Fed::Wrong(TexError::MissingName))
            }
        }
    }
}

impl FontScan {
    /// The scan of a font of which nothing is read.
    pub fn new() -> FontScan
        ensures { HasTakenFont result [] }
    {
        FontScan {}
    }

    /// Takes one token, at first and after More; it needs no value. The answer is what reading gives of all that was taken.
    pub fn feed(&mut self, token: &Seen) -> Fed<FontName>
        ensures answer { (taken : List Item) → HasTakenFont self.old taken → Answers font HasTakenFont (taken ++ Took token.now ∷ []) self.new result }
        ensures part { IsFedBy font_rest held_none self.old token.now self.new result }
        ensures fed { IsFontFed self.new token.now result }
        ensures nothing { NeedsNothing result }
    {
        self.behind(token)
    }

    /// What it is behind one more token.
    fn behind(&self, token: &Seen) -> Fed<FontName>
        ensures fed { IsFontFed self.now token.now result }
        ensures nothing { NeedsNothing result }
    {
        if token.is_undefined() {
            return Fed::Wrong(TexError::Undefined);
        }
        if token.is_space() {
            return Fed::More(Want::Expanded);
        }
        match token.font_name() {
            Some(font) => Fed::Done(font, 0),
            None => Fed::Wrong(TexError::MissingName),
        }
    }
}

impl FontSought {
    /// Where that stands which is needed of a font.
    pub fn place(self, font: FontName) -> Place
        ensures { result ≡ place_of_font self font }
    {
        match self {
            FontSought::Dimen(number) => Place::FontDimen(font, number),
            FontSought::Integer(kind) => Place::FontInteger(kind, font),
        }
    }
}
