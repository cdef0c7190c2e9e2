//! How lists are built (TeX: The Program, sections 1159 and 1160, 1175 to 1177, 1181 to 1187, and 1191).
ghost use Rattle.std.specs.Prelude.{◌≡◌, ◌≢◌, option_copied, option_map, IfOk, IfErr, OnOk, Ok, Err};
ghost use Rattle.tx_mlist.specs.Building as spec;
ghost use Rattle.tx_mlist.specs.Noads.{atom_of, math_of, mlist_of, part_of};
ghost use Rattle.tx_mlist.specs.declared.error.MlistError.TheVariants.{OutOfMemory};

use crate::above::Above;
use crate::error::MlistError;
use crate::kinds::{AtomKind, Delimiter, FractionHead, Limits, MathCharacter, Place};
use crate::mlist::Mlist;
use crate::noad::{Atom, Field, Fraction, Noad};
use crate::plain::PlainNoad;
use std::alloc::{AllocError, Global};
use std::rc::Rc;

/// The character of a mathcode, where \fam is this.
pub fn letter_of(fam: i32, code: u16) -> MathCharacter
    ensures { result ≡ spec.letter_of fam code }
{
    let family = if code >= 28_672 && 0 <= fam && fam < 16 {
        fam.unsigned_abs() as u8
    } else {
        (code / 256 % 16) as u8
    };
    MathCharacter {
        family,
        code: (code % 256) as u8,
    }
}

/// A character by numbers of which only so much counts as families and codes have.
fn character_by(family: u32, code: u32) -> MathCharacter
    ensures { result ≡ spec.character_by family code }
{
    MathCharacter {
        family: (family % 16) as u8,
        code: (code % 256) as u8,
    }
}

/// The delimiter of a number: 24 bits of it count, in which stand the small family and character, and then the large ones. That of
/// 0 is none.
pub fn delimiter_of(number: u32) -> Delimiter
    ensures { result ≡ spec.delimiter_of number }
{
    Delimiter {
        small: character_by(number / 1_048_576, number / 4096),
        large: character_by(number / 256, number),
    }
}

/// A fraction beside its lists whose line is so thick, in sp, None where the fonts tell it, and which has no delimiters.
pub fn plain_head(thickness: Option<i32>) -> FractionHead
    ensures { result ≡ spec.plain_head thickness }
{
    FractionHead {
        thickness,
        left: delimiter_of(0),
        right: delimiter_of(0),
    }
}

/// The kind of the atom of a class.
pub fn kind_of(class: u16) -> AtomKind
    ensures { result ≡ spec.kind_of class }
{
    match class {
        1 => AtomKind::Op(Limits::Displayed),
        2 => AtomKind::Bin,
        3 => AtomKind::Rel,
        4 => AtomKind::Open,
        5 => AtomKind::Close,
        6 => AtomKind::Punct,
        _ => AtomKind::Ord,
    }
}

impl AtomKind {
    /// Whether it is an Ord.
    pub fn is_ord(self) -> bool
        ensures { result ≡ spec.is_ord self }
    {
        match self {
            AtomKind::Ord => true,
            AtomKind::Op(_) | AtomKind::Bin | AtomKind::Rel | AtomKind::Open => false,
            AtomKind::Close | AtomKind::Punct | AtomKind::Inner => false,
            AtomKind::Over | AtomKind::Under | AtomKind::Center => false,
            AtomKind::Radical(_) | AtomKind::Accent(_) => false,
        }
    }

    /// Whether it has an accent.
    fn is_accent(self) -> bool
        ensures { result ≡ spec.is_accent self }
    {
        match self {
            AtomKind::Accent(_) => true,
            AtomKind::Ord | AtomKind::Op(_) | AtomKind::Bin | AtomKind::Rel | AtomKind::Open => {
                false
            }
            AtomKind::Close | AtomKind::Punct | AtomKind::Inner => false,
            AtomKind::Over | AtomKind::Under | AtomKind::Center => false,
            AtomKind::Radical(_) => false,
        }
    }
}

impl Field {
    /// Whether it is nothing.
    pub fn is_empty(&self) -> bool
        ensures { result ≡ spec.is_empty (part_of self.now) }
    {
        match self {
            Field::Empty => true,
            Field::Character(_) | Field::Packed(_, _) | Field::Formula(_) => false,
        }
    }
}

/// An atom that has nothing yet. Its only error is want of memory.
pub fn bare(alloc: Global, kind: AtomKind) -> Result<Noad, AllocError>
    ensures { IfOk result (λ noad. math_of noad ≡ spec.bare kind) }
{
    Noad::from_atom(
        alloc,
        Atom {
            kind,
            nucleus: Field::Empty,
            superscript: Field::Empty,
            subscript: Field::Empty,
        },
    )
}

/// Whether an atom has something at a place.
fn has_part(atom: &Atom, place: Place) -> bool
    ensures { result ≡ spec.has_part place (atom_of atom.now) }
{
    match place {
        Place::Nucleus => !atom.nucleus.is_empty(),
        Place::Superscript => !atom.superscript.is_empty(),
        Place::Subscript => !atom.subscript.is_empty(),
    }
}

/// Puts a part at a place of an atom.
fn put(atom: &mut Atom, place: Place, part: Field)
    ensures { atom_of atom.new ≡ spec.with_part place (part_of part) (atom_of atom.old) }
{
    match place {
        Place::Nucleus => atom.nucleus = part,
        Place::Superscript => atom.superscript = part,
        Place::Subscript => atom.subscript = part,
    }
}

/// A noad with a part at a place, if it is an atom. Its only error is want of memory.
fn with_part(noad: Noad, place: Place, part: Field) -> Result<Noad, AllocError>
    ensures { IfOk result (λ made. math_of made ≡ spec.with_part place (part_of part) (math_of noad)) }
{
    match noad {
        Noad::Atom(atom) => {
            let mut atom = atom;
            put(Rc::make_mut(&mut atom)?, place, part);
            Ok(Noad::Atom(atom))
        }
        Noad::Fraction(inner) => Ok(Noad::Fraction(inner)),
        Noad::Choice(inner) => Ok(Noad::Choice(inner)),
        Noad::Plain(item) => Ok(Noad::Plain(item)),
        Noad::Node(node) => Ok(Noad::Node(node)),
    }
}

/// Lets the limits of an atom stand elsewhere, if it is an Op.
fn limit(atom: &mut Atom, limits: Limits)
    ensures { atom_of atom.new ≡ spec.with_limits limits (atom_of atom.old) }
{
    if is_op(atom.kind) {
        atom.kind = AtomKind::Op(limits);
    }
}

/// Whether it is an Op.
fn is_op(kind: AtomKind) -> bool
    ensures { result ≡ spec.is_op kind }
{
    match kind {
        AtomKind::Op(_) => true,
        AtomKind::Ord | AtomKind::Bin | AtomKind::Rel | AtomKind::Open | AtomKind::Close => false,
        AtomKind::Punct | AtomKind::Inner => false,
        AtomKind::Over | AtomKind::Under | AtomKind::Center => false,
        AtomKind::Radical(_) | AtomKind::Accent(_) => false,
    }
}

/// A noad whose limits stand elsewhere, if it is an Op. Its only error is want of memory.
fn with_limits(noad: Noad, limits: Limits) -> Result<Noad, AllocError>
    ensures { IfOk result (λ made. math_of made ≡ spec.with_limits limits (math_of noad)) }
{
    match noad {
        Noad::Atom(atom) => {
            let mut atom = atom;
            limit(Rc::make_mut(&mut atom)?, limits);
            Ok(Noad::Atom(atom))
        }
        Noad::Fraction(inner) => Ok(Noad::Fraction(inner)),
        Noad::Choice(inner) => Ok(Noad::Choice(inner)),
        Noad::Plain(item) => Ok(Noad::Plain(item)),
        Noad::Node(node) => Ok(Noad::Node(node)),
    }
}

/// The nucleus of an Ord without scripts, None of other noads. Its only error is want of memory.
fn lone_nucleus(noad: &Noad) -> Result<Option<Field>, AllocError>
    ensures { IfOk result (λ found. option_map part_of found ≡ spec.lone_nucleus (math_of noad.now)) }
{
    match noad {
        Noad::Atom(atom) => {
            if atom.kind.is_ord() && atom.superscript.is_empty() && atom.subscript.is_empty() {
                Ok(Some(atom.nucleus.clone()?))
            } else {
                Ok(None)
            }
        }
        Noad::Fraction(_) | Noad::Choice(_) | Noad::Plain(_) | Noad::Node(_) => Ok(None),
    }
}

/// The nucleus of an Ord that has no scripts and is alone in a list, None of other lists. Its only error is want of memory.
fn nucleus_in(list: &[Noad]) -> Result<Option<Field>, AllocError>
    ensures { IfOk result (λ found. option_map part_of found ≡ spec.nucleus_in (mlist_of list.now)) }
{
    match list {
        [] => Ok(None),
        [only] => lone_nucleus(only),
        [_, _, ..] => Ok(None),
    }
}

/// An atom that has an accent, None of other noads. Its only error is want of memory.
fn accented(noad: &Noad) -> Result<Option<Noad>, AllocError>
    ensures { IfOk result (λ found. option_map math_of found ≡ spec.accented (math_of noad.now)) }
{
    match noad {
        Noad::Atom(atom) => {
            if atom.kind.is_accent() {
                Ok(Some(Noad::Atom(atom.clone()?)))
            } else {
                Ok(None)
            }
        }
        Noad::Fraction(_) | Noad::Choice(_) | Noad::Plain(_) | Noad::Node(_) => Ok(None),
    }
}

/// An atom that has an accent and is alone in a list, None of other lists. Its only error is want of memory.
fn lone_accent(list: &[Noad]) -> Result<Option<Noad>, AllocError>
    ensures { IfOk result (λ found. option_map math_of found ≡ spec.lone_accent (mlist_of list.now)) }
{
    match list {
        [] => Ok(None),
        [only] => accented(only),
        [_, _, ..] => Ok(None),
    }
}

/// Whether a place is that of a nucleus.
fn is_nucleus(place: Place) -> bool
    ensures { result ≡ spec.is_nucleus place }
{
    match place {
        Place::Nucleus => true,
        Place::Superscript | Place::Subscript => false,
    }
}

impl Mlist {
    /// The last noad, lent, if there is one.
    #[tactic(auto, using(crate::proofs::Lists::last_is))]
    fn last(&self) -> Option<&Noad>
        ensures { option_map math_of (option_copied result) ≡ spec.last_of self.now }
    {
        self.as_slice().last()
    }

    /// Puts an Ord with nothing at the end unless the last noad is an atom, and answers whether that has something at this place: a
    /// script would be the second one there. Its only error is want of memory.
    pub fn begin_script(&mut self, alloc: Global, place: Place) -> Result<bool, AllocError>
        ensures list { OnOk result (self.new ≡ spec.for_script self.old) }
        ensures second { IfOk result (λ second. second ≡ spec.is_second place self.old) }
    {
        if let Some(Noad::Atom(atom)) = self.last() {
            return Ok(has_part(atom, place));
        }
        self.push(bare(alloc, AtomKind::Ord)?)?;
        Ok(false)
    }

    /// Puts a part at a place of the last noad, which is an atom; else nothing changes. After want of memory, its only error, the
    /// list may only be dropped.
    #[tactic(auto, using(crate::proofs::Lists::changed_none))]
    pub fn fill(&mut self, place: Place, part: Field) -> Result<(), AllocError>
        ensures { OnOk result (self.new ≡ spec.filled place (part_of part) self.old) }
    {
        match self.pop() {
            Some(noad) => self.push(with_part(noad, place, part)?),
            None => Ok(()),
        }
    }

    /// Whether the last noad is an Op.
    pub fn ends_with_operator(&self) -> bool
        ensures { result ≡ spec.ends_with_operator self.now }
    {
        match self.last() {
            Some(Noad::Atom(atom)) => is_op(atom.kind),
            Some(Noad::Fraction(_) | Noad::Choice(_) | Noad::Plain(_) | Noad::Node(_)) => false,
            None => false,
        }
    }

    /// \limits and its kin: the limits of the last noad stand elsewhere, if it is an Op; else nothing changes. After want of
    /// memory, its only error, the list may only be dropped.
    #[tactic(auto, using(crate::proofs::Lists::changed_none))]
    pub fn set_limits(&mut self, limits: Limits) -> Result<(), AllocError>
        ensures { OnOk result (self.new ≡ spec.limited limits self.old) }
    {
        match self.pop() {
            Some(noad) => self.push(with_limits(noad, limits)?),
            None => Ok(()),
        }
    }

    /// What comes of the end of the list, where this stands above a line, if one came.
    pub fn finished(self, alloc: Global, above: Option<Above>) -> Result<Mlist, MlistError>
        ensures made { IfOk result (λ list. spec.finished above self ≡ Ok list) }
        ensures error { IfErr result (λ e. e ≢ OutOfMemory → spec.finished above self ≡ Err e) }
    {
        match above {
            None => Ok(self),
            Some(Above { head, numerator }) => {
                let fraction = Fraction {
                    head,
                    numerator,
                    denominator: self.into_inner()?,
                };
                let mut list = Mlist::new(alloc);
                list.push(Noad::from_fraction(alloc, fraction)?)?;
                Ok(list)
            }
        }
    }

    /// The part of an atom that a group gives whose list this is.
    pub fn into_part(self) -> Result<Field, MlistError>
        ensures made { IfOk result (λ part. spec.part_of_group self ≡ Ok (part_of part)) }
        ensures error { IfErr result (λ e. e ≢ OutOfMemory → spec.part_of_group self ≡ Err e) }
    {
        match nucleus_in(self.as_slice())? {
            Some(part) => Ok(part),
            None => Ok(Field::Formula(self.into_inner()?)),
        }
    }

    /// Whether the last noad is an Ord.
    fn ends_with_ord(&self) -> bool
        ensures { result ≡ spec.ends_with_ord self.now }
    {
        match self.last() {
            Some(Noad::Atom(atom)) => atom.kind.is_ord(),
            Some(Noad::Fraction(_) | Noad::Choice(_) | Noad::Plain(_) | Noad::Node(_)) => false,
            None => false,
        }
    }

    /// The accent that stands in place of the last noad where this is the list of its group. Its only error is want of memory.
    fn accent_for(&self, place: Place, group: &Mlist) -> Result<Option<Noad>, AllocError>
        ensures { IfOk result (λ found. option_map math_of found ≡ spec.accent_for place group.now self.now) }
    {
        if is_nucleus(place) && self.ends_with_ord() {
            lone_accent(group.as_slice())
        } else {
            Ok(None)
        }
    }

    /// A noad in place of the last one, if there is one. After want of memory, its only error, the list may only be dropped.
    #[tactic(auto, using(crate::proofs::Lists::changed_none))]
    fn replace(&mut self, noad: Noad) -> Result<(), AllocError>
        ensures { OnOk result (self.new ≡ spec.replaced (math_of noad) self.old) }
    {
        match self.pop() {
            Some(_) => self.push(noad),
            None => Ok(()),
        }
    }

    /// What a group gives whose list this is stands at a place of the last noad, which is an atom; or, where the group is the
    /// nucleus of an Ord and has an accent alone, this stands in the Ord's place. `TooDeep` as `into_inner` says. After an error
    /// the list may only be dropped.
    pub fn fill_group(&mut self, place: Place, group: Mlist) -> Result<(), MlistError>
        ensures made { OnOk result (spec.grouped place group self.old ≡ Ok self.new) }
        ensures error { IfErr result (λ e. e ≢ OutOfMemory → spec.grouped place group self.old ≡ Err e) }
    {
        match self.accent_for(place, &group)? {
            Some(accent) => {
                self.replace(accent)?;
                Ok(())
            }
            None => {
                let part = group.into_part()?;
                self.fill(place, part)?;
                Ok(())
            }
        }
    }

    /// The list between \left and \right, as an Inner. `TooDeep` as `into_inner` says.
    pub fn into_delimited(
        self,
        alloc: Global,
        left: Delimiter,
        right: Delimiter,
    ) -> Result<Noad, MlistError>
        ensures made { IfOk result (λ noad. spec.delimited left right self ≡ Ok (math_of noad)) }
        ensures error { IfErr result (λ e. e ≢ OutOfMemory → spec.delimited left right self ≡ Err e) }
    {
        let list = between(alloc, left, right, self)?;
        let nucleus = Field::Formula(list.into_inner()?);
        Ok(Noad::from_atom(
            alloc,
            Atom {
                kind: AtomKind::Inner,
                nucleus,
                superscript: Field::Empty,
                subscript: Field::Empty,
            },
        )?)
    }
}

/// \left, a list, and \right. Its only error is want of memory.
fn between(
    alloc: Global,
    left: Delimiter,
    right: Delimiter,
    list: Mlist,
) -> Result<Mlist, AllocError>
    ensures { IfOk result (λ made. made ≡ spec.between left right list) }
{
    let mut inner = list;
    let mut made = Mlist::new(alloc);
    made.push(Noad::Plain(PlainNoad::Left(left)))?;
    made.append(&mut inner)?;
    made.push(Noad::Plain(PlainNoad::Right(right)))?;
    Ok(made)
}
