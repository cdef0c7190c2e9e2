//! Seams of a composed word, and where it may be divided.
//!
//! Those that were noted when the word was composed are found without more. Only at the other places, which are mostly inside
//! ligatures, both parts of the word are composed to see whether there is a seam.
ghost use Rattle.std.specs.Prelude.{◌≡◌, ◌↔◌, ◌<◌, ◌≤◌, ◌^◌, true, length, take, IsTrue, IfSome, IfOk, Contains};
ghost use Rattle.tx_word.specs.Dividing.{IsDividing, divisions_in, last_in, seam_in};
ghost use Rattle.tx_word.specs.Divisions as spec;

use crate::dividing::Dividing;
use crate::division::{Division, Divisions};
use crate::word::composed;
use std::alloc::{AllocError, Global};
use tx_ligkern::{LigItem, Seam};

/// Whether two items are the same.
fn same_item(some: &LigItem, other: &LigItem) -> bool
    ensures { IsTrue result ↔ (some.now ≡ other.now) }
{
    match (some, other) {
        (LigItem::Char(code), LigItem::Char(other_code)) => *code == *other_code,
        (LigItem::Kern(size), LigItem::Kern(other_size)) => *size == *other_size,
        (
            LigItem::Lig { code, from },
            LigItem::Lig {
                code: other_code,
                from: other_from,
            },
        ) => *code == *other_code && from.same(other_from),
        (LigItem::Char(_), LigItem::Kern(_) | LigItem::Lig { .. })
        | (LigItem::Kern(_), LigItem::Char(_) | LigItem::Lig { .. })
        | (LigItem::Lig { .. }, LigItem::Char(_) | LigItem::Kern(_)) => false,
    }
}

/// Whether both have the same items.
fn equal_items(some: &[LigItem], others: &[LigItem]) -> bool
    ensures { IsTrue result ↔ (some.now ≡ others.now) }
{
    if some.len() != others.len() {
        return false;
    }
    for k in 0..some.len() {
        if !same_item(&some[k], &others[k]) {
            return false;
        }
    }
    true
}

/// Whether both have the same items, as the definition says it.
fn same_items(some: &[LigItem], others: &[LigItem]) -> bool
    ensures { result ≡ spec.same_items some.now others.now }
{
    equal_items(some, others)
}

/// How many items, none or one kern, stand before those behind a place; None where others do.
fn replaced_before(behind: &[LigItem], items: &[LigItem]) -> Option<u8>
    ensures { result ≡ spec.replaced_before behind.now items.now }
{
    if same_items(items, behind) {
        return Some(0);
    }
    match items {
        [LigItem::Kern(_), rest @ ..] if same_items(rest, behind) => Some(1),
        _ => None,
    }
}

/// Whether items begin with others.
fn begin_with(items: &[LigItem], first: &[LigItem]) -> bool
    ensures same { result ≡ spec.same_items (take (length first.now) items.now) first.now }
    ensures long { IsTrue result → length first.now ≤ length items.now }
{
    if items.len() < first.len() {
        return false;
    }
    same_items(&items[..first.len()], first)
}

/// The seam at a place between what the characters before and behind it become, in what all of them become.
fn seam_between(
    place: usize,
    before: &[LigItem],
    behind: &[LigItem],
    whole: &[LigItem],
) -> Option<Seam>
    ensures value { result ≡ spec.seam_between place before.now behind.now whole.now }
    ensures few { IfSome result (λ seam. seam.item ≤ length whole.now) }
{
    if !begin_with(whole, before) {
        return None;
    }
    match replaced_before(behind, &whole[before.len()..]) {
        None => None,
        Some(replaced) => Some(Seam {
            place,
            item: before.len(),
            replaced,
        }),
    }
}

/// Whether a seam is at a place.
fn is_at(seam: &Seam, place: usize) -> bool
    ensures { IsTrue result ↔ (seam.now.place ≡ place) }
{
    seam.place == place
}

/// The seam at a place among those that were noted.
fn noted(seams: &[Seam], place: usize) -> Option<Seam>
    ensures { IfSome result (λ seam. Contains seams.now seam × (seam.place ≡ place)) }
{
    for seam in seams {
        if is_at(seam, place) {
            return Some(*seam);
        }
    }
    None
}

/// The seam at a word's beginning.
fn first_seam() -> Seam
    ensures { result ≡ spec.first_seam }
{
    Seam {
        place: 0,
        item: 0,
        replaced: 0,
    }
}

/// A division at a seam.
fn at_seam(seam: Seam) -> Division
    ensures { result ≡ spec.at_seam seam }
{
    Division {
        from: seam.place,
        place: seam.place,
        to: seam.place,
        item: seam.item,
        replaced: seam.replaced,
    }
}

/// Whether of the places behind the one of a seam none comes before this one.
fn is_least(places: &[usize], from: usize, place: usize) -> bool
    ensures { result ≡ spec.is_least places.now from place }
{
    places.iter().all(|other| *other <= from || place <= *other)
}

/// The division at a place between two seams, None where more items stand between these than a no-break text can have.
fn between_seams(place: usize, from: &Seam, to: &Seam) -> Option<Division>
    requires { from.now.item < 2 ^ 63 }
    ensures { result ≡ spec.if_few (spec.between_seams place from.now to.now) }
{
    let item = from.item + usize::from(from.replaced);
    let replaced = to.item.saturating_sub(item);
    if replaced <= 255 {
        Some(Division {
            from: from.place,
            place,
            to: to.place,
            item,
            replaced: replaced as u8,
        })
    } else {
        None
    }
}

impl Dividing<'_> {
    /// The seam at a place between two characters, None where there is none, found by composing those before it and behind it. Its
    /// only error is want of memory, here and in all that follows.
    fn seam_by_parts(&self, alloc: Global, place: usize) -> Result<Option<Seam>, AllocError>
        requires word { IsDividing self.now }
        requires within { place < length self.now.chars.now }
        ensures value { IfOk result (λ found. found ≡ spec.seam_at self.now.fonts.now self.now.font self.now.chars.now self.now.left self.now.right place) }
        ensures few { IfOk result (λ found. IfSome found (λ seam. seam.item ≤ length self.now.items.now)) }
    {
        let (fonts, font, chars) = (self.fonts, self.font, self.chars);
        let before = composed(alloc, fonts, font, &chars[..place], self.left, false)?;
        let behind = composed(alloc, fonts, font, &chars[place..], false, self.right)?;
        Ok(seam_between(place, before.as_slice(), behind.as_slice(), self.items))
    }

    /// The seam at a place before a character, None where there is none.
    fn seam_of(&self, alloc: Global, place: usize) -> Result<Option<Seam>, AllocError>
        requires word { IsDividing self.now }
        requires within { place < length self.now.chars.now }
        ensures value { IfOk result (λ found. found ≡ seam_in self.now place) }
        ensures few { IfOk result (λ found. IfSome found (λ seam. seam.item ≤ length self.now.items.now)) }
    {
        if place == 0 {
            return Ok(Some(first_seam()));
        }
        match noted(self.seams, place) {
            Some(seam) => Ok(Some(seam)),
            None => self.seam_by_parts(alloc, place),
        }
    }

    /// The greatest seam below a place.
    fn seam_below(&self, alloc: Global, place: usize) -> Result<Seam, AllocError>
        requires word { IsDividing self.now }
        requires within { place < length self.now.chars.now }
        ensures value { IfOk result (λ seam. seam ≡ spec.seam_below (seam_in self.now) place) }
        ensures few { IfOk result (λ seam. seam.item ≤ length self.now.items.now) }
    {
        let mut at = place;
        while at > 0 {
            at -= 1;
            let found = self.seam_of(alloc, at)?;
            if let Some(seam) = found {
                return Ok(seam);
            }
        }
        Ok(first_seam())
    }

    /// The seam at the word's end.
    fn last_seam(&self) -> Seam
        ensures { result ≡ last_in self.now }
    {
        Seam {
            place: self.chars.len(),
            item: self.items.len(),
            replaced: 0,
        }
    }

    /// The least seam above a place.
    fn seam_above(&self, alloc: Global, place: usize) -> Result<Seam, AllocError>
        requires word { IsDividing self.now }
        requires within { place < length self.now.chars.now }
        ensures { IfOk result (λ seam. seam ≡ spec.seam_above (seam_in self.now) (last_in self.now) place) }
    {
        let end = self.chars.len();
        let mut at = place + 1;
        while at < end {
            let found = self.seam_of(alloc, at)?;
            if let Some(seam) = found {
                return Ok(seam);
            }
            at += 1;
        }
        Ok(self.last_seam())
    }

    /// The division at a place that is no seam, None where an earlier one is between the same seams.
    fn inside(&self, alloc: Global, place: usize) -> Result<Option<Division>, AllocError>
        requires word { IsDividing self.now }
        requires within { place < length self.now.chars.now }
        ensures { IfOk result (λ found. found ≡ spec.inside self.now.places.now place (spec.seam_below (seam_in self.now) place) (spec.seam_above (seam_in self.now) (last_in self.now) place)) }
    {
        let from = self.seam_below(alloc, place)?;
        if !is_least(self.places, from.place, place) {
            return Ok(None);
        }
        let to = self.seam_above(alloc, place)?;
        Ok(between_seams(place, &from, &to))
    }

    /// The division at a place, None where there is none.
    fn division_at(&self, alloc: Global, place: usize) -> Result<Option<Division>, AllocError>
        requires word { IsDividing self.now }
        requires within { place < length self.now.chars.now }
        ensures { IfOk result (λ found. found ≡ spec.division_at (seam_in self.now) (last_in self.now) self.now.places.now place) }
    {
        match self.seam_of(alloc, place)? {
            Some(seam) => Ok(Some(at_seam(seam))),
            None => self.inside(alloc, place),
        }
    }

    /// The divisions at the word's places, in their order.
    pub(crate) fn divisions(&self, alloc: Global) -> Result<Divisions, AllocError>
        requires { IsDividing self.now }
        ensures { IfOk result (λ divisions. divisions ≡ divisions_in self.now) }
    {
        let mut divisions = Divisions::new(alloc);
        for place in self.places {
            match self.division_at(alloc, *place)? {
                None => (),
                Some(division) => divisions.push(division)?,
            }
        }
        Ok(divisions)
    }
}
