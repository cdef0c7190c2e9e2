//! The entries of a list (TeX: The Program, sections 726 to 731).
ghost use Rattle.std.specs.Prelude.{◌≡◌, ◌∷◌, ◌++◌, [], List, false, IfOk, OnOk};
ghost use Rattle.tx_mlist.specs.Items.{gathered};
ghost use Rattle.tx_mlist.specs.Noads.{choice_of, math_of, mlist_of};
ghost use Rattle.tx_math.specs.Converting.{entries_in, entry_of};
ghost use Rattle.tx_math.specs.Entries as spec;
ghost use Rattle.tx_math.specs.Entries.{Entry as SpecEntry};

use crate::boxes::is_kern;
use crate::entry::Entry;
use std::alloc::{AllocError, Global};
use tx_list::Items;
use tx_mlist::{AtomKind, Choice, Noad, PlainNoad};

/// The kind of a small noad where a list is begun with.
fn kind_of_small(item: PlainNoad) -> AtomKind
    ensures { result ≡ spec.kind_of_small item }
{
    match item {
        PlainNoad::Left(_) => AtomKind::Open,
        PlainNoad::Right(_) => AtomKind::Close,
        PlainNoad::Style(_) | PlainNoad::Nonscript | PlainNoad::Glue(_) | PlainNoad::Kern(_) => {
            AtomKind::Ord
        }
    }
}

/// The kind of a noad where a list is begun with.
fn kind_of(noad: &Noad) -> AtomKind
    ensures { result ≡ spec.kind_of_item (math_of noad.now) }
{
    match noad {
        Noad::Atom(atom) => atom.kind,
        Noad::Plain(item) => kind_of_small(*item),
        Noad::Fraction(_) | Noad::Choice(_) | Noad::Node(_) => AtomKind::Ord,
    }
}

/// Whether a small noad is \left or \right.
fn small_is_noad(item: PlainNoad) -> bool
    ensures { result ≡ spec.small_is_noad item }
{
    match item {
        PlainNoad::Left(_) | PlainNoad::Right(_) => true,
        PlainNoad::Style(_) | PlainNoad::Nonscript | PlainNoad::Glue(_) | PlainNoad::Kern(_) => {
            false
        }
    }
}

/// Whether a noad is an atom, a fraction, \left or \right.
pub fn is_noad(noad: &Noad) -> bool
    ensures { result ≡ spec.is_noad (math_of noad.now) }
{
    match noad {
        Noad::Atom(_) | Noad::Fraction(_) => true,
        Noad::Plain(item) => small_is_noad(*item),
        Noad::Choice(_) | Noad::Node(_) => false,
    }
}

/// A noad in a style.
pub fn entry_in(style: u8, noad: Noad) -> Entry
    ensures { entry_of result ≡ spec.entry_in style (math_of noad) }
{
    Entry {
        style,
        kind: kind_of(&noad),
        joined: false,
        noad,
    }
}

/// The style behind a small noad.
fn style_behind(style: u8, item: PlainNoad) -> u8
    ensures { result ≡ spec.style_behind style item }
{
    match item {
        PlainNoad::Style(changed) => changed,
        PlainNoad::Nonscript | PlainNoad::Glue(_) | PlainNoad::Kern(_) => style,
        PlainNoad::Left(_) | PlainNoad::Right(_) => style,
    }
}

/// The list that \mathchoice takes in a style.
fn chosen(style: u8, choice: &Choice) -> &[Noad]
    ensures { mlist_of result.now ≡ spec.chosen style choice.now.display choice.now.text choice.now.script choice.now.script_script }
{
    match style / 2 {
        0 => choice.display.as_slice(),
        1 => choice.text.as_slice(),
        2 => choice.script.as_slice(),
        _ => choice.script_script.as_slice(),
    }
}

/// Puts the entries of a list that is begun in a style behind others, and answers the style behind it. Its only error is want of
/// memory.
#[cycle(lay)]
#[tactic(auto, using(crate::proofs::Chosen::laid_more, crate::proofs::Chosen::laid_over))]
pub fn lay_list(entries: &mut Items<Entry>, style: u8, list: &[Noad]) -> Result<u8, AllocError>
    ensures laid { OnOk result (entries_in entries.new ≡ entries_in entries.old ++ (spec.laid style (gathered (mlist_of list.now))).0) }
    ensures style { IfOk result (λ behind. behind ≡ (spec.laid style (gathered (mlist_of list.now))).1) }
{
    let mut style = style;
    for noad in list {
        style = lay_noad(entries, style, noad)?;
    }
    Ok(style)
}

/// Puts the entries of a noad behind others, and answers the style behind it.
#[cycle(lay)]
fn lay_noad(entries: &mut Items<Entry>, style: u8, noad: &Noad) -> Result<u8, AllocError>
    ensures laid { OnOk result (entries_in entries.new ≡ entries_in entries.old ++ (spec.laid_item style (math_of noad.now)).0) }
    ensures style { IfOk result (λ behind. behind ≡ (spec.laid_item style (math_of noad.now)).1) }
{
    match noad {
        Noad::Choice(choice) => lay_choice(entries, style, choice),
        Noad::Plain(item) => {
            entries.push(entry_in(style, Noad::Plain(*item)))?;
            Ok(style_behind(style, *item))
        }
        Noad::Atom(_) | Noad::Fraction(_) | Noad::Node(_) => {
            entries.push(entry_in(style, noad.clone()?))?;
            Ok(style)
        }
    }
}

/// Puts the style and the list that \mathchoice takes behind others, and answers the style behind them.
#[cycle(lay)]
#[tactic(auto, using(crate::proofs::Chosen::chosen_falls, crate::proofs::Chosen::laid_chosen))]
fn lay_choice(entries: &mut Items<Entry>, style: u8, choice: &Choice) -> Result<u8, AllocError>
    ensures laid { OnOk result (entries_in entries.new ≡ entries_in entries.old ++ (spec.laid_item style (choice_of choice.now)).0) }
    ensures style { IfOk result (λ behind. behind ≡ (spec.laid_item style (choice_of choice.now)).1) }
{
    entries.push(entry_in(style, Noad::Plain(PlainNoad::Style(style))))?;
    lay_list(entries, style, chosen(style, choice))
}

/// Whether a noad is glue or a kern.
fn is_space(noad: &Noad) -> bool
    ensures { result ≡ spec.is_space (math_of noad.now) }
{
    match noad {
        Noad::Atom(_) | Noad::Fraction(_) | Noad::Choice(_) => false,
        Noad::Plain(PlainNoad::Nonscript | PlainNoad::Glue(_) | PlainNoad::Kern(_)) => true,
        Noad::Plain(PlainNoad::Style(_) | PlainNoad::Left(_) | PlainNoad::Right(_)) => false,
        Noad::Node(node) => node.glue().is_some() || is_kern(node),
    }
}

/// Whether a noad is \nonscript.
fn is_nonscript(noad: &Noad) -> bool
    ensures { result ≡ spec.is_nonscript (math_of noad.now) }
{
    match noad {
        Noad::Plain(PlainNoad::Nonscript) => true,
        Noad::Plain(PlainNoad::Style(_) | PlainNoad::Glue(_) | PlainNoad::Kern(_)) => false,
        Noad::Plain(PlainNoad::Left(_) | PlainNoad::Right(_)) => false,
        Noad::Atom(_) | Noad::Fraction(_) | Noad::Choice(_) | Noad::Node(_) => false,
    }
}

/// Keeps an entry unless it is a space that is hidden, and answers whether it hides one behind it.
fn keep(left: &mut Items<Entry>, hidden: bool, entry: Entry) -> Result<bool, AllocError>
    ensures { IfOk result (λ hides. (rest : List SpecEntry) → entries_in left.new ++ spec.left_behind hides rest ≡ entries_in left.old ++ spec.left_behind hidden (entry_of entry ∷ rest)) }
{
    if hidden && is_space(&entry.noad) {
        return Ok(false);
    }
    let hides = is_nonscript(&entry.noad) && entry.style >= 4;
    left.push(entry)?;
    Ok(hides)
}

/// The entries without the spaces that \nonscript hides. Its only error is want of memory.
fn without_hidden(alloc: Global, entries: Items<Entry>) -> Result<Items<Entry>, AllocError>
    ensures { IfOk result (λ left. entries_in left ≡ spec.left_behind false (entries_in entries)) }
{
    let mut left = Items::new(alloc);
    let mut hidden = false;
    for entry in entries.into_vec() {
        hidden = keep(&mut left, hidden, entry)?;
    }
    Ok(left)
}

/// The entries of a list that begins in a style. Its only error is want of memory.
#[tactic(auto, unfolding(crate::specs::Entries::entries_of))]
pub fn entries_of(alloc: Global, style: u8, list: &[Noad]) -> Result<Items<Entry>, AllocError>
    ensures { IfOk result (λ entries. entries_in entries ≡ spec.entries_of style (gathered (mlist_of list.now))) }
{
    let mut entries = Items::new(alloc);
    lay_list(&mut entries, style, list)?;
    without_hidden(alloc, entries)
}
