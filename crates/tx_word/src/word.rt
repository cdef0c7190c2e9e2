//! Words in a list.
ghost use Rattle.std.specs.Prelude.{◌≡◌, ◌<◌, ◌∷◌, ◌++◌, [], true, false, length, IfOk, OnOk};
ghost use Rattle.std.specs.List.{All, flat_map};
ghost use Rattle.tx_node.specs.Nodes.{item_of};
ghost use Rattle.tx_tfm.specs.Fonts.{font_at, has_character};
ghost use Rattle.tx_tfm.specs.Sound.{IsSound};
ghost use Rattle.tx_ligkern.specs.Pairs.{is_ligature, kern_in};
ghost use Rattle.tx_word.specs.Composed.{composed_in, left_items, word_list, IsPaired};
ghost use Rattle.tx_word.specs.Dividing.{IsNoted};
ghost use Rattle.tx_word.specs.Words as spec;

use std::alloc::{AllocError, Global};
use tx_ligkern::{Items, LigItem, Met, Seamed, Seams, compose, compose_with_seams, pair_meets};
use tx_node::{Character, KernKind, Ligature, Node, Nodes, Plain, Shared};
use tx_tfm::{Fonts, NamedFont};

/// A character of the font of a number, with the sizes that the font gives it.
#[inline(always)]
pub(crate) fn character(fonts: &Fonts, font: u8, code: u8) -> Character
    ensures { result ≡ spec.character_of fonts.now font code }
{
    match fonts.get(font) {
        Some(named) => {
            let metrics = named.font.character(code);
            Character {
                font,
                code,
                width: metrics.width,
                height: metrics.height,
                depth: metrics.depth,
            }
        }
        None => Character {
            font,
            code,
            width: 0,
            height: 0,
            depth: 0,
        },
    }
}

/// A part of a composed word as a node. Its only error is want of memory.
#[inline(always)]
pub(crate) fn node_of(
    alloc: Global,
    fonts: &Fonts,
    font: u8,
    item: LigItem,
) -> Result<Node, AllocError>
    ensures { IfOk result (λ node. item_of node ≡ spec.word_item fonts.now font item) }
{
    match item {
        LigItem::Char(code) => Ok(Node::Plain(Plain::Character(character(fonts, font, code)))),
        LigItem::Lig { code, from } => Node::from_shared(
            alloc,
            Shared::Ligature(Ligature {
                character: character(fonts, font, code),
                from,
            }),
        ),
        LigItem::Kern(size) => Ok(Node::Plain(Plain::Kern(KernKind::Implicit, size))),
    }
}

/// The last of the characters in whose stead a part of a composed word stands.
fn last_original(item: &LigItem) -> Option<u8>
    ensures { result ≡ spec.last_original item.now }
{
    match item {
        LigItem::Char(code) => Some(*code),
        LigItem::Lig { from, .. } => from.as_slice().last().copied(),
        LigItem::Kern(_) => None,
    }
}

/// Whether that is the hyphen character, if there is one.
fn allows_break(hyphen: Option<u8>, item: &LigItem) -> bool
    ensures { result ≡ spec.allows_break hyphen item.now }
{
    let Some(hyphen) = hyphen else {
        return false;
    };
    match last_original(item) {
        Some(code) => code == hyphen,
        None => false,
    }
}

/// What `\discretionary{}{}{}` gives. Its only error is want of memory.
fn empty_discretionary(alloc: Global) -> Result<Node, AllocError>
    ensures { IfOk result (λ node. item_of node ≡ spec.empty_discretionary) }
{
    Node::from_discretionary(alloc, Nodes::new(alloc), Nodes::new(alloc), 0, false)
}

/// Puts a part of a composed word, and the place for a break behind it if there is one, at the end of a list. Its only error is
/// want of memory.
#[inline(always)]
fn append_item(
    alloc: Global,
    list: &mut Nodes,
    fonts: &Fonts,
    font: u8,
    hyphen: Option<u8>,
    item: LigItem,
) -> Result<(), AllocError>
    ensures { OnOk result (list.new ≡ list.old ++ spec.word_items fonts.now font hyphen item) }
{
    let breaks = allows_break(hyphen, &item);
    list.push(node_of(alloc, fonts, font, item)?)?;
    if breaks {
        list.push(empty_discretionary(alloc)?)?;
    }
    Ok(())
}

/// Puts the parts of a composed word at the end of a list, with places for breaks behind the hyphen character, if there is one.
/// Its only error is want of memory.
pub(crate) fn append_items(
    alloc: Global,
    list: &mut Nodes,
    fonts: &Fonts,
    font: u8,
    hyphen: Option<u8>,
    items: Items,
) -> Result<(), AllocError>
    ensures { OnOk result (list.new ≡ list.old ++ flat_map (spec.word_items fonts.now font hyphen) items) }
{
    for item in items.into_vec() {
        append_item(alloc, list, fonts, font, hyphen, item)?;
    }
    Ok(())
}

/// What characters become in the font of a number. Its only error is want of memory.
pub(crate) fn composed(
    alloc: Global,
    fonts: &Fonts,
    font: u8,
    chars: &[u8],
    left: bool,
    right: bool,
) -> Result<Items, AllocError>
    requires { All (λ c. has_character fonts.now font c ≡ true) chars.now }
    ensures made { IfOk result (spec.Composed (font_at fonts.now font) chars.now left right) }
    ensures value { IfOk result (λ items. items ≡ composed_in (font_at fonts.now font) chars.now left right) }
{
    match fonts.get(font) {
        None => Ok(Items::new(alloc)),
        Some(named) => compose(alloc, &named.font, chars, left, right),
    }
}

/// The same, with seams of the word.
pub(crate) fn composed_with_seams(
    alloc: Global,
    fonts: &Fonts,
    font: u8,
    chars: &[u8],
    left: bool,
    right: bool,
) -> Result<Seamed, AllocError>
    requires { All (λ c. has_character fonts.now font c ≡ true) chars.now }
    ensures made { IfOk result (λ made. spec.Composed (font_at fonts.now font) chars.now left right made.items) }
    ensures value { IfOk result (λ made. made.items ≡ composed_in (font_at fonts.now font) chars.now left right) }
    ensures noted { IfOk result (λ made. All (IsNoted fonts.now font chars.now left right made.items) made.seams) }
{
    match fonts.get(font) {
        None => Ok(Seamed {
            items: Items::new(alloc),
            seams: Seams::new(alloc),
        }),
        Some(named) => compose_with_seams(alloc, &named.font, chars, left, right),
    }
}

/// Puts what a word becomes at the end of a list by composing it whole. Its only error is want of memory.
#[inline(never)]
fn append_whole(
    alloc: Global,
    list: &mut Nodes,
    fonts: &Fonts,
    font: u8,
    chars: &[u8],
    left: bool,
    right: bool,
    hyphen: Option<u8>,
) -> Result<(), AllocError>
    requires { All (λ c. has_character fonts.now font c ≡ true) chars.now }
    ensures made { OnOk result (spec.WithWord fonts.now font chars.now left right hyphen list.old list.new) }
    ensures value { OnOk result (list.new ≡ list.old ++ word_list fonts.now font chars.now left right hyphen) }
{
    let items = composed(alloc, fonts, font, chars, left, right)?;
    append_items(alloc, list, fonts, font, hyphen, items)
}

/// Puts what stands at the left of a pair at the end of a list: a character, or the boundary, which is nothing. Its only error is
/// want of memory.
#[inline(always)]
fn append_left(
    alloc: Global,
    list: &mut Nodes,
    fonts: &Fonts,
    font: u8,
    hyphen: Option<u8>,
    left: Option<u8>,
) -> Result<(), AllocError>
    ensures { OnOk result (list.new ≡ list.old ++ flat_map (spec.word_items fonts.now font hyphen) (left_items left)) }
{
    match left {
        Some(code) => append_item(alloc, list, fonts, font, hyphen, LigItem::Char(code)),
        None => Ok(()),
    }
}

/// Puts the kern that a pair meets at the end of a list, if it meets one. Its only error is want of memory.
#[inline(always)]
fn append_kern(
    alloc: Global,
    list: &mut Nodes,
    fonts: &Fonts,
    font: u8,
    hyphen: Option<u8>,
    met: Met,
) -> Result<(), AllocError>
    ensures { OnOk result (list.new ≡ list.old ++ flat_map (spec.word_items fonts.now font hyphen) (kern_in met)) }
{
    match met {
        Met::Kern(size) => append_item(alloc, list, fonts, font, hyphen, LigItem::Kern(size)),
        Met::Nothing | Met::Ligature => Ok(()),
    }
}

/// Whether a pair meets a ligature command.
fn is_ligature(met: Met) -> bool
    ensures { result ≡ is_ligature met }
{
    match met {
        Met::Ligature => true,
        Met::Nothing | Met::Kern(_) => false,
    }
}

/// Puts what stands at the left of a pair at the end of a list, and the kern that the pair meets. False where it meets a ligature
/// command: the list stays as it is. The only error is want of memory.
#[inline(always)]
fn append_pair(
    alloc: Global,
    list: &mut Nodes,
    fonts: &Fonts,
    font: u8,
    named: &NamedFont,
    hyphen: Option<u8>,
    left: Option<u8>,
    right: Option<u8>,
) -> Result<bool, AllocError>
    ensures { IfOk result (λ done. IsPaired fonts.now font hyphen named.now.font left right done list.old list.new) }
{
    let met = pair_meets(&named.font, left, right);
    if is_ligature(met) {
        return Ok(false);
    }
    append_left(alloc, list, fonts, font, hyphen, left)?;
    append_kern(alloc, list, fonts, font, hyphen, met)?;
    Ok(true)
}

/// Puts what the last character of a word becomes at the end of a list. Its only error is want of memory.
fn append_last(
    alloc: Global,
    list: &mut Nodes,
    fonts: &Fonts,
    font: u8,
    named: &NamedFont,
    code: u8,
    right: bool,
    hyphen: Option<u8>,
) -> Result<(), AllocError>
    requires named { font_at fonts.now font ≡ Some named.now }
    requires sound { IsSound named.now.font }
    requires there { All (λ c. has_character fonts.now font c ≡ true) (code ∷ []) }
    ensures { OnOk result (list.new ≡ list.old ++ word_list fonts.now font (code ∷ []) false right hyphen) }
{
    if !right {
        return append_item(alloc, list, fonts, font, hyphen, LigItem::Char(code));
    }
    let done = append_pair(alloc, list, fonts, font, named, hyphen, Some(code), None)?;
    if done {
        return Ok(());
    }
    append_whole(alloc, list, fonts, font, &[code], false, true, hyphen)
}

/// Puts what a word becomes whose left boundary doesn't count at the end of a list, character by character as long as no ligature
/// comes. Its only error is want of memory.
fn append_behind(
    alloc: Global,
    list: &mut Nodes,
    fonts: &Fonts,
    font: u8,
    named: &NamedFont,
    chars: &[u8],
    right: bool,
    hyphen: Option<u8>,
) -> Result<(), AllocError>
    requires named { font_at fonts.now font ≡ Some named.now }
    requires sound { IsSound named.now.font }
    requires some { 0 < length chars.now }
    requires there { All (λ c. has_character fonts.now font c ≡ true) chars.now }
    ensures { OnOk result (list.new ≡ list.old ++ word_list fonts.now font chars.now false right hyphen) }
{
    let mut at = 0;
    while at + 1 < chars.len() {
        let code = chars[at];
        let next = chars[at + 1];
        let done = append_pair(
            alloc,
            list,
            fonts,
            font,
            named,
            hyphen,
            Some(code),
            Some(next),
        )?;
        if !done {
            return append_whole(alloc, list, fonts, font, &chars[at..], false, right, hyphen);
        }
        at += 1;
    }
    append_last(alloc, list, fonts, font, named, chars[at], right, hyphen)
}

/// Puts what some characters become at the end of a list. Its only error is want of memory.
fn append_some(
    alloc: Global,
    list: &mut Nodes,
    fonts: &Fonts,
    font: u8,
    named: &NamedFont,
    chars: &[u8],
    left: bool,
    right: bool,
    hyphen: Option<u8>,
) -> Result<(), AllocError>
    requires named { font_at fonts.now font ≡ Some named.now }
    requires sound { IsSound named.now.font }
    requires some { 0 < length chars.now }
    requires there { All (λ c. has_character fonts.now font c ≡ true) chars.now }
    ensures { OnOk result (list.new ≡ list.old ++ word_list fonts.now font chars.now left right hyphen) }
{
    if !left {
        return append_behind(alloc, list, fonts, font, named, chars, right, hyphen);
    }
    let first = chars[0];
    let done = append_pair(alloc, list, fonts, font, named, hyphen, None, Some(first))?;
    if !done {
        return append_whole(alloc, list, fonts, font, chars, true, right, hyphen);
    }
    append_behind(alloc, list, fonts, font, named, chars, right, hyphen)
}

/// Puts what a word becomes at the end of a list, with places for breaks behind the hyphen character, if there is one. Its only
/// error is want of memory.
pub fn append_word(
    alloc: Global,
    list: &mut Nodes,
    fonts: &Fonts,
    font: u8,
    chars: &[u8],
    left: bool,
    right: bool,
    hyphen: Option<u8>,
) -> Result<(), AllocError>
    requires { All (λ c. has_character fonts.now font c ≡ true) chars.now }
    ensures made { OnOk result (spec.WithWord fonts.now font chars.now left right hyphen list.old list.new) }
    ensures value { OnOk result (list.new ≡ list.old ++ word_list fonts.now font chars.now left right hyphen) }
{
    match fonts.get(font) {
        Some(named) if !chars.is_empty() => {
            named.font.is_sound();
            append_some(alloc, list, fonts, font, named, chars, left, right, hyphen)
        }
        Some(_) | None => append_whole(alloc, list, fonts, font, chars, left, right, hyphen),
    }
}
