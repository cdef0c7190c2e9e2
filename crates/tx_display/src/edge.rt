//! How far the line before a display reaches.
ghost use Rattle.std.specs.Prelude.{◌≡◌, ◌≤◌, ◌^◌, if◌then◌else◌, length, slice_get, take, unsigned_abs, Some};
ghost use Rattle.tx_node.specs.declared.head.Direction.TheVariants.{Horizontal};
ghost use Rattle.tx_node.specs.Nodes.{item_of, list_of};
ghost use Rattle.tx_pack.specs.Packing.{if_fits};
ghost use Rattle.tx_pack.specs.Sums.{sums_of as sums_of_list};
ghost use Rattle.tx_display.specs.Edges as spec;

use crate::sizes::plus;
use tx_node::{BoxNode, Direction, Node, Plain, Setting, Shared};
use tx_num::fits;
use tx_pack::sums_of;

/// \predisplaysize where no line is before a display, or nothing shows in it, in sp.
pub const LEAST_SIZE: i32 = -1_073_741_823;

/// \predisplaysize where set glue stands before the edge of what shows, in sp.
const GREATEST_SIZE: i32 = 1_073_741_823;

/// Whether a small item shows.
fn plain_shows(item: Plain) -> bool
    ensures { result ≡ spec.plain_shows item }
{
    match item {
        Plain::Character(_) => true,
        Plain::Kern(_, _) | Plain::Glue(_) | Plain::Penalty(_) => false,
    }
}

/// Whether a larger item shows.
fn shared_shows(item: &Shared) -> bool
    ensures { result ≡ spec.shared_shows item.now }
{
    match item {
        Shared::Rule(_) | Shared::Leaders(_) | Shared::Ligature(_) => true,
        Shared::Special(_) | Shared::Mark(_) => false,
    }
}

/// Whether a node shows.
fn shows(node: &Node) -> bool
    ensures { result ≡ spec.shows (item_of node.now) }
{
    match node {
        Node::Plain(item) => plain_shows(*item),
        Node::Shared(item) => shared_shows(item),
        Node::Box(_, _) | Node::BoxLeaders(_) => true,
        Node::Discretionary(_) | Node::Adjustment(_) | Node::Insertion(_) => false,
    }
}

/// So many nodes, the last of which is this one, if it shows, else those that were found before.
fn up_to(shown: bool, next: usize, found: usize) -> usize
    requires { found ≤ next }
    ensures value { result ≡ (if shown then next else found) }
    ensures within { result ≤ next }
{
    if shown { next } else { found }
}

/// How many nodes there are up to the last one that shows, 0 where none does.
fn reach(list: &[Node]) -> usize
    ensures value { result ≡ spec.reach (list_of list.now) }
    ensures within { result ≤ length list.now }
{
    let mut found = 0;
    for at in 0..list.len() {
        found = up_to(shows(&list[at]), at + 1, found);
    }
    found
}

/// Whether glue of a node is set in a box that is set so.
fn is_set(setting: &Setting, node: &Node) -> bool
    ensures { result ≡ spec.is_set setting.now (item_of node.now) }
{
    setting.share(node) != 0
}

/// Whether glue of any of these nodes is.
fn any_is_set(setting: &Setting, list: &[Node]) -> bool
    ensures { result ≡ spec.any_is_set setting.now (list_of list.now) }
{
    for node in list {
        if is_set(setting, node) {
            return true;
        }
    }
    false
}

/// A size in sp, None where it is no dimension.
fn size_if_fits(size: i64) -> Option<i32>
    ensures { result ≡ if_fits size }
{
    if fits(size) { Some(size as i32) } else { None }
}

/// The edge of what reaches so far in a line that is shifted by so many sp, and two quads more. In sp.
#[tactic(auto, unfolding(crate::specs::Edges::free_edge))]
fn free_edge(width: i64, shift: i32, quad: i64) -> i64
    requires width { unsigned_abs width ≤ 2 ^ 31 }
    requires quad { unsigned_abs quad ≤ 2 ^ 31 }
    ensures { result ≡ spec.free_edge width shift quad }
{
    let edge = plus(width, i64::from(shift));
    plus(plus(edge, quad), quad)
}

/// That of these nodes at natural places, None where it is no dimension.
fn edge_of(part: &[Node], shift: i32, quad: i64) -> Option<i32>
    requires { unsigned_abs quad ≤ 2 ^ 31 }
    ensures { result ≡ spec.edge_by (sums_of_list Horizontal (list_of part.now)) shift quad }
{
    match sums_of(Direction::Horizontal, part) {
        Some(sums) => size_if_fits(free_edge(sums.width, shift, quad)),
        None => None,
    }
}

/// The same of nodes of a line that is set so, the greatest size where glue of them is.
#[tactic(auto, unfolding(crate::specs::Edges::size_of_part))]
fn size_of_part(setting: &Setting, part: &[Node], shift: i32, quad: i64) -> Option<i32>
    requires { unsigned_abs quad ≤ 2 ^ 31 }
    ensures { result ≡ spec.size_of_part setting.now (list_of part.now) shift quad }
{
    if any_is_set(setting, part) {
        Some(GREATEST_SIZE)
    } else {
        edge_of(part, shift, quad)
    }
}

/// So many of some nodes, from the first one on.
#[tactic(auto, using(crate::proofs::Lists::taken))]
fn first_of(list: &[Node], count: usize) -> &[Node]
    requires { count ≤ length list.now }
    ensures { list_of result.now ≡ take count (list_of list.now) }
{
    &list[..count]
}

/// The same of a line's list, of which so many nodes reach up to the last one that shows; the least size where none does.
#[tactic(auto, unfolding(crate::specs::Edges::size_by))]
fn size_by(shown: usize, setting: &Setting, list: &[Node], shift: i32, quad: i64) -> Option<i32>
    requires within { shown ≤ length list.now }
    requires quad { unsigned_abs quad ≤ 2 ^ 31 }
    ensures { result ≡ spec.size_by shown setting.now (list_of list.now) shift quad }
{
    if shown == 0 {
        Some(LEAST_SIZE)
    } else {
        size_of_part(setting, first_of(list, shown), shift, quad)
    }
}

/// The same of a line that is shifted by so many sp.
fn size_of_line(shift: i32, line: &BoxNode, quad: i64) -> Option<i32>
    requires { unsigned_abs quad ≤ 2 ^ 31 }
    ensures { result ≡ spec.size_of_line shift line.now quad }
{
    let setting = line.setting();
    let list = line.list();
    size_by(reach(list), &setting, list, shift, quad)
}

/// The same of a node, which is the line.
#[tactic(auto, using(crate::proofs::Lists::listed))]
fn size_of_node(node: &Node, quad: i64) -> Option<i32>
    requires { unsigned_abs quad ≤ 2 ^ 31 }
    ensures { result ≡ spec.size_behind (Some (item_of node.now)) quad }
{
    match node {
        Node::Box(shift, line) => size_of_line(*shift, line, quad),
        Node::Plain(_) | Node::Shared(_) | Node::BoxLeaders(_) => Some(LEAST_SIZE),
        Node::Discretionary(_) | Node::Adjustment(_) | Node::Insertion(_) => Some(LEAST_SIZE),
    }
}

/// \predisplaysize behind a line, which is the node at this place of a list, in sp, where the quad of the current font is so many sp:
/// the edge of the last thing that shows in it, at natural places, its shift and two quads more. None exactly where that is no
/// dimension.
pub fn size_behind(list: &[Node], place: usize, quad: i64) -> Option<i32>
    requires { unsigned_abs quad ≤ 2 ^ 31 }
    ensures { result ≡ spec.size_behind (slice_get (list_of list.now) place) quad }
{
    match list.get(place) {
        Some(node) => size_of_node(node, quad),
        None => Some(LEAST_SIZE),
    }
}
