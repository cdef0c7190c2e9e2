//! The chains that are made at a break, one for each candidate, where those that go on alike are one.
ghost use Rattle.std.specs.Prelude.{◌≡◌, map, position, All, OnOk};
ghost use Rattle.tx_linebreak.specs.Chosen.{beats};
ghost use Rattle.tx_linebreak.specs.Kept.{offered};
ghost use Rattle.tx_linebreak.specs.Shared.{IsMade, chain_of};
ghost use Rattle.tx_linebreak.specs.Steps.{line_alike};

use crate::chains::Chains;
use crate::line::Line;
use crate::link::Link;
use std::alloc::AllocError;

/// The first of some links whose line goes on as this one.
fn place_of(links: &[Link], line: &Line, last_special: usize) -> Option<usize>
    ensures { result ≡ position (λ link. line_alike last_special link.line line.now) links.now }
{
    links
        .iter()
        .position(|link| link.line.goes_on_as(line, last_special))
}

/// Whether the chain of a link beats that of another one. Mostly their demerits tell, and then the link needs no place in memory.
fn wins(chains: &Chains, link: Link, other: &Link) -> bool
    requires link { IsMade chains.now link }
    requires other { IsMade chains.now other.now }
    ensures { result ≡ beats (chain_of chains.now link) (chain_of chains.now other.now) }
{
    if other.total < link.total {
        return false;
    }
    let placed = link;
    chains.beats(&placed, other)
}

/// Offers a chain to others: of those that go on alike the better one stays. After want of memory nothing has changed.
pub(crate) fn offer(
    chains: &Chains,
    links: &mut Vec<Link>,
    link: Link,
    last_special: usize,
) -> Result<(), AllocError>
    requires links { All (IsMade chains.now) links.old.items }
    requires link { IsMade chains.now link }
    requires placed { All (λ other. other.line.place ≡ link.line.place) links.old.items }
    ensures offered { OnOk result (map (chain_of chains.now) links.new.items ≡ offered last_special (map (chain_of chains.now) links.old.items) (chain_of chains.now link)) }
    ensures made { OnOk result (All (IsMade chains.now) links.new.items) }
    ensures placed { OnOk result (All (λ other. other.line.place ≡ link.line.place) links.new.items) }
{
    match place_of(links.as_slice(), &link.line, last_special) {
        None => {
            links.push(link)?;
        }
        Some(at) => {
            if wins(chains, link, &links[at]) {
                links[at] = link;
            }
        }
    }
    Ok(())
}
