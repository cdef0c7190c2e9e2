//! Cases of tx_node and tx_ship.
use crate::lists::{Fault, list_of, natural};
use std::alloc::{AllocError, Global};
use tx_bytes::Bytes;
use tx_cases::{first_word, write_hexadecimal};
use tx_dvi::PageBody;
use tx_node::{BoxNode, same_box, same_list};
use tx_pack::PackError;
use tx_ship::{ShipError, ShipParams, body};
use tx_tfm::Fonts;

/// - `box LIST`, its width, height and depth, how deep boxes nest, and how many nodes there are;
/// - `twin LIST`, whether the box and a clone of it are equal, and `alike LIST|LIST`, whether two lists are;
/// - `page HOFFSET VOFFSET LIST`, the page's height and width, and `body HOFFSET VOFFSET LIST`, these, its nesting, its
///   magnification and its commands in hexadecimal.
pub fn write_answer(
    alloc: Global,
    text: &mut String,
    word: &str,
    rest: &str,
) -> Result<(), AllocError> {
    match word {
        "box" => write_box(text, box_of(alloc, rest)),
        "twin" => write_twin(text, box_of(alloc, rest)),
        "alike" => write_alike(alloc, text, rest),
        "page" | "body" => write_page_at(alloc, text, word, rest),
        _ => text.push_str("malformed"),
    }
}

fn write_page_at(
    alloc: Global,
    text: &mut String,
    word: &str,
    rest: &str,
) -> Result<(), AllocError> {
    let (hoffset, rest) = first_word(rest);
    let (voffset, rest) = first_word(rest);
    let (Ok(hoffset), Ok(voffset)) = (hoffset.parse(), voffset.parse()) else {
        return text.push_str("malformed");
    };
    match box_of(alloc, rest) {
        Ok(node) => write_page(text, word, page_of(alloc, &node, hoffset, voffset)),
        Err(fault) => write_fault(text, fault),
    }
}

fn box_of(alloc: Global, text: &str) -> Result<BoxNode, Fault> {
    natural(alloc, list_of(alloc, text)?)
}

/// Writes why there is no box.
pub fn write_fault(text: &mut String, fault: Fault) -> Result<(), AllocError> {
    match fault {
        Fault::Malformed => text.push_str("malformed"),
        Fault::Unpacked(PackError::SizeOutOfRange) => text.push_str("too wide"),
        Fault::Unpacked(PackError::TooDeep) => text.push_str("too deep"),
        Fault::Unpacked(PackError::OutOfMemory) | Fault::Memory => Err(AllocError),
    }
}

fn write_box(text: &mut String, packed: Result<BoxNode, Fault>) -> Result<(), AllocError> {
    match packed {
        Ok(node) => {
            let (width, height, depth) = (node.width(), node.height(), node.depth());
            let (nesting, count) = (node.nesting(), node.count());
            write!(
                text,
                "{width} {height} {depth}, nesting {nesting}, nodes {count}"
            )
        }
        Err(error) => write_fault(text, error),
    }
}

fn write_twin(text: &mut String, packed: Result<BoxNode, Fault>) -> Result<(), AllocError> {
    match packed {
        Ok(node) => write!(text, "{}", same_box(&node, &node.clone()?)),
        Err(error) => write_fault(text, error),
    }
}

fn write_alike(alloc: Global, text: &mut String, rest: &str) -> Result<(), AllocError> {
    let (one, other) = rest.split_once('|').unwrap_or((rest, "?"));
    match box_of(alloc, one) {
        Ok(node) => write_same(text, &node, box_of(alloc, other)),
        Err(_) => text.push_str("malformed"),
    }
}

fn write_same(
    text: &mut String,
    node: &BoxNode,
    other: Result<BoxNode, Fault>,
) -> Result<(), AllocError> {
    match other {
        Ok(other) => write!(text, "{}", same_list(node.list(), other.list())),
        Err(_) => text.push_str("malformed"),
    }
}

/// The page of a box with these offsets; no earlier page defines a font.
fn page_of(
    alloc: Global,
    node: &BoxNode,
    hoffset: i64,
    voffset: i64,
) -> Result<PageBody, ShipError> {
    let params = ShipParams {
        defined: Bytes::new(alloc),
        counts: [7, 0, 0, 0, 0, 0, 0, 0, 0, -1],
        hoffset,
        voffset,
        mag: 1200,
        year: 2024,
        month: 5,
        day: 17,
        time: 570,
    };
    let fonts = Fonts::new(alloc);
    body(alloc, node, &fonts, &params)
}

fn write_page(
    text: &mut String,
    word: &str,
    page: Result<PageBody, ShipError>,
) -> Result<(), AllocError> {
    match page {
        Ok(page) => write_shipped(text, word, &page),
        Err(ShipError::SizeTooLarge) => text.push_str("too large"),
        Err(ShipError::OutsidePage) => text.push_str("outside"),
        Err(ShipError::BodyTooLong) => text.push_str("too long"),
        Err(ShipError::OutOfMemory) => Err(AllocError),
    }
}

fn write_shipped(text: &mut String, word: &str, page: &PageBody) -> Result<(), AllocError> {
    let parts = page.parts();
    let (height, width, nesting, mag) = (parts.height, parts.width, parts.nesting, parts.mag);
    if word == "page" {
        return write!(text, "{height} {width}");
    }
    writeln!(text, "{height} {width} {nesting} {mag}")?;
    write_hexadecimal(text, page.body())
}
