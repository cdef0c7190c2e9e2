//! Reports of characters that their fonts lack.
ghost use Rattle.std.specs.Prelude.{◌≡◌, ◌++◌, OnOk};
ghost use Rattle.std.specs.List.{flat_map};
ghost use Rattle.tx_node.specs.Nodes.{item_of, list_of};
ghost use Rattle.tx_hyphenate.specs.Lacking as spec;

use itoa::Buffer;
use std::alloc::AllocError;
use tx_bytes::Bytes;
use tx_node::Node;
use tx_tfm::Fonts;

/// Reports a character that a font of this name lacks. Its only error is want of memory.
pub fn report_missing(report: &mut Bytes, code: u8, name: &[u8]) -> Result<(), AllocError>
    ensures { OnOk result (report.new ≡ report.old ++ spec.missing code name.now) }
{
    let mut digits = Buffer::new();
    report.append(b"missing character ")?;
    report.append(digits.format(code).as_bytes())?;
    report.append(b" in ")?;
    report.append(name)?;
    report.append(b"\n")?;
    Ok(())
}

/// Reports the character that the font of a number lacks, if there is one. Its only error is want of memory.
pub fn report_lacking(
    report: &mut Bytes,
    fonts: &Fonts,
    font: u8,
    lacking: Option<u8>,
) -> Result<(), AllocError>
    ensures { OnOk result (report.new ≡ report.old ++ spec.lacking_report fonts.now font lacking) }
{
    match lacking {
        Some(code) => report_missing(report, code, fonts.name(font)),
        None => Ok(()),
    }
}

/// Reports the character that the font lacks, if there is one, where an item is a discretionary. Its only error is want of memory.
fn report_division(
    report: &mut Bytes,
    fonts: &Fonts,
    font: u8,
    lacking: Option<u8>,
    node: &Node,
) -> Result<(), AllocError>
    ensures { OnOk result (report.new ≡ report.old ++ spec.division_report (spec.lacking_report fonts.now font lacking) (item_of node.now)) }
{
    match node {
        Node::Discretionary(_) => report_lacking(report, fonts, font, lacking),
        Node::Plain(_)
        | Node::Shared(_)
        | Node::Box(_, _)
        | Node::Adjustment(_)
        | Node::Insertion(_)
        | Node::BoxLeaders(_) => Ok(()),
    }
}

/// The same for each of these items.
pub(crate) fn report_divisions(
    report: &mut Bytes,
    fonts: &Fonts,
    font: u8,
    lacking: Option<u8>,
    nodes: &[Node],
) -> Result<(), AllocError>
    ensures { OnOk result (report.new ≡ report.old ++ flat_map (spec.division_report (spec.lacking_report fonts.now font lacking)) (list_of nodes.now)) }
{
    for node in nodes {
        report_division(report, fonts, font, lacking, node)?;
    }
    Ok(())
}
