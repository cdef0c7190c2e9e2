//! The files of a document that is made.
use tx_bytes::Bytes;

/// Files that are made: a document, the metrics of its font, and a script of edits of the document.
#[derive(Drop)]
pub struct Made {
    pub book: Bytes,
    pub font: Bytes,
    pub script: Bytes,
}
