//! Words and spaces as a list.
ghost use Rattle.std.specs.Prelude.{◌≡◌, ◌∷◌, ◌++◌, [], List, IfOk, IfErr, OnOk};
ghost use Rattle.std.specs.List.{All};
ghost use Rattle.tx_num.specs.Glue.{IsGlue};
ghost use Rattle.tx_node.specs.declared.plain.Plain.TheVariants.{Glue};
ghost use Rattle.tx_node.specs.Items.{Item, plain};
ghost use Rattle.tx_word.specs.declared.error.WordError.TheVariants.{SizeOutOfRange};
ghost use Rattle.tx_word.specs.Factors.{IsFactor};
ghost use Rattle.tx_word.specs.Lists as spec;
ghost use Rattle.tx_word.specs.Spaces.{interword_glue as glue_between};

use crate::divide::append_divided;
use crate::error::WordError;
use crate::piece::{Piece, WordParams};
use crate::space::interword_glue;
use std::alloc::Global;
use tx_node::{Node, Nodes, Plain};
use tx_tfm::Fonts;

/// Puts the glue of a space at the end of a list.
fn append_space(
    list: &mut Nodes,
    fonts: &Fonts,
    params: &WordParams,
    font: u8,
    factor: i64,
) -> Result<(), WordError>
    requires { IsFactor factor }
    ensures list { OnOk result (list.new ≡ list.old ++ plain (Glue (glue_between fonts.now params.now font factor)) ∷ []) }
    ensures fits { OnOk result (IsGlue (glue_between fonts.now params.now font factor)) }
    ensures error { IfErr result (λ e. e ≡ SizeOutOfRange → IsGlue (glue_between fonts.now params.now font factor) → ⊥) }
{
    let Ok(glue) = interword_glue(fonts, params, font, factor) else {
        return Err(WordError::SizeOutOfRange);
    };
    list.push(Node::Plain(Plain::Glue(glue)))?;
    Ok(())
}

/// Puts what a piece becomes at the end of a list. `SizeOutOfRange` exactly where it is a space with a size that is no
/// dimension.
fn append_piece(
    alloc: Global,
    list: &mut Nodes,
    piece: &Piece,
    fonts: &Fonts,
    params: &WordParams,
) -> Result<(), WordError>
    requires { spec.IsPiece fonts.now piece.now }
    ensures made { OnOk result (spec.WithPiece fonts.now params.now piece.now list.old list.new) }
    ensures fits { OnOk result (spec.HasGlue fonts.now params.now piece.now) }
    ensures error { IfErr result (λ e. e ≡ SizeOutOfRange → spec.HasGlue fonts.now params.now piece.now → ⊥) }
{
    match piece {
        Piece::Word {
            font,
            chars,
            left,
            right,
            places,
            hyphen,
        } => Ok(append_divided(
            alloc,
            list,
            fonts,
            *font,
            chars.as_slice(),
            *left,
            *right,
            places.as_slice(),
            *hyphen,
        )?),
        Piece::Space { font, factor } => append_space(list, fonts, params, *font, *factor),
    }
}

/// Words and spaces as a list: each word as its font composes it, with a discretionary at each of its places that is a seam, each
/// space as the glue between words at its space factor.
/// `SizeOutOfRange` exactly where a size of some space's glue is no dimension.
pub fn nodes(
    alloc: Global,
    pieces: &[Piece],
    fonts: &Fonts,
    params: &WordParams,
) -> Result<Nodes, WordError>
    requires { All (spec.IsPiece fonts.now) pieces.now }
    ensures made { IfOk result (λ list. spec.AreMade fonts.now params.now pieces.now list) }
    ensures only { IfOk result (λ list. (others : List Item) → spec.AreMade fonts.now params.now pieces.now others → list ≡ others) }
    ensures fits { IfOk result (λ _. All (spec.HasGlue fonts.now params.now) pieces.now) }
    ensures error { IfErr result (λ e. e ≡ SizeOutOfRange → All (spec.HasGlue fonts.now params.now) pieces.now → ⊥) }
{
    let mut list = Nodes::new(alloc);
    for piece in pieces {
        append_piece(alloc, &mut list, piece, fonts, params)?;
    }
    Ok(list)
}
