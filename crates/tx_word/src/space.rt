//! The glue between words.
ghost use Rattle.std.specs.Prelude.{◌≡◌, ◌↔◌, ◌≤◌, ◌<◌, ◌^◌, pos, unsigned_abs, IsOk, IfOk};
ghost use Rattle.tx_num.specs.Glue.{IsGlue};
ghost use Rattle.tx_word.specs.Factors.{IsFactor, ends_sentence};
ghost use Rattle.tx_word.specs.Sizes.{glue_of_sizes};
ghost use Rattle.tx_word.specs.Spaces as spec;

use crate::piece::WordParams;
use tx_num::{Glue, Overflow, Range, xn_over_d};
use tx_tfm::Fonts;

/// The sizes of glue in sp, each with its order; they may be no dimensions.
#[derive(Clone, Copy)]
pub struct Sizes {
    pub width: i64,
    pub stretch: i64,
    pub stretch_order: u8,
    pub shrink: i64,
    pub shrink_order: u8,
}

/// What holds of all glue: its sizes are dimensions.
fn is_glue(glue: &Glue)
    ensures { IsGlue glue.now }
{
    let _sizes = (glue.width(), glue.stretch(), glue.shrink());
    let _orders = (glue.stretch_order(), glue.shrink_order());
}

/// Whether glue has neither width nor stretch nor shrink.
fn is_zero(glue: &Glue) -> bool
    ensures { result ≡ spec.is_zero glue.now }
{
    glue.width() == 0 && (glue.stretch() == 0 && glue.shrink() == 0)
}

fn sizes_of(glue: &Glue) -> Sizes
    ensures value { glue_of_sizes result ≡ glue.now }
    ensures small { spec.AreSmall (glue_of_sizes result) }
{
    Sizes {
        width: glue.width(),
        stretch: glue.stretch(),
        stretch_order: glue.stretch_order(),
        shrink: glue.shrink(),
        shrink_order: glue.shrink_order(),
    }
}

/// The space of a font.
fn font_space(fonts: &Fonts, font: u8) -> Sizes
    ensures value { glue_of_sizes result ≡ spec.font_space fonts.now font }
    ensures small { spec.AreSmall (glue_of_sizes result) }
{
    Sizes {
        width: fonts.parameter(font, 2),
        stretch: fonts.parameter(font, 3),
        stretch_order: 0,
        shrink: fonts.parameter(font, 4),
        shrink_order: 0,
    }
}

/// The plain space.
fn plain_space(fonts: &Fonts, params: &WordParams, font: u8) -> Sizes
    ensures value { glue_of_sizes result ≡ spec.plain_space fonts.now params.now font }
    ensures small { spec.AreSmall (glue_of_sizes result) }
{
    if is_zero(&params.spaceskip) {
        font_space(fonts, font)
    } else {
        sizes_of(&params.spaceskip)
    }
}

/// What is added to the width behind a sentence, in sp.
fn extra_space(fonts: &Fonts, font: u8, factor: i64) -> i64
    ensures value { result ≡ spec.extra_space fonts.now font factor }
    ensures small { unsigned_abs result ≤ 2 ^ 31 }
{
    if ends_sentence(factor) {
        fonts.parameter(font, 7)
    } else {
        0
    }
}

/// Whether a space is one behind a sentence.
fn ends_sentence(factor: i64) -> bool
    ensures { result ≡ ends_sentence factor }
{
    factor >= 2000
}

/// Glue of these sizes at the plain space factor, 1000, wider by so many sp: the others stay. `Overflow` exactly where a size of it
/// is no dimension.
fn at_plain_factor(extra: i64, sizes: Sizes) -> Result<Glue, Overflow>
    requires extra_in { unsigned_abs extra ≤ 2 ^ 31 }
    requires small { spec.AreSmall (glue_of_sizes sizes) }
    ensures glue { IfOk result (λ g. g ≡ spec.at_factor extra (pos 1000) (glue_of_sizes sizes)) }
    ensures overflow { IsOk result ↔ IsGlue (spec.at_factor extra (pos 1000) (glue_of_sizes sizes)) }
{
    Glue::try_new(
        sizes.width + extra,
        sizes.stretch,
        sizes.stretch_order,
        sizes.shrink,
        sizes.shrink_order,
    )
}

/// Glue of these sizes at a space factor, wider by so many sp. `Overflow` exactly where a size of it is no dimension.
fn at_factor(extra: i64, factor: i64, sizes: Sizes) -> Result<Glue, Overflow>
    requires factor { IsFactor factor }
    requires extra_in { unsigned_abs extra ≤ 2 ^ 31 }
    requires small { spec.AreSmall (glue_of_sizes sizes) }
    ensures glue { IfOk result (λ g. g ≡ spec.at_factor extra factor (glue_of_sizes sizes)) }
    ensures overflow { IsOk result ↔ IsGlue (spec.at_factor extra factor (glue_of_sizes sizes)) }
{
    if factor == 1000 {
        return at_plain_factor(extra, sizes);
    }
    let (stretch, _) = xn_over_d(sizes.stretch, factor, 1000, Range::Dimen)?;
    let (shrink, _) = xn_over_d(sizes.shrink, 1000, factor, Range::Dimen)?;
    Glue::try_new(
        sizes.width + extra,
        stretch,
        sizes.stretch_order,
        shrink,
        sizes.shrink_order,
    )
}

/// Whether a space is \xspaceskip.
fn is_xspaceskip(params: &WordParams, factor: i64) -> bool
    ensures { result ≡ spec.is_xspaceskip params.now factor }
{
    ends_sentence(factor) && !is_zero(&params.xspaceskip)
}

/// The glue that a space gives in the font of a number, at a space factor. `Overflow` exactly where a size of it is no
/// dimension.
pub fn interword_glue(
    fonts: &Fonts,
    params: &WordParams,
    font: u8,
    factor: i64,
) -> Result<Glue, Overflow>
    requires { IsFactor factor }
    ensures glue { IfOk result (λ g. g ≡ spec.interword_glue fonts.now params.now font factor) }
    ensures overflow { IsOk result ↔ IsGlue (spec.interword_glue fonts.now params.now font factor) }
{
    if is_xspaceskip(params, factor) {
        is_glue(&params.xspaceskip);
        return Ok(params.xspaceskip);
    }
    at_factor(
        extra_space(fonts, font, factor),
        factor,
        plain_space(fonts, params, font),
    )
}

/// The same, None exactly where a size of the glue is no dimension.
pub fn space_between(fonts: &Fonts, params: &WordParams, font: u8, factor: u16) -> Option<Glue>
    requires least { 1 ≤ factor }
    requires most { factor ≤ 32767 }
    ensures { result ≡ spec.space_between fonts.now params.now font factor }
{
    is_glue(&params.spaceskip);
    is_glue(&params.xspaceskip);
    match interword_glue(fonts, params, font, i64::from(factor)) {
        Ok(glue) => Some(glue),
        Err(_) => None,
    }
}
