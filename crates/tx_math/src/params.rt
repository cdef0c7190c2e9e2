//! What formulas are set by, beside the fonts.
use tx_num::Glue;
use tx_pack::PackParams;

/// The size of the fonts in a style (The TeXbook, chapter 17).
#[derive(Clone, Copy)]
pub enum MathSize {
    /// That of display and text style.
    Text,
    /// That of script style.
    Script,
    /// That of scriptscript style.
    ScriptScript,
}

/// The fonts of the families 0 to 15 by their numbers, at each size: \textfont, \scriptfont and \scriptscriptfont. A family without
/// a font has 0, the number of \nullfont.
#[derive(Clone, Copy)]
pub struct FamilyFonts {
    pub text: [u8; 16],
    pub script: [u8; 16],
    pub script_script: [u8; 16],
}

/// The fonts of the families and the parameters of formulas, by TeX's names, in sp: the three spaces, told in mu, how tall
/// delimiters are at least, in thousandths of what they enclose and by how much they may fall short of it, the width of one that
/// isn't there, that behind scripts, the penalties behind operations and relations, and the parameters of horizontal boxes.
#[derive(Clone, Copy)]
pub struct MathParams {
    pub families: FamilyFonts,
    pub thin_mu_skip: Glue,
    pub med_mu_skip: Glue,
    pub thick_mu_skip: Glue,
    pub delimiter_factor: i32,
    pub delimiter_shortfall: i32,
    pub null_delimiter_space: i32,
    pub script_space: i32,
    pub bin_op_penalty: i32,
    pub rel_penalty: i32,
    pub packing: PackParams,
}
