//! What a search for a delimiter has found so far (TeX: The Program, section 706).

/// A character of the font of a number.
#[derive(Clone, Copy)]
pub struct FontCharacter {
    pub font: u8,
    pub code: u8,
}

/// The character that was found last, if one was; how tall, in sp, one has to be more than that is taken in its place; and whether
/// no other one is looked for.
#[derive(Clone, Copy)]
pub struct Search {
    pub found: Option<FontCharacter>,
    pub tall: i64,
    pub over: bool,
}
