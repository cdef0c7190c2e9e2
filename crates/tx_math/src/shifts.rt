//! How far scripts, and the parts of a fraction, are moved (TeX: The Program, sections 744 to 746, and 756).

/// How far what stands above is raised, and what stands below lowered, in sp.
#[derive(Clone, Copy)]
pub struct Shifts {
    pub up: i64,
    pub down: i64,
}
