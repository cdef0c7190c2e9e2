//! Cases of tx_prim.
use std::alloc::AllocError;
use tx_cases::first_word;
use tx_prim::{Expandable, Mode, Primitive, Test};

/// - `test NAME MODE`, whether the mode passes this conditional's test;
/// - `place NAME`, a parameter's place in the book's order;
/// - `standing NAME MODE`, the modes in which it may stand, and what becomes of it in this one.
pub fn write_answer(text: &mut String, word: &str, rest: &str) -> Result<(), AllocError> {
    let (name, mode) = first_word(rest);
    match word {
        "test" => write_test(text, name, mode),
        "standing" => match Primitive::of_name(name.as_bytes()) {
            Some(primitive) => write_standing(text, primitive, mode),
            None => text.push_str("malformed"),
        },
        _ => write_place(text, name),
    }
}

fn write_place(text: &mut String, name: &str) -> Result<(), AllocError> {
    match Primitive::of_name(name.as_bytes()) {
        Some(Primitive::Integer(parameter)) => write!(text, "{}", parameter.number()),
        Some(Primitive::Dimension(parameter)) => write!(text, "{}", parameter.number()),
        _ => text.push_str("malformed"),
    }
}

fn write_standing(text: &mut String, primitive: Primitive, mode: &str) -> Result<(), AllocError> {
    let Some(mode) = mode_of(mode) else {
        return text.push_str("malformed");
    };
    let modes = primitive.modes();
    let standing = modes.standing(mode);
    write!(text, "{modes:?} {standing:?}")
}

fn write_test(text: &mut String, name: &str, mode: &str) -> Result<(), AllocError> {
    match (Expandable::of_name(name.as_bytes()), mode_of(mode)) {
        (Some(Expandable::Test(Test::Mode(test))), Some(mode)) => {
            write!(text, "{}", test.holds(mode))
        }
        _ => text.push_str("malformed"),
    }
}

fn mode_of(name: &str) -> Option<Mode> {
    match name {
        "vertical" => Some(Mode::Vertical),
        "internal" => Some(Mode::InternalVertical),
        "horizontal" => Some(Mode::Horizontal),
        "restricted" => Some(Mode::RestrictedHorizontal),
        "math" => Some(Mode::Math),
        "display" => Some(Mode::DisplayMath),
        _ => None,
    }
}
