//! The parts of what is given.
use std::alloc::{AllocError, Global};

/// The first word of a text, and what stands behind the space after it.
pub fn first_word(text: &str) -> (&str, &str) {
    text.split_once(' ').unwrap_or((text, ""))
}

/// The first line of a text, and the lines behind it.
pub fn first_line(text: &str) -> (&str, &str) {
    text.split_once('\n').unwrap_or((text, ""))
}

/// The numbers among the words of a text. Its only error is want of memory.
pub fn integers(alloc: Global, text: &str) -> Result<Vec<i64>, AllocError> {
    let mut numbers = Vec::new(alloc);
    for word in text.split(' ') {
        if let Ok(number) = word.parse::<i64>() {
            numbers.push(number)?;
        }
    }
    Ok(numbers)
}
