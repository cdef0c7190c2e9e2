//! What a call was to run, as its words say, and what was refused, as was said.
use std::str;
use tx_files::Name;

/// What a call was to run: the main file, all files, the main one among them, the script's file, if there is a script,
/// and what a page may cost.
#[derive(Drop)]
pub struct Run<'a> {
    pub main: &'a Name,
    pub files: &'a [Name],
    pub script: Option<&'a Name>,
    pub budget: u64,
}

/// Place and rule of the line that refuses a script or a DVI file, which begins with these words.
pub fn refusal<'a>(said: &'a str, words: &str) -> Option<(&'a str, &'a str)> {
    let (place, rule) = said.strip_prefix(words)?.split_once(", rule ")?;
    Some((place, rule.strip_suffix("\n").unwrap_or(rule)))
}

/// A text of ASCII, as all names and lines are.
pub fn text_of(bytes: &[u8]) -> &str {
    str::from_utf8(bytes).unwrap_or("")
}
