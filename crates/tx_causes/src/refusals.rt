//! Why words are no words of a call.
use crate::dates::write_date_cause;
use crate::names::{are_digits, write_files_cause, write_name_cause};
use clap::ArgMatches;
use clap::error::{Error, ErrorKind};
use std::alloc::{AllocError, Global};

/// What stands between the first quote and the last one.
fn quoted(text: &str) -> &str {
    let Some((_, behind)) = text.split_once('\'') else {
        return text;
    };
    match behind.rsplit_once('\'') {
        Some((thing, _)) => thing,
        None => text,
    }
}

/// An option as it is written, without the name of its value.
fn option_of(thing: &str) -> &str {
    match thing.split_once(" <") {
        Some((option, _)) => option,
        None => thing,
    }
}

/// The first paragraph of the parser's text, in one line.
fn paragraph(alloc: Global, text: &str) -> Result<String, AllocError> {
    let text = text.strip_prefix("error: ").unwrap_or(text);
    let (first, _) = text.split_once("\n\n").unwrap_or((text, ""));
    let mut line = String::new(alloc);
    write_words(&mut line, first)?;
    Ok(line)
}

fn write_words(line: &mut String, text: &str) -> Result<(), AllocError> {
    for part in text.split_ascii_whitespace() {
        if !line.is_empty() {
            line.push_str(" ")?;
        }
        line.push_str(part)?;
    }
    Ok(())
}

/// Writes what the parser of command lines finds wrong first with the words of this command.
fn write_parser_cause(
    alloc: Global,
    text: &mut String,
    command: &str,
    error: &Error,
) -> Result<(), AllocError> {
    let whole = error.to_string(alloc)?;
    write_told(alloc, text, command, error.kind(), whole.as_str())
}

fn write_told(
    alloc: Global,
    text: &mut String,
    command: &str,
    kind: ErrorKind,
    whole: &str,
) -> Result<(), AllocError> {
    let line = paragraph(alloc, whole)?;
    write_kind(text, command, kind, line.as_str(), quoted(line.as_str()))
}

/// Writes that a word may not stand there: an option that there isn't, or one word more than the command takes.
fn write_unknown(text: &mut String, command: &str, thing: &str) -> Result<(), AllocError> {
    if thing.len() > 1 && thing.starts_with('-') {
        return write!(text, "{thing}: no such option here");
    }
    match command {
        "list" => write!(text, "{thing}: one file too many, list takes one"),
        _ => write!(text, "{thing}: one word too many"),
    }
}

fn write_kind(
    text: &mut String,
    command: &str,
    kind: ErrorKind,
    line: &str,
    thing: &str,
) -> Result<(), AllocError> {
    match kind {
        ErrorKind::UnknownArgument => write_unknown(text, command, thing),
        ErrorKind::InvalidSubcommand => write!(
            text,
            "{thing}: no such command, it is run, gen, list or serve"
        ),
        ErrorKind::MissingSubcommand => text.push_str(
            "no command is given, it is run, gen, list or serve",
        ),
        ErrorKind::ArgumentConflict => write!(text, "{}: given twice", option_of(thing)),
        ErrorKind::InvalidValue => {
            write!(text, "{}: a value is missing behind it", option_of(thing))
        }
        _ => text.push_str(line),
    }
}

/// Whether a text is a number of this range, in digits alone and without a zero in front of others.
fn is_within(text: &str, least: u64, most: u64) -> bool {
    match text.parse::<u64>() {
        Ok(number) => {
            let is_plain = text.len() == 1 || !text.starts_with('0');
            is_plain && are_digits(text) && least <= number && number <= most
        }
        Err(_) => false,
    }
}

/// Writes what is wrong with a value that is a number, if it is the first where something is.
fn write_number(
    text: &mut String,
    whose: &str,
    least: u64,
    most: u64,
    value: Option<&str>,
) -> Result<(), AllocError> {
    match value {
        Some(value) if text.is_empty() && !is_within(value, least, most) => {
            write!(
                text,
                "{whose}: a number from {least} to {most} is wanted, in digits alone and without a zero in front, and not '{value}'"
            )
        }
        _ => Ok(()),
    }
}

/// Writes what is wrong with the value of an option that is a name, if it is the first where something is.
fn write_option(text: &mut String, whose: &str, value: Option<&str>) -> Result<(), AllocError> {
    match value {
        Some(value) if text.is_empty() => write_name_cause(text, whose, value),
        _ => Ok(()),
    }
}

/// Writes what is wrong with the values that `gen` is given first, if something is.
fn write_gen_cause(text: &mut String, found: &ArgMatches<'_>) -> Result<(), AllocError> {
    write_number(text, "SEED", 0, 4_294_967_295, found.get_str("seed"))?;
    write_number(text, "PAGES", 1, 1000, found.get_str("pages"))
}

/// Writes what is wrong with the value that `list` is given, if something is.
fn write_list_cause(text: &mut String, found: &ArgMatches<'_>) -> Result<(), AllocError> {
    write_option(text, "FILE", found.get_str("file"))
}

/// Writes what is wrong with the date and the limits that `run` or `serve` is given first, if something is.
fn write_limits_cause(text: &mut String, found: &ArgMatches<'_>) -> Result<(), AllocError> {
    if let Some(date) = found.get_str("date") {
        write_date_cause(text, date)?;
    }
    write_number(text, "--budget", 1, 1_000_000_000, found.get_str("budget"))?;
    write_number(text, "--pages", 1, 10_000, found.get_str("pages"))?;
    write_number(text, "--keep", 1, 10_000, found.get_str("keep"))
}

/// Writes what is wrong with the files that they are given, if it is the first where something is.
fn write_names_cause(text: &mut String, found: &ArgMatches<'_>) -> Result<(), AllocError> {
    match found.get_raw("file") {
        Some(names) if text.is_empty() => write_files_cause(text, names),
        _ => Ok(()),
    }
}

/// Writes what is wrong with the values that `run` is given first, if something is.
fn write_run_cause(text: &mut String, found: &ArgMatches<'_>) -> Result<(), AllocError> {
    write_limits_cause(text, found)?;
    write_option(text, "--out", found.get_str("out"))?;
    write_option(text, "--script", found.get_str("script"))?;
    write_names_cause(text, found)
}

/// Writes what is wrong with the values that `serve` is given first, if something is.
fn write_serve_cause(text: &mut String, found: &ArgMatches<'_>) -> Result<(), AllocError> {
    write_limits_cause(text, found)?;
    write_names_cause(text, found)
}

/// Writes what is wrong with the words behind `help`.
fn write_help_cause(text: &mut String, words: &[String]) -> Result<(), AllocError> {
    match words {
        [command] => write!(
            text,
            "{}: no such command, it is run, gen, list or serve",
            command.as_str()
        ),
        _ => text.push_str("help: it takes one command"),
    }
}

/// Writes what is wrong with the words first, if something is, where the parser takes them or doesn't.
fn write_fault(
    alloc: Global,
    text: &mut String,
    words: &[String],
    parsed: Result<&ArgMatches<'_>, &Error>,
) -> Result<(), AllocError> {
    match words {
        [first, behind @ ..] if first.as_str() == "help" => write_help_cause(text, behind),
        _ => match parsed {
            Err(error) => write_parser_cause(alloc, text, command_of(words), error),
            Ok(matches) => match matches.subcommand() {
                Some((name, found)) if name == "gen" => write_gen_cause(text, found),
                Some((name, found)) if name == "list" => write_list_cause(text, found),
                Some((name, found)) if name == "serve" => write_serve_cause(text, found),
                Some((_, found)) => write_run_cause(text, found),
                None => Ok(()),
            },
        },
    }
}

/// The word that may name a command: the first one.
fn command_of(words: &[String]) -> &str {
    match words {
        [first, ..] => first.as_str(),
        [] => "",
    }
}

/// Which help belongs to the words.
fn help_for(words: &[String]) -> &'static str {
    match words {
        [first, ..] if first.as_str() == "run" => "vortex run --help",
        [first, ..] if first.as_str() == "gen" => "vortex gen --help",
        [first, ..] if first.as_str() == "list" => "vortex list --help",
        [first, ..] if first.as_str() == "serve" => "vortex serve --help",
        _ => "vortex --help",
    }
}

/// Why the words were refused, by what the parser answers to them, and which help would mend that.
pub fn words_cause(
    alloc: Global,
    words: &[String],
    parsed: Result<&ArgMatches<'_>, &Error>,
) -> Result<String, AllocError> {
    let mut text = String::new(alloc);
    write_words_cause(alloc, &mut text, words, parsed)?;
    Ok(text)
}

fn write_words_cause(
    alloc: Global,
    text: &mut String,
    words: &[String],
    parsed: Result<&ArgMatches<'_>, &Error>,
) -> Result<(), AllocError> {
    write_fault(alloc, text, words, parsed)?;
    if text.is_empty() {
        text.push_str("the words are refused")?;
    }
    write!(text, ", see {}", help_for(words))
}
