//! The words of a call, as `clap` has read them.
ghost use Rattle.std.specs.Prelude.{◌≡◌, ◌≤◌, true, map, option_map, IfOk, IfSome, IsErr};
ghost use Rattle.clap.specs.Words.{rows_of, found_of, subcommand_name_of, subcommand_rows_of, first_of, all_of};
ghost use Rattle.tx_machine.specs.Ranges.{IsDate, AreLimits};
ghost use Rattle.clap.specs.declared.error.kind.ErrorKind.TheVariants.{OutOfMemory};
ghost use Rattle.tx_words.specs.Values.{are_distinct};
ghost use Rattle.tx_words.specs.Words.{IsWithin, IsServing, IsAskedWithin, date_given, name_given, limit_given, limits_given, script_given, files_given, given_of, run_given, serving_of, serving_given, seed_given, pages_given, gen_of, gen_asked, list_of, list_asked, command_asked, subcommand_asked, begins_with, help_shown, asked_instead, call_meant, help_of, help_meant, words_meant, texts};

use crate::command::command_line;
use crate::given::{Asked, Given, Names, Serving};
use crate::values::{read_date, read_limit, read_name, read_names, read_seed};
use clap::ArgMatches;
use clap::error::ErrorKind;
use std::alloc::{AllocError, Global};
use tx_files::Name;
use tx_machine::{Date, Limits};

/// The value of an option, if it was given.
fn value<'a>(found: &ArgMatches<'a>, id: &str) -> Option<&'a str>
    ensures { option_map (λ t. t.now) result ≡ first_of id.now (rows_of (found_of found.now)) }
{
    found.get_str(id)
}

/// The files, if there are some.
fn values<'m, 'a>(found: &'m ArgMatches<'a>, id: &str) -> Option<&'m [&'a str]>
    ensures { option_map (λ s. map (λ t. t.now) s.now) result ≡ all_of id.now (rows_of (found_of found.now)) }
{
    found.get_raw(id)
}

fn date_given(text: Option<&str>) -> Option<Date>
    ensures date { result ≡ date_given (option_map (λ t. t.now) text.entry) }
    ensures ranges { IfSome result (λ date. IsDate date) }
{
    read_date(text?)
}

fn name_given(alloc: Global, text: Option<&str>) -> Result<Option<Name>, AllocError>
    ensures { IfOk result (λ name. name ≡ name_given (option_map (λ t. t.now) text.entry)) }
{
    match text {
        None => Ok(None),
        Some(text) => read_name(alloc, text),
    }
}

/// The value of `--script`, which may be left out.
fn script_given(alloc: Global, text: Option<&str>) -> Result<Option<Option<Name>>, AllocError>
    ensures { IfOk result (λ name. name ≡ script_given (option_map (λ t. t.now) text.entry)) }
{
    let Some(text) = text else {
        return Ok(Some(None));
    };
    match read_name(alloc, text)? {
        None => Ok(None),
        Some(name) => Ok(Some(Some(name))),
    }
}

fn limit_given(default: u32, most: u32, text: Option<&str>) -> Option<u32>
    requires { (1 ≤ default) × (default ≤ most) }
    ensures limit { result ≡ limit_given default most (option_map (λ t. t.now) text.entry) }
    ensures range { IfSome result (λ n. (1 ≤ n) × (n ≤ most)) }
{
    match text {
        None => Some(default),
        Some(text) => read_limit(most, text),
    }
}

/// The values of `--budget`, `--pages` and `--keep`.
fn limits_given(found: &ArgMatches<'_>) -> Option<Limits>
    ensures limits { result ≡ limits_given (rows_of (found_of found.now)) }
    ensures ranges { IfSome result (λ limits. AreLimits limits) }
{
    let budget = limit_given(1_000_000, 1_000_000_000, value(found, "budget"))?;
    let pages = limit_given(1000, 10_000, value(found, "pages"))?;
    let keep = limit_given(10_000, 10_000, value(found, "keep"))?;
    Some(Limits {
        budget: u64::from(budget),
        pages,
        keep,
    })
}

fn files_given(alloc: Global, texts: Option<&[&str]>) -> Result<Option<Names>, AllocError>
    ensures files { IfOk result (λ names. names ≡ files_given (option_map (λ s. map (λ t. t.now) s.now) texts.entry)) }
    ensures apart { IfOk result (λ names. IfSome names (λ n. are_distinct n ≡ true)) }
{
    match texts {
        None => Ok(None),
        Some(texts) => read_names(alloc, texts),
    }
}

/// All five are as they are to be; the first file is the main one.
fn given_of(
    date: Option<Date>,
    limits: Option<Limits>,
    out: Option<Name>,
    script: Option<Option<Name>>,
    files: Option<Names>,
) -> Result<Option<Given>, AllocError>
    requires dated { IfSome date (λ date. IsDate date) }
    requires limited { IfSome limits (λ limits. AreLimits limits) }
    requires apart { IfSome files (λ files. are_distinct files ≡ true) }
    ensures within { IfOk result (λ given. IfSome given IsWithin) }
    ensures given { IfOk result (λ given. given ≡ given_of date limits out script files) }
{
    let (Some(date), Some(limits), Some(out), Some(script), Some(files)) = (
        date, limits, out, script, files,
    ) else {
        return Ok(None);
    };
    let Some(main) = files.as_slice().first() else {
        return Ok(None);
    };
    let main = main.clone()?;
    Ok(Some(Given {
        date,
        limits,
        out,
        script,
        main,
        files,
    }))
}

/// What `run` is given.
fn run_given(alloc: Global, found: &ArgMatches<'_>) -> Result<Option<Given>, AllocError>
    ensures given { IfOk result (λ given. given ≡ run_given (rows_of (found_of found.now))) }
    ensures within { IfOk result (λ given. IfSome given IsWithin) }
{
    let date = date_given(value(found, "date"));
    let limits = limits_given(found);
    let out = name_given(alloc, value(found, "out"))?;
    let script = script_given(alloc, value(found, "script"))?;
    let files = files_given(alloc, values(found, "file"))?;
    given_of(date, limits, out, script, files)
}

/// All three are as they are to be; the first file is the main one.
fn serving_of(
    date: Option<Date>,
    limits: Option<Limits>,
    files: Option<Names>,
) -> Result<Option<Serving>, AllocError>
    requires dated { IfSome date (λ date. IsDate date) }
    requires limited { IfSome limits (λ limits. AreLimits limits) }
    requires apart { IfSome files (λ files. are_distinct files ≡ true) }
    ensures within { IfOk result (λ serving. IfSome serving IsServing) }
    ensures serving { IfOk result (λ serving. serving ≡ serving_of date limits files) }
{
    let (Some(date), Some(limits), Some(files)) = (date, limits, files) else {
        return Ok(None);
    };
    let Some(main) = files.as_slice().first() else {
        return Ok(None);
    };
    let main = main.clone()?;
    Ok(Some(Serving {
        date,
        limits,
        main,
        files,
    }))
}

/// What `serve` is given.
fn serving_given(alloc: Global, found: &ArgMatches<'_>) -> Result<Option<Serving>, AllocError>
    ensures serving { IfOk result (λ serving. serving ≡ serving_given (rows_of (found_of found.now))) }
    ensures within { IfOk result (λ serving. IfSome serving IsServing) }
{
    let date = date_given(value(found, "date"));
    let limits = limits_given(found);
    let files = files_given(alloc, values(found, "file"))?;
    serving_of(date, limits, files)
}

fn seed_given(text: Option<&str>) -> Option<u32>
    ensures { result ≡ seed_given (option_map (λ t. t.now) text.entry) }
{
    read_seed(text?)
}

fn pages_given(text: Option<&str>) -> Option<u32>
    ensures { result ≡ pages_given (option_map (λ t. t.now) text.entry) }
{
    read_limit(1000, text?)
}

/// Both are as they are to be.
fn gen_of(seed: Option<u32>, pages: Option<u32>) -> Asked
    ensures asked { result ≡ gen_of seed pages }
    ensures within { IsAskedWithin result }
{
    let (Some(seed), Some(pages)) = (seed, pages) else {
        return Asked::Nothing;
    };
    Asked::Gen { seed, pages }
}

/// What `gen` is given.
fn gen_asked(found: &ArgMatches<'_>) -> Asked
    ensures asked { result ≡ gen_asked (rows_of (found_of found.now)) }
    ensures within { IsAskedWithin result }
{
    let seed = seed_given(value(found, "seed"));
    let pages = pages_given(value(found, "pages"));
    gen_of(seed, pages)
}

/// FILE is as it is to be.
fn list_of(name: Option<Name>) -> Asked
    ensures asked { result ≡ list_of name }
    ensures within { IsAskedWithin result }
{
    match name {
        None => Asked::Nothing,
        Some(name) => Asked::Listing(name),
    }
}

/// What `list` is given.
fn list_asked(alloc: Global, found: &ArgMatches<'_>) -> Result<Asked, AllocError>
    ensures asked { IfOk result (λ asked. asked ≡ list_asked (rows_of (found_of found.now))) }
    ensures within { IfOk result IsAskedWithin }
{
    let name = name_given(alloc, value(found, "file"))?;
    Ok(list_of(name))
}

/// What a subcommand of this name with its values asks for.
#[tactic(auto, unfolding(crate::specs::Words::command_asked))]
fn command_asked(alloc: Global, name: &str, found: &ArgMatches<'_>) -> Result<Asked, AllocError>
    ensures asked { IfOk result (λ asked. asked ≡ command_asked name.now (rows_of (found_of found.now))) }
    ensures within { IfOk result IsAskedWithin }
{
    if name == "gen" {
        return Ok(gen_asked(found));
    }
    if name == "list" {
        return list_asked(alloc, found);
    }
    if name == "serve" {
        return match serving_given(alloc, found)? {
            None => Ok(Asked::Nothing),
            Some(serving) => Ok(Asked::Serve(serving)),
        };
    }
    match run_given(alloc, found)? {
        None => Ok(Asked::Nothing),
        Some(given) => Ok(Asked::Run(given)),
    }
}

/// What a subcommand with its values asks for.
fn subcommand_asked(alloc: Global, matches: &ArgMatches<'_>) -> Result<Asked, AllocError>
    ensures asked { IfOk result (λ asked. asked ≡ subcommand_asked (subcommand_name_of matches.now) (option_map (λ named. named.1) (subcommand_rows_of matches.now))) }
    ensures within { IfOk result IsAskedWithin }
{
    let Some((name, found)) = matches.subcommand() else {
        return Ok(Asked::Nothing);
    };
    Ok(command_asked(alloc, name, found)?)
}

/// Whether the first word is this one.
fn begins_with(words: &[String], word: &str) -> bool
    ensures { result ≡ begins_with word.now (texts words.now) }
{
    match words.first() {
        Some(first) => first.as_str() == word,
        None => false,
    }
}

/// Which help is asked for by an option.
fn help_shown(words: &[String]) -> Asked
    ensures asked { result ≡ help_shown (texts words.now) }
    ensures within { IsAskedWithin result }
{
    if begins_with(words, "run") {
        Asked::RunHelp
    } else if begins_with(words, "gen") {
        Asked::GenHelp
    } else if begins_with(words, "list") {
        Asked::ListHelp
    } else if begins_with(words, "serve") {
        Asked::ServeHelp
    } else {
        Asked::Help
    }
}

/// What words ask for that `clap` doesn't take.
fn asked_instead(words: &[String], kind: ErrorKind) -> Result<Asked, AllocError>
    ensures asked { IfOk result (λ asked. asked ≡ asked_instead (texts words.now) kind) }
    ensures memory { kind ≡ OutOfMemory → IsErr result }
    ensures within { IfOk result IsAskedWithin }
{
    match kind {
        ErrorKind::DisplayHelp => Ok(help_shown(words)),
        ErrorKind::DisplayVersion => Ok(Asked::Version),
        ErrorKind::OutOfMemory => Err(AllocError),
        _ => Ok(Asked::Nothing),
    }
}

/// What words ask for that are a call by `clap`.
fn read_call(alloc: Global, words: &[String]) -> Result<Asked, AllocError>
    ensures asked { IfOk result (λ asked. asked ≡ call_meant (texts words.now)) }
    ensures within { IfOk result IsAskedWithin }
{
    match command_line(alloc)?.try_get_matches_from(words) {
        Ok(matches) => subcommand_asked(alloc, &matches),
        Err(error) => asked_instead(words, error.kind()),
    }
}

/// Help of a command.
fn help_of(command: &str) -> Asked
    ensures asked { result ≡ help_of command.now }
    ensures within { IsAskedWithin result }
{
    if command == "run" {
        Asked::RunHelp
    } else if command == "gen" {
        Asked::GenHelp
    } else if command == "list" {
        Asked::ListHelp
    } else if command == "serve" {
        Asked::ServeHelp
    } else if command == "help" {
        Asked::Help
    } else {
        Asked::Nothing
    }
}

/// What is asked for by `help` and the words behind it.
fn read_help(words: &[String]) -> Asked
    ensures asked { result ≡ help_meant (texts words.now) }
    ensures within { IsAskedWithin result }
{
    match words {
        [_] => Asked::Help,
        [_, command] => help_of(command.as_str()),
        _ => Asked::Nothing,
    }
}

/// Reads the words behind the program's name.
pub fn read_words(alloc: Global, words: &[String]) -> Result<Asked, AllocError>
    ensures asked { IfOk result (λ asked. asked ≡ words_meant (texts words.now)) }
    ensures within { IfOk result IsAskedWithin }
{
    if begins_with(words, "help") {
        Ok(read_help(words))
    } else {
        read_call(alloc, words)
    }
}
