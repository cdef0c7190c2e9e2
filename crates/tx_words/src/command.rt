//! The command line, as it is told to `clap`.
ghost use Rattle.std.specs.Prelude.{◌≡◌, IfOk, codes};
ghost use Rattle.clap.specs.Simple.{on_top};
ghost use Rattle.clap.specs.Words.{App, Rule, app_of, new_app, with_rule, with_subcommand};
ghost use Rattle.tx_words.specs.Told.{IsArg, Makes};
ghost use Rattle.tx_words.specs.CommandLine.{option_rule, required_rule, files_rule, run_command, word_rule, gen_command, list_command, serve_command, with_settings, command_line};

use clap::{Arg, ArgAction, Command};
use std::alloc::{AllocError, Global};

/// An option `--NAME` with one value.
fn option<'a>(alloc: Global, name: &'a str) -> Arg<'a>
    ensures { IsArg (option_rule name.entry.now) result }
{
    Arg::new(alloc, name).long(name)
}

/// An option that must be there.
fn required_option<'a>(alloc: Global, name: &'a str) -> Arg<'a>
    ensures { IsArg (required_rule name.entry.now) result }
{
    option(alloc, name).required(true)
}

/// Files, at least one.
fn files<'a>(alloc: Global) -> Arg<'a>
    ensures { IsArg files_rule result }
{
    Arg::new(alloc, "file")
        .required(true)
        .action(ArgAction::Append)
}

/// A word that is no option, and must be there.
fn word<'a>(alloc: Global, name: &'a str) -> Arg<'a>
    ensures { IsArg (word_rule name.entry.now) result }
{
    Arg::new(alloc, name).required(true)
}

/// The command, if it was made, with an argument more. It takes want of memory too, so that those who add one argument after
/// the other have a single way out.
fn with_arg<'a>(
    command: Result<Command<'a>, AllocError>,
    arg: Arg<'a>,
) -> Result<Command<'a>, AllocError>
    ensures { (app : App) (rule : Rule) → IsArg rule arg.entry → Makes app command.entry → Makes (with_rule app rule) result }
{
    command?.arg(arg)
}

/// The command `run`.
fn run_command<'a>(alloc: Global) -> Result<Command<'a>, AllocError>
    ensures { Makes run_command result }
{
    let begun = Ok(Command::new(alloc, "run"));
    let dated = with_arg(begun, required_option(alloc, "date"));
    let named = with_arg(dated, required_option(alloc, "out"));
    let scripted = with_arg(named, option(alloc, "script"));
    let bounded = with_arg(scripted, option(alloc, "budget"));
    let paged = with_arg(bounded, option(alloc, "pages"));
    let keeping = with_arg(paged, option(alloc, "keep"));
    with_arg(keeping, files(alloc))
}

/// The command `gen`.
fn gen_command<'a>(alloc: Global) -> Result<Command<'a>, AllocError>
    ensures { Makes gen_command result }
{
    let begun = Ok(Command::new(alloc, "gen"));
    let seeded = with_arg(begun, word(alloc, "seed"));
    with_arg(seeded, word(alloc, "pages"))
}

/// The command `list`.
fn list_command<'a>(alloc: Global) -> Result<Command<'a>, AllocError>
    ensures { Makes list_command result }
{
    let begun = Ok(Command::new(alloc, "list"));
    with_arg(begun, word(alloc, "file"))
}

/// The command `serve`.
fn serve_command<'a>(alloc: Global) -> Result<Command<'a>, AllocError>
    ensures { Makes serve_command result }
{
    let begun = Ok(Command::new(alloc, "serve"));
    let dated = with_arg(begun, required_option(alloc, "date"));
    let bounded = with_arg(dated, option(alloc, "budget"));
    let paged = with_arg(bounded, option(alloc, "pages"));
    let keeping = with_arg(paged, option(alloc, "keep"));
    with_arg(keeping, files(alloc))
}

/// `vortex` without its commands.
fn without_commands<'a>(alloc: Global) -> Command<'a>
    ensures { app_of result ≡ on_top with_settings (new_app (codes "vortex")) }
{
    Command::new(alloc, "vortex")
        .no_binary_name(true)
        .version("0.2.0")
        .subcommand_required(true)
        .disable_help_subcommand(true)
}

/// A command line with a command more, if that was made.
fn with_command<'a>(
    all: Command<'a>,
    command: Result<Command<'a>, AllocError>,
) -> Result<Command<'a>, AllocError>
    ensures { (sub : App) → Makes sub command.entry → IfOk result (λ more. app_of more ≡ with_subcommand (app_of all.entry) sub.top) }
{
    all.subcommand(command?)
}

/// The command line of `vortex`, for the words behind the program's name.
pub fn command_line<'a>(alloc: Global) -> Result<Command<'a>, AllocError>
    ensures { IfOk result (λ all. app_of all ≡ command_line) }
{
    let running = with_command(without_commands(alloc), run_command(alloc))?;
    let making = with_command(running, gen_command(alloc))?;
    let listing = with_command(making, list_command(alloc))?;
    with_command(listing, serve_command(alloc))
}
