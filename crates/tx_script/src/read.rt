//! A script, read from its text.
ghost use Rattle.std.specs.Prelude.{◌≡◌, IfOk, IfErr, List};
ghost use Rattle.tx_script.specs.Reading.{Gives, batch_at, change_at, changes_at, command_at, edit_at, file_place_at};
ghost use Rattle.tx_script.specs.Text.{IsTextOf};
ghost use Rattle.tx_script.specs.Causes.{IsCause};
ghost use Rattle.tx_script.specs.declared.command.Command.{Command};

use crate::command::{Command, FilePlace, Script};
use crate::element::{self, ChangeWord, CommandWord};
use crate::error::{Fault, ScriptError};
use std::alloc::Global;
use tx_files::{Change, Edit};
use tx_list::Items;

/// An edit, after its word.
#[tactic(auto, unfolding(crate::specs::Reading::edit_at))]
fn edit(alloc: Global, bytes: &[u8]) -> Result<(Edit, &[u8]), Fault>
    ensures { Gives (λ x. (x.0, x.1.now)) result (edit_at bytes.now) }
{
    let (place, rest) = element::number(bytes)?;
    let (removed, rest) = element::number(rest)?;
    let (size, rest) = element::number(rest)?;
    let (name, rest) = element::name(alloc, rest)?;
    let (put, rest) = element::put(alloc, size, rest)?;
    let rest = element::line_feed(rest)?;
    let edit = Edit {
        name,
        place,
        removed,
        put,
    };
    Ok((edit, rest))
}

/// A change, and the bytes after it.
#[tactic(auto, unfolding(crate::specs::Reading::change_at))]
fn change(alloc: Global, bytes: &[u8]) -> Result<(Change, &[u8]), Fault>
    ensures { Gives (λ x. (x.0, x.1.now)) result (change_at bytes.now) }
{
    let (word, rest) = element::change_word(bytes)?;
    match word {
        ChangeWord::Edit => {
            let (edit, rest) = edit(alloc, rest)?;
            Ok((Change::Edit(edit), rest))
        }
        ChangeWord::Remove => {
            let (name, rest) = element::name(alloc, rest)?;
            Ok((Change::Remove(name), rest))
        }
    }
}

/// So many changes, and the bytes after them.
fn changes(alloc: Global, count: u64, bytes: &[u8]) -> Result<(Items<Change>, &[u8]), Fault>
    ensures { Gives (λ x. (x.0, x.1.now)) result (changes_at count bytes.now) }
{
    let mut changes = Items::new(alloc);
    let mut rest = bytes;
    for _at in 0..count {
        let (change, after) = change(alloc, rest)?;
        changes.push(change)?;
        rest = after;
    }
    Ok((changes, rest))
}

/// A batch, after its word.
#[tactic(auto, unfolding(crate::specs::Reading::batch_at))]
fn batch(alloc: Global, bytes: &[u8]) -> Result<(Items<Change>, &[u8]), Fault>
    ensures { Gives (λ x. (x.0, x.1.now)) result (batch_at bytes.now) }
{
    let (count, rest) = element::count(bytes)?;
    changes(alloc, count, rest)
}

/// A place of a file, after the word that asks for it.
#[tactic(auto, unfolding(crate::specs::Reading::file_place_at))]
fn file_place(alloc: Global, bytes: &[u8]) -> Result<(FilePlace, &[u8]), Fault>
    ensures { Gives (λ x. (x.0, x.1.now)) result (file_place_at bytes.now) }
{
    let (place, rest) = element::number(bytes)?;
    let (name, rest) = element::name(alloc, rest)?;
    Ok((FilePlace { name, place }, rest))
}

/// A command, and the bytes after it.
#[tactic(auto, unfolding(crate::specs::Reading::command_at))]
fn command(alloc: Global, bytes: &[u8]) -> Result<(Command, &[u8]), Fault>
    ensures { Gives (λ x. (x.0, x.1.now)) result (command_at bytes.now) }
{
    let (word, rest) = element::word(bytes)?;
    match word {
        CommandWord::Edit => {
            let (edit, rest) = edit(alloc, rest)?;
            Ok((Command::Change(Change::Edit(edit)), rest))
        }
        CommandWord::Remove => {
            let (name, rest) = element::name(alloc, rest)?;
            Ok((Command::Change(Change::Remove(name)), rest))
        }
        CommandWord::Batch => {
            let (changes, rest) = batch(alloc, rest)?;
            Ok((Command::Batch(changes), rest))
        }
        CommandWord::Save => {
            let (name, rest) = element::name(alloc, rest)?;
            Ok((Command::Save(name), rest))
        }
        CommandWord::Locate => {
            let (at, rest) = file_place(alloc, rest)?;
            Ok((Command::Locate(at), rest))
        }
    }
}

/// The script of which the bytes are the text.
///
/// `BadScript` comes exactly where they are no script's text. Its place is how many of them begin one, and its rule that
/// of the element in which the next byte of every script that begins so stands.
pub fn read_script(alloc: Global, bytes: &[u8]) -> Result<Script, ScriptError>
    ensures read { IfOk result (λ script. IsTextOf bytes.now script) }
    ensures only { IfOk result (λ script. (other : List Command) → IsTextOf bytes.now other → script ≡ other) }
    ensures refused { IfErr result (λ e. IsCause bytes.now e) }
{
    let mut script = Script::new(alloc);
    let mut rest = bytes;
    while !rest.is_empty() {
        match command(alloc, rest) {
            Ok((command, after)) => {
                script.push(command)?;
                rest = after;
            }
            Err(Fault::Broken(broken)) => {
                return Err(ScriptError::BadScript {
                    place: (bytes.len() - broken.left) as u64,
                    rule: broken.rule,
                });
            }
            Err(Fault::OutOfMemory) => return Err(ScriptError::OutOfMemory),
        }
    }
    Ok(script)
}
