//! Where a whole command is put, until it is carried out.
ghost use Rattle.std.specs.Prelude.{◌≡◌, IfOk, MatchOption};
ghost use Rattle.tx_assign.specs.Rests.{made as assignment_made};

use crate::scans::Whole;
use crate::types::Command;
use std::alloc::{AllocError, Global};
use std::marker::Model;
use std::mem::replace;
use tx_assign::{AssignScan, Assignment, Change};
use tx_list::both;
use tx_seen::Place;

/// Where a whole command is put until it is carried out, so that no token moves one. An assignment stands apart from all others,
/// and comes there straight from its scan. Contracts see the command.
#[derive(Drop)]
pub struct CommandBuffer {
    /// Which of both it is.
    whole: Whole,
    assignment: Box<Assignment>,
    command: Box<Command>,
}

impl Model for CommandBuffer {
    ghost use Rattle.tx_command.specs.contracts.types.Command as the_command;
    ghost use Rattle.tx_command.specs.declared.types.Command.{Command};
    ghost use Rattle.tx_command.specs.Buffer.{command_in};

    ghost Value = { Command };

    ghost coded = { the_command.the_row.coded };

    ghost view = { λ s. command_in s.whole s.assignment.value s.command.value };
}

/// A value behind a pointer. Its only error is want of memory.
fn boxed<T: Drop>(alloc: Global, value: T) -> Result<Box<T>, AllocError>
    ensures { IfOk result (λ held. held.value ≡ value) }
{
    Ok(Box::new(alloc, value)?)
}

/// This command takes the place of the one that stood there.
#[inline(never)]
fn put_into(place: &mut Command, command: Command)
    ensures { place.new ≡ command }
{
    drop(replace(place, command));
}

/// The command that stood there.
fn take_from(place: &mut Command) -> Command
    ensures { result ≡ place.old }
{
    replace(place, Command::Nothing)
}

/// The assignment that stood there.
fn take_assigned(place: &mut Assignment) -> Assignment
    ensures { result ≡ place.old }
{
    let nothing = Assignment {
        place: Place::Count(0),
        change: Change::Text,
    };
    replace(place, nothing)
}

impl CommandBuffer {
    /// A buffer in which nothing stands. Its only error is want of memory.
    pub fn new(alloc: Global) -> Result<CommandBuffer, AllocError>
        ensures { IfOk result (λ buffer. buffer ≡ Command.Nothing) }
    {
        let nothing = Assignment {
            place: Place::Count(0),
            change: Change::Text,
        };
        let (assignment, command) = both(boxed(alloc, nothing), boxed(alloc, Command::Nothing))?;
        Ok(CommandBuffer {
            whole: Whole::Command,
            assignment,
            command,
        })
    }

    /// Puts a command there.
    pub fn put(&mut self, command: Command)
        ensures { self.new ≡ command }
    {
        self.whole = Whole::Command;
        put_into(&mut self.command, command);
    }

    /// Puts the assignment there that this scan has made.
    pub fn put_assignment(&mut self, scan: &mut AssignScan)
        ensures { self.new ≡ Command.Assign (assignment_made scan.old) }
    {
        self.whole = Whole::Assignment;
        scan.hand_out(&mut self.assignment);
    }

    /// Takes out the assignment that a scan has made, where one stands there; else all stays.
    pub fn take_assignment(&mut self) -> Option<Assignment>
        ensures { MatchOption result (self.new ≡ self.old) (λ a. self.old ≡ Command.Assign a) }
    {
        match self.whole {
            Whole::Assignment => Some(take_assigned(&mut self.assignment)),
            Whole::Command => None,
        }
    }

    /// Takes the command from there. Of what stands there then nothing is said.
    pub fn take(&mut self) -> Command
        ensures { result ≡ self.old }
    {
        match self.whole {
            Whole::Assignment => Command::Assign(take_assigned(&mut self.assignment)),
            Whole::Command => take_from(&mut self.command),
        }
    }
}
