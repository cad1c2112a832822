ghost use Rattle.std.specs.Prelude.{◌≡◌};
ghost use Rattle.dc_plan.specs.Commands.{takes};

use crate::keys::Key;

/// A command of the program that reads a plan. What it forbids is out of range at its key.
#[derive(Clone, Copy, Debug, PartialEq, Eq)]
pub enum Command {
    /// A run, and a check of one, which reads the plan of that run: all that a plan may have.
    Run,
    /// A run that leaves its journal, which is of turns up to the end of the schedule: no seed, whose entries stop processes too, no
    /// stop and no halt.
    Journal,
    /// A run that goes on from stores that are there: on a disk alone.
    Resume,
}

/// Whether a plan that the command reads may say something at that key.
pub fn takes(command: Command, key: Key) -> bool
    ensures { result ≡ takes command key }
{
    match command {
        Command::Journal => !matches!(key, Key::Seed | Key::Stop | Key::Halt),
        Command::Run | Command::Resume => true,
    }
}
