// How a command ends.
ghost use Rattle.std.specs.Prelude.{◌≡◌, Ok, Err};
ghost use Rattle.std.specs.Prelude.{IfOk};
ghost use Rattle.rewrite_cli.specs.Answers.{damaged_line};
ghost use Rattle.rewrite_cli.specs.Ends.{TellsDamage};
ghost use Rattle.rewrite_cli.specs.Statuses.{status_of, text_of};

use crate::limits::Limit;
use crate::text::put_number;
use rw_base::{Mem, NoMemory, Text};
use rw_host::{Failed, StoreFault};
use std::alloc::{AllocError, AllocFailed, Global};

/// Done, and nothing is told of a file.
pub const DONE: u8 = 0;

/// Done, but some file is refused, or some edit was dropped.
pub const DONE_BUT: u8 = 1;

/// The words aren't those of a command.
pub const USAGE: u8 = 2;

/// The recipe file or the plan has a fault.
pub const RECIPE_FAULT: u8 = 3;

/// The store failed to list or read.
pub const READ_FAULT: u8 = 4;

/// The store failed to write or sync.
pub const WRITE_FAULT: u8 = 5;

/// The system refused memory.
pub const NO_MEMORY: u8 = 6;

/// The text didn't go out whole.
pub const OUTPUT_FAULT: u8 = 7;

/// A limit was passed.
pub const LIMIT: u8 = 8;

/// The journal or the history has no reading.
pub const DAMAGED: u8 = 9;

/// What is told of words that aren't those of a command. All commands stand there, also those to come.
pub const USAGE_LINE: &[u8] =
    b"usage: rewrite run|dry|types --recipe NAME [--workers N] [--cycles N] | check [--workers N] | \
recover | history | gen N\n";

/// What a command that was done tells, and whether that is of a file that is refused or keeps its bytes.
#[derive(Drop)]
pub struct Done {
    pub text: Vec<u8>,
    pub tells_of_files: bool,
}

/// Why a command ended before it was done.
#[derive(Drop)]
pub enum Stop {
    /// The recipe file or the plan has a fault, of which this line tells.
    Recipe(Text),
    ReadFault,
    WriteFault,
    NoMemory,
    Limit(Limit),
    /// The journal or the history has no reading, of which this line tells.
    Damaged(Text),
}

impl Done {
    pub fn status(&self) -> u8
        ensures { result ≡ status_of (Ok self.now) }
    {
        if self.tells_of_files { DONE_BUT } else { DONE }
    }
}

impl Stop {
    pub fn status(&self) -> u8
        ensures { result ≡ status_of (Err self.now) }
    {
        match self {
            Stop::Recipe(_) => RECIPE_FAULT,
            Stop::ReadFault => READ_FAULT,
            Stop::WriteFault => WRITE_FAULT,
            Stop::NoMemory => NO_MEMORY,
            Stop::Limit(_) => LIMIT,
            Stop::Damaged(_) => DAMAGED,
        }
    }

    /// What is told of it.
    pub fn line(&self) -> &[u8]
        ensures { result.now ≡ text_of (Err self.now) }
    {
        match self {
            Stop::Recipe(line) => line.as_slice(),
            Stop::ReadFault => b"read fault\n",
            Stop::WriteFault => b"write fault\n",
            Stop::NoMemory => b"",
            Stop::Limit(limit) => limit.line(),
            Stop::Damaged(line) => line.as_slice(),
        }
    }
}

impl From<StoreFault> for Stop {
    ghost use Rattle.std.specs.Prelude.{◌≡◌};
    ghost use Rattle.rewrite_cli.specs.Statuses.{stop_of};

    ghost from_gives = { λ fault stop. stop ≡ stop_of fault };

    fn from(fault: StoreFault) -> Self {
        match fault {
            StoreFault::Failed => Stop::ReadFault,
            StoreFault::TooMany => Stop::Limit(Limit::Paths),
            StoreFault::NoMemory => Stop::NoMemory,
        }
    }
}

impl From<Failed> for Stop {
    ghost use Rattle.std.specs.Prelude.{◌≡◌};
    ghost use Rattle.rewrite_cli.specs.declared.stop.Stop.TheVariants as stop;

    ghost from_gives = { λ _ s. s ≡ stop.WriteFault };

    fn from(_: Failed) -> Self {
        Stop::WriteFault
    }
}

impl From<NoMemory> for Stop {
    ghost use Rattle.std.specs.Prelude.{◌≡◌};
    ghost use Rattle.rewrite_cli.specs.declared.stop.Stop.TheVariants as stop;

    ghost from_gives = { λ _ s. s ≡ stop.NoMemory };

    fn from(_: NoMemory) -> Self {
        Stop::NoMemory
    }
}

impl From<AllocError> for Stop {
    ghost use Rattle.std.specs.Prelude.{◌≡◌};
    ghost use Rattle.rewrite_cli.specs.declared.stop.Stop.TheVariants as stop;

    ghost from_gives = { λ _ s. s ≡ stop.NoMemory };

    fn from(_: AllocError) -> Self {
        Stop::NoMemory
    }
}

impl<T: Drop> From<AllocFailed<T>> for Stop {
    ghost use Rattle.std.specs.Prelude.{◌≡◌};
    ghost use Rattle.rewrite_cli.specs.declared.stop.Stop.TheVariants as stop;

    ghost from_gives = { λ _ s. s ≡ stop.NoMemory };

    fn from(_: AllocFailed<T>) -> Self {
        Stop::NoMemory
    }
}

#[tactic(auto, using(crate::proofs::HistorySteps::damages))]
fn damaged_line(alloc: Global, path: &str, at: u32) -> Mem<Text>
    ensures { IfOk result (λ line. line ≡ damaged_line path.now at) }
{
    let mut line = Vec::from_slice(alloc, b"damaged: ")?;
    line.extend_from_slice(path.as_bytes())?;
    line.extend_from_slice(b" at ")?;
    put_number(&mut line, at as u64)?;
    line.extend_from_slice(b"\n")?;
    Ok(Text::from_vec(line))
}

/// How a file that has no reading from this place on ends a command.
#[tactic(auto, using(crate::proofs::HistorySteps::damages))]
pub fn damaged(alloc: Global, path: &str, at: u32) -> Stop
    ensures { TellsDamage path.now at result }
{
    match damaged_line(alloc, path, at) {
        Ok(line) => Stop::Damaged(line),
        Err(_) => Stop::NoMemory,
    }
}
