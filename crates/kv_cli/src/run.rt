// Replays the lines of a script over an image.
ghost use Rattle.std.specs.Prelude.{◌≡◌, ◌≤◌, All, IfOk, length};
ghost use Rattle.std.specs.Option.{ForSome};
ghost use Rattle.flash_core.specs.Sizes.{IsValid, size_of};
ghost use Rattle.script_core.specs.Grammar.{CutsNoRollback};
ghost use Rattle.script_core.specs.declared.line.Line.{Line};
ghost use Rattle.kv_cli.specs.Asked.{asked_in};
ghost use Rattle.kv_cli.specs.Runs.{CanRun, Closes, IsOpened, IsRunOf};

use crate::inputs::Inputs;
use command_words::Session as Asked;
use flash_sim::Chip;
use journal_core::Journal;
use kv_model::NoMemory;
use session_core::{Ended, Outcome, Session};
use std::alloc::Global;

/// How a replay ended.
#[derive(Drop)]
pub enum RunEnd {
    /// All lines were run, and this is the image that they left.
    Image { image: Vec<u8> },
    /// A torn image has a record at this place that nobody wrote.
    Chance { place: u32 },
}

/// The history of a replay, and how it ended.
#[derive(Drop)]
pub struct Run {
    pub journal: Journal,
    pub end: RunEnd,
}

// Mounts the image, and arms the cut that the words ask for.
fn open(alloc: Global, asked: Asked<'_>, image: Vec<u8>) -> Result<Session, NoMemory>
    requires can { CanRun (asked_in asked) }
    requires sized { length image.items ≡ size_of asked.geometry }
    ensures { IfOk result (IsOpened (asked_in asked.entry) image.items) }
{
    let mut session = Session::plain(alloc, Chip::new(asked.geometry, image), asked.hash_bits)?;
    match asked.cut {
        Some(cut) => {
            session.arm(alloc, cut.side, cut.n, cut.pattern)?;
            Ok(session)
        }
        None => Ok(session),
    }
}

// Settles the session, and gives its image.
fn close(alloc: Global, mut session: Session) -> Result<RunEnd, NoMemory>
    ensures { IfOk result (Closes session) }
{
    match session.settle(alloc) {
        Ended::Whole => Ok(RunEnd::Image {
            image: session.into_image(),
        }),
        Ended::Chance { side: _, place } => Ok(RunEnd::Chance { place }),
        Ended::Memory => Err(NoMemory),
    }
}

/// Replays the script over the image, whose bytes become those of the device and then of the image
/// that the replay leaves. It refuses for want of memory alone.
pub fn run_script(alloc: Global, asked: Asked<'_>, inputs: Inputs) -> Result<Run, NoMemory>
    requires can { CanRun (asked_in asked) }
    requires sized { length inputs.image.items ≡ size_of asked.geometry }
    requires primary { All (λ (line : Line). CutsNoRollback line.act) inputs.script }
    ensures { IfOk result (λ run. IsRunOf (asked_in asked.entry) inputs.image.items inputs.script
        run.journal.entries run.end) }
{
    let Inputs { script, image } = inputs;
    let mut session = open(alloc, asked, image)?;
    let Outcome { journal, ended } = session.replay_lines(alloc, script.into_lines());
    match ended {
        Ended::Whole => {
            let end = close(alloc, session)?;
            Ok(Run { journal, end })
        }
        Ended::Chance { side: _, place } => Ok(Run {
            journal,
            end: RunEnd::Chance { place },
        }),
        Ended::Memory => Err(NoMemory),
    }
}
