// The lines of a script, run on a session in their order.
ghost use Rattle.std.specs.Prelude.{◌≡◌, ◌≢◌, ◌<◌, false, true, All, IfOk, OnOk, OnErr, length};
ghost use Rattle.script_core.specs.Grammar.{AreLines, CutsNoRollback, IsLine};
ghost use Rattle.script_core.specs.declared.line.Act.TheVariants.{Do};
ghost use Rattle.script_core.specs.declared.line.Line.{Line};
ghost use Rattle.session_core.specs.declared.ended.Ended.TheVariants as ended;
ghost use Rattle.session_core.specs.Replaying.{Replays, RunsLine};

use crate::{Ended, Session};
use journal_core::Journal;
use kv_model::{Call, NoMemory, Reply, perform};
use script_core::{Act, Line, Script};
use std::alloc::Global;

/// What a replay gives: the calls that were made, with their replies, and how it ended.
#[derive(Drop)]
pub struct Outcome {
    pub journal: Journal,
    pub ended: Ended,
}

// A copy of a call.
fn copy_of(call: &Call) -> Result<Call, NoMemory>
    ensures { IfOk result (λ copy. copy ≡ call.now) }
{
    Ok(call.clone()?)
}

// A copy of a line.
fn copy_of_line(line: &Line) -> Result<Line, NoMemory>
    ensures { IfOk result (λ copy. copy ≡ line.now) }
{
    let act = match &line.act {
        Act::Do { call } => Act::Do {
            call: copy_of(call)?,
        },
        Act::Cut { side, n, pattern } => Act::Cut {
            side: *side,
            n: *n,
            pattern: *pattern,
        },
    };
    Ok(Line { who: line.who, act })
}

// Copies of these lines, in their order.
fn copies_of(alloc: Global, lines: &[Line]) -> Result<Vec<Line>, NoMemory>
    ensures { IfOk result (λ copies. copies.items ≡ lines.now) }
{
    let mut copies = Vec::new(alloc);
    for line in lines {
        copies.push(copy_of_line(line)?)?;
    }
    Ok(copies)
}

fn is_mount(call: &Call) -> bool
    ensures mount { result ≡ true → call.now ≡ Call.Mount }
    ensures other { result ≡ false → call.now ≢ Call.Mount }
{
    matches!(call, Call::Mount)
}

impl Session {
    // Settles the session, and notes the mount as an entry of caller 0.
    fn run_mount(&mut self, alloc: Global, journal: &mut Journal) -> Ended
        requires { length journal.old.entries < 4294967295 }
        ensures { RunsLine self.old self.new journal.old.entries journal.new.entries
            (record { who = 0; act = Do Call.Mount }) result }
    {
        if journal.reserve().is_err() {
            return Ended::Memory;
        }
        match self.settle(alloc) {
            Ended::Whole => {
                journal.append(0, Call::Mount, Reply::Done);
                Ended::Whole
            }
            Ended::Chance { side, place } => Ended::Chance { side, place },
            Ended::Memory => Ended::Memory,
        }
    }

    // Makes a call of a client, which is no mount, and moves it into the journal with its reply.
    fn note_call(
        &mut self,
        alloc: Global,
        journal: &mut Journal,
        who: u8,
        call: Call,
    ) -> Result<(), NoMemory>
        requires numbers { length journal.old.entries < 4294967295 }
        requires no_mount { call ≢ Call.Mount }
        ensures done { OnOk result (RunsLine self.old self.new journal.old.entries
            journal.new.entries (record { who = who; act = Do call }) ended.Whole) }
        ensures none { OnErr result (RunsLine self.old self.new journal.old.entries
            journal.new.entries (record { who = who; act = Do call }) ended.Memory) }
    {
        journal.reserve()?;
        match perform(alloc, self, who, &call) {
            Ok(reply) => {
                journal.append(who, call, reply);
                Ok(())
            }
            Err(none) => Err(none),
        }
    }

    // The same, as a line of a script.
    fn run_call(&mut self, alloc: Global, journal: &mut Journal, who: u8, call: Call) -> Ended
        requires numbers { length journal.old.entries < 4294967295 }
        requires no_mount { call ≢ Call.Mount }
        ensures { RunsLine self.old self.new journal.old.entries journal.new.entries
            (record { who = who; act = Do call }) result }
    {
        match self.note_call(alloc, journal, who, call) {
            Ok(()) => Ended::Whole,
            Err(NoMemory) => Ended::Memory,
        }
    }

    // Runs one line, whose call is moved into the journal.
    fn run_line(&mut self, alloc: Global, journal: &mut Journal, line: Line) -> Ended
        requires numbers { length journal.old.entries < 4294967295 }
        requires line { IsLine line }
        requires primary { CutsNoRollback line.act }
        ensures { RunsLine self.old self.new journal.old.entries journal.new.entries line result }
    {
        let Line { who, act } = line;
        match act {
            Act::Cut { side, n, pattern } => match self.arm(alloc, side, n, pattern) {
                Ok(()) => Ended::Whole,
                Err(NoMemory) => Ended::Memory,
            },
            Act::Do { call } => {
                if is_mount(&call) {
                    self.run_mount(alloc, journal)
                } else {
                    self.run_call(alloc, journal, who, call)
                }
            }
        }
    }

    /// Runs the lines of a script in their order, and notes each call with its reply: the call is
    /// moved into the journal, not copied. A line `0 mount` settles the session, on a store that
    /// runs too, and is noted as a call of client 0 with the reply `Done`; a line `0 cut` arms a
    /// chip and is not noted. Where a record is there by chance at a mount the replay ends there,
    /// and so it does for want of memory. A plain session is given no cut of the rollback chip.
    /// Where no cut is armed, a log that wants no collection grows by the records of these calls
    /// and stays in its area.
    pub fn replay_lines(&mut self, alloc: Global, lines: Vec<Line>) -> Outcome
        requires lines { AreLines lines.items }
        requires primary { All (λ (line : Line). CutsNoRollback line.act) lines.items }
        ensures { Replays self.old self.new lines.items result }
    {
        let mut journal = Journal::new(alloc);
        for line in lines {
            let ended = self.run_line(alloc, &mut journal, line);
            if ended != Ended::Whole {
                return Outcome { journal, ended };
            }
        }
        Outcome {
            journal,
            ended: Ended::Whole,
        }
    }

    /// The same for a script that is kept, of whose lines it makes copies.
    pub fn replay(&mut self, alloc: Global, script: &Script) -> Outcome
        requires { All (λ (line : Line). CutsNoRollback line.act) script.now }
        ensures { Replays self.old self.new script.now result }
    {
        match copies_of(alloc, script.lines()) {
            Ok(lines) => self.replay_lines(alloc, lines),
            Err(NoMemory) => Outcome {
                journal: Journal::new(alloc),
                ended: Ended::Memory,
            },
        }
    }
}
