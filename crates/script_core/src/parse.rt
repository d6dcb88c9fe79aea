ghost use Rattle.std.specs.Prelude.{◌≡◌, ◌<◌, ◌+◌, ◌^◌, ◌⊎◌, ℕ, List, [], ◌∷◌, ◌++◌, length, IfErr, IfOk, IsOk, IsSome, OnOk, OnErr};
ghost use Rattle.script_core.specs.declared.line.Line.{Line};
ghost use Rattle.script_core.specs.Grammar.{is_skipped, IsScript, IsFirstBad, IsOneTooMany};
ghost use Rattle.script_core.specs.Spelled.{spelled_act, spelled_line};
ghost use Rattle.script_core.specs.Reading.{GivesLine, HasTested, HasCounted, HasChecked, HasReadOne, IsOutcome, Answers, TellsEnds, is_start, cuts_rollback, is_allowed, good_line_of, read_one, read_text};

use crate::ends::ends_for;
use crate::error::{Malformed, ScriptError};
use crate::line::{Line, Side};
use crate::parts::Parts;
use crate::reading;
use crate::script::{Script, ScriptMode};
use crate::spelled::{SpelledAct, SpelledCall, SpelledLine};
use kv_model::{Call, NoMemory};
use std::alloc::Global;

const MOST_LINES: usize = 8192;

fn is_skipped(line: &[u8]) -> bool
    ensures { result ≡ is_skipped line.now }
{
    match line {
        [] => true,
        [first, ..] => *first == b'#',
    }
}

fn is_start(act: &SpelledAct<'_>) -> bool
    ensures { result ≡ is_start (spelled_act act.now) }
{
    match act {
        SpelledAct::Do { call } => matches!(
            call,
            SpelledCall::Start { .. }
                | SpelledCall::Whole {
                    call: Call::Start { .. }
                }
        ),
        SpelledAct::Cut { .. } => false,
    }
}

fn cuts_rollback(act: &SpelledAct<'_>) -> bool
    ensures { result ≡ cuts_rollback (spelled_act act.now) }
{
    match act {
        SpelledAct::Do { .. } => false,
        SpelledAct::Cut { side, .. } => *side == Side::Rollback,
    }
}

// Whether the mode allows a line, where a later line ends the client's incremental set or none
// does.
fn is_allowed(mode: ScriptMode, is_ended: bool, line: &SpelledLine<'_>) -> bool
    ensures { result ≡ is_allowed mode is_ended (spelled_line line.now) }
{
    let is_start = is_start(&line.act);
    let cuts_rollback = cuts_rollback(&line.act);
    (!mode.threads || (line.who >= 1 && (!is_start || is_ended))) && (mode.secure || !cuts_rollback)
}

// The line of this number, if the mode allows it. It takes no memory.
fn good_line<'a>(
    mode: ScriptMode,
    ends: &[u32; 17],
    number: u32,
    text: &'a [u8],
) -> Result<SpelledLine<'a>, Malformed>
    ensures { (later : List (List ℕ)) → TellsEnds mode ends.now number later →
        GivesLine result (good_line_of mode later text.now) }
{
    let line = reading::line(text)?;
    let is_ended = ends[usize::from(line.who)] > number;
    if !is_allowed(mode, is_ended, &line) {
        return Err(Malformed);
    }
    Ok(line)
}

// The line of this number behind `count` call lines, or `None` where it is skipped. It takes no
// memory.
fn test_one<'a>(
    mode: ScriptMode,
    ends: &[u32; 17],
    number: u32,
    count: usize,
    text: &'a [u8],
) -> Result<Option<SpelledLine<'a>>, ScriptError>
    ensures tested { (later : List (List ℕ)) (lines : List Line) →
        TellsEnds mode ends.now number later → length lines ≡ count →
        HasTested result lines (read_one mode number lines text.now later) }
    ensures room { IfOk result (λ found. IsSome found → count < 8192) }
{
    if is_skipped(text) {
        return Ok(None);
    }
    let Ok(line) = good_line(mode, ends, number, text) else {
        return Err(ScriptError::BadLine { line: number });
    };
    if count >= MOST_LINES {
        return Err(ScriptError::TooManyCalls { line: number });
    }
    Ok(Some(line))
}

// How many call lines there are with the line of this number, where there are `count` before it.
fn count_one(
    mode: ScriptMode,
    ends: &[u32; 17],
    number: u32,
    count: usize,
    text: &[u8],
) -> Result<usize, ScriptError>
    ensures { (later : List (List ℕ)) (lines : List Line) →
        TellsEnds mode ends.now number later → length lines ≡ count →
        HasCounted result (read_one mode number lines text.now later) }
{
    match test_one(mode, ends, number, count, text) {
        Ok(Some(_)) => Ok(count + 1),
        Ok(None) => Ok(count),
        Err(fault) => Err(fault),
    }
}

// Reads a text and keeps none of its lines, so that it takes no memory.
fn check(mode: ScriptMode, bytes: &[u8]) -> Result<(), ScriptError>
    requires { length bytes.now + 1 < 2 ^ 32 }
    ensures { HasChecked result (read_text mode bytes.now) }
{
    let ends = ends_for(mode, bytes);
    let mut count = 0usize;
    let mut number = 0u32;
    for text in Parts::new(b'\n', bytes) {
        number += 1;
        count = count_one(mode, &ends, number, count, text)?;
    }
    Ok(())
}

// Adds a copy of a line. It refuses for want of memory alone, and then adds nothing.
fn add_copy(alloc: Global, lines: &mut Vec<Line>, line: SpelledLine<'_>) -> Result<(), NoMemory>
    ensures added { OnOk result (lines.new.items ≡ lines.old.items
        ++ spelled_line line.entry ∷ []) }
    ensures stands { OnErr result (lines.new.items ≡ lines.old.items) }
{
    let line = line.copied(alloc)?;
    lines.push(line)?;
    Ok(())
}

// Reads the line of this number behind the lines before it. Memory is taken for a good line alone.
fn read_one(
    alloc: Global,
    mode: ScriptMode,
    ends: &[u32; 17],
    number: u32,
    lines: &mut Vec<Line>,
    text: &[u8],
) -> Result<(), ScriptError>
    ensures read { (later : List (List ℕ)) → TellsEnds mode ends.now number later →
        HasReadOne result lines.new.items (read_one mode number lines.old.items text.now later) }
    ensures stands { OnErr result (lines.new.items ≡ lines.old.items) }
{
    match test_one(mode, ends, number, lines.len(), text) {
        Ok(Some(line)) => match add_copy(alloc, lines, line) {
            Ok(()) => Ok(()),
            Err(NoMemory) => Err(ScriptError::Memory),
        },
        Ok(None) => Ok(()),
        Err(fault) => Err(fault),
    }
}

fn read(alloc: Global, mode: ScriptMode, bytes: &[u8]) -> Result<Vec<Line>, ScriptError>
    requires { length bytes.now + 1 < 2 ^ 32 }
    ensures { IsOutcome (λ lines. lines.items) result (read_text mode bytes.now) }
{
    let ends = ends_for(mode, bytes);
    let mut lines = Vec::new(alloc);
    let mut number = 0u32;
    for text in Parts::new(b'\n', bytes) {
        number += 1;
        read_one(alloc, mode, &ends, number, &mut lines, text)?;
    }
    Ok(lines)
}

// The lines of a text. Where memory is wanting the text is looked through without any, so that a bad
// line is named all the same.
fn read_lines(alloc: Global, mode: ScriptMode, bytes: &[u8]) -> Result<Vec<Line>, ScriptError>
    requires { length bytes.now + 1 < 2 ^ 32 }
    ensures read { IsOutcome (λ lines. lines.items) result (read_text mode bytes.now) }
    ensures memory { IfErr result (λ fault.
        fault ≡ ScriptError.Memory → IsOk (read_text mode bytes.now)) }
{
    match read(alloc, mode, bytes) {
        Err(ScriptError::Memory) => {
            check(mode, bytes)?;
            Err(ScriptError::Memory)
        }
        outcome => outcome,
    }
}

/// The script that a text is. `bytes` has fewer than 4,294,967,295 bytes. Every answer but
/// `Memory`, which comes for want of memory alone, follows from the text and the mode. `Memory`
/// comes only where the text is a script.
pub fn parse_script(alloc: Global, bytes: &[u8], mode: ScriptMode) -> Result<Script, ScriptError>
    requires { length bytes.now + 1 < 2 ^ 32 }
    ensures found { IfOk result (λ script. IsScript mode bytes.now script) }
    ensures only_found { (script : List Line) → IsScript mode bytes.now script →
        Answers result (Ok script) }
    ensures bad_line { (line : ℕ) → result ≡ Err (ScriptError.BadLine line) →
        IsFirstBad mode bytes.now line }
    ensures only_bad_line { (line : ℕ) → IsFirstBad mode bytes.now line →
        Answers result (Err (ScriptError.BadLine line)) }
    ensures too_many { (line : ℕ) → result ≡ Err (ScriptError.TooManyCalls line) →
        IsOneTooMany mode bytes.now line }
    ensures only_too_many { (line : ℕ) → IsOneTooMany mode bytes.now line →
        Answers result (Err (ScriptError.TooManyCalls line)) }
    ensures memory { result ≡ Err ScriptError.Memory →
        (script : List Line) × IsScript mode bytes.now script }
{
    let lines = read_lines(alloc, mode, bytes)?;
    Ok(Script::new(lines))
}
