// The top call: from words and a host to what was written, what was printed and a status.
ghost use Rattle.std.specs.Prelude.{◌≡◌, ◌≢◌, ◌≤◌, ◌+◌, ◌⊎◌, ℕ, List, [], Err, IfErr, IfOk, IfSome};
ghost use Rattle.std.specs.Prelude.{None, length, map};
ghost use Rattle.std.specs.Option.{option_map};
ghost use Rattle.std.specs.Rc.{rc_str_bytes};
ghost use Rattle.base_core.specs.Counts.{Rose};
ghost use Rattle.flash_core.specs.Sizes.{IsValid, size_of};
ghost use Rattle.kv_host.specs.Contents.{with_printed};
ghost use Rattle.kv_cli.specs.Asked.{Asks, AsksNothing, asked_in};
ghost use Rattle.kv_cli.specs.Inputs.{GivesReplay};
ghost use Rattle.kv_cli.specs.Outcomes.{HasEnded, HasEndedFor, IsByChance, IsCutShort, IsDone};
ghost use Rattle.kv_cli.specs.Outcomes.{IsFinished, IsNothing, IsPrinted, IsRefused};
ghost use Rattle.kv_cli.specs.Outcomes.{IsReplayedUnlessHindered, IsRoomFor, IsShort};
ghost use Rattle.kv_cli.specs.Outcomes.{IsUnlessHindered, PrintsLine, StopsFor, around, ends_with};
ghost use Rattle.kv_cli.specs.Refusals.{Gives, LacksFile, LacksImage, LacksScript, words_line};
ghost use Rattle.kv_cli.specs.Replays.{text_by};
ghost use Rattle.kv_cli.specs.Runs.{CanRun, EndsRun, IsMade, printed_by, size_in};

use crate::inputs::read_inputs;
use crate::refusal::{Refusal, push_chance};
use crate::run::{Run, RunEnd, run_script};
use crate::stop::Stop;
use crate::words::asked_by;
use command_words::Session as Asked;
use journal_core::Journal;
use kv_host::Host;
use kv_model::{Bytes, NoMemory};
use std::alloc::Global;
use std::rc::RcStr;

/// What a command left behind.
#[derive(Drop)]
pub struct Report {
    /// 0 where it was done; else the number of why it was not.
    pub status: u8,
    /// The calls of the replay with their replies.
    pub journal: Journal,
    /// The bytes that were written to the primary image; empty where none were.
    pub primary: Bytes,
    /// The same of the rollback image.
    pub rollback: Bytes,
}

// A replay and what is to be printed of it.
#[derive(Drop)]
struct Replayed {
    run: Run,
    text: Vec<u8>,
}

// How the work ended.
#[derive(Drop)]
struct Ending {
    status: u8,
    journal: Journal,
    primary: Bytes,
}

impl Ending {
    ghost use Rattle.std.specs.Prelude.{◌≡◌};
    ghost use Rattle.kv_cli.specs.Outcomes.{IsNothing, ends_with};

    // An end at which nothing stands.
    fn refused(alloc: Global, status: u8) -> Ending
        ensures status { result.status ≡ status }
        ensures nothing { IsNothing
            (ends_with result.status result.journal.entries result.primary) }
    {
        Ending {
            status,
            journal: Journal::new(alloc),
            primary: Bytes::empty(alloc),
        }
    }
}

// The replies of a history.
fn replies_of(alloc: Global, by_client: bool, journal: &Journal) -> Result<Vec<u8>, NoMemory>
    ensures { IfOk result (λ text. text.items ≡ text_by by_client journal.now.entries) }
{
    if by_client {
        journal.by_client(alloc)
    } else {
        journal.text(alloc)
    }
}

// What is printed of a replay.
fn text_of(alloc: Global, by_client: bool, run: &Run) -> Result<Vec<u8>, NoMemory>
    ensures text { IfOk result (λ text. text.items
        ≡ printed_by by_client run.now.journal.entries run.now.end) }
    ensures short { IfOk result (λ text. length text.items
        ≤ length (text_by by_client run.now.journal.entries) + 160) }
{
    let mut text = replies_of(alloc, by_client, &run.journal)?;
    if let RunEnd::Chance { place } = &run.end {
        push_chance(alloc, &mut text, *place)?;
    }
    Ok(text)
}

// Makes the calls of the script. Nothing is written or printed yet.
fn replay<H: Host>(alloc: Global, host: &mut H, asked: Asked<'_>) -> Result<Replayed, Stop>
    requires { CanRun (asked_in asked) }
    ensures count { H.faults host.old ≤ H.faults host.new }
    ensures stands { H.contents host.new ≡ H.contents host.old }
    ensures made { IfOk result (λ done. IsMade (asked_in asked.entry) (H.contents host.old)
        done.run.journal.entries done.run.end) }
    ensures text { IfOk result (λ done. done.text.items
        ≡ printed_by asked.entry.by_client done.run.journal.entries done.run.end) }
    ensures short { IfOk result (λ done. length done.text.items
        ≤ length (text_by asked.entry.by_client done.run.journal.entries) + 160) }
    ensures stops { IfErr result
        (StopsFor (asked_in asked.entry) (around H.contents H.faults host.old host.new)) }
    ensures calm { (names room : ℕ) → H.is_calm host.old names room
        → (result ≢ Err Stop.Fault) × H.is_calm host.new names room }
{
    let inputs = read_inputs(alloc, host, asked)?;
    let run = run_script(alloc, asked, inputs)?;
    let text = text_of(alloc, asked.by_client, &run)?;
    Ok(Replayed { run, text })
}

// Prints, and gives the status `done`, or 4 where the host failed.
fn print<H: Host>(host: &mut H, bytes: &[u8], done: u8) -> u8
    ensures count { H.faults host.old ≤ H.faults host.new }
    ensures printed { IsPrinted bytes.now done
        (around H.contents H.faults host.old host.new) result }
    ensures calm { (names room : ℕ) → H.is_calm host.old names room → length bytes.now ≤ room
        → result ≡ done }
{
    match host.print(bytes) {
        Ok(()) => done,
        Err(_) => 4,
    }
}

// Prints what is wrong with the files, and gives the status.
fn print_refusal<H: Host>(alloc: Global, host: &mut H, asked: Asked<'_>, refusal: Refusal) -> u8
    requires { IsValid asked.geometry }
    ensures count { H.faults host.old ≤ H.faults host.new }
    ensures refused { IsRefused (asked_in asked.entry) (Stop.Refused refusal)
        (around H.contents H.faults host.old host.new) result }
    ensures calm { (files room : ℕ) → H.is_calm host.old files room
        → IsShort asked.entry.names.primary.now → IsShort asked.entry.names.script.now
        → 160 ≤ room → result ≢ 4 }
{
    match refusal.line(alloc, &asked) {
        Ok(line) => print(host, &line, refusal.status()),
        Err(NoMemory) => 9,
    }
}

// Prints why there was no replay, where the files are to blame, and gives the status.
fn refuse<H: Host>(alloc: Global, host: &mut H, asked: Asked<'_>, stop: Stop) -> u8
    requires { IsValid asked.geometry }
    ensures count { H.faults host.old ≤ H.faults host.new }
    ensures refused { IsRefused (asked_in asked.entry) stop
        (around H.contents H.faults host.old host.new) result }
    ensures calm { (files room : ℕ) → H.is_calm host.old files room
        → IsShort asked.entry.names.primary.now → IsShort asked.entry.names.script.now
        → 160 ≤ room → stop ≢ Stop.Fault → result ≢ 4 }
{
    match stop {
        Stop::Refused { refusal } => print_refusal(alloc, host, asked, refusal),
        Stop::Fault => 4,
        Stop::Memory => 9,
    }
}

// Writes the image to its file, and then prints the text.
fn write<H: Host>(
    alloc: Global,
    host: &mut H,
    asked: Asked<'_>,
    journal: Journal,
    image: Vec<u8>,
    text: &[u8],
) -> Ending
    ensures count { H.faults host.old ≤ H.faults host.new }
    ensures history { result.journal.entries ≡ journal.entries }
    ensures finished { IsFinished (asked_in asked.entry) image.items text.now
        (around H.contents H.faults host.old host.new)
        (ends_with result.status result.journal.entries result.primary) }
    ensures calm { (files room : ℕ) → H.is_calm host.old files room → 1 ≤ files
        → IsShort asked.entry.names.primary.now
        → length image.items + length text.now ≤ room → result.status ≢ 4 }
{
    match host.write_file(asked.names.primary, &image) {
        Ok(()) => Ending {
            status: print(host, text, 0),
            journal,
            primary: Bytes::from_vec(image),
        },
        Err(_) => Ending {
            status: 4,
            journal,
            primary: Bytes::empty(alloc),
        },
    }
}

// Writes and prints what a replay left, or prints alone where a record by chance stopped it.
fn finish<H: Host>(alloc: Global, host: &mut H, asked: Asked<'_>, done: Replayed) -> Ending
    ensures count { H.faults host.old ≤ H.faults host.new }
    ensures history { result.journal.entries ≡ done.run.journal.entries }
    ensures ends { EndsRun (asked_in asked.entry) done.run.end done.text.items
        (around H.contents H.faults host.old host.new)
        (ends_with result.status result.journal.entries result.primary) }
    ensures calm { (files room : ℕ) → H.is_calm host.old files room → 1 ≤ files
        → IsShort asked.entry.names.primary.now
        → size_in done.run.end + length done.text.items ≤ room → result.status ≢ 4 }
{
    let Run { journal, end } = done.run;
    match end {
        RunEnd::Image { image } => write(alloc, host, asked, journal, image, &done.text),
        RunEnd::Chance { .. } => Ending {
            status: print(host, &done.text, 5),
            journal,
            primary: Bytes::empty(alloc),
        },
    }
}

// Replays what these files give, writes and prints, or prints why there is no replay.
fn end_for<H: Host>(alloc: Global, host: &mut H, asked: Asked<'_>) -> Ending
    requires { CanRun (asked_in asked) }
    ensures count { H.faults host.old ≤ H.faults host.new }
    ensures ended { HasEndedFor (asked_in asked.entry)
        (around H.contents H.faults host.old host.new)
        (ends_with result.status result.journal.entries result.primary) }
    ensures calm { (files room : ℕ) → H.is_calm host.old files room → 1 ≤ files
        → IsShort asked.entry.names.primary.now → IsShort asked.entry.names.script.now
        → size_of asked.entry.geometry
        + length (text_by asked.entry.by_client result.journal.entries) + 160 ≤ room
        → result.status ≢ 4 }
{
    match replay(alloc, host, asked) {
        Ok(done) => finish(alloc, host, asked, done),
        Err(stop) => {
            let status = refuse(alloc, host, asked, stop);
            Ending::refused(alloc, status)
        }
    }
}

#[tactic(auto, using(crate::proofs::AskedLemmas::can_run))]
fn end<H: Host>(alloc: Global, words: &[RcStr], host: &mut H) -> Ending
    ensures count { H.faults host.old ≤ H.faults host.new }
    ensures ended { HasEnded (map rc_str_bytes words.now)
        (around H.contents H.faults host.old host.new)
        (ends_with result.status result.journal.entries result.primary) }
    ensures calm { (files room : ℕ) → H.is_calm host.old files room → 1 ≤ files
        → IsRoomFor (map rc_str_bytes words.now) result.journal.entries room
        → result.status ≢ 4 }
{
    match asked_by(words) {
        Some(asked) => end_for(alloc, host, asked),
        None => {
            let status = print(host, b"refused: words\n", 1);
            Ending::refused(alloc, status)
        }
    }
}

/// Replays a script over an image, power cuts among its lines, writes the image back to its file
/// and then prints the replies. The words are read by the grammar of `command_words`. The script is
/// read and parsed before the image is read, no file is written before the last call is made and
/// the store mounted once more, and nothing is printed before the image is written.
///
/// The first of these that comes decides, in the order of the work. Each line that is printed ends
/// in a line feed.
///
/// | status | comes | printed |
/// |---|---|---|
/// | 1 | the words are no replay over one image | `refused: words` |
/// | 6 | a file is absent | `refused: file NAME absent` |
/// | 6 | the script has over 2,097,152 bytes | `refused: file NAME over 2097152 bytes` |
/// | 6 | the image has over 16,777,216 bytes | `refused: file NAME over 16777216 bytes` |
/// | 2 | line N is not of the grammar, or the 8,193rd of a call | `refused: line N` |
/// | 3 | the image has A bytes, its geometry B | `refused: image NAME has A bytes, not B` |
/// | 5 | a mount found a record by chance | the replies, then `refused: chance at p PLACE` |
/// | 0 | the image was written and the replies printed | the replies |
///
/// With 2 the first such line is named, with 5 the place of the first record that a torn write left
/// and nobody wrote.
///
/// The status is 4 where the host failed, whose count of faults then rose, and 9 where memory ran
/// out. With all but 0 and 4 no file is written and `primary` is empty; with all but 0, 4 and 5 the
/// journal is empty; with 9 nothing is printed. With 4 a prefix of what was to be printed may
/// stand.
pub fn tool<H: Host>(alloc: Global, words: &[RcStr], host: &mut H) -> Report
    ensures count { H.faults host.old ≤ H.faults host.new }
    ensures statuses { (result.status ≤ 6) ⊎ (result.status ≡ 9) }
    ensures rollback { result.rollback ≡ [] }
    ensures ended { HasEnded (map rc_str_bytes words.now)
        (around H.contents H.faults host.old host.new)
        (ends_with result.status result.journal.entries result.primary) }
    ensures done { result.status ≡ 0 → IfSome (H.contents host.old) (λ c.
        IsDone (map rc_str_bytes words.now) c (H.contents host.new)
        (ends_with result.status result.journal.entries result.primary)) }
    ensures chance { result.status ≡ 5 → IfSome (H.contents host.old) (λ c.
        IsByChance (map rc_str_bytes words.now) c (H.contents host.new)
        (ends_with result.status result.journal.entries result.primary)) }
    ensures words { result.status ≡ 1 → AsksNothing (map rc_str_bytes words.now)
        × (H.contents host.new ≡ option_map (with_printed words_line) (H.contents host.old)) }
    ensures script { result.status ≡ 2 → IfSome (H.contents host.old) (λ c.
        PrintsLine LacksScript (map rc_str_bytes words.now) c (H.contents host.new)) }
    ensures image { result.status ≡ 3 → IfSome (H.contents host.old) (λ c.
        PrintsLine LacksImage (map rc_str_bytes words.now) c (H.contents host.new)) }
    ensures file { result.status ≡ 6 → IfSome (H.contents host.old) (λ c.
        PrintsLine LacksFile (map rc_str_bytes words.now) c (H.contents host.new)) }
    ensures untold { result.status ≡ 6 → H.contents host.old ≡ None
        → Rose (H.faults host.old) (H.faults host.new) }
    ensures fault { result.status ≡ 4 → Rose (H.faults host.old) (H.faults host.new) }
    ensures cut_short { result.status ≡ 4 → IfSome (H.contents host.old) (λ c.
        IsCutShort (map rc_str_bytes words.now) c (H.contents host.new)
        (ends_with result.status result.journal.entries result.primary)) }
    ensures nothing { result.status ≢ 0 → result.status ≢ 4 → result.status ≢ 5
        → IsNothing (ends_with result.status result.journal.entries result.primary) }
    ensures memory { result.status ≡ 9 → H.contents host.new ≡ H.contents host.old }
    ensures only_words { AsksNothing (map rc_str_bytes words.now)
        → (result.status ≡ 1) ⊎ (result.status ≡ 4) }
    ensures only_script { IfSome (H.contents host.old) (λ c. (line : List ℕ)
        → Gives LacksScript (map rc_str_bytes words.now) c line
        → IsUnlessHindered 2 result.status) }
    ensures only_image { IfSome (H.contents host.old) (λ c. (line : List ℕ)
        → Gives LacksImage (map rc_str_bytes words.now) c line
        → IsUnlessHindered 3 result.status) }
    ensures only_file { IfSome (H.contents host.old) (λ c. (line : List ℕ)
        → Gives LacksFile (map rc_str_bytes words.now) c line
        → IsUnlessHindered 6 result.status) }
    ensures only_done { IfSome (H.contents host.old) (λ c.
        (gives : GivesReplay (map rc_str_bytes words.now) c)
        → IsReplayedUnlessHindered gives.asked gives.lines result.status) }
    ensures calm { (files room : ℕ) → H.is_calm host.old files room → 1 ≤ files
        → IsRoomFor (map rc_str_bytes words.now) result.journal.entries room
        → result.status ≢ 4 }
{
    let ending = end(alloc, words, host);
    Report {
        status: ending.status,
        journal: ending.journal,
        primary: ending.primary,
        rollback: Bytes::empty(alloc),
    }
}
