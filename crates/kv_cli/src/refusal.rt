// Why a replay is refused where the files are to blame, and the line that says so.
ghost use Rattle.std.specs.Prelude.{◌≡◌, ◌++◌, ◌≤◌, ◌+◌, List, ℕ, length, OnOk, IfOk};
ghost use Rattle.std.specs.Fmt.{decimal};
ghost use Rattle.kv_cli.specs.Outcomes.{IsShort};
ghost use Rattle.flash_core.specs.Sizes.{IsValid, size_of};
ghost use Rattle.kv_cli.specs.Asked.{asked_in};
ghost use Rattle.kv_cli.specs.Refusals.{absent_line, bad_line, limit_of, line_of, name_of};
ghost use Rattle.kv_cli.specs.Refusals.{over_line, size_line, status_of};
ghost use Rattle.kv_cli.specs.Replays.{chance_line};

use crate::inputs::size_of;
use command_words::Session as Asked;
use kv_model::NoMemory;
use std::alloc::Global;

/// A file that a replay reads.
#[derive(Clone, Copy, Debug, PartialEq, Eq)]
pub enum File {
    Script,
    Primary,
}

impl File {
    /// The most bytes of it that are read.
    pub fn limit(self) -> u32
        ensures { result ≡ limit_of self }
    {
        match self {
            File::Script => 2_097_152,
            File::Primary => 16_777_216,
        }
    }

    fn name<'a>(self, asked: &Asked<'a>) -> &'a str
        ensures { result.now ≡ name_of (asked_in asked.now) self }
    {
        match self {
            File::Script => asked.names.script,
            File::Primary => asked.names.primary,
        }
    }
}

/// What is wrong with the files.
#[derive(Clone, Copy, Debug, PartialEq, Eq)]
pub enum Refusal {
    /// The line of this number is to blame that the text is no script.
    BadLine { line: u32 },
    /// The image has this many bytes, which is not the size of its geometry.
    WrongSize { size: usize },
    /// There is no such file.
    Absent { file: File },
    /// The file is longer than its limit.
    TooLong { file: File },
}

fn push(line: &mut Vec<u8>, text: &str) -> Result<(), NoMemory>
    ensures { OnOk result (line.new.items ≡ line.old.items ++ text.now) }
{
    Ok(line.extend_from_slice(text.as_bytes())?)
}

fn push_number(alloc: Global, line: &mut Vec<u8>, number: usize) -> Result<(), NoMemory>
    ensures number { OnOk result (line.new.items ≡ line.old.items ++ decimal number) }
    ensures short { OnOk result (length line.new.items ≤ length line.old.items + 20) }
{
    let digits = number.to_string(alloc)?;
    push(line, digits.as_str())
}

#[tactic(auto, unfolding(crate::specs::Refusals::bad_line))]
fn push_bad_line(alloc: Global, line: &mut Vec<u8>, number: u32) -> Result<(), NoMemory>
    ensures line { OnOk result (line.new.items ≡ line.old.items ++ bad_line number) }
    ensures short { OnOk result (length line.new.items ≤ length line.old.items + 160) }
{
    push(line, "refused: line ")?;
    push_number(alloc, line, number as usize)?;
    push(line, "\n")
}

#[tactic(auto, unfolding(crate::specs::Refusals::size_line))]
fn push_size(
    alloc: Global,
    line: &mut Vec<u8>,
    name: &str,
    size: usize,
    wanted: usize,
) -> Result<(), NoMemory>
    ensures line { OnOk result
        (line.new.items ≡ line.old.items ++ size_line name.now size wanted) }
    ensures short { IsShort name.now
        → OnOk result (length line.new.items ≤ length line.old.items + 160) }
{
    push(line, "refused: image ")?;
    push(line, name)?;
    push(line, " has ")?;
    push_number(alloc, line, size)?;
    push(line, " bytes, not ")?;
    push_number(alloc, line, wanted)?;
    push(line, "\n")
}

#[tactic(auto, unfolding(crate::specs::Refusals::absent_line))]
fn push_absent(line: &mut Vec<u8>, name: &str) -> Result<(), NoMemory>
    ensures line { OnOk result (line.new.items ≡ line.old.items ++ absent_line name.now) }
    ensures short { IsShort name.now
        → OnOk result (length line.new.items ≤ length line.old.items + 160) }
{
    push(line, "refused: file ")?;
    push(line, name)?;
    push(line, " absent\n")
}

#[tactic(auto, unfolding(crate::specs::Refusals::over_line))]
fn push_over(alloc: Global, line: &mut Vec<u8>, name: &str, limit: u32) -> Result<(), NoMemory>
    ensures line { OnOk result (line.new.items ≡ line.old.items ++ over_line name.now limit) }
    ensures short { IsShort name.now
        → OnOk result (length line.new.items ≤ length line.old.items + 160) }
{
    push(line, "refused: file ")?;
    push(line, name)?;
    push(line, " over ")?;
    push_number(alloc, line, limit as usize)?;
    push(line, " bytes\n")
}

/// The line of a record by chance at this place of the primary image.
#[tactic(auto, unfolding(crate::specs::Replays::chance_line))]
pub fn push_chance(alloc: Global, text: &mut Vec<u8>, place: u32) -> Result<(), NoMemory>
    ensures line { OnOk result (text.new.items ≡ text.old.items ++ chance_line place) }
    ensures short { OnOk result (length text.new.items ≤ length text.old.items + 160) }
{
    push(text, "refused: chance at p ")?;
    push_number(alloc, text, place as usize)?;
    push(text, "\n")
}

impl Refusal {
    /// The status of the program: 2 for the script's lines, 3 for the image, 6 for a file that
    /// can't be read.
    pub fn status(&self) -> u8
        ensures { result ≡ status_of self.now }
    {
        match self {
            Refusal::BadLine { .. } => 2,
            Refusal::WrongSize { .. } => 3,
            Refusal::Absent { .. } | Refusal::TooLong { .. } => 6,
        }
    }

    /// The line that is printed, where the words ask for these files.
    pub fn line(&self, alloc: Global, asked: &Asked<'_>) -> Result<Vec<u8>, NoMemory>
        requires { IsValid asked.now.geometry }
        ensures line { IfOk result (λ line. line.items ≡ line_of (asked_in asked.now) self.now) }
        ensures short { IsShort asked.now.names.primary.now → IsShort asked.now.names.script.now
            → IfOk result (λ line. length line.items ≤ 160) }
    {
        let mut line = Vec::new(alloc);
        match self {
            Refusal::BadLine { line: number } => push_bad_line(alloc, &mut line, *number)?,
            Refusal::WrongSize { size } => {
                let wanted = size_of(asked.geometry);
                push_size(alloc, &mut line, asked.names.primary, *size, wanted)?;
            }
            Refusal::Absent { file } => push_absent(&mut line, file.name(asked))?,
            Refusal::TooLong { file } => {
                push_over(alloc, &mut line, file.name(asked), file.limit())?;
            }
        }
        Ok(line)
    }
}
