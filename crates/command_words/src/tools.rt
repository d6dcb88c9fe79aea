// The commands over one image, and the one that draws a script.
ghost use Rattle.std.specs.Prelude.{◌≡◌, ◌≤◌, ◌∷◌, [], map};
ghost use Rattle.std.specs.Fmt.{decimal};
ghost use Rattle.std.specs.Option.{IfSome};
ghost use Rattle.std.specs.Rc.{rc_str_bytes};
ghost use Rattle.command_words.specs.Commands.{AreOfDrawing, AreOfImage, tool_named, tool_options, tool_word};
ghost use Rattle.command_words.specs.Items.{items_of, words_of};
ghost use Rattle.command_words.specs.Shown.{drawing_in, image_in, items_in};
ghost use Rattle.command_words.specs.Values.{Reads, ReadsIt};

use crate::error::WrongWords;
use crate::items::Words;
use crate::option_name::OptionName;
use crate::values::{geometry_of, hash_bits_of, parse_short};
use flash_core::Geometry;
use std::rc::RcStr;

/// A tool over one image.
#[derive(Clone, Copy, Debug, PartialEq, Eq)]
pub enum Tool {
    /// Make the image of a formatted device.
    Format,
    /// Show its keys, with the size and the flags of each.
    List,
    /// Show what its two areas hold.
    Check,
    /// Show the script that makes its map.
    Dump,
}

/// The image that a tool works on.
#[derive(Clone, Copy, Debug, PartialEq, Eq)]
pub struct OneImage<'a> {
    pub file: &'a str,
    pub geometry: Geometry,
    /// How many bits of a key's hash decide the order of keys; 32 for a tool that shows none.
    pub hash_bits: u8,
}

/// A script that is drawn from a number.
#[derive(Clone, Copy, Debug, PartialEq, Eq)]
pub struct Drawing {
    pub seed: u32,
    /// From 1 to 16.
    pub clients: u8,
    /// From 1 to 8,192.
    pub calls: u32,
}

static IMAGE_OPTIONS: [OptionName; 1] = [OptionName::PrimaryGeometry];

static LISTING_OPTIONS: [OptionName; 2] = [OptionName::PrimaryGeometry, OptionName::HashBits];

fn tool_options(tool: Tool) -> &'static [OptionName]
    ensures { result.now ≡ tool_options tool }
{
    match tool {
        Tool::Format => &IMAGE_OPTIONS,
        Tool::Check => &IMAGE_OPTIONS,
        Tool::List => &LISTING_OPTIONS,
        Tool::Dump => &LISTING_OPTIONS,
    }
}

fn no_options() -> &'static [OptionName]
    ensures { result.now ≡ [] }
{
    &[]
}

pub(crate) fn tool_named(word: &str) -> Option<Tool>
    ensures named { result ≡ tool_named word.now }
    ensures word { IfSome result (λ tool. word.now ≡ tool_word tool) }
{
    match word {
        "format" => Some(Tool::Format),
        "list" => Some(Tool::List),
        "check" => Some(Tool::Check),
        "dump" => Some(Tool::Dump),
        _ => None,
    }
}

// The one word that is no option.
fn only_word(words: Words<'_>) -> Result<&str, WrongWords>
    ensures { Reads (λ file. file.now) (λ file. words_of (items_in words.entry) ≡ file ∷ [])
        result }
{
    if words.nth_word(1).is_some() {
        return Err(WrongWords);
    }
    Ok(words.nth_word(0).ok_or(WrongWords)?)
}

// The image that the words behind a tool's name say.
pub(crate) fn read_image(tool: Tool, words: &[RcStr]) -> Result<OneImage<'_>, WrongWords>
    ensures { Reads image_in (AreOfImage (items_of (tool_options tool)
        (map rc_str_bytes words.now))) result }
{
    let words = Words::new(tool_options(tool), words);
    if !words.all_known() {
        return Err(WrongWords);
    }
    Ok(OneImage {
        file: only_word(words)?,
        geometry: geometry_of(words, OptionName::PrimaryGeometry)?,
        hash_bits: hash_bits_of(words, OptionName::HashBits)?,
    })
}

// The number that this word is, from 1 to a limit.
fn number_to(word: &str, limit: u32) -> Result<u32, WrongWords>
    ensures { ReadsIt (λ n. (1 ≤ n) × (n ≤ limit) × (word.now ≡ decimal n)) result }
{
    let number = parse_short(word.as_bytes())?;
    if number < 1 || number > limit {
        return Err(WrongWords);
    }
    Ok(number)
}

// The script that the words behind `gen` say.
pub(crate) fn read_drawing(words: &[RcStr]) -> Result<Drawing, WrongWords>
    ensures { Reads drawing_in (AreOfDrawing (items_of [] (map rc_str_bytes words.now))) result }
{
    let words = Words::new(no_options(), words);
    if !words.all_known() || words.nth_word(3).is_some() {
        return Err(WrongWords);
    }
    let seed = parse_short(words.nth_word(0).ok_or(WrongWords)?.as_bytes())?;
    let clients = number_to(words.nth_word(1).ok_or(WrongWords)?, 16)?;
    let calls = number_to(words.nth_word(2).ok_or(WrongWords)?, 8_192)?;
    Ok(Drawing {
        seed,
        clients: clients as u8,
        calls,
    })
}
