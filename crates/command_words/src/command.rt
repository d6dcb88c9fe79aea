// The command that some words are.
ghost use Rattle.std.specs.Prelude.{map};
ghost use Rattle.std.specs.Rc.{rc_str_bytes};
ghost use Rattle.command_words.specs.Commands.{Means};
ghost use Rattle.command_words.specs.Shown.{command_in};
ghost use Rattle.command_words.specs.Values.{Reads};

use crate::error::WrongWords;
use crate::session::{Session, read_session};
use crate::tools::{Drawing, OneImage, Tool, read_drawing, read_image, tool_named};
use std::rc::RcStr;

/// What a command line asks for.
#[derive(Clone, Copy, Debug, PartialEq, Eq)]
pub enum Command<'a> {
    /// Serve each client on a thread of its own.
    Run { session: Session<'a> },
    /// Make the calls in the order of the script.
    Replay { session: Session<'a> },
    /// Use a tool on one image.
    Use { tool: Tool, image: OneImage<'a> },
    /// Draw a script from a number, and replay it.
    Generate { drawing: Drawing },
}

/// The command that the words of a command line are, without the name of the program. The first
/// word is the command; behind it stand other words in this order, and options and flags anywhere.
/// It takes no memory.
///
/// | command | other words | options and flags |
/// |---|---|---|
/// | `run`, `replay` | PRIMARY ROLLBACK SCRIPT | each of the next table |
/// | `format`, `check` | IMAGE | `--geom` |
/// | `list`, `dump` | IMAGE | `--geom`, `--hash-bits` |
/// | `gen` | SEED CLIENTS CALLS: 32 bits, 1 to 16, 1 to 8,192 | none |
///
/// An option's value is the next word, or follows `=` in the same word. Each option and flag stands
/// at most once. Numbers are decimal, without a sign and without leading zeros.
///
/// | option | value | without it |
/// |---|---|---|
/// | `--geom`, `--rgeom` | a valid geometry: program, erase and area units | `8:4096:16` |
/// | `--root` | 32 hexadecimal digits of either case | the bytes 0 to 15 |
/// | `--iv` | a number of 64 bits | 1 |
/// | `--hash-bits` | a number up to 32 | 32 |
/// | `--cut` | side `p` or `r`, a number from 1 and a pattern, as `p:1:none` | no cut |
/// | `--secure`, `--by-client` | none, they are flags | not set |
///
/// # Errors
/// `WrongWords` exactly where the words mean no command. That is so for another command, more or
/// fewer words, an option that stands twice or has no value of its form, and a word that begins
/// with a dash, isn't a dash alone and is no option, also as a value. Without `--secure` ROLLBACK
/// has to be `-`, and a cut names `p`; with it ROLLBACK is not `-` and not PRIMARY.
pub fn read_words(words: &[RcStr]) -> Result<Command<'_>, WrongWords>
    ensures { Reads command_in (Means (map rc_str_bytes words.now)) result }
{
    let [command, words @ ..] = words else {
        return Err(WrongWords);
    };
    match command.as_str() {
        "run" => Ok(Command::Run {
            session: read_session(words)?,
        }),
        "replay" => Ok(Command::Replay {
            session: read_session(words)?,
        }),
        "gen" => Ok(Command::Generate {
            drawing: read_drawing(words)?,
        }),
        name => {
            let tool = tool_named(name).ok_or(WrongWords)?;
            Ok(Command::Use {
                tool,
                image: read_image(tool, words)?,
            })
        }
    }
}
