// The replay that the words of a command line ask for.
ghost use Rattle.std.specs.Prelude.{map, MatchOption};
ghost use Rattle.std.specs.Rc.{rc_str_bytes};
ghost use Rattle.kv_cli.specs.Asked.{Asks, AsksNothing, asked_in};

use command_words::{Command, Session as Asked, WrongWords, read_words};
use std::rc::RcStr;

/// What the words ask for, where they are a replay over one image. They are read by the grammar of
/// `command_words`; a replay over two images, `run` and the tools are not built.
pub fn asked_by(words: &[RcStr]) -> Option<Asked<'_>>
    ensures { MatchOption result (AsksNothing (map rc_str_bytes words.now))
        (λ asked. Asks (map rc_str_bytes words.now) (asked_in asked)) }
{
    match read_words(words) {
        Ok(Command::Replay { session }) => { if session.secure { None } else { Some(session) } }
        Ok(Command::Run { session: _ }) => None,
        Ok(Command::Use { tool: _, image: _ }) => None,
        Ok(Command::Generate { drawing: _ }) => None,
        Err(WrongWords) => None,
    }
}
