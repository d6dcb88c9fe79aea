// The commands `run` and `replay`.
ghost use Rattle.std.specs.Prelude.{◌≡◌, IsTrue, map, List};
ghost use Rattle.std.specs.Rc.{rc_str_bytes};
ghost use Rattle.command_words.specs.Commands.{AreNames, AreOf, cuts_primary, fits_mode};
ghost use Rattle.command_words.specs.Items.{items_of, session_options, words_of};
ghost use Rattle.command_words.specs.Shown.{items_in, names_in, session_in};
ghost use Rattle.command_words.specs.Values.{Reads};

use crate::error::WrongWords;
use crate::items::Words;
use crate::option_name::OptionName;
use crate::values::{cut_of, geometry_of, hash_bits_of, is_given, root_key_of, vector_of};
use flash_core::Geometry;
use script_core::{PowerCut, Side};
use std::rc::RcStr;

/// The files that a command names.
#[derive(Clone, Copy, Debug, PartialEq, Eq)]
pub struct Names<'a> {
    /// The primary image.
    pub primary: &'a str,
    /// The rollback image; `-` where there is none.
    pub rollback: &'a str,
    pub script: &'a str,
}

/// What `run` and `replay` are asked for.
#[derive(Clone, Copy, Debug, PartialEq, Eq)]
pub struct Session<'a> {
    pub names: Names<'a>,
    pub geometry: Geometry,
    /// Without effect where `secure` is false, as `root_key` and `first_vector` are.
    pub rollback_geometry: Geometry,
    pub root_key: [u8; 16],
    /// The number of the next vector for a confidential value.
    pub first_vector: u64,
    /// How many bits of a key's hash decide the order of iterators, at most 32.
    pub hash_bits: u8,
    /// A power cut that is armed before the first call.
    pub cut: Option<PowerCut>,
    /// Whether there is a rollback store.
    pub secure: bool,
    /// Whether the replies are printed client by client.
    pub by_client: bool,
}

static OPTIONS: [OptionName; 8] = [
    OptionName::PrimaryGeometry,
    OptionName::RollbackGeometry,
    OptionName::RootKey,
    OptionName::FirstVector,
    OptionName::HashBits,
    OptionName::Cut,
    OptionName::Secure,
    OptionName::ByClient,
];

fn session_options() -> &'static [OptionName]
    ensures { result.now ≡ session_options }
{
    &OPTIONS
}

fn names_of(words: Words<'_>) -> Result<Names<'_>, WrongWords>
    ensures { Reads names_in (AreNames (words_of (items_in words.entry))) result }
{
    if words.nth_word(3).is_some() {
        return Err(WrongWords);
    }
    Ok(Names {
        primary: words.nth_word(0).ok_or(WrongWords)?,
        rollback: words.nth_word(1).ok_or(WrongWords)?,
        script: words.nth_word(2).ok_or(WrongWords)?,
    })
}

fn cuts_primary(cut: Option<PowerCut>) -> bool
    ensures { result ≡ cuts_primary cut }
{
    match cut {
        None => true,
        Some(cut) => match cut.side {
            Side::Primary => true,
            Side::Rollback => false,
        },
    }
}

// Without a rollback store its image is a dash and no cut falls on it; with one its image is
// another file than the primary one.
fn fits_mode(session: &Session<'_>) -> bool
    ensures { result ≡ fits_mode (session_in session.now) }
{
    let Names {
        primary,
        rollback,
        ..
    } = session.names;
    if session.secure {
        rollback != "-" && rollback != primary
    } else {
        rollback == "-" && cuts_primary(session.cut)
    }
}

pub(crate) fn read_session(words: &[RcStr]) -> Result<Session<'_>, WrongWords>
    ensures { Reads session_in (AreOf (items_of session_options (map rc_str_bytes words.now))) result }
{
    let words = Words::new(session_options(), words);
    if !words.all_known() {
        return Err(WrongWords);
    }
    let session = Session {
        names: names_of(words)?,
        geometry: geometry_of(words, OptionName::PrimaryGeometry)?,
        rollback_geometry: geometry_of(words, OptionName::RollbackGeometry)?,
        root_key: root_key_of(words, OptionName::RootKey)?,
        first_vector: vector_of(words, OptionName::FirstVector)?,
        hash_bits: hash_bits_of(words, OptionName::HashBits)?,
        cut: cut_of(words, OptionName::Cut)?,
        secure: is_given(words, OptionName::Secure)?,
        by_client: is_given(words, OptionName::ByClient)?,
    };
    if !fits_mode(&session) {
        return Err(WrongWords);
    }
    Ok(session)
}
