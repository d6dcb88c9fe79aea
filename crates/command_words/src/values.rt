// What the value of an option says. Nothing here takes memory.
ghost use Rattle.std.specs.Prelude.{◌≡◌, ◌≤◌, ◌<◌, ◌^◌, true, None};
ghost use Rattle.std.specs.Char.{is_ascii_digit};
ghost use Rattle.std.specs.List.{list_all};
ghost use Rattle.script_core.specs.Reading.{has_leading_zero};
ghost use Rattle.command_words.specs.Items.{values_of};
ghost use Rattle.command_words.specs.Shown.{items_in};
ghost use Rattle.command_words.specs.Values.{SpellsNumber, SpellsShort, SpellsGeometry};
ghost use Rattle.command_words.specs.Values.{SpellsRootKey, SpellsHashBits, SpellsSomeCut};
ghost use Rattle.command_words.specs.Values.{SaysGeometry, SaysRootKey, SaysVector, SaysHashBits};
ghost use Rattle.command_words.specs.Values.{SaysCut, IsFlag, ReadsIt};

use crate::error::WrongWords;
use crate::items::Words;
use crate::option_name::OptionName;
use crate::splits::cut_at;
use flash_core::Geometry;
use script_core::{PowerCut, read_cut};

const DEFAULT_GEOMETRY: Geometry = Geometry {
    prog: 8,
    erase: 4096,
    units_per_area: 16,
};

const DEFAULT_ROOT_KEY: [u8; 16] = [0, 1, 2, 3, 4, 5, 6, 7, 8, 9, 10, 11, 12, 13, 14, 15];

fn all_digits(word: &[u8]) -> bool
    ensures { result ≡ list_all is_ascii_digit word.now }
{
    word.iter().all(|byte| byte.is_ascii_digit())
}

fn has_leading_zero(word: &[u8]) -> bool
    ensures { result ≡ has_leading_zero word.now }
{
    word.len() > 1 && word[0] == b'0'
}

// A decimal number of 64 bits, without a leading zero.
fn parse_number(word: &[u8]) -> Result<u64, WrongWords>
    ensures { ReadsIt (SpellsNumber word.now) result }
{
    if has_leading_zero(word) {
        return Err(WrongWords);
    }
    if !all_digits(word) {
        return Err(WrongWords);
    }
    let Ok(digits) = std::str::from_utf8(word) else {
        return Err(WrongWords);
    };
    match digits.parse() {
        Ok(number) => Ok(number),
        Err(_too_large) => Err(WrongWords),
    }
}

// The same of 32 bits.
pub(crate) fn parse_short(word: &[u8]) -> Result<u32, WrongWords>
    ensures { ReadsIt (SpellsShort word.now) result }
{
    let number = parse_number(word)?;
    if number > 0xFFFF_FFFF {
        return Err(WrongWords);
    }
    Ok(number as u32)
}

fn parse_geometry(word: &[u8]) -> Result<Geometry, WrongWords>
    ensures { ReadsIt (SpellsGeometry word.now) result }
{
    let (prog, behind_prog) = cut_at(b':', word);
    let (erase, behind_erase) = cut_at(b':', behind_prog.ok_or(WrongWords)?);
    let units = behind_erase.ok_or(WrongWords)?;
    let geometry = Geometry {
        prog: parse_short(prog)?,
        erase: parse_short(erase)?,
        units_per_area: parse_short(units)?,
    };
    if !geometry.is_valid() {
        return Err(WrongWords);
    }
    Ok(geometry)
}

fn parse_root_key(word: &[u8]) -> Result<[u8; 16], WrongWords>
    ensures { ReadsIt (SpellsRootKey word.now) result }
{
    if word.len() != 32 {
        return Err(WrongWords);
    }
    let mut key = [0; 16];
    match hex::decode_to_slice(word, &mut key) {
        Ok(()) => Ok(key),
        Err(_) => Err(WrongWords),
    }
}

fn parse_hash_bits(word: &[u8]) -> Result<u8, WrongWords>
    ensures { ReadsIt (SpellsHashBits word.now) result }
{
    let number = parse_number(word)?;
    if number > 32 {
        return Err(WrongWords);
    }
    Ok(number as u8)
}

fn parse_cut(word: &[u8]) -> Result<Option<PowerCut>, WrongWords>
    ensures { ReadsIt (SpellsSomeCut word.now) result }
{
    match read_cut(word) {
        Some(cut) => Ok(Some(cut)),
        None => Err(WrongWords),
    }
}

pub(crate) fn geometry_of(words: Words<'_>, option: OptionName) -> Result<Geometry, WrongWords>
    ensures { ReadsIt (SaysGeometry (values_of option (items_in words.entry))) result }
{
    match words.value_of(option)? {
        Some(word) => Ok(parse_geometry(word)?),
        None => Ok(DEFAULT_GEOMETRY),
    }
}

pub(crate) fn root_key_of(words: Words<'_>, option: OptionName) -> Result<[u8; 16], WrongWords>
    ensures { ReadsIt (SaysRootKey (values_of option (items_in words.entry))) result }
{
    match words.value_of(option)? {
        Some(word) => Ok(parse_root_key(word)?),
        None => Ok(DEFAULT_ROOT_KEY),
    }
}

pub(crate) fn vector_of(words: Words<'_>, option: OptionName) -> Result<u64, WrongWords>
    ensures { ReadsIt (SaysVector (values_of option (items_in words.entry))) result }
{
    match words.value_of(option)? {
        Some(word) => Ok(parse_number(word)?),
        None => Ok(1),
    }
}

pub(crate) fn hash_bits_of(words: Words<'_>, option: OptionName) -> Result<u8, WrongWords>
    ensures { ReadsIt (SaysHashBits (values_of option (items_in words.entry))) result }
{
    match words.value_of(option)? {
        Some(word) => Ok(parse_hash_bits(word)?),
        None => Ok(32),
    }
}

pub(crate) fn cut_of(words: Words<'_>, option: OptionName) -> Result<Option<PowerCut>, WrongWords>
    ensures { ReadsIt (SaysCut (values_of option (items_in words.entry))) result }
{
    match words.value_of(option)? {
        Some(word) => Ok(parse_cut(word)?),
        None => Ok(None),
    }
}

// Whether a flag is given.
pub(crate) fn is_given(words: Words<'_>, flag: OptionName) -> Result<bool, WrongWords>
    ensures { ReadsIt (IsFlag (values_of flag (items_in words.entry))) result }
{
    Ok(words.value_of(flag)?.is_some())
}
