// What one word of a line stands for. Nothing here takes memory.
ghost use Rattle.std.specs.Prelude.{◌≡◌, ◌≤◌, IfOk, is_ok};
ghost use Rattle.std.specs.Char.{is_ascii_digit};
ghost use Rattle.std.specs.List.{list_all};
ghost use Rattle.hex.specs.Hex.{decode_of, is_hex_digit};
ghost use Rattle.script_core.specs.Grammar.{is_printing, is_key_word, is_prefix};
ghost use Rattle.script_core.specs.Reading.{GivesIt, GivesWord, GivesDigits, number_of, number_up_to, count_of, key_of, prefix_of, bytes_of, flags_of};

use crate::digits::Digits;
use crate::error::Malformed;
use kv_model::Flags;

fn all_digits(word: &[u8]) -> bool
    ensures { result ≡ list_all is_ascii_digit word.now }
{
    word.iter().all(|byte| byte.is_ascii_digit())
}

// A decimal number of 32 bits, without a leading zero.
#[tactic(auto, unfolding(crate::specs::Reading::number_of))]
pub(crate) fn number(word: &[u8]) -> Result<u32, Malformed>
    ensures { GivesIt result (number_of word.now) }
{
    let has_leading_zero = word.len() > 1 && word[0] == b'0';
    if has_leading_zero || !all_digits(word) {
        return Err(Malformed);
    }
    let Ok(digits) = std::str::from_utf8(word) else {
        return Err(Malformed);
    };
    match digits.parse() {
        Ok(number) => Ok(number),
        Err(_) => Err(Malformed),
    }
}

#[tactic(auto, unfolding(crate::specs::Reading::number_up_to))]
pub(crate) fn number_up_to(most: u8, word: &[u8]) -> Result<u8, Malformed>
    ensures number { GivesIt result (number_up_to most word.now) }
    ensures bound { IfOk result (λ number. number ≤ most) }
{
    let number = number(word)?;
    if number > u32::from(most) {
        return Err(Malformed);
    }
    Ok(number as u8)
}

// A number that is not 0.
#[tactic(auto, unfolding(crate::specs::Reading::count_of))]
pub(crate) fn count(word: &[u8]) -> Result<u32, Malformed>
    ensures { GivesIt result (count_of word.now) }
{
    let count = number(word)?;
    if count == 0 {
        return Err(Malformed);
    }
    Ok(count)
}

fn all_printing(word: &[u8]) -> bool
    ensures { result ≡ list_all is_printing word.now }
{
    word.iter().all(|byte| *byte >= 0x21 && *byte <= 0x7E)
}

#[tactic(auto, unfolding(crate::specs::Grammar::is_key_word))]
fn is_key_word(word: &[u8]) -> bool
    ensures { result ≡ is_key_word word.now }
{
    !word.is_empty() && word.len() <= 255 && all_printing(word)
}

// A word that may stand for a key.
#[tactic(auto, unfolding(crate::specs::Reading::key_of))]
pub(crate) fn key(word: &[u8]) -> Result<&[u8], Malformed>
    ensures { GivesWord result (key_of word.now) }
{
    if !is_key_word(word) {
        return Err(Malformed);
    }
    Ok(word)
}

#[tactic(auto, unfolding(crate::specs::Grammar::is_prefix))]
fn is_prefix(prefix: &[u8]) -> bool
    ensures { result ≡ is_prefix prefix.now }
{
    prefix.len() <= 255 && all_printing(prefix)
}

// What stands before the star at the end of a word.
#[tactic(auto, unfolding(crate::specs::Reading::prefix_of))]
pub(crate) fn prefix(word: &[u8]) -> Result<&[u8], Malformed>
    ensures { GivesWord result (prefix_of word.now) }
{
    let end = match word.len() {
        0 => return Err(Malformed),
        length => length - 1,
    };
    let prefix = &word[..end];
    if word[end] != b'*' || !is_prefix(prefix) {
        return Err(Malformed);
    }
    Ok(prefix)
}

fn all_hex_digits(word: &[u8]) -> bool
    ensures { result ≡ list_all is_hex_digit word.now }
{
    word.iter().all(|byte| byte.is_ascii_hexdigit())
}

// Whether a word is hexadecimal digits, two for each byte.
#[tactic(auto, using(crate::proofs::HexWords::pairs_decode, crate::proofs::HexWords::others_do_not))]
fn are_pairs(word: &[u8]) -> bool
    ensures { result ≡ is_ok (decode_of word.now) }
{
    word.len() % 2 == 0 && all_hex_digits(word)
}

// The digits of a word of hexadecimal digits, or none of a dash.
#[tactic(auto, using(crate::proofs::HexWords::no_digits, crate::proofs::HexWords::dash_is_none, crate::proofs::HexWords::pairs_are_bytes, crate::proofs::HexWords::others_are_none))]
pub(crate) fn digits(word: &[u8]) -> Result<Digits<'_>, Malformed>
    ensures { GivesDigits result (bytes_of word.now) }
{
    if word == b"-".as_slice() {
        return Ok(Digits::new(b""));
    }
    if word.len() < 2 || !are_pairs(word) {
        return Err(Malformed);
    }
    Ok(Digits::new(word))
}

// The flags that a word has a letter for.
#[tactic(auto, unfolding(crate::specs::Reading::flags_of))]
pub(crate) fn flags(word: &[u8]) -> Result<Flags, Malformed>
    ensures { GivesIt result (flags_of word.now) }
{
    let bits = match word {
        b"-" => 0,
        b"w" => 1,
        b"c" => 2,
        b"wc" => 3,
        b"r" => 8,
        b"wr" => 9,
        b"cr" => 10,
        b"wcr" => 11,
        _ => return Err(Malformed),
    };
    Ok(Flags { bits })
}
