// The printed form of replies. Each function appends to the text, and refuses for want of memory
// alone.
ghost use Rattle.std.specs.Prelude.{◌≡◌, ◌<◌, ◌+◌, ◌++◌, ◌∷◌, [], OnOk, codes};
ghost use Rattle.std.specs.Fmt.{decimal};
ghost use Rattle.journal_core.specs.Clients.{entries_by};
ghost use Rattle.journal_core.specs.Texts.{hex_text, flags_text, crc_text, details_text, refusal_text, reply_text, entry_line, text_of};

use kv_model::{Entry, Flags, KvError, NoMemory, Reply};
use std::alloc::Global;

fn push_bytes(text: &mut Vec<u8>, bytes: &[u8]) -> Result<(), NoMemory>
    ensures { OnOk result (text.new.items ≡ text.old.items ++ bytes.now) }
{
    Ok(text.extend_from_slice(bytes)?)
}

fn push_digit(text: &mut Vec<u8>, digit: u8) -> Result<(), NoMemory>
    requires { digit < 10 }
    ensures { OnOk result (text.new.items ≡ text.old.items ++ (48 + digit) ∷ []) }
{
    Ok(text.push(b'0' + digit)?)
}

// The digits are put into the text one by one, since a string of them would take memory of its own.
#[tactic(auto, using(crate::proofs::TextLemmas::one_digit, crate::proofs::TextLemmas::digits_more))]
fn push_number(text: &mut Vec<u8>, number: u32) -> Result<(), NoMemory>
    ensures { OnOk result (text.new.items ≡ text.old.items ++ decimal number) }
{
    if number < 10 {
        return push_digit(text, number as u8);
    }
    push_number(text, number / 10)?;
    push_digit(text, (number % 10) as u8)
}

#[tactic(auto, using(crate::proofs::TextLemmas::hex_cases))]
fn push_hex(alloc: Global, text: &mut Vec<u8>, bytes: &[u8]) -> Result<(), NoMemory>
    ensures { OnOk result (text.new.items ≡ text.old.items ++ hex_text bytes.now) }
{
    if bytes.is_empty() {
        return push_bytes(text, b"-");
    }
    let digits = hex::encode(alloc, bytes)?;
    push_bytes(text, digits.as_bytes())
}

fn push_crc(alloc: Global, text: &mut Vec<u8>, crc: u32) -> Result<(), NoMemory>
    ensures { OnOk result (text.new.items ≡ text.old.items ++ crc_text crc) }
{
    let digits = hex::encode(alloc, crc.to_be_bytes())?;
    push_bytes(text, digits.as_bytes())
}

fn letters_of(flags: Flags) -> &'static [u8]
    ensures { result.now ≡ flags_text flags.bits }
{
    let write_once = flags.bits % 2 == 1;
    let confidential = flags.bits / 2 % 2 == 1;
    let replay_protected = flags.bits / 8 % 2 == 1;
    match (write_once, confidential, replay_protected) {
        (false, false, false) => b"-",
        (false, false, true) => b"r",
        (false, true, false) => b"c",
        (false, true, true) => b"cr",
        (true, false, false) => b"w",
        (true, false, true) => b"wr",
        (true, true, false) => b"wc",
        (true, true, true) => b"wcr",
    }
}

fn push_details(alloc: Global, text: &mut Vec<u8>, error: KvError) -> Result<(), NoMemory>
    ensures { OnOk result (text.new.items ≡ text.old.items ++ details_text error) }
{
    match error {
        KvError::MediaFull { need, room } => {
            push_bytes(text, b" need ")?;
            push_number(text, need)?;
            push_bytes(text, b" room ")?;
            push_number(text, room)
        }
        KvError::Busy { owner } => {
            push_bytes(text, b" ")?;
            push_number(text, owner as u32)
        }
        KvError::Corrupt { stored, computed } => {
            push_bytes(text, b" ")?;
            push_crc(alloc, text, stored)?;
            push_bytes(text, b" ")?;
            push_crc(alloc, text, computed)
        }
        _ => Ok(()),
    }
}

fn push_refusal(alloc: Global, text: &mut Vec<u8>, error: KvError) -> Result<(), NoMemory>
    ensures { OnOk result (text.new.items ≡ text.old.items ++ refusal_text error) }
{
    push_bytes(text, b"error ")?;
    push_number(text, error.number() as u32)?;
    push_bytes(text, b" ")?;
    push_bytes(text, error.text().as_bytes())?;
    push_details(alloc, text, error)
}

fn push_reply(alloc: Global, text: &mut Vec<u8>, reply: &Reply) -> Result<(), NoMemory>
    ensures { OnOk result (text.new.items ≡ text.old.items ++ reply_text reply.now) }
{
    match reply {
        Reply::Done => push_bytes(text, b"ok"),
        Reply::Value { bytes } => {
            push_bytes(text, b"ok ")?;
            push_hex(alloc, text, bytes.as_slice())
        }
        Reply::Facts { size, flags } => {
            push_bytes(text, b"ok ")?;
            push_number(text, *size)?;
            push_bytes(text, b" ")?;
            push_bytes(text, letters_of(*flags))
        }
        Reply::Found { key } => {
            push_bytes(text, b"key ")?;
            push_bytes(text, key.as_slice())
        }
        Reply::End => push_bytes(text, b"end"),
        Reply::Refused { error } => push_refusal(alloc, text, *error),
    }
}

#[tactic(auto, unfolding(crate::specs::Texts::entry_line))]
fn push_entry(alloc: Global, text: &mut Vec<u8>, entry: &Entry) -> Result<(), NoMemory>
    ensures { OnOk result (text.new.items ≡ text.old.items ++ entry_line entry.now) }
{
    push_number(text, entry.who as u32)?;
    push_bytes(text, b" ")?;
    push_number(text, entry.index)?;
    push_bytes(text, b" ")?;
    push_reply(alloc, text, &entry.reply)?;
    push_bytes(text, b"\n")
}

pub fn push_entries(alloc: Global, text: &mut Vec<u8>, entries: &[Entry]) -> Result<(), NoMemory>
    ensures { OnOk result (text.new.items ≡ text.old.items ++ text_of entries.now) }
{
    for entry in entries {
        push_entry(alloc, text, entry)?;
    }
    Ok(())
}

pub fn push_entries_by(
    alloc: Global,
    text: &mut Vec<u8>,
    who: u8,
    entries: &[Entry],
) -> Result<(), NoMemory>
    ensures { OnOk result (text.new.items
        ≡ text.old.items ++ text_of (entries_by who entries.now)) }
{
    for entry in entries {
        if entry.who == who {
            push_entry(alloc, text, entry)?;
        }
    }
    Ok(())
}
