// The canonical spelling of a line.
ghost use Rattle.std.specs.Prelude.{◌≡◌, ◌∷◌, ◌++◌, [], true, false, map, IfOk, OnOk, codes};
ghost use Rattle.std.specs.String.{string_bytes};
ghost use Rattle.kv_model.specs.declared.call.Call.TheVariants as call;
ghost use Rattle.script_core.specs.declared.line.Act.TheVariants.{Do};
ghost use Rattle.script_core.specs.Grammar.{IsFlagBits, IsAct, IsLine, side_letter, pattern_words, flags_word, cut_word, hex_word, IsHexWord, AreWords, canonical_words, canonical, Spells, IsScript};
ghost use Rattle.script_core.specs.Reading.{behind};

use crate::line::{Act, Line, Side};
use kv_model::{Bytes, Call, Flags, NoMemory, Pattern};
use std::alloc::Global;

// Appends words, with a separator in front of each.
fn append(text: &mut Vec<u8>, separator: u8, words: &[&[u8]]) -> Result<(), NoMemory>
    ensures { OnOk result (text.new.items ≡ text.old.items
        ++ behind separator (map (λ word. word.now) words.now)) }
{
    for word in words {
        text.push(separator)?;
        text.extend_from_slice(word)?;
    }
    Ok(())
}

// The word for some bytes.
fn digits(alloc: Global, bytes: &[u8]) -> Result<String, NoMemory>
    ensures word { IfOk result (λ word. string_bytes word ≡ hex_word bytes.now) }
    ensures again { OnOk result (IsHexWord (hex_word bytes.now) bytes.now) }
{
    if bytes.is_empty() {
        return Ok(String::from_str(alloc, "-")?);
    }
    Ok(hex::encode(alloc, bytes)?)
}

// The word for some flags.
#[tactic(auto, unfolding(crate::specs::Grammar::flags_word))]
fn letters(flags: Flags) -> &'static [u8]
    requires { IsFlagBits flags.bits }
    ensures { result.now ≡ flags_word flags.bits }
{
    match flags.bits {
        0 => b"-",
        1 => b"w",
        2 => b"c",
        3 => b"wc",
        8 => b"r",
        9 => b"wr",
        10 => b"cr",
        _ => b"wcr",
    }
}

fn print_part(
    alloc: Global,
    text: &mut Vec<u8>,
    key: &Bytes,
    offset: u32,
    count: u32,
) -> Result<(), NoMemory>
    ensures { OnOk result (text.new.items ≡ text.old.items
        ++ behind 32 (canonical_words (Do (call.Part key.now offset count)))) }
{
    let offset = offset.to_string(alloc)?;
    let count = count.to_string(alloc)?;
    let words = [
        b"part".as_slice(),
        key.as_slice(),
        offset.as_bytes(),
        count.as_bytes(),
    ];
    append(text, b' ', &words)
}

fn print_set(
    alloc: Global,
    text: &mut Vec<u8>,
    key: &Bytes,
    value: &Bytes,
    flags: Flags,
) -> Result<(), NoMemory>
    requires { IsFlagBits flags.bits }
    ensures text { OnOk result (text.new.items ≡ text.old.items
        ++ behind 32 (canonical_words (Do (call.Set key.now value.now flags)))) }
    ensures again { OnOk result (IsHexWord (hex_word value.now) value.now) }
{
    let value = digits(alloc, value.as_slice())?;
    let words = [b"set".as_slice(), key.as_slice(), value.as_bytes()];
    append(text, b' ', &words)?;
    append(text, b' ', &[letters(flags)])
}

fn print_start(
    alloc: Global,
    text: &mut Vec<u8>,
    key: &Bytes,
    size: u32,
    flags: Flags,
) -> Result<(), NoMemory>
    requires { IsFlagBits flags.bits }
    ensures { OnOk result (text.new.items ≡ text.old.items
        ++ behind 32 (canonical_words (Do (call.Start key.now size flags)))) }
{
    let size = size.to_string(alloc)?;
    let words = [b"start".as_slice(), key.as_slice(), size.as_bytes()];
    append(text, b' ', &words)?;
    append(text, b' ', &[letters(flags)])
}

fn print_open(alloc: Global, text: &mut Vec<u8>, n: u8, prefix: &Bytes) -> Result<(), NoMemory>
    ensures { OnOk result (text.new.items ≡ text.old.items
        ++ behind 32 (canonical_words (Do (call.IterOpen n prefix.now)))) }
{
    let n = n.to_string(alloc)?;
    append(
        text,
        b' ',
        &[b"open".as_slice(), n.as_bytes(), prefix.as_slice()],
    )?;
    text.push(b'*')?;
    Ok(())
}

// Appends the words of a call.
fn print_call(alloc: Global, text: &mut Vec<u8>, asked: &Call) -> Result<(), NoMemory>
    requires { IsAct (Do asked.now) }
    ensures text { OnOk result (text.new.items ≡ text.old.items
        ++ behind 32 (canonical_words (Do asked.now))) }
    ensures again { OnOk result (AreWords (canonical_words (Do asked.now)) (Do asked.now)) }
{
    match asked {
        Call::Get { key } => append(text, b' ', &[b"get".as_slice(), key.as_slice()]),
        Call::Part { key, offset, count } => print_part(alloc, text, key, *offset, *count),
        Call::Info { key } => append(text, b' ', &[b"info".as_slice(), key.as_slice()]),
        Call::Set { key, value, flags } => print_set(alloc, text, key, value, *flags),
        Call::Remove { key } => append(text, b' ', &[b"remove".as_slice(), key.as_slice()]),
        Call::Start { key, size, flags } => print_start(alloc, text, key, *size, *flags),
        Call::Add { value } => {
            let value = digits(alloc, value.as_slice())?;
            append(text, b' ', &[b"add".as_slice(), value.as_bytes()])
        }
        Call::Finish => append(text, b' ', &[b"finish".as_slice()]),
        Call::Abort => append(text, b' ', &[b"abort".as_slice()]),
        Call::IterOpen { n, prefix } => print_open(alloc, text, *n, prefix),
        Call::Next { n } => {
            let n = n.to_string(alloc)?;
            append(text, b' ', &[b"next".as_slice(), n.as_bytes()])
        }
        Call::IterClose { n } => {
            let n = n.to_string(alloc)?;
            append(text, b' ', &[b"close".as_slice(), n.as_bytes()])
        }
        Call::Reset => append(text, b' ', &[b"reset".as_slice()]),
        Call::Mount => append(text, b' ', &[b"mount".as_slice()]),
    }
}

// Appends the words of a pattern, with a colon in front of each.
fn print_pattern(alloc: Global, text: &mut Vec<u8>, pattern: Pattern) -> Result<(), NoMemory>
    ensures { OnOk result (text.new.items ≡ text.old.items ++ behind 58 (pattern_words pattern)) }
{
    match pattern {
        Pattern::None => append(text, b':', &[b"none".as_slice()]),
        Pattern::Half => append(text, b':', &[b"half".as_slice()]),
        Pattern::Zero => append(text, b':', &[b"zero".as_slice()]),
        Pattern::All => append(text, b':', &[b"all".as_slice()]),
        Pattern::Mix { seed } => {
            let seed = seed.to_string(alloc)?;
            append(text, b':', &[b"mix".as_slice(), seed.as_bytes()])
        }
    }
}

fn letter(side: Side) -> &'static [u8]
    ensures { result.now ≡ side_letter side }
{
    match side {
        Side::Primary => b"p",
        Side::Rollback => b"r",
    }
}

// Appends the words of a cut.
fn print_cut(
    alloc: Global,
    text: &mut Vec<u8>,
    side: Side,
    n: u32,
    pattern: Pattern,
) -> Result<(), NoMemory>
    ensures { OnOk result (text.new.items ≡ text.old.items
        ++ behind 32 (codes "cut" ∷ cut_word side n pattern ∷ [])) }
{
    append(text, b' ', &[b"cut".as_slice()])?;
    append(text, b' ', &[letter(side)])?;
    let n = n.to_string(alloc)?;
    append(text, b':', &[n.as_bytes()])?;
    print_pattern(alloc, text, pattern)
}

// Appends the words of an act.
fn print_act(alloc: Global, text: &mut Vec<u8>, act: &Act) -> Result<(), NoMemory>
    requires { IsAct act.now }
    ensures text { OnOk result (text.new.items ≡ text.old.items
        ++ behind 32 (canonical_words act.now)) }
    ensures again { OnOk result (AreWords (canonical_words act.now) act.now) }
{
    match act {
        Act::Do { call } => print_call(alloc, text, call),
        Act::Cut { side, n, pattern } => print_cut(alloc, text, *side, *n, *pattern),
    }
}

/// The canonical spelling of a line: with lower-case digits. Parsed without threads and with a
/// rollback store, it is the script of this line. It refuses for want of memory alone.
pub fn print_line(alloc: Global, line: &Line) -> Result<Bytes, NoMemory>
    requires { IsLine line.now }
    ensures canonical { IfOk result (λ text. text ≡ canonical line.now) }
    ensures spells { IfOk result (λ text. Spells text line.now) }
    ensures again { IfOk result (λ text.
        IsScript (record { threads = false; secure = true }) text (line.now ∷ [])) }
{
    let mut text = Vec::new(alloc);
    let who = line.who.to_string(alloc)?;
    text.extend_from_slice(who.as_bytes())?;
    print_act(alloc, &mut text, &line.act)?;
    Ok(Bytes::from_vec(text))
}
