//! Runs the ciphers and sealed records over inputs from standard input, to be compared with another
//! implementation.
//!
//! Each line is one of these. Bytes are hexadecimal digits, `-` where there are none; ROOT, KEY,
//! START and PRIOR are 16 bytes, and NAME is the key that a record stands under. Texts, values and
//! stored bytes are taken in two pieces, cut at CUT.
//!
//! - `KEY START CUT TEXT`: answers the text in counter mode from the counter block START on, and
//!   its CMAC.
//! - `seal ROOT NAME FLAGS NUMBER PRIOR CUT VALUE`: answers the record.
//! - `open ROOT NAME CUT RECORD`: answers the size of the metadata, the flags, the prior and the
//!   value, or `refused`.
#![tactic(auto)]

mod pieces;
mod records;

use anyhow::{Context, Result, bail};
use hex::FromHex;
use kv_model::{Flags, Key};
use pieces::in_two_pieces;
use records::{Opening, Sealing, open_in_two, seal_in_two};
use std::alloc::Global;
use std::str::SplitWhitespace;

// The longest value, and more than the longest record.
const MAX_VALUE: usize = 65_536;

const MAX_RECORD: usize = 1 << 20;

fn main(rt: HostRuntime) -> Result<()> {
    for line in rt.lines(rt.alloc()) {
        let answer = answer_of(rt.alloc(), line?.as_str())?;
        println!(rt; "{answer}")?;
    }
    Ok(())
}

fn block_of(word: Option<&str>) -> Result<[u8; 16]> {
    let Ok(block) = <[u8; 16] as FromHex>::from_hex(word.unwrap_or("")) else {
        bail!("a key or a counter block isn't 32 hexadecimal digits");
    };
    Ok(block)
}

fn prior_of(word: Option<&str>) -> Result<Option<[u8; 16]>> {
    match word {
        Some("-") => Ok(None),
        _ => Ok(Some(block_of(word)?)),
    }
}

fn name_of(word: Option<&str>) -> Result<Key> {
    let Ok(name) = Key::new(word.unwrap_or("").as_bytes()) else {
        bail!("a name isn't a key");
    };
    Ok(name)
}

fn bytes_of(alloc: Global, word: Option<&str>) -> Result<Vec<u8>> {
    let word = word.unwrap_or("");
    let Ok(bytes) = hex::decode(alloc, if word == "-" { "" } else { word }) else {
        bail!("bytes aren't hexadecimal digits");
    };
    Ok(bytes)
}

fn shown(alloc: Global, bytes: &[u8]) -> Result<String> {
    if bytes.is_empty() {
        return Ok(String::from_str(alloc, "-")?);
    }
    Ok(hex::encode(alloc, bytes)?)
}

fn cut_of(word: Option<&str>) -> Result<usize> {
    Ok(
        word.unwrap_or("")
            .parse::<usize>()
            .context("reading the cut")?,
    )
}

fn answer_of(alloc: Global, line: &str) -> Result<String> {
    let mut words = line.split_whitespace();
    match words.next() {
        Some("seal") => sealed_of(alloc, words),
        Some("open") => opened_of(alloc, words),
        first => {
            let key = block_of(first)?;
            ciphered_of(alloc, &key, words)
        }
    }
}

fn ciphered_of(alloc: Global, key: &[u8; 16], mut words: SplitWhitespace) -> Result<String> {
    let start = block_of(words.next())?;
    let cut = cut_of(words.next())?;
    let mut text = bytes_of(alloc, words.next())?;
    if cut > text.len() {
        bail!("the cut is behind the text");
    }
    let tag = in_two_pieces(key, &start, &mut text, cut);
    let text = shown(alloc, text.as_slice())?;
    let tag = hex::encode(alloc, tag)?;
    Ok(format!(in alloc; "{text} {tag}")?)
}

fn sealed_of(alloc: Global, mut words: SplitWhitespace) -> Result<String> {
    let root = block_of(words.next())?;
    let key = name_of(words.next())?;
    let bits = words
        .next()
        .unwrap_or("")
        .parse::<u32>()
        .context("reading the flags")?;
    let iv = words
        .next()
        .unwrap_or("")
        .parse::<u64>()
        .context("reading the number")?;
    let prior = prior_of(words.next())?;
    let cut = cut_of(words.next())?;
    let mut value = bytes_of(alloc, words.next())?;
    if cut > value.len() || value.len() > MAX_VALUE {
        bail!("the cut is behind the value, or the value too long");
    }
    let sealing = Sealing {
        root: &root,
        key: &key,
        flags: Flags { bits },
        iv,
        prior,
    };
    let (head, tag) = seal_in_two(&sealing, &mut value, cut);
    let head = hex::encode(alloc, head)?;
    let value = hex::encode(alloc, value.as_slice())?;
    let tag = hex::encode(alloc, tag)?;
    Ok(format!(in alloc; "{head}{value}{tag}")?)
}

fn opened_of(alloc: Global, mut words: SplitWhitespace) -> Result<String> {
    let root = block_of(words.next())?;
    let key = name_of(words.next())?;
    let cut = cut_of(words.next())?;
    let mut sealed = bytes_of(alloc, words.next())?;
    if sealed.len() > MAX_RECORD {
        bail!("the record is too long");
    }
    let Ok(opening) = open_in_two(&root, &key, &mut sealed, cut) else {
        return Ok(String::from_str(alloc, "refused")?);
    };
    let Opening {
        start,
        size,
        flags,
        prior,
    } = opening;
    let prior = match &prior {
        Some(prior) => hex::encode(alloc, prior.as_slice())?,
        None => String::from_str(alloc, "-")?,
    };
    let value = shown(alloc, &sealed[start..start + size])?;
    let flags = flags.bits;
    Ok(format!(in alloc; "{start} {flags} {prior} {value}")?)
}
