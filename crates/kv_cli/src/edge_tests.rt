//! Tests of the edge: real files, and the words that the system gives.
use crate::arguments::words_behind_name;
use crate::tool::tool;
use kv_host::StdHost;
use std::alloc::Global;
use std::env::Args;
use std::io::{self, ErrorKind};
use std::process::Abort;
use std::rc::RcStr;
use std::test::Fail;
use std::{env, fs, process};

/// The master record of version 1; its CRC is by another implementation of CRC-32.
const MASTER: [u8; 40] = [
    0x4b, 0x56, 0x52, 0x31, 0x18, 0x00, 0x01, 0x00, 0x00, 0x00, 0x00, 0x00, 0x04, 0x00, 0x00, 0x00,
    0x08, 0x00, 0x00, 0x00, 0xaa, 0x37, 0xf7, 0x1e, 0x54, 0x44, 0x42, 0x53, 0x01, 0x00, 0x01, 0x00,
    0x00, 0x00, 0x00, 0x00, 0xff, 0xff, 0xff, 0xff,
];

/// The record of key `a` with the bytes 00 and ff; its CRC is by another implementation of CRC-32.
const RECORD: [u8; 32] = [
    0x4b, 0x56, 0x52, 0x31, 0x18, 0x00, 0x01, 0x00, 0x00, 0x00, 0x00, 0x00, 0x01, 0x00, 0x00, 0x00,
    0x02, 0x00, 0x00, 0x00, 0x21, 0x78, 0x5e, 0x84, 0x61, 0x00, 0xff, 0xff, 0xff, 0xff, 0xff, 0xff,
];

/// The whole image of a script that sets `a` to the bytes 00 and ff.
fn image_of_a_set(alloc: Global) -> Result<Vec<u8>, Fail> {
    let mut image = MASTER.to_vec(alloc)?;
    image.extend_from_slice(&RECORD)?;
    for _ in 72..131_072 {
        image.push(0xFF)?;
    }
    Ok(image)
}

/// A folder of its own in that for temporary files.
fn new_folder(rt: &HostRuntime) -> Result<String, Fail> {
    let alloc = rt.alloc();
    let name = format!(in alloc; "kv_cli_{}", process::id(rt.process()))?;
    let path = env::temp_dir(rt)?.join(alloc, name.as_str())?;
    let _ = fs::remove_dir_all(rt, path.as_str());
    fs::create_dir(rt, path.as_str())?;
    Ok(String::from_str(alloc, path.as_str())?)
}

#[test]
fn a_replay_of_real_files_writes_this_image(rt: HostRuntime) -> Result<(), Fail> {
    let alloc = rt.alloc();
    let folder = new_folder(&rt)?;
    let image = format!(in alloc; "{folder}/image")?;
    let script = format!(in alloc; "{folder}/script")?;
    let erased = vec![in alloc; 0xFFu8; 131_072]?;
    fs::write(&rt, image.as_str(), erased.as_slice())?;
    fs::write(&rt, script.as_str(), "1 set a 00ff -\n")?;
    let mut words = Vec::new(alloc);
    for word in ["replay", image.as_str(), "-", script.as_str()] {
        words.push(RcStr::from_str(alloc, word)?)?;
    }
    let mut host = StdHost::new(&rt);
    let report = tool(alloc, &words, &mut host);
    let written = fs::read(&rt, image.as_str())?;
    let expected = image_of_a_set(alloc)?;
    fs::remove_dir_all(&rt, folder.as_str())?;
    assert_eq!(rt; report.status, 0);
    assert!(rt;
        written.as_slice() == expected.as_slice(),
        "the image that was written"
    );
    assert!(rt; report.primary.as_slice() == expected.as_slice());
    Ok(())
}

/// The arguments of a program, as the system gives them.
fn arguments_of(alloc: Global, words: &[&str]) -> Result<Args, Fail> {
    let mut arguments = Vec::new(alloc);
    for word in words {
        arguments.push(String::from_str(alloc, word)?)?;
    }
    Ok(arguments.into_iter())
}

/// The arguments give these words.
fn give<R: Abort>(rt: &R, alloc: Global, all: &[&str], expected: &[&str]) -> Result<(), Fail> {
    let words = words_behind_name(alloc, Ok(arguments_of(alloc, all)?))?;
    assert_eq!(rt; words.len(), expected.len());
    for (word, expected) in words.iter().zip(expected) {
        assert_eq!(rt; word.as_str(), *expected);
    }
    Ok(())
}

#[test]
fn the_words_are_those_behind_the_name(rt: HostRuntime) -> Result<(), Fail> {
    let alloc = rt.alloc();
    let replay = ["vaskeldi", "replay", "p", "-", "s"];
    give(&rt, alloc, &replay, &replay[1..])?;
    give(&rt, alloc, &["vaskeldi", "", "b", ""], &["", "b", ""])?;
    give(&rt, alloc, &["vaskeldi"], &[])?;
    give(&rt, alloc, &[], &[])?;
    // arguments that can't be read are no words
    let words = words_behind_name(alloc, Err(io::Error::from(ErrorKind::InvalidData)))?;
    assert!(rt; words.is_empty());
    let refused = words_behind_name(alloc, Err(io::Error::from(ErrorKind::OutOfMemory)));
    assert!(rt; refused.is_err());
    Ok(())
}
