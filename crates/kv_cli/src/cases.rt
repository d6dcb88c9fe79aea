//! What the tests have in common: the words and the files of a replay, and what it leaves.
use crate::tool::{Report, tool};
use kv_host::MemHost;
use std::alloc::Global;
use std::rc::RcStr;
use std::test::Fail;

/// A host takes this many bytes, an image over its limit among them.
const ROOM: u32 = 17_000_000;

/// The size of an image of the default geometry.
pub const SIZE: usize = 131_072;

/// The words, the script `s` and the image `p`, and the numbers of the host's calls that fail.
#[derive(Clone, Copy)]
pub struct Case<'a> {
    /// With one space or more between each two.
    pub words: &'a str,
    pub script: Option<&'a [u8]>,
    pub image: Option<&'a [u8]>,
    pub failing: &'a [u32],
}

/// What the program left.
#[derive(Drop)]
pub struct Left {
    pub host: MemHost,
    pub report: Report,
}

/// The words of a line.
pub fn words_in(alloc: Global, line: &str) -> Result<Vec<RcStr>, Fail> {
    let mut words = Vec::new(alloc);
    for word in line.split(' ') {
        if !word.is_empty() {
            words.push(RcStr::from_str(alloc, word)?)?;
        }
    }
    Ok(words)
}

/// What comes of a case.
pub fn outcome_of(alloc: Global, case: Case<'_>) -> Result<Left, Fail> {
    let mut host = MemHost::new(alloc, case.failing.to_vec(alloc)?, ROOM)?;
    if let Some(script) = case.script {
        host.put_file("s", script)?;
    }
    if let Some(image) = case.image {
        host.put_file("p", image)?;
    }
    let words = words_in(alloc, case.words)?;
    let report = tool(alloc, &words, &mut host);
    Ok(Left { host, report })
}
