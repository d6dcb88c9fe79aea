//! The program: it replays a script of calls over the image of a flash device, power cuts among
//! them.
#![tactic(auto)]

mod arguments;
#[cfg(test)]
mod cases;
#[cfg(test)]
mod edge_tests;
mod inputs;
mod refusal;
#[cfg(test)]
mod replay_tests;
mod run;
mod stop;
#[cfg(test)]
mod tests;
mod tool;
mod words;

use crate::arguments::words_behind_name;
use crate::tool::tool;
use kv_host::StdHost;
use kv_model::NoMemory;
use std::env;
use std::process::ExitCode;

/// The status where memory ran out.
const NO_MEMORY: u8 = 9;

fn main(rt: HostRuntime) -> ExitCode {
    let mut host = StdHost::new(&rt);
    let status = match words_behind_name(rt.alloc(), env::args(&rt)) {
        Ok(words) => tool(rt.alloc(), &words, &mut host).status,
        Err(NoMemory) => NO_MEMORY,
    };
    ExitCode::from(status)
}
