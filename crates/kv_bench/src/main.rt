//! Runs one kernel of a store and prints a checksum, to be timed from outside.
//!
//! `kv_bench KERNEL SIZE ROUNDS`: with the kernels `ctr`, `cmac` and `crc` the size is a buffer's in
//! bytes, the rounds are how often the kernel goes over it, and the checksum is a CMAC, or the CRC.
//! With `lookup` the size is the number of keys in an index, the rounds are how many of them are
//! looked up, one after another, and the checksum is the total of their places. It is printed as 32
//! hexadecimal digits.
#![tactic(auto)]

mod kernels;
mod lookup;

use anyhow::{Context, Result, bail};
use kernels::Kernel;
use kv_model::Key;
use lookup::lookup_total;
use std::alloc::Global;
use std::env;

// Keys of eight hexadecimal digits, in the order of their numbers.
fn numbered_keys(alloc: Global, count: u32) -> Result<Vec<Key>> {
    let mut keys = Vec::new(alloc);
    for number in 0..count {
        let digits = format!(in alloc; "{number:08x}")?;
        let Ok(key) = Key::new(digits.as_str().as_bytes()) else {
            bail!("{digits} is no key");
        };
        keys.push(key)?;
    }
    Ok(keys)
}

fn lookup_checksum(alloc: Global, count: u32, finds: u32) -> Result<u128> {
    let keys = numbered_keys(alloc, count)?;
    match lookup_total(alloc, &keys, finds) {
        Ok(total) => Ok(u128::from(total)),
        Err(error) => bail!("looking up: {error:?}"),
    }
}

fn kernel_checksum(alloc: Global, kernel: &str, size: u32, rounds: u32) -> Result<u128> {
    let Some(kernel) = Kernel::from_word(kernel) else {
        bail!("the kernel is ctr, cmac, crc or lookup");
    };
    let mut buffer = vec![in alloc; 0u8; size as usize]?;
    Ok(u128::from_be_bytes(kernel.checksum(&mut buffer, rounds)))
}

fn main(rt: HostRuntime) -> Result<()> {
    let mut words = env::args(&rt)?;
    let _program = words.next();
    let Some(kernel) = words.next() else {
        bail!("usage: kv_bench KERNEL SIZE ROUNDS");
    };
    let Some(size) = words.next() else {
        bail!("usage: kv_bench KERNEL SIZE ROUNDS");
    };
    let Some(rounds) = words.next() else {
        bail!("usage: kv_bench KERNEL SIZE ROUNDS");
    };
    let size = size.as_str().parse::<u32>().context("reading the size")?;
    let rounds = rounds
        .as_str()
        .parse::<u32>()
        .context("reading the rounds")?;
    let checksum = if kernel.as_str() == "lookup" {
        lookup_checksum(rt.alloc(), size, rounds)?
    } else {
        kernel_checksum(rt.alloc(), kernel.as_str(), size, rounds)?
    };
    println!(rt; "{checksum:032x}")?;
    Ok(())
}
