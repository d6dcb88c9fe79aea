//! Real files and standard output: the trusted edge.
ghost use Rattle.std.specs.Prelude.{◌≡◌, ℕ, ◌≤◌, ◌<◌, Option, None, Ok};
ghost use Rattle.kv_host.specs.Contents.{HostContents};
ghost use Rattle.kv_host.specs.Refusal.{faults_after};

use crate::count::counted_up;
use crate::interface::{Host, HostFault};
use crate::replace::replace;
use crate::whole::{opened, read_up_to, write_whole};
use std::marker::Model;
use std::rt::Files;
use std::{fs, io};

/// Real files, named by their paths as they stand, and standard output.
///
/// It keeps a count of faults, which contracts see as its value, and tells nothing of bytes. A file
/// is replaced by a rename: at each moment its name stands for the old bytes or the new ones.
pub struct StdHost<'a, R> {
    rt: &'a R,
    faults: u64,
}

impl<'a, R> Model for StdHost<'a, R> {
    ghost use Rattle.std.specs.Prelude.{ℕ};

    ghost Value = { ℕ };

    ghost view = { λ h. h.faults };
}

impl<'a, R> StdHost<'a, R> {
    /// The host of a runtime, at which no fault came yet. It takes no memory.
    pub fn new(rt: &'a R) -> StdHost<'a, R>
        ensures { result ≡ 0 }
    {
        StdHost { rt, faults: 0 }
    }

    /// Hands an answer on, and counts it where it is a refusal for another cause than want of
    /// memory.
    fn counted(&mut self, answer: Result<(), HostFault>) -> Result<(), HostFault>
        ensures answer { result ≡ answer }
        ensures counted { self.new ≡ faults_after answer self.old }
    {
        match answer {
            Ok(()) | Err(HostFault::Memory) => {}
            Err(_) => self.faults = counted_up(self.faults),
        }
        answer
    }
}

impl<R> Drop for StdHost<'_, R> {
    fn drop(self) {
        let StdHost { rt: _, faults: _ } = self;
    }
}

impl<R: Files + Print> Host for StdHost<'_, R> {
    ghost faults = { λ h. h };

    ghost contents = { λ _. None };

    ghost is_calm = { λ _ _ _. ⊥ };

    fn read_file(&mut self, name: &str, limit: u32, out: &mut Vec<u8>) -> Result<(), HostFault> {
        out.clear();
        let answer = match opened(fs::open(self.rt, name)) {
            Ok(file) => read_up_to(file, limit, out),
            Err(refusal) => Err(refusal),
        };
        self.counted(answer)
    }

    fn write_file(&mut self, name: &str, bytes: &[u8]) -> Result<(), HostFault> {
        let answer = replace(self.rt, name, bytes);
        self.counted(answer)
    }

    fn print(&mut self, bytes: &[u8]) -> Result<(), HostFault> {
        let answer = write_whole(&mut io::writer(self.rt), bytes);
        self.counted(answer)
    }
}
