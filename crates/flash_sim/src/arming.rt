// A chip armed to be torn, and what it tells of a tear.
ghost use Rattle.std.specs.Prelude.{◌≡◌, ◌≤◌, ◌<◌, ◌+◌, ◌-◌, ◌++◌, length, false, replicate, vec_capacity, IfOk};
ghost use Rattle.flash_sim.specs.ChipState.{is_due, one_less};

use base_core::NoMemory;
use kv_model::Pattern;
use std::alloc::Global;
use std::marker::Model;

/// A program or erase that was torn: the place of its range, the bytes there before it, and those
/// that a whole call would have left there.
#[derive(Drop)]
pub struct Tear {
    pub place: u32,
    pub before: Vec<u8>,
    pub after: Vec<u8>,
}

/// A tear to come: at which write from now, with which pattern, and the memory that the tear will
/// take.
#[derive(Drop)]
pub struct Arming {
    left: u32,
    pattern: Pattern,
    before: Vec<u8>,
    after: Vec<u8>,
}

impl Model for Arming {
    ghost use Rattle.std.specs.Prelude.{◌≡◌, ◌≤◌, [], length, replicate, vec_capacity};
    ghost use Rattle.flash_sim.specs.ChipState.{ArmState};

    ghost Value = { ArmState };

    ghost view = { λ a. record {
      left = a.left;
      pattern = a.pattern;
      room = length a.after.items;
    } };

    ghost invariant = { λ a. record {
      empty : a.before.items ≡ [];
      room : length a.after.items ≤ vec_capacity a.before;
      erased : a.after.items ≡ replicate (length a.after.items) 255;
    } };
}

// Bytes behind others, for which there is room.
fn append(bytes: &mut Vec<u8>, more: &[u8])
    requires { length bytes.old.items + length more.now ≤ vec_capacity bytes.old }
    ensures { bytes.new.items ≡ bytes.old.items ++ more.now }
{
    let _ = bytes.extend_from_slice(more);
}

impl Arming {
    /// To be torn at the n-th write from now, with memory for ranges of so many bytes.
    pub fn new(alloc: Global, n: u32, pattern: Pattern, room: usize) -> Result<Arming, NoMemory>
        ensures { IfOk result (λ a. a ≡ record { left = n; pattern = pattern; room = room }) }
    {
        Ok(Arming {
            left: n,
            pattern,
            before: Vec::with_capacity(alloc, room)?,
            after: vec![in alloc; 0xFF; room]?,
        })
    }

    /// Whether the next write is the one.
    pub fn is_due(&self) -> bool
        ensures { result ≡ is_due self.now }
    {
        self.left <= 1
    }

    /// One write less to go.
    pub fn count_down(&mut self)
        requires { is_due self.old ≡ false }
        ensures { self.new ≡ one_less self.old }
    {
        self.left -= 1;
    }

    /// How the range is left.
    pub fn pattern(&self) -> Pattern
        ensures { result ≡ self.now.pattern }
    {
        self.pattern
    }

    /// The tear of a program, whose range has these bytes before it and would have these behind it.
    pub fn into_program(self, place: u32, before: &[u8], after: &[u8]) -> Tear
        requires before { length before.now ≤ self.room }
        requires after { length after.now ≤ self.room }
        ensures place { result.place ≡ place }
        ensures before { result.before.items ≡ before.now }
        ensures after { result.after.items ≡ after.now }
    {
        let mut tear = self.into_erase(place, before);
        tear.after.clear();
        append(&mut tear.after, after);
        tear
    }

    /// The tear of an erase, whose range has these bytes before it.
    pub fn into_erase(self, place: u32, before: &[u8]) -> Tear
        requires { length before.now ≤ self.room }
        ensures place { result.place ≡ place }
        ensures before { result.before.items ≡ before.now }
        ensures after { result.after.items ≡ replicate self.room 255 }
        ensures room { self.room ≤ vec_capacity result.after }
    {
        let mut tear = Tear {
            place,
            before: self.before,
            after: self.after,
        };
        append(&mut tear.before, before);
        tear
    }
}
