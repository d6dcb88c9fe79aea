ghost use Rattle.std.specs.Prelude.{◌≡◌, ◌+◌, ◌<◌, ◌≤◌, ◌++◌, ◌∷◌, [], ℕ, length, slice_index, IfOk, OnOk, OnErr};
ghost use Rattle.journal_core.specs.Clients.{positions_of, text_by_client};
ghost use Rattle.journal_core.specs.JournalState.{next_entry};
ghost use Rattle.journal_core.specs.Texts.{text_of};

use crate::text::{push_entries, push_entries_by};
use kv_model::{Call, Entry, NoMemory, Reply};
use std::alloc::Global;
use std::marker::Model;

// The greatest number of a client.
const LAST_CLIENT: u8 = 16;

/// The completed calls of a run, in order. It numbers them, over all and for each client, without
/// walking its list.
#[derive(Drop)]
pub struct Journal {
    entries: Vec<Entry>,
    // how many entries each client has
    counts: [u32; 256],
}

impl Model for Journal {
    ghost use Rattle.std.specs.Prelude.{◌-◌, vec_len, vec_capacity};
    ghost use Rattle.journal_core.specs.JournalState.{JournalState, IsCounted};

    ghost Value = { JournalState };

    ghost view = { λ j. record {
      entries = j.entries.items;
      spare = vec_capacity j.entries - vec_len j.entries;
    } };

    ghost invariant = { λ j. IsCounted j.counts j.entries.items };
}

fn no_counts() -> [u32; 256]
    ensures { (who : ℕ) → slice_index result who ≡ 0 }
{
    [0; 256]
}

impl Journal {
    /// A journal with no entries. It takes no memory.
    pub fn new(alloc: Global) -> Journal
        ensures { result.entries ≡ [] }
    {
        Journal {
            entries: Vec::new(alloc),
            counts: no_counts(),
        }
    }

    /// Lends the entries.
    pub fn entries(&self) -> &[Entry]
        ensures { result.now ≡ self.now.entries }
    {
        &self.entries
    }

    /// Makes room for one entry more. It refuses for want of memory alone, and the entries stay in
    /// any case.
    pub fn reserve(&mut self) -> Result<(), NoMemory>
        ensures entries { self.new.entries ≡ self.old.entries }
        ensures spare { OnOk result (1 ≤ self.new.spare) }
    {
        Ok(self.entries.reserve(1)?)
    }

    /// Appends a completed call, with the next numbers.
    pub fn append(&mut self, who: u8, call: Call, reply: Reply)
        requires room { 1 ≤ self.old.spare }
        requires numbers { length self.old.entries < 4294967295 }
        ensures { self.new.entries
            ≡ self.old.entries ++ next_entry self.old.entries who call reply ∷ [] }
    {
        let entry = Entry {
            seq: self.entries.len() as u32 + 1,
            who,
            index: self.counts[who as usize] + 1,
            call,
            reply,
        };
        self.counts[who as usize] += 1;
        let _ = self.entries.push(entry);
    }

    /// The printed form of the entries, a line each. It refuses for want of memory alone.
    pub fn text(&self, alloc: Global) -> Result<Vec<u8>, NoMemory>
        ensures { IfOk result (λ text. text.items ≡ text_of self.now.entries) }
    {
        let mut text = Vec::new(alloc);
        push_entries(alloc, &mut text, &self.entries)?;
        Ok(text)
    }

    /// The positions of a client's entries, in order and counted from 1. It refuses for want of
    /// memory alone.
    pub fn of_client(&self, alloc: Global, who: u8) -> Result<Vec<u32>, NoMemory>
        ensures { IfOk result (λ positions. positions.items ≡ positions_of who self.now.entries) }
    {
        let mut positions = Vec::new(alloc);
        for (i, entry) in self.entries.iter().enumerate() {
            if entry.who == who {
                positions.push(i as u32 + 1)?;
            }
        }
        Ok(positions)
    }

    /// The printed form of the entries of client 0, then of 1, up to 16, a line each. It refuses
    /// for want of memory alone.
    pub fn by_client(&self, alloc: Global) -> Result<Vec<u8>, NoMemory>
        ensures { IfOk result (λ text. text.items ≡ text_by_client self.now.entries) }
    {
        let mut text = Vec::new(alloc);
        for who in 0..=LAST_CLIENT {
            push_entries_by(alloc, &mut text, who, &self.entries)?;
        }
        Ok(text)
    }
}
