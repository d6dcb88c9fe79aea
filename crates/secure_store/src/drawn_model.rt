// A small model of a secure store, with which drawn calls are compared: a table of a few keys, by
// the rules of the store, without ciphers and records.
ghost use Rattle.std.specs.Prelude.{◌<◌};

use kv_model::{Flags, Got, Info, KvError};

/// What is asked of a store and of the model. A key is a place in the table of names.
#[derive(Clone, Copy, Debug, PartialEq, Eq)]
pub(crate) enum Request {
    Get { key: u32, offset: u32 },
    Info { key: u32 },
    Set { key: u32, value: Text, flags: Flags },
    Start { key: u32, size: u32, flags: Flags },
    RemoveStart { key: u32 },
    Add { value: Text },
    Finish,
    Abort,
    Remove { key: u32 },
    Reset,
    Open { n: u8, prefix: u32 },
    Next { n: u8 },
    Close { n: u8 },
}

/// What is answered. Of a value and of a key the front is shown, with zeros behind it.
#[derive(Clone, Copy, Debug, PartialEq, Eq)]
pub(crate) enum Answer {
    Done,
    Read { got: Got, bytes: [u8; 8] },
    Facts { info: Info },
    Found { size: u8, bytes: [u8; 16] },
    End,
    Refused { error: KvError },
}

/// The keys in the order in which iterators give them, which is that of their CRCs: 17.., 25..,
/// 61.., 68.., 8e.. and d3... The last two are none.
pub(crate) fn name(key: u32) -> &'static [u8] {
    match key {
        0 => b"a",
        1 => b"boot.count",
        2 => b"ab",
        3 => b"cert.pem",
        4 => b"b",
        5 => b"ba",
        6 => b"TDBS",
        _ => b"a/b",
    }
}

/// Prefixes, of which the last is none.
pub(crate) fn prefix(number: u32) -> &'static [u8] {
    match number {
        0 => b"",
        1 => b"a",
        2 => b"b",
        _ => b"a/",
    }
}

/// A value of at most 24 bytes.
#[derive(Clone, Copy, Debug, PartialEq, Eq)]
pub(crate) struct Text {
    bytes: [u8; 24],
    size: u32,
}

impl Text {
    pub(crate) fn new(bytes: &[u8]) -> Text {
        let mut text = Text {
            bytes: [0; 24],
            size: 0,
        };
        text.extend(bytes);
        text
    }

    /// So many bytes, each one above the one before.
    pub(crate) fn rising(first: u8, size: u32) -> Text {
        let mut text = Text::new(b"");
        for at in 0..24u8 {
            if (at as u32) < size {
                text.extend(&[first.wrapping_add(at)]);
            }
        }
        text
    }

    pub(crate) fn as_slice(&self) -> &[u8] {
        &self.bytes[..(self.size as usize).min(24)]
    }

    // Appends what there is room for.
    fn extend(&mut self, bytes: &[u8]) {
        for byte in bytes {
            if self.size < 24 {
                self.bytes[self.size as usize] = *byte;
                self.size += 1;
            }
        }
    }

    // The eight bytes from here on, with zeros behind the value.
    fn part(&self, offset: u32) -> [u8; 8] {
        let mut bytes = [0; 8];
        for (byte, stored) in bytes
            .iter_mut()
            .zip(self.as_slice().iter().skip(offset as usize))
        {
            *byte = *stored;
        }
        bytes
    }
}

/// What the two stores have of a key, and what the key shows.
#[derive(Clone, Copy, Debug, PartialEq, Eq)]
pub(crate) struct Slot {
    /// How many bytes the primary store has.
    pub(crate) sealed: Option<u32>,
    /// How many bytes the rollback store has.
    pub(crate) tag: Option<u32>,
    pub(crate) is_once: bool,
    /// Why a read is refused, if it is.
    pub(crate) refusal: Option<KvError>,
    pub(crate) flags: Flags,
    pub(crate) value: Text,
}

// A set or a remove that is begun.
#[derive(Clone, Copy, Debug, PartialEq, Eq)]
struct Begun {
    owner: u8,
    key: u32,
    size: u32,
    flags: Flags,
    value: Text,
    is_remove: bool,
}

// An iterator, which has given the keys before this one.
#[derive(Clone, Copy, Debug, PartialEq, Eq)]
struct Walk {
    prefix: u32,
    place: u32,
}

/// The room of the two stores, in bytes.
#[derive(Clone, Copy, Debug, PartialEq, Eq)]
pub(crate) struct Rooms {
    pub(crate) primary: u32,
    pub(crate) rollback: u32,
}

/// A secure store of six keys, two callers and ten iterators of each.
#[derive(Drop)]
pub(crate) struct Table {
    slots: [Slot; 6],
    begun: Option<Begun>,
    walks: [Option<Walk>; 20],
    rooms: Rooms,
    /// The next number.
    pub(crate) number: u64,
}

fn is_mirrored(flags: Flags) -> bool {
    flags.bits & 9 != 0
}

// How many bytes the record of a value takes: its header, and key and value in whole units of 32.
fn record(key: u32, size: u32) -> u32 {
    let bytes = size.saturating_add(name(key).len().min(128) as u32);
    bytes.div_ceil(32).saturating_mul(32).saturating_add(32)
}

fn check_room(used: u32, more: u32, room: u32) -> Result<(), KvError> {
    let need = used.saturating_add(more);
    if need > room {
        return Err(KvError::MediaFull { need, room });
    }
    Ok(())
}

// The place of a caller's iterator in the table.
fn place_of(who: u8, n: u8) -> usize
    ensures { result < 20 }
{
    let number = (n as usize).min(9);
    if who == 1 { number } else { number + 10 }
}

impl Table {
    /// A store that has this of `cert.pem`, and no other key.
    pub(crate) fn new(slot: Slot, rooms: Rooms, number: u64) -> Table {
        let absent = Slot {
            sealed: None,
            tag: None,
            is_once: false,
            refusal: Some(KvError::NotFound),
            flags: Flags::NONE,
            value: Text::new(b""),
        };
        let mut slots = [absent; 6];
        slots[3] = slot;
        Table {
            slots,
            begun: None,
            walks: [None; 20],
            rooms,
            number,
        }
    }

    /// What the two stores have of a key.
    pub(crate) fn slot(&self, key: u32) -> Result<Slot, KvError> {
        match self.slots.get(key as usize) {
            Some(slot) => Ok(*slot),
            None => Err(KvError::InvalidKey),
        }
    }

    // What is read of a key, whose slot is given where it shows a value.
    fn shown(&self, key: u32) -> Result<Slot, KvError> {
        let slot = self.slot(key)?;
        match slot.refusal {
            None => Ok(slot),
            Some(error) => Err(error),
        }
    }

    fn read(&self, key: u32, offset: u32) -> Result<Answer, KvError> {
        let slot = self.shown(key)?;
        if offset > slot.value.size {
            return Err(KvError::InvalidSize);
        }
        let got = Got {
            flags: slot.flags,
            size: slot.value.size,
            read: slot.value.size.saturating_sub(offset).min(8),
        };
        let bytes = slot.value.part(offset);
        Ok(Answer::Read { got, bytes })
    }

    fn facts(&self, key: u32) -> Result<Answer, KvError> {
        let slot = self.shown(key)?;
        let info = Info {
            flags: slot.flags,
            size: slot.value.size,
        };
        Ok(Answer::Facts { info })
    }

    // What the records of the primary store take.
    fn used(&self) -> u32 {
        let mut used: u32 = 0;
        for key in 0..6 {
            if let Some(size) = self.slots[key as usize].sealed {
                used = used.saturating_add(record(key, size));
            }
        }
        used
    }

    // The same of the rollback store.
    fn used_beside(&self) -> u32 {
        let mut used: u32 = 0;
        for key in 0..6 {
            if let Some(size) = self.slots[key as usize].tag {
                used = used.saturating_add(record(key, size));
            }
        }
        used
    }

    fn check_free(&self, who: u8) -> Result<(), KvError> {
        match self.begun {
            None => Ok(()),
            Some(begun) => {
                if begun.owner == who {
                    return Err(KvError::SetOpen);
                }
                Err(KvError::Busy { owner: begun.owner })
            }
        }
    }

    fn check_set(&self, who: u8, key: u32, size: u32, flags: Flags) -> Result<(), KvError> {
        let slot = self.slot(key)?;
        if flags.bits >= 16 || flags.bits & 4 != 0 {
            return Err(KvError::InvalidFlags);
        }
        if size > 65_536 {
            return Err(KvError::InvalidSize);
        }
        self.check_free(who)?;
        if slot.is_once {
            return Err(KvError::WriteProtected);
        }
        if slot.tag.is_some() && !is_mirrored(flags) {
            return Err(KvError::InvalidFlags);
        }
        if flags.bits != 0 && self.number == u64::MAX {
            return Err(KvError::IvSpent);
        }
        let more = record(key, size.saturating_add(56));
        check_room(self.used(), more, self.rooms.primary)?;
        if is_mirrored(flags) {
            check_room(self.used_beside(), record(key, 16), self.rooms.rollback)?;
        }
        Ok(())
    }

    fn take_number(&mut self, flags: Flags) {
        if flags.bits != 0 {
            self.number = self.number.saturating_add(1);
        }
    }

    fn put(&mut self, key: u32, value: Text, flags: Flags) {
        if let Some(slot) = self.slots.get_mut(key as usize) {
            *slot = Slot {
                sealed: Some(value.size.saturating_add(56)),
                tag: if is_mirrored(flags) { Some(16) } else { None },
                is_once: flags.bits & 1 != 0,
                refusal: None,
                flags,
                value,
            };
        }
    }

    fn set(&mut self, who: u8, key: u32, value: Text, flags: Flags) -> Result<Answer, KvError> {
        self.check_set(who, key, value.size, flags)?;
        self.take_number(flags);
        self.put(key, value, flags);
        Ok(Answer::Done)
    }

    fn start(&mut self, who: u8, key: u32, size: u32, flags: Flags) -> Result<Answer, KvError> {
        self.check_set(who, key, size, flags)?;
        self.take_number(flags);
        self.begun = Some(Begun {
            owner: who,
            key,
            size,
            flags,
            value: Text::new(b""),
            is_remove: false,
        });
        Ok(Answer::Done)
    }

    fn check_remove(&self, who: u8, key: u32) -> Result<(), KvError> {
        let slot = self.slot(key)?;
        self.check_free(who)?;
        if slot.sealed.is_none() && slot.tag.is_none() {
            return Err(KvError::NotFound);
        }
        if slot.is_once {
            return Err(KvError::WriteProtected);
        }
        Ok(())
    }

    fn take_away(&mut self, key: u32) {
        if let Some(slot) = self.slots.get_mut(key as usize) {
            slot.sealed = None;
            slot.tag = None;
            slot.is_once = false;
            slot.refusal = Some(KvError::NotFound);
        }
    }

    fn remove(&mut self, who: u8, key: u32) -> Result<Answer, KvError> {
        self.check_remove(who, key)?;
        self.take_away(key);
        Ok(Answer::Done)
    }

    fn start_remove(&mut self, who: u8, key: u32) -> Result<Answer, KvError> {
        self.check_remove(who, key)?;
        self.begun = Some(Begun {
            owner: who,
            key,
            size: 0,
            flags: Flags::NONE,
            value: Text::new(b""),
            is_remove: true,
        });
        Ok(Answer::Done)
    }

    fn own(&self, who: u8) -> Result<Begun, KvError> {
        match self.begun {
            Some(begun) if begun.owner == who => Ok(begun),
            _ => Err(KvError::NoSet),
        }
    }

    fn add(&mut self, who: u8, value: Text) -> Result<Answer, KvError> {
        let mut begun = self.own(who)?;
        if begun.value.size.saturating_add(value.size) > begun.size {
            return Err(KvError::InvalidSize);
        }
        begun.value.extend(value.as_slice());
        self.begun = Some(begun);
        Ok(Answer::Done)
    }

    fn finish(&mut self, who: u8) -> Result<Answer, KvError> {
        let begun = self.own(who)?;
        self.begun = None;
        if begun.is_remove {
            self.take_away(begun.key);
            return Ok(Answer::Done);
        }
        if begun.value.size < begun.size {
            return Err(KvError::InvalidSize);
        }
        self.put(begun.key, begun.value, begun.flags);
        Ok(Answer::Done)
    }

    fn abort(&mut self, who: u8) -> Result<Answer, KvError> {
        self.own(who)?;
        self.begun = None;
        Ok(Answer::Done)
    }

    fn reset(&mut self, who: u8) -> Result<Answer, KvError> {
        self.check_free(who)?;
        for key in 0..6 {
            self.take_away(key);
        }
        Ok(Answer::Done)
    }

    // How many iterators are open.
    fn active(&self) -> u32 {
        let mut active: u32 = 0;
        for walk in self.walks.iter() {
            if walk.is_some() {
                active = active.saturating_add(1);
            }
        }
        active
    }

    fn open(&mut self, who: u8, n: u8, prefix: u32) -> Result<Answer, KvError> {
        if prefix >= 3 {
            return Err(KvError::InvalidKey);
        }
        let place = place_of(who, n);
        if self.active() >= 16 && self.walks[place].is_none() {
            return Err(KvError::TooManyIterators);
        }
        self.walks[place] = Some(Walk { prefix, place: 0 });
        Ok(Answer::Done)
    }

    // The first key of the primary store with this prefix, from a place on.
    fn first_from(&self, prefix_number: u32, place: u32) -> Option<u32> {
        for key in 0..6 {
            let is_new = key >= place && self.slots[key as usize].sealed.is_some();
            if is_new && name(key).starts_with(prefix(prefix_number)) {
                return Some(key);
            }
        }
        None
    }

    fn next(&mut self, who: u8, n: u8) -> Result<Answer, KvError> {
        let place = place_of(who, n);
        let Some(walk) = self.walks[place] else {
            return Err(KvError::NoIterator);
        };
        let Some(key) = self.first_from(walk.prefix, walk.place) else {
            return Ok(Answer::End);
        };
        self.walks[place] = Some(Walk {
            prefix: walk.prefix,
            place: key.saturating_add(1),
        });
        Ok(found(name(key)))
    }

    fn close(&mut self, who: u8, n: u8) -> Result<Answer, KvError> {
        let place = place_of(who, n);
        if self.walks[place].is_none() {
            return Err(KvError::NoIterator);
        }
        self.walks[place] = None;
        Ok(Answer::Done)
    }

    fn try_answer(&mut self, who: u8, request: &Request) -> Result<Answer, KvError> {
        match *request {
            Request::Get { key, offset } => self.read(key, offset),
            Request::Info { key } => self.facts(key),
            Request::Set { key, value, flags } => self.set(who, key, value, flags),
            Request::Start { key, size, flags } => self.start(who, key, size, flags),
            Request::RemoveStart { key } => self.start_remove(who, key),
            Request::Add { value } => self.add(who, value),
            Request::Finish => self.finish(who),
            Request::Abort => self.abort(who),
            Request::Remove { key } => self.remove(who, key),
            Request::Reset => self.reset(who),
            Request::Open { n, prefix } => self.open(who, n, prefix),
            Request::Next { n } => self.next(who, n),
            Request::Close { n } => self.close(who, n),
        }
    }

    /// Makes a call of a caller, who is 1 or 2.
    pub(crate) fn answer(&mut self, who: u8, request: &Request) -> Answer {
        match self.try_answer(who, request) {
            Ok(answer) => answer,
            Err(error) => Answer::Refused { error },
        }
    }
}

/// What is answered where an iterator gives this key.
pub(crate) fn found(key: &[u8]) -> Answer {
    let size = key.len().min(16);
    let mut bytes = [0; 16];
    bytes[..size].copy_from_slice(&key[..size]);
    Answer::Found {
        size: size as u8,
        bytes,
    }
}
