// Finding keys of one letter, whose CRCs another program worked out, and a reader whose reads fail.
ghost use Rattle.std.specs.Prelude.{◌≡◌, ◌<◌, ◌≤◌, [], ◌∷◌, IfOk, IsTrue, true};
ghost use Rattle.std.specs.FinMap.{contains_key};
ghost use Rattle.kv_model.specs.Crc.{crc_of, key_hash};
ghost use Rattle.ram_table.specs.Find.{IsIndexOf};
ghost use Rattle.ram_table.specs.Letters.{letters, letters_state};

use super::*;
use kv_model::{Key, KvError, crc_values};
use std::alloc::Global;
use std::marker::Brand;
use std::process::Abort;
use std::sync::ledger::{Blank, Ledger};
use std::test::Fail;

// Tells the letters a, b and c, each at the offset of its code.
#[derive(Drop)]
struct Letters {
    hash_bits: u32,
}

#[tactic(auto, unfolding(kv_model::specs::Keys::is_key, kv_model::specs::Keys::is_prefix, kv_model::specs::Keys::is_key_byte))]
fn letter_key(letter: u32) -> Key
    requires { IsTrue (contains_key letters letter) }
    ensures { result ≡ letter ∷ [] }
{
    match letter {
        97 => Key::new(b"a").unwrap(),
        98 => Key::new(b"b").unwrap(),
        _ => Key::new(b"c").unwrap(),
    }
}

impl KeyReader for Letters {
    ghost use Rattle.std.specs.Prelude.{◌≡◌, [], ◌∷◌, refl};
    ghost use Rattle.std.proofs.Common.{◌∙◌};

    ghost state = { λ reader. letters_state reader.hash_bits };

    ghost may_follow = { λ a b. b ≡ a };

    ghost read_last = { λ _ offset key. key ≡ offset ∷ [] };

    fn key_at(&mut self, offset: u32, out: &mut Key) -> Result<(), KvError> {
        *out = letter_key(offset);
        Ok(())
    }

    ghost stays = { λ a. refl };

    ghost chains = { λ a b c first second. second ∙ first };
}

fn letter_crc(letter: u32) -> u32
    requires { IsTrue (contains_key letters letter) }
    ensures { result ≡ crc_of (letter ∷ []) }
{
    crc_values();
    match letter {
        97 => 0x1748_41BC,
        98 => 0x8E41_1006,
        _ => 0xF946_2090,
    }
}

fn hash_of(letter: u32, hash_bits: u32) -> u32
    requires letter { IsTrue (contains_key letters letter) }
    requires bits { hash_bits < 32 }
    ensures { result ≡ key_hash hash_bits (letter ∷ []) }
{
    letter_crc(letter) % (1 << hash_bits)
}

fn is_letter(letter: u32) -> bool
    ensures { result ≡ true → IsTrue (contains_key letters letter) }
{
    matches!(letter, 97..=99)
}

// Looks for a letter, and puts it into the table where it is absent.
fn put<L: Ledger>(
    rt: &impl Abort,
    table: &mut RamTable,
    reader: &mut Letters,
    letter: u8,
    steps: &mut Steps<L>,
) -> Result<Place, Fail>
    requires bits { reader.old.hash_bits < 32 }
    requires index { IsIndexOf reader.old.hash_bits letters table.old.entries }
    ensures bits { reader.new.hash_bits ≡ reader.old.hash_bits }
    ensures index { IfOk result (λ _. IsIndexOf reader.old.hash_bits letters table.new.entries) }
{
    let letter = letter as u32;
    assert!(rt; is_letter(letter));
    let hash = hash_of(letter, reader.hash_bits);
    let key = letter_key(letter);
    let place = table.find(reader, hash, &key, steps)?;
    if !place.found {
        table.reserve_one()?;
        table.insert(place.at, hash, letter);
    }
    Ok(place)
}

// The place of a letter in a table of the others, and the first place behind it there.
fn places_among<L: Ledger>(
    rt: &impl Abort,
    alloc: Global,
    blank: Blank,
    hash_bits: u32,
    others: &[u8],
    letter: u8,
) -> Result<(Place, u32), Fail>
    requires name { blank.name ≡ L.name }
    requires parts { blank.parts ≡ L.parts }
    requires some { 0 < blank.parts }
{
    assert!(rt; hash_bits < 32);
    assert!(rt; is_letter(letter as u32));
    let mut steps = Steps::<L>::new(blank);
    let mut reader = Letters { hash_bits };
    let mut table = RamTable::new(alloc);
    for other in others {
        put(rt, &mut table, &mut reader, *other, &mut steps)?;
    }
    let hash = hash_of(letter as u32, hash_bits);
    let after = table.place_after(&mut reader, hash, &letter_key(letter as u32))?;
    Ok((put(rt, &mut table, &mut reader, letter, &mut steps)?, after))
}

const PLACES: [(u32, &[u8], u8, u32, bool, u32); 10] = [
    (4, b"", b'a', 0, false, 0),
    (4, b"abc", b'c', 0, true, 1),
    (4, b"abc", b'b', 1, true, 2),
    (4, b"abc", b'a', 2, true, 3),
    (4, b"ba", b'c', 0, false, 0),
    (4, b"ca", b'b', 1, false, 1),
    (4, b"cb", b'a', 2, false, 2),
    (8, b"abc", b'b', 0, true, 1),
    (8, b"abc", b'c', 1, true, 2),
    (8, b"ba", b'c', 1, false, 1),
];

// With 4 bits the hashes of a, b and c are 12, 6 and 0; with 8 bits they are 188, 6 and 144.
#[test]
fn keys_are_in_the_order_of_their_hashes(rt: HostRuntime) -> Result<(), Fail> {
    for (hash_bits, others, letter, at, found, after) in PLACES.iter() {
        let places = places_among::<Brand>(
            &rt,
            rt.alloc(),
            Blank::new(1),
            *hash_bits,
            others,
            *letter,
        )?;
        assert_eq!(rt;
            places.0,
            Place {
                at: *at,
                found: *found
            }
        );
        assert_eq!(rt; places.1, *after);
    }
    Ok(())
}

const PLACES_OF_EQUAL_HASHES: [(&[u8], u8, u32, bool, u32); 6] = [
    (b"cba", b'a', 0, true, 1),
    (b"cba", b'b', 1, true, 2),
    (b"cba", b'c', 2, true, 3),
    (b"bc", b'a', 0, false, 0),
    (b"ac", b'b', 1, false, 1),
    (b"ab", b'c', 2, false, 2),
];

// With no bits all hashes are 0.
#[test]
fn equal_hashes_are_told_apart_by_keys(rt: HostRuntime) -> Result<(), Fail> {
    for (others, letter, at, found, after) in PLACES_OF_EQUAL_HASHES.iter() {
        let places = places_among::<Brand>(&rt, rt.alloc(), Blank::new(1), 0, others, *letter)?;
        assert_eq!(rt;
            places.0,
            Place {
                at: *at,
                found: *found
            }
        );
        assert_eq!(rt; places.1, *after);
    }
    Ok(())
}

// Tells no keys, and fails each read.
#[derive(Drop)]
struct Failing {
    faults: u64,
}

impl KeyReader for Failing {
    ghost use Rattle.std.specs.Prelude.{◌≡◌, ◌≤◌, refl};
    ghost use Rattle.std.proofs.Common.{arith};
    ghost use Rattle.ram_table.specs.Letters.{failing_state};

    ghost state = { λ reader. failing_state reader.faults };

    ghost may_follow = { λ a b. a.faults ≤ b.faults };

    ghost read_last = { λ _ _ _. Unit {0} };

    fn key_at(&mut self, _offset: u32, _out: &mut Key) -> Result<(), KvError> {
        self.faults = self.faults.saturating_add(1);
        Err(KvError::ReadFault)
    }

    ghost stays = { λ a. Prim.omega arith };

    ghost chains = { λ a b c first second. Prim.omega arith };
}

fn find_in_one<L: Ledger>(alloc: Global, blank: Blank, hash: u32) -> Result<Place, KvError>
    requires name { blank.name ≡ L.name }
    requires parts { blank.parts ≡ L.parts }
    requires some { 0 < blank.parts }
{
    let mut steps = Steps::<L>::new(blank);
    let mut table = RamTable::new(alloc);
    if table.reserve_one().is_err() {
        return Err(KvError::Memory);
    }
    table.insert(0, hash, 40);
    table.find(&mut Failing { faults: 0 }, 0, &letter_key(97), &mut steps)
}

// A key is read only where its hash is equal, and what the reader refuses is handed on.
#[test]
fn a_read_that_fails_is_handed_on(rt: HostRuntime) -> Result<(), Fail> {
    let equal = find_in_one::<Brand>(rt.alloc(), Blank::new(1), 0);
    assert!(rt; matches!(equal, Err(KvError::ReadFault)));
    let other = find_in_one::<Brand>(rt.alloc(), Blank::new(1), 1);
    assert!(rt;
        matches!(
            other,
            Ok(Place {
                at: 0,
                found: false
            })
        )
    );
    Ok(())
}

#[test]
fn entries_are_changed_in_room_that_was_reserved(rt: HostRuntime) -> Result<(), Fail> {
    let mut table = RamTable::new(rt.alloc());
    table.reserve(3).expect(&rt, "memory");
    table.insert(0, 12, 97);
    table.insert(0, 0, 99);
    table.insert(1, 6, 98);
    assert_eq!(rt; table.len(), 3);
    assert_eq!(rt; table.entry(1), (6, 98));
    table.replace(1, 40);
    table.remove(0);
    let mut other = RamTable::new(rt.alloc());
    other.reserve(3).expect(&rt, "memory");
    other.insert(0, 1, 2);
    other.shift_all(&table);
    other.reserve_one().expect(&rt, "memory");
    assert_eq!(rt; other.len(), 2);
    assert_eq!(rt; other.entry(0), (6, 40));
    assert_eq!(rt; other.entry(1), (12, 97));
    Ok(())
}

#[test]
fn a_counter_of_steps_takes_no_bytes(rt: HostRuntime) -> Result<(), Fail> {
    assert_eq!(rt; std::mem::size_of::<Steps<Brand>>(), 0);
    Ok(())
}
