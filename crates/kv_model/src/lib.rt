//! The model of a key-value store, and the types that its callers and its layers share: keys,
//! flags, calls, replies, refusals. The definitions in specs/ say what a store may answer.
#![tactic(auto)]

mod bytes;
mod call;
mod calling;
mod error;
mod examples;
mod flags;
mod key;
mod kv;
mod laws;
mod limits;
mod next_examples;
mod next_laws;
mod order_laws;
mod pattern;
mod size_laws;

pub use base_core::NoMemory;
pub use bytes::Bytes;
pub use call::{Call, Entry, Got, Info, Reply};
pub use calling::perform;
pub use error::KvError;
pub use examples::{
    empty_value, full_store, get_beside_an_open_set, iterator_beside_changes, iterators_by_number,
    refusals_beside_an_open_set, set_then_get, sixteen_iterators, write_once,
};
pub use flags::Flags;
pub use key::{Key, is_key, is_prefix};
pub use kv::{Armable, Kv};
pub use laws::{
    a_stopped_store_refuses, crc_values, history_goes_on, key_order_is_total, limits_are_kept,
    record_sizes, room_is_kept, writes_stand_for_the_map,
};
pub use limits::{MAX_ITERATORS, MAX_KEY, MAX_VALUE};
pub use next_examples::{
    hash_bits_order_keys, iteration_in_a_history, iterator_with_equal_hashes, prefix_limits_keys,
};
pub use next_laws::{iterators_give_each_key_once, next_key_is_least};
pub use order_laws::{entries_are_lines, two_clients};
pub use pattern::Pattern;
pub use size_laws::{used_counts_each_key, used_of_two_keys};

#[cfg(test)]
mod tests {
    use super::*;
    use std::test::Fail;

    // The rules on keys, at their limits.
    #[test]
    fn key_rules(rt: HostRuntime) -> Result<(), Fail> {
        let longest = [b'x'; 128];
        let too_long = [b'x'; 129];
        let cases: [(&[u8], bool); 7] = [
            (b"k", true),
            (b"!~", true),
            (&longest, true),
            (&too_long, false),
            (b"TDBS", false),
            (b"a/b", false),
            (b"", false),
        ];
        for (bytes, valid) in cases.iter() {
            assert_eq!(rt; Key::new(bytes).is_ok(), *valid);
        }
        let key = Key::new(b"cert.pem").expect(&rt, "a key");
        assert_eq!(rt; key.as_slice(), b"cert.pem".as_slice());
        Ok(())
    }

    #[test]
    fn bytes_are_copied(rt: HostRuntime) -> Result<(), Fail> {
        let bytes = Bytes::new(rt.alloc(), b"value").expect(&rt, "memory");
        assert_eq!(rt; bytes.as_slice(), b"value".as_slice());
        assert_eq!(rt; Bytes::empty(rt.alloc()).as_slice().len(), 0);
        Ok(())
    }
}
