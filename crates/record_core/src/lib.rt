//! Records on flash: their CRC, sizes and headers, and how they are written to a device.
//!
//! A record is a header of 24 bytes in whole program units, and behind it its payload, the key and
//! then the value, in whole program units too; padding is 0xFF. An area begins with a master
//! record, which has a version; the area's records follow, each directly behind the one before. The
//! definitions in specs/ say which bytes are a record, what an image of two areas holds, and the
//! map to which it mounts. Sizes and places are in bytes. No call takes memory.
//!
//! A reader answers a record or a master record exactly where one stands, whatever bytes the device
//! has: it tests the header, the key, the CRC and each byte of padding. A value is read in pieces,
//! so a small buffer serves each size.
#![tactic(auto)]

mod checksum;
mod cuts;
mod header;
mod laws;
mod lookup;
mod payload;
mod range;
mod reader;
mod shifts;
mod size;
mod writer;

pub use checksum::{CRC_START, crc, hash_of};
pub use cuts::{
    begun_record_is_whole_or_unseen, chance_or_first_break, contents_survive_elsewhere,
    erased_area_stays_unseen, every_image_mounts, format_stays_empty,
    master_write_is_whole_or_unseen, record_write_is_whole_or_unseen,
    renewed_area_is_whole_or_unseen, torn_header_is_whole_or_unseen,
    torn_master_is_whole_or_unseen, writes_leave_one_of_two_maps,
};
pub use header::{HEADER_SIZE, Header, REMOVE, crc_of_front, read_header, write_header};
pub use laws::{
    last_record_decides, mounts_once, readers_have_one_answer, record_example,
    records_are_unambiguous, records_go_on, records_stand_where_programmed,
};
pub use lookup::{KeyedHeader, broken_header, read_header_at, read_key_at, read_keyed_header_at};
pub use range::{crc_of_piece, crc_of_range, is_erased_range, read_part};
pub use reader::{read_master, read_record};
pub use size::{padded_size, size_of_record};
pub use writer::{write_master, write_record};

#[cfg(test)]
mod reader_tests;
#[cfg(test)]
mod tests;
#[cfg(test)]
mod writer_tests;
