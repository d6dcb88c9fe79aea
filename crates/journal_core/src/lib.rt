//! The journal of a run: completed calls with their replies, in order, and their printed form.
#![tactic(auto)]

mod journal;
mod laws;
mod text;

pub use journal::Journal;
pub use laws::text_by_client_is_one_in_every_schedule;

#[cfg(test)]
mod tests {
    use super::*;
    use kv_model::{Bytes, Call, Flags, KvError, Reply};
    use std::alloc::Global;
    use std::test::Fail;

    // One journal with a reply of each form, and its lines.
    #[test]
    fn each_form_of_reply(rt: HostRuntime) -> Result<(), Fail> {
        let alloc = rt.alloc();
        let mut journal = Journal::new(alloc);
        for (who, reply) in replies(alloc)? {
            journal.reserve().expect(&rt, "memory");
            assert!(rt; journal.entries().len() < 100);
            journal.append(who, Call::Finish, reply);
        }
        let text = journal.text(alloc).expect(&rt, "memory");
        let wanted =
            "1 1 ok\n1 2 ok 00ff\n2 1 ok -\n1 3 ok 3 wcr\n1 4 ok 39 -\n2 2 key cfg.00\n2 3 end\n\
            1 5 error 6 media-full need 65504 room 65496\n3 1 error 11 busy 1\n\
            3 2 error 15 corrupt 0000000f 174841bc\n3 3 error 1 not-found\n";
        assert_eq!(rt; text.as_slice(), wanted.as_bytes());
        Ok(())
    }

    // Appends an entry where there is memory.
    fn append(journal: &mut Journal, who: u8, reply: Reply) -> bool {
        if journal.reserve().is_err() || journal.entries().len() >= 100 {
            return false;
        }
        journal.append(who, Call::Finish, reply);
        true
    }

    // Whoever had the turn first, each client's lines come together, those of mounts first.
    #[test]
    fn clients_in_turn(rt: HostRuntime) -> Result<(), Fail> {
        let alloc = rt.alloc();
        let mut journal = Journal::new(alloc);
        for who in [2, 16, 0, 4, 2, 3, 0, 16, 3, 4].iter() {
            let reply = if *who == 3 { Reply::End } else { Reply::Done };
            assert!(rt; append(&mut journal, *who, reply));
        }
        let text = journal.by_client(alloc).expect(&rt, "memory");
        let wanted =
            "0 1 ok\n0 2 ok\n2 1 ok\n2 2 ok\n3 1 end\n3 2 end\n4 1 ok\n4 2 ok\n16 1 ok\n16 2 ok\n";
        assert_eq!(rt; text.as_slice(), wanted.as_bytes());
        let cases: [(u8, &[u32]); 4] = [(0, &[3, 7]), (2, &[1, 5]), (16, &[2, 8]), (1, &[])];
        for (who, positions) in cases.iter() {
            let found = journal.of_client(alloc, *who).expect(&rt, "memory");
            assert_eq!(rt; found.as_slice(), *positions);
        }
        Ok(())
    }

    // What clients 1 to 4 print: client 1 sets a value of 4,000 bytes in pieces and reads it, and
    // each other client sets a byte and reads it.
    fn four_clients(alloc: Global) -> Result<Vec<u8>, Fail> {
        let mut text = Vec::new(alloc);
        for i in 1..43_u32 {
            let line = format!(in alloc; "1 {i} ok\n")?;
            text.extend_from_slice(line.as_bytes())?;
        }
        text.extend_from_slice(b"1 43 ok ")?;
        text.extend_from_slice(&[b'1'; 8000])?;
        text.extend_from_slice(b"\n2 1 ok\n2 2 ok 02\n3 1 ok\n3 2 ok 03\n4 1 ok\n4 2 ok 04\n")?;
        Ok(text)
    }

    // The reply to a client's next call there.
    fn reply_to(alloc: Global, who: u8, made: usize) -> Result<Reply, Fail> {
        if who == 1 && made == 42 {
            let bytes = Bytes::new(alloc, &[0x11; 4000])?;
            return Ok(Reply::Value { bytes });
        }
        if who > 1 && made == 1 {
            let bytes = Bytes::new(alloc, &[who])?;
            return Ok(Reply::Value { bytes });
        }
        Ok(Reply::Done)
    }

    // Whatever the schedule, four clients print the same: client 1 has its 43 calls among those of
    // the others.
    #[test]
    fn one_text_in_each_schedule(rt: HostRuntime) -> Result<(), Fail> {
        let alloc = rt.alloc();
        let wanted = four_clients(alloc)?;
        let schedules: [[u8; 8]; 3] = [
            [1, 2, 2, 3, 3, 4, 4, 0],
            [4, 3, 2, 2, 3, 4, 0, 1],
            [3, 4, 0, 4, 2, 1, 3, 2],
        ];
        for schedule in schedules.iter() {
            let mut journal = Journal::new(alloc);
            for turn in schedule.iter() {
                // client 1 has one call in its own turn, and the others where 0 stands
                let (who, calls) = if *turn == 0 { (1, 42) } else { (*turn, 1) };
                for _ in 0..calls {
                    let made = journal.of_client(alloc, who).expect(&rt, "memory").len();
                    let reply = reply_to(alloc, who, made)?;
                    assert!(rt; append(&mut journal, who, reply));
                }
            }
            let text = journal.by_client(alloc).expect(&rt, "memory");
            assert_eq!(rt; text.as_slice(), wanted.as_slice());
        }
        Ok(())
    }

    fn facts(size: u32, bits: u32) -> Reply {
        let flags = Flags { bits };
        Reply::Facts { size, flags }
    }

    fn refused(error: KvError) -> Reply {
        Reply::Refused { error }
    }

    fn replies(alloc: Global) -> Result<Vec<(u8, Reply)>, Fail> {
        let bytes = Bytes::new(alloc, &[0x00, 0xFF])?;
        let empty = Bytes::empty(alloc);
        let key = Bytes::new(alloc, b"cfg.00")?;
        let full = KvError::MediaFull {
            need: 65504,
            room: 65496,
        };
        let corrupt = KvError::Corrupt {
            stored: 15,
            computed: 0x1748_41BC,
        };
        Ok(vec![in alloc;
            (1, Reply::Done),
            (1, Reply::Value { bytes }),
            (2, Reply::Value { bytes: empty }),
            (1, facts(3, 11)),
            (1, facts(39, 0)),
            (2, Reply::Found { key }),
            (2, Reply::End),
            (1, refused(full)),
            (3, refused(KvError::Busy { owner: 1 })),
            (3, refused(corrupt)),
            (3, refused(KvError::NotFound)),
        ]?)
    }
}
