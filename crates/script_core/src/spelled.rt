// A line as its words spell it. Only making the bytes that it stands for takes memory, so that everything else about a
// line is tested before.
ghost use Rattle.std.specs.Prelude.{◌≡◌, IfOk};
ghost use Rattle.script_core.specs.Spelled.{spelled_call, spelled_act, spelled_line};

use crate::digits::Digits;
use crate::line::{Act, Line, Side};
use kv_model::{Bytes, Call, Flags, NoMemory, Pattern};
use std::alloc::Global;

// A call, with words in place of bytes.
#[derive(Drop)]
pub(crate) enum SpelledCall<'a> {
    Get {
        key: &'a [u8],
    },
    Part {
        key: &'a [u8],
        offset: u32,
        count: u32,
    },
    Info {
        key: &'a [u8],
    },
    Set {
        key: &'a [u8],
        digits: Digits<'a>,
        flags: Flags,
    },
    Remove {
        key: &'a [u8],
    },
    Start {
        key: &'a [u8],
        size: u32,
        flags: Flags,
    },
    Add {
        digits: Digits<'a>,
    },
    IterOpen {
        n: u8,
        prefix: &'a [u8],
    },
    // A call of no bytes.
    Whole {
        call: Call,
    },
}

// What a line asks for.
#[derive(Drop)]
pub(crate) enum SpelledAct<'a> {
    Do {
        call: SpelledCall<'a>,
    },
    Cut {
        side: Side,
        n: u32,
        pattern: Pattern,
    },
}

#[derive(Drop)]
pub(crate) struct SpelledLine<'a> {
    pub(crate) who: u8,
    pub(crate) act: SpelledAct<'a>,
}

impl SpelledCall<'_> {
    // The call, with copies of its words.
    fn copied(self, alloc: Global) -> Result<Call, NoMemory>
        ensures { IfOk result (λ call. call ≡ spelled_call self.entry) }
    {
        Ok(match self {
            SpelledCall::Get { key } => Call::Get {
                key: Bytes::new(alloc, key)?,
            },
            SpelledCall::Part { key, offset, count } => Call::Part {
                key: Bytes::new(alloc, key)?,
                offset,
                count,
            },
            SpelledCall::Info { key } => Call::Info {
                key: Bytes::new(alloc, key)?,
            },
            SpelledCall::Set { key, digits, flags } => Call::Set {
                key: Bytes::new(alloc, key)?,
                value: digits.decoded(alloc)?,
                flags,
            },
            SpelledCall::Remove { key } => Call::Remove {
                key: Bytes::new(alloc, key)?,
            },
            SpelledCall::Start { key, size, flags } => Call::Start {
                key: Bytes::new(alloc, key)?,
                size,
                flags,
            },
            SpelledCall::Add { digits } => Call::Add {
                value: digits.decoded(alloc)?,
            },
            SpelledCall::IterOpen { n, prefix } => Call::IterOpen {
                n,
                prefix: Bytes::new(alloc, prefix)?,
            },
            SpelledCall::Whole { call } => call,
        })
    }
}

impl SpelledAct<'_> {
    // The act, with copies of its words.
    fn copied(self, alloc: Global) -> Result<Act, NoMemory>
        ensures { IfOk result (λ act. act ≡ spelled_act self.entry) }
    {
        Ok(match self {
            SpelledAct::Do { call } => Act::Do {
                call: call.copied(alloc)?,
            },
            SpelledAct::Cut { side, n, pattern } => Act::Cut { side, n, pattern },
        })
    }
}

impl SpelledLine<'_> {
    // The line, with copies of its words. It refuses for want of memory alone.
    pub(crate) fn copied(self, alloc: Global) -> Result<Line, NoMemory>
        ensures { IfOk result (λ line. line ≡ spelled_line self.entry) }
    {
        let SpelledLine { who, act } = self;
        let act = act.copied(alloc)?;
        Ok(Line { who, act })
    }
}
