// One line of a text, word by word. Nothing here takes memory.
ghost use Rattle.std.specs.Prelude.{◌≡◌, ◌≤◌, IfOk, IfSome};
ghost use Rattle.script_core.specs.Parts.{parts_left};
ghost use Rattle.script_core.specs.Reading.{GivesIt, GivesWord, GivesCall, GivesAct, GivesLine, lone_key_of, lone_number_of, part_of, set_of, start_of, add_of, open_of, value_call_of, bare, call_of, operator_act_of, act_of, line_of, ended_by};

use crate::error::Malformed;
use crate::parts::Parts;
use crate::spelled::{SpelledAct, SpelledCall, SpelledLine};
use crate::{cut, fields};
use kv_model::Call;

#[tactic(auto, unfolding(crate::specs::Reading::lone_key_of))]
fn lone_key<'a>(mut words: Parts<'a>) -> Result<&'a [u8], Malformed>
    ensures { GivesWord result (lone_key_of (parts_left words.entry)) }
{
    let key = fields::key(words.part()?)?;
    words.end()?;
    Ok(key)
}

// The number of an iterator.
#[tactic(auto, unfolding(crate::specs::Reading::lone_number_of))]
fn lone_number(mut words: Parts) -> Result<u8, Malformed>
    ensures { GivesIt result (lone_number_of (parts_left words.entry)) }
{
    let number = fields::number_up_to(255, words.part()?)?;
    words.end()?;
    Ok(number)
}

#[tactic(auto, unfolding(crate::specs::Reading::part_of))]
fn part<'a>(mut words: Parts<'a>) -> Result<SpelledCall<'a>, Malformed>
    ensures { GivesCall result (part_of (parts_left words.entry)) }
{
    let key = fields::key(words.part()?)?;
    let offset = fields::number(words.part()?)?;
    let count = fields::number(words.part()?)?;
    words.end()?;
    Ok(SpelledCall::Part { key, offset, count })
}

#[tactic(auto, unfolding(crate::specs::Reading::set_of))]
fn set<'a>(mut words: Parts<'a>) -> Result<SpelledCall<'a>, Malformed>
    ensures { GivesCall result (set_of (parts_left words.entry)) }
{
    let key = fields::key(words.part()?)?;
    let digits = fields::digits(words.part()?)?;
    let flags = fields::flags(words.part()?)?;
    words.end()?;
    Ok(SpelledCall::Set { key, digits, flags })
}

#[tactic(auto, unfolding(crate::specs::Reading::start_of))]
fn start<'a>(mut words: Parts<'a>) -> Result<SpelledCall<'a>, Malformed>
    ensures { GivesCall result (start_of (parts_left words.entry)) }
{
    let key = fields::key(words.part()?)?;
    let size = fields::number(words.part()?)?;
    let flags = fields::flags(words.part()?)?;
    words.end()?;
    Ok(SpelledCall::Start { key, size, flags })
}

#[tactic(auto, unfolding(crate::specs::Reading::add_of))]
fn add<'a>(mut words: Parts<'a>) -> Result<SpelledCall<'a>, Malformed>
    ensures { GivesCall result (add_of (parts_left words.entry)) }
{
    let digits = fields::digits(words.part()?)?;
    words.end()?;
    Ok(SpelledCall::Add { digits })
}

#[tactic(auto, unfolding(crate::specs::Reading::open_of))]
fn open<'a>(mut words: Parts<'a>) -> Result<SpelledCall<'a>, Malformed>
    ensures { GivesCall result (open_of (parts_left words.entry)) }
{
    let n = fields::number_up_to(255, words.part()?)?;
    let prefix = fields::prefix(words.part()?)?;
    words.end()?;
    Ok(SpelledCall::IterOpen { n, prefix })
}

#[tactic(auto, unfolding(crate::specs::Reading::value_call_of))]
fn value_call<'a>(verb: &[u8], words: Parts<'a>) -> Result<SpelledCall<'a>, Malformed>
    ensures { GivesCall result (value_call_of verb.now (parts_left words.entry)) }
{
    if verb == b"get".as_slice() {
        let key = lone_key(words)?;
        Ok(SpelledCall::Get { key })
    } else if verb == b"part".as_slice() {
        part(words)
    } else if verb == b"info".as_slice() {
        let key = lone_key(words)?;
        Ok(SpelledCall::Info { key })
    } else if verb == b"set".as_slice() {
        set(words)
    } else if verb == b"remove".as_slice() {
        let key = lone_key(words)?;
        Ok(SpelledCall::Remove { key })
    } else if verb == b"start".as_slice() {
        start(words)
    } else if verb == b"add".as_slice() {
        add(words)
    } else {
        Err(Malformed)
    }
}

fn bare<'a>(call: Call, words: Parts<'a>) -> Result<SpelledCall<'a>, Malformed>
    ensures { GivesCall result (bare call (parts_left words.entry)) }
{
    words.end()?;
    Ok(SpelledCall::Whole { call })
}

#[tactic(auto, unfolding(crate::specs::Reading::call_of))]
fn call<'a>(verb: &[u8], words: Parts<'a>) -> Result<SpelledCall<'a>, Malformed>
    ensures { GivesCall result (call_of verb.now (parts_left words.entry)) }
{
    if verb == b"finish".as_slice() {
        bare(Call::Finish, words)
    } else if verb == b"abort".as_slice() {
        bare(Call::Abort, words)
    } else if verb == b"open".as_slice() {
        open(words)
    } else if verb == b"next".as_slice() {
        let n = lone_number(words)?;
        Ok(SpelledCall::Whole {
            call: Call::Next { n },
        })
    } else if verb == b"close".as_slice() {
        let n = lone_number(words)?;
        Ok(SpelledCall::Whole {
            call: Call::IterClose { n },
        })
    } else if verb == b"reset".as_slice() {
        bare(Call::Reset, words)
    } else {
        value_call(verb, words)
    }
}

#[tactic(auto, unfolding(crate::specs::Reading::operator_act_of))]
fn operator_act<'a>(verb: &[u8], words: Parts<'a>) -> Result<SpelledAct<'a>, Malformed>
    ensures { GivesAct result (operator_act_of verb.now (parts_left words.entry)) }
{
    match verb {
        b"mount" => Ok(SpelledAct::Do {
            call: bare(Call::Mount, words)?,
        }),
        b"cut" => cut::lone_cut(words),
        _ => Err(Malformed),
    }
}

#[tactic(auto, unfolding(crate::specs::Reading::act_of))]
fn act<'a>(who: u8, verb: &[u8], words: Parts<'a>) -> Result<SpelledAct<'a>, Malformed>
    ensures { GivesAct result (act_of who verb.now (parts_left words.entry)) }
{
    if who == 0 {
        return operator_act(verb, words);
    }
    Ok(SpelledAct::Do {
        call: call(verb, words)?,
    })
}

#[tactic(auto, unfolding(crate::specs::Reading::line_of))]
pub(crate) fn line(text: &[u8]) -> Result<SpelledLine<'_>, Malformed>
    ensures line { GivesLine result (line_of text.now) }
    ensures who { IfOk result (λ line. line.who ≤ 16) }
{
    let mut words = Parts::new(b' ', text);
    let who = fields::number_up_to(16, words.part()?)?;
    let verb = words.part()?;
    let act = act(who, verb, words)?;
    Ok(SpelledLine { who, act })
}

// The client whose incremental set a line ends.
#[tactic(auto, unfolding(crate::specs::Reading::ended_by))]
pub(crate) fn ended_by(text: &[u8]) -> Option<u8>
    ensures client { result ≡ ended_by text.now }
    ensures who { IfSome result (λ who. who ≤ 16) }
{
    let mut words = Parts::new(b' ', text);
    let who = fields::number_up_to(16, words.part().ok()?).ok()?;
    let verb = words.part().ok()?;
    words.end().ok()?;
    if who > 0 && (verb == b"finish".as_slice() || verb == b"abort".as_slice()) {
        Some(who)
    } else {
        None
    }
}
