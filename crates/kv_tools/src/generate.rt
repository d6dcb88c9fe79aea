//! Scripts that are drawn from a number.
ghost use Rattle.std.specs.Prelude.{◌≡◌, ◌≤◌, ◌<◌, ℕ, List, IfOk, OnOk, replicate};
ghost use Rattle.flash_sim.specs.Patterns.{next_number};
ghost use Rattle.kv_tools.specs.Generating.{call_of, drawn, drawn_call, generated, key_of, line_at};
ghost use Rattle.kv_tools.specs.Generating.{number_behind};

use base_core::NoMemory;
use kv_model::{Bytes, Call, Flags};
use script_core::{Act, Line, Script};
use std::alloc::Global;

// The generator, at its last number.
#[derive(Clone, Copy)]
struct Draws {
    number: u32,
}

impl Draws {
    fn draw(&mut self) -> u32
        ensures number { self.new.number ≡ next_number self.old.number }
        ensures drawn { result ≡ drawn self.new.number }
    {
        let product = self.number.wrapping_mul(1_664_525);
        self.number = product.wrapping_add(1_013_904_223);
        self.number / 65_536
    }
}

// The key that a draw names.
fn draw_key(alloc: Global, draw: u32) -> Result<Bytes, NoMemory>
    ensures { IfOk result (λ key. key ≡ key_of draw) }
{
    let digits = (draw % 24).to_string(alloc)?;
    let mut key = Vec::new(alloc);
    key.extend_from_slice(b"k")?;
    key.extend_from_slice(digits.as_bytes())?;
    Ok(Bytes::from_vec(key))
}

// A value whose bytes are all this one.
fn repeated(alloc: Global, byte: u8, size: u32) -> Result<Bytes, NoMemory>
    ensures { IfOk result (λ value. value ≡ replicate size byte) }
{
    Ok(Bytes::from_vec(vec![in alloc; byte; size as usize]?))
}

// The call of this kind that has no value.
fn call_of_key(kind: u32, key: Bytes) -> Call
    requires { 4 ≤ kind }
    ensures { (value : List ℕ) → result ≡ call_of kind key value }
{
    if kind < 6 {
        Call::Get { key }
    } else if kind == 6 {
        Call::Remove { key }
    } else {
        Call::Info { key }
    }
}

// A set without flags.
fn set_of(key: Bytes, value: Bytes) -> Call
    ensures { (kind : ℕ) → kind < 4 → result ≡ call_of kind key value }
{
    Call::Set {
        key,
        value,
        flags: Flags::NONE,
    }
}

// The call of the line of this place, whose first draw has this number.
fn draw_call(alloc: Global, draws: &mut Draws, place: u32) -> Result<Call, NoMemory>
    ensures call { (first : ℕ) → draws.old.number ≡ next_number first
        → IfOk result (λ call. call ≡ drawn_call place first) }
    ensures behind { (first : ℕ) → draws.old.number ≡ next_number first
        → OnOk result (draws.new.number ≡ number_behind first) }
{
    let kind = draws.draw() % 8;
    let key = draw_key(alloc, draws.draw())?;
    if kind >= 4 {
        return Ok(call_of_key(kind, key));
    }
    let size = draws.draw() % 40;
    let value = repeated(alloc, (place % 256) as u8, size)?;
    Ok(set_of(key, value))
}

// The line of this place.
fn draw_line(alloc: Global, draws: &mut Draws, clients: u8, place: u32) -> Result<Line, NoMemory>
    requires some { 1 ≤ clients }
    requires most { clients ≤ 16 }
    ensures line { IfOk result (λ line. line ≡ line_at clients place draws.old.number) }
    ensures behind { OnOk result (draws.new.number ≡ number_behind draws.old.number) }
{
    let client = draws.draw() % u32::from(clients);
    let call = draw_call(alloc, draws, place)?;
    Ok(Line {
        who: client as u8 + 1,
        act: Act::Do { call },
    })
}

/// The script of `calls` lines of `clients` clients that is drawn from `seed`: half of its calls
/// are sets of fewer than 40 bytes, and all have one of 24 keys.
pub fn gen_script(alloc: Global, seed: u32, clients: u8, calls: u32) -> Result<Script, NoMemory>
    requires some { 1 ≤ clients }
    requires most { clients ≤ 16 }
    requires calls { calls ≤ 8192 }
    ensures { IfOk result (λ script. script ≡ generated seed clients calls) }
{
    let mut draws = Draws { number: seed };
    let mut lines = Vec::new(alloc);
    for place in 1..calls + 1 {
        lines.push(draw_line(alloc, &mut draws, clients, place)?)?;
    }
    Ok(Script::new(lines))
}
