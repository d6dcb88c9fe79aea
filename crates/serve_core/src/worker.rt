// One worker: it makes the calls of one client.
ghost use Rattle.std.specs.Prelude.{◌≡◌, ◌≢◌, ◌≤◌, ◌<◌, false, All, IfOk, IfSome, length};
ghost use Rattle.script_core.specs.LineOrder.{calls_of};
ghost use Rattle.script_core.specs.declared.line.Act.TheVariants.{Do};
ghost use Rattle.serve_core.specs.Clients.{IsClientCall, IsClientLine, is_client};
ghost use Rattle.serve_core.specs.Owning.{CanWork, IsSamePass, Makes, MakesNone, Owns};
ghost use Rattle.shared_kv.specs.Passes.{known, table_in};
ghost use Rattle.turn_lock.specs.Passes.{IsIdle};

use crate::gate::Gate;
use kv_model::{Call, Kv, NoMemory};
use script_core::{Act, Line};
use shared_kv::{CallPass, Fault, SharedKv};
use std::sync::Wait;

/// A pass that comes back, and whether all calls of its clients were made.
pub(crate) type Served<K> = (CallPass<K>, bool);

// A copy of a call.
fn copy_of(call: &Call) -> Result<Call, NoMemory>
    ensures { IfOk result (λ copy. copy ≡ call.now) }
{
    Ok(call.clone()?)
}

// The call of a line, unless there is no memory for a copy of it.
fn call_of(line: &Line) -> Option<Call>
    requires { IsClientCall line.now.act }
    ensures call { IfSome result (λ call. line.now.act ≡ Do call) }
    ensures no_mount { IfSome result (λ call. call ≢ Call.Mount) }
{
    match &line.act {
        Act::Do { call } => match copy_of(call) {
            Ok(copy) => Some(copy),
            Err(NoMemory) => None,
        },
        Act::Cut { .. } => unreachable!(),
    }
}

// Quits, since there is no memory for a call. From then on no client's call is made.
fn give_up<K: Kv, R: Wait>(rt: &R, shared: &SharedKv<K>, pass: &mut CallPass<K>) -> bool
    requires { IsIdle (table_in shared.now) pass.old.pass }
    ensures idle { IsIdle (table_in shared.now) pass.new.pass }
    ensures none { MakesNone (known pass.old) (known pass.new) }
    ensures not_made { result ≡ false }
{
    shared.quit(rt, pass);
    false
}

// Makes a call, and says whether it was made. It is not where there is no memory for it, or where
// somebody quit.
fn make<K: Kv, R: Wait>(rt: &R, shared: &SharedKv<K>, pass: &mut CallPass<K>, line: &Line) -> bool
    requires idle { IsIdle (table_in shared.now) pass.old.pass }
    requires call { IsClientCall line.now.act }
    requires room { length (known pass.old).own < (known pass.old).parts }
    ensures idle { IsIdle (table_in shared.now) pass.new.pass }
    ensures makes { Makes (known pass.old) (known pass.new) line.now.act result }
{
    let Some(call) = call_of(line) else {
        return give_up(rt, shared, pass);
    };
    match shared.call(rt, pass, call) {
        Ok(_) => true,
        Err(Fault::Memory) => give_up(rt, shared, pass),
        Err(Fault::Quit { .. }) => false,
        Err(Fault::JournalFull) => unreachable!(),
        Err(Fault::Taken { .. }) => unreachable!(),
        Err(Fault::Busy { .. }) => unreachable!(),
    }
}

/// Makes the calls of a client's lines in their order, with the gate around each line, until one is
/// not made.
pub(crate) fn work<K: Kv, R: Wait, G: Gate>(
    rt: &R,
    shared: &SharedKv<K>,
    lines: &[Line],
    gate: &G,
    mut pass: CallPass<K>,
) -> Served<K>
    requires idle { IsIdle (table_in shared.now) pass.pass }
    requires can { CanWork lines.now (known pass) }
    requires lines { All IsClientLine lines.now }
    requires few { length lines.now ≤ 8192 }
    ensures idle { IsIdle (table_in shared.now) result.0.pass }
    ensures same { IsSamePass (known pass) (known result.0) }
    ensures owns { Owns (is_client (known pass).who) (calls_of lines.now) result.1
        (known result.0) }
{
    let who = pass.who();
    let mut index = 0u32;
    for line in lines {
        if line.who == who {
            index += 1;
            gate.before(who, index);
            let made = make(rt, shared, &mut pass, line);
            gate.after(who, index);
            if !made {
                return (pass, false);
            }
        }
    }
    (pass, true)
}
