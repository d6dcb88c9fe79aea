// The workers of all clients.
ghost use Rattle.std.specs.Prelude.{◌≡◌, ◌+◌, ◌≤◌, ◌<◌, All, length};
ghost use denote.Param.Send.{IsSend, IsSync};
ghost use Rattle.script_core.specs.LineOrder.{calls_of};
ghost use Rattle.serve_core.specs.Clients.{IsClientLine, is_client, is_from, lines_by};
ghost use Rattle.serve_core.specs.Owning.{CanServe, CanWork, IsSamePass, IsSplit, Owns};
ghost use Rattle.shared_kv.specs.Passes.{known, table_in};
ghost use Rattle.turn_lock.specs.Passes.{IsIdle};

use crate::gate::Gate;
use crate::worker::{Served, work};
use kv_model::Kv;
use script_core::Line;
use shared_kv::{CallPass, SharedKv};
use std::sync::Wait;
use std::thread::{Threads, join};

/// The number of the first client, and of the last.
pub(crate) const FIRST_CLIENT: u8 = 1;

const LAST_CLIENT: u8 = 16;

// How many lines a client has.
fn count_of(lines: &[Line], who: u8) -> u32
    requires { length lines.now ≤ 8192 }
    ensures { result ≡ lines_by who lines.now }
{
    let mut count = 0u32;
    for line in lines {
        if line.who == who {
            count += 1;
        }
    }
    count
}

// The pass of a client's worker, with as many parts as the client has lines.
fn split_for<K: Kv>(
    shared: &SharedKv<K>,
    pass: &mut CallPass<K>,
    lines: &[Line],
    who: u8,
    parts: u32,
) -> CallPass<K>
    requires idle { IsIdle (table_in shared.now) pass.old.pass }
    requires can { CanServe who lines.now (known pass.old) }
    requires parts { parts ≡ lines_by who lines.now }
    requires some { 1 ≤ parts }
    ensures idle { IsIdle (table_in shared.now) pass.new.pass
        × IsIdle (table_in shared.now) result.pass }
    ensures views { IsSplit (known pass.old) (known pass.new) (known result) who parts }
    ensures its { CanWork lines.now (known result) }
    ensures theirs { CanServe (who + 1) lines.now (known pass.new) }
{
    shared.split(pass, who, parts)
}

/// Serves the clients from `who` on, each by a worker on a thread of its own. A client with no
/// lines has no worker. The pass comes back with all that the workers' passes had.
#[cycle(clients)]
pub(crate) fn serve_from<K: Kv + Send, R: Threads + Wait + Sync, G: Gate>(
    rt: &R,
    shared: &SharedKv<K>,
    lines: &[Line],
    gate: &G,
    mut pass: CallPass<K>,
    who: u8,
) -> Served<K>
    requires idle { IsIdle (table_in shared.now) pass.pass }
    requires can { CanServe who lines.now (known pass) }
    requires lines { All IsClientLine lines.now }
    requires few { length lines.now ≤ 8192 }
    requires who { who ≤ 17 }
    ensures idle { IsIdle (table_in shared.now) result.0.pass }
    ensures same { IsSamePass (known pass) (known result.0) }
    ensures owns { Owns (is_from who) (calls_of lines.now) result.1 (known result.0) }
{
    if who > LAST_CLIENT {
        return (pass, true);
    }
    let parts = count_of(lines, who);
    if parts == 0 {
        return serve_from(rt, shared, lines, gate, pass, who + 1);
    }
    let own = split_for(shared, &mut pass, lines, who, parts);
    let its = move || -> Served<K>
        requires { IsSync R.row × IsSync G.row × IsSend K.row
            × IsIdle (table_in shared.now) own.pass × CanWork lines.now (known own)
            × All IsClientLine lines.now × (length lines.now ≤ 8192) }
        ensures idle { IsIdle (table_in shared.entry.now) result.0.pass }
        ensures same { IsSamePass (known own) (known result.0) }
        ensures owns { Owns (is_client (known own).who) (calls_of lines.entry.now) result.1
            (known result.0) }
    { work(rt, shared, lines, gate, own) };
    let theirs = move || -> Served<K>
        requires { IsSync R.row × IsSync G.row × IsSend K.row
            × IsIdle (table_in shared.now) pass.pass × CanServe (who + 1) lines.now (known pass)
            × All IsClientLine lines.now × (length lines.now ≤ 8192) × (who < 17) }
        ensures idle { IsIdle (table_in shared.entry.now) result.0.pass }
        ensures same { IsSamePass (known pass) (known result.0) }
        ensures owns { Owns (is_from (who + 1)) (calls_of lines.entry.now) result.1
            (known result.0) }
    { serve_from(rt, shared, lines, gate, pass, who + 1) };
    let ((own, made), (mut pass, rest)) = join(rt, its, theirs);
    shared.join(&mut pass, own);
    (pass, made && rest)
}
