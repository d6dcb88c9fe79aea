// A script that is served.
ghost use Rattle.std.specs.Prelude.{◌≡◌, ◌≤◌, [], All, length};
ghost use Rattle.kv_model.specs.Opening.{Opening};
ghost use Rattle.script_core.specs.LineOrder.{calls_of};
ghost use Rattle.script_core.specs.declared.line.Line.{Line};
ghost use Rattle.serve_core.specs.Clients.{IsClientLine, lines_from};
ghost use Rattle.serve_core.specs.Serving.{Serves, ShowsPower};
ghost use Rattle.session_core.specs.Backing.{session_rules};
ghost use Rattle.session_core.specs.Chips.{HasSameAreas};
ghost use Rattle.session_core.specs.Views.{primary_in, state_in};
ghost use Rattle.shared_kv.specs.Passes.{known, table_in};
ghost use Rattle.turn_lock.specs.Passes.{IsIdle};
ghost use Rattle.turn_lock.specs.Views.{first_view};

use crate::crew::{FIRST_CLIENT, serve_from};
use crate::gate::Gate;
use journal_core::Journal;
use kv_model::{Kv, NoMemory};
use script_core::{Line, Script};
use session_core::{Ended, Outcome, Session};
use shared_kv::{CallPass, SharedKv};
use std::alloc::Global;
use std::sync::Wait;
use std::thread::Threads;

// Serves all clients over a shared store, and takes it apart again.
fn serve_shared<K: Kv + Send, R: Threads + Wait + Sync, G: Gate>(
    rt: &R,
    shared: SharedKv<K>,
    lines: &[Line],
    gate: &G,
    pass: CallPass<K>,
) -> (K, Outcome)
    requires idle { IsIdle (table_in shared) pass.pass }
    requires first { known pass ≡ first_view (known pass).opening }
    requires lines { All IsClientLine lines.now }
    requires few { length lines.now ≤ 8192 }
    ensures { Serves K.rules_by (known pass).opening (K.state result.0).known lines.now result.1 }
{
    let (pass, whole) = serve_from(rt, &shared, lines, gate, pass, FIRST_CLIENT);
    let (store, journal) = shared.into_parts(rt, pass);
    let ended = if whole { Ended::Whole } else { Ended::Memory };
    (store, Outcome { journal, ended })
}

// Serves these lines over any store.
fn serve_store<K: Kv + Send, R: Threads + Wait + Sync, G: Gate>(
    rt: &R,
    alloc: Global,
    store: K,
    lines: &[Line],
    gate: &G,
) -> (K, Outcome)
    requires lines { All IsClientLine lines.now }
    requires few { length lines.now ≤ 8192 }
    ensures { Serves K.rules_by (K.state store).known (K.state result.0).known lines.now result.1 }
{
    match SharedKv::new(alloc, store) {
        Ok((shared, pass)) => serve_shared(rt, shared, lines, gate, pass),
        Err((store, NoMemory)) => (
            store,
            Outcome {
                journal: Journal::new(alloc),
                ended: Ended::Memory,
            },
        ),
    }
}

/// Serves a script to its end: each client that has lines gets a worker on a thread of its own,
/// which makes their calls in order over one shared store, with `gate` around each line. Where a
/// thread can't be started its work is done by the caller. The session comes back as the calls
/// left it, with the journal of all calls.
///
/// No line is of client 0: there are no mounts and no cuts. `Whole`: the journal has each client's
/// lines in their order, each once. `Memory`: there was no memory for a call, and the journal has
/// the first of each client's lines. It is never ended by chance.
///
/// A call waits while another client's incremental set stands in its way, so a client that begins a
/// set and never ends it can make this wait for ever.
pub fn serve<R: Threads + Wait + Sync, G: Gate>(
    rt: &R,
    alloc: Global,
    session: Session,
    script: &Script,
    gate: &G,
) -> (Session, Outcome)
    requires { All (λ (line : Line). 1 ≤ line.who) script.now }
    ensures serves { Serves session_rules (state_in session).known (state_in result.0).known
        script.now result.1 }
    ensures power { ShowsPower session result.0 result.1.journal.entries }
    ensures areas { HasSameAreas (primary_in session).geometry (primary_in result.0).geometry }
{
    serve_store(rt, alloc, session, script.lines(), gate)
}
