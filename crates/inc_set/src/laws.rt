// What stands at a set's place while it is written. A law is a function with nothing to do: its
// contract is the law.
ghost use Rattle.std.specs.Prelude.{◌≡◌, ◌⊎◌, ◌+◌, ◌<◌, ◌≤◌, ℕ, List, length, Option};
ghost use Rattle.base_core.specs.Units.{up};
ghost use Rattle.flash_core.specs.declared.geometry.Geometry.{Geometry};
ghost use Rattle.flash_core.specs.Calls.{IsMomentWithin};
ghost use Rattle.flash_core.specs.State.{DeviceCall};
ghost use Rattle.flash_core.specs.TwoPrograms.{payload_put};
ghost use Rattle.kv_model.specs.Write.{Write};
ghost use Rattle.record_core.specs.Record.{record_header, record_payload};
ghost use Rattle.record_core.specs.Written.{AppendsRecord, Ascends};
ghost use Rattle.inc_set.specs.declared.open_set.OpenSet.{OpenSet};
ghost use Rattle.inc_set.specs.Sets.{HasNoRecord, IsAhead, payload_place};

/// No record stands at the place of a set at any moment while it is fed, whatever units are
/// programmed behind the header's place, nor while it is sealed, but for the moments of the
/// header's own program, which begins over the whole payload.
pub fn no_record_stands_before_the_header()
    ensures erased { (g : Geometry) (image : List ℕ) (set : OpenSet) → 1 ≤ g.prog
        → IsAhead g image set → HasNoRecord g.prog image set.at }
    ensures fed { (g : Geometry) (image : List ℕ) (set : OpenSet) (from : ℕ) (units : List ℕ)
        → 1 ≤ g.prog → IsAhead g image set → payload_place g.prog set ≤ from
        → from + length units ≤ length image → (call : Option DeviceCall) (now : List ℕ)
        → Ascends g.prog from units image call now → HasNoRecord g.prog now set.at }
    ensures sealed { (g : Geometry) (image : List ℕ) (set : OpenSet) (r : Write) → 1 ≤ g.prog
        → IsAhead g image set
        → payload_place g.prog set + length (record_payload g.prog r.key r.value) ≤ length image
        → (call : Option DeviceCall) (now : List ℕ) → AppendsRecord g.prog set.at r image call now
        → HasNoRecord g.prog now set.at ⊎ IsMomentWithin (payload_put image set.at
        (record_header g.prog r.flags r.key r.value) (record_payload g.prog r.key r.value)) set.at
        (record_header g.prog r.flags r.key r.value) call now }
{}
