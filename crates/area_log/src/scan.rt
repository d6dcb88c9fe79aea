// A walk over the records of an area.
ghost use Rattle.std.specs.Prelude.{◌≡◌, ℕ, ◌+◌, List, [], ◌∷◌, ◌++◌, IfOk, IfErr, OnOk};
ghost use Rattle.std.specs.Option.{ForSome};
ghost use Rattle.flash_core.specs.Sizes.{IsValid};
ghost use Rattle.area_log.specs.declared.area.Area.{Area};
ghost use Rattle.area_log.specs.Areas.{CanWork, IsAreaOf, IsEnd, IsRange};
ghost use Rattle.area_log.specs.Listing.{CountsRefusals, Found, HandsOn, IsListOf, IsNext, IsRefusal};
ghost use Rattle.area_log.specs.Reading.{Visits};

use crate::Area;
use flash_core::Flash;
use kv_model::{Key, KvError};
use record_core::{Header, read_record, size_of_record};

// The sizes of a master record's key and of its value.
const MASTER_KEY_SIZE: u32 = 4;

const MASTER_VALUE_SIZE: u32 = 8;

/// What a walk shows the records of an area to. What its contract may speak of is the `area`, which
/// no call changes, the lists of records that it `stands_for`, how many `refusals` it made, and
/// whether it `ran_out` of memory.
pub trait Visitor {
    ghost area: { Self → Area };

    ghost stands_for: { Self → List Found → Type 0 };

    ghost refusals: { Self → ℕ };

    ghost ran_out: { Self → Type 0 };

    /// Takes in one record more: its place, its key and its header. It may read the device, and
    /// makes no program and no erase. `ReadFault` comes exactly where the count of read faults
    /// rose, and `Memory` only where memory ran out. A refusal raises the count of refusals by one,
    /// and Ok leaves it.
    fn found<F: Flash>(
        &mut self,
        flash: &mut F,
        at: u32,
        key: &Key,
        header: &Header,
    ) -> Result<(), KvError>
        requires valid { IsValid (F.state flash.old).geometry }
        requires area { IsAreaOf (F.state flash.old).geometry (area self.old) }
        requires inside { IsRange (area self.old) at 24 }
        requires next { ForSome (F.state flash.old).image (λ image. (before : List Found)
            × IsNext (F.state flash.old).geometry image (area self.old)
            (record { at = at; key = key.now; header = header.now }) before
            × stands_for self.old before) }
        ensures area { area self.new ≡ area self.old }
        ensures visits { Visits (F.state flash.old) (F.state flash.new) result }
        ensures refusals { CountsRefusals (refusals self.old) (refusals self.new) result }
        ensures cause { IfErr result (IsRefusal (F.state flash.old) (F.state flash.new)
            (ran_out self.new)) }
        ensures stands { ForSome (F.state flash.old).image (λ image. (before : List Found)
            → IsNext (F.state flash.old).geometry image (area self.old)
            (record { at = at; key = key.now; header = header.now }) before
            → stands_for self.old before
            → OnOk result (stands_for self.new
            (before ++ record { at = at; key = key.now; header = header.now } ∷ []))) };
}

// A key to read others into.
fn any_key() -> Key {
    match Key::new(b"-") {
        Ok(key) => key,
        Err(_) => unreachable!(),
    }
}

impl Area {
    /// Shows the records behind the area's master record to the visitor, one after another, up to
    /// the first place that has none inside the area. The answer is the place behind the last one.
    /// It refuses exactly where the visitor refused, with what that was, and with `ReadFault` where
    /// a read failed, whose count then rose. The visitor has this area and stands for no records.
    /// `work` has at least 64 bytes and at least a program unit.
    pub fn scan<F: Flash, V: Visitor>(
        &self,
        flash: &mut F,
        visitor: &mut V,
        work: &mut [u8],
    ) -> Result<u32, KvError>
        requires can { CanWork (F.state flash.old).geometry self.now work.old }
        requires same { V.area visitor.old ≡ self.now }
        requires none { V.stands_for visitor.old [] }

        ensures same { V.area visitor.new ≡ self.now }
        ensures visits { Visits (F.state flash.old) (F.state flash.new) result }
        ensures handed_on { HandsOn (V.refusals visitor.old) (V.refusals visitor.new) result }
        ensures cause { IfErr result (IsRefusal (F.state flash.old) (F.state flash.new)
            (V.ran_out visitor.new)) }
        ensures end { IfOk result (IsEnd (F.state flash.old).geometry self.now) }
        ensures all { ForSome (F.state flash.old).image
            (λ image. IfOk result (λ end. (list : List Found)
            × IsListOf (F.state flash.old).geometry image self.now end list
            × V.stands_for visitor.new list)) }
    {
        let prog = flash.geometry().prog;
        let limit = self.base + self.size;
        let mut key = any_key();
        let mut place = self.base + size_of_record(prog, MASTER_KEY_SIZE, MASTER_VALUE_SIZE);
        while let Some(header) = read_record(flash, place, limit, &mut key, work)? {
            visitor.found(flash, place, &key, &header)?;
            place += size_of_record(prog, u32::from(header.key_size), header.value_size);
        }
        Ok(place)
    }
}
