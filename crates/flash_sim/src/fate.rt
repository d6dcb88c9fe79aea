// What comes of a write.
ghost use Rattle.std.specs.Prelude.{◌≡◌};
ghost use Rattle.flash_sim.specs.ChipState.{armed_after, fate_by};
ghost use Rattle.flash_sim.specs.Fates.{IsTaken, told_fate};

use crate::arming::Arming;

/// It goes on, fails, or is torn.
#[derive(Drop)]
pub enum Fate {
    Goes,
    Fails,
    Tears(Arming),
}

/// What comes of the next write of a chip that is torn or not, where it is named or not. A tear
/// that is due is taken.
pub fn next_fate(is_torn: bool, armed: &mut Option<Arming>, is_named: bool) -> Fate
    ensures fate { told_fate result ≡ fate_by is_torn armed.old is_named }
    ensures armed { armed.new ≡ armed_after is_torn armed.old }
    ensures taken { IsTaken armed.old result }
{
    if !is_torn {
        if let Some(mut arming) = armed.take() {
            if arming.is_due() {
                return Fate::Tears(arming);
            }
            arming.count_down();
            *armed = Some(arming);
        }
    }
    if is_torn || is_named {
        Fate::Fails
    } else {
        Fate::Goes
    }
}
