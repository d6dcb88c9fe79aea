// What a chip holds.
ghost use Rattle.std.specs.Prelude.{◌≡◌, length};
ghost use Rattle.std.specs.Option.{ForSome};
ghost use Rattle.flash_core.specs.Sizes.{IsValid, size_of};

use crate::arming::{Arming, Tear};
use crate::plan::Plan;
use flash_core::Geometry;
use kv_model::Pattern;

// What a chip's label spells.
#[derive(Drop)]
pub(crate) enum Label {
    Empty,
    Of(Pattern),
    Other,
}

/// A chip in memory. It can be torn at a named write, as by a power cut, and made to fail at named
/// reads and writes.
#[derive(Drop)]
pub struct Chip {
    pub(crate) geometry: Geometry,
    pub(crate) image: Vec<u8>,
    pub(crate) tear: Option<Tear>,
    pub(crate) reads: Plan,
    pub(crate) writes: Plan,
    pub(crate) armed: Option<Arming>,
    pub(crate) label: Label,
    ghost valid: { IsValid geometry },
    ghost sized: { length image.items ≡ size_of geometry },
    ghost room: { ForSome armed (λ a. a.room ≡ geometry.erase) },
}
