// The calls of a chip.
ghost use Rattle.std.specs.Prelude.{◌≡◌, ◌+◌, ◌≤◌, ◌↔◌, ◌<◌, length, replicate, false, IsOk, IfOk, IfErr, OnOk, OnErr};
ghost use Rattle.flash_core.specs.Calls.{CanErase, CanProgram, CanRead, Reads, Writes, erased_unit};
ghost use Rattle.flash_core.specs.Images.{part};
ghost use Rattle.flash_core.specs.Sizes.{IsValid, size_of};
ghost use Rattle.flash_sim.specs.ChipState.{after_arm, after_naming, after_power_on, after_read, after_write, device_of, fate_of, new_chip, other_label, read_fails, Goes};
ghost use Rattle.flash_sim.specs.Views.{IsLent, torn_chip, view_of};

use crate::Chip;
use crate::arming::{Arming, Tear};
use crate::chip::Label;
use crate::fate::{Fate, next_fate};
use crate::plan::Plan;
use crate::ranges::{clear, leave_at, overwrite, range_of};
use base_core::NoMemory;
use flash_core::{Flash, FlashFault, Geometry};
use kv_model::Pattern;
use std::alloc::Global;

impl Chip {
    /// A chip with this image. It takes no memory.
    pub fn new(geometry: Geometry, image: Vec<u8>) -> Chip
        requires valid { IsValid geometry }
        requires sized { length image.items ≡ size_of geometry }
        ensures { view_of result ≡ new_chip geometry image.items }
    {
        Chip {
            geometry,
            image,
            tear: None,
            reads: Plan::new(),
            writes: Plan::new(),
            armed: None,
            label: Label::Empty,
        }
    }

    /// The chip behind a tear: every device call fails until power is on again. It takes no memory.
    pub fn with_tear(geometry: Geometry, image: Vec<u8>, tear: Tear) -> Chip
        requires valid { IsValid geometry }
        requires sized { length image.items ≡ size_of geometry }
        requires same { length tear.before.items ≡ length tear.after.items }
        requires inside { tear.place + length tear.after.items ≤ size_of geometry }
        ensures { view_of result ≡ torn_chip geometry image.items tear }
    {
        Chip {
            geometry,
            image,
            tear: Some(tear),
            reads: Plan::new(),
            writes: Plan::new(),
            armed: None,
            label: Label::Other,
        }
    }

    /// Arms the chip: the n-th program or erase from now is torn by the pattern, and every device
    /// call behind it fails until power is on again. It takes the place of an earlier arming. It
    /// refuses for want of memory alone, and then nothing changes.
    pub fn arm(&mut self, alloc: Global, n: u32, pattern: Pattern) -> Result<(), NoMemory>
        requires { 1 ≤ n }
        ensures armed { IfOk result (λ _.
            view_of self.new ≡ after_arm (view_of self.old) n pattern) }
        ensures same { OnErr result (view_of self.new ≡ view_of self.old) }
    {
        let room = self.geometry.erase as usize;
        self.armed = Some(Arming::new(alloc, n, pattern, room)?);
        if self.tear.is_none() {
            self.label = Label::Of(pattern);
        }
        Ok(())
    }

    /// Puts power on: no tear stands, and none is to come.
    pub fn power_on(&mut self)
        ensures { view_of self.new ≡ after_power_on (view_of self.old) }
    {
        self.tear = None;
        self.armed = None;
        self.label = Label::Empty;
    }

    /// The last tear since power was on.
    pub fn torn(&self) -> Option<&Tear>
        ensures { IsLent result self.now.tear }
    {
        self.tear.as_ref()
    }

    /// Names reads and writes from now that fail once, each counted from 1 over its kind. A later
    /// call replaces both lists.
    pub fn set_faults(&mut self, reads: Vec<u32>, writes: Vec<u32>)
        ensures { view_of self.new ≡ after_naming (view_of self.old) reads.items writes.items }
    {
        self.reads.name(reads);
        self.writes.name(writes);
    }

    /// The bytes of the chip.
    pub fn image(&self) -> &[u8]
        ensures { result.now ≡ (view_of self.now).image }
    {
        &self.image
    }

    /// Gives the bytes of the chip away. It takes no memory.
    pub fn into_image(self) -> Vec<u8>
        ensures { result.items ≡ (view_of self).image }
    {
        self.image
    }

    // Reads a range of the image.
    fn read_range(&mut self, place: u32, buf: &mut [u8]) -> Result<(), FlashFault>
        requires { place + length buf.old ≤ length (view_of self.old).image }
        ensures after { view_of self.new ≡ after_read (view_of self.old) }
        ensures fails { IsOk result ↔ (read_fails (view_of self.old) ≡ false) }
        ensures fault { IfErr result (λ fault. fault ≡ FlashFault.Read) }
        ensures bytes { OnOk result
            (buf.new ≡ part (view_of self.old).image place (length buf.old)) }
    {
        let is_named = self.reads.count();
        if self.tear.is_some() || is_named {
            self.reads.fail();
            return Err(FlashFault::Read);
        }
        let place = place as usize;
        buf.copy_from_slice(range_of(&self.image, place, buf.len()));
        Ok(())
    }

    // Programs a range of the image, as its fate is.
    fn program_range(&mut self, place: u32, bytes: &[u8]) -> Result<(), FlashFault>
        requires inside { place + length bytes.now ≤ length (view_of self.old).image }
        requires most { length bytes.now ≤ (view_of self.old).geometry.erase }
        ensures after { view_of self.new
            ≡ after_write (fate_of (view_of self.old)) (view_of self.old) place bytes.now }
        ensures goes { IsOk result ↔ (fate_of (view_of self.old) ≡ Goes) }
        ensures fault { IfErr result (λ fault. fault ≡ FlashFault.Write) }
    {
        let is_named = self.writes.count();
        match next_fate(self.tear.is_some(), &mut self.armed, is_named) {
            Fate::Goes => {
                overwrite(&mut self.image, place as usize, bytes);
                Ok(())
            }
            Fate::Fails => {
                self.writes.fail();
                Err(FlashFault::Write)
            }
            Fate::Tears(arming) => {
                self.writes.fail();
                let pattern = arming.pattern();
                let before = range_of(&self.image, place as usize, bytes.len());
                self.tear = Some(arming.into_program(place, before, bytes));
                leave_at(&mut self.image, place as usize, pattern, bytes);
                Err(FlashFault::Write)
            }
        }
    }

    // Erases a unit of the image, as its fate is.
    fn erase_unit(&mut self, place: u32) -> Result<(), FlashFault>
        requires { place + (view_of self.old).geometry.erase ≤ length (view_of self.old).image }
        ensures after { view_of self.new
            ≡ after_write (fate_of (view_of self.old)) (view_of self.old) place
            (replicate (view_of self.old).geometry.erase 255) }
        ensures goes { IsOk result ↔ (fate_of (view_of self.old) ≡ Goes) }
        ensures fault { IfErr result (λ fault. fault ≡ FlashFault.Write) }
    {
        let (start, size) = (place as usize, self.geometry.erase as usize);
        let is_named = self.writes.count();
        match next_fate(self.tear.is_some(), &mut self.armed, is_named) {
            Fate::Goes => {
                clear(&mut self.image, start, size);
                Ok(())
            }
            Fate::Fails => {
                self.writes.fail();
                Err(FlashFault::Write)
            }
            Fate::Tears(arming) => {
                self.writes.fail();
                let pattern = arming.pattern();
                let tear = arming.into_erase(place, range_of(&self.image, start, size));
                leave_at(&mut self.image, start, pattern, &tear.after);
                self.tear = Some(tear);
                Err(FlashFault::Write)
            }
        }
    }
}

impl Flash for Chip {
    ghost use Rattle.flash_sim.specs.Laws.{chip_is_lawful};

    ghost state = { λ chip. device_of (view_of chip) };

    ghost lawful = { λ chip. chip_is_lawful (view_of chip) chip.sized };

    fn geometry(&self) -> Geometry {
        self.geometry
    }

    /// A read fails exactly on a torn chip, and where it is named.
    fn read(&mut self, place: u32, buf: &mut [u8]) -> Result<(), FlashFault>
        requires { CanRead (device_of (view_of self.old)) place (length buf.old) }
        ensures reads { Reads (device_of (view_of self.old)) (device_of (view_of self.new))
            place buf.new result }
        ensures after { view_of self.new ≡ after_read (view_of self.old) }
        ensures fails { IsOk result ↔ (read_fails (view_of self.old) ≡ false) }
    {
        self.read_range(place, buf)
    }

    /// A write goes on, fails or is torn as the chip was told.
    fn program(&mut self, place: u32, bytes: &[u8]) -> Result<(), FlashFault>
        requires { CanProgram (device_of (view_of self.old)) place (length bytes.now) }
        ensures writes { Writes (device_of (view_of self.old)) (device_of (view_of self.new))
            place bytes.now result }
        ensures after { view_of self.new
            ≡ after_write (fate_of (view_of self.old)) (view_of self.old) place bytes.now }
        ensures goes { IsOk result ↔ (fate_of (view_of self.old) ≡ Goes) }
    {
        self.program_range(place, bytes)
    }

    /// A write goes on, fails or is torn as the chip was told.
    fn erase(&mut self, place: u32) -> Result<(), FlashFault>
        requires { CanErase (device_of (view_of self.old)) place }
        ensures writes { Writes (device_of (view_of self.old)) (device_of (view_of self.new))
            place
            (erased_unit (device_of (view_of self.old))) result }
        ensures after { view_of self.new
            ≡ after_write (fate_of (view_of self.old)) (view_of self.old) place
            (erased_unit (device_of (view_of self.old))) }
        ensures goes { IsOk result ↔ (fate_of (view_of self.old) ≡ Goes) }
    {
        self.erase_unit(place)
    }
}
