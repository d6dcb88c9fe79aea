// A device in memory.
ghost use Rattle.std.specs.Prelude.{◌≡◌, [], ◌+◌, ◌≤◌, ◌↔◌, length, replicate, Some, None, IfOk, IfErr, IsOk, IsErr, OnOk, OnErr};
ghost use Rattle.flash_core.specs.Calls.{CanErase, CanProgram, Writes, erased_unit};
ghost use Rattle.flash_core.specs.Images.{part, put};
ghost use Rattle.flash_core.specs.RecordDevice.{kept, refused};
ghost use Rattle.flash_core.specs.Sizes.{IsValid, size_of};
ghost use Rattle.flash_core.specs.WriteLog.{IsFull};

use crate::write_log::WriteLog;
use crate::{Flash, FlashFault, Geometry};
use base_core::NoMemory;
use std::alloc::Global;

/// A device in memory. Without a log it tells its image and no moments, and no call of it fails.
/// With one it keeps its writes and tells its moments, and a write for which the log has too little
/// room fails and changes nothing.
#[derive(Drop)]
pub struct RecordFlash {
    geometry: Geometry,
    image: Vec<u8>,
    log: Option<WriteLog>,
    ghost valid: { IsValid geometry },
    ghost sized: { length image.items ≡ size_of geometry },
    ghost leads: { Rattle.flash_core.specs.RecordDevice.LeadsTo log image.items },
}

impl RecordFlash {
    ghost use Rattle.flash_core.specs.RecordDevice.{IsLoggedOf, IsMemoryOf};

    /// A device with this image and no log. It takes no memory, and never refuses.
    pub fn new(_alloc: Global, geometry: Geometry, image: Vec<u8>) -> Result<RecordFlash, NoMemory>
        requires valid { IsValid geometry }
        requires sized { length image.items ≡ size_of geometry }
        ensures made { IsOk result }
        ensures device { IfOk result (λ flash.
            IsMemoryOf (⟦<RecordFlash as Flash>⟧.state flash) geometry image.items) }
    {
        Ok(RecordFlash {
            geometry,
            image,
            log: None,
        })
    }

    /// A device with this image and a log with room for so many bytes of written ranges. It refuses
    /// for want of memory alone.
    pub fn with_log(
        alloc: Global,
        geometry: Geometry,
        image: Vec<u8>,
        log: u32,
    ) -> Result<RecordFlash, NoMemory>
        requires valid { IsValid geometry }
        requires sized { length image.items ≡ size_of geometry }
        ensures device { IfOk result (λ flash.
            IsLoggedOf (⟦<RecordFlash as Flash>⟧.state flash) geometry image.items) }
        ensures room { IfOk result (λ flash. flash.log
            ≡ Some (record { first = image.items; writes = []; left = log; faults = 0 })) }
    {
        let log = WriteLog::new(alloc, &image, log)?;
        Ok(RecordFlash {
            geometry,
            image,
            log: Some(log),
        })
    }

    /// The bytes of the device.
    pub fn image(&self) -> &[u8]
        ensures { (⟦<RecordFlash as Flash>⟧.state self.now).image ≡ Some result.now }
    {
        &self.image
    }

    /// Gives the bytes of the device away. It takes no memory.
    pub fn into_image(self) -> Vec<u8>
        ensures { (⟦<RecordFlash as Flash>⟧.state self).image ≡ Some result.items }
    {
        self.image
    }
}

// Writes the bytes over what stands at the place.
fn overwrite(image: &mut Vec<u8>, place: usize, bytes: &[u8])
    requires { place + length bytes.now ≤ length image.old.items }
    ensures image { image.new.items ≡ put image.old.items place bytes.now }
    ensures sized { length image.new.items ≡ length image.old.items }
{
    image[place..place + bytes.len()].copy_from_slice(bytes);
}

// Makes n bytes from the place on 0xFF.
fn clear(image: &mut Vec<u8>, place: usize, n: usize)
    requires { place + n ≤ length image.old.items }
    ensures image { image.new.items ≡ put image.old.items place (replicate n 255) }
    ensures sized { length image.new.items ≡ length image.old.items }
{
    image[place..place + n].fill(0xFF);
}

// n bytes from the place on.
fn range_of(image: &[u8], place: usize, n: usize) -> &[u8]
    requires { place + n ≤ length image.now }
    ensures { result.now ≡ part image.now place n }
{
    &image[place..place + n]
}

// Whether a write of so many bytes may go on. One for which the log has too little room is counted.
fn make_room(log: &mut Option<WriteLog>, size: usize) -> Result<(), FlashFault>
    ensures fault { IfErr result (λ fault. fault ≡ FlashFault.Write) }
    ensures full { IsErr result ↔ IsFull log.old size }
    ensures refused { OnErr result (log.new ≡ refused log.old) }
    ensures same { OnOk result (log.new ≡ log.old) }
{
    if let Some(log) = log {
        if !log.has_room(size) {
            log.refuse();
            return Err(FlashFault::Write);
        }
    }
    Ok(())
}

// Keeps a write for which there is room.
fn keep(log: &mut Option<WriteLog>, place: u32, bytes: &[u8])
    requires some { 1 ≤ length bytes.now }
    requires room { IsFull log.old (length bytes.now) → ⊥ }
    ensures { log.new ≡ kept log.old place bytes.now }
{
    if let Some(log) = log {
        log.keep(place, bytes);
    }
}

impl Flash for RecordFlash {
    ghost use Rattle.flash_core.specs.RecordDevice.{device_state, device_is_lawful};

    ghost state = { λ flash. device_state flash.geometry flash.image.items flash.log };

    ghost lawful = { λ flash.
        device_is_lawful flash.geometry flash.image.items flash.log flash.sized flash.leads };

    fn geometry(&self) -> Geometry {
        self.geometry
    }

    fn read(&mut self, place: u32, buf: &mut [u8]) -> Result<(), FlashFault> {
        let place = place as usize;
        buf.copy_from_slice(&self.image[place..place + buf.len()]);
        Ok(())
    }

    /// A write fails exactly where the log has too little room for it.
    fn program(&mut self, place: u32, bytes: &[u8]) -> Result<(), FlashFault>
        requires { CanProgram (⟦<RecordFlash as Flash>⟧.state self.old) place (length bytes.now) }
        ensures writes { Writes (⟦<RecordFlash as Flash>⟧.state self.old)
            (⟦<RecordFlash as Flash>⟧.state self.new) place bytes.now result }
        ensures full { IsErr result ↔ IsFull self.old.log (length bytes.now) }
        ensures same { OnErr result (self.new.image.items ≡ self.old.image.items) }
    {
        make_room(&mut self.log, bytes.len())?;
        overwrite(&mut self.image, place as usize, bytes);
        keep(&mut self.log, place, bytes);
        Ok(())
    }

    /// A write fails exactly where the log has too little room for it.
    fn erase(&mut self, place: u32) -> Result<(), FlashFault>
        requires { CanErase (⟦<RecordFlash as Flash>⟧.state self.old) place }
        ensures writes { Writes (⟦<RecordFlash as Flash>⟧.state self.old)
            (⟦<RecordFlash as Flash>⟧.state self.new) place
            (erased_unit (⟦<RecordFlash as Flash>⟧.state self.old)) result }
        ensures full { IsErr result ↔ IsFull self.old.log self.old.geometry.erase }
        ensures same { OnErr result (self.new.image.items ≡ self.old.image.items) }
    {
        let (start, size) = (place as usize, self.geometry.erase as usize);
        make_room(&mut self.log, size)?;
        clear(&mut self.image, start, size);
        keep(&mut self.log, place, range_of(&self.image, start, size));
        Ok(())
    }
}
