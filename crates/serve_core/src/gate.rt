// What a worker passes around each line.

/// A worker calls `before` ahead of each line of its client and `after` behind it, never while it
/// has the turn. `index` counts the client's lines from 1. A gate may hold its worker, and nothing
/// is said of for how long.
pub trait Gate: Sync {
    fn before(&self, who: u8, index: u32);

    fn after(&self, who: u8, index: u32);
}

/// A gate that holds nobody.
#[derive(Clone, Copy, Debug)]
pub struct OpenGate;

impl Gate for OpenGate {
    fn before(&self, _who: u8, _index: u32) {}

    fn after(&self, _who: u8, _index: u32) {}
}
