// A hole over a memory.
ghost use Rattle.std.specs.Prelude.{◌≡◌, ◌&&◌, ◌∷◌, nat_le};
ghost use Rattle.memory.specs.Layers.{holed};

use crate::kinds::{Kind, MemoryFault};
use crate::layer::Memory;

/// A memory, but absent from the bottom to the top, both included; no hole if the bottom is above the top.
#[derive(Drop)]
pub struct Hole<N> {
    inner: N,
    bottom: u32,
    top: u32,
}

impl<N> Hole<N> {
    pub fn new(inner: N, bottom: u32, top: u32) -> Hole<N>
        ensures { (result.inner ≡ inner) × (result.bottom ≡ bottom) × (result.top ≡ top) }
    {
        Hole { inner, bottom, top }
    }

    /// The memory below, as it now is.
    pub fn into_inner(self) -> N
        ensures { result ≡ self.inner }
    {
        let Hole { inner, .. } = self;
        inner
    }

    /// Whether the hole has the address.
    fn covers(&self, address: u32) -> bool
        ensures { result ≡ (nat_le self.now.bottom address && nat_le address self.now.top) }
    {
        (self.bottom..=self.top).contains(&address)
    }
}

impl<N: Memory> Memory for Hole<N> {
    ghost kind_at = { λ s. holed s.bottom s.top (N.Memory.kind_at s.inner) };

    ghost byte_at = { λ s. N.Memory.byte_at s.inner };

    ghost fixed = { λ s. s.bottom ∷ s.top ∷ N.Memory.fixed s.inner };

    fn kind(&self, address: u32) -> Kind {
        if self.covers(address) {
            Kind::Absent
        } else {
            self.inner.kind(address)
        }
    }

    fn read(&self, address: u32) -> Result<u8, MemoryFault> {
        if self.covers(address) {
            Err(MemoryFault::Absent)
        } else {
            self.inner.read(address)
        }
    }

    fn write(&mut self, address: u32, byte: u8) -> Result<(), MemoryFault> {
        if self.covers(address) {
            Err(MemoryFault::Absent)
        } else {
            self.inner.write(address, byte)
        }
    }
}
