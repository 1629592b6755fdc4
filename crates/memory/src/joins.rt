// Two memories joined at a boundary.
ghost use Rattle.std.specs.Prelude.{◌≡◌, ◌∷◌, ◌++◌, nat_lt};
ghost use Rattle.memory.specs.Layers.{joined};

use crate::kinds::{Kind, MemoryFault};
use crate::layer::Memory;

/// The first memory below the boundary, the second from it up; both are asked at the address itself.
#[derive(Drop)]
pub struct Join<L, U> {
    lower: L,
    upper: U,
    boundary: u32,
}

impl<L, U> Join<L, U> {
    pub fn new(lower: L, upper: U, boundary: u32) -> Join<L, U>
        ensures { (result.lower ≡ lower) × (result.upper ≡ upper) × (result.boundary ≡ boundary) }
    {
        Join {
            lower,
            upper,
            boundary,
        }
    }

    /// The two memories, as they now are.
    pub fn into_parts(self) -> (L, U)
        ensures { (result.0 ≡ self.lower) × (result.1 ≡ self.upper) }
    {
        let Join { lower, upper, .. } = self;
        (lower, upper)
    }

    /// Whether the first memory has the address; the boundary belongs to the second.
    // Asked by each of the three calls: the two memories are of two types, so no function can answer which.
    fn is_lower(&self, address: u32) -> bool
        ensures { result ≡ nat_lt address self.now.boundary }
    {
        address < self.boundary
    }
}

impl<L: Memory, U: Memory> Memory for Join<L, U> {
    ghost kind_at = { λ s. joined s.boundary (L.Memory.kind_at s.lower) (U.Memory.kind_at s.upper) };

    ghost byte_at = { λ s. joined s.boundary (L.Memory.byte_at s.lower) (U.Memory.byte_at s.upper) };

    ghost fixed = { λ s. s.boundary ∷ (L.Memory.fixed s.lower ++ U.Memory.fixed s.upper) };

    fn kind(&self, address: u32) -> Kind {
        if self.is_lower(address) {
            self.lower.kind(address)
        } else {
            self.upper.kind(address)
        }
    }

    fn read(&self, address: u32) -> Result<u8, MemoryFault> {
        if self.is_lower(address) {
            self.lower.read(address)
        } else {
            self.upper.read(address)
        }
    }

    fn write(&mut self, address: u32, byte: u8) -> Result<(), MemoryFault> {
        if self.is_lower(address) {
            self.lower.write(address, byte)
        } else {
            self.upper.write(address, byte)
        }
    }
}
