// A memory of one's own: a read-only picture of another.
//
// A memory says what its kinds and bytes are by `kind_at` and `byte_at`, and then each function is proved to do what the trait
// says of them. Here all of it follows by itself, so there is no proof file.
ghost use Rattle.std.specs.Prelude.{◌≡◌};
ghost use Rattle.picture.specs.Pictures.{pictured};

use memory::{Kind, Memory, MemoryFault};

/// Another memory, of which nothing can be written through the picture.
#[derive(Drop)]
pub struct ReadOnlyPicture<N> {
    inner: N,
}

impl<N> ReadOnlyPicture<N> {
    // The contract says what is inside: without it a caller would not know of which memory this is a picture.
    pub fn new(inner: N) -> ReadOnlyPicture<N>
        ensures { result.inner ≡ inner }
    {
        ReadOnlyPicture { inner }
    }

    /// The memory below, as it now is.
    pub fn into_inner(self) -> N
        ensures { result ≡ self.inner }
    {
        let ReadOnlyPicture { inner } = self;
        inner
    }
}

impl<N: Memory> Memory for ReadOnlyPicture<N> {
    ghost kind_at = { λ s x. pictured (N.Memory.kind_at s.inner x) };

    ghost byte_at = { λ s. N.Memory.byte_at s.inner };

    // A layer hands on what never changes of the memory below, so that lenders know their bytes again.
    ghost fixed = { λ s. N.Memory.fixed s.inner };

    fn kind(&self, address: u32) -> Kind {
        self.inner.kind(address).min(Kind::ReadOnly)
    }

    fn read(&self, address: u32) -> Result<u8, MemoryFault> {
        self.inner.read(address)
    }

    // Refused in every case, and so nothing may change.
    fn write(&mut self, address: u32, _byte: u8) -> Result<(), MemoryFault> {
        match self.kind(address) {
            Kind::Absent => Err(MemoryFault::Absent),
            Kind::ReadOnly | Kind::Writable => Err(MemoryFault::ReadOnly),
        }
    }
}
