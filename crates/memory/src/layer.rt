// What a memory is.
ghost use Rattle.std.specs.Prelude.{◌≡◌, ℕ, List, []};
ghost use Rattle.memory.specs.declared.kinds.Kind.{Kind};
ghost use Rattle.memory.specs.Bytes.{read_of, write_of, written};

use crate::kinds::{Kind, MemoryFault};

/// A memory: each address has a kind, which never changes, and a byte, which nobody sees if it is absent.
pub trait Memory {
    /// The kind of each address.
    ghost kind_at: { Self → ℕ → Kind };

    /// The byte at each address.
    ghost byte_at: { Self → ℕ → ℕ };

    /// What else never changes, as numbers: those of each layer, and of each lent block its ghost name and base.
    /// By it a lender knows what came back; by default there is nothing.
    ghost fixed: { Self → List ℕ } = { λ _. [] };

    /// Asks a kind, which changes nothing.
    fn kind(&self, address: u32) -> Kind
        ensures { result ≡ kind_at self.now address };

    /// Reads a byte, which changes nothing.
    fn read(&self, address: u32) -> Result<u8, MemoryFault>
        ensures { result ≡ read_of (kind_at self.now address) (byte_at self.now address) };

    // A contract under which a memory may be written says that kinds and `fixed` are as before: each is one equation, which a definition would only rename.
    /// Writes a byte, which changes that byte alone; refused, it changes nothing.
    fn write(&mut self, address: u32, byte: u8) -> Result<(), MemoryFault>
        ensures answer { result ≡ write_of (kind_at self.old address) }
        ensures kinds { kind_at self.new ≡ kind_at self.old }
        ensures bytes { byte_at self.new ≡ written (kind_at self.old address) (byte_at self.old) address byte }
        ensures stays { fixed self.new ≡ fixed self.old };
}
