// A write of eight bytes, all or none, over any memory.
ghost use Rattle.std.specs.Prelude.{◌≡◌, ◌+◌};
ghost use Rattle.memory.specs.Puts.{reached, least_from, put_of, put_bytes};

use crate::kinds::{Kind, MemoryFault};
use crate::layer::Memory;

/// What stands so far past an address; past FFFFFFFFh all is absent.
fn kind_past<N: Memory>(memory: &N, address: u32, offset: u32) -> Kind
    ensures { result ≡ reached (N.Memory.kind_at memory.now) (address + offset) }
{
    match address.checked_add(offset) {
        Some(place) => memory.kind(place),
        None => Kind::Absent,
    }
}

/// Of the eight addresses from one on: absent if one is, else read-only if one is.
fn least_kind<N: Memory>(memory: &N, address: u32) -> Kind
    ensures { result ≡ least_from (N.Memory.kind_at memory.now) address 8 }
{
    (0..8).fold(Kind::Writable, |least, offset| {
        least.min(kind_past(memory, address, offset))
    })
}

/// Writes eight bytes from an address on, or none where one of them would be refused.
pub fn put<N: Memory>(memory: &mut N, address: u32, bytes: [u8; 8]) -> Result<(), MemoryFault>
    ensures answer { result ≡ put_of (N.Memory.kind_at memory.old) address }
    ensures kinds { N.Memory.kind_at memory.new ≡ N.Memory.kind_at memory.old }
    ensures bytes { N.Memory.byte_at memory.new ≡ put_bytes (N.Memory.kind_at memory.old) (N.Memory.byte_at memory.old) address bytes }
    ensures stays { N.Memory.fixed memory.new ≡ N.Memory.fixed memory.old }
{
    least_kind(memory, address).accepts_write()?;
    for (offset, byte) in (0..8).zip(&bytes) {
        memory.write(address + offset, *byte)?;
    }
    Ok(())
}
