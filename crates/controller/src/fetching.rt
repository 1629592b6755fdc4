// The fetch of one entry of a list, by a place that runs through its eight bytes.
ghost use Rattle.std.specs.Prelude.{◌≡◌};
ghost use Rattle.controller.specs.Carrying.{named, above};
ghost use Rattle.controller.specs.Fetching.{first_absent, fetched_byte, fetched_word, entry_at, fetch_of, filled};

use crate::fault::{Fault, TableFault};
use crate::passing::load_current;
use memory::Memory;
use registers::channel::Channel;
use registers::list::{Entry, List};

// The most entries of a list.
pub const MOST_ENTRIES: u16 = 4096;

// A word of the table, and the place after it.
#[derive(Clone, Copy, PartialEq, Eq, Debug)]
pub struct Word {
    pub value: u32,
    pub next: u32,
}

// An entry, whether it ends the list, and the place after it.
#[derive(Clone, Copy, PartialEq, Eq, Debug)]
pub struct Fetched {
    pub entry: Entry,
    pub last: bool,
    pub next: u32,
}

// The byte at a place of the table; absent, the fault names that place.
// Memory and channel are no struct: each clause would say `self.now.memory.now` where it says `memory.now`.
fn read_byte<M: Memory>(memory: &M, channel: u8, place: u32) -> Result<u8, Fault>
    ensures { result ≡ fetched_byte (M.kind_at memory.now) (M.byte_at memory.now) channel place }
{
    memory.read(place).map_err(|_| Fault {
        cause: TableFault::EntryAbsent.into(),
        channel,
        address: place,
    })
}

// A word, lowest byte first.
fn read_word<M: Memory>(memory: &M, channel: u8, start: u32) -> Result<Word, Fault>
    ensures { result ≡ fetched_word (M.kind_at memory.now) (M.byte_at memory.now) channel start }
{
    // Not `array::try_from_fn`: of its error it says that some byte gave it, not that it was the first.
    let mut bytes = [0; 4];
    let mut place = start;
    for byte in &mut bytes {
        *byte = read_byte(memory, channel, place)?;
        place = place.wrapping_add(1);
    }
    Ok(Word {
        value: u32::from_le_bytes(bytes),
        next: place,
    })
}

// The entry at a place: an address, then a count and the end mark.
fn read_entry<M: Memory>(memory: &M, channel: u8, start: u32) -> Result<Fetched, Fault>
    ensures { result ≡ entry_at (M.kind_at memory.now) (M.byte_at memory.now) channel start }
{
    let address = read_word(memory, channel, start)?;
    let rest = read_word(memory, channel, address.next)?;
    let entry = Entry {
        address: address.value,
        count: (rest.value % 0x1_0000) as u16,
    };
    Ok(Fetched {
        entry,
        last: rest.value >= 0x8000_0000,
        next: rest.next,
    })
}

// What a list fetches from its next place.
pub(crate) fn fetch<M: Memory>(memory: &M, channel: u8, list: List) -> Result<Fetched, Fault>
    ensures { result ≡ fetch_of (M.kind_at memory.now) (M.byte_at memory.now) channel list }
{
    if list.entries >= MOST_ENTRIES {
        return Err(Fault {
            cause: TableFault::TooManyEntries.into(),
            channel,
            address: 0,
        });
    }
    read_entry(memory, channel, list.next)
}

// An entry fills current, or the reserve if current is loaded.
pub(crate) fn fill(fetched: Fetched, channel: Channel) -> Channel
    ensures { result ≡ filled fetched channel }
{
    let entries = channel.list.entries.wrapping_add(1);
    let list = List {
        next: fetched.next,
        entries,
        ended: fetched.last,
        loaded: true,
        ..channel.list
    };
    if channel.list.loaded {
        return Channel {
            list: List {
                reserve: Some(fetched.entry),
                ..list
            },
            ..channel
        };
    }
    Channel {
        list,
        ..load_current(fetched.entry, channel)
    }
}
