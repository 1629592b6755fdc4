// What a step did.
use registers::list::Signal;

#[derive(Clone, Copy, PartialEq, Eq, Debug)]
pub enum Event {
    // nothing to do
    Idle,
    // the bus is out
    Away,
    // the bus goes out to a cascade channel
    Lent {
        channel: u8,
    },
    // an entry fetched, by the place of its first byte
    Fetched {
        channel: u8,
        address: u32,
    },
    // a unit transferred at an address, and the signal that it gave
    Moved {
        channel: u8,
        address: u32,
        unit: u16,
        signal: Option<Signal>,
    },
}
