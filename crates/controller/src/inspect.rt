// Inspection of a channel's current registers, byte by byte, under a guard that puts the byte pointer back.
ghost use Rattle.std.specs.Prelude.{◌≡◌, Bool, true, false, not};
ghost use Rattle.registers.specs.Refusals.{shown};
ghost use Rattle.registers.specs.Channels.{byte_of};
ghost use Rattle.controller.specs.Steps.{Becomes};
ghost use Rattle.controller.specs.Inspecting.{inspect_number, seen_in, inspected};

use crate::controller::Controller;
use ports::is_channel;
use registers::channel::Span;
use registers::group::BytePointer;
use registers::refusal::Refusal;

// A channel's current address and count.
#[derive(Clone, Copy, PartialEq, Eq, Debug)]
pub struct Inspection {
    pub address: u16,
    pub count: u16,
}

// A group's byte pointer while it is borrowed, and as it stood.
struct Keep<'a> {
    pointer: &'a mut BytePointer,
    was: BytePointer,
}

impl Drop for Keep<'_> {
    fn drop(self)
        ensures { self.exit.0.now ≡ self.entry.was }
    {
        *self.pointer = self.was;
        let Keep { pointer: _, was: _ } = self;
    }
}

// The byte of a register that the pointer is at; the pointer moves to the other one.
fn next_byte(pointer: &mut BytePointer, word: u16) -> u8
    ensures value { result ≡ byte_of pointer.old.high word }
    ensures flips { pointer.new.high ≡ not pointer.old.high }
{
    let byte = word.to_le_bytes()[usize::from(pointer.high)];
    pointer.high = !pointer.high;
    byte
}

// Both bytes of a register, low first.
fn both_bytes(pointer: &mut BytePointer, word: u16) -> u16
    ensures { result ≡ word }
{
    pointer.high = false;
    let low = next_byte(pointer, word);
    let high = next_byte(pointer, word);
    u16::from_le_bytes([low, high])
}

// What a span shows through a group's byte pointer, which is put back.
fn look(pointer: &mut BytePointer, span: Span) -> Inspection
    ensures value { result ≡ record { address = span.place.address; count = span.count } }
    ensures same { pointer.new ≡ pointer.old }
{
    let was = *pointer;
    let keep = Keep { pointer, was };
    let address = both_bytes(keep.pointer, span.place.address);
    let count = both_bytes(keep.pointer, span.count);
    Inspection { address, count }
}

impl Controller {
    // A channel's current address and count.
    pub fn inspect(&mut self, c: u8) -> Result<Inspection, Refusal>
        ensures state { Becomes self.old self.new (λ s. s) }
        ensures answer { shown result ≡ inspect_number c }
        ensures value { seen_in result ≡ inspected self.old.registers c }
    {
        if !is_channel(c) {
            return Err(Refusal::NoSuchChannel);
        }
        let span = self.registers.channel(c).current;
        // Two branches: through one joined `&mut` to the pointer the proof did not close (tried).
        if c < 4 {
            Ok(look(&mut self.registers.first.pointer, span))
        } else {
            Ok(look(&mut self.registers.second.pointer, span))
        }
    }
}
