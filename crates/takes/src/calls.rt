// The calls of the two scenes.
use controller::grant::Cycle;
use runs::calls::Call;
use std::array;

fn out(port: u16, value: u8) -> Call {
    Call::Write { port, value }
}

/// Channel 1 records eight bytes at 010000h; channel 5 plays four words from 020000h.
// An array, here and below: the calls take no memory from a heap. What is not written is a step.
pub(crate) fn record_and_play() -> [Call; 32] {
    let mut calls = [Call::Step; 32];
    calls[..19].copy_from_slice(&[
        // channel 1: masked, single, device to memory, address 0000h, page 01h, eight transfers
        out(0x0A, 0x05),
        out(0x0C, 0x00),
        out(0x0B, 0x45),
        out(0x02, 0x00),
        out(0x02, 0x00),
        out(0x83, 0x01),
        out(0x03, 0x07),
        out(0x03, 0x00),
        // channel 5: single, memory to device, address 0000h, page 02h, four transfers
        out(0xD8, 0x00),
        out(0xD6, 0x49),
        out(0xC4, 0x00),
        out(0xC4, 0x00),
        out(0x8B, 0x02),
        out(0xC6, 0x03),
        out(0xC6, 0x00),
        // channel 4 lets the first group through; both channels are unmasked, and their devices ask
        out(0xD4, 0x00),
        out(0xD4, 0x01),
        out(0x0A, 0x01),
        Call::Lines { bits: 0x22 },
    ]);
    calls
}

/// A bus master on channel 6 writes a list of two entries; channel 0 runs it while channel 7 verifies.
pub(crate) fn share_the_bus() -> [Call; 64] {
    let master = [
        // channel 6 cascades a bus master, whose line is active
        out(0xD6, 0xC2),
        out(0xD4, 0x00),
        out(0xD4, 0x02),
        Call::Lines { bits: 0x40 },
        Call::Step,
        Call::Step,
        Call::Take,
        Call::Take,
    ];
    let first = entry(0x0001_0100, 1, false, 0x0001_0000);
    let second = entry(0x0001_0200, 0, true, 0x0001_0008);
    let list = [
        read_cycle(0x0001_000F),
        write_cycle(0x0002_0000, 0xFF),
        read_cycle(0x0001_0800),
        Call::Release,
        read_cycle(0x0001_0000),
        // channel 0 runs the list at 010000h, device to memory, IRQ13 at its end
        out(0x0B, 0x04),
        out(0x420, 0x00),
        out(0x421, 0x00),
        out(0x422, 0x01),
        out(0x423, 0x00),
        out(0x410, 0x41),
        Call::Read { port: 0x418 },
        // channel 7 verifies two words
        out(0xD6, 0x83),
        out(0xCE, 0x01),
        out(0xCE, 0x00),
        out(0xD4, 0x03),
        out(0x0A, 0x00),
        Call::Lines { bits: 0x81 },
    ];
    let steps = [Call::Step; 10];
    let end = [
        Call::Read { port: 0x418 },
        Call::Read { port: 0x40A },
        Call::Read { port: 0x08 },
        Call::Inspect { channel: 0 },
        Call::Inspect { channel: 4 },
        out(0x410, 0x00),
        Call::Read { port: 0x40A },
        Call::Lines { bits: 0x10 },
        Call::Step,
        Call::Release,
        Call::Step,
        Call::Step,
    ];
    let parts = master
        .iter()
        .chain(&first)
        .chain(&second)
        .chain(&list)
        .chain(&steps)
        .chain(&end);
    let mut calls = [Call::Step; 64];
    for (call, part) in calls.iter_mut().zip(parts) {
        *call = *part;
    }
    calls
}

/// The write cycles that put an entry of a list into memory: its address, its count, and bit 63 if it is the last.
fn entry(address: u32, count: u16, last: bool, at: u32) -> [Call; 8] {
    let entry = u64::from(address) | u64::from(count) << 32 | u64::from(last) << 63;
    let bytes = entry.to_le_bytes();
    array::from_fn(|place| write_cycle(at.wrapping_add(place as u32), bytes[place]))
}

fn read_cycle(address: u32) -> Call {
    Call::Cycle {
        cycle: Cycle::Read { address },
    }
}

fn write_cycle(address: u32, byte: u8) -> Call {
    Call::Cycle {
        cycle: Cycle::Write { address, byte },
    }
}
