// The two scenes: a map and a bank, a run of calls over them, and what came of it.
use crate::calls;
use crate::says::Said;
use memory::{Block, Hole, Join, Memory};
use ports::{Deck, TapeBank};
use runs::calls::{Answer, Call};
use runs::play::{Played, play};
use std::io;
use tape::Tape;

/// Prints each call with its answer.
fn print_calls(rt: &HostRuntime, calls: &[Call], answers: &[Answer]) -> io::Result<()> {
    for (&call, &answer) in calls.iter().zip(answers) {
        let said = Said { call, answer };
        println!(rt; "  {said}")?;
    }
    Ok(())
}

/// Prints some bytes of memory.
fn print_bytes<M: Memory>(rt: &HostRuntime, memory: &M, from: u32, size: u32) -> io::Result<()> {
    print!(rt; "memory at {from:06X}h:")?;
    let bytes = (0..size).map(|offset| memory.read(from.wrapping_add(offset)));
    for byte in bytes {
        match byte {
            Ok(byte) => print!(rt; " {byte:02X}")?,
            Err(_) => print!(rt; " --")?,
        }
    }
    println!(rt; "")
}

/// Prints what a tape holds, and empties it.
fn print_units(rt: &HostRuntime, what: &str, tape: &mut Tape<u16>) -> io::Result<()> {
    print!(rt; "{what}:")?;
    // Not `while let`: a `for` over what the tape holds ends by itself.
    for _ in 0..tape.len() {
        if let Ok(unit) = tape.pop() {
            print!(rt; " {unit:04X}")?;
        }
    }
    println!(rt; "")
}

/// A map: 4,096 writable bytes at 010000h with a hole in their upper half, and 16 read-only bytes at 020000h.
fn map<'a>(low: &'a mut [u8], high: &'a mut [u8]) -> Hole<Join<Block<'a>, Block<'a>>> {
    // Not `picture::board`: nothing depends on the crate of examples.
    let low = Block::over(low, 0x1_0000, true);
    let high = Block::over(high, 0x2_0000, false);
    Hole::new(Join::new(low, high, 0x2_0000), 0x1_0800, 0x1_0FFF)
}

/// A device that has nothing to send and keeps nothing.
fn no_device() -> Deck<'static> {
    Deck::new(&mut [], &mut [])
}

/// A recording on channel 1 and a playback on channel 5.
pub(crate) fn record_and_play(rt: &HostRuntime) -> io::Result<()> {
    println!(rt; "A take recorded on channel 1, and one played back on channel 5")?;
    let mut low = [0u8; 4096];
    let mut high = [0u8; 16];
    high.copy_from_slice(&[
        0x01, 0x10, 0x02, 0x20, 0x03, 0x30, 0x04, 0x40, 0, 0, 0, 0, 0, 0, 0, 0,
    ]);
    let mut memory = map(&mut low, &mut high);
    let mut take = [0x11, 0x22, 0x33, 0x44, 0x55, 0x66, 0x77, 0x88, 0x99];
    let mut room = [0u16; 6];
    let mut bank = TapeBank::new(
        no_device(),
        Deck::new(&mut take, &mut []),
        no_device(),
        no_device(),
        Deck::new(&mut [], &mut room),
        no_device(),
        no_device(),
    );
    let calls = calls::record_and_play();
    let mut answers = [Answer::Release(Ok(())); 32];
    let Played { count: _, session } = play(&mut memory, &mut bank, &calls, &mut answers);
    session.end();
    print_calls(rt, &calls, &answers)?;
    print_bytes(rt, &memory, 0x1_0000, 9)?;
    let (_, recorder, _, _, player, _, _) = bank.into_decks();
    let (mut left, _) = recorder.into_tapes();
    let (_, mut heard) = player.into_tapes();
    print_units(rt, "still waiting on channel 1", &mut left)?;
    print_units(rt, "kept by the device of channel 5", &mut heard)
}

/// A bus master writes a list, channel 0 runs it, and channel 7 verifies beside it.
pub(crate) fn share_the_bus(rt: &HostRuntime) -> io::Result<()> {
    println!(rt; "A bus master on channel 6 writes a list, channel 0 runs it, channel 7 verifies")?;
    let mut low = [0u8; 4096];
    let mut high = [0u8; 16];
    let mut memory = map(&mut low, &mut high);
    let mut take = [0xA1, 0xA2, 0xA3, 0xA4];
    let mut bank = TapeBank::new(
        Deck::new(&mut take, &mut []),
        no_device(),
        no_device(),
        no_device(),
        no_device(),
        no_device(),
        no_device(),
    );
    let calls = calls::share_the_bus();
    let mut answers = [Answer::Release(Ok(())); 64];
    let Played { count: _, session } = play(&mut memory, &mut bank, &calls, &mut answers);
    session.end();
    print_calls(rt, &calls, &answers)?;
    print_bytes(rt, &memory, 0x1_0000, 16)?;
    print_bytes(rt, &memory, 0x1_0100, 2)?;
    print_bytes(rt, &memory, 0x1_0200, 1)?;
    let (recorder, _, _, _, _, _, _) = bank.into_decks();
    let (mut left, _) = recorder.into_tapes();
    print_units(rt, "still waiting on channel 0", &mut left)
}
