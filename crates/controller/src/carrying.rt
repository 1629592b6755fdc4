// One unit between a device and memory.
ghost use Rattle.std.specs.Prelude.{◌≡◌, Ok};
ghost use Rattle.memory.specs.Faults.{memory_number};
ghost use Rattle.registers.specs.declared.mode.Transfer.TheVariants.{Read, Write};
ghost use Rattle.controller.specs.Outside.{outside_of, Does};
ghost use Rattle.controller.specs.Carrying.{and_then, named, is_of_kind, first_of_kind, presence, writability, width, offered, stored_unit, read_unit, carried};

use crate::fault::{Cause, Fault};
use crate::target::Target;
use bus::place::Addressing;
use memory::{Kind, Memory, MemoryFault};
use ports::PortBank;
use registers::mode::Transfer;

// Memory, bank and target are parameters apart: the first two are the caller's, lent apart, and the target is a value of this crate.
// `lenders` is one equation of a ghost member of the caller's memory, which a definition would only rename.

// The first byte of a unit that is of a kind.
fn first_of<M: Memory>(memory: &M, kind: Kind, target: Target) -> Option<u32>
    ensures { result ≡ first_of_kind (is_of_kind kind) (M.kind_at memory.now) target.addressing target.address }
{
    if memory.kind(target.address) == kind {
        return Some(target.address);
    }
    match target.addressing {
        Addressing::Words if memory.kind(target.above()) == kind => Some(target.above()),
        _ => None,
    }
}

// Refused where a byte of the unit is of a kind.
fn check_none<M: Memory>(
    memory: &M,
    kind: Kind,
    fault: MemoryFault,
    target: Target,
) -> Result<(), Fault>
    ensures { result ≡ named (memory_number fault) target.channel (first_of_kind (is_of_kind kind) (M.kind_at memory.now) target.addressing target.address) }
{
    match first_of(memory, kind, target) {
        Some(at) => Err(target.fault(fault.into(), at)),
        None => Ok(()),
    }
}

// Refused where a byte of the unit is absent.
fn check_present<M: Memory>(memory: &M, target: Target) -> Result<(), Fault>
    ensures { result ≡ presence (M.kind_at memory.now) target.channel target.addressing target.address }
{
    check_none(memory, Kind::Absent, MemoryFault::Absent, target)
}

// Refused where a byte of the unit cannot be written.
fn check_writable<M: Memory>(memory: &M, target: Target) -> Result<(), Fault>
    ensures { result ≡ writability (M.kind_at memory.now) target.channel target.addressing target.address }
{
    check_present(memory, target)?;
    check_none(memory, Kind::ReadOnly, MemoryFault::ReadOnly, target)
}

// Refused where a unit is too wide for its transfer.
fn check_width(target: Target, unit: u16) -> Result<u16, Fault>
    ensures { result ≡ width target.channel target.addressing target.address unit }
{
    match target.addressing {
        Addressing::Bytes if unit > 255 => Err(target.fault(Cause::TooWide, target.address)),
        _ => Ok(unit),
    }
}

// The unit that a device offers to memory, once every check has passed; nothing moves yet.
fn offer<M: Memory, B: PortBank>(memory: &M, bank: &B, target: Target) -> Result<u16, Fault>
    ensures { result ≡ offered (outside_of M.Memory B.PortBank memory.now bank.now) target.channel target.addressing target.address }
{
    check_writable(memory, target)?;
    let unit = bank
        .look(target.channel)
        .map_err(|e| target.fault(e.into(), target.address))?;
    check_width(target, unit)
}

// A unit stored where every byte of it can be written.
fn store<M: Memory>(memory: &mut M, target: Target, unit: u16) -> Result<(), Fault>
    requires { and_then (writability (M.kind_at memory.old) target.channel target.addressing target.address) (width target.channel target.addressing target.address unit) ≡ Ok unit }
    ensures answer { result ≡ Ok tt }
    ensures kinds { M.kind_at memory.new ≡ M.kind_at memory.old }
    ensures bytes { M.byte_at memory.new ≡ stored_unit target.addressing (M.byte_at memory.old) target.address unit }
    ensures lenders { M.fixed memory.new ≡ M.fixed memory.old }
{
    let [low, high] = unit.to_le_bytes();
    memory
        .write(target.address, low)
        .map_err(|e| target.fault(e.into(), target.address))?;
    match target.addressing {
        Addressing::Bytes => Ok(()),
        Addressing::Words => memory
            .write(target.above(), high)
            .map_err(|e| target.fault(e.into(), target.above())),
    }
}

// A unit from a device to memory.
fn carry_in<M: Memory, B: PortBank>(
    memory: &mut M,
    bank: &mut B,
    target: Target,
) -> Result<u16, Fault>
    ensures does { Does (carried Write (outside_of M.Memory B.PortBank memory.old bank.old) target.channel target.addressing target.address) (outside_of M.Memory B.PortBank memory.new bank.new) result }
    ensures lenders { M.fixed memory.new ≡ M.fixed memory.old }
{
    let unit = offer(memory, bank, target)?;
    bank.take(target.channel)
        .map_err(|e| target.fault(e.into(), target.address))?;
    store(memory, target, unit)?;
    Ok(unit)
}

// The unit that memory shows at an address.
fn load<M: Memory>(memory: &M, target: Target) -> Result<u16, Fault>
    ensures { result ≡ and_then (presence (M.kind_at memory.now) target.channel target.addressing target.address) (Ok (read_unit target.addressing (M.byte_at memory.now) target.address)) }
{
    check_present(memory, target)?;
    let low = memory
        .read(target.address)
        .map_err(|e| target.fault(e.into(), target.address))?;
    match target.addressing {
        Addressing::Bytes => Ok(u16::from(low)),
        Addressing::Words => {
            let high = memory
                .read(target.above())
                .map_err(|e| target.fault(e.into(), target.above()))?;
            Ok(u16::from_le_bytes([low, high]))
        }
    }
}

// A unit from memory to a device.
fn carry_out<M: Memory, B: PortBank>(memory: &M, bank: &mut B, target: Target) -> Result<u16, Fault>
    ensures { Does (carried Read (outside_of M.Memory B.PortBank memory.now bank.old) target.channel target.addressing target.address) (outside_of M.Memory B.PortBank memory.now bank.new) result }
{
    let unit = load(memory, target)?;
    bank.give(target.channel, unit)
        .map_err(|e| target.fault(e.into(), target.address))?;
    Ok(unit)
}

// A transfer of one unit.
pub(crate) fn carry<M: Memory, B: PortBank>(
    transfer: Transfer,
    memory: &mut M,
    bank: &mut B,
    target: Target,
) -> Result<u16, Fault>
    ensures does { Does (carried transfer (outside_of M.Memory B.PortBank memory.old bank.old) target.channel target.addressing target.address) (outside_of M.Memory B.PortBank memory.new bank.new) result }
    ensures lenders { M.fixed memory.new ≡ M.fixed memory.old }
{
    match transfer {
        Transfer::Verify => Ok(0),
        Transfer::Write => carry_in(memory, bank, target),
        Transfer::Read => carry_out(memory, bank, target),
    }
}
