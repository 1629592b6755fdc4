// Why something was refused or failed, by its number.
// The words are those of the refusals themselves; here a number finds its refusal, for who has only the number.
use controller::fault::{Cause, TableFault};
use controller::grant::BusRefusal;
use memory::{BlockFault, MemoryFault};
use ports::PortFault;
use registers::refusal::Refusal;
use script::fault::ScriptFault;
use std::fmt;
use tape::TapeFault;

/// The refusals of a driver.
const DRIVER: [Refusal; 7] = [
    Refusal::NoSuchPort,
    Refusal::NoSuchChannel,
    Refusal::NoSuchSetting,
    Refusal::ListActive,
    Refusal::UnfitForList,
    Refusal::BadTablePointer,
    Refusal::LineFour,
];

/// The refusals of a bus master, those of its memory apart.
const MASTER: [BusRefusal; 2] = [BusRefusal::NotOffered, BusRefusal::NotGranted];

/// The faults of a step.
const STEP: [Cause; 8] = [
    Cause::Memory(MemoryFault::Absent),
    Cause::Memory(MemoryFault::ReadOnly),
    Cause::Port(PortFault::NothingWaits),
    Cause::Port(PortFault::NoPlace),
    Cause::Port(PortFault::NoSuchChannel),
    Cause::TooWide,
    Cause::Table(TableFault::EntryAbsent),
    Cause::Table(TableFault::TooManyEntries),
];

/// The refusals of a script.
const SCRIPT: [ScriptFault; 3] = [
    ScriptFault::Unknown,
    ScriptFault::CutShort,
    ScriptFault::NoPlace,
];

/// The refusals of a tape.
const TAPE: [TapeFault; 2] = [TapeFault::Full, TapeFault::Empty];

/// The reason that a number stands for.
#[derive(Clone, Copy)]
pub struct Reason(pub u8);

impl fmt::Display for Reason {
    fn fmt<W: fmt::Write>(&self, f: &mut fmt::Formatter<W>) -> fmt::Result {
        let number = self.0;
        if let Some(refusal) = DRIVER.iter().find(|r| r.number() == number) {
            write!(f, "{refusal}")
        } else if let Some(refusal) = MASTER.iter().find(|r| r.number() == number) {
            write!(f, "{refusal}")
        } else if let Some(cause) = STEP.iter().find(|c| c.number() == number) {
            write!(f, "{cause}")
        } else if let Some(fault) = SCRIPT.iter().find(|s| s.number() == number) {
            write!(f, "{fault}")
        } else if let Some(fault) = TAPE.iter().find(|t| t.number() == number) {
            write!(f, "{fault}")
        } else if number == BlockFault::DoesNotFit.number() {
            write!(f, "{}", BlockFault::DoesNotFit)
        } else {
            f.write_str("unknown")
        }
    }
}

/// What a refusal adds to a line: nothing if the number is 0.
#[derive(Clone, Copy)]
pub struct Refused(pub u8);

impl fmt::Display for Refused {
    fn fmt<W: fmt::Write>(&self, f: &mut fmt::Formatter<W>) -> fmt::Result {
        let number = self.0;
        if number == 0 {
            return Ok(());
        }
        let reason = Reason(number);
        write!(f, ": refused, {number}: {reason}")
    }
}
