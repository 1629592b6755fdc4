// How often each channel signalled and faulted.
use controller::fault::Fault;
use registers::list::Signal;
use runner::{Answer, Notice};
use std::fmt;

/// What the notices said of one channel.
#[derive(Clone, Copy, PartialEq, Eq, Default)]
pub struct Seen {
    eop: u32,
    irq13: u32,
    faults: u32,
}

impl Seen {
    /// Counts one notice more.
    fn count(&mut self, notice: Notice) {
        let times = match notice {
            Notice::Signal {
                signal: Signal::Eop,
                ..
            } => &mut self.eop,
            Notice::Signal {
                signal: Signal::Irq13,
                ..
            } => &mut self.irq13,
            Notice::Fault(_) => &mut self.faults,
        };
        *times = times.saturating_add(1);
    }
}

/// Counts an answer that is a notice.
pub(crate) fn count(seen: &mut [Seen], answer: Answer) {
    let Answer::Next(Ok(notice)) = answer else {
        return;
    };
    let channel = match notice {
        Notice::Signal { channel, .. } | Notice::Fault(Fault { channel, .. }) => channel,
    };
    if let Some(seen) = seen.get_mut(usize::from(channel)) {
        seen.count(notice);
    }
}

impl fmt::Display for Seen {
    fn fmt<W: fmt::Write>(&self, f: &mut fmt::Formatter<W>) -> fmt::Result {
        let Seen { eop, irq13, faults } = *self;
        write!(f, "EOP {eop}, IRQ13 {irq13}, faults {faults}")
    }
}
