// Notices: what a step has to tell besides its answer.
ghost use Rattle.std.specs.Prelude.{◌≡◌, Some};
ghost use Rattle.runner.specs.Notices.{blank_notice, numbers_of, notice_words, notice_of, is_transfer};

use controller::event::Event;
use controller::fault::Fault;
use registers::list::Signal;
use std::fmt;
use tape::Blank;

/// A signal of a channel, or a fault.
#[derive(Clone, Copy, PartialEq, Eq, Debug)]
pub enum Notice {
    Signal { channel: u8, signal: Signal },
    Fault(Fault),
}

impl Blank for Notice {
    ghost blank_of = { blank_notice };

    // Channel 4 carries nothing and so signals nothing: what stands in a freed cell is no notice of a step.
    fn blank() -> Notice {
        Notice::Signal {
            channel: 4,
            signal: Signal::Eop,
        }
    }
}

impl Notice {
    /// The channel, the cause's number and the address; a signal's address is 0.
    pub fn numbers(self) -> (u8, u8, u32)
        ensures channel { result.0 ≡ (numbers_of self).channel }
        ensures cause { result.1 ≡ (numbers_of self).cause }
        ensures address { result.2 ≡ (numbers_of self).address }
    {
        match self {
            Notice::Signal {
                channel,
                signal: Signal::Eop,
            } => (channel, 101, 0),
            Notice::Signal {
                channel,
                signal: Signal::Irq13,
            } => (channel, 102, 0),
            Notice::Fault(fault) => (fault.channel, fault.cause.number(), fault.address),
        }
    }
}

#[tactic(auto, using(crate::proofs::Addresses::eight_digits))]
impl fmt::Display for Notice {
    ghost output = { λ notice. Some (notice_words notice) };

    fn fmt<W: fmt::Write>(&self, f: &mut fmt::Formatter<W>) -> fmt::Result {
        match *self {
            Notice::Signal { channel, signal } => write!(f, "channel {channel} signalled {signal}"),
            Notice::Fault(
                Fault {
                    cause,
                    channel,
                    address,
                },
            ) => {
                let number = cause.number();
                write!(
                    f,
                    "channel {channel} faulted at {address:08X}h, {number}: {cause}"
                )
            }
        }
    }
}

/// What a step gives notice of: its signal, or its fault.
pub(crate) fn notice_of(outcome: Result<Event, Fault>) -> Option<Notice>
    ensures { result ≡ notice_of outcome }
{
    match outcome {
        Ok(
            Event::Moved {
                channel,
                signal: Some(signal),
                ..
            },
        ) => Some(Notice::Signal { channel, signal }),
        Ok(_) => None,
        Err(fault) => Some(Notice::Fault(fault)),
    }
}

/// Whether a step was a transfer.
pub(crate) fn is_transfer(outcome: Result<Event, Fault>) -> bool
    ensures { result ≡ is_transfer outcome }
{
    matches!(outcome, Ok(Event::Moved { .. }))
}
