// A channel's registers after a transfer.
ghost use Rattle.std.specs.Prelude.{◌≡◌};
ghost use Rattle.controller.specs.Passing.{passes, course_of, stepped, with_current, plain_end, entry_span, holding, loaded_with, list_end, entry_end, count_end, passed, faulted};

use bus::place::{Addressing, Course, Place};
use registers::channel::{Channel, Span};
use registers::list::{Entry, List, Signal};
use registers::mode::Service;

// What a transfer leaves: the channel, the signal that it gives, and whether the service is over.
#[derive(Clone, Copy, PartialEq, Eq, Debug)]
pub struct Passed {
    pub channel: Channel,
    pub signal: Option<Signal>,
    pub over: bool,
}

// How a channel's address moves.
fn course(channel: Channel) -> Course
    ensures { result ≡ course_of channel }
{
    Course {
        addressing: channel.addressing,
        extended: channel.extended,
        decrement: channel.mode.decrement,
    }
}

// The address that a channel's next transfer passes.
pub(crate) fn address(channel: Channel) -> u32
    ensures { result ≡ passes channel }
{
    channel.current.place.bus_address(channel.addressing)
}

// The current registers one unit on.
fn step_span(channel: Channel) -> Span
    ensures { result ≡ stepped channel }
{
    let Span { place, count } = channel.current;
    Span {
        place: place.moved(course(channel)),
        count: count.wrapping_sub(1),
    }
}

// The registers that an entry is loaded into.
fn entry_span(entry: Entry) -> Span
    ensures { result ≡ entry_span entry }
{
    Span {
        place: Place::at(entry.address, Addressing::Bytes, 0),
        count: entry.count,
    }
}

// An entry becomes current.
pub(crate) fn load_current(entry: Entry, channel: Channel) -> Channel
    ensures { result ≡ loaded_with entry channel }
{
    Channel {
        current: entry_span(entry),
        extended: true,
        ..channel
    }
}

// The end of a plain job.
fn end_plain(channel: Channel) -> Channel
    ensures { result ≡ plain_end channel }
{
    let ended = Channel {
        request: false,
        terminal: true,
        ..channel
    };
    if channel.mode.autoinitialise {
        Channel {
            current: channel.base,
            ..ended
        }
    } else {
        Channel {
            mask: true,
            ..ended
        }
    }
}

// The end of a list.
fn end_list(channel: Channel) -> Channel
    ensures { result ≡ list_end channel }
{
    let list = List {
        active: false,
        loaded: false,
        reserve: None,
        irq13: channel.list.irq13 || channel.list.signal == Signal::Irq13,
        ..channel.list
    };
    Channel {
        mask: true,
        request: false,
        terminal: true,
        list,
        ..channel
    }
}

// The end of an entry.
fn end_entry(channel: Channel) -> Passed
    ensures { result ≡ entry_end channel.list.reserve channel }
{
    let mut list = channel.list;
    if let Some(entry) = list.reserve.take() {
        list.loaded = true;
        let channel = Channel {
            list,
            ..load_current(entry, channel)
        };
        return Passed {
            channel,
            signal: None,
            over: true,
        };
    }
    if list.ended || list.stopped {
        return Passed {
            channel: end_list(channel),
            signal: Some(list.signal),
            over: true,
        };
    }
    list.loaded = false;
    Passed {
        channel: Channel { list, ..channel },
        signal: None,
        over: true,
    }
}

// The end of a count.
fn end_count(channel: Channel) -> Passed
    ensures { result ≡ count_end channel }
{
    if channel.list.active {
        return end_entry(channel);
    }
    Passed {
        channel: end_plain(channel),
        signal: Some(Signal::Eop),
        over: true,
    }
}

// A channel after a transfer.
pub(crate) fn pass(channel: Channel) -> Passed
    ensures { result ≡ passed channel }
{
    let moved = Channel {
        current: step_span(channel),
        ..channel
    };
    if channel.current.count == 0 {
        return end_count(moved);
    }
    Passed {
        channel: moved,
        signal: None,
        over: channel.mode.service == Service::Single,
    }
}

// A channel after a fault.
pub(crate) fn fail(channel: Channel) -> Channel
    ensures { result ≡ faulted channel }
{
    Channel {
        mask: true,
        request: false,
        ..channel
    }
}
