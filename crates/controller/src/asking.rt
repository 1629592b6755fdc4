// Who asks for the bus, who goes on with it, and who fetches when nobody asks.
ghost use Rattle.std.specs.Prelude.{◌≡◌};
ghost use Rattle.controller.specs.Asking.{wants, second_open, first_open, allowed, asks, first_ask, goes_on, is_open, has_place, fetches, first_fetching};

use registers::channel::Channel;
use registers::file::Registers;
use registers::group::Group;
use registers::list::List;
use registers::mode::Service;
use registers::ports::Dma;

// The functions below take registers and a channel and are no methods: the type is of the crate that knows nothing of asking.

// By its line while its mask is clear, or by its request bit in block mode.
fn wants(group: &Group, channel: Channel) -> bool
    ensures { result ≡ wants group.now channel }
{
    let by_line = group.active(channel) && !channel.mask;
    by_line || channel.request && channel.mode.service == Service::Block
}

// The second group may have the bus.
fn second_open(registers: &Registers) -> bool
    ensures { result ≡ second_open registers.now }
{
    !registers.second.disabled
}

// The first group may have the bus, through channel 4.
fn first_open(registers: &Registers) -> bool
    ensures { result ≡ first_open registers.now }
{
    !registers.first.disabled && second_open(registers) && !registers.channel(4).mask
}

fn allowed(registers: &Registers, c: u8) -> bool
    ensures { result ≡ allowed registers.now c }
{
    match Dma::of(c) {
        Dma::One => first_open(registers),
        Dma::Two => second_open(registers),
    }
}

// Whether a channel asks.
pub fn asks(registers: &Registers, c: u8) -> bool
    ensures { result ≡ asks registers.now c }
{
    allowed(registers, c) && wants(registers.group(Dma::of(c)), registers.channel(c))
}

// Whether the service of a channel goes on.
pub(crate) fn goes_on(registers: &Registers, c: u8) -> bool
    ensures { result ≡ goes_on registers.now c }
{
    let channel = registers.channel(c);
    if channel.mode.service == Service::Block {
        allowed(registers, c) && (!channel.mask || channel.request)
    } else {
        asks(registers, c)
    }
}

// Whether a channel's list fetches ahead.
fn fetches(registers: &Registers, c: u8) -> bool
    ensures { result ≡ fetches registers.now c }
{
    let channel = registers.channel(c);
    !channel.mask && is_open(channel.list) && has_place(channel.list)
}

// A list that can still fetch.
fn is_open(list: List) -> bool
    ensures { result ≡ is_open list }
{
    list.active && !list.ended && !list.stopped
}

// A list with a place for an entry.
fn has_place(list: List) -> bool
    ensures { result ≡ has_place list }
{
    !list.loaded || list.reserve.is_none()
}

// The lowest channel that fetches ahead.
pub(crate) fn first_fetching(registers: &Registers) -> Option<u8>
    ensures { result ≡ first_fetching registers.now }
{
    [0, 1, 2, 3, 5, 6, 7]
        .iter()
        .find(|c| fetches(registers, **c))
        .copied()
}
