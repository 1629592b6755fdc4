// The register file: a driver's writes and reads, and the lines of the devices.
ghost use Rattle.std.specs.Prelude.{◌≡◌};
ghost use Rattle.std.specs.Borrow.{sem};
ghost use Rattle.registers.specs.Lending.{LendsGroup};
ghost use Rattle.registers.specs.Groups.{flipped};
ghost use Rattle.registers.specs.File.{fresh_file, channel_of, with_channel, at_group_of, group_at, dma_of, programmed, with_service, over, picked, high_byte};

use crate::channel::Channel;
use crate::group::Group;
use crate::ports::Dma;
use bus::place::Addressing;

#[derive(Clone, Copy, PartialEq, Eq, Debug)]
pub struct Registers {
    pub first: Group,
    pub second: Group,
    // the channel whose service goes on
    pub service: Option<u8>,
}

impl Dma {
    // The group that a channel is of.
    // Not `From<u8>`: the byte is a channel's number and no code of a group, which `Dma::from(5)` would not tell.
    pub fn of(channel: u8) -> Dma
        ensures { result ≡ dma_of channel }
    {
        if channel < 4 { Dma::One } else { Dma::Two }
    }

    // The channel that the two low bits of a byte pick.
    pub fn picked(self, value: u8) -> u8
        ensures { result ≡ picked self value }
    {
        match self {
            Dma::One => value % 4,
            Dma::Two => 4 + value % 4,
        }
    }
}

impl Registers {
    // The registers as they are made.
    pub fn new() -> Registers
        ensures { result ≡ fresh_file }
    {
        Registers {
            first: Group::new(Addressing::Bytes, Addressing::Bytes),
            second: Group::new(Addressing::Bytes, Addressing::Words),
            service: None,
        }
    }

    // A group's registers.
    pub fn group(&self, dma: Dma) -> &Group
        ensures { result.now ≡ group_at self.now dma }
    {
        match dma {
            Dma::One => &self.first,
            Dma::Two => &self.second,
        }
    }

    // The same, to be changed.
    pub(crate) fn group_mut(&mut self, dma: Dma) -> &mut Group
        ensures* writes_back { sem 𝓛 (LendsGroup self.entry dma result) }
        ensures value { result.now ≡ group_at self.old dma }
    {
        match dma {
            Dma::One => &mut self.first,
            Dma::Two => &mut self.second,
        }
    }

    // A channel's registers.
    pub fn channel(&self, c: u8) -> Channel
        ensures { result ≡ channel_of self.now c }
    {
        self.group(Dma::of(c)).slot(c)
    }

    // Other registers for a channel.
    pub fn put(&mut self, c: u8, channel: Channel)
        ensures { self.new ≡ with_channel c channel self.old }
    {
        self.group_mut(Dma::of(c)).put(c, channel);
    }

    // A channel begins a job with these registers, which ends its service.
    pub(crate) fn program(&mut self, c: u8, channel: Channel)
        ensures { self.new ≡ programmed c channel self.old }
    {
        self.put(c, channel);
        self.end_service(c);
    }

    // A channel's service is over; another's goes on.
    pub fn end_service(&mut self, c: u8)
        ensures { self.new ≡ with_service (over c self.old.service) self.old }
    {
        if self.service == Some(c) {
            self.service = None;
        }
    }

    // The byte pointer of a channel's group stands at the high byte.
    pub(crate) fn high_byte(&self, c: u8) -> bool
        ensures { result ≡ high_byte self.now c }
    {
        self.group(Dma::of(c)).pointer.high
    }

    // The byte pointer of a channel's group flipped.
    pub(crate) fn flip(&mut self, c: u8)
        ensures { self.new ≡ at_group_of c flipped self.old }
    {
        self.group_mut(Dma::of(c)).flip();
    }
}
