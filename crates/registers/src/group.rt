// A group of four channels with the registers that they share.
ghost use Rattle.std.specs.Prelude.{◌≡◌, ◌<◌, ◌||◌, false};
ghost use Rattle.registers.specs.Groups.{slot_of, with_slot, rest_group, fresh_group, with_command, with_pointer, flipped, with_masks, with_lines, without_terminals, cleared_group, masks, irq13s, active, terminals, requests, status_of, group_written, Renews, Gathers};

use crate::channel::Channel;
use crate::ports::Control;
use arbiter::slots::mask;
use bus::place::Addressing;

// Which byte of a 16-bit register the next access moves.
#[derive(Clone, Copy, PartialEq, Eq, Debug)]
pub struct BytePointer {
    pub high: bool,
}

#[derive(Clone, Copy, PartialEq, Eq, Debug)]
pub struct Group {
    pub channels: [Channel; 4],
    pub disabled: bool,
    pub rotating: bool,
    pub active_low: bool,
    pub pointer: BytePointer,
    // the slot last chosen
    pub last: u8,
}

impl Group {
    // A new group; its first slot may have another addressing than the other three.
    pub(crate) fn new(head: Addressing, tail: Addressing) -> Group
        ensures { result ≡ fresh_group head tail }
    {
        let first = Channel::new(head);
        let other = Channel::new(tail);
        Group::at_rest([first, other, other, other])
    }

    // A group of these channels, with nothing else set.
    fn at_rest(channels: [Channel; 4]) -> Group
        ensures { result ≡ rest_group channels }
    {
        Group {
            channels,
            disabled: false,
            rotating: false,
            active_low: false,
            pointer: BytePointer { high: false },
            last: 3,
        }
    }

    // The channel at a slot.
    pub(crate) fn slot(&self, n: u8) -> Channel
        ensures { result ≡ slot_of self.now n }
    {
        self.channels[usize::from(n % 4)]
    }

    // Another channel at a slot.
    pub(crate) fn put(&mut self, n: u8, channel: Channel)
        ensures { self.new ≡ with_slot n channel self.old }
    {
        self.channels[usize::from(n % 4)] = channel;
    }

    // The command register.
    pub(crate) fn set_command(&mut self, value: u8)
        ensures { self.new ≡ with_command value self.old }
    {
        self.disabled = value / 4 % 2 == 1;
        self.rotating = value / 16 % 2 == 1;
        self.active_low = value / 64 % 2 == 1;
    }

    // The byte pointer set to the low byte.
    pub(crate) fn reset_pointer(&mut self)
        ensures { self.new ≡ with_pointer false self.old }
    {
        self.pointer.high = false;
    }

    // The byte pointer flipped, by an accepted access to an address or a count.
    pub(crate) fn flip(&mut self)
        ensures { self.new ≡ flipped self.old }
    {
        self.pointer.high = !self.pointer.high;
    }

    // The registers of the group that touch nothing but the group.
    // Not inlined, nor the three below: in their caller LLVM would choose between the two groups for each field.
    #[inline(never)]
    pub(crate) fn set_control(&mut self, control: Control, value: u8)
        ensures { self.new ≡ group_written control value self.old }
    {
        match control {
            Control::Command => self.set_command(value),
            Control::ClearPointer => self.reset_pointer(),
            Control::ClearMasks => self.set_masks(0),
            Control::AllMasks => self.set_masks(value),
            _ => {}
        }
    }

    // Each channel made anew, from what it was and its slot's bit of a byte.
    // Four calls: with `array::from_fn` the closure needs a contract and a table of weights, and the proof did not close (tried).
    fn renew<F: Fn(Channel, bool) -> Channel>(&mut self, bits: u8, f: F)
        requires { F.IsAlwaysCallable f }
        ensures { Renews (F.post f) bits self.old self.new }
    {
        self.channels = [
            f(self.slot(0), bits % 2 == 1),
            f(self.slot(1), bits / 2 % 2 == 1),
            f(self.slot(2), bits / 4 % 2 == 1),
            f(self.slot(3), bits / 8 % 2 == 1),
        ];
    }

    // All four masks.
    pub(crate) fn set_masks(&mut self, value: u8)
        ensures { self.new ≡ with_masks value self.old }
    {
        self.renew(value, |channel, mask| Channel { mask, ..channel });
    }

    // All four lines.
    pub(crate) fn set_lines(&mut self, bits: u8)
        ensures { self.new ≡ with_lines bits self.old }
    {
        self.renew(bits, |channel, line| Channel { line, ..channel });
    }

    // The terminal count bits cleared, as a read of the status register does.
    #[inline(never)]
    pub(crate) fn clear_terminals(&mut self)
        ensures { self.new ≡ without_terminals self.old }
    {
        // Of no bits each slot's is false. Not `map` of the array: it moves each channel four times more.
        self.renew(
            0,
            |channel, terminal| Channel {
                terminal,
                ..channel
            },
        );
    }

    // Master clear.
    #[inline(never)]
    pub(crate) fn clear(&mut self)
        ensures { self.new ≡ cleared_group self.old }
    {
        self.renew(0, |channel, _| channel.cleared());
        *self = Group::at_rest(self.channels);
    }

    // A flag of each slot and its channel as a number, slot 0's as bit 0.
    // Four calls: after a `map` of the array by a parameter the proof did not close.
    fn bits<F: Fn(u8, Channel) -> bool>(&self, f: F) -> u8
        requires { F.IsAlwaysCallable f }
        ensures value { Gathers (F.post f) self.now result }
        ensures bound { result < 16 }
    {
        mask(
            f(0, self.slot(0)),
            f(1, self.slot(1)),
            f(2, self.slot(2)),
            f(3, self.slot(3)),
        )
    }

    // The masks as a number.
    pub(crate) fn masks(&self) -> u8
        ensures { result ≡ masks self.now }
    {
        self.bits(|_, channel| channel.mask)
    }

    // The IRQ13 bits as a number.
    pub(crate) fn irq13s(&self) -> u8
        ensures value { result ≡ irq13s self.now }
        ensures bound { result < 16 }
    {
        self.bits(|_, channel| channel.list.irq13)
    }

    // Whether a channel's line is active.
    pub fn active(&self, channel: Channel) -> bool
        ensures { result ≡ active self.now channel }
    {
        channel.line != self.active_low
    }

    // The terminal count bits as a number.
    fn terminals(&self, cascades: bool) -> u8
        ensures value { result ≡ terminals cascades self.now }
        ensures bound { result < 16 }
    {
        self.bits(|slot, channel| channel.terminal && (slot > 0 || !cascades))
    }

    // Whether a channel's device or its request bit asks for service.
    fn requested(&self, channel: Channel) -> bool
        ensures { result ≡ (active self.now channel || channel.request) }
    {
        self.active(channel) || channel.request
    }

    // The requests as a number.
    fn requests(&self, cascades: bool) -> u8
        ensures value { result ≡ requests cascades self.now }
        ensures bound { result < 16 }
    {
        self.bits(|slot, channel| self.requested(channel) && (slot > 0 || !cascades))
    }

    // The status register. The slot that cascades the other group shows 0.
    #[inline(never)]
    pub(crate) fn status(&self, cascades: bool) -> u8
        ensures { result ≡ status_of cascades self.now }
    {
        self.terminals(cascades) + self.requests(cascades) * 16
    }
}
