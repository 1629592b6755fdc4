// A driver's writes.
ghost use Rattle.std.specs.Prelude.{◌≡◌, if◌then◌else◌};
ghost use Rattle.registers.specs.Refusals.{shown};
ghost use Rattle.registers.specs.Groups.{cleared_group, group_written};
ghost use Rattle.registers.specs.File.{channel_of, programmed, over_in, with_service, picked, busy, mode_refusal, extended_refusal, control_refusal, control_written, at_dma, refusal_at, field_written, list_written, written_at, write_number, written};
ghost use Rattle.registers.specs.Channels.{list_refusal};
ghost use Rattle.registers.specs.declared.ports.WritePort.TheVariants as target;

use crate::channel::{Channel, Half};
use crate::file::Registers;
use crate::mode::{Mode, Service};
use crate::ports::{Control, Dma, Field, WritePort, write_port};
use crate::refusal::Refusal;

impl Registers {
    // A byte written to a port, by number order of what can refuse it; a refusal changes nothing.
    pub fn write(&mut self, port: u16, value: u8) -> Result<(), Refusal>
        ensures state { self.new ≡ written port value self.old }
        ensures answer { shown result ≡ write_number self.old port value }
    {
        let target = write_port(port).ok_or(Refusal::NoSuchPort)?;
        self.write_at(target, value)
    }

    fn write_at(&mut self, target: WritePort, value: u8) -> Result<(), Refusal>
        ensures state { self.new ≡ written_at target value self.old }
        ensures answer { shown result ≡ refusal_at self.old target value }
    {
        match target {
            WritePort::Field(field, c) => self.write_field(field, c, value),
            WritePort::ListCommand(c) => self.command_list(c, value),
            WritePort::Control(control, dma) => self.write_control(control, dma, value),
        }
    }

    // Refused while the channel's list is active.
    fn idle_list(&self, c: u8) -> Result<(), Refusal>
        ensures { shown result ≡ (if busy self.now c then 4 else 0) }
    {
        if self.channel(c).list.active {
            return Err(Refusal::ListActive);
        }
        Ok(())
    }

    // Field, channel and value stay three parameters, here and below: together they are a `WritePort` taken apart, with its value.
    fn write_field(&mut self, field: Field, c: u8, value: u8) -> Result<(), Refusal>
        ensures state { self.new ≡ written_at (target.Field field c) value self.old }
        ensures answer { shown result ≡ refusal_at self.old (target.Field field c) value }
    {
        self.idle_list(c)?;
        self.set_field(field, c, value);
        Ok(())
    }

    fn set_field(&mut self, field: Field, c: u8, value: u8)
        ensures { self.new ≡ field_written field c value self.old }
    {
        let channel = self.channel(c);
        let byte = Half {
            high: self.high_byte(c),
            value,
        };
        match field {
            Field::Address => {
                self.program(c, channel.with_address(byte));
                self.flip(c);
            }
            Field::Count => {
                self.program(c, channel.with_count(byte));
                self.flip(c);
            }
            Field::LowPage => self.program(c, channel.with_low(value)),
            Field::HighPage => self.program(c, channel.with_high(value)),
            Field::Table(byte) => self.put(c, channel.with_table_byte(byte, value)),
        }
    }

    // Start, Stop, or neither; and the selection of the signal.
    fn command_list(&mut self, c: u8, value: u8) -> Result<(), Refusal>
        ensures state { self.new ≡ written_at (target.ListCommand c) value self.old }
        ensures answer { shown result ≡ refusal_at self.old (target.ListCommand c) value }
    {
        let channel = self.channel(c);
        channel.refuses_command(value)?;
        let commanded = channel.with_list_command(value);
        if channel.begins_job(value) {
            self.program(c, commanded);
        } else {
            self.put(c, commanded);
        }
        Ok(())
    }

    // So do control, group and value: a `WritePort` and its value again; `c` below is the channel that group and value pick.
    fn write_control(&mut self, control: Control, dma: Dma, value: u8) -> Result<(), Refusal>
        ensures state { self.new ≡ written_at (target.Control control dma) value self.old }
        ensures answer { shown result ≡ refusal_at self.old (target.Control control dma) value }
    {
        self.refuses_control(control, dma, value)?;
        self.set_control(control, dma, value);
        Ok(())
    }

    fn refuses_control(&self, control: Control, dma: Dma, value: u8) -> Result<(), Refusal>
        ensures { shown result ≡ control_refusal self.now control dma value }
    {
        let c = dma.picked(value);
        match control {
            Control::Request if c == 4 => Err(Refusal::NoSuchChannel),
            Control::Mode => self.refuses_mode(c, value),
            Control::ExtendedMode => self.refuses_extended_mode(c, value),
            _ => Ok(()),
        }
    }

    // By number, here and below: no enum has the settings that are refused.
    fn refuses_mode(&self, c: u8, value: u8) -> Result<(), Refusal>
        ensures { shown result ≡ mode_refusal self.now c value }
    {
        let cascades = Service::from(value / 64) == Service::Cascade;
        if !cascades && (value / 4 % 4 == 3 || c == 4) {
            return Err(Refusal::NoSuchSetting);
        }
        self.idle_list(c)
    }

    fn refuses_extended_mode(&self, c: u8, value: u8) -> Result<(), Refusal>
        ensures { shown result ≡ extended_refusal self.now c value }
    {
        if c == 4 {
            return Err(Refusal::NoSuchChannel);
        }
        if value / 4 % 4 >= 2 {
            return Err(Refusal::NoSuchSetting);
        }
        self.idle_list(c)
    }

    fn set_control(&mut self, control: Control, dma: Dma, value: u8)
        ensures { self.new ≡ control_written control dma value self.old }
    {
        let c = dma.picked(value);
        let channel = self.channel(c);
        match control {
            Control::Request => {
                let request = value / 4 % 2 == 1;
                self.put(c, Channel { request, ..channel });
            },
            Control::Mask => {
                let mask = value / 4 % 2 == 1;
                self.put(c, Channel { mask, ..channel });
            },
            Control::Mode => {
                let mode = Mode::from(value);
                self.program(c, Channel { mode, ..channel });
            },
            Control::ExtendedMode => self.program(c, channel.with_extended_mode(value)),
            Control::MasterClear => self.clear(dma),
            _ => self.group_mut(dma).set_control(control, value),
        }
    }

    // Master clear of a group, which ends a service of its channels.
    fn clear(&mut self, dma: Dma)
        ensures { self.new ≡ with_service (over_in dma self.old.service) (at_dma dma cleared_group self.old) }
    {
        self.group_mut(dma).clear();
        if self.service.is_some_and(|c| Dma::of(c) == dma) {
            self.service = None;
        }
    }
}
