// A driver's reads, and the lines of the devices.
ghost use Rattle.std.specs.Prelude.{◌≡◌};
ghost use Rattle.registers.specs.Refusals.{shown, value_of};
ghost use Rattle.registers.specs.File.{field_value, field_read, value_at, read_at, read_number, read_value, read_leaves, lines_number, lined};

use crate::channel::byte_of;
use crate::file::Registers;
use crate::ports::{Dma, Field, ReadPort, read_port};
use crate::refusal::Refusal;

impl Registers {
    // The byte that a port shows. A read of a status clears its terminal counts, one of an address or a count flips the byte pointer.
    pub fn read(&mut self, port: u16) -> Result<u8, Refusal>
        ensures state { self.new ≡ read_leaves port self.old }
        ensures answer { shown result ≡ read_number port }
        ensures value { value_of result ≡ read_value self.old port }
    {
        let source = read_port(port).ok_or(Refusal::NoSuchPort)?;
        let value = self.value_at(source);
        self.leave(source);
        Ok(value)
    }

    fn value_at(&self, source: ReadPort) -> u8
        ensures { result ≡ value_at self.now source }
    {
        match source {
            ReadPort::Field(field, c) => self.field_value(field, c),
            ReadPort::ListStatus(c) => self.channel(c).list.status(),
            ReadPort::Status(dma) => self.group(dma).status(dma == Dma::Two),
            ReadPort::AllMasks(dma) => self.group(dma).masks(),
            ReadPort::Irq13 => self.first.irq13s() + self.second.irq13s() * 16,
        }
    }

    // Field and channel stay two parameters: together they are a `ReadPort` taken apart.
    fn field_value(&self, field: Field, c: u8) -> u8
        ensures { result ≡ field_value self.now field c }
    {
        let channel = self.channel(c);
        match field {
            Field::Address => byte_of(self.high_byte(c), channel.current.place.address),
            Field::Count => byte_of(self.high_byte(c), channel.current.count),
            Field::LowPage => channel.current.place.low,
            Field::HighPage => channel.current.place.high,
            Field::Table(byte) => channel.list.table_byte(byte),
        }
    }

    // What a read changes.
    fn leave(&mut self, source: ReadPort)
        ensures { self.new ≡ read_at source self.old }
    {
        match source {
            ReadPort::Field(Field::Address | Field::Count, c) => self.flip(c),
            ReadPort::Status(dma) => self.group_mut(dma).clear_terminals(),
            _ => {}
        }
    }

    // The levels of the devices' lines, bit c for channel c; channel 4 has no device.
    pub fn lines(&mut self, bits: u8) -> Result<(), Refusal>
        ensures state { self.new ≡ lined bits self.old }
        ensures answer { shown result ≡ lines_number bits }
    {
        if bits / 16 % 2 == 1 {
            return Err(Refusal::LineFour);
        }
        self.first.set_lines(bits % 16);
        self.second.set_lines(bits / 16);
        Ok(())
    }
}
