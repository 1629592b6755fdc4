// The controller: its registers, and where the bus is.
ghost use Rattle.std.specs.Prelude.{◌≡◌};
ghost use Rattle.registers.specs.Refusals.{shown, value_of};
ghost use Rattle.registers.specs.File.{write_number, written, read_number, read_value, read_leaves, lines_number, lined};
ghost use Rattle.controller.specs.Outside.{Outside};
ghost use Rattle.controller.specs.Steps.{Becomes, state_of, fresh, with_registers};

use registers::file::Registers;
use registers::refusal::Refusal;

// Where the bus is: here, sent out to a cascade channel, or taken by its bus master.
#[derive(Clone, Copy, PartialEq, Eq, Debug)]
pub enum Bus {
    Home,
    Out(u8),
    Taken(u8),
}

#[derive(Drop)]
pub struct Controller {
    pub(crate) registers: Registers,
    pub(crate) bus: Bus,
}

impl Controller {
    // A controller as it is made.
    pub fn new() -> Controller
        ensures { (o : Outside) → state_of result o ≡ fresh o }
    {
        Controller {
            registers: Registers::new(),
            bus: Bus::Home,
        }
    }

    // A byte written to a port by the driver.
    pub fn write(&mut self, port: u16, value: u8) -> Result<(), Refusal>
        ensures state { Becomes self.old self.new (with_registers (written port value self.old.registers)) }
        ensures answer { shown result ≡ write_number self.old.registers port value }
    {
        self.registers.write(port, value)
    }

    // A port read by the driver.
    pub fn read(&mut self, port: u16) -> Result<u8, Refusal>
        ensures state { Becomes self.old self.new (with_registers (read_leaves port self.old.registers)) }
        ensures answer { shown result ≡ read_number port }
        ensures value { value_of result ≡ read_value self.old.registers port }
    {
        self.registers.read(port)
    }

    // The levels of the devices' lines.
    pub fn lines(&mut self, bits: u8) -> Result<(), Refusal>
        ensures state { Becomes self.old self.new (with_registers (lined bits self.old.registers)) }
        ensures answer { shown result ≡ lines_number bits }
    {
        self.registers.lines(bits)
    }
}
