// What a script drives: a controller with its notices, a memory and a port bank.
use memory::Block;
use ports::RampBank;
use runner::{Answer, Desk, Notice};
use script::command::Command;

/// How many units wait at each channel.
const UNITS: u32 = 256;

#[derive(Drop)]
pub struct Machine<'a> {
    desk: Desk<'a>,
    memory: Block<'a>,
    bank: RampBank,
}

impl<'a> Machine<'a> {
    /// A new controller with these bytes as its memory from 0 on, and these cells for notices.
    pub(crate) fn new(bytes: &'a mut [u8], cells: &'a mut [Notice]) -> Machine<'a> {
        Machine {
            desk: Desk::new(cells),
            memory: Block::over(bytes, 0, true),
            bank: RampBank::counting(UNITS),
        }
    }

    /// Plays a command as a run of a script does.
    pub(crate) fn play(&mut self, command: Command) -> Answer {
        self.desk.play(command, &mut self.memory, &mut self.bank)
    }
}
