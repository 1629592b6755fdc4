// The commands of a script, and the byte that each begins with.
// Constants and no enum's discriminants: the reader's slice patterns take no cast.

pub const OUT: u8 = 0x01;

pub const IN: u8 = 0x02;

pub const LINES: u8 = 0x03;

pub const STEP: u8 = 0x04;

pub const PUT: u8 = 0x05;

pub const NEXT: u8 = 0x06;

// A command with its operands; the bytes of PUT are a part of the script.
#[derive(Clone, Copy, PartialEq, Eq, Debug)]
pub enum Command<'a> {
    Out { port: u16, value: u8 },
    In { port: u16 },
    Lines { bits: u8 },
    Step { count: u16 },
    Put { address: u32, bytes: &'a [u8; 8] },
    Next,
}
