// The port map: which register a port number reaches, in each direction.
ghost use Rattle.std.specs.Prelude.{◌≡◌};
ghost use Rattle.registers.specs.Ports.{span_port, page_port, table_port, field_port, control_port, list_channel, shown_port, write_port, read_port};

// One of the two groups of four channels.
#[derive(Clone, Copy, PartialEq, Eq, Debug)]
pub enum Dma {
    One,
    Two,
}

// A channel's register that is both read and written; of the table pointer, which byte.
#[derive(Clone, Copy, PartialEq, Eq, Debug)]
pub enum Field {
    Address,
    Count,
    LowPage,
    HighPage,
    Table(u8),
}

// A group's register that is written.
#[derive(Clone, Copy, PartialEq, Eq, Debug)]
pub enum Control {
    Command,
    Request,
    Mask,
    Mode,
    ExtendedMode,
    ClearPointer,
    MasterClear,
    ClearMasks,
    AllMasks,
}

// What a write reaches. A struct of field and channel would only name them a second time: they are this variant's two fields.
#[derive(Clone, Copy, PartialEq, Eq, Debug)]
pub enum WritePort {
    Field(Field, u8),
    ListCommand(u8),
    Control(Control, Dma),
}

// What a read reaches.
#[derive(Clone, Copy, PartialEq, Eq, Debug)]
pub enum ReadPort {
    Field(Field, u8),
    ListStatus(u8),
    Status(Dma),
    AllMasks(Dma),
    Irq13,
}

// The maps are a line a port, as docs/registers.md lists them: a rule for some of the ports would be no plainer.

// Addresses and counts.
fn span_port(port: u16) -> Option<(Field, u8)>
    ensures { result ≡ span_port port }
{
    match port {
        0x00 => Some((Field::Address, 0)),
        0x02 => Some((Field::Address, 1)),
        0x04 => Some((Field::Address, 2)),
        0x06 => Some((Field::Address, 3)),
        0xC4 => Some((Field::Address, 5)),
        0xC8 => Some((Field::Address, 6)),
        0xCC => Some((Field::Address, 7)),
        0x01 => Some((Field::Count, 0)),
        0x03 => Some((Field::Count, 1)),
        0x05 => Some((Field::Count, 2)),
        0x07 => Some((Field::Count, 3)),
        0xC6 => Some((Field::Count, 5)),
        0xCA => Some((Field::Count, 6)),
        0xCE => Some((Field::Count, 7)),
        _ => None,
    }
}

// Low and high pages.
fn page_port(port: u16) -> Option<(Field, u8)>
    ensures { result ≡ page_port port }
{
    match port {
        0x87 => Some((Field::LowPage, 0)),
        0x83 => Some((Field::LowPage, 1)),
        0x81 => Some((Field::LowPage, 2)),
        0x82 => Some((Field::LowPage, 3)),
        0x8B => Some((Field::LowPage, 5)),
        0x89 => Some((Field::LowPage, 6)),
        0x8A => Some((Field::LowPage, 7)),
        0x487 => Some((Field::HighPage, 0)),
        0x483 => Some((Field::HighPage, 1)),
        0x481 => Some((Field::HighPage, 2)),
        0x482 => Some((Field::HighPage, 3)),
        0x48B => Some((Field::HighPage, 5)),
        0x489 => Some((Field::HighPage, 6)),
        0x48A => Some((Field::HighPage, 7)),
        _ => None,
    }
}

// The channel at a place in a row of one for each channel; channel 4 has none.
fn channel_at(place: u16) -> Option<u8>
    ensures { result ≡ list_channel place 0 }
{
    match place {
        0..=3 | 5..=7 => Some(place as u8),
        _ => None,
    }
}

// The channel of a register of which each channel but 4 has one, from a first port on.
fn list_channel(port: u16, first: u16) -> Option<u8>
    ensures { result ≡ list_channel port first }
{
    channel_at(port.checked_sub(first)?)
}

// The table pointers, four ports a channel.
fn table_port(port: u16) -> Option<(Field, u8)>
    ensures { result ≡ table_port port }
{
    let place = port.checked_sub(0x420)?;
    let channel = channel_at(place / 4)?;
    Some((Field::Table((place % 4) as u8), channel))
}

// Every register of a channel that goes both ways.
fn field_port(port: u16) -> Option<(Field, u8)>
    ensures { result ≡ field_port port }
{
    span_port(port)
        .or_else(|| page_port(port))
        .or_else(|| table_port(port))
}

// A group's registers.
fn control_port(port: u16) -> Option<(Control, Dma)>
    ensures { result ≡ control_port port }
{
    match port {
        0x08 => Some((Control::Command, Dma::One)),
        0x09 => Some((Control::Request, Dma::One)),
        0x0A => Some((Control::Mask, Dma::One)),
        0x0B => Some((Control::Mode, Dma::One)),
        0x40B => Some((Control::ExtendedMode, Dma::One)),
        0x0C => Some((Control::ClearPointer, Dma::One)),
        0x0D => Some((Control::MasterClear, Dma::One)),
        0x0E => Some((Control::ClearMasks, Dma::One)),
        0x0F => Some((Control::AllMasks, Dma::One)),
        0xD0 => Some((Control::Command, Dma::Two)),
        0xD2 => Some((Control::Request, Dma::Two)),
        0xD4 => Some((Control::Mask, Dma::Two)),
        0xD6 => Some((Control::Mode, Dma::Two)),
        0x4D6 => Some((Control::ExtendedMode, Dma::Two)),
        0xD8 => Some((Control::ClearPointer, Dma::Two)),
        0xDA => Some((Control::MasterClear, Dma::Two)),
        0xDC => Some((Control::ClearMasks, Dma::Two)),
        0xDE => Some((Control::AllMasks, Dma::Two)),
        _ => None,
    }
}

// What only a read reaches: the status registers, all masks, the IRQ13 bits.
fn shown_port(port: u16) -> Option<ReadPort>
    ensures { result ≡ shown_port port }
{
    match port {
        0x08 => Some(ReadPort::Status(Dma::One)),
        0xD0 => Some(ReadPort::Status(Dma::Two)),
        0x0F => Some(ReadPort::AllMasks(Dma::One)),
        0xDE => Some(ReadPort::AllMasks(Dma::Two)),
        0x40A => Some(ReadPort::Irq13),
        _ => None,
    }
}

// What a write to a port reaches, if anything.
pub fn write_port(port: u16) -> Option<WritePort>
    ensures { result ≡ write_port port }
{
    field_port(port)
        .map(|(field, channel)| WritePort::Field(field, channel))
        .or_else(|| control_port(port).map(|(control, dma)| WritePort::Control(control, dma)))
        .or_else(|| list_channel(port, 0x410).map(WritePort::ListCommand))
}

// What a read of a port reaches, if anything.
pub fn read_port(port: u16) -> Option<ReadPort>
    ensures { result ≡ read_port port }
{
    field_port(port)
        .map(|(field, channel)| ReadPort::Field(field, channel))
        .or_else(|| shown_port(port))
        .or_else(|| list_channel(port, 0x418).map(ReadPort::ListStatus))
}
