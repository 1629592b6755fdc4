// Channels that a byte names.
use std::fmt;

/// The channels whose bits are set, as `1 5`; bit 0 is that of the first.
#[derive(Clone, Copy)]
pub struct Channels {
    pub bits: u8,
    pub first: u8,
}

impl fmt::Display for Channels {
    fn fmt<W: fmt::Write>(&self, f: &mut fmt::Formatter<W>) -> fmt::Result {
        let Channels { bits, first } = *self;
        if bits == 0 {
            return f.write_str("none");
        }
        let set = (0..8u8).filter(|bit| bits.rotate_right(u32::from(*bit)) & 1 == 1);
        for (place, bit) in set.enumerate() {
            if place > 0 {
                f.write_str(" ")?;
            }
            let channel = first.saturating_add(bit);
            write!(f, "{channel}")?;
        }
        Ok(())
    }
}
