// The names of ports.
use std::fmt;

/// A port with what it reaches, as `DMA1 mask (000Ah)`; with nothing there, as `port 00FFh`.
#[derive(Clone, Copy)]
pub struct PortName<R> {
    pub port: u16,
    pub reached: Option<R>,
}

impl<R: fmt::Display> fmt::Display for PortName<R> {
    fn fmt<W: fmt::Write>(&self, f: &mut fmt::Formatter<W>) -> fmt::Result {
        let port = self.port;
        match &self.reached {
            None => write!(f, "port {port:04X}h"),
            Some(register) => write!(f, "{register} ({port:04X}h)"),
        }
    }
}
