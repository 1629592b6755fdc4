// A take recorded on channel 1 and one played back on channel 5, and a bus master beside a list and plain jobs.
#![tactic(auto)]

mod calls;
mod says;
mod scenes;

use std::io;

fn main(rt: HostRuntime) -> io::Result<()> {
    scenes::record_and_play(&rt)?;
    scenes::share_the_bus(&rt)
}
