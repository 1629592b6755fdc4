// The controller: services, transfers, descriptor fetches, grants and inspection over the register file.
#![tactic(auto)]

pub mod asking;
pub mod carrying;
pub mod controller;
pub mod event;
pub mod fault;
pub mod fetching;
pub mod grant;
pub mod inspect;
pub mod passing;
pub mod step;
mod target;
