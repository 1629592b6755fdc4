// Scripts of commands to a DMA controller: what a command is, a reader and a writer.
#![tactic(auto)]

pub mod command;
pub mod commands;
pub mod fault;
pub mod progress;
pub mod reader;
pub mod writer;
