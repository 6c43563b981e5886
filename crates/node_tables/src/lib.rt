//! Node tables and their images.
#![tactic(auto)]

mod copies;
mod entries;
mod fault;
mod image;
#[cfg(test)]
mod part_tests;
mod parts;
mod reader;
mod rows;
mod tables;
#[cfg(test)]
mod tests;
mod version;
mod writer;

pub use fault::ImageFault;
pub use image::{read_image, write_image};
pub use parts::tables_of;
pub use rows::make_tasks;
pub use tables::{ModeTable, NodeTable, OwnMessage, OwnRound, OwnSlot, OwnTask};
