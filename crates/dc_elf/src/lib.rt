//! Guests' files: which ELF files are guests, and the image that each loads.
#![tactic(auto)]

mod faults;
mod fields;
mod header;
mod image;
mod part;
mod parts;

pub use faults::{ElfFault, LoadFault};
pub use image::{Image, load};
