//! Words and bytes both ways, the texts of numbers, and the lines and fields of a text.
#![tactic(auto)]

mod hex;
mod numbers;
mod texts;
mod words;

pub use hex::{NotHex, hex_line, read_hex};
pub use numbers::{NumberFault, first_number, read_number};
pub use texts::{find, first_field, first_line};
pub use words::{bytes_and_words_go_both_ways, bytes_of, to_words, words_of};
