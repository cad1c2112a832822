ghost use Rattle.std.specs.Prelude.{◌≡◌, ◌≤◌, length};
ghost use Rattle.dc_links.specs.Message.{padded};

use dc_limits::MESSAGE_BYTES;
use std::marker::Model;

/// A message. It is seen as the list of its bytes.
#[derive(Clone, Copy, Debug, PartialEq, Eq)]
pub struct Message {
    bytes: [u8; MESSAGE_BYTES],
    len: usize,
}

impl Model for Message {
    ghost use Rattle.std.specs.Prelude.{ℕ, List, length, take, ◌≤◌, ◌≡◌};
    ghost use Rattle.dc_limits.specs.declared.sizes.TheConstants.{MESSAGE_BYTES};
    ghost use Rattle.dc_links.specs.Message.{padded};

    ghost Value = { List ℕ };

    ghost view = { λ m. take m.len m.bytes };

    ghost invariant = { λ m. (m.len ≤ MESSAGE_BYTES) × (m.bytes ≡ padded (take m.len m.bytes)) × (length m.bytes ≡ MESSAGE_BYTES) };

    ghost inverse = { λ v. record { bytes = padded v; len = length v } };
}

impl Message {
    /// A copy of the bytes.
    pub fn new(bytes: &[u8]) -> Message
        requires { length bytes.now ≤ MESSAGE_BYTES }
        ensures { result ≡ bytes.now }
    {
        let mut room = [0; MESSAGE_BYTES];
        room[..bytes.len()].copy_from_slice(bytes);
        Message {
            bytes: room,
            len: bytes.len(),
        }
    }

    /// The bytes.
    pub fn as_slice(&self) -> &[u8]
        ensures bytes { result.now ≡ self.now }
        ensures short { length result.now ≤ MESSAGE_BYTES }
    {
        &self.bytes[..self.len]
    }

    /// The bytes with the zeros after them.
    pub fn as_padded(&self) -> &[u8]
        ensures bytes { result.now ≡ padded self.now }
        ensures length { length result.now ≡ MESSAGE_BYTES }
    {
        &self.bytes
    }
}
