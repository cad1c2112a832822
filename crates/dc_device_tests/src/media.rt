ghost use Rattle.std.specs.Prelude.{Some};

use crate::calling::holds;
use dc_media::{Sink, SinkFailed, write_whole};
use std::test::Fail;

/// Takes at most three bytes a call, and fails at its third call.
#[derive(Drop)]
struct ShortSink {
    bytes: Vec<u8>,
    calls: u64,
    faults: u64,
}

impl Sink for ShortSink {
    ghost held = { λ s. Some s.bytes.items };

    ghost faults = { λ s. s.faults };

    fn write_some(&mut self, from: &[u8]) -> Result<usize, SinkFailed> {
        self.calls = self.calls.saturating_add(1);
        let part = from.len().min(3);
        if self.calls == 3 || self.bytes.extend_from_slice(&from[..part]).is_err() {
            self.faults = self.faults.saturating_add(1);
            return Err(SinkFailed);
        }
        Ok(part)
    }
}

#[test]
fn a_fault_leaves_a_front_of_the_piece(rt: HostRuntime) -> Result<(), Fail> {
    let mut sink = ShortSink {
        bytes: Vec::new(rt.alloc()),
        calls: 0,
        faults: 0,
    };
    holds(write_whole(&mut sink, b"trap 0 0 2\n").is_err(), "fails")?;
    holds(sink.bytes.as_slice() == b"trap 0".as_slice(), "a front")?;
    holds(sink.faults == 1, "one fault")?;
    holds(write_whole(&mut sink, b" 0 2\n").is_ok(), "goes on")?;
    holds(sink.bytes.as_slice() == b"trap 0 0 2\n".as_slice(), "all")
}
