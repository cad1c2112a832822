use dc_model::{Text, reports_are_enough};
use std::test::Fail;

#[test]
fn a_text_is_its_bytes(_rt: HostRuntime) -> Result<(), Fail> {
    for bytes in [b"".as_slice(), b"hi".as_slice(), [7; 256].as_slice()] {
        if bytes.len() > 256 || Text::new(bytes).as_slice() != bytes {
            return Err(Fail::new("a text"));
        }
    }
    reports_are_enough::<u32>();
    Ok(())
}
