use dc_recovery::{processes_recover, reaches_are_noted, rows_tell, runs_recover, words_tell};
use std::test::Fail;

#[test]
fn the_laws_are_of_any_guests(_rt: HostRuntime) -> Result<(), Fail> {
    runs_recover::<u32>();
    processes_recover::<u32>();
    words_tell();
    rows_tell::<u32>();
    reaches_are_noted::<u32>();
    Ok(())
}
