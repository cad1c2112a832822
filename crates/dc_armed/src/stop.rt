use dc_media::Tear;

/// A stop that waits for a call of the turn that runs.
#[derive(Clone, Copy)]
pub(crate) struct Waiting {
    /// At which of the coming calls it comes.
    pub calls: u32,
    pub tear: Tear,
}
