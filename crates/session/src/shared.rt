use desk::SharedDesk;
use shared_mips::MipCache;
use shared_stage::SharedStage;

/// What the threads of a session share.
#[derive(Drop)]
pub(crate) struct Shared {
    pub(crate) desk: SharedDesk,
    pub(crate) stage: SharedStage,
    pub(crate) mips: MipCache,
    /// The number of the close: one more than that of the last step.
    pub(crate) close: u32,
}
