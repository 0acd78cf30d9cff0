use desk::DeskPass;
use shared_mips::MipPass;
use shared_stage::StagePass;

/// The passes of one worker: to the desk, the stage cache and the mipmap cache.
#[derive(Drop)]
pub struct Passes {
    pub desk: DeskPass,
    pub stage: StagePass,
    pub mips: MipPass,
}
