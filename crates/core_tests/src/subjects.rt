//! Scripts of no step and of one, over a picture of one pixel.
use dev_core::Subject;
use edit_steps::{Draft, Script, Settings, Step};
use history::History;
use modules_raw::Source;
use std::alloc::{AllocError, Global};
use std::sync::Arc;
use std::test::Fail;

/// The picture, as bytes.
pub(crate) const PIXEL: &[u8] = b"P6\n1 1\n255\n\x20\x20\x20";

/// The subject of a script without steps.
pub(crate) fn subject(alloc: Global) -> Result<Arc<Subject>, Fail> {
    let plane = pnm::read(alloc, PIXEL, None)?;
    let source = Arc::new(alloc, Source::of(plane)).map_err(AllocError::from)?;
    let script = Script::of(
        alloc,
        Settings::start(),
        History::start(alloc)?,
        Vec::new(alloc),
    )?;
    Ok(Arc::new(alloc, Subject::of(source, script)).map_err(AllocError::from)?)
}

/// The subject of a script whose one step is a settle.
pub(crate) fn settling_subject(alloc: Global) -> Result<Arc<Subject>, Fail> {
    let plane = pnm::read(alloc, PIXEL, None)?;
    let source = Arc::new(alloc, Source::of(plane)).map_err(AllocError::from)?;
    let mut draft = Draft::start(alloc, Settings::start(), History::start(alloc)?)?;
    draft.push(alloc, Step::Settle)?;
    Ok(Arc::new(alloc, Subject::of(source, draft.finish())).map_err(AllocError::from)?)
}
