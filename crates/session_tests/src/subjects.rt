//! Subjects by the texts of their script and their picture.
use dev_core::{DeskState, Subject};
use journal::Entry;
use modules_raw::Source;
use outside::Pipe;
use std::alloc::{AllocError, Global};
use std::sync::Arc;
use std::test::Fail;

/// A picture of one pixel, of the samples 20, 20 and 20 in hexadecimal.
pub(crate) const PIXEL: &[u8] = b"P6\n1 1\n255\n\x20\x20\x20";

pub(crate) fn subject(alloc: Global, script: &str, picture: &[u8]) -> Result<Arc<Subject>, Fail> {
    let Ok(script) = edit_script::read(alloc, script.as_bytes()) else {
        return Err(Fail::from("a script"));
    };
    let Ok(plane) = pnm::read(alloc, picture, None) else {
        return Err(Fail::from("a picture"));
    };
    let source = Arc::new(alloc, Source::of(plane)).map_err(AllocError::from)?;
    Ok(Arc::new(alloc, Subject::of(source, script)).map_err(AllocError::from)?)
}

/// How often the pipe was published at the moment.
pub(crate) fn published_at(desk: &DeskState, pipe: Pipe, moment: u32) -> u32 {
    let mut count = 0_u32;
    for entry in desk.journal() {
        if let Entry::Published {
            pipe: of,
            worker: _,
            moment: at,
        } = entry
        {
            if *of == pipe && *at == moment && count < 9 {
                count += 1;
            }
        }
    }
    count
}

/// How many pictures were published, and whether each moment is at least the one before it.
pub(crate) fn published(desk: &DeskState) -> (usize, bool) {
    let mut last = 0;
    let mut rise = true;
    for entry in desk.journal() {
        if let Entry::Published {
            pipe: _,
            worker: _,
            moment,
        } = entry
        {
            if *moment < last {
                rise = false;
            }
            last = *moment;
        }
    }
    (desk.frames().len(), rise)
}
