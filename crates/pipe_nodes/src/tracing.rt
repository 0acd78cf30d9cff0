use px::Trace;

/// Where the pixels behind the instances of a run come from: the sides of the source, and the trace that
/// leads to a pixel of the level with which the run begins.
#[derive(Clone, Copy, Debug)]
pub(crate) struct Tracing {
    pub(crate) w: u32,
    pub(crate) h: u32,
    pub(crate) trace: Trace,
}
