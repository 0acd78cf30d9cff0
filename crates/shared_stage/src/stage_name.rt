use modules_raw::Source;

/// What never changes of a shared stage cache: the source of its stages, and how many entries and pixels it may have.
/// Contracts alone speak of it.
pub struct StageName {
    pub source: Source,
    pub entries: u64,
    pub pixels: u64,
}
