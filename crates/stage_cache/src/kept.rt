/// What became of a stage that was to be kept.
#[derive(Clone, Copy, Debug, PartialEq, Eq)]
pub enum Kept {
    /// It is the first entry of the cache.
    Stored,
    /// It alone has more pixels than the cache may have, and the cache is as before.
    TooLarge,
}
