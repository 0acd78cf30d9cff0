/// How many bits a written sample has.
#[derive(Clone, Copy, Debug, PartialEq, Eq)]
pub enum Depth {
    /// One byte a sample, 0 to 255.
    Eight,
    /// Two bytes a sample, the most significant one first, 0 to 65,535.
    Sixteen,
}
