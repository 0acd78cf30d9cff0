/// What the full pipe shows: the picture scaled down by `factor` (1 to 64), and a window of `w` by `h`
/// pixels (1 to 16,384 each, with a product of at most 786,432) of it. `cx` and `cy`, 0 to 65,536, are
/// the middle of the window in 1/65,536 of the scaled sides.
#[derive(Clone, Copy, Debug, PartialEq, Eq)]
pub struct View {
    pub factor: u32,
    pub cx: u32,
    pub cy: u32,
    pub w: u32,
    pub h: u32,
}

/// The sides that a picture has to fit in, 1 to 16,384 pixels each.
#[derive(Clone, Copy, Debug, PartialEq, Eq)]
pub struct BoxSize {
    pub w: u32,
    pub h: u32,
}
