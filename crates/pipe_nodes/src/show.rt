use px::{BoxSize, Depth, View};

/// Which part of a picture is shown, and how large.
#[derive(Clone, Copy, Debug, PartialEq, Eq)]
pub enum Window {
    /// All of it, pixel by pixel.
    Whole,
    /// A part of it, scaled down by the view's factor.
    View(View),
    /// All of it, scaled down by the least factor with which it fits the box.
    Fit(BoxSize),
}

/// How a picture is shown: the mipmap level of the source that it is made from (0, the source itself, to
/// 8), the window, and the bits of a sample.
#[derive(Clone, Copy, Debug, PartialEq, Eq)]
pub struct Show {
    pub level: u8,
    pub window: Window,
    pub depth: Depth,
}
