/// How far a run is: how many module instances were applied to its input, at most 64, and whether its
/// stage came from a module and isn't kept yet.
#[derive(Clone, Copy, Debug, PartialEq, Eq)]
pub struct At {
    pub done: u32,
    pub unkept: bool,
}
