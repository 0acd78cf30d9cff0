/// A place in the pipe: an instance of a module. Modules go by their number in the start order, 0 for
/// raw preparation to 7 for the tone curve.
#[derive(Clone, Copy, Debug, PartialEq, Eq, Hash)]
pub struct Slot {
    pub module: u8,
    pub instance: u8,
}
