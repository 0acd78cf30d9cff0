ghost use Rattle.std.specs.Prelude.{◌≡◌, Some};
ghost use Rattle.params.specs.Names.{name_of_mode, mode_named};

/// How a module's output is laid over its input.
#[derive(Clone, Copy, Debug, PartialEq, Eq, Hash)]
pub enum Mode {
    Normal,
    Multiply,
    Screen,
    Lighten,
    Darken,
    Add,
    Subtract,
    Difference,
    Average,
}

impl Mode {
    /// The name that scripts give the mode.
    pub fn name(self) -> &'static str
        ensures value { result.now ≡ name_of_mode self }
        ensures found { mode_named result.now ≡ Some self }
    {
        match self {
            Mode::Normal => "normal",
            Mode::Multiply => "multiply",
            Mode::Screen => "screen",
            Mode::Lighten => "lighten",
            Mode::Darken => "darken",
            Mode::Add => "add",
            Mode::Subtract => "subtract",
            Mode::Difference => "difference",
            Mode::Average => "average",
        }
    }
}

/// The mode of that name, if there is one.
pub fn mode_named(name: &str) -> Option<Mode>
    ensures value { result ≡ mode_named name.now }
{
    match name {
        "normal" => Some(Mode::Normal),
        "multiply" => Some(Mode::Multiply),
        "screen" => Some(Mode::Screen),
        "lighten" => Some(Mode::Lighten),
        "darken" => Some(Mode::Darken),
        "add" => Some(Mode::Add),
        "subtract" => Some(Mode::Subtract),
        "difference" => Some(Mode::Difference),
        "average" => Some(Mode::Average),
        _ => None,
    }
}

/// A drawn mask. Places are in 1/65,536 of the source's sides, 0 to 65,536; directions are -1,024 to
/// 1,024 on each axis and not both 0.
#[derive(Clone, Copy, Debug, PartialEq, Eq, Hash)]
pub enum Shape {
    /// Rises along the direction (dx, dy) from the place (ax, ay), by `slope` 1 to 65,536.
    Gradient {
        ax: u32,
        ay: u32,
        dx: i32,
        dy: i32,
        slope: u32,
    },
    /// An ellipse about (cx, cy) with an axis along (ux, uy), half axes `a` and `b` 1 to 65,536, and a
    /// border of `feather` 1 to 65,536.
    Ellipse {
        cx: u32,
        cy: u32,
        ux: i32,
        uy: i32,
        a: u32,
        b: u32,
        feather: u32,
    },
}

/// How a module's output and its input are mixed: `opacity` 0 to 65,536, the mode, and a mask where the
/// mix isn't the same everywhere.
#[derive(Clone, Copy, Debug, PartialEq, Eq, Hash)]
pub struct Blend {
    pub opacity: u32,
    pub mode: Mode,
    pub mask: Option<Shape>,
}
