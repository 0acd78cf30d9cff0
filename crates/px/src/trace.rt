ghost use Rattle.std.specs.Prelude.{◌≡◌, pos};
ghost use Rattle.px.specs.Trace.{counted, IsOnSide, Traces, TracesWithin};

/// Where the pixels of a picture come from, seen from an input that was turned and cropped: a pixel's
/// column and row change places where `swap`, each then counts on from `add_x` and `add_y`, or back
/// where `flip_x` and `flip_y`. The input is a mipmap level of a source, 0 to 8.
#[derive(Clone, Copy, Debug, PartialEq, Eq)]
pub struct Trace {
    pub swap: bool,
    pub flip_x: bool,
    pub flip_y: bool,
    pub add_x: i32,
    pub add_y: i32,
    pub level: u8,
}

// The place on one axis of the input, counted on from `add`, or back where `flip`.
fn count_from(add: i32, flip: bool, n: u32) -> u32
    requires { IsOnSide (counted add flip n) 16384 }
    ensures { counted add flip n ≡ pos result }
{
    if flip {
        (i64::from(add) - i64::from(n)) as u32
    } else {
        (i64::from(add) + i64::from(n)) as u32
    }
}

impl Trace {
    /// The column and row of the input pixel from which the pixel in column `x` and row `y` comes. It
    /// lies within `SIDE` on both axes.
    pub fn of(&self, x: u32, y: u32) -> (u32, u32)
        requires within { TracesWithin self.now x y 16384 16384 }
        ensures { Traces self.now x y result.0 result.1 }
    {
        let (across, down) = if self.swap { (y, x) } else { (x, y) };
        (
            count_from(self.add_x, self.flip_x, across),
            count_from(self.add_y, self.flip_y, down),
        )
    }
}
