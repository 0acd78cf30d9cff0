//! What each mode makes of two values.
ghost use Rattle.std.specs.Prelude.{◌≡◌, ◌≤◌, pos, unsigned_abs};
ghost use Rattle.params.specs.declared.blending.Mode.{Mode};
ghost use Rattle.blend.specs.Blending.{laid_over, product};

/// What makes a value of the input's and the output's, before it is mixed with the input's.
pub(crate) trait Lays {
    /// The mode that it is.
    ghost mode: { Mode };

    fn lay(i: u32, m: u32) -> i32
        requires input { i ≤ 1048575 }
        requires output { m ≤ 1048575 }
        ensures value { result ≡ laid_over mode i m }
        ensures small { unsigned_abs result ≤ 20000000 };
}

// The product of two values, where white times white is white.
#[inline(always)]
fn product(i: u32, m: u32) -> i32
    requires input { i ≤ 1048575 }
    requires output { m ≤ 1048575 }
    ensures value { result ≡ pos (product i m) }
    ensures small { unsigned_abs result ≤ 16777455 }
{
    let whole = u64::from(i) * u64::from(m);
    let high = (whole / 65_536) as u32;
    let rest = high + (whole % 65_536) as u32;
    (high + rest / 65_535) as i32
}

pub(crate) struct Normal;

impl Lays for Normal {
    ghost use Rattle.params.specs.declared.blending.Mode.TheVariants as mode;

    ghost mode = { mode.Normal };

    fn lay(_i: u32, m: u32) -> i32 {
        m as i32
    }
}

pub(crate) struct Multiply;

impl Lays for Multiply {
    ghost use Rattle.params.specs.declared.blending.Mode.TheVariants as mode;

    ghost mode = { mode.Multiply };

    fn lay(i: u32, m: u32) -> i32 {
        product(i, m)
    }
}

pub(crate) struct Screen;

impl Lays for Screen {
    ghost use Rattle.params.specs.declared.blending.Mode.TheVariants as mode;

    ghost mode = { mode.Screen };

    fn lay(i: u32, m: u32) -> i32 {
        i as i32 + m as i32 - product(i, m)
    }
}

pub(crate) struct Lighten;

impl Lays for Lighten {
    ghost use Rattle.params.specs.declared.blending.Mode.TheVariants as mode;

    ghost mode = { mode.Lighten };

    fn lay(i: u32, m: u32) -> i32 {
        i.max(m) as i32
    }
}

pub(crate) struct Darken;

impl Lays for Darken {
    ghost use Rattle.params.specs.declared.blending.Mode.TheVariants as mode;

    ghost mode = { mode.Darken };

    fn lay(i: u32, m: u32) -> i32 {
        i.min(m) as i32
    }
}

pub(crate) struct Add;

impl Lays for Add {
    ghost use Rattle.params.specs.declared.blending.Mode.TheVariants as mode;

    ghost mode = { mode.Add };

    fn lay(i: u32, m: u32) -> i32 {
        (i + m) as i32
    }
}

pub(crate) struct Subtract;

impl Lays for Subtract {
    ghost use Rattle.params.specs.declared.blending.Mode.TheVariants as mode;

    ghost mode = { mode.Subtract };

    fn lay(i: u32, m: u32) -> i32 {
        i as i32 - m as i32
    }
}

pub(crate) struct Difference;

impl Lays for Difference {
    ghost use Rattle.params.specs.declared.blending.Mode.TheVariants as mode;

    ghost mode = { mode.Difference };

    fn lay(i: u32, m: u32) -> i32 {
        i.abs_diff(m) as i32
    }
}

pub(crate) struct Average;

impl Lays for Average {
    ghost use Rattle.params.specs.declared.blending.Mode.TheVariants as mode;

    ghost mode = { mode.Average };

    fn lay(i: u32, m: u32) -> i32 {
        ((i + m) / 2) as i32
    }
}
