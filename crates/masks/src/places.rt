//! Places in half columns and half rows of the source.
ghost use Rattle.std.specs.Prelude.{◌≡◌, ◌+◌, ◌*◌, ◌^◌, ◌<◌, ◌≤◌, unsigned_abs, ◌*ℤ◌};
ghost use Rattle.masks.specs.Coverage.{across, along, anchor, offset, position};

/// How many columns or rows of the source one of a level has.
pub(crate) fn size_of_level(level: u8) -> u32
    requires { level ≤ 8 }
    ensures value { result ≡ 2 ^ level }
    ensures most { result ≤ 256 }
{
    2u32.pow(u32::from(level))
}

// The middle of a column or row of a level.
fn position(level: u8, n: u32) -> u32
    requires level { level ≤ 8 }
    requires side { n < 16384 }
    ensures value { result ≡ position level n }
    ensures small { result ≤ 8388608 }
{
    (2 * n + 1) * size_of_level(level)
}

// A place in 1/65,536 of a side.
fn anchor(side: u32, at: u32) -> u32
    requires side { side ≤ 16384 }
    requires within { at ≤ 65536 }
    ensures value { result ≡ anchor side at }
    ensures small { result ≤ 32768 }
{
    2 * side * at / 65_536
}

/// How far the middle of a column or row of a level is from a place in 1/65,536 of the source's side.
pub(crate) fn offset(side: u32, at: u32, level: u8, n: u32) -> i64
    requires side { side ≤ 16384 }
    requires within { at ≤ 65536 }
    requires level { level ≤ 8 }
    requires inside { n < 16384 }
    ensures value { result ≡ offset side at level n }
    ensures small { unsigned_abs result ≤ 8388608 }
{
    i64::from(position(level, n)) - i64::from(anchor(side, at))
}

// A distance times a part of a direction.
fn part(distance: i64, d: i32) -> i64
    requires near { unsigned_abs distance ≤ 8388608 }
    requires small { unsigned_abs d ≤ 1024 }
    ensures value { result ≡ distance *ℤ d }
    ensures far { unsigned_abs result ≤ unsigned_abs distance * 1024 }
{
    distance * i64::from(d)
}

/// A distance measured along a direction, times that direction's length.
pub(crate) fn along(x: i64, y: i64, dx: i32, dy: i32) -> i64
    requires near_x { unsigned_abs x ≤ 8388608 }
    requires near_y { unsigned_abs y ≤ 8388608 }
    requires small_x { unsigned_abs dx ≤ 1024 }
    requires small_y { unsigned_abs dy ≤ 1024 }
    ensures value { result ≡ along x y dx dy }
    ensures far { unsigned_abs result ≤ (unsigned_abs x + unsigned_abs y) * 1024 }
{
    part(x, dx) + part(y, dy)
}

/// The same across a direction.
pub(crate) fn across(x: i64, y: i64, dx: i32, dy: i32) -> i64
    requires near_x { unsigned_abs x ≤ 8388608 }
    requires near_y { unsigned_abs y ≤ 8388608 }
    requires small_x { unsigned_abs dx ≤ 1024 }
    requires small_y { unsigned_abs dy ≤ 1024 }
    ensures value { result ≡ across x y dx dy }
    ensures far { unsigned_abs result ≤ (unsigned_abs x + unsigned_abs y) * 1024 }
{
    part(y, dx) - part(x, dy)
}
