ghost use Rattle.std.specs.Prelude.{◌≡◌, ℕ, ◌*◌, ◌^◌, ◌≤◌};
ghost use Rattle.local_modules.specs.Radius.{radius_of};

/// A radius of the source's pixels in pixels of a level: `ceil(radius / 2^level)`, the least that
/// reaches as far. `radius` is 1 to 64 and `level` at most 8; the answer is 1 to `radius`.
pub fn radius_at(radius: u32, level: u8) -> u32
    requires some { 1 ≤ radius }
    requires most { radius ≤ 64 }
    requires level { level ≤ 8 }
    ensures value { result ≡ radius_of radius level }
    ensures some { 1 ≤ result }
    ensures most { result ≤ radius }
    ensures reaches { radius ≤ result * 2 ^ level }
    ensures least { (n : ℕ) → radius ≤ n * 2 ^ level → result ≤ n }
{
    radius.div_ceil(1 << level)
}
