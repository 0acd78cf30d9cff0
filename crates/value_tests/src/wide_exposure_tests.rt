ghost use Rattle.std.specs.Prelude.{◌≡◌, ◌<◌, ◌≤◌, ℕ, IfOk, slice_index};
ghost use Rattle.px.specs.declared.kind.PlaneKind.TheVariants.{Rgb};
ghost use Rattle.px.specs.Area.{whole_of};

use modules_colour::exposure;
use params::Exposure;
use px::{ByPixel, Plane, PlaneKind, Region, paint_in_turn};
use std::alloc::{AllocError, Global};
use std::test::Fail;

// A grey picture of 4096x4, of the value (x + y) / part in column x and row y.
fn slope(alloc: Global, part: u32) -> Result<Plane, AllocError>
    requires { 0 < part }
    ensures kind { IfOk result (λ p. p.kind ≡ Rgb) }
    ensures area { IfOk result (λ p. p.area ≡ whole_of 4096 4) }
{
    let pixel = |x: u32, y: u32| -> [u32; 3]
        requires part { 0 < part }
        requires column { x < 4096 }
        requires row { y < 4 }
        ensures { (i : ℕ) → slice_index result i ≤ 1048575 }
    {
        let v = (x + y) / part;
        [v, v, v]
    };
    paint_in_turn(
        alloc,
        None,
        PlaneKind::Rgb,
        4096,
        4,
        Region::whole(4096, 4),
        &ByPixel { pixel },
    )
}

// A gain of 2048 / 4096 halves each value, rounded down.
#[test]
fn rows_side_by_side_are_exposed_like_one(rt: HostRuntime) -> Result<(), Fail> {
    let settings = Exposure {
        black: 0,
        gain: 2048,
        stops: 0,
    };
    let input = slope(rt.alloc(), 1)?;
    let output = exposure(&rt, rt.alloc(), &settings, &input, Region::whole(4096, 4))?;
    let halves = slope(rt.alloc(), 2)?;
    assert_eq!(rt; output.values(), halves.values());
    Ok(())
}
