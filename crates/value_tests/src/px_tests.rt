use px::{ByValue, Cfa, PlaneKind, Region, clamp_top, mul_floor, paint_in_turn};
use std::test::Fail;

#[test]
fn a_region_ends_within_the_longest_side(rt: HostRuntime) {
    for (x, w, is) in [
        (0, 0, false),
        (0, 16_384, true),
        (1, 16_384, false),
        (16_383, 1, true),
        (16_384, 1, false),
        (u32::MAX, 1, false),
    ] {
        assert!(rt; Region::new(x, 0, w, 1).is_some() == is);
        assert!(rt; Region::new(0, x, 1, w).is_some() == is);
    }
}

// -1 * 4096 / 2^12 is -1, and -3 / 2 is -2: towards minus infinity.
#[test]
fn products_are_rounded_down(rt: HostRuntime) {
    assert!(rt; mul_floor(-1, 4096, 12) == -1 && mul_floor(-3, 1, 1) == -2);
    assert!(rt; clamp_top(-1) == 0 && clamp_top(1_048_576) == 1_048_575);
}

#[test]
fn a_mosaic_has_one_value_a_pixel(rt: HostRuntime) -> Result<(), Fail> {
    let region = Region::new(0, 1, 2, 2).ok_or("a region")?;
    let value = |x: u32, y: u32| x ^ y;
    let kind = PlaneKind::Mosaic(Cfa::Rggb);
    let plane = paint_in_turn(rt.alloc(), None, kind, 2, 3, region, &ByValue { value })?;
    assert!(rt; plane.values() == [1, 0, 2, 3].as_slice());
    Ok(())
}
