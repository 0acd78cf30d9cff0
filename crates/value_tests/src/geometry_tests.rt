use geometry::{Geometry, roi_back};
use params::{Crop, Orientation, Params};
use px::Region;
use std::test::Fail;

// 8x6 turned is 6x8, of which columns 3 to 5 stay. Pixel (0,0) of these is (3,0) before the crop, so
// that a is 0 and b is 3, and it comes from column 7 - 0 and row 3. At level 1, of 4x3, 3x4 is turned,
// and columns 1 and 2 stay: a is 0 and b is 1.
#[test]
fn a_pixel_is_traced_back_through_crop_and_orientation(rt: HostRuntime) {
    let turned = Params::Orientation(Orientation {
        swap: true,
        flip_x: true,
        flip_y: false,
    });
    let right_half = Params::Crop(Crop {
        left: 32_768,
        top: 0,
        right: 65_536,
        bottom: 65_536,
    });
    let mut whole = Geometry::start(8, 6, 0);
    whole.push(&turned);
    whole.push(&right_half);
    assert!(rt; whole.out_size() == (3, 8));
    assert!(rt; whole.place(0, 0) == (7, 3));
    let mut level = Geometry::start(4, 3, 1);
    level.push(&turned);
    level.push(&right_half);
    assert!(rt; level.out_size() == (2, 4));
    assert!(rt; level.place(0, 0) == (3, 1));
    assert!(rt; level.trace().level == 1);
}

// Turned as above, output (0,0) comes from column 7 and row 0. Demosaic needs one more on each side, as
// far as it lies in 7x5.
#[test]
fn a_region_needs_the_pixels_that_its_module_looks_at(rt: HostRuntime) -> Result<(), Fail> {
    let turned = Params::Orientation(Orientation {
        swap: true,
        flip_x: true,
        flip_y: false,
    });
    let first = Region::new(0, 0, 1, 1).ok_or("a region")?;
    let from = roi_back(&turned, 8, 6, first);
    assert!(rt; (from.x, from.y, from.w, from.h) == (7, 0, 1, 1));
    let right = Region::new(3, 0, 4, 5).ok_or("a region")?;
    let from = roi_back(&Params::Demosaic, 7, 5, right);
    assert!(rt; (from.x, from.y, from.w, from.h) == (2, 0, 5, 5));
    Ok(())
}
