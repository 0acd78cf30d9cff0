//! Each kernel with its rows side by side. A run makes its bands by the forms that go in turn, which have
//! the same clauses, and rows of commands show what those make; so each is called once here.
use crate::pictures::{GREYS, NINE, PIXEL, SIX, mosaic, picture};
use local_modules::{box_blur, radius_at, sharpen};
use modules_colour::{CurveTable, curve, exposure, mixer};
use modules_geometry::{crop, orientation};
use modules_raw::{demosaic, level_of_preview, level_of_thumbnail, raw_prepare, temperature};
use params::{
    BoxBlur, ChannelMixer, Crop, Exposure, Nodes20, Orientation, Params, RawPrepare, Sharpen,
    Temperature, ToneCurve,
};
use px::{BoxSize, Region};
use std::alloc::Global;
use std::test::Fail;

// The means of two, three and two pixels: 24, 48 and 72 of 255.
#[test]
fn a_blur_takes_the_mean_of_what_lies_in_the_picture(rt: HostRuntime) -> Result<(), Fail> {
    let input = picture(rt.alloc(), GREYS, 3, 1)?;
    let blur = BoxBlur { radius: 1 };
    let output = box_blur(&rt, rt.alloc(), &blur, 0, &input, Region::whole(3, 1))?;
    let means = [
        6168, 6168, 6168, 12_336, 12_336, 12_336, 18_504, 18_504, 18_504,
    ];
    assert!(rt; output.values() == means.as_slice());
    Ok(())
}

// 0 - 6168 is clamped; 12336 is its own mean; 24672 + (24672 - 18504) is 120 of 255.
#[test]
fn sharpen_adds_what_a_value_has_above_its_mean(rt: HostRuntime) -> Result<(), Fail> {
    let input = picture(rt.alloc(), GREYS, 3, 1)?;
    let settings = Sharpen {
        radius: 1,
        amount: 4096,
    };
    let output = sharpen(&rt, rt.alloc(), &settings, 0, &input, Region::whole(3, 1))?;
    let sharp = [0, 0, 0, 12_336, 12_336, 12_336, 30_840, 30_840, 30_840];
    assert!(rt; output.values() == sharp.as_slice());
    Ok(())
}

#[test]
fn a_radius_is_rounded_up(rt: HostRuntime) {
    assert!(rt; radius_at(5, 2) == 2 && radius_at(1, 8) == 1);
}

// Black 1 of 100, 300 and 5000; the gain 2048 halves.
#[test]
fn exposure_takes_black_away(rt: HostRuntime) -> Result<(), Fail> {
    let input = picture(rt.alloc(), PIXEL, 1, 1)?;
    let settings = Exposure {
        black: 1,
        gain: 2048,
        stops: 0,
    };
    let output = exposure(&rt, rt.alloc(), &settings, &input, Region::whole(1, 1))?;
    assert!(rt; output.values() == [49, 149, 2499].as_slice());
    Ok(())
}

// Red: 100 - 300 is clamped to 0. Green: 300. Blue: (2048 * 100 + 2048 * 300 + 5000) / 4096 is 201 and a
// fifth.
#[test]
fn a_mixer_has_a_row_of_its_matrix_for_each_channel_that_comes_out(
    rt: HostRuntime,
) -> Result<(), Fail> {
    let input = picture(rt.alloc(), PIXEL, 1, 1)?;
    let settings = ChannelMixer {
        rows: [4096, -4096, 0, 0, 4096, 0, 2048, 2048, 1],
    };
    let output = mixer(&rt, rt.alloc(), &settings, &input, Region::whole(1, 1))?;
    assert!(rt; output.values() == [0, 300, 201].as_slice());
    Ok(())
}

// The table of a curve through (100, 200), (300, 100) and (1000, 5000) in each channel.
fn table(alloc: Global) -> Result<CurveTable, Fail> {
    let nodes = Nodes20::of(&[(100, 200), (300, 100), (1000, 5000)]).ok_or("too many nodes")?;
    let settings = ToneCurve {
        red: nodes,
        green: nodes,
        blue: nodes,
    };
    params::check(&Params::ToneCurve(settings))?;
    Ok(CurveTable::make(alloc, &settings)?)
}

// 100 is the first node, 300 the second, and 5000 is past the last.
#[test]
fn a_curve_goes_by_its_table(rt: HostRuntime) -> Result<(), Fail> {
    let input = picture(rt.alloc(), PIXEL, 1, 1)?;
    let table = table(rt.alloc())?;
    let output = curve(&rt, rt.alloc(), &table, &input, Region::whole(1, 1))?;
    assert!(rt; output.values() == [200, 100, 5000].as_slice());
    Ok(())
}

// The sides swapped, then columns mirrored: 2x3, whose pixel (x, y) comes from column 2 - y and row x.
// Its last two rows are columns 1 and 0 of the input.
#[test]
fn a_turned_region_has_the_pixels_from_which_it_comes(rt: HostRuntime) -> Result<(), Fail> {
    let input = picture(rt.alloc(), SIX, 3, 2)?;
    let turned = Orientation {
        swap: true,
        flip_x: true,
        flip_y: false,
    };
    let region = Region::new(0, 1, 2, 2).ok_or("a region")?;
    let output = orientation(&rt, rt.alloc(), &turned, &input, region)?;
    let want = [1, 101, 201, 11, 111, 211, 0, 100, 200, 10, 110, 210];
    assert!(rt; output.values() == want.as_slice());
    assert!(rt; output.sides() == (2, 3));
    Ok(())
}

// 21,845 * 3 / 65,536 is 0 and 43,691 * 3 / 65,536 is 2, so columns 0 and 1 stay; 32,768 * 2 / 65,536 is
// 1, so of the rows the second stays.
#[test]
fn a_crop_keeps_its_part(rt: HostRuntime) -> Result<(), Fail> {
    let input = picture(rt.alloc(), SIX, 3, 2)?;
    let part = Crop {
        left: 21_845,
        top: 32_768,
        right: 43_691,
        bottom: 65_536,
    };
    let output = crop(&rt, rt.alloc(), &part, &input, Region::whole(2, 1))?;
    assert!(rt; output.values() == [10, 110, 210, 11, 111, 211].as_slice());
    Ok(())
}

// In (2, 2) there is red alone: green is the mean of 60 and 80, blue is 50.
#[test]
fn a_mosaic_is_made_rgb(rt: HostRuntime) -> Result<(), Fail> {
    let input = mosaic(rt.alloc(), NINE, 3, 3)?;
    let last = Region::new(2, 2, 1, 1).ok_or("a region")?;
    let made = demosaic(&rt, rt.alloc(), &input, last)?;
    assert!(rt; made.values() == [90, 70, 50].as_slice());
    Ok(())
}

// 36 * 65535 / 936 is 2520, and 236 * 65535 / 936 is 16523. 5000 is past white: 4936 * 65535 / 936 is
// 345599.
#[test]
fn black_and_white_are_taken_to_their_places(rt: HostRuntime) -> Result<(), Fail> {
    let input = picture(rt.alloc(), PIXEL, 1, 1)?;
    let settings = RawPrepare {
        black: [64, 64, 64],
        white: 1000,
    };
    let made = raw_prepare(&rt, rt.alloc(), &settings, &input, Region::whole(1, 1))?;
    assert!(rt; made.values() == [2520, 16_523, 345_599].as_slice());
    Ok(())
}

// Rows of red and green, then of green and blue.
#[test]
fn each_colour_of_a_mosaic_has_its_multiplier(rt: HostRuntime) -> Result<(), Fail> {
    let input = mosaic(rt.alloc(), NINE, 3, 3)?;
    let settings = Temperature {
        mul: [8192, 4096, 2048],
    };
    let made = temperature(&rt, rt.alloc(), &settings, &input, Region::whole(3, 3))?;
    assert!(rt; made.values() == [20, 20, 60, 40, 25, 60, 140, 80, 180].as_slice());
    Ok(())
}

// 1500 by 1000, 750 by 500 and 375 by 250 are levels 2, 3 and 4.
#[test]
fn levels_are_chosen_by_their_sides(rt: HostRuntime) {
    let small = BoxSize { w: 256, h: 256 };
    assert!(rt; level_of_thumbnail(6000, 4000, small) == 3);
    assert!(rt; level_of_preview(6000, 4000, 720) == 4);
}
