use history::{Edit, History, Item};
use params::{BoxBlur, Orientation, Params};
use pipe_nodes::developed_bytes;
use px::Depth;
use std::alloc::{AllocError, Global};
use std::test::Fail;
use std::thread::Threads;

// One column of the wide picture, as a row of three samples a pixel.
const COLUMN: &[u8] =
    b"\x00\x00\x00\x1e\x1e\x1e\x3c\x3c\x3c\x5a\x5a\x5a\x78\x78\x78\x96\x96\x96\xb4\xb4\xb4\xd2\xd2\xd2";

// 16,384 columns and 8 rows. Row y is of samples 30 y.
fn wide(alloc: Global) -> Result<Vec<u8>, AllocError> {
    let mut bytes = Vec::new(alloc);
    bytes.extend_from_slice(b"P5\n16384 8\n255\n")?;
    for sample in [0, 30, 60, 90, 120, 150, 180, 210] {
        for _ in 0..16_384 {
            bytes.push(sample)?;
        }
    }
    Ok(bytes)
}

fn edit(history: &mut History, alloc: Global, edit: Edit) -> Result<(), AllocError> {
    if history.allowed(&edit).is_ok() {
        let _ = history.apply(alloc, &edit)?;
    }
    Ok(())
}

// A history of one item, whose instance is added where it isn't there from the start.
fn of_one(alloc: Global, params: Params) -> Result<History, AllocError> {
    let mut history = History::start(alloc)?;
    let add = Edit::Add {
        module: params.module(),
        instance: 0,
        place: 8,
    };
    edit(&mut history, alloc, add)?;
    let item = Item {
        instance: 0,
        enabled: true,
        params,
        blend: None,
    };
    edit(&mut history, alloc, Edit::Set(item))?;
    Ok(history)
}

// What such a history makes of the wide picture, and its sides.
fn developed<R: Threads + Sync>(
    rt: &R,
    alloc: Global,
    params: Params,
) -> Result<(u32, u32, Vec<u8>), Fail> {
    let file = wide(alloc)?;
    let raster = pnm::raster_of(file.as_slice(), None)?;
    let history = of_one(alloc, params)?;
    let made = developed_bytes(rt, alloc, &raster, &history, Depth::Eight)?;
    Ok(made)
}

// A band has few rows here. Each row but the first and the last is the mean of three: itself and
// those above and below it, which other bands hold.
#[test]
fn bands_see_the_rows_round_them(rt: HostRuntime) -> Result<(), Fail> {
    let alloc = rt.alloc();
    let (w, h, bytes) = developed(&rt, alloc, Params::BoxBlur(BoxBlur { radius: 1 }))?;
    assert_eq!(rt; (w, h), (16_384, 8));
    let mut firsts = Vec::new(alloc);
    for y in 0..8 {
        firsts.push(bytes.get(15 + y * 49_152).copied())?;
    }
    let means = [15, 30, 60, 90, 120, 150, 180, 195].map(Some);
    assert_eq!(rt; firsts.as_slice(), means.as_slice());
    Ok(())
}

// Turned, each row is one column of the source.
#[test]
fn a_turned_picture_is_made_by_bands_too(rt: HostRuntime) -> Result<(), Fail> {
    let alloc = rt.alloc();
    let turn = Orientation {
        swap: true,
        flip_x: false,
        flip_y: false,
    };
    let (w, h, bytes) = developed(&rt, alloc, Params::Orientation(turn))?;
    assert_eq!(rt; (w, h), (8, 16_384));
    assert_eq!(rt; bytes.get(15..39), Some(COLUMN));
    assert_eq!(rt; bytes.get(393_207..393_231), Some(COLUMN));
    Ok(())
}
