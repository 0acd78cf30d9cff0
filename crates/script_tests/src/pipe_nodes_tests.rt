use history::{Edit, History, Item};
use modules_raw::Source;
use params::{Exposure, Module, Params};
use pipe_nodes::{Show, Window, uncached};
use px::{Depth, Plane, PlaneKind, Region};
use std::alloc::{AllocError, Global};
use std::test::Fail;
use std::thread::Threads;

fn exposure(instance: u8, black: i32, gain: u32) -> Item {
    Item {
        instance,
        enabled: true,
        params: Params::Exposure(Exposure {
            black,
            gain,
            stops: 0,
        }),
        blend: None,
    }
}

fn edit(history: &mut History, alloc: Global, edit: Edit) -> Result<(), AllocError> {
    if history.allowed(&edit).is_ok() {
        let _ = history.apply(alloc, &edit)?;
    }
    Ok(())
}

// A second exposure behind the first. The first takes 1500 away and doubles; the second adds 100.
fn two_exposures(alloc: Global) -> Result<History, AllocError> {
    let mut history = History::start(alloc)?;
    let second = Edit::Add {
        module: Module::Exposure,
        instance: 1,
        place: 6,
    };
    edit(&mut history, alloc, second)?;
    edit(&mut history, alloc, Edit::Set(exposure(0, 1500, 8192)))?;
    edit(&mut history, alloc, Edit::Set(exposure(1, -100, 4096)))?;
    Ok(history)
}

// One pixel, of 1000, 2000 and 40000.
fn one_pixel(alloc: Global) -> Result<Source, AllocError> {
    let values = vec![in alloc; 1000, 2000, 40_000]?;
    let plane = Plane::from_rows(PlaneKind::Rgb, 1, 1, Region::whole(1, 1), values);
    Ok(Source::of(plane))
}

// The picture of the pixel that the run makes.
fn shown<R: Threads + Sync>(rt: &R, alloc: Global, history: &History) -> Result<Plane, AllocError> {
    let show = Show {
        level: 0,
        window: Window::Whole,
        depth: Depth::Eight,
    };
    let source = one_pixel(alloc)?;
    uncached(rt, alloc, &source, history, &show)
}

// 1000 - 1500 is clamped to 0 before 100 is added.
#[test]
fn a_second_exposure_works_on_clamped_values(rt: HostRuntime) -> Result<(), Fail> {
    let history = two_exposures(rt.alloc())?;
    let plane = shown(&rt, rt.alloc(), &history)?;
    assert_eq!(rt; plane.values(), [100, 1100, 77_100].as_slice());
    Ok(())
}
