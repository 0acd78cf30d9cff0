ghost use Rattle.std.specs.Prelude.{◌≡◌, ◌∷◌, [], IfOk};
ghost use Rattle.px.specs.declared.kind.PlaneKind.TheVariants.{Rgb};
ghost use Rattle.px.specs.Area.{whole_of};

use crate::pieces::{DOUBLING, active_of, committed};
use modules_raw::Source;
use params::Exposure;
use pipe_nodes::{Prefix, Staged};
use px::{Plane, PlaneKind, Region};
use std::alloc::{AllocError, Global};
use std::marker::Brand;
use std::sync::Arc;
use std::sync::ledger::Blank;
use std::test::Fail;
use std::thread::Threads;

fn two_pixels(alloc: Global) -> Result<Plane, AllocError>
    ensures { IfOk result (λ p. p ≡ record { kind = Rgb; w = 2; h = 1; area = whole_of 2 1; values = 0 ∷ 1 ∷ 2 ∷ 1500 ∷ 2000 ∷ 600000 ∷ [] }) }
{
    let values = vec![in alloc; 0, 1, 2, 1500, 2000, 600_000]?;
    Ok(Plane::from_rows(PlaneKind::Rgb, 2, 1, Region::whole(2, 1), values))
}

// That values of the type may be shared between threads.
fn cross_threads<T: Send + Sync>(_: &T) {}

// The second pixel of what the exposure makes of two pixels, where its numbers are within their ranges.
fn second_pixel<R: Threads + Sync>(
    rt: &R,
    alloc: Global,
    exposure: Exposure,
) -> Result<Option<Plane>, AllocError> {
    let active = active_of(0, exposure);
    let Some(region) = Region::new(1, 0, 1, 1) else {
        return Ok(None);
    };
    if !active.is_fit() {
        return Ok(None);
    }
    let source = Arc::new(alloc, Source::of(two_pixels(alloc)?))?;
    let prefix = Prefix::start(alloc, 0)?;
    let stage = Staged::of(alloc, prefix, two_pixels(alloc)?, source)?;
    let piece = committed::<Brand>(alloc, &active, Blank::new(1))?;
    cross_threads(&stage);
    cross_threads(&piece);
    Ok(Some(piece.render(rt, alloc, &stage, region)?))
}

// 600000 - 1000, doubled, is above the greatest value.
#[test]
fn a_piece_renders_a_region_of_its_output(rt: HostRuntime) -> Result<(), Fail> {
    let made = second_pixel(&rt, rt.alloc(), DOUBLING)?;
    let plane = made.expect(&rt, "an exposure within its ranges");
    assert_eq!(rt; plane.values(), [1000, 2000, 1_048_575].as_slice());
    Ok(())
}

#[test]
fn a_shared_prefix_is_equal_and_a_longer_one_is_not(rt: HostRuntime) -> Result<(), Fail> {
    let alloc = rt.alloc();
    let active = active_of(0, DOUBLING);
    if !active.is_fit() {
        return Ok(());
    }
    let start = Prefix::start(alloc, 3)?;
    let longer = start.then(alloc, &active)?;
    cross_threads(&longer);
    assert!(rt; longer == longer.share()?);
    assert!(rt; longer != start);
    assert_eq!(rt; (longer.len(), longer.level()), (1, 3));
    assert_eq!(rt; *longer.at(0), active);
    Ok(())
}
