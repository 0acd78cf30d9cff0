//! A stage cache of two seats.
ghost use Rattle.std.specs.Prelude.{◌≡◌, replicate};
ghost use Rattle.px.specs.declared.kind.PlaneKind.TheVariants.{Rgb};
ghost use Rattle.px.specs.Area.{whole_of};
ghost use Rattle.turn_lock.specs.Known.{IsIdle};

use crate::stage_cache_tests::{row, stage};
use modules_raw::Source;
use shared_stage::{SharedStage, StagePass};
use stage_cache::{Kept, StageCache};
use std::alloc::{AllocError, Global};
use std::process::Abort;
use std::sync::{Arc, Wait};
use std::test::Fail;
use std::thread::Threads;

fn keep<R: Wait + Threads + Sync + Abort>(
    rt: &R,
    alloc: Global,
    shared: &SharedStage,
    pass: &mut StagePass,
) -> Result<Kept, AllocError>
    requires lock { IsIdle shared.now pass.old }
    requires source { shared.now.name.source ≡ record { kind = Rgb; w = 11; h = 1; area = whole_of 11 1; values = replicate 33 0 } }
{
    let stage = stage(rt, alloc, 1, 4)?;
    shared.keep(rt, pass, stage)
}

// The place at which the prefix of one exposure and that region of the row are found.
fn find<R: Wait + Threads + Sync + Abort>(
    rt: &R,
    alloc: Global,
    shared: &SharedStage,
    pass: &mut StagePass,
) -> Result<Option<usize>, AllocError>
    requires { IsIdle shared.now pass.old }
    ensures { IsIdle shared.now pass.new }
{
    let stage = stage(rt, alloc, 1, 4)?;
    let list = [(stage.prefix().share()?, stage.region())];
    match shared.find(rt, alloc, pass, &list)? {
        Some((i, _)) => Ok(Some(i)),
        None => Ok(None),
    }
}

#[test]
fn the_next_find_gives_what_another_pass_kept(rt: HostRuntime) -> Result<(), Fail> {
    let alloc = rt.alloc();
    let source = Arc::new(alloc, Source::of(row(alloc)?))?;
    let cache = StageCache::new(alloc, source, 2, 10)?;
    let (shared, mut passes) = SharedStage::new(alloc, cache, 2)?;
    let mut second = passes.pop().ok_or("two passes")?;
    let mut first = passes.pop().ok_or("two passes")?;
    assert_eq!(rt; find(&rt, alloc, &shared, &mut second)?, None);
    assert_eq!(rt; keep(&rt, alloc, &shared, &mut first)?, Kept::Stored);
    assert_eq!(rt; find(&rt, alloc, &shared, &mut second)?, Some(0));
    Ok(())
}
