ghost use Rattle.std.specs.Prelude.{◌≡◌, IfOk, replicate};
ghost use Rattle.px.specs.declared.kind.PlaneKind.TheVariants.{Rgb};
ghost use Rattle.px.specs.Area.{whole_of};

use crate::pieces::{DOUBLING, active_of, committed};
use modules_raw::Source;
use pipe_nodes::{Prefix, Staged};
use px::{Plane, PlaneKind, Region};
use stage_cache::{Kept, StageCache};
use std::alloc::{AllocError, Global};
use std::marker::Brand;
use std::process::Abort;
use std::sync::Arc;
use std::sync::ledger::Blank;
use std::test::Fail;
use std::thread::Threads;

// A row of eleven black pixels.
#[tactic(auto, using(crate::proofs::RowLemmas::zeros))]
pub(crate) fn row(alloc: Global) -> Result<Plane, AllocError>
    ensures { IfOk result (λ p. p ≡ record { kind = Rgb; w = 11; h = 1; area = whole_of 11 1; values = replicate 33 0 }) }
{
    let values = vec![in alloc; 0; 33]?;
    Ok(Plane::from_rows(PlaneKind::Rgb, 11, 1, Region::whole(11, 1), values))
}

// The first pixels of the row behind one exposure, of this instance.
pub(crate) fn stage<R: Threads + Sync + Abort>(
    rt: &R,
    alloc: Global,
    instance: u8,
    pixels: u32,
) -> Result<Staged, AllocError>
    ensures { IfOk result (λ s. s.source ≡ record { kind = Rgb; w = 11; h = 1; area = whole_of 11 1; values = replicate 33 0 }) }
{
    let active = active_of(instance, DOUBLING);
    let region = Region::new(0, 0, pixels, 1).expect(rt, "a region");
    assert!(rt; active.is_fit() && pixels <= 11);
    let source = Arc::new(alloc, Source::of(row(alloc)?))?;
    let start = Prefix::start(alloc, 0)?;
    let prefix = start.then(alloc, &active)?;
    let from = Staged::of(alloc, start, row(alloc)?, Arc::try_clone(&source)?)?;
    let piece = committed::<Brand>(alloc, &active, Blank::new(1))?;
    let plane = piece.render(rt, alloc, &from, region)?;
    Staged::of(alloc, prefix, plane, source)
}

fn keep<R: Threads + Sync + Abort>(
    rt: &R,
    alloc: Global,
    cache: &mut StageCache,
    instance: u8,
    pixels: u32,
) -> Result<Kept, AllocError>
    requires { cache.old.source ≡ record { kind = Rgb; w = 11; h = 1; area = whole_of 11 1; values = replicate 33 0 } }
    ensures { cache.new.source ≡ cache.old.source }
{
    let stage = stage(rt, alloc, instance, pixels)?;
    cache.keep(stage)
}

// The index at which the prefix of one exposure and that region of the row are found.
fn find<R: Threads + Sync + Abort>(
    rt: &R,
    alloc: Global,
    cache: &mut StageCache,
    instance: u8,
    pixels: u32,
) -> Result<Option<usize>, AllocError>
    ensures { cache.new.source ≡ cache.old.source }
{
    let stage = stage(rt, alloc, instance, pixels)?;
    let list = [(stage.prefix().share()?, stage.region())];
    match cache.find(&list)? {
        Some((i, _)) => Ok(Some(i)),
        None => Ok(None),
    }
}

// The instances of the entries, each with the pixels of its region, the most recently used first.
fn entries(alloc: Global, cache: &StageCache) -> Result<Vec<(u8, u64)>, AllocError> {
    let mut entries = Vec::new(alloc);
    for (prefix, region) in &cache.stages(alloc)? {
        if prefix.len() > 0 {
            entries.push((prefix.at(0).instance, region.pixels()))?;
        }
    }
    Ok(entries)
}

// The cache has these entries.
fn holds<R: Abort>(
    rt: &R,
    alloc: Global,
    cache: &StageCache,
    expected: &[(u8, u64)],
) -> Result<(), AllocError> {
    assert_eq!(rt; entries(alloc, cache)?.as_slice(), expected);
    Ok(())
}

#[test]
fn stages_are_kept_and_found_within_both_budgets(rt: HostRuntime) -> Result<(), Fail> {
    let alloc = rt.alloc();
    let source = Arc::new(alloc, Source::of(row(alloc)?))?;
    let mut cache = StageCache::new(alloc, source, 2, 10)?;
    assert!(rt; cache.is_empty());
    assert_eq!(rt; keep(&rt, alloc, &mut cache, 1, 4)?, Kept::Stored);
    assert_eq!(rt; keep(&rt, alloc, &mut cache, 2, 4)?, Kept::Stored);
    assert_eq!(rt; keep(&rt, alloc, &mut cache, 3, 4)?, Kept::Stored);
    holds(&rt, alloc, &cache, &[(3, 4), (2, 4)])?;
    assert_eq!(rt; keep(&rt, alloc, &mut cache, 4, 11)?, Kept::TooLarge);
    holds(&rt, alloc, &cache, &[(3, 4), (2, 4)])?;
    assert_eq!(rt; find(&rt, alloc, &mut cache, 2, 4)?, Some(0));
    holds(&rt, alloc, &cache, &[(2, 4), (3, 4)])?;
    assert_eq!(rt; find(&rt, alloc, &mut cache, 1, 4)?, None);
    holds(&rt, alloc, &cache, &[(2, 4), (3, 4)])?;
    assert_eq!(rt; keep(&rt, alloc, &mut cache, 1, 6)?, Kept::Stored);
    holds(&rt, alloc, &cache, &[(1, 6), (2, 4)])?;

    // The one of the same prefix goes, a larger region isn't found, and all ten pixels may be used.
    assert_eq!(rt; keep(&rt, alloc, &mut cache, 2, 3)?, Kept::Stored);
    assert_eq!(rt; find(&rt, alloc, &mut cache, 2, 4)?, None);
    holds(&rt, alloc, &cache, &[(2, 3), (1, 6)])?;
    assert_eq!(rt; keep(&rt, alloc, &mut cache, 4, 10)?, Kept::Stored);
    holds(&rt, alloc, &cache, &[(4, 10)])?;
    assert_eq!(rt; cache.len(), 1);
    Ok(())
}
