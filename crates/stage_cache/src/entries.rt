//! What the cache does to its entries, each stage under its prefix.
ghost use Rattle.std.specs.Prelude.{◌≡◌, ◌≤◌, IfOk, IfSome, OnOk, OnErr, is_some, option_map, Some};
ghost use Rattle.std.specs.Map.{lookup};
ghost use Rattle.lru.specs.LruCache.{lru_cache, put_entries, displaced, IsValid};
ghost use Rattle.px.specs.Cut.{Cut};
ghost use Rattle.pipe_nodes.specs.SamePrefix.{same_prefix};
ghost use Rattle.stage_cache.specs.Stages.{total_pixels, has_cover, found_index, front_within};
ghost use Rattle.stage_cache.specs.StageCache.{stages_of, pixels_gone, AreOf, IsFound};

use lru::LruCache;
use pipe_nodes::{Prefix, Staged};
use px::Region;
use std::alloc::{AllocError, Global};

// No two entries have the same prefix, and there are no more of them than there may be.
pub(crate) fn know_valid(entries: &LruCache<Prefix, Staged>)
    ensures { IsValid same_prefix entries.now }
{
    entries.len();
}

// The prefix and the region of each stage, from the first entry on.
pub(crate) fn listed(
    alloc: Global,
    entries: &LruCache<Prefix, Staged>,
) -> Result<Vec<(Prefix, Region)>, AllocError>
    ensures { IfOk result (λ list. list.items ≡ stages_of entries.now.entries) }
{
    let mut list = Vec::with_capacity(alloc, entries.len())?;
    for (prefix, stage) in entries {
        list.push((prefix.share()?, stage.region()))?;
    }
    Ok(list)
}

// The stage of the asked prefix, where it covers the asked region.
#[tactic(auto, using(crate::proofs::FindLemmas::has_cover_none))]
fn covering<'a>(
    entries: &'a LruCache<Prefix, Staged>,
    asked: &(Prefix, Region),
) -> Option<&'a Staged>
    ensures covers { is_some result ≡ has_cover (stages_of entries.now.entries) asked.now }
    ensures entry { IfSome result (λ s. lookup (same_prefix asked.now.0) entries.now.entries ≡ Some s.now) }
{
    let stage = entries.peek(&asked.0)?;
    if stage.region().covers(asked.1) {
        Some(stage)
    } else {
        None
    }
}

// The greatest index whose prefix has an entry that covers its region, and that entry's stage.
pub(crate) fn last_covered(
    entries: &LruCache<Prefix, Staged>,
    list: &[(Prefix, Region)],
) -> Result<Option<(usize, Staged)>, AllocError>
    ensures index { IfOk result (λ r. option_map (λ f. f.0) r ≡ found_index (stages_of entries.now.entries) list.now) }
    ensures entry { IfOk result (λ r. IfSome r (λ f. (source : Cut) → AreOf source entries.now.entries → IsFound source (stages_of entries.now.entries) list.now f.0 f.1)) }
{
    let mut i = list.len();
    while i > 0 {
        i -= 1;
        if let Some(stage) = covering(entries, &list[i]) {
            return Ok(Some((i, stage.share()?)));
        }
    }
    Ok(None)
}

// Puts a stage in front, in place of the one of its prefix or else of the last one too many, and tells
// how many pixels left with that.
pub(crate) fn put_front(
    entries: &mut LruCache<Prefix, Staged>,
    stage: Staged,
) -> Result<u64, AllocError>
    ensures entries { OnOk result (entries.new ≡ lru_cache (put_entries same_prefix entries.old stage.prefix stage) entries.old.cap) }
    ensures gone { IfOk result (λ n. n ≡ pixels_gone (displaced same_prefix entries.old stage.prefix stage)) }
    ensures unchanged { OnErr result (entries.new ≡ entries.old) }
{
    let prefix = stage.prefix().share()?;
    match entries.push(prefix, stage) {
        Ok(Some((_, gone))) => Ok(gone.region().pixels()),
        Ok(None) => Ok(0),
        Err(refused) => Err(AllocError::from(refused)),
    }
}

// Takes the last stages out until the pixels of the others are within the budget, and tells these pixels.
pub(crate) fn shed(entries: &mut LruCache<Prefix, Staged>, mut used: u128, budget: u64) -> u64
    requires used { used ≡ total_pixels (stages_of entries.old.entries) }
    ensures stages { stages_of entries.new.entries ≡ front_within entries.old.cap budget (stages_of entries.old.entries) }
    ensures limit { entries.new.cap ≡ entries.old.cap }
    ensures used { result ≡ total_pixels (stages_of entries.new.entries) }
    ensures within { result ≤ budget }
    ensures of { (source : Cut) → AreOf source entries.old.entries → AreOf source entries.new.entries }
{
    know_valid(entries);
    while used > budget as u128 {
        match entries.pop_lru() {
            Some((_, stage)) => used -= stage.region().pixels() as u128,
            None => unreachable!(),
        }
    }
    used as u64
}
