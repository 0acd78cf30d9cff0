ghost use Rattle.std.specs.Prelude.{◌≡◌, ◌≤◌, ◌↔◌, ◌∷◌, [], length, slice_get, IsTrue, IfOk, IfSome, IfNone, OnOk, OnErr, MatchOption, option_map, Some};
ghost use Rattle.std.specs.Arc.{arc_value};
ghost use Rattle.std.specs.Map.{remove_entry};
ghost use Rattle.pipe_nodes.specs.SamePrefix.{same_prefix};
ghost use Rattle.stage_cache.specs.declared.kept.Kept.TheVariants.{Stored, TooLarge};
ghost use Rattle.stage_cache.specs.Stages.{found_index, stages_after_find, keep_answer, stages_after_keep, IsRising, IsLastCovered, NoneCovered, IsLongestFront};
ghost use Rattle.stage_cache.specs.StageCache.{stage_cache, stage_of_staged, IsStageCache, IsFound};

use crate::entries::{know_valid, last_covered, listed, put_front, shed};
use crate::kept::Kept;
use lru::LruCache;
use modules_raw::Source;
use pipe_nodes::{Prefix, Staged};
use px::Region;
use std::alloc::{AllocError, Global};
use std::marker::Model;
use std::num::NonZeroUsize;
use std::sync::Arc;

/// Stages of one source, each under its own prefix, the most recently used first. They are never more
/// than a number of entries, and never have more than a number of pixels together.
#[derive(Debug, Drop)]
pub struct StageCache {
    source: Arc<Source>,
    entries: LruCache<Prefix, Staged>,
    // The most pixels that all entries may have together, and how many they have.
    budget: u64,
    used: u64,
}

impl Model for StageCache {
    ghost use Rattle.std.specs.Prelude.{◌≡◌, ◌≤◌};
    ghost use Rattle.std.specs.Arc.{arc_value};
    ghost use Rattle.stage_cache.specs.Stages.{total_pixels};
    ghost use Rattle.stage_cache.specs.StageCache.{StageCacheSeen, stage_cache, stages_of, AreOf};

    ghost Value = { StageCacheSeen };

    ghost view = { λ c. stage_cache (arc_value c.source) c.entries.cap c.budget (stages_of c.entries.entries) };

    ghost invariant = { λ c. AreOf (arc_value c.source) c.entries.entries × (c.used ≡ total_pixels (stages_of c.entries.entries)) × (c.used ≤ c.budget) };
}

impl StageCache {
    /// No stages yet, and room for `entries` of them, 1 to 64, with at most `pixels` pixels together.
    pub fn new(
        alloc: Global,
        source: Arc<Source>,
        entries: u32,
        pixels: u64,
    ) -> Result<StageCache, AllocError>
        requires some { 1 ≤ entries }
        requires few { entries ≤ 64 }
        ensures { IfOk result (λ c. c ≡ stage_cache (arc_value source) entries pixels []) }
    {
        let Some(limit) = NonZeroUsize::new(entries as usize) else {
            unreachable!()
        };
        let entries = LruCache::new(alloc, limit)?;
        Ok(StageCache {
            source,
            entries,
            budget: pixels,
            used: 0,
        })
    }

    /// How many stages there are.
    pub fn len(&self) -> usize
        ensures len { result ≡ length self.now.stages }
        ensures valid { IsStageCache self.now }
    {
        self.entries.len()
    }

    pub fn is_empty(&self) -> bool
        ensures { IsTrue result ↔ (self.now.stages ≡ []) }
    {
        self.entries.is_empty()
    }

    /// The prefix and the region of each stage, the most recently used first.
    pub fn stages(&self, alloc: Global) -> Result<Vec<(Prefix, Region)>, AllocError>
        ensures { IfOk result (λ stages. stages.items ≡ self.now.stages) }
    {
        listed(alloc, &self.entries)
    }

    /// The longest prefix of the list that has a stage which covers the region beside it: its index, and
    /// that stage, which becomes the most recently used. `None` exactly where no prefix of the list has
    /// one, and then nothing changes. The prefixes are of rising length.
    ///
    /// Each prefix is looked up at most once, from the longest on. Where memory runs out the cache is as
    /// before.
    pub fn find(&mut self, list: &[(Prefix, Region)]) -> Result<Option<(usize, Staged)>, AllocError>
        requires rising { IsRising list.now }
        ensures index { IfOk result (λ r. option_map (λ f. f.0) r ≡ found_index self.old.stages list.now) }
        ensures longest { IfOk result (λ r. MatchOption r (NoneCovered self.old.stages list.now) (λ f. IsLastCovered self.old.stages list.now f.0)) }
        ensures none { IfOk result (λ r. IfNone r (self.new ≡ self.old)) }
        ensures stage { IfOk result (λ r. IfSome r (λ f. IsFound self.old.source self.old.stages list.now f.0 f.1)) }
        ensures stages { OnOk result (self.new ≡ record self.old { stages = stages_after_find list.now self.old.stages }) }
        ensures first { IfOk result (λ r. IfSome r (λ f. slice_get self.new.stages 0 ≡ Some (stage_of_staged f.1))) }
        ensures unchanged { OnErr result (self.new ≡ self.old) }
    {
        let Some((i, stage)) = last_covered(&self.entries, list)? else {
            return Ok(None);
        };
        self.entries.promote(stage.prefix());
        Ok(Some((i, stage)))
    }

    /// Keeps a stage of the cache's source, which becomes the most recently used, in place of the one of
    /// the same prefix. The stages that were used longest ago go, until both numbers are kept to.
    /// `TooLarge` exactly where the stage alone has more pixels than the cache may have, and then nothing
    /// changes.
    ///
    /// Takes as long as the stages that go. Where memory runs out the cache is as before, without the
    /// stage.
    pub fn keep(&mut self, stage: Staged) -> Result<Kept, AllocError>
        requires source { stage.source ≡ self.old.source }
        ensures answer { IfOk result (λ kept. kept ≡ keep_answer self.old.budget (stage_of_staged stage)) }
        ensures too_large { IfOk result (λ kept. kept ≡ TooLarge → self.new ≡ self.old) }
        ensures stages { OnOk result (self.new ≡ record self.old { stages = stages_after_keep self.old.limit self.old.budget (stage_of_staged stage) self.old.stages }) }
        ensures longest { IfOk result (λ kept. kept ≡ Stored → IsLongestFront self.old.limit self.old.budget (stage_of_staged stage ∷ remove_entry (same_prefix stage.prefix) self.old.stages) self.new.stages) }
        ensures unchanged { OnErr result (self.new ≡ self.old) }
    {
        let more = stage.region().pixels();
        if more > self.budget {
            return Ok(Kept::TooLarge);
        }
        know_valid(&self.entries);
        let gone = put_front(&mut self.entries, stage)?;
        let used = self.used as u128 + more as u128 - gone as u128;
        self.used = shed(&mut self.entries, used, self.budget);
        Ok(Kept::Stored)
    }
}
