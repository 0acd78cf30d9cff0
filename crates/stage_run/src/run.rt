ghost use Rattle.std.specs.Prelude.{◌≡◌, ◌+◌, ◌<◌, ◌≤◌, length, slice_get, is_ok, true, false, IfOk, IfSome, IsSome, IsSomeAnd, OnOk, OnErr, Some, None, if◌then◌else◌};
ghost use Rattle.std.specs.Arc.{arc_value};
ghost use Rattle.px.specs.Area.{IsIn};
ghost use Rattle.px.specs.Cut.{picture_of};
ghost use Rattle.pnm.specs.Pnm.{written};
ghost use Rattle.pipe_nodes.specs.Actives.{actives_of};
ghost use Rattle.pipe_nodes.specs.Staged.{IsRight};
ghost use Rattle.pipe_nodes.specs.Whole.{whole};
ghost use Rattle.pipe_nodes.specs.Windows.{CanShow, windowed};
ghost use Rattle.pipe_run.specs.Planned.{sides_at};
ghost use Rattle.stage_cache.specs.Stages.{found_index, stages_after_find};
ghost use Rattle.stage_run.specs.Asked.{regions_of};
ghost use Rattle.stage_run.specs.StageRun.{IsInput, IsKept, IsStageRun, asked, at_of, entry_of, found_stage, kept_at, on_stage, stage_at};

use crate::gathering::{pieces_of, stages_asked};
use crate::reached::At;
use history::History;
use modules_raw::Source;
use pipe_nodes::{Piece, Show, Staged, Steps};
use px::{Plane, Region};
use stage_cache::{Kept, StageCache};
use std::alloc::{AllocError, Global};
use std::marker::Model;
use std::sync::Arc;
use std::sync::ledger::Ledger;
use std::thread::Threads;

/// A run of the module instances that are active in a history, over a level of a source, for a window. Its
/// regions are planned before a pixel is made, and its stage holds a region of what the instances so far
/// make of the whole level.
#[derive(Drop)]
pub struct StageRun {
    source: Arc<Source>,
    show: Show,
    pieces: Vec<Piece>,
    regions: Vec<Region>,
    stage: Option<Staged>,
    unkept: bool,
}

impl Model for StageRun {
    ghost use Rattle.std.specs.Arc.{arc_value};
    ghost use Rattle.stage_run.specs.StageRun.{StageRunSeen, stage_run, Holds};

    ghost Value = { StageRunSeen };

    ghost view = { λ r. stage_run (arc_value r.source) r.show r.pieces.items r.stage r.unkept };

    ghost invariant = { λ r. Holds (arc_value r.source) r.show r.pieces.items r.regions.items r.stage r.unkept };
}

// How far a stage is, if there is one.
fn at_of(staged: &Option<Staged>, unkept: bool) -> Option<At>
    requires few { IfSome staged.now (λ s. length s.prefix.actives ≤ 64) }
    ensures { result ≡ at_of staged.now unkept }
{
    let staged = staged.as_ref()?;
    Some(At {
        done: staged.prefix().len() as u32,
        unkept,
    })
}

// Does nothing: a stage holds a region of what its prefix makes of its source.
fn know_right(staged: &Staged)
    ensures { IsRight staged.now }
{
    staged.prefix();
}

impl StageRun {
    /// A run that has no stage yet. Each instance is committed, one step each.
    pub fn plan<L: Ledger>(
        alloc: Global,
        source: &Arc<Source>,
        history: &History,
        show: &Show,
        steps: &mut Steps<L>,
    ) -> Result<StageRun, AllocError>
        requires level { show.now.level ≤ 8 }
        requires window { CanShow show.now.window }
        ensures run { IfOk result (λ r. r ≡ record { source = arc_value source.now; show = show.now; actives = actives_of history.now; stage = None }) }
        ensures steps { OnOk result (steps.new ≡ steps.old + length (actives_of history.now)) }
        ensures few { steps.new ≤ steps.old + length (actives_of history.now) }
    {
        let pieces = pieces_of(alloc, history, steps)?;
        let regions = pipe_run::plan(alloc, &pieces, source, show)?;
        Ok(StageRun {
            source: Arc::try_clone(source)?,
            show: *show,
            pieces,
            regions,
            stage: None,
            unkept: false,
        })
    }

    /// The mipmap level that the run goes over, 0 to 8.
    pub fn level(&self) -> u8
        ensures level { result ≡ self.now.show.level }
        ensures valid { IsStageRun self.now }
    {
        self.show.level
    }

    /// How many instances it applies.
    pub fn count(&self) -> u32
        ensures count { result ≡ length self.now.actives }
        ensures valid { IsStageRun self.now }
    {
        self.pieces.len() as u32
    }

    /// How far it is, once it has a stage.
    pub fn stage(&self) -> Option<At>
        ensures stage { result ≡ self.now.stage }
        ensures valid { IsStageRun self.now }
        ensures entry { IfSome self.now.stage (λ a. a.unkept ≡ true → IsSome (entry_of self.now)) }
    {
        at_of(&self.stage, self.unkept)
    }

    /// The region of its level that it begins with.
    pub fn first_region(&self) -> Region
        ensures first { slice_get (regions_of self.now.source self.now.show self.now.actives) 0 ≡ Some result }
        ensures inside { IsIn result (sides_at self.now.source self.now.show.level).0 (sides_at self.now.source self.now.show.level).1 }
    {
        self.regions[0]
    }

    /// The longest prefix of the run whose stage is in the cache and covers the region that is planned
    /// there: with that stage the run goes on. Its index is one less than how many instances were applied.
    /// `None` exactly where there is no such stage, and then nothing changes.
    pub fn find(
        &mut self,
        alloc: Global,
        cache: &mut StageCache,
    ) -> Result<Option<usize>, AllocError>
        requires none { self.old.stage ≡ None }
        requires source { cache.old.source ≡ self.old.source }
        ensures index { IfOk result (λ i. i ≡ found_index cache.old.stages (asked self.old)) }
        ensures run { IfOk result (λ i. self.new ≡ record self.old { stage = found_stage i }) }
        ensures cache { OnOk result (cache.new ≡ record cache.old { stages = stages_after_find (asked self.old) cache.old.stages }) }
        ensures unchanged { OnErr result (self.new ≡ self.old) }
        ensures cache_unchanged { OnErr result (cache.new ≡ cache.old) }
    {
        let asked = stages_asked(alloc, self.show.level, &self.pieces, &self.regions)?;
        let Some((i, staged)) = cache.find(&asked)? else {
            return Ok(None);
        };
        self.stage = Some(staged);
        self.unkept = false;
        Ok(Some(i))
    }

    /// Begins with the region of its level, before any instance. Where a plane of that level is given
    /// that covers the region, it is cut out of it.
    pub fn load<R: Threads + Sync>(
        &mut self,
        rt: &R,
        alloc: Global,
        ready: Option<&Plane>,
    ) -> Result<(), AllocError>
        requires none { self.old.stage ≡ None }
        requires ready { IfSome ready (λ p. IsInput self.old p.now) }
        ensures run { OnOk result (self.new ≡ record self.old { stage = stage_at 0 false }) }
        ensures unchanged { OnErr result (self.new ≡ self.old) }
    {
        let region = self.regions[0];
        let staged = pipe_run::load(rt, alloc, &self.source, self.show.level, ready, region)?;
        self.stage = Some(staged);
        self.unkept = false;
        Ok(())
    }

    /// Applies the next instance, over the region that is planned behind it. It is one step of work.
    pub fn process<R: Threads + Sync, L: Ledger>(
        &mut self,
        rt: &R,
        alloc: Global,
        steps: &mut Steps<L>,
    ) -> Result<(), AllocError>
        requires left { IsSomeAnd self.old.stage (λ a. a.done < length self.old.actives) }
        ensures run { OnOk result (self.new ≡ record self.old { stage = on_stage self.old.stage }) }
        ensures unchanged { OnErr result (self.new ≡ self.old) }
        ensures one { steps.new ≡ (if is_ok result then steps.old + 1 else steps.old) }
    {
        let Some(from) = &self.stage else {
            unreachable!()
        };
        let done = from.prefix().len();
        let region = self.regions[done + 1];
        let staged = pipe_run::process(rt, alloc, &self.pieces[done], from, region, steps)?;
        self.stage = Some(staged);
        self.unkept = true;
        Ok(())
    }

    /// Keeps the stage that came from the last instance. What the cache keeps is its prefix over the region
    /// that was planned for it.
    pub fn keep(&mut self, cache: &mut StageCache) -> Result<Kept, AllocError>
        requires unkept { IsSomeAnd self.old.stage (λ a. a.unkept ≡ true) }
        requires source { cache.old.source ≡ self.old.source }
        ensures kept { IfOk result (λ kept. IsKept self.old cache.old kept cache.new) }
        ensures run { OnOk result (self.new ≡ record self.old { stage = kept_at self.old.stage }) }
        ensures unchanged { OnErr result (self.new ≡ self.old) }
        ensures cache_unchanged { OnErr result (cache.new ≡ cache.old) }
    {
        let Some(staged) = &self.stage else {
            unreachable!()
        };
        let kept = cache.keep(staged.share()?)?;
        self.unkept = false;
        Ok(kept)
    }

    /// What the window shows of the picture behind all instances, as the bytes of a P6.
    pub fn finish<R: Threads + Sync>(&self, rt: &R, alloc: Global) -> Result<Vec<u8>, AllocError>
        requires done { IsSomeAnd self.now.stage (λ a. a.done ≡ length self.now.actives) }
        ensures { IfOk result (λ b. b.items ≡ written (windowed (whole (picture_of self.now.source) self.now.show.level self.now.actives) self.now.show.window) self.now.show.depth) }
    {
        let Some(staged) = &self.stage else {
            unreachable!()
        };
        know_right(staged);
        let plane = pipe_run::finish(rt, alloc, staged, &self.show)?;
        pnm::write(alloc, &plane, self.show.depth)
    }
}
