ghost use Rattle.std.specs.Prelude.{◌≡◌, ◌++◌, [], ◌^◌, ◌-◌, length, IfOk, IfSome, option_map};
ghost use Rattle.stage_cache.specs.Stages.{IsRising};
ghost use Rattle.stage_cache.specs.StageCache.{IsFound};
ghost use Rattle.shared_stage.specs.Story.{Replays, stages_after, find_adds, keep_adds};
ghost use Rattle.shared_stage.specs.State.{state_of};

use crate::event::{AskedStages, StageEvent};
use crate::stage_name::StageName;
use pipe_nodes::{Prefix, Staged};
use px::Region;
use stage_cache::{Kept, StageCache};
use std::alloc::{AllocError, Global};
use std::marker::Model;
use turn_lock::Told;

/// A stage cache with the story of the calls on it, which replays. Contracts see its name and its story; the entries of the cache
/// are those that the story leaves.
#[derive(Drop)]
pub struct StageState {
    cache: StageCache,
    story: Vec<StageEvent>,
}

impl Model for StageState {
    ghost use Rattle.shared_stage.specs.State.{StageStateSeen, name_of, Keeps};

    ghost Value = { StageStateSeen };

    ghost view = { λ s. record { name = name_of s.cache; story = s.story.items } };

    ghost invariant = { λ s. Keeps s.cache s.story.items };
}

impl StageState {
    /// The story of an empty cache begins.
    pub(crate) fn start(alloc: Global, cache: StageCache) -> StageState
        requires { cache.stages ≡ [] }
        ensures { result ≡ state_of cache [] }
    {
        StageState {
            cache,
            story: Vec::new(alloc),
        }
    }

    // A find by the worker of this number.
    pub(crate) fn find(
        &mut self,
        alloc: Global,
        worker: u32,
        list: &[(Prefix, Region)],
    ) -> Result<Option<(usize, Staged)>, AllocError>
        requires rising { IsRising list.now }
        ensures story { self.new ≡ record self.old { story = self.old.story ++ find_adds worker list.now result } }
        ensures replays { Replays self.new.name self.new.story }
        ensures stage { IfOk result (λ r. IfSome r (λ f. IsFound self.old.name.source (stages_after self.old.name self.old.story) list.now f.0 f.1)) }
    {
        self.story.reserve(1)?;
        let asked = AskedStages::of(alloc, list)?;
        let found = self.cache.find(list)?;
        let answer = place_of(&found);
        self.story.push_reserved(StageEvent::Find {
            worker,
            list: asked,
            answer,
        });
        Ok(found)
    }

    // A stage that the worker of this number keeps.
    pub(crate) fn keep(&mut self, worker: u32, stage: Staged) -> Result<Kept, AllocError>
        requires source { stage.source ≡ self.old.name.source }
        ensures story { self.new ≡ record self.old { story = self.old.story ++ keep_adds worker stage result } }
        ensures replays { Replays self.new.name self.new.story }
    {
        self.story.reserve(1)?;
        let prefix = stage.prefix().share()?;
        let region = stage.region();
        let answer = self.cache.keep(stage)?;
        self.story.push_reserved(StageEvent::Keep {
            worker,
            prefix,
            region,
            answer,
        });
        Ok(answer)
    }
}

// The place in the list of what was found.
fn place_of(found: &Option<(usize, Staged)>) -> Option<usize>
    ensures { result ≡ option_map (λ f. f.0) found.now }
{
    match found {
        Some((i, _)) => Some(*i),
        None => None,
    }
}

impl Told for StageState {
    ghost use Rattle.shared_stage.specs.Story.{worker_of};

    type Name = StageName;

    type Entry = StageEvent;

    ghost name = { λ s. s.name };

    ghost story = { λ s. s.story };

    ghost bearer = { worker_of };

    ghost mark = { λ s. length s.story };

    ghost most = { λ _. 2 ^ 64 - 1 };

    fn mark_now(&self) -> u64 {
        self.story.len() as u64
    }
}
