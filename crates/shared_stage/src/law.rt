//! What follows from a story that replays.
ghost use Rattle.std.specs.Prelude.{List, [], ◌∷◌, ◌++◌};
ghost use Rattle.shared_stage.specs.declared.event.StageEvent.{StageEvent};
ghost use Rattle.shared_stage.specs.declared.stage_name.StageName.{StageName};
ghost use Rattle.shared_stage.specs.Story.{MayCome, Replays, stages_after};

/// The last answer of a story that replays is the one that a cache of one thread gives over the entries which the story before it
/// leaves.
pub fn last_answer()
    ensures { (name : StageName) (before : List StageEvent) (e : StageEvent) → Replays name (before ++ e ∷ []) → MayCome name (stages_after name before) e }
{}
