//! The whole run.
ghost use Rattle.std.specs.Prelude.{◌≡◌, ◌+◌, length, sum, map, IfOk};
ghost use Rattle.edit_steps.specs.Script.{changes};
ghost use Rattle.journal.specs.Lines.{lines};
ghost use Rattle.generator.specs.Rounds.{settles_at, gen_play, frame_sum, frames_sum, Generates, PlayEnds};

use crate::play::Play;
use crate::steps::STEPS;
use crate::subject::subject;
use dev_core::{DeskState, Frame, Subject};
use edit_steps::{ScriptEnd, ScriptFault, Step};
use std::alloc::{AllocError, Global};
use std::thread::Threads;
use thiserror::Error;

/// What is said of a run.
#[derive(Clone, Copy, Debug, PartialEq, Eq)]
pub struct Generated {
    /// How many of the steps are changes.
    pub changes: u32,
    /// How many pictures were made.
    pub lines: u64,
    /// The sum of all bytes of these pictures' files.
    pub sum: u64,
}

/// Why there is no run.
#[derive(Debug, Drop, Error)]
pub enum GenerateEnd {
    /// The history doesn't allow a step that was drawn.
    #[error("script refused at step {}: {}", .0.step, .0.reason)]
    Refused(ScriptFault),
    #[error("out of memory")]
    Memory,
}

impl From<AllocError> for GenerateEnd {
    ghost use Rattle.std.specs.Prelude.{◌≡◌};
    ghost use Rattle.generator.specs.declared.making.GenerateEnd.TheVariants.{Memory};

    ghost from_gives = { λ _ e. e ≡ Memory };

    fn from(_error: AllocError) -> GenerateEnd {
        GenerateEnd::Memory
    }
}

impl From<ScriptEnd> for GenerateEnd {
    ghost use Rattle.std.specs.Prelude.{◌≡◌};
    ghost use Rattle.generator.specs.Rounds.{end_of_script};

    ghost from_gives = { λ x e. e ≡ end_of_script x };

    fn from(end: ScriptEnd) -> GenerateEnd {
        match end {
            ScriptEnd::Fault(fault) => GenerateEnd::Refused(fault),
            ScriptEnd::Memory => GenerateEnd::Memory,
        }
    }
}

// Whether the script has a step at this place, and it is a settle.
fn settles(subject: &Subject, i: u32) -> bool
    ensures { result ≡ settles_at subject.now.script.steps i }
{
    matches!(subject.script().steps().get(i as usize), Some(Step::Settle))
}

// The steps with their rounds, the close, and the rounds behind it.
#[tactic(auto, using(crate::proofs::DrawLemmas::number_start, crate::proofs::DrawLemmas::numbers_behind, crate::proofs::DrawLemmas::number_three, crate::proofs::RoundLemmas::play_none, crate::proofs::RoundLemmas::play_more, crate::proofs::RoundLemmas::rounds_drawn))]
fn play<R: Threads + Sync>(rt: &R, alloc: Global, n: u32) -> Result<Play, GenerateEnd>
    ensures play { IfOk result (λ p. p ≡ gen_play n) }
    ensures refused { PlayEnds n result }
{
    let (subject, mut draws) = subject(alloc, n)?;
    let mut play = Play::start(alloc, &subject)?;
    for i in 0..STEPS {
        let _key = draws.next();
        let _value = draws.next();
        let rounds = draws.next() % 12;
        let settles = settles(&subject, i);
        play.step(rt, alloc, settles, rounds)?;
    }
    play.edit(rt, alloc)?;
    play.rest(rt, alloc)?;
    Ok(play)
}

// The sum with these bytes besides. A sum past 2^64 is want of memory.
fn add_bytes(mut all: u64, bytes: &[u8]) -> Result<u64, AllocError>
    ensures { IfOk result (λ new. new ≡ all + sum bytes.now) }
{
    for byte in bytes {
        let Some(more) = all.checked_add(u64::from(*byte)) else {
            return Err(AllocError);
        };
        all = more;
    }
    Ok(all)
}

// The sum of all bytes of the frames.
fn sum_of(frames: &[Frame]) -> Result<u64, AllocError>
    ensures { IfOk result (λ all. all ≡ sum (map frame_sum frames.now)) }
{
    let mut all = 0;
    for frame in frames {
        all = add_bytes(all, frame.bytes())?;
    }
    Ok(all)
}

// What is said of a desk.
fn figures_of(desk: &DeskState) -> Result<Generated, AllocError>
    ensures changes { IfOk result (λ g. g.changes ≡ changes desk.now.subject.script) }
    ensures lines { IfOk result (λ g. g.lines ≡ length (lines desk.now.subject.script desk.now.journal)) }
    ensures sum { IfOk result (λ g. g.sum ≡ frames_sum desk.now.subject desk.now.journal) }
{
    let frames = desk.frames();
    Ok(Generated {
        changes: desk.subject().script().changes(),
        lines: frames.len() as u64,
        sum: sum_of(frames)?,
    })
}

/// Makes the run of a start: the same start gives the same run. `Refused` tells the first step that the
/// script's history doesn't allow.
pub fn generate<R: Threads + Sync>(rt: &R, alloc: Global, n: u32) -> Result<Generated, GenerateEnd>
    ensures { Generates n result }
{
    let play = play(rt, alloc, n)?;
    let made = figures_of(play.desk())?;
    Ok(made)
}
