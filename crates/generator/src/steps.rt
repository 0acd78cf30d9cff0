//! The steps of the script.
ghost use Rattle.std.specs.Prelude.{◌≡◌, ◌<◌, ◌+◌, ◌^◌, ◌++◌, ◌∷◌, [], IfOk, OnOk};
ghost use Rattle.std.specs.List.{All};
ghost use Rattle.edit_steps.specs.Answer.{Judges};
ghost use Rattle.edit_steps.specs.Faults.{is_export};
ghost use Rattle.edit_steps.specs.Ranges.{IsStepWithin};
ghost use Rattle.generator.specs.Draws.{number_at};
ghost use Rattle.generator.specs.Script.{set_step, exposure_of, mixer_of, crop_of, blend_of, orientation_of, view_of, export_of, step_of, script_of, script_fault, item_count, has_all_exports, step_behind, steps_to, TellsFault};

use crate::draws::Draws;
use crate::opening::{item_of, opening, settings};
use edit_steps::{Script, ScriptEnd, Step};
use history::Edit;
use params::{Blend, ChannelMixer, Crop, Exposure, Mode, Orientation, Params, Shape};
use px::{BoxSize, Depth, View};
use std::alloc::{AllocError, Global};

/// How many steps the script has.
pub(crate) const STEPS: u32 = 40;

fn set_step(params: Params, blend: Option<Blend>) -> Step
    ensures { result ≡ set_step params blend }
{
    Step::Edit(Edit::Set(item_of(params, blend)))
}

fn exposure(gain: u32) -> Params
    ensures { result ≡ exposure_of gain }
{
    Params::Exposure(Exposure {
        black: 0,
        gain,
        stops: 0,
    })
}

fn mixer(green: u32) -> Params
    requires { green < 65536 }
    ensures { result ≡ mixer_of green }
{
    let green = green as i32;
    Params::ChannelMixer(ChannelMixer {
        rows: [4096, green, 0, 0, 4096, 0, 0, 0, 4096],
    })
}

fn crop(v: u32) -> Params
    ensures { result ≡ crop_of v }
{
    Params::Crop(Crop {
        left: v % 16_384,
        top: v % 16_384,
        right: 65_536 - v % 8192,
        bottom: 65_536,
    })
}

fn blend(v: u32) -> Blend
    ensures { result ≡ blend_of v }
{
    Blend {
        opacity: v % 65_537,
        mode: Mode::Normal,
        mask: Some(Shape::Ellipse {
            cx: 32_768,
            cy: 32_768,
            ux: 1,
            uy: 0,
            a: 400,
            b: 100 + v % 300,
            feather: 65_536,
        }),
    }
}

fn orientation(swap: bool) -> Params
    ensures { result ≡ orientation_of swap }
{
    Params::Orientation(Orientation {
        swap,
        flip_x: false,
        flip_y: false,
    })
}

fn view(v: u32) -> View
    ensures { result ≡ view_of v }
{
    View {
        factor: 1 + v % 4,
        cx: v % 65_537,
        cy: v % 65_537,
        w: 320,
        h: 240,
    }
}

fn export(v: u32) -> Step
    ensures { result ≡ export_of v }
{
    let depth = if v % 2 == 1 {
        Depth::Sixteen
    } else {
        Depth::Eight
    };
    Step::Export {
        size: Some(BoxSize { w: 512, h: 512 }),
        depth,
    }
}

// The step that two draws make.
fn step_of(k: u32, v: u32, items: usize, all_asked: bool) -> Step
    requires draw { v < 65536 }
    requires items { items + 1 < 2 ^ 64 }
    ensures step { result ≡ step_of k v items all_asked }
    ensures within { IsStepWithin result }
{
    match k % 8 {
        0 => set_step(exposure(2048 + v % 4096), None),
        1 => set_step(mixer(v % 2048), None),
        2 => set_step(crop(v), None),
        3 => set_step(exposure(8192), Some(blend(v))),
        4 => Step::Edit(Edit::Select {
            end: (v as usize % (items + 1)) as u32,
        }),
        5 => set_step(orientation(v % 2 == 1), None),
        6 => Step::View(view(v)),
        _ => if all_asked { Step::Settle } else { export(v) },
    }
}

/// The script of the steps.
pub(crate) fn script_of(alloc: Global, steps: &[Step]) -> Result<Script, ScriptEnd>
    requires { All IsStepWithin steps.now }
    ensures answer { Judges (script_fault steps.now) result }
    ensures script { IfOk result (λ s. s ≡ script_of steps.now) }
{
    let opening = opening(alloc)?;
    let steps = Vec::from_slice(alloc, steps)?;
    Script::of(alloc, settings(), opening, steps)
}

// How many items the history has that the steps leave.
fn item_count(alloc: Global, steps: &[Step]) -> Result<usize, ScriptEnd>
    requires { All IsStepWithin steps.now }
    ensures answer { Judges (script_fault steps.now) result }
    ensures count { IfOk result (λ n. n ≡ item_count steps.now) }
    ensures small { IfOk result (λ n. n + 1 < 2 ^ 64) }
{
    let script = script_of(alloc, steps)?;
    let history = script.history_at(alloc, script.changes())?;
    Ok(history.items().len())
}

fn is_export(step: &Step) -> bool
    ensures { result ≡ is_export step.now }
{
    matches!(step, Step::Export { .. })
}

// Whether all exports were asked for.
fn has_all_exports(steps: &[Step]) -> bool
    ensures { result ≡ has_all_exports steps.now }
{
    steps.iter().filter(|step| is_export(step)).count() >= 8
}

// Puts the next step behind the others.
#[tactic(auto, using(crate::proofs::DrawLemmas::number_one, crate::proofs::DrawLemmas::number_two, crate::proofs::DrawLemmas::number_three))]
fn add_step(alloc: Global, draws: &mut Draws, steps: &mut Vec<Step>) -> Result<(), ScriptEnd>
    requires { All IsStepWithin steps.old.items }
    ensures answer { Judges (script_fault steps.old.items) result }
    ensures draws { OnOk result (draws.new.number ≡ number_at draws.old.number 3) }
    ensures step { OnOk result (steps.new.items ≡ steps.old.items ++ step_behind draws.old.number 0 steps.old.items ∷ []) }
    ensures within { OnOk result (All IsStepWithin steps.new.items) }
{
    let k = draws.next();
    let v = draws.next();
    let _rounds = draws.next();
    let items = item_count(alloc, steps)?;
    let all_asked = has_all_exports(steps);
    steps.push(step_of(k, v, items, all_asked))?;
    Ok(())
}

/// The steps, by the draws behind the picture's.
#[tactic(auto, using(crate::proofs::DrawLemmas::number_start, crate::proofs::DrawLemmas::step_along, crate::proofs::DrawLemmas::numbers_behind, crate::proofs::DrawLemmas::steps_start, crate::proofs::DrawLemmas::steps_more))]
pub(crate) fn steps(alloc: Global, mut draws: Draws) -> Result<Vec<Step>, ScriptEnd>
    ensures steps { IfOk result (λ v. v.items ≡ steps_to draws.number 40) }
    ensures within { IfOk result (λ v. All IsStepWithin v.items) }
    ensures refused { TellsFault draws.number result }
{
    let mut steps = Vec::new(alloc);
    for _i in 0..STEPS {
        add_step(alloc, &mut draws, &mut steps)?;
    }
    Ok(steps)
}
