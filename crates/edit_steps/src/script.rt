ghost use Rattle.std.specs.Prelude.{◌≡◌, ◌+◌, ◌<◌, ◌≤◌, ◌↔◌, [], length, false, slice_get, IfOk, IfSome, IsSome, OnOk, OnErr};

use crate::change::{Change, any_reaches};
use crate::draft::Draft;
use crate::fault::ScriptEnd;
use crate::judging::follow;
use crate::kinds::kinds_in;
use crate::settings::Settings;
use crate::step::Step;
use history::{History, Kind, Kinds};
use outside::Pipe;
use px::View;
use std::alloc::{AllocError, Global};
use std::marker::Model;
use undo_stack::Undo;

/// A whole edit script: the settings of its session, the history that it begins with, and its steps, each
/// of which may follow those before it. Edits, undos, redos, views and second views are changes; the moment
/// `m` is after the first `m` of them. Every value is within its range.
#[derive(Debug, Drop)]
pub struct Script {
    settings: Settings,
    opening: History,
    steps: Vec<Step>,
    changes: Vec<Change>,
}

impl Model for Script {
    ghost use Rattle.edit_steps.specs.Script.{Recipe, recipe};

    ghost Value = { Recipe };

    ghost use Rattle.edit_steps.specs.Kept.{IsKept};

    ghost view = { λ s. recipe s.settings s.opening s.steps.items };

    ghost invariant = { λ s. IsKept (recipe s.settings s.opening s.steps.items) s.changes.items };
}

impl Script {
    ghost use Rattle.edit_steps.specs.Ranges.{IsSettings, IsOpening, IsStepWithin, IsView};
    ghost use Rattle.std.specs.List.{All};
    ghost use Rattle.edit_steps.specs.Faults.{steps_fault};
    ghost use Rattle.edit_steps.specs.Script.{recipe, IsScript, changes, history_at, view_at, second_at, kinds_between, concerns_between, behind, moment_of};
    ghost use Rattle.edit_steps.specs.Changes.{change_kind};
    ghost use Rattle.edit_steps.specs.Kept.{IsKept};
    ghost use Rattle.edit_steps.specs.Answer.{Judges};

    /// The script of these settings, this opening history and these steps. It is refused with the first
    /// step, counted from 1, that is a change behind 256 changes, an export behind 8, a thumbnail behind
    /// 16 or a settle behind 256, or else that is a second view where there is no second window, an undo
    /// or a redo with nowhere to go, or an edit that the history before it doesn't allow.
    pub fn of(
        alloc: Global,
        settings: Settings,
        opening: History,
        steps: Vec<Step>,
    ) -> Result<Script, ScriptEnd>
        requires settings { IsSettings settings }
        requires opening { IsOpening opening }
        requires steps { All IsStepWithin steps.items }
        ensures answer { Judges (steps_fault settings opening [] steps.items) result }
        ensures script { IfOk result (λ script. script ≡ recipe settings opening steps.items) }
    {
        let mut draft = Draft::start(alloc, settings, opening)?;
        for step in steps {
            draft.push(alloc, step)?;
        }
        Ok(draft.finish())
    }

    // The script with what is kept of its changes.
    pub(crate) fn kept(
        settings: Settings,
        opening: History,
        steps: Vec<Step>,
        changes: Vec<Change>,
    ) -> Script
        requires { IsKept (recipe settings opening steps.items) changes.items }
        ensures { result ≡ recipe settings opening steps.items }
    {
        Script {
            settings,
            opening,
            steps,
            changes,
        }
    }

    /// The settings of the session.
    pub fn settings(&self) -> &Settings
        ensures value { result.now ≡ self.now.settings }
        ensures within { IsSettings result.now }
    {
        &self.settings
    }

    /// The history at moment 0.
    pub fn opening(&self) -> &History
        ensures value { result.now ≡ self.now.opening }
        ensures within { IsOpening result.now }
    {
        &self.opening
    }

    /// The steps, in their order.
    pub fn steps(&self) -> &[Step]
        ensures value { result.now ≡ self.now.steps }
        ensures valid { IsScript self.now }
    {
        &self.steps
    }

    /// How many steps there are: at most 256 changes, 8 exports, 16 thumbnails and 256 settles.
    pub fn step_count(&self) -> u32
        ensures count { result ≡ length self.now.steps }
        ensures few { result ≤ 536 }
    {
        self.steps.len() as u32
    }

    /// How many changes the script makes: the number of its last moment, at most 256.
    pub fn changes(&self) -> u32
        ensures count { result ≡ changes self.now }
        ensures few { result ≤ 256 }
    {
        self.changes.len() as u32
    }

    /// What the full pipe shows after the first `m` changes.
    pub fn view_at(&self, m: u32) -> View
        requires { m ≤ changes self.now }
        ensures value { result ≡ view_at self.now m }
        ensures within { IsView result }
    {
        if m == 0 {
            return self.settings.view;
        }
        self.changes[m as usize - 1].view
    }

    /// What the second pipe shows after the first `m` changes, where there is a second window.
    pub fn second_at(&self, m: u32) -> Option<View>
        requires { m ≤ changes self.now }
        ensures value { result ≡ second_at self.now m }
        ensures there { IsSome result ↔ IsSome self.now.settings.second }
        ensures within { IfSome result IsView }
    {
        if m == 0 {
            return self.settings.second;
        }
        self.changes[m as usize - 1].second
    }

    /// The kinds of the changes from + 1 to `to`. Where these are views alone, the history after the first
    /// `from` changes is the one after the first `to`.
    pub fn kinds(&self, from: u32, to: u32) -> Kinds
        requires rising { from ≤ to }
        requires there { to ≤ changes self.now }
        ensures value { result ≡ kinds_between self.now from to }
        ensures same { result.top ≡ false → result.synch ≡ false → result.remove ≡ false → history_at self.now to ≡ history_at self.now from }
    {
        kinds_in(&self.changes[from as usize..to as usize])
    }

    /// Whether one of the changes from + 1 to `to` concerns the pipe: an edit, an undo and a redo concern
    /// every pipe, a view the full pipe alone, and a second view the second pipe alone.
    pub fn concerns(&self, pipe: Pipe, from: u32, to: u32) -> bool
        requires rising { from ≤ to }
        requires there { to ≤ changes self.now }
        ensures { result ≡ concerns_between self.now pipe from to }
    {
        any_reaches(pipe, &self.changes[from as usize..to as usize])
    }

    /// The histories that the script begins with: its opening history, nothing to undo and nothing to
    /// redo.
    pub fn begin(&self, alloc: Global) -> Result<Undo<History>, AllocError>
        ensures { IfOk result (λ h. h ≡ behind self.now 0) }
    {
        let present = self.opening.copy(alloc)?;
        Undo::new(alloc, present, self.settings.undo_depth)
    }

    /// Makes the step behind the first `n` ones on the histories that these leave, and says the kind of
    /// its change. Where memory runs out the histories are as before.
    pub fn follow(
        &self,
        alloc: Global,
        histories: &mut Undo<History>,
        n: u32,
    ) -> Result<Kind, AllocError>
        requires there { n < length self.now.steps }
        requires before { histories.old ≡ behind self.now n }
        ensures behind { OnOk result (histories.new ≡ behind self.now (n + 1)) }
        ensures present { OnOk result (histories.new.present ≡ history_at self.now (moment_of self.now (n + 1))) }
        ensures kind { IfOk result (λ kind. IfSome (slice_get self.now.steps n) (λ step. kind ≡ change_kind (behind self.now n) step)) }
        ensures unchanged { OnErr result (histories.new ≡ histories.old) }
    {
        follow(alloc, histories, &self.steps[n as usize])
    }

    /// The history after the first `m` changes.
    pub fn history_at(&self, alloc: Global, m: u32) -> Result<History, AllocError>
        requires { m ≤ changes self.now }
        ensures { IfOk result (λ h. h ≡ history_at self.now m) }
    {
        let mut histories = self.begin(alloc)?;
        let mut left = m;
        for step in &self.steps {
            if left == 0 {
                return Ok(histories.into_now());
            }
            follow(alloc, &mut histories, step)?;
            if step.is_change() {
                left -= 1;
            }
        }
        Ok(histories.into_now())
    }
}
