ghost use Rattle.std.specs.Prelude.{◌≡◌, ◌<◌, ◌+◌, ◌++◌, ◌∷◌, [], length, vec_len, vec_capacity, IfOk, OnOk, OnErr};
ghost use Rattle.edit_steps.specs.Changes.{scope_of};
ghost use Rattle.edit_steps.specs.Kept.{kept_as};

use crate::change::Change;
use crate::fault::{Reason, ScriptEnd, ScriptFault};
use crate::judging::{follow, history_fault, limit_fault, window_fault};
use crate::script::Script;
use crate::settings::Settings;
use crate::step::Step;
use history::{History, Kind};
use px::View;
use std::alloc::{AllocError, Global};
use std::marker::Model;
use undo_stack::Undo;

/// A script that grows step by step. It is seen as the script so far.
#[derive(Debug, Drop)]
pub struct Draft {
    settings: Settings,
    opening: History,
    steps: Vec<Step>,
    changes: Vec<Change>,
    // The histories and the views behind the steps so far.
    histories: Undo<History>,
    view: View,
    second: Option<View>,
}

impl Model for Draft {
    ghost use Rattle.edit_steps.specs.Script.{Recipe, recipe};

    ghost Value = { Recipe };

    ghost use Rattle.edit_steps.specs.Kept.{IsKept, StandsBehind};

    ghost view = { λ d. recipe d.settings d.opening d.steps.items };

    ghost invariant = { λ d. IsKept (recipe d.settings d.opening d.steps.items) d.changes.items × StandsBehind (recipe d.settings d.opening d.steps.items) d.histories d.view d.second };
}

impl Draft {
    ghost use Rattle.edit_steps.specs.Ranges.{IsSettings, IsOpening, IsStepWithin};
    ghost use Rattle.std.specs.Prelude.{None};
    ghost use Rattle.edit_steps.specs.Faults.{step_fault, next_fault};
    ghost use Rattle.edit_steps.specs.Script.{recipe, with_step, IsScript};
    ghost use Rattle.edit_steps.specs.Answer.{Judges};

    /// A script without steps.
    pub fn start(alloc: Global, settings: Settings, opening: History) -> Result<Draft, AllocError>
        requires settings { IsSettings settings }
        requires opening { IsOpening opening }
        ensures { IfOk result (λ d. d ≡ recipe settings opening []) }
    {
        let present = opening.copy(alloc)?;
        let histories = Undo::new(alloc, present, settings.undo_depth)?;
        Ok(Draft {
            settings,
            opening,
            steps: Vec::new(alloc),
            changes: Vec::new(alloc),
            histories,
            view: settings.view,
            second: settings.second,
        })
    }

    /// The number that the next step has. Steps count from 1.
    pub fn next_step(&self) -> u32
        ensures number { result ≡ length self.now.steps + 1 }
        ensures valid { IsScript self.now }
    {
        self.steps.len() as u32 + 1
    }

    /// Puts a step behind the others. It is refused, with its number, where it is a change behind 256
    /// changes, an export behind 8, a thumbnail behind 16 or a settle behind 256; else where it is a second
    /// view and there is no second window, an undo or a redo with nowhere to go, or an edit that the
    /// history doesn't allow which the steps before it leave. On an error the draft is as before.
    pub fn push(&mut self, alloc: Global, step: Step) -> Result<(), ScriptEnd>
        requires { IsStepWithin step }
        ensures answer { Judges (next_fault self.old.settings self.old.opening self.old.steps step) result }
        ensures longer { OnOk result (self.new ≡ with_step self.old step) }
        ensures unchanged { OnErr result (self.new ≡ self.old) }
    {
        if let Some(reason) = self.step_fault(&step) {
            let step = self.next_step();
            return Err(ScriptEnd::Fault(ScriptFault { step, reason }));
        }
        self.add(alloc, step)?;
        Ok(())
    }

    /// The script of the steps so far. Takes no memory.
    pub fn finish(self) -> Script
        ensures { result ≡ self }
    {
        Script::kept(self.settings, self.opening, self.steps, self.changes)
    }

    // Why the step can't follow those before it.
    fn step_fault(&self, step: &Step) -> Option<Reason>
        ensures { result ≡ step_fault self.now.settings self.now.opening self.now.steps step.now }
    {
        let at_present = window_fault(&self.settings, step).or(history_fault(
            &self.histories,
            step,
        ));
        limit_fault(&self.steps, step).or(at_present)
    }

    // Puts a step without fault behind the others.
    fn add(&mut self, alloc: Global, step: Step) -> Result<(), AllocError>
        requires within { IsStepWithin step }
        requires allowed { step_fault self.old.settings self.old.opening self.old.steps step ≡ None }
        ensures longer { OnOk result (self.new ≡ with_step self.old step) }
        ensures unchanged { OnErr result (self.new ≡ self.old) }
    {
        self.steps.reserve(1)?;
        self.changes.reserve(1)?;
        let kind = follow(alloc, &mut self.histories, &step)?;
        self.view = step.view_behind(self.view);
        self.second = step.second_behind(self.second);
        keep_of(&step, &mut self.changes, kind, self.view, self.second);
        push_kept(&mut self.steps, step);
        Ok(())
    }
}

// Puts an item behind the others. There is room for it.
fn push_kept<T: Copy>(items: &mut Vec<T>, item: T)
    requires { vec_len items.old < vec_capacity items.old }
    ensures { items.new.items ≡ items.old.items ++ item ∷ [] }
{
    items.push_reserved(item);
}

// Keeps what is kept of a step, where it is a change. There is room for it.
fn keep_of(step: &Step, changes: &mut Vec<Change>, kind: Kind, view: View, second: Option<View>)
    requires { vec_len changes.old < vec_capacity changes.old }
    ensures { changes.new.items ≡ changes.old.items ++ kept_as kind view second (scope_of step.now) }
{
    if let Some(scope) = step.scope() {
        changes.push_reserved(Change {
            kind,
            scope,
            view,
            second,
        });
    }
}
