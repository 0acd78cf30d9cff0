ghost use Rattle.std.specs.Prelude.{◌≡◌, IfOk};
ghost use Rattle.turn_lock.specs.Known.{IsIdle};
ghost use Rattle.desk.specs.Passes.{holding};
ghost use Rattle.desk.specs.Turns.{OneTurn, Found, KeepsLooks, desk_after};
ghost use Rattle.desk.specs.Edits.{edited, edit_adds};
ghost use Rattle.desk.specs.Stops.{StopTurn};

use crate::edited::Edited;
use crate::shared::{DeskPass, SharedDesk};
use crate::turns::{edit_desk, stop_desk};
use std::alloc::{AllocError, Global};
use std::sync::Wait;

/// What the editor does, and how any worker stops the desk.
impl SharedDesk {
    /// Makes the script's next step, or closes the desk where none is left. `Unsettled` exactly where the next step is a
    /// settle and the desk isn't settled, and `AllDone` exactly where the desk is closed. The pass is the editor's. It
    /// waits for its turn.
    pub fn edit<R: Wait>(
        &self,
        rt: &R,
        alloc: Global,
        pass: &mut DeskPass,
    ) -> Result<Edited, AllocError>
        requires lock { IsIdle self.now pass.old }
        requires editor { pass.old.number ≡ 0 }
        ensures turn { OneTurn pass.old pass.new (edit_adds pass.new.mark result) }
        ensures answer { IfOk result (λ e. Found pass.new.seen (edit_adds pass.new.mark result) (λ d. e ≡ edited self.now.name.script d)) }
        ensures holds { holding self.now.name.script pass.new.own ≡ holding self.now.name.script pass.old.own }
        ensures mark { pass.new.mark ≡ (desk_after pass.new.seen).moment }
        ensures looks { KeepsLooks pass.old pass.new }
        ensures lock { IsIdle self.now pass.new }
        ensures number { pass.new.number ≡ pass.old.number }
    {
        let mut turn = self.begin(rt, pass);
        let answer = edit_desk(turn.value(), alloc);
        self.end(turn, pass);
        self.tell(&answer);
        answer
    }

    // Wakes those who wait for what the editor did.
    fn tell(&self, answer: &Result<Edited, AllocError>) {
        if let Ok(Edited::Changed(_) | Edited::Asked(_) | Edited::Closed) = answer {
            self.ring();
        }
    }

    /// Stops the desk, unless it was stopped before: `next_job` gives out no more jobs. It waits for its turn, and takes
    /// no memory.
    pub fn stop<R: Wait>(&self, rt: &R, pass: &mut DeskPass)
        requires { IsIdle self.now pass.old }
        ensures turn { StopTurn pass.old pass.new }
        ensures holds { holding self.now.name.script pass.new.own ≡ holding self.now.name.script pass.old.own }
        ensures mark { pass.new.mark ≡ (desk_after pass.new.seen).moment }
        ensures looks { KeepsLooks pass.old pass.new }
        ensures lock { IsIdle self.now pass.new }
        ensures number { pass.new.number ≡ pass.old.number }
    {
        let worker = pass.number();
        let mut turn = self.begin(rt, pass);
        stop_desk(turn.value(), worker);
        self.end(turn, pass);
        self.ring();
    }
}
