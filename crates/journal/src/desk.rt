//! The desk as its journal leaves it: a fold over the entries.
ghost use Rattle.std.specs.Prelude.{◌≡◌, ◌+◌, ◌^◌, ◌<◌, ◌≤◌, None, length, OnOk, OnErr};
ghost use Rattle.std.specs.List.{list_all};
ghost use Rattle.edit_steps.specs.Script.{changes, concerns_between};
ghost use Rattle.journal.specs.declared.entry.Entry.TheVariants.{Asked as asked};
ghost use Rattle.journal.specs.Pipes.{pipes, place_of};
ghost use Rattle.journal.specs.Desk.{start, next, slot, with_slot, with_ticket, slot_with, held_by, CanNote, is_free, is_waiting, is_done, is_up_to_date, is_due, is_at_rest, is_settled, is_complete, is_due_job, first_due, first_waiting, due, next_step};

use crate::entry::{Entry, NextStep};
use edit_steps::Script;
use outside::{JobName, Pipe};
use std::alloc::{AllocError, Global};
use std::marker::Model;

/// Who has a pipe, and the moment that its job shows.
#[derive(Clone, Copy, Debug)]
pub struct Hold {
    pub worker: u32,
    pub moment: u32,
}

/// A pipe: its job, where it is out, and the moment that was published last.
#[derive(Clone, Copy, Debug)]
pub struct Slot {
    pub hold: Option<Hold>,
    pub published: Option<u32>,
}

/// What became of a ticket that was asked.
#[derive(Clone, Copy, Debug, PartialEq, Eq)]
pub enum TicketState {
    /// No worker has it.
    Waiting,
    /// This worker has it.
    Out { worker: u32 },
    /// Its picture was made.
    Done,
}

/// How many pipes there are.
const PIPES: usize = 3;

/// What a journal leaves: how many steps were made, the moment, whether the editor has closed and whether
/// the desk was stopped, each pipe and each ticket.
#[derive(Debug, Drop)]
pub struct Desk {
    steps: u32,
    moment: u32,
    closed: bool,
    stopped: bool,
    slots: [Slot; PIPES],
    tickets: Vec<TicketState>,
}

impl Model for Desk {
    ghost use Rattle.journal.specs.Desk.{Desk as Seen};

    ghost Value = { Seen };

    ghost view = { λ d. record { steps = d.steps; moment = d.moment; closed = d.closed; stopped = d.stopped; slots = d.slots; tickets = d.tickets.items } };
}

// A pipe's place among the pipes.
fn place_of(pipe: Pipe) -> usize
    ensures place { result ≡ place_of pipe }
    ensures few { result < 3 }
{
    match pipe {
        Pipe::Full => 0,
        Pipe::Preview => 1,
        Pipe::Second => 2,
    }
}

impl Desk {
    /// The desk before the first entry.
    pub fn start(alloc: Global) -> Desk
        ensures { result ≡ start }
    {
        let free = Slot {
            hold: None,
            published: None,
        };
        Desk {
            steps: 0,
            moment: 0,
            closed: false,
            stopped: false,
            slots: [free; PIPES],
            tickets: Vec::new(alloc),
        }
    }

    /// How many steps of the script were made.
    pub fn steps(&self) -> u32
        ensures { result ≡ self.now.steps }
    {
        self.steps
    }

    /// How many changes were made.
    pub fn moment(&self) -> u32
        ensures { result ≡ self.now.moment }
    {
        self.moment
    }

    pub fn is_closed(&self) -> bool
        ensures { result ≡ self.now.closed }
    {
        self.closed
    }

    pub fn is_stopped(&self) -> bool
        ensures { result ≡ self.now.stopped }
    {
        self.stopped
    }

    /// How many tickets were asked.
    pub fn ticket_count(&self) -> usize
        ensures { result ≡ length self.now.tickets }
    {
        self.tickets.len()
    }

    fn slot(&self, pipe: Pipe) -> Slot
        ensures { result ≡ slot self.now pipe }
    {
        self.slots[place_of(pipe)]
    }

    fn put(&mut self, pipe: Pipe, slot: Slot)
        ensures { self.new ≡ with_slot self.old pipe slot }
    {
        self.slots[place_of(pipe)] = slot;
    }

    // A job of the pipe is out.
    fn hold(&mut self, pipe: Pipe, worker: u32, moment: u32)
        ensures { self.new ≡ with_slot self.old pipe (slot_with (held_by worker moment) (slot self.old pipe).published) }
    {
        let published = self.slot(pipe).published;
        let hold = Some(Hold { worker, moment });
        self.put(pipe, Slot { hold, published });
    }

    // No job of the pipe is out.
    fn free(&mut self, pipe: Pipe, published: Option<u32>)
        ensures { self.new ≡ with_slot self.old pipe (slot_with None published) }
    {
        self.put(
            pipe,
            Slot {
                hold: None,
                published,
            },
        );
    }

    // The ticket gets this state, where it was asked.
    fn put_ticket(&mut self, ticket: u32, state: TicketState)
        requires { ticket ≤ length self.old.tickets }
        ensures { self.new ≡ with_ticket self.old ticket state }
    {
        if ticket > 0 {
            self.tickets[ticket as usize - 1] = state;
        }
    }

    /// A step that asks for a picture: the next ticket waits.
    pub fn ask(&mut self, ticket: u32, moment: u32) -> Result<(), AllocError>
        requires { self.old.steps + 1 < 2 ^ 32 }
        ensures ok { OnOk result (self.new ≡ next self.old (asked ticket moment)) }
        ensures err { OnErr result (self.new ≡ self.old) }
    {
        self.tickets.push(TicketState::Waiting)?;
        self.steps += 1;
        Ok(())
    }
}

impl Desk {
    /// The desk after one more entry. A new ticket is asked by `ask`.
    pub fn note(&mut self, entry: Entry)
        requires { CanNote self.old entry }
        ensures { self.new ≡ next self.old entry }
    {
        match entry {
            Entry::Changed { moment } => {
                self.steps += 1;
                self.moment = moment;
            }
            Entry::Asked { .. } => unreachable!(),
            Entry::Settled => self.steps += 1,
            Entry::Closed => self.closed = true,
            Entry::Took {
                pipe,
                worker,
                moment,
            } => self.hold(pipe, worker, moment),
            Entry::Restarted {
                pipe,
                worker,
                moment,
            } => self.hold(pipe, worker, moment),
            Entry::Published { pipe, moment, .. } => self.free(pipe, Some(moment)),
            Entry::GaveBack { pipe, .. } => {
                let published = self.slot(pipe).published;
                self.free(pipe, published);
            }
            Entry::TicketTook { ticket, worker } => {
                self.put_ticket(ticket, TicketState::Out { worker });
            }
            Entry::TicketDone { ticket, .. } => self.put_ticket(ticket, TicketState::Done),
            Entry::TicketBack { ticket, .. } => self.put_ticket(ticket, TicketState::Waiting),
            Entry::Stopped { .. } => self.stopped = true,
        }
    }

    // No job of the pipe is out.
    fn is_free(&self, pipe: Pipe) -> bool
        ensures { result ≡ is_free self.now pipe }
    {
        self.slot(pipe).hold.is_none()
    }

    /// Whether one of the changes after the first `from` so far concerns the pipe.
    pub fn is_later(&self, script: &Script, pipe: Pipe, from: u32) -> bool
        requires { self.now.moment ≤ changes script.now }
        ensures { result ≡ concerns_between script.now pipe from self.now.moment }
    {
        if from >= self.moment {
            return false;
        }
        script.concerns(pipe, from, self.moment)
    }

    // The pipe was published, and no change after that moment concerns it.
    fn is_up_to_date(&self, script: &Script, pipe: Pipe) -> bool
        requires { self.now.moment ≤ changes script.now }
        ensures { result ≡ is_up_to_date script.now self.now pipe }
    {
        match self.slot(pipe).published {
            None => false,
            Some(moment) => !self.is_later(script, pipe, moment),
        }
    }

    // The subject has the pipe, which is free and not up to date.
    fn is_due(&self, script: &Script, pipe: Pipe) -> bool
        requires { self.now.moment ≤ changes script.now }
        ensures { result ≡ is_due script.now self.now pipe }
    {
        script.settings().has_pipe(pipe)
            && (self.is_free(pipe) && !self.is_up_to_date(script, pipe))
    }

    // The pipe is up to date and free, where the subject has it.
    fn is_at_rest(&self, script: &Script, pipe: Pipe) -> bool
        requires { self.now.moment ≤ changes script.now }
        ensures { result ≡ is_at_rest script.now self.now pipe }
    {
        !script.settings().has_pipe(pipe)
            || (self.is_up_to_date(script, pipe) && self.is_free(pipe))
    }

    // Every ticket that was asked is done.
    fn are_done(&self) -> bool
        ensures { result ≡ list_all is_done self.now.tickets }
    {
        self.tickets.iter().all(|ticket| ticket.is_done())
    }

    /// Whether each pipe of the subject is up to date and free, and each ticket that was asked is done.
    pub fn is_settled(&self, script: &Script) -> bool
        requires { self.now.moment ≤ changes script.now }
        ensures { result ≡ is_settled script.now self.now }
    {
        if !self.is_at_rest(script, Pipe::Full) {
            return false;
        }
        if !self.is_at_rest(script, Pipe::Preview) {
            return false;
        }
        self.is_at_rest(script, Pipe::Second) && self.are_done()
    }

    /// Whether all steps are done, and the desk is closed and settled.
    pub fn is_complete(&self, script: &Script) -> bool
        requires { self.now.moment ≤ changes script.now }
        ensures { result ≡ is_complete script.now self.now }
    {
        if !self.closed || self.steps != script.step_count() {
            return false;
        }
        self.is_settled(script)
    }

    /// Whether a worker may take the job: its pipe is due, or its ticket waits.
    pub fn is_due_job(&self, script: &Script, name: JobName) -> bool
        requires { self.now.moment ≤ changes script.now }
        ensures { result ≡ is_due_job script.now self.now name }
    {
        match name {
            JobName::Pipe(pipe) => self.is_due(script, pipe),
            JobName::Ticket(0) => false,
            JobName::Ticket(ticket) => match self.tickets.get(ticket as usize - 1) {
                None => false,
                Some(state) => state.is_waiting(),
            },
        }
    }

    // The first pipe that is due.
    fn first_due(&self, script: &Script) -> Option<Pipe>
        requires { self.now.moment ≤ changes script.now }
        ensures { result ≡ first_due script.now self.now pipes }
    {
        if self.is_due(script, Pipe::Full) {
            return Some(Pipe::Full);
        }
        if self.is_due(script, Pipe::Preview) {
            return Some(Pipe::Preview);
        }
        if self.is_due(script, Pipe::Second) {
            return Some(Pipe::Second);
        }
        None
    }

    // The least ticket that waits.
    fn first_waiting(&self) -> Option<u32>
        requires { length self.now.tickets + 1 < 2 ^ 32 }
        ensures { result ≡ first_waiting 1 self.now.tickets }
    {
        let mut number = 1;
        for ticket in &self.tickets {
            if ticket.is_waiting() {
                return Some(number);
            }
            number += 1;
        }
        None
    }

    /// What a worker takes next: the first pipe that is due, or else the least ticket that waits.
    pub fn due(&self, script: &Script) -> Option<JobName>
        requires moment { self.now.moment ≤ changes script.now }
        requires few { length self.now.tickets + 1 < 2 ^ 32 }
        ensures { result ≡ due script.now self.now }
    {
        match self.first_due(script) {
            Some(pipe) => Some(JobName::Pipe(pipe)),
            None => self.first_waiting().map(JobName::Ticket),
        }
    }

    /// What the editor does next.
    pub fn next_step(&self, script: &Script) -> NextStep
        requires { self.now.steps + 1 < 2 ^ 32 }
        ensures { result ≡ next_step script.now self.now }
    {
        if self.closed {
            return NextStep::Closed;
        }
        if self.steps == script.step_count() {
            return NextStep::Close;
        }
        NextStep::Step {
            number: self.steps + 1,
        }
    }
}

impl TicketState {
    fn is_waiting(&self) -> bool
        ensures { result ≡ is_waiting self.now }
    {
        matches!(self, TicketState::Waiting)
    }

    fn is_done(&self) -> bool
        ensures { result ≡ is_done self.now }
    {
        matches!(self, TicketState::Done)
    }
}
