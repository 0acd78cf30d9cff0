ghost use Rattle.std.specs.Prelude.{◌≡◌, ◌≤◌, length};
ghost use Rattle.std.specs.Arc.{arc_value};
ghost use Rattle.edit_steps.specs.Script.{changes, history_at};
ghost use Rattle.pipe_nodes.specs.Actives.{actives_of};
ghost use Rattle.dev_core.specs.Jobs.{OfPipe, IsMomentOf, CanBeShown, job_seen};
ghost use Rattle.dev_core.specs.Subject.{show_of};

use crate::showing::job_show;
use crate::subject::Subject;
use history::History;
use outside::JobName;
use pipe_nodes::{Show, active_count};
use std::marker::Model;
use std::sync::Arc;

/// A job that a worker has taken: which picture it makes, and of which moment. It must be given to the
/// desk again, by `publish`, `finish_ticket` or `give_back`.
pub struct Job {
    subject: Arc<Subject>,
    name: JobName,
    worker: u32,
    moment: u32,
    history: History,
    // How many module instances are active in the history.
    actives: u32,
    show: Show,
}

impl Model for Job {
    ghost use Rattle.std.specs.Arc.{arc_value};
    ghost use Rattle.dev_core.specs.Jobs.{JobSeen};

    ghost Value = { JobSeen };

    ghost view = { λ j. record { subject = arc_value j.subject; name = j.name; worker = j.worker; moment = j.moment } };

    ghost use Rattle.dev_core.specs.Jobs.{IsJob};

    ghost invariant = { λ j. IsJob (arc_value j.subject) j.name j.moment j.history j.actives j.show };
}

impl Job {
    // The history is the one that stands at the moment, and the moment may be the name's.
    pub(crate) fn of(
        subject: Arc<Subject>,
        name: JobName,
        worker: u32,
        moment: u32,
        history: History,
    ) -> Job
        requires moment { moment ≤ changes (arc_value subject).script }
        requires asked { IsMomentOf (arc_value subject).script name moment }
        requires history { history ≡ history_at (arc_value subject).script moment }
        ensures { result ≡ job_seen (arc_value subject) name worker moment }
    {
        let actives = active_count(&history);
        let show = show_of(&subject, name, moment);
        Job {
            subject,
            name,
            worker,
            moment,
            history,
            actives,
            show,
        }
    }

    pub fn name(&self) -> JobName
        ensures { result ≡ self.now.name }
    {
        self.name
    }

    pub fn worker(&self) -> u32
        ensures { result ≡ self.now.worker }
    {
        self.worker
    }

    /// The moment that the job shows, at most the number of the script's changes. A ticket's is the one
    /// at which it was asked.
    pub fn moment(&self) -> u32
        ensures moment { result ≡ self.now.moment }
        ensures within { result ≤ changes self.now.subject.script }
        ensures asked { IsMomentOf self.now.subject.script self.now.name result }
    {
        self.moment
    }

    /// The history that stands at the job's moment.
    pub fn history(&self) -> &History
        ensures { result.now ≡ history_at self.now.subject.script self.now.moment }
    {
        &self.history
    }

    /// How many module instances are active in that history.
    pub fn active_count(&self) -> u32
        ensures count { result ≡ length (actives_of (history_at self.now.subject.script self.now.moment)) }
        ensures few { result ≤ 64 }
    {
        self.actives
    }

    /// The level that the job begins with, the window and the depth.
    pub fn show(&self) -> &Show
        ensures show { result.now ≡ show_of self.now.subject self.now.name self.now.moment }
        ensures can_show { CanBeShown result.now }
    {
        &self.show
    }

    pub fn subject(&self) -> &Arc<Subject>
        ensures { arc_value result.now ≡ self.now.subject }
    {
        &self.subject
    }

    // Sets the moment, with the history that stands at it. The job is a pipe's.
    pub(crate) fn begin_anew(&mut self, moment: u32, history: History)
        requires pipe { OfPipe self.old.name (λ p. Unit {0}) }
        requires moment { moment ≤ changes self.old.subject.script }
        requires history { history ≡ history_at self.old.subject.script moment }
        ensures { self.new ≡ record self.old { moment = moment } }
    {
        self.show = show_of(&self.subject, self.name, moment);
        self.moment = moment;
        self.actives = active_count(&history);
        self.history = history;
    }

    // Ends the job.
    pub(crate) fn end(self) {
        let Job {
            subject: _,
            name: _,
            worker: _,
            moment: _,
            history: _,
            actives: _,
            show: _,
        } = self;
    }
}

// What a job shows of its subject at a moment.
fn show_of(subject: &Subject, name: JobName, moment: u32) -> Show
    requires { moment ≤ changes subject.now.script }
    ensures show { result ≡ show_of subject.now name moment }
    ensures can_show { CanBeShown result }
{
    let (w, h) = subject.source().plane().sides();
    job_show(subject.script(), w, h, name, moment)
}
