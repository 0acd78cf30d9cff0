ghost use Rattle.std.specs.Prelude.{◌≡◌, IfOk};
ghost use Rattle.dev_core.specs.Jobs.{frame_of};
ghost use Rattle.dev_core.specs.Subject.{shown};

use crate::job::Job;
use crate::subject::Subject;
use outside::JobName;
use std::alloc::AllocError;
use std::marker::Model;
use std::sync::Arc;

/// The picture that a job made, as the bytes of its file.
#[derive(Drop)]
pub struct Frame {
    subject: Arc<Subject>,
    name: JobName,
    moment: u32,
    bytes: Vec<u8>,
}

impl Model for Frame {
    ghost use Rattle.std.specs.Prelude.{◌≡◌};
    ghost use Rattle.std.specs.Arc.{arc_value};
    ghost use Rattle.dev_core.specs.Jobs.{FrameSeen};
    ghost use Rattle.dev_core.specs.Subject.{shown};

    ghost Value = { FrameSeen };

    ghost view = { λ f. record { subject = arc_value f.subject; name = f.name; moment = f.moment } };

    ghost invariant = { λ f. f.bytes.items ≡ shown (arc_value f.subject) f.name f.moment };
}

impl Frame {
    /// The frame of a job, of the bytes that it shows at its moment.
    pub fn of(job: &Job, bytes: Vec<u8>) -> Result<Frame, AllocError>
        requires { bytes.items ≡ shown job.now.subject job.now.name job.now.moment }
        ensures { IfOk result (λ f. f ≡ frame_of job.now) }
    {
        let subject = Arc::try_clone(job.subject())?;
        Ok(Frame {
            subject,
            name: job.name(),
            moment: job.moment(),
            bytes,
        })
    }

    pub fn name(&self) -> JobName
        ensures { result ≡ self.now.name }
    {
        self.name
    }

    pub fn moment(&self) -> u32
        ensures { result ≡ self.now.moment }
    {
        self.moment
    }

    /// The bytes of the picture as a P6.
    pub fn bytes(&self) -> &[u8]
        ensures { result.now ≡ shown self.now.subject self.now.name self.now.moment }
    {
        self.bytes.as_slice()
    }
}
