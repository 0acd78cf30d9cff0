use crate::subjects::{PIXEL, subject};
use events::Event;
use outside::Pipe;
use std::test::Fail;
use stepped::{Answer, Outcome, step_one, stepped};

const TAKE: Event = Event::Take {
    worker: 1,
    pipe: Pipe::Full,
};

const NODE: Event = Event::Node { worker: 1 };

// The run of a job that has demosaic alone.
const RUN: [Event; 10] = [
    TAKE,
    Event::Look { worker: 1 },
    Event::Find { worker: 1 },
    Event::Load { worker: 1 },
    Event::Look { worker: 1 },
    NODE,
    Event::Keep { worker: 1 },
    Event::Look { worker: 1 },
    Event::Finish { worker: 1 },
    Event::Publish { worker: 1 },
];

#[test]
fn one_event_that_may_not_happen_leaves_the_outcome(rt: HostRuntime) -> Result<(), Fail> {
    let alloc = rt.alloc();
    let mut outcome = Outcome::start(alloc, &subject(alloc)?)?;
    step_one(&rt, alloc, &TAKE, &mut outcome)?;
    assert!(rt; step_one(&rt, alloc, &NODE, &mut outcome).is_err());
    assert_eq!(rt; outcome.answers(), [Answer::Done].as_slice());
    assert_eq!(rt; outcome.desk().journal().len(), 1);
    Ok(())
}

#[test]
fn a_run_that_is_published_leaves_its_frame(rt: HostRuntime) -> Result<(), Fail> {
    let alloc = rt.alloc();
    let subject = subject(alloc)?;
    let mut outcome = Outcome::start(alloc, &subject)?;
    stepped(&rt, alloc, &subject, RUN.as_slice(), &mut outcome)?;
    let answers = [
        Answer::Done,
        Answer::Go,
        Answer::NotFound,
        Answer::Done,
        Answer::Go,
        Answer::Done,
        Answer::Stored,
        Answer::Go,
        Answer::Done,
        Answer::Done,
    ];
    assert_eq!(rt; outcome.answers(), answers.as_slice());
    let frames = outcome.desk().frames();
    assert_eq!(rt; frames.len(), 1);
    for frame in frames {
        assert_eq!(rt; frame.bytes(), PIXEL);
    }
    assert!(rt; !outcome.desk().complete());
    Ok(())
}
