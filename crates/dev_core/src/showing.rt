//! What each job shows of its subject: which level, which window and which depth.
ghost use Rattle.std.specs.Prelude.{◌≡◌, ◌≤◌};
ghost use Rattle.edit_steps.specs.Ranges.{IsStepWithin};
ghost use Rattle.edit_steps.specs.Script.{changes};
ghost use Rattle.dev_core.specs.Jobs.{CanBeShown};
ghost use Rattle.dev_core.specs.Shows.{preview_level, thumbnail_level, box_or_whole, view_or_whole, pipe_show, step_show, job_show};

use edit_steps::{Script, Step};
use journal::ask_of;
use modules_raw::{level_of_preview, level_of_thumbnail};
use outside::{JobName, Pipe};
use pipe_nodes::{Show, Window};
use px::{BoxSize, Depth, View};

// The preview's level of a source of these sides.
fn preview_level(w: u32, h: u32, side: u32) -> u8
    requires wide { w ≤ 16384 }
    requires high { h ≤ 16384 }
    requires low { 64 ≤ side }
    ensures level { result ≡ preview_level w h side }
    ensures few { result ≤ 8 }
{
    level_of_preview(w, h, side)
}

// A thumbnail's level of a source of these sides.
fn thumbnail_level(w: u32, h: u32, size: BoxSize) -> u8
    requires wide { w ≤ 16384 }
    requires high { h ≤ 16384 }
    ensures level { result ≡ thumbnail_level w h size }
    ensures few { result ≤ 8 }
{
    level_of_thumbnail(w, h, size)
}

// The window of a view, where there is one.
fn view_or_whole(view: Option<View>) -> Window
    ensures { result ≡ view_or_whole view }
{
    match view {
        None => Window::Whole,
        Some(view) => Window::View(view),
    }
}

// The window of a box, where one is given.
fn box_or_whole(size: Option<BoxSize>) -> Window
    ensures { result ≡ box_or_whole size }
{
    match size {
        None => Window::Whole,
        Some(size) => Window::Fit(size),
    }
}

// What a pipe shows at a moment, of a source of these sides.
fn pipe_show(script: &Script, w: u32, h: u32, pipe: Pipe, moment: u32) -> Show
    requires wide { w ≤ 16384 }
    requires high { h ≤ 16384 }
    requires moment { moment ≤ changes script.now }
    ensures show { result ≡ pipe_show script.now w h pipe moment }
    ensures can_show { CanBeShown result }
{
    match pipe {
        Pipe::Full => Show {
            level: 0,
            window: Window::View(script.view_at(moment)),
            depth: Depth::Eight,
        },
        Pipe::Preview => Show {
            level: preview_level(w, h, script.settings().preview_side),
            window: Window::Whole,
            depth: Depth::Eight,
        },
        Pipe::Second => Show {
            level: 0,
            window: view_or_whole(script.second_at(moment)),
            depth: Depth::Eight,
        },
    }
}

// What a step asks for, of a source of these sides.
fn step_show(w: u32, h: u32, step: &Step) -> Show
    requires wide { w ≤ 16384 }
    requires high { h ≤ 16384 }
    requires within { IsStepWithin step.now }
    ensures show { result ≡ step_show w h step.now }
    ensures can_show { CanBeShown result }
{
    match *step {
        Step::Export { size, depth } => Show {
            level: 0,
            window: box_or_whole(size),
            depth,
        },
        Step::Thumbnail { size } => Show {
            level: thumbnail_level(w, h, size),
            window: Window::Fit(size),
            depth: Depth::Eight,
        },
        _ => Show {
            level: 0,
            window: Window::Whole,
            depth: Depth::Eight,
        },
    }
}

/// What a job shows at a moment, of a source of these sides: a pipe the view, the small picture or the
/// second view of the moment, and a ticket what its step asks for.
pub(crate) fn job_show(script: &Script, w: u32, h: u32, name: JobName, moment: u32) -> Show
    requires wide { w ≤ 16384 }
    requires high { h ≤ 16384 }
    requires moment { moment ≤ changes script.now }
    ensures show { result ≡ job_show script.now w h name moment }
    ensures can_show { CanBeShown result }
{
    match name {
        JobName::Pipe(pipe) => pipe_show(script, w, h, pipe, moment),
        JobName::Ticket(ticket) => match ask_of(script, ticket) {
            Some(ask) => step_show(w, h, &ask.step),
            None => Show {
                level: 0,
                window: Window::Whole,
                depth: Depth::Eight,
            },
        },
    }
}
