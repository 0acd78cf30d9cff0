ghost use Rattle.std.specs.Prelude.{◌≡◌};
ghost use Rattle.edit_steps.specs.Pipes.{has_pipe};
ghost use Rattle.edit_steps.specs.Ranges.{IsSettings};
ghost use Rattle.edit_steps.specs.Settings.{start_view, start_settings};

use outside::Pipe;
use px::{Cfa, Depth, View};

/// What a script says of the whole session.
#[derive(Clone, Copy, Debug, PartialEq, Eq)]
pub struct Settings {
    /// The colour filter array of a source with one sample a pixel. `None` reads such a source as grey.
    pub cfa: Option<Cfa>,
    /// The depth of the picture that `develop` writes.
    pub depth: Depth,
    /// The greatest side of the preview's input, 64 to 720 pixels.
    pub preview_side: u32,
    /// How many workers there are, 1 to 4.
    pub workers: u32,
    /// How many entries the cache of stages has at most, 1 to 64.
    pub stage_entries: u32,
    /// How many pixels the cache of stages holds at most, 0 to 33,554,432.
    pub stage_pixels: u32,
    /// How many mipmap levels are kept at most, 1 to 4.
    pub mip_slots: u32,
    /// How many edits undo takes back at most, one after the other, 1 to 64.
    pub undo_depth: u32,
    /// What the full pipe shows at first.
    pub view: View,
    /// What the second pipe shows at first. `None` is a session without a second window.
    pub second: Option<View>,
}

// The middle of the picture at its full size.
fn start_view() -> View
    ensures { result ≡ start_view }
{
    View {
        factor: 1,
        cx: 32_768,
        cy: 32_768,
        w: 720,
        h: 480,
    }
}

impl Settings {
    /// The settings of a script that says none.
    pub fn start() -> Settings
        ensures settings { result ≡ start_settings }
        ensures within { IsSettings result }
    {
        Settings {
            cfa: None,
            depth: Depth::Eight,
            preview_side: 720,
            workers: 2,
            stage_entries: 16,
            stage_pixels: 8_388_608,
            mip_slots: 4,
            undo_depth: 32,
            view: start_view(),
            second: None,
        }
    }

    /// Whether there is such a pipe: the second one is there exactly where there is a second window.
    pub fn has_pipe(&self, pipe: Pipe) -> bool
        ensures { result ≡ has_pipe self.now pipe }
    {
        match pipe {
            Pipe::Full => true,
            Pipe::Preview => true,
            Pipe::Second => self.second.is_some(),
        }
    }
}
