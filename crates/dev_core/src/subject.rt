use edit_steps::Script;
use modules_raw::Source;
use std::marker::Model;
use std::sync::Arc;

/// What is developed: a source picture, and the script of its changes.
#[derive(Debug, Drop)]
pub struct Subject {
    source: Arc<Source>,
    script: Script,
}

impl Model for Subject {
    ghost use Rattle.std.specs.Arc.{arc_value};
    ghost use Rattle.dev_core.specs.Subject.{SubjectSeen};

    ghost Value = { SubjectSeen };

    ghost view = { λ s. record { source = arc_value s.source; script = s.script } };
}

impl Subject {
    ghost use Rattle.std.specs.Prelude.{◌≡◌};
    ghost use Rattle.std.specs.Arc.{arc_value};

    /// The subject of this source and this script.
    pub fn of(source: Arc<Source>, script: Script) -> Subject
        ensures { result ≡ record { source = arc_value source; script = script } }
    {
        Subject { source, script }
    }

    /// The source picture.
    pub fn source(&self) -> &Arc<Source>
        ensures { arc_value result.now ≡ self.now.source }
    {
        &self.source
    }

    /// The script of its changes.
    pub fn script(&self) -> &Script
        ensures { result.now ≡ self.now.script }
    {
        &self.script
    }
}
