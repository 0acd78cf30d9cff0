ghost use Rattle.std.specs.Prelude.{◌≡◌, ℕ, ◌≤◌, List, OnOk, IsErrOf, Option};
ghost use Rattle.outside.specs.Faults.{Rose};
ghost use Rattle.outside.specs.Said.{Says, SaysInPart};

use crate::failed::Failed;

/// An output that is told texts.
///
/// `said` is all that it was told, where that is known. `faults` counts its faults, and never falls.
pub trait Said {
    ghost said: { Self → Option (List ℕ) };

    ghost faults: { Self → ℕ };

    /// Adds the bytes to what was said. A fault adds a prefix of them, and want of memory nothing.
    fn say(&mut self, bytes: &[u8]) -> Result<(), Failed>
        ensures ok { OnOk result (Says bytes.now (said self.old) (said self.new)) }
        ensures fault { IsErrOf result Failed.Fault → SaysInPart bytes.now (said self.old) (said self.new) }
        ensures memory { IsErrOf result Failed.Memory → said self.new ≡ said self.old }

        ensures cause { IsErrOf result Failed.Fault → Rose (faults self.old) (faults self.new) }
        ensures never_falls { faults self.old ≤ faults self.new };
}
