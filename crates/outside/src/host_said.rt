ghost use Rattle.std.specs.Prelude.{◌≡◌, ℕ, ◌≤◌, List, take, OnOk, OnErr, IsErrOf, Option, None};
ghost use Rattle.std.specs.Io.KnownBytes.{Appends};
ghost use Rattle.outside.specs.Faults.{Rose, counted};
ghost use Rattle.outside.specs.Said.{Says, SaysInPart};

use crate::answered::answered;
use crate::failed::Failed;
use crate::said::Said;
use crate::write_whole::write_whole;
use std::io;
use std::io::Write;
use std::marker::Model;

/// A writer of the machine, as its standard output.
///
/// It tells nothing of what was said. A refused write is a fault, and no call takes memory. Over a
/// writer whose bytes are known, a say is `Ok` only where the writer took all of them.
#[derive(Drop)]
pub struct HostSaid<W: Write + Drop> {
    output: W,
    faults: u64,
}

impl<W: Write + Drop> Model for HostSaid<W> {
    ghost use Rattle.outside.specs.HostSaid.{HostText};

    ghost Value = { HostText };

    ghost view = { λ s. record { text = W.contents s.output; faults = s.faults } };
}

impl<W: Write + Drop> HostSaid<W> {
    /// An output over this writer, with no fault so far.
    pub fn new(output: W) -> HostSaid<W>
        ensures { result ≡ record { text = W.contents output; faults = 0 } }
    {
        HostSaid { output, faults: 0 }
    }
}

impl<W: Write + Drop> Said for HostSaid<W> {
    ghost said = { λ _. None };

    ghost faults = { λ s. s.faults };

    fn say(&mut self, bytes: &[u8]) -> Result<(), Failed>
        ensures ok { OnOk result (Says bytes.now None None) }
        ensures fault { IsErrOf result Failed.Fault → SaysInPart bytes.now None None }
        ensures memory { IsErrOf result Failed.Memory → ◌≡◌ {A = Option (List ℕ)} None None }

        ensures cause { IsErrOf result Failed.Fault → Rose self.old.faults self.new.faults }
        ensures never_falls { self.old.faults ≤ self.new.faults }

        ensures no_memory { ¬ (IsErrOf result Failed.Memory) }
        ensures written { OnOk result (Appends self.old.text self.new.text bytes.now) }
        ensures written_in_part { IsErrOf result Failed.Fault → (k : ℕ) × Appends self.old.text self.new.text (take k bytes.now) }
        ensures count { self.new.faults ≡ counted result self.old.faults }
    {
        answered(write_out(&mut self.output, bytes), &mut self.faults)
    }
}

/// Writes the bytes and lets none of them wait.
fn write_out<W: Write>(output: &mut W, bytes: &[u8]) -> io::Result<()>
    ensures ok { OnOk result (Appends (W.contents output.old) (W.contents output.new) bytes.now) }
    ensures err { OnErr result ((k : ℕ) × Appends (W.contents output.old) (W.contents output.new) (take k bytes.now)) }
{
    write_whole(output, bytes)?;
    output.flush()
}
