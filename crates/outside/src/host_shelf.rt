ghost use Rattle.std.specs.Prelude.{◌≡◌, ℕ, ◌≤◌, List, length, IfOk, IfSome, OnOk, IsErrOf, Option, None};
ghost use Rattle.outside.specs.Faults.{Rose, NoneFalls, counted};
ghost use Rattle.outside.specs.Shelf.{Files, held, ReadsAt, Puts, PutsInPart};
ghost use Rattle.outside.specs.Machine.{IsRead, IsWritten};

use crate::answered::answered;
use crate::failed::Failed;
use crate::host_files::{read_file, write_file};
use crate::shelf::Shelf;
use std::marker::Model;
use std::rt::Files;

/// The files of the machine, by their paths.
///
/// It tells nothing of what a file holds. A refused read or put is a fault, and each kind has one
/// count for all names. A file is opened anew for each call, and no call takes memory.
///
/// A put of a new name or over a regular file writes a file beside it, `.devcore-N.part`, and renames
/// that, so a put that is refused leaves what stood there. The new file has the permissions of the old
/// one. A link or a device is written in place, so there a refused put may leave a prefix.
#[derive(Drop)]
pub struct HostShelf<'r, R: Files> {
    rt: &'r R,
    read_faults: u64,
    put_faults: u64,
}

impl<'r, R: Files> Model for HostShelf<'r, R> {
    ghost use Rattle.outside.specs.HostShelf.{HostFaults};

    ghost Value = { HostFaults };

    ghost view = { λ s. record { reads = s.read_faults; puts = s.put_faults } };
}

impl<'r, R: Files> HostShelf<'r, R> {
    /// The files that this runtime reaches, with no fault so far.
    pub fn new(rt: &'r R) -> HostShelf<'r, R>
        ensures none { result ≡ record { reads = 0; puts = 0 } }
    {
        HostShelf {
            rt,
            read_faults: 0,
            put_faults: 0,
        }
    }
}

impl<'r, R: Files> Shelf for HostShelf<'r, R> {
    ghost files = { λ _. None };

    ghost read_faults = { λ s _. s.reads };

    ghost put_faults = { λ s _. s.puts };

    fn read_at(&mut self, name: &str, at: u64, buf: &mut [u8]) -> Result<usize, Failed>
        ensures fits { IfOk result (λ n. n ≤ length buf.new) }
        ensures bytes { IfOk result (λ n. IfSome None (λ fs. ReadsAt (held fs name.now) at n buf.new)) }
        ensures unchanged { ◌≡◌ {A = Option Files} None None }

        ensures cause { IsErrOf result Failed.Fault → Rose self.old.reads self.new.reads }
        ensures quiet { OnOk result (self.new.reads ≡ self.old.reads) }
        ensures quiet_memory { IsErrOf result Failed.Memory → self.new.reads ≡ self.old.reads }
        ensures reads { NoneFalls (λ _. self.old.reads) (λ _. self.new.reads) }
        ensures puts { NoneFalls (λ _. self.old.puts) (λ _. self.new.puts) }

        ensures no_memory { ¬ (IsErrOf result Failed.Memory) }
        ensures read { IfOk result (λ n. IsRead R.File.stream_position R.File.remaining at n buf.new) }
        ensures count { self.new ≡ record self.old { reads = counted result self.old.reads } }
    {
        answered(read_file(self.rt, name, at, buf), &mut self.read_faults)
    }

    fn put(&mut self, name: &str, bytes: &[u8]) -> Result<(), Failed>
        ensures ok { OnOk result (Puts name.now bytes.now None None) }
        ensures fault { IsErrOf result Failed.Fault → PutsInPart name.now bytes.now None None }
        ensures memory { IsErrOf result Failed.Memory → ◌≡◌ {A = Option Files} None None }

        ensures cause { IsErrOf result Failed.Fault → Rose self.old.puts self.new.puts }
        ensures reads { NoneFalls (λ _. self.old.reads) (λ _. self.new.reads) }
        ensures puts { NoneFalls (λ _. self.old.puts) (λ _. self.new.puts) }

        ensures no_memory { ¬ (IsErrOf result Failed.Memory) }
        ensures written { OnOk result (IsWritten R.File.contents bytes.now) }
        ensures count { self.new ≡ record self.old { puts = counted result self.old.puts } }
    {
        answered(write_file(self.rt, name, bytes), &mut self.put_faults)
    }
}
