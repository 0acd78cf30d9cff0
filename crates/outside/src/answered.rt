ghost use Rattle.std.specs.Prelude.{◌≡◌, ◌≤◌, Ok, Err, MatchResult};
ghost use Rattle.outside.specs.Faults.{counted};
ghost use Rattle.outside.specs.declared.failed.Failed.TheVariants.{Fault};

use crate::failed::Failed;
use std::io;

/// What a call of the machine answers: an error is a fault, and is counted.
pub(crate) fn answered<T>(given: io::Result<T>, faults: &mut u64) -> Result<T, Failed>
    ensures value { MatchResult given (λ x. result ≡ Ok x) (λ _. result ≡ Err Fault) }
    ensures never_falls { faults.old ≤ faults.new }
    ensures count { faults.new ≡ counted given faults.old }
{
    match given {
        Ok(value) => Ok(value),
        Err(_) => {
            *faults = faults.saturating_add(1);
            Err(Failed::Fault)
        }
    }
}
