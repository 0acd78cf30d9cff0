ghost use Rattle.std.specs.Prelude.{◌≡◌, ◌<◌};

use crate::board::Place;
use crate::told::Told;
use std::marker::Model;

/// The right of one thread to a lock. It remembers the longest story and the greatest mark that it has seen.
/// Contracts see it as a `Known`.
#[derive(Drop)]
pub struct Pass<T: Told> {
    pub(crate) number: u32,
    pub(crate) seats: u32,
    pub(crate) seat: Place<T>,
}

impl<T: Told> Model for Pass<T> {
    ghost use Rattle.turn_lock.specs.Known.{Known};

    ghost Value = { Known T.Name T.Entry };

    ghost use Rattle.turn_lock.specs.Passes.{known_of, IsSeated};

    ghost view = { λ p. known_of p.seat.table_id p.seats p.seat.me.0 };

    ghost invariant = { λ p. IsSeated p.number p.seats p.seat.me };
}

impl<T: Told> Pass<T> {
    /// Its number among the passes of the lock, from 0.
    pub fn number(&self) -> u32
        ensures number { result ≡ self.now.number }
        ensures within { result < self.now.lock.seats }
        ensures small { result < 16 }
    {
        self.number
    }
}
