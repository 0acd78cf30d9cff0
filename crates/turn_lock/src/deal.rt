// The first turn, which brings the value into the table, and the seats of all passes.
ghost use Rattle.std.specs.Prelude.{◌≡◌, ℕ, ◌+◌, ◌-◌, ◌≤◌, ◌<◌, true, false, [], ◌∷◌, map, None, vec_capacity};
ghost use Rattle.std.specs.List.{range_with_len};
ghost use Rattle.turn_lock.specs.Rule.{opener};
ghost use Rattle.turn_lock.specs.Passes.{IsSized, IsFirst, known_of};

use crate::board::{Board, Place, SERVING};
use crate::pass::Pass;
use crate::plays::{Deal, Look};
use crate::steps::serve;
use crate::told::Told;

// The turn of the first ticket, which the table begins with.
pub(crate) fn begin<T: Told>(board: &Board<T>, seat: &mut Place<T>, value: T)
    requires table { (seat.old.table_id ≡ board.now.table_id) × IsSized board.now.table_id }
    requires opener { seat.old.me ≡ (opener (T.name value), []) }
    requires story { T.story value ≡ [] }
    ensures table { seat.new.table_id ≡ seat.old.table_id }
    ensures seat { (past : ℕ) × (0 < past) × (seat.new.me ≡ (record (opener (T.name value)) { mark = T.mark value; ticket = None; past = past }, [])) }
{
    board.load::<Look>(seat, SERVING);
    serve(board, seat, value);
}

// The seats of all passes but the first.
pub(crate) fn deal<T: Told>(
    board: &Board<T>,
    seat: &mut Place<T>,
    seats: u32,
    passes: &mut Vec<Pass<T>>,
)
    requires table { (seat.old.table_id ≡ board.now.table_id) × IsSized board.now.table_id }
    requires first { IsFirst seat.old.me.0 × (seat.old.me.1 ≡ []) }
    requires seats { (0 < seats) × (seats ≤ 16) }
    requires room { (passes.old.items ≡ []) × (seats ≤ vec_capacity passes.old) }
    ensures table { seat.new.table_id ≡ seat.old.table_id }
    ensures seat { seat.new.me ≡ (record seat.old.me.0 { count = seats }, []) }
    ensures passes { passes.new.items ≡ map (λ k. record (known_of seat.old.table_id seats seat.old.me.0) { number = k }) (range_with_len 1 (seats - 1)) }
    ensures capacity { vec_capacity passes.new ≡ vec_capacity passes.old }
{
    for number in 1..seats {
        let theirs = board.split_seat::<Deal>(seat);
        passes.push_reserved(Pass {
            number,
            seats,
            seat: theirs,
        });
    }
}
