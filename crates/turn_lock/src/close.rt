// How the passes come together again, and the value comes out.
ghost use Rattle.std.specs.Prelude.{◌≡◌, ◌⊎◌, ℕ, ◌<◌, true, false, [], ◌++◌, None, All, Contains, map};
ghost use Rattle.turn_lock.specs.Known.{Known};
ghost use Rattle.turn_lock.specs.Passes.{IsSized, IsResting};
ghost use Rattle.turn_lock.specs.Ending.{joined_of, IsLast, HasAll, IsLeft};

use crate::board::{Board, Place, Table};
use crate::pass::Pass;
use crate::plays::Gather;
use crate::told::Told;

// Takes the pass with the number 0 from the others.
pub(crate) fn take_first<T: Told>(passes: &mut Vec<Pass<T>>) -> Pass<T>
    requires { (p : Known T.Name T.Entry) × Contains passes.old.items p × (p.number ≡ 0) }
    ensures number { result.number ≡ 0 }
    ensures first { Contains passes.old.items result }
    ensures others { (p : Known T.Name T.Entry) → Contains passes.old.items p → (result ≡ p) ⊎ Contains passes.new.items p }
    ensures kept { (p : Known T.Name T.Entry) → Contains passes.new.items p → Contains passes.old.items p }
{
    for i in 0..passes.len() {
        if passes[i].number() == 0 {
            return passes.remove(i);
        }
    }
    unreachable!()
}

// The seat takes in those of all passes.
pub(crate) fn join_all<T: Told>(
    board: &Board<T>,
    seat: &mut Place<T>,
    seats: u32,
    mut passes: Vec<Pass<T>>,
)
    requires table { (seat.old.table_id ≡ board.now.table_id) × IsSized board.now.table_id }
    requires first { IsLast seat.old.me }
    requires idle { All (IsResting (record { table = board.now.table_id; seats = seats })) passes.items }
    ensures table { seat.new.table_id ≡ seat.old.table_id }
    ensures seat { seat.new.me ≡ (record seat.old.me.0 { kept = map joined_of passes.items ++ seat.old.me.0.kept }, seat.old.me.1) }
{
    while let Some(pass) = passes.pop() {
        let Pass {
            number: _,
            seats: _,
            seat: theirs,
        } = pass;
        board.join_seat::<Gather>(seat, theirs);
    }
}

// The value, once all seats are joined.
pub(crate) fn take_out<T: Told>(table: Table<T>, seat: Place<T>) -> T
    requires table { (seat.table_id ≡ table.shared.table_id) × IsSized table.shared.table_id }
    requires first { IsLast seat.me }
    requires all { HasAll seat.me.0 }
    ensures { IsLeft T.name T.story T.bearer (T.name table.shared.key) seat.me.0 result }
{
    let mut closed = table.close_with(seat);
    let last = closed.take(0);
    closed.free();
    let Some(value) = last else { unreachable!() };
    value
}
