// The steps of a turn, on the table and the seat alone.
ghost use Rattle.std.specs.Prelude.{◌≡◌, ℕ, ◌+◌, ◌≤◌, ◌<◌, true, false, [], ◌∷◌, ◌++◌, Some, None};
ghost use Rattle.turn_lock.specs.Story.{StartsWith, added, AllBear};
ghost use Rattle.turn_lock.specs.Steps.{Came};
ghost use Rattle.turn_lock.specs.Passes.{IsSized, HasSlot};

use crate::board::{Board, MARKED, Place, SERVING, TICKETS};
use crate::plays::{Draw, Look, Raise, Serve};
use crate::told::Told;
use crossbeam_utils::Backoff;
use std::sync::Wait;
use std::sync::atomic::{AtomicU64, Ordering};

// Draws the next ticket. With none left it doesn't return.
pub(crate) fn draw<T: Told, R: Wait>(rt: &R, board: &Board<T>, seat: &mut Place<T>) -> u64
    requires table { (seat.old.table_id ≡ board.now.table_id) × IsSized board.now.table_id }
    requires idle { (seat.old.me.0.live ≡ true) × (seat.old.me.0.ticket ≡ None) }
    ensures table { seat.new.table_id ≡ seat.old.table_id }
    ensures ticket { seat.new.me ≡ (record seat.old.me.0 { ticket = Some result }, seat.old.me.1) }
{
    let backoff = Backoff::new();
    for _ in rt.forever() {
        let next = board.peek(TICKETS);
        if next == u64::MAX {
            board.park(rt, TICKETS, u32::MAX);
        } else if board.compare_exchange::<Draw>(seat, TICKETS, next, next + 1) == next {
            return next;
        } else {
            backoff.spin();
        }
    }
    unreachable!()
}

// Waits until the ticket is served: it spins, then yields, then sleeps.
pub(crate) fn wait_turn<T: Told, R: Wait>(
    rt: &R,
    board: &Board<T>,
    sleepers: &AtomicU64,
    seat: &mut Place<T>,
    ticket: u64,
)
    requires table { (seat.old.table_id ≡ board.now.table_id) × IsSized board.now.table_id }
    requires waits { (seat.old.me.0.live ≡ true) × (seat.old.me.0.out ≡ false) × (seat.old.me.0.ticket ≡ Some ticket) }
    ensures table { seat.new.table_id ≡ seat.old.table_id }
    ensures came { Came T.name T.story T.bearer T.mark seat.old.me seat.new.me }
{
    let backoff = Backoff::new();
    for _ in rt.forever() {
        let serving = board.load::<Look>(seat, SERVING);
        if serving == ticket {
            return;
        }
        if backoff.is_completed() {
            sleep(rt, board, sleepers, serving);
        } else {
            backoff.snooze();
        }
    }
    unreachable!()
}

// Sleeps while `serving` is served. It counts itself first, so that the thread that serves next wakes it.
fn sleep<T: Told, R: Wait>(rt: &R, board: &Board<T>, sleepers: &AtomicU64, serving: u64)
    requires { IsSized board.now.table_id }
{
    sleepers.fetch_add(1, Ordering::SeqCst);
    board.park(rt, SERVING, (serving & 0xffff_ffff) as u32);
    sleepers.fetch_sub(1, Ordering::SeqCst);
}

// The value goes back, the mark is raised to its own, and the next ticket is served.
pub(crate) fn serve<T: Told>(board: &Board<T>, seat: &mut Place<T>, value: T)
    requires table { (seat.old.table_id ≡ board.now.table_id) × IsSized board.now.table_id }
    requires out { (seat.old.me.0.live ≡ true) × (seat.old.me.0.out ≡ true) }
    requires slot { HasSlot seat.old.me }
    requires name { Some (T.name value) ≡ seat.old.me.0.name }
    requires story { StartsWith (T.story value) seat.old.me.0.seen }
    requires own { AllBear T.bearer seat.old.me.0.number (added seat.old.me.0.seen (T.story value)) }
    requires mark { seat.old.me.0.mark ≤ T.mark value }
    ensures table { seat.new.table_id ≡ seat.old.table_id }
    ensures served { (n : ℕ)
        × (seat.new.me ≡ (record seat.old.me.0 { mark = T.mark value; seen = T.story value; own = seat.old.me.0.own ++ added seat.old.me.0.seen (T.story value); ticket = None; out = false; past = n + 1 }, [])) }
{
    let mark = value.mark_now();
    board.exchange(seat, 0, Some(value));
    board.fetch_max::<Raise>(seat, MARKED, mark);
    board.fetch_add::<Serve>(seat, SERVING, 1);
}
