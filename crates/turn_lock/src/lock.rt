ghost use Rattle.std.specs.Prelude.{◌≡◌, ℕ, ◌+◌, ◌<◌, ◌≤◌, true, false, [], ◌++◌, IfOk, All, Contains, map};
ghost use Rattle.std.specs.List.{range_with_len};
ghost use Rattle.turn_lock.specs.Story.{StartsWith, borne, added, AllBear};
ghost use Rattle.turn_lock.specs.Known.{Known, fresh, IsOf, IsIdle};

use crate::board::{MARKED, SERVING, Table};
use crate::close::{join_all, take_first, take_out};
use crate::deal::{begin, deal};
use crate::pass::Pass;
use crate::plays::ReadsMark;
use crate::steps::{draw, serve, wait_turn};
use crate::told::Told;
use crate::turn::Turn;
use std::alloc::{AllocError, Global};
use std::marker::Model;
use std::sync::Wait;
use std::sync::atomic::{AtomicU64, Ordering};

/// A value that threads take in turns, in the order in which they ask.
/// Contracts see it as a `Named`: which lock it is, and the name that its value bears.
#[derive(Drop)]
pub struct TurnLock<T: Told> {
    table: Table<T>,
    seats: u32,
    // How many threads sleep, or are about to.
    sleepers: AtomicU64,
}

impl<T: Told> Model for TurnLock<T> {
    ghost use Rattle.turn_lock.specs.Known.{Named};

    ghost Value = { Named T.Name };

    ghost use Rattle.std.specs.Prelude.{◌<◌, ◌≤◌};
    ghost use Rattle.turn_lock.specs.Passes.{IsSized};

    ghost view = { λ l. record { id = record { table = l.table.shared.table_id; seats = l.seats }; name = T.name l.table.shared.key } };

    ghost invariant = { λ l. IsSized l.table.shared.table_id × (0 < l.seats) × (l.seats ≤ 16) };
}

impl<T: Told> TurnLock<T> {
    /// The lock of a value whose story is empty, and its 1 to 16 passes in the order of their numbers.
    pub fn new(
        alloc: Global,
        value: T,
        seats: u32,
    ) -> Result<(TurnLock<T>, Vec<Pass<T>>), AllocError>
        requires seats { (1 ≤ seats) × (seats ≤ 16) }
        requires story { T.story value ≡ [] }
        ensures lock { IfOk result (λ r. (r.0.id.seats ≡ seats) × (r.0.name ≡ T.name value)) }
        ensures passes { IfOk result
            (λ r. r.1.items ≡ map (fresh r.0 (T.mark value)) (range_with_len 0 seats)) }
    {
        let mut passes = Vec::with_capacity(alloc, seats as usize)?;
        let (table, mut seat) = Table::<T>::vacant(alloc, &[1, 0, 0], 1, &value)?;
        begin(&table.shared, &mut seat, value);
        deal(&table.shared, &mut seat, seats, &mut passes);
        let number = 0;
        let first = Pass {
            number,
            seats,
            seat,
        };
        let Ok(()) = passes.insert(0, first) else {
            unreachable!()
        };
        let sleepers = AtomicU64::new(0);
        Ok((
            TurnLock {
                table,
                seats,
                sleepers,
            },
            passes,
        ))
    }

    /// Takes the value, whose story begins with all that the pass has seen. It waits for the turn that is out, and for
    /// those that asked before. The turn after the last of 2^64 - 1 tickets never comes.
    pub fn take<R: Wait>(&self, rt: &R, pass: &mut Pass<T>) -> Turn<T>
        requires lock { IsOf self.now pass.old }
        requires idle { pass.old.out ≡ false }
        ensures pass { pass.new
            ≡ record pass.old { out = true; seen = T.story result; mark = T.mark result; turns = pass.old.turns + 1 } }
        ensures name { T.name result ≡ self.now.name }
        ensures story { StartsWith (T.story result) pass.old.seen }
        ensures own { borne T.bearer pass.old.number (T.story result) ≡ pass.old.own }
        ensures mark { pass.old.mark ≤ T.mark result }
    {
        let board = &self.table.shared;
        let seat = &mut pass.seat;
        let ticket = draw(rt, board, seat);
        wait_turn(rt, board, &self.sleepers, seat, ticket);
        let Some(value) = board.exchange(seat, 0, None) else {
            unreachable!()
        };
        Turn { value }
    }

    /// Gives the value back, and ends the turn. What was added to the story bears the number of the pass, which notes it
    /// as its own. It waits for nobody, and takes no memory.
    pub fn give(&self, turn: Turn<T>, pass: &mut Pass<T>)
        requires lock { IsOf self.now pass.old }
        requires out { pass.old.out ≡ true }
        requires name { T.name turn ≡ self.now.name }
        requires story { StartsWith (T.story turn) pass.old.seen }
        requires own { AllBear T.bearer pass.old.number (added pass.old.seen (T.story turn)) }
        requires mark { pass.old.mark ≤ T.mark turn }
        ensures { pass.new
            ≡ record pass.old { out = false; seen = T.story turn; mark = T.mark turn; own = pass.old.own ++ added pass.old.seen (T.story turn) } }
    {
        let Turn { value } = turn;
        serve(&self.table.shared, &mut pass.seat, value);
        self.wake();
    }

    // Wakes those who sleep: one of them is served now.
    fn wake(&self) {
        if self.sleepers.load(Ordering::SeqCst) > 0 {
            self.table.shared.wake_all(SERVING);
        }
    }

    /// The mark of the value that was given last, or that is just being given. It is one load, and waits for nobody.
    /// While the pass has its turn out, it is the pass's own mark.
    pub fn mark(&self, pass: &mut Pass<T>) -> u64
        requires lock { IsOf self.now pass.old }
        ensures pass { pass.new ≡ record pass.old { mark = result; loads = pass.old.loads + 1; loaded = result } }
        ensures risen { pass.old.mark ≤ result }
        ensures top { result ≤ T.most self.now.name }
        ensures holder { pass.old.out ≡ true → result ≡ pass.old.mark }
    {
        self.table.shared.load::<ReadsMark>(&mut pass.seat, MARKED)
    }

    /// Ends the lock and gives its value. It wants all its passes, none of which has a turn out.
    pub fn close(self, mut passes: Vec<Pass<T>>) -> T
        requires idle { All (IsIdle self) passes.items }
        requires all { (n : ℕ) → n < self.id.seats
            → (p : Known T.Name T.Entry) × Contains passes.items p × (p.number ≡ n) }
        ensures name { T.name result ≡ self.name }
        ensures passes { All
            (λ (p : Known T.Name T.Entry). StartsWith (T.story result) p.seen × (borne T.bearer p.number (T.story result) ≡ p.own))
            passes.items }
        ensures others { (n : ℕ) → self.id.seats ≤ n → borne T.bearer n (T.story result) ≡ [] }
    {
        let TurnLock {
            table,
            seats,
            sleepers: _,
        } = self;
        let Pass {
            number: _,
            seats: _,
            mut seat,
        } = take_first(&mut passes);
        join_all(&table.shared, &mut seat, seats, passes);
        take_out(table, seat)
    }
}
