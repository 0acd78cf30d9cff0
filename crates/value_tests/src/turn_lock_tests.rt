ghost use Rattle.std.specs.Prelude.{◌≡◌, ℕ, ◌≤◌, false, [], ◌∷◌, ◌++◌, Some, is_ok, if◌then◌else◌};
ghost use Rattle.turn_lock.specs.Known.{IsIdle};

use std::alloc::{AllocError, Global};
use std::sync::Wait;
use std::test::Fail;
use std::thread;
use std::thread::Threads;
use turn_lock::{Pass, Told, Turn, TurnLock};

/// What one writer wrote.
#[derive(Clone, Copy)]
struct Note {
    by: u32,
    text: u32,
}

/// The notes of all writers. The mark counts those that matter, up to `most`.
#[derive(Drop)]
struct Notebook {
    most: u64,
    notes: Vec<Note>,
    mark: u64,
    ghost below: { mark ≤ most },
}

impl Notebook {
    fn new(alloc: Global, most: u64) -> Notebook
        ensures { (result.most ≡ most) × (result.notes.items ≡ []) × (result.mark ≡ 0) }
    {
        Notebook {
            most,
            notes: Vec::new(alloc),
            mark: 0,
        }
    }

    fn add(&mut self, note: Note) -> Result<(), AllocError>
        ensures name { self.new.most ≡ self.old.most }
        ensures notes { self.new.notes.items ≡ self.old.notes.items ++ (if is_ok result then note ∷ [] else []) }
        ensures mark { self.new.mark ≡ self.old.mark }
    {
        self.notes.push(note)?;
        Ok(())
    }

    fn raise(&mut self)
        ensures name { self.new.most ≡ self.old.most }
        ensures notes { self.new.notes.items ≡ self.old.notes.items }
        ensures mark { self.old.mark ≤ self.new.mark }
    {
        if self.mark < self.most {
            self.mark += 1;
        }
    }
}

impl Told for Notebook {
    type Name = u64;

    type Entry = Note;

    ghost name = { λ n. n.most };

    ghost story = { λ n. n.notes.items };

    ghost bearer = { λ e. e.by };

    ghost mark = { λ n. n.mark };

    ghost most = { λ most. most };

    fn mark_now(&self) -> u64 {
        self.mark
    }
}

// One turn, which adds a note and raises the mark.
fn write<R: Wait>(
    rt: &R,
    lock: &TurnLock<Notebook>,
    pass: &mut Pass<Notebook>,
    text: u32,
) -> Result<(), AllocError>
    requires { IsIdle lock.now pass.old }
    ensures idle { IsIdle lock.now pass.new }
    ensures number { pass.new.number ≡ pass.old.number }
    ensures own { pass.new.own ≡ pass.old.own ++ (if is_ok result then record { by = pass.old.number; text = text } ∷ [] else []) }
{
    let by = pass.number();
    let mut turn = lock.take(rt, pass);
    let notebook = turn.value();
    let added = notebook.add(Note { by, text });
    notebook.raise();
    lock.give(turn, pass);
    added
}

// Puts two passes together again and closes.
fn close_both(
    lock: TurnLock<Notebook>,
    first: Pass<Notebook>,
    second: Pass<Notebook>,
    mut passes: Vec<Pass<Notebook>>,
) -> Result<Notebook, AllocError>
    requires first { IsIdle lock first × (first.number ≡ 0) }
    requires second { IsIdle lock second × (second.number ≡ 1) }
    requires all { (passes.items ≡ []) × (lock.id.seats ≡ 2) }
{
    passes.push(first)?;
    passes.push(second)?;
    Ok(lock.close(passes))
}

fn may_cross<X: Send>(_x: &X) {}

fn may_be_shared<X: Send + Sync>(_x: &X) {}

// Where the value may cross threads, threads may share the lock and each have a pass and a turn.
fn threads_may_share<T: Told + Send>(lock: &TurnLock<T>, pass: &Pass<T>, turn: &Turn<T>) {
    may_be_shared(lock);
    may_cross(pass);
    may_cross(turn);
}

#[test]
fn a_pass_finds_what_another_added(rt: HostRuntime) -> Result<(), Fail> {
    let (lock, mut passes) = TurnLock::new(rt.alloc(), Notebook::new(rt.alloc(), 1), 2)?;
    let mut second = passes.pop().ok_or("two passes")?;
    let mut first = passes.pop().ok_or("two passes")?;
    write(&rt, &lock, &mut first, 7)?;
    assert_eq!(rt; lock.mark(&mut first), 1);
    let mut turn = lock.take(&rt, &mut second);
    let notebook = turn.value();
    assert_eq!(rt; (notebook.notes.len(), notebook.mark), (1, 1));
    assert_eq!(rt; (notebook.notes[0].by, notebook.notes[0].text), (0, 7));
    lock.give(turn, &mut second);
    let notebook = close_both(lock, first, second, passes)?;
    assert_eq!(rt; notebook.notes.len(), 1);
    Ok(())
}

// Some turns, of which every tenth is held long enough that the other thread goes to sleep.
fn write_many<R: Wait>(
    rt: &R,
    lock: &TurnLock<Notebook>,
    mut pass: Pass<Notebook>,
) -> Pass<Notebook>
    requires { IsIdle lock.now pass }
    ensures { IsIdle lock.now result × (result.number ≡ pass.number) }
{
    for text in 0..100 {
        if text % 10 == 0 {
            hold(rt, lock, &mut pass);
        } else {
            let _ = write(rt, lock, &mut pass, text);
        }
    }
    pass
}

// A turn that adds nothing and is held for a while.
fn hold<R: Wait>(rt: &R, lock: &TurnLock<Notebook>, pass: &mut Pass<Notebook>)
    requires { IsIdle lock.now pass.old }
    ensures { IsIdle lock.now pass.new × (pass.new.number ≡ pass.old.number) }
{
    let turn = lock.take(rt, pass);
    for _ in 0..1000 {
        thread::yield_now();
    }
    lock.give(turn, pass);
}

#[test]
fn two_threads_that_sleep_lose_nothing(rt: HostRuntime) -> Result<(), Fail> {
    let (lock, mut passes) = TurnLock::new(rt.alloc(), Notebook::new(rt.alloc(), 1), 2)?;
    let second = passes.pop().ok_or("two passes")?;
    let first = passes.pop().ok_or("two passes")?;
    let (first, second) = write_both(&rt, &lock, first, second);
    let notebook = close_both(lock, first, second, passes)?;
    assert_eq!(rt; notebook.notes.len(), 180);
    let of_first = notebook.notes.iter().filter(|note| note.by == 0);
    assert_eq!(rt; of_first.count(), 90);
    Ok(())
}

fn write_both<R: Wait + Threads + Sync>(
    rt: &R,
    lock: &TurnLock<Notebook>,
    first: Pass<Notebook>,
    second: Pass<Notebook>,
) -> (Pass<Notebook>, Pass<Notebook>)
    requires first { IsIdle lock.now first }
    requires second { IsIdle lock.now second }
    ensures first { IsIdle lock.now result.0 × (result.0.number ≡ first.number) }
    ensures second { IsIdle lock.now result.1 × (result.1.number ≡ second.number) }
{
    thread::join(
        rt,
        move || -> Pass<Notebook>
            requires { IsIdle lock.now first }
            ensures { IsIdle lock.entry.now result × (result.number ≡ first.number) }
        { write_many(rt, lock, first) },
        move || -> Pass<Notebook>
            requires { IsIdle lock.now second }
            ensures { IsIdle lock.entry.now result × (result.number ≡ second.number) }
        { write_many(rt, lock, second) },
    )
}
