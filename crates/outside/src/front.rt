ghost use Rattle.std.specs.Prelude.{◌≡◌, ℕ, ◌+◌, ◌^◌, ◌<◌, ◌≤◌, List, length, take, drop, IfOk, IfSome, OnOk, IsErrOf, Some, vec_len};
ghost use Rattle.std.specs.Option.{option_map};
ghost use Rattle.outside.specs.Faults.{Rose, NoneFalls};
ghost use Rattle.outside.specs.Shelf.{held, ReadsAt};
ghost use Rattle.outside.specs.Front.{IsLonger};

use crate::failed::Failed;
use crate::shelf::Shelf;
use std::alloc::Global;

/// How many bytes the first turn of a reading asks for.
const FIRST: usize = 16_384;

/// How many bytes a turn asks for at most, so that they stay in a processor's cache between the
/// zeros and the read.
const MOST: usize = 262_144;

/// The front of a file, as far as `limit`: the whole file, where it has at most that many bytes.
///
/// The file is read in turns of at least one byte, straight into the answer. A turn asks for
/// 16,384 bytes at first and for up to 262,144 later, so the memory taken is what was read and a
/// turn more.
pub fn read_front<S: Shelf>(
    alloc: Global,
    shelf: &mut S,
    name: &str,
    limit: usize,
) -> Result<Vec<u8>, Failed>
    requires { 0 < limit }
    ensures content { IfOk result (λ v. IfSome (S.files shelf.old) (λ fs. option_map (take limit) (held fs name.now) ≡ Some v.items)) }
    ensures fits { IfOk result (λ v. vec_len v ≤ limit) }
    ensures unchanged { S.files shelf.new ≡ S.files shelf.old }

    ensures cause { IsErrOf result Failed.Fault → Rose (S.read_faults shelf.old name.now) (S.read_faults shelf.new name.now) }
    ensures quiet_memory { IsErrOf result Failed.Memory → S.read_faults shelf.new name.now ≡ S.read_faults shelf.old name.now }
    ensures reads { NoneFalls (S.read_faults shelf.old) (S.read_faults shelf.new) }
    ensures puts { NoneFalls (S.put_faults shelf.old) (S.put_faults shelf.new) }
{
    let mut front = Vec::new(alloc);
    let mut wanted = FIRST;
    while front.len() < limit {
        let room = limit - front.len();
        let count = read_more(shelf, name, &mut front, wanted.min(room))?;
        if count == 0 {
            break;
        }
        wanted = wanted_next(wanted, count);
    }
    Ok(front)
}

/// What the next turn asks for: twice as much after a full turn, else what came.
fn wanted_next(wanted: usize, count: usize) -> usize
    requires some { 0 < wanted }
    requires came { 0 < count }
    ensures { 0 < result }
{
    if count < wanted {
        count
    } else {
        wanted.saturating_mul(2).min(MOST)
    }
}

/// One turn: up to `wanted` bytes more of the file, behind those in `front`.
fn read_more<S: Shelf>(
    shelf: &mut S,
    name: &str,
    front: &mut Vec<u8>,
    wanted: usize,
) -> Result<usize, Failed>
    requires some { 0 < wanted }
    requires fits { vec_len front.old + wanted < 2 ^ 64 }
    ensures longer { IfOk result (λ n. vec_len front.new ≡ vec_len front.old + n) }
    ensures bound { IfOk result (λ n. n ≤ wanted) }
    ensures bytes { IfOk result (λ n. IfSome (S.files shelf.old) (λ fs. IsLonger (held fs name.now) front.old.items n front.new.items)) }
    ensures unchanged { S.files shelf.new ≡ S.files shelf.old }

    ensures cause { IsErrOf result Failed.Fault → Rose (S.read_faults shelf.old name.now) (S.read_faults shelf.new name.now) }
    ensures quiet { OnOk result (S.read_faults shelf.new name.now ≡ S.read_faults shelf.old name.now) }
    ensures quiet_memory { IsErrOf result Failed.Memory → S.read_faults shelf.new name.now ≡ S.read_faults shelf.old name.now }
    ensures reads { NoneFalls (S.read_faults shelf.old) (S.read_faults shelf.new) }
    ensures puts { NoneFalls (S.put_faults shelf.old) (S.put_faults shelf.new) }
{
    let at = front.len();
    front.resize(at + wanted, 0)?;
    let count = read_behind(shelf, name, at, front.as_mut_slice())?;
    front.truncate(at + count);
    Ok(count)
}

/// Reads from the place `at` of the file into that place of `buf`.
fn read_behind<S: Shelf>(
    shelf: &mut S,
    name: &str,
    at: usize,
    buf: &mut [u8],
) -> Result<usize, Failed>
    requires { at < length buf.old }
    ensures front { take at buf.new ≡ take at buf.old }
    ensures bound { IfOk result (λ n. at + n ≤ length buf.new) }
    ensures bytes { IfOk result (λ n. IfSome (S.files shelf.old) (λ fs. ReadsAt (held fs name.now) at n (drop at buf.new))) }
    ensures unchanged { S.files shelf.new ≡ S.files shelf.old }

    ensures cause { IsErrOf result Failed.Fault → Rose (S.read_faults shelf.old name.now) (S.read_faults shelf.new name.now) }
    ensures quiet { OnOk result (S.read_faults shelf.new name.now ≡ S.read_faults shelf.old name.now) }
    ensures quiet_memory { IsErrOf result Failed.Memory → S.read_faults shelf.new name.now ≡ S.read_faults shelf.old name.now }
    ensures reads { NoneFalls (S.read_faults shelf.old) (S.read_faults shelf.new) }
    ensures puts { NoneFalls (S.put_faults shelf.old) (S.put_faults shelf.new) }
{
    shelf.read_at(name, at as u64, &mut buf[at..])
}
