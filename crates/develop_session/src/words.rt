ghost use Rattle.std.specs.Prelude.{◌≡◌, ◌⊎◌, ◌↔◌, List, IfSome, IsSome, IsSomeAnd, None};
ghost use Rattle.params.specs.declared.settings.Exposure.{Exposure};
ghost use Rattle.px.specs.Picture.{Picture};
ghost use Rattle.outside.specs.Faults.{Rose};
ghost use Rattle.develop_session.specs.declared.status.Status.TheVariants.{Usage as usage_status};
ghost use Rattle.publish.specs.Files.{RoseAt};
ghost use Rattle.develop_session.specs.Words.{command_of, replay_of, session_of, number_of, texts};
ghost use Rattle.develop_session.specs.Texts.{refusal_text};
ghost use Rattle.develop_session.specs.Failures.{Tells};
ghost use Rattle.develop_session.specs.Answers.{Answers};
ghost use Rattle.develop_session.specs.Replies.{Replies};
ghost use Rattle.develop_session.specs.Ends.{Ends};
ghost use Rattle.develop_session.specs.Generation.{Produces};
ghost use Rattle.develop_session.specs.Complete.{AreValid, IsValidReplay, NoneRose, IsServed};

use crate::command::{
    Names, ReplayNames, SessionNames, names_of, number_of, replay_names_of, session_names_of,
};
use crate::develop::develop_once;
use crate::devices::tell;
use crate::generation::generate;
use crate::replay::run_stepped;
use crate::sessions::run_session;
use crate::status::Status;
use outside::{Gate, Said, Shelf};
use std::alloc::Global;
use std::sync::Wait;
use std::thread::Threads;

/// Runs the command that the words after the program's name are, over a shelf of files and an output.
///
/// `develop SCRIPT SOURCE OUT` develops the picture SOURCE by what is active in the history after the
/// last change of SCRIPT, puts it at OUT at the depth of its settings, and says `developed W H`.
/// `stepped SCRIPT SOURCE EVENTS` replays the events, puts the files of the journal that they make, and
/// says `events E lines L` with `complete` or `open`. `session SCRIPT SOURCE` lets an editor make the steps
/// while workers in threads of their own show what it makes, each thread passing the gate; it puts the
/// files of the journal that they leave, the manifest last, and says `lines L`. It returns once all is
/// done. `generate N` makes the run of the number N, of 1 to 9 digits, and says
/// `generated N 1024 768 steps 40 changes C lines L sum X`; it touches no file. Other words are answered
/// by the usage line. A refusal says its line where the output takes it, and nothing is put before the run
/// has ended.
pub fn run_words<R: Wait + Threads + Sync, S: Shelf, O: Said, G: Gate + Sync>(
    rt: &R,
    alloc: Global,
    words: &[String],
    shelf: &mut S,
    said: &mut O,
    gate: &G,
) -> Status
    ensures usage { (result ≡ usage_status) ↔ ((command_of (texts words.now) ≡ None) × (replay_of (texts words.now) ≡ None) × (session_of (texts words.now) ≡ None) × (number_of (texts words.now) ≡ None)) }
    ensures untouched { result ≡ usage_status → S.files shelf.new ≡ S.files shelf.old }
    ensures usage_told { result ≡ usage_status → Tells (refusal_text usage_status) (Rose (O.faults said.old) (O.faults said.new)) (O.said said.old) (O.said said.new) }
    ensures develop { IfSome (command_of (texts words.now)) (λ c.
        Answers c (S.files shelf.old) (S.files shelf.new) (RoseAt (S.read_faults shelf.old) (S.read_faults shelf.new)) (RoseAt (S.put_faults shelf.old) (S.put_faults shelf.new))
        (Rose (O.faults said.old) (O.faults said.new)) (O.said said.old) (O.said said.new) result) }
    ensures stepped { IfSome (replay_of (texts words.now)) (λ c.
        Replies c (S.files shelf.old) (S.files shelf.new) (RoseAt (S.read_faults shelf.old) (S.read_faults shelf.new)) (RoseAt (S.put_faults shelf.old) (S.put_faults shelf.new))
        (Rose (O.faults said.old) (O.faults said.new)) (O.said said.old) (O.said said.new) result) }
    ensures session { IfSome (session_of (texts words.now)) (λ c.
        Ends c (S.files shelf.old) (S.files shelf.new) (RoseAt (S.read_faults shelf.old) (S.read_faults shelf.new)) (RoseAt (S.put_faults shelf.old) (S.put_faults shelf.new))
        (Rose (O.faults said.old) (O.faults said.new)) (O.said said.old) (O.said said.new) result) }
    ensures generate { IfSome (number_of (texts words.now)) (λ n. (S.files shelf.new ≡ S.files shelf.old) × Produces n (Rose (O.faults said.old) (O.faults said.new)) (O.said said.old) (O.said said.new) result) }
    ensures develop_served { IfSome (command_of (texts words.now)) (λ c. IsSomeAnd (S.files shelf.old) (AreValid c.script c.source) → NoneRose (RoseAt (S.read_faults shelf.old) (S.read_faults shelf.new)) (RoseAt (S.put_faults shelf.old) (S.put_faults shelf.new))
        (Rose (O.faults said.old) (O.faults said.new)) → IsServed result) }
    ensures stepped_served { IfSome (replay_of (texts words.now)) (λ c. IsSomeAnd (S.files shelf.old) (IsValidReplay c) → NoneRose (RoseAt (S.read_faults shelf.old) (S.read_faults shelf.new)) (RoseAt (S.put_faults shelf.old) (S.put_faults shelf.new))
        (Rose (O.faults said.old) (O.faults said.new)) → IsServed result) }
    ensures session_served { IfSome (session_of (texts words.now)) (λ c. IsSomeAnd (S.files shelf.old) (AreValid c.script c.source) → NoneRose (RoseAt (S.read_faults shelf.old) (S.read_faults shelf.new)) (RoseAt (S.put_faults shelf.old) (S.put_faults shelf.new))
        (Rose (O.faults said.old) (O.faults said.new)) → IsServed result) }
{
    if let Some(names) = names_of(words) {
        let Names {
            script,
            source,
            out,
        } = names;
        return develop_once(rt, alloc, script, source, out, shelf, said);
    }
    if let Some(names) = replay_names_of(words) {
        let ReplayNames {
            script,
            source,
            events,
        } = names;
        return run_stepped(rt, alloc, script, source, events, shelf, said);
    }
    if let Some(names) = session_names_of(words) {
        let SessionNames { script, source } = names;
        return run_session(rt, alloc, script, source, shelf, said, gate);
    }
    if let Some(n) = number_of(words) {
        return generate(rt, alloc, n, said);
    }
    let status = Status::Usage;
    tell(alloc, said, &status);
    status
}
