//! What the lines of a journal say of its subject alone.
ghost use Rattle.std.specs.Prelude.{◌≡◌, ℕ, None, List};
ghost use Rattle.std.specs.List.{All};
ghost use Rattle.outside.specs.declared.job_name.Pipe.{Pipe};
ghost use Rattle.edit_steps.specs.Script.{Recipe};
ghost use Rattle.journal.specs.declared.entry.Entry.{Entry as Event};
ghost use Rattle.journal.specs.Desk.{Legal, IsComplete};
ghost use Rattle.journal.specs.Lines.{lines};
ghost use Rattle.journal.specs.Good.{HaveNames, IsKnown, Rises, moments, Good};

/// The lines of a legal journal have names that differ, are known, and rise at each pipe; once what was
/// asked is done, they are good. So whoever reads them need not know in which order the workers came.
/// This call does nothing.
pub fn lines_are_good()
    ensures names { (script : Recipe) (journal : List Event) → Legal script journal → HaveNames (lines script journal) }
    ensures known { (script : Recipe) (journal : List Event) → Legal script journal → All (IsKnown script) (lines script journal) }
    ensures rises { (script : Recipe) (journal : List Event) → Legal script journal → (p : Pipe) → Rises script p None (moments p (lines script journal)) }
    ensures good { (script : Recipe) (journal : List Event) → Legal script journal → IsComplete script journal → Good script (lines script journal) }
{}
