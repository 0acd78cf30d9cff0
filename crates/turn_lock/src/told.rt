ghost use Rattle.std.specs.Prelude.{◌≡◌, ℕ, ◌≤◌, List};

/// A value with a name, a story and a mark, which threads hand to one another under a `TurnLock`.
pub trait Told: Drop {
    /// What never changes.
    type Name;

    /// An element of the story.
    type Entry;

    ghost name: { Self → Self.Name };

    // What happened to the value, in order. It only grows.
    ghost story: { Self → List Self.Entry };

    // The number of the pass that added the element.
    ghost bearer: { Self.Entry → ℕ };

    // A number that only rises.
    ghost mark: { Self → ℕ };

    // The greatest mark that a value of this name may have.
    ghost most: { Self.Name → ℕ };

    /// The mark as it is now.
    fn mark_now(&self) -> u64
        ensures mark { result ≡ mark self.now }
        ensures top { mark self.now ≤ most (name self.now) };
}
