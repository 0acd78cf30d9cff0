ghost use Rattle.std.specs.Prelude.{◌≡◌, ◌+◌, ◌<◌, ◌≤◌, ◌++◌, ◌∷◌, [], length, take};

use crate::part::Numbers;

/// The parts of a row, in its order: the first `count`. No row has more than seven.
#[derive(Clone, Copy)]
pub(crate) struct Parts<'a> {
    pub parts: [Numbers<'a>; 7],
    pub count: usize,
    ghost few: { count ≤ 7 },
    ghost seven: { length parts ≡ 7 },
}

impl<'a> Parts<'a> {
    /// No parts.
    pub fn none() -> Parts<'a>
        ensures value { take result.count result.parts ≡ [] }
        ensures count { result.count ≡ 0 }
    {
        Parts {
            parts: [Numbers::Flag(false); 7],
            count: 0,
        }
    }

    /// A part behind the others.
    pub fn push(&mut self, part: Numbers<'a>)
        requires room { self.old.count < 7 }
        ensures value { take self.new.count self.new.parts ≡ take self.old.count self.old.parts ++ part.entry ∷ [] }
        ensures count { self.new.count ≡ self.old.count + 1 }
    {
        self.parts[self.count] = part;
        self.count += 1;
    }

    /// The parts of the list.
    pub fn of(parts: &[Numbers<'a>]) -> Parts<'a>
        requires { length parts.now ≤ 7 }
        ensures { take result.count result.parts ≡ parts.now }
    {
        let mut kept = Parts::none();
        for part in parts {
            kept.push(*part);
        }
        kept
    }

    /// The parts that are there.
    pub fn as_slice(&self) -> &[Numbers<'a>]
        ensures { result.now ≡ take self.now.count self.now.parts }
    {
        &self.parts[..self.count]
    }
}
