//! Draws: numbers of 16 bits that follow from one start.
ghost use Rattle.std.specs.Prelude.{◌≡◌, ◌<◌};
ghost use Rattle.generator.specs.Draws.{after_number, upper_half};

/// A start, or the number behind some draws. Each number follows from the one before it, modulo 2^32.
#[derive(Clone, Copy, Debug)]
pub(crate) struct Draws {
    pub(crate) number: u32,
}

impl Draws {
    /// The next draw: the upper half of the next number, 0 to 65,535.
    pub(crate) fn next(&mut self) -> u32
        ensures number { self.new.number ≡ after_number self.old.number }
        ensures draw { result ≡ upper_half (after_number self.old.number) }
        ensures small { result < 65536 }
    {
        self.number = self
            .number
            .wrapping_mul(1_664_525)
            .wrapping_add(1_013_904_223);
        self.number / 65_536
    }
}
