ghost use Rattle.std.specs.Prelude.{◌≡◌};

use std::marker::Model;

/// A worker is writing a level. The pass must be spent, by `demote` or `abandon`.
#[derive(Debug)]
pub struct WritePass {
    worker: u32,
    level: u8,
}

impl Model for WritePass {
    ghost use Rattle.mip_cache.specs.Passes.{WritePassSeen, write_pass};

    ghost Value = { WritePassSeen };

    ghost view = { λ p. write_pass p.worker p.level };
}

impl WritePass {
    ghost use Rattle.mip_cache.specs.Passes.{write_pass};

    /// The pass of this worker for this level. A cache that is shared keeps in its story who writes which level, and makes
    /// the pass anew where a call asks for it.
    pub fn of(worker: u32, level: u8) -> WritePass
        ensures { result ≡ write_pass worker level }
    {
        WritePass { worker, level }
    }

    /// The number of the worker that writes.
    pub fn worker(&self) -> u32
        ensures { result ≡ self.now.worker }
    {
        self.worker
    }

    /// The level that it writes.
    pub fn level(&self) -> u8
        ensures { result ≡ self.now.level }
    {
        self.level
    }

    /// Spends the pass, and says its level.
    pub fn spend(self) -> u8
        ensures { result ≡ self.level }
    {
        let WritePass { worker: _, level } = self;
        level
    }
}

/// Somebody reads a level. The pass must be spent, by `leave`.
#[derive(Debug)]
pub struct ReadPass {
    level: u8,
}

impl Model for ReadPass {
    ghost use Rattle.mip_cache.specs.Passes.{ReadPassSeen, read_pass};

    ghost Value = { ReadPassSeen };

    ghost view = { λ p. read_pass p.level };
}

impl ReadPass {
    ghost use Rattle.mip_cache.specs.Passes.{read_pass};

    /// A pass for this level, made anew as a `WritePass` is.
    pub fn of(level: u8) -> ReadPass
        ensures { result ≡ read_pass level }
    {
        ReadPass { level }
    }

    /// The level that is read.
    pub fn level(&self) -> u8
        ensures { result ≡ self.now.level }
    {
        self.level
    }

    /// Spends the pass, and says its level.
    pub fn spend(self) -> u8
        ensures { result ≡ self.level }
    {
        let ReadPass { level } = self;
        level
    }
}

/// What a worker gets that reaches for a level.
#[derive(Debug)]
pub enum Reached {
    /// The level is written, and the worker is one more of its readers.
    Read(ReadPass),
    /// That worker is writing the level.
    Pending { writer: u32 },
    /// The level had no slot and has one now, for the worker to write it.
    Write(WritePass),
    /// The level has no slot, and none is free.
    Full,
}
