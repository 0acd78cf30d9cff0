ghost use Rattle.std.specs.Prelude.{◌≡◌};
ghost use Rattle.mip_cache.specs.Slots.{IsLevel};
ghost use Rattle.level_store.specs.Planes.{IsLevelPlane};

use crate::tag::LevelPlane;
use counted_slot::{Claim, FREE, PRESENT};
use px::Plane;
use std::marker::Model;

/// One thread reads the plane of a level. The plane stays while the hold does. It must be spent, by
/// `MipCache::leave`, and stays in its thread.
pub struct ReadHold<'a> {
    pub(crate) level: u8,
    pub(crate) claim: Claim<'a, Option<LevelPlane>>,
}

impl<'a> Model for ReadHold<'a> {
    ghost use Rattle.std.specs.Prelude.{◌≡◌, true};
    ghost use Rattle.mip_cache.specs.Slots.{IsLevel};
    ghost use Rattle.shared_mips.specs.Cells.{Spot, is_filled};

    ghost Value = { Spot };

    ghost view = { λ h. h.claim.tag };

    ghost invariant = { λ h. (h.claim.right ≡ 1) × (h.claim.tag.level ≡ h.level) × IsLevel h.level × (is_filled h.claim.value ≡ true) };
}

impl<'a> ReadHold<'a> {
    /// The level, 1 to 8.
    pub fn level(&self) -> u8
        ensures level { result ≡ self.now.level }
        ensures range { IsLevel self.now.level }
    {
        self.level
    }

    /// The whole of the level.
    pub(crate) fn plane(&self) -> &Plane
        ensures { IsLevelPlane self.now.source self.now.level result.now }
    {
        match self.claim.get() {
            Some(kept) => &kept.plane,
            None => unreachable!(),
        }
    }

    /// Gives the claim back: the cell has one reader fewer.
    pub(crate) fn leave(self) -> Ended
        ensures { result.level ≡ self.entry.level }
    {
        let ReadHold { level, claim } = self;
        claim.leave();
        Ended { level }
    }
}

/// One thread alone is to make the plane of a level. It must be spent, by `MipCache::demote` or
/// `MipCache::abandon`, and stays in its thread.
pub struct WriteHold<'a> {
    pub(crate) level: u8,
    pub(crate) claim: Claim<'a, Option<LevelPlane>>,
}

impl<'a> Model for WriteHold<'a> {
    ghost use Rattle.std.specs.Prelude.{◌≡◌};
    ghost use Rattle.mip_cache.specs.Slots.{IsLevel};
    ghost use Rattle.shared_mips.specs.Cells.{Spot};

    ghost Value = { Spot };

    ghost view = { λ h. h.claim.tag };

    ghost invariant = { λ h. (h.claim.right ≡ 2) × (h.claim.tag.level ≡ h.level) × IsLevel h.level };
}

impl<'a> WriteHold<'a> {
    /// The level, 1 to 8.
    pub fn level(&self) -> u8
        ensures level { result ≡ self.now.level }
        ensures range { IsLevel self.now.level }
    {
        self.level
    }

    /// Puts the plane into the cell, which readers may enter then, and says the level.
    pub(crate) fn fill(self, plane: Plane) -> u8
        requires { IsLevelPlane self.source self.level plane }
        ensures level { result ≡ self.entry.level }
        ensures range { IsLevel result }
    {
        let WriteHold { level, claim } = self;
        claim.put(Some(LevelPlane { plane }), PRESENT);
        level
    }

    /// Gives the claim back: the cell has no plane and no writer.
    pub(crate) fn empty(self) -> Ended
        ensures { result.level ≡ self.entry.level }
    {
        let WriteHold { level, claim } = self;
        claim.put(None, FREE);
        Ended { level }
    }
}

/// The claim on this level's cell was given back. Only the holds make it, and the turn that ends the hold
/// must spend it.
pub(crate) struct Ended {
    level: u8,
}

impl Ended {
    /// Spends it, and says the level.
    pub(crate) fn spend(self) -> u8
        ensures { result ≡ self.level }
    {
        let Ended { level } = self;
        level
    }
}
