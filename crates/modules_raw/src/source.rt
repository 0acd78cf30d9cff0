ghost use Rattle.std.specs.Prelude.{◌≡◌};
ghost use Rattle.px.specs.Cut.{IsPlane, IsWhole};

use px::Plane;
use std::marker::Model;

/// A source picture: a whole plane, a mosaic or RGB. It is never changed.
#[derive(Debug, Drop)]
pub struct Source {
    plane: Plane,
}

impl Model for Source {
    ghost use Rattle.px.specs.Cut.{Cut, IsWhole};

    ghost Value = { Cut };

    ghost view = { λ s. s.plane };

    ghost invariant = { λ s. IsWhole s.plane };
}

impl Source {
    /// The source of this plane. Takes no memory.
    pub fn of(plane: Plane) -> Source
        requires { IsWhole plane }
        ensures { result ≡ plane }
    {
        Source { plane }
    }

    pub fn plane(&self) -> &Plane
        ensures plane { result.now ≡ self.now }
        ensures whole { IsWhole self.now }
    {
        &self.plane
    }
}
