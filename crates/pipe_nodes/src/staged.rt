ghost use Rattle.std.specs.Prelude.{◌≡◌, IfOk};
ghost use Rattle.std.specs.Arc.{arc_value};
ghost use Rattle.px.specs.Cut.{IsPlane};
ghost use Rattle.pipe_nodes.specs.Staged.{staged, IsRight};

use crate::prefix::Prefix;
use modules_raw::Source;
use px::{Plane, Region};
use std::alloc::{AllocError, Global};
use std::marker::Model;
use std::sync::Arc;

/// What a run has made so far: a prefix, and a plane that holds a region of the whole picture that this
/// prefix makes of the source.
#[derive(Debug, Drop)]
pub struct Staged {
    prefix: Prefix,
    plane: Arc<Plane>,
    source: Arc<Source>,
}

impl Model for Staged {
    ghost use Rattle.std.specs.Arc.{arc_value};
    ghost use Rattle.pipe_nodes.specs.Staged.{StagedSeen, staged, IsRight};

    ghost Value = { StagedSeen };

    ghost view = { λ s. staged s.prefix (arc_value s.plane) (arc_value s.source) };

    ghost invariant = { λ s. IsRight (staged s.prefix (arc_value s.plane) (arc_value s.source)) };
}

impl Staged {
    /// The stage of this prefix, whose plane holds its region of what the prefix makes of the source.
    pub fn of(
        alloc: Global,
        prefix: Prefix,
        plane: Plane,
        source: Arc<Source>,
    ) -> Result<Staged, AllocError>
        requires right { IsRight (staged prefix plane (arc_value source)) }
        ensures { IfOk result (λ s. s ≡ staged prefix plane (arc_value source)) }
    {
        let plane = Arc::new(alloc, plane)?;
        Ok(Staged {
            prefix,
            plane,
            source,
        })
    }

    /// What was applied so far.
    pub fn prefix(&self) -> &Prefix
        ensures prefix { result.now ≡ self.now.prefix }
        ensures right { IsRight self.now }
    {
        &self.prefix
    }

    /// The region that the plane holds.
    pub fn region(&self) -> Region
        ensures { result ≡ self.now.plane.area }
    {
        self.plane.region()
    }

    /// The plane.
    pub fn plane(&self) -> &Plane
        ensures plane { result.now ≡ self.now.plane }
        ensures right { IsRight self.now }
    {
        &self.plane
    }

    /// The source.
    pub fn source(&self) -> &Arc<Source>
        ensures { arc_value result.now ≡ self.now.source }
    {
        &self.source
    }

    /// The same stage once more: plane, source and instances are shared.
    pub fn share(&self) -> Result<Staged, AllocError>
        ensures { IfOk result (λ s. s ≡ self.now) }
    {
        Ok(Staged {
            prefix: self.prefix.share()?,
            plane: Arc::try_clone(&self.plane)?,
            source: Arc::try_clone(&self.source)?,
        })
    }
}
