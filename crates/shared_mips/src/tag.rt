use counted_slot::Fits;
use modules_raw::Source;
use px::Plane;
use std::marker::Model;
use std::sync::Arc;

/// Which level of which source a cell is for.
#[derive(Drop)]
pub(crate) struct Tag {
    pub(crate) source: Arc<Source>,
    pub(crate) level: u8,
}

impl Model for Tag {
    ghost use Rattle.shared_mips.specs.Cells.{Spot};

    ghost Value = { Spot };

    ghost use Rattle.std.specs.Arc.{arc_value};

    ghost view = { λ t. record { source = arc_value t.source; level = t.level } };
}

/// The plane in a cell: the whole of the level that the cell is for.
#[derive(Drop)]
pub(crate) struct LevelPlane {
    pub(crate) plane: Plane,
}

impl Fits for LevelPlane {
    ghost use Rattle.level_store.specs.Planes.{IsLevelPlane};

    type Tag = Tag;

    ghost fits = { λ tag p. IsLevelPlane tag.source tag.level p.plane };
}
