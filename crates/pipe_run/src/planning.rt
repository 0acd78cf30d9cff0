//! The regions of a run, before a pixel is made.
ghost use Rattle.std.specs.Prelude.{◌≡◌, ◌+◌, ◌<◌, ◌≤◌, List, ◌∷◌, ◌++◌, length, reverse, IfOk, vec_len, vec_capacity};
ghost use Rattle.px.specs.Area.{Area, Fits};
ghost use Rattle.pipe_nodes.specs.Windows.{CanShow};
ghost use Rattle.pipe_run.specs.Planned.{sides_at, planned, AreInside};

use geometry::{roi_back, roi_out};
use modules_raw::{Source, level_sides};
use pipe_nodes::{Piece, Show, Window, needed_region};
use px::Region;
use std::alloc::{AllocError, Global};

// Adds the regions of a run over a picture of sides `w` and `h`, the last one first. Answers the first
// one, of that picture.
fn plan_back(pieces: &[Piece], w: u32, h: u32, window: &Window, regions: &mut Vec<Region>) -> Region
    requires sides { Fits 0 0 w h }
    requires window { CanShow window.now }
    requires room { vec_len regions.old + length pieces.now < vec_capacity regions.old }
    ensures regions { regions.new.items ≡ regions.old.items ++ reverse (planned pieces.now (w, h) window.now) }
    ensures first { (behind : List Area) × (planned pieces.now (w, h) window.now ≡ result ∷ behind) }
    ensures inside { AreInside pieces.now (w, h) (planned pieces.now (w, h) window.now) }
    ensures len { vec_len regions.new ≡ vec_len regions.old + length pieces.now + 1 }
    ensures capacity { vec_capacity regions.new ≡ vec_capacity regions.old }
{
    let Some((piece, later)) = pieces.split_first() else {
        let region = needed_region(window, w, h);
        regions.push_reserved(region);
        return region;
    };
    let params = &piece.active().params;
    prove!(params::check(params).is_ok());
    let (columns, rows) = roi_out(params, w, h);
    let behind = plan_back(later, columns, rows, window, regions);
    let region = roi_back(params, w, h, behind);
    regions.push_reserved(region);
    region
}

/// The regions of a run of the pieces over a level of a source, one more than there are pieces: region 0
/// is of the level, and region `k` of the output of piece `k`, counted from 1. The last one is what the
/// window needs, and each other one what the piece behind it needs for the next.
pub fn plan(
    alloc: Global,
    pieces: &[Piece],
    source: &Source,
    show: &Show,
) -> Result<Vec<Region>, AllocError>
    requires level { show.now.level ≤ 8 }
    requires window { CanShow show.now.window }
    ensures regions { IfOk result (λ list. list.items ≡ planned pieces.now (sides_at source.now show.now.level) show.now.window) }
    ensures inside { IfOk result (λ list. AreInside pieces.now (sides_at source.now show.now.level) list.items) }
    ensures count { IfOk result (λ list. vec_len list ≡ length pieces.now + 1) }
{
    let (source_w, source_h) = source.plane().sides();
    let (w, h) = level_sides(source_w, source_h, show.level);
    let mut regions = Vec::with_capacity(alloc, pieces.len() + 1)?;
    let _ = plan_back(pieces, w, h, &show.window, &mut regions);
    regions.reverse();
    Ok(regions)
}
