//! The builder of covers.
ghost use Rattle.std.specs.Prelude.{◌≡◌, IfOk};
ghost use Rattle.px.specs.Painted.{AsksIn};
ghost use Rattle.px.specs.Cover.{GivesCover, IsCoverPainted};

use crate::painting::{blank, fill_in_turn, rows_of};
use crate::{Cover, Region, RowPainter};
use std::alloc::{AllocError, Global};

/// A cover of one region, each pixel of which is covered as far as the painter says there, its rows
/// painted one after another.
pub fn paint_cover<P: RowPainter>(
    alloc: Global,
    region: Region,
    painter: &P,
) -> Result<Cover, AllocError>
    requires size { P.size painter.now ≡ 1 }
    requires asks { AsksIn region (P.asks painter.now) }
    requires gives { GivesCover region (P.gives painter.now) }
    ensures { IfOk result (λ c. IsCoverPainted region (P.gives painter.now) c) }
{
    let rows = rows_of(region, 1);
    let mut values = blank(alloc, rows)?;
    fill_in_turn(painter, rows, &mut values);
    Ok(Cover::from_rows(region, values))
}
