//! The builders that change a plane in place.
ghost use Rattle.std.specs.Prelude.{◌≡◌, ℕ, ◌+◌, ◌*◌, ◌<◌, ◌≤◌, List, length, slice_index};
ghost use Rattle.px.specs.declared.kind.PlaneKind.TheVariants.{Rgb};
ghost use Rattle.px.specs.Area.{HasPixel};
ghost use Rattle.px.specs.Cut.{rgb_at};
ghost use Rattle.px.specs.Repainted.{three_at, EditsTop, AreEditedRows, IsRepainted};

use crate::painting::rows_of;
use crate::row_editor::ByChange;
use crate::{Plane, RowEditor};

// Changes the pixels of `h` rows of `w` pixels.
fn edit_rows<E: RowEditor>(editor: &E, x: u32, y: u32, w: u32, h: u32, values: &mut [u32])
    requires asks { (j k : ℕ) → j < h → k < w → E.asks editor.now (x + k) (y + j) (three_at values.old ((j * w + k) * 3)) }
    requires gives { (j k : ℕ) (r : List ℕ) → j < h → k < w → E.gives editor.now (x + k) (y + j) (three_at values.old ((j * w + k) * 3)) r → (i : ℕ) → slice_index r i ≤ 1048575 }
    requires right { x + w ≤ 16384 }
    requires bottom { y + h ≤ 16384 }
    requires len { length values.old ≡ h * w * 3 }
    requires top { (i : ℕ) → slice_index values.old i ≤ 1048575 }
    ensures rows { AreEditedRows (E.gives editor.now) x y w h values.old values.new }
{
    let stride = w as usize * 3;
    for j in 0..h {
        let at = j as usize * stride;
        editor.edit_row(x, y + j, w, &mut values[at..at + stride]);
    }
}

/// The plane with each pixel changed to what the editor gives of it, by column, row and its red, green
/// and blue. Takes no memory: the values are changed where they stand.
pub fn repaint_rows<E: RowEditor>(plane: Plane, editor: &E) -> Plane
    requires rgb { plane.kind ≡ Rgb }
    requires asks { (x y : ℕ) → HasPixel plane.area x y → E.asks editor.now x y (rgb_at plane x y) }
    requires gives { EditsTop plane (E.gives editor.now) }
    ensures { IsRepainted (E.gives editor.now) plane result }
{
    let kind = plane.kind();
    let (w, h) = plane.sides();
    let region = plane.region();
    let rows = rows_of(region, 3);
    let mut values = plane.into_values();
    edit_rows(editor, rows.x, rows.y, rows.w, rows.h, &mut values);
    Plane::from_rows(kind, w, h, region, values)
}

/// The same plane, each pixel of which is changed by the closure.
pub fn repaint<F: Fn(u32, u32, [u32; 3]) -> [u32; 3]>(plane: Plane, f: &F) -> Plane
    requires rgb { plane.kind ≡ Rgb }
    requires asks { (x y : ℕ) → HasPixel plane.area x y → F.pre f.now x y (rgb_at plane x y) }
    requires gives { EditsTop plane (F.post f.now) }
    ensures { IsRepainted (F.post f.now) plane result }
{
    repaint_rows(plane, &ByChange { change: f })
}
