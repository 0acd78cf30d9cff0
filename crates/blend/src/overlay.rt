//! What lays the rows of an output over the input's.
ghost use Rattle.std.specs.Prelude.{◌≡◌, ℕ, ◌+◌, ◌*◌, ◌<◌, ◌≤◌, length, slice_index, IfSome};
ghost use Rattle.std.specs.Option.{option_copied};
ghost use Rattle.px.specs.Area.{HasPixel};
ghost use Rattle.px.specs.Repainted.{three_at, IsEditedRow};
ghost use Rattle.blend.specs.Blending.{covered};
ghost use Rattle.blend.specs.Rows.{CanLay, lays, AreParts};

use crate::laying::{lay, parts_of};
use params::Blend;
use px::{Cover, Plane, RowEditor};

/// A blend, the input of the module, and the mask's cover where there is one.
#[derive(Drop)]
pub(crate) struct Overlay<'a> {
    pub(crate) blend: &'a Blend,
    pub(crate) input: &'a Plane,
    pub(crate) cover: Option<&'a Cover>,
}

// How many pixels are laid at once.
const PART: u32 = 256;

// How far the values of pixels go: those of row `y` from column `x` on. Without a cover each goes as
// far as the opacity says.
fn fill_parts(opacity: u32, cover: Option<&Cover>, x: u32, y: u32, n: u32, parts: &mut [u32])
    requires opacity { opacity ≤ 65536 }
    requires some { 0 < n }
    requires covered { (k : ℕ) → k < n → IfSome (option_copied cover) (λ c. HasPixel c.area (x + k) y) }
    requires len { length parts.old ≡ n * 3 }
    ensures { AreParts opacity (λ k. covered (option_copied cover.entry) (x + k) y) n parts.new }
{
    match cover {
        None => parts.fill(opacity),
        Some(cover) => parts_of(opacity, cover.row(x, y, n), parts),
    }
}

// Lays some pixels of row `y`, from column `x` on.
fn lay_part(overlay: &Overlay<'_>, x: u32, y: u32, n: u32, row: &mut [u32])
    requires asks { (k : ℕ) → k < n → CanLay overlay.now.blend.now (option_copied overlay.now.cover) overlay.now.input.now (x + k) y }
    requires some { 0 < n }
    requires few { n ≤ 256 }
    requires len { length row.old ≡ n * 3 }
    requires top { (i : ℕ) → slice_index row.old i ≤ 1048575 }
    ensures { IsEditedRow (lays overlay.now.blend.now (option_copied overlay.now.cover) overlay.now.input.now) x y n row.old row.new }
{
    let blend = overlay.blend;
    let mut room = [0; 768];
    let parts = &mut room[..n as usize * 3];
    fill_parts(blend.opacity, overlay.cover, x, y, n, parts);
    let input = overlay.input;
    lay(blend.mode, parts, input.row(x, y, n), row);
}

impl RowEditor for Overlay<'_> {
    ghost use Rattle.std.specs.Option.{option_copied};
    ghost use Rattle.blend.specs.Rows.{CanLay, lays};

    ghost asks = { λ s x y old. CanLay s.blend.now (option_copied s.cover) s.input.now x y };

    ghost gives = { λ s x y old r. lays s.blend.now (option_copied s.cover) s.input.now x y old r };

    fn edit_row(&self, x: u32, y: u32, n: u32, row: &mut [u32]) {
        let mut from = 0;
        while from < n {
            let to = (from + PART).min(n);
            lay_part(
                self,
                x + from,
                y,
                to - from,
                &mut row[from as usize * 3..to as usize * 3],
            );
            from = to;
        }
    }
}
