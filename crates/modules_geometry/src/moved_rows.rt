ghost use Rattle.std.specs.Prelude.{◌≡◌, ℕ, ◌+◌, ◌*◌, ◌<◌, ◌≤◌, false, length, slice_index};
ghost use Rattle.px.specs.Painted.{IsRow};
ghost use Rattle.modules_geometry.specs.Moved.{IsHeld, IsMoved};

use px::{Plane, RowPainter, Trace};

// Fills a row pixel by pixel.
fn fill_pixels(input: &Plane, trace: Trace, x: u32, y: u32, n: u32, row: &mut [u32])
    requires held { (k : ℕ) → k < n → IsHeld input.now trace (x + k) y }
    requires fits { x + n ≤ 16384 }
    requires len { length row.old ≡ n * 3 }
    requires top { (i : ℕ) → slice_index row.old i ≤ 1048575 }
    ensures { IsRow (IsMoved input.now trace) x y 3 n row.new }
{
    for k in 0..n {
        let (u, v) = trace.of(x + k, y);
        let pixel = input.rgb(u, v);
        let at = k as usize * 3;
        row[at] = pixel[0];
        row[at + 1] = pixel[1];
        row[at + 2] = pixel[2];
    }
}

// Fills a row whose pixels lie side by side in the input too.
fn fill_beside(input: &Plane, trace: Trace, x: u32, y: u32, n: u32, row: &mut [u32])
    requires some { 0 < n }
    requires unswapped { trace.swap ≡ false }
    requires unflipped { trace.flip_x ≡ false }
    requires held { (k : ℕ) → k < n → IsHeld input.now trace (x + k) y }
    requires len { length row.old ≡ n * 3 }
    ensures { IsRow (IsMoved input.now trace) x y 3 n row.new }
{
    let (u, v) = trace.of(x, y);
    row.copy_from_slice(input.row(u, v, n));
}

// Paints pixels of an RGB plane in other places: each is the one to which the trace leads.
#[derive(Drop)]
pub(crate) struct MovedRows<'a> {
    pub(crate) input: &'a Plane,
    pub(crate) trace: Trace,
}

impl RowPainter for MovedRows<'_> {
    ghost use Rattle.modules_geometry.specs.Moved.{IsHeld, IsMoved};

    ghost size = { λ _. 3 };

    ghost asks = { λ p x y. IsHeld p.input.now p.trace x y };

    ghost gives = { λ p x y r. IsMoved p.input.now p.trace x y r };

    fn fill_row(&self, x: u32, y: u32, n: u32, row: &mut [u32]) {
        let trace = self.trace;
        if n == 0 || trace.swap || trace.flip_x {
            fill_pixels(self.input, trace, x, y, n, row);
        } else {
            fill_beside(self.input, trace, x, y, n, row);
        }
    }
}
