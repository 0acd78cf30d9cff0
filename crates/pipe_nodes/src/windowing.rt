//! Windows of pictures.
ghost use Rattle.std.specs.Prelude.{◌≡◌, ◌+◌, ◌<◌, ◌≤◌, min, IfOk};
ghost use Rattle.px.specs.declared.kind.PlaneKind.TheVariants.{Rgb};
ghost use Rattle.px.specs.Area.{Covers, Fits, IsIn, whole_of};
ghost use Rattle.px.specs.Cut.{IsCutOf, IsWhole};
ghost use Rattle.px.specs.Picture.{Picture};
ghost use Rattle.modules_raw.specs.Levels.{blocks};
ghost use Rattle.pipe_nodes.specs.Windows.{CanFit, CanShow, CanView, IsLeastFit, fit_factor, needed_of, scaled, shown_area, part_of, unscaled, view_start, windowed};

use crate::scaling::{scaled_part, scaled_side, unscaled_region};
use crate::show::Window;
use px::{BoxSize, Plane, Region, View};
use std::alloc::{AllocError, Global};
use std::thread::Threads;

// Where a view of `len` pixels begins on a side of `n`, and how many it shows: its middle lies at
// `middle` of 65,536, as far as the side lets it.
fn view_along(n: u32, middle: u32, len: u32) -> (u32, u32)
    requires some { 0 < n }
    requires wide { n ≤ 16384 }
    requires middle { middle ≤ 65536 }
    requires len { 1 ≤ len }
    ensures start { result.0 ≡ view_start n middle len }
    ensures len { result.1 ≡ min len n }
    ensures shown { 0 < result.1 }
    ensures inside { result.0 + result.1 ≤ n }
{
    let shown = len.min(n);
    let start = (middle * n / 65536).saturating_sub(len / 2);
    (start.min(n - shown), shown)
}

// A view's part of the scaled picture: its first column and row, and its sides.
fn view_part(view: &View, w: u32, h: u32) -> (u32, u32, u32, u32)
    requires can { CanView view.now }
    requires sides { Fits 0 0 w h }
    ensures part { record { x = result.0; y = result.1; w = result.2; h = result.3 } ≡ shown_area view.now w h }
    ensures wide { 0 < result.2 }
    ensures high { 0 < result.3 }
    ensures inside { IsIn (shown_area view.now w h) (blocks view.now.factor w) (blocks view.now.factor h) }
{
    let columns = scaled_side(w, view.factor);
    let rows = scaled_side(h, view.factor);
    let (x, shown_w) = view_along(columns, view.cx, view.w);
    let (y, shown_h) = view_along(rows, view.cy, view.h);
    (x, y, shown_w, shown_h)
}

// The least factor, from 1 on, by which a picture of sides `w` and `h` is scaled down to fit a box.
fn least_factor(w: u32, h: u32, size: BoxSize) -> u32
    requires can { CanFit size }
    requires sides { Fits 0 0 w h }
    ensures factor { result ≡ fit_factor w h size }
    ensures least { IsLeastFit w h size result }
    ensures small { result ≤ 16384 }
{
    scaled_side(w, size.w).max(scaled_side(h, size.h))
}

/// The region of a picture of sides `w` and `h` whose pixels a window needs: all of it, or those in the
/// blocks of the pixels that a view shows.
pub fn needed_region(window: &Window, w: u32, h: u32) -> Region
    requires can { CanShow window.now }
    requires sides { Fits 0 0 w h }
    ensures region { result ≡ needed_of w h window.now }
    ensures inside { IsIn result w h }
{
    match window {
        Window::View(view) => {
            let (x, y, columns, rows) = view_part(view, w, h);
            unscaled_region(view.factor, x, y, columns, rows, w, h)
        }
        _ => Region::whole(w, h),
    }
}

// A view of a plane that covers what it needs.
fn viewed<R: Threads + Sync>(
    rt: &R,
    alloc: Global,
    plane: &Plane,
    view: &View,
) -> Result<Plane, AllocError>
    requires rgb { plane.now.kind ≡ Rgb }
    requires can { CanView view.now }
    requires covers { Covers plane.now.area (unscaled view.now.factor (shown_area view.now plane.now.w plane.now.h) plane.now.w plane.now.h) }
    ensures whole { IfOk result IsWhole }
    ensures rgb { IfOk result (λ p. p.kind ≡ Rgb) }
    ensures cut { IfOk result (λ p. (q : Picture) → IsCutOf q plane.now → IsCutOf (part_of (shown_area view.now q.w q.h) (scaled view.now.factor q)) p) }
{
    let (w, h) = plane.sides();
    let (x, y, columns, rows) = view_part(view, w, h);
    scaled_part(rt, alloc, plane, view.factor, x, y, columns, rows)
}

// A whole plane, scaled down to fit a box.
fn fitted<R: Threads + Sync>(
    rt: &R,
    alloc: Global,
    plane: &Plane,
    size: BoxSize,
) -> Result<Plane, AllocError>
    requires rgb { plane.now.kind ≡ Rgb }
    requires can { CanFit size }
    requires covers { Covers plane.now.area (whole_of plane.now.w plane.now.h) }
    ensures whole { IfOk result IsWhole }
    ensures rgb { IfOk result (λ p. p.kind ≡ Rgb) }
    ensures cut { IfOk result (λ p. (q : Picture) → IsCutOf q plane.now → IsCutOf (scaled (fit_factor q.w q.h size) q) p) }
{
    let (w, h) = plane.sides();
    let factor = least_factor(w, h, size);
    let (columns, rows) = (scaled_side(w, factor), scaled_side(h, factor));
    scaled_part(rt, alloc, plane, factor, 0, 0, columns, rows)
}

/// What a window shows of a picture, as a whole RGB plane, from a plane of any region of the picture
/// that has what the window needs. Its rows are made side by side.
pub fn window_of<R: Threads + Sync>(
    rt: &R,
    alloc: Global,
    plane: &Plane,
    window: &Window,
) -> Result<Plane, AllocError>
    requires rgb { plane.now.kind ≡ Rgb }
    requires can { CanShow window.now }
    requires covers { Covers plane.now.area (needed_of plane.now.w plane.now.h window.now) }
    ensures whole { IfOk result IsWhole }
    ensures rgb { IfOk result (λ p. p.kind ≡ Rgb) }
    ensures cut { IfOk result (λ p. (q : Picture) → IsCutOf q plane.now → IsCutOf (windowed q window.now) p) }
{
    match window {
        Window::Whole => {
            let (w, h) = plane.sides();
            plane.cut(alloc, Region::whole(w, h))
        }
        Window::View(view) => viewed(rt, alloc, plane, view),
        Window::Fit(size) => fitted(rt, alloc, plane, *size),
    }
}
