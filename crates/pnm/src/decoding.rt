//! The values that a raster's samples mean.
ghost use Rattle.std.specs.Prelude.{◌≡◌, ℕ, ◌+◌, ◌*◌, ◌<◌, ◌≤◌, length, slice_index, min};
ghost use Rattle.px.specs.Kind.{channels};
ghost use Rattle.pnm.specs.Samples.{AreValues, IsRaster, bytes_of_sample, sample_at, scaled};

use px::PlaneKind;

// Sample `i` of one byte each.
#[inline]
fn byte_at(raster: &[u8], i: usize) -> u32
    requires { i < length raster.now }
    ensures sample { result ≡ slice_index raster.now i }
    ensures small { result ≤ 65535 }
{
    u32::from(raster[i])
}

// Sample `i` of two bytes each, the more significant one first.
#[inline]
fn word_at(raster: &[u8], i: usize) -> u32
    requires { i * 2 + 1 < length raster.now }
    ensures sample { result ≡ slice_index raster.now (i * 2) * 256 + slice_index raster.now (i * 2 + 1) }
    ensures small { result ≤ 65535 }
{
    u32::from(raster[i * 2]) * 256 + u32::from(raster[i * 2 + 1])
}

// What a sample means, where `top` is white.
#[inline]
fn scale(top: u32, sample: u32) -> u32
    requires some { 0 < top }
    requires small { top ≤ 65535 }
    requires sample { sample ≤ 65535 }
    ensures { result ≡ scaled top sample }
{
    sample.min(top) * 65_535 / top
}

// One value of each sample.
fn set_each<F: Fn(usize) -> u32>(values: &mut [u32], f: F)
    requires { (i : ℕ) → i < length values.old → F.pre f i }
    ensures { (i : ℕ) → i < length values.old → F.post f i (slice_index values.new i) }
{
    for i in 0..values.len() {
        values[i] = f(i);
    }
}

// The values of `n` pixels, each sample thrice.
fn set_thrice<F: Fn(usize) -> u32>(n: usize, values: &mut [u32], f: F)
    requires asks { (i : ℕ) → i < n → F.pre f i }
    requires len { length values.old ≡ n * 3 }
    ensures { (i c : ℕ) → i < n → c < 3 → F.post f i (slice_index values.new (i * 3 + c)) }
{
    for i in 0..n {
        let value = f(i);
        let at = i * 3;
        values[at] = value;
        values[at + 1] = value;
        values[at + 2] = value;
    }
}

// The samples as they are, up to the greatest one.
fn set_raw(top: u32, raster: &[u8], values: &mut [u32])
    requires { length raster.now ≡ length values.old * bytes_of_sample top }
    ensures { (i : ℕ) → i < length values.old → slice_index values.new i ≡ min (sample_at top raster.now i) top }
{
    if top < 256 {
        let value = |i: usize| -> u32
            requires { i < length raster.now }
            ensures { result ≡ min (slice_index raster.entry.now i) top }
        { byte_at(raster, i).min(top) };
        return set_each(values, value);
    }
    let value = |i: usize| -> u32
        requires { i * 2 + 1 < length raster.now }
        ensures { result ≡ min (slice_index raster.entry.now (i * 2) * 256 + slice_index raster.entry.now (i * 2 + 1)) top }
    { word_at(raster, i).min(top) };
    set_each(values, value);
}

// The samples at their scale.
fn set_scaled(top: u32, raster: &[u8], values: &mut [u32])
    requires len { length raster.now ≡ length values.old * bytes_of_sample top }
    requires some { 0 < top }
    requires small { top ≤ 65535 }
    ensures { (i : ℕ) → i < length values.old → slice_index values.new i ≡ scaled top (sample_at top raster.now i) }
{
    if top < 256 {
        let value = |i: usize| -> u32
            requires some { 0 < top }
            requires small { top ≤ 65535 }
            requires within { i < length raster.now }
            ensures { result ≡ scaled top (slice_index raster.entry.now i) }
        { scale(top, byte_at(raster, i)) };
        return set_each(values, value);
    }
    let value = |i: usize| -> u32
        requires some { 0 < top }
        requires small { top ≤ 65535 }
        requires within { i * 2 + 1 < length raster.now }
        ensures { result ≡ scaled top (slice_index raster.entry.now (i * 2) * 256 + slice_index raster.entry.now (i * 2 + 1)) }
    { scale(top, word_at(raster, i)) };
    set_each(values, value);
}

// The samples of `n` pixels at their scale, each in all three channels.
fn set_grey(top: u32, n: usize, raster: &[u8], values: &mut [u32])
    requires len { length raster.now ≡ n * bytes_of_sample top }
    requires room { length values.old ≡ n * 3 }
    requires some { 0 < top }
    requires small { top ≤ 65535 }
    ensures { (i c : ℕ) → i < n → c < 3 → slice_index values.new (i * 3 + c) ≡ scaled top (sample_at top raster.now i) }
{
    if top < 256 {
        let value = |i: usize| -> u32
            requires some { 0 < top }
            requires small { top ≤ 65535 }
            requires within { i < length raster.now }
            ensures { result ≡ scaled top (slice_index raster.entry.now i) }
        { scale(top, byte_at(raster, i)) };
        return set_thrice(n, values, value);
    }
    let value = |i: usize| -> u32
        requires some { 0 < top }
        requires small { top ≤ 65535 }
        requires within { i * 2 + 1 < length raster.now }
        ensures { result ≡ scaled top (slice_index raster.entry.now (i * 2) * 256 + slice_index raster.entry.now (i * 2 + 1)) }
    { scale(top, word_at(raster, i)) };
    set_thrice(n, values, value);
}

// Writes the values of `count` pixels of a raster.
pub(crate) fn decode(
    kind: PlaneKind,
    samples: usize,
    top: u32,
    count: usize,
    raster: &[u8],
    values: &mut [u32],
)
    requires raster { IsRaster kind samples top count raster.now }
    requires room { length values.old ≡ count * channels kind }
    ensures { AreValues kind samples top count raster.now values.new }
{
    match kind {
        PlaneKind::Mosaic(_) => set_raw(top, raster, values),
        PlaneKind::Rgb => {
            if samples == 3 {
                return set_scaled(top, raster, values);
            }
            set_grey(top, count, raster, values);
        }
    }
}
