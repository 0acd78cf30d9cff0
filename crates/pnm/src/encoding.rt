//! The bytes that values are written as.
ghost use Rattle.std.specs.Prelude.{◌≡◌, ◌*◌, ◌≤◌, length, IfOk};
ghost use Rattle.std.specs.List.{flat_map};
ghost use Rattle.px.specs.declared.depth.Depth.TheVariants.{Eight, Sixteen};
ghost use Rattle.pnm.specs.ByteBands.{bytes_of};
ghost use Rattle.pnm.specs.Pnm.{greatest, sample_bytes};

use px::{Depth, WHITE};
use std::alloc::{AllocError, Global};

// One byte a value.
fn set_eight(values: &[u32], bytes: &mut [u8])
    requires { length values.now ≡ length bytes.old }
    ensures { bytes.new ≡ flat_map (sample_bytes Eight) values.now }
{
    for k in 0..values.len() {
        bytes[k] = (values[k].min(WHITE) / 257) as u8;
    }
}

// Two bytes a value, the most significant one first.
fn set_sixteen(values: &[u32], bytes: &mut [u8])
    requires { length bytes.old ≡ length values.now * 2 }
    ensures { bytes.new ≡ flat_map (sample_bytes Sixteen) values.now }
{
    for k in 0..values.len() {
        let sample = values[k].min(WHITE);
        bytes[k * 2] = (sample / 256) as u8;
        bytes[k * 2 + 1] = (sample % 256) as u8;
    }
}

// How many bytes a written sample has.
pub(crate) fn sample_size(depth: Depth) -> usize
    ensures size { result ≡ bytes_of depth }
    ensures small { result ≤ 2 }
{
    match depth {
        Depth::Eight => 1,
        Depth::Sixteen => 2,
    }
}

// The bytes of values.
pub(crate) fn set_values(depth: Depth, values: &[u32], bytes: &mut [u8])
    requires { length bytes.old ≡ length values.now * bytes_of depth }
    ensures { bytes.new ≡ flat_map (sample_bytes depth) values.now }
{
    match depth {
        Depth::Eight => set_eight(values, bytes),
        Depth::Sixteen => set_sixteen(values, bytes),
    }
}

// The greatest sample of a depth.
pub(crate) fn greatest(depth: Depth) -> u32
    ensures { result ≡ greatest depth }
{
    match depth {
        Depth::Eight => 255,
        Depth::Sixteen => 65_535,
    }
}

// So many bytes, not written yet.
pub(crate) fn blank(alloc: Global, count: usize) -> Result<Vec<u8>, AllocError>
    ensures { IfOk result (λ v. length v.items ≡ count) }
{
    vec![in alloc; 0u8; count]
}
