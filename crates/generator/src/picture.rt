//! The picture: a mosaic of drawn samples.
ghost use Rattle.std.specs.Prelude.{◌≡◌, IfOk, OnOk};
ghost use Rattle.generator.specs.Draws.{number_at};
ghost use Rattle.generator.specs.Picture.{samples, gen_picture, number_behind};

use crate::draws::Draws;
use modules_raw::Source;
use px::{Cfa, Plane, PlaneKind, Region};
use std::alloc::{AllocError, Global};

/// The sides of the picture: columns, then rows.
pub(crate) const SIDES: (u32, u32) = (1024, 768);

/// How many samples the picture has.
pub(crate) const SAMPLES: usize = 786_432;

// The first samples, each of 10 bits.
#[tactic(auto, using(crate::proofs::DrawLemmas::number_start, crate::proofs::DrawLemmas::number_more, crate::proofs::DrawLemmas::samples_start, crate::proofs::DrawLemmas::samples_more))]
fn samples(alloc: Global, draws: &mut Draws, count: usize) -> Result<Vec<u32>, AllocError>
    ensures samples { IfOk result (λ v. v.items ≡ samples draws.old.number count) }
    ensures draws { OnOk result (draws.new.number ≡ number_at draws.old.number count) }
{
    let mut values = Vec::with_capacity(alloc, count)?;
    for _i in 0..count {
        values.push(draws.next() % 1024)?;
    }
    Ok(values)
}

/// The picture of the first draws.
pub(crate) fn picture(alloc: Global, draws: &mut Draws) -> Result<Source, AllocError>
    ensures picture { IfOk result (λ s. s ≡ gen_picture draws.old.number) }
    ensures draws { OnOk result (draws.new.number ≡ number_behind draws.old.number) }
{
    let (w, h) = SIDES;
    let values = samples(alloc, draws, SAMPLES)?;
    let plane = Plane::from_rows(
        PlaneKind::Mosaic(Cfa::Rggb),
        w,
        h,
        Region::whole(w, h),
        values,
    );
    Ok(Source::of(plane))
}
