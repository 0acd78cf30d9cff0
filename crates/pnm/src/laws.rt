//! What writing and reading have to do with each other.
ghost use Rattle.std.specs.Prelude.{◌≡◌, ℕ, ◌*◌, ◌<◌, ◌≤◌, ◌++◌, List, Option};
ghost use Rattle.px.specs.declared.depth.Depth.TheVariants.{Sixteen};
ghost use Rattle.px.specs.declared.kind.Cfa.{Cfa};
ghost use Rattle.px.specs.declared.kind.PlaneKind.TheVariants.{Rgb};
ghost use Rattle.px.specs.Picture.{Picture};
ghost use Rattle.pnm.specs.Pnm.{IsPicture, written, whitened};

/// What a picture is written as at a depth of 16 bits is the picture with each value cut at white,
/// whatever follows it. So `read` gives that picture again. This call does nothing.
pub fn written_is_read()
    ensures { (q : Picture) (cfa : Option Cfa) (rest : List ℕ) → q.kind ≡ Rgb → 0 < q.w → q.w ≤ 16384 → 0 < q.h → q.h ≤ 16384 → q.w * q.h ≤ 25165824
        → IsPicture (written q Sixteen ++ rest) cfa (whitened q) }
{}
