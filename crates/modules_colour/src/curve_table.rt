ghost use Rattle.std.specs.Prelude.{◌≡◌, ◌≤◌, ℕ, IsTrue, IfOk, slice_index, length};
ghost use Rattle.std.specs.Arc.{arc_value};
ghost use Rattle.params.specs.Curve.{IsCurve};
ghost use Rattle.params.specs.Ranges.{IsWithin};
ghost use Rattle.params.specs.declared.settings.Params.TheVariants.{ToneCurve as curve_params};
ghost use Rattle.modules_colour.specs.Curving.{IsTable, AreEntriesOf, IsTableOf};

use crate::channel_table::ChannelTable;
use params::ToneCurve;
use std::alloc::{AllocError, Global};
use std::marker::Model;
use std::sync::Arc;

/// What a tone curve makes of each value of a sample, 0 to `TOP`, in each channel. Channels with the
/// same nodes share one table of 4 MB.
#[derive(Debug, Drop)]
pub struct CurveTable {
    red: Arc<ChannelTable>,
    green: Arc<ChannelTable>,
    blue: Arc<ChannelTable>,
}

impl Model for CurveTable {
    ghost use Rattle.std.specs.Arc.{arc_value};
    ghost use Rattle.modules_colour.specs.Curving.{Tables};

    ghost Value = { Tables };

    ghost view = { λ t. record { red = arc_value t.red; green = arc_value t.green; blue = arc_value t.blue } };
}

// Whether these are the same nodes.
fn are_same(a: &[(u32, u32)], b: &[(u32, u32)]) -> bool
    ensures { IsTrue result → a.now ≡ b.now }
{
    a == b
}

// The table of these nodes: the one that is known, if it has the same nodes, or else a new one.
fn shared_or_made(
    alloc: Global,
    nodes: &[(u32, u32)],
    known_nodes: &[(u32, u32)],
    known: &Arc<ChannelTable>,
) -> Result<Arc<ChannelTable>, AllocError>
    requires curve { IsCurve nodes.now }
    requires known { AreEntriesOf known_nodes.now (arc_value known.now) }
    ensures { IfOk result (λ t. AreEntriesOf nodes.now (arc_value t)) }
{
    if are_same(nodes, known_nodes) {
        return Arc::try_clone(known);
    }
    Ok(Arc::new(alloc, ChannelTable::make(alloc, nodes)?)?)
}

impl CurveTable {
    /// The tables of a tone curve.
    pub fn make(alloc: Global, params: &ToneCurve) -> Result<CurveTable, AllocError>
        requires { IsWithin (curve_params params.now) }
        ensures { IfOk result (IsTableOf params.now) }
    {
        let red = params.red.as_slice();
        let green = params.green.as_slice();
        let blue = params.blue.as_slice();
        CurveTable::of_nodes(alloc, red, green, blue)
    }

    // The tables of the curves through these nodes.
    fn of_nodes(
        alloc: Global,
        red_nodes: &[(u32, u32)],
        green_nodes: &[(u32, u32)],
        blue_nodes: &[(u32, u32)],
    ) -> Result<CurveTable, AllocError>
        requires red { IsCurve red_nodes.now }
        requires green { IsCurve green_nodes.now }
        requires blue { IsCurve blue_nodes.now }
        ensures { IfOk result (λ t. IsTableOf (record { red = red_nodes.now; green = green_nodes.now; blue = blue_nodes.now }) t) }
    {
        let red = Arc::new(alloc, ChannelTable::make(alloc, red_nodes)?)?;
        let green = shared_or_made(alloc, green_nodes, red_nodes, &red)?;
        let blue = if are_same(blue_nodes, green_nodes) {
            Arc::try_clone(&green)?
        } else {
            shared_or_made(alloc, blue_nodes, red_nodes, &red)?
        };
        Ok(CurveTable { red, green, blue })
    }

    /// The entries of red.
    pub(crate) fn red(&self) -> &[u32]
        ensures value { result.now ≡ self.now.red }
        ensures valid { IsTable result.now }
    {
        self.red.entries()
    }

    /// The entries of green.
    pub(crate) fn green(&self) -> &[u32]
        ensures value { result.now ≡ self.now.green }
        ensures valid { IsTable result.now }
    {
        self.green.entries()
    }

    /// The entries of blue.
    pub(crate) fn blue(&self) -> &[u32]
        ensures value { result.now ≡ self.now.blue }
        ensures valid { IsTable result.now }
    {
        self.blue.entries()
    }
}
