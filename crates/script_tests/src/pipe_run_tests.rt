ghost use Rattle.std.specs.Prelude.{◌≡◌, ◌<◌, IfOk};
ghost use Rattle.px.specs.declared.kind.PlaneKind.TheVariants.{Rgb};
ghost use Rattle.px.specs.Cut.{IsWhole};

use history::{History, Kinds};
use modules_raw::Source;
use pipe_nodes::{Show, Steps, Window};
use pipe_run::{plan, run};
use pipe_sync::Nodes;
use px::{Depth, Plane, Region, View};
use std::alloc::{AllocError, Global};
use std::marker::Brand;
use std::sync::Arc;
use std::sync::ledger::{Blank, Ledger};
use std::test::Fail;
use std::thread::Threads;

const ALL: Kinds = Kinds {
    top: true,
    synch: true,
    remove: true,
    zoomed: true,
};

// The lower right corner of a picture of 7 by 5 pixels, by a third.
const CORNER: Show = Show {
    level: 0,
    window: Window::View(View {
        factor: 3,
        cx: 65_536,
        cy: 65_536,
        w: 2,
        h: 2,
    }),
    depth: Depth::Eight,
};

// 7 by 5 pixels, each of which counts 7 times its row and its column.
const COUNTING: &[u8] =
    b"P5\n7 5\n255\n\x00\x01\x02\x03\x04\x05\x06\x07\x08\x09\x0a\x0b\x0c\x0d\x0e\x0f\x10\x11\x12\x13\x14\x15\x16\x17\x18\x19\x1a\x1b\x1c\x1d\x1e\x1f\x20\x21\x22";

// The planned regions and the picture of a run of the start history, in a ledger of its own.
fn shown<R: Threads + Sync, L: Ledger>(
    rt: &R,
    alloc: Global,
    plane: Plane,
    blank: Blank,
) -> Result<(Vec<Region>, Plane), AllocError>
    requires whole { IsWhole plane }
    requires name { blank.name ≡ L.name }
    requires parts { blank.parts ≡ L.parts }
    requires some { 0 < blank.parts }
    ensures whole { IfOk result (λ shown. IsWhole shown.1) }
    ensures rgb { IfOk result (λ shown. shown.1.kind ≡ Rgb) }
{
    let mut steps = Steps::<L>::start(blank);
    let mut nodes = Nodes::empty(alloc);
    let history = History::start(alloc)?;
    nodes.sync(alloc, &history, ALL, &mut steps)?;
    let source = Arc::new(alloc, Source::of(plane))?;
    let regions = plan(alloc, nodes.pieces(), &source, &CORNER)?;
    let shown = run(rt, alloc, &source, nodes.pieces(), &CORNER, &mut steps)?;
    Ok((regions, shown))
}

// The scaled picture is 3 by 2. Its second and third column come from columns 3 to 6, and demosaic needs
// one column more. Their means are 11, 13, 28.5 and 30.5.
#[test]
fn a_run_makes_the_regions_that_a_view_needs(rt: HostRuntime) -> Result<(), Fail> {
    let alloc = rt.alloc();
    let plane = pnm::read(alloc, COUNTING, None)?;
    let (regions, plane) = shown::<_, Brand>(&rt, alloc, plane, Blank::new(1))?;
    let input = Region {
        x: 2,
        y: 0,
        w: 5,
        h: 5,
    };
    let output = Region {
        x: 3,
        y: 0,
        w: 4,
        h: 5,
    };
    assert_eq!(rt; regions.as_slice(), [input, output].as_slice());
    let bytes = pnm::write(alloc, &plane, Depth::Eight)?;
    assert_eq!(rt;
        bytes.as_slice(),
        b"P6\n2 2\n255\n\x0b\x0b\x0b\x0d\x0d\x0d\x1c\x1c\x1c\x1e\x1e\x1e".as_slice()
    );
    Ok(())
}
