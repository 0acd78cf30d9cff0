ghost use Rattle.std.specs.Prelude.{◌≡◌, ◌<◌, ◌∷◌, []};
ghost use Rattle.pipe_nodes.specs.Actives.{demosaic};
ghost use Rattle.pipe_sync.specs.Changed.{changed_places};
ghost use Rattle.script_tests.specs.Exposed.{exposed};

use history::{Edit, History, Item, Kinds};
use params::{Exposure, Module, Params};
use pipe_nodes::Steps;
use pipe_sync::Nodes;
use std::alloc::{AllocError, Global};
use std::marker::Brand;
use std::sync::ledger::{Blank, Ledger};
use std::test::Fail;

const ALL: Kinds = Kinds {
    top: true,
    synch: true,
    remove: true,
    zoomed: true,
};

fn exposure(instance: u8, gain: u32) -> Edit {
    Edit::Set(Item {
        instance,
        enabled: true,
        params: Params::Exposure(Exposure {
            black: 0,
            gain,
            stops: 0,
        }),
        blend: None,
    })
}

fn edit(history: &mut History, alloc: Global, edit: Edit) -> Result<(), AllocError> {
    if history.allowed(&edit).is_ok() {
        let _ = history.apply(alloc, &edit)?;
    }
    Ok(())
}

// The gains of the exposures among the pieces, and how many pieces there are.
fn gains(alloc: Global, nodes: &Nodes) -> Result<(usize, Vec<u32>), AllocError> {
    let mut gains = Vec::new(alloc);
    for piece in nodes.pieces() {
        if let Params::Exposure(exposure) = &piece.active().params {
            gains.push(exposure.gain)?;
        }
    }
    Ok((nodes.pieces().len(), gains))
}

// The gains after an exposure was set, set again, and a second one was set in front of it, in a ledger of
// its own.
fn followed<L: Ledger>(alloc: Global, blank: Blank) -> Result<[(usize, Vec<u32>); 3], AllocError>
    requires name { blank.name ≡ L.name }
    requires parts { blank.parts ≡ L.parts }
    requires some { 0 < blank.parts }
{
    let mut steps = Steps::<L>::start(blank);
    let mut nodes = Nodes::empty(alloc);
    let mut history = History::start(alloc)?;
    edit(&mut history, alloc, exposure(0, 8192))?;
    nodes.sync(alloc, &history, ALL, &mut steps)?;
    let first = gains(alloc, &nodes)?;
    edit(&mut history, alloc, exposure(0, 2048))?;
    nodes.sync(alloc, &history, ALL, &mut steps)?;
    let second = gains(alloc, &nodes)?;
    let add = Edit::Add {
        module: Module::Exposure,
        instance: 1,
        place: 3,
    };
    edit(&mut history, alloc, add)?;
    edit(&mut history, alloc, exposure(1, 4096))?;
    nodes.sync(alloc, &history, ALL, &mut steps)?;
    Ok([first, second, gains(alloc, &nodes)?])
}

// How many commits the same changes allow: two at first, one where the settings alone change, none where
// the view alone does, and two where an instance comes in front.
fn commits()
    ensures first { changed_places [] (demosaic ∷ exposed 0 8192 ∷ []) ≡ 2 }
    ensures second { changed_places (demosaic ∷ exposed 0 8192 ∷ []) (demosaic ∷ exposed 0 2048 ∷ []) ≡ 1 }
    ensures third { changed_places (demosaic ∷ exposed 0 2048 ∷ []) (demosaic ∷ exposed 0 2048 ∷ []) ≡ 0 }
    ensures fourth { changed_places (demosaic ∷ exposed 0 2048 ∷ []) (demosaic ∷ exposed 1 4096 ∷ exposed 0 2048 ∷ []) ≡ 2 }
{}

#[test]
fn the_pieces_follow_the_history(rt: HostRuntime) -> Result<(), Fail> {
    commits();
    let alloc = rt.alloc();
    let [first, second, third] = followed::<Brand>(alloc, Blank::new(1))?;
    assert_eq!(rt; first.0, 2);
    assert_eq!(rt; first.1.as_slice(), [8192].as_slice());
    assert_eq!(rt; second.0, 2);
    assert_eq!(rt; second.1.as_slice(), [2048].as_slice());
    assert_eq!(rt; third.0, 3);
    assert_eq!(rt; third.1.as_slice(), [4096, 2048].as_slice());
    Ok(())
}
