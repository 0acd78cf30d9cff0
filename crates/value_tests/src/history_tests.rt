use history::{Edit, EditFault, History, Item, Kind};
use module_order::Slot;
use params::{ChannelMixer, Exposure, Module, Nodes20, Params, Temperature, ToneCurve};
use std::alloc::{AllocError, Global};
use std::test::Fail;

fn item(instance: u8, params: Params) -> Item {
    Item {
        instance,
        enabled: true,
        params,
        blend: None,
    }
}

fn exposure(instance: u8, gain: u32) -> Item {
    let exposure = Exposure {
        black: 0,
        gain,
        stops: 0,
    };
    item(instance, Params::Exposure(exposure))
}

fn mixer() -> Item {
    let rows = [4096, 0, 0, 0, 4096, 0, 0, 0, 4096];
    item(0, Params::ChannelMixer(ChannelMixer { rows }))
}

fn temperature() -> Item {
    let mul = [4096, 4096, 4096];
    item(0, Params::Temperature(Temperature { mul }))
}

fn curve() -> Result<Item, Fail> {
    let line = Nodes20::of(&[(0, 0), (1_048_575, 1_048_575)]).ok_or("too many nodes")?;
    let curve = ToneCurve {
        red: line,
        green: line,
        blue: line,
    };
    Ok(item(0, Params::ToneCurve(curve)))
}

// Module, instance and, of an exposure, gain.
fn shown(item: &Item) -> (Module, u8, u32) {
    match &item.params {
        Params::Exposure(exposure) => (Module::Exposure, item.instance, exposure.gain),
        params => (params.module(), item.instance, 0),
    }
}

// Whether the history has these items and this end.
fn is_shown(history: &History, items: &[(Module, u8, u32)], end: u32) -> bool {
    history.end() == end && history.items().iter().map(shown).eq(items.iter().copied())
}

// Applies the edit where it is allowed.
fn try_edit(
    alloc: Global,
    history: &mut History,
    edit: &Edit,
) -> Result<Result<Kind, EditFault>, AllocError> {
    if let Err(fault) = history.allowed(edit) {
        return Ok(Err(fault));
    }
    Ok(Ok(history.apply(alloc, edit)?))
}

// The same for an edit that may have failed to be made.
fn try_made(
    alloc: Global,
    history: &mut History,
    made: Result<Edit, Fail>,
) -> Result<Result<Kind, EditFault>, Fail> {
    match made {
        Ok(edit) => Ok(try_edit(alloc, history, &edit)?),
        Err(fail) => Err(fail),
    }
}

fn setting_edit(step: usize) -> Result<Edit, Fail> {
    Ok(match step {
        0 => Edit::Set(exposure(0, 8192)),
        1 => Edit::Set(mixer()),
        2 => Edit::Set(curve()?),
        3 => Edit::Select { end: 1 },
        4 => Edit::Set(exposure(0, 2048)),
        5 => Edit::Set(temperature()),
        6 => Edit::Set(exposure(0, 4096)),
        _ => Edit::Compress,
    })
}

#[test]
fn eight_edits_make_these_kinds_and_items(rt: HostRuntime) -> Result<(), Fail> {
    let alloc = rt.alloc();
    let mut history = History::start(alloc)?;
    for step in 0..8 {
        let kind = if step == 4 { Kind::Top } else { Kind::Synch };
        assert_eq!(rt;
            try_made(alloc, &mut history, setting_edit(step))?,
            Ok(kind),
            "{step}"
        );
        if step == 4 {
            assert!(rt; is_shown(&history, &[(Module::Exposure, 0, 2048)], 1));
        }
    }
    let last = [(Module::Temperature, 0, 0), (Module::Exposure, 0, 4096)];
    assert!(rt; is_shown(&history.copy(alloc)?, &last, 2));
    Ok(())
}

fn instance_edit(step: usize) -> Result<Edit, Fail> {
    let module = Module::Exposure;
    Ok(match step {
        0 => Edit::Set(exposure(0, 8192)),
        1 => Edit::Set(curve()?),
        2 => Edit::Add {
            module,
            instance: 1,
            place: 6,
        },
        3 => Edit::Set(exposure(1, 256)),
        4 => Edit::Select { end: 2 },
        5 => Edit::Delete {
            module,
            instance: 0,
        },
        _ => Edit::Move {
            module,
            instance: 1,
            place: 3,
        },
    })
}

#[test]
fn a_deleted_instance_takes_its_items_along(rt: HostRuntime) -> Result<(), Fail> {
    let alloc = rt.alloc();
    let mut history = History::start(alloc)?;
    let (synch, remove) = (Kind::Synch, Kind::Remove);
    let kinds = [synch, synch, remove, synch, synch, remove, remove];
    for (step, kind) in kinds.iter().enumerate() {
        assert_eq!(rt;
            try_made(alloc, &mut history, instance_edit(step))?,
            Ok(*kind),
            "{step}"
        );
    }
    let last = [(Module::ToneCurve, 0, 0), (Module::Exposure, 1, 256)];
    assert!(rt; is_shown(&history, &last, 1));
    let added = Slot {
        module: 5,
        instance: 1,
    };
    assert_eq!(rt; history.order().place(added), Some(3));
    assert!(rt; history.allowed(&Edit::Set(exposure(1, 65_537))).is_err());
    Ok(())
}
