//! The settings, and the history that the script begins with.
ghost use Rattle.std.specs.Prelude.{◌≡◌, IfOk};
ghost use Rattle.edit_steps.specs.Ranges.{IsSettings, IsOpening};
ghost use Rattle.module_order.specs.Slot.{start_slots};
ghost use Rattle.generator.specs.Script.{gen_settings, gen_opening, item_of, raw_params, temperature_params, opening_items};

use edit_steps::Settings;
use history::{History, Item};
use module_order::Order;
use params::{Blend, Params, RawPrepare, Temperature};
use px::{Cfa, Depth, View};
use std::alloc::{AllocError, Global};

pub(crate) fn settings() -> Settings
    ensures settings { result ≡ gen_settings }
    ensures within { IsSettings result }
{
    Settings {
        cfa: Some(Cfa::Rggb),
        depth: Depth::Eight,
        preview_side: 256,
        workers: 2,
        stage_entries: 8,
        stage_pixels: 1_048_576,
        mip_slots: 1,
        undo_depth: 32,
        view: View {
            factor: 1,
            cx: 32_768,
            cy: 32_768,
            w: 320,
            h: 240,
        },
        second: None,
    }
}

/// Instance 0 of a module, enabled.
pub(crate) fn item_of(params: Params, blend: Option<Blend>) -> Item
    ensures { result ≡ item_of params blend }
{
    Item {
        instance: 0,
        enabled: true,
        params,
        blend,
    }
}

fn raw_prepare() -> Params
    ensures { result ≡ raw_params }
{
    Params::RawPrepare(RawPrepare {
        black: [64, 64, 64],
        white: 1023,
    })
}

fn temperature() -> Params
    ensures { result ≡ temperature_params }
{
    Params::Temperature(Temperature {
        mul: [8192, 4096, 6144],
    })
}

// The history of the opening items, over the start order.
fn history_of(items: Vec<Item>, order: Order) -> History
    requires items { items.items ≡ opening_items }
    requires order { order ≡ start_slots }
    ensures opening { result ≡ gen_opening }
    ensures within { IsOpening result }
{
    let Ok(history) = History::of(items, 2, order) else {
        unreachable!()
    };
    history
}

/// Raw preparation and temperature, over the start order.
pub(crate) fn opening(alloc: Global) -> Result<History, AllocError>
    ensures opening { IfOk result (λ h. h ≡ gen_opening) }
    ensures within { IfOk result IsOpening }
{
    let mut items = Vec::with_capacity(alloc, 2)?;
    items.push(item_of(raw_prepare(), None))?;
    items.push(item_of(temperature(), None))?;
    let order = Order::start(alloc)?;
    Ok(history_of(items, order))
}
