//! Settings of old versions, and those that mean the same today.
ghost use Rattle.std.specs.Prelude.{◌≡◌, ◌↔◌, IsOk};
ghost use Rattle.params.specs.Ranges.{IsWithin, IsOldWithin, check_old_of, migrated, version_of, old_version};
ghost use Rattle.params.specs.Table.{old_row_of};

use crate::fault::ParamFault;
use crate::modules::Module;
use crate::nodes::Nodes20;
use crate::row::Cell;
use crate::row_fault::row_fault;
use crate::rows::{EXPOSURE_1, TONE_CURVE_1};
use crate::settings::{Exposure, Params, ToneCurve};
use crate::to_parts::old_parts_of;

/// A version of a module's settings that isn't the newest.
#[derive(Clone, Copy)]
pub(crate) enum OldVersion {
    Exposure1,
    ToneCurve1,
}

impl OldVersion {
    /// The fields of settings of this version.
    pub fn row(self) -> &'static [Cell]
        ensures { result.now ≡ old_row_of self }
    {
        match self {
            OldVersion::Exposure1 => &EXPOSURE_1,
            OldVersion::ToneCurve1 => &TONE_CURVE_1,
        }
    }
}

/// The old version of a module's settings, if it is one.
pub(crate) fn old_version(module: Module, version: u32) -> Option<OldVersion>
    ensures { result ≡ old_version «module» version }
{
    match (module, version) {
        (Module::Exposure, 1) => Some(OldVersion::Exposure1),
        (Module::ToneCurve, 1) => Some(OldVersion::ToneCurve1),
        _ => None,
    }
}

/// Settings of version 1 of the two modules that have a version 2. `Exposure1` has the first two fields
/// of an exposure and their ranges; `ToneCurve1` has one list of nodes for all channels.
#[derive(Clone, Copy, Debug, PartialEq, Eq, Hash)]
pub enum OldParams {
    Exposure1 { black: i32, gain: u32 },
    ToneCurve1 { nodes: Nodes20 },
}

impl OldParams {
    /// Which version of which module the settings are.
    pub(crate) fn version(&self) -> OldVersion
        ensures { result ≡ version_of self.now }
    {
        match self {
            OldParams::Exposure1 { .. } => OldVersion::Exposure1,
            OldParams::ToneCurve1 { .. } => OldVersion::ToneCurve1,
        }
    }
}

/// Holds settings of an old version to their old ranges: the fault is the first number, in the order of
/// the old fields, that lies outside its range.
#[tactic(auto, using(crate::proofs::WithinLemmas::old_tells))]
pub fn check_old(old: &OldParams) -> Result<(), ParamFault>
    ensures value { result ≡ check_old_of old.now }
    ensures within { IsOk result ↔ IsOldWithin old.now }
{
    row_fault(old.version().row(), old_parts_of(old).as_slice())
}

/// The settings of today that mean the same: an exposure of no stops, and a curve of the same nodes for
/// each channel. No memory is taken.
#[tactic(auto, using(crate::proofs::OldLemmas::migrated_within))]
pub fn migrate(old: &OldParams) -> Params
    requires within { IsOldWithin old.now }
    ensures value { result ≡ migrated old.now }
    ensures within { IsWithin result }
{
    match old {
        OldParams::Exposure1 { black, gain } => Params::Exposure(Exposure {
            black: *black,
            gain: *gain,
            stops: 0,
        }),
        OldParams::ToneCurve1 { nodes } => Params::ToneCurve(ToneCurve {
            red: *nodes,
            green: *nodes,
            blue: *nodes,
        }),
    }
}
