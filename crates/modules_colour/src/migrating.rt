ghost use Rattle.std.specs.Prelude.{◌≡◌};
ghost use Rattle.params.specs.Ranges.{IsOldWithin, IsWithin, migrated};
ghost use Rattle.modules_colour.specs.Old.{MeansTheSame};

use params::{OldParams, Params, migrate};

/// The settings that an old version's become. On every picture, of whichever level, they mean what the
/// old ones meant.
pub fn migrate_same(old: &OldParams) -> Params
    requires within { IsOldWithin old.now }
    ensures value { result ≡ migrated old.now }
    ensures within { IsWithin result }
    ensures same { MeansTheSame old.now result }
{
    migrate(old)
}
