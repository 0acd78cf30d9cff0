ghost use Rattle.std.specs.Prelude.{◌≡◌, Some};
ghost use Rattle.params.specs.Names.{name_of_module, module_named, number_of};
ghost use Rattle.params.specs.Ranges.{blends, takes_item, newest_of};
ghost use Rattle.params.specs.Seen.{module_seen};
ghost use Rattle.params.specs.Table.{module_row, row_of, all_modules};

use crate::row::Cell;
use crate::rows;

/// What edits a picture. A module instance is one of these with a number that tells instances apart. The
/// first eight stand in the start order.
#[derive(Clone, Copy, Debug, PartialEq, Eq, Hash)]
pub enum Module {
    RawPrepare,
    Temperature,
    Demosaic,
    Orientation,
    Crop,
    Exposure,
    ChannelMixer,
    ToneCurve,
    BoxBlur,
    Sharpen,
}

/// The modules, by their numbers.
pub const MODULES: [Module; 10] = [
    Module::RawPrepare,
    Module::Temperature,
    Module::Demosaic,
    Module::Orientation,
    Module::Crop,
    Module::Exposure,
    Module::ChannelMixer,
    Module::ToneCurve,
    Module::BoxBlur,
    Module::Sharpen,
];

/// What is known of a module: its number, its name in scripts, the newest version of its settings,
/// whether its output may be blended with its input, whether a history may have an item of it, and the
/// fields of its settings.
#[derive(Clone, Copy)]
pub(crate) struct ModuleRow {
    pub number: u8,
    pub name: &'static str,
    pub newest: u32,
    pub blends: bool,
    pub takes_item: bool,
    pub cells: &'static [Cell],
}

macro_rules! row {
    ($number:expr, $name:expr, $newest:expr, $blends:expr, $takes_item:expr, $cells:expr) => {
        ModuleRow {
            number: $number,
            name: $name,
            newest: $newest,
            blends: $blends,
            takes_item: $takes_item,
            cells: $cells,
        }
    };
}

impl Module {
    /// The module's row of the table.
    pub(crate) fn row(self) -> ModuleRow
        ensures { module_seen result ≡ module_row self }
    {
        match self {
            Module::RawPrepare => row!(0, "rawprepare", 1, false, true, &rows::RAW_PREPARE),
            Module::Temperature => row!(1, "temperature", 1, false, true, &rows::TEMPERATURE),
            Module::Demosaic => row!(2, "demosaic", 1, false, false, &rows::DEMOSAIC),
            Module::Orientation => row!(3, "orientation", 1, false, true, &rows::ORIENTATION),
            Module::Crop => row!(4, "crop", 1, false, true, &rows::CROP),
            Module::Exposure => row!(5, "exposure", 2, true, true, &rows::EXPOSURE),
            Module::ChannelMixer => row!(6, "channelmixer", 1, true, true, &rows::CHANNEL_MIXER),
            Module::ToneCurve => row!(7, "tonecurve", 2, true, true, &rows::TONE_CURVE),
            Module::BoxBlur => row!(8, "boxblur", 1, true, true, &rows::BOX_BLUR),
            Module::Sharpen => row!(9, "sharpen", 1, true, true, &rows::SHARPEN),
        }
    }

    /// The fields of the module's settings.
    pub(crate) fn cells(self) -> &'static [Cell]
        ensures { result.now ≡ row_of self }
    {
        self.row().cells
    }

    /// The module's place in the list of modules, 0 to 9.
    pub fn number(self) -> u8
        ensures value { result ≡ number_of self }
    {
        self.row().number
    }

    /// The name that scripts give the module.
    #[tactic(auto, using(crate::proofs::NameLemmas::module_again))]
    pub fn name(self) -> &'static str
        ensures value { result.now ≡ name_of_module self }
        ensures found { module_named result.now ≡ Some self }
    {
        self.row().name
    }

    /// Whether the module's output may be blended with its input.
    pub fn blends(self) -> bool
        ensures value { result ≡ blends self }
    {
        self.row().blends
    }

    /// Whether a history may have an item of the module.
    pub fn takes_item(self) -> bool
        ensures value { result ≡ takes_item self }
    {
        self.row().takes_item
    }

    /// The newest version of the module's settings, which is the one that is written.
    pub fn newest(self) -> u32
        ensures value { result ≡ newest_of self }
    {
        self.row().newest
    }
}

/// The module of that name, if there is one.
pub fn module_named(name: &str) -> Option<Module>
    ensures value { result ≡ module_named name.now }
{
    for module in MODULES {
        if name == module.name() {
            return Some(module);
        }
    }
    None
}
