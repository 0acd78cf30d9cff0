ghost use Rattle.std.specs.Prelude.{◌≡◌, IfOk};
ghost use Rattle.params.specs.Names.{number_of};
ghost use Rattle.module_order.specs.Slot.{slot};

use module_order::Slot;
use params::{Blend, Module, Params};
use std::alloc::{AllocError, Global};

/// The settings of a module instance as one edit left them: whether it is enabled, its parameters, and
/// how its output is blended with its input, if it is.
#[derive(Clone, Copy, Debug, PartialEq, Eq)]
pub struct Item {
    pub instance: u8,
    pub enabled: bool,
    pub params: Params,
    pub blend: Option<Blend>,
}

impl Item {
    ghost use Rattle.history.specs.Item.{slot_of};
    ghost use Rattle.params.specs.Ranges.{module_of};

    /// The module, which the parameters tell.
    pub fn module(&self) -> Module
        ensures { result ≡ module_of self.now.params }
    {
        self.params.module()
    }

    /// The instance's slot in the order.
    pub fn slot(&self) -> Slot
        ensures { result ≡ slot_of self.now }
    {
        slot_at(self.params.module(), self.instance)
    }

    /// The same item once more.
    pub fn copy(&self, alloc: Global) -> Result<Item, AllocError>
        ensures { IfOk result (λ item. item ≡ self.now) }
    {
        Ok(Item {
            instance: self.instance,
            enabled: self.enabled,
            params: params::copy(alloc, &self.params)?,
            blend: self.blend,
        })
    }
}

// The slot of a module's instance.
pub(crate) fn slot_at(module: Module, instance: u8) -> Slot
    ensures { result ≡ slot (number_of «module») instance }
{
    Slot {
        module: module.number(),
        instance,
    }
}
