// The faults of what is read, each at its step.
ghost use Rattle.std.specs.Prelude.{◌≡◌};
ghost use Rattle.edit_steps.specs.declared.fault.ScriptEnd.TheVariants.{Fault};
ghost use Rattle.history.specs.Faults.{of_order};
ghost use Rattle.edit_script.specs.Script.{fault_at};
ghost use Rattle.edit_script.specs.Reads.{end_at};

use crate::form_end::FormEnd;
use edit_steps::{Reason, ScriptEnd, ScriptFault};
use history::EditFault;
use module_order::OrderFault;

// The fault at a step, or at 0 for all that isn't a step.
pub(crate) fn fault_at(step: u32, reason: Reason) -> ScriptFault
    ensures { result ≡ fault_at step reason }
{
    ScriptFault { step, reason }
}

// Why nothing was read where a form was asked for.
pub(crate) fn end_at(step: u32, end: FormEnd) -> ScriptEnd
    ensures { result ≡ end_at step end }
{
    match end {
        FormEnd::Form => ScriptEnd::Fault(fault_at(step, Reason::Form)),
        FormEnd::Memory => ScriptEnd::Memory,
    }
}

// A fault of the order list, as an edit's.
pub(crate) fn of_order(fault: OrderFault) -> EditFault
    ensures { result ≡ of_order fault }
{
    match fault {
        OrderFault::Full => EditFault::TooManyInstances,
        OrderFault::Rule => EditFault::OrderRule,
        OrderFault::Fixed => EditFault::FixedModule,
        OrderFault::Taken => EditFault::InstanceTaken,
        OrderFault::Missing => EditFault::NoInstance,
    }
}
