use params::ParamFault;
use thiserror::Error;

/// Why an edit is refused, or why items, an end and an order are no history.
#[derive(Clone, Copy, Debug, PartialEq, Eq, Hash, Error)]
pub enum EditFault {
    #[error("the module takes no such edit")]
    FixedModule,
    #[error("the instance does not stand in the order")]
    NoInstance,
    #[error("a value is out of its range: {0}")]
    BadParams(ParamFault),
    #[error("the end is past the items")]
    EndPast,
    #[error("the instance stands in the order already")]
    InstanceTaken,
    #[error("the order has 64 instances")]
    TooManyInstances,
    #[error("the place is not open to this instance")]
    OrderRule,
}
