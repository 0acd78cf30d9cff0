use thiserror::Error;

/// Why a list of slots is no order, or a change of an order is refused.
#[derive(Clone, Copy, Debug, PartialEq, Eq, Hash, Error)]
pub enum OrderFault {
    #[error("the order has 64 slots")]
    Full,
    #[error("the place is not open to this slot")]
    Rule,
    #[error("the module stands at a fixed place")]
    Fixed,
    #[error("the instance stands in the order already")]
    Taken,
    #[error("the instance does not stand in the order")]
    Missing,
}
