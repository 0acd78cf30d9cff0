// The table that the passes share. Word 0 is the next ticket, word 1 the ticket that is served, and word 2 the mark.
// Its one slot holds the value while no turn is out.
use crate::plays::Order;
use crate::told::Told;
use crate::view::View;
use atomic_table::{Seat, Shared};
use std::alloc::Global;

pub(crate) type Place<T> = Seat<Option<T>, View<<T as Told>::Name, <T as Told>::Entry>>;

pub(crate) type Board<T> = Shared<Option<T>, View<<T as Told>::Name, <T as Told>::Entry>, T, Order>;

pub(crate) type Table<T> = atomic_table::Table<
    Option<T>,
    View<<T as Told>::Name, <T as Told>::Entry>,
    T,
    Order,
    Global,
>;

pub(crate) const TICKETS: usize = 0;

pub(crate) const SERVING: usize = 1;

pub(crate) const MARKED: usize = 2;
