// The rule of the table, and the names of its steps.
ghost use Rattle.turn_lock.specs.Rule.{Kept, opener, spent};
ghost use Rattle.turn_lock.specs.Steps.{dealer, dealt, joined, Drawn, Looked, Raised, Served, ReadMark};

use crate::told::Told;
use crate::view::View;
use atomic_table::{Join, Play, Split, TableRule};

pub struct Order;

impl<T: Told> TableRule<Option<T>, View<T::Name, T::Entry>, T> for Order {
    ghost holds = { λ key. Kept T.name T.story T.bearer T.mark T.most (T.name key) };

    ghost first = { λ key. opener (T.name key) };
}

pub struct Deal;

impl<N, E> Split<View<N, E>> for Deal {
    ghost left = { dealer };

    ghost right = { dealt };
}

pub struct Gather;

impl<N, E> Join<View<N, E>> for Gather {
    ghost both = { joined };

    ghost spent = { spent };
}

pub struct Draw;

impl<T, N, E> Play<Option<T>, View<N, E>> for Draw {
    ghost then = { Drawn };
}

pub struct Look;

impl<T: Told> Play<Option<T>, View<T::Name, T::Entry>> for Look {
    ghost then = { Looked T.name T.story T.bearer T.mark };
}

pub struct Raise;

impl<T, N, E> Play<Option<T>, View<N, E>> for Raise {
    ghost then = { Raised };
}

pub struct Serve;

impl<T: Told> Play<Option<T>, View<T::Name, T::Entry>> for Serve {
    ghost then = { Served T.story };
}

pub struct ReadsMark;

impl<T: Told> Play<Option<T>, View<T::Name, T::Entry>> for ReadsMark {
    ghost then = { ReadMark T.most };
}
