ghost use Rattle.std.specs.Prelude.{ℕ, Bool, List, Option};
ghost use Rattle.std.specs.Coded.{coded_ℕ, coded_list, coded×, coded_option};
ghost use Rattle.std.specs.Borrow.{ftrue};

use std::marker::{Model, PhantomData};

// What a seat at the table knows. No value of it is made.
pub struct View<N, E> {
    of: PhantomData<(N, E)>,
    // False once a join has spent it.
    pub ghost live: { Bool },
    pub ghost number: { ℕ },
    pub ghost name: { Option N } by { coded_option N.code },
    // The longest story that it has seen, and the elements that it added.
    pub ghost seen: { List E } by { coded_list E.code },
    pub ghost own: { List E } by { coded_list E.code },
    // The greatest mark that it has seen.
    pub ghost mark: { ℕ },
    // Its turns, its loads of the mark, and what the last of these found.
    pub ghost turns: { ℕ },
    pub ghost loads: { ℕ },
    pub ghost loaded: { ℕ },
    // Its ticket, whether it waits or has its turn.
    pub ghost ticket: { Option ℕ } by { coded_option coded_ℕ },
    // Its turn is out, and it has the slot.
    pub ghost out: { Bool },
    // The word that says who is served has reached this.
    pub ghost past: { ℕ },
    // Of number 0: how many seats there are, and of each seat that was joined its number, and what it had seen and added.
    pub ghost count: { ℕ },
    pub ghost kept: { List (ℕ × (List E × List E)) } by { coded_list (coded× coded_ℕ (coded× (coded_list E.code) (coded_list E.code))) },
}

impl<N, E> Model for View<N, E> {
    ghost also_owns = { λ _. ftrue };
}
