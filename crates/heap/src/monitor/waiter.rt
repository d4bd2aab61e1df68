//! Members of wait sets.

use std::marker::Model;

/// A thread in a wait set, with the count of its entries (JLS 17.2.1).
#[derive(Clone, Copy)]
pub struct Waiter {
    pub thread: u16,
    pub count: u32,
}

impl Model for Waiter {
    ghost use Rattle.model.specs.State.{Waiter as Member};

    ghost Value = { Member };

    ghost view = { λ w. record { thread = w.thread; count = w.count } };

    ghost inverse = { λ w. record { thread = w.thread; count = w.count } };
}
