ghost use Rattle.std.specs.Prelude.{ℕ, List, Bool};
ghost use Rattle.std.specs.Borrow.{ftrue};
ghost use Rattle.turn_book.specs.Told.{BookState};
ghost use Rattle.turn_lock.specs.Slots.{Slot};

use std::marker::Model;

/// What a seat knows. No value of it is made.
pub struct View {
    // It was not joined to another.
    pub ghost live: { Bool },
    // Of each thread, whether the seat serves it.
    pub ghost serves: { List Bool },
    // The book when this seat last gave it back.
    pub ghost seen: { BookState },
    // The holders that its own failed exchanges have read.
    pub ghost turned: { List ℕ },
    // How many of its own exchanges took the lock.
    pub ghost takes: { ℕ },
    // It holds the lock.
    pub ghost held: { Bool },
    // The slot that it took, while it holds the lock.
    pub ghost base: { Slot },
    // What the two seats of its last join had seen, and which threads they served.
    pub ghost left: { BookState },
    pub ghost right: { BookState },
    pub ghost left_had: { List Bool },
    pub ghost right_had: { List Bool },
}

impl Model for View {
    ghost also_owns = { λ _. ftrue };
}
