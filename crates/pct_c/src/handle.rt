//! The handles of C: a book, and a trace that was read. All zeros is none.

ghost use Rattle.std.specs.Prelude.{◌≡◌, None, Some, is_some, option_map};
ghost use Rattle.std.specs.declared.alloc.Global.{Global};
ghost use Rattle.std.specs.declared.boxed.Box.{Box};
ghost use Rattle.pct_c.specs.declared.kept.Kept.{Kept};

use crate::held::Held;
use crate::kept::Kept;
use crate::loose::Loose;
use std::alloc::Global;

/// A book that C holds, or none.
#[repr(C)]
pub struct PctBook {
    full: bool,
    pub held: Held,
    ghost same: { full ≡ is_some held.value },
}

impl PctBook {
    pub fn empty(alloc: Global) -> PctBook
        ensures { result.held.value ≡ None }
    {
        PctBook {
            full: false,
            held: Held::empty(alloc),
        }
    }

    pub fn of(kept: Box<Kept, Global>) -> PctBook
        ensures { result.held.value ≡ Some kept.value }
    {
        PctBook {
            full: true,
            held: Held::of_loose(Loose::of(kept)),
        }
    }

    pub fn into_box(self) -> Option<Box<Kept, Global>>
        ensures { option_map (λ (b : Box Kept Global). b.value) result ≡ self.held.value }
    {
        let PctBook { full, held } = self;
        if full {
            Some(held.into_loose().into_box())
        } else {
            None
        }
    }
}

impl Drop for PctBook {
    fn drop(self) {
        drop(self.into_box());
    }
}

/// Takes what may be handed from thread to thread.
fn cross<T: Send + Drop>(value: T) {
    drop(value);
}

/// A book may be handed from thread to thread: proved, this says it.
pub fn let_book_cross(book: PctBook) {
    cross(book);
}
