//! The handle of C for a trace that was read. All zeros is none.

ghost use Rattle.std.specs.Prelude.{◌≡◌, None, Some, is_some, option_map};
ghost use Rattle.std.specs.declared.alloc.Global.{Global};
ghost use Rattle.std.specs.declared.boxed.Box.{Box};
ghost use Rattle.pct_c.specs.declared.kept.Kept.{Kept};

use crate::held::Held;
use crate::kept::Kept;
use crate::loose::Loose;
use std::alloc::Global;

/// A trace that C holds, or none.
#[repr(C)]
pub struct PctTrace {
    full: bool,
    pub held: Held,
    ghost same: { full ≡ is_some held.value },
}

impl PctTrace {
    pub fn empty(alloc: Global) -> PctTrace
        ensures { result.held.value ≡ None }
    {
        PctTrace {
            full: false,
            held: Held::empty(alloc),
        }
    }

    pub fn of(kept: Box<Kept, Global>) -> PctTrace
        ensures { result.held.value ≡ Some kept.value }
    {
        PctTrace {
            full: true,
            held: Held::of_loose(Loose::of(kept)),
        }
    }

    pub fn into_box(self) -> Option<Box<Kept, Global>>
        ensures { option_map (λ (b : Box Kept Global). b.value) result ≡ self.held.value }
    {
        let PctTrace { full, held } = self;
        if full {
            Some(held.into_loose().into_box())
        } else {
            None
        }
    }
}

impl Drop for PctTrace {
    fn drop(self) {
        drop(self.into_box());
    }
}
