//! A boxed value that C holds, as its pointer.
ghost use Rattle.std.specs.Prelude.{◌≡◌, Some, None, IsSome, Option};
ghost use Rattle.pct_c.specs.HeldBoxes.{held_owns, kept_coded};
ghost use Rattle.pct_c.specs.declared.kept.Kept.{Kept};

use crate::kept::Kept;
use crate::loose::Loose;
use std::alloc::Global;
use std::marker::Model;
use std::ptr;

#[repr(C)]
#[derive(Drop)]
pub struct Held {
    at: *mut u8,
    alloc: Global,
    pub ghost value: { Option Kept } by { kept_coded },
}

impl Model for Held {
    ghost also_owns = { λ h. held_owns h.alloc h.at h.value };
}

impl Held {
    /// A holder that owns nothing.
    pub fn empty(alloc: Global) -> Held
        ensures { result.value ≡ None }
    {
        Held {
            at: ptr::null_mut(),
            alloc,
        }
    }

    pub fn of_loose(loose: Loose<Kept, Global>) -> Held
        ensures { result.value ≡ Some loose.value }
    {
        let Loose { ptr, alloc } = loose;
        Held {
            at: ptr as *mut u8,
            alloc,
        }
    }

    pub fn into_loose(self) -> Loose<Kept, Global>
        requires { IsSome self.value }
        ensures { self.value ≡ Some result.value }
    {
        let Held { at, alloc } = self;
        Loose {
            ptr: at as *mut Kept,
            alloc,
        }
    }
}

unsafe impl Send for Held {}
