//! What C holds of a source: a pointer, which owns it.

ghost use Rattle.std.specs.Prelude.{◌≡◌};
ghost use types.Logic.{sem};
ghost use Rattle.typst_c.specs.declared.kept.Kept.{Kept};
ghost use Rattle.typst_c.specs.Held.{handle_owns, kept_code};

use crate::kept::Kept;
use crate::opened::Opened;
use std::alloc::Global;
use std::marker::Model;

/// A source as C passes it. It comes by value, as the pointer alone, since an allocator takes no bytes.
#[repr(C)]
pub struct Handle {
    at: *mut u8,
    alloc: Global,
    pub ghost home: { Kept } by { kept_code },
}

impl Model for Handle {
    ghost also_owns = { λ h. handle_owns h.alloc h.at h.home };
}

impl Handle {
    /// Gives a source to C: what the parts own is owned through the pointer from here on.
    pub fn give(opened: Opened<Kept, Global>) -> *mut u8
        ensures* { sem 𝓛 (handle_owns opened.alloc result opened.value) }
    {
        let Opened { at, alloc: _ } = opened;
        at as *mut u8
    }

    /// Takes it back.
    pub fn take(self) -> Box<Kept, Global>
        ensures { result.value ≡ self.home }
    {
        self.open().shut()
    }

    /// The pointer as one to a source.
    fn open(self) -> Opened<Kept, Global>
        ensures { result.value ≡ self.home }
    {
        let Handle { at, alloc } = self;
        Opened {
            at: at as *mut Kept,
            alloc,
        }
    }
}
