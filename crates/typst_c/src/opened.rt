//! A box with its pointer in sight.

ghost use Rattle.std.specs.Prelude.{◌≡◌};
ghost use Rattle.std.specs.Box.Ownership.{box_owns};

use std::alloc::Allocator;
use std::marker::Model;

/// The pointer and the allocator of a box. It owns what the box does.
pub struct Opened<T, A: Allocator> {
    pub(crate) at: *mut T,
    pub(crate) alloc: A,
    pub ghost value: { T },
}

impl<T, A: Allocator> Model for Opened<T, A> {
    ghost also_owns = { λ o. box_owns (A.dealloc_token o.alloc) T.row o.at o.value };
}

impl<T, A: Allocator> Opened<T, A> {
    /// Takes a box apart.
    pub fn open(boxed: Box<T, A>) -> Opened<T, A>
    where
        T: Drop,
        ensures { result.value ≡ boxed.value }
    {
        let (at, alloc) = Box::into_raw_with_allocator(boxed);
        Opened { at, alloc }
    }

    /// Puts it together again.
    pub fn shut(self) -> Box<T, A>
        ensures { result.value ≡ self.value }
    {
        let Opened { at, alloc } = self;
        unsafe { Box::from_raw(alloc, at) }
    }
}
