//! An object on the heap, as a pointer and what frees it.
ghost use Rattle.std.specs.Prelude.{◌≡◌};
ghost use Rattle.std.specs.Box.Ownership.{box_owns};

use std::alloc::Allocator;
use std::marker::Model;

/// An object on the heap, taken out of its box.
///
/// Its fields are in sight, so that a struct that C holds can be made of them, and one of these of that struct again.
#[derive(Drop)]
pub struct Kept<T, A: Allocator> {
    /// Where the object is.
    pub ptr: *mut T,
    /// What frees its memory.
    pub alloc: A,
    /// Its value.
    pub ghost value: { T },
}

impl<T, A: Allocator> Model for Kept<T, A> {
    ghost also_owns = { λ k. box_owns (A.dealloc_token k.alloc) T.row k.ptr k.value };
}

impl<T, A: Allocator> Kept<T, A> {
    /// Takes the object out of its box.
    pub fn of(object: Box<T, A>) -> Kept<T, A>
    where
        T: Drop,
        ensures { result.value ≡ object.value }
    {
        let (ptr, alloc) = Box::into_raw_with_allocator(object);
        Kept { ptr, alloc }
    }

    /// The object, in a box again.
    pub fn into_box(self) -> Box<T, A>
        ensures { result.value ≡ self.value }
    {
        let Kept { ptr, alloc } = self;
        unsafe { Box::from_raw(alloc, ptr) }
    }
}
