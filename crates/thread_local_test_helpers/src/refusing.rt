//! An allocator that refuses every request, and shows how much memory was asked for.
ghost use Rattle.std.specs.Borrow.{ffalse};

use std::alloc::{AllocError, Allocator};
use std::cell::Cell;

/// An allocator that refuses every request, and keeps the size of the last one.
#[derive(Drop)]
pub struct Refusing {
    bytes: Cell<usize>,
}

impl Refusing {
    /// An allocator that wasn't asked yet.
    pub fn new() -> Refusing {
        Refusing {
            bytes: Cell::new(0),
        }
    }

    /// How many bytes the last request was for.
    pub fn bytes(&self) -> usize {
        self.bytes.get()
    }
}

/// Keeps the size of a request.
fn keep(bytes: &Cell<usize>, number: usize) {
    bytes.set(number);
}

unsafe impl Allocator for Refusing {
    ghost dealloc_token = { λ _ _ _. ffalse };

    fn allocate(&self, size: usize, _align: usize) -> Result<*mut u8, AllocError> {
        keep(&self.bytes, size);
        Err(AllocError)
    }

    unsafe fn deallocate(&self, _ptr: *mut u8, _size: usize, _align: usize) {}
}
