//! An allocator that follows a plan.
use crate::plan::Plan;
use std::alloc::{AllocError, Allocator};

/// An allocator that forwards requests to another, except those that its plan refuses.
///
/// Collections hold a `&Switch<B>`, which is an allocator and `Copy`. Freeing memory is never refused. Each growth of a
/// block is one request.
pub struct Switch<B: Allocator> {
    inner: B,
    plan: Plan,
}

impl<B: Allocator> Switch<B> {
    /// An allocator that refuses nothing so far.
    pub fn new(inner: B) -> Switch<B> {
        Switch {
            inner,
            plan: Plan::allow_all(),
        }
    }

    /// Lets the next `pass` requests through, refuses the `refuse` after them, and lets all later ones through. The
    /// counts start again at 0.
    pub fn refuse_after(&self, pass: u64, refuse: u64) {
        self.plan.start(pass, refuse);
    }

    /// Refuses every request from now on. The counts start again at 0.
    pub fn refuse_all(&self) {
        self.plan.start(0, u64::MAX);
    }

    /// Refuses nothing from now on. The counts start again at 0.
    pub fn allow_all(&self) {
        self.plan.start(0, 0);
    }

    /// The number of requests for memory since the plan was last changed.
    pub fn requests(&self) -> u64 {
        self.plan.requests()
    }

    /// The number of refused requests since the plan was last changed.
    pub fn refused(&self) -> u64 {
        self.plan.refused()
    }
}

impl<B: Allocator> Drop for Switch<B> {
    fn drop(self) {
        let Self { inner: _, plan: _ } = self;
    }
}

unsafe impl<B: Allocator> Allocator for Switch<B> {
    ghost dealloc_token = { λ heap ty ptr. B.dealloc_token heap.inner ty ptr };

    fn allocate(&self, size: usize, align: usize) -> Result<*mut u8, AllocError> {
        if self.plan.refuses_next() {
            return Err(AllocError);
        }
        self.inner.allocate(size, align)
    }

    unsafe fn deallocate(&self, ptr: *mut u8, size: usize, align: usize) {
        self.inner.deallocate(ptr, size, align);
    }
}
