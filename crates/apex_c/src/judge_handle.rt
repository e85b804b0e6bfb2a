//! The handle of a judge, which C keeps.
ghost use Rattle.std.specs.Prelude.{◌≡◌, None, Some, is_some};
ghost use Rattle.std.specs.Option.{option_map};

use crate::held_judge::HeldJudge;
use apex_judge::Judge;
use std::alloc::Global;
use std::mem;

/// The judge of a module, or none. C keeps it, and lends it to each function. All zero, it has none.
#[repr(C)]
#[derive(Drop)]
pub struct JudgeHandle {
    is_open: bool,
    pub held: HeldJudge,
    ghost agrees: { is_some held.judge ≡ is_open },
}

impl JudgeHandle {
    /// A handle of no judge.
    pub(crate) fn closed(alloc: Global) -> JudgeHandle
        ensures { result.held.judge ≡ None }
    {
        JudgeHandle {
            is_open: false,
            held: HeldJudge::none(alloc),
        }
    }

    /// A handle of the judge.
    pub(crate) fn of(judge: Box<Judge>) -> JudgeHandle
        ensures { result.held.judge ≡ Some judge.value }
    {
        JudgeHandle {
            is_open: true,
            held: HeldJudge::of_box(judge),
        }
    }

    /// Whether the handle has a judge.
    pub(crate) fn is_open(&self) -> bool
        ensures { result ≡ is_some self.now.held.judge }
    {
        self.is_open
    }

    /// Takes the judge out.
    pub(crate) fn take(&mut self, alloc: Global) -> Option<Box<Judge>>
        ensures taken { option_map (λ judge. judge.value) result ≡ self.old.held.judge }
        ensures closed { self.new.held.judge ≡ None }
    {
        let JudgeHandle { is_open, held } = mem::replace(self, JudgeHandle::closed(alloc));
        if is_open { Some(held.into_box()) } else { None }
    }
}
