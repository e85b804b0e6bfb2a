//! The judge of a module behind a pointer, in a form that C can keep.
ghost use Rattle.std.specs.Prelude.{◌≡◌, ◌≢◌, Some, None};
ghost use Rattle.apex_c.specs.HeldJudge.{JudgeHeld, judge_coded, judge_owns};

use crate::parts::Parts;
use apex_judge::Judge;
use std::alloc::Global;
use std::marker::Model;

/// The judge of a module, or none. What is held when the value is dropped is not freed.
#[repr(C)]
#[derive(Drop)]
pub struct HeldJudge {
    at: *mut u8,
    alloc: Global,
    pub ghost judge: { JudgeHeld } by { judge_coded },
}

impl Model for HeldJudge {
    ghost also_owns = { λ held. judge_owns held.alloc held.at held.judge };
}

impl HeldJudge {
    /// Holds the judge of the box.
    pub(crate) fn of_box(judge: Box<Judge>) -> HeldJudge
        ensures { result.judge ≡ Some judge.value }
    {
        HeldJudge::of_parts(Parts::of(judge))
    }

    /// The box of the judge that is held.
    pub(crate) fn into_box(self) -> Box<Judge>
        requires { self.judge ≢ None }
        ensures { Some result.value ≡ self.judge }
    {
        self.into_parts().into_box()
    }

    /// Holds none.
    pub(crate) fn none(alloc: Global) -> HeldJudge
        ensures { result.judge ≡ None }
    {
        HeldJudge {
            at: std::ptr::null_mut(),
            alloc,
        }
    }

    fn of_parts(parts: Parts<Judge, Global>) -> HeldJudge
        ensures { result.judge ≡ Some parts.value }
    {
        let Parts { ptr, alloc } = parts;
        HeldJudge {
            at: ptr as *mut u8,
            alloc,
        }
    }

    fn into_parts(self) -> Parts<Judge, Global>
        requires { self.judge ≢ None }
        ensures { Some result.value ≡ self.judge }
    {
        let HeldJudge { at, alloc } = self;
        Parts {
            ptr: at as *mut Judge,
            alloc,
        }
    }
}
