//! Questions about calls, each with the index of its answer.
ghost use Rattle.std.specs.Prelude.{◌≡◌, ◌<◌, ◌++◌, ◌∷◌, [], ℕ, None, Some, length, map, replicate, slice_get, slice_set, IfOk, IsTrue, OnOk};
ghost use Rattle.apex_groups.specs.Prelude.{Has};
ghost use Rattle.apex_groups.specs.Answers.{ArePicked, AreOfPart, ArePut};
ghost use Rattle.apex_groups.specs.Parts.{part_of_index};

use crate::parts::Parts;
use apex_module::Config;
use apex_orders::{Asked, Order, OrdersFault};
use apex_ports::Script;
use std::alloc::{AllocError, Global};

/// The answer to a question: an order, that there is none, or why that is unknown.
pub(crate) type Found = Result<Option<Order>, OrdersFault>;

/// Some of the questions, each with its index among all.
#[derive(Drop)]
pub(crate) struct Picked {
    pub(crate) indexes: Vec<usize>,
    pub(crate) asked: Vec<Asked>,
}

impl Picked {
    /// No questions.
    fn new(alloc: Global) -> Picked
        ensures indexes { result.indexes.items ≡ [] }
        ensures asked { result.asked.items ≡ [] }
    {
        Picked {
            indexes: Vec::new(alloc),
            asked: Vec::new(alloc),
        }
    }

    /// Adds a question.
    fn add(&mut self, index: usize, one: &Asked) -> Result<(), AllocError>
        ensures indexes { OnOk result
            (self.new.indexes.items ≡ self.old.indexes.items ++ index ∷ []) }
        ensures asked { OnOk result
            (self.new.asked.items ≡ self.old.asked.items ++ one.now ∷ []) }
    {
        self.indexes.push(index)?;
        self.asked.push(copy_of(one))?;
        Ok(())
    }

    /// The questions about calls of the part that partition `p` makes.
    pub(crate) fn of_part(
        alloc: Global,
        config: &Config,
        parts: &Parts,
        part: usize,
        p: usize,
        scripts: &[Script],
        asked: &[Asked],
    ) -> Result<Picked, AllocError>
        ensures picked { IfOk result (ArePicked asked.now) }
        ensures part { IfOk result
            (λ picked. AreOfPart config.now parts.now scripts.now part picked.asked.items) }
    {
        let mut picked = Picked::new(alloc);
        for (index, one) in asked.iter().enumerate() {
            if is_of_part(config, parts, part, p, scripts, one) {
                picked.add(index, one)?;
            }
        }
        Ok(picked)
    }

    /// The questions that have no answer yet.
    pub(crate) fn unanswered(
        alloc: Global,
        asked: &[Asked],
        answers: &[Option<Found>],
    ) -> Result<Picked, AllocError>
        requires { length answers.now ≡ length asked.now }
        ensures picked { IfOk result (ArePicked asked.now) }
        ensures all { IfOk result (λ picked. (k : ℕ) → slice_get answers.now k ≡ Some None
            → Has picked.indexes.items k) }
    {
        let mut picked = Picked::new(alloc);
        for (index, one) in asked.iter().enumerate() {
            if answers[index].is_none() {
                picked.add(index, one)?;
            }
        }
        Ok(picked)
    }
}

/// Whether the question is about a call of the part that partition `p` makes.
fn is_of_part(
    config: &Config,
    parts: &Parts,
    part: usize,
    p: usize,
    scripts: &[Script],
    one: &Asked,
) -> bool
    ensures { IsTrue result
        → part_of_index config.now parts.now scripts.now one.now.partition one.now.index ≡ part }
{
    one.partition == p && parts.of_index(config, scripts, p, one.index) == part
}

/// The same question.
pub(crate) fn copy_of(asked: &Asked) -> Asked
    ensures { result ≡ asked.now }
{
    Asked {
        partition: asked.partition,
        index: asked.index,
        admitted: asked.admitted.copy(),
    }
}

/// No answer yet to any of `count` questions.
pub(crate) fn no_answers(alloc: Global, count: usize) -> Result<Vec<Option<Found>>, AllocError>
    ensures { IfOk result (λ answers. answers.items ≡ replicate count None) }
{
    let mut answers = Vec::with_capacity(alloc, count)?;
    for _ in 0..count {
        answers.push(None)?;
    }
    Ok(answers)
}

/// Puts an answer, or that there is none yet, to its index.
pub(crate) fn put_at(answers: &mut [Option<Found>], index: usize, answer: Option<Found>)
    requires { index < length answers.old }
    ensures { answers.new ≡ slice_set answers.old index answer }
{
    answers[index] = answer;
}

/// Puts each of the answers that were found to its index.
pub(crate) fn put_all(indexes: &[usize], mut found: Vec<Found>, answers: &mut [Option<Found>])
    requires count { length found.items ≡ length indexes.now }
    requires within { (k : ℕ) → Has indexes.now k → k < length answers.old }
    ensures put { ArePut (λ one answer. one ≡ answer)
        indexes.now found.items answers.old answers.new }
    ensures missing { (k : ℕ) → slice_get answers.new k ≡ Some None
        → (slice_get answers.old k ≡ Some None) × ¬ Has indexes.now k }
{
    while let Some(one) = found.pop() {
        put_at(answers, indexes[found.len()], Some(one));
    }
}

/// The answers, of which none is missing.
pub(crate) fn all_answers(
    alloc: Global,
    answers: Vec<Option<Found>>,
) -> Result<Vec<Found>, AllocError>
    requires { (k : ℕ) → ¬ (slice_get answers.items k ≡ Some None) }
    ensures { IfOk result (λ all. map Some all.items ≡ answers.items) }
{
    let mut all = Vec::with_capacity(alloc, answers.len())?;
    for answer in answers {
        match answer {
            Some(answer) => all.push(answer)?,
            None => unreachable!(),
        }
    }
    Ok(all)
}
