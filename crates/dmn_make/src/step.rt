//! What is done with the registry, one step after another.

ghost use Rattle.std.specs.Prelude.{◌≡◌, ◌+◌, ◌≤◌, ◌^◌, ◌∷◌, [], ◌++◌, IfOk, OnOk, replicate};
ghost use Rattle.dmn_make.specs.Steps.{adds, all_steps, name_of};
ghost use Rattle.dmn_make.specs.declared.step.Step.TheVariants.{TakeBack};

use dmn_bytes::Memory;
use dmn_generator::FIRST;
use std::alloc::Global;

/// As many blocks are added at first.
const BLOCKS: u32 = 600;

/// As many blocks are taken back then, and added again under other hashes.
const FORKED: u32 = 40;

/// As many entries a page tells.
pub const PAGE: u16 = 100;

/// Which blocks are added: the hash of a block is the tag of the chain's name and of the height.
#[derive(Clone, Copy, Debug, PartialEq, Eq)]
pub enum Chain {
    First,
    Fork,
}

impl Chain {
    /// Its name, with the space in front of a height.
    pub fn name(self) -> &'static [u8]
        ensures { result.now ≡ name_of self }
    {
        match self {
            Chain::First => b"block ",
            Chain::Fork => b"fork ",
        }
    }
}

/// What is done next.
#[derive(Clone, Copy, Debug, PartialEq, Eq)]
pub enum Step {
    /// The block of a height is added.
    Add { chain: Chain, height: u32 },
    /// The last block is taken back.
    TakeBack,
    /// The list of a height is pinned.
    Pin { height: u32 },
    /// A page of the first pin is told, from this place on.
    Tell { from: u32 },
}

fn put_step(steps: &mut Vec<Step>, step: Step) -> Result<(), Memory>
    ensures { OnOk result (steps.new.items ≡ steps.old.items ++ step ∷ []) }
{
    steps.push(step).map_err(|_| Memory)
}

// Adds so many blocks, from this height on.
fn put_adds(steps: &mut Vec<Step>, chain: Chain, from: u32, count: u32) -> Result<(), Memory>
    requires { from + count ≤ 2 ^ 24 }
    ensures { OnOk result (steps.new.items ≡ steps.old.items ++ adds chain from count) }
{
    for height in from..from + count {
        put_step(steps, Step::Add { chain, height })?;
    }
    Ok(())
}

// Takes so many blocks back.
fn put_backs(steps: &mut Vec<Step>, count: u32) -> Result<(), Memory>
    ensures { OnOk result (steps.new.items ≡ steps.old.items ++ replicate count TakeBack) }
{
    for _ in 0..count {
        put_step(steps, Step::TakeBack)?;
    }
    Ok(())
}

/// All steps of a run: blocks, a pin of the last one's list, and a page of it; blocks taken back, others in their place, and the
/// next page of the same pin.
pub fn all_steps(alloc: Global) -> Result<Vec<Step>, Memory>
    ensures { IfOk result (λ steps. steps.items ≡ all_steps) }
{
    let last = FIRST + BLOCKS - 1;
    let mut steps = Vec::new(alloc);
    put_adds(&mut steps, Chain::First, FIRST, BLOCKS)?;
    put_step(&mut steps, Step::Pin { height: last })?;
    put_step(&mut steps, Step::Tell { from: 0 })?;
    put_backs(&mut steps, FORKED)?;
    put_adds(&mut steps, Chain::Fork, last + 1 - FORKED, FORKED)?;
    put_step(
        &mut steps,
        Step::Tell {
            from: u32::from(PAGE),
        },
    )?;
    Ok(steps)
}
