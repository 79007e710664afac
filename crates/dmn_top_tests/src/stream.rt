//! The generator's first blocks with 500 masternodes: trees are compacted on the way.

ghost use Rattle.std.specs.Prelude.{◌≤◌, ◌^◌, IfOk};
ghost use Rattle.dmn_block.specs.Defs.{IsBlock};
ghost use Rattle.dmn_generator.specs.declared.blocks.TheConstants.{FIRST};

use dmn_block::{BlockFrame, Refusal, read_block};
use dmn_branch::{Branch, PrepareFault};
use dmn_bytes::Hash256;
use dmn_generator::{FIRST, Place, block_body, start_text, tag};
use dmn_rows::{Rule, read_start};
use std::alloc::Global;
use std::process::Abort;
use std::test::Fail;

const MASTERNODES: u32 = 500;

const BLOCKS: u32 = 12;

// The block of a height, with this root of the list.
fn block_at(
    rt: &impl Abort,
    alloc: Global,
    branch: &mut Branch,
    height: u32,
    root: &Hash256,
) -> Result<BlockFrame, Fail>
    requires first { FIRST ≤ height }
    requires last { height ≤ 2 ^ 24 }
    ensures { IfOk result IsBlock }
{
    let formings = branch.formings_at(alloc, height)?;
    let place = Place {
        height,
        hash: tag(alloc, b"block ", height)?,
        prev: branch.tip().hash,
    };
    let body = block_body(alloc, MASTERNODES, &place, &formings, root)?;
    assert!(rt; body.len() <= 16_777_216);
    Ok(read_block(alloc, body.as_slice())?)
}

// Adds the block of a height: with a root of zeros, or with the one that the refusal of this tells.
fn add(rt: &impl Abort, alloc: Global, branch: &mut Branch, height: u32) -> Result<(), Fail>
    requires first { FIRST ≤ height }
    requires last { height ≤ 2 ^ 24 }
{
    let block = block_at(rt, alloc, branch, height, &Hash256([0; 32]))?;
    let root = match branch.prepare(alloc, &block) {
        Ok(prepared) => {
            branch.commit(prepared);
            return Ok(());
        }
        Err(
            PrepareFault::Refused(
                Refusal {
                    rule: Rule::CbRoot { computed, .. },
                    ..
                },
            ),
        ) => computed,
        Err(fault) => return Err(fault.into()),
    };
    let block = block_at(rt, alloc, branch, height, &root)?;
    let prepared = branch.prepare(alloc, &block)?;
    branch.commit(prepared);
    Ok(())
}

#[test]
fn nodes_fall_where_trees_are_compacted(rt: HostRuntime) -> Result<(), Fail> {
    let alloc = rt.alloc();
    let text = start_text(alloc)?;
    let start = read_start(alloc, text.as_slice())?;
    let mut branch = Branch::start(alloc, &start)?;
    let mut fell = None;
    for height in FIRST..FIRST + BLOCKS {
        let nodes = branch.nodes();
        add(&rt, alloc, &mut branch, height)?;
        if branch.nodes() < nodes {
            fell = fell.or(Some(height));
        }
    }
    assert_eq!(rt; fell, Some(FIRST + 2));
    Ok(())
}
