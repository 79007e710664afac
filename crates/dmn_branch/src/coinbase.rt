//! What proves a block's first transaction.

ghost use Rattle.std.specs.Prelude.{◌≡◌, IfOk};
ghost use Rattle.dmn_block.specs.Defs.{IsBlock};
ghost use Rattle.dmn_branch.specs.Coinbases.{part_of};

use dmn_block::BlockFrame;
use dmn_bytes::Memory;
use dmn_held::CoinbasePart;
use dmn_merkle::coinbase_branch;
use std::alloc::Global;

/// That of a block's first transaction, where the block has one.
pub fn coinbase_part(alloc: Global, block: &BlockFrame) -> Result<Option<CoinbasePart>, Memory>
    requires { IsBlock block.now }
    ensures { IfOk result (λ part. part ≡ part_of block.now.txs) }
{
    match block.txs.as_slice().first() {
        None => Ok(None),
        Some(first) => {
            let branch = coinbase_branch(alloc, block.ids.as_slice())?;
            let tx = first.copy(alloc)?;
            Ok(Some(CoinbasePart { tx, branch }))
        }
    }
}

/// The same in memory of its own.
pub fn copy_part(alloc: Global, part: &CoinbasePart) -> Result<CoinbasePart, Memory>
    ensures { IfOk result (λ copy. copy ≡ part.now) }
{
    let tx = part.tx.copy(alloc)?;
    let branch = part.branch.copy(alloc)?;
    Ok(CoinbasePart { tx, branch })
}
