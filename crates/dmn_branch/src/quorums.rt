//! The quorums of a height, by the version of their base block.

ghost use Rattle.std.specs.Prelude.{◌≡◌, ◌<◌, ◌^◌, IfOk, List, length, slice_get};
ghost use Rattle.std.specs.Option.{option_copied};
ghost use Rattle.dmn_indexes.specs.Version.{IsWhole, rows_in};
ghost use Rattle.dmn_quorums.specs.Forming as spec;
ghost use Rattle.dmn_quorums.specs.Score.{members_of, modifier_of};
ghost use Rattle.dmn_rows.specs.declared.row.MnRow.{MnRow};
ghost use Rattle.dmn_branch.specs.Drawn.{undrawn};

use crate::held::Held;
use dmn_bytes::{Hash256, Memory};
use dmn_indexes::Indexes;
use dmn_quorums::{Candidates, Forming, members_key, modifier};
use dmn_rows::{MnRow, QuorumParams};
use std::alloc::Global;

// The row at a place of the order of hashes.
fn row_at<'a>(indexes: &'a Indexes, base: &Held, rank: u64) -> Option<&'a MnRow>
    requires { IsWhole indexes.now base.now.version }
    ensures { option_copied result ≡ slice_get (rows_in indexes.now base.now.version) rank }
{
    match indexes.rows.pair_at(base.version.rows, rank) {
        None => None,
        Some((_, row)) => Some(row),
    }
}

/// The members of the quorum of a type whose base block is that of a version.
pub(crate) fn members_of(
    alloc: Global,
    indexes: &Indexes,
    base: &Held,
    params: &QuorumParams,
) -> Result<Vec<Hash256>, Memory>
    requires { IsWhole indexes.now base.now.version }
    ensures members { IfOk result (λ hashes. hashes.items ≡ members_of (rows_in indexes.now base.now.version) params.now.size (modifier_of params.now.kind base.now.hash)) }
    ensures few { IfOk result (λ hashes. length hashes.items < 2 ^ 16) }
{
    let modifier = modifier(params.kind, &base.hash);
    let mut candidates = Candidates::new(alloc);
    for rank in 0..indexes.rows.size(base.version.rows) {
        match row_at(indexes, base, rank) {
            Some(row) => candidates.add(row, &modifier)?,
            None => unreachable!(),
        }
    }
    candidates.members(alloc, params.size)
}

// The members, unless the quorum has its commitment.
fn seats(
    alloc: Global,
    indexes: &Indexes,
    base: &Held,
    params: &QuorumParams,
    done: bool,
) -> Result<Vec<Hash256>, Memory>
    requires { IsWhole indexes.now base.now.version }
    ensures members { IfOk result (λ hashes. hashes.items ≡ spec.seats params.now done base.now.hash (rows_in indexes.now base.now.version)) }
    ensures few { IfOk result (λ hashes. length hashes.items < 2 ^ 16) }
{
    if done {
        return Ok(Vec::new(alloc));
    }
    members_of(alloc, indexes, base, params)
}

/// What is known of that quorum in its window. The members of one that has its commitment aren't drawn.
pub(crate) fn inside(
    alloc: Global,
    indexes: &Indexes,
    base: &Held,
    params: &QuorumParams,
    done: bool,
) -> Result<Forming, Memory>
    requires { IsWhole indexes.now base.now.version }
    ensures { IfOk result (λ forming. forming ≡ spec.inside params.now done base.now.hash (rows_in indexes.now base.now.version)) }
{
    let members = seats(alloc, indexes, base, params, done)?;
    let digest = members_key(&indexes.view(&base.version, &base.version), &members);
    Ok(Forming::inside(params, done, &base.hash, members, &digest))
}

/// The same of one whose members nobody asks for.
pub(crate) fn undrawn(alloc: Global, base: &Held, params: &QuorumParams, done: bool) -> Forming
    ensures { (rows : List MnRow) → result ≡ undrawn (spec.inside params.now done base.now.hash rows) }
{
    let nobody = Hash256([0; 32]);
    Forming::inside(params, done, &base.hash, Vec::new(alloc), &nobody)
}
