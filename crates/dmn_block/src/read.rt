//! Reading and writing a block.

ghost use Rattle.std.specs.Prelude.{◌≡◌, ◌≤◌, ◌++◌, ℕ, List, [], length, map, OnOk, OnErr, IfOk, IfErr, MatchResult};
ghost use Rattle.std.specs.List.{All};
ghost use Rattle.dmn_bytes.specs.Sending.{Appends};
ghost use Rattle.dmn_tx.specs.Defs.{id_of};
ghost use Rattle.dmn_tx.specs.Tx.{KeepsPayload};
ghost use Rattle.dmn_block.specs.Body.{connect_body};
ghost use Rattle.dmn_block.specs.Defs.{IsBlockText, HasItsIds, IsBlock, HeaderNumbers, HasText, block_text, most_items};
ghost use Rattle.dmn_block.specs.Frames.{frame_of};
ghost use Rattle.dmn_block.specs.Fault.{BlockDeparts, IsWithin};
ghost use Rattle.dmn_block.specs.declared.frame.BlockFrame.{BlockFrame};

use crate::body::{ConnectBody, Header};
use crate::fault::BlockFault;
use crate::frame::BlockFrame;
use crate::with_id::WithId;
use dmn_bytes::{Bytes, Draft, Hash256, Items, Memory, Sink, Text, read_whole};
use dmn_tx::Tx;
use std::alloc::Global;

/// The block that the body connects. A count takes no memory ahead of what it counts, and each id is computed once.
#[tactic(auto, using(crate::proofs::Bounds::keeps_bounds, crate::proofs::Bounds::keeps_payloads, crate::proofs::Bounds::count_within))]
pub fn read_block(alloc: Global, body: &[u8]) -> Result<BlockFrame, BlockFault>
    // The body is the text of what is read, for some four numbers in the header.
    ensures found { IfOk result (IsBlockText body.now) }
    ensures ids { IfOk result HasItsIds }
    // A block's text is read as it, unless memory runs out.
    ensures only { (block : BlockFrame) → IsBlockText body.now block → HasItsIds block → MatchResult result (λ read. read ≡ block) (λ fault. fault ≡ BlockFault.Memory) }
    // What is read keeps the conditions of the calls that take a block.
    ensures keeps { length body.now ≤ most_items → IfOk result IsBlock }
    ensures payloads { IfOk result (λ block. All KeepsPayload block.txs) }
    ensures count { IfOk result (λ block. length block.txs ≤ length body.now) }
    // Else it says where the body departs.
    ensures departs { IfErr result (λ fault. BlockDeparts fault body.now) }
    ensures within { IfErr result (λ fault. IsWithin fault body.now) }
{
    match read_whole::<ConnectBody>(alloc, body) {
        Ok(body) => Ok(frame_of(alloc, body)?),
        Err(error) => Err(BlockFault::from(error)),
    }
}

// The block of a body, with the ids of its transactions.
fn frame_of(alloc: Global, body: ConnectBody) -> Result<BlockFrame, Memory>
    ensures { IfOk result (λ block. block ≡ frame_of body) }
{
    let ConnectBody {
        hash,
        header,
        txs,
        verdicts,
    } = body;
    let (txs, ids) = told_apart(alloc, txs)?;
    Ok(BlockFrame {
        hash,
        prev: header.prev,
        merkle: header.merkle,
        txs,
        ids,
        verdicts,
    })
}

// The transactions, and their ids, in order.
fn told_apart(alloc: Global, read: Items<WithId>) -> Result<(Items<Tx>, Items<Hash256>), Memory>
    ensures { IfOk result (λ parts. (parts.0 ≡ read) × (parts.1 ≡ map id_of read)) }
{
    let mut txs = Vec::new(alloc);
    let mut ids = Vec::new(alloc);
    for one in read.into_vec() {
        let (tx, id) = one.into_parts();
        txs.push(tx).map_err(|_| Memory)?;
        ids.push(id).map_err(|_| Memory)?;
    }
    Ok((Items::from_vec(txs), Items::from_vec(ids)))
}

/// Appends the text of the body that connects the block, with these four numbers in the header. A refusal changes
/// nothing.
pub fn write_block(
    block: &BlockFrame,
    version: u32,
    time: u32,
    bits: u32,
    nonce: u32,
    out: &mut Bytes,
) -> Result<(), Memory>
    requires { IsBlock block.now }
    ensures ok { OnOk result (out.new ≡ out.old ++ block_text block.now (record { version = version; time = time; bits = bits; nonce = nonce })) }
    ensures err { OnErr result (out.new ≡ out.old) }
{
    let header = Header {
        version,
        prev: block.prev,
        merkle: block.merkle,
        time,
        bits,
        nonce,
    };
    let mut draft = Draft::on(out);
    feed_body(block, &header, &mut draft);
    draft.finish(out)
}

// Sends the text of the body that connects the block.
#[tactic(auto, using(dmn_bytes::proofs::Send::sent_then), unfolding(crate::specs::Body::connect_body))]
fn feed_body<S: Sink>(block: &BlockFrame, header: &Header, sink: &mut S)
    ensures { Appends S.holds S.kept sink.old sink.new (connect_body.text (record { hash = block.now.hash; header = header.now; txs = block.now.txs; verdicts = block.now.verdicts })) }
{
    block.hash.feed(sink);
    header.feed(sink);
    block.txs.feed(sink);
    block.verdicts.feed(sink);
}

/// Where the texts of two blocks begin one and the same text, they are those of one block, with the same four numbers
/// in the header. So no text of a block is a proper prefix of another's.
pub fn one_text()
    ensures joined { (a b : BlockFrame) (m n : HeaderNumbers) (x y : List ℕ) → HasText a m → HasText b n → HasItsIds a → HasItsIds b → block_text a m ++ x ≡ block_text b n ++ y → (a ≡ b) × (m ≡ n) × (x ≡ y) }
    ensures prefix { (a b : BlockFrame) (m n : HeaderNumbers) (rest : List ℕ) → HasText a m → HasText b n → block_text b n ≡ block_text a m ++ rest → rest ≡ [] }
{
    dmn_bytes::one_text::<ConnectBody>();
}
