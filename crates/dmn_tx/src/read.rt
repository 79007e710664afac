//! Reading, writing and hashing a transaction.

ghost use Rattle.std.specs.Prelude.{◌≡◌, ◌≤◌, ◌+◌, ℕ, List, [], ◌++◌, length, drop, Ok, Err, OnOk, OnErr, IfOk, IfErr, MatchResult};
ghost use Rattle.dmn_bytes.specs.Law.{Stands};
ghost use Rattle.dmn_bytes.specs.Reading.{Gives};
ghost use Rattle.dmn_tx.specs.Defs.{tx_text, id_of, inputs_hash_of};
ghost use Rattle.dmn_tx.specs.Tx.{tx, KeepsPayload};
ghost use Rattle.dmn_tx.specs.Fault.{TxDeparts};
ghost use Rattle.dmn_tx.specs.declared.tx.Tx.{Tx};

use crate::fault::TxFault;
use crate::tx::Tx;
use dmn_bytes::{
    Bytes, Hash256, Memory, ReadError, Reader, Text, digest, dsha, dsha_of, read_at, write,
};
use sha2::{Digest, Sha256};
use std::alloc::Global;

/// The transaction whose text begins at this place, and the place behind it (DIP-0002). A count or a length takes no
/// memory ahead of the bytes that it counts.
#[tactic(auto, using(crate::proofs::Payload::fits_keeps))]
pub fn read_tx(alloc: Global, text: &[u8], at: usize) -> Result<(Tx, usize), TxFault>
    requires { at ≤ length text.now }
    // What is read stands there.
    ensures found { IfOk result (λ x. Stands tx text.now at x.0 x.1) }
    // What stands there is read, unless memory runs out.
    ensures only { (v : Tx) (rest : List ℕ) → tx.Fits v → drop at text.now ≡ tx_text v ++ rest → MatchResult result (λ x. (x.0 ≡ v) × (x.1 ≡ at + length (tx_text v))) (λ e. e ≡ TxFault.Memory) }
    // What is read may be written.
    ensures kept { IfOk result (λ x. KeepsPayload x.0) }
    ensures within { IfOk result (λ x. x.1 ≤ length text.now) }
    // Else it says where the text departs, and how.
    ensures departs { IfErr result (λ e. TxDeparts e (tx.parse text.now at)) }
{
    match read_at(alloc, text, at) {
        Ok(x) => Ok(x),
        Err(e) => Err(TxFault::from(e)),
    }
}

/// Appends the transaction's text. A refusal changes nothing.
pub fn write_tx(tx: &Tx, out: &mut Bytes) -> Result<(), Memory>
    requires { KeepsPayload tx.now }
    ensures ok { OnOk result (out.new ≡ out.old ++ tx_text tx.now) }
    ensures err { OnErr result (out.new ≡ out.old) }
{
    write(tx, out)
}

/// The transaction's id: the hash of its text, which is fed to the hash field by field. This takes no memory.
pub fn txid(tx: &Tx) -> Hash256
    ensures { result ≡ id_of tx.now }
{
    digest(tx)
}

/// The id of a transaction that stands in a text from one place to another: the hash of its bytes there, so that it
/// isn't written again.
pub fn txid_in(read: &Tx, text: &[u8], at: usize, end: usize) -> Hash256
    requires stands { Stands tx text.now at read.now end }
    requires within { end ≤ length text.now }
    ensures { result ≡ id_of read.now }
{
    dsha(&text[at..end])
}

/// The transaction whose text stands next, and its id, which is the hash of the bytes that are read.
pub fn read_with_id(reader: &mut Reader<'_>, alloc: Global) -> Result<(Tx, Hash256), ReadError>
    ensures read { MatchResult result (λ x. Gives tx reader.old reader.new (Ok x.0)) (λ e. Gives tx reader.old reader.new (Err e)) }
    ensures id { IfOk result (λ x. x.1 ≡ id_of x.0) }
{
    let at = reader.at();
    let tx = Tx::read(reader, alloc)?;
    let id = id_read(&tx, reader.text(), at, reader.at());
    Ok((tx, id))
}

// The id of a transaction that was read from one place to another.
fn id_read(read: &Tx, text: &[u8], at: usize, end: usize) -> Hash256
    requires parsed { tx.parse text.now at ≡ Ok (read.now, end) }
    requires within { end ≤ length text.now }
    ensures { result ≡ id_of read.now }
{
    txid_in(read, text, at, end)
}

/// The hash of the outpoints of all inputs, in order, 36 bytes each. This takes no memory.
pub fn inputs_hash(tx: &Tx) -> Hash256
    ensures { result ≡ inputs_hash_of tx.now }
{
    let mut hasher = Sha256::new();
    for input in tx.inputs.as_slice() {
        input.point.feed(&mut hasher);
    }
    dsha_of(hasher)
}

/// Where two transactions' texts begin one and the same text, they are one transaction. So no text of a transaction
/// is a proper prefix of another's.
pub fn one_text()
    ensures joined { (a b : Tx) (x y : List ℕ) → tx.Fits a → tx.Fits b → tx_text a ++ x ≡ tx_text b ++ y → (a ≡ b) × (x ≡ y) }
    ensures prefix { (a b : Tx) (rest : List ℕ) → tx.Fits a → tx.Fits b → tx_text b ≡ tx_text a ++ rest → (a ≡ b) × (rest ≡ []) }
{
    dmn_bytes::one_text::<Tx>();
}
