//! A transaction and its parts, each with its one text.

ghost use Rattle.std.specs.Prelude.{◌≡◌, IfOk};
ghost use Rattle.dmn_bytes.specs.Reading.{Gives};
ghost use Rattle.dmn_bytes.specs.Sending.{Appends};
ghost use Rattle.dmn_tx.specs.Tx.{tx, tx_in, tx_out, is_special, payload_of, tx_sound, tx_in_sound, tx_out_sound};

use crate::kinds::{LONGEST_PAYLOAD, SPECIAL_VERSION};
use dmn_bytes::{Bytes, Items, Memory, OutPoint, ReadError, Reader, Sink, Text};
use std::alloc::Global;

/// An input: the output that it spends, the script that opens it, and a sequence number.
#[derive(Debug, Drop)]
pub struct TxIn {
    /// The output that is spent.
    pub point: OutPoint,
    pub script: Bytes,
    pub sequence: u32,
}

/// An output: an amount in duffs (a hundred millionth of a DASH), and the script that it pays to.
#[derive(Debug, Drop)]
pub struct TxOut {
    pub value: u64,
    pub script: Bytes,
}

/// A transaction (DIP-0002). One of version 3 and a type that isn't 0 is special: it has a payload of at most 10,000
/// bytes. Any other has none.
#[derive(Debug, Drop)]
pub struct Tx {
    pub version: u16,
    /// The type, of which the payload's form hangs.
    pub kind: u16,
    pub inputs: Items<TxIn>,
    pub outputs: Items<TxOut>,
    /// The lock time.
    pub lock: u32,
    pub payload: Bytes,
}

#[tactic(auto, using(dmn_bytes::proofs::Send::sent_then), unfolding(crate::specs::Tx::tx_in))]
impl Text for TxIn {
    ghost format = { tx_in };

    ghost sound = { tx_in_sound };

    fn read(reader: &mut Reader<'_>, alloc: Global) -> Result<TxIn, ReadError> {
        let point = OutPoint::read(reader, alloc)?;
        let script = reader.blob(alloc)?;
        let sequence = reader.u32()?;
        Ok(TxIn {
            point,
            script,
            sequence,
        })
    }

    fn feed<S: Sink>(&self, sink: &mut S) {
        self.point.feed(sink);
        self.script.feed(sink);
        self.sequence.feed(sink);
    }
}

#[tactic(auto, using(dmn_bytes::proofs::Send::sent_then), unfolding(crate::specs::Tx::tx_out))]
impl Text for TxOut {
    ghost format = { tx_out };

    ghost sound = { tx_out_sound };

    fn read(reader: &mut Reader<'_>, alloc: Global) -> Result<TxOut, ReadError> {
        let value = reader.u64()?;
        let script = reader.blob(alloc)?;
        Ok(TxOut { value, script })
    }

    fn feed<S: Sink>(&self, sink: &mut S) {
        self.value.feed(sink);
        self.script.feed(sink);
    }
}

#[tactic(auto, using(dmn_bytes::proofs::Send::sent_then), unfolding(crate::specs::Tx::tx))]
impl Text for Tx {
    ghost format = { tx };

    ghost sound = { tx_sound };

    fn read(reader: &mut Reader<'_>, alloc: Global) -> Result<Tx, ReadError> {
        let version = reader.u16()?;
        let kind = reader.u16()?;
        let inputs = Items::read(reader, alloc)?;
        let outputs = Items::read(reader, alloc)?;
        let lock = reader.u32()?;
        let payload = read_payload(reader, alloc, version, kind)?;
        Ok(Tx {
            version,
            kind,
            inputs,
            outputs,
            lock,
            payload,
        })
    }

    fn feed<S: Sink>(&self, sink: &mut S) {
        self.version.feed(sink);
        self.kind.feed(sink);
        self.inputs.feed(sink);
        self.outputs.feed(sink);
        self.lock.feed(sink);
        feed_payload(self.version, self.kind, &self.payload, sink);
    }
}

// Whether a transaction has a payload.
fn is_special(version: u16, kind: u16) -> bool
    ensures { result ≡ is_special version kind }
{
    version == SPECIAL_VERSION && kind != 0
}

#[tactic(auto, unfolding(crate::specs::Tx::payload_of))]
fn read_payload(
    reader: &mut Reader<'_>,
    alloc: Global,
    version: u16,
    kind: u16,
) -> Result<Bytes, ReadError>
    ensures { Gives (payload_of version kind) reader.old reader.new result }
{
    if is_special(version, kind) {
        reader.blob_within(LONGEST_PAYLOAD, alloc)
    } else {
        Ok(Bytes::new(alloc))
    }
}

#[tactic(auto, unfolding(crate::specs::Tx::payload_of, dmn_bytes::specs::Format::blob, dmn_bytes::specs::Format::blob_within))]
fn feed_payload<S: Sink>(version: u16, kind: u16, payload: &Bytes, sink: &mut S)
    ensures { Appends S.holds S.kept sink.old sink.new ((payload_of version kind).text payload.now) }
{
    if is_special(version, kind) {
        payload.feed(sink);
    }
}

impl TxIn {
    /// An equal input.
    pub fn copy(&self, alloc: Global) -> Result<TxIn, Memory>
        ensures { IfOk result (λ v. v ≡ self.now) }
    {
        Ok(TxIn {
            point: self.point,
            script: Bytes::from_slice(alloc, self.script.as_slice())?,
            sequence: self.sequence,
        })
    }
}

impl TxOut {
    /// An equal output.
    pub fn copy(&self, alloc: Global) -> Result<TxOut, Memory>
        ensures { IfOk result (λ v. v ≡ self.now) }
    {
        Ok(TxOut {
            value: self.value,
            script: Bytes::from_slice(alloc, self.script.as_slice())?,
        })
    }
}

impl Tx {
    /// An equal transaction.
    pub fn copy(&self, alloc: Global) -> Result<Tx, Memory>
        ensures { IfOk result (λ v. v ≡ self.now) }
    {
        Ok(Tx {
            version: self.version,
            kind: self.kind,
            inputs: copy_inputs(alloc, &self.inputs)?,
            outputs: copy_outputs(alloc, &self.outputs)?,
            lock: self.lock,
            payload: Bytes::from_slice(alloc, self.payload.as_slice())?,
        })
    }
}

fn copy_inputs(alloc: Global, inputs: &Items<TxIn>) -> Result<Items<TxIn>, Memory>
    ensures { IfOk result (λ v. v ≡ inputs.now) }
{
    let mut copies = Vec::new(alloc);
    for input in inputs.as_slice() {
        copies.push(input.copy(alloc)?).map_err(|_| Memory)?;
    }
    Ok(Items::from_vec(copies))
}

fn copy_outputs(alloc: Global, outputs: &Items<TxOut>) -> Result<Items<TxOut>, Memory>
    ensures { IfOk result (λ v. v ≡ outputs.now) }
{
    let mut copies = Vec::new(alloc);
    for output in outputs.as_slice() {
        copies.push(output.copy(alloc)?).map_err(|_| Memory)?;
    }
    Ok(Items::from_vec(copies))
}
