//! The payloads of a registration, of its updates and of the coinbase, each with its one text.

ghost use Rattle.dmn_bytes.specs.Reading.{Gives};
ghost use Rattle.dmn_payloads.specs.Payloads.{version_one, pro_reg, up_serv, up_reg, revoke, cb, pro_reg_sound, up_serv_sound, up_reg_sound, revoke_sound, cb_sound};

use dmn_bytes::{Bytes, Departure, Hash256, OutPoint, ReadError, Reader, Service, Sink, Text};
use std::alloc::Global;

/// A ProRegTx, type 1: registers a masternode (DIP-0003).
#[derive(Debug, Drop)]
pub struct ProReg {
    /// Always 1 in what is read.
    pub version: u16,
    /// The type of the masternode.
    pub kind: u16,
    pub mode: u16,
    /// The output that stands for the masternode; where its hash is zero, the output of that index of the same
    /// transaction.
    pub collateral: OutPoint,
    pub service: Service,
    /// The hash of the owner's public key.
    pub owner: [u8; 20],
    /// The operator's public key (BLS).
    pub operator: [u8; 48],
    /// The hash of the public key that votes.
    pub voting: [u8; 20],
    /// The operator's share of the reward, in hundredths of a percent.
    pub reward: u16,
    /// The script that the owner is paid by.
    pub payout: Bytes,
    /// The hash of the transaction's inputs.
    pub inputs: Hash256,
    pub signature: Bytes,
}

/// A ProUpServTx, type 2: the operator changes where the masternode serves (DIP-0003).
#[derive(Debug, Drop)]
pub struct UpServ {
    /// Always 1 in what is read.
    pub version: u16,
    /// The id of the transaction that registered the masternode.
    pub pro_tx: Hash256,
    pub service: Service,
    /// The script that the operator is paid by, or none.
    pub payout: Bytes,
    /// The hash of the transaction's inputs.
    pub inputs: Hash256,
    pub signature: [u8; 96],
}

/// A ProUpRegTx, type 3: the owner changes the operator's and the voting key and the payout (DIP-0003).
#[derive(Debug, Drop)]
pub struct UpReg {
    /// Always 1 in what is read.
    pub version: u16,
    /// The id of the transaction that registered the masternode.
    pub pro_tx: Hash256,
    pub mode: u16,
    /// The operator's public key (BLS).
    pub operator: [u8; 48],
    /// The hash of the public key that votes.
    pub voting: [u8; 20],
    /// The script that the owner is paid by.
    pub payout: Bytes,
    /// The hash of the transaction's inputs.
    pub inputs: Hash256,
    pub signature: Bytes,
}

/// A ProUpRevTx, type 4: the operator gives up (DIP-0003).
#[derive(Debug, Drop)]
pub struct Revoke {
    /// Always 1 in what is read.
    pub version: u16,
    /// The id of the transaction that registered the masternode.
    pub pro_tx: Hash256,
    pub reason: u16,
    /// The hash of the transaction's inputs.
    pub inputs: Hash256,
    pub signature: [u8; 96],
}

/// A CbTx, type 5: what the coinbase tells of its block (DIP-0004).
#[derive(Debug, Drop)]
pub struct CbTx {
    /// Always 1 in what is read.
    pub version: u16,
    pub height: u32,
    /// The root of the masternode list.
    pub rows: Hash256,
}

#[tactic(auto, unfolding(crate::specs::Payloads::version_one))]
pub(crate) fn read_version(reader: &mut Reader<'_>) -> Result<u16, ReadError>
    ensures { Gives version_one reader.old reader.new result }
{
    let at = reader.at();
    let version = reader.u16()?;
    if version == 1 {
        Ok(version)
    } else {
        Err(ReadError::Departs(Departure::Form { at }))
    }
}

#[tactic(auto, using(dmn_bytes::proofs::Send::sent_then), unfolding(crate::specs::Payloads::pro_reg))]
impl Text for ProReg {
    ghost format = { pro_reg };

    ghost sound = { pro_reg_sound };

    fn read(reader: &mut Reader<'_>, alloc: Global) -> Result<ProReg, ReadError> {
        let version = read_version(reader)?;
        let kind = u16::read(reader, alloc)?;
        let mode = u16::read(reader, alloc)?;
        let collateral = OutPoint::read(reader, alloc)?;
        let service = Service::read(reader, alloc)?;
        let owner = <[u8; 20]>::read(reader, alloc)?;
        let operator = <[u8; 48]>::read(reader, alloc)?;
        let voting = <[u8; 20]>::read(reader, alloc)?;
        let reward = u16::read(reader, alloc)?;
        let payout = Bytes::read(reader, alloc)?;
        let inputs = Hash256::read(reader, alloc)?;
        let signature = Bytes::read(reader, alloc)?;
        Ok(ProReg {
            version,
            kind,
            mode,
            collateral,
            service,
            owner,
            operator,
            voting,
            reward,
            payout,
            inputs,
            signature,
        })
    }

    fn feed<S: Sink>(&self, sink: &mut S) {
        self.version.feed(sink);
        self.kind.feed(sink);
        self.mode.feed(sink);
        self.collateral.feed(sink);
        self.service.feed(sink);
        self.owner.feed(sink);
        self.operator.feed(sink);
        self.voting.feed(sink);
        self.reward.feed(sink);
        self.payout.feed(sink);
        self.inputs.feed(sink);
        self.signature.feed(sink);
    }
}

#[tactic(auto, using(dmn_bytes::proofs::Send::sent_then), unfolding(crate::specs::Payloads::up_serv))]
impl Text for UpServ {
    ghost format = { up_serv };

    ghost sound = { up_serv_sound };

    fn read(reader: &mut Reader<'_>, alloc: Global) -> Result<UpServ, ReadError> {
        let version = read_version(reader)?;
        let pro_tx = Hash256::read(reader, alloc)?;
        let service = Service::read(reader, alloc)?;
        let payout = Bytes::read(reader, alloc)?;
        let inputs = Hash256::read(reader, alloc)?;
        let signature = <[u8; 96]>::read(reader, alloc)?;
        Ok(UpServ {
            version,
            pro_tx,
            service,
            payout,
            inputs,
            signature,
        })
    }

    fn feed<S: Sink>(&self, sink: &mut S) {
        self.version.feed(sink);
        self.pro_tx.feed(sink);
        self.service.feed(sink);
        self.payout.feed(sink);
        self.inputs.feed(sink);
        self.signature.feed(sink);
    }
}

#[tactic(auto, using(dmn_bytes::proofs::Send::sent_then), unfolding(crate::specs::Payloads::up_reg))]
impl Text for UpReg {
    ghost format = { up_reg };

    ghost sound = { up_reg_sound };

    fn read(reader: &mut Reader<'_>, alloc: Global) -> Result<UpReg, ReadError> {
        let version = read_version(reader)?;
        let pro_tx = Hash256::read(reader, alloc)?;
        let mode = u16::read(reader, alloc)?;
        let operator = <[u8; 48]>::read(reader, alloc)?;
        let voting = <[u8; 20]>::read(reader, alloc)?;
        let payout = Bytes::read(reader, alloc)?;
        let inputs = Hash256::read(reader, alloc)?;
        let signature = Bytes::read(reader, alloc)?;
        Ok(UpReg {
            version,
            pro_tx,
            mode,
            operator,
            voting,
            payout,
            inputs,
            signature,
        })
    }

    fn feed<S: Sink>(&self, sink: &mut S) {
        self.version.feed(sink);
        self.pro_tx.feed(sink);
        self.mode.feed(sink);
        self.operator.feed(sink);
        self.voting.feed(sink);
        self.payout.feed(sink);
        self.inputs.feed(sink);
        self.signature.feed(sink);
    }
}

#[tactic(auto, using(dmn_bytes::proofs::Send::sent_then), unfolding(crate::specs::Payloads::revoke))]
impl Text for Revoke {
    ghost format = { revoke };

    ghost sound = { revoke_sound };

    fn read(reader: &mut Reader<'_>, alloc: Global) -> Result<Revoke, ReadError> {
        let version = read_version(reader)?;
        let pro_tx = Hash256::read(reader, alloc)?;
        let reason = u16::read(reader, alloc)?;
        let inputs = Hash256::read(reader, alloc)?;
        let signature = <[u8; 96]>::read(reader, alloc)?;
        Ok(Revoke {
            version,
            pro_tx,
            reason,
            inputs,
            signature,
        })
    }

    fn feed<S: Sink>(&self, sink: &mut S) {
        self.version.feed(sink);
        self.pro_tx.feed(sink);
        self.reason.feed(sink);
        self.inputs.feed(sink);
        self.signature.feed(sink);
    }
}

#[tactic(auto, using(dmn_bytes::proofs::Send::sent_then), unfolding(crate::specs::Payloads::cb))]
impl Text for CbTx {
    ghost format = { cb };

    ghost sound = { cb_sound };

    fn read(reader: &mut Reader<'_>, alloc: Global) -> Result<CbTx, ReadError> {
        let version = read_version(reader)?;
        let height = u32::read(reader, alloc)?;
        let rows = Hash256::read(reader, alloc)?;
        Ok(CbTx {
            version,
            height,
            rows,
        })
    }

    fn feed<S: Sink>(&self, sink: &mut S) {
        self.version.feed(sink);
        self.height.feed(sink);
        self.rows.feed(sink);
    }
}
