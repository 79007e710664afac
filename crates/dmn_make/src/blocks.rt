//! The blocks of a run, each behind the tip.

ghost use Rattle.std.specs.Prelude.{◌≡◌, ◌^◌, ◌≤◌, Some, false, true, IfOk, IsErrOf, OnOk};
ghost use Rattle.dmn_generator.specs.Blocks.{body_of};
ghost use Rattle.dmn_generator.specs.declared.blocks.TheConstants.{FIRST};
ghost use Rattle.dmn_journal.specs.Sure.{NeverFails};
ghost use Rattle.dmn_outside.specs.Counts.{Rose};
ghost use Rattle.dmn_outside.specs.Disk.{Told};
ghost use Rattle.dmn_registry.specs.Machine.{Machine, connecting};
ghost use Rattle.dmn_registry.specs.Own.{StandsFor};
ghost use Rattle.dmn_registry.specs.Snapshots.{SnapshotsFit};
ghost use Rattle.dmn_make.specs.Asking.{Answers, Does, Stands};
ghost use Rattle.dmn_make.specs.Going.{added, formed_for, place_of, right_root, with_block, with_root};
ghost use Rattle.dmn_make.specs.Room.{HasPlace, HasPlaceForBlock, HasRoomFor};
ghost use Rattle.dmn_make.specs.declared.step.Step.TheVariants.{Add};

use crate::asking::add_body;
use crate::fault::MakeFault;
use crate::step::Chain;
use dmn_block::Refusal;
use dmn_bytes::{Hash256, Memory};
use dmn_desk::{Answer, ShortAnswer};
use dmn_generator::{Place, block_body, tag};
use dmn_office::Office;
use dmn_outside::Disk;
use dmn_quorums::Forming;
use dmn_rows::Rule;
use std::alloc::Global;

/// The root that the list has, where an answer tells it.
fn right_root(answer: &Answer) -> Option<Hash256>
    ensures { result ≡ right_root answer.now }
{
    let Answer::Short(ShortAnswer::Refused(Refusal { rule, .. })) = answer else {
        return None;
    };
    let Rule::CbRoot { computed, .. } = rule else {
        return None;
    };
    Some(*computed)
}

/// What is known of each type's quorum for a block at a height, where that is the next one.
fn formings_for(office: &mut Office, alloc: Global, height: u32) -> Result<Vec<Forming>, Memory>
    ensures formed { (m : Machine) → StandsFor office.old.registry m → IfOk result (λ formings. formings.items ≡ formed_for m height) }
    ensures same { (m : Machine) (told : Told) → Stands office.old m told → Stands office.new m told }
    ensures usable { office.new.registry.spent ≡ office.old.registry.spent }
{
    let tip = office.registry.branch().tip();
    if height == 0 || tip.height != height - 1 {
        return Ok(Vec::new(alloc));
    }
    office.registry.formings_at(alloc, height)
}

/// The place of the block of a height, behind the tip.
fn place_of(alloc: Global, office: &Office, chain: Chain, height: u32) -> Result<Place, Memory>
    ensures place { (m : Machine) → StandsFor office.now.registry m → IfOk result (λ place. place ≡ place_of chain m height) }
    ensures height { IfOk result (λ place. place.height ≡ height) }
{
    Ok(Place {
        height,
        hash: tag(alloc, chain.name(), height)?,
        prev: office.registry.branch().tip().hash,
    })
}

/// A block that is to be added, but for its root.
#[derive(Drop)]
struct Draft {
    /// As many masternodes there are in all.
    count: u32,
    place: Place,
    formings: Vec<Forming>,
}

/// Adds a block with this root of the list.
fn add_with<D: Disk>(
    alloc: Global,
    disk: &mut D,
    office: &mut Office,
    draft: &Draft,
    root: &Hash256,
) -> Result<Answer, MakeFault>
    requires usable { office.old.registry.spent ≡ false }
    requires first { FIRST ≤ draft.now.place.height }
    requires last { draft.now.place.height ≤ 2 ^ 24 }
    ensures does { D.tells ≡ true → Does result (λ m. (added (body_of draft.now.count draft.now.place draft.now.formings.items root.now) m).1) (D.time disk.old) (D.disk disk.old) (D.disk disk.new) office.old office.new }
    ensures answers { D.tells ≡ true → Answers result (λ m. (added (body_of draft.now.count draft.now.place draft.now.formings.items root.now) m).0) office.old (D.disk disk.old).told }
    ensures usable { OnOk result (office.new.registry.spent ≡ false) }
    ensures line { D.line disk.new ≡ D.line disk.old }
    ensures room { D.room disk.new ≡ D.room disk.old }
    ensures time { D.time disk.old ≤ D.time disk.new }
    ensures later { (D.disk disk.old).faults ≤ (D.disk disk.new).faults }
    ensures fault { IsErrOf result MakeFault.DiskFault → Rose (D.disk disk.old).faults (D.disk disk.new).faults }
    ensures sure { D.tells_room ≡ true → (m : Machine) → Stands office.old m (D.disk disk.old).told → HasPlace m (Some (connecting (body_of draft.now.count draft.now.place draft.now.formings.items root.now))) (D.disk disk.old).room → SnapshotsFit m (D.disk disk.old).room → NeverFails result MakeFault.DiskFault (D.disk disk.old) (D.disk disk.new) }
{
    let body = block_body(alloc, draft.count, &draft.place, &draft.formings, root)?;
    add_body(alloc, disk, office, body.as_slice())
}

/// Adds a block with the right root of the list: first with zero, and where that is refused with the root that the refusal tells.
fn add_draft<D: Disk>(
    alloc: Global,
    disk: &mut D,
    office: &mut Office,
    draft: &Draft,
) -> Result<(), MakeFault>
    requires usable { office.old.registry.spent ≡ false }
    requires first { FIRST ≤ draft.now.place.height }
    requires last { draft.now.place.height ≤ 2 ^ 24 }
    ensures does { D.tells ≡ true → Does result (with_root (body_of draft.now.count draft.now.place draft.now.formings.items)) (D.time disk.old) (D.disk disk.old) (D.disk disk.new) office.old office.new }
    ensures usable { OnOk result (office.new.registry.spent ≡ false) }
    ensures line { D.line disk.new ≡ D.line disk.old }
    ensures room { D.room disk.new ≡ D.room disk.old }
    ensures time { D.time disk.old ≤ D.time disk.new }
    ensures later { (D.disk disk.old).faults ≤ (D.disk disk.new).faults }
    ensures fault { IsErrOf result MakeFault.DiskFault → Rose (D.disk disk.old).faults (D.disk disk.new).faults }
    ensures sure { D.tells ≡ true → D.tells_room ≡ true → (m : Machine) → Stands office.old m (D.disk disk.old).told → HasPlaceForBlock (body_of draft.now.count draft.now.place draft.now.formings.items) m (D.disk disk.old).room → SnapshotsFit m (D.disk disk.old).room → NeverFails result MakeFault.DiskFault (D.disk disk.old) (D.disk disk.new) }
{
    let answer = add_with(alloc, disk, office, draft, &Hash256([0; 32]))?;
    match right_root(&answer) {
        None => Ok(()),
        Some(root) => {
            add_with(alloc, disk, office, draft, &root)?;
            Ok(())
        }
    }
}

/// Adds the block of a height. One that is refused is passed over.
pub fn add_block<D: Disk>(
    alloc: Global,
    disk: &mut D,
    office: &mut Office,
    count: u32,
    chain: Chain,
    height: u32,
) -> Result<(), MakeFault>
    requires usable { office.old.registry.spent ≡ false }
    requires first { FIRST ≤ height }
    requires last { height ≤ 2 ^ 24 }
    ensures does { D.tells ≡ true → Does result (with_block count chain height) (D.time disk.old) (D.disk disk.old) (D.disk disk.new) office.old office.new }
    ensures usable { OnOk result (office.new.registry.spent ≡ false) }
    ensures line { D.line disk.new ≡ D.line disk.old }
    ensures room { D.room disk.new ≡ D.room disk.old }
    ensures time { D.time disk.old ≤ D.time disk.new }
    ensures later { (D.disk disk.old).faults ≤ (D.disk disk.new).faults }
    ensures fault { IsErrOf result MakeFault.DiskFault → Rose (D.disk disk.old).faults (D.disk disk.new).faults }
    ensures sure { D.tells ≡ true → D.tells_room ≡ true → (m : Machine) → Stands office.old m (D.disk disk.old).told → HasRoomFor count (Add chain height) m (D.disk disk.old).room → NeverFails result MakeFault.DiskFault (D.disk disk.old) (D.disk disk.new) }
{
    let draft = Draft {
        count,
        place: place_of(alloc, office, chain, height)?,
        formings: formings_for(office, alloc, height)?,
    };
    add_draft(alloc, disk, office, &draft)
}
