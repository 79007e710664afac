//! The office of a run, and the pages that it told so far.

ghost use Rattle.std.specs.Prelude.{◌≡◌, ◌++◌, ◌≤◌, false, true, IfOk, IsErrOf, OnOk};
ghost use Rattle.std.specs.List.{All, flat_map};
ghost use Rattle.dmn_journal.specs.Sure.{NeverFails};
ghost use Rattle.dmn_outside.specs.Counts.{Rose};
ghost use Rattle.dmn_sml.specs.Entry.{entry};
ghost use Rattle.dmn_make.specs.Asking.{Does};
ghost use Rattle.dmn_make.specs.Going.{Going, page_text};
ghost use Rattle.dmn_make.specs.Room.{HasRoomFor, HasRoomForAll};
ghost use Rattle.dmn_make.specs.Running.{IsAt, TakesStep, TakesSteps};
ghost use Rattle.dmn_make.specs.Steps.{HasHeight};
ghost use Rattle.dmn_make.specs.declared.step.Step.TheVariants.{TakeBack, Tell};

use crate::asking::ask;
use crate::blocks::add_block;
use crate::fault::MakeFault;
use crate::step::{PAGE, Step};
use dmn_bytes::{Bytes, Draft, Memory, feed_many};
use dmn_desk::{Answer, GrownAnswer, Request};
use dmn_office::Office;
use dmn_outside::Disk;
use std::alloc::Global;

/// The office of a run, and the texts of the entries that it told so far.
#[derive(Drop)]
pub struct Maker {
    pub office: Office,
    /// As many masternodes there are in all.
    pub count: u32,
    pub pages: Bytes,
}

// Adds the texts of a page's entries.
fn add_page(pages: &mut Bytes, answer: &Answer) -> Result<(), Memory>
    ensures { OnOk result (pages.new ≡ pages.old ++ page_text answer.now) }
{
    let Answer::Grown(GrownAnswer::Page(entries)) = answer else {
        return Ok(());
    };
    let mut draft = Draft::on(pages);
    feed_many(entries.as_slice(), &mut draft);
    draft.finish(pages)
}

impl Maker {
    // Takes the last block back.
    fn take_back<D: Disk>(&mut self, alloc: Global, disk: &mut D) -> Result<(), MakeFault>
        requires usable { self.old.office.registry.spent ≡ false }
        ensures takes { D.tells ≡ true → TakesStep result self.old.count TakeBack (D.time disk.old) (D.disk disk.old) (D.disk disk.new) self.old self.new }
        ensures count { self.new.count ≡ self.old.count }
        ensures usable { OnOk result (self.new.office.registry.spent ≡ false) }
        ensures line { D.line disk.new ≡ D.line disk.old }
        ensures room { D.room disk.new ≡ D.room disk.old }
        ensures time { D.time disk.old ≤ D.time disk.new }
        ensures later { (D.disk disk.old).faults ≤ (D.disk disk.new).faults }
        ensures fault { IsErrOf result MakeFault.DiskFault → Rose (D.disk disk.old).faults (D.disk disk.new).faults }
        ensures sure { D.tells_room ≡ true → (g : Going) → IsAt self.old g (D.disk disk.old).told → HasRoomFor self.old.count TakeBack g.machine (D.disk disk.old).room → NeverFails result MakeFault.DiskFault (D.disk disk.old) (D.disk disk.new) }
    {
        let hash = self.office.registry.branch().tip().hash;
        ask(alloc, disk, &mut self.office, &Request::Disconnect { hash })?;
        Ok(())
    }

    // Tells a page.
    fn tell<D: Disk>(&mut self, alloc: Global, disk: &mut D, from: u32) -> Result<(), MakeFault>
        requires usable { self.old.office.registry.spent ≡ false }
        ensures takes { D.tells ≡ true → TakesStep result self.old.count (Tell from) (D.time disk.old) (D.disk disk.old) (D.disk disk.new) self.old self.new }
        ensures count { self.new.count ≡ self.old.count }
        ensures usable { OnOk result (self.new.office.registry.spent ≡ false) }
        ensures line { D.line disk.new ≡ D.line disk.old }
        ensures room { D.room disk.new ≡ D.room disk.old }
        ensures time { D.time disk.old ≤ D.time disk.new }
        ensures later { (D.disk disk.old).faults ≤ (D.disk disk.new).faults }
        ensures fault { IsErrOf result MakeFault.DiskFault → Rose (D.disk disk.old).faults (D.disk disk.new).faults }
        ensures sure { D.tells_room ≡ true → (g : Going) → IsAt self.old g (D.disk disk.old).told → HasRoomFor self.old.count (Tell from) g.machine (D.disk disk.old).room → NeverFails result MakeFault.DiskFault (D.disk disk.old) (D.disk disk.new) }
    {
        let request = Request::Page {
            pin: 1,
            from,
            count: PAGE,
        };
        let answer = ask(alloc, disk, &mut self.office, &request)?;
        add_page(&mut self.pages, &answer)?;
        Ok(())
    }

    // Takes a step.
    fn take_step<D: Disk>(
        &mut self,
        alloc: Global,
        disk: &mut D,
        step: Step,
    ) -> Result<(), MakeFault>
        requires usable { self.old.office.registry.spent ≡ false }
        requires height { HasHeight step }
        ensures takes { D.tells ≡ true → TakesStep result self.old.count step (D.time disk.old) (D.disk disk.old) (D.disk disk.new) self.old self.new }
        ensures count { self.new.count ≡ self.old.count }
        ensures usable { OnOk result (self.new.office.registry.spent ≡ false) }
        ensures line { D.line disk.new ≡ D.line disk.old }
        ensures room { D.room disk.new ≡ D.room disk.old }
        ensures time { D.time disk.old ≤ D.time disk.new }
        ensures later { (D.disk disk.old).faults ≤ (D.disk disk.new).faults }
        ensures fault { IsErrOf result MakeFault.DiskFault → Rose (D.disk disk.old).faults (D.disk disk.new).faults }
        ensures sure { D.tells ≡ true → D.tells_room ≡ true → (g : Going) → IsAt self.old g (D.disk disk.old).told → HasRoomFor self.old.count step g.machine (D.disk disk.old).room → NeverFails result MakeFault.DiskFault (D.disk disk.old) (D.disk disk.new) }
    {
        match step {
            Step::Add { chain, height } => {
                add_block(alloc, disk, &mut self.office, self.count, chain, height)
            }
            Step::TakeBack => self.take_back(alloc, disk),
            Step::Pin { height } => {
                ask(alloc, disk, &mut self.office, &Request::Pin { height })?;
                Ok(())
            }
            Step::Tell { from } => self.tell(alloc, disk, from),
        }
    }

    /// Takes these steps, one after another.
    pub fn take_steps<D: Disk>(
        &mut self,
        alloc: Global,
        disk: &mut D,
        steps: &[Step],
    ) -> Result<(), MakeFault>
        requires usable { self.old.office.registry.spent ≡ false }
        requires heights { All HasHeight steps.now }
        ensures takes { D.tells ≡ true → TakesSteps result self.old.count steps.now (D.time disk.old) (D.disk disk.old) (D.disk disk.new) self.old self.new }
        ensures line { D.line disk.new ≡ D.line disk.old }
        ensures room { D.room disk.new ≡ D.room disk.old }
        ensures time { D.time disk.old ≤ D.time disk.new }
        ensures later { (D.disk disk.old).faults ≤ (D.disk disk.new).faults }
        ensures fault { IsErrOf result MakeFault.DiskFault → Rose (D.disk disk.old).faults (D.disk disk.new).faults }
        ensures sure { D.tells ≡ true → D.tells_room ≡ true → (g : Going) → IsAt self.old g (D.disk disk.old).told → HasRoomForAll self.old.count steps.now g (D.disk disk.old).room → NeverFails result MakeFault.DiskFault (D.disk disk.old) (D.disk disk.new) }
    {
        'steps: for step in steps {
            self.take_step(alloc, disk, *step)?;
        }
        Ok(())
    }
}
