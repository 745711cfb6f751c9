// The working of an arm over its lent tables: what every call that works an arm out ends in, the full working, and the empty arm.
#![tactic(auto)]

ghost use Rattle.std.specs.Prelude.{◌≡◌};
ghost use Rattle.refusal.specs.Refusal.{code};
ghost use Rattle.arm.specs.Edits.{edited_as, made_as};
ghost use Rattle.full_working.specs.Outcome.{out, tables_fit, worked_all};
ghost use Rattle.full_working.specs.Full.{full_refusal, full_working};
ghost use Rattle.full_working.specs.Empty.{emptied};
ghost use Rattle.full_working.specs.Inner.{cleared_as, tables_cleared};

use arm::Arm;
use kinematics::refresh_all;
use limits::TABLES;
use refusal::{Refusal, lower, unless};

// ---- What a call ends in

// Every link of the arm is worked out, and all of the tables are rewritten; refused, the arm and the tables stay.
pub fn work_all(arm: &mut Arm, tables: &mut [f32]) -> Result<(), Refusal>
    ensures { out (edited_as arm.new result) tables.new ≡ worked_all arm.old arm.old tables.old }
{
    refresh_all(&mut arm.links, arm.link_count, tables)
}

// Is the lent memory long enough for the tables?
pub fn tables_fit(tables: &[f32]) -> bool
    ensures { result ≡ tables_fit tables.now }
{
    TABLES <= tables.len()
}

// ---- The full working

#[tactic(auto, unfolding(crate::specs::Full::full_refusal))]
fn full_refusal(arm: &Arm, tables: &[f32]) -> Result<(), Refusal>
    ensures { code result ≡ full_refusal arm.now tables.now }
{
    lower(unless(tables_fit(tables), Refusal::Memory), arm.refusal())
}

// All links, rising; all of the tables are rewritten.
#[tactic(auto, using(crate::proofs::Refused::refused_exit, crate::proofs::Refused::goes_past), unfolding(crate::specs::Full::full_working))]
pub fn full_working(arm: &mut Arm, tables: &mut [f32]) -> Result<(), Refusal>
    ensures { out (edited_as arm.new result) tables.new ≡ full_working arm.old tables.old }
{
    full_refusal(arm, tables)?;
    work_all(arm, tables)
}

// ---- The empty arm

// The tables of an arm of no links: +0.
#[tactic(auto, unfolding(crate::specs::Inner::tables_cleared))]
pub fn clear_tables(tables: &mut [f32]) -> Result<(), Refusal>
    ensures { cleared_as (code result) tables.new ≡ tables_cleared tables.old }
{
    unless(tables_fit(tables), Refusal::Memory)?;
    tables[..TABLES].fill(0.0);
    Ok(())
}

// An arm of no links; its tables hold +0. C is told of one by way of `clear_tables`: an arm that comes in a `Result` is copied more often.
pub fn empty(tables: &mut [f32]) -> Result<Arm, Refusal>
    ensures { out (made_as result) tables.new ≡ emptied tables.old }
{
    clear_tables(tables)?;
    Ok(Arm::empty())
}
