// The small edits of an arm: a row write, a spring, a coupling. Each is an entry point: links and axes are any numbers, the arm handed in is
// tested, and the lowest refusal of all is given. Refused, the arm is as it was.
#![tactic(auto)]

ghost use Rattle.std.specs.Prelude.{◌≡◌};
ghost use Rattle.refusal.specs.Refusal.{code};
ghost use Rattle.arm.specs.Edits.{edited_as};
ghost use Rattle.arm_edits.specs.Rows.{write_refusal, row_written};
ghost use Rattle.arm_edits.specs.Springs.{spring_refusal, arm_spring_set};
ghost use Rattle.arm_edits.specs.Couplings.{coupling_refusal, coupling_added};

use arm::{Arm, Coupling, RowName};
use floats::Finite;
use limits::COUPLINGS;
use masks::{is_axis, is_free};
use multibody_joint::Spring;
use refusal::{Refusal, lowest, unless};

// ---- Row writes

#[tactic(auto, unfolding(crate::specs::Rows::write_refusal))]
fn write_refusal(arm: &Arm, link: u32, axis: u32, value: f32) -> Result<(), Refusal>
    ensures { code result ≡ write_refusal arm.now link axis value }
{
    lowest(&[
        unless((link as usize) < arm.link_count, Refusal::Link),
        unless(is_axis(axis), Refusal::Mask),
        unless(is_free(arm.mask_at(link as usize), axis), Refusal::Locked),
        unless(value.is_finite(), Refusal::NotFinite),
        arm.refusal(),
    ])
}

// Sets one entry of a row, named by link and axis.
#[tactic(auto, using(arm::proofs::Edits::edited_exit, crate::proofs::Accepted::write_passed), unfolding(crate::specs::Rows::row_written))]
pub fn write_row(
    arm: &mut Arm,
    name: RowName,
    link: u32,
    axis: u32,
    value: f32,
) -> Result<(), Refusal>
    ensures { edited_as arm.new result ≡ row_written arm.old name link axis value }
{
    write_refusal(arm, link, axis, value)?;
    let at = arm.dof_at(link as usize, axis);
    arm.rows[name.number()].entries[at] = value;
    Ok(())
}

// ---- Springs

#[tactic(auto, unfolding(crate::specs::Springs::spring_refusal))]
fn spring_refusal(arm: &Arm, link: u32, axis: u32, spring: Spring) -> Result<(), Refusal>
    ensures { code result ≡ spring_refusal arm.now link axis spring }
{
    lowest(&[
        unless((link as usize) < arm.link_count, Refusal::Link),
        unless(is_axis(axis), Refusal::Mask),
        unless(spring.is_finite(), Refusal::NotFinite),
        arm.refusal(),
    ])
}

// Sets the spring of an axis of a link's joint, locked or not.
#[tactic(auto, using(arm::proofs::Edits::edited_exit, crate::proofs::Accepted::spring_passed), unfolding(crate::specs::Springs::arm_spring_set))]
pub fn set_spring(arm: &mut Arm, link: u32, axis: u32, spring: Spring) -> Result<(), Refusal>
    ensures { edited_as arm.new result ≡ arm_spring_set arm.old link axis spring }
{
    spring_refusal(arm, link, axis, spring)?;
    let at = link as usize;
    arm.links[at].joint = multibody_joint::set_spring(arm.links[at].joint, axis, spring);
    Ok(())
}

// ---- Couplings

// A coupling as it is given: two links with an axis each, of any numbers.
#[repr(C)]
#[derive(Clone, Copy)]
pub struct NewCoupling {
    pub link1: u32,
    pub axis1: u32,
    pub link2: u32,
    pub axis2: u32,
    pub coefficient: f32,
    pub offset: f32,
}

#[tactic(auto, unfolding(crate::specs::Couplings::coupling_refusal))]
fn coupling_refusal(arm: &Arm, c: NewCoupling) -> Result<(), Refusal>
    ensures { code result ≡ coupling_refusal arm.now c }
{
    let n = arm.link_count;
    lowest(&[
        unless(arm.coupling_count < COUPLINGS, Refusal::Limit),
        unless(
            ((c.link1 as usize) < n) & ((c.link2 as usize) < n),
            Refusal::Link,
        ),
        unless(is_axis(c.axis1) & is_axis(c.axis2), Refusal::Mask),
        unless(
            c.coefficient.is_finite() & c.offset.is_finite(),
            Refusal::NotFinite,
        ),
        arm.refusal(),
    ])
}

// Adds a coupling at the end of the list. A locked axis may be coupled.
#[tactic(auto, using(arm::proofs::Edits::edited_exit, arm::proofs::Edits::edited_passed, crate::proofs::Accepted::coupling_passed), unfolding(crate::specs::Couplings::coupling_added, crate::specs::Couplings::with_coupling))]
pub fn add_coupling(arm: &mut Arm, c: NewCoupling) -> Result<(), Refusal>
    ensures { edited_as arm.new result ≡ coupling_added arm.old c }
{
    coupling_refusal(arm, c)?;
    // Each number fits its byte, or it would have been refused.
    arm.couplings[arm.coupling_count] = Coupling {
        link1: c.link1 as u8,
        axis1: c.axis1 as u8,
        link2: c.link2 as u8,
        axis2: c.axis2 as u8,
        coefficient: c.coefficient,
        offset: c.offset,
    };
    arm.coupling_count += 1;
    Ok(())
}
