// The whole step of an arm (`integrate` of the multibody): every joint is integrated by one dt, then the arm is worked out in full.
#![tactic(auto)]

ghost use Rattle.std.specs.Prelude.{◌≡◌, ◌≤◌};
ghost use Rattle.lists.specs.Tests.{every};
ghost use Rattle.refusal.specs.Refusal.{code};
ghost use Rattle.limits.specs.Limits.{link_limit};
ghost use Rattle.arm.specs.Edits.{edited_as};
ghost use Rattle.full_working.specs.Outcome.{out};
ghost use Rattle.whole_step.specs.Inner.{front_integrated};
ghost use Rattle.whole_step.specs.Step.{link_joint_finite, arm_after, step_refusal, whole_step};

use arm::{Arm, Link, RowName};
use floats::Finite;
use full_working::{tables_fit, work_all};
use limits::{DOFS, LINKS};
use masks::dofs;
use multibody_joint::integrate;
use refusal::{Refusal, lowest, unless};

// ---- Every joint integrated

// Each joint is handed the velocities from its link's start onward. By number: what is written to a lent part of the arm's array, the check loses.
fn step_links(links: &mut [Link; LINKS], n: usize, velocities: &[f32; DOFS], dt: f32)
    requires { n ≤ link_limit }
    ensures { links.new ≡ front_integrated n links.old velocities.now dt }
{
    let mut start = 0;
    for i in 0..n {
        let own = &velocities[start..];
        start += dofs(links[i].joint.locked);
        links[i].joint = integrate(links[i].joint, own, dt);
    }
}

// Nothing is worked out yet.
fn step_arm(arm: &mut Arm, dt: f32)
    ensures { arm.new ≡ arm_after arm.old dt }
{
    let velocities = *arm.row(RowName::Velocities);
    step_links(&mut arm.links, arm.link_count.min(LINKS), &velocities, dt);
}

// ---- The step

fn are_joints_finite(links: &[Link]) -> bool
    ensures { result ≡ every link_joint_finite links.now }
{
    links.iter().all(|link| link.joint.is_finite())
}

// An angle beyond 256 is 9, whatever else overflows; a joint that isn't finite is 12.
#[tactic(auto, unfolding(crate::specs::Step::step_refusal))]
fn step_refusal(arm: &Arm, new: &Arm, tables: &[f32], dt: f32) -> Result<(), Refusal>
    ensures { code result ≡ step_refusal arm.now new.now tables.now dt }
{
    lowest(&[
        unless(tables_fit(tables), Refusal::Memory),
        unless(dt.is_finite(), Refusal::NotFinite),
        unless(new.angles_fit(), Refusal::Beyond),
        arm.refusal(),
        unless(are_joints_finite(new.live_links()), Refusal::Overflow),
    ])
}

// Every joint is integrated by dt, and all of the tables are rewritten.
pub fn step(arm: &mut Arm, tables: &mut [f32], dt: f32) -> Result<(), Refusal>
    ensures { out (edited_as arm.new result) tables.new ≡ whole_step arm.old tables.old dt }
{
    let mut new = *arm;
    step_arm(&mut new, dt);
    step_refusal(arm, &new, tables, dt)?;
    work_all(&mut new, tables)?;
    *arm = new;
    Ok(())
}
