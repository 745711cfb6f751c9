// The entry points that read an arm, a mask or a bare list, as C functions for Rust. Each is its entry point and nothing more: the contract cites the same
// definition. An arm goes in by value; a part of a lent row comes back as offset and length.
#![tactic(auto)]

ghost use Rattle.std.specs.Prelude.{◌≡◌};
ghost use Rattle.refusal.specs.Counted.{out};
ghost use Rattle.topology.specs.declared.Split.TheVariants.{Delete, Cut};
ghost use Rattle.topology.specs.Answers.{branch_answer};
ghost use Rattle.masks.specs.Answers.{free_answer, below_answer};
ghost use Rattle.arm_views.specs.Numbers.{start_answer, dofs_answer};
ghost use Rattle.arm_views.specs.Links.{spring_answer, mul_answer};
ghost use Rattle.arm_views.specs.Branch.{arm_branch};
ghost use Rattle.arm_split.specs.Answers.{arm_split};
ghost use Rattle.unit_multibody_joint.specs.Outcome.{out as leaves};
ghost use Rattle.unit_multibody_joint.specs.Answers.{limit_answer, friction_answer};
ghost use Rattle.fill_jacobians.specs.Fill.{fill_answer};
ghost use Rattle.exports_views.specs.Place.{place_of};

use arm::Arm;
use arm_split::split;
use arm_views::{AxesAnswer, Role, RowPart, SpringAnswer, row_view};
use fill_jacobians::{Force, Sums};
use refusal::Counted;
use topology::Split;
use unit_multibody_joint::{ConstraintRow, Limits};

// ---- Masks and bare lists

// Is an axis of a mask free? The count is 1 or 0. Refused: 5.
#[unsafe(no_mangle)]
pub extern "C" fn giellavor_free_axis(mask: u32, axis: u32) -> Counted
    ensures { result ≡ free_answer mask axis }
{
    masks::free_axis(mask, axis).into()
}

// The DoFs of a mask below an axis. Refused: 5.
#[unsafe(no_mangle)]
pub extern "C" fn giellavor_dof_count_below(mask: u32, axis: u32) -> Counted
    ensures { result ≡ below_answer mask axis }
{
    masks::dof_count_below(mask, axis).into()
}

// The links from the root to a link of a list of parents, a byte each into `to`; returned is their count. Refused: 1, 2, 4.
#[unsafe(no_mangle)]
pub extern "C" fn giellavor_branch(parents: &[u8], link: u32, to: &mut [u8]) -> Counted
    ensures { out result to.new ≡ branch_answer parents.now link to.old }
{
    topology::kinematic_branch(parents, link as usize, to).into()
}

// ---- Counts

// The start of a link. Refused: 2 to 5, 7, 9.
#[unsafe(no_mangle)]
pub extern "C" fn giellavor_link_start(arm: Arm, link: u32) -> Counted
    ensures { result ≡ start_answer arm link }
{
    arm_views::link_start(&arm, link).into()
}

// The DoF count of an arm. Refused: 2 to 5, 7, 9.
#[unsafe(no_mangle)]
pub extern "C" fn giellavor_arm_dofs(arm: Arm) -> Counted
    ensures { result ≡ dofs_answer arm }
{
    arm_views::arm_dofs(&arm).into()
}

// ---- Joints

// The spring of an axis, locked or not. Refused: 2 to 5, 7, 9.
#[unsafe(no_mangle)]
pub extern "C" fn giellavor_spring(arm: Arm, link: u32, axis: u32) -> SpringAnswer
    ensures { result ≡ spring_answer arm link axis }
{
    arm_views::spring(&arm, link, axis).into()
}

// The accelerations of a link's joint, which begin with the link's own, put on their axes. Refused: 1 to 5, 7, 9.
#[unsafe(no_mangle)]
pub extern "C" fn giellavor_jacobian_mul_coordinates(
    arm: Arm,
    link: u32,
    accelerations: &[f32],
) -> AxesAnswer
    ensures { result ≡ mul_answer arm link accelerations.now }
{
    arm_views::jacobian_mul_coordinates(&arm, link, accelerations).into()
}

// ---- The tree

// The links from the root to a link, a byte each into `to`; returned is their count. Refused: 1 to 5, 7, 9.
#[unsafe(no_mangle)]
pub extern "C" fn giellavor_kinematic_branch(arm: Arm, link: u32, to: &mut [u8]) -> Counted
    ensures { out result to.new ≡ arm_branch arm link to.old }
{
    arm_views::kinematic_branch(&arm, link, to).into()
}

// A link is deleted: part and new number of each link, two bytes a link into `map`, 255 and 255 for the deleted one; returned is the part count.
// Refused: 1 to 5, 7, 9.
#[unsafe(no_mangle)]
pub extern "C" fn giellavor_arm_split_delete(arm: Arm, link: u32, map: &mut [u8]) -> Counted
    ensures { out result map.new ≡ arm_split arm (Delete link) map.old }
{
    split(&arm, Split::Delete(link as usize), map).into()
}

// A link's joint is cut. The rest as above.
#[unsafe(no_mangle)]
pub extern "C" fn giellavor_arm_split_cut(arm: Arm, link: u32, map: &mut [u8]) -> Counted
    ensures { out result map.new ≡ arm_split arm (Cut link) map.old }
{
    split(&arm, Split::Cut(link as usize), map).into()
}

// ---- Rows

// No conversion of the view's answer alone: where the part begins the arm says.
fn row_part(arm: &Arm, role: Role, link: u32, velocities: &[f32], accelerations: &[f32]) -> RowPart
    ensures { result ≡ place_of arm.now role link velocities.now accelerations.now }
{
    match row_view(arm, role, link, velocities, accelerations) {
        Ok(part) => RowPart {
            refusal: 0,
            offset: arm.start_of(link as usize),
            length: part.len(),
        },
        Err(refusal) => RowPart {
            refusal: refusal.number(),
            offset: 0,
            length: 0,
        },
    }
}

// A link's own part of the velocities. No lent float is read. Refused: 1 to 5, 7, 9.
#[unsafe(no_mangle)]
pub extern "C" fn giellavor_view_velocities(
    arm: Arm,
    link: u32,
    velocities: &[f32],
    accelerations: &[f32],
) -> RowPart
    ensures { result ≡ place_of arm Role.Velocities link velocities.now accelerations.now }
{
    row_part(&arm, Role::Velocities, link, velocities, accelerations)
}

// A link's own part of the accelerations. The rest as above.
#[unsafe(no_mangle)]
pub extern "C" fn giellavor_view_accelerations(
    arm: Arm,
    link: u32,
    velocities: &[f32],
    accelerations: &[f32],
) -> RowPart
    ensures { result ≡ place_of arm Role.Accelerations link velocities.now accelerations.now }
{
    row_part(&arm, Role::Accelerations, link, velocities, accelerations)
}

// ---- Constraint rows: the first n floats of `j` and of `wj` are written, n being the DoF count

// The row of an axis' limit. Refused: 1 to 7, 9 to 12.
#[unsafe(no_mangle)]
pub extern "C" fn giellavor_limit_row(
    arm: Arm,
    link: u32,
    axis: u32,
    given: Limits,
    mass: &[f32],
    j: &mut [f32],
    wj: &mut [f32],
) -> ConstraintRow
    ensures { leaves result j.new wj.new ≡ limit_answer arm link axis given mass.now j.old wj.old }
{
    unit_multibody_joint::limit_row(&arm, link, axis, given, mass, j, wj).into()
}

// The row of an axis' friction. Refused: as above.
#[unsafe(no_mangle)]
pub extern "C" fn giellavor_friction_row(
    arm: Arm,
    link: u32,
    axis: u32,
    dt: f32,
    cfm_coeff: f32,
    mass: &[f32],
    j: &mut [f32],
    wj: &mut [f32],
) -> ConstraintRow
    ensures { leaves result j.new wj.new ≡ friction_answer arm link axis dt cfm_coeff mass.now j.old wj.old }
{
    unit_multibody_joint::friction_row(&arm, link, axis, dt, cfm_coeff, mass, j, wj).into()
}

// What a force on a link does along each DoF, its solve by the mass matrix, and their sums. Refused: 1 to 5, 7, 9, 11, 12.
#[unsafe(no_mangle)]
pub extern "C" fn giellavor_fill_jacobians(
    arm: Arm,
    link: u32,
    force: Force,
    tables: &[f32],
    mass: &[f32],
    j: &mut [f32],
    wj: &mut [f32],
) -> Sums
    ensures { leaves result j.new wj.new ≡ fill_answer arm link force tables.now mass.now j.old wj.old }
{
    fill_jacobians::fill_jacobians(&arm, link, force, tables, mass, j, wj).into()
}
