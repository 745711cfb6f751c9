// What is read of an arm: starts, springs, accelerations on their axes, the branch of a link, a link's own part of a row. Each is an entry
// point: links and axes are any numbers, the arm handed in is tested, and the lowest refusal of all is given.
#![tactic(auto)]

ghost use Rattle.std.specs.Prelude.{◌≡◌};
ghost use Rattle.refusal.specs.Refusal.{code};
ghost use Rattle.refusal.specs.Counted.{counted, out};
ghost use Rattle.arm_views.specs.Numbers.{start_refusal, start_answer, dofs_answer};
ghost use Rattle.arm_views.specs.Links.{spring_refusal, spring_as, spring_answer, mul_refusal, axes_as, mul_answer};
ghost use Rattle.arm_views.specs.Branch.{branch_needed, branch_refusal, arm_branch};
ghost use Rattle.arm_views.specs.View.{seen_as, row_of, view_refusal, view_answer};

use arm::Arm;
use floats::is_finite_part;
use masks::{dofs, is_axis};
use multibody_joint::Spring;
use refusal::{Refusal, lowest, unless};

// ---- Starts

#[tactic(auto, unfolding(crate::specs::Numbers::start_refusal))]
fn start_refusal(arm: &Arm, link: u32) -> Result<(), Refusal>
    ensures { code result ≡ start_refusal arm.now link }
{
    lowest(&[
        unless((link as usize) < arm.link_count, Refusal::Link),
        arm.refusal(),
    ])
}

// The start of a link.
#[tactic(auto, using(refusal::proofs::Answers::counted_passed, refusal::proofs::Answers::counted_exit), unfolding(crate::specs::Numbers::start_answer))]
pub fn link_start(arm: &Arm, link: u32) -> Result<usize, Refusal>
    ensures { counted result ≡ start_answer arm.now link }
{
    start_refusal(arm, link)?;
    Ok(arm.start_of(link as usize))
}

// The DoF count of an arm.
#[tactic(auto, using(refusal::proofs::Answers::counted_passed, refusal::proofs::Answers::counted_exit), unfolding(crate::specs::Numbers::dofs_answer))]
pub fn arm_dofs(arm: &Arm) -> Result<usize, Refusal>
    ensures { counted result ≡ dofs_answer arm.now }
{
    arm.refusal()?;
    Ok(arm.dof_count())
}

// ---- Springs

#[tactic(auto, unfolding(crate::specs::Links::spring_refusal))]
fn spring_refusal(arm: &Arm, link: u32, axis: u32) -> Result<(), Refusal>
    ensures { code result ≡ spring_refusal arm.now link axis }
{
    lowest(&[
        unless((link as usize) < arm.link_count, Refusal::Link),
        unless(is_axis(axis), Refusal::Mask),
        arm.refusal(),
    ])
}

// The spring of an axis of a link's joint, locked or not.
#[tactic(auto, using(crate::proofs::Accepted::spring_placed, crate::proofs::Answers::spring_exit, crate::proofs::Answers::spring_read))]
pub fn spring(arm: &Arm, link: u32, axis: u32) -> Result<Spring, Refusal>
    ensures { spring_as result ≡ spring_answer arm.now link axis }
{
    spring_refusal(arm, link, axis)?;
    Ok(multibody_joint::spring_of(arm.links[link as usize].joint, axis))
}

// What C is told of a spring: a refusal and a spring of zeros, or 0 and the spring.
#[repr(C)]
#[derive(Clone, Copy)]
pub struct SpringAnswer {
    pub refusal: u8,
    pub spring: Spring,
}

impl From<Result<Spring, Refusal>> for SpringAnswer {
    ghost from_gives = { λ r c. c ≡ spring_as r };

    fn from(answer: Result<Spring, Refusal>) -> SpringAnswer {
        match answer {
            Ok(spring) => SpringAnswer { refusal: 0, spring },
            Err(refusal) => SpringAnswer {
                refusal: refusal.number(),
                spring: Spring {
                    stiffness: 0.0,
                    rest: 0.0,
                },
            },
        }
    }
}

// ---- Accelerations on their axes

#[tactic(auto, unfolding(crate::specs::Links::mul_refusal))]
fn mul_refusal(arm: &Arm, link: u32, accelerations: &[f32]) -> Result<(), Refusal>
    ensures { code result ≡ mul_refusal arm.now link accelerations.now }
{
    let n = dofs(arm.mask_at(link as usize));
    lowest(&[
        unless(n <= accelerations.len(), Refusal::Memory),
        unless((link as usize) < arm.link_count, Refusal::Link),
        unless(is_finite_part(accelerations, 0, n), Refusal::NotFinite),
        arm.refusal(),
    ])
}

// The accelerations of a link's joint, which begin with the link's own, put on their axes.
#[tactic(auto, using(crate::proofs::Accepted::mul_placed, crate::proofs::Answers::axes_exit, crate::proofs::Answers::axes_read))]
pub fn jacobian_mul_coordinates(
    arm: &Arm,
    link: u32,
    accelerations: &[f32],
) -> Result<[f32; 3], Refusal>
    ensures { axes_as result ≡ mul_answer arm.now link accelerations.now }
{
    mul_refusal(arm, link, accelerations)?;
    let joint = arm.links[link as usize].joint;
    Ok(multibody_joint::jacobian_mul_coordinates(joint, accelerations))
}

// What C is told of an entry for each axis: a refusal and zeros, or 0 and the entries.
#[repr(C)]
#[derive(Clone, Copy)]
pub struct AxesAnswer {
    pub refusal: u8,
    pub axes: [f32; 3],
}

impl From<Result<[f32; 3], Refusal>> for AxesAnswer {
    ghost from_gives = { λ r c. c ≡ axes_as r };

    fn from(answer: Result<[f32; 3], Refusal>) -> AxesAnswer {
        match answer {
            Ok(axes) => AxesAnswer { refusal: 0, axes },
            Err(refusal) => AxesAnswer {
                refusal: refusal.number(),
                axes: [0.0; 3],
            },
        }
    }
}

// ---- The branch of a link

// How many places a branch needs.
fn branch_needed(arm: &Arm, link: usize) -> usize
    ensures { result ≡ branch_needed arm.now link }
{
    let parents = arm.parents();
    topology::branch_length(&parents[..arm.live_links().len()], link)
}

#[tactic(auto, unfolding(crate::specs::Branch::branch_refusal))]
fn branch_refusal(arm: &Arm, link: u32, room: usize) -> Result<(), Refusal>
    ensures { code result ≡ branch_refusal arm.now link room }
{
    lowest(&[
        unless(branch_needed(arm, link as usize) <= room, Refusal::Memory),
        unless((link as usize) < arm.link_count, Refusal::Link),
        arm.refusal(),
    ])
}

// The links from the root to a link, a byte each, written into lent memory, with their count.
#[tactic(auto, using(refusal::proofs::Answers::filled_exit), unfolding(crate::specs::Branch::arm_branch))]
pub fn kinematic_branch(arm: &Arm, link: u32, to: &mut [u8]) -> Result<usize, Refusal>
    ensures { out (counted result) to.new ≡ arm_branch arm.now link to.old }
{
    branch_refusal(arm, link, to.len())?;
    let parents = arm.parents();
    topology::kinematic_branch(&parents[..arm.live_links().len()], link as usize, to)
}

// ---- A link's own part of a row

// Which of the two lent rows is asked for.
#[derive(Clone, Copy, Debug, PartialEq, Eq)]
pub enum Role {
    Velocities,
    Accelerations,
}

impl Role {
    fn row<'a>(self, velocities: &'a [f32], accelerations: &'a [f32]) -> &'a [f32]
        ensures { result.now ≡ row_of self velocities.now accelerations.now }
    {
        match self {
            Role::Velocities => velocities,
            Role::Accelerations => accelerations,
        }
    }
}

#[tactic(auto, unfolding(crate::specs::View::view_refusal))]
fn view_refusal(
    arm: &Arm,
    link: u32,
    velocities: usize,
    accelerations: usize,
) -> Result<(), Refusal>
    ensures { code result ≡ view_refusal arm.now link velocities accelerations }
{
    let n = arm.dof_count();
    lowest(&[
        unless((n <= velocities) & (n <= accelerations), Refusal::Memory),
        unless((link as usize) < arm.link_count, Refusal::Link),
        arm.refusal(),
    ])
}

// A link's own part of the velocities or of the accelerations. No lent float is read.
#[tactic(auto, using(crate::proofs::Views::seen_exit, crate::proofs::Views::view_fits, crate::proofs::Views::view_room, crate::proofs::Views::seen_read))]
pub fn row_view<'a>(
    arm: &Arm,
    role: Role,
    link: u32,
    velocities: &'a [f32],
    accelerations: &'a [f32],
) -> Result<&'a [f32], Refusal>
    ensures { seen_as result ≡ view_answer arm.now role link velocities.now accelerations.now }
{
    view_refusal(arm, link, velocities.len(), accelerations.len())?;
    let row = role.row(velocities, accelerations);
    let start = arm.start_of(link as usize);
    let end = start + dofs(arm.mask_at(link as usize));
    Ok(&row[start..end])
}

// Where a link's own part of a lent row stands in it, as C is told; zeros where refused.
#[repr(C)]
#[derive(Clone, Copy)]
pub struct RowPart {
    pub refusal: u8,
    pub offset: usize,
    pub length: usize,
}
