// A joint between a link and its parent: which axes are free, where its frames stand, and where it is along its axes.
#![tactic(auto)]

ghost use Rattle.std.specs.Prelude.{◌≡◌};
ghost use Rattle.masks.specs.Masks.{is_free};
ghost use Rattle.masks.specs.Axis.{axis_number};
ghost use Rattle.multibody_joint.specs.Joint.{new_joint, with_frames, with_motion, coordinate_of, slid_by, body_to_parent, free_joint, fixed_joint, free_pos_set, joint_finite};
ghost use Rattle.multibody_joint.specs.Motion.{entry_at, integrated_at, renewed, integrated, on_axis, on_axes};
ghost use Rattle.multibody_joint.specs.Springs.{spring_set, spring_of, spring_finite};

use floats::{Finite, all_finite, entry};
use masks::{Axis, dofs_below, is_free};
use planar::{Point, Pose, Rotation, identity, rotation_of};

// The axes of a joint, rising.
const AXES: [Axis; 3] = [Axis::X, Axis::Y, Axis::Angle];

#[repr(C)]
#[derive(Clone, Copy)]
pub struct Joint {
    pub locked: u8,
    pub limit: u8,
    pub motor: u8,
    pub frame1: Pose,
    pub frame2: Pose,
    pub coordinates: [f32; 3],
    pub rotation: Rotation,
    pub stiffness: [f32; 3],
    pub rest: [f32; 3],
}

#[repr(C)]
#[derive(Clone, Copy)]
pub struct Spring {
    pub stiffness: f32,
    pub rest: f32,
}

// ---- Are all its floats finite?

impl Finite for Joint {
    ghost finite = { joint_finite };

    #[tactic(auto, unfolding(crate::specs::Joint::joint_finite))]
    fn is_finite(&self) -> bool {
        self.frame1.is_finite()
            & self.frame2.is_finite()
            & all_finite(&self.coordinates)
            & self.rotation.is_finite()
            & all_finite(&self.stiffness)
            & all_finite(&self.rest)
    }
}

impl Finite for Spring {
    ghost finite = { spring_finite };

    #[tactic(auto, unfolding(crate::specs::Springs::spring_finite))]
    fn is_finite(&self) -> bool {
        self.stiffness.is_finite() & self.rest.is_finite()
    }
}

// ---- Made, and changed

// Coordinates and springs zero, rotation identity.
#[tactic(auto, unfolding(crate::specs::Joint::new_joint))]
pub fn new_joint(locked: u8, limit: u8, motor: u8, frame1: Pose, frame2: Pose) -> Joint
    ensures { result ≡ new_joint locked limit motor frame1 frame2 }
{
    let zeros = [0.0f32; 3];
    Joint {
        locked,
        limit,
        motor,
        frame1,
        frame2,
        coordinates: zeros,
        rotation: rotation_of(identity()),
        stiffness: zeros,
        rest: zeros,
    }
}

// The joint with other frames.
pub fn with_frames(j: Joint, frame1: Pose, frame2: Pose) -> Joint
    ensures { result ≡ with_frames j frame1 frame2 }
{
    Joint {
        frame1,
        frame2,
        ..j
    }
}

// The joint with other coordinates and another rotation.
pub fn with_motion(j: Joint, coordinates: [f32; 3], rotation: Rotation) -> Joint
    ensures { result ≡ with_motion j coordinates rotation }
{
    Joint {
        coordinates,
        rotation,
        ..j
    }
}

// ---- Of one axis

impl Joint {
    fn is_free(&self, axis: Axis) -> bool
        ensures { result ≡ is_free self.now.locked (axis_number axis) }
    {
        is_free(self.locked, axis.number())
    }

    fn coordinate(&self, axis: Axis) -> f32
        ensures { result ≡ coordinate_of self.now (axis_number axis) }
    {
        self.coordinates[axis.number() as usize]
    }

    // An axis' entry of a row that begins with the joint's own; one that is missing counts as +0.
    fn entry(&self, row: &[f32], axis: Axis) -> f32
        ensures { result ≡ entry_at self.now row.now (axis_number axis) }
    {
        entry(row, dofs_below(self.locked, axis.number()))
    }
}

// ---- Its pose

// x, and on a free straight axis its coordinate more.
#[tactic(auto, unfolding(crate::specs::Joint::slid_by))]
fn slid(j: Joint, axis: Axis, x: f32) -> f32
    ensures { result ≡ slid_by j (axis_number axis) x }
{
    if j.is_free(axis) {
        x + j.coordinate(axis)
    } else {
        x
    }
}

// The link's pose in its parent's frame.
#[tactic(auto, unfolding(crate::specs::Joint::body_to_parent, crate::specs::Joint::slid_pose))]
pub fn body_to_parent(j: Joint) -> Pose
    ensures { result ≡ body_to_parent j }
{
    let turn = planar::pose_of(j.rotation, Point { x: 0.0, y: 0.0 });
    let p = planar::product(turn, planar::inverse(j.frame2));
    let moved = Pose {
        x: slid(j, Axis::X, p.x),
        y: slid(j, Axis::Y, p.y),
        ..p
    };
    planar::product(j.frame1, moved)
}

// ---- Its motion

// The coordinate of an axis after dt: on a free one, its velocity times dt more.
#[tactic(auto, unfolding(crate::specs::Motion::integrated_at))]
fn integrated_at(j: Joint, axis: Axis, velocities: &[f32], dt: f32) -> f32
    ensures { result ≡ integrated_at j velocities.now dt (axis_number axis) }
{
    let q = j.coordinate(axis);
    if j.is_free(axis) {
        q + j.entry(velocities, axis) * dt
    } else {
        q
    }
}

// A free angle renews the joint's rotation.
#[tactic(auto, unfolding(crate::specs::Motion::renewed))]
fn renewed_rotation(j: Joint, angle: f32) -> Rotation
    ensures { result ≡ renewed j angle }
{
    if j.is_free(Axis::Angle) {
        planar::rotation_at(angle)
    } else {
        j.rotation
    }
}

// The joint after dt. The velocities begin with its own; one that is missing counts as +0.
#[tactic(auto, unfolding(crate::specs::Motion::integrated))]
pub fn integrate(j: Joint, velocities: &[f32], dt: f32) -> Joint
    ensures { result ≡ integrated j velocities.now dt }
{
    let coordinates = AXES.map(|axis| integrated_at(j, axis, velocities, dt));
    with_motion(j, coordinates, renewed_rotation(j, coordinates[2]))
}

// An axis' entry of the accelerations, and +0 on a locked one.
#[tactic(auto, unfolding(crate::specs::Motion::on_axis))]
fn on_axis(j: Joint, axis: Axis, accelerations: &[f32]) -> f32
    ensures { result ≡ on_axis j accelerations.now (axis_number axis) }
{
    if j.is_free(axis) {
        j.entry(accelerations, axis)
    } else {
        0.0
    }
}

// The accelerations, which begin with the joint's own, put on their axes.
#[tactic(auto, unfolding(crate::specs::Motion::on_axes))]
pub fn jacobian_mul_coordinates(j: Joint, accelerations: &[f32]) -> [f32; 3]
    ensures { result ≡ on_axes j accelerations.now }
{
    AXES.map(|axis| on_axis(j, axis, accelerations))
}

// ---- Root joints

// A free joint at a pose; its angle coordinate is 0.
#[tactic(auto, unfolding(crate::specs::Joint::free_joint))]
pub fn free(p: Pose) -> Joint
    ensures { result ≡ free_joint p }
{
    let joint = new_joint(0, 0, 0, identity(), identity());
    with_motion(joint, [p.x, p.y, 0.0], rotation_of(p))
}

// A fixed joint at a pose.
#[tactic(auto, unfolding(crate::specs::Joint::fixed_joint))]
pub fn fixed(p: Pose) -> Joint
    ensures { result ≡ fixed_joint p }
{
    new_joint(7, 0, 0, p, identity())
}

// x, y and the rotation are the pose's; the third coordinate stays.
#[tactic(auto, unfolding(crate::specs::Joint::free_pos_set))]
pub fn set_free_pos(j: Joint, p: Pose) -> Joint
    ensures { result ≡ free_pos_set j p }
{
    with_motion(j, [p.x, p.y, j.coordinate(Axis::Angle)], rotation_of(p))
}

// ---- Its springs

// The spring of an axis, locked or not; there is none above 2, and the joint stays.
#[tactic(auto, unfolding(crate::specs::Springs::spring_set))]
pub fn set_spring(j: Joint, axis: u32, spring: Spring) -> Joint
    ensures { result ≡ spring_set j axis spring }
{
    let mut k = j;
    if let Ok(axis) = Axis::try_from(axis) {
        let at = axis.number() as usize;
        k.stiffness[at] = spring.stiffness;
        k.rest[at] = spring.rest;
    }
    k
}

// The spring of an axis; above 2, one of zeros.
#[tactic(auto, unfolding(crate::specs::Springs::spring_of, floats::specs::Floats::entry_of))]
pub fn spring_of(j: Joint, axis: u32) -> Spring
    ensures { result ≡ spring_of j axis }
{
    let at = axis as usize;
    Spring {
        stiffness: entry(&j.stiffness, at),
        rest: entry(&j.rest, at),
    }
}
