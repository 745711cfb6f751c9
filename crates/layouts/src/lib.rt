// Every struct that crosses the C boundary, made of its fields: what the tests of the layouts in Rust and C call.
#![tactic(auto)]

ghost use Rattle.std.specs.Prelude.{◌≡◌};
ghost use Rattle.layouts.specs.Laid.{laid_rotation, laid_point, laid_pose, laid_joint, laid_spring, laid_link, laid_coupling, laid_row, laid_arm, laid_new_link, laid_new_coupling, laid_limits, laid_force, laid_edited, laid_rotated, laid_counted, laid_row_part, laid_spring_answer, laid_axes_answer, laid_constraint_row, laid_sums};

use addition::NewLink;
use arm::{Arm, Coupling, Edited, Link, Row};
use arm_edits::NewCoupling;
use arm_views::{AxesAnswer, RowPart, SpringAnswer};
use fill_jacobians::{Force, Sums};
use limits::{COUPLINGS, DOFS, LINKS};
use multibody_joint::{Joint, Spring};
use planar::{Point, Pose, Rotated, Rotation};
use refusal::Counted;
use unit_multibody_joint::{ConstraintRow, Limits};

#[unsafe(no_mangle)]
pub extern "C" fn giellavor_layout_rotation(re: f32, im: f32) -> Rotation
    ensures { result ≡ laid_rotation re im }
{
    Rotation { re, im }
}

#[unsafe(no_mangle)]
pub extern "C" fn giellavor_layout_point(x: f32, y: f32) -> Point
    ensures { result ≡ laid_point x y }
{
    Point { x, y }
}

#[unsafe(no_mangle)]
pub extern "C" fn giellavor_layout_pose(re: f32, im: f32, x: f32, y: f32) -> Pose
    ensures { result ≡ laid_pose re im x y }
{
    Pose { re, im, x, y }
}

#[unsafe(no_mangle)]
pub extern "C" fn giellavor_layout_joint(
    locked: u8,
    limit: u8,
    motor: u8,
    frame1: Pose,
    frame2: Pose,
    coordinates0: f32,
    coordinates1: f32,
    coordinates2: f32,
    rotation: Rotation,
    stiffness0: f32,
    stiffness1: f32,
    stiffness2: f32,
    rest0: f32,
    rest1: f32,
    rest2: f32,
) -> Joint
    ensures { result ≡ laid_joint locked limit motor frame1 frame2 coordinates0 coordinates1 coordinates2 rotation stiffness0 stiffness1 stiffness2 rest0 rest1 rest2 }
{
    Joint {
        locked,
        limit,
        motor,
        frame1,
        frame2,
        coordinates: [coordinates0, coordinates1, coordinates2],
        rotation,
        stiffness: [stiffness0, stiffness1, stiffness2],
        rest: [rest0, rest1, rest2],
    }
}

#[unsafe(no_mangle)]
pub extern "C" fn giellavor_layout_spring(stiffness: f32, rest: f32) -> Spring
    ensures { result ≡ laid_spring stiffness rest }
{
    Spring { stiffness, rest }
}

#[unsafe(no_mangle)]
pub extern "C" fn giellavor_layout_link(
    tag: u32,
    parent: u8,
    joint: Joint,
    centre: Point,
    world: Pose,
    shift02: Point,
    shift23: Point,
) -> Link
    ensures { result ≡ laid_link tag parent joint centre world shift02 shift23 }
{
    Link {
        tag,
        parent,
        joint,
        centre,
        world,
        shift02,
        shift23,
    }
}

#[unsafe(no_mangle)]
pub extern "C" fn giellavor_layout_coupling(
    link1: u8,
    axis1: u8,
    link2: u8,
    axis2: u8,
    coefficient: f32,
    offset: f32,
) -> Coupling
    ensures { result ≡ laid_coupling link1 axis1 link2 axis2 coefficient offset }
{
    Coupling {
        link1,
        axis1,
        link2,
        axis2,
        coefficient,
        offset,
    }
}

#[unsafe(no_mangle)]
pub extern "C" fn giellavor_layout_row(entry: f32) -> Row
    ensures { result ≡ laid_row entry }
{
    Row {
        entries: [entry; DOFS],
    }
}

#[unsafe(no_mangle)]
pub extern "C" fn giellavor_layout_arm(
    link_count: usize,
    coupling_count: usize,
    link: Link,
    coupling: Coupling,
    row: Row,
) -> Arm
    ensures { result ≡ laid_arm link_count coupling_count link coupling row }
{
    Arm {
        link_count,
        coupling_count,
        links: [link; LINKS],
        couplings: [coupling; COUPLINGS],
        rows: [row; 5],
    }
}

#[unsafe(no_mangle)]
pub extern "C" fn giellavor_layout_new_link(
    tag: u32,
    parent: u32,
    locked: u32,
    limit: u32,
    motor: u32,
    frame1: Pose,
    frame2: Pose,
    centre: Point,
) -> NewLink
    ensures { result ≡ laid_new_link tag parent locked limit motor frame1 frame2 centre }
{
    NewLink {
        tag,
        parent,
        locked,
        limit,
        motor,
        frame1,
        frame2,
        centre,
    }
}

#[unsafe(no_mangle)]
pub extern "C" fn giellavor_layout_new_coupling(
    link1: u32,
    axis1: u32,
    link2: u32,
    axis2: u32,
    coefficient: f32,
    offset: f32,
) -> NewCoupling
    ensures { result ≡ laid_new_coupling link1 axis1 link2 axis2 coefficient offset }
{
    NewCoupling {
        link1,
        axis1,
        link2,
        axis2,
        coefficient,
        offset,
    }
}

#[unsafe(no_mangle)]
pub extern "C" fn giellavor_layout_limits(
    position: f32,
    min: f32,
    max: f32,
    dt: f32,
    erp_inv_dt: f32,
    cfm_coeff: f32,
) -> Limits
    ensures { result ≡ laid_limits position min max dt erp_inv_dt cfm_coeff }
{
    Limits {
        position,
        min,
        max,
        dt,
        erp_inv_dt,
        cfm_coeff,
    }
}

#[unsafe(no_mangle)]
pub extern "C" fn giellavor_layout_force(x: f32, y: f32, torque: f32) -> Force
    ensures { result ≡ laid_force x y torque }
{
    Force { x, y, torque }
}

#[unsafe(no_mangle)]
pub extern "C" fn giellavor_layout_edited(refusal: u8, arm: Arm) -> Edited
    ensures { result ≡ laid_edited refusal arm }
{
    Edited { refusal, arm }
}

#[unsafe(no_mangle)]
pub extern "C" fn giellavor_layout_rotated(refusal: u8, rotation: Rotation) -> Rotated
    ensures { result ≡ laid_rotated refusal rotation }
{
    Rotated { refusal, rotation }
}

#[unsafe(no_mangle)]
pub extern "C" fn giellavor_layout_counted(refusal: u8, count: usize) -> Counted
    ensures { result ≡ laid_counted refusal count }
{
    Counted { refusal, count }
}

#[unsafe(no_mangle)]
pub extern "C" fn giellavor_layout_row_part(refusal: u8, offset: usize, length: usize) -> RowPart
    ensures { result ≡ laid_row_part refusal offset length }
{
    RowPart {
        refusal,
        offset,
        length,
    }
}

#[unsafe(no_mangle)]
pub extern "C" fn giellavor_layout_spring_answer(refusal: u8, spring: Spring) -> SpringAnswer
    ensures { result ≡ laid_spring_answer refusal spring }
{
    SpringAnswer { refusal, spring }
}

#[unsafe(no_mangle)]
pub extern "C" fn giellavor_layout_axes_answer(
    refusal: u8,
    axes0: f32,
    axes1: f32,
    axes2: f32,
) -> AxesAnswer
    ensures { result ≡ laid_axes_answer refusal axes0 axes1 axes2 }
{
    AxesAnswer {
        refusal,
        axes: [axes0, axes1, axes2],
    }
}

#[unsafe(no_mangle)]
pub extern "C" fn giellavor_layout_constraint_row(
    refusal: u8,
    lower: f32,
    upper: f32,
    rhs: f32,
    cfm_gain: f32,
    inv_lhs: f32,
) -> ConstraintRow
    ensures { result ≡ laid_constraint_row refusal lower upper rhs cfm_gain inv_lhs }
{
    ConstraintRow {
        refusal,
        lower,
        upper,
        rhs,
        cfm_gain,
        inv_lhs,
    }
}

#[unsafe(no_mangle)]
pub extern "C" fn giellavor_layout_sums(refusal: u8, j_wj: f32, j_velocities: f32) -> Sums
    ensures { result ≡ laid_sums refusal j_wj j_velocities }
{
    Sums {
        refusal,
        j_wj,
        j_velocities,
    }
}
