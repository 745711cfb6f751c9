// The entry points that give an arm, the rotation and the solve, as C functions for Rust. Each is its entry point and nothing more: the contract cites
// the same definition; the solve's refusal has a count beside it. An arm goes in and comes out by value; what an enum names is a function for each case.
#![tactic(auto)]

ghost use Rattle.std.specs.Prelude.{◌≡◌};
ghost use Rattle.refusal.specs.Counted.{out as solved};
ghost use Rattle.planar.specs.Rotation.{rotated};
ghost use Rattle.solve.specs.Solve.{solve_of};
ghost use Rattle.topology.specs.declared.Split.TheVariants.{Delete, Cut};
ghost use Rattle.arm_edits.specs.Rows.{row_written};
ghost use Rattle.arm_edits.specs.Springs.{arm_spring_set};
ghost use Rattle.arm_edits.specs.Couplings.{coupling_added};
ghost use Rattle.full_working.specs.Outcome.{out};
ghost use Rattle.full_working.specs.Empty.{emptied};
ghost use Rattle.full_working.specs.Full.{full_working};
ghost use Rattle.addition.specs.Addition.{link_added};
ghost use Rattle.one_link_move.specs.declared.Change.TheVariants.{Coordinate, Frames, Centre};
ghost use Rattle.one_link_move.specs.Move.{link_moved};
ghost use Rattle.whole_step.specs.Step.{whole_step};
ghost use Rattle.root_change.specs.declared.Root.TheVariants.{Free, Fixed};
ghost use Rattle.root_change.specs.Root.{changed_root};
ghost use Rattle.arm_split.specs.Answers.{arm_part};
ghost use Rattle.exports.specs.Solved.{solved_by};

use addition::NewLink;
use arm::{Arm, Edited, RowName};
use arm_edits::{NewCoupling, write_row};
use arm_split::part;
use multibody_joint::Spring;
use one_link_move::{Change, move_link};
use planar::{Point, Pose, Rotated};
use refusal::Counted;
use root_change::{Root, change_root};
use topology::Split;

// ---- Numbers

// The rotation of an angle. Refused: 7, 9.
#[unsafe(no_mangle)]
pub extern "C" fn giellavor_rotate(angle: f32) -> Rotated
    ensures { result ≡ rotated angle }
{
    planar::rotate(angle).into()
}

// The solve of an n by n matrix, in rows, against a right side; the solution goes into the first n floats of `res`, and n is returned. Refused: 1, 2, 7,
// 11, 12.
#[unsafe(no_mangle)]
pub extern "C" fn giellavor_solve(
    n: usize,
    matrix: &[f32],
    right: &[f32],
    res: &mut [f32],
) -> Counted
    ensures { solved result res.new ≡ solved_by n (solve_of n matrix.now right.now res.old) }
{
    solve::solve(n, matrix, right, res).and(Ok(n)).into()
}

// ---- Making an arm

// An arm of no links; its tables hold +0. Refused: 1.
#[unsafe(no_mangle)]
pub extern "C" fn giellavor_empty(tables: &mut [f32]) -> Edited
    ensures { out result tables.new ≡ emptied tables.old }
{
    let answer = full_working::clear_tables(tables);
    Edited::of(Arm::empty(), answer)
}

// A link is added behind the last. Refused: 1 to 5, 7 to 9, 12.
#[unsafe(no_mangle)]
pub extern "C" fn giellavor_add_link(mut arm: Arm, tables: &mut [f32], link: NewLink) -> Edited
    ensures { out result tables.new ≡ link_added arm tables.old link }
{
    let answer = addition::add_link(&mut arm, tables, link);
    Edited::of(arm, answer)
}

// A coupling is added behind the last. Refused: 2 to 5, 7, 9.
#[unsafe(no_mangle)]
pub extern "C" fn giellavor_add_coupling(mut arm: Arm, coupling: NewCoupling) -> Edited
    ensures { result ≡ coupling_added arm coupling }
{
    let answer = arm_edits::add_coupling(&mut arm, coupling);
    Edited::of(arm, answer)
}

// ---- Rows: one entry is set, named by link and axis. Refused: 2 to 7, 9.

#[unsafe(no_mangle)]
pub extern "C" fn giellavor_write_velocity(mut arm: Arm, link: u32, axis: u32, value: f32) -> Edited
    ensures { result ≡ row_written arm RowName.Velocities link axis value }
{
    let answer = write_row(&mut arm, RowName::Velocities, link, axis, value);
    Edited::of(arm, answer)
}

#[unsafe(no_mangle)]
pub extern "C" fn giellavor_write_damping(mut arm: Arm, link: u32, axis: u32, value: f32) -> Edited
    ensures { result ≡ row_written arm RowName.Damping link axis value }
{
    let answer = write_row(&mut arm, RowName::Damping, link, axis, value);
    Edited::of(arm, answer)
}

#[unsafe(no_mangle)]
pub extern "C" fn giellavor_write_armature(mut arm: Arm, link: u32, axis: u32, value: f32) -> Edited
    ensures { result ≡ row_written arm RowName.Armature link axis value }
{
    let answer = write_row(&mut arm, RowName::Armature, link, axis, value);
    Edited::of(arm, answer)
}

#[unsafe(no_mangle)]
pub extern "C" fn giellavor_write_friction(mut arm: Arm, link: u32, axis: u32, value: f32) -> Edited
    ensures { result ≡ row_written arm RowName.Frictions link axis value }
{
    let answer = write_row(&mut arm, RowName::Frictions, link, axis, value);
    Edited::of(arm, answer)
}

#[unsafe(no_mangle)]
pub extern "C" fn giellavor_write_acceleration(
    mut arm: Arm,
    link: u32,
    axis: u32,
    value: f32,
) -> Edited
    ensures { result ≡ row_written arm RowName.Accelerations link axis value }
{
    let answer = write_row(&mut arm, RowName::Accelerations, link, axis, value);
    Edited::of(arm, answer)
}

// ---- Joints

// The spring of an axis is set, locked or not. Refused: 2 to 5, 7, 9.
#[unsafe(no_mangle)]
pub extern "C" fn giellavor_set_spring(mut arm: Arm, link: u32, axis: u32, spring: Spring) -> Edited
    ensures { result ≡ arm_spring_set arm link axis spring }
{
    let answer = arm_edits::set_spring(&mut arm, link, axis, spring);
    Edited::of(arm, answer)
}

// ---- Moves: one link's inputs are set, and it and the links below it are worked out

// A free coordinate. Refused: 1 to 7, 9, 12.
#[unsafe(no_mangle)]
pub extern "C" fn giellavor_move_coordinate(
    mut arm: Arm,
    tables: &mut [f32],
    link: u32,
    axis: u32,
    value: f32,
) -> Edited
    ensures { out result tables.new ≡ link_moved arm tables.old link (Coordinate axis value) }
{
    let answer = move_link(&mut arm, tables, link, Change::Coordinate { axis, value });
    Edited::of(arm, answer)
}

// Both frames. Refused: 1 to 5, 7 to 9, 12.
#[unsafe(no_mangle)]
pub extern "C" fn giellavor_move_frames(
    mut arm: Arm,
    tables: &mut [f32],
    link: u32,
    first: Pose,
    second: Pose,
) -> Edited
    ensures { out result tables.new ≡ link_moved arm tables.old link (Frames first second) }
{
    let answer = move_link(&mut arm, tables, link, Change::Frames { first, second });
    Edited::of(arm, answer)
}

// The centre of mass. Refused: 1 to 5, 7, 9, 12.
#[unsafe(no_mangle)]
pub extern "C" fn giellavor_move_centre(
    mut arm: Arm,
    tables: &mut [f32],
    link: u32,
    centre: Point,
) -> Edited
    ensures { out result tables.new ≡ link_moved arm tables.old link (Centre centre) }
{
    let answer = move_link(&mut arm, tables, link, Change::Centre(centre));
    Edited::of(arm, answer)
}

// ---- The whole arm

// Every link is worked out. Refused: 1 to 5, 7, 9, 12.
#[unsafe(no_mangle)]
pub extern "C" fn giellavor_full_working(mut arm: Arm, tables: &mut [f32]) -> Edited
    ensures { out result tables.new ≡ full_working arm tables.old }
{
    let answer = full_working::full_working(&mut arm, tables);
    Edited::of(arm, answer)
}

// Every joint is integrated by dt, then every link is worked out. Refused: 1 to 5, 7, 9, 12.
#[unsafe(no_mangle)]
pub extern "C" fn giellavor_step(mut arm: Arm, tables: &mut [f32], dt: f32) -> Edited
    ensures { out result tables.new ≡ whole_step arm tables.old dt }
{
    let answer = whole_step::step(&mut arm, tables, dt);
    Edited::of(arm, answer)
}

// The root is free at a pose. Refused: 1 to 5, 7 to 9, 12.
#[unsafe(no_mangle)]
pub extern "C" fn giellavor_free_root(mut arm: Arm, tables: &mut [f32], pose: Pose) -> Edited
    ensures { out result tables.new ≡ changed_root arm tables.old (Free pose) }
{
    let answer = change_root(&mut arm, tables, Root::Free(pose));
    Edited::of(arm, answer)
}

// The root is fixed at a pose. Refused: as above.
#[unsafe(no_mangle)]
pub extern "C" fn giellavor_fix_root(mut arm: Arm, tables: &mut [f32], pose: Pose) -> Edited
    ensures { out result tables.new ≡ changed_root arm tables.old (Fixed pose) }
{
    let answer = change_root(&mut arm, tables, Root::Fixed(pose));
    Edited::of(arm, answer)
}

// ---- Parts: each of a split's is an arm, worked out into tables of its own. Refused: 1 to 5, 7, 9, 12.

// Part `number` after a link is deleted.
#[unsafe(no_mangle)]
pub extern "C" fn giellavor_part_delete(
    arm: Arm,
    link: u32,
    number: u32,
    tables: &mut [f32],
) -> Edited
    ensures { out result tables.new ≡ arm_part arm (Delete link) number tables.old }
{
    part(&arm, Split::Delete(link as usize), number, tables).into()
}

// Part `number` after a link's joint is cut.
#[unsafe(no_mangle)]
pub extern "C" fn giellavor_part_cut(arm: Arm, link: u32, number: u32, tables: &mut [f32]) -> Edited
    ensures { out result tables.new ≡ arm_part arm (Cut link) number tables.old }
{
    part(&arm, Split::Cut(link as usize), number, tables).into()
}
