// What the library answers over constants, in the words of the replay script: the cases that document 01 lists, and an arm of six links through additions,
// moves, a step, a root change and a split. tests/also_run.script has the same commands, and what `plain/` answers to them is `stdout`.
#![tactic(auto)]

use addition::{NewLink, add_link};
use arm::{Arm, Coupling, Link, RowName};
use arm_edits::{NewCoupling, add_coupling, set_spring, write_row};
use arm_split::{part, split};
use arm_views::{Role, kinematic_branch, row_view};
use full_working::empty;
use limits::{BLOCK, DOFS, LINKS, TABLES};
use masks::{default_damping, num_velocity_constraints, starts};
use multibody_joint::Spring;
use numerals::bits_of;
use one_link_move::{Change, move_link};
use planar::{Point, Pose, Rotation, identity, rotate};
use refusal::{Refusal, lower};
use root_change::{Root, change_root};
use std::{fmt, io};
use topology::Split;
use unit_multibody_joint::{Limits, limit_row};
use whole_step::step;

// ---- Words: a number stands behind a space, and a float by its bits

#[derive(Clone, Copy)]
struct Floats<'a>(&'a [f32]);

impl fmt::Display for Floats<'_> {
    fn fmt<W: fmt::Write>(&self, f: &mut fmt::Formatter<W>) -> fmt::Result {
        for x in self.0 {
            let bits = bits_of(*x);
            write!(f, " {bits:08x}")?;
        }
        Ok(())
    }
}

#[derive(Clone, Copy)]
struct Bytes<'a>(&'a [u8]);

impl fmt::Display for Bytes<'_> {
    fn fmt<W: fmt::Write>(&self, f: &mut fmt::Formatter<W>) -> fmt::Result {
        for byte in self.0 {
            write!(f, " {byte}")?;
        }
        Ok(())
    }
}

// Part and number of each link of a split.
#[derive(Clone, Copy)]
struct Places<'a>(&'a [[u8; 2]]);

impl fmt::Display for Places<'_> {
    fn fmt<W: fmt::Write>(&self, f: &mut fmt::Formatter<W>) -> fmt::Result {
        for [part, number] in self.0 {
            write!(f, " {part}/{number}")?;
        }
        Ok(())
    }
}

fn of_point(p: Point) -> [f32; 2] {
    [p.x, p.y]
}

fn of_rotation(r: Rotation) -> [f32; 2] {
    [r.re, r.im]
}

fn of_pose(p: Pose) -> [f32; 4] {
    [p.re, p.im, p.x, p.y]
}

// The first floats of a row, at most n of them.
fn first(n: usize, row: &[f32]) -> Floats<'_> {
    Floats(&row[..n.min(row.len())])
}

fn print_status<T>(rt: &impl Print, answer: &Result<T, Refusal>) -> io::Result<()> {
    match answer {
        Ok(_) => println!(rt; "ok"),
        Err(refusal) => println!(rt; "refused {}", refusal.number()),
    }
}

// ---- What is kept of an arm

fn print_kin(rt: &impl Print, arm: &Arm, tables: &[f32]) -> io::Result<()> {
    println!(rt; "ok")?;
    for (i, l) in arm.live_links().iter().enumerate() {
        println!(rt; "pose {i}{}", Floats(&of_pose(l.world)))?;
        println!(rt;
            "shifts {i}{}{}",
            Floats(&of_point(l.shift02)),
            Floats(&of_point(l.shift23))
        )?;
    }
    let dofs = arm.dof_count();
    for (i, block) in tables
        .chunks(BLOCK)
        .take(arm.live_links().len())
        .enumerate()
    {
        for (row, entries) in block.chunks(DOFS).enumerate() {
            println!(rt; "jac {i} row {row}{}", first(dofs, entries))?;
        }
    }
    Ok(())
}

// ---- An arm

fn print_link(rt: &impl Print, i: usize, start: usize, l: &Link) -> io::Result<()> {
    let j = l.joint;
    print!(rt;
        "link {i} tag {} parent {} start {start} masks{}",
        l.tag,
        l.parent,
        Bytes(&[j.locked, j.limit, j.motor])
    )?;
    print!(rt;
        " frame1{} frame2{}",
        Floats(&of_pose(j.frame1)),
        Floats(&of_pose(j.frame2))
    )?;
    print!(rt;
        " com{} coords{}",
        Floats(&of_point(l.centre)),
        Floats(&j.coordinates)
    )?;
    print!(rt;
        " rot{} stiffness{}",
        Floats(&of_rotation(j.rotation)),
        Floats(&j.stiffness)
    )?;
    println!(rt; " rest{}", Floats(&j.rest))
}

fn print_coupling(rt: &impl Print, c: &Coupling) -> io::Result<()> {
    print!(rt; "coupling{}", Bytes(&[c.link1, c.axis1, c.link2, c.axis2]))?;
    println!(rt; "{}", Floats(&[c.coefficient, c.offset]))
}

fn print_dump(rt: &impl Print, arm: &Arm) -> io::Result<()> {
    let dofs = arm.dof_count();
    println!(rt; "ok")?;
    println!(rt;
        "arm links {} dofs {dofs} couplings {}",
        arm.link_count, arm.coupling_count
    )?;
    for (i, l) in arm.live_links().iter().enumerate() {
        print_link(rt, i, arm.start_of(i), l)?;
    }
    for (name, row) in ["vel", "damp", "arm", "fric", "acc"].iter().zip(&arm.rows) {
        println!(rt; "row {name}{}", first(dofs, &row.entries))?;
    }
    for c in arm.live_couplings() {
        print_coupling(rt, c)?;
    }
    Ok(())
}

// ---- Questions

fn ask_split(rt: &impl Print, arm: &Arm, s: Split) -> io::Result<()> {
    let mut map = [[0u8; 2]; LINKS];
    let answer = split(arm, s, map.as_flattened_mut());
    print_status(rt, &answer)?;
    if let Ok(parts) = answer {
        let n = arm.live_links().len().min(map.len());
        println!(rt; "split {parts}{}", Places(&map[..n]))?;
    }
    Ok(())
}

fn ask_branch(rt: &impl Print, arm: &Arm, link: u32) -> io::Result<()> {
    let mut branch = [0u8; LINKS];
    let answer = kinematic_branch(arm, link, &mut branch);
    print_status(rt, &answer)?;
    if let Ok(n) = answer {
        println!(rt; "branch{}", Bytes(&branch[..n.min(LINKS)]))?;
    }
    Ok(())
}

fn ask_starts(rt: &impl Print, masks: [u8; 4]) -> io::Result<()> {
    let mut places = [0u8; 4];
    let answer = starts(&masks, &mut places);
    print_status(rt, &answer)?;
    if let Ok(total) = answer {
        println!(rt; "starts{} total {total}", Bytes(&places))?;
    }
    Ok(())
}

fn ask_masks(rt: &impl Print, locked: u32, limit: u32, motor: u32) -> io::Result<()> {
    let mut damping = [0.0f32; 3];
    let dofs = default_damping(locked, &mut damping);
    let constraints = num_velocity_constraints(locked, limit, motor);
    print_status(rt, &lower(dofs.map(|_| ()), constraints.map(|_| ())))?;
    if let (Ok(dofs), Ok(constraints)) = (dofs, constraints) {
        println!(rt;
            "masks dofs {dofs} constraints {constraints} damping{}",
            first(dofs, &damping)
        )?;
    }
    Ok(())
}

// A limit row of the one DoF of an arm.
fn ask_limit(rt: &impl Print, arm: &Arm, position: f32) -> io::Result<()> {
    let mass = [2.0f32];
    let mut j = [0.0f32];
    let mut wj = [0.0f32];
    let given = Limits {
        position,
        min: 0.0,
        max: 1.0,
        dt: 0.0,
        erp_inv_dt: 10.0,
        cfm_coeff: 0.0,
    };
    let answer = limit_row(arm, 1, 2, given, &mass, &mut j, &mut wj);
    print_status(rt, &answer)?;
    if let Ok(row) = answer {
        print!(rt;
            "limit bounds{} rhs{}",
            Floats(&[row.lower, row.upper]),
            Floats(&[row.rhs])
        )?;
        print!(rt;
            " cfm_gain{} inv_lhs{}",
            Floats(&[row.cfm_gain]),
            Floats(&[row.inv_lhs])
        )?;
        println!(rt; " j{} wj{}", Floats(&j), Floats(&wj))?;
    }
    Ok(())
}

fn ask_rotation(rt: &impl Print, angle: f32) -> io::Result<()> {
    let answer = rotate(angle);
    print_status(rt, &answer)?;
    if let Ok(rotation) = answer {
        println!(rt; "rot{}", Floats(&of_rotation(rotation)))?;
    }
    Ok(())
}

// The view of a link's velocities, with so many floats lent of either row.
fn ask_view(rt: &impl Print, arm: &Arm, link: u32, lent: usize) -> io::Result<()> {
    let lent = lent.min(DOFS);
    let velocities = &arm.row(RowName::Velocities)[..lent];
    let accelerations = &arm.row(RowName::Accelerations)[..lent];
    let answer = row_view(arm, Role::Velocities, link, velocities, accelerations);
    print_status(rt, &answer)?;
    if let Ok(view) = answer {
        println!(rt; "view{}", Floats(view))?;
    }
    Ok(())
}

// ---- What edits are handed

fn pose(re: f32, im: f32, x: f32, y: f32) -> Pose {
    Pose { re, im, x, y }
}

// A link at its parent's place.
fn plain_link(tag: u32, parent: u32, locked: u32) -> NewLink {
    NewLink {
        tag,
        parent,
        locked,
        limit: 4,
        motor: 2,
        frame1: identity(),
        frame2: identity(),
        centre: Point { x: 0.0, y: 0.0 },
    }
}

fn turned_to(angle: f32) -> Change {
    Change::Coordinate {
        axis: 2,
        value: angle,
    }
}

// ---- Edits

// The arm that a call makes, once its answer is printed.
fn made(rt: &impl Print, answer: Result<Arm, Refusal>) -> io::Result<Arm> {
    print_status(rt, &answer)?;
    Ok(answer.unwrap_or(Arm::empty()))
}

// ---- Six links, parents A

// Tag, parent and locked mask of each.
const SIX: [[u32; 3]; 6] = [
    [10, 0, 7],
    [11, 0, 3],
    [12, 1, 2],
    [13, 1, 3],
    [14, 0, 4],
    [15, 3, 0],
];

fn six_links(rt: &impl Print, tables: &mut [f32]) -> io::Result<Arm> {
    let mut arm = made(rt, empty(tables))?;
    for [tag, parent, locked] in SIX {
        let link = NewLink {
            frame1: pose(0.6, 0.8, 0.5, -1.0),
            frame2: pose(1.0, 0.0, -0.25, 0.0),
            centre: Point { x: 0.5, y: 0.125 },
            ..plain_link(tag, parent, locked)
        };
        print_status(rt, &add_link(&mut arm, tables, link))?;
    }
    Ok(arm)
}

// P1 to P5.
fn marked_splits(rt: &impl Print, arm: &Arm) -> io::Result<()> {
    for s in [
        Split::Delete(1),
        Split::Cut(1),
        Split::Delete(0),
        Split::Delete(5),
        Split::Cut(0),
    ] {
        ask_split(rt, arm, s)?;
    }
    Ok(())
}

fn write_rows(rt: &impl Print, arm: &mut Arm) -> io::Result<()> {
    print_status(rt, &write_row(arm, RowName::Velocities, 1, 2, 0.5))?;
    print_status(rt, &write_row(arm, RowName::Velocities, 2, 0, -0.25))?;
    print_status(rt, &write_row(arm, RowName::Velocities, 5, 1, 0.125))?;
    print_status(rt, &write_row(arm, RowName::Accelerations, 5, 2, 1.5))
}

// The second coupling outlives the split below.
fn tie(rt: &impl Print, arm: &mut Arm) -> io::Result<()> {
    let spring = Spring {
        stiffness: 3.0,
        rest: 0.5,
    };
    let across = NewCoupling {
        link1: 1,
        axis1: 2,
        link2: 3,
        axis2: 2,
        coefficient: 2.0,
        offset: 0.5,
    };
    let within = NewCoupling {
        link1: 5,
        axis1: 0,
        link2: 5,
        axis2: 2,
        coefficient: -1.0,
        offset: 0.25,
    };
    print_status(rt, &set_spring(arm, 5, 1, spring))?;
    print_status(rt, &add_coupling(arm, across))?;
    print_status(rt, &add_coupling(arm, within))
}

fn move_links(rt: &impl Print, arm: &mut Arm, tables: &mut [f32]) -> io::Result<()> {
    let frames = Change::Frames {
        first: pose(0.8, -0.6, 1.0, 0.25),
        second: pose(1.0, 0.0, 0.0, 0.125),
    };
    let centre = Change::Centre(Point { x: 0.125, y: 0.5 });
    print_status(rt, &move_link(arm, tables, 1, turned_to(0.5)))?;
    print_status(rt, &move_link(arm, tables, 3, frames))?;
    print_status(rt, &move_link(arm, tables, 4, centre))?;
    print_kin(rt, arm, tables)
}

fn free_root(rt: &impl Print, arm: &mut Arm, tables: &mut [f32]) -> io::Result<()> {
    let root = Root::Free(pose(0.8, 0.6, -1.0, 0.5));
    print_status(rt, &change_root(arm, tables, root))?;
    print_dump(rt, arm)?;
    print_kin(rt, arm, tables)
}

// Of what a deletion leaves the last part: links 3 and 5.
fn take_part(rt: &impl Print, arm: &Arm, tables: &mut [f32]) -> io::Result<()> {
    let last = made(rt, part(arm, Split::Delete(1), 2, tables))?;
    print_dump(rt, &last)?;
    print_kin(rt, &last, tables)
}

fn play_six_links(rt: &impl Print, tables: &mut [f32]) -> io::Result<()> {
    let mut arm = six_links(rt, tables)?;
    print_kin(rt, &arm, tables)?;
    marked_splits(rt, &arm)?;
    write_rows(rt, &mut arm)?;
    tie(rt, &mut arm)?;
    move_links(rt, &mut arm, tables)?;
    print_status(rt, &step(&mut arm, tables, 0.1))?;
    print_kin(rt, &arm, tables)?;
    free_root(rt, &mut arm, tables)?;
    take_part(rt, &arm, tables)
}

// ---- Two links, the second with a free angle

// P6, with the root alone.
fn root_alone(rt: &impl Print, tables: &mut [f32]) -> io::Result<Arm> {
    let mut arm = made(rt, empty(tables))?;
    print_status(rt, &add_link(&mut arm, tables, plain_link(10, 0, 7)))?;
    ask_split(rt, &arm, Split::Delete(0))?;
    Ok(arm)
}

// What is lent is the caller's own: the script answers `ok`.
fn print_lent(rt: &impl Print) -> io::Result<()> {
    println!(rt; "ok")
}

// P10 and P11; then angle 256 and the next f32.
fn mark_limits(rt: &impl Print, arm: &mut Arm, tables: &mut [f32]) -> io::Result<()> {
    print_status(rt, &add_link(arm, tables, plain_link(11, 0, 3)))?;
    print_lent(rt)?;
    ask_limit(rt, arm, 2.0)?;
    ask_limit(rt, arm, 1.0)?;
    print_status(rt, &move_link(arm, tables, 1, turned_to(256.0)))?;
    print_status(rt, &move_link(arm, tables, 1, turned_to(256.00003)))
}

// A link number at the count.
fn ask_at_the_count(rt: &impl Print, arm: &mut Arm, tables: &mut [f32]) -> io::Result<()> {
    ask_branch(rt, arm, 1)?;
    ask_branch(rt, arm, 2)?;
    ask_split(rt, arm, Split::Delete(2))?;
    print_status(rt, &move_link(arm, tables, 2, turned_to(0.0)))
}

// Velocities one short.
fn ask_one_short(rt: &impl Print, arm: &mut Arm) -> io::Result<()> {
    print_status(rt, &write_row(arm, RowName::Velocities, 1, 2, 0.5))?;
    print_lent(rt)?;
    ask_view(rt, arm, 1, 0)?;
    print_lent(rt)?;
    ask_view(rt, arm, 1, 1)
}

fn play_two_links(rt: &impl Print, tables: &mut [f32]) -> io::Result<()> {
    let mut arm = root_alone(rt, tables)?;
    mark_limits(rt, &mut arm, tables)?;
    ask_at_the_count(rt, &mut arm, tables)?;
    ask_one_short(rt, &mut arm)
}

// ---- What needs no arm, and a 17th link

fn play_no_link(rt: &impl Print) -> io::Result<()> {
    ask_starts(rt, [7, 3, 3, 0])?;
    ask_masks(rt, 0, 0, 0)?;
    ask_masks(rt, 3, 7, 4)?;
    ask_rotation(rt, 256.0)?;
    ask_rotation(rt, 256.00003)
}

fn play_many_links(rt: &impl Print, tables: &mut [f32]) -> io::Result<()> {
    let mut arm = made(rt, empty(tables))?;
    for tag in 0..17 {
        print_status(rt, &add_link(&mut arm, tables, plain_link(tag, 0, 7)))?;
    }
    Ok(())
}

fn main(rt: HostRuntime) -> io::Result<()> {
    let mut tables = [0.0f32; TABLES];
    play_six_links(&rt, &mut tables)?;
    play_two_links(&rt, &mut tables)?;
    play_no_link(&rt)?;
    play_many_links(&rt, &mut tables)
}
