// A one-link move: one free coordinate, both frames or the centre of mass of a link is set; then it and the links below it are worked out from what is
// kept of its parent.
#![tactic(auto)]

ghost use Rattle.std.specs.Prelude.{◌≡◌};
ghost use Rattle.refusal.specs.Refusal.{code};
ghost use Rattle.topology.specs.Parents.{parent_in};
ghost use Rattle.arm.specs.Arm.{links_of, parents_of};
ghost use Rattle.arm.specs.Edits.{edited_as};
ghost use Rattle.full_working.specs.Outcome.{out};
ghost use Rattle.one_link_move.specs.Inner.{leaf};
ghost use Rattle.one_link_move.specs.Change.{coordinate_set, changed};
ghost use Rattle.one_link_move.specs.Move.{axis_fits, axis_free, change_finite, turns_fit, angle_within, move_refusal, link_moved};

use arm::{Arm, Link};
use floats::Finite;
use full_working::tables_fit;
use kinematics::{refresh_marked, refresh_one};
use masks::{Axis, is_axis, is_free};
use multibody_joint::{Joint, with_frames};
use one_link::is_finite_above;
use planar::{Point, Pose, is_beyond, is_turn, rotation_at, rotation_of};
use refusal::{Refusal, lowest, unless};
use topology::at_or_below;

// What a move sets.
#[derive(Clone, Copy)]
pub enum Change {
    Coordinate { axis: u32, value: f32 },
    Frames { first: Pose, second: Pose },
    Centre(Point),
}

// ---- What is tested of a change

impl Change {
    // Rule 5: is its axis one of the three?
    fn axis_fits(&self) -> bool
        ensures { result ≡ axis_fits self.now }
    {
        match self {
            Change::Coordinate { axis, .. } => is_axis(*axis),
            _ => true,
        }
    }

    // Rule 6: is its axis free?
    fn axis_free(&self, locked: u8) -> bool
        ensures { result ≡ axis_free locked self.now }
    {
        match self {
            Change::Coordinate { axis, .. } => is_free(locked, *axis),
            _ => true,
        }
    }

    // Rule 8: are both frames' rotations turns?
    fn turns_fit(&self) -> bool
        ensures { result ≡ turns_fit self.now }
    {
        match self {
            Change::Frames { first, second } => {
                is_turn(rotation_of(*first)) & is_turn(rotation_of(*second))
            }
            _ => true,
        }
    }

    // Rule 9: does an angle lie within 256 either way?
    fn angle_within(&self) -> bool
        ensures { result ≡ angle_within self.now }
    {
        match self {
            Change::Coordinate { axis: 2, value } => !is_beyond(*value),
            _ => true,
        }
    }
}

impl Finite for Change {
    ghost finite = { change_finite };

    fn is_finite(&self) -> bool {
        match self {
            Change::Coordinate { value, .. } => value.is_finite(),
            Change::Frames { first, second } => first.is_finite() & second.is_finite(),
            Change::Centre(centre) => centre.is_finite(),
        }
    }
}

// ---- What it sets

// The coordinate of an axis; the angle renews the rotation. There is no axis above 2.
#[tactic(auto, unfolding(crate::specs::Change::coordinate_set))]
fn with_coordinate(j: Joint, axis: u32, value: f32) -> Joint
    ensures { result ≡ coordinate_set axis value j }
{
    let mut k = j;
    match Axis::try_from(axis) {
        Ok(Axis::X) => k.coordinates[0] = value,
        Ok(Axis::Y) => k.coordinates[1] = value,
        Ok(Axis::Angle) => {
            k.coordinates[2] = value;
            k.rotation = rotation_at(value);
        }
        Err(_) => {}
    }
    k
}

impl Change {
    // The link with what the move sets; nothing is worked out.
    #[tactic(auto, unfolding(crate::specs::Change::changed))]
    fn applied(&self, link: &Link) -> Link
        ensures { result ≡ changed self.now link.now }
    {
        match *self {
            Change::Coordinate { axis, value } => Link {
                joint: with_coordinate(link.joint, axis, value),
                ..*link
            },
            Change::Frames { first, second } => Link {
                joint: with_frames(link.joint, first, second),
                ..*link
            },
            Change::Centre(centre) => Link { centre, ..*link },
        }
    }
}

// ---- The move

// The parent of a link; where there is no such link, 0.
#[tactic(auto, unfolding(arm::specs::Arm::parents_of))]
fn parent_of(arm: &Arm, link: usize) -> u8
    ensures { result ≡ parent_in (parents_of arm.now) link }
{
    arm.live_links().get(link).map_or(0, |link| link.parent)
}

#[tactic(auto, unfolding(crate::specs::Move::move_refusal))]
fn move_refusal(arm: &Arm, tables: &[f32], link: u32, change: &Change) -> Result<(), Refusal>
    ensures { code result ≡ move_refusal arm.now tables.now link change.now }
{
    let at = link as usize;
    lowest(&[
        unless(tables_fit(tables), Refusal::Memory),
        unless(at < arm.link_count, Refusal::Link),
        unless(change.axis_fits(), Refusal::Mask),
        unless(change.axis_free(arm.mask_at(at)), Refusal::Locked),
        unless(
            change.is_finite() & is_finite_above(at, u32::from(parent_of(arm, at)), tables),
            Refusal::NotFinite,
        ),
        unless(change.turns_fit(), Refusal::NotATurn),
        unless(change.angle_within(), Refusal::Beyond),
        arm.refusal(),
    ])
}

// Is no link below it? Then no later one has it for a parent.
fn is_leaf(links: &[Link], link: u32) -> bool
    ensures { result ≡ leaf links.now link }
{
    let at = link as usize;
    links
        .iter()
        .skip(at + 1)
        .all(|later| usize::from(later.parent) != at)
}

// One link's inputs are changed, and it and the links below it are worked out, rising; nothing else is touched.
pub fn move_link(
    arm: &mut Arm,
    tables: &mut [f32],
    link: u32,
    change: Change,
) -> Result<(), Refusal>
    ensures { out (edited_as arm.new result) tables.new ≡ link_moved arm.old tables.old link change }
{
    move_refusal(arm, tables, link, &change)?;
    let at = link as usize;
    let mut moved = change.applied(&arm.links[at]);
    if is_leaf(arm.live_links(), link) {
        let start = arm.start_of(at);
        let above = &arm.links[usize::from(moved.parent)];
        refresh_one(&mut moved, above, start, at, tables)?;
        arm.links[at] = moved;
        return Ok(());
    }
    let parents = arm.parents();
    let marks = at_or_below(&parents[..arm.link_count], at);
    let mut links = arm.links;
    links[at] = moved;
    refresh_marked(&mut links, arm.link_count, &marks, tables)?;
    arm.links = links;
    Ok(())
}
