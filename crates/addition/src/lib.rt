// The addition of a link at the end of the list: it starts with zero coordinates and springs, takes its row entries, and is worked out from what is kept
// of its parent.
#![tactic(auto)]

ghost use Rattle.std.specs.Prelude.{◌≡◌, ◌+◌, ◌≤◌};
ghost use Rattle.lists.specs.Tests.{every};
ghost use Rattle.refusal.specs.Refusal.{code};
ghost use Rattle.limits.specs.Limits.{dof_limit};
ghost use Rattle.arm.specs.Edits.{edited_as};
ghost use Rattle.full_working.specs.Outcome.{out};
ghost use Rattle.addition.specs.Inner.{Small, tag_differs};
ghost use Rattle.addition.specs.NewLink.{link_of, entries_set, rows_from};
ghost use Rattle.addition.specs.Addition.{masks_fit, floats_finite, turns_fit, add_refusal, link_added};

use arm::{Arm, Link, Row, RowName};
use floats::Finite;
use full_working::tables_fit;
use kinematics::refresh_one;
use limits::LINKS;
use masks::{default_damping, dofs, is_mask};
use multibody_joint::new_joint;
use one_link::is_finite_above;
use planar::{Point, Pose, is_turn, rotation_of};
use refusal::{Refusal, lowest, unless};
use topology::parent_fits;

// What the caller gives of a link. Numbers are any, so that none is cut.
#[repr(C)]
#[derive(Clone, Copy)]
pub struct NewLink {
    pub tag: u32,
    pub parent: u32,
    pub locked: u32,
    pub limit: u32,
    pub motor: u32,
    pub frame1: Pose,
    pub frame2: Pose,
    pub centre: Point,
}

// ---- What it refuses

impl NewLink {
    // Rule 5: are its masks at most 7, and a root's locked one 7 or 0?
    fn masks_fit(&self, link: usize) -> bool
        ensures { result ≡ masks_fit link self.now }
    {
        is_mask(self.locked)
            & is_mask(self.limit)
            & is_mask(self.motor)
            & ((link != 0) | (self.locked == 7) | (self.locked == 0))
    }

    // Rule 8: are both frames' rotations turns?
    #[tactic(auto, unfolding(crate::specs::Addition::turns_fit))]
    fn turns_fit(&self) -> bool
        ensures { result ≡ turns_fit self.now }
    {
        is_turn(rotation_of(self.frame1)) & is_turn(rotation_of(self.frame2))
    }
}

impl Finite for NewLink {
    ghost finite = { floats_finite };

    #[tactic(auto, unfolding(crate::specs::Addition::floats_finite))]
    fn is_finite(&self) -> bool {
        self.frame1.is_finite() & self.frame2.is_finite() & self.centre.is_finite()
    }
}

// Rule 3: is it none of their tags? Over the links themselves, where `arm`'s `is_new` goes over a list of tags.
fn is_new_tag(links: &[Link], tag: u32) -> bool
    ensures { result ≡ every (tag_differs tag) links.now }
{
    links.iter().all(|link| link.tag != tag)
}

#[tactic(auto, using(crate::proofs::Tests::tag_differs_every), unfolding(crate::specs::Addition::add_refusal))]
fn add_refusal(arm: &Arm, tables: &[f32], new: &NewLink) -> Result<(), Refusal>
    ensures { code result ≡ add_refusal arm.now tables.now new.now }
{
    let n = arm.link_count;
    lowest(&[
        unless(tables_fit(tables), Refusal::Memory),
        unless(n < LINKS, Refusal::Limit),
        unless(is_new_tag(arm.live_links(), new.tag), Refusal::Tag),
        unless(parent_fits(n, new.parent as usize), Refusal::Link),
        unless(new.masks_fit(n), Refusal::Mask),
        unless(
            new.is_finite() & is_finite_above(n, new.parent, tables),
            Refusal::NotFinite,
        ),
        unless(new.turns_fit(), Refusal::NotATurn),
        arm.refusal(),
    ])
}

// ---- The new link

// Coordinates and springs are zero, the joint rotation is the identity. Its pose and shifts are yet to be worked out. By `as`: each number fits its byte, so
// there is nothing to refuse.
#[tactic(auto, unfolding(crate::specs::NewLink::link_of))]
fn link_of(new: &NewLink) -> Link
    requires { Small new.now }
    ensures { result ≡ link_of new.now }
{
    let joint = new_joint(
        new.locked as u8,
        new.limit as u8,
        new.motor as u8,
        new.frame1,
        new.frame2,
    );
    Link::unplaced(new.tag, new.parent as u8, joint, new.centre)
}

// ---- Its row entries

// The first n of the values stand in the row from `start` on.
#[tactic(auto, unfolding(crate::specs::NewLink::entries_set))]
fn set_entries(row: &mut Row, start: usize, n: usize, values: &[f32; 3])
    requires { (n ≤ 3) × (start + 3 ≤ dof_limit) }
    ensures { row.new ≡ entries_set start n values.now row.old }
{
    row.entries[start..start + n].copy_from_slice(&values[..n]);
}

// From `start` on, damping by default, +0 in the other rows.
fn set_new_entries(rows: &mut [Row; 5], start: usize, mask: u8)
    requires { (mask ≤ 7) × (start + 3 ≤ dof_limit) }
    ensures { rows.new ≡ rows_from start mask rows.old }
{
    let n = dofs(mask);
    for row in rows.iter_mut() {
        set_entries(row, start, n, &[0.0; 3]);
    }
    let mut damping = [0.0; 3];
    // A mask is not refused, and three places are enough.
    let _ = default_damping(u32::from(mask), &mut damping);
    set_entries(&mut rows[RowName::Damping.number()], start, n, &damping);
}

// ---- The addition

// A link is added behind the last, and it alone is worked out; nothing else is touched.
pub fn add_link(arm: &mut Arm, tables: &mut [f32], new: NewLink) -> Result<(), Refusal>
    ensures { out (edited_as arm.new result) tables.new ≡ link_added arm.old tables.old new }
{
    add_refusal(arm, tables, &new)?;
    let n = arm.link_count;
    let start = arm.dof_count();
    let mut link = link_of(&new);
    let above = &arm.links[usize::from(link.parent)];
    refresh_one(&mut link, above, start, n, tables)?;
    set_new_entries(&mut arm.rows, start, new.locked as u8);
    arm.links[n] = link;
    arm.link_count = n + 1;
    Ok(())
}
