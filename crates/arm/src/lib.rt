// An arm: a tree of links, couplings between their axes, and five rows over its degrees of freedom. Lists count up to their counts.
// Every function here is an inner one: it answers for every arm. What an arm is refused for is `Arm::refusal`.
#![tactic(auto)]

ghost use Rattle.std.specs.Prelude.{◌≡◌, map, ◌≤◌, length};
ghost use Rattle.lists.specs.Tests.{every};
ghost use Rattle.limits.specs.Limits.{link_limit};
ghost use Rattle.masks.specs.Starts.{total_of};
ghost use Rattle.refusal.specs.Refusal.{code};
ghost use Rattle.arm.specs.Arm.{tag_of, parent_of, locked_of, links_of, couplings_of, start_at, dof_count_of, mask_at, row_number, row_in, entries_of};
ghost use Rattle.arm.specs.Setters.{unplaced};
ghost use Rattle.arm.specs.Empty.{empty_arm};
ghost use Rattle.arm.specs.Edits.{dof_at, edited_as, made_as};
ghost use Rattle.arm.specs.Inner.{row_finite};
ghost use Rattle.arm.specs.HandedIn.{is_new, unique, joint_masks_fit, link_masks_fit, link_finite, angle_fits, coupling_links_fit, coupling_axes_fit, coupling_finite, root_mask_fits, tags_unique, parents_earlier, link_numbers_fit, masks_and_axes_fit, rows_finite, floats_finite, angles_fit, arm_refusal};

use floats::{Finite, is_finite_part};
use limits::{COUPLINGS, DOFS, LINKS};
use masks::{dofs, dofs_below, is_axis, is_mask};
use multibody_joint::{Joint, fixed};
use planar::{Point, Pose, identity, is_beyond};
use refusal::{Refusal, lowest, unless};
use topology::parents_fit;

// A link, and what is kept of it: its world pose and its shifts.
#[repr(C)]
#[derive(Clone, Copy)]
pub struct Link {
    pub tag: u32,
    pub parent: u8,
    pub joint: Joint,
    pub centre: Point,
    pub world: Pose,
    pub shift02: Point,
    pub shift23: Point,
}

// Two axes of two links, tied by a coefficient and an offset.
#[repr(C)]
#[derive(Clone, Copy)]
pub struct Coupling {
    pub link1: u8,
    pub axis1: u8,
    pub link2: u8,
    pub axis2: u8,
    pub coefficient: f32,
    pub offset: f32,
}

#[repr(C)]
#[derive(Clone, Copy)]
pub struct Row {
    pub entries: [f32; DOFS],
}

// Which row of an arm.
#[derive(Clone, Copy, Debug, PartialEq, Eq)]
pub enum RowName {
    Velocities,
    Damping,
    Armature,
    Frictions,
    Accelerations,
}

// The counts beside the arrays are C's: a link or a coupling past its count is none.
#[repr(C)]
#[derive(Clone, Copy)]
pub struct Arm {
    pub link_count: usize,
    pub coupling_count: usize,
    pub links: [Link; LINKS],
    pub couplings: [Coupling; COUPLINGS],
    pub rows: [Row; 5],
}

// What a call on an arm answers C: the new arm; refused, the arm as it came, and where an arm is made (empty, parts) the empty one.
#[repr(C)]
#[derive(Clone, Copy)]
pub struct Edited {
    pub arm: Arm,
    pub refusal: u8,
}

// ---- A link

impl Link {
    // A new link: its pose and shifts are yet to be worked out.
    #[tactic(auto, unfolding(crate::specs::Setters::unplaced))]
    pub fn unplaced(tag: u32, parent: u8, joint: Joint, centre: Point) -> Link
        ensures { result ≡ unplaced tag parent joint centre }
    {
        let origin = Point { x: 0.0, y: 0.0 };
        Link {
            tag,
            parent,
            joint,
            centre,
            world: identity(),
            shift02: origin,
            shift23: origin,
        }
    }

    // Are its joint's masks at most 7?
    #[tactic(auto, unfolding(crate::specs::HandedIn::joint_masks_fit))]
    fn masks_fit(&self) -> bool
        ensures { result ≡ joint_masks_fit self.now.joint }
    {
        is_mask(self.joint.locked as u32)
            & is_mask(self.joint.limit as u32)
            & is_mask(self.joint.motor as u32)
    }
}

impl Finite for Link {
    ghost finite = { link_finite };

    #[tactic(auto, unfolding(crate::specs::HandedIn::link_finite))]
    fn is_finite(&self) -> bool {
        self.joint.is_finite()
            & self.centre.is_finite()
            & self.world.is_finite()
            & self.shift02.is_finite()
            & self.shift23.is_finite()
    }
}

// Does the angle coordinate lie within 256 either way? A locked one too.
#[tactic(auto, unfolding(crate::specs::HandedIn::angle_fits))]
pub fn angle_fits(j: &Joint) -> bool
    ensures { result ≡ angle_fits j.now }
{
    !is_beyond(j.coordinates[2])
}

// ---- A coupling

impl Coupling {
    #[tactic(auto, unfolding(crate::specs::HandedIn::coupling_links_fit))]
    fn links_fit(&self, n: usize) -> bool
        ensures { result ≡ coupling_links_fit n self.now }
    {
        ((self.link1 as usize) < n) & ((self.link2 as usize) < n)
    }

    #[tactic(auto, unfolding(crate::specs::HandedIn::coupling_axes_fit))]
    fn axes_fit(&self) -> bool
        ensures { result ≡ coupling_axes_fit self.now }
    {
        is_axis(self.axis1 as u32) & is_axis(self.axis2 as u32)
    }
}

impl Finite for Coupling {
    ghost finite = { coupling_finite };

    #[tactic(auto, unfolding(crate::specs::HandedIn::coupling_finite))]
    fn is_finite(&self) -> bool {
        self.coefficient.is_finite() & self.offset.is_finite()
    }
}

// ---- Tests of every link, and of every coupling

fn are_finite<T: Finite>(all: &[T]) -> bool
    ensures { result ≡ every T.finite all.now }
{
    all.iter().all(|x| x.is_finite())
}

fn are_masks_fit(links: &[Link]) -> bool
    ensures { result ≡ every link_masks_fit links.now }
{
    links.iter().all(|l| l.masks_fit())
}

fn are_links_fit(n: usize, couplings: &[Coupling]) -> bool
    ensures { result ≡ every (coupling_links_fit n) couplings.now }
{
    couplings.iter().all(|c| c.links_fit(n))
}

fn are_axes_fit(couplings: &[Coupling]) -> bool
    ensures { result ≡ every coupling_axes_fit couplings.now }
{
    couplings.iter().all(|c| c.axes_fit())
}

// ---- Tags

// Is it none of the others?
pub fn is_new(tag: u32, others: &[u32]) -> bool
    ensures { result ≡ is_new tag others.now }
{
    others.iter().all(|other| *other != tag)
}

// Does no tag stand twice?
#[tactic(auto, unfolding(crate::specs::HandedIn::unique))]
fn all_unique(tags: &[u32]) -> bool
    ensures { result ≡ unique tags.now }
{
    match tags.split_first() {
        Some((tag, later)) => is_new(*tag, later) & all_unique(later),
        None => true,
    }
}

// ---- Rows

impl Row {
    // Are its first n entries finite?
    #[tactic(auto, unfolding(crate::specs::Inner::row_finite))]
    fn is_finite_to(&self, n: usize) -> bool
        ensures { result ≡ row_finite n self.now }
    {
        is_finite_part(&self.entries, 0, n)
    }
}

fn are_finite_to(n: usize, rows: &[Row]) -> bool
    ensures { result ≡ every (row_finite n) rows.now }
{
    rows.iter().all(|row| row.is_finite_to(n))
}

// ---- Links that count

// A root's locked mask is 7 or 0.
fn root_fits(links: &[Link]) -> bool
    ensures { result ≡ root_mask_fits (map locked_of links.now) }
{
    links
        .first()
        .is_none_or(|root| (root.joint.locked == 7) | (root.joint.locked == 0))
}

// The sum of their DoFs. Summed by hand: what the library's `sum` asks for is a bound on the sum of the list, and here it is the list's length.
fn total_dofs(links: &[Link]) -> usize
    requires { length links.now ≤ link_limit }
    ensures { result ≡ total_of (map locked_of links.now) }
{
    let mut total = 0;
    for link in links {
        total += dofs(link.joint.locked);
    }
    total
}

// ---- An arm

impl Arm {
    // An arm of no links.
    #[tactic(auto, unfolding(crate::specs::Empty::empty_arm))]
    pub fn empty() -> Arm
        ensures { result ≡ empty_arm }
    {
        let link = Link::unplaced(0, 0, fixed(identity()), Point { x: 0.0, y: 0.0 });
        let coupling = Coupling {
            link1: 0,
            axis1: 0,
            link2: 0,
            axis2: 0,
            coefficient: 0.0,
            offset: 0.0,
        };
        let row = Row {
            entries: [0.0; DOFS],
        };
        Arm {
            link_count: 0,
            coupling_count: 0,
            links: [link; LINKS],
            couplings: [coupling; COUPLINGS],
            rows: [row; 5],
        }
    }

    // The links that count: never more than fit.
    #[tactic(auto, unfolding(crate::specs::Arm::links_of))]
    pub fn live_links(&self) -> &[Link]
        ensures { result.now ≡ links_of self.now }
    {
        &self.links[..self.link_count.min(LINKS)]
    }

    // The couplings that count: never more than fit.
    #[tactic(auto, unfolding(crate::specs::Arm::couplings_of))]
    pub fn live_couplings(&self) -> &[Coupling]
        ensures { result.now ≡ couplings_of self.now }
    {
        &self.couplings[..self.coupling_count.min(COUPLINGS)]
    }

    // The tag of each place for a link, whether it counts or not.
    pub fn tags(&self) -> [u32; LINKS]
        ensures { result ≡ map tag_of self.now.links }
    {
        self.links.map(|link| link.tag)
    }

    // The parent of each place for a link, whether it counts or not. Who wants those that count cuts them off: a part of a local array can't be handed back.
    pub fn parents(&self) -> [u8; LINKS]
        ensures { result ≡ map parent_of self.now.links }
    {
        self.links.map(|link| link.parent)
    }

    // The locked mask of a link; where there is no such link, all is locked.
    #[tactic(auto, unfolding(crate::specs::Arm::mask_at, crate::specs::Arm::masks_of))]
    pub fn mask_at(&self, link: usize) -> u8
        ensures { result ≡ mask_at self.now link }
    {
        self.live_links()
            .get(link)
            .map_or(7, |link| link.joint.locked)
    }

    // The start of a link: the DoFs of all earlier links.
    #[tactic(auto, using(crate::proofs::Live::links_le, crate::proofs::Live::start_taken))]
    pub fn start_of(&self, link: usize) -> usize
        ensures { result ≡ start_at self.now link }
    {
        let links = self.live_links();
        total_dofs(&links[..link.min(links.len())])
    }

    #[tactic(auto, using(crate::proofs::Live::links_le), unfolding(crate::specs::Arm::dof_count_of, crate::specs::Arm::masks_of))]
    pub fn dof_count(&self) -> usize
        ensures { result ≡ dof_count_of self.now }
    {
        total_dofs(self.live_links())
    }

    // Where in a row the entry of a link's axis stands.
    #[tactic(auto, using(crate::proofs::Live::start_within, crate::proofs::Live::dof_count_le, crate::proofs::Live::below_three), unfolding(crate::specs::Edits::dof_at))]
    pub fn dof_at(&self, link: usize, axis: u32) -> usize
        ensures { result ≡ dof_at self.now link axis }
    {
        self.start_of(link) + dofs_below(self.mask_at(link), axis)
    }

    #[tactic(auto, unfolding(crate::specs::Arm::row_in))]
    pub fn row(&self, name: RowName) -> &[f32; DOFS]
        ensures { result.now ≡ row_in self.now name }
    {
        &self.rows[name.number()].entries
    }

    // 3: does no tag stand twice?
    #[tactic(auto, unfolding(crate::specs::HandedIn::tags_unique))]
    fn tags_unique(&self) -> bool
        ensures { result ≡ tags_unique self.now }
    {
        let tags = self.tags();
        all_unique(&tags[..self.live_links().len()])
    }

    // 4: is each parent an earlier link?
    #[tactic(auto, unfolding(crate::specs::HandedIn::parents_earlier))]
    fn parents_earlier(&self) -> bool
        ensures { result ≡ parents_earlier self.now }
    {
        let parents = self.parents();
        parents_fit(&parents[..self.live_links().len()])
    }

    // 4: are parents earlier links, and couplings' links below the count?
    fn link_numbers_fit(&self) -> bool
        ensures { result ≡ link_numbers_fit self.now }
    {
        self.parents_earlier() & are_links_fit(self.link_count, self.live_couplings())
    }

    // 5: are masks at most 7, the root's locked one 7 or 0, and couplings' axes at most 2?
    #[tactic(auto, unfolding(crate::specs::HandedIn::root_fits, crate::specs::Arm::masks_of))]
    fn masks_and_axes_fit(&self) -> bool
        ensures { result ≡ masks_and_axes_fit self.now }
    {
        let links = self.live_links();
        are_masks_fit(links) & root_fits(links) & are_axes_fit(self.live_couplings())
    }

    // 7: are the entries of every row finite, up to the DoF count?
    #[tactic(auto, using(crate::proofs::Live::rows_tested))]
    fn are_finite_rows(&self) -> bool
        ensures { result ≡ rows_finite self.now }
    {
        are_finite_to(self.dof_count(), &self.rows)
    }

    // 9: does no angle lie beyond 256 either way?
    pub fn angles_fit(&self) -> bool
        ensures { result ≡ angles_fit self.now }
    {
        self.live_links().iter().all(|l| angle_fits(&l.joint))
    }

    // Rules 2 to 5, 7 and 9: the lowest that the arm breaks.
    #[tactic(auto, unfolding(crate::specs::HandedIn::arm_refusal, crate::specs::HandedIn::arm_rules))]
    pub fn refusal(&self) -> Result<(), Refusal>
        ensures { code result ≡ arm_refusal self.now }
    {
        lowest(&[
            unless(
                (self.link_count <= LINKS) & (self.coupling_count <= COUPLINGS),
                Refusal::Limit,
            ),
            unless(self.tags_unique(), Refusal::Tag),
            unless(self.link_numbers_fit(), Refusal::Link),
            unless(self.masks_and_axes_fit(), Refusal::Mask),
            unless(self.is_finite(), Refusal::NotFinite),
            unless(self.angles_fit(), Refusal::Beyond),
        ])
    }
}

// Up to its counts.
impl Finite for Arm {
    ghost finite = { floats_finite };

    fn is_finite(&self) -> bool {
        are_finite(self.live_links()) & are_finite(self.live_couplings()) & self.are_finite_rows()
    }
}

impl RowName {
    // Its place among the arm's rows.
    pub fn number(self) -> usize
        ensures { result ≡ row_number self }
    {
        self as usize
    }
}

// ---- What C is told

impl Edited {
    // The arm that a call left, with what it answered.
    pub fn of(arm: Arm, answer: Result<(), Refusal>) -> Edited
        ensures { result ≡ edited_as arm answer }
    {
        Edited {
            arm,
            refusal: answer.map_or_else(|refusal| refusal.number(), |()| 0),
        }
    }
}

impl From<Result<Arm, Refusal>> for Edited {
    ghost from_gives = { λ r e. e ≡ made_as r };

    fn from(answer: Result<Arm, Refusal>) -> Edited {
        match answer {
            Ok(arm) => Edited { arm, refusal: 0 },
            Err(refusal) => Edited {
                arm: Arm::empty(),
                refusal: refusal.number(),
            },
        }
    }
}
