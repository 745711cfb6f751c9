// Kinematics: a link's world pose, shifts and Jacobian block from what is kept of its parent, and the pass that refreshes marked links.
// Poses and shifts are kept in the links, Jacobian blocks in lent tables.
#![tactic(auto)]

ghost use Rattle.std.specs.Prelude.{◌≡◌, ◌+◌, ◌≤◌, ◌<◌, length, set, IfSome, IsOkUnless};
ghost use Rattle.std.specs.Option.{option_map};
ghost use Rattle.arm.specs.Arm.{link_at};
ghost use Rattle.refusal.specs.declared.Refusal.{Refusal};
ghost use Rattle.kinematics.specs.Inner.{copied_from, posed_of, parent_before, TurnedTo, kept_block, WorkedOut, blocks_laid, work_at, one_fits, turned_out, turned, refresh_one, refreshed};
ghost use Rattle.limits.specs.Limits.{link_limit, dof_limit, table_size};
ghost use Rattle.masks.specs.Axis.{axis_number};
ghost use Rattle.kinematics.specs.Blocks.{block_at, with_block, shifted, column_added, axis_added, own_added};
ghost use Rattle.kinematics.specs.Link.{root_posed, later_posed, block_from, finite_place};
ghost use Rattle.kinematics.specs.State.{marked};
ghost use Rattle.kinematics.specs.Answers.{out, refresh_marked, refresh_all};

use arm::Link;
use floats::{Finite, all_finite};
use limits::{BLOCK, DOFS, LINKS, TABLES};
use masks::{Axis, dofs, dofs_below, is_free};
use multibody_joint::{Joint, body_to_parent};
use planar::{
    Point, Pose, Rotation, difference, placed, product, rotation_of, rotation_product,
    translation_of,
};
use refusal::{Refusal, unless};

// ---- Jacobian blocks: three rows, a column for each degree of freedom

// Each column (v0, v1, w) becomes (v0 + (−shift.y)·w, v1 + shift.x·w, w). By the column's number: its three places stand in one list.
fn shift_block(block: &mut [f32; BLOCK], shift: Point)
    ensures { block.new ≡ shifted shift block.old }
{
    let right = -shift.y;
    let up = shift.x;
    for c in 0..DOFS {
        let w = block[2 * DOFS + c];
        block[c] = block[c] + right * w;
        block[DOFS + c] = block[DOFS + c] + up * w;
    }
}

// A column: what a degree of freedom adds in X, in Y and to the angle.
#[derive(Clone, Copy)]
struct Column {
    x: f32,
    y: f32,
    w: f32,
}

// More in a column.
#[tactic(auto, unfolding(crate::specs::Blocks::column_added))]
fn add_column(block: &mut [f32; BLOCK], c: usize, more: Column)
    requires { c < dof_limit }
    ensures { block.new ≡ column_added c more.x more.y more.w block.old }
{
    block[c] = block[c] + more.x;
    block[DOFS + c] = block[DOFS + c] + more.y;
    block[2 * DOFS + c] = block[2 * DOFS + c] + more.w;
}

// Where a joint's own columns stand: from its start on, and as many as its axes that aren't locked. Three fit there.
#[derive(Clone, Copy)]
struct Own {
    locked: u8,
    start: usize,
    ghost fits: { start + 3 ≤ dof_limit },
}

impl Own {
    // The column of an axis, if it is free.
    #[tactic(auto, using(masks::proofs::Laws::below_free, masks::proofs::Laws::dofs_le), unfolding(crate::specs::Blocks::axis_added))]
    fn add_axis(self, block: &mut [f32; BLOCK], axis: Axis, more: Column)
        ensures { block.new ≡ axis_added self.locked self.start (axis_number axis) more.x more.y more.w block.old }
    {
        let axis = axis.number();
        if is_free(self.locked, axis) {
            add_column(block, self.start + dofs_below(self.locked, axis), more);
        }
    }

    // The joint's own columns, where `turn` is the parent's world rotation times frame 1's.
    #[tactic(auto, unfolding(crate::specs::Blocks::own_added))]
    fn add_to(self, block: &mut [f32; BLOCK], turn: Rotation)
        ensures { block.new ≡ own_added self.locked self.start turn block.old }
    {
        let x = Column {
            x: turn.re,
            y: turn.im,
            w: 0.0,
        };
        let y = Column {
            x: -turn.im,
            y: turn.re,
            w: 0.0,
        };
        let angle = Column {
            x: 0.0,
            y: 0.0,
            w: 1.0,
        };
        self.add_axis(block, Axis::X, x);
        self.add_axis(block, Axis::Y, y);
        self.add_axis(block, Axis::Angle, angle);
    }
}

// ---- One link

// Where a link is: what is kept of it but its block, and the rotation of its own columns.
#[derive(Clone, Copy)]
pub struct Posed {
    pub world: Pose,
    pub shift02: Point,
    pub shift23: Point,
    pub turn: Rotation,
}

impl Finite for Posed {
    ghost finite = { λ p. finite_place p.world p.shift02 p.shift23 };

    #[tactic(auto, unfolding(crate::specs::Link::finite_place))]
    fn is_finite(&self) -> bool {
        self.world.is_finite() & self.shift02.is_finite() & self.shift23.is_finite()
    }
}

#[tactic(auto, unfolding(crate::specs::Link::root_posed))]
fn root_posed(joint: Joint, centre: Point) -> Posed
    ensures { result ≡ root_posed joint centre }
{
    let world = body_to_parent(joint);
    let c2 = placed(world, translation_of(joint.frame2));
    let c3 = placed(world, centre);
    let shift23 = difference(c3, c2);
    Posed {
        world,
        shift02: Point { x: 0.0, y: 0.0 },
        shift23,
        turn: rotation_product(Rotation { re: 1.0, im: 0.0 }, rotation_of(joint.frame1)),
    }
}

// From the parent's world pose and centre of mass.
#[tactic(auto, unfolding(crate::specs::Link::later_posed))]
fn later_posed(above: Pose, centre_above: Point, joint: Joint, centre: Point) -> Posed
    ensures { result ≡ later_posed above centre_above joint centre }
{
    let world = product(above, body_to_parent(joint));
    let c0 = placed(above, centre_above);
    let c2 = placed(world, translation_of(joint.frame2));
    let c3 = placed(world, centre);
    Posed {
        world,
        shift02: difference(c2, c0),
        shift23: difference(c3, c2),
        turn: rotation_product(rotation_of(above), rotation_of(joint.frame1)),
    }
}

#[tactic(auto, unfolding(crate::specs::Inner::posed_of))]
fn pose_link(above: Option<Link>, l: &Link) -> Posed
    ensures { result ≡ posed_of above l.now }
{
    match above {
        Some(a) => later_posed(a.world, a.centre, l.joint, l.centre),
        None => root_posed(l.joint, l.centre),
    }
}

// The block that was copied from the parent's becomes the link's own.
#[tactic(auto, unfolding(crate::specs::Link::block_from))]
fn work_block(block: &mut [f32; BLOCK], p: Posed, own: Own)
    ensures { block.new ≡ block_from p own.locked own.start block.old }
{
    shift_block(block, p.shift02);
    own.add_to(block, p.turn);
    shift_block(block, p.shift23);
}

// A link's turn: the block that was copied from its parent's becomes its own. The link stays where a result isn't finite.
#[tactic(auto, unfolding(arm::specs::Setters::with_place))]
fn refresh_link(
    link: &mut Link,
    above: Option<Link>,
    start: usize,
    block: &mut [f32; BLOCK],
) -> Result<(), Refusal>
    requires { start + 3 ≤ dof_limit }
    ensures turn { TurnedTo (posed_of above link.old) link.old start block.old block.new (turned link.new result) }
    ensures refusal { IsOkUnless result Refusal.Overflow }
{
    let p = pose_link(above, link);
    let own = Own {
        locked: link.joint.locked,
        start,
    };
    work_block(block, p, own);
    unless(p.is_finite() & all_finite(block), Refusal::Overflow)?;
    link.world = p.world;
    link.shift02 = p.shift02;
    link.shift23 = p.shift23;
    Ok(())
}

// ---- The pass

// The parent of link j, unless link j is a root: then its parent isn't earlier.
fn parent_before(l: &Link, j: usize) -> Option<usize>
    ensures { result ≡ parent_before l.now j }
{
    let p = l.parent as usize;
    if p < j { Some(p) } else { None }
}

// That parent, as the pass has left it. It is a number of a link: three contracts say so, and a struct round it would hold nothing else.
fn link_above(links: &[Link; LINKS], parent: Option<usize>) -> Option<Link>
    requires { IfSome parent (λ p. p < link_limit) }
    ensures { result ≡ option_map (link_at links.now) parent }
{
    parent.map(|p| links[p])
}

// Link p's block, as the tables keep it.
fn block_of(tables: &[f32; TABLES], p: usize) -> &[f32; BLOCK]
    requires { p < link_limit }
    ensures { result.now ≡ block_at p tables.now }
{
    tables[p * BLOCK..].first_chunk().unwrap()
}

// The block that a link copies of the tables: its parent's. A root copies zeros.
fn kept_block(tables: &[f32; TABLES], parent: Option<usize>) -> [f32; BLOCK]
    requires { IfSome parent (λ p. p < link_limit) }
    ensures { result ≡ kept_block parent tables.now }
{
    match parent {
        Some(p) => *block_of(tables, p),
        None => [0.0; BLOCK],
    }
}

// Link j's place in the work area takes the block that the link copies: that of its parent, which was just worked out there if the parent is marked,
// and else is kept in the tables. A root copies zeros.
#[tactic(auto, unfolding(crate::specs::Inner::copied_from))]
fn copy_parent(
    work: &mut [[f32; BLOCK]; LINKS],
    j: usize,
    parent: Option<usize>,
    marks: &[bool; LINKS],
    tables: &[f32; TABLES],
)
    requires { (j < link_limit) × IfSome parent (λ p. p < link_limit) }
    ensures { work.new ≡ set work.old j (copied_from parent (marked marks.now) tables.now work.old) }
{
    work[j] = match parent {
        Some(p) if marks[p] => work[p],
        _ => kept_block(tables, parent),
    };
}

// Of the first n links those marked, rising, each from what is kept of its parent. Their blocks go into `work`. By the link's number: a link's parent is
// read at another place of the lists that are written.
#[tactic(auto, using(masks::proofs::Laws::dofs_le))]
fn work_out(
    links: &mut [Link; LINKS],
    n: usize,
    marks: &[bool; LINKS],
    tables: &[f32; TABLES],
    work: &mut [[f32; BLOCK]; LINKS],
) -> Result<(), Refusal>
    requires { n ≤ link_limit }
    ensures worked { WorkedOut links.old n (marked marks.now) tables.now work.old work.new (refreshed links.new result) }
    ensures refusal { IsOkUnless result Refusal.Overflow }
{
    let mut start: usize = 0;
    for j in 0..n {
        let locked = links[j].joint.locked;
        if marks[j] {
            let parent = parent_before(&links[j], j);
            let above = link_above(links, parent);
            copy_parent(work, j, parent, marks, tables);
            // What it answers has a name, here and in `refresh_marked`, so that an edit of must-fail/ can hide it by another of that name.
            let turn = refresh_link(&mut links[j], above, start, &mut work[j]);
            turn?;
        }
        start += dofs(locked);
    }
    Ok(())
}

// Writes link j's block in the tables.
fn put_block(tables: &mut [f32; TABLES], j: usize, block: &[f32; BLOCK])
    requires { j < link_limit }
    ensures { tables.new ≡ with_block j block.now tables.old }
{
    tables[j * BLOCK..(j + 1) * BLOCK].copy_from_slice(block);
}

// The blocks of the first n links that are marked go from `work` into the tables. By the link's number: of chunks that are written the library doesn't
// say which.
#[tactic(auto, using(crate::proofs::Laid::laid_none, crate::proofs::Laid::laid_more, crate::proofs::Laid::laid_skip))]
fn commit(work: &[[f32; BLOCK]; LINKS], n: usize, marks: &[bool; LINKS], tables: &mut [f32; TABLES])
    requires { n ≤ link_limit }
    ensures { tables.new ≡ blocks_laid (marked marks.now) (work_at work.now) n tables.old }
{
    for j in 0..n {
        if marks[j] {
            put_block(tables, j, &work[j]);
        }
    }
}

// Of the first n links those marked are worked out, rising, each from what is kept of its parent. Links and tables stay as they were where a
// result isn't finite, or the tables are too short.
pub fn refresh_marked(
    links: &mut [Link; LINKS],
    n: usize,
    marks: &[bool; LINKS],
    tables: &mut [f32],
) -> Result<(), Refusal>
    ensures answer { out (refreshed links.new result) tables.new ≡ refresh_marked links.old n (marked marks.now) tables.old }
    ensures refusal { IsOkUnless result Refusal.Overflow }
{
    let front = tables.first_chunk_mut().ok_or(Refusal::Overflow)?;
    let count = n.min(LINKS);
    let mut new = *links;
    let mut work = [[0.0; BLOCK]; LINKS];
    let worked = work_out(&mut new, count, marks, front, &mut work);
    worked?;
    commit(&work, count, marks, front);
    *links = new;
    Ok(())
}

// Link j alone, from its parent's link and the block that the tables keep of that: what `refresh_marked` does of a single mark, without a work area for all
// links. Link and tables stay as they were where a result isn't finite, or the link doesn't fit.
pub fn refresh_one(
    link: &mut Link,
    above: &Link,
    start: usize,
    j: usize,
    tables: &mut [f32],
) -> Result<(), Refusal>
    ensures answer { turned_out (turned link.new result) tables.new ≡ refresh_one link.old above.now start j tables.old }
    ensures refusal { IsOkUnless result Refusal.Overflow }
{
    let front = tables.first_chunk_mut().ok_or(Refusal::Overflow)?;
    unless((j < LINKS) & (start <= DOFS - 3), Refusal::Overflow)?;
    let parent = parent_before(link, j);
    let mut block = kept_block(front, parent);
    refresh_link(link, parent.and(Some(*above)), start, &mut block)?;
    put_block(front, j, &block);
    Ok(())
}

// The first n links are worked out, rising, and all of the tables are rewritten, with +0 in unused places. Links and tables stay as they were
// where a result isn't finite, or the tables are too short.
pub fn refresh_all(links: &mut [Link; LINKS], n: usize, tables: &mut [f32]) -> Result<(), Refusal>
    ensures answer { out (refreshed links.new result) tables.new ≡ refresh_all links.old n tables.old }
    ensures refusal { IsOkUnless result Refusal.Overflow }
{
    let front = tables.first_chunk_mut().ok_or(Refusal::Overflow)?;
    let every = [true; LINKS];
    let mut new = *links;
    let mut work = [[0.0; BLOCK]; LINKS];
    work_out(&mut new, n.min(LINKS), &every, front, &mut work)?;
    commit(&work, LINKS, &every, front);
    *links = new;
    Ok(())
}
