// Masks of a joint, locked, limit and motor: bit 0 is X, bit 1 is Y, bit 2 the angle. Bits above 2 never count.
// Inner functions take a joint's bytes and refuse nothing. Entry points take masks and axes as any number, so that none is cut.
#![tactic(auto)]

ghost use Rattle.std.specs.Prelude.{◌≡◌, ◌≤◌, length};
ghost use Rattle.lists.specs.Lists.{laid};
ghost use Rattle.refusal.specs.Refusal.{code};
ghost use Rattle.refusal.specs.Counted.{out, counted};
ghost use Rattle.limits.specs.Limits.{link_limit};
ghost use Rattle.masks.specs.Masks.{is_mask, is_axis, bit_of, one, is_free, dofs_below, dofs_of, constraints_at, damping_of, damping_row};
ghost use Rattle.masks.specs.Axis.{axis_number, NamesAxis};
ghost use Rattle.masks.specs.Starts.{all_masks, starts_of, total_of};
ghost use Rattle.masks.specs.Answers.{free_answer, dofs_answer, below_answer, starts_refusal, starts_answer, damping_refusal, damping_answer, constraints_answer};

use limits::LINKS;
use refusal::{Refusal, lowest, unless};

// The default damping of a free angle.
const ANGLE_DAMPING: f32 = 0.1;

// An axis of a joint, by the number of its bit.
#[derive(Clone, Copy, Debug, PartialEq, Eq)]
pub enum Axis {
    X = 0,
    Y = 1,
    Angle = 2,
}

impl Axis {
    // The axis' number.
    pub fn number(self) -> u32
        ensures { result ≡ axis_number self }
    {
        self as u32
    }
}

impl TryFrom<u32> for Axis {
    type Error = Refusal;

    ghost try_from_gives = { NamesAxis };

    fn try_from(axis: u32) -> Result<Axis, Refusal> {
        match axis {
            0 => Ok(Axis::X),
            1 => Ok(Axis::Y),
            2 => Ok(Axis::Angle),
            _ => Err(Refusal::Mask),
        }
    }
}

// A mask is at most 7.
pub fn is_mask(mask: u32) -> bool
    ensures { result ≡ is_mask mask }
{
    mask <= 7
}

// An axis is at most 2.
pub fn is_axis(axis: u32) -> bool
    ensures { result ≡ is_axis axis }
{
    axis <= 2
}

// Is the mask's bit of an axis set?
fn bit(mask: u32, axis: Axis) -> bool
    ensures { result ≡ bit_of mask (axis_number axis) }
{
    (mask >> axis.number()) & 1 == 1
}

// `is_free`, of any numbers.
fn free(mask: u32, axis: u32) -> bool
    ensures { result ≡ is_free mask axis }
{
    Axis::try_from(axis).is_ok_and(|axis| !bit(mask, axis))
}

// `dofs_below`, of any numbers. A loop, since `filter` and `count` over the range take five times as long.
#[tactic(auto, using(crate::proofs::Laws::below_none, crate::proofs::Laws::below_next, crate::proofs::Laws::below_three, crate::proofs::Laws::below_le_axis, crate::proofs::Laws::from_le))]
fn free_below(mask: u32, axis: u32) -> usize
    ensures { result ≡ dofs_below mask axis }
{
    let mut count = 0;
    for below in 0..axis.min(3) {
        count += usize::from(free(mask, below));
    }
    count
}

// Is it one of the three axes, and free?
pub fn is_free(mask: u8, axis: u32) -> bool
    ensures { result ≡ is_free mask axis }
{
    free(mask as u32, axis)
}

// How many axes are free.
#[tactic(auto, unfolding(crate::specs::Masks::dofs_of))]
pub fn dofs(mask: u8) -> usize
    ensures { result ≡ dofs_of mask }
{
    free_below(mask as u32, 3)
}

// How many axes below an axis are free: the place of the axis' DoF among the joint's own.
pub fn dofs_below(mask: u8, axis: u32) -> usize
    ensures { result ≡ dofs_below mask axis }
{
    free_below(mask as u32, axis)
}

// The default damping of a DoF on an axis.
#[tactic(auto, unfolding(crate::specs::Masks::damping_of))]
pub fn axis_damping(axis: u8) -> f32
    ensures { result ≡ damping_of axis }
{
    if axis == 2 { ANGLE_DAMPING } else { 0.0 }
}

// Is an axis of a mask free? 1 or 0.
#[tactic(auto, using(refusal::proofs::Answers::counted_passed, refusal::proofs::Answers::counted_exit), unfolding(crate::specs::Answers::free_answer))]
pub fn free_axis(mask: u32, axis: u32) -> Result<usize, Refusal>
    ensures { counted result ≡ free_answer mask axis }
{
    unless(is_mask(mask) & is_axis(axis), Refusal::Mask)?;
    Ok(usize::from(free(mask, axis)))
}

// The DoF count of a mask.
#[tactic(auto, using(refusal::proofs::Answers::counted_passed, refusal::proofs::Answers::counted_exit), unfolding(crate::specs::Answers::dofs_answer, crate::specs::Masks::dofs_of))]
pub fn dof_count(mask: u32) -> Result<usize, Refusal>
    ensures { counted result ≡ dofs_answer mask }
{
    unless(is_mask(mask), Refusal::Mask)?;
    Ok(free_below(mask, 3))
}

// The DoFs of a mask below an axis.
#[tactic(auto, using(refusal::proofs::Answers::counted_passed, refusal::proofs::Answers::counted_exit), unfolding(crate::specs::Answers::below_answer))]
pub fn dof_count_below(mask: u32, axis: u32) -> Result<usize, Refusal>
    ensures { counted result ≡ below_answer mask axis }
{
    unless(is_mask(mask) & is_axis(axis), Refusal::Mask)?;
    Ok(free_below(mask, axis))
}

// Is each at most 7? No branch in the loop, so that it is compiled to wide instructions.
fn all_masks(masks: &[u8]) -> bool
    ensures { result ≡ all_masks masks.now }
{
    masks
        .iter()
        .fold(true, |ok, mask| ok & is_mask(u32::from(*mask)))
}

// The starts go into the front of `lent`; returned is the total. By place: of two lists that are gone over together the library doesn't say what is written.
fn fill_starts(masks: &[u8], lent: &mut [u8]) -> usize
    requires { (length masks.now ≤ link_limit) × (length masks.now ≤ length lent.old) }
    ensures { (result ≡ total_of masks.now) × (lent.new ≡ laid (starts_of masks.now) lent.old) }
{
    let mut start: usize = 0;
    for (i, mask) in masks.iter().enumerate() {
        lent[i] = start as u8;
        start += dofs(*mask);
    }
    start
}

#[tactic(auto, unfolding(crate::specs::Answers::starts_refusal))]
fn starts_refusal(masks: &[u8], room: usize) -> Result<(), Refusal>
    ensures { code result ≡ starts_refusal masks.now room }
{
    let n = masks.len();
    lowest(&[
        unless(n <= room, Refusal::Memory),
        unless(n <= LINKS, Refusal::Limit),
        unless(all_masks(masks), Refusal::Mask),
    ])
}

// The start of each mask of a bare list, a byte each, and the total. Any mask may come first: a bare list has no root.
#[tactic(auto, using(refusal::proofs::Answers::passed, refusal::proofs::Answers::filled_passed, refusal::proofs::Answers::filled_exit, crate::proofs::Answers::starts_fit), unfolding(crate::specs::Answers::starts_answer))]
pub fn starts(masks: &[u8], lent: &mut [u8]) -> Result<usize, Refusal>
    ensures { out (counted result) lent.new ≡ starts_answer masks.now lent.old }
{
    starts_refusal(masks, lent.len())?;
    Ok(fill_starts(masks, lent))
}

// The default damping of each free axis, rising, goes into the front of `lent`; returned is how many. By the axis' number, as the definition takes it.
fn fill_damping(mask: u32, lent: &mut [f32]) -> usize
    requires { dofs_of mask ≤ length lent.old }
    ensures { (result ≡ dofs_of mask) × (lent.new ≡ laid (damping_row mask) lent.old) }
{
    let mut at = 0;
    for axis in 0u8..3 {
        if free(mask, axis as u32) {
            lent[at] = axis_damping(axis);
            at += 1;
        }
    }
    at
}

#[tactic(auto, unfolding(crate::specs::Answers::damping_refusal, crate::specs::Masks::dofs_of))]
fn damping_refusal(mask: u32, room: usize) -> Result<(), Refusal>
    ensures { code result ≡ damping_refusal mask room }
{
    lowest(&[
        unless(free_below(mask, 3) <= room, Refusal::Memory),
        unless(is_mask(mask), Refusal::Mask),
    ])
}

// The default damping row of a mask: one entry for each DoF, rising.
#[tactic(auto, using(refusal::proofs::Answers::passed, refusal::proofs::Answers::filled_passed, refusal::proofs::Answers::filled_exit, crate::proofs::Answers::damping_fits), unfolding(crate::specs::Answers::damping_answer))]
pub fn default_damping(mask: u32, lent: &mut [f32]) -> Result<usize, Refusal>
    ensures { out (counted result) lent.new ≡ damping_answer mask lent.old }
{
    damping_refusal(mask, lent.len())?;
    Ok(fill_damping(mask, lent))
}

// One for the axis' limit bit and one for its motor bit, if the axis is free.
fn constraints_at(locked: u32, limit: u32, motor: u32, axis: Axis) -> usize
    ensures { (result ≡ constraints_at locked limit motor (axis_number axis)) × (result ≤ 2) }
{
    let moves = !bit(locked, axis);
    usize::from(moves & bit(limit, axis)) + usize::from(moves & bit(motor, axis))
}

// How many velocity constraints a joint's limits and motors make.
#[tactic(auto, using(refusal::proofs::Answers::counted_passed, refusal::proofs::Answers::counted_exit), unfolding(crate::specs::Answers::constraints_answer, crate::specs::Masks::constraints_of))]
pub fn num_velocity_constraints(locked: u32, limit: u32, motor: u32) -> Result<usize, Refusal>
    ensures { counted result ≡ constraints_answer locked limit motor }
{
    unless(
        is_mask(locked) & is_mask(limit) & is_mask(motor),
        Refusal::Mask,
    )?;
    let x = constraints_at(locked, limit, motor, Axis::X);
    let y = constraints_at(locked, limit, motor, Axis::Y);
    let angle = constraints_at(locked, limit, motor, Axis::Angle);
    Ok(x + y + angle)
}
