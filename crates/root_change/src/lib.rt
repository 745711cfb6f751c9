// The root change of an arm (`update_root_type`): the root is fixed or free at a pose, then the arm is worked out in full.
#![tactic(auto)]

ghost use Rattle.std.specs.Prelude.{◌≡◌};
ghost use Rattle.refusal.specs.Refusal.{code};
ghost use Rattle.arm.specs.Edits.{edited_as};
ghost use Rattle.full_working.specs.Outcome.{out};
ghost use Rattle.root_change.specs.Root.{locked_by, root_pose, root_joint, widened, narrowed, root_row, root_changed, root_refusal, changed_root};

use arm::{Arm, Row};
use floats::Finite;
use full_working::{tables_fit, work_all};
use limits::DOFS;
use multibody_joint::{Joint, fixed, free, set_free_pos, with_frames};
use planar::{Pose, is_turn, rotation_of};
use refusal::{Refusal, lowest, unless};

// What a root is changed to: free or fixed, at a pose.
#[derive(Clone, Copy)]
pub enum Root {
    Free(Pose),
    Fixed(Pose),
}

// ---- The root's joint

impl Root {
    // The locked mask of what the root becomes.
    fn locked(&self) -> u8
        ensures { result ≡ locked_by self.now }
    {
        match self {
            Root::Free(_) => 0,
            Root::Fixed(_) => 7,
        }
    }

    // The pose that it becomes so at.
    fn pose(&self) -> Pose
        ensures { result ≡ root_pose self.now }
    {
        match *self {
            Root::Free(pose) | Root::Fixed(pose) => pose,
        }
    }

    // Of the same type, a free joint's position is set, or a fixed joint's frame 1.
    #[tactic(auto, unfolding(crate::specs::Root::root_joint))]
    fn joint(&self, old: Joint) -> Joint
        ensures { result ≡ root_joint self.now old }
    {
        match *self {
            Root::Free(pose) if old.locked == 0 => set_free_pos(old, pose),
            Root::Free(pose) => free(pose),
            Root::Fixed(pose) if old.locked == 7 => with_frames(old, pose, old.frame2),
            Root::Fixed(pose) => fixed(pose),
        }
    }
}

// ---- Rows

// Three zeros come in front; what falls off behind is past every DoF.
#[tactic(auto, unfolding(crate::specs::Root::widened))]
fn widened(row: &Row) -> Row
    ensures { result ≡ widened row.now }
{
    let mut entries = [0.0; DOFS];
    entries[3..].copy_from_slice(&row.entries[..DOFS - 3]);
    Row { entries }
}

// The first three go.
#[tactic(auto, unfolding(crate::specs::Root::narrowed))]
fn narrowed(row: &Row) -> Row
    ensures { result ≡ narrowed row.now }
{
    let mut entries = [0.0; DOFS];
    entries[..DOFS - 3].copy_from_slice(&row.entries[3..]);
    Row { entries }
}

// By the root's locked mask, which may be any, and the one that it gets.
#[tactic(auto, unfolding(crate::specs::Root::root_row))]
fn root_row(row: &Row, from: u8, to: u8) -> Row
    ensures { result ≡ root_row from to row.now }
{
    if from == to {
        *row
    } else if to == 0 {
        widened(row)
    } else {
        narrowed(row)
    }
}

// ---- The change

// The arm with its root and every row changed alike, the damping too; nothing is worked out.
fn root_changed(arm: &Arm, root: &Root) -> Arm
    ensures { result ≡ root_changed arm.now root.now }
{
    let mut new = *arm;
    let old = arm.links[0].joint;
    let to = root.locked();
    new.rows = arm.rows.map(|row| root_row(&row, old.locked, to));
    new.links[0].joint = root.joint(old);
    new
}

#[tactic(auto, unfolding(crate::specs::Root::root_refusal))]
fn root_refusal(arm: &Arm, tables: &[f32], root: &Root) -> Result<(), Refusal>
    ensures { code result ≡ root_refusal arm.now tables.now root.now }
{
    let pose = root.pose();
    lowest(&[
        unless(tables_fit(tables), Refusal::Memory),
        unless(0 < arm.link_count, Refusal::Link),
        unless(pose.is_finite(), Refusal::NotFinite),
        unless(is_turn(rotation_of(pose)), Refusal::NotATurn),
        arm.refusal(),
    ])
}

// The root is changed, and all of the tables are rewritten.
pub fn change_root(arm: &mut Arm, tables: &mut [f32], root: Root) -> Result<(), Refusal>
    ensures { out (edited_as arm.new result) tables.new ≡ changed_root arm.old tables.old root }
{
    root_refusal(arm, tables, &root)?;
    let mut new = root_changed(arm, &root);
    work_all(&mut new, tables)?;
    *arm = new;
    Ok(())
}
