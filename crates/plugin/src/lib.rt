// What the Rust plug-in calls: splits and counts as C functions over numbers and byte slices. Each answers as its entry point does: a refusal, or 0 and a
// count. A refusal writes nothing.
#![tactic(auto)]

ghost use Rattle.std.specs.Prelude.{◌≡◌, ◌*◌, ◌≤◌, length};
ghost use Rattle.lists.specs.Lists.{laid};
ghost use Rattle.refusal.specs.Counted.{counted, out};
ghost use Rattle.topology.specs.declared.Split.TheVariants.{Delete, Cut};
ghost use Rattle.topology.specs.Answers.{split_answer};
ghost use Rattle.masks.specs.Answers.{dofs_answer, starts_answer, constraints_answer};
ghost use Rattle.plugin.specs.Bytes.{bytes_of, damping_bytes};

use numerals::{bits_of, write_u32};
use refusal::{Counted, Refusal};
use topology::{Split, split_map};

// A link is deleted: part and new number of each old link, two bytes a link into `map`, 255 and 255 for the deleted one; returned is the
// part count. Refused: 1, 2, 4.
#[unsafe(no_mangle)]
pub extern "C" fn giellavor_split_delete(parents: &[u8], link: u32, map: &mut [u8]) -> Counted
    ensures { out result map.new ≡ split_answer parents.now (Delete link) map.old }
{
    split_map(parents, Split::Delete(link as usize), map).into()
}

// A link's joint is cut: part and new number of each link, two bytes a link into `map`; returned is the part count. Refused: 1, 2, 4.
#[unsafe(no_mangle)]
pub extern "C" fn giellavor_split_cut(parents: &[u8], link: u32, map: &mut [u8]) -> Counted
    ensures { out result map.new ≡ split_answer parents.now (Cut link) map.old }
{
    split_map(parents, Split::Cut(link as usize), map).into()
}

// The DoF count of a mask. Refused: 5.
#[unsafe(no_mangle)]
pub extern "C" fn giellavor_dof_count(mask: u32) -> Counted
    ensures { result ≡ dofs_answer mask }
{
    masks::dof_count(mask).into()
}

// The start of each mask of a list, a byte a mask into `starts`; returned is the total. Refused: 1, 2, 5.
#[unsafe(no_mangle)]
pub extern "C" fn giellavor_starts(masks: &[u8], starts: &mut [u8]) -> Counted
    ensures { out result starts.new ≡ starts_answer masks.now starts.old }
{
    masks::starts(masks, starts).into()
}

// How many velocity constraints a joint makes. Refused: 5.
#[unsafe(no_mangle)]
pub extern "C" fn giellavor_num_velocity_constraints(locked: u32, limit: u32, motor: u32) -> Counted
    ensures { result ≡ constraints_answer locked limit motor }
{
    masks::num_velocity_constraints(locked, limit, motor).into()
}

// Writes the bytes of a row of floats over the front of `bytes`.
#[tactic(auto, using(crate::proofs::Rows::written_all))]
fn write_row(row: &[f32], bytes: &mut [u8])
    requires { 4 * length row.now ≤ length bytes.old }
    ensures { bytes.new ≡ laid (bytes_of row.now) bytes.old }
{
    let mut at = 0;
    for x in row {
        at = write_u32(bytes, at, bits_of(*x));
    }
}

// The default damping of a mask in bytes, with the DoF count.
#[tactic(auto, using(crate::proofs::Damping::bytes_fit))]
fn default_damping(mask: u32, damping: &mut [u8]) -> Result<usize, Refusal>
    ensures { out (counted result) damping.new ≡ damping_bytes mask damping.old }
{
    let mut row = [0.0f32; 3];
    let room = (damping.len() / 4).min(3);
    let n = masks::default_damping(mask, &mut row[..room])?;
    write_row(&row[..n], damping);
    Ok(n)
}

// The default damping of a mask, as f32 bits, lowest byte first, four bytes a DoF into `damping`; returned is the DoF count. Refused: 1, 5.
#[unsafe(no_mangle)]
pub extern "C" fn giellavor_default_damping(mask: u32, damping: &mut [u8]) -> Counted
    ensures { out result damping.new ≡ damping_bytes mask damping.old }
{
    default_damping(mask, damping).into()
}
