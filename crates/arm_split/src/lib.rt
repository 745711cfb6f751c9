// The split of an arm: its map, and each part handed out as an arm.
#![tactic(auto)]

ghost use Rattle.std.specs.Prelude.{◌≡◌, length, IfOk};
ghost use Rattle.limits.specs.Limits.{link_limit};
ghost use Rattle.refusal.specs.Refusal.{code};
ghost use Rattle.refusal.specs.Counted.{counted, out};
ghost use Rattle.topology.specs.Answers.{split_answer};
ghost use Rattle.arm.specs.Arm.{parents_of};
ghost use Rattle.arm.specs.Edits.{made_as};
ghost use Rattle.full_working.specs.Outcome.{out as leaves};
ghost use Rattle.part_arm.specs.Places.{places_of};
ghost use Rattle.part_arm.specs.Part.{part_arm};
ghost use Rattle.arm_split.specs.Answers.{split_refusal, arm_split, part_refusal, arm_part};

use arm::Arm;
use full_working::{tables_fit, work_all};
use part_arm::{MAP, part_arm};
use refusal::{Refusal, lowest, unless};
use topology::{Split, split_map};

// The split map of the arm's parents, as of a bare list.
fn map_of(arm: &Arm, s: Split, map: &mut [u8]) -> Result<usize, Refusal>
    ensures whole { length arm.now.links ≡ link_limit }
    ensures answer { out (counted result) map.new ≡ split_answer (parents_of arm.now) s map.old }
{
    let parents = arm.parents();
    split_map(&parents[..arm.live_links().len()], s, map)
}

// ---- The map

// What refuses it, the bare list's own before the lent memory is written.
fn split_refusal(arm: &Arm, s: Split, map: &[u8]) -> Result<(), Refusal>
    ensures { code result ≡ split_refusal arm.now s map.now }
{
    let bare = map_of(arm, s, &mut [0; MAP]);
    lowest(&[
        unless(arm.live_links().len() <= map.len() / 2, Refusal::Memory),
        bare.map(|_| ()),
        arm.refusal(),
    ])
}

// Part and number of each link after a split of the arm, two bytes a link in lent memory, with the part count.
#[tactic(auto, using(refusal::proofs::Answers::filled_exit), unfolding(crate::specs::Answers::arm_split))]
pub fn split(arm: &Arm, s: Split, map: &mut [u8]) -> Result<usize, Refusal>
    ensures { out (counted result) map.new ≡ arm_split arm.now s map.old }
{
    split_refusal(arm, s, map)?;
    map_of(arm, s, map)
}

// ---- A part

// Part k of a split of the arm, not worked out yet.
fn unworked(arm: &Arm, s: Split, k: u32, tables: &[f32]) -> Result<Arm, Refusal>
    ensures refusal { code result ≡ part_refusal arm.now s k tables.now }
    ensures part { IfOk result (λ new. new ≡ part_arm (places_of arm.now s k) arm.now) }
{
    let mut places = [0; MAP];
    // A bare list that is refused has no part, so that 4 is given for its link too.
    let count = map_of(arm, s, &mut places).unwrap_or(0);
    lowest(&[
        unless(tables_fit(tables), Refusal::Memory),
        unless((k as usize) < count, Refusal::Link),
        arm.refusal(),
    ])?;
    Ok(part_arm(arm, &places, k as usize))
}

// Part k of a split of the arm, itself an arm, its Jacobians worked into tables of its own.
pub fn part(arm: &Arm, s: Split, k: u32, tables: &mut [f32]) -> Result<Arm, Refusal>
    ensures { leaves (made_as result) tables.new ≡ arm_part arm.now s k tables.old }
{
    let mut new = unworked(arm, s, k, tables)?;
    work_all(&mut new, tables)?;
    Ok(new)
}
