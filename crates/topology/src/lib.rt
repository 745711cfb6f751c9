// Parents as a list of bytes, link j's at place j: rule 4, the way from the root to a link, what is at or below one, and the split.
#![tactic(auto)]

ghost use Rattle.std.specs.Prelude.{◌≡◌, true, ◌++◌, ◌*◌, ◌≤◌, length, take, drop};
ghost use Rattle.refusal.specs.Refusal.{code};
ghost use Rattle.refusal.specs.Counted.{counted, out};
ghost use Rattle.lists.specs.Numbers.{each};
ghost use Rattle.limits.specs.Limits.{link_limit};
ghost use Rattle.topology.specs.Parents.{parent_fits, parents_fit, branch, marks};
ghost use Rattle.topology.specs.Split.{link_of, survives, head_of, part_count};
ghost use Rattle.topology.specs.Numbered.{part_if_any, PartsBelow, numbered};
ghost use Rattle.topology.specs.Answers.{refusal_of, branch_answer, split_answer};

use limits::LINKS;
use refusal::{Refusal, lowest, unless};

// How an arm is split: a link is deleted, or its joint only is cut.
#[derive(Clone, Copy, Debug, PartialEq, Eq)]
pub enum Split {
    Delete(usize),
    Cut(usize),
}

// Rule 4 for link j of parent p.
#[tactic(auto, using(crate::proofs::Fitting::first, crate::proofs::Fitting::later))]
pub fn parent_fits(j: usize, p: usize) -> bool
    ensures { result ≡ parent_fits j p }
{
    if j == 0 { p == 0 } else { p < j }
}

// Rule 4 for every link of a list.
pub fn parents_fit(parents: &[u8]) -> bool
    ensures { result ≡ parents_fit parents.now }
{
    parents
        .iter()
        .enumerate()
        .all(|(j, p)| parent_fits(j, *p as usize))
}

// The refusal of a call that asks for a link of a list; `enough`: the lent memory is long enough.
#[tactic(auto, unfolding(crate::specs::Answers::refusal_of))]
fn refusal_of(parents: &[u8], link: usize, enough: bool) -> Result<(), Refusal>
    ensures { code result ≡ refusal_of parents.now link enough }
{
    lowest(&[
        unless(enough, Refusal::Memory),
        unless(parents.len() <= LINKS, Refusal::Limit),
        unless(link < parents.len(), Refusal::Link),
        unless(parents_fit(parents), Refusal::Link),
    ])
}

// How many links the branch of a link has.
pub fn branch_length(parents: &[u8], link: usize) -> usize
    ensures { result ≡ length (branch parents.now link) }
{
    if parents.len() <= link {
        return 0;
    }
    let mut j = link;
    let mut p = parents[j] as usize;
    let mut n = 1;
    // A climb from parent to parent: no iterator of the library goes that way.
    while p < j {
        j = p;
        p = parents[j] as usize;
        n += 1;
    }
    n
}

// Writes the branch of a link, n links long, from the link up to the root. By places, the last first.
fn write_branch(parents: &[u8], link: usize, n: usize, to: &mut [u8])
    requires parents_len_bound { length parents.now ≤ link_limit }
    requires n_value { n ≡ length (branch parents.now link) }
    requires n_in_bounds { n ≤ length to.old }
    ensures { to.new ≡ branch parents.now link ++ drop n to.old }
{
    let mut j = link;
    for at in (0..n).rev() {
        to[at] = j as u8;
        j = parents[j] as usize;
    }
}

// The links from the root to a link, written into lent memory, with their count.
pub fn kinematic_branch(parents: &[u8], link: usize, to: &mut [u8]) -> Result<usize, Refusal>
    ensures { out (counted result) to.new ≡ branch_answer parents.now link to.old }
{
    let n = branch_length(parents, link);
    refusal_of(parents, link, n <= to.len())?;
    write_branch(parents, link, n, to);
    Ok(n)
}

// Which links are at or below a link, in one rising pass.
pub fn at_or_below(parents: &[u8], link: usize) -> [bool; LINKS]
    ensures { result ≡ marks parents.now link }
{
    let mut marks = [false; LINKS];
    // By places: over a chain with `take` the proof loses which link is marked.
    for j in 0..parents.len().min(LINKS) {
        let p = parents[j] as usize;
        marks[j] = (j == link) || (p < j && marks[p]);
    }
    marks
}

// ---- the split

impl Split {
    // The link that is deleted, or whose joint is cut.
    fn link(self) -> usize
        ensures { result ≡ link_of self }
    {
        match self {
            Split::Delete(k) | Split::Cut(k) => k,
        }
    }

    fn is_survivor(self, j: usize) -> bool
        ensures { result ≡ survives self j }
    {
        match self {
            Split::Delete(k) => j != k,
            Split::Cut(_) => true,
        }
    }

    // Is link j of parent p a head?
    fn is_head(self, j: usize, p: usize) -> bool
        ensures { result ≡ head_of self j p }
    {
        match self {
            Split::Delete(k) => (j != k) & ((j == 0) | (p == k)),
            Split::Cut(k) => (j == 0) | (j == k),
        }
    }
}

// What stands in the map for part and number of the deleted link.
pub const GONE: u8 = 255;

// Writes the part of each link, None for the deleted one, into lent memory, and returns the part count. Parts are bytes, as the map has them, and lent: so
// little is cleared for a map, and nothing copied. A head opens a part; any other survivor is in its parent's.
fn parts_of(parents: &[u8], s: Split, of: &mut [Option<u8>; LINKS]) -> usize
    requires parents_len_bound { length parents.now ≤ link_limit }
    requires parents_value { parents_fit parents.now ≡ true }
    ensures { (result ≡ part_count parents.now s) × (take (length parents.now) of.new ≡ each (length parents.now) (part_if_any parents.now s)) }
{
    let mut count = 0;
    for (j, p) in parents.iter().enumerate() {
        let p = *p as usize;
        of[j] = if s.is_head(j, p) {
            count += 1;
            Some((count - 1) as u8)
        } else if s.is_survivor(j) {
            of[p]
        } else {
            None
        };
    }
    count
}

// Writes part and number of each of n links: a link's number is how many of its part came before it.
fn write_map(of: &[Option<u8>; LINKS], n: usize, map: &mut [u8])
    requires n_le_link_limit { n ≤ link_limit }
    requires n_in_bounds { 2 * n ≤ length map.old }
    requires parts_below { PartsBelow n of.now }
    ensures { map.new ≡ numbered of.now n ++ drop (2 * n) map.old }
{
    let mut seen = [0u8; LINKS];
    // By places: a link has two bytes of the map.
    for j in 0..n {
        let (part, number) = match of[j] {
            Some(part) => {
                let number = seen[part as usize];
                seen[part as usize] += 1;
                (part, number)
            }
            None => (GONE, GONE),
        };
        map[2 * j] = part;
        map[2 * j + 1] = number;
    }
}

// Part and number of each link after a split, two bytes a link in lent memory, with the part count.
pub fn split_map(parents: &[u8], s: Split, map: &mut [u8]) -> Result<usize, Refusal>
    ensures { out (counted result) map.new ≡ split_answer parents.now s map.old }
{
    let n = parents.len();
    refusal_of(parents, s.link(), n <= map.len() / 2)?;
    let mut of = [None; LINKS];
    let count = parts_of(parents, s, &mut of);
    write_map(&of, n, map);
    Ok(count)
}
