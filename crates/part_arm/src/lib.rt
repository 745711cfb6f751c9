// One part of a split as an arm: where its links go, and what of links, rows and couplings goes with them. Inner functions: they refuse nothing.
#![tactic(auto)]

ghost use Rattle.std.specs.Prelude.{◌≡◌, ◌≤◌, ◌^◌, length, map};
ghost use Rattle.part_arm.specs.Inner.{part_in, number_in, here_in, head_in, places_in, seen_by, link_if_here, coupling_if_stays, Lays, IsWhole};
ghost use Rattle.part_arm.specs.Places.{goes_on};
ghost use Rattle.part_arm.specs.Part.{part_row, part_arm};

use arm::{Arm, Coupling, Link, Row};
use limits::{DOFS, LINKS};
use masks::dofs;
use multibody_joint::fixed;
use topology::GONE;

// Bytes of a split map: part and number of each link.
pub const MAP: usize = 2 * LINKS;

// ---- Where a link goes

// A split map, and the part of it that is made an arm.
#[derive(Clone, Copy)]
struct PartMap {
    places: [u8; MAP],
    k: usize,
}

impl PartMap {
    // The part of a link; past the map, as of the deleted link: the rule gives a byte for every number.
    #[tactic(auto, unfolding(crate::specs::Inner::part_in))]
    fn part(&self, j: u8) -> u8
        ensures { result ≡ part_in self.now.places j }
    {
        self.places.get(2 * j as usize).copied().unwrap_or(GONE)
    }

    // Its number in the part, past the map alike.
    #[tactic(auto, unfolding(crate::specs::Inner::number_in))]
    fn number(&self, j: u8) -> u8
        ensures { result ≡ number_in self.now.places j }
    {
        self.places.get(2 * j as usize + 1).copied().unwrap_or(GONE)
    }

    #[tactic(auto, unfolding(crate::specs::Inner::here_in))]
    fn is_here(&self, j: u8) -> bool
        ensures { result ≡ here_in self.now.places self.now.k j }
    {
        self.part(j) as usize == self.k
    }

    // The first of a part is its head.
    #[tactic(auto, unfolding(crate::specs::Inner::head_in))]
    fn is_head(&self, j: u8) -> bool
        ensures { result ≡ head_in self.now.places j }
    {
        self.number(j) == 0
    }

    // Does a link keep its joint and its row entries?
    fn goes_on(&self, j: u8) -> bool
        ensures { result ≡ goes_on (seen_by self.now) j }
    {
        self.is_here(j) & !self.is_head(j)
    }

    // Link j of the arm as the part has it, if it is here.
    #[tactic(auto, unfolding(crate::specs::Inner::link_if_here, crate::specs::Part::new_link))]
    fn link(&self, j: u8, l: Link) -> Option<Link>
        ensures { result ≡ link_if_here (seen_by self.now) j l }
    {
        if !self.is_here(j) {
            return None;
        }
        if self.is_head(j) {
            Some(Link {
                parent: 0,
                joint: fixed(l.world),
                ..l
            })
        } else {
            Some(Link {
                parent: self.number(l.parent),
                ..l
            })
        }
    }

    // The entries of the links that go on, in order.
    #[tactic(auto, using(masks::proofs::Laws::dofs_le, arm::proofs::Live::links_le))]
    fn row(&self, arm: &Arm, row: &Row) -> Row
        ensures { IsWhole arm.now → result ≡ part_row (seen_by self.now) arm.now row.now }
    {
        let mut entries = [0.0; DOFS];
        let mut at = 0;
        let mut start = 0;
        for (j, l) in arm.live_links().iter().enumerate() {
            let d = dofs(l.joint.locked);
            if self.goes_on(j as u8) {
                entries[at..at + d].copy_from_slice(&row.entries[start..start + d]);
                at += d;
            }
            start += d;
        }
        Row { entries }
    }

    // All rows: an array's own parameter says that there are 5.
    fn rows(&self, arm: &Arm, rows: &[Row; 5]) -> [Row; 5]
        ensures { IsWhole arm.now → result ≡ map (part_row (seen_by self.now) arm.now) rows.now }
    {
        rows.map(|row| self.row(arm, &row))
    }

    // A coupling as the part has it, if it stays.
    #[tactic(auto, unfolding(crate::specs::Inner::coupling_if_stays, crate::specs::Part::coupling_stays, crate::specs::Part::new_coupling))]
    fn coupling(&self, c: Coupling) -> Option<Coupling>
        ensures { result ≡ coupling_if_stays (seen_by self.now) c }
    {
        if self.goes_on(c.link1) & self.goes_on(c.link2) {
            Some(Coupling {
                link1: self.number(c.link1),
                link2: self.number(c.link2),
                ..c
            })
        } else {
            None
        }
    }
}

// Lays what `kept` gives of each of the first n items, in turn, over the front of a list; answers how many those are. It takes C's array and count as they
// are: a slice of those that count doesn't say that the array is whole.
fn lay<T: Copy, F: Fn(u8, T) -> Option<T>>(items: &[T], n: usize, to: &mut [T], kept: F) -> usize
    requires few { length items.now ≤ 2 ^ 8 }
    requires room { length items.now ≤ length to.old }
    requires callable { F.IsAlwaysCallable kept }
    ensures { Lays (F.post kept) items.now n to.old result to.new }
{
    let live = &items[..n.min(items.len())];
    let mut count = 0;
    for (j, item) in live.iter().enumerate() {
        if let Some(new) = kept(j as u8, *item) {
            to[count] = new;
            count += 1;
        }
    }
    count
}

// ---- The arm

// Part k of the arm, its links placed by a split map; poses and shifts are still the old ones.
pub fn part_arm(arm: &Arm, places: &[u8; MAP], k: usize) -> Arm
    ensures { result ≡ part_arm (places_in places.now k) arm.now }
{
    let part = PartMap { places: *places, k };
    let mut new = Arm::empty();
    new.link_count = lay(&arm.links, arm.link_count, &mut new.links, |j, l| {
        part.link(j, l)
    });
    new.coupling_count = lay(
        &arm.couplings,
        arm.coupling_count,
        &mut new.couplings,
        |_, c| part.coupling(c),
    );
    new.rows = part.rows(arm, &arm.rows);
    new
}
