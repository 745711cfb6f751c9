// Floats in a row: which are finite, copies of a row and of parts, sums of products.
#![tactic(auto)]

ghost use Rattle.std.specs.Prelude.{◌≡◌, ◌+◌, Bool, leb};
ghost use Rattle.floats.specs.Inner.{overlaid, copied_part, moved_part};
ghost use Rattle.lists.specs.Lists.{part};
ghost use Rattle.floats.specs.Floats.{all_finite, entry_of, dot};

// What is made of floats, of which each may be an infinity or a NaN.
pub trait Finite {
    ghost finite: { Self → Bool };

    // Is every float in it finite?
    fn is_finite(&self) -> bool
        ensures { result ≡ finite self.now };
}

// Is every float of s finite? No branch in the loop, so that it is compiled to wide instructions.
pub fn all_finite(s: &[f32]) -> bool
    ensures { result ≡ all_finite s.now }
{
    s.iter().fold(true, |ok, x| ok & x.is_finite())
}

// Are the n floats from `at` on finite, as many of them as there are?
pub fn is_finite_part(s: &[f32], at: usize, n: usize) -> bool
    ensures { result ≡ all_finite (part at n s.now) }
{
    let start = at.min(s.len());
    let end = start + n.min(s.len() - start);
    all_finite(&s[start..end])
}

// What stands at k in a row, and +0 past its end.
#[tactic(auto, unfolding(crate::specs::Floats::entry_of))]
pub fn entry(row: &[f32], k: usize) -> f32
    ensures { result ≡ entry_of row.now k }
{
    row.get(k).copied().unwrap_or(0.0)
}

// The floats of `from` go into the front of `to`, as many as both have.
#[tactic(auto, using(crate::proofs::Rows::overlaid_cut))]
pub fn copy(to: &mut [f32], from: &[f32])
    ensures { to.new ≡ overlaid to.old from.now }
{
    let n = to.len().min(from.len());
    to[..n].copy_from_slice(&from[..n]);
}

// Does a part of n from `at` on lie within a length?
fn part_fits(at: usize, n: usize, length: usize) -> bool
    ensures { result ≡ leb (at + n) length }
{
    n <= length && at <= length - n
}

// The n floats from `start` of `from` go to those from `at` of `to`; where either is too short, `to` stays.
#[tactic(auto, unfolding(crate::specs::Inner::copied_part))]
pub fn copy_part(to: &mut [f32], at: usize, from: &[f32], start: usize, n: usize)
    ensures { to.new ≡ copied_part at start n to.old from.now }
{
    if part_fits(at, n, to.len()) & part_fits(start, n, from.len()) {
        to[at..at + n].copy_from_slice(&from[start..start + n]);
    }
}

// The n floats from `from` go further back in the same list; where they would overlap or not fit, it stays.
#[tactic(auto, unfolding(crate::specs::Inner::moved_part))]
pub fn move_part(s: &mut [f32], from: usize, to: usize, n: usize)
    ensures { s.new ≡ moved_part from to n s.old }
{
    if part_fits(from, n, to) & part_fits(to, n, s.len()) {
        s.copy_within(from..from + n, to);
    }
}

// The products of two rows, as far as both go, summed rising from +0.
pub fn dot_product(row: &[f32], other: &[f32]) -> f32
    ensures { result ≡ dot row.now other.now }
{
    row.iter().zip(other).fold(0.0, |sum, (x, y)| sum + x * y)
}
