// The solve of a matrix and a right side, by the factors of the matrix.
#![tactic(auto)]

ghost use Rattle.std.specs.Prelude.{◌≡◌, ◌*◌, ◌<◌, ◌≤◌, length, take};
ghost use Rattle.limits.specs.Limits.{dof_limit};
ghost use Rattle.refusal.specs.Refusal.{code};
ghost use Rattle.solve.specs.Solve.{exchanged, permuted, less_products, forward, backward, answer, substituted, solution, into, solve_refusal, solve_of};
ghost use Rattle.solve.specs.Inner.{substitute_of, solve_any};

use elimination::{factor, room_refusal, square_fits};
use floats::{all_finite, copy, copy_part, is_finite_part};
use limits::DOFS;
use refusal::{Refusal, lowest, unless};

// A small matrix is worked in a small buffer: to clear the largest would cost more than to solve it.
const SMALL: usize = 12;

fn exchange(x: &mut [f32], p: usize, q: usize)
    requires { p < length x.old }
    ensures { x.new ≡ exchanged p q x.old }
{
    if q < x.len() {
        x.swap(p, q);
    }
}

// By the place: an exchange names two of them.
fn permute(swaps: &[usize], x: &mut [f32])
    requires { length swaps.now ≡ length x.old }
    ensures { x.new ≡ permuted 0 swaps.now x.old }
{
    for k in 0..swaps.len() {
        exchange(x, k, swaps[k]);
    }
}

// `start` less the products of two rows, indices rising.
fn less_products(start: f32, row: &[f32], x: &[f32]) -> f32
    ensures { result ≡ less_products start row.now x.now }
{
    row.iter().zip(x).fold(start, |value, (a, x)| value - a * x)
}

// What `factor` made of n by n floats: their factors, and the row that each column swapped in.
#[derive(Clone, Copy)]
struct Factors<'a> {
    n: usize,
    rows: &'a [f32],
    swaps: &'a [usize],
    ghost square: { length rows.now ≡ n * n },
    ghost swapped: { length swaps.now ≡ n },
}

// By the row's number: x is read on one side of it while it is written; so x is a slice of its own, and its length stands in each contract.
impl<'a> Factors<'a> {
    #[tactic(auto, using(elimination::proofs::Rows::inside, elimination::proofs::Rows::at_inside))]
    fn forward(&self, x: &mut [f32])
        requires { length x.old ≡ self.now.n }
        ensures { x.new ≡ forward self.now.n self.now.rows.now self.now.n 0 x.old }
    {
        for i in 0..self.n {
            let at = i * self.n;
            x[i] = less_products(x[i], &self.rows[at..at + i], &x[..i]);
        }
    }

    #[tactic(auto, using(elimination::proofs::Rows::inside, elimination::proofs::Rows::at_inside))]
    fn backward(&self, x: &mut [f32])
        requires { length x.old ≡ self.now.n }
        ensures { x.new ≡ backward self.now.n self.now.rows.now self.now.n x.old }
    {
        for i in (0..self.n).rev() {
            let at = i * self.n;
            let value = less_products(x[i], &self.rows[at + i + 1..at + self.n], &x[i + 1..]);
            x[i] = value / self.rows[at + i];
        }
    }

    // All unknowns, before any test: what isn't finite stays so.
    fn unknowns(&self, right: &[f32], x: &mut [f32])
        requires { (length right.now ≡ self.now.n) × (length x.old ≡ self.now.n) }
        ensures { x.new ≡ backward self.now.n self.now.rows.now self.now.n (forward self.now.n self.now.rows.now self.now.n 0 (permuted 0 self.now.swaps.now right.now)) }
    {
        x.copy_from_slice(right);
        permute(self.swaps, x);
        self.forward(x);
        self.backward(x);
    }

    // The unknowns, worked out in x, go into `res` unless one isn't finite.
    fn substitute_in(&self, right: &[f32], x: &mut [f32], res: &mut [f32]) -> Result<(), Refusal>
        requires { (length right.now ≡ self.now.n) × (length x.old ≡ self.now.n) × (self.now.n ≤ length res.old) }
        ensures { answer (code result) res.new ≡ into self.now.n 0 (substituted self.now.n self.now.rows.now self.now.swaps.now right.now) res.old }
    {
        self.unknowns(right, x);
        unless(all_finite(x), Refusal::Overflow)?;
        copy(res, x);
        Ok(())
    }

    fn substitute(&self, right: &[f32], res: &mut [f32]) -> Result<(), Refusal>
        requires { (self.now.n ≤ dof_limit) × (length right.now ≡ self.now.n) × (self.now.n ≤ length res.old) }
        ensures { answer (code result) res.new ≡ into self.now.n 0 (substituted self.now.n self.now.rows.now self.now.swaps.now right.now) res.old }
    {
        let mut x = [0.0; DOFS];
        self.substitute_in(right, &mut x[..self.n], res)
    }
}

// The solution for one right side, by the factors and swaps that `factor` made.
#[tactic(auto, using(refusal::proofs::Answers::passed, crate::proofs::Answers::substitute_fits))]
pub fn substitute(
    n: usize,
    factors: &[f32],
    swaps: &[usize],
    right: &[f32],
    res: &mut [f32],
) -> Result<(), Refusal>
    ensures { answer (code result) res.new ≡ substitute_of n factors.now swaps.now right.now res.old }
{
    let room = square_fits(n, factors.len())
        & (n <= swaps.len())
        & (n <= right.len())
        & (n <= res.len());
    room_refusal(n, room)?;
    let made = Factors {
        n,
        rows: &factors[..n * n],
        swaps: &swaps[..n],
    };
    made.substitute(&right[..n], res)
}

// The solve in a buffer of M rows of M floats.
fn solve_sized<const M: usize>(
    n: usize,
    matrix: &[f32],
    right: &[f32],
    res: &mut [f32],
) -> Result<(), Refusal>
    requires { (n ≤ M) × (M ≤ dof_limit) × (n * n ≤ length matrix.now) × (n ≤ length right.now) × (n ≤ length res.old) }
    ensures { answer (code result) res.new ≡ into n 0 (solution n (take (n * n) matrix.now) (take n right.now)) res.old }
{
    let mut buffer = [[0.0f32; M]; M];
    let rows = buffer.as_flattened_mut();
    let mut swaps = [0; M];
    copy_part(rows, 0, matrix, 0, n * n);
    factor(n, rows, &mut swaps)?;
    substitute(n, rows, &swaps, right, res)
}

// The solve of any floats: rule 7 isn't tested. What isn't finite gives 12, where the matrix's own 11 or 12 isn't met first.
#[tactic(auto, using(refusal::proofs::Answers::passed, crate::proofs::Answers::any_room))]
pub fn solve_any(n: usize, matrix: &[f32], right: &[f32], res: &mut [f32]) -> Result<(), Refusal>
    ensures { answer (code result) res.new ≡ solve_any n matrix.now right.now res.old }
{
    let room = square_fits(n, matrix.len()) & (n <= right.len()) & (n <= res.len());
    room_refusal(n, room)?;
    if n <= SMALL {
        solve_sized::<SMALL>(n, matrix, right, res)
    } else {
        solve_sized::<DOFS>(n, matrix, right, res)
    }
}

// Rules 1, 2 and 7, over what is needed alone. Past the limit no float need be read: 2 is lower.
#[tactic(auto, using(crate::proofs::Answers::refusal_is))]
fn solve_refusal(n: usize, matrix: &[f32], right: &[f32], room: usize) -> Result<(), Refusal>
    ensures { code result ≡ solve_refusal n matrix.now right.now room }
{
    let few = n.min(DOFS);
    let enough = square_fits(n, matrix.len()) & (n <= right.len()) & (n <= room);
    let finite = is_finite_part(matrix, 0, few * few) & is_finite_part(right, 0, few);
    lowest(&[
        unless(enough, Refusal::Memory),
        unless(n <= DOFS, Refusal::Limit),
        unless(finite, Refusal::NotFinite),
    ])
}

// The first n floats of `res` become the x with matrix · x = right, the matrix being n by n in rows.
pub fn solve(n: usize, matrix: &[f32], right: &[f32], res: &mut [f32]) -> Result<(), Refusal>
    ensures { answer (code result) res.new ≡ solve_of n matrix.now right.now res.old }
{
    solve_refusal(n, matrix, right, res.len())?;
    solve_any(n, matrix, right, res)
}
