// The factors of a matrix, by elimination: n by n floats, row after row. Each function that works on the rows is told n, and that they are n by n: of a
// struct of both, lent by `&mut`, each would have to say that n and the place of the rows stay. Rows and columns go by number, as the definitions have them.
#![tactic(auto)]

ghost use Rattle.std.specs.Prelude.{◌≡◌, cond, ◌+◌, ◌-◌, ◌*◌, ◌<◌, ◌≤◌, length, leb, is_ok};
ghost use Rattle.limits.specs.Limits.{dof_limit};
ghost use Rattle.refusal.specs.Refusal.{code};
ghost use Rattle.floats.specs.Floats.{all_finite, zip_to};
ghost use Rattle.elimination.specs.Elimination.{row, swapped, absolute, pivot_row, less, reduced_row, reduced, column, factors, trouble, factored};
ghost use Rattle.elimination.specs.Inner.{room_refusal, factored_in};

use floats::{all_finite, copy_part, move_part};
use limits::DOFS;
use refusal::{Refusal, lowest, unless};

// As the rules say it: `abs` also takes the sign of -0 and of a NaN. `planar`, which knows nothing of matrices, has one of its own for an angle.
fn absolute_value(x: f32) -> f32
    ensures { result ≡ absolute x }
{
    if x < 0.0 { -x } else { x }
}

// The first row of greatest absolute value in column k, at or below the diagonal.
#[tactic(auto, using(crate::proofs::Rows::inside, crate::proofs::Rows::at_inside))]
fn pivot_row(n: usize, k: usize, rows: &[f32]) -> usize
    requires { (k < n) × (length rows.now ≡ n * n) }
    ensures { (result ≡ pivot_row n k rows.now) × (k ≤ result) × (result < n) }
{
    let mut p = k;
    let mut greatest = absolute_value(rows[k * n + k]);
    for i in k + 1..n {
        let value = absolute_value(rows[i * n + k]);
        if greatest < value {
            p = i;
            greatest = value;
        }
    }
    p
}

// The factor times the pivot row, taken away from a row. By place: of rows that are gone over together the library doesn't say what is written.
fn take_away(row: &mut [f32], pivot: &[f32], factor: f32)
    requires { length row.old ≡ length pivot.now }
    ensures { row.new ≡ zip_to (less factor) row.old pivot.now }
{
    for (j, x) in row.iter_mut().enumerate() {
        *x -= factor * pivot[j];
    }
}

// A row below the pivot row: its factor, and right of it what is left.
fn reduce_row(k: usize, row: &mut [f32], pivot: &[f32])
    requires { (k < length row.old) × (length row.old ≡ length pivot.now) }
    ensures { row.new ≡ reduced_row k pivot.now row.old }
{
    let factor = row[k] / pivot[k];
    row[k] = factor;
    take_away(&mut row[k + 1..], &pivot[k + 1..], factor);
}

// So all rows below row k.
#[tactic(auto, using(crate::proofs::Rows::inside))]
fn reduce_below(n: usize, k: usize, rows: &mut [f32], pivot: &[f32])
    requires { (k < n) × (length rows.old ≡ n * n) × (length pivot.now ≡ n) }
    ensures { rows.new ≡ reduced n k pivot.now (n - (k + 1)) (k + 1) rows.old }
{
    for i in k + 1..n {
        let at = i * n;
        reduce_row(k, &mut rows[at..at + n], pivot);
    }
}

// Rows k and p swapped, where `pivot` is row p already.
#[tactic(auto, using(crate::proofs::Rows::inside))]
fn swap_rows(n: usize, k: usize, p: usize, rows: &mut [f32], pivot: &[f32])
    requires { (k ≤ p) × (p < n) × (length rows.old ≡ n * n) × (length pivot.now ≡ n) × (pivot.now ≡ row n p rows.old) }
    ensures { rows.new ≡ swapped n k p rows.old }
{
    if k != p {
        move_part(rows, k * n, p * n, n);
        copy_part(rows, k * n, pivot, 0, n);
    }
}

// Column k, with its pivot in row p.
#[tactic(auto, using(crate::proofs::Rows::inside))]
fn eliminate_column(n: usize, k: usize, p: usize, rows: &mut [f32], pivot: &mut [f32])
    requires { (k ≤ p) × (p < n) × (length rows.old ≡ n * n) × (length pivot.old ≡ n) }
    ensures { rows.new ≡ column n k p rows.old }
{
    copy_part(pivot, 0, rows, p * n, n);
    swap_rows(n, k, p, rows, pivot);
    reduce_below(n, k, rows, pivot);
}

// The columns one after the other, up to a pivot that is zero. A value that isn't finite stays so, in what the rows become.
#[tactic(auto, using(crate::proofs::Rows::inside, crate::proofs::Rows::at_inside))]
fn eliminate(
    n: usize,
    rows: &mut [f32],
    swaps: &mut [usize],
    pivot: &mut [f32],
) -> Result<(), Refusal>
    requires { (length rows.old ≡ n * n) × (length swaps.old ≡ n) × (length pivot.old ≡ n) }
    ensures { factored n rows.old ≡ cond (all_finite rows.new) (cond (is_ok result) (factors 0 rows.new swaps.new) (trouble n (code result))) (trouble n 12) }
{
    for k in 0..n {
        let p = pivot_row(n, k, rows);
        if rows[p * n + k] == 0.0 {
            return Err(Refusal::Singular);
        }
        eliminate_column(n, k, p, rows, pivot);
        swaps[k] = p;
    }
    Ok(())
}

// The factors of rows that are just n by n; with trouble nothing is left of them.
fn factor_whole(n: usize, rows: &mut [f32], swaps: &mut [usize]) -> Result<(), Refusal>
    requires { (n ≤ dof_limit) × (length rows.old ≡ n * n) × (length swaps.old ≡ n) }
    ensures { factors (code result) rows.new swaps.new ≡ factored n rows.old }
{
    let mut pivot = [0.0; DOFS];
    let whole = eliminate(n, rows, swaps, &mut pivot[..n]);
    let answer = if all_finite(rows) {
        whole
    } else {
        Err(Refusal::Overflow)
    };
    if answer.is_err() {
        rows.fill(0.0);
        swaps.fill(0);
    }
    answer
}

// Is there room for n by n of something in `len`? Any n: a square that is too large to count has none.
pub fn square_fits(n: usize, len: usize) -> bool
    ensures { result ≡ leb (n * n) len }
{
    n.checked_mul(n).is_some_and(|square| square <= len)
}

// Is what is lent too short, or n above the limit?
#[tactic(auto, unfolding(crate::specs::Inner::room_refusal))]
pub fn room_refusal(n: usize, room: bool) -> Result<(), Refusal>
    ensures { code result ≡ room_refusal n room }
{
    lowest(&[
        unless(room, Refusal::Memory),
        unless(n <= DOFS, Refusal::Limit),
    ])
}

// The first n by n floats of `rows` become their factors, and `swaps` tells the row that each column swapped in.
#[tactic(auto, using(refusal::proofs::Answers::passed, crate::proofs::Room::room_fits))]
pub fn factor(n: usize, rows: &mut [f32], swaps: &mut [usize]) -> Result<(), Refusal>
    ensures { factors (code result) rows.new swaps.new ≡ factored_in n rows.old swaps.old }
{
    room_refusal(n, square_fits(n, rows.len()) & (n <= swaps.len()))?;
    factor_whole(n, &mut rows[..n * n], &mut swaps[..n])
}
