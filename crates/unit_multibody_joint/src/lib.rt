// The constraint rows of one degree of freedom: its limit and its friction. Both are entry points: links and axes are any numbers, the arm handed in
// is tested, and the lowest refusal of all is given. A refusal leaves all lent memory as it was.
#![tactic(auto)]

ghost use Rattle.std.specs.Prelude.{◌≡◌, ◌*◌, ◌<◌, ◌≤◌, not, ◌&&◌, length, replicate, set, Ok, IfOk};
ghost use Rattle.limits.specs.Limits.{dof_limit};
ghost use Rattle.refusal.specs.Refusal.{code};
ghost use Rattle.std.specs.Float.Ieee.{lt};
ghost use Rattle.floats.specs.Floats.{zero32, one32, times, is_finite};
ghost use Rattle.floats.specs.Inner.{overlaid, copied_part};
ghost use Rattle.solve.specs.Solve.{answer};
ghost use Rattle.solve.specs.Inner.{solve_any};
ghost use Rattle.arm.specs.Edits.{dof_at};
ghost use Rattle.unit_multibody_joint.specs.Outcome.{out};
ghost use Rattle.unit_multibody_joint.specs.Lent.{SamePlaces};
ghost use Rattle.unit_multibody_joint.specs.Rows.{positive, lower_bound, upper_bound, limit_bounds, friction_bounds, inverse, row_of, row_as, finite_row, row_answer, lhs_at};
ghost use Rattle.unit_multibody_joint.specs.Refusals.{memory_fits, friction_at, limits_finite, limits_ordered, row_refusal};
ghost use Rattle.unit_multibody_joint.specs.Answers.{axis_answer, limit_answer, friction_answer};

use arm::{Arm, RowName};
use elimination::square_fits;
use floats::{Finite, all_finite, copy, copy_part, entry, is_finite_part};
use limits::DOFS;
use masks::{is_axis, is_free};
use refusal::{Refusal, lowest, unless};
use solve::solve_any;

// What the host gives of a limit.
#[repr(C)]
#[derive(Clone, Copy)]
pub struct Limits {
    pub position: f32,
    pub min: f32,
    pub max: f32,
    pub dt: f32,
    pub erp_inv_dt: f32,
    pub cfm_coeff: f32,
}

// What of a row doesn't depend on the mass matrix.
#[derive(Clone, Copy)]
pub struct Bounds {
    pub lower: f32,
    pub upper: f32,
    pub rhs: f32,
}

// A row: between which bounds its impulse lies, its right side, and the gains of its DoF.
#[derive(Clone, Copy)]
pub struct Constraint {
    pub lower: f32,
    pub upper: f32,
    pub rhs: f32,
    pub cfm_gain: f32,
    pub inv_lhs: f32,
}

// What C is told of a row: a refused one is all zeros.
#[repr(C)]
#[derive(Clone, Copy)]
pub struct ConstraintRow {
    pub refusal: u8,
    pub lower: f32,
    pub upper: f32,
    pub rhs: f32,
    pub cfm_gain: f32,
    pub inv_lhs: f32,
}

// A lower bound of a limit that doesn't hold.
const MINUS_ZERO: f32 = -0.0;

// ---- Bounds

// x, or +0 unless it is positive.
#[tactic(auto, unfolding(crate::specs::Rows::positive))]
fn positive_part(x: f32) -> f32
    ensures { result ≡ positive x }
{
    if 0.0 < x { x } else { 0.0 }
}

// The greatest finite f32 either way bounds nothing.
#[tactic(auto, unfolding(crate::specs::Rows::lower_bound))]
fn lower_bound(position: f32, min: f32) -> f32
    ensures { result ≡ lower_bound position min }
{
    if position < min { f32::MIN } else { MINUS_ZERO }
}

#[tactic(auto, unfolding(crate::specs::Rows::upper_bound))]
fn upper_bound(position: f32, max: f32) -> f32
    ensures { result ≡ upper_bound position max }
{
    if max < position { f32::MAX } else { 0.0 }
}

impl Limits {
    #[tactic(auto, unfolding(crate::specs::Rows::limit_bounds))]
    fn bounds(&self) -> Bounds
        ensures { result ≡ limit_bounds self.now }
    {
        let above = positive_part(self.position - self.max);
        let below = positive_part(self.min - self.position);
        Bounds {
            lower: lower_bound(self.position, self.min),
            upper: upper_bound(self.position, self.max),
            rhs: 0.0 + (above - below) * self.erp_inv_dt,
        }
    }
}

impl Finite for Limits {
    ghost finite = { limits_finite };

    fn is_finite(&self) -> bool {
        all_finite(&[
            self.position,
            self.min,
            self.max,
            self.dt,
            self.erp_inv_dt,
            self.cfm_coeff,
        ])
    }
}

// What a row is made of before the mass matrix; whether the floats that were given are finite, and bound no reversed pair: two flags, since rules 7 and 10 have
// their places among the other tests.
#[derive(Clone, Copy)]
struct Wanted {
    bounds: Bounds,
    cfm_coeff: f32,
    finite: bool,
    ordered: bool,
}

impl Wanted {
    fn limit(given: Limits) -> Wanted
        ensures { result ≡ record { bounds = limit_bounds given; cfm_coeff = given.cfm_coeff; finite = limits_finite given; ordered = limits_ordered given } }
    {
        Wanted {
            bounds: given.bounds(),
            cfm_coeff: given.cfm_coeff,
            finite: given.is_finite(),
            ordered: !(given.max < given.min),
        }
    }

    fn friction(friction: f32, dt: f32, cfm_coeff: f32) -> Wanted
        ensures { result ≡ record { bounds = friction_bounds friction dt; cfm_coeff = cfm_coeff; finite = is_finite dt && is_finite cfm_coeff; ordered = not (lt (times friction dt) zero32) } }
    {
        let most = friction * dt;
        Wanted {
            bounds: Bounds {
                lower: -most,
                upper: most,
                rhs: 0.0,
            },
            cfm_coeff,
            finite: dt.is_finite() & cfm_coeff.is_finite(),
            ordered: !(most < 0.0),
        }
    }
}

// ---- Rows

// The reciprocal, and 0 of zero.
#[tactic(auto, unfolding(crate::specs::Rows::inverse))]
fn inv(x: f32) -> f32
    ensures { result ≡ inverse x }
{
    if x == 0.0 { 0.0 } else { 1.0 / x }
}

impl Constraint {
    // The row of these bounds; its gains by lhs and cfm_coeff.
    #[tactic(auto, unfolding(crate::specs::Rows::row_of))]
    pub fn of(b: Bounds, cfm_coeff: f32, lhs: f32) -> Constraint
        ensures { row_as (Ok result) ≡ row_of b cfm_coeff lhs }
    {
        let cfm_gain = lhs * cfm_coeff;
        Constraint {
            lower: b.lower,
            upper: b.upper,
            rhs: b.rhs,
            cfm_gain,
            inv_lhs: inv(lhs + cfm_gain),
        }
    }
}

impl Finite for Constraint {
    ghost finite = { λ c. finite_row (row_as (Ok c)) };

    fn is_finite(&self) -> bool {
        all_finite(&[
            self.lower,
            self.upper,
            self.rhs,
            self.cfm_gain,
            self.inv_lhs,
        ])
    }
}

impl From<Result<Constraint, Refusal>> for ConstraintRow {
    ghost from_gives = { λ r c. c ≡ row_as r };

    fn from(answer: Result<Constraint, Refusal>) -> ConstraintRow {
        match answer {
            Ok(row) => ConstraintRow {
                refusal: 0,
                lower: row.lower,
                upper: row.upper,
                rhs: row.rhs,
                cfm_gain: row.cfm_gain,
                inv_lhs: row.inv_lhs,
            },
            Err(refusal) => ConstraintRow {
                refusal: refusal.number(),
                lower: 0.0,
                upper: 0.0,
                rhs: 0.0,
                cfm_gain: 0.0,
                inv_lhs: 0.0,
            },
        }
    }
}

// ---- J and WJ

// The mass matrix M, and the memories that are lent for J and for WJ, which solves M · WJ = J.
#[derive(Drop)]
pub struct Lent<'a> {
    pub mass: &'a [f32],
    pub j: &'a mut [f32],
    pub wj: &'a mut [f32],
}

impl<'a> Lent<'a> {
    // Have they the lengths that n DoFs need?
    pub fn fits(&self, n: usize) -> bool
        ensures { result ≡ memory_fits n self.now.mass.now (length self.now.j.now) (length self.now.wj.now) }
    {
        square_fits(n, self.mass.len()) & (n <= self.j.len()) & (n <= self.wj.len())
    }

    // WJ of a row J, beside the lent memory: what is made of it may still be refused.
    pub fn solve(&self, row: &[f32]) -> Result<[f32; DOFS], Refusal>
        ensures refusal { code result ≡ (solve_any (length row.now) self.now.mass.now row.now (replicate dof_limit zero32)).refusal }
        ensures solved { IfOk result (λ w. answer 0 w ≡ solve_any (length row.now) self.now.mass.now row.now (replicate dof_limit zero32)) }
    {
        let mut solved = [0.0; DOFS];
        solve_any(row.len(), self.mass, row, &mut solved)?;
        Ok(solved)
    }

    // Both go into the fronts of the memories.
    pub fn lay(&mut self, row: &[f32], solved: &[f32; DOFS])
        ensures j { self.new.j.now ≡ overlaid self.old.j.now row.now }
        ensures mass { self.new.mass.now ≡ self.old.mass.now }
        ensures places { SamePlaces self.old self.new }
        ensures wj { self.new.wj.now ≡ copied_part 0 0 (length row.now) self.old.wj.now solved.now }
    {
        copy(self.j, row);
        copy_part(self.wj, 0, solved, 0, row.len());
    }
}

// The row of any J, whose lhs stands in WJ at `at`, once no test refuses it.
fn constrain(
    row: &[f32],
    at: usize,
    wanted: Wanted,
    lent: &mut Lent<'_>,
) -> Result<Constraint, Refusal>
    requires { (length row.now ≤ dof_limit) × (at < length row.now) × (length row.now * length row.now ≤ length lent.old.mass.now) × (length row.now ≤ length lent.old.j.now) × (length row.now ≤ length lent.old.wj.now) }
    ensures places { SamePlaces lent.old lent.new }
    ensures answer { out (row_as result) lent.new.j.now lent.new.wj.now ≡ row_answer wanted.bounds wanted.cfm_coeff (lhs_at at) 0 (length row.now) row.now lent.old.mass.now lent.old.j.now lent.old.wj.now }
{
    let solved = lent.solve(row)?;
    let made = Constraint::of(wanted.bounds, wanted.cfm_coeff, solved[at]);
    unless(made.is_finite(), Refusal::Overflow)?;
    lent.lay(row, &solved);
    Ok(made)
}

// ---- The rows of an axis

// A link's axis, by any numbers.
#[derive(Clone, Copy)]
struct LinkAxis {
    link: u32,
    axis: u32,
}

impl LinkAxis {
    // The place of its DoF among all.
    fn dof(self, arm: &Arm) -> usize
        ensures { result ≡ dof_at arm.now self.link self.axis }
    {
        arm.dof_at(self.link as usize, self.axis)
    }

    // Its friction; +0 where the arm has no such DoF.
    #[tactic(auto, using(arm::proofs::Live::dof_count_le, crate::proofs::Rows::friction_is))]
    fn friction(self, arm: &Arm) -> f32
        ensures { result ≡ friction_at arm.now self.link self.axis }
    {
        entry(
            &arm.row(RowName::Frictions)[..arm.dof_count()],
            self.dof(arm),
        )
    }
}

// The rules that both rows share.
#[tactic(auto, using(arm::proofs::Live::dof_count_le, elimination::proofs::Rows::square_mono), unfolding(crate::specs::Refusals::row_refusal))]
fn row_refusal(arm: &Arm, at: LinkAxis, wanted: Wanted, lent: &Lent<'_>) -> Result<(), Refusal>
    ensures { code result ≡ row_refusal arm.now at.link at.axis wanted.finite wanted.ordered lent.now.mass.now (length lent.now.j.now) (length lent.now.wj.now) }
{
    let n = arm.dof_count();
    let mask = arm.mask_at(at.link as usize);
    lowest(&[
        unless(lent.fits(n), Refusal::Memory),
        unless((at.link as usize) < arm.link_count, Refusal::Link),
        unless(is_axis(at.axis), Refusal::Mask),
        unless(is_free(mask, at.axis), Refusal::Locked),
        unless(
            wanted.finite & is_finite_part(lent.mass, 0, n * n),
            Refusal::NotFinite,
        ),
        unless(wanted.ordered, Refusal::Reversed),
        arm.refusal(),
    ])
}

// 1 at a DoF, zero at all others.
fn unit(dof: usize) -> [f32; DOFS]
    requires { dof < dof_limit }
    ensures { result ≡ set (replicate dof_limit zero32) dof one32 }
{
    let mut row = [0.0; DOFS];
    row[dof] = 1.0;
    row
}

// The row of an axis: J is 1 at its DoF, and lhs is WJ there.
#[tactic(auto, using(refusal::proofs::Answers::passed, crate::proofs::Accepted::row_ready))]
fn axis_row(
    arm: &Arm,
    at: LinkAxis,
    wanted: Wanted,
    lent: &mut Lent<'_>,
) -> Result<Constraint, Refusal>
    ensures places { SamePlaces lent.old lent.new }
    ensures answer { out (row_as result) lent.new.j.now lent.new.wj.now ≡ axis_answer arm.now at.link at.axis wanted.finite wanted.ordered wanted.bounds wanted.cfm_coeff lent.old.mass.now lent.old.j.now lent.old.wj.now }
{
    row_refusal(arm, at, wanted, lent)?;
    let dof = at.dof(arm);
    constrain(&unit(dof)[..arm.dof_count()], dof, wanted, lent)
}

// The row of an axis' limit. The first n floats of `j` become J and those of `wj` WJ, n being the DoF count.
#[tactic(auto, using(crate::proofs::Asked::limit_is))]
pub fn limit_row(
    arm: &Arm,
    link: u32,
    axis: u32,
    given: Limits,
    mass: &[f32],
    j: &mut [f32],
    wj: &mut [f32],
) -> Result<Constraint, Refusal>
    ensures { out (row_as result) j.new wj.new ≡ limit_answer arm.now link axis given mass.now j.old wj.old }
{
    let mut lent = Lent { mass, j, wj };
    axis_row(
        arm,
        LinkAxis { link, axis },
        Wanted::limit(given),
        &mut lent,
    )
}

// The row of an axis' friction, which the arm's row holds. `j` and `wj` as in `limit_row`.
#[tactic(auto, using(crate::proofs::Asked::friction_is))]
pub fn friction_row(
    arm: &Arm,
    link: u32,
    axis: u32,
    dt: f32,
    cfm_coeff: f32,
    mass: &[f32],
    j: &mut [f32],
    wj: &mut [f32],
) -> Result<Constraint, Refusal>
    ensures { out (row_as result) j.new wj.new ≡ friction_answer arm.now link axis dt cfm_coeff mass.now j.old wj.old }
{
    let at = LinkAxis { link, axis };
    let wanted = Wanted::friction(at.friction(arm), dt, cfm_coeff);
    let mut lent = Lent { mass, j, wj };
    axis_row(arm, at, wanted, &mut lent)
}
