// `fill_jacobians`: what a force on a link does along each degree of freedom. An entry point: the link is any number, the arm handed in is tested, and the
// lowest refusal of all is given. A refusal leaves all lent memory as it was.
#![tactic(auto)]

ghost use Rattle.std.specs.Prelude.{◌≡◌, ◌*◌, ◌<◌, ◌≤◌, length, take, Ok};
ghost use Rattle.limits.specs.Limits.{link_limit, dof_limit, table_size};
ghost use Rattle.refusal.specs.Refusal.{code};
ghost use Rattle.arm.specs.Arm.{row_in};
ghost use Rattle.arm.specs.declared.RowName.TheVariants.{Velocities};
ghost use Rattle.kinematics.specs.Blocks.{block_at};
ghost use Rattle.unit_multibody_joint.specs.Outcome.{out};
ghost use Rattle.unit_multibody_joint.specs.Lent.{SamePlaces};
ghost use Rattle.fill_jacobians.specs.Sums.{column_of, force_row, sums_of, sums_as, finite_sums, sums_answer};
ghost use Rattle.fill_jacobians.specs.Fill.{force_finite, fill_refusal, fill_answer};

use arm::{Arm, RowName};
use floats::{Finite, all_finite, dot_product, is_finite_part};
use limits::{BLOCK, DOFS, TABLES};
use refusal::{Refusal, lowest, unless};
use unit_multibody_joint::Lent;

// A force and a torque on a link.
#[repr(C)]
#[derive(Clone, Copy)]
pub struct Force {
    pub x: f32,
    pub y: f32,
    pub torque: f32,
}

// j·wj and j·velocities.
#[derive(Clone, Copy)]
pub struct Products {
    pub j_wj: f32,
    pub j_velocities: f32,
}

// What C is told of the two: zeros where refused.
#[repr(C)]
#[derive(Clone, Copy)]
pub struct Sums {
    pub refusal: u8,
    pub j_wj: f32,
    pub j_velocities: f32,
}

// ---- The force

impl Force {
    // J0·fx + J1·fy + J2·torque in a column of a link's block.
    fn along(&self, block: &[f32; BLOCK], c: usize) -> f32
        requires { c < dof_limit }
        ensures { result ≡ column_of self.now block.now c }
    {
        block[c] * self.x + block[DOFS + c] * self.y + block[2 * DOFS + c] * self.torque
    }

    // So in each column, as many as the row is long.
    fn fill_row(&self, block: &[f32; BLOCK], row: &mut [f32])
        requires { length row.old ≤ dof_limit }
        ensures { row.new ≡ force_row self.now block.now (length row.old) }
    {
        for (c, entry) in row.iter_mut().enumerate() {
            *entry = self.along(block, c);
        }
    }
}

impl Finite for Force {
    ghost finite = { force_finite };

    fn is_finite(&self) -> bool {
        all_finite(&[self.x, self.y, self.torque])
    }
}

// ---- The products

impl Products {
    #[tactic(auto, unfolding(crate::specs::Sums::sums_of))]
    fn of(row: &[f32], solved: &[f32; DOFS], velocities: &[f32; DOFS]) -> Products
        ensures { sums_as (Ok result) ≡ sums_of row.now solved.now velocities.now }
    {
        Products {
            j_wj: dot_product(row, solved),
            j_velocities: dot_product(row, velocities),
        }
    }
}

impl Finite for Products {
    ghost finite = { λ p. finite_sums (sums_as (Ok p)) };

    fn is_finite(&self) -> bool {
        all_finite(&[self.j_wj, self.j_velocities])
    }
}

impl From<Result<Products, Refusal>> for Sums {
    ghost from_gives = { λ r s. s ≡ sums_as r };

    fn from(answer: Result<Products, Refusal>) -> Sums {
        match answer {
            Ok(products) => Sums {
                refusal: 0,
                j_wj: products.j_wj,
                j_velocities: products.j_velocities,
            },
            Err(refusal) => Sums {
                refusal: refusal.number(),
                j_wj: 0.0,
                j_velocities: 0.0,
            },
        }
    }
}

// wj and the products of a row j, once no test refuses them.
fn sum_up(row: &[f32], velocities: &[f32; DOFS], lent: &mut Lent<'_>) -> Result<Products, Refusal>
    requires { (length row.now ≤ dof_limit) × (length row.now * length row.now ≤ length lent.old.mass.now) × (length row.now ≤ length lent.old.j.now) × (length row.now ≤ length lent.old.wj.now) }
    ensures places { SamePlaces lent.old lent.new }
    ensures answer { out (sums_as result) lent.new.j.now lent.new.wj.now ≡ sums_answer row.now (take (length row.now) velocities.now) 0 (length row.now) lent.old.mass.now lent.old.j.now lent.old.wj.now }
{
    let solved = lent.solve(row)?;
    let made = Products::of(row, &solved, velocities);
    unless(all_finite(row) & made.is_finite(), Refusal::Overflow)?;
    lent.lay(row, &solved);
    Ok(made)
}

// j, and its products, once no test refuses them.
fn fill(
    n: usize,
    force: Force,
    block: &[f32; BLOCK],
    velocities: &[f32; DOFS],
    lent: &mut Lent<'_>,
) -> Result<Products, Refusal>
    requires { (n ≤ dof_limit) × (n * n ≤ length lent.old.mass.now) × (n ≤ length lent.old.j.now) × (n ≤ length lent.old.wj.now) }
    ensures places { SamePlaces lent.old lent.new }
    ensures answer { out (sums_as result) lent.new.j.now lent.new.wj.now ≡ sums_answer (force_row force block.now n) (take n velocities.now) 0 n lent.old.mass.now lent.old.j.now lent.old.wj.now }
{
    let mut memory = [0.0; DOFS];
    let row = &mut memory[..n];
    force.fill_row(block, row);
    sum_up(row, velocities, lent)
}

// ---- The call

#[tactic(auto, using(arm::proofs::Live::dof_count_le, elimination::proofs::Rows::square_mono), unfolding(crate::specs::Fill::fill_refusal))]
fn fill_refusal(
    arm: &Arm,
    link: u32,
    force: Force,
    tables: &[f32],
    lent: &Lent<'_>,
) -> Result<(), Refusal>
    ensures { code result ≡ fill_refusal arm.now link force tables.now lent.now.mass.now (length lent.now.j.now) (length lent.now.wj.now) }
{
    let n = arm.dof_count();
    let fine = force.is_finite()
        & is_finite_part(tables, (link as usize) * BLOCK, BLOCK)
        & is_finite_part(lent.mass, 0, n * n);
    lowest(&[
        unless((TABLES <= tables.len()) & lent.fits(n), Refusal::Memory),
        unless((link as usize) < arm.link_count, Refusal::Link),
        unless(fine, Refusal::NotFinite),
        arm.refusal(),
    ])
}

// A link's block, as the tables keep it. The picture has the same; what requires something is private to its crate.
fn block_of(tables: &[f32], link: usize) -> &[f32; BLOCK]
    requires { (link < link_limit) × (table_size ≤ length tables.now) }
    ensures { result.now ≡ block_at link tables.now }
{
    tables[link * BLOCK..].first_chunk().unwrap()
}

// The first n floats of `j` become the force's part along each DoF, and those of `wj` its solve by the mass matrix, n being the DoF count.
#[tactic(auto, using(refusal::proofs::Answers::passed, crate::proofs::Accepted::fill_ready, crate::proofs::Accepted::fill_is))]
pub fn fill_jacobians(
    arm: &Arm,
    link: u32,
    force: Force,
    tables: &[f32],
    mass: &[f32],
    j: &mut [f32],
    wj: &mut [f32],
) -> Result<Products, Refusal>
    ensures { out (sums_as result) j.new wj.new ≡ fill_answer arm.now link force tables.now mass.now j.old wj.old }
{
    let mut lent = Lent { mass, j, wj };
    fill_refusal(arm, link, force, tables, &lent)?;
    let block = block_of(tables, link as usize);
    fill(
        arm.dof_count(),
        force,
        block,
        arm.row(RowName::Velocities),
        &mut lent,
    )
}
