// The plane in f32: the rotation of an angle, and poses.
#![tactic(auto)]

ghost use Rattle.std.specs.Prelude.{◌≡◌, ◌≤◌, ◌<◌, leb};
ghost use Rattle.refusal.specs.Refusal.{code};
ghost use Rattle.planar.specs.Rotation.{quarter_turns, magnitude_of, reduced_by, sine_of, cosine_of, quarter_pair, signed_by, rotation_at, is_beyond, rotation_refusal, rotated_as, rotated};
ghost use Rattle.planar.specs.Poses.{rotation_of, translation_of, posed, identity_pose, rotation_product, turned_by, placed_by, point_difference, pose_product, pose_inverse, is_turn, finite_rotation, finite_point, finite_pose};

use floats::Finite;
use refusal::{Refusal, lowest, unless};

#[repr(C)]
#[derive(Clone, Copy)]
pub struct Rotation {
    pub re: f32,
    pub im: f32,
}

#[repr(C)]
#[derive(Clone, Copy)]
pub struct Point {
    pub x: f32,
    pub y: f32,
}

// A rotation and a translation.
#[repr(C)]
#[derive(Clone, Copy)]
pub struct Pose {
    pub re: f32,
    pub im: f32,
    pub x: f32,
    pub y: f32,
}

// ---- The rotation of an angle

// Does the count of quarter turns come to j? The thresholds rise: it does exactly if the j-th one, an odd eighth of a turn, is at most a.
#[tactic(auto, using(crate::proofs::Turns::passed), unfolding(crate::specs::Rotation::threshold))]
fn comes_to(j: u16, a: f32) -> bool
    requires { (0 < j) × (j ≤ 163) }
    ensures { result ≡ leb j (quarter_turns a) }
{
    f32::from(2 * j - 1) * 0.7853982 <= a
}

// How many of the 163 thresholds are at most a. The count lies from k on and below k + size, and a test at the middle halves that: at most 8 tests leave one
// number. While k is 0 a middle is a constant, and its threshold too: a small angle has the cheapest tests.
fn quarter_turns(a: f32) -> u16
    ensures { result ≡ quarter_turns a }
{
    let mut k: u16 = 0;
    let mut size: u16 = 186;
    while size > 1 {
        let half = size / 2;
        if k == 0 {
            if comes_to(half, a) {
                k = half;
            }
        } else if k + half <= 163 && comes_to(k + half, a) {
            k += half;
        }
        size -= half;
    }
    k
}

// -0 keeps its sign, which `abs` would take.
fn magnitude(angle: f32) -> f32
    ensures { result ≡ magnitude_of angle }
{
    if angle < 0.0 { -angle } else { angle }
}

// The angle less k quarter turns, taken away in three pieces.
fn reduced(a: f32, k: f32) -> f32
    ensures { result ≡ reduced_by a k }
{
    ((a - k * 1.5703125) - k * 0.0004837512969970703125) - k * 7.54978995489188e-8
}

const A3: f32 = -0.16666667;

const A5: f32 = 0.008333334;

const A7: f32 = -0.0001984127;

const A9: f32 = 0.0000027557319;

fn sine(r: f32) -> f32
    ensures { result ≡ sine_of r }
{
    let z = r * r;
    r + r * (z * (A3 + z * (A5 + z * (A7 + z * A9))))
}

const C2: f32 = -0.5;

const C4: f32 = 0.041666668;

const C6: f32 = -0.0013888889;

const C8: f32 = 0.000024801588;

fn cosine(r: f32) -> f32
    ensures { result ≡ cosine_of r }
{
    let z = r * r;
    1.0 + z * (C2 + z * (C4 + z * (C6 + z * C8)))
}

fn quarter(k: u16, c: f32, s: f32) -> Rotation
    ensures { result ≡ quarter_pair k c s }
{
    match k % 4 {
        0 => Rotation { re: c, im: s },
        1 => Rotation { re: -s, im: c },
        2 => Rotation { re: -c, im: -s },
        _ => Rotation { re: s, im: -c },
    }
}

fn signed(angle: f32, r: Rotation) -> Rotation
    ensures { result ≡ signed_by angle r }
{
    if angle < 0.0 {
        Rotation {
            re: r.re,
            im: -r.im,
        }
    } else {
        r
    }
}

// The rotation of any angle; far from the true one where the angle lies beyond.
#[tactic(auto, unfolding(crate::specs::Rotation::rotation_at))]
pub fn rotation_at(angle: f32) -> Rotation
    ensures { result ≡ rotation_at angle }
{
    let a = magnitude(angle);
    let k = quarter_turns(a);
    let r = reduced(a, f32::from(k));
    signed(angle, quarter(k, cosine(r), sine(r)))
}

const LEAST_ANGLE: f32 = -256.0;

// Does the angle lie beyond 256 either way?
#[tactic(auto, unfolding(crate::specs::Rotation::is_beyond))]
pub fn is_beyond(angle: f32) -> bool
    ensures { result ≡ is_beyond angle }
{
    (angle < LEAST_ANGLE) | (256.0 < angle)
}

#[tactic(auto, unfolding(crate::specs::Rotation::rotation_refusal))]
fn rotation_refusal(angle: f32) -> Result<(), Refusal>
    ensures { code result ≡ rotation_refusal angle }
{
    lowest(&[
        unless(angle.is_finite(), Refusal::NotFinite),
        unless(!is_beyond(angle), Refusal::Beyond),
    ])
}

// The rotation of an angle, or refusal 7 or 9.
#[tactic(auto, unfolding(crate::specs::Rotation::rotated))]
pub fn rotate(angle: f32) -> Result<Rotation, Refusal>
    ensures { rotated_as result ≡ rotated angle }
{
    rotation_refusal(angle)?;
    Ok(rotation_at(angle))
}

// What a call that makes a rotation answers C: a refusal and a pair of zeros, or 0 and the rotation.
#[repr(C)]
#[derive(Clone, Copy)]
pub struct Rotated {
    pub refusal: u8,
    pub rotation: Rotation,
}

impl From<Result<Rotation, Refusal>> for Rotated {
    ghost from_gives = { λ r c. c ≡ rotated_as r };

    fn from(answer: Result<Rotation, Refusal>) -> Rotated {
        match answer {
            Ok(rotation) => Rotated {
                refusal: 0,
                rotation,
            },
            Err(refusal) => Rotated {
                refusal: refusal.number(),
                rotation: Rotation { re: 0.0, im: 0.0 },
            },
        }
    }
}

// ---- Poses

#[tactic(auto, unfolding(crate::specs::Poses::rotation_of))]
pub fn rotation_of(p: Pose) -> Rotation
    ensures { result ≡ rotation_of p }
{
    Rotation { re: p.re, im: p.im }
}

// A pose's translation.
#[tactic(auto, unfolding(crate::specs::Poses::translation_of))]
pub fn translation_of(p: Pose) -> Point
    ensures { result ≡ translation_of p }
{
    Point { x: p.x, y: p.y }
}

// The pose of a rotation and a translation.
#[tactic(auto, unfolding(crate::specs::Poses::posed))]
pub fn pose_of(r: Rotation, t: Point) -> Pose
    ensures { result ≡ posed r t }
{
    Pose {
        re: r.re,
        im: r.im,
        x: t.x,
        y: t.y,
    }
}

// The pose that moves nothing.
pub fn identity() -> Pose
    ensures { result ≡ identity_pose }
{
    Pose {
        re: 1.0,
        im: 0.0,
        x: 0.0,
        y: 0.0,
    }
}

// Rotation b, then rotation a.
#[tactic(auto, unfolding(crate::specs::Poses::rotation_product))]
pub fn rotation_product(a: Rotation, b: Rotation) -> Rotation
    ensures { result ≡ rotation_product a b }
{
    Rotation {
        re: a.re * b.re - a.im * b.im,
        im: a.re * b.im + a.im * b.re,
    }
}

// The point turned by the rotation.
#[tactic(auto, unfolding(crate::specs::Poses::turned_by))]
pub fn turned(r: Rotation, p: Point) -> Point
    ensures { result ≡ turned_by r p }
{
    Point {
        x: r.re * p.x - r.im * p.y,
        y: r.im * p.x + r.re * p.y,
    }
}

// The point turned by the pose's rotation, then moved by its translation.
#[tactic(auto, unfolding(crate::specs::Poses::placed_by))]
pub fn placed(a: Pose, p: Point) -> Point
    ensures { result ≡ placed_by a p }
{
    let t = turned(rotation_of(a), p);
    Point {
        x: t.x + a.x,
        y: t.y + a.y,
    }
}

// a less b.
#[tactic(auto, unfolding(crate::specs::Poses::point_difference))]
pub fn difference(a: Point, b: Point) -> Point
    ensures { result ≡ point_difference a b }
{
    Point {
        x: a.x - b.x,
        y: a.y - b.y,
    }
}

// Pose b, then pose a.
#[tactic(auto, unfolding(crate::specs::Poses::pose_product))]
pub fn product(a: Pose, b: Pose) -> Pose
    ensures { result ≡ pose_product a b }
{
    pose_of(
        rotation_product(rotation_of(a), rotation_of(b)),
        placed(a, translation_of(b)),
    )
}

// The pose that takes a pose back.
#[tactic(auto, unfolding(crate::specs::Poses::pose_inverse))]
pub fn inverse(p: Pose) -> Pose
    ensures { result ≡ pose_inverse p }
{
    let back = Rotation {
        re: p.re,
        im: -p.im,
    };
    let t = turned(back, translation_of(p));
    pose_of(back, Point { x: -t.x, y: -t.y })
}

const LEAST_EXCESS: f32 = -0.001;

// Is re·re + im·im no further than 0.001 from 1?
#[tactic(auto, unfolding(crate::specs::Poses::is_turn))]
pub fn is_turn(r: Rotation) -> bool
    ensures { result ≡ is_turn r }
{
    let excess = (r.re * r.re + r.im * r.im) - 1.0;
    (LEAST_EXCESS <= excess) & (excess <= 0.001)
}

// ---- Are all its floats finite?

impl Finite for Rotation {
    ghost finite = { finite_rotation };

    #[tactic(auto, unfolding(crate::specs::Poses::finite_rotation))]
    fn is_finite(&self) -> bool {
        self.re.is_finite() & self.im.is_finite()
    }
}

impl Finite for Point {
    ghost finite = { finite_point };

    #[tactic(auto, unfolding(crate::specs::Poses::finite_point))]
    fn is_finite(&self) -> bool {
        self.x.is_finite() & self.y.is_finite()
    }
}

impl Finite for Pose {
    ghost finite = { finite_pose };

    #[tactic(auto, unfolding(crate::specs::Poses::finite_pose))]
    fn is_finite(&self) -> bool {
        rotation_of(*self).is_finite() & translation_of(*self).is_finite()
    }
}
