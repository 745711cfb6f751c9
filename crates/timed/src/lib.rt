// What bench/ times and no export offers, as a C function.
#![tactic(auto)]

ghost use Rattle.std.specs.Prelude.{◌≡◌};
ghost use Rattle.planar.specs.Poses.{pose_product};

use planar::Pose;

// Pose b, then pose a.
#[unsafe(no_mangle)]
pub extern "C" fn giellavor_timed_product(a: Pose, b: Pose) -> Pose
    ensures { result ≡ pose_product a b }
{
    planar::product(a, b)
}
