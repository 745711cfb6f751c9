// The version of what crosses to C, and the size of each struct that does: whoever links the archive can ask whether it is laid out as he declares it.
// A size is that of the fields with the bytes that C leaves free between them and at the end.
#![tactic(auto)]

ghost use Rattle.std.specs.Prelude.{◌≡◌};
ghost use Rattle.sizes.specs.Sizes.{version_number, size_of};

use limits::{COUPLINGS, DOFS, LINKS};

// Raised with every change of a function or a struct that crosses.
const VERSION: u32 = 2;

// ---- Numbers. A byte in front of what is larger takes as much as that.

const BYTE: u32 = 1;

// An f32 or a u32.
const WORD: u32 = 4;

const USIZE: u32 = 8;

// ---- The plane

const ROTATION: u32 = 2 * WORD;

const POINT: u32 = 2 * WORD;

const POSE: u32 = 4 * WORD;

// ---- An arm

// Three masks take a word.
const JOINT: u32 = WORD + 2 * POSE + 3 * WORD + ROTATION + 6 * WORD;

const SPRING: u32 = 2 * WORD;

const LINK: u32 = 2 * WORD + JOINT + POINT + POSE + 2 * POINT;

const COUPLING: u32 = 4 * BYTE + 2 * WORD;

const ROW: u32 = DOFS as u32 * WORD;

const LISTS: u32 = LINKS as u32 * LINK + COUPLINGS as u32 * COUPLING + 5 * ROW;

// It ends where a usize could stand. Rounded up by hand: a constant is worked out with no call.
const ARM: u32 = 2 * USIZE + (LISTS + USIZE - 1) / USIZE * USIZE;

// ---- What is given

const NEW_LINK: u32 = 5 * WORD + 2 * POSE + POINT;

const NEW_COUPLING: u32 = 6 * WORD;

const LIMITS: u32 = 6 * WORD;

const FORCE: u32 = 3 * WORD;

// ---- Answers

const EDITED: u32 = ARM + USIZE;

const ROTATED: u32 = WORD + ROTATION;

const COUNTED: u32 = 2 * USIZE;

const ROW_PART: u32 = 3 * USIZE;

const SPRING_ANSWER: u32 = WORD + SPRING;

const AXES_ANSWER: u32 = 4 * WORD;

const CONSTRAINT_ROW: u32 = 6 * WORD;

const SUMS: u32 = 3 * WORD;

// In the order of the C header.
const SIZES: [u32; 21] = [
    ROTATION,
    POINT,
    POSE,
    JOINT,
    SPRING,
    LINK,
    COUPLING,
    ROW,
    ARM,
    NEW_LINK,
    NEW_COUPLING,
    LIMITS,
    FORCE,
    EDITED,
    ROTATED,
    COUNTED,
    ROW_PART,
    SPRING_ANSWER,
    AXES_ANSWER,
    CONSTRAINT_ROW,
    SUMS,
];

// The version of what crosses.
#[unsafe(no_mangle)]
pub extern "C" fn giellavor_version() -> u32
    ensures { result ≡ version_number }
{
    VERSION
}

// The size in bytes of a struct, by its place in the C header, from 0; past the last it is 0.
#[tactic(auto, unfolding(crate::specs::Sizes::size_of))]
#[unsafe(no_mangle)]
pub extern "C" fn giellavor_size(place: u32) -> u32
    ensures { result ≡ size_of place }
{
    SIZES.get(place as usize).copied().unwrap_or(0)
}
