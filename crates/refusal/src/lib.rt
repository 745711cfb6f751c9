// Why a call is refused, by the rules' numbers. Several at once give the lowest.
#![tactic(auto)]

ghost use Rattle.std.specs.Prelude.{◌≡◌, map};
ghost use Rattle.refusal.specs.Refusal.{number, code, unless_of, lower_of, lowest};
ghost use Rattle.refusal.specs.Counted.{counted};

// The rule that refuses a call.
#[derive(Clone, Copy, Debug, PartialEq, Eq)]
pub enum Refusal {
    Memory = 1,
    Limit = 2,
    Tag = 3,
    Link = 4,
    Mask = 5,
    Locked = 6,
    NotFinite = 7,
    NotATurn = 8,
    Beyond = 9,
    Reversed = 10,
    Singular = 11,
    Overflow = 12,
}

impl Refusal {
    // The rule's number.
    pub fn number(self) -> u8
        ensures { result ≡ number self }
    {
        self as u8
    }
}

// Refused, unless the test holds.
pub fn unless(ok: bool, refusal: Refusal) -> Result<(), Refusal>
    ensures { code result ≡ unless_of ok (number refusal) }
{
    if ok { Ok(()) } else { Err(refusal) }
}

// The lower of two refusals.
pub fn lower(a: Result<(), Refusal>, b: Result<(), Refusal>) -> Result<(), Refusal>
    ensures { code result ≡ lower_of (code a) (code b) }
{
    match (a, b) {
        (Ok(()), _) => b,
        (_, Ok(())) => a,
        (Err(x), Err(y)) => { if x.number() < y.number() { a } else { b } }
    }
}

// The lowest of what several tests say.
pub fn lowest(tests: &[Result<(), Refusal>]) -> Result<(), Refusal>
    ensures { code result ≡ lowest (map code tests.now) }
{
    let mut low = Ok(());
    for test in tests {
        low = lower(low, *test);
    }
    low
}

// What a call that counts answers C: a refusal and a zero count, or 0 and what was counted.
#[repr(C)]
#[derive(Clone, Copy)]
pub struct Counted {
    pub refusal: u8,
    pub count: usize,
}

impl From<Result<usize, Refusal>> for Counted {
    ghost from_gives = { λ r c. c ≡ counted r };

    fn from(answer: Result<usize, Refusal>) -> Counted {
        match answer {
            Ok(count) => Counted { refusal: 0, count },
            Err(refusal) => Counted {
                refusal: refusal.number(),
                count: 0,
            },
        }
    }
}
