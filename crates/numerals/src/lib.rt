// Numbers as text and as bytes: decimal digits, bytes lowest first, and the bits of an f32.
// What is written goes into a lent buffer at a position; given is the position after it. What does not fit is not written, and the position stays.
#![tactic(auto)]

ghost use Rattle.std.specs.Prelude.{◌≡◌, ◌≤◌, drop, get_or, length};
ghost use Rattle.std.specs.Float.{binary32};
ghost use Rattle.std.specs.Float.Ieee.{of_bits, to_bits};
ghost use Rattle.numerals.specs.Read.{number_of, number_at};
ghost use Rattle.numerals.specs.Written.{written, bytes_written};
ghost use Rattle.numerals.specs.Decimal.{decimal, decimal_count};
ghost use Rattle.numerals.specs.Bytes.{little_endian};

// The bytes, as they are.
#[tactic(auto, using(crate::proofs::Storing::no_room, crate::proofs::Storing::all_copied))]
pub fn write_bytes(out: &mut [u8], at: usize, bytes: &[u8]) -> usize
    ensures { written result out.new ≡ bytes_written (written at out.old) bytes.now }
{
    if out.len() < at || out.len() - at < bytes.len() {
        return at;
    }
    let end = at + bytes.len();
    out[at..end].copy_from_slice(bytes);
    end
}

// ---- Decimal digits

// A number's digits are those from `first` on.
#[derive(Clone, Copy)]
struct Decimal {
    digits: [u8; 10],
    first: usize,
}

// A loop that ends with the number, wherever in the ten places that is.
#[tactic(auto, using(crate::proofs::Storing::more_digits, crate::proofs::Storing::next_digit, crate::proofs::Storing::all_digits))]
fn decimal_of(number: u32) -> Decimal
    ensures { (result.first ≤ 9) × (length result.digits ≡ 10) × (drop result.first result.digits ≡ decimal number) }
{
    let mut digits = [0u8; 10];
    let mut first: usize = 9;
    let mut rest = number;
    while (9 < rest) & (0 < first) {
        digits[first] = b'0' + (rest % 10) as u8;
        rest /= 10;
        first -= 1;
    }
    digits[first] = b'0' + (rest % 10) as u8;
    Decimal { digits, first }
}

// How many digits a number has.
#[tactic(auto, using(crate::proofs::Digits::counted))]
pub fn digit_count(number: u32) -> usize
    ensures { result ≡ decimal_count number }
{
    10 - decimal_of(number).first
}

// A number in decimal.
#[tactic(auto, using(crate::proofs::Storing::rest_of))]
pub fn write_decimal(out: &mut [u8], at: usize, number: u32) -> usize
    ensures { written result out.new ≡ bytes_written (written at out.old) (decimal number) }
{
    let Decimal { digits, first } = decimal_of(number);
    write_bytes(out, at, &digits[first..])
}

// ---- Bytes, lowest first

pub fn write_u16(out: &mut [u8], at: usize, number: u16) -> usize
    ensures { written result out.new ≡ bytes_written (written at out.old) (little_endian 2 number) }
{
    write_bytes(out, at, &number.to_le_bytes())
}

pub fn write_u32(out: &mut [u8], at: usize, number: u32) -> usize
    ensures { written result out.new ≡ bytes_written (written at out.old) (little_endian 4 number) }
{
    write_bytes(out, at, &number.to_le_bytes())
}

// As many bytes as are asked for, from a position on; those that are missing are 0.
#[tactic(auto, using(crate::proofs::Bytes::number_of_front))]
fn bytes_at<const N: usize>(bytes: &[u8], at: usize) -> [u8; N]
    ensures { number_of result ≡ number_at N bytes.now at }
{
    let there = &bytes[at.min(bytes.len())..];
    let n = there.len().min(N);
    let mut front = [0u8; N];
    front[..n].copy_from_slice(&there[..n]);
    front
}

// The number at a position; bytes that are missing count as 0.
#[tactic(auto, using(crate::proofs::Bytes::number_of_two))]
pub fn read_u16(bytes: &[u8], at: usize) -> u16
    ensures { result ≡ number_at 2 bytes.now at }
{
    u16::from_le_bytes(bytes_at(bytes, at))
}

// The number at a position; bytes that are missing count as 0.
#[tactic(auto, using(crate::proofs::Bytes::number_of_four))]
pub fn read_u32(bytes: &[u8], at: usize) -> u32
    ensures { result ≡ number_at 4 bytes.now at }
{
    u32::from_le_bytes(bytes_at(bytes, at))
}

// ---- The bits of an f32

// A NaN has many patterns; the one given is the quiet one of no sign.
#[tactic(auto, using(crate::proofs::Bits::bits_of_nan))]
pub fn bits_of(x: f32) -> u32
    ensures { result ≡ to_bits binary32 x }
{
    if x.is_nan() { 0x7fc0_0000 } else { x.to_bits() }
}

// The f32 of these bits; of a NaN's the NaN.
#[tactic(auto, using(crate::proofs::Bits::nan_by_bits, crate::proofs::Bits::other_of_bits))]
pub fn float_of_bits(bits: u32) -> f32
    ensures { result ≡ of_bits binary32 bits }
{
    if 0x7f80_0000 < bits % 0x8000_0000 {
        f32::NAN
    } else {
        f32::from_bits(bits)
    }
}
