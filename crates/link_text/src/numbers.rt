// Numbers as decimal text.
ghost use Rattle.std.specs.Prelude.{◌≡◌, ℕ, ℤ, List, ◌+◌, ◌^◌, ◌<◌, ◌≤◌, ◌++◌, Some, IfSome, IfNone, decimal as decimal_text, FitsSigned};
ghost use Rattle.std.specs.Int.{w32};
ghost use Rattle.std.specs.Fmt.{signed_decimal};
ghost use Rattle.arrayvec.specs.ArrayVec.{array_vec_len};
ghost use Rattle.link_text.specs.Decimals.{decimal_value, signed_value};

use arrayvec::ArrayVec;
use itoa::Buffer;

/// The value of a canonical decimal: `0`, or digits that do not begin with `0`. None where the text is no such, or
/// where its value is above `max`.
pub fn decimal(text: &[u8], max: u64) -> Option<u64>
    ensures some { IfSome result (λ v. (decimal_value text.now ≡ Some v) × (v ≤ max)) }
    ensures none { IfNone result (IfSome (decimal_value text.now) (λ v. max < v)) }
{
    if text.is_empty() || (text.len() > 1 && text[0] == b'0') {
        return None;
    }
    let mut value = 0u64;
    for c in text {
        if !c.is_ascii_digit() {
            return None;
        }
        value = value.checked_mul(10)?.checked_add(u64::from(*c - b'0'))?;
    }
    if value > max { None } else { Some(value) }
}

/// The value of a canonical decimal, or of `-` and a canonical decimal other than `0`. None where the text is neither,
/// or where its value is outside of `i32`.
pub fn signed(text: &[u8]) -> Option<i32>
    ensures some { IfSome result (λ z. signed_value text.now ≡ Some z) }
    ensures none { IfNone result (IfSome (signed_value text.now) (λ z. ¬ FitsSigned w32 z)) }
{
    match text {
        [b'-', digits @ ..] => {
            let size = decimal(digits, 1 << 31)?;
            if size == 0 {
                None
            } else {
                Some((-(size as i64)) as i32)
            }
        }
        _ => Some(decimal(text, (1 << 31) - 1)? as i32),
    }
}

/// Appends the canonical decimal of a number, with a minus sign before it where the number is below 0.
pub fn put_number(out: &mut ArrayVec<u8, 4096>, v: i64)
    requires { array_vec_len out.old + 20 ≤ 4096 }
    ensures text { out.new.items ≡ out.old.items ++ signed_decimal v }
    ensures short { array_vec_len out.new ≤ array_vec_len out.old + 20 }
{
    let mut buffer = Buffer::new();
    out.try_extend_from_slice(buffer.format(v).as_bytes())
        .unwrap();
}

/// Each number has one canonical decimal, which is read back, and no other text is read as it.
pub fn decimal_is_read_back(n: u64)
    ensures back { decimal_value (decimal_text n) ≡ Some n }
    ensures only { (text : List ℕ) → decimal_value text ≡ Some n → text ≡ decimal_text n }
{}

/// The same of numbers that may be below 0.
pub fn signed_is_read_back(v: i64)
    ensures back { signed_value (signed_decimal v) ≡ Some v }
    ensures only { (text : List ℕ) → signed_value text ≡ Some v → text ≡ signed_decimal v }
{}
