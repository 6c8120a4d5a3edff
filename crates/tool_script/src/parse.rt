// The words of a line: numbers, lists of numbers, and bytes.
ghost use Rattle.std.specs.Prelude.{◌≡◌, ◌<◌, ◌^◌, ◌++◌, ◌↔◌, ℕ, [], map, codes, SomeIff, IfOk, IsTrue};
ghost use Rattle.std.specs.Char.{IsNotAsciiUppercase};
ghost use Rattle.std.specs.List.{All};
ghost use Rattle.hex.specs.Hex.{encode_lower};
ghost use Rattle.tool_script.specs.Hex.{IsHexWord};
ghost use Rattle.tool_script.specs.Text.{decimal_value, IsDecimal, IsNumber, members_of, IsNumberList};
ghost use Rattle.tool_script.specs.declared.reason.Reason.{Reason};
ghost use Rattle.tool_script.specs.declared.stop.Stop.TheVariants.{Malformed};

use crate::pieces::Pieces;
use crate::reason::Mistake;
use crate::stop::Stop;
use std::alloc::Global;

// The number that digits write. `None` for a text that has other bytes or none, and past `u64::MAX`.
fn decimal(text: &[u8]) -> Option<u64>
    ensures { SomeIff result (IsDecimal text.now × (decimal_value text.now < 2 ^ 64)) (decimal_value text.now) }
{
    if text.is_empty() {
        return None;
    }
    let mut number: u64 = 0;
    for digit in text {
        if !digit.is_ascii_digit() {
            return None;
        }
        number = number
            .checked_mul(10)?
            .checked_add(u64::from(*digit - b'0'))?;
    }
    Some(number)
}

/// The number that a word of one or more decimal digits writes; leading zeros are allowed, a sign is not. `None`
/// for any other word, and past the greatest.
pub fn parse_number(word: &[u8], greatest: u64) -> Option<u64>
    ensures { SomeIff result (IsNumber greatest word.now) (decimal_value word.now) }
{
    decimal(word).filter(|number| *number <= greatest)
}

/// Why a text is no number up to the greatest.
pub fn number_mistake(text: &[u8], greatest: u64) -> Mistake {
    if text.is_empty() {
        Mistake::NumberMissing
    } else if text.iter().all(|byte| byte.is_ascii_digit()) {
        Mistake::PastGreatest(greatest)
    } else {
        Mistake::NoNumber
    }
}

// The numbers between the commas of a text, each at most the greatest. `Malformed` for any other text.
fn parse_members<'a>(alloc: Global, text: &'a [u8], greatest: u64) -> Result<Vec<u64>, Stop<'a>>
    ensures list { IfOk result (λ _. IsNumberList greatest text.now) }
    ensures numbers { IfOk result (λ numbers. numbers.items ≡ map decimal_value (members_of text.now)) }
    ensures malformed { (reason : Reason) → result ≡ Err (Malformed reason) → ¬ IsNumberList greatest text.now }
{
    let mut numbers = Vec::new(alloc);
    for member in Pieces::new(text, b',') {
        match parse_number(member, greatest) {
            Some(number) => numbers.push(number)?,
            None => return Err(Stop::malformed(number_mistake(member, greatest), member)),
        }
    }
    Ok(numbers)
}

/// The numbers of a list: none for `-`, else those between the commas, each at most the greatest. `Malformed` for
/// any other word.
pub fn parse_numbers<'a>(alloc: Global, word: &'a [u8], greatest: u64) -> Result<Vec<u64>, Stop<'a>>
    ensures empty { word.now ≡ codes "-" → IfOk result (λ numbers. numbers.items ≡ []) }
    ensures numbers { ¬ (word.now ≡ codes "-") → IfOk result (λ numbers. numbers.items ≡ map decimal_value (members_of word.now)) }
    ensures list { ¬ (word.now ≡ codes "-") → IfOk result (λ _. IsNumberList greatest word.now) }
    ensures malformed { (reason : Reason) → result ≡ Err (Malformed reason) → ¬ IsNumberList greatest word.now }
{
    match word {
        b"-" => Ok(Vec::new(alloc)),
        _ => parse_members(alloc, word, greatest),
    }
}

// Whether no letter of a text is in upper case.
fn is_lower_case(text: &[u8]) -> bool
    ensures { IsTrue result ↔ All IsNotAsciiUppercase text.now }
{
    text.iter().all(|byte| !byte.is_ascii_uppercase())
}

/// The bytes that a word writes: `x`, and two hexadecimal digits in lower case for each byte, the high one first.
/// `Malformed` for any other word.
pub fn parse_bytes<'a>(alloc: Global, word: &'a [u8]) -> Result<Vec<u8>, Stop<'a>>
    ensures bytes { IfOk result (λ bytes. word.now ≡ codes "x" ++ encode_lower bytes.items) }
    ensures malformed { (reason : Reason) → result ≡ Err (Malformed reason) → ¬ IsHexWord word.now }
{
    let unread = Stop::malformed(Mistake::NoBytes, b"");
    let digits = word.strip_prefix(b"x").ok_or(unread)?;
    if !is_lower_case(digits) {
        return Err(unread);
    }
    Ok(hex::decode(alloc, digits)?)
}
