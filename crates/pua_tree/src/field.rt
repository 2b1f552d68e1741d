//! The fields of a line of a listing or script: what stands between single spaces.

ghost use Rattle.std.specs.Prelude.{◌≡◌, ◌<◌, ◌&&◌, ◌∷◌, [], length, IfSome, IfNone, Some, None};
ghost use Rattle.std.specs.Prelude.{if◌then◌else◌, map, nat_le, not, take, true, false};
ghost use Rattle.std.specs.List.{list_all, position};
ghost use Rattle.std.specs.Option.{option_map_or};
ghost use Rattle.pua_tree.specs.Fields.{first_fields};
ghost use Rattle.pua_tree.specs.Spelling.{decimal_value, fields, is_decimal, is_digit, is_field};
ghost use Rattle.pua_tree.specs.Spelling.{number_within};

use crate::spelling::is_visible;
use std::marker::Model;

/// The most fields of a line that are kept: more than any line may have.
const MOST_FIELDS: usize = 6;

/// The first six fields of a line, all of them where there are fewer. They lie in the line, and
/// take no memory. Contracts see the list of their bytes.
#[derive(Drop)]
pub struct Fields<'a> {
    fields: [&'a [u8]; MOST_FIELDS],
    count: usize,
}

impl<'a> Model for Fields<'a> {
    ghost use Rattle.std.specs.Prelude.{◌≤◌, ℕ, List, map, take};

    ghost Value = { List (List ℕ) };

    ghost view = { λ a. map (λ field. field.now) (take a.count a.fields) };

    ghost invariant = { λ a. a.count ≤ 6 };
}

impl<'a> Fields<'a> {
    /// The fields of a line, and None where one of them all is no field.
    pub fn read(line: &'a [u8]) -> Option<Fields<'a>>
        ensures { result ≡ first_fields line.now }
    {
        let mut fields = [line; MOST_FIELDS];
        let mut count = 0;
        let mut rest = Some(line);
        while let Some(text) = rest {
            let (field, behind) = take_field(text)?;
            if count < MOST_FIELDS {
                fields[count] = field;
                count += 1;
            }
            rest = behind;
        }
        Some(Fields { fields, count })
    }

    /// The fields.
    pub fn as_slice(&self) -> &[&'a [u8]]
        ensures { map (λ field. field.now) result.now ≡ self.now }
    {
        &self.fields[..self.count]
    }
}

/// The first field of a line, and what stands after the space that ends it, if one does; None where
/// that or a later one is no field. Each byte is looked at once.
fn take_field(line: &[u8]) -> Option<(&[u8], Option<&[u8]>)>
    ensures field { IfSome result (λ taken. is_field taken.0.now ≡ true) }
    ensures fields { IfSome result (λ taken. fields line.now ≡ taken.0.now
        ∷ option_map_or (λ rest. fields rest.now) taken.1 []) }
    ensures shorter { IfSome result
        (λ taken. IfSome taken.1 (λ rest. length rest.now < length line.now)) }
    ensures none { IfNone result (list_all is_field (fields line.now) ≡ false) }
{
    if line.is_empty() {
        return None;
    }
    let Some(end) = first_hidden(line) else {
        return Some((line, None));
    };
    if end == 0 || line[end] != b' ' {
        return None;
    }
    Some((&line[..end], Some(&line[end + 1..])))
}

/// Where the first byte stands that is not visible, as a space.
fn first_hidden(line: &[u8]) -> Option<usize>
    ensures { result ≡ position (λ b. not (nat_le 33 b && nat_le b 126)) line.now }
{
    line.iter().position(|byte| !is_visible(*byte))
}

/// The number that a decimal writes, if it lies within these bounds. A decimal is digits without a
/// leading zero.
pub fn number_within(low: u32, high: u32, text: &[u8]) -> Option<u32>
    ensures { result ≡ number_within low high text.now }
{
    let (first, rest) = text.split_first()?;
    if *first == b'0' && !rest.is_empty() {
        return None;
    }
    let number = value_up_to(high, text)?;
    (number >= low).then_some(number)
}

fn is_digit(byte: u8) -> bool
    ensures { result ≡ is_digit byte }
{
    byte.is_ascii_digit()
}

/// The number that these bytes write, if they are digits and it is not above this bound.
fn value_up_to(high: u32, digits: &[u8]) -> Option<u32>
    ensures { result ≡ (if list_all is_digit digits.now && nat_le (decimal_value digits.now) high
        then Some (decimal_value digits.now) else None) }
{
    let mut value = 0u64;
    for digit in digits {
        if !is_digit(*digit) {
            return None;
        }
        value = 10 * value + u64::from(digit.saturating_sub(b'0'));
        if value > u64::from(high) {
            return None;
        }
    }
    Some(value as u32)
}
