// What a line of the report says of a function.
ghost use Rattle.std.specs.Prelude.{◌≡◌, ◌<◌, ◌≤◌, true, false, min, MatchOption};
ghost use Rattle.usage_line.specs.Bytes.{is_count, value};
ghost use Rattle.usage_line.specs.Line.{of_form, name_in, count_in, is_usage};

use crate::answer::Usage;
use crate::name::{first_tab, name_found};

// The number that a count writes, and 65,536 where it is more: there may be any number of digits.
fn value_up_to(digits: &[u8]) -> u32
    requires { is_count digits.now ≡ true }
    ensures { result ≡ min (value digits.now) 65536 }
{
    let mut value: u32 = 0;
    for digit in digits {
        value = (value * 10 + u32::from(*digit - b'0')).min(65536);
    }
    value
}

// The count in a line, and None where it is above 65,535.
fn count_found(line: &[u8]) -> Option<u16>
    requires { of_form line.now ≡ true }
    ensures { MatchOption result (65535 < count_in line.now) (λ count. (count_in line.now ≤ 65535) × (count ≡ count_in line.now)) }
{
    let start = first_tab(line) + 1;
    let end = line.len() - 7;
    u16::try_from(value_up_to(&line[start..end])).ok()
}

// What a line of the report says, and None where it is not of its form or counts more than 65,535.
pub fn usage(line: &[u8]) -> Option<Usage<'_>>
    ensures { MatchOption result (is_usage line.now ≡ false) (λ u. (is_usage line.now ≡ true) × (u.name.now ≡ name_in line.now) × (u.count ≡ count_in line.now)) }
{
    let name = name_found(line);
    // a name has a byte, so the line is not of its form
    if name.is_empty() {
        return None;
    }
    let count = count_found(line)?;
    Some(Usage { name, count })
}
