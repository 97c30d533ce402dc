// The name in a line of the report. The line is taken without its line feed.
ghost use Rattle.std.specs.Prelude.{◌≡◌, ◌≤◌, ◌&&◌, drop, length, slice_range, bytes_eq};
ghost use Rattle.usage_line.specs.Bytes.{colon, is_count};
ghost use Rattle.usage_line.specs.Line.{behind_last, stands, name_end, qualifier, count_end, count_part, name_in};

use crate::bytes::{is_count, is_name, is_place, is_qualified};
use memchr::{memchr, memrchr};

// Where the name ends: at the first tab, or with the line where there is none.
pub(crate) fn first_tab(line: &[u8]) -> usize
    ensures within { result ≤ length line.now }
    ensures is { result ≡ name_end line.now }
{
    memchr(b'\t', line).unwrap_or(line.len())
}

// Where it starts: behind the last colon before its end.
fn behind_colon(line: &[u8], end: usize) -> usize
    requires { end ≤ length line.now }
    ensures within { result ≤ end }
    ensures is { result ≡ behind_last (stands colon line.now) end }
{
    match memrchr(b':', &line[..end]) {
        Some(colon) => colon + 1,
        None => 0,
    }
}

// Whether a count and the qualifier are what follows the tab behind the name.
fn has_count(line: &[u8], end: usize) -> bool
    requires within { end ≤ length line.now }
    requires is { end ≡ name_end line.now }
    ensures { result ≡ (is_count (count_part line.now) && bytes_eq (drop (count_end line.now) line.now) qualifier) }
{
    // a tab stands before the count, and the qualifier behind it has seven bytes
    end + 8 <= line.len() && is_qualified(line) && is_count(&line[end + 1..line.len() - 7])
}

// Where the name stands.
struct Ends {
    start: usize,
    end: usize,
}

// Both are 0 where the line is not of its form.
fn name_ends(line: &[u8]) -> Ends
    ensures within { (result.start ≤ result.end) × (result.end ≤ length line.now) }
    ensures is { slice_range line.now result.start result.end ≡ name_in line.now }
{
    let end = first_tab(line);
    let start = behind_colon(line, end);
    if is_place(&line[..start]) && is_name(&line[start..end]) && has_count(line, end) {
        Ends { start, end }
    } else {
        Ends { start: 0, end: 0 }
    }
}

// The name in a line of the report, which is taken without its line feed: the part between the last colon before the first tab and that tab. A line
// that is not of its form has none.
pub fn name_found(line: &[u8]) -> &[u8]
    ensures { result.now ≡ name_in line.now }
{
    let Ends { start, end } = name_ends(line);
    &line[start..end]
}
