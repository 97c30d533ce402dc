// What may stand between the bytes that part a line.
ghost use Rattle.std.specs.Prelude.{◌≡◌, ◌-◌, drop, length, bytes_eq};
ghost use Rattle.usage_line.specs.Bytes.{is_place, is_name, is_count};
ghost use Rattle.usage_line.specs.Line.{qualifier, count_end};

use memchr::{memchr2, memchr3};

// The bytes that a name has at most.
const LONGEST: usize = 64;

// A place ends in a colon, and holds no tab. A line feed in it would end the line.
pub(crate) fn is_place(bytes: &[u8]) -> bool
    ensures { result ≡ is_place bytes.now }
{
    !bytes.is_empty() && bytes[bytes.len() - 1] == b':' && memchr2(b'\t', b'\n', bytes).is_none()
}

// Whether these bytes are a name.
pub fn is_name(bytes: &[u8]) -> bool
    ensures { result ≡ is_name bytes.now }
{
    !bytes.is_empty() && bytes.len() <= LONGEST && memchr3(b'\t', b':', b'\n', bytes).is_none()
}

// Whether these bytes are digits, at least one.
pub(crate) fn is_count(bytes: &[u8]) -> bool
    ensures { result ≡ is_count bytes.now }
{
    !bytes.is_empty() && bytes.iter().all(|byte| byte.is_ascii_digit())
}

// Whether a line ends in a tab and the qualifier.
pub(crate) fn is_qualified(line: &[u8]) -> bool
    ensures { result ≡ bytes_eq (drop (count_end line.now) line.now) qualifier }
{
    line.ends_with(b"\tstatic")
}
