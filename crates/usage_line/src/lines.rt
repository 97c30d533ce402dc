// The lines of a file, one after another.
ghost use Rattle.std.specs.Prelude.{◌≡◌, [], MatchOption};
ghost use Rattle.usage_line.specs.Lines.{pieces};
ghost use Rattle.usage_line.specs.Cut.{IsCut};

use memchr::memchr;

// A line without its line feed, whether it had one, which only the last may lack, and what stands behind it.
#[derive(Clone, Copy)]
pub struct Cut<'a> {
    pub line: &'a [u8],
    pub ended: bool,
    pub behind: &'a [u8],
}

// The first line of a file, and None where there is none.
pub fn next_line(file: &[u8]) -> Option<Cut<'_>>
    ensures { MatchOption result (pieces file.now ≡ []) (λ cut. IsCut file.now cut.line.now cut.ended cut.behind.now) }
{
    if file.is_empty() {
        return None;
    }
    Some(match memchr(b'\n', file) {
        Some(end) => Cut {
            line: &file[..end],
            ended: true,
            behind: &file[end + 1..],
        },
        None => Cut {
            line: file,
            ended: false,
            behind: &file[file.len()..],
        },
    })
}
