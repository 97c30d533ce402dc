// The kinds of records.
ghost use Rattle.std.specs.Prelude.{◌≡◌};
ghost use Rattle.table.specs.Kind.{IsListed, number_of_kind};
ghost use Rattle.table.specs.Record.{kind_of};
ghost use Rattle.table.specs.Scan.{of_kind};

use crate::record::kind;

// What a record is.
#[derive(Clone, Copy, Debug, PartialEq, Eq)]
pub enum Kind {
    Function,
    Node,
    Edge,
}

// Where its kind is listed. An `Option` and no `TryFrom`, since nobody would read why a byte is no kind.
pub fn listed_kind(t: &[u8], r: usize) -> Option<Kind>
    ensures { IsListed result (kind_of t.now r) }
{
    match kind(t, r) {
        1 => Some(Kind::Function),
        2 => Some(Kind::Node),
        3 => Some(Kind::Edge),
        _ => None,
    }
}

// Whether it is of this kind.
pub(crate) fn is_of(t: &[u8], r: usize, kind: Kind) -> bool
    ensures { result ≡ of_kind t.now (number_of_kind kind) r }
{
    listed_kind(t, r) == Some(kind)
}
