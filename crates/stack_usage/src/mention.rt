// What the report says of the functions.
ghost use Rattle.std.specs.Prelude.{◌≡◌};
ghost use Rattle.stack_usage.specs.Mention.{more};

// What the lines that are read so far say of a function: no line is about it, or one with this count, or more.
#[derive(Clone, Copy)]
pub(crate) enum Mention {
    Never,
    Once(u16),
    More,
}

impl Mention {
    // With one more line about it.
    pub(crate) fn and(self, count: u16) -> Mention
        ensures { result ≡ more self count }
    {
        match self {
            Mention::Never => Mention::Once(count),
            Mention::Once(_) | Mention::More => Mention::More,
        }
    }
}
