// The names of the calls in a script.

// The calls of documents 01 and 02, and the three that count their work.
#[derive(Clone, Copy)]
pub enum Call {
    Table,
    Order,
    Sync,
    Sizes,
    Safety,
    List,
    Best,
    SetPasses,
    Passes,
    Trials,
}

impl Call {
    const ALL: [Call; 10] = [
        Call::Table,
        Call::Order,
        Call::Sync,
        Call::Sizes,
        Call::Safety,
        Call::List,
        Call::Best,
        Call::SetPasses,
        Call::Passes,
        Call::Trials,
    ];

    fn name(self) -> &'static [u8] {
        match self {
            Call::Table => b"table",
            Call::Order => b"order",
            Call::Sync => b"sync",
            Call::Sizes => b"sizes",
            Call::Safety => b"safety",
            Call::List => b"list",
            Call::Best => b"best",
            Call::SetPasses => b"set-passes",
            Call::Passes => b"passes",
            Call::Trials => b"trials",
        }
    }

    // The call that a script names so.
    pub fn named(name: &[u8]) -> Option<Call> {
        for call in Call::ALL {
            if call.name() == name {
                return Some(call);
            }
        }
        None
    }
}
