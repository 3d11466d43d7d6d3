// How far the free runs were searched.
ghost use Rattle.std.specs.Prelude.{◌≡◌};
ghost use Rattle.segments.specs.Usages.{Space, IsSearched};

/// How far a device was searched for free runs: each one that starts before the sector `start` has at most `widest` sectors.
#[derive(Clone, Copy)]
pub struct SearchCursor {
    pub start: u64,
    pub widest: u64,
}

impl SearchCursor {
    /// Creates a cursor of which nothing was searched.
    pub fn nothing() -> Self
        ensures value { result ≡ record { start = 2; widest = 0 } }
        ensures searched { (space : Space) → IsSearched space result }
    {
        SearchCursor {
            start: 2,
            widest: 0,
        }
    }
}
