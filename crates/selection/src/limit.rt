// What rows leave of a limit.
ghost use Rattle.std.specs.Prelude.{◌≡◌};
ghost use Rattle.query.specs.BoundQuery as bound;

/// Returns what some rows leave of a limit.
pub(crate) fn limit_after(limit: Option<u64>, rows: u64) -> Option<u64>
    ensures { result ≡ bound.limit_after limit rows }
{
    match limit {
        Some(most) => Some(most.saturating_sub(rows)),
        None => None,
    }
}
