// Which buffers stay in slices of the arrays that have them.

/// The minimum length of the slices of a buffer, on average: copying shorter ones costs less than slices of their own.
const LEAST_SLICE: usize = 256;

/// Returns whether `size` bytes of `runs` runs are long enough to stay where they are.
pub(crate) fn are_long(size: usize, runs: usize) -> bool {
    size / LEAST_SLICE > runs
}
