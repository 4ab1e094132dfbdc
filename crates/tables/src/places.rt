//! The record at a place of a table.
ghost use Rattle.std.specs.Prelude.{◌≡◌, ◌+◌, slice_index_or};

// The record so many places behind `first`, or `past` where the table has ended. (`past` is handed in: of a bound on
// `Default` a contract knows only that some value is a default.)
pub(crate) fn record_at<T: Copy>(table: &[T], first: usize, number: usize, past: T) -> T
    ensures { result ≡ slice_index_or table.now (first + number) past }
{
    table
        .get(first.saturating_add(number))
        .copied()
        .unwrap_or(past)
}
