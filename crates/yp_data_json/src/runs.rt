//! Rows cut into runs: the rows of one member, and of one entry.
ghost use Rattle.std.specs.Prelude.{◌≡◌, ◌+◌, ◌^◌, ◌<◌, ◌++◌, length, true, false};
ghost use Rattle.std.specs.List.{AllByRecursion};
ghost use Rattle.yp_data_json.specs.Runs.{goes_through as goes_through_node, AllGoThrough, begins_through, HasSegment, StartsWith, StartsApart, AreRising, EndsBetween};

use yp_base::path::Seg;
use yp_base::row::Row;

/// The segment of a row's path at a depth.
pub fn segment(row: &Row, depth: usize) -> &Seg
    requires { depth < length row.now.path }
    ensures is { HasSegment depth result.now row.now }
    ensures room { depth + 1 < 2 ^ 64 }
{
    &row.path.items()[depth]
}

/// Whether a row's path goes through a node at a depth.
fn goes_through(row: &Row, depth: usize, node: u32) -> bool
    ensures { result ≡ goes_through_node depth node row.now }
{
    row.path.len() > depth && segment(row, depth).node == node
}

/// The run of rows of one node that rows begin with, and the others.
pub fn split_run<'a>(rows: &'a [Row], depth: usize, node: u32) -> (&'a [Row], &'a [Row])
    ensures parts { rows.now ≡ result.0.now ++ result.1.now }
    ensures run { AllGoThrough depth node result.0.now }
    ensures others { begins_through depth node result.1.now ≡ false }
{
    let mut others = rows;
    while let Some((first, later)) = others.split_first() {
        if !goes_through(first, depth, node) {
            break;
        }
        others = later;
    }
    rows.split_at(rows.len() - others.len())
}

/// How far the rows of an entry at the beginning of rows go at least, and at most. Rows at distances that
/// double are looked at, since an entry may have many keys, which each look compares.
fn reach(rows: &[Row], depth: usize, seg: &Seg) -> (usize, usize)
    requires order { AreRising depth rows.now }
    requires first { StartsWith depth seg.now rows.now }
    ensures { EndsBetween depth seg.now rows.now result.0 result.1 }
{
    let mut low = 1;
    let mut high = 1;
    while high < rows.len() && has_segment(&rows[high], depth, seg) {
        low = high + 1;
        high = high.saturating_mul(2);
    }
    (low, high.min(rows.len()))
}

/// Where the rows of an entry end, which is between two places.
fn entry_end(rows: &[Row], depth: usize, seg: &Seg, mut low: usize, mut high: usize) -> usize
    requires order { AreRising depth rows.now }
    requires first { StartsWith depth seg.now rows.now }
    requires between { EndsBetween depth seg.now rows.now low high }
    ensures { EndsBetween depth seg.now rows.now result result }
{
    while low < high {
        let middle = low + (high - low) / 2;
        if has_segment(&rows[middle], depth, seg) {
            low = middle + 1;
        } else {
            high = middle;
        }
    }
    low
}

/// The rows of the entry that rows in order begin with, and the others.
pub fn split_entry<'a>(rows: &'a [Row], depth: usize, seg: &Seg) -> (&'a [Row], &'a [Row])
    requires order { AreRising depth rows.now }
    requires first { StartsWith depth seg.now rows.now }
    ensures parts { rows.now ≡ result.0.now ++ result.1.now }
    ensures entry { AllByRecursion (HasSegment depth seg.now) result.0.now }
    ensures others { StartsApart depth seg.now result.1.now }
{
    let (low, high) = reach(rows, depth, seg);
    rows.split_at(entry_end(rows, depth, seg, low, high))
}

/// Whether a row's path has a segment at a depth.
fn has_segment(row: &Row, depth: usize, seg: &Seg) -> bool
    ensures is { result ≡ true → HasSegment depth seg.now row.now }
    ensures isnt { result ≡ false → HasSegment depth seg.now row.now → ⊥ }
{
    row.path.len() > depth && segment(row, depth) == seg
}
