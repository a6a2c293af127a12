// The refusals of values that come one at a time, by number and not by position.
ghost use Rattle.std.specs.Prelude.{◌≡◌, true};
ghost use Rattle.numbers.specs.Number.{pick};
ghost use Rattle.runs.specs.Runs.{coding};
ghost use Rattle.runs.specs.Writer.{last_fits_in};

use crate::ColumnKind;
use crate::writer::Writer;

// Whether the last run can be stored; the byte column's has no count.
pub fn last_fits(w: Writer) -> bool
    ensures { result ≡ last_fits_in w }
{
    let column = w.column;
    if w.count == 0 {
        return true;
    }
    let n = w.count - 1;
    match column {
        ColumnKind::Number => n <= numbers::MAX_COUNT + 1,
        ColumnKind::Difference => n <= numbers::MAX_COUNT + 1,
        ColumnKind::Byte => true,
    }
}

// Whether a key was out of reach before, or k is: a difference outside -2^30 to 2^30-1.
pub fn far_with(column: ColumnKind, far: bool, k: u64) -> bool
    ensures { result ≡ pick ((coding column).near k) far true }
{
    match column {
        ColumnKind::Number => far,
        ColumnKind::Difference => {
            if k < 1073741824 {
                return true;
            }
            if 3221225472 <= k {
                return true;
            }
            far
        }
        ColumnKind::Byte => far,
    }
}
