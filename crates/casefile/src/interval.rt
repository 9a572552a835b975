//! Reads intervals.
ghost use Rattle.std.specs.Prelude.{◌≡◌};
ghost use Rattle.casetext.specs.Fields.{opening, closing, bound, upper, interval};

use crate::limits::MAX_BOUND;
use crate::text::{cut, read_number};
use game::bounds::{Bound, Bounds};

/// Whether the bracket before an interval is round.
fn opens_round(bracket: u8) -> Option<bool>
    ensures { result ≡ opening bracket }
{
    match bracket {
        b'[' => Some(false),
        b'(' => Some(true),
        _ => None,
    }
}

/// Whether the bracket behind an interval is round.
fn closes_round(bracket: u8) -> Option<bool>
    ensures { result ≡ closing bracket }
{
    match bracket {
        b']' => Some(false),
        b')' => Some(true),
        _ => None,
    }
}

/// A bound, which is open beside a round bracket.
fn read_bound(open: bool, field: &[u8]) -> Option<Bound>
    ensures { result ≡ bound «open» field.now }
{
    let at = read_number(field, 0, MAX_BOUND)? as u8;
    Some(Bound { at, open })
}

/// The upper bound, where `-` is none.
fn read_upper(open: bool, field: &[u8]) -> Option<Option<Bound>>
    ensures { result ≡ upper «open» field.now }
{
    if matches!(field, b"-") {
        open.then_some(None)
    } else {
        read_bound(open, field).map(Some)
    }
}

/// An interval as `[1,3)` or `(0,-)`.
pub(crate) fn read_interval(field: &[u8]) -> Option<Bounds>
    ensures { result ≡ interval field.now }
{
    let [first, inner @ .., last] = field else {
        return None;
    };
    let low_open = opens_round(*first)?;
    let high_open = closes_round(*last)?;
    let (low, rest) = cut(inner, b',');
    let low = read_bound(low_open, low)?;
    let high = read_upper(high_open, rest?)?;
    Some(Bounds { low, high })
}
