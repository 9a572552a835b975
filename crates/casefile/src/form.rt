//! What is wrong with single fields.
ghost use Rattle.std.specs.Prelude.{◌≡◌, if◌then◌else◌, Some, None};
ghost use Rattle.std.specs.Str.{bytes_eq};
ghost use Rattle.arena.specs.declared.moves.Side.TheVariants.{Us, Them};
ghost use Rattle.casetext.specs.Fields.{us, them, all_letters, letters, wrong};
ghost use Rattle.casetext.specs.Lines.{kind};

use crate::interval::read_interval;
use crate::limits::{MAX_EDGE, MAX_LOCATION};
use crate::text::read_number;
use arena::moves::Side;
use casetext::fault::TextFault;
use casetext::line::{Form, Kind};
use soundness::bounds::{is_bounded, is_inhabited};

/// The kind of line that the first field names.
pub(crate) fn read_kind(field: &[u8]) -> Option<Kind>
    ensures { result ≡ kind field.now }
{
    match field {
        b"clock" => Some(Kind::Clock),
        b"loc" => Some(Kind::Loc),
        b"edge" => Some(Kind::Edge),
        b"row" => Some(Kind::Row),
        _ => None,
    }
}

/// Whose edge it is.
pub(crate) fn read_side(field: &[u8]) -> Option<Side>
    ensures { result ≡ (if bytes_eq field.now us then Some Us else (if bytes_eq field.now them then Some Them else None)) }
{
    match field {
        b"us" => Some(Side::Us),
        b"them" => Some(Side::Them),
        _ => None,
    }
}

/// Nothing but `r` and `k`.
fn are_letters(field: &[u8]) -> bool
    ensures { result ≡ all_letters field.now }
{
    field.iter().all(|b| matches!(b, b'r' | b'k'))
}

/// One letter for each clock, or `-` without clocks.
fn suits_clocks(clocks: usize, field: &[u8]) -> bool
    ensures { result ≡ letters clocks field.now }
{
    if clocks == 0 {
        matches!(field, b"-")
    } else {
        field.len() == clocks && are_letters(field)
    }
}

/// What is wrong with a field, which must have this form.
pub(crate) fn form_fault(line: u32, field: u32, form: Form, text: &[u8]) -> Option<TextFault>
    ensures { result ≡ wrong line field form text.now }
{
    let out_of_form = TextFault::OutOfForm { line, field };
    match form {
        Form::Head { misplaced } => misplaced.then_some(TextFault::OutOfPlace { line }),
        Form::Number { low, high } => read_number(text, low, high)
            .is_none()
            .then_some(out_of_form),
        Form::Interval { ceiling } => match read_interval(text) {
            None => Some(out_of_form),
            Some(bounds) if is_inhabited(bounds) && is_bounded(bounds, ceiling) => None,
            Some(_) => Some(TextFault::BadInterval { line, field }),
        },
        Form::Owner => read_side(text).is_none().then_some(out_of_form),
        Form::End { locations } => match read_number(text, 0, MAX_LOCATION) {
            None => Some(out_of_form),
            Some(n) if usize::from(n) < locations => None,
            Some(_) => Some(TextFault::UnknownEnd { line, field }),
        },
        Form::Letters { clocks } => (!suits_clocks(clocks, text)).then_some(out_of_form),
        Form::Choice => (!matches!(text, b"-")
            && read_number(text, 0, MAX_EDGE).is_none()).then_some(out_of_form),
    }
}
