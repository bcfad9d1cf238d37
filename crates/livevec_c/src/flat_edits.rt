//! Edits by plain numbers, as C has them.
ghost use Rattle.std.specs.Prelude.{◌≡◌};
ghost use Rattle.livevec_c.specs.FlatEdits.{edit_at, long_edit_at, seat_call_at};

use lv_edits::Edit;
use lv_machine::Call;
use lv_series::LongEdit;

/// The edit of a vector that a number names, or nothing if it names none.
#[inline(always)]
pub fn edit_of(what: u32, index: u32, second: u32, value: i64) -> Option<Edit>
    ensures { result ≡ edit_at what index second value }
{
    match what {
        1 => Some(Edit::Push(value)),
        2 => Some(Edit::Pop),
        3 => Some(Edit::Write { index, value }),
        4 => Some(Edit::Reserve(index)),
        5 => Some(Edit::Swap {
            first: index,
            second,
        }),
        6 => Some(Edit::Truncate(index)),
        _ => None,
    }
}

/// The edit of a series that a number names, or nothing if it names none.
#[inline(always)]
pub fn long_edit_of(what: u32, index: u64, second: u64, value: i64) -> Option<LongEdit>
    ensures { result ≡ long_edit_at what index second value }
{
    match what {
        1 => Some(LongEdit::Push(value)),
        2 => Some(LongEdit::Pop),
        3 => Some(LongEdit::Write { index, value }),
        5 => Some(LongEdit::Swap {
            first: index,
            second,
        }),
        6 => Some(LongEdit::Truncate(index)),
        7 => Some(LongEdit::Expire(index)),
        _ => None,
    }
}

/// The call of a seat that a number names, or nothing if it names none.
pub fn seat_call_of(what: u32, index: u32, value: i64) -> Option<Call>
    ensures { result ≡ seat_call_at what index value }
{
    match what {
        1 => Some(Call::Push(value)),
        2 => Some(Call::Pop),
        3 => Some(Call::Write { index, value }),
        4 => Some(Call::Get(index)),
        5 => Some(Call::Size),
        6 => Some(Call::Refresh(index)),
        _ => None,
    }
}
