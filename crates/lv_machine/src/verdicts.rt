//! Why an update is refused at a size.
ghost use Rattle.std.specs.Prelude.{◌≡◌};
ghost use Rattle.lv_machine.specs.Moves.{refused_at};

use lv_edits::Edit;
use lv_geometry::Refusal;

/// Why an update is refused when there are this many elements and room for this many, while updates are left. None if it isn't.
pub fn refused_by_size(room: u32, size: u32, edit: Edit) -> Option<Refusal>
    ensures { result ≡ refused_at room size edit }
{
    match edit {
        Edit::Push(_) => (size == room).then_some(Refusal::Full),
        Edit::Pop => (size == 0).then_some(Refusal::Empty),
        Edit::Write { index, .. } => (index >= size).then_some(Refusal::OutOfRange { size }),
        Edit::Reserve(cells) => (cells > room).then_some(Refusal::TooLarge { limit: room }),
        Edit::Swap { first, second } => {
            (first >= size || second >= size).then_some(Refusal::OutOfRange { size })
        }
        Edit::Truncate(count) => (count > size).then_some(Refusal::OutOfRange { size }),
    }
}
