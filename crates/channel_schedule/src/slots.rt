// The slots that a unit takes.
ghost use Rattle.std.specs.Prelude.{◌≡◌, ◌+◌, ◌*◌};
ghost use Rattle.channel_schedule.specs.Slices.{shape_pictures};

use slice_geometry::UnitShape;

// One for each slice, and the idle ones behind a picture, which is a unit with slices.
pub(crate) fn slots_of(unit: UnitShape, idle: u32) -> u128
    ensures { result ≡ unit.slices + idle * shape_pictures unit }
{
    if unit.slices == 0 {
        return 0;
    }
    u128::from(unit.slices) + u128::from(idle)
}
