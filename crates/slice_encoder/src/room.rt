// How much room the values of a slice take.

ghost use Rattle.std.specs.Prelude.{ℕ, ◌*◌, ◌^◌, ◌<◌, ◌≤◌};
ghost use Rattle.slice_geometry.specs.Shape.{IsSize};
ghost use Rattle.slice_geometry.specs.SliceOrder.{level_rect, area, place_count};

use slice_geometry::{Layout, Size};

// The most places that a slice has in a band of this level.
fn most_in_band(layout: &Layout, size: Size, level: u32) -> usize
    requires size { IsSize size.w size.h }
    requires level { level ≤ layout.now.depth }
    ensures most { (sx sy : ℕ) → sx < layout.now.slices_x → sy < layout.now.slices_y
        → area (level_rect layout.now size sx sy level) ≤ result }
    ensures few { result ≤ 2 ^ 27 }
{
    let band = layout.band_size(size, level);
    (band.w / layout.slices_x() + 1) as usize * (band.h / layout.slices_y() + 1) as usize
}

// The most places that a slice has in a component.
pub fn most_places(layout: &Layout, size: Size) -> usize
    requires { IsSize size.w size.h }
    ensures most { (sx sy : ℕ) → sx < layout.now.slices_x → sy < layout.now.slices_y
        → place_count layout.now size sx sy ≤ result }
    ensures few { result ≤ 2 ^ 31 }
{
    let mut most = most_in_band(layout, size, 0);
    for level in 0..layout.depth() {
        most += 3 * most_in_band(layout, size, level + 1);
    }
    most
}
