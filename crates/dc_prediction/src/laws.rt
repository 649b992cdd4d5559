//! Laws of the definitions. Each function does nothing; its contract is the law.

ghost use Rattle.std.specs.Prelude.{◌≡◌, ℕ, ◌≤◌, ℤ};
ghost use Rattle.planes.specs.declared.Rect.{Rect};
ghost use Rattle.planes.specs.Raster.{Grid, Raster, at};
ghost use Rattle.planes.specs.Rect.{IsInRect};
ghost use Rattle.dc_prediction.specs.Prediction.{prediction, restored, AllLookedAt, IsRestored};
ghost use Rattle.dc_prediction.specs.Restoring.{AllLookedAtOutside, RestoresRect};

/// For all residuals exactly one band is restored.
pub fn one_band_is_restored()
    ensures one { (residuals : Grid) → IsRestored residuals (restored residuals) }
    ensures no_other { (residuals g : Grid) → IsRestored residuals g → (y x : ℕ)
        → g y x ≡ restored residuals y x }
{}

/// A prediction depends on the three earlier places alone, and a restored value on the residuals above and left of it.
pub fn earlier_places_alone()
    ensures prediction { (f g : Grid) (y x : ℕ) → AllLookedAt (λ j i. f j i ≡ g j i) y x
        → prediction f y x ≡ prediction g y x }
    ensures restored { (r s : Grid) (y x : ℕ) → ((j i : ℕ) → j ≤ y → i ≤ x → r j i ≡ s j i)
        → restored r y x ≡ restored s y x }
{}

/// Where what lies outside a rectangle and is looked at is restored, and the rectangle holds its residuals, restoring
/// the rectangle gives the values of the restored band.
pub fn rectangles_make_the_band()
    ensures { (residuals : Grid) (rect : Rect) (old new : Raster ℤ) → RestoresRect rect old new
        → AllLookedAtOutside (λ y x. at old y x ≡ restored residuals y x) rect
        → ((y x : ℕ) → IsInRect rect y x → at old y x ≡ residuals y x)
        → (y x : ℕ) → IsInRect rect y x → at new y x ≡ restored residuals y x }
{}
