//! Laws of the definitions alone.

ghost use Rattle.std.specs.Prelude.{◌≡◌, ℤ, Ok, true};
ghost use Rattle.std.specs.Fmt.{signed_decimal};
ghost use Rattle.fx_text.specs.Numbers.{fits_64, number_in};

/// The one form of each number of 64 bits is read as that number.
pub fn written_numbers_are_read()
    ensures { (z : ℤ) → fits_64 z ≡ true → number_in (signed_decimal z) ≡ Ok z }
{}
