// What is known of texts and numbers.

ghost use Rattle.sheets.specs.Numerals.{NumbersStand};
ghost use Rattle.sheets.specs.Text.{PartsStand};

// A separator cuts every text in exactly one way.
pub fn parts_stand()
    ensures { PartsStand }
{}

// What is read of a number is what is printed of one.
pub fn numbers_stand()
    ensures { NumbersStand }
{}
