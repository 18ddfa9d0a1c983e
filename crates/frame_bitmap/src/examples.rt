//! Worked examples of the definitions. Each is a function that does nothing, and its contract is the example.
ghost use Rattle.std.specs.Prelude.{◌≡◌, ◌-◌, ◌^◌, [], ◌∷◌, None, Some};
ghost use Rattle.frame_bitmap.specs.Bitmap.{pixel_at, shown_pixel};
ghost use Rattle.frame_bitmap.specs.Header.{number_of_2, number_of_4};
ghost use Rattle.frame_bitmap.specs.Size.{shown};
ghost use Rattle.frame_bitmap.specs.Worked.{five_wide, three_by_two, wide, one_by_one};

/// The sizes of pictures of a frame of 1280 columns and 720 rows, and of one that is much wider than high.
pub fn sizes()
    ensures quarter { shown (wide 1280 720) (Some 320) ≡ wide 320 180 }
    ensures rounded_down { shown (wide 1280 720) (Some 100) ≡ wide 100 56 }
    ensures not_larger { shown (wide 1280 720) (Some 1920) ≡ wide 1280 720 }
    ensures not_asked { shown (wide 1280 720) None ≡ wide 1280 720 }
    ensures none { shown (wide 1280 720) (Some 0) ≡ wide 1 1 }
    ensures one_row { shown (wide 4096 8) (Some 320) ≡ wide 320 1 }
{}

/// The pixels of a frame of three columns and two rows. The blue of each is 10 times its row and its column, counted from 1.
pub fn pixels()
    ensures first { pixel_at 3 three_by_two 0 0 ≡ 11 ∷ 1 ∷ 2 ∷ 255 ∷ [] }
    ensures last_of_first_row { pixel_at 3 three_by_two 2 0 ≡ 13 ∷ 5 ∷ 6 ∷ 255 ∷ [] }
    ensures second_row { pixel_at 3 three_by_two 1 1 ≡ 22 ∷ 9 ∷ 10 ∷ 128 ∷ [] }
{}

/// A row of five pixels shown in three columns has the pixels 0, 1 and 3, and in two columns the pixels 0 and 2. Two rows of three
/// pixels shown in two columns have one row, of the pixels 0 and 1.
pub fn nearest_pixels()
    ensures second_of_three { shown_pixel 5 five_wide 3 1 0 ≡ 2 ∷ 2 ∷ 2 ∷ 2 ∷ [] }
    ensures third_of_three { shown_pixel 5 five_wide 3 2 0 ≡ 4 ∷ 4 ∷ 4 ∷ 4 ∷ [] }
    ensures second_of_two { shown_pixel 5 five_wide 2 1 0 ≡ 3 ∷ 3 ∷ 3 ∷ 3 ∷ [] }
    ensures smaller { shown (wide 3 2) (Some 2) ≡ wide 2 1 }
    ensures left { shown_pixel 3 three_by_two 2 0 0 ≡ 11 ∷ 1 ∷ 2 ∷ 255 ∷ [] }
    ensures right { shown_pixel 3 three_by_two 2 1 0 ≡ 12 ∷ 3 ∷ 4 ∷ 255 ∷ [] }
{}

/// The fields of the file of one white pixel, which other programs write so too.
pub fn fields()
    ensures file_bytes { number_of_4 one_by_one 2 ≡ 58 }
    ensures pixels_begin { number_of_4 one_by_one 10 ≡ 54 }
    ensures width { number_of_4 one_by_one 18 ≡ 1 }
    ensures height { number_of_4 one_by_one 22 ≡ 2 ^ 32 - 1 }
    ensures planes { number_of_2 one_by_one 26 ≡ 1 }
    ensures bits { number_of_2 one_by_one 28 ≡ 32 }
{}
