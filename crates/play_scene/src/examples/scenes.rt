//! Worked scenes on a raster of five columns and three rows, row by row from the top: each pixel as `0xAARRGGBB`, its colours
//! multiplied by its alpha.
ghost use Rattle.std.specs.Prelude.{◌≡◌, ◌∷◌, []};
ghost use Rattle.play_scene.specs.WorkedScenes.{changing_layers, keyed_layers, placed_layers, row_of_layers};

/// Fills that are mirrored, that have no width and that lie outside, and clips that keep some columns and rows, or none. If an edge
/// of a clip lies at the middle of a column, a left edge keeps the column, and a right edge does not.
pub fn placed_scene()
    ensures top { row_of_layers placed_layers 0 ≡ 0xA6214182 ∷ 0xA6214182 ∷ 0x53530000 ∷ 0 ∷ 0 ∷ [] }
    ensures middle { row_of_layers placed_layers 1 ≡ 0 ∷ 0xFF204060 ∷ 0xFFA73D5D ∷ 0xFF204060 ∷ 0 ∷ [] }
    ensures bottom { row_of_layers placed_layers 2 ≡ 0 ∷ 0xFF204060 ∷ 0xFF585048 ∷ 0xFF585048 ∷ 0x40402000 ∷ [] }
{}

/// A keyer below a layer, a keyer on a keyer, and one above all layers.
pub fn keyed_scene()
    ensures top { row_of_layers keyed_layers 0 ≡ 0xFF2248B7 ∷ 0xFF2248B7 ∷ 0xFF666699 ∷ 0xFF5212AD ∷ 0xFF5212AD ∷ [] }
    ensures middle { row_of_layers keyed_layers 1 ≡ 0xFF0026D9 ∷ 0xFF0026D9 ∷ 0xFFC0C03F ∷ 0xFF4000BF ∷ 0xFF4000BF ∷ [] }
    ensures bottom { row_of_layers keyed_layers 2 ≡ 0xFF0000FF ∷ 0xFF0000FF ∷ 0xFFC0C03F ∷ 0xFF4000BF ∷ 0xFF4000BF ∷ [] }
{}

/// A transition of each kind at one of its steps, and one at its end.
pub fn changing_scene()
    ensures top { row_of_layers changing_layers 0 ≡ 0xFF4770C2 ∷ 0xFF46617C ∷ 0xD3695A78 ∷ 0xFF366DB7 ∷ 0xFF366DB7 ∷ [] }
    ensures middle { row_of_layers changing_layers 1 ≡ 0xFF4F1E1E ∷ 0xFF4F1E1E ∷ 0xFF4F1E1E ∷ 0xFF93365B ∷ 0xFF93365B ∷ [] }
    ensures bottom { row_of_layers changing_layers 2 ≡ 0xFF4F1E1E ∷ 0xFF4F1E1E ∷ 0xFF4F1E1E ∷ 0xCC892234 ∷ 0xCC892234 ∷ [] }
{}
