ghost use Rattle.std.specs.Prelude.{◌≡◌, ℕ, ◌+◌, ◌≤◌, true, List, [], ◌∷◌, ◌++◌, length, map, drop, Some, slice_get, IsUtf8};
ghost use Rattle.std.specs.Char.Escape.{encode_utf16};
ghost use Rattle.std.specs.List.{concat};
ghost use Rattle.std.specs.Str.{chars};
ghost use Rattle.lrlex_rules.specs.Definition.{Definition};
ghost use Rattle.lrlex_rules.specs.Tiling.{Item, IsTiling, HasOneTiling, boundaries, items, moved};
ghost use Rattle.lrlex_boundaries.specs.Entries.{plain};
ghost use Rattle.lrlex_boundaries.specs.Boundaries.{Boundary, most_entries, most_entry_count};
ghost use Rattle.lrlex.specs.Peaks.{pushes};
ghost use Rattle.lrlex.specs.Moves.{items_from};
ghost use Rattle.lrlex.specs.Reach.{IsLexed, IsRun};
ghost use Rattle.lrlex.specs.ItemLaws.{HaveLaws};
ghost use Rattle.lrlex_positions.specs.Columns.{units};
ghost use Rattle.lrlex_rules.specs.Active.{is_state};
ghost use Rattle.lrlex.specs.Scanner.{AreScanned, IsStep, Scanned, after_step, at_front};
ghost use Rattle.lrlex_rules.specs.Tiling.{End as TheEnd, Tile as TheTile};
ghost use Rattle.lrlex.specs.declared.lexing.scanner.ScannedTile.{ScannedTile};
ghost use Rattle.lrlex.specs.declared.lexing.scanner.ScanEnd.{ScanEnd};
ghost use Rattle.lrlex.specs.declared.lexing.scanner.Step.TheVariants.{Tile, End};

use lrlex_base::Numbered;

/// What holds of the items of each run, as `run`, `relex` and a document say it of theirs.
pub fn item_laws()
    ensures { (d : Definition) (text : List ℕ) (found : List Item) (bounds : List Boundary)
        → IsRun d text found bounds → HaveLaws d text found bounds }
{}

/// From each stack a text is cut in one way. What a run gives from a boundary on is what the rest of the text gives from the
/// boundary's stack, moved by its place: so it is a function of that text, that stack and the definition.
pub fn tiling_laws()
    ensures one { (d : Definition) (text stack : List ℕ) → HasOneTiling d text stack }
    ensures rest { (d : Definition) (text : List ℕ) (found : List Item) (bounds : List Boundary)
        (h : IsLexed d text found bounds) (k : ℕ) (m : Boundary)
        → slice_get bounds k ≡ Some m → IsTiling d (drop m.place text) (plain m.entries)
        (drop k h.cut) h.end }
    ensures moved { (d : Definition) (text : List ℕ) (found : List Item) (bounds : List Boundary)
        (h : IsLexed d text found bounds) (k : ℕ) (m : Boundary)
        → slice_get bounds k ≡ Some m → items_from m.place found
        ≡ map (moved m.place) (items d 0 (drop k h.cut) h.end) }
{}

/// What a run's boundaries say: one more than the tiles, the greatest number of entries of a stack,
/// and that this is at most one more than the number of tiles that push a state other than the top.
pub fn run_laws()
    ensures tiles { (d : Definition) (text : List ℕ) (found : List Item) (bounds : List Boundary)
        (h : IsLexed d text found bounds)
        → length bounds ≡ length h.cut + 1 }
    ensures peak { (d : Definition) (text : List ℕ) (found : List Item) (bounds : List Boundary)
        (h : IsLexed d text found bounds)
        → most_entries bounds ≡ most_entry_count (boundaries d 0 (0 ∷ []) h.cut) }
    ensures few { (d : Definition) (text : List ℕ) (found : List Item) (bounds : List Boundary)
        (h : IsLexed d text found bounds)
        → most_entries bounds ≤ 1 + pushes d (0 ∷ []) h.cut }
{}

/// What columns in code units of UTF-16 are: as many as the encoding of the characters has, and never more than the text has
/// bytes.
pub fn utf16_laws()
    ensures encoded { (cs : List ℕ) → units cs ≡ length (concat (map encode_utf16 cs)) }
    ensures few { (text : List ℕ) → IsUtf8 text → units (chars text) ≤ length text }
{}

/// What the steps of a scanner give: from the front of a text on, the tiles that led it to its place. With its end they are the
/// one tiling of the text, so that `run` gives their items.
pub fn scan_laws<S: Numbered>()
    ensures front { (d : Definition) (text : List ℕ) (most : ℕ) → is_state d 0 ≡ true
        → AreScanned [] (at_front d text most) }
    ensures taken { (ts : List TheTile) (s : Scanned) (x : ScannedTile S)
        (h : IsStep S.number s (Tile x)) → AreScanned ts s
        → AreScanned (ts ++ h.0 ∷ []) (after_step s (Tile x)) }
    ensures ended { (ts : List TheTile) (s : Scanned) (e : ScanEnd S)
        → is_state s.definition 0 ≡ true → IsStep S.number s (End e) → AreScanned ts s
        → (end : TheEnd) × IsTiling s.definition s.text (0 ∷ []) ts end }
    ensures run { (d : Definition) (text : List ℕ) (found : List Item) (bounds : List Boundary)
        → IsLexed d text found bounds → (ts : List TheTile) (e : TheEnd)
        → IsTiling d text (0 ∷ []) ts e → found ≡ items d 0 ts e }
{}
