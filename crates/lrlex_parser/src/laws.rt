// What no single call's contract states: the law is the contract of a function that needs no caller.
ghost use Rattle.std.specs.Prelude.{◌≡◌, ℕ, Bool, List, map, encode_utf8_all};
ghost use Rattle.std.specs.Str.{chars};
ghost use Rattle.lrlex_parser.specs.Text.{Piece, IsCut, cut, pieces_at};

/// A text is cut in one way at the characters that pass a test, as its lines are: it is the pieces with those characters
/// between them, and no piece has such a character. Each piece is at the offset after all that is before it.
pub fn line_laws()
    ensures some { (p : ℕ → Bool) (x : Piece) →
        (pieces : List (List ℕ)) × (between : List ℕ) × IsCut p (chars x.text) pieces between }
    ensures only { (p : ℕ → Bool) (x : Piece) (pieces : List (List ℕ)) (between : List ℕ)
        → IsCut p (chars x.text) pieces between
        → map (λ y. y.text) (cut p x) ≡ map encode_utf8_all pieces }
    ensures offsets { (p : ℕ → Bool) (x : Piece) (pieces : List (List ℕ)) (between : List ℕ)
        → IsCut p (chars x.text) pieces between → cut p x ≡ pieces_at x.at pieces between }
{}
