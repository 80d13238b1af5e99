//! Facts about paths, rows and texts, for the crates above. Each call does nothing.
ghost use Rattle.std.specs.Prelude.{◌≡◌, ◌++◌, ◌∷◌, [], ℕ, List, Option, None, true, false, map};
ghost use Rattle.std.specs.List.{AllByRecursion};
ghost use Rattle.std.specs.Ordering.{is_gt};
ghost use Rattle.std.specs.declared.cmp.Ordering.TheVariants.{Less, Equal, Greater};
ghost use Rattle.yp_base.specs.declared.path.Seg.{Seg};
ghost use Rattle.yp_base.specs.declared.row.Row.{Row};
ghost use Rattle.yp_base.specs.Order.{path_cmp, is_within};
ghost use Rattle.yp_base.specs.Paths.{same_number};
ghost use Rattle.yp_base.specs.Rows.{AreInOrder, path_of, put_row, value_at};
ghost use Rattle.yp_base.specs.Types.{same_text};

/// The order of paths turned round; paths that tie are one.
#[tactic(auto, using(crate::specs::PathLaws::less_turned, crate::specs::PathLaws::greater_turned, crate::specs::Exact::paths_exact))]
pub fn order_of_paths()
    ensures less { (one two : List Seg) → path_cmp one two ≡ Less → path_cmp two one ≡ Greater }
    ensures greater { (one two : List Seg) → path_cmp one two ≡ Greater → path_cmp two one ≡ Less }
    ensures equal { (one two : List Seg) → path_cmp one two ≡ Equal → one ≡ two }
{}

/// A path is at or below itself and what stands above it, and no path above it comes after it.
#[tactic(auto, using(crate::specs::PathLaws::within_itself, crate::specs::PathLaws::within_through, crate::specs::PathLaws::within_not_after))]
pub fn paths_within()
    ensures itself { (path : List Seg) → is_within path path ≡ true }
    ensures through { (one two three : List Seg) → is_within one two ≡ true → is_within two three ≡ true
        → is_within one three ≡ true }
    ensures order { (above path : List Seg) → is_within above path ≡ true → is_gt (path_cmp above path) ≡ false }
{}

/// A row that is past the others goes last, and is not among them.
#[tactic(auto, using(crate::specs::RowLaws::put_last_row, crate::specs::RowLaws::not_there_yet, crate::specs::RowLaws::none_past))]
pub fn last_row()
    ensures put { (rows : List Row) (last : Row) (more : List Row) → AreInOrder (rows ++ last ∷ more)
        → put_row last rows ≡ rows ++ last ∷ [] }
    ensures absent { (rows : List Row) (last : Row) (more : List Row) → AreInOrder (rows ++ last ∷ more)
        → value_at last.path rows ≡ None }
    ensures none { (path : List Seg) (rows : List Row)
        → AllByRecursion (λ other. path_cmp path other ≡ Less) (map path_of rows) → value_at path rows ≡ None }
{}

/// Texts, and numbers, that are found equal are one.
#[tactic(auto, using(crate::specs::PathLaws::texts_same, crate::specs::PathLaws::numbers_same))]
pub fn equal_values()
    ensures texts { (one two : List ℕ) → same_text one two ≡ true → one ≡ two }
    ensures numbers { (one two : Option ℕ) → same_number one two ≡ true → one ≡ two }
{}
