ghost use Rattle.std.specs.Prelude.{◌≡◌, ℕ, List, map, Option, Some, None, option_map, IfSome};
ghost use Rattle.std.specs.List.{All};
ghost use Rattle.named_rows.specs.ByName.{at, put_row, put_rows, take_row, with_row, IsInOrder};

use crate::place::Named;

/// Laws of looking rows up by their names. It does nothing: the clauses are what it is for.
///
/// What is found by a name has it. A row that was put is found by its name, a row that was changed is found
/// changed, and every other name finds what it found. What holds of each row holds of the one that is
/// found; it holds of each after a row of which it holds was put, after a row was taken out, and after a change
/// that keeps it. Putting a row that is there, and taking a name out that isn't, change nothing.
pub fn laws_of_lookups<T: Named>()
    ensures named { (n : List ℕ) (rows : List T) → IfSome (at T.name n rows) (λ r. T.name r ≡ n) }
    ensures at_put { (row : T) (rows : List T) → at T.name (T.name row) (put_row T.name row rows) ≡ Some row }
    ensures at_put_other { (n : List ℕ) (row : T) (rows : List T) → (n ≡ T.name row → ⊥)
        → at T.name n (put_row T.name row rows) ≡ at T.name n rows }
    ensures at_with_row { (n : List ℕ) (f : T → T) → ((r : T) → T.name r ≡ n → T.name (f r) ≡ T.name r)
        → (rows : List T) → at T.name n (with_row T.name n f rows) ≡ option_map f (at T.name n rows) }
    ensures at_with_row_other { (n : List ℕ) (f : T → T) → ((r : T) → T.name r ≡ n → T.name (f r) ≡ T.name r)
        → (m : List ℕ) (rows : List T) → (m ≡ n → ⊥) → at T.name m (with_row T.name n f rows) ≡ at T.name m rows }
    ensures put_same { (row : T) (rows : List T) → at T.name (T.name row) rows ≡ Some row → put_row T.name row rows ≡ rows }
    ensures taken_absent { (n : List ℕ) (rows : List T) → at T.name n rows ≡ None → take_row T.name n rows ≡ rows }
{}

/// Laws of rows in byte order of their names. It does nothing: the clauses are what it is for.
///
/// Rows stay in order where one is put, where one is taken out, and where one is changed that keeps its name. Of
/// rows in order, each is found by its name, one that was taken out isn't found, and every other name finds what
/// it found.
pub fn laws_of_order<T: Named>()
    ensures put { (row : T) (rows : List T) → IsInOrder T.name rows → IsInOrder T.name (put_row T.name row rows) }
    ensures put_all { (more rows : List T) → IsInOrder T.name rows → IsInOrder T.name (put_rows T.name more rows) }
    ensures taken { (n : List ℕ) (rows : List T) → IsInOrder T.name rows → IsInOrder T.name (take_row T.name n rows) }
    ensures changed { (n : List ℕ) (f : T → T) → ((r : T) → T.name r ≡ n → T.name (f r) ≡ T.name r)
        → (rows : List T) → IsInOrder T.name rows → IsInOrder T.name (with_row T.name n f rows) }
    ensures at_each { (rows : List T) → IsInOrder T.name rows → All (λ r. at T.name (T.name r) rows ≡ Some r) rows }
    ensures at_taken { (n : List ℕ) (rows : List T) → IsInOrder T.name rows → at T.name n (take_row T.name n rows) ≡ None }
    ensures at_other { (n m : List ℕ) (rows : List T) → (m ≡ n → ⊥) → IsInOrder T.name rows
        → at T.name m (take_row T.name n rows) ≡ at T.name m rows }
{}

/// Laws of rows that are seen as others of the same names, as a page without its outcomes. It does nothing:
/// the clauses are what it is for.
///
/// Looking up and changing what is seen is seeing what is looked up and changed.
pub fn laws_of_views<T: Named, U: Named>()
    ensures found { (seen : T → U) → ((r : T) → U.name (seen r) ≡ T.name r) → (n : List ℕ) (rows : List T)
        → at U.name n (map seen rows) ≡ option_map seen (at T.name n rows) }
    ensures put { (seen : T → U) → ((r : T) → U.name (seen r) ≡ T.name r) → (row : T) (rows : List T)
        → put_row U.name (seen row) (map seen rows) ≡ map seen (put_row T.name row rows) }
    ensures taken { (seen : T → U) → ((r : T) → U.name (seen r) ≡ T.name r) → (n : List ℕ) (rows : List T)
        → take_row U.name n (map seen rows) ≡ map seen (take_row T.name n rows) }
    ensures changed { (seen : T → U) → ((r : T) → U.name (seen r) ≡ T.name r) → (n : List ℕ) (f : T → T) (g : U → U)
        → ((r : T) → T.name r ≡ n → g (seen r) ≡ seen (f r)) → (rows : List T)
        → with_row U.name n g (map seen rows) ≡ map seen (with_row T.name n f rows) }
{}
