ghost use Rattle.std.specs.Prelude.{◌≡◌, ℕ, ℤ, List, [], ◌∷◌, ◌++◌, map, filter, length, not, true, false, Option, option_map};
ghost use Rattle.std.specs.Option.{option_to_list};
ghost use Rattle.std.specs.Ordering.{int_cmp};
ghost use Rattle.named_rows.specs.ByName.{names_cmp, at, put_row, take_row};
ghost use Rattle.sqlite_value.specs.Order.{Row};
ghost use Rattle.sqlite_rules.specs.Lists.{Has};
ghost use Rattle.sqlite_schema.specs.declared.schema.Schema.{Schema};
ghost use Rattle.sqlite_schema.specs.declared.schema.Table.{Table};
ghost use Rattle.sqlite_sql.specs.Query.{IsAnswer};
ghost use Rattle.sql_rows.specs.Tables.{Rise, number_letters, kept, leads, name_in, is_row, rows_of, rows_outside};
ghost use Rattle.sql_rows.specs.Changes.{Changes};
ghost use Rattle.sql_rows.specs.Keyed.{KeyKind, IsNamedBy, IsKeyed};
ghost use Rattle.sql_rows.specs.Queries.{simple, wheres, sorts, shows, cells_at, AreGiven, BeginWithTexts};
ghost use Rattle.sqlite_trees.specs.Tree.{Trees};
ghost use Rattle.sqlite_schema.specs.Rules.{Fits};

/// Laws of the rows of a table in groups. It does nothing: the clauses are what it is for.
///
/// The letters of numbers compare as the numbers. A row that comes in place of the one of its key, a row that comes
/// behind the others, the row of a key taken out, and the rows of a group taken out change that group alone: the
/// first two put a row among its rows by name, the third takes one out, and the fourth leaves none. A change of one
/// group leaves each other group of as many names, and takes out or brings in no row of it.
///
/// A query for the rows of a group, sorted by the columns of the key, shows them in order of their names; and a
/// query for a key shows its row, or none.
pub fn laws_of_rows()
    ensures numbers { (a b : ℤ) → names_cmp (number_letters a) (number_letters b) ≡ int_cmp a b }
    ensures replaced { (group : List (List ℕ)) (cells : Row) → leads 0 group cells ≡ true → (rows : List Row)
        → Changes group (put_row (name_in 0 group) cells) rows (filter (λ r. not (is_row 0 group (name_in 0 group cells) r)) rows ++ cells ∷ []) }
    ensures added { (group : List (List ℕ)) (cells : Row) → leads 0 group cells ≡ true → (rows : List Row)
        → Changes group (put_row (name_in 0 group) cells) rows (rows ++ cells ∷ []) }
    ensures taken { (group : List (List ℕ)) (n : List ℕ) (rows : List Row)
        → Changes group (take_row (name_in 0 group) n) rows (filter (λ r. not (is_row 0 group n r)) rows) }
    ensures dropped { (group : List (List ℕ)) (rows : List Row) → Changes group (λ _. []) rows (rows_outside group rows) }
    ensures other_group { (change : List Row → List Row) (group : List (List ℕ)) (old new : List Row) → Changes group change old new
        → (other : List (List ℕ)) → length other ≡ length group → (other ≡ group → ⊥) → rows_of other new ≡ rows_of other old }
    ensures stays { (change : List Row → List Row) (group : List (List ℕ)) (old new : List Row) → Changes group change old new
        → (r : Row) → leads 0 group r ≡ false → Has old r → Has new r }
    ensures came { (change : List Row → List Row) (group : List (List ℕ)) (old new : List Row) → Changes group change old new
        → (r : Row) → leads 0 group r ≡ false → Has new r → Has old r }
    ensures lists { (schema : Schema) (given : Table) (kinds : List KeyKind) → IsKeyed schema (record given { is_counted = false }) kinds
        → (db : Trees) → Fits schema db → Rise (db given.tree) → (group : List (List ℕ)) (columns : List ℕ) (params : Row) (shown : List Row)
        → IsNamedBy kinds group → BeginWithTexts group kinds → AreGiven 0 group params
        → IsAnswer (simple given.tree (wheres 1 0 group) (shows columns) (sorts 1 kinds)) db params shown
        → shown ≡ map (cells_at columns) (rows_of group (kept (db given.tree))) }
    ensures finds { (schema : Schema) (given : Table) (kinds : List KeyKind) → IsKeyed schema (record given { is_counted = false }) kinds
        → (db : Trees) → Fits schema db → Rise (db given.tree) → (group : List (List ℕ)) (n : List ℕ) (columns : List ℕ) (params : Row) (shown : List Row)
        → IsNamedBy kinds group → BeginWithTexts (group ++ n ∷ []) kinds → AreGiven 0 (group ++ n ∷ []) params
        → IsAnswer (simple given.tree (wheres 1 0 (group ++ n ∷ [])) (shows columns) []) db params shown
        → shown ≡ option_to_list (option_map (cells_at columns) (at (name_in 0 group) n (rows_of group (kept (db given.tree))))) }
{}
