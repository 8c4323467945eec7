ghost use Rattle.std.specs.Prelude.{◌≡◌, ℕ, List};
ghost use Rattle.std.specs.List.{AllByRecursion};
ghost use Rattle.snap_tree.specs.declared.row.Row.{Row};
ghost use Rattle.snap_tree.specs.Trees.{Trees};
ghost use Rattle.acc_tree.specs.declared.above.Above.{Above};
ghost use Rattle.rules_tables.specs.declared.spans.TheConstants.{MOST_COLUMNS, MOST_ROWS};
ghost use Rattle.rules_tables.specs.declared.survey.TheConstants.{MOST_SLOTS};
ghost use Rattle.rules_tables.specs.Grid.{Placed, first_free, grid};
ghost use Rattle.rules_tables.specs.GridLaws.{IsFirstFree, AllBeginApart, AreRuns, LiesWithin, IsWidth};
ghost use Rattle.rules_tables.specs.RoleLaws.{DependsOnTable, KeepsTable};
ghost use Rattle.rules_tables.specs.TableRows.{table_rows};

/// Laws of grids. It does nothing: the clauses are what it is for.
///
/// A cell begins in the first column, not before the end of the cell before it, that no cell covers in its
/// row. No cell covers the slot in which another one begins. Each row group is a run of rows; each cell covers
/// a slot, and lies within its row group. The width is the greatest covered column plus one.
#[tactic(auto, using(crate::proofs::Lawful::first_is_free, crate::proofs::Lawful::begin_apart, crate::proofs::Lawful::groups_are_runs, crate::proofs::Lawful::lie_within, crate::proofs::Lawful::width_is))]
pub fn laws_of_grids()
    ensures first { (placed : List Placed) (row from : ℕ)
        → IsFirstFree placed row from (first_free placed row from) }
    ensures apart { (table : Trees) → AllBeginApart (grid (table_rows 0 table)) }
    ensures runs { (table : Trees) → AreRuns 0 (table_rows 0 table) }
    ensures within { (table : Trees) → AllByRecursion
        (λ p. LiesWithin (table_rows 0 table) p.area) (grid (table_rows 0 table)) }
    ensures width { (table : Trees) → IsWidth (grid (table_rows 0 table)) }
{}

/// Laws of the roles of cells. It does nothing: the clauses are what it is for.
///
/// Of what is above a cell, its role depends on the nearest table alone, and this is the same for a row
/// group, a row and a cell. So what is above a header tells the role of each cell of its table.
#[tactic(auto, using(crate::proofs::RoleOfCell::depends_on_table, crate::proofs::RoleOfCell::keeps_table))]
pub fn laws_of_roles()
    ensures role { (a b : Above) (cell : Row) → DependsOnTable a b cell }
    ensures table { (above : Above) (row : Row) → KeepsTable above row }
{}

/// The numbers of the limits. It does nothing: the clauses are what it is for.
///
/// A cell spans at most 1,000 columns and 65,534 rows, and a grid of more than 100,000 slots isn't searched.
pub fn laws_of_limits()
    ensures columns { MOST_COLUMNS ≡ 1000 }
    ensures rows { MOST_ROWS ≡ 65534 }
    ensures slots { MOST_SLOTS ≡ 100000 }
{}
