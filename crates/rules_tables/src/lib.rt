//! Rules on tables, each a published ACT rule restated: whether `headers` refers to cells of the same
//! table, and whether a header has cells. Where a cell is placed is HTML's "forming a table", by this
//! profile (`docs/tables.md`). Start with `HeaderHasCells`.
#![tactic(auto)]

mod assigned;
mod bearers;
mod cells;
mod grid;
mod header_has_cells;
mod headers_refer_to_cells;
mod heads;
mod laws;
mod spans;
mod survey;
mod table_ids;
mod table_rows;
mod tables;

pub use cells::{CellPlace, cell_places};
pub use grid::Area;
pub use header_has_cells::HeaderHasCells;
pub use headers_refer_to_cells::HeadersReferToCells;
pub use laws::{laws_of_grids, laws_of_limits, laws_of_roles};
