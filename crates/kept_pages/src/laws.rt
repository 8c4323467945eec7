ghost use Rattle.std.specs.Prelude.{◌≡◌, List, ℕ, map, Some};
ghost use Rattle.std.specs.List.{All};
ghost use Rattle.keep_core.specs.declared.tables.KeptPage.{KeptPage};
ghost use Rattle.keep_core.specs.declared.tables.Tables.{Tables};
ghost use Rattle.keep_core.specs.Tables.{page_name, kept_page, pages_of};
ghost use Rattle.keep_core.specs.Fits.{FitTables};
ghost use Rattle.kept_pages.specs.KeptPages.{shown, site_pages};

/// The pages of a site are all that are kept of it, in their order, where the tables are of rows that fit, and each is
/// found by its name. It does nothing: the clauses are what it is for.
pub fn laws_of_kept_pages()
    ensures all { (site : List ℕ) (t : Tables) → FitTables t → site_pages site t ≡ map shown (pages_of site t) }
    ensures each { (site : List ℕ) (t : Tables) → FitTables t → All (λ (p : KeptPage). kept_page site (page_name p) t ≡ Some p) (pages_of site t) }
{}
