ghost use Rattle.std.specs.Prelude.{◌≡◌, ℕ, List, Some, None, option_map};
ghost use Rattle.judge_core.specs.declared.judgement.Judgement.{Judgement};
ghost use Rattle.judge_core.specs.declared.outcomes.Outcomes.{Outcomes};
ghost use Rattle.keep_core.specs.declared.site.Site.{Site};
ghost use Rattle.keep_core.specs.declared.page.PagePut.{PagePut};
ghost use Rattle.keep_core.specs.declared.page.PageOutcomes.{PageOutcomes};
ghost use Rattle.keep_core.specs.declared.change.Change.{Change};
ghost use Rattle.keep_core.specs.declared.change.Change.TheVariants as change;
ghost use Rattle.keep_core.specs.declared.tables.Tables.{Tables};
ghost use Rattle.keep_core.specs.Tables.{kept_site, kept_page, pages_of, judgements_of};
ghost use Rattle.keep_core.specs.Changes.{changed, site_changed, with_judgements, refreshed, with_languages};
ghost use Rattle.keep_core.specs.Fits.{Fits, FitTables};

/// Laws of changes. It does nothing: the clauses are what it is for.
///
/// Tables that fit stay so by a change that fits, and every other site stays with all that is kept of it. A
/// site that is put has the pages that it had, and pages that are put have the judgements that they had. A page
/// that is dropped is gone, and judgements go to the end of their page's list. A list of languages, and new outcomes,
/// are those of the site for which they are given.
pub fn laws_of_changes()
    ensures fit { (c : Change) (tables : Tables) → Fits c → FitTables tables → FitTables (changed c tables) }
    ensures others_stay { (c : Change) (tables : Tables) (site : List ℕ) → (Some site ≡ site_changed c → ⊥)
        → kept_site site (changed c tables) ≡ kept_site site tables }
    ensures site_put { (site : Site) (tables : Tables) → kept_site site.name (changed (change.PutSite site) tables)
        ≡ Some (record { site = site; pages = pages_of site.name tables }) }
    ensures judgements_stay { (site : List ℕ) (counter : ℕ) (puts : List PagePut) (tables : Tables) (page : List ℕ)
        → judgements_of site page (changed (change.PutPages site counter puts) tables) ≡ judgements_of site page tables }
    ensures page_dropped { (site page : List ℕ) (tables : Tables) → FitTables tables
        → kept_page site page (changed (change.DropPage site page) tables) ≡ None }
    ensures page_judged { (site page : List ℕ) (js : List Judgement) (outcomes : Outcomes) (tables : Tables)
        → kept_page site page (changed (change.AddJudgements site page js outcomes) tables)
        ≡ option_map (with_judgements js outcomes) (kept_page site page tables) }
    ensures relisted { (site : List ℕ) (languages : List (List ℕ)) (new : List PageOutcomes) (tables : Tables)
        → kept_site site (changed (change.PutLanguages site languages new) tables)
        ≡ option_map (with_languages languages new) (kept_site site tables) }
    ensures refreshed { (site : List ℕ) (new : List PageOutcomes) (tables : Tables)
        → kept_site site (changed (change.Refresh site new) tables) ≡ option_map (refreshed new) (kept_site site tables) }
{}
