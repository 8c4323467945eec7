ghost use Rattle.std.specs.Prelude.{◌≡◌, ℕ, List, Some};
ghost use Rattle.keep_core.specs.declared.change.Change.{Change};
ghost use Rattle.keep_core.specs.Fits.{Fits};
ghost use Rattle.keep_core.specs.Changes.{changed};
ghost use Rattle.keep_core.specs.declared.tables.Tables.{Tables};
ghost use Rattle.keep_core.specs.Tables.{edition_of, sites_of, site_of, memberships_of, page_of, heads_of, judgements_of, outcomes_of};
ghost use Rattle.store_statements.specs.Stored.{Stored, editions_at, names_at, site_at, members_at, memberships_at, page_at, heads_at, judgements_at, outcomes_at, languages_at};
ghost use Rattle.store_tables.specs.Batches.{Applies};
ghost use Rattle.store_tables.specs.Numbers.{IsNumbered};
ghost use Rattle.store_tables.specs.Editions.{kept_edition};
ghost use Rattle.store_tables.specs.Members.{memberships_shown};
ghost use Rattle.store_tables.specs.Sites.{site_shown, names_shown};
ghost use Rattle.store_tables.specs.Pages.{page_shown, heads_shown};
ghost use Rattle.store_tables.specs.Judgements.{judgements_shown};
ghost use Rattle.store_tables.specs.Outcomes.{outcomes_shown};
ghost use Rattle.store_tables.specs.Told.{tables_in};

/// Laws of reading. It does nothing: the clauses are what it is for.
///
/// Where stored rows tell tables, what the reading texts show of the rows reads, and it reads as what the tables have: the
/// edition, the names of the sites, a site with its members and its languages, the sites of which a user is a member, a page, the heads of a site's
/// pages, and a page's judgements and outcomes.
pub fn laws_of_reading()
    ensures edition { (s : Stored) (t : Tables) → tables_in s ≡ Some t → kept_edition (editions_at s) ≡ Some (edition_of t) }
    ensures names { (s : Stored) (t : Tables) → tables_in s ≡ Some t → names_shown (names_at s) ≡ Some (sites_of t) }
    ensures site { (s : Stored) (t : Tables) → tables_in s ≡ Some t → (site : List ℕ)
        → site_shown site (site_at site s) (members_at site s) (languages_at site s) ≡ Some (site_of site t) }
    ensures memberships { (s : Stored) (t : Tables) → tables_in s ≡ Some t → (user : List ℕ)
        → memberships_shown (memberships_at user s) ≡ Some (memberships_of user t) }
    ensures page { (s : Stored) (t : Tables) → tables_in s ≡ Some t → (site page : List ℕ)
        → page_shown page (page_at site page s) ≡ Some (page_of site page t) }
    ensures heads { (s : Stored) (t : Tables) → tables_in s ≡ Some t → (site : List ℕ)
        → heads_shown (heads_at site s) ≡ Some (heads_of site t) }
    ensures judgements { (s : Stored) (t : Tables) → tables_in s ≡ Some t → (site page : List ℕ)
        → judgements_shown (judgements_at site page s) ≡ Some (judgements_of site page t) }
    ensures outcomes { (s : Stored) (t : Tables) → tables_in s ≡ Some t → (site page : List ℕ)
        → outcomes_shown (outcomes_at site page s) ≡ Some (outcomes_of site page t) }
{}

/// Laws of changes. It does nothing: the clauses are what it is for.
///
/// A change is made of stored rows that read, in place of those that it replaces or drops. Where the rows tell tables
/// afterwards, they told tables before too, and the change of those is these. Where they told tables before, and the rules
/// and nodes of the change have their numbers, the rows tell the change of those afterwards.
pub fn laws_of_changes()
    ensures applied { (c : Change) (old new : Stored) → Applies c old new → Fits c
        → (t : Tables) → tables_in new ≡ Some t → (before : Tables) × (tables_in old ≡ Some before) × (t ≡ changed c before) }
    ensures tells { (c : Change) (old new : Stored) → Applies c old new → Fits c → IsNumbered c
        → (before : Tables) → tables_in old ≡ Some before → tables_in new ≡ Some (changed c before) }
{}
