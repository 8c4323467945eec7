ghost use Rattle.std.specs.Prelude.{◌≡◌, ◌≢◌, ◌<◌, ◌≤◌, [], ◌∷◌, ◌++◌, List, ℕ, Option, option_map, None, Ok, IfSome};
ghost use Rattle.std.specs.List.{All};
ghost use Rattle.rule_core.specs.Books.{Book};
ghost use Rattle.keep_core.specs.declared.change.Change.{Change};
ghost use Rattle.keep_core.specs.declared.change.Change.TheVariants as change;
ghost use Rattle.keep_core.specs.declared.page.PageOutcomes.{PageOutcomes};
ghost use Rattle.keep_core.specs.declared.tables.Tables.{Tables};
ghost use Rattle.keep_core.specs.Changes as tables;
ghost use Rattle.keep_core.specs.Fits.{Fits, IsThere};
ghost use Rattle.earl_in.specs.declared.claim.Claim.{Claim};
ghost use Rattle.desk_core.specs.declared.command.Command.TheVariants as command;
ghost use Rattle.desk_core.specs.declared.decided.Decided.{Decided};
ghost use Rattle.desk_core.specs.declared.reply.Reply.{Reply};
ghost use Rattle.desk_core.specs.Memberships.{memberships};
ghost use Rattle.desk_core.specs.Rights.{role_of};
ghost use Rattle.desk_core.specs.State.{State, SiteState, state_of, site_at, page_in_site};
ghost use Rattle.desk_core.specs.Changes.{with_judgements, changed, after};
ghost use Rattle.desk_core.specs.Claiming.{taken_on};
ghost use Rattle.desk_core.specs.Between.{NoneRenews, AddsNothing};
ghost use Rattle.desk_core.specs.Steps.{Request, asked_by, site_of, OfSite, decided, step};
ghost use Rattle.desk_core.specs.Runs.{Runs};
ghost use Rattle.desk_core.specs.Fitting.{FitsRequest};
ghost use Rattle.desk_core.specs.Soundness.{IsNearlySound, IsSound, made};
ghost use Rattle.desk_core.specs.Refreshing.{book_edition, MayBegin, IsOnTheWay, IsFresh, AreAllFresh};
ghost use Rattle.desk_core.specs.Once.{IsOnce, IsRefused, Refuses, IsFor};
ghost use Rattle.desk_core.specs.Revisions.{counter_of, revision_of, Rises, Carries, Puts};

/// Laws of the state that tables give. It does nothing: the clauses are what it is for.
///
/// The state after a change of the tables is what the change makes of their state.
#[tactic(auto, using(crate::proofs::Views::changes_seen))]
pub fn laws_of_views()
    ensures changed { (c : Change) (t : Tables) → state_of (tables.changed c t) ≡ changed c (state_of t) }
{}

/// Laws of soundness. It does nothing: the clauses are what it is for.
///
/// Tables without a site are sound, and sound tables are nearly sound. What is decided on a request that fits, over sound tables, is a change
/// that fits and whose site and page are there; and the tables are sound after it.
#[tactic(auto, using(crate::proofs::Keeping::none_sound, crate::proofs::Keeping::nearly_sound, crate::proofs::Keeping::change_fits, crate::proofs::Keeping::change_there))]
pub fn laws_of_soundness()
    ensures none { (book : Book) (edition : ℕ) → IsSound book (record { edition = edition; sites = [] }) }
    ensures nearly { (book : Book) (t : Tables) → IsSound book t → IsNearlySound t }
    ensures fits { (book : Book) (q : Request) (t : Tables) (d : Decided) → FitsRequest book q → IsSound book t
        → decided book q (state_of t) ≡ Ok d → IfSome d.change Fits }
    ensures there { (book : Book) (q : Request) (t : Tables) (d : Decided)
        → decided book q (state_of t) ≡ Ok d → IfSome d.change (λ change. IsThere change t) }
    ensures kept { (book : Book) (q : Request) (t : Tables) (d : Decided) → FitsRequest book q → IsSound book t
        → decided book q (state_of t) ≡ Ok d → IsSound book (made d.change t) }
{}

/// Laws of the refresh. It does nothing: the clauses are what it is for.
///
/// Where the edition is set to 0, and was another than the book's, the tables are on the way; outcomes of pages leave
/// them there; and where all outcomes are by the book, and its edition is set, they are fresh. So before and after each
/// batch of a refresh the tables are as they were, or on the way, or fresh.
#[tactic(auto, using(crate::proofs::Refreshing::begun, crate::proofs::Refreshing::ended))]
pub fn laws_of_refresh()
    ensures begun { (book : Book) (s : Tables) → MayBegin book s → s.edition ≢ book_edition book
        → IsOnTheWay book s (tables.changed (change.SetEdition 0) s) }
    ensures gone_on { (book : Book) (s t : Tables) (site : List ℕ) (new : List PageOutcomes) → IsOnTheWay book s t
        → IsOnTheWay book s (tables.changed (change.Refresh site new) t) }
    ensures ended { (book : Book) (s t : Tables) → IsOnTheWay book s t → AreAllFresh book t
        → IsFresh book s (tables.changed (change.SetEdition (book_edition book)) t) }
{}

/// Laws of requests that are sent again. It does nothing: the clauses are what it is for.
///
/// A request that is sent again at once changes nothing. One that was accepted and made a site, or put,
/// edited or dropped pages, is refused then: the site exists, the page isn't there, or the revision isn't
/// the page's any more, unless the site can give no revision more.
#[tactic(auto, using(crate::proofs::Again::again_changes_nothing, crate::proofs::Refusing::refused_then))]
pub fn laws_of_requests()
    ensures again { (book : Book) (q : Request) (t : Tables) → FitsRequest book q → IsSound book t
        → (step book (step book (state_of t) q).0 q).0 ≡ (step book (state_of t) q).0 }
    ensures once { (book : Book) (q : Request) (t : Tables) (d : Decided) → FitsRequest book q → IsSound book t
        → IsOnce q.command → decided book q (state_of t) ≡ Ok d
        → Refuses (IsFor q.command) (decided book q (after d.change (state_of t))) }
{}

/// Laws of what is taken from another tool. It does nothing: the clauses are what it is for.
///
/// Where claims on a page are accepted, all other pages stay, and so does all of this one but its list of judgements.
/// What the definition of taking adds goes to the end of that list. Claims that were accepted and are sent again by the
/// same caller add nothing, whatever was asked between, as long as nothing that was accepted put, edited, imported or
/// dropped the page, or set its site's languages.
pub fn laws_of_claims()
    ensures alone { (book : Book) (caller site page : List ℕ) (claims : List (Option Claim)) (state : State) (d : Decided)
        → decided book (asked_by caller (command.TakeEarl site page claims)) state ≡ Ok d → (n : List ℕ) → (n ≡ page → ⊥)
        → page_in_site site n (after d.change state) ≡ page_in_site site n state }
    ensures added { (book : Book) (caller site page : List ℕ) (claims : List (Option Claim)) (state : State) (d : Decided)
        → decided book (asked_by caller (command.TakeEarl site page claims)) state ≡ Ok d
        → page_in_site site page (after d.change state)
        ≡ option_map (λ p. with_judgements (taken_on book caller claims p).added p) (page_in_site site page state) }
    ensures again { (book : Book) (caller site page : List ℕ) (claims : List (Option Claim)) (t : Tables) (d : Decided)
        (requests : List Request) (replies : List Reply) (new : State) (from to : ℕ) → IsSound book t
        → FitsRequest book (asked_by caller (command.TakeEarl site page claims))
        → decided book (asked_by caller (command.TakeEarl site page claims)) (state_of t) ≡ Ok d
        → All (FitsRequest book) requests → Runs book (after d.change (state_of t)) requests replies new from to
        → NoneRenews site page requests replies
        → AddsNothing (decided book (asked_by caller (command.TakeEarl site page claims)) new) }
{}

/// Laws of sites. It does nothing: the clauses are what it is for.
///
/// A request leaves all sites but the one that it names, and what is decided on it depends on the row of
/// that site alone. A request for the caller's memberships names none: it depends on these alone, and a site of
/// which the caller is no member is none of them.
#[tactic(auto, using(crate::proofs::Sites::other_sites_stay, crate::proofs::Sites::decided_by_site, crate::proofs::Sites::decided_by_own, crate::proofs::Sites::strange))]
pub fn laws_of_sites()
    ensures others { (book : Book) (q : Request) (state : State) (n : List ℕ)
        → (n ≡ site_of q.command → ⊥) → site_at n (step book state q).0 ≡ site_at n state }
    ensures alone { (book : Book) (q : Request) (one other : State) → OfSite q.command
        → site_at (site_of q.command) one ≡ site_at (site_of q.command) other
        → decided book q one ≡ decided book q other }
    ensures own { (book : Book) (caller : List ℕ) (one other : State)
        → memberships caller one ≡ memberships caller other
        → decided book (asked_by caller command.GetMemberships) one ≡ decided book (asked_by caller command.GetMemberships) other }
    ensures strange { (caller : List ℕ) (before after : State) (s : SiteState)
        → role_of caller s.site.members ≡ None
        → memberships caller (before ++ s ∷ after) ≡ memberships caller (before ++ after) }
{}

/// Laws of revisions. It does nothing: the clauses are what it is for.
///
/// No page has a revision above its site's counter. The counter never falls, and a page keeps its revision,
/// goes, or gets one above the counter; each page that an accepted request puts or edits gets such a one. So
/// it is greater than every revision that a page of the site had before, however many requests ago, and of all
/// requests in a run that carry one revision of a page, other than 0, at most one is accepted.
pub fn laws_of_revisions()
    ensures within { (book : Book) (t : Tables) (site page : List ℕ) → IsSound book t
        → revision_of page (site_at site (state_of t)) ≤ counter_of (site_at site (state_of t)) }
    ensures rises { (book : Book) (q : Request) (t : Tables) (site page : List ℕ) → IsSound book t
        → Rises page (site_at site (state_of t)) (site_at site (step book (state_of t) q).0) }
    ensures newer { (book : Book) (q : Request) (t : Tables) (d : Decided) (page : List ℕ) (rev : ℕ) → IsSound book t
        → Puts page rev q.command → decided book q (state_of t) ≡ Ok d
        → counter_of (site_at (site_of q.command) (state_of t))
        < revision_of page (site_at (site_of q.command) (after d.change (state_of t))) }
    ensures newest { (book : Book) (t : Tables) (requests : List Request) (replies : List Reply) (new : State)
        (from to : ℕ) (q : Request) (d : Decided) (page other : List ℕ) (rev : ℕ) → IsSound book t
        → All (FitsRequest book) requests → Runs book (state_of t) requests replies new from to
        → Puts page rev q.command → decided book q new ≡ Ok d
        → revision_of other (site_at (site_of q.command) (state_of t))
        < revision_of page (site_at (site_of q.command) (after d.change new)) }
    ensures once { (book : Book) (t : Tables) (q later : Request) (d : Decided) (requests : List Request)
        (replies : List Reply) (new : State) (from to : ℕ) (page : List ℕ) (rev : ℕ) → 1 ≤ rev
        → IsSound book t → FitsRequest book q → decided book q (state_of t) ≡ Ok d
        → All (FitsRequest book) requests → Runs book (after d.change (state_of t)) requests replies new from to
        → site_of later.command ≡ site_of q.command → Carries page rev q.command → Carries page rev later.command
        → IsRefused (decided book later new) }
{}
