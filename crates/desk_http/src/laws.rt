ghost use Rattle.std.specs.Prelude.{◌≡◌, ◌++◌, List, length};
ghost use Rattle.rule_core.specs.Books.{Book};
ghost use Rattle.http_messages.specs.declared.item.Item.{Item};
ghost use Rattle.http_replies.specs.declared.answer.Answer.{Answer};
ghost use Rattle.desk_http.specs.Desk.{Moment};
ghost use Rattle.desk_http.specs.Serving.{SettlesEach, SettlesAll};

/// A law of items that were answered each by itself, one after another. It does nothing: the clause is what it is for.
///
/// There is a moment between any two of them, and all is said of those before it, and of those after it. So the machine
/// answered up to each of these moments at which tables are told, though a store that a fault shut tells none at the end.
#[tactic(auto, using(crate::proofs::Tables::fronts_settle))]
pub fn laws_of_items()
    ensures fronts { (book : Book) (is js : List Item) (said bs : List Answer) (old new : Moment) → length said ≡ length is
        → SettlesEach book (is ++ js) (said ++ bs) old new → (mid : Moment) × SettlesAll book is said old mid × SettlesAll book js bs mid new }
{}
