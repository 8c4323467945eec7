ghost use Rattle.std.specs.Prelude.{◌≡◌, IfOk, slice_get};
ghost use Rattle.rule_core.specs.declared.info.Class.TheVariants.{Whole};
ghost use Rattle.acc_tree.specs.Seen.{seen_row};
ghost use Rattle.fixture_rules.specs.Marks.{mark_verdict, marked, finding_in, composite};

use acc_tree::{Attribute, attr};
use rule_core::{Class, Finding, Reason, RuleBook, RuleInfo, RuleNo, Verdict};
use rule_sights::row_of;
use snap_tree::{NodeId, OutOfMemory, Row, Tree};
use std::alloc::Global;
use std::marker::Model;

/// A book of which a node's attributes alt, title and lang say what rules 3, 4 and 5 find there: that it passed,
/// that it failed, or by any other value that a person has to judge. The value is the evidence. Rule 1
/// merges them all, rule 9 the third and the first. Contracts see the book as the number of its judgings
/// so far, which at the greatest `u64` stays.
#[derive(Drop)]
pub struct Marks {
    calls: u64,
}

impl Model for Marks {
    ghost use Rattle.std.specs.Prelude.{ℕ};

    ghost Value = { ℕ };

    ghost view = { λ book. book.calls };
}

impl Marks {
    /// A book that has judged nothing yet.
    pub fn new() -> Self
        ensures { result ≡ 0 }
    {
        Marks { calls: 0 }
    }
}

fn info_at(infos: &[RuleInfo], place: usize) -> Option<RuleInfo>
    ensures { result ≡ slice_get infos.now place }
{
    infos.get(place).copied()
}

fn composite(number: u16, id: &[u8; 6], inputs: [u16; 4]) -> RuleInfo
    ensures { result ≡ composite number id.now inputs }
{
    RuleInfo {
        no: RuleNo(number),
        id: *id,
        applies: Class::Whole,
        expects: Class::Whole,
        inputs,
    }
}

fn finding_in(value: &str) -> Finding
    ensures { result ≡ finding_in value.now }
{
    match value {
        "passed" => Finding::met(),
        "failed" => Finding::failed(Reason::NoName),
        _ => Finding::cant_tell(Reason::JudgeHeading),
    }
}

fn mark_verdict(alloc: Global, row: &Row, name: Attribute) -> Result<Option<Verdict>, OutOfMemory>
    ensures { IfOk result (λ verdict. verdict ≡ mark_verdict name (seen_row row.now)) }
{
    match attr(row, name) {
        Some(value) => {
            let verdict = finding_in(value.as_str()).verdict(alloc, value)?;
            Ok(Some(verdict))
        }
        None => Ok(None),
    }
}

fn marked(
    alloc: Global,
    tree: &Tree,
    name: Attribute,
    n: NodeId,
) -> Result<Option<Verdict>, OutOfMemory>
    ensures { IfOk result (λ verdict. verdict ≡ marked name tree.now n) }
{
    match row_of(tree, n) {
        Some(row) => mark_verdict(alloc, row, name),
        None => Ok(None),
    }
}

impl RuleBook for Marks {
    ghost use Rattle.std.specs.Prelude.{refl};
    ghost use Rattle.std.proofs.Common.{rules};
    ghost use Rattle.rule_core.specs.Books.{book_of};
    ghost use Rattle.rule_core.specs.BookLaws.{said_strange};
    ghost use Rattle.fixture_rules.specs.Marks.{marks};
    ghost use Rattle.fixture_rules.specs.Local.{marks_local};

    ghost book = { book_of marks };

    ghost calls = { λ book. book };

    fn info(&self, place: usize) -> Option<RuleInfo> {
        let infos = [
            composite(1, b"merge1", [3, 4, 5, 0]),
            RuleInfo::atomic(3, b"attr0a", Class::SelfOnly, Class::SelfOnly),
            RuleInfo::atomic(4, b"attr0b", Class::SelfOnly, Class::SelfOnly),
            RuleInfo::atomic(5, b"attr0c", Class::SelfOnly, Class::SelfOnly),
            composite(9, b"merge2", [5, 3, 0, 0]),
        ];
        info_at(infos.as_slice(), place)
    }

    fn judge(
        &mut self,
        alloc: Global,
        tree: &Tree,
        rule: RuleNo,
        n: NodeId,
    ) -> Result<Option<Verdict>, OutOfMemory> {
        self.calls = counts::next(self.calls);
        match rule.0 {
            3 => marked(alloc, tree, Attribute::Alt, n),
            4 => marked(alloc, tree, Attribute::Title, n),
            5 => marked(alloc, tree, Attribute::Lang, n),
            _ => Ok(None),
        }
    }

    fn calls(&self) -> u64 {
        self.calls
    }

    ghost orderly = { refl };

    ghost few = { Prim.search rules };

    ghost strange = { said_strange marks };

    ghost local = { marks_local };
}
