ghost use Rattle.std.specs.Prelude.{◌≡◌, [], ◌∷◌, ◌++◌, map, if◌then◌else◌, IfOk, OnOk};
ghost use Rattle.std.specs.List.{flat_map};
ghost use Rattle.csv.specs.Writing.{row_text, default_writer};
ghost use Rattle.reports.specs.TextReport.{is_of};
ghost use Rattle.reports.specs.Table.{header, record_of, rule_records, page_records, site_records, written, csv_rows};
ghost use Rattle.reports.specs.Writing.{Adds};

use crate::text::{is_of, outcome_word};
use csv::{Writer, WriterBuilder};
use itoa::Buffer;
use judge_core::OutRow;
use keep_core::SitePage;
use rule_core::RuleInfo;
use snap_tree::{OutOfMemory, Text};
use std::alloc::Global;
use std::io::Write;

/// The outcomes of a site as CSV (RFC 4180), as the crate `csv` writes it: a header, and then a record for each
/// row, page by page in the order of the list, rule by rule, and the rows of a rule in the order of the
/// outcomes. Each line ends with a line feed alone. A row of none of the rules of these infos is passed over.
/// Fails only for want of memory.
#[tactic(auto, unfolding(crate::specs::Table::csv_rows))]
pub fn csv_rows(
    alloc: Global,
    site: &Text,
    infos: &[RuleInfo],
    pages: &[SitePage],
) -> Result<Vec<u8>, OutOfMemory>
    ensures { IfOk result (λ rows. rows.items ≡ csv_rows site.now infos.now pages.now) }
{
    let mut writer = WriterBuilder::new().from_writer(Vec::new(alloc));
    push_header(&mut writer)?;
    push_pages(&mut writer, site, infos, pages)?;
    match writer.into_inner() {
        Ok(rows) => Ok(rows),
        Err(_) => Err(OutOfMemory),
    }
}

// Adds a record. Over memory, want of memory alone keeps it from being written.
fn push_record<W: Write + Drop>(writer: &mut Writer<W>, fields: &[&[u8]]) -> Result<(), OutOfMemory>
    ensures { OnOk result (Adds W.contents writer.old writer.new (row_text default_writer (map (λ field. field.now) fields.now))) }
{
    match writer.write_fields(fields) {
        Ok(()) => Ok(()),
        Err(_) => Err(OutOfMemory),
    }
}

// Adds a record of these fields.
fn push_fields<'a, W: Write + Drop>(
    writer: &mut Writer<W>,
    site: &'a [u8],
    page: &'a [u8],
    rev: &'a [u8],
    node: &'a [u8],
    rule: &'a [u8],
    outcome: &'a [u8],
    automatic: &'a [u8],
    reason: &'a [u8],
    judge: &'a [u8],
) -> Result<(), OutOfMemory>
    ensures { OnOk result (Adds W.contents writer.old writer.new (row_text default_writer
        (site.now ∷ page.now ∷ rev.now ∷ node.now ∷ rule.now ∷ outcome.now ∷ automatic.now ∷ reason.now ∷ judge.now ∷ []))) }
{
    push_record(
        writer,
        &[
            site, page, rev, node, rule, outcome, automatic, reason, judge,
        ],
    )
}

fn push_header<W: Write + Drop>(writer: &mut Writer<W>) -> Result<(), OutOfMemory>
    ensures { OnOk result (Adds W.contents writer.old writer.new (row_text default_writer header)) }
{
    push_fields(
        writer,
        b"site",
        b"page",
        b"rev",
        b"node",
        b"rule",
        b"outcome",
        b"automatic",
        b"reason",
        b"judge",
    )
}

// Adds the records of some pages.
fn push_pages<W: Write + Drop>(
    writer: &mut Writer<W>,
    site: &Text,
    infos: &[RuleInfo],
    pages: &[SitePage],
) -> Result<(), OutOfMemory>
    ensures { OnOk result (Adds W.contents writer.old writer.new (written (site_records site.now infos.now pages.now))) }
{
    for page in pages {
        push_page(writer, site, infos, page)?;
    }
    Ok(())
}

// Adds the records of a page.
fn push_page<W: Write + Drop>(
    writer: &mut Writer<W>,
    site: &Text,
    infos: &[RuleInfo],
    page: &SitePage,
) -> Result<(), OutOfMemory>
    ensures { OnOk result (Adds W.contents writer.old writer.new (written (page_records site.now infos.now page.now))) }
{
    for info in infos {
        push_rule(writer, site, page, info)?;
    }
    Ok(())
}

// Adds the records of a rule on a page.
fn push_rule<W: Write + Drop>(
    writer: &mut Writer<W>,
    site: &Text,
    page: &SitePage,
    info: &RuleInfo,
) -> Result<(), OutOfMemory>
    ensures { OnOk result (Adds W.contents writer.old writer.new (written (rule_records site.now page.now info.now))) }
{
    for row in page.outcomes.rows.as_slice() {
        push_row(writer, site, page, info, row)?;
    }
    Ok(())
}

// Adds the record of a row, where it is of the rule.
fn push_row<W: Write + Drop>(
    writer: &mut Writer<W>,
    site: &Text,
    page: &SitePage,
    info: &RuleInfo,
    row: &OutRow,
) -> Result<(), OutOfMemory>
    ensures { OnOk result (Adds W.contents writer.old writer.new ((if is_of info.now row.now then row_text default_writer (record_of site.now page.now info.now row.now) else []))) }
{
    if is_of(info, row) {
        push_row_of(writer, site, page, info, row)
    } else {
        Ok(())
    }
}

// Adds the record of a rule's row on a page.
fn push_row_of<W: Write + Drop>(
    writer: &mut Writer<W>,
    site: &Text,
    page: &SitePage,
    info: &RuleInfo,
    row: &OutRow,
) -> Result<(), OutOfMemory>
    ensures { OnOk result (Adds W.contents writer.old writer.new (row_text default_writer (record_of site.now page.now info.now row.now))) }
{
    let mut rev = Buffer::new();
    let mut node = Buffer::new();
    push_fields(
        writer,
        site.as_str().as_bytes(),
        page.head.page.as_str().as_bytes(),
        rev.format(page.head.rev).as_bytes(),
        node.format(row.node.0).as_bytes(),
        info.id.as_slice(),
        outcome_word(row.last).as_bytes(),
        outcome_word(row.auto).as_bytes(),
        row.reason.word().as_bytes(),
        row.hand.as_str().as_bytes(),
    )
}
