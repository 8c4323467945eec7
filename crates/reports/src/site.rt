ghost use Rattle.std.specs.Prelude.{◌≡◌, ◌++◌, codes, IfOk, OnOk};
ghost use Rattle.std.specs.List.{flat_map};
ghost use Rattle.std.specs.String.{string_bytes};
ghost use Rattle.reports.specs.Criteria.{all_criteria};
ghost use Rattle.reports.specs.TextReport.{line_end};
ghost use Rattle.reports.specs.SiteReport.{page_front, page_line, page_sums, site_sums, sums_line, criterion_line, total_front, site_report};

use crate::criterion::{CRITERIA, Criterion, criteria};
use crate::pushing::push;
use crate::sums::{Sums, page_sums};
use crate::text::totals_line;
use keep_core::SitePage;
use rule_core::RuleInfo;
use snap_tree::{OutOfMemory, Text};
use std::alloc::Global;

/// The report of a site of this name, by the rules of these infos: a line for each page, in the order of the
/// list, with its revision and its sums; a line for each success criterion; and the sums of all pages, of which
/// each stops at the greatest 64-bit number. A row of none of the rules is passed over, but under a criterion
/// all rows of the criterion's rules count. Fails only for want of memory.
#[tactic(auto, unfolding(crate::specs::SiteReport::site_report))]
pub fn site_report(
    alloc: Global,
    site: &Text,
    infos: &[RuleInfo],
    pages: &[SitePage],
) -> Result<Vec<u8>, OutOfMemory>
    ensures { IfOk result (λ report. report.items ≡ site_report site.now infos.now pages.now) }
{
    let mut report = Vec::new(alloc);
    push_site(&mut report, site)?;
    let sums = push_pages(alloc, &mut report, infos, pages)?;
    push_criteria(&mut report, pages)?;
    push_total(alloc, &mut report, pages.len(), sums)?;
    Ok(report)
}

fn push_site(report: &mut Vec<u8>, site: &Text) -> Result<(), OutOfMemory>
    ensures { OnOk result (report.new.items ≡ report.old.items ++ (codes "site " ++ site.now ++ line_end)) }
{
    push(report, b"site ")?;
    push(report, site.as_str().as_bytes())?;
    push(report, b"\n")
}

// Adds the lines of the pages; gives their sums.
fn push_pages(
    alloc: Global,
    report: &mut Vec<u8>,
    infos: &[RuleInfo],
    pages: &[SitePage],
) -> Result<Sums, OutOfMemory>
    ensures lines { OnOk result (report.new.items ≡ report.old.items ++ flat_map (page_line infos.now) pages.now) }
    ensures sums { IfOk result (λ sums. sums ≡ site_sums infos.now pages.now) }
{
    let mut sums = Sums::none();
    for page in pages {
        let here = push_page(alloc, report, infos, page)?;
        sums = sums.and(here);
    }
    Ok(sums)
}

// Adds the line of a page; gives its sums.
#[tactic(auto, unfolding(crate::specs::SiteReport::page_line))]
fn push_page(
    alloc: Global,
    report: &mut Vec<u8>,
    infos: &[RuleInfo],
    page: &SitePage,
) -> Result<Sums, OutOfMemory>
    ensures line { OnOk result (report.new.items ≡ report.old.items ++ page_line infos.now page.now) }
    ensures sums { IfOk result (λ sums. sums ≡ page_sums infos.now page.now.outcomes.rows) }
{
    let sums = page_sums(infos, page.outcomes.rows.as_slice());
    let front = page_front(alloc, page)?;
    push_sums(alloc, report, front.as_str(), sums)?;
    Ok(sums)
}

// What stands in the line of a page before its sums.
#[tactic(auto, unfolding(crate::specs::SiteReport::page_front))]
fn page_front(alloc: Global, page: &SitePage) -> Result<String, OutOfMemory>
    ensures { IfOk result (λ t. string_bytes t ≡ page_front page.now) }
{
    let name = page.head.page.as_str();
    let rev = page.head.rev;
    Ok(format!(in alloc; "page {name} rev {rev} ")?)
}

// Adds sums and what stands before them in their line.
fn push_sums(
    alloc: Global,
    report: &mut Vec<u8>,
    front: &str,
    sums: Sums,
) -> Result<(), OutOfMemory>
    ensures { OnOk result (report.new.items ≡ report.old.items ++ (front.now ++ sums_line sums)) }
{
    push(report, front.as_bytes())?;
    let line = totals_line(
        alloc,
        sums.passed,
        sums.failed,
        sums.cant_tell,
        sums.inapplicable,
    )?;
    push(report, line.as_bytes())
}

// Adds the lines of the criteria.
fn push_criteria(report: &mut Vec<u8>, pages: &[SitePage]) -> Result<(), OutOfMemory>
    ensures { OnOk result (report.new.items ≡ report.old.items ++ flat_map (criterion_line pages.now) all_criteria) }
{
    for criterion in CRITERIA.as_slice() {
        push_criterion(report, pages, *criterion)?;
    }
    Ok(())
}

#[tactic(auto, unfolding(crate::specs::SiteReport::criterion_line))]
fn push_criterion(
    report: &mut Vec<u8>,
    pages: &[SitePage],
    criterion: Criterion,
) -> Result<(), OutOfMemory>
    ensures { OnOk result (report.new.items ≡ report.old.items ++ criterion_line pages.now criterion) }
{
    push(report, b"criterion ")?;
    push(report, criterion.number().as_bytes())?;
    push(report, b" ")?;
    push(report, criterion.level().word().as_bytes())?;
    push(report, b" ")?;
    push(report, criteria(pages, criterion).word().as_bytes())?;
    push(report, b"\n")
}

// Adds the last line, of so many pages with these sums.
fn push_total(
    alloc: Global,
    report: &mut Vec<u8>,
    pages: usize,
    sums: Sums,
) -> Result<(), OutOfMemory>
    ensures { OnOk result (report.new.items ≡ report.old.items ++ (total_front pages ++ sums_line sums)) }
{
    let front = total_front(alloc, pages)?;
    push_sums(alloc, report, front.as_str(), sums)
}

// What stands in the last line before its sums.
#[tactic(auto, unfolding(crate::specs::SiteReport::total_front))]
fn total_front(alloc: Global, pages: usize) -> Result<String, OutOfMemory>
    ensures { IfOk result (λ t. string_bytes t ≡ total_front pages) }
{
    Ok(format!(in alloc; "total pages {pages} ")?)
}
