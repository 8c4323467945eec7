//! Looks at what is kept.

use crate::playing::Play;
use fixture_keepers::{Made, Played, failing_reads, judgements_of, kept_edition, kept_lines};
use fixture_talks::{Judged, Kept, Prepares, Reads, Step};
use fixture_words::{Difference, Wrong, bytes_differ};
use snap_tree::Text;
use std::alloc::Global;

/// The first difference between what is kept and what a step says of it; none where it is another step.
pub fn look_differs<K: Played, B: Made>(
    play: &mut Play<K, B>,
    step: &Step,
) -> Result<Option<Difference>, Wrong> {
    match step {
        Step::Kept(kept) => kept_differ(play, kept),
        Step::Prepare(line, due) => prepares_differ(play.alloc, &mut play.keeper, *line, *due),
        Step::Reads(due) => reads_differ(play.alloc, &mut play.keeper, due),
        Step::Judged(due) => judged_differ(play.alloc, &mut play.keeper, due),
        Step::Edition(line, due) => edition_differs(play.alloc, &mut play.keeper, *line, *due),
        Step::Talk(_) | Step::Run(_) => Ok(None),
    }
}

fn kept_differ<K: Played, B: Made>(
    play: &mut Play<K, B>,
    kept: &Kept,
) -> Result<Option<Difference>, Wrong> {
    let pages = kept.pages.as_slice();
    let lines = kept_lines(play.alloc, &mut play.keeper, kept.site.as_str(), pages)?;
    play.came.extend_from_slice(lines.as_bytes())?;
    match &kept.told {
        Some(told) => bytes_differ(play.alloc, kept.line, told.as_bytes(), lines.as_bytes()),
        None => Ok(None),
    }
}

fn word(prepares: Prepares) -> &'static str {
    match prepares {
        Prepares::Ready => "ready",
        Prepares::Edition(_) => "an edition",
        Prepares::Fault => "fault",
    }
}

fn prepares_differ<K: Played>(
    alloc: Global,
    keeper: &mut K,
    line: u64,
    due: Prepares,
) -> Result<Option<Difference>, Wrong> {
    let came = keeper.prepare(alloc)?;
    if came == due {
        return Ok(None);
    }
    let difference = Difference::of_texts(alloc, line, word(due), word(came))?;
    Ok(Some(difference))
}

fn judged_differ<K: Played>(
    alloc: Global,
    keeper: &mut K,
    due: &Judged,
) -> Result<Option<Difference>, Wrong> {
    let site = Text::from_str(alloc, due.site.as_str())?;
    let page = Text::from_str(alloc, due.page.as_str())?;
    let count = judgements_of(alloc, keeper, &site, &page)?.len() as u64;
    if count == due.count {
        return Ok(None);
    }
    let difference = Difference::of_numbers(alloc, due.line, "judgements", due.count, count)?;
    Ok(Some(difference))
}

fn edition_differs<K: Played>(
    alloc: Global,
    keeper: &mut K,
    line: u64,
    due: u64,
) -> Result<Option<Difference>, Wrong> {
    let came = kept_edition(alloc, keeper)?;
    if came == due {
        return Ok(None);
    }
    let difference = Difference::of_numbers(alloc, line, "edition", due, came)?;
    Ok(Some(difference))
}

fn reads_differ<K: Played>(
    alloc: Global,
    keeper: &mut K,
    due: &Reads,
) -> Result<Option<Difference>, Wrong> {
    let site = Text::from_str(alloc, due.site.as_str())?;
    let page = Text::from_str(alloc, due.page.as_str())?;
    let user = Text::from_str(alloc, "ann")?;
    let came = failing_reads(alloc, keeper, &site, &page, &user);
    if came == due.fails {
        return Ok(None);
    }
    Ok(Some(fails_differ(alloc, due.line, due.fails, came)?))
}

fn fails_differ(
    alloc: Global,
    line: u64,
    due: [bool; 8],
    came: [bool; 8],
) -> Result<Difference, Wrong> {
    Ok(Difference {
        line,
        due: format!(in alloc; "{due:?}")?,
        came: format!(in alloc; "{came:?}")?,
    })
}
