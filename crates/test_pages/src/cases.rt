//! Goes through the cases of a file.

use crate::answers::answer;
use crate::sources::State;
use fixture_sketches::{Spot, Step, Tally, Trouble, steps_of};
use std::alloc::Global;

/// Tries all cases of a file.
pub(crate) fn try_file(
    alloc: Global,
    tally: &mut Tally,
    file: &str,
    text: &str,
) -> Result<(), Trouble> {
    let mut lines = Vec::new(alloc);
    for (place, line) in text.lines().enumerate() {
        let line = line.trim_end();
        if line.starts_with("== ") {
            try_case(alloc, tally, file, lines.as_slice())?;
            lines.clear();
        } else if !line.is_empty() && !line.starts_with('#') {
            lines.push((place.saturating_add(1), line))?;
        }
    }
    try_case(alloc, tally, file, lines.as_slice())
}

// Tries a case: once, or once for each row of its table.
fn try_case(
    alloc: Global,
    tally: &mut Tally,
    file: &str,
    lines: &[(usize, &str)],
) -> Result<(), Trouble> {
    let mut rows = Vec::new(alloc);
    let mut steps = Vec::new(alloc);
    let mut is_table = false;
    for (at, line) in lines {
        if is_table {
            rows.push((*at, *line))?;
        } else if *line == "each" {
            is_table = true;
        } else {
            steps.push((*at, *line))?;
        }
    }
    if !is_table {
        return try_row(alloc, tally, Spot { file, row: 0 }, steps.as_slice(), "");
    }
    for (row, cells) in rows.as_slice() {
        try_row(
            alloc,
            tally,
            Spot { file, row: *row },
            steps.as_slice(),
            cells,
        )?;
    }
    Ok(())
}

fn try_row(
    alloc: Global,
    tally: &mut Tally,
    spot: Spot<'_>,
    lines: &[(usize, &str)],
    row: &str,
) -> Result<(), Trouble> {
    let mut cells = Vec::new(alloc);
    for cell in row.split('|') {
        cells.push(cell.trim())?;
    }
    match steps_of(alloc, lines, cells.as_slice()) {
        Ok(steps) => try_steps(alloc, tally, spot, steps.as_slice()),
        Err(trouble) => tally.miss(spot, spot.row, "steps", trouble.said()),
    }
}

fn try_steps(
    alloc: Global,
    tally: &mut Tally,
    spot: Spot<'_>,
    steps: &[Step],
) -> Result<(), Trouble> {
    let mut state = State::new(alloc);
    for step in steps {
        try_step(alloc, tally, spot, &mut state, step)?;
    }
    Ok(())
}

fn try_step(
    alloc: Global,
    tally: &mut Tally,
    spot: Spot<'_>,
    state: &mut State,
    step: &Step,
) -> Result<(), Trouble> {
    match state.take(step) {
        Ok(true) => return Ok(()),
        Ok(false) => (),
        Err(trouble) => return tally.miss(spot, step.at, "a page", trouble.said()),
    }
    let wanted = match state.wanted(step) {
        Ok(wanted) => wanted,
        Err(trouble) => return tally.miss(spot, step.at, "a page", trouble.said()),
    };
    let got = match answer(alloc, state, step.words.as_str()) {
        Ok(got) => got,
        Err(trouble) => return tally.miss(spot, step.at, first_of(step), trouble.said()),
    };
    let wanted = wanted.as_ref().unwrap_or(&step.block);
    tally.compare(spot, step.at, wanted.as_slice(), got.as_slice())
}

fn first_of(step: &Step) -> &str {
    step.block
        .first()
        .map_or("nothing", |line| line.text.trim())
}
