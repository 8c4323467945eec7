ghost use Rattle.std.specs.Prelude.{◌≡◌, map, IfOk};

use named_rows::{Named, Place, Rows, laws_of_lookups, laws_of_order, laws_of_views};
use std::alloc::Global;
use std::process::Abort;
use std::test::Fail;
use texts::{OutOfMemory, Text};

#[derive(Drop)]
struct Line {
    label: Text,
    value: u8,
}

impl Named for Line {
    ghost name = { λ l. l.label };

    fn name(&self) -> &Text {
        &self.label
    }
}

// Rows in the order in which they are put, and as they stand then: by the bytes of their names, the last that was
// put of each name.
static PUT: [(&str, u8); 6] = [("b", 1), ("a", 2), ("b", 3), ("ab", 4), ("", 5), ("B", 6)];

static STANDING: [(&str, u8); 5] = [("", 5), ("B", 6), ("a", 2), ("ab", 4), ("b", 3)];

static WITHOUT_AB: [(&str, u8); 4] = [("", 5), ("B", 6), ("a", 2), ("b", 3)];

fn labelled(alloc: Global, label: &str, value: u8) -> Result<Line, OutOfMemory> {
    let label = Text::from_str(alloc, label)?;
    Ok(Line { label, value })
}

fn lines(alloc: Global, rows: &[(&str, u8)]) -> Result<Vec<Line>, OutOfMemory> {
    let mut made = Vec::new(alloc);
    for (label, value) in rows {
        made.push(labelled(alloc, label, *value)?)?;
    }
    Ok(made)
}

fn assert_stand(rt: &impl Abort, rows: &Rows<Line>, wanted: &[(&str, u8)]) {
    assert_eq!(rt; rows.as_slice().len(), wanted.len());
    for (row, (label, value)) in rows.as_slice().iter().zip(wanted) {
        assert_eq!(rt; row.label.as_str(), *label);
        assert_eq!(rt; row.value, *value, "{label}");
    }
}

#[test]
fn rows_stand_in_byte_order(rt: HostRuntime) -> Result<(), Fail> {
    let alloc = rt.alloc();
    let mut rows = Rows::new(alloc);
    rows.put_all(lines(alloc, PUT.as_slice())?)?;
    assert_stand(&rt, &rows, STANDING.as_slice());
    let ab = Text::from_str(alloc, "ab")?;
    assert_eq!(rt; rows.get(&ab).map(|row| row.value), Some(4));
    assert_eq!(rt; rows.place(&ab), Place::Found(3));
    rows.take(&ab);
    assert_stand(&rt, &rows, WITHOUT_AB.as_slice());
    assert!(rt; rows.get(&ab).is_none());
    assert_eq!(rt; rows.place(&ab), Place::Vacant(3));
    rows.put(labelled(alloc, "ab", 4)?)?;
    assert_stand(&rt, &rows, STANDING.as_slice());
    if rows.as_slice().len() > 3 {
        rows.at_mut(3).value = 9;
    }
    let kept = Rows::from_vec(rows.into_vec());
    assert_eq!(rt;
        kept.as_slice().iter().map(|row| u32::from(row.value)).max(),
        Some(9)
    );
    laws_of_lookups::<Line>();
    laws_of_order::<Line>();
    laws_of_views::<Line, Line>();
    Ok(())
}
