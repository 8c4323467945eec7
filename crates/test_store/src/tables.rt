use sqlite::types::ValueRef;
use sqlite::{Alter, Connection, Error, FileStore, Files, Options, Row, Transaction};
use sqlite_disk::Memory;
use std::alloc::Global;
use std::test::Fail;
use store_statements::{
    JudgementRow, OutcomeRow, add_edition, add_judgement, add_language, add_member, drop_editions,
    drop_judgements, drop_languages, drop_members, drop_outcomes, drop_page, edition_rows, heads,
    make_tables, page_judgements, page_outcomes, page_row, put_outcome, put_page, put_site,
    site_languages, site_members, site_names, site_row, user_sites,
};

fn opened(alloc: Global) -> Result<Connection<FileStore<Memory>>, Error> {
    let files = Files {
        log: Memory::new(alloc),
        db: Memory::new(alloc),
    };
    match Connection::open_files(alloc, files, Options::new(7)) {
        Ok(conn) => Ok(conn),
        Err((error, _)) => Err(error),
    }
}

// A text that writes, with its parameters.
#[derive(Clone, Copy)]
enum Write {
    Site(&'static str, i64),
    Member(&'static str, &'static str, i64),
    NoMembers(&'static str),
    Page(&'static str, &'static str, i64, &'static str, &'static [u8]),
    NoPage(&'static str, &'static str),
    Judgement(&'static str, &'static str, i64),
    NoJudgements(&'static str, &'static str),
    Outcome(&'static str, &'static str, i64),
    NoOutcomes(&'static str, &'static str),
    Edition(i64),
    NoEditions,
    Language(&'static str, i64, &'static str),
    NoLanguages(&'static str),
}

// One after another. Sites, pages and an outcome are put again, and groups are dropped beside others that stay.
static WRITES: [Write; 32] = [
    Write::Site("acme", 1),
    Write::Site("zeta", 5),
    Write::Site("acme", 2),
    Write::Member("acme", "kim", 3),
    Write::Member("zeta", "eve", 1),
    Write::NoMembers("zeta"),
    Write::Member("zeta", "ann", 2),
    Write::Member("acm", "ann", 1),
    Write::Member("acme", "eve", 0),
    Write::Edition(7),
    Write::NoEditions,
    Write::Edition(3),
    Write::Edition(-1),
    Write::Language("acme", 2, "gsw"),
    Write::Language("zeta", 1, "haw"),
    Write::Language("acme", 1, "nds"),
    Write::NoLanguages("zeta"),
    Write::Page("acme", "news", 1, "eve", b"{}"),
    Write::Page("acme", "home", 2, "kim", b"{ }"),
    Write::Page("zeta", "home", 9, "kim", b""),
    Write::Page("acme", "news", 3, "kim", b"[]{}"),
    Write::Page("acme", "old", 4, "kim", b""),
    Write::NoPage("acme", "old"),
    Write::Judgement("acme", "home", 2),
    Write::Judgement("acme", "home", 1),
    Write::Judgement("acme", "news", 2),
    Write::NoJudgements("acme", "news"),
    Write::Outcome("acme", "home", 10),
    Write::Outcome("acme", "home", 9),
    Write::Outcome("acme", "home", 10),
    Write::Outcome("acme", "news", 10),
    Write::NoOutcomes("acme", "news"),
];

// A text that reads, with its parameters.
#[derive(Clone, Copy)]
enum Read {
    Site(&'static str),
    Sites,
    Members(&'static str),
    Memberships(&'static str),
    Languages(&'static str),
    Editions,
    Heads(&'static str),
    Page(&'static str, &'static str),
    Judgements(&'static str, &'static str),
    Outcomes(&'static str, &'static str),
}

// What is shown after them: numbers in digits, texts as they are and blobs as their lengths.
static SHOWN: [(Read, &str); 17] = [
    (Read::Site("acme"), "2|;"),
    (Read::Site("acm"), ""),
    (Read::Sites, "acme|;zeta|;"),
    (Read::Members("acme"), "eve|0|;kim|3|;"),
    (Read::Members("zeta"), "ann|2|;"),
    (Read::Memberships("ann"), "acm|1|;zeta|2|;"),
    (Read::Memberships("acme"), ""),
    (Read::Languages("acme"), "1|nds|;2|gsw|;"),
    (Read::Languages("zeta"), ""),
    (Read::Editions, "-1|;3|;"),
    (Read::Heads("acme"), "home|2|kim|;news|3|kim|;"),
    (Read::Page("acme", "news"), "3|kim|4|;"),
    (Read::Page("acme", "old"), ""),
    (
        Read::Judgements("acme", "home"),
        "1|7|12|1|eve|no|a|;2|7|12|1|eve|no|a|;",
    ),
    (
        Read::Outcomes("acme", "home"),
        "9|7|12|2|blank|a|0|eve|;10|7|12|2|blank|a|0|eve|;",
    ),
    (Read::Judgements("acme", "news"), ""),
    (Read::Outcomes("acme", "news"), ""),
];

fn judgement(seq: i64) -> JudgementRow<'static> {
    JudgementRow {
        seq,
        rule: 7,
        node: 12,
        verdict: 1,
        hand: "eve",
        note: "no",
        evidence: "a",
    }
}

fn outcome(seq: i64) -> OutcomeRow<'static> {
    OutcomeRow {
        seq,
        rule: 7,
        node: 12,
        auto: 2,
        reason: "blank",
        evidence: "a",
        last: 0,
        hand: "eve",
    }
}

fn written<S: Alter>(tx: &mut Transaction<'_, S>, write: Write) -> Result<usize, Error> {
    match write {
        Write::Site(site, counter) => put_site(tx, site, counter),
        Write::Member(site, user, role) => add_member(tx, site, user, role),
        Write::NoMembers(site) => drop_members(tx, site),
        Write::Page(site, page, rev, hand, snapshot) => {
            put_page(tx, site, page, rev, hand, snapshot)
        }
        Write::NoPage(site, page) => drop_page(tx, site, page),
        Write::Judgement(site, page, seq) => add_judgement(tx, site, page, &judgement(seq)),
        Write::NoJudgements(site, page) => drop_judgements(tx, site, page),
        Write::Outcome(site, page, seq) => put_outcome(tx, site, page, &outcome(seq)),
        Write::NoOutcomes(site, page) => drop_outcomes(tx, site, page),
        Write::Edition(number) => add_edition(tx, number),
        Write::NoEditions => drop_editions(tx),
        Write::Language(site, seq, tag) => add_language(tx, site, seq, tag),
        Write::NoLanguages(site) => drop_languages(tx, site),
    }
}

fn rows<S: Alter>(tx: &mut Transaction<'_, S>, read: Read) -> Result<Vec<Row>, Error> {
    match read {
        Read::Site(site) => site_row(tx, site),
        Read::Sites => site_names(tx),
        Read::Members(site) => site_members(tx, site),
        Read::Memberships(user) => user_sites(tx, user),
        Read::Languages(site) => site_languages(tx, site),
        Read::Editions => edition_rows(tx),
        Read::Heads(site) => heads(tx, site),
        Read::Page(site, page) => page_row(tx, site, page),
        Read::Judgements(site, page) => page_judgements(tx, site, page),
        Read::Outcomes(site, page) => page_outcomes(tx, site, page),
    }
}

fn add_number(out: &mut String, number: i64) -> Result<(), Fail> {
    write!(out, "{number}|")?;
    Ok(())
}

fn add_text(out: &mut String, text: &str) -> Result<(), Fail> {
    out.push_str(text)?;
    out.push('|')?;
    Ok(())
}

fn add_cell(out: &mut String, row: &Row, at: usize) -> Result<(), Fail> {
    match row.get_ref(at)? {
        ValueRef::Int(number) => add_number(out, number),
        ValueRef::Text(_) => {
            let text: String = row.get(at)?;
            add_text(out, text.as_str())
        }
        ValueRef::Blob(bytes) => add_number(out, bytes.len() as i64),
        _ => add_text(out, "?"),
    }
}

fn add_row(out: &mut String, row: &Row) -> Result<(), Fail> {
    for at in 0..row.column_count() {
        add_cell(out, row, at)?;
    }
    out.push(';')?;
    Ok(())
}

fn cells(alloc: Global, rows: &[Row]) -> Result<String, Fail> {
    let mut out = String::new(alloc);
    for row in rows {
        add_row(&mut out, row)?;
    }
    Ok(out)
}

fn write_all<S: Alter>(tx: &mut Transaction<'_, S>, writes: &[Write]) -> Result<(), Error> {
    make_tables(tx)?;
    for write in writes {
        written(tx, *write)?;
    }
    Ok(())
}

fn shows<S: Alter>(
    alloc: Global,
    tx: &mut Transaction<'_, S>,
    read: Read,
    wanted: &str,
) -> Result<bool, Fail> {
    let rows = rows(tx, read)?;
    let shown = cells(alloc, rows.as_slice())?;
    Ok(shown.as_str() == wanted)
}

fn all_show<S: Alter>(
    alloc: Global,
    tx: &mut Transaction<'_, S>,
    wanted: &[(Read, &'static str)],
) -> Result<(), Fail> {
    for case in wanted {
        if !shows(alloc, tx, case.0, case.1)? {
            return Err(Fail::from(case.1));
        }
    }
    Ok(())
}

// Whether a store takes all that is written, and shows it.
fn shows_all<S: Alter + Drop>(alloc: Global, mut conn: Connection<S>) -> Result<(), Fail> {
    if !conn.is_autocommit() {
        return Err(Fail::from("a transaction"));
    }
    let mut tx = conn.transaction();
    write_all(&mut tx, WRITES.as_slice())?;
    all_show(alloc, &mut tx, SHOWN.as_slice())?;
    tx.commit()?;
    Ok(())
}

#[test]
fn texts_show_what_was_written(rt: HostRuntime) -> Result<(), Fail> {
    let conn = opened(rt.alloc())?;
    shows_all(rt.alloc(), conn)
}
