use desk_words::{Generating, ProgramCommand, Serving, Showing, command_in};
use std::alloc::{AllocError, Global};
use std::test::Fail;
use texts::Text;

fn texts(alloc: Global, words: &str) -> Result<Vec<Text>, AllocError> {
    let mut texts = Vec::new(alloc);
    if words.is_empty() {
        return Ok(texts);
    }
    for word in words.split(' ') {
        texts.push(Text::from_string(String::from_str(alloc, word)?))?;
    }
    Ok(texts)
}

// A command in one line; an empty one where there is none.
fn line_of(alloc: Global, command: Option<ProgramCommand>) -> Result<String, AllocError> {
    match command {
        None => Ok(String::new(alloc)),
        Some(ProgramCommand::Audit) => String::from_str(alloc, "audit"),
        Some(ProgramCommand::Serve(serving)) => {
            let Serving {
                port,
                workers,
                connections,
            } = serving;
            format!(in alloc; "port {port} workers {workers} connections {connections}")
        }
        Some(ProgramCommand::Generate(Generating { number, pages })) => {
            format!(in alloc; "number {number} pages {pages}")
        }
        Some(ProgramCommand::Cases) => String::from_str(alloc, "cases"),
        Some(ProgramCommand::Show(Showing { form, site })) => {
            let form = form.word();
            let site = site.as_str();
            format!(in alloc; "{form} of {site}")
        }
    }
}

// Words with one space between, and the command that they are.
static WORDS: [(&str, &str); 42] = [
    ("", ""),
    ("audit", "audit"),
    ("audit --", "audit"),
    ("audit x", ""),
    ("audit --help", ""),
    ("Audit", ""),
    ("serve", ""),
    ("serve --help", ""),
    ("serve --version", ""),
    (
        "serve --port 8080 --workers 16 --connections 1000000",
        "port 8080 workers 16 connections 1000000",
    ),
    (
        "serve --connections=1000000 --workers=16 --port=8080",
        "port 8080 workers 16 connections 1000000",
    ),
    (
        "serve --port 0 --workers 1 --connections 1",
        "port 0 workers 1 connections 1",
    ),
    (
        "serve --port +0 --workers 01 --connections 1",
        "port 0 workers 1 connections 1",
    ),
    ("serve --port 65536 --workers 1 --connections 1", ""),
    ("serve --port -0 --workers 1 --connections 1", ""),
    ("serve --port 1 --workers 0 --connections 1", ""),
    (
        "serve --port 1 --workers 18446744073709551616 --connections 1",
        "",
    ),
    ("serve --port 1 --workers 1 --connections 0", ""),
    ("serve --port 1 --workers 1 --connections 1000001", ""),
    ("serve --port  --workers 1 --connections 1", ""),
    ("serve --port 1 --workers 1", ""),
    ("serve --port 1 --port 1 --workers 1 --connections 1", ""),
    ("serve --port 1 --workers 1 --connections 1 x", ""),
    ("generate 1 2", "number 1 pages 2"),
    ("generate 1000000 64", "number 1000000 pages 64"),
    ("generate 0 +01", "number 0 pages 1"),
    ("generate 1000001 1", ""),
    ("generate 1 0", ""),
    ("generate 1 65", ""),
    ("generate 1", ""),
    ("generate 1 2 3", ""),
    ("cases", "cases"),
    ("cases --", "cases"),
    ("cases x", ""),
    ("Cases", ""),
    ("report acme", "report of acme"),
    ("earl a.b", "earl of a.b"),
    ("csv -- --x", "csv of --x"),
    ("csv --x", ""),
    ("report", ""),
    ("report acme acme", ""),
    ("reports acme", ""),
];

#[test]
fn each_list_of_words_is_a_command_or_none(rt: HostRuntime) -> Result<(), Fail> {
    for (words, wanted) in WORDS.as_slice() {
        let given = texts(rt.alloc(), words)?;
        let command = command_in(rt.alloc(), given.as_slice())?;
        let line = line_of(rt.alloc(), command)?;
        assert_eq!(rt; line.as_str(), *wanted);
    }
    Ok(())
}
