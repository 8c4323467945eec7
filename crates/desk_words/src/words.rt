ghost use Rattle.std.specs.Prelude.{◌≡◌, IfOk, IfSome};
ghost use Rattle.std.specs.Str.{bytes_eq};
ghost use Rattle.desk_words.specs.Words.{command_in, audit_in, serve_in, generate_in, cases_in, show_in, other_in, HasWorkers};

use crate::command::{ProgramCommand, Showing, SiteForm};
use crate::parsing::{parsed, texts_of};
use crate::reading::{generating_of, serving_of, site_of};
use crate::rules::{generate_command, serve_command, show_command};
use std::alloc::Global;
use texts::{OutOfMemory, Text};

/// The command that the words are, the name of the command first; none where they are no command. That
/// is so of a call for help too.
#[tactic(auto, unfolding(crate::specs::Words::command_in))]
pub fn command_in(alloc: Global, words: &[Text]) -> Result<Option<ProgramCommand>, OutOfMemory>
    ensures exact { IfOk result (λ c. c ≡ command_in words.now) }
    ensures workers { IfOk result (λ c. IfSome c HasWorkers) }
{
    match words.first() {
        Some(name) if is_text(name, "audit") => audit_in(alloc, words),
        Some(name) if is_text(name, "serve") => serve_in(alloc, words),
        Some(name) if is_text(name, "generate") => generate_in(alloc, words),
        Some(name) if is_text(name, "cases") => cases_in(alloc, words),
        Some(name) => other_in(alloc, name, words),
        None => Ok(None),
    }
}

// A command that shows a site, where the name is that of one.
fn other_in(
    alloc: Global,
    name: &Text,
    words: &[Text],
) -> Result<Option<ProgramCommand>, OutOfMemory>
    ensures exact { IfOk result (λ c. c ≡ other_in name.now words.now) }
    ensures workers { IfOk result (λ c. IfSome c HasWorkers) }
{
    if is_text(name, "report") {
        show_in(alloc, SiteForm::Report, words)
    } else if is_text(name, "earl") {
        show_in(alloc, SiteForm::Earl, words)
    } else if is_text(name, "csv") {
        show_in(alloc, SiteForm::Csv, words)
    } else {
        Ok(None)
    }
}

fn is_text(text: &Text, wanted: &str) -> bool
    ensures { result ≡ bytes_eq text.now wanted.now }
{
    text.as_str() == wanted
}

fn audit_in(alloc: Global, words: &[Text]) -> Result<Option<ProgramCommand>, OutOfMemory>
    ensures exact { IfOk result (λ c. c ≡ audit_in words.now) }
    ensures workers { IfOk result (λ c. IfSome c HasWorkers) }
{
    let texts = texts_of(alloc, words)?;
    match parsed(clap::Command::new(alloc, "audit"), texts.as_slice())? {
        Some(_) => Ok(Some(ProgramCommand::Audit)),
        None => Ok(None),
    }
}

fn serve_in(alloc: Global, words: &[Text]) -> Result<Option<ProgramCommand>, OutOfMemory>
    ensures exact { IfOk result (λ c. c ≡ serve_in words.now) }
    ensures workers { IfOk result (λ c. IfSome c HasWorkers) }
{
    let texts = texts_of(alloc, words)?;
    match parsed(serve_command(alloc)?, texts.as_slice())? {
        Some(matches) => Ok(Some(ProgramCommand::Serve(serving_of(&matches)?))),
        None => Ok(None),
    }
}

fn generate_in(alloc: Global, words: &[Text]) -> Result<Option<ProgramCommand>, OutOfMemory>
    ensures exact { IfOk result (λ c. c ≡ generate_in words.now) }
    ensures workers { IfOk result (λ c. IfSome c HasWorkers) }
{
    let texts = texts_of(alloc, words)?;
    match parsed(generate_command(alloc)?, texts.as_slice())? {
        Some(matches) => Ok(Some(ProgramCommand::Generate(generating_of(&matches)?))),
        None => Ok(None),
    }
}

fn cases_in(alloc: Global, words: &[Text]) -> Result<Option<ProgramCommand>, OutOfMemory>
    ensures exact { IfOk result (λ c. c ≡ cases_in words.now) }
    ensures workers { IfOk result (λ c. IfSome c HasWorkers) }
{
    let texts = texts_of(alloc, words)?;
    match parsed(clap::Command::new(alloc, "cases"), texts.as_slice())? {
        Some(_) => Ok(Some(ProgramCommand::Cases)),
        None => Ok(None),
    }
}

fn show_in(
    alloc: Global,
    form: SiteForm,
    words: &[Text],
) -> Result<Option<ProgramCommand>, OutOfMemory>
    ensures exact { IfOk result (λ c. c ≡ show_in form words.now) }
    ensures workers { IfOk result (λ c. IfSome c HasWorkers) }
{
    let texts = texts_of(alloc, words)?;
    match parsed(show_command(alloc, form.word())?, texts.as_slice())? {
        Some(matches) => Ok(Some(ProgramCommand::Show(Showing {
            form,
            site: site_of(alloc, &matches)?,
        }))),
        None => Ok(None),
    }
}
