//! What `clap` is told of each command: the rules of its arguments.

ghost use Rattle.std.specs.Prelude.{◌≡◌, false, IfOk};
ghost use Rattle.clap.specs.Words.{app_of, rule_of};
ghost use Rattle.desk_words.specs.Words.{serve_app, generate_app, show_app, number_rule, number_place, site_place};

use crate::command::{MOST_CONNECTIONS, MOST_MADE, MOST_NUMBER};
use clap::builder::ValueParser;
use clap::{Arg, ArgAction, Command};
use std::alloc::{AllocError, Global};

pub fn serve_command<'a>(alloc: Global) -> Result<Command<'a>, AllocError>
    ensures { IfOk result (λ c. app_of c ≡ serve_app) }
{
    Command::new(alloc, "serve")
        .arg(number_arg(alloc, "port", 0, u64::from(u16::MAX)))?
        .arg(number_arg(alloc, "workers", 1, u64::MAX))?
        .arg(number_arg(alloc, "connections", 1, MOST_CONNECTIONS))
}

pub fn generate_command<'a>(alloc: Global) -> Result<Command<'a>, AllocError>
    ensures { IfOk result (λ c. app_of c ≡ generate_app) }
{
    Command::new(alloc, "generate")
        .arg(number_at(alloc, "number", 0, MOST_NUMBER))?
        .arg(number_at(alloc, "pages", 1, MOST_MADE))
}

pub fn show_command<'a>(alloc: Global, word: &'a str) -> Result<Command<'a>, AllocError>
    ensures { IfOk result (λ c. app_of c ≡ show_app word.entry.now) }
{
    Command::new(alloc, word).arg(site_at(alloc))
}

// An option with a number within bounds, which must be given.
fn number_arg<'a>(alloc: Global, id: &'a str, least: u64, most: u64) -> Arg<'a>
    ensures rule { rule_of result ≡ number_rule id.entry.now least most }
    ensures local { result.global ≡ false }
{
    number_at(alloc, id, least, most).long(id)
}

// A word that is a number within bounds, which must be given at its place.
fn number_at<'a>(alloc: Global, id: &'a str, least: u64, most: u64) -> Arg<'a>
    ensures rule { rule_of result ≡ number_place id.entry.now least most }
    ensures local { result.global ≡ false }
{
    Arg::new(alloc, id)
        .action(ArgAction::Set)
        .value_parser(ValueParser::Unsigned(least, most))
        .required(true)
}

// A word that names a site, which must be given.
fn site_at<'a>(alloc: Global) -> Arg<'a>
    ensures rule { rule_of result ≡ site_place }
    ensures local { result.global ≡ false }
{
    Arg::new(alloc, "site")
        .action(ArgAction::Set)
        .required(true)
}
