//! What the matches of a command say. Each argument was given, and is a number within its bounds where it is a
//! number, where the words were taken: so want of memory never comes of one that is missing.

ghost use Rattle.std.specs.Prelude.{◌≡◌, ◌≤◌, IfOk};
ghost use Rattle.clap.specs.Words.{found_of, rows_of};
ghost use Rattle.desk_words.specs.Words.{serving_of, generating_of, site_of, number_of};

use crate::command::{Generating, Serving};
use clap::ArgMatches;
use std::alloc::Global;
use texts::{OutOfMemory, Text};

pub fn serving_of(matches: &ArgMatches<'_>) -> Result<Serving, OutOfMemory>
    ensures exact { IfOk result (λ s. s ≡ serving_of (rows_of (found_of matches.now))) }
    ensures workers { IfOk result (λ s. 1 ≤ s.workers) }
{
    Ok(Serving {
        port: port_of(number(matches, "port")?)?,
        workers: workers_of(number(matches, "workers")?)?,
        connections: number(matches, "connections")?,
    })
}

pub fn generating_of(matches: &ArgMatches<'_>) -> Result<Generating, OutOfMemory>
    ensures { IfOk result (λ g. g ≡ generating_of (rows_of (found_of matches.now))) }
{
    Ok(Generating {
        number: small(number(matches, "number")?)?,
        pages: small(number(matches, "pages")?)?,
    })
}

pub fn site_of(alloc: Global, matches: &ArgMatches<'_>) -> Result<Text, OutOfMemory>
    ensures { IfOk result (λ site. site ≡ site_of (rows_of (found_of matches.now))) }
{
    Text::from_str(alloc, site_in(matches)?)
}

// The word that names a site.
fn site_in<'a>(matches: &ArgMatches<'a>) -> Result<&'a str, OutOfMemory>
    ensures { IfOk result (λ site. site.now ≡ site_of (rows_of (found_of matches.now))) }
{
    match matches.get_str("site") {
        Some(site) => Ok(site),
        None => Err(OutOfMemory),
    }
}

// The number that the text of an argument is.
fn number(matches: &ArgMatches<'_>, id: &str) -> Result<u64, OutOfMemory>
    ensures { IfOk result (λ n. n ≡ number_of id.now (rows_of (found_of matches.now))) }
{
    match matches.get_one::<u64>(id) {
        Some(n) => Ok(n),
        None => Err(OutOfMemory),
    }
}

fn port_of(n: u64) -> Result<u16, OutOfMemory>
    ensures { IfOk result (λ port. port ≡ n) }
{
    match u16::try_from(n) {
        Ok(port) => Ok(port),
        Err(_) => Err(OutOfMemory),
    }
}

fn small(n: u64) -> Result<u32, OutOfMemory>
    ensures { IfOk result (λ small. small ≡ n) }
{
    match u32::try_from(n) {
        Ok(small) => Ok(small),
        Err(_) => Err(OutOfMemory),
    }
}

fn workers_of(n: u64) -> Result<u64, OutOfMemory>
    ensures same { IfOk result (λ workers. workers ≡ n) }
    ensures some { IfOk result (λ workers. 1 ≤ workers) }
{
    if n == 0 { Err(OutOfMemory) } else { Ok(n) }
}
