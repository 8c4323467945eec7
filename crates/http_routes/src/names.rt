ghost use Rattle.std.specs.Prelude.{◌≡◌, IfOk, Some, None, if◌then◌else◌};
ghost use Rattle.keep_core.specs.Names.{is_name};
ghost use Rattle.matchit.specs.Params.{AllText};
ghost use Rattle.http_routes.specs.Places.{one_name, two_names, names_of};

use keep_core::is_name;
use matchit::ParamsIter;
use std::alloc::Global;
use std::str::from_utf8;
use texts::{OutOfMemory, Text};

/// The names in a path: none, that of a site, and that of a page or a user of it.
#[derive(Debug, Drop)]
pub(crate) enum Names {
    Zero,
    One { site: Text },
    Two { site: Text, other: Text },
}

// The names that a path's parameters are, if they are names.
pub(crate) fn names_of(
    alloc: Global,
    mut parts: ParamsIter<'_, '_, '_>,
) -> Result<Option<Names>, OutOfMemory>
    requires { AllText parts }
    ensures { IfOk result (λ names. names ≡ names_of parts.entry) }
{
    let Some((_, site)) = parts.next() else {
        return Ok(Some(Names::Zero));
    };
    match parts.next() {
        None => one_name(alloc, site),
        Some((_, other)) => two_names(alloc, site, other),
    }
}

fn one_name(alloc: Global, site: &str) -> Result<Option<Names>, OutOfMemory>
    ensures { IfOk result (λ names. names ≡ one_name site.now) }
{
    let site = Text::from_str(alloc, site)?;
    Ok(if is_name(&site) {
        Some(Names::One { site })
    } else {
        None
    })
}

fn two_names(alloc: Global, site: &str, other: &str) -> Result<Option<Names>, OutOfMemory>
    ensures { IfOk result (λ names. names ≡ two_names site.now other.now) }
{
    let site = Text::from_str(alloc, site)?;
    let other = Text::from_str(alloc, other)?;
    Ok(if is_name(&site) & is_name(&other) {
        Some(Names::Two { site, other })
    } else {
        None
    })
}

// The name that the bytes are, if they are one.
pub(crate) fn name_of(alloc: Global, bytes: &[u8]) -> Result<Option<Text>, OutOfMemory>
    ensures { IfOk result (λ name. name ≡ (if is_name bytes.now then Some bytes.now else None)) }
{
    let Ok(text) = from_utf8(bytes) else {
        return Ok(None);
    };
    let name = Text::from_str(alloc, text)?;
    Ok(if is_name(&name) { Some(name) } else { None })
}
