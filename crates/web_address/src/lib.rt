//! Web addresses: URLs of the scheme http or https, as the URL Standard writes them.
//!
//! A text is a web address where that standard's parser takes it, as a URL of the scheme http or https,
//! and it is the parsed URL's own text: `IsWebAddress` of `specs/Address.antt`. Start with
//! [`read_address`], which answers the web address that a text stands for.
#![tactic(auto)]

ghost use Rattle.std.specs.Prelude.{◌≡◌, ◌↔◌, IsTrue, IfOk, IfSome, option_map, string_bytes};
ghost use Rattle.url.specs.Parts.{IsValid};
ghost use Rattle.web_address.specs.Address.{is_web, address_of, IsWebAddress};

use std::alloc::{AllocError, Global};
use url::{ParseError, Url};

/// The web address that a text stands for, as the URL Standard writes it; `None` where the text is no
/// URL of the scheme http or https. Fails only for want of memory, which a URL of more than 4 GB counts
/// as. White space at the ends is no part of a URL, nor are tabs and line ends within.
#[tactic(auto, using(crate::proofs::Standing::web_address), unfolding(crate::specs::Address::address_of))]
pub fn read_address(alloc: Global, text: &str) -> Result<Option<String>, AllocError>
    ensures value { IfOk result (λ a. option_map string_bytes a ≡ address_of text.now) }
    ensures web { IfOk result (λ a. IfSome a (λ t. IsWebAddress (string_bytes t))) }
{
    match Url::parse(alloc, text) {
        Ok(url) if is_web(&url) => Ok(Some(String::from(url))),
        Ok(_) => Ok(None),
        Err(ParseError::OutOfMemory | ParseError::Overflow) => Err(AllocError),
        Err(_) => Ok(None),
    }
}

fn is_web(url: &Url) -> bool
    ensures value { result ≡ is_web url.now }
    ensures valid { IsValid url.now }
{
    let scheme = url.scheme();
    (scheme == "http") | (scheme == "https")
}

/// Whether a text is a web address: it stands for itself. Fails only for want of memory, as
/// `read_address` does.
#[tactic(auto, using(crate::proofs::Standing::stands_for_itself))]
pub fn is_web_address(alloc: Global, text: &str) -> Result<bool, AllocError>
    ensures { IfOk result (λ is. IsTrue is ↔ IsWebAddress text.now) }
{
    match read_address(alloc, text)? {
        Some(address) => Ok(address.as_str() == text),
        None => Ok(false),
    }
}
