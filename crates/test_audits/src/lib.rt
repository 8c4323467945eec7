//! Tests of audits: of a page, of many pages by any number of books, and after judgements; of copies of outcomes; of the
//! texts that pages of tests are read from; and of the reports of a page and of a site. There is no call of its own.
#![tactic(auto)]

#[cfg(test)]
mod audits;
#[cfg(test)]
mod copies;
#[cfg(test)]
mod no_rows;
#[cfg(test)]
mod samples;
#[cfg(test)]
mod sites;
#[cfg(test)]
mod text;
#[cfg(test)]
mod workers;
