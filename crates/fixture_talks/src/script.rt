//! Scripts, their cases and the steps of these.

use crate::run::Run;
use crate::setting::Setting;
use crate::talk::Talk;

/// What a keeper must answer of a site and pages of it; where no lines are given, what it answers in each way in which the
/// case is played.
#[derive(Drop)]
pub struct Kept {
    pub line: u64,
    pub site: String,
    pub pages: Vec<String>,
    pub told: Option<String>,
}

/// What preparing the store must answer.
#[derive(Clone, Copy, PartialEq, Eq)]
pub enum Prepares {
    Ready,
    Edition(u64),
    Fault,
}

/// Which of the eight calls that read fail: five of a site and a page of it, the edition, the sites, and the memberships of ann.
#[derive(Drop)]
pub struct Reads {
    pub line: u64,
    pub site: String,
    pub page: String,
    pub fails: [bool; 8],
}

/// How many judgements are kept of a page.
#[derive(Drop)]
pub struct Judged {
    pub line: u64,
    pub site: String,
    pub page: String,
    pub count: u64,
}

/// A step of a case.
#[derive(Drop)]
pub enum Step {
    Talk(Talk),
    Run(Run),
    Kept(Kept),
    Prepare(u64, Prepares),
    Reads(Reads),
    Judged(Judged),
    /// The edition that is kept.
    Edition(u64, u64),
}

/// A script: what its first line says, what is done first in each case, and the cases.
#[derive(Drop)]
pub struct Script {
    pub title: String,
    pub head: Vec<Step>,
    pub cases: Vec<Case>,
}

/// What is played from a new keeper on, after the head of the script.
#[derive(Drop)]
pub struct Case {
    pub line: u64,
    pub name: String,
    pub setting: Setting,
    pub steps: Vec<Step>,
}

/// What is played: what is done first in each case of a script, and a case.
#[derive(Clone, Copy)]
pub struct Plot<'a> {
    pub head: &'a [Step],
    pub case: &'a Case,
}
