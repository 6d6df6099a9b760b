// What is told: a finding or a refusal.
ghost use Rattle.std.specs.Prelude.{◌≡◌};
ghost use Rattle.report.specs.Matters.{matter_of};
ghost use Rattle.report.specs.Severities.{severity_of};
ghost use Rattle.token.specs.Reads.{reason_number};
ghost use Rattle.token.specs.declared.reason.Reason.{Reason};

use crate::ink::Ink;
use std::fmt;
use token::Reason;

// What it says, its span, and the stretch that it is about. A refusal has none: from and to are its end.
#[derive(Clone, Copy)]
pub struct Finding {
    pub matter: Matter,
    pub start: usize,
    pub end: usize,
    pub from: usize,
    pub to: usize,
}

#[derive(Clone, Copy)]
pub enum Body {
    Comment,
    Template,
}

// `bare` says that nothing but white space and comments is swallowed or let out.
#[derive(Clone, Copy)]
pub enum Matter {
    Refusal { reason: Reason },
    RunsOn { body: Body, bare: bool },
    ReadAsCode,
    Unclosed { body: Body },
    ByteOrderMark,
}

impl Matter {
    // Its number for a script: that of `findings::Code`, which would bring all of the reader in here for six numbers.
    pub(crate) fn number(self) -> u32 {
        match self {
            Matter::Refusal { reason } => u32::from(reason),
            Matter::RunsOn { bare, .. } => if bare { 61 } else { 60 },
            Matter::ReadAsCode => 62,
            Matter::Unclosed { body } => match body {
                Body::Comment => 63,
                Body::Template => 64,
            },
            Matter::ByteOrderMark => 65,
        }
    }

    // The number of its texts: a template that runs on has its own.
    pub(crate) fn texts(self) -> u32 {
        match self {
            Matter::RunsOn {
                body: Body::Template,
                bare,
            } => if bare { 161 } else { 160 },
            _ => self.number(),
        }
    }

    pub fn severity(self) -> Severity
        ensures { result ≡ severity_of self }
    {
        match self {
            Matter::Refusal { .. } | Matter::ByteOrderMark => Severity::Error,
            Matter::RunsOn { bare: true, .. } => Severity::Note,
            _ => Severity::Warning,
        }
    }
}

// By the number of its texts. A number that is no finding's is a refusal's.
impl From<u32> for Matter {
    ghost from_gives = { λ number matter. (reason : Reason) → reason_number reason ≡ number → matter ≡ matter_of number reason };

    fn from(number: u32) -> Matter {
        match number {
            60 => Matter::RunsOn {
                body: Body::Comment,
                bare: false,
            },
            61 => Matter::RunsOn {
                body: Body::Comment,
                bare: true,
            },
            62 => Matter::ReadAsCode,
            63 => Matter::Unclosed {
                body: Body::Comment,
            },
            64 => Matter::Unclosed {
                body: Body::Template,
            },
            65 => Matter::ByteOrderMark,
            160 => Matter::RunsOn {
                body: Body::Template,
                bare: false,
            },
            161 => Matter::RunsOn {
                body: Body::Template,
                bare: true,
            },
            _ => Matter::Refusal {
                reason: Reason::from(number),
            },
        }
    }
}

#[derive(Clone, Copy)]
pub enum Severity {
    Error,
    Warning,
    Note,
}

impl Severity {
    pub(crate) fn ink(self) -> Ink {
        match self {
            Severity::Error => Ink::Red,
            Severity::Warning => Ink::Yellow,
            Severity::Note => Ink::Cyan,
        }
    }
}

impl fmt::Display for Severity {
    fn fmt<W: fmt::Write>(&self, f: &mut fmt::Formatter<W>) -> fmt::Result {
        f.write_str(match self {
            Severity::Error => "error",
            Severity::Warning => "warning",
            Severity::Note => "note",
        })
    }
}
