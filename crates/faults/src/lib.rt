// The report on an image: the first rule of consistency that fails, with the entry, the word and the block concerned.
#![tactic(auto)]

mod blocks;
mod entries;
mod fields;
mod files;
mod headers;
mod lending;
mod maps;
mod shared;

ghost use Rattle.std.specs.Prelude.{◌≡◌};
ghost use Rattle.faults.specs.Named.{rule_of, entry_named, word_named, block_named, numbers_of, report_in};
ghost use Rattle.faults.specs.Report.{Report};

use pack::View;

// The rule that fails, with the entry, the word and the block that it names.
#[derive(Clone, Copy, Debug, PartialEq, Eq)]
pub enum Fault {
    Size,
    Header { word: usize },
    Field { entry: usize, word: usize },
    SameName { entry: usize },
    Extent { entry: usize, word: usize },
    Link { entry: usize, block: usize },
    Loop { entry: usize, block: usize },
    End { entry: usize, block: usize },
    Shared { entry: usize, block: usize },
    Map { block: usize },
}

impl Fault {
    // The number of the rule.
    pub fn rule(self) -> usize
        ensures { result ≡ rule_of self }
    {
        match self {
            Fault::Size => 1,
            Fault::Header { .. } => 2,
            Fault::Field { .. } => 3,
            Fault::SameName { .. } => 4,
            Fault::Extent { .. } => 5,
            Fault::Link { .. } => 6,
            Fault::Loop { .. } => 7,
            Fault::End { .. } => 8,
            Fault::Shared { .. } => 9,
            Fault::Map { .. } => 10,
        }
    }

    pub fn entry(self) -> Option<usize>
        ensures { result ≡ entry_named self }
    {
        match self {
            Fault::Size | Fault::Header { .. } | Fault::Map { .. } => None,
            Fault::Field { entry, .. }
            | Fault::SameName { entry }
            | Fault::Extent { entry, .. }
            | Fault::Link { entry, .. }
            | Fault::Loop { entry, .. }
            | Fault::End { entry, .. }
            | Fault::Shared { entry, .. } => Some(entry),
        }
    }

    // "Two entries of one name are reported at the later one, with word 3"
    pub fn word(self) -> Option<usize>
        ensures { result ≡ word_named self }
    {
        match self {
            Fault::Header { word } | Fault::Field { word, .. } | Fault::Extent { word, .. } => {
                Some(word)
            }
            Fault::SameName { .. } => Some(3),
            _ => None,
        }
    }

    pub fn block(self) -> Option<usize>
        ensures { result ≡ block_named self }
    {
        match self {
            Fault::Link { block, .. }
            | Fault::Loop { block, .. }
            | Fault::End { block, .. }
            | Fault::Shared { block, .. }
            | Fault::Map { block } => Some(block),
            _ => None,
        }
    }
}

// The number of the rule, 0 where none fails, and what it names; 0 in a member that the rule does not name.
#[repr(C)]
#[derive(Clone, Copy)]
pub struct ReportAnswer {
    pub rule: usize,
    pub entry: usize,
    pub word: usize,
    pub block: usize,
}

impl From<Fault> for ReportAnswer {
    ghost from_gives = { λ fault answer. answer ≡ numbers_of fault };

    fn from(fault: Fault) -> ReportAnswer {
        ReportAnswer {
            rule: fault.rule(),
            entry: fault.entry().unwrap_or(0),
            word: fault.word().unwrap_or(0),
            block: fault.block().unwrap_or(0),
        }
    }
}

impl From<Result<(), Fault>> for ReportAnswer {
    ghost from_gives = { λ told answer. answer ≡ report_in told };

    fn from(told: Result<(), Fault>) -> ReportAnswer {
        match told {
            Ok(()) => ReportAnswer {
                rule: 0,
                entry: 0,
                word: 0,
                block: 0,
            },
            Err(fault) => fault.into(),
        }
    }
}

// Where the image is not consistent: by its header, then its entries, then the blocks that they share, then the map. Its counts lie in a frame of its
// own, so that the stack never holds them beside the map of the check.
#[inline(never)]
fn look(img: &[u8]) -> Result<(), Fault>
    ensures { Report img.now (report_in result) }
{
    let Some(g) = pack::read_header(img) else {
        return Err(headers::look_header(img));
    };
    let view = View { img, g };
    entries::look_entries(view)?;
    blocks::look_blocks(view)
}

// A consistent image is told at once, so that it costs no more than its check.
pub fn report(img: &[u8]) -> Result<(), Fault>
    ensures { Report img.now (report_in result) }
{
    if consistency::open_pack(img).is_some() {
        return Ok(());
    }
    look(img)
}
