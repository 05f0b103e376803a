// The report on an image as text, put piece by piece as the listing is.
ghost use Rattle.std.specs.Prelude.{◌+◌, ◌≤◌, length};
ghost use Rattle.faults.specs.Named.{rule_of, numbers_of, report_in};
ghost use Rattle.printing.specs.Put.{Put};
ghost use Rattle.printing.specs.ReportText.{rule_name, fault_line, report_text};
ghost use Rattle.printing.specs.ReportPieces.{most_rule, member_text, longest_report, PrintedReport};

use faults::Fault;

// The room for the longest report.
pub const LONGEST_REPORT: usize = 48;

// Field has no name of its own.
#[tactic(auto, unfolding(crate::specs::ReportText::rule_name, crate::specs::ReportText::chain_rule_name))]
fn put_rule(out: &mut [u8], at: usize, fault: Fault) -> usize
    requires { at + most_rule ≤ length out.old }
    ensures put { Put out.old out.new at result (rule_name (rule_of fault)) }
    ensures upper_bound { result ≤ at + most_rule }
{
    match fault {
        Fault::Size => crate::put_bytes(out, at, b" SIZE"),
        Fault::Header { .. } => crate::put_bytes(out, at, b" HEADER"),
        Fault::Field { .. } => at,
        Fault::SameName { .. } => crate::put_bytes(out, at, b" NAME"),
        Fault::Extent { .. } => crate::put_bytes(out, at, b" EXTENT"),
        Fault::Link { .. } => crate::put_bytes(out, at, b" LINK"),
        Fault::Loop { .. } => crate::put_bytes(out, at, b" LOOP"),
        Fault::End { .. } => crate::put_bytes(out, at, b" END"),
        Fault::Shared { .. } => crate::put_bytes(out, at, b" SHARED"),
        Fault::Map { .. } => crate::put_bytes(out, at, b" MAP"),
    }
}

// What the rule names, behind a word that says what it is.
fn put_member(out: &mut [u8], at: usize, what: &[u8], number: Option<usize>) -> usize
    requires { at + length what.now + 5 ≤ length out.old }
    ensures put { Put out.old out.new at result (member_text what.now number) }
    ensures upper_bound { result ≤ at + length what.now + 5 }
{
    let Some(number) = number else {
        return at;
    };
    let at = crate::put_bytes(out, at, what);
    crate::put_number(out, at, number, 10, 5)
}

fn put_fault(out: &mut [u8], at: usize, fault: Fault) -> usize
    requires { at + longest_report ≤ length out.old }
    ensures put { Put out.old out.new at result (fault_line (numbers_of fault)) }
    ensures upper_bound { result ≤ at + longest_report }
{
    let at = crate::put_bytes(out, at, b"FAULT");
    let at = put_rule(out, at, fault);
    let at = put_member(out, at, b" ENTRY ", fault.entry());
    let at = put_member(out, at, b" WORD ", fault.word());
    let at = put_member(out, at, b" BLOCK ", fault.block());
    crate::put_bytes(out, at, b"\n")
}

fn put_report(out: &mut [u8], at: usize, told: Result<(), Fault>) -> usize
    requires { at + longest_report ≤ length out.old }
    ensures put { Put out.old out.new at result (report_text (report_in told)) }
    ensures upper_bound { result ≤ at + longest_report }
{
    match told {
        Ok(()) => crate::put_bytes(out, at, b"CONSISTENT\n"),
        Err(fault) => put_fault(out, at, fault),
    }
}

// The report is put at the start of the buffer, whose rest stays; the answer is its length.
pub fn print_report(img: &[u8], out: &mut [u8]) -> usize
    requires { longest_report ≤ length out.old }
    ensures { PrintedReport img.now out.old out.new result }
{
    if crate::LONGEST_IMAGE < img.len() {
        return crate::put_bytes(out, 0, b"REFUSED 40\n");
    }
    put_report(out, 0, faults::report(img))
}
