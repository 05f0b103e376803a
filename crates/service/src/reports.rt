// The report on an image: no code, any image gets one.
ghost use Rattle.faults.specs.Report.{Report};

use faults::ReportAnswer;

#[unsafe(no_mangle)]
pub extern "C" fn abz_report(image: &[u8]) -> ReportAnswer
    ensures { Report image.now result }
{
    faults::report(image).into()
}
