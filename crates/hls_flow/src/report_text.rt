ghost use Rattle.std.specs.Prelude.{IfOk};
ghost use Rattle.cycle_report.specs.PlainReport.{plain_of};
ghost use Rattle.cycle_report.specs.ReportForm.{IsName, IsSettings, IsReport};

use crate::form::has_form;
use cycle_report::print::print;
use cycle_report::report::Report;
use hls_base::refusal::impossible;
use hls_base::text::Text;
use std::alloc::{AllocError, Global};

/// The text of a report. Its names are identifiers, and the points of its loops those of their bodies.
pub fn report_text(alloc: Global, report: &Report) -> Result<Text, AllocError>
    requires { IsName report.now.settings.top → IsSettings report.now.settings }
    ensures { IfOk result (λ t. IsReport t (plain_of report.now)) }
{
    if has_form(report) {
        print(alloc, report)
    } else {
        Err(impossible())
    }
}
