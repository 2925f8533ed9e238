//! Laws of reports.
ghost use Rattle.report_text.specs.ReadBack.{ReportsReadBack};

/// The text of every report, read as a certificate, has no fault and says what was solved: an entry for each accepted
/// configuration by its cost-to-come, and the plan with its total, or the year that no plan reaches.
pub fn reports_read_back()
    ensures { ReportsReadBack }
{}
