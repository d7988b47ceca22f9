// The morning figures of a mailbox file (request 2026-02). One walk over the file's pieces: each is cut, judged
// and counted, and what is left goes the same way. It promises, for every file, the answer that
// `mailbox_files` defines over the list of pieces. Where a piece ends is left to `pieces`.
#![tactic(auto)]

ghost use Rattle.std.specs.Prelude.{◌≡◌, ◌≤◌, length};
ghost use Rattle.refusals.specs.Refusals.{number};
ghost use Rattle.mailbox_files.specs.Pieces.{pieces};
ghost use Rattle.mailbox_files.specs.Report.{most_file, report_over, no_figures};
ghost use Rattle.mailbox_files.specs.Promises.{Reports};
ghost use Rattle.report.specs.Counting.{with_accepted, with_refused, counted, Within, Small, Countable};

use answers::Figures;
use mailbox_files::{MOST_FILE, Report};
use refusals::{Fault, Refusal};
use refusing::{failed, number_of};
use segments::{Messages, Segments};

// Every figure is 0. (They are named one by one, as the definition `no_figures` does, and not by a derived `Default`.)
pub fn no_figures() -> Report
    ensures { result ≡ no_figures }
{
    Report {
        accepted: 0,
        refused: [0; 14],
        segments: Segments(0),
        messages: Messages(0),
        total: 0,
        longest: 0,
    }
}

// One accepted piece more.
fn with_accepted(report: Report, figures: Figures) -> Report
    requires { Within 65535 report × Small figures }
    ensures { result ≡ with_accepted report figures }
{
    Report {
        accepted: report.accepted + 1,
        segments: Segments(report.segments.0 + figures.segments.0),
        messages: Messages(report.messages.0 + figures.messages.0),
        total: report.total + figures.length,
        longest: report.longest.max(figures.length),
        ..report
    }
}

// One refused piece more, under its number. (The counts stay an array by number: C is handed it so.)
fn with_refused(report: Report, refusal: Refusal) -> Report
    requires { Within 65535 report × (number refusal.fault ≤ 13) }
    ensures { result ≡ with_refused report refusal }
{
    let mut counted = report;
    let number = usize::from(number_of(refusal.fault));
    counted.refused[number] += 1;
    counted
}

// One piece more, by what Judge says of it.
fn counted(report: Report, judged: Result<Figures, Refusal>) -> Report
    requires { Within 65535 report × Countable judged }
    ensures { result ≡ counted report judged }
{
    match judged {
        Ok(figures) => with_accepted(report, figures),
        Err(refusal) => with_refused(report, refusal),
    }
}

// The figures over the pieces of a file. (Where the next piece begins is known only when this one is cut, which no `for` would know.)
fn figures_of(file: &[u8]) -> Report
    requires { length file.now ≤ most_file }
    ensures { result ≡ report_over (pieces file.now) }
{
    let mut report = no_figures();
    let mut at = 0;
    while at < file.len() {
        let end = at + pieces::piece_end(&file[at..]);
        report = counted(report, judge::judge(&file[at..end]));
        at = end;
    }
    report
}

// The report of a file: any bytes, any length.
pub fn report(file: &[u8]) -> Result<Report, Refusal>
    ensures { Reports file.now result }
{
    if MOST_FILE < file.len() {
        return failed(Fault::TooLong, 0);
    }
    Ok(figures_of(file))
}
