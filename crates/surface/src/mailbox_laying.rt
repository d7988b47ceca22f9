// The structs of a mailbox file that cross to C: the morning figures, and how a piece ends. Each function promises what
// the definition in specs/ says.
ghost use Rattle.std.specs.Prelude.{◌≡◌, length};
ghost use Rattle.mailbox_files.specs.Report.{told_reported};
ghost use Rattle.surface.specs.OfMailbox.{morning_of, beside, laid_ending};

use crate::laying::refusal_number;
use crate::{MorningFigures, PieceEnd};
use mailbox_files::Report;
use pieces::Ending;
use refusals::Refusal;

// The figures beside a number and a place. (`refused` is a local: of an array that a literal takes from a field a
// proof is not told the length.)
fn figures_beside(report: Report, number: u32, place: usize) -> MorningFigures
    ensures { (result ≡ beside number place report) × (length report.refused ≡ 14) }
{
    let refused = report.refused;
    let segments = report.segments;
    let messages = report.messages;
    MorningFigures {
        number,
        accepted: report.accepted,
        refused,
        segments: segments.0,
        messages: messages.0,
        place,
        total: report.total,
        longest: report.longest,
    }
}

pub fn morning_of(reported: Result<Report, Refusal>) -> MorningFigures
    ensures { result ≡ morning_of (told_reported reported) }
{
    match reported {
        Ok(report) => figures_beside(report, 0, 0),
        Err(refusal) => {
            figures_beside(report::no_figures(), refusal_number(refusal), refusal.place)
        }
    }
}

// How a piece ends that begins so many bytes.
pub fn piece_laid(ending: Ending, length: usize) -> PieceEnd
    ensures { result ≡ laid_ending length ending }
{
    match ending {
        Ending::AfterUnz(end) => PieceEnd {
            number: 0,
            ended: 1,
            place: 0,
            end,
        },
        Ending::Stopped(refusal) => {
            let number = refusal_number(refusal);
            let ended = 0;
            PieceEnd {
                number,
                ended,
                place: refusal.place,
                end: length,
            }
        }
        Ending::FileEnd => PieceEnd {
            number: 0,
            ended: 0,
            place: 0,
            end: length,
        },
    }
}
