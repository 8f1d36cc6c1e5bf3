//! What is so of every session. Each law is the contract of a function that does nothing.
ghost use Rattle.ap_session.specs.CommandLines.{LinesAreRead, LinesAreWrittenOneWay, LinesSayOneThing, OthersAreNone};
ghost use Rattle.ap_session.specs.Laws.{KeepsDoneAgain, CertificatesCount, DemosCount};

use ap_events::singles_are_held;

/// Words are a command exactly where they are a line of the grammar, which commands that and nothing else. A
/// line is written in one way.
pub fn command_lines_are_read_one_way()
    ensures read { LinesAreRead }
    ensures one { LinesSayOneThing }
    ensures written { LinesAreWrittenOneWay }
    ensures others { OthersAreNone }
{}

/// The world that a certified book keeps is the one behind its events when they are done again, one after another, from the
/// world that each book begins with: so the pass that goes beside the first one is what a second pass of an `encapsulate`
/// is.
pub fn certified_books_are_done_again()
    ensures { KeepsDoneAgain }
{}

/// The number in a certified book's certificate is how many single events its first pass admitted. So many of forms that
/// hold no others are admitted, as the demo counts them.
pub fn events_are_counted_once()
    ensures certificate { CertificatesCount }
    ensures demo { DemosCount }
{
    singles_are_held();
}
