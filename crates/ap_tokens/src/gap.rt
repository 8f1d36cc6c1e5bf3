ghost use Rattle.std.specs.Prelude.{◌≡◌, ◌+◌, ◌^◌, ◌<◌, ◌≤◌, Ok, Err, length, IfOk, MatchResult};
ghost use Rattle.ap_tokens.specs.Gaps.{start_of, step_of, IsWithin, at, gap};

use crate::bytes::is_blank;
use crate::scan::{comment_len, line_len};
use crate::token::{FaultKind, TokenFault};

/// What a text begins with.
#[derive(Clone, Copy)]
pub enum Start {
    Blank,
    /// A comment that begins with `;`.
    Line,
    /// A comment that begins with `#|`.
    Block,
    /// A token, or nothing.
    Other,
}

fn start_at(text: &[u8]) -> Start
    ensures { result ≡ start_of text.now }
{
    match text {
        [b'#', b'|', ..] => Start::Block,
        [b';', ..] => Start::Line,
        [byte, ..] if is_blank(*byte) => Start::Blank,
        _ => Start::Other,
    }
}

/// What to do at a place between tokens.
#[derive(Clone, Copy)]
pub enum Step {
    /// Pass over so many bytes of a blank or a comment.
    Pass(usize),
    /// A token begins, or the text ends.
    Stay,
    /// A block comment begins that doesn't end.
    Open,
}

fn step_at(text: &[u8]) -> Step
    ensures value { result ≡ step_of text.now }
    ensures within { IsWithin (length text.now) result }
{
    match start_at(text) {
        Start::Blank => Step::Pass(1),
        Start::Line => Step::Pass(1 + line_len(&text[1..])),
        Start::Block => match comment_len(&text[2..]) {
            Some(n) => Step::Pass(2 + n),
            None => Step::Open,
        },
        Start::Other => Step::Stay,
    }
}

/// The first byte that isn't in a blank or a whole comment: its place, and the text from there on.
#[tactic(auto, using(crate::proofs::Passes::passes))]
pub fn gap_end(place: usize, text: &[u8]) -> Result<(usize, &[u8]), TokenFault>
    requires { place + length text.now < 2 ^ 64 }
    ensures end { MatchResult result (λ x. gap 0 place text.now ≡ Ok (at x.0 x.1.now)) (λ fault. gap 0 place text.now ≡ Err fault) }
    ensures within { IfOk result (λ x. x.0 + length x.1.now ≡ place + length text.now) }
    ensures fewer { IfOk result (λ x. length x.1.now ≤ length text.now) }
{
    let (mut at, mut left) = (place, text);
    loop {
        match step_at(left) {
            Step::Pass(n) => {
                at += n;
                left = &left[n..];
            }
            Step::Stay => return Ok((at, left)),
            Step::Open => {
                return Err(TokenFault {
                    place: at,
                    kind: FaultKind::OpenComment,
                });
            }
        }
    }
}
