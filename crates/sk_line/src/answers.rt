//! What a session answers, and how it is sent.
ghost use Rattle.std.specs.Prelude.{[], OnOk, OnErr};
ghost use Rattle.sk_model.specs.Causes.{HasCause};
ghost use Rattle.sk_io.specs.Traffic.{Exchanges, SendsPart};
ghost use Rattle.sk_lines.specs.Fractions.{estimate_line};
ghost use Rattle.sk_line.specs.Replies.{reply_line};

use sk_io::{Failed, Link, send_all};
use sk_lines::{ESTIMATE_LINE_LEN, put_estimate_line};

/// The answer to a request.
#[derive(Clone, Copy, Debug, PartialEq, Eq)]
pub enum Answer {
    /// The item is kept.
    Kept,
    /// The item changes no estimate any more.
    Filtered,
    /// What was handed over last is not published yet. Nothing was done.
    Busy,
    /// As a numerator and a denominator, not reduced.
    Estimate(u128, u64),
    /// All that was kept is published.
    Synced,
    /// It was no request.
    Bad,
}

/// Sends the reply to a request.
#[tactic(auto, unfolding(crate::specs::Replies::reply_line))]
pub(crate) fn send_reply<L: Link>(link: &mut L, answer: Answer) -> Result<(), Failed>
    ensures ok { OnOk result (Exchanges (L.traffic link.old) (L.traffic link.new) [] (reply_line answer)) }
    ensures err { OnErr result (SendsPart (L.traffic link.old) (L.traffic link.new) (reply_line answer)) }
    ensures cause { HasCause (L.faults link.old) (L.faults link.new) result }
{
    match answer {
        Answer::Kept => send_all(link, b"kept\n"),
        Answer::Filtered => send_all(link, b"filtered\n"),
        Answer::Busy => send_all(link, b"busy\n"),
        Answer::Estimate(n, d) => send_estimate(link, n, d),
        Answer::Synced => send_all(link, b"synced\n"),
        Answer::Bad => send_all(link, b"bad\n"),
    }
}

// Sends the line of an estimate.
fn send_estimate<L: Link>(link: &mut L, n: u128, d: u64) -> Result<(), Failed>
    ensures ok { OnOk result (Exchanges (L.traffic link.old) (L.traffic link.new) [] (estimate_line (n, d))) }
    ensures err { OnErr result (SendsPart (L.traffic link.old) (L.traffic link.new) (estimate_line (n, d))) }
    ensures cause { HasCause (L.faults link.old) (L.faults link.new) result }
{
    let mut reply = [0; ESTIMATE_LINE_LEN];
    let len = put_estimate_line(&mut reply, n, d);
    send_all(link, &reply[..len])
}
