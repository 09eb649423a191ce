//! What an accepted head asks for.
ghost use Rattle.std.specs.Prelude.{◌≡◌};
ghost use Rattle.lf_session.specs.Requests.{asked_by, at_target, at_frame, at_patch, at_turn, at_version, unless_bad_line, unless_refused};

use lf_http::{Allow, Head, Method, Target};

/// Why an accepted head asks for nothing.
#[derive(Clone, Copy, Debug, PartialEq, Eq)]
pub enum Refusal {
    /// A `Content-Encoding` line isn't `identity`.
    ContentEncoding,
    NoSuchPath,
    /// The target has other methods.
    MethodNotAllowed(Allow),
    /// An `Ld-Seen` line isn't 1 to 18 digits.
    BadSeen,
    /// An `Ld-Refresh` line isn't `now`.
    BadRefresh,
}

/// What an accepted head asks for.
#[derive(Clone, Copy, Debug, PartialEq, Eq)]
pub enum Asked {
    Refused(Refusal),
    /// `PUT /frames/NAME`.
    Put,
    /// `DELETE /frames/NAME`.
    Delete,
    /// `GET /frames/NAME`.
    Get,
    /// The same with `Ld-Refresh: now`.
    GetNow,
    /// `POST /patch`.
    Commit,
    /// `GET /version`.
    Version,
    /// `POST /turn`.
    Turn,
}

fn at_frame(method: Method, now: bool) -> Asked
    ensures { result ≡ at_frame method now }
{
    match method {
        Method::Get => { if now { Asked::GetNow } else { Asked::Get } }
        Method::Put => Asked::Put,
        Method::Delete => Asked::Delete,
        Method::Post => Asked::Refused(Refusal::MethodNotAllowed(Allow::GetPutDelete)),
        Method::HeadOnly => Asked::Refused(Refusal::MethodNotAllowed(Allow::GetPutDelete)),
        Method::OtherMethod => Asked::Refused(Refusal::MethodNotAllowed(Allow::GetPutDelete)),
    }
}

fn at_patch(method: Method) -> Asked
    ensures { result ≡ at_patch method }
{
    match method {
        Method::Post => Asked::Commit,
        Method::Get => Asked::Refused(Refusal::MethodNotAllowed(Allow::Post)),
        Method::Put => Asked::Refused(Refusal::MethodNotAllowed(Allow::Post)),
        Method::Delete => Asked::Refused(Refusal::MethodNotAllowed(Allow::Post)),
        Method::HeadOnly => Asked::Refused(Refusal::MethodNotAllowed(Allow::Post)),
        Method::OtherMethod => Asked::Refused(Refusal::MethodNotAllowed(Allow::Post)),
    }
}

fn at_turn(method: Method) -> Asked
    ensures { result ≡ at_turn method }
{
    match method {
        Method::Post => Asked::Turn,
        Method::Get => Asked::Refused(Refusal::MethodNotAllowed(Allow::Post)),
        Method::Put => Asked::Refused(Refusal::MethodNotAllowed(Allow::Post)),
        Method::Delete => Asked::Refused(Refusal::MethodNotAllowed(Allow::Post)),
        Method::HeadOnly => Asked::Refused(Refusal::MethodNotAllowed(Allow::Post)),
        Method::OtherMethod => Asked::Refused(Refusal::MethodNotAllowed(Allow::Post)),
    }
}

fn at_version(method: Method) -> Asked
    ensures { result ≡ at_version method }
{
    match method {
        Method::Get => Asked::Version,
        Method::Put => Asked::Refused(Refusal::MethodNotAllowed(Allow::Get)),
        Method::Delete => Asked::Refused(Refusal::MethodNotAllowed(Allow::Get)),
        Method::Post => Asked::Refused(Refusal::MethodNotAllowed(Allow::Get)),
        Method::HeadOnly => Asked::Refused(Refusal::MethodNotAllowed(Allow::Get)),
        Method::OtherMethod => Asked::Refused(Refusal::MethodNotAllowed(Allow::Get)),
    }
}

fn at_target(head: &Head) -> Asked
    ensures { result ≡ at_target head.entry.now head.entry.now.target }
{
    match head.target {
        Target::FrameAt => at_frame(head.method, head.now),
        Target::PatchAt => at_patch(head.method),
        Target::VersionAt => at_version(head.method),
        Target::TurnAt => at_turn(head.method),
        Target::NoTarget => Asked::Refused(Refusal::NoSuchPath),
    }
}

// What is wanted, unless a line of the session isn't well formed.
fn unless_bad_line(head: &Head, wanted: Asked) -> Asked
    ensures { result ≡ unless_bad_line head.entry.now wanted }
{
    if head.bad_seen {
        Asked::Refused(Refusal::BadSeen)
    } else if head.bad_refresh {
        Asked::Refused(Refusal::BadRefresh)
    } else {
        wanted
    }
}

// The same, unless the request is refused already.
fn unless_refused(head: &Head, wanted: Asked) -> Asked
    ensures { result ≡ unless_refused head.entry.now wanted }
{
    match wanted {
        Asked::Refused(why) => Asked::Refused(why),
        Asked::Put => unless_bad_line(head, Asked::Put),
        Asked::Delete => unless_bad_line(head, Asked::Delete),
        Asked::Get => unless_bad_line(head, Asked::Get),
        Asked::GetNow => unless_bad_line(head, Asked::GetNow),
        Asked::Commit => unless_bad_line(head, Asked::Commit),
        Asked::Version => unless_bad_line(head, Asked::Version),
        Asked::Turn => unless_bad_line(head, Asked::Turn),
    }
}

/// What a head asks for. Refusals come in the order in which they are tried.
pub fn asked_by(head: &Head) -> Asked
    ensures { result ≡ asked_by head.entry.now }
{
    if !head.plain {
        Asked::Refused(Refusal::ContentEncoding)
    } else {
        unless_refused(head, at_target(head))
    }
}
