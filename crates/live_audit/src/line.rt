//! The line of a request's audit.
ghost use Rattle.std.specs.Prelude.{◌≡◌, Some, string_bytes, IfOk};
ghost use Rattle.live_audit.specs.AuditLines.{request_line, request_text};

use audit_core::Audit;
use live_agent::AnsweredRequest;
use std::alloc::{AllocError, Global};
use std::fmt;

// Which request it is.
#[derive(Drop)]
struct WrittenRequest(AnsweredRequest);

/// As `17 192.0.2.7:40000 12`: the number of its entry, who asked, and the request-id.
impl fmt::Display for WrittenRequest {
    ghost output = { λ request. Some (request_text request.0) };

    #[tactic(auto, unfolding(crate::specs::AuditLines::request_text))]
    fn fmt<W: fmt::Write>(&self, f: &mut fmt::Formatter<W>) -> fmt::Result {
        let AnsweredRequest {
            number,
            peer,
            request_id,
        } = self.0;
        write!(f, "{number} {peer} {request_id}")
    }
}

// A request and its audit.
#[derive(Drop)]
struct WrittenLine<'a> {
    request: AnsweredRequest,
    audit: &'a Audit,
}

/// As `17 192.0.2.7:40000 12 get 0 0 empty`, with a line feed behind that.
impl fmt::Display for WrittenLine<'_> {
    ghost output = { λ line. Some (request_line line.request line.audit.now) };

    #[tactic(auto, unfolding(crate::specs::AuditLines::request_line))]
    fn fmt<W: fmt::Write>(&self, f: &mut fmt::Formatter<W>) -> fmt::Result {
        let request = WrittenRequest(self.request);
        let audit = self.audit;
        writeln!(f, "{request} {audit}")
    }
}

/// The line of a request: the number of its entry, who asked, the request-id and the audit, with a
/// blank between them, and a line feed, as `17 192.0.2.7:40000 12 get 0 0 empty`. Takes memory for it.
pub fn audited_line(
    alloc: Global,
    request: AnsweredRequest,
    audit: &Audit,
) -> Result<String, AllocError>
    ensures { IfOk result (λ line. string_bytes line ≡ request_line request audit.now) }
{
    WrittenLine { request, audit }.to_string(alloc)
}
