// What is said on standard error.
use std::io;
use std::io::Write;

// The system's words, without the number that `Display` adds.
fn words<'a>(error: &io::Error, buffer: &'a mut [u8]) -> &'a str {
    let room = buffer.len();
    let mut rest = &mut buffer[..];
    let _ = write!(rest, "{error}");
    let left = rest.len();
    let all = &buffer[..room.saturating_sub(left)];
    let text = std::str::from_utf8(all).unwrap_or("");
    match text.find(" (os error ") {
        Some(end) => &text[..end],
        None => text,
    }
}

// A line: what failed, and the system's words for it.
pub(crate) fn say(rt: &HostRuntime, what: &str, error: &io::Error) {
    let mut buffer = [0u8; 256];
    let reason = words(error, &mut buffer);
    let _ = eprintln!(rt; "error: {what}: {reason}");
}
