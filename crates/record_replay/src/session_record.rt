// The plain record of a session (docs/FORMAT.md, sessions): the frames of all lines that 20 does not refuse, settlings among them and malformed lines left
// out, each with its 0A. Nothing is written unless all fits.
ghost use Rattle.std.specs.Prelude.{◌≡◌, ◌≤◌, ◌<◌, [], IfSome, IfNone, leb, length, take, drop};
ghost use Rattle.rules_numbers.specs.Tails.{laid};
ghost use Rattle.rules_format.specs.Hex.{hex_number};
ghost use Rattle.rules_seats.specs.sessions.Sessions.{session_record};
ghost use Rattle.record_replay.specs.Replayed.{hosted, over};
ghost use Rattle.record_replay.specs.session_record.KeptFrames.{kept_frame, kept_text};

use crate::host_numbers;
use engine_refusals::Refusal;
use frame_bytes::{field_reading, field_writing, lines};
use frame_reading::frames;
use seats::session_lines;

// The developer that an offer or a cancellation is for: the two digits behind the kind.
fn developer_in(frame: &[u8]) -> u64
    ensures { 4 ≤ length frame.now → result ≡ hex_number (take 2 (drop 2 frame.now)) }
{
    if frame.len() < 4 {
        return 0;
    }
    field_reading::field(frame, 2, 2)
}

// The frame that the record has of a line.
fn kept_frame(line: &[u8]) -> Option<&[u8]>
    ensures kept { IfSome result (λ frame. (frame.now ≡ kept_frame line.now) × (0 < length frame.now)) }
    ensures left_out { IfNone result (kept_frame line.now ≡ []) }
{
    let part = session_lines::frame_part(line);
    let kind = frames::kind_in(part);
    if kind == 0 {
        return None;
    }
    if session_lines::is_barred(line, kind, developer_in(part)) {
        return None;
    }
    Some(part)
}

// How many bytes the record has of a line.
fn kept_size(line: &[u8]) -> usize
    ensures { result ≡ length (kept_text line.now) }
{
    match kept_frame(line) {
        Some(frame) => frame.len() + 1,
        None => 0,
    }
}

// Whether the record fits so many bytes.
fn record_fits(session: &[u8], room: usize) -> bool
    ensures { result ≡ leb (length (session_record session.now)) room }
{
    let mut at: usize = 0;
    let mut used: usize = 0;
    while at < session.len() {
        let line = lines::next_line(session, at);
        let n = kept_size(line);
        if room - used < n {
            return false;
        }
        used += n;
        at = at + line.len() + 1;
    }
    true
}

// Copies bytes to the start of a buffer; those behind them stay. It is a loop, since of `copy_from_slice` here the compiler makes a call of memmove, which no
// other call of the library needs of a host.
fn copy(bytes: &[u8], out: &mut [u8])
    requires { length bytes.now ≤ length out.old }
    ensures { out.new ≡ laid bytes.now out.old }
{
    for (i, &byte) in bytes.iter().enumerate() {
        out[i] = byte;
    }
}

// Writes what the record has of a line at the start of a buffer, and gives how many bytes that are.
fn put_kept(line: &[u8], out: &mut [u8]) -> usize
    requires { length (kept_text line.now) ≤ length out.old }
    ensures { (result ≡ length (kept_text line.now)) × (out.new ≡ laid (kept_text line.now) out.old) }
{
    let Some(frame) = kept_frame(line) else {
        return 0;
    };
    let n = frame.len();
    copy(frame, out);
    field_writing::put_byte(&mut out[n..], 10);
    n + 1
}

// Writes the record at the start of a buffer that it fits, and gives how many bytes it has.
fn put_record(session: &[u8], out: &mut [u8]) -> usize
    requires { length (session_record session.now) ≤ length out.old }
    ensures { (result ≡ length (session_record session.now)) × (out.new ≡ laid (session_record session.now) out.old) }
{
    let mut at: usize = 0;
    let mut used: usize = 0;
    while at < session.len() {
        let line = lines::next_line(session, at);
        let n = put_kept(line, &mut out[used..]);
        used += n;
        at = at + line.len() + 1;
    }
    used
}

// Writes the plain record of a session: how many bytes it has, or 2^64 less 11 where it does not fit the buffer.
pub fn session_record(session: &[u8], out: &mut [u8]) -> u64
    ensures value { result ≡ hosted (session_record session.now) out.old }
    ensures out_after { out.new ≡ over (session_record session.now) out.old }
{
    if !record_fits(session, out.len()) {
        return host_numbers::host_number(Err(Refusal::BufferTooShort));
    }
    put_record(session, out) as u64
}
