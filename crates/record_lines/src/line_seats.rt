// The frame in a line of a record or, where `seated` says so, of a session, and whether the seat that the line names has no right to what it asks.
ghost use Rattle.std.specs.Prelude.{◌≡◌, get_or};
ghost use Rattle.frame_reading.specs.arguments.FrameFields.{fields_in};
ghost use Rattle.record_lines.specs.line_seats.FrameParts.{frame_part, barred_by};

use frame_reading::arguments;
use frame_reading::frames::Frame;
use seats::session_lines;

// In a record the whole line, in a session what stands behind the seat.
pub fn frame_part(line: &[u8], seated: bool) -> &[u8]
    ensures { result.now ≡ frame_part seated line.now }
{
    if seated {
        return session_lines::frame_part(line);
    }
    line
}

// Whether the line, whose frame this is, is refused by 20 (document 02, 14), which no line of a record is: there nothing of the frame is read.
pub fn is_barred(line: &[u8], seated: bool, frame: Frame) -> bool
    ensures { result ≡ barred_by seated line.now frame.kind (get_or (fields_in frame) 0 0) }
{
    seated && session_lines::is_barred(line, frame.kind, arguments::field(frame, 0))
}
