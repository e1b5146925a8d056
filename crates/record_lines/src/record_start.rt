// The first line of a record where it is a set-up that is accepted (document 01, Rounds): it changes the clock of a fresh auction alone, so that a record
// is begun with no auction at hand.
ghost use Rattle.std.specs.Prelude.{◌≡◌, [], ◌∷◌, ◌<◌, IfSome};
ghost use Rattle.std.proofs.Math.Option.{some};
ghost use Rattle.rules_format.specs.Fields.{raw_call, read};
ghost use Rattle.reply_writing.specs.Placed.{most};
ghost use Rattle.record_lines.specs.record_start.Begins.{Begins};

use engine_checks::clock::Clock;
use frame_bytes::{field_reading, lines};

// The bytes of a line that asks a set-up: kind 01, and five fields.
const SET_UP_LINE: usize = 48;

// What a line asks to set up.
#[derive(Clone, Copy)]
struct SetUp {
    ce: u64,
    d: u64,
    m1: u64,
    m2: u64,
    a: u64,
}

// None for a line that asks no set-up.
fn set_up_in(line: &[u8]) -> Option<SetUp>
    ensures { IfSome result (λ asked. read line.now ≡ some (raw_call 1 (asked.ce ∷ asked.d ∷ asked.m1 ∷ asked.m2 ∷ asked.a ∷ []))) }
{
    if line.len() != SET_UP_LINE
        || !field_reading::all_hex(line)
        || field_reading::field(line, 0, 2) != 1
    {
        return None;
    }
    Some(SetUp {
        ce: field_reading::field(line, 2, 8),
        d: field_reading::field(line, 10, 10),
        m1: field_reading::field(line, 20, 10),
        m2: field_reading::field(line, 30, 10),
        a: field_reading::field(line, 40, 8),
    })
}

// Where the lines behind the first one start, the place behind its reply, above the limit where it has more, and the clock that it leaves; where it is no
// accepted set-up, all lines are left, and the clock is that of a fresh auction.
#[derive(Clone, Copy)]
pub struct Begun {
    pub read: usize,
    pub written: usize,
    pub clock: Clock,
}

// The reply is written where it is at most `limit` bytes and lies within `out`.
pub fn begin(bytes: &[u8], limit: usize, out: &mut [u8]) -> Begun
    requires { limit < most }
    ensures { Begins bytes.now limit out.old out.new result }
{
    let fresh = Clock::new();
    let nothing = Begun {
        read: 0,
        written: 0,
        clock: fresh,
    };
    if bytes.len() < SET_UP_LINE {
        return nothing;
    }
    let line = lines::next_line(bytes, 0);
    let Some(asked) = set_up_in(line) else {
        return nothing;
    };
    let turned = engine_auction::setting_up(&fresh, asked.ce, asked.d, asked.m1, asked.m2, asked.a);
    let Ok(clock) = turned else {
        return nothing;
    };
    let written = reply_writing::plain_at(out, limit, 0, 1, 0);
    Begun {
        read: line.len() + 1,
        written,
        clock,
    }
}
