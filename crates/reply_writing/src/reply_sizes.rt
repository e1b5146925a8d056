// A reply in numbers, the form of what its kind adds, and its size.
ghost use Rattle.std.specs.Prelude.{◌≡◌, length};
ghost use Rattle.rules_replies.specs.Lengths.{most_of};
ghost use Rattle.reply_writing.specs.reply_sizes.Texts.{FormOf, size_of, text_of};

use frame_bytes::field_writing;

// The values of the fields that an accepted reply adds before its award records and behind them.
#[derive(Clone, Copy)]
pub struct Values {
    pub head: [u64; 8],
    pub tail: [u64; 8],
}

// The bytes of 32 award records.
pub const AWARD_ROOM: usize = 192;

// The kind (255 for a malformed line) and the answer; what an accepted reply adds, with so many bytes of award records.
#[derive(Clone, Copy)]
pub struct Reply {
    pub kind: u8,
    pub number: u8,
    pub values: Values,
    pub filled: usize,
    pub awards: [u8; AWARD_ROOM],
}

// What a reply of a kind can add: the widths of its fields before its award records, the most bytes of those, and the widths behind them. A
// place of width 0 is none.
#[derive(Clone, Copy)]
pub struct Form {
    pub head: [usize; 8],
    pub room: usize,
    pub tail: [usize; 8],
}

// 05: the excess, the remainder.
const CLOSING: Form = Form {
    head: [16, 8, 0, 0, 0, 0, 0, 0],
    room: 0,
    tail: [0; 8],
};

// 06: P, Dem, total, choices, covering, awards; behind the awards the remainder, the second price and its mark, the mark of participation and the
// price paid to existing plants.
const SETTLING: Form = Form {
    head: [8, 10, 10, 8, 8, 2, 0, 0],
    room: AWARD_ROOM,
    tail: [8, 8, 2, 2, 8, 0, 0, 0],
};

// The others add nothing.
const PLAIN: Form = Form {
    head: [0; 8],
    room: 0,
    tail: [0; 8],
};

pub fn form_of(kind: u8) -> Form
    ensures { FormOf kind result }
{
    if kind == 5 {
        return CLOSING;
    }
    if kind == 6 {
        return SETTLING;
    }
    PLAIN
}

// How many bytes an accepted reply of this kind has, if so many bytes of award records are there: each shown is two digits; kind, answer and 0A
// are five bytes.
fn size_of(kind: u8, filled: usize) -> usize
    ensures { result ≡ size_of kind filled }
{
    let form = form_of(kind);
    5 + field_writing::span_of(&form.head)
        + 2 * filled.min(form.room)
        + field_writing::span_of(&form.tail)
}

// The most bytes of a reply of this kind.
pub fn most(kind: u8) -> usize
    ensures { result ≡ most_of kind }
{
    size_of(kind, AWARD_ROOM)
}

// How many bytes the reply has.
pub fn size(reply: Reply) -> usize
    ensures { result ≡ length (text_of reply) }
{
    if reply.number != 0 {
        return 5;
    }
    size_of(reply.kind, reply.filled)
}
