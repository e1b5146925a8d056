// The fields of a frame as the arguments of a call: bytes, words, columns of words, the steps of a move, and a registration's numbers.
ghost use Rattle.std.specs.Prelude.{◌≡◌, ℕ, ◌+◌, ◌*◌, ◌^◌, ◌≤◌, ◌<◌, length, take, get_or};
ghost use Rattle.frame_reading.specs.arguments.FrameFields.{fields_in, every, Stepped, StepsIn, Registering, RegistrationIn};

use crate::frames::Frame;

// The field at place j of the first `count` ones, 0 where there is none. The fields are lent: a frame would be copied for each of a column.
fn field_at(fields: &[u64], count: usize, j: usize) -> u64
    ensures { result ≡ get_or (take count fields.now) j 0 }
{
    if j < count && j < fields.len() {
        fields[j]
    } else {
        0
    }
}

// The field at place j, 0 where the frame has none.
#[tactic(auto, unfolding(crate::specs::arguments::FrameFields::fields_in))]
pub fn field(frame: Frame, j: usize) -> u64
    ensures { result ≡ get_or (fields_in frame) j 0 }
{
    field_at(&frame.fields, frame.count, j)
}

// A field of two digits.
pub fn byte(frame: Frame, j: usize) -> u8
    requires { get_or (fields_in frame) j 0 < 256 }
    ensures { result ≡ get_or (fields_in frame) j 0 }
{
    field(frame, j) as u8
}

// A field of eight digits.
pub fn word(frame: Frame, j: usize) -> u32
    requires { get_or (fields_in frame) j 0 < 2 ^ 32 }
    ensures { result ≡ get_or (fields_in frame) j 0 }
{
    field(frame, j) as u32
}

// The n fields of eight digits from place `from` on, so far apart.
fn column(fields: &[u64; 32], count: usize, from: usize, apart: usize, n: usize) -> [u32; 16]
    requires { (length fields.now ≡ 32) × (from ≤ 8) × (apart ≤ 2) × (n ≤ 16) × ((i : ℕ) → get_or (take count fields.now) (from + apart * i) 0 < 2 ^ 32) }
    ensures { (take n result ≡ every from apart n (take count fields.now)) × (length result ≡ 16) }
{
    let mut values = [0; 16];
    for i in 0..n {
        values[i] = field_at(fields, count, from + apart * i) as u32;
    }
    values
}

// The developer and the steps of a move, in two columns.
#[derive(Clone, Copy)]
pub struct Steps {
    pub developer: u8,
    pub count: usize,
    pub prices: [u32; 16],
    pub levels: [u32; 16],
}

pub fn steps_in(frame: Frame) -> Steps
    requires { Stepped frame }
    ensures { StepsIn frame result }
{
    let n = byte(frame, 1) as usize;
    let fields = frame.fields;
    Steps {
        developer: byte(frame, 0),
        count: n,
        prices: column(&fields, frame.count, 2, 2, n),
        levels: column(&fields, frame.count, 3, 2, n),
    }
}

// The numbers of a registration but for its agent, its levels in a column.
#[derive(Clone, Copy)]
pub struct Registration {
    pub project: u8,
    pub developer: u8,
    pub kind: u8,
    pub study: u32,
    pub day: u32,
    pub count: usize,
    pub levels: [u32; 16],
}

// The study value stands at place `at`: 3, or 4 behind the agent.
pub fn registration_in(frame: Frame, at: usize) -> Registration
    requires { Registering at frame }
    ensures { RegistrationIn at frame result }
{
    let n = byte(frame, at + 2) as usize;
    let fields = frame.fields;
    Registration {
        project: byte(frame, 0),
        developer: byte(frame, 1),
        kind: byte(frame, 2),
        study: word(frame, at),
        day: word(frame, at + 1),
        count: n,
        levels: column(&fields, frame.count, at + 3, 1, n),
    }
}
