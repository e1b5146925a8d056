// A function for each kind of frame (document 02, 2): what it asks, any numbers and lists of any lengths, written as a frame at the start of a
// lent buffer. The contracts name the order that the frame's line then asks.
ghost use Rattle.std.specs.Prelude.{◌≡◌, ◌++◌, ◌+◌, ◌*◌, ◌≤◌, length, take};
ghost use Rattle.rules_auction.specs.Ledger.{settings_of, Offer, Lodge, Cancel, SetUp, Open, By, Close};
ghost use Rattle.rules_format.specs.Fields.{raw_call};
ghost use Rattle.rules_replies.specs.Orders.{Asks, Settle};
ghost use Rattle.rules_replies.specs.WrittenOrders.{paired};
ghost use Rattle.frame_writing.specs.Encodes.{written_in, Encodes};
ghost use Rattle.frame_writing.specs.each_call.Writes.{registration, registration_for, Writes, WritesSteps};

use engine_refusals::Refusal;

// ---- lists of fields

// The first `at` fields, then a list.
fn with_list(fields: [u64; 32], at: usize, list: &[u64]) -> [u64; 32]
    requires { at + length list.now ≤ 32 }
    ensures { take (at + length list.now) result ≡ take at fields ++ list.now }
{
    let mut joined = fields;
    joined[at..at + list.len()].copy_from_slice(list);
    joined
}

// Price and level of each step.
fn steps_of(prices: &[u64], levels: &[u64]) -> [u64; 32]
    requires { (length prices.now ≡ length levels.now) × (length prices.now ≤ 16) }
    ensures { take (2 * length prices.now) result ≡ paired prices.now levels.now }
{
    let mut steps = [0; 32];
    for (i, price) in prices.iter().enumerate() {
        steps[2 * i] = *price;
        steps[2 * i + 1] = levels[i];
    }
    steps
}

// Writes a frame whose fields are a few, then a list; more than 32 are not writable.
fn write_list(kind: usize, head: &[u64], list: &[u64], frame: &mut [u8]) -> Result<usize, Refusal>
    requires { length head.now ≤ 8 }
    ensures { Encodes (raw_call kind (head.now ++ list.now)) frame.old frame.new (written_in result) }
{
    let few = head.len();
    if 32 - few < list.len() {
        return Err(Refusal::NotWritable);
    }
    let first = with_list([0; 32], 0, head);
    let fields = with_list(first, few, list);
    crate::encode(kind, &fields[..few + list.len()], frame)
}

// Writes a frame of a developer's steps; lists of unequal lengths and more than 16 steps are not writable.
fn write_steps(
    kind: usize,
    developer: u64,
    prices: &[u64],
    levels: &[u64],
    frame: &mut [u8],
) -> Result<usize, Refusal>
    ensures { WritesSteps kind developer prices.now levels.now frame.old frame.new (written_in result) }
{
    let n = prices.len();
    if n != levels.len() || 16 < n {
        return Err(Refusal::NotWritable);
    }
    let head = [developer, n as u64];
    let steps = steps_of(prices, levels);
    write_list(kind, &head, &steps[..2 * n], frame)
}

// ---- the kinds

// 01 set-up.
pub fn write_set_up(
    ce: u64,
    d: u64,
    m1: u64,
    m2: u64,
    a: u64,
    frame: &mut [u8],
) -> Result<usize, Refusal>
    ensures { Writes (Asks (SetUp (settings_of ce d m1 m2 a))) frame.old frame.new (written_in result) }
{
    let fields = [ce, d, m1, m2, a];
    crate::encode(1, &fields, frame)
}

// 02 registration.
pub fn write_registration(
    project: u64,
    developer: u64,
    kind: u64,
    study: u64,
    day: u64,
    levels: &[u64],
    frame: &mut [u8],
) -> Result<usize, Refusal>
    ensures { Writes (registration project developer kind study day levels.now) frame.old frame.new (written_in result) }
{
    let head = [project, developer, kind, study, day, levels.len() as u64];
    write_list(2, &head, levels, frame)
}

// 03 open.
pub fn write_opening(c: u64, frame: &mut [u8]) -> Result<usize, Refusal>
    ensures { Writes (Asks (Open c)) frame.old frame.new (written_in result) }
{
    let fields = [c];
    crate::encode(3, &fields, frame)
}

// 04 offer.
pub fn write_offer(
    developer: u64,
    prices: &[u64],
    levels: &[u64],
    frame: &mut [u8],
) -> Result<usize, Refusal>
    ensures { Writes (Asks (By developer (Offer prices.now levels.now))) frame.old frame.new (written_in result) }
{
    write_steps(4, developer, prices, levels, frame)
}

// 05 close.
pub fn write_closing(frame: &mut [u8]) -> Result<usize, Refusal>
    ensures { Writes (Asks Close) frame.old frame.new (written_in result) }
{
    let fields: [u64; 0] = [];
    crate::encode(5, &fields, frame)
}

// 06 settle.
pub fn write_settling(limit: u64, frame: &mut [u8]) -> Result<usize, Refusal>
    ensures { Writes (Settle limit) frame.old frame.new (written_in result) }
{
    let fields = [limit];
    crate::encode(6, &fields, frame)
}

// 07 lodging (document 02, 5).
pub fn write_lodging(
    developer: u64,
    prices: &[u64],
    levels: &[u64],
    frame: &mut [u8],
) -> Result<usize, Refusal>
    ensures { Writes (Asks (By developer (Lodge prices.now levels.now))) frame.old frame.new (written_in result) }
{
    write_steps(7, developer, prices, levels, frame)
}

// 08 registration with its agent (document 02, 10).
pub fn write_registration_for(
    project: u64,
    developer: u64,
    kind: u64,
    agent: u64,
    study: u64,
    day: u64,
    levels: &[u64],
    frame: &mut [u8],
) -> Result<usize, Refusal>
    ensures { Writes (registration_for project developer kind agent study day levels.now) frame.old frame.new (written_in result) }
{
    let head = [
        project,
        developer,
        kind,
        agent,
        study,
        day,
        levels.len() as u64,
    ];
    write_list(8, &head, levels, frame)
}

// 09 cancellation (document 02, 7).
pub fn write_cancellation(developer: u64, frame: &mut [u8]) -> Result<usize, Refusal>
    ensures { Writes (Asks (By developer Cancel)) frame.old frame.new (written_in result) }
{
    let fields = [developer];
    crate::encode(9, &fields, frame)
}
