// The award records: how many there are, and how they are written into a lent buffer.
ghost use Rattle.std.specs.Prelude.{◌≡◌, ◌*◌, ◌≤◌, length};
ghost use mathlib.Core.List.{flatten};
ghost use Rattle.rules_numbers.specs.Tails.{laid};
ghost use Rattle.rules_auction.specs.Settling.{record_of};
ghost use Rattle.engine_award.specs.award_records.Records.{award_count, records_of};

// The bytes of a record.
pub const RECORD: usize = 6;

// How many projects are awarded a level above 0.
pub fn count_awards(award: [u32; 32]) -> usize
    ensures { (result ≡ award_count award) × (result ≤ 32) }
{
    award.iter().filter(|level| 0 < **level).count()
}

// The records of the awards, by rising project, from the buffer's start; the bytes behind them stay.
pub fn write_awards(awards: &mut [u8], award: [u32; 32], winners: [u8; 32])
    requires { 6 * award_count award ≤ length awards.old }
    ensures { awards.new ≡ laid (flatten (records_of 1 award winners)) awards.old }
{
    let mut used: usize = 0;
    for i in 0..32 {
        let v = award[i];
        if 0 < v {
            write_record(&mut awards[used..], (i + 1) as u8, winners[i], v);
            used += RECORD;
        }
    }
}

// One award record, 6 bytes: project, developer, level with the high byte first.
#[tactic(auto, unfolding(rules_numbers::specs::Tails::laid))]
fn write_record(out: &mut [u8], project: u8, developer: u8, level: u32)
    requires { 6 ≤ length out.old }
    ensures { out.new ≡ laid (record_of project developer level) out.old }
{
    out[0] = project;
    out[1] = developer;
    out[2..RECORD].copy_from_slice(&level.to_be_bytes());
}
