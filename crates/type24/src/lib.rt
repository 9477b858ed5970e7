// The slave's calls for C hosts: numbers and byte slices alone cross this boundary, and every call checks every lent length itself.
// The archive that hosts link is made of the crate type24_c, which exports each of these calls under its own name.
// An answer is one number: document 01's, or for a replay or a difference document 02's or our own, + 2^32 × place; of `t24_lengths` it is L + 2^32 × the memory's length, of
// `t24_version` the release.
#![tactic(auto)]

ghost use Rattle.std.specs.Prelude.{◌≡◌, MatchResult};
ghost use Rattle.difference.specs.Difference.{difference_of};
ghost use Rattle.replay.specs.Replay.{replay_of};
ghost use Rattle.sheet.specs.Walk.{verdict_of};
ghost use Rattle.slave.specs.Answers.{told, sheet_answer};
ghost use Rattle.slave.specs.Calls.{reset_of, enable_of, turn_of};
ghost use Rattle.slave.specs.Exchange.{exchange_of};
ghost use Rattle.slave.specs.declared.answers.Answer.{Answer};
ghost use Rattle.type24.specs.Packed.{release, packed, packed_after, after_call, packed_left, left_by_call, lengths_of, packed_replay, by_replay, packed_list, by_difference};

use slave::answers::Answer;

// An answer as one number.
fn in_one(answer: Answer) -> u64
    ensures { result ≡ packed answer }
{
    u64::from(answer.number) + 4294967296 * u64::from(answer.place)
}

// What a call comes to as one number: 0 with the place that it tells, or what refuses it.
fn pack<E: Into<Answer>>(came: Result<u32, E>) -> u64
    ensures { MatchResult came (λ place. result ≡ packed (told 0 place)) (λ refusal. (answer : Answer) × E.converts refusal answer × (result ≡ packed answer)) }
{
    in_one(match came {
        Ok(place) => slave::answers::done(place),
        Err(refusal) => refusal.into(),
    })
}

// The release of this archive, which the header has too: it goes up where a host with the old header would lend or read otherwise.
#[unsafe(no_mangle)]
pub extern "C" fn t24_version() -> u64
    ensures { result ≡ release }
{
    3
}

// The verdict on a sheet: 0, or a fault with its place.
#[unsafe(no_mangle)]
pub extern "C" fn t24_sheet(sheet: &[u8]) -> u64
    ensures { result ≡ packed (sheet_answer (verdict_of sheet.now)) }
{
    in_one(slave::answers::sheet_answer(sheet::walk::check(sheet)))
}

// The lengths that a host lends by a valid sheet: L + 2^32 × memory length; 0 for a refused one.
#[unsafe(no_mangle)]
pub extern "C" fn t24_lengths(sheet: &[u8]) -> u64
    ensures { result ≡ lengths_of (verdict_of sheet.now) }
{
    match sheet::walk::check(sheet) {
        Ok(layout) => u64::from(layout.l) + 4294967296 * u64::from(layout.memory),
        Err(_) => 0,
    }
}

#[unsafe(no_mangle)]
pub extern "C" fn t24_reset(sheet: &[u8], state: &mut [u8]) -> u64
    ensures { packed_after result state.new ≡ after_call (reset_of sheet.now state.old) }
{
    pack(slave::calls::reset(sheet, state).map(|()| 0))
}

// A state record of release 1 turned into one of today; the old one is only read.
#[unsafe(no_mangle)]
pub extern "C" fn t24_turn(sheet: &[u8], old: &[u8], state: &mut [u8]) -> u64
    ensures { packed_after result state.new ≡ after_call (turn_of sheet.now old.now state.old) }
{
    pack(slave::turning::turn(sheet, old, state).map(|()| 0))
}

#[unsafe(no_mangle)]
pub extern "C" fn t24_enable(sheet: &[u8], state: &mut [u8]) -> u64
    ensures { packed_after result state.new ≡ after_call (enable_of sheet.now state.old) }
{
    pack(slave::calls::enable(sheet, state).map(|()| 0))
}

#[unsafe(no_mangle)]
pub extern "C" fn t24_exchange(
    sheet: &[u8],
    state: &mut [u8],
    memory: &mut [u8],
    command: &[u8],
    reply: &mut [u8],
) -> u64
    ensures { packed_left result state.new memory.new reply.new ≡ left_by_call (exchange_of sheet.now state.old memory.old command.now reply.old) }
{
    pack(slave::exchanging::exchange(sheet, state, memory, command, reply))
}

// The replay of a fitter's trace: 0 with the number of records where all agree, 34 with 64 × the record's number + the first differing octet, or a
// refusal with its place.
#[unsafe(no_mangle)]
pub extern "C" fn t24_replay(sheet: &[u8], state: &mut [u8], memory: &mut [u8], trace: &[u8]) -> u64
    ensures { packed_replay result state.new memory.new ≡ by_replay (replay_of sheet.now state.old memory.old trace.now) }
{
    pack(replay::playing::replay(sheet, state, memory, trace))
}

// What changed between two sheets: 0 with the length of the list, 28 with the length that it needs, or a fault of the first sheet, or of the second, ten
// higher, with its place. A refusal writes nothing.
#[unsafe(no_mangle)]
#[tactic(auto, unfolding(difference::specs::Answers::entered_answer))]
pub extern "C" fn t24_difference(first: &[u8], second: &[u8], list: &mut [u8]) -> u64
    ensures { packed_list result list.new ≡ by_difference (difference_of first.now second.now list.old) }
{
    pack(difference::whole::difference(first, second, list))
}
