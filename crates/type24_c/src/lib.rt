// The C exports: each of type24's calls under its own name, with its clauses, and no more than the call. A crate is a library for other crates or a static
// library for C hosts, not both; type24 says what each call is.
#![tactic(auto)]

ghost use Rattle.std.specs.Prelude.{◌≡◌};
ghost use Rattle.difference.specs.Difference.{difference_of};
ghost use Rattle.replay.specs.Replay.{replay_of};
ghost use Rattle.sheet.specs.Walk.{verdict_of};
ghost use Rattle.slave.specs.Answers.{sheet_answer};
ghost use Rattle.slave.specs.Calls.{reset_of, enable_of, turn_of};
ghost use Rattle.slave.specs.Exchange.{exchange_of};
ghost use Rattle.type24.specs.Packed.{release, packed, packed_after, after_call, packed_left, left_by_call, lengths_of, packed_replay, by_replay, packed_list, by_difference};

// The release of this archive, which the header has too: it goes up where a host with the old header would lend or read otherwise.
#[unsafe(no_mangle)]
pub extern "C" fn t24_version() -> u64
    ensures { result ≡ release }
{
    type24::t24_version()
}

// The verdict on a sheet: 0, or a fault with its place.
#[unsafe(no_mangle)]
pub extern "C" fn t24_sheet(sheet: &[u8]) -> u64
    ensures { result ≡ packed (sheet_answer (verdict_of sheet.now)) }
{
    type24::t24_sheet(sheet)
}

// The lengths that a host lends by a valid sheet: L + 2^32 × memory length; 0 for a refused one.
#[unsafe(no_mangle)]
pub extern "C" fn t24_lengths(sheet: &[u8]) -> u64
    ensures { result ≡ lengths_of (verdict_of sheet.now) }
{
    type24::t24_lengths(sheet)
}

#[unsafe(no_mangle)]
pub extern "C" fn t24_reset(sheet: &[u8], state: &mut [u8]) -> u64
    ensures { packed_after result state.new ≡ after_call (reset_of sheet.now state.old) }
{
    type24::t24_reset(sheet, state)
}

// A state record of release 1 turned into one of today; the old one is only read.
#[unsafe(no_mangle)]
pub extern "C" fn t24_turn(sheet: &[u8], old: &[u8], state: &mut [u8]) -> u64
    ensures { packed_after result state.new ≡ after_call (turn_of sheet.now old.now state.old) }
{
    type24::t24_turn(sheet, old, state)
}

#[unsafe(no_mangle)]
pub extern "C" fn t24_enable(sheet: &[u8], state: &mut [u8]) -> u64
    ensures { packed_after result state.new ≡ after_call (enable_of sheet.now state.old) }
{
    type24::t24_enable(sheet, state)
}

#[unsafe(no_mangle)]
pub extern "C" fn t24_exchange(
    sheet: &[u8],
    state: &mut [u8],
    memory: &mut [u8],
    command: &[u8],
    reply: &mut [u8],
) -> u64
    ensures { packed_left result state.new memory.new reply.new ≡ left_by_call (exchange_of sheet.now state.old memory.old command.now reply.old) }
{
    type24::t24_exchange(sheet, state, memory, command, reply)
}

// The replay of a fitter's trace: 0 with the number of records where all agree, 34 with 64 × the record's number + the first differing octet, or a
// refusal with its place.
#[unsafe(no_mangle)]
pub extern "C" fn t24_replay(sheet: &[u8], state: &mut [u8], memory: &mut [u8], trace: &[u8]) -> u64
    ensures { packed_replay result state.new memory.new ≡ by_replay (replay_of sheet.now state.old memory.old trace.now) }
{
    type24::t24_replay(sheet, state, memory, trace)
}

// What changed between two sheets: 0 with the length of the list, 28 with the length that it needs, or a fault of the first sheet, or of the second, ten
// higher, with its place. A refusal writes nothing.
#[unsafe(no_mangle)]
pub extern "C" fn t24_difference(first: &[u8], second: &[u8], list: &mut [u8]) -> u64
    ensures { packed_list result list.new ≡ by_difference (difference_of first.now second.now list.old) }
{
    type24::t24_difference(first, second, list)
}
