// L fields by what follows the L: digits, a blank, states and blanks.
// Each byte of a good one is looked at once.
ghost use Rattle.jedec_fields.specs.Fields.{RunStands, ListStands};

use jedec_judge::digits::leading_digits;
use jedec_judge::{FuseList, STATES_IN_WORD};
use jedec_runs::states::{bits_at, blank_at, states_at};

// Bytes from the first on that are 0, 1 and blanks, how many states they write, and these states if they are few.
#[derive(Clone, Copy, Debug, PartialEq, Eq)]
pub struct StatesRun {
    pub length: usize,
    pub count: usize,
    pub bits: u64,
}

// A good L field by what follows the L: what it says, and how many bytes stand before its `*`.
#[derive(Clone, Copy, Debug, PartialEq, Eq)]
pub struct ListField {
    pub says: FuseList,
    pub length: usize,
}

// How many of the first bytes are 0, 1 and blanks, and how many states they write. The first states are kept, so that
// an L field of a few states is not read a second time.
fn states_run(bytes: &[u8]) -> StatesRun
    ensures { RunStands bytes.now result }
{
    let mut run = StatesRun {
        length: 0,
        count: 0,
        bits: 0,
    };
    // Each turn goes on by as many bytes as it takes, up to nine, so this is no `for`.
    while run.length < bytes.len() {
        let count = states_at(bytes, run.length);
        let taken = count + blank_at(bytes, run.length + count) as usize;
        if taken == 0 {
            return run;
        }
        if run.count <= STATES_IN_WORD {
            run.bits += bits_at(bytes, run.length, count) << run.count;
        }
        run.count += count;
        run.length += taken;
    }
    run
}

// A good L field, found and judged at once by what follows the L; any other is bad. It stays a function of its own:
// compiled into the reader, its loops would keep their numbers in memory.
#[inline(never)]
pub fn list_field(bytes: &[u8]) -> Option<ListField>
    ensures { ListStands bytes.now result }
{
    let digits = leading_digits(bytes);
    if digits.length == 0 || !blank_at(bytes, digits.length) {
        return None;
    }
    let skip = digits.length + 1;
    let run = states_run(&bytes[skip..]);
    let length = skip + run.length;
    if length == bytes.len() || bytes[length] != b'*' || run.count == 0 {
        return None;
    }
    let says = FuseList {
        first: digits.value,
        skip,
        count: run.count,
        bits: run.bits,
    };
    Some(ListField { says, length })
}
