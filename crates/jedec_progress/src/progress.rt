// What the fields of a text gave so far, and whether a field may stand after them.
// A function here may require that offsets and counts are below the limit of a text.
ghost use Rattle.std.specs.Prelude.{◌≡◌, ◌+◌, ◌<◌, ◌≤◌};
ghost use Rattle.jedec.specs.Meaning.{longest};
ghost use Rattle.jedec_progress.specs.Progress.{no_progress, may_stand, misplaced_after, missing_after};
ghost use Rattle.jedec_progress.specs.Progress.{with_list, FewStates, after_field};

use jedec_judge::FieldSays;

// A number that a field gave, and where the field starts.
#[derive(Clone, Copy, Debug, PartialEq, Eq)]
pub struct GivenAt {
    pub at: u32,
    pub value: u32,
}

// What the fields so far gave: QF, the start state, where the last L ended, where the first misplaced one starts, the
// first fuse that no L gave (unless one is misplaced), and C.
#[derive(Clone, Copy, Debug, PartialEq, Eq)]
pub struct Progress {
    pub count: Option<GivenAt>,
    pub start: Option<u32>,
    pub end: Option<usize>,
    pub misplaced: Option<u32>,
    pub missing: usize,
    pub sum: Option<GivenAt>,
}

// Where the first misplaced L starts: one before, or this one.
fn misplaced_after(
    fuses: u32,
    before: Option<u32>,
    end: usize,
    at: u32,
    first: u32,
    count: usize,
) -> Option<u32>
    requires { count ≤ longest }
    ensures { result ≡ misplaced_after fuses before end at first count }
{
    let from = first as usize;
    let is_misplaced = from < end || (fuses as usize) < from + count;
    before.or(is_misplaced.then_some(at))
}

// The first fuse that no L gives: the end of an L that starts at the one so far, else that one still.
fn missing_after(before: usize, from: usize, end: usize) -> usize
    ensures { result ≡ missing_after before from end }
{
    if from == before { end } else { before }
}

impl Progress {
    // What is known before any field.
    pub fn new() -> Progress
        ensures { result ≡ no_progress }
    {
        Progress {
            count: None,
            start: None,
            end: None,
            misplaced: None,
            missing: 0,
            sum: None,
        }
    }

    // Whether a field may stand after the fields so far.
    pub fn may_stand(self, says: FieldSays) -> bool
        ensures { result ≡ may_stand self says }
    {
        match says {
            FieldSays::Count(_) => self.count.is_none(),
            FieldSays::Start(_) => self.count.is_some()
                && self.start.is_none()
                && self.end.is_none(),
            FieldSays::List(_) | FieldSays::Sum(_) => self.count.is_some() && self.sum.is_none(),
            FieldSays::Skipped => true,
            FieldSays::Bad => false,
        }
    }

    // What is known after an L field of so many states.
    fn with_list(self, fuses: u32, at: u32, first: u32, count: usize) -> Progress
        requires { count ≤ longest }
        ensures { result ≡ with_list fuses self at first count }
    {
        let from = first as usize;
        let end = from + count;
        let before = self.end.unwrap_or(0);
        Progress {
            end: Some(end),
            misplaced: misplaced_after(fuses, self.misplaced, before, at, first, count),
            missing: missing_after(self.missing, from, end),
            ..self
        }
    }

    // What is known after a field that starts at an offset.
    pub fn after_field(self, fuses: u32, at: u32, says: FieldSays) -> Progress
        requires { FewStates says }
        ensures { result ≡ after_field fuses self at says }
    {
        match says {
            FieldSays::Count(value) => Progress {
                count: Some(GivenAt { at, value }),
                ..self
            },
            FieldSays::Start(state) => Progress {
                start: Some(state),
                ..self
            },
            FieldSays::List(list) => self.with_list(fuses, at, list.first, list.count),
            FieldSays::Sum(value) => Progress {
                sum: Some(GivenAt { at, value }),
                ..self
            },
            FieldSays::Skipped | FieldSays::Bad => self,
        }
    }
}
